//! Calls over a bad line.

ghost use Rattle.calls.specs.Calls.{HaveRows};
ghost use Rattle.commands.specs.Files.{drive_files, named_in};
ghost use Rattle.commands.specs.Runs.{AreDriven, IsDriven, IsUndriven};
ghost use Rattle.std.specs.Prelude.{◌≡◌, IfErr, IfOk, OnOk};

use crate::call::{CallFiles, diagram};
use call_tallies::drive_document_often;
use calls::{BadLine, CallOptions, drive_document, ended_normally};
use command_files::command::{Completeness, Names, Runs};
use command_files::context::Context;
use command_files::files::apart::CommandFiles;
use command_files::files::printed;
use faults::ToolFault;
use line_sim::Ending;
use page_files::PageForm;
use std::alloc::AllocError;

/// Runs a call over a bad line and prints its transcript; or many, and prints a line for each and a table.
#[derive(Debug, PartialEq, Eq, Drop)]
pub struct DriveCommand {
    /// How bad the line is.
    pub line: BadLine,
    /// How many calls are run, if given.
    pub times: Option<u32>,
    /// What the call is run with.
    pub options: CallOptions,
    /// The name of the file that the stored pages go to, if one is given.
    pub out: Option<String>,
    /// The name of the folder that the octets on the line go to, if one is given.
    pub bits: Option<String>,
    /// Whether the call is to end normally for both stations.
    pub normal: bool,
    /// The name of the file that the call is drawn in, if one is given.
    pub diagram: Option<String>,
    /// The name of the document's file.
    pub input: String,
}

impl Runs for DriveCommand {
    ghost use Rattle.std.specs.Prelude.{None};
    ghost use Rattle.commands.specs.Runs.{DriveGives};

    ghost width = { λ command. None };

    ghost its_files = { drive_files };

    ghost gives = { λ command result. DriveGives command result };

    fn names(&self) -> Names<'_> {
        self.files().names()
    }

    fn add_files(&self, files: &mut CommandFiles<'_>) -> Result<(), AllocError> {
        self.files().add_to(files)
    }

    fn page(&self) -> Option<PageForm> {
        None
    }

    fn run(&self, context: &mut Context<'_>) -> Result<Completeness, ToolFault> {
        let files = self.files();
        files.check(context)?;
        match self.times {
            Some(times) => {
                self.drive_times(context, files, times)?;
                Ok(Completeness::Whole)
            }
            None => {
                // the file of the stored pages is opened last, and only if there are any
                let ending = self.drive_one(context, files)?;
                files.write_pages(context, &ending.pages)?;
                let is_normal = ended_normally(&ending);
                Ok(Completeness::of(is_normal || !self.normal))
            }
        }
    }
}

impl DriveCommand {
    fn files(&self) -> CallFiles<'_>
        ensures { named_in result ≡ drive_files self.now }
    {
        CallFiles {
            input: self.input.as_str(),
            out: self.out.as_deref(),
            bits: self.bits.as_deref(),
            diagram: self.diagram.as_deref(),
        }
    }

    /// Runs call 0 over the bad line, and writes all but the stored pages.
    fn drive_one(
        &self,
        context: &mut Context<'_>,
        files: CallFiles<'_>,
    ) -> Result<Ending, ToolFault>
        ensures called { IfOk result (IsDriven self.now) }
        ensures rows { IfOk result (λ ending. HaveRows ending.pages.items) }
        ensures refused { IfErr result (IsUndriven self.now) }
    {
        let document = files.read_document(context, self.options.fine)?;
        let mut writer = diagram::open(context, files)?;
        let driven = drive_document(
            context.alloc(),
            document,
            &mut writer,
            &self.options,
            &self.line,
            0,
        );
        let ended = diagram::close(context, writer, driven.is_ok(), files.diagram);
        let ending = driven?;
        ended?;
        Ok(ending)
    }

    /// Runs many calls over the bad line, and prints the line of each as it is over, and then the table.
    fn drive_times(
        &self,
        context: &mut Context<'_>,
        files: CallFiles<'_>,
        times: u32,
    ) -> Result<(), ToolFault>
        ensures told { OnOk result (AreDriven self.now times) }
        ensures refused { IfErr result (IsUndriven self.now) }
    {
        let document = files.read_document(context, self.options.fine)?;
        let mut writer = printed::print(context)?;
        let driven = drive_document_often(
            context.alloc(),
            document,
            &mut writer,
            &self.options,
            &self.line,
            u64::from(times),
        );
        let printed = printed::end_print(context, writer, driven.is_ok());
        driven?;
        printed
    }
}

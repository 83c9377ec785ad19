//! The command `call` with a script, and what each call leaves.

pub(crate) mod bits;
pub(crate) mod diagram;
pub mod drives;

ghost use Rattle.calls.specs.Calls.{HaveRows};
ghost use Rattle.command_files.specs.Apart.{AddsFiles};
ghost use Rattle.commands.specs.Files.{named_in, script_files};
ghost use Rattle.commands.specs.Runs.{IsNoDocument, IsScripted, IsUnscripted};
ghost use Rattle.faults.specs.Faults.{IsOutside};
ghost use Rattle.raster.specs.Pbm.{AreImages};
ghost use Rattle.std.specs.Prelude.{◌≡◌, ℕ, IfErr, IfOk, List, OnOk};

use calls::{CallOptions, call_of_document, check_script, ended_normally};
use command_files::command::{Completeness, NO_NAMES, Names, Runs};
use command_files::context::{Context, Part, first_not_callable};
use command_files::files::apart::CommandFiles;
use command_files::files::bounded::read_script_file;
use command_files::files::images::save_images;
use command_files::files::progress::Watch;
use command_files::files::{input, output};
use faults::ToolFault;
use line_sim::Ending;
use page_files::PageForm;
use raster::{Document, Page};
use std::alloc::AllocError;

/// The files of a call.
#[derive(Clone, Copy)]
pub(crate) struct CallFiles<'a> {
    /// The name of the document's file.
    pub(crate) input: &'a str,
    /// The name of the file that the stored pages go to, if one is given.
    pub(crate) out: Option<&'a str>,
    /// The name of the folder that the octets on the line go to, if one is given.
    pub(crate) bits: Option<&'a str>,
    /// The name of the file that the call is drawn in, if one is given.
    pub(crate) diagram: Option<&'a str>,
}

impl<'a> CallFiles<'a> {
    /// Their names as those of a command, without a script.
    pub(crate) fn names(self) -> Names<'a> {
        Names {
            input: self.input,
            output: self.out,
            bits: self.bits,
            diagram: self.diagram,
            ..NO_NAMES
        }
    }

    /// Adds the files that are written, which have to be apart. Errors: memory was refused.
    pub(crate) fn add_to(self, files: &mut CommandFiles<'_>) -> Result<(), AllocError>
        ensures { OnOk result (AddsFiles (named_in self.entry) files.old.files.items files.new.files.items) }
    {
        files.may_write("--out", self.out)?;
        files.may_write("--diagram", self.diagram)?;
        files.may_write_bits(self.bits)?;
        files.prints()
    }

    /// Checks that octets aren't written on a terminal, and that the folder of the octets on the line is there; and notes the files at whose
    /// places nothing is. Errors: `Io` (8), and the file is noted; `NoMemory` (9).
    pub(crate) fn check(self, context: &mut Context<'_>) -> Result<(), ToolFault>
        ensures { IfErr result IsOutside }
    {
        if let Some(name) = self.out {
            output::check_terminal(context, name)?;
            output::note_place(context, name)?;
        }
        if let Some(name) = self.diagram {
            output::note_place(context, name)?;
        }
        if let Some(folder) = self.bits {
            output::check_folder(context, folder, Part::Bits)?;
        }
        Ok(())
    }

    /// Reads the document, whose lines are `fine` or not. Errors: the first fault of the images; `WidthNotCallable` (26) if no call carries
    /// a page, which is noted; `Io` (8) if the file can't be read, and that is noted; `NoMemory` (9).
    pub(crate) fn read_document(
        self,
        context: &mut Context<'_>,
        fine: bool,
    ) -> Result<Document, ToolFault>
        ensures found { IfOk result (λ document. (images : List ℕ) × AreImages fine images document) }
        ensures refused { IfErr result (IsNoDocument fine) }
    {
        let document = input::read_document(context, self.input, Watch::Shown, fine)?;
        if let Some(cause) = first_not_callable(document.pages(), 0) {
            context.note_cause(cause);
            return Err(ToolFault::No(26));
        }
        Ok(document)
    }

    /// Writes the pages that a call has stored, one after the other, if a file is named and there are any. Errors: `Io` (8) if they can't
    /// be written, and that is noted; `NoMemory` (9).
    pub(crate) fn write_pages(
        self,
        context: &mut Context<'_>,
        pages: &[Page],
    ) -> Result<(), ToolFault>
        requires { HaveRows pages.now }
        ensures { IfErr result IsOutside }
    {
        match self.out {
            Some(name) if !pages.is_empty() => save_images(context, name, pages),
            _ => Ok(()),
        }
    }
}

/// Runs a call by a script, and prints its transcript and its end.
#[derive(Debug, PartialEq, Eq, Drop)]
pub struct ScriptCommand {
    /// The name of the script's file.
    pub script: String,
    /// What the call is run with.
    pub options: CallOptions,
    /// The name of the file that the stored pages go to, if one is given.
    pub out: Option<String>,
    /// The name of the folder that the octets on the line go to, if one is given.
    pub bits: Option<String>,
    /// Whether the call is to end normally for both stations.
    pub normal: bool,
    /// The name of the file that the call is drawn in, if one is given.
    pub diagram: Option<String>,
    /// The name of the document's file.
    pub input: String,
}

impl Runs for ScriptCommand {
    ghost use Rattle.std.specs.Prelude.{None};
    ghost use Rattle.commands.specs.Runs.{ScriptGives};

    ghost width = { λ command. None };

    ghost its_files = { script_files };

    ghost gives = { λ command result. ScriptGives command result };

    fn names(&self) -> Names<'_> {
        Names {
            script: Some(self.script.as_str()),
            ..self.files().names()
        }
    }

    fn add_files(&self, files: &mut CommandFiles<'_>) -> Result<(), AllocError> {
        self.files().add_to(files)
    }

    fn page(&self) -> Option<PageForm> {
        None
    }

    // The file of the stored pages is opened last, and only if there are any.
    fn run(&self, context: &mut Context<'_>) -> Result<Completeness, ToolFault> {
        let files = self.files();
        files.check(context)?;
        let ending = self.call(context, files)?;
        files.write_pages(context, &ending.pages)?;
        let is_normal = ended_normally(&ending);
        Ok(Completeness::of(is_normal || !self.normal))
    }
}

impl ScriptCommand {
    fn files(&self) -> CallFiles<'_>
        ensures { named_in result ≡ script_files self.now }
    {
        CallFiles {
            input: self.input.as_str(),
            out: self.out.as_deref(),
            bits: self.bits.as_deref(),
            diagram: self.diagram.as_deref(),
        }
    }

    /// Reads the files, runs the call, and writes all but the stored pages.
    fn call(&self, context: &mut Context<'_>, files: CallFiles<'_>) -> Result<Ending, ToolFault>
        ensures called { IfOk result (IsScripted self.now) }
        ensures rows { IfOk result (λ ending. HaveRows ending.pages.items) }
        ensures refused { IfErr result (IsUnscripted self.now) }
    {
        read_script_file(context, self.script.as_str())?;
        // a wrong script is refused before the document is read
        check_script(context.script())?;
        let document = files.read_document(context, self.options.fine)?;
        let mut writer = diagram::open(context, files)?;
        let called = call_of_document(
            context.alloc(),
            context.script(),
            document,
            &mut writer,
            &self.options,
        );
        let ended = diagram::close(context, writer, called.is_ok(), files.diagram);
        let ending = called?;
        ended?;
        Ok(ending)
    }
}

//! The command `code`.

use command_files::command::{Completeness, NO_NAMES, Names, Runs};
use command_files::context::{Context, Part};
use command_files::files::apart::CommandFiles;
use command_files::files::progress::Watch;
use command_files::files::{input, output};
use faults::ToolFault;
use page_code::Coding;
use page_files::{PageForm, read_image, write_code};
use run_tables::Order;
use std::alloc::AllocError;

/// Writes the code of an image into a file.
#[derive(Debug, PartialEq, Eq, Drop)]
pub struct CodeCommand {
    /// The code.
    pub coding: Coding,
    /// Which bit of an octet of the output is first.
    pub order: Order,
    /// The name of the image's file.
    pub input: String,
    /// The name of the file that the code goes to.
    pub output: String,
}

impl Runs for CodeCommand {
    ghost use Rattle.std.specs.Prelude.{None};
    ghost use Rattle.commands.specs.Runs.{CodeGives};
    ghost use Rattle.commands.specs.Files.{code_files};

    ghost width = { λ command. None };

    ghost its_files = { code_files };

    ghost gives = { λ command result. CodeGives command result };

    fn names(&self) -> Names<'_> {
        Names {
            input: self.input.as_str(),
            output: Some(self.output.as_str()),
            ..NO_NAMES
        }
    }

    fn add_files(&self, files: &mut CommandFiles<'_>) -> Result<(), AllocError> {
        files.writes("OUT", self.output.as_str())
    }

    fn page(&self) -> Option<PageForm> {
        None
    }

    // OUT is opened once the image is read, and written row by row, so neither the image's octets nor the code's are held.
    fn run(&self, context: &mut Context<'_>) -> Result<Completeness, ToolFault> {
        output::check_terminal(context, self.output.as_str())?;
        let mut reader = input::open_image(context, self.input.as_str(), Watch::Shown)?;
        let read = read_image(context.alloc(), &mut reader);
        reader.close(context);
        let page = read?;
        let mut output = output::open(context, Part::Output, self.output.as_str())?;
        let written = write_code(context.alloc(), &page, self.coding, self.order, &mut output);
        output.end(written.is_ok(), context)?;
        written?;
        Ok(Completeness::Whole)
    }
}

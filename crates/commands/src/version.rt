//! The command `version`.

use command_files::command::{Completeness, NO_NAMES, Names, Runs};
use command_files::context::Context;
use command_files::files::apart::CommandFiles;
use command_files::files::printed;
use faults::ToolFault;
use page_files::PageForm;
use std::alloc::AllocError;
use std::io::Write;

/// The program's version, as the file `VERSION` at the top has it.
const VERSION: &str = "0.1.0";

/// The kit that proves the program, as `rt version` names it.
const KIT: &str = "rattle-kit-13f logic dac8208d650f15bf";

/// Prints the program's version, or the kit that it is proved with.
#[derive(Debug, PartialEq, Eq, Drop)]
pub struct VersionCommand {
    /// Whether the kit is asked for.
    pub proof: bool,
}

impl Runs for VersionCommand {
    ghost use Rattle.std.specs.Prelude.{[], None};
    ghost use Rattle.commands.specs.Runs.{VersionGives};

    ghost width = { λ command. None };

    ghost its_files = { λ command. [] };

    ghost gives = { λ command result. VersionGives result };

    fn names(&self) -> Names<'_> {
        NO_NAMES
    }

    fn add_files(&self, _files: &mut CommandFiles<'_>) -> Result<(), AllocError> {
        Ok(())
    }

    fn page(&self) -> Option<PageForm> {
        None
    }

    fn run(&self, context: &mut Context<'_>) -> Result<Completeness, ToolFault> {
        let line = if self.proof { KIT } else { VERSION };
        let mut writer = printed::print(context)?;
        let written = writeln!(writer, "{line}");
        let printed = printed::end_print(context, writer, written.is_ok());
        written?;
        printed?;
        Ok(Completeness::Whole)
    }
}

//! The command `identify`.

pub mod several;

use command_files::command::{Completeness, NO_NAMES, Names, Runs};
use command_files::context::Context;
use command_files::files::apart::CommandFiles;
use command_files::files::bounded::{Ways, read_coded};
use command_files::files::printed;
use command_files::files::progress::Watch;
use faults::ToolFault;
use page_files::{Identity, PageForm, identify_engine};
use std::alloc::AllocError;

/// Prints as which format a file begins, and in which ways it reads as a page.
#[derive(Debug, PartialEq, Eq, Drop)]
pub struct IdentifyCommand {
    /// The name of the file.
    pub input: String,
}

impl Runs for IdentifyCommand {
    ghost use Rattle.std.specs.Prelude.{None};
    ghost use Rattle.commands.specs.Runs.{IdentifyGives};
    ghost use Rattle.commands.specs.Files.{identify_files};

    ghost width = { λ command. None };

    ghost its_files = { identify_files };

    ghost gives = { λ command result. IdentifyGives result };

    fn names(&self) -> Names<'_> {
        Names {
            input: self.input.as_str(),
            ..NO_NAMES
        }
    }

    fn add_files(&self, files: &mut CommandFiles<'_>) -> Result<(), AllocError> {
        files.prints()
    }

    fn page(&self) -> Option<PageForm> {
        None
    }

    // Where the file is of no known format and reads as no page, it prints how far each way reads before that fault.
    fn run(&self, context: &mut Context<'_>) -> Result<Completeness, ToolFault> {
        let octets = read_coded(
            context,
            self.input.as_str(),
            Ways::Tried(None),
            Watch::Shown,
        )?;
        let mut writer = printed::print(context)?;
        let identified = identify_engine(context.alloc(), octets.as_slice(), &mut writer);
        context.keep_octets(octets);
        let printed = printed::end_print(context, writer, identified.is_ok());
        let identity = identified?;
        printed?;
        match identity {
            Identity::Known => Ok(Completeness::Whole),
            Identity::Several => Ok(Completeness::Lacking),
            Identity::Nothing(fault) => Err(fault),
        }
    }
}

//! The command `show`.

ghost use Rattle.commands.specs.Runs.{shown_form};
ghost use Rattle.std.specs.Prelude.{◌≡◌};

use command_files::command::{Completeness, NO_NAMES, Names, Runs};
use command_files::context::Context;
use command_files::files::apart::CommandFiles;
use command_files::files::bounded::{Ways, read_coded};
use command_files::files::printed;
use command_files::files::progress::Watch;
use faults::ToolFault;
use page_code::Coding;
use page_files::{PageForm, show_page};
use run_tables::Order;
use std::alloc::AllocError;

/// Prints the first page in a file as text.
#[derive(Debug, PartialEq, Eq, Drop)]
pub struct ShowCommand {
    /// The code of the page.
    pub coding: Coding,
    /// Which bit of an octet of the file is first.
    pub order: Order,
    /// The page's width in pixels, 1 to 2,432.
    pub width: u32,
    /// The name of the page's file.
    pub input: String,
}

impl ShowCommand {
    /// The form of the page.
    fn form(&self) -> PageForm
        ensures { result ≡ shown_form self.now }
    {
        PageForm {
            coding: self.coding,
            order: self.order,
            width: self.width,
            fine: false,
        }
    }
}

impl Runs for ShowCommand {
    ghost use Rattle.std.specs.Prelude.{Some};
    ghost use Rattle.commands.specs.Runs.{ShowGives};
    ghost use Rattle.commands.specs.Files.{show_files};

    ghost width = { λ command. Some command.width };

    ghost its_files = { show_files };

    ghost gives = { λ command result. ShowGives command result };

    fn names(&self) -> Names<'_> {
        Names {
            input: self.input.as_str(),
            ..NO_NAMES
        }
    }

    fn add_files(&self, files: &mut CommandFiles<'_>) -> Result<(), AllocError> {
        files.prints()
    }

    fn page(&self) -> Option<PageForm> {
        Some(self.form())
    }

    fn run(&self, context: &mut Context<'_>) -> Result<Completeness, ToolFault> {
        let form = self.form();
        let octets = read_coded(
            context,
            self.input.as_str(),
            Ways::First(form),
            Watch::Silent,
        )?;
        let mut writer = printed::print(context)?;
        let mut kept = None;
        let shown = show_page(context.alloc(), &octets, form, &mut kept, &mut writer);
        context.keep_read(octets, kept);
        let printed = printed::end_print(context, writer, shown.is_ok());
        shown?;
        printed?;
        Ok(Completeness::Whole)
    }
}

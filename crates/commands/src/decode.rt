//! The command `decode`.

ghost use Rattle.command_files.specs.Bounds.{HavePageWidths};
ghost use Rattle.command_files.specs.Runs.{completeness_of};
ghost use Rattle.commands.specs.FoundForms.{given_width};
ghost use Rattle.commands.specs.Runs.{AnswersIn, ways_of};
ghost use Rattle.faults.specs.Faults.{IsOutside, IsUnread};
ghost use Rattle.raster.specs.Pixels.{IsWidth};
ghost use Rattle.std.specs.Prelude.{◌≡◌, ◌⊎◌, Bool, Err, IfErr, IfOk, IfSome, Ok};

pub mod each;
mod ends;
pub(crate) mod found_form;

use crate::decode::each::report::{FileReport, report_lines};
use crate::decode::ends::FileEnd;
use crate::decode::found_form::{FormAsked, form_of};
use command_files::command::{Completeness, NO_NAMES, Names, Runs};
use command_files::context::Context;
use command_files::files::apart::CommandFiles;
use command_files::files::bounded::{Ways, read_coded};
use command_files::files::images::save_images;
use command_files::files::output;
use command_files::files::progress::Watch;
use faults::ToolFault;
use page_files::{DecodeAnswer, DecodeOptions, PageForm, answer_page};
use std::alloc::AllocError;
use std::io::Write;
use std::slice;

/// Writes a page in a file as an image.
#[derive(Debug, PartialEq, Eq, Drop)]
pub struct DecodeCommand {
    /// How the page is read; as `identify` says it of the file, if that isn't given.
    pub form: Option<PageForm>,
    /// The width that the page is likely to have, if its form isn't given: it decides where several widths read.
    pub likely: Option<u32>,
    /// Whether the lines of a page that is read as `identify` says it are fine, 7.7 a millimeter, and not standard, 3.85.
    pub fine: bool,
    /// What is asked for of the page.
    pub options: DecodeOptions,
    /// The page's number in the file, counted from 1.
    pub page: u32,
    /// The name of the page's file.
    pub input: String,
    /// The name of the file that the image goes to.
    pub output: String,
}

impl Runs for DecodeCommand {
    ghost use Rattle.commands.specs.FoundForms.{given_width};
    ghost use Rattle.commands.specs.Runs.{DecodeGives};
    ghost use Rattle.commands.specs.Files.{decode_files};

    ghost width = { λ command. given_width command.form command.likely };

    ghost its_files = { decode_files };

    ghost gives = { λ command result. DecodeGives command result };

    fn names(&self) -> Names<'_> {
        Names {
            input: self.input.as_str(),
            output: Some(self.output.as_str()),
            ..NO_NAMES
        }
    }

    fn add_files(&self, files: &mut CommandFiles<'_>) -> Result<(), AllocError> {
        files.writes("OUT", self.output.as_str())
    }

    fn page(&self) -> Option<PageForm> {
        self.form
    }

    fn run(&self, context: &mut Context<'_>) -> Result<Completeness, ToolFault> {
        output::check_terminal(context, self.output.as_str())?;
        let octets = read_coded(context, self.input.as_str(), self.ways(), Watch::Shown)?;
        match form_of(context.alloc(), self.asked(), octets.as_slice())? {
            Ok(way) => {
                context.note_form(way.form);
                let is_complete = self.decode(context, octets, way.form)?;
                Ok(Completeness::of(is_complete))
            }
            Err(end) => {
                self.tell_end(context, end)?;
                Ok(Completeness::Lacking)
            }
        }
    }
}

impl DecodeCommand {
    /// What is asked for of how the page is decoded.
    fn asked(&self) -> FormAsked
        ensures form { result.form ≡ self.now.form }
        ensures likely { result.likely ≡ self.now.likely }
        ensures fine { result.fine ≡ self.now.fine }
    {
        FormAsked {
            form: self.form,
            likely: self.likely,
            fine: self.fine,
        }
    }

    /// The way in which the file is read: only the first page, if that is asked for.
    fn ways(&self) -> Ways
        requires { IfSome (given_width self.now.form self.now.likely) IsWidth }
        ensures ways { result ≡ ways_of self.now }
        ensures widths { HavePageWidths result }
    {
        match self.form {
            None => Ways::Tried(self.likely),
            Some(form) => {
                if self.options.repair {
                    Ways::Any
                } else if self.page == 1 {
                    Ways::First(form)
                } else {
                    Ways::One(form)
                }
            }
        }
    }

    /// Decodes the page of octets in this form, and returns whether it is complete. The image's file is opened only once the whole page is
    /// read, and has a row. The messages go to standard error.
    fn decode(
        &self,
        context: &mut Context<'_>,
        octets: Vec<u8>,
        form: PageForm,
    ) -> Result<bool, ToolFault>
        requires { IsWidth form.width }
        ensures done { IfOk result (λ complete. AnswersIn self.now form octets.items (Ok complete)) }
        ensures fault { IfErr result (λ fault. IsUnread fault ⊎ AnswersIn self.now form octets.items (Err fault)) }
    {
        let DecodeAnswer { page, told, end } = self.answer(context, octets, form)?;
        if !page.rows().is_empty() {
            save_images(context, self.output.as_str(), slice::from_ref(&page))?;
        }
        context.streams().tell(told.as_slice())?;
        match end {
            Ok(is_complete) => Ok(is_complete),
            Err(fault) => Err(fault),
        }
    }

    /// Decodes the page of octets in this form. Errors: `NoMemory` (9).
    fn answer(
        &self,
        context: &mut Context<'_>,
        octets: Vec<u8>,
        form: PageForm,
    ) -> Result<DecodeAnswer, ToolFault>
        requires { IsWidth form.width }
        ensures answered { IfOk result (λ answer. AnswersIn self.now form octets.items answer.end) }
        ensures refused { IfErr result IsUnread }
    {
        let mut octets = octets;
        let mut kept = None;
        let alloc = context.alloc();
        let answer = answer_page(alloc, &mut octets, form, self.options, self.page, &mut kept);
        context.keep_read(octets, kept);
        match answer {
            Ok(answer) => Ok(answer),
            Err(fault) => Err(context.in_memory(fault)),
        }
    }

    /// Says on standard error of a file that isn't decoded what `--each` prints of it. Errors: `Io` (8), `NoMemory` (9).
    fn tell_end(&self, context: &mut Context<'_>, end: FileEnd) -> Result<(), ToolFault>
        ensures { IfErr result IsOutside }
    {
        let report = FileReport::of(context.alloc(), end);
        let json = context.is_json();
        let name = self.input.as_str();
        let lines = report_lines(context.alloc(), json, name, &report, None)?;
        context.streams().tell(lines.as_slice())?;
        Ok(())
    }
}

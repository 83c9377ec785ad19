//! The command `decode --each`: every page of many files.

ghost use Rattle.command_files.specs.Apart.{AddsFiles};
ghost use Rattle.commands.specs.Files.{file_read, list_read};
ghost use Rattle.commands.specs.FoundForms.{given_width};
ghost use Rattle.commands.specs.Listed.{lists_itself};
ghost use Rattle.commands.specs.Each.{EndsIn, IsFileReport, IsReported, PrintsEach, as_lines, fault_of};
ghost use Rattle.commands.specs.Printed.{PrintsMore, PrintsOne};
ghost use Rattle.faults.specs.Faults.{IsOutside, IsUnread};
ghost use Rattle.raster.specs.Pixels.{IsWidth};
ghost use Rattle.std.specs.Prelude.{◌≡◌, ◌≤◌, ℕ, List, IfErr, IfOk, IfSome, None, OnOk, false, flat_map, length, true};

pub(crate) mod facts;
mod listed;
mod pages;
mod places;
mod printer;
pub(crate) mod report;
mod tally;

pub use crate::decode::each::listed::NameList;
use crate::decode::each::listed::Names as ListedNames;
use crate::decode::each::pages::{PagesOf, decode_pages};
use crate::decode::each::places::{page_name, place_under};
use crate::decode::each::printer::Printer;
use crate::decode::each::report::{FileReport, report_lines};
use crate::decode::each::tally::Tally;
use crate::decode::ends::FileEnd;
use crate::decode::found_form::{FormAsked, form_of};
use crate::names::is_untold;
use crate::words::{context_of_file, words_of_file};
use command_files::command::{Completeness, NO_NAMES, Names, Runs, both};
use command_files::context::{Cause, Context, Part};
use command_files::files::STANDARD;
use command_files::files::apart::CommandFiles;
use command_files::files::bounded::{Ways, read_coded};
use command_files::files::output::{check_folder, sync_names};
use command_files::files::printed::{end_print, print};
use command_files::files::progress::Watch;
use faults::{FAILED, TOO_MANY_OCTETS, ToolFault};
use page_files::{DecodeOptions, PageForm};
use std::alloc::AllocError;
use std::io::{ErrorKind, Write};

/// Writes every page of many files as images.
#[derive(Debug, PartialEq, Eq, Drop)]
pub struct EachCommand {
    /// How all pages are read; as `identify` says it of each file, if that isn't given.
    pub form: Option<PageForm>,
    /// The width that pages are likely to have, if the form isn't given: it decides where several widths read.
    pub likely: Option<u32>,
    /// Whether the lines of pages that are read as `identify` says it are fine, 7.7 a millimeter, and not standard, 3.85.
    pub fine: bool,
    /// What is asked for of each page. With both, a page that can't be repaired is salvaged.
    pub options: DecodeOptions,
    /// The name of the folder of the images.
    pub folder: String,
    /// The names of the files.
    pub files: Vec<String>,
    /// The list with the names of more files, if there is one.
    pub list: Option<NameList>,
    /// Whether an image that is there already, with the same octets, counts as written.
    pub resume: bool,
    /// The most pages of a file.
    pub most_pages: u32,
    /// The most octets of a file.
    pub most_octets: u32,
}

impl Runs for EachCommand {
    ghost use Rattle.commands.specs.Each.{EachGives};
    ghost use Rattle.commands.specs.Files.{each_files};
    ghost use Rattle.commands.specs.FoundForms.{given_width};

    ghost width = { λ command. given_width command.form command.likely };

    ghost its_files = { each_files };

    ghost gives = { EachGives };

    fn names(&self) -> Names<'_> {
        Names {
            output: Some(self.folder.as_str()),
            script: self.list.as_ref().map(|list| list.file.as_str()),
            ..NO_NAMES
        }
    }

    // The images aren't among them: each gets a name at which nothing is.
    fn add_files(&self, files: &mut CommandFiles<'_>) -> Result<(), AllocError> {
        self.add_named(files)?;
        self.add_list(files)
    }

    fn page(&self) -> Option<PageForm> {
        self.form
    }

    // A file that fails doesn't stop the others: its line says so.
    fn run(&self, context: &mut Context<'_>) -> Result<Completeness, ToolFault> {
        check_folder(context, self.folder.as_str(), Part::Output)?;
        let mut printer = Printer {
            writer: print(context)?,
            tally: Tally::new(context.rt()),
            json: context.is_json(),
        };
        let done = self.do_all(context, &mut printer);
        printer.tally.end();
        let printed = end_print(context, printer.writer, done.is_ok());
        let are_complete = done?;
        printed?;
        Ok(Completeness::of(are_complete))
    }
}

impl EachCommand {
    /// Adds the files that are named. Errors: memory was refused.
    fn add_named(&self, files: &mut CommandFiles<'_>) -> Result<(), AllocError>
        ensures { OnOk result (AddsFiles (flat_map file_read self.now.files.items) files.old.files.items files.new.files.items) }
    {
        for name in &self.files {
            files.reads("FILE", name.as_str())?;
        }
        Ok(())
    }

    /// Adds the list, if there is one. Errors: memory was refused.
    fn add_list(&self, files: &mut CommandFiles<'_>) -> Result<(), AllocError>
        ensures { OnOk result (AddsFiles (list_read self.now.list) files.old.files.items files.new.files.items) }
    {
        match &self.list {
            Some(list) => files.reads("--from", list.file.as_str()),
            None => Ok(()),
        }
    }

    /// Does all files, those that are named and those of the list, and returns whether all are complete. Errors: those of `do_listed`.
    fn do_all<W: Write>(
        &self,
        context: &mut Context<'_>,
        printer: &mut Printer<'_, W>,
    ) -> Result<bool, ToolFault>
        requires { IfSome (given_width self.now.form self.now.likely) IsWidth }
        ensures complete { IfOk result (PrintsEach self.now printer.old.json
            (W.contents printer.old.writer) (W.contents printer.new.writer)) }
        ensures fault { IfErr result IsOutside }
    {
        let mut is_complete = true;
        for name in &self.files {
            let is_done = self.do_file(context, name.as_str(), printer)?;
            is_complete = both(is_complete, is_done);
        }
        self.do_listed(context, is_complete, printer)
    }

    /// Does the files of the list, if there is one, after those before it, and returns whether all are complete. Errors: those of `do_list`.
    fn do_listed<W: Write>(
        &self,
        context: &mut Context<'_>,
        before: bool,
        printer: &mut Printer<'_, W>,
    ) -> Result<bool, ToolFault>
        requires { IfSome (given_width self.now.form self.now.likely) IsWidth }
        ensures complete { IfOk result (PrintsMore (IsReported self.now printer.old.json) (self.now.list ≡ None) before
            (W.contents printer.old.writer) (W.contents printer.new.writer)) }
        ensures fault { IfErr result IsOutside }
    {
        match &self.list {
            Some(list) => {
                let are_complete = self.do_list(context, list, before, printer)?;
                Ok(are_complete)
            }
            None => Ok(before),
        }
    }

    /// Does a file of a list, unless the name is empty, after those before it, and returns whether all are complete. Errors: those of
    /// `do_file`.
    fn do_next<W: Write>(
        &self,
        context: &mut Context<'_>,
        name: &str,
        before: bool,
        printer: &mut Printer<'_, W>,
    ) -> Result<bool, ToolFault>
        requires { IfSome (given_width self.now.form self.now.likely) IsWidth }
        ensures complete { IfOk result (PrintsMore (IsReported self.now printer.old.json) ⊥ before
            (W.contents printer.old.writer) (W.contents printer.new.writer)) }
        ensures json { printer.new.json ≡ printer.old.json }
        ensures fault { IfErr result IsOutside }
    {
        if name.is_empty() {
            return Ok(before);
        }
        let is_done = self.do_file(context, name, printer)?;
        Ok(both(before, is_done))
    }

    /// Does the files of a list after those before it, and returns whether all are complete. Errors: `Io` (8) if the list can't be read,
    /// and that is noted, or if something can't be printed; `NoMemory` (9).
    fn do_list<W: Write>(
        &self,
        context: &mut Context<'_>,
        list: &NameList,
        before: bool,
        printer: &mut Printer<'_, W>,
    ) -> Result<bool, ToolFault>
        requires { IfSome (given_width self.now.form self.now.likely) IsWidth }
        ensures complete { IfOk result (PrintsMore (IsReported self.now printer.old.json) ⊥ before
            (W.contents printer.old.writer) (W.contents printer.new.writer)) }
        ensures fault { IfErr result IsOutside }
    {
        let mut names = ListedNames::open(context, list)?;
        let mut is_complete = before;
        for _before in 0..u64::MAX {
            let Some(name) = names.next_in(context)? else {
                return Ok(is_complete);
            };
            let is_done = self.do_next(context, name.as_str(), is_complete, printer)?;
            is_complete = is_done;
        }
        // no list has so many names
        Err(FAILED)
    }

    /// Decodes every page of a file, prints what is reported of it, and returns whether that is complete. Errors: `Io` (8) if it can't be
    /// printed, `NoMemory` (9).
    fn do_file<W: Write>(
        &self,
        context: &Context<'_>,
        name: &str,
        printer: &mut Printer<'_, W>,
    ) -> Result<bool, ToolFault>
        requires { IfSome (given_width self.now.form self.now.likely) IsWidth }
        ensures complete { IfOk result (PrintsOne (IsReported self.now printer.old.json) name.now
            (W.contents printer.old.writer) (W.contents printer.new.writer)) }
        ensures json { printer.new.json ≡ printer.old.json }
        ensures fault { IfErr result IsOutside }
    {
        let mut own = context_of_file(context);
        let report = self.decode_file(&mut own, name);
        let words = self.words_of(&own, name, &report)?;
        let lines = report_lines(own.alloc(), printer.json, name, &report, words.as_deref())?;
        printer.say(lines.as_slice())?;
        printer.tally.count(report.pages.len(), report.is_complete);
        Ok(report.is_complete)
    }

    /// Returns the fault of a file in words, if it has one and they are shown. Errors: memory was refused.
    fn words_of(
        &self,
        own: &Context<'_>,
        name: &str,
        report: &FileReport,
    ) -> Result<Option<String>, AllocError>
        requires { IfSome report.now.form (λ form. IsWidth form.width) }
        ensures { IfOk result (λ words. fault_of report.now.end ≡ None → words ≡ None) }
    {
        let alloc = own.alloc();
        let Some(fault) = report.end.fault() else {
            return Ok(None);
        };
        match report.end {
            FileEnd::NotWritten { page, fault: _ } => {
                let place = place_under(alloc, self.folder.as_str(), name)?;
                let image = page_name(alloc, place.as_str(), page)?;
                words_of_file(own, None, image.as_str(), fault)
            }
            _ => words_of_file(own, report.form, name, fault),
        }
    }

    /// Decodes every page of a file, and returns what is reported of it, also if it fails.
    fn decode_file(&self, own: &mut Context<'_>, name: &str) -> FileReport
        requires { IfSome (given_width self.now.form self.now.likely) IsWidth }
        ensures report { IsFileReport self.now result }
        ensures form { IfSome result.form (λ form. IsWidth form.width) }
    {
        if is_untold(name) {
            return FileReport::of(own.alloc(), FileEnd::NoText);
        }
        match self.read_file(own, name) {
            Ok(report) => report,
            Err(fault) => FileReport::of(own.alloc(), FileEnd::Failed(fault)),
        }
    }

    /// Reads a file and decodes every page of it. Errors: `Io` (8) if it can't be read, and that is noted; `TooManyOctets` (32);
    /// `NoMemory` (9).
    fn read_file(&self, own: &mut Context<'_>, name: &str) -> Result<FileReport, ToolFault>
        requires { IfSome (given_width self.now.form self.now.likely) IsWidth }
        ensures report { IfOk result (λ report. (octets : List ℕ) × (length octets ≤ self.now.most_octets) × EndsIn self.now octets report) }
        ensures form { IfOk result (λ report. IfSome report.form (λ form. IsWidth form.width)) }
        ensures fault { IfErr result IsUnread }
    {
        let ways = match self.form {
            Some(form) => Ways::of(form, self.options.repair),
            None => Ways::Tried(self.likely),
        };
        self.check_source(own, name)?;
        let octets = read_coded(own, name, ways, Watch::Silent)?;
        self.check_octets(own, octets.len())?;
        let place = place_under(own.alloc(), self.folder.as_str(), name)?;
        let report = self.read_pages(own, place.as_str(), octets)?;
        if report.has_image() {
            sync_names(own, place.as_str(), Part::Output)?;
        }
        Ok(report)
    }

    /// Checks that a file isn't standard input, if the list of names is that: the rest of the list would be read as the file. Errors: `Io`
    /// (8), and that is noted.
    fn check_source(&self, own: &mut Context<'_>, name: &str) -> Result<(), ToolFault>
        ensures other { OnOk result (lists_itself self.now.list name.now ≡ false) }
        ensures listed { IfErr result (λ fault. lists_itself self.now.list name.now ≡ true) }
        ensures fault { IfErr result IsOutside }
    {
        let Some(list) = &self.list else {
            return Ok(());
        };
        if name != STANDARD || list.file.as_str() != STANDARD {
            return Ok(());
        }
        own.note_cause(Cause::Listed);
        own.blame(Part::Input, ErrorKind::InvalidInput);
        Err(FAILED)
    }

    /// Checks that a file has no more octets than are asked for. Errors: `TooManyOctets` (32), and that is noted.
    fn check_octets(&self, own: &mut Context<'_>, count: usize) -> Result<(), ToolFault>
        ensures within { OnOk result (count ≤ self.now.most_octets) }
        ensures fault { IfErr result IsUnread }
    {
        if count > self.most_octets as usize {
            own.note_cause(Cause::TooLong(self.most_octets as usize));
            own.blame(Part::Input, ErrorKind::FileTooLarge);
            return Err(TOO_MANY_OCTETS);
        }
        Ok(())
    }

    /// Decodes every page of octets, in the way that is given, or else as `identify` says them. Errors: `NoMemory` (9).
    fn read_pages(
        &self,
        own: &mut Context<'_>,
        place: &str,
        octets: Vec<u8>,
    ) -> Result<FileReport, ToolFault>
        requires { IfSome (given_width self.now.form self.now.likely) IsWidth }
        ensures report { IfOk result (EndsIn self.now octets.items) }
        ensures form { IfOk result (λ report. IfSome report.form (λ form. IsWidth form.width)) }
        ensures fault { IfErr result IsOutside }
    {
        let alloc = own.alloc();
        match form_of(alloc, self.asked(), octets.as_slice())? {
            Ok(way) => {
                let report = decode_pages(own, self.pages_of(place), octets, way)?;
                Ok(report)
            }
            Err(end) => Ok(FileReport::of(alloc, end)),
        }
    }

    /// What is asked for of how a file is decoded.
    fn asked(&self) -> FormAsked
        ensures form { result.form ≡ self.now.form }
        ensures likely { result.likely ≡ self.now.likely }
        ensures fine { result.fine ≡ self.now.fine }
    {
        FormAsked {
            form: self.form,
            likely: self.likely,
            fine: self.fine,
        }
    }

    /// Where the images of a file's pages go, and what is asked for of each page.
    fn pages_of<'a>(&'a self, place: &'a str) -> PagesOf<'a>
        ensures options { result.options ≡ as_lines self.now.options }
        ensures most { result.most ≡ self.now.most_pages }
    {
        PagesOf {
            place,
            options: DecodeOptions {
                records: false,
                ..self.options
            },
            resumes: self.resume,
            most: self.most_pages,
        }
    }
}

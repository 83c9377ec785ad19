//! The command `frames`.

pub mod two_captures;

ghost use Rattle.commands.specs.Captured.{ListsOctets, StoresCaptured, StoresPagesOf, how_listed};
ghost use Rattle.commands.specs.Runs.{list_form};
ghost use Rattle.faults.specs.Faults.{IsOutside};
ghost use Rattle.hdlc.specs.Gaps.{good};
ghost use Rattle.raster.specs.Packed.{bits_of};
ghost use Rattle.std.specs.Prelude.{◌≡◌, ◌+◌, ℕ, IfErr, IfOk, List, OnOk, false};

use captures::{
    Captured, FoundStore, FrontStore, ListForm, ListOptions, Missing, PageNumbers, Stored,
    StoredFront, list_engine, pages_engine, salvage_pages_engine, write_missing, write_stored,
    write_stored_front,
};
use command_files::command::{Completeness, NO_NAMES, Names, Runs, both};
use command_files::context::{Context, Part};
use command_files::error_line::ErrorLine;
use command_files::files::apart::CommandFiles;
use command_files::files::images::store_page;
use command_files::files::input::{self, Source};
use command_files::files::output::Rights;
use command_files::files::printed::say;
use command_files::files::progress::Watch;
use command_files::files::{output, printed};
use command_files::notices::notice;
use faults::ToolFault;
use page_files::PageForm;
use raster::Page;
use run_tables::Order;
use std::alloc::AllocError;
use std::io;
use std::io::Write;

/// Returns what is written of each frame: records if they are asked for, otherwise lines, with words if those are.
pub fn list_form(records: bool, words: bool) -> ListForm
    ensures { result ≡ list_form records words }
{
    if records {
        ListForm::Records
    } else if words {
        ListForm::Explained
    } else {
        ListForm::Plain
    }
}

/// Lists the frames in a file of bits. If a folder is given, writes their pages into its files page-1.pbm and so on, each as soon as it is
/// complete, if asked for also the rows before the gaps of others, and names what is missing on standard error.
#[derive(Debug, PartialEq, Eq, Drop)]
pub struct FramesCommand {
    /// How many octets of a content are shown at most; None for all.
    pub most: Option<u32>,
    /// Which bit of an octet of the file is first.
    pub order: Order,
    /// What is written of each frame.
    pub form: ListForm,
    /// The name of the folder that the pages in the frames go to, if one is given.
    pub pages: Option<String>,
    /// Whether the rows before the gap of a page that isn't whole go there too.
    pub salvage: bool,
    /// The name of the file.
    pub input: String,
}

impl Runs for FramesCommand {
    ghost use Rattle.std.specs.Prelude.{None};
    ghost use Rattle.commands.specs.Captured.{FramesGives};
    ghost use Rattle.commands.specs.Files.{frames_files};

    ghost width = { λ command. None };

    ghost its_files = { frames_files };

    ghost gives = { λ command result. FramesGives command result };

    fn names(&self) -> Names<'_> {
        Names {
            input: self.input.as_str(),
            output: self.pages.as_deref(),
            ..NO_NAMES
        }
    }

    fn add_files(&self, files: &mut CommandFiles<'_>) -> Result<(), AllocError> {
        files.reads("FILE", self.input.as_str())?;
        files.prints()
    }

    fn page(&self) -> Option<PageForm> {
        None
    }

    fn run(&self, context: &mut Context<'_>) -> Result<Completeness, ToolFault> {
        match self.pages.as_deref() {
            Some(folder) => self.store_pages(context, folder),
            None => {
                self.list(context)?;
                Ok(Completeness::Whole)
            }
        }
    }
}

impl FramesCommand {
    /// How the frames are listed.
    fn how(&self) -> ListOptions
        ensures { result ≡ how_listed self.now }
    {
        ListOptions {
            most: self.most.map(|most| most as usize),
            order: self.order,
            form: self.form,
        }
    }

    /// Says on standard error what to try if no frame was found.
    fn say_other_order(&self, context: &Context<'_>, worth: bool) -> Result<(), ToolFault>
        ensures { IfErr result IsOutside }
    {
        if worth {
            let words = match self.order {
                Order::LsbFirst => "no good frame: try --order msb",
                Order::MsbFirst => "no good frame: try --order lsb",
            };
            notice(context, words)?;
        }
        Ok(())
    }

    /// Lists the frames.
    fn list(&self, context: &mut Context<'_>) -> Result<(), ToolFault>
        ensures listed { OnOk result ((octets : List ℕ) × ListsOctets self.now octets) }
        ensures fault { IfErr result IsOutside }
    {
        let mut reader = self.open(context)?;
        let mut writer = printed::print(context)?;
        let listed = list_engine(context.alloc(), &mut reader, &mut writer, self.how());
        reader.close(context);
        let printed = printed::end_print(context, writer, listed.is_ok());
        let worth = listed?;
        printed?;
        self.say_other_order(context, worth)
    }

    /// Opens the file.
    fn open<'a>(&self, context: &mut Context<'a>) -> Result<Source<'a>, ToolFault>
        ensures { IfErr result IsOutside }
    {
        input::open(context, self.input.as_str(), Part::Input, Watch::Silent)
    }

    /// Lists the frames, and writes their pages into a folder; names what is missing of others on standard error. It is complete if nothing
    /// is missing.
    fn store_pages(
        &self,
        context: &mut Context<'_>,
        folder: &str,
    ) -> Result<Completeness, ToolFault>
        ensures stored { IfOk result (λ completeness. (octets : List ℕ) × StoresPagesOf self.now octets completeness) }
        ensures fault { IfErr result IsOutside }
    {
        // before a line is printed, or FILE is read
        output::check_folder(context, folder, Part::Output)?;
        let mut reader = self.open(context)?;
        let mut counted = Counted {
            writer: printed::print(context)?,
            lines: 0,
        };
        let mut store = Folder {
            name: folder,
            form: self.form,
            context,
            numbers: PageNumbers::new(),
            is_empty: true,
            is_whole: true,
        };
        let listed = self.find_pages(&mut reader, &mut counted, &mut store);
        let is_empty = store.is_empty;
        let is_whole = store.is_whole;
        reader.close(context);
        let Counted { writer, lines } = counted;
        let printed = printed::end_print(context, writer, listed.is_ok());
        let worth = listed?;
        printed?;
        self.say_other_order(context, worth)?;
        if is_empty {
            say_no_pages(context, lines)?;
        }
        Ok(Completeness::of(both(is_whole, !is_empty)))
    }

    /// Lists the frames and gives their pages to the folder, if asked for also the rows before the gaps of others. Returns what
    /// `list_engine` returns.
    fn find_pages<W: Write>(
        &self,
        reader: &mut Source<'_>,
        writer: &mut W,
        store: &mut Folder<'_, '_>,
    ) -> Result<bool, ToolFault>
        ensures found { OnOk result ((octets : List ℕ) × ListsOctets self.now octets
            × StoresCaptured self.now.salvage (good (bits_of self.now.order octets)) store.old store.new) }
        ensures fault { IfErr result IsOutside }
    {
        let alloc = store.context.alloc();
        if self.salvage {
            salvage_pages_engine(alloc, reader, writer, self.how(), store)
        } else {
            pages_engine(alloc, reader, writer, self.how(), store)
        }
    }
}

/// Says on standard error that a capture with so many lines has no pages.
fn say_no_pages(context: &Context<'_>, lines: u64) -> Result<(), ToolFault>
    ensures { IfErr result IsOutside }
{
    // of a capture without a good frame the line of counts is the only one
    let words = if lines > 1 {
        "no error correction: no pages"
    } else {
        "no frame: no pages"
    };
    notice(context, words)
}

/// Tells on standard output which file a page is in, or the rows of a page before a gap. Errors: `Io` (8) if it can't be written, and that is
/// noted; `NoMemory` (9).
fn tell_stored(
    context: &mut Context<'_>,
    form: ListForm,
    stored: &Stored<'_>,
    is_front: bool,
) -> Result<(), ToolFault>
    ensures { IfErr result IsOutside }
{
    let alloc = context.alloc();
    let mut line = Vec::new(alloc);
    match (form == ListForm::Records, is_front) {
        (true, true) => write_stored_front(alloc, stored, &mut line)?,
        (true, false) => write_stored(alloc, stored, &mut line)?,
        (false, true) => writeln!(line, "{}", StoredFront(*stored))?,
        (false, false) => writeln!(line, "{stored}")?,
    }
    say(context, line.as_slice())
}

/// The folder that the pages in a capture are written into, and what was found so far.
#[derive(Drop)]
struct Folder<'a, 'b> {
    name: &'a str,
    form: ListForm,
    context: &'a mut Context<'b>,
    numbers: PageNumbers,
    is_empty: bool,
    is_whole: bool,
}

impl FoundStore for Folder<'_, '_> {
    ghost use Rattle.commands.specs.Captured.{takes_found};

    ghost takes = { takes_found };

    fn take(&mut self, found: Captured) -> Result<(), ToolFault> {
        self.is_empty = false;
        match found {
            Captured::Page { mark, page } => self.store(mark.page, page, false),
            Captured::MissingPage(_)
            | Captured::Unread { .. }
            | Captured::MissingFrame { .. }
            | Captured::MissingBlocks(_)
            | Captured::Unfinished
            | Captured::BlockBeforeDcs(_)
            | Captured::BlockAfterEnd { .. }
            | Captured::MissingAfter { .. }
            | Captured::UsedNumber { .. } => self.name_missing(&found),
        }
    }
}

impl FrontStore for Folder<'_, '_> {
    ghost use Rattle.commands.specs.Captured.{takes_front};

    ghost fronts = { takes_front };

    fn take_front(&mut self, number: u8, page: Page) -> Result<(), ToolFault> {
        self.is_empty = false;
        self.is_whole = false;
        self.store(number, page, true)
    }
}

impl Folder<'_, '_> {
    /// Writes a page with this number in its PPS, or the rows of one before a gap, into a new file with the first free number, and says so.
    /// A page without rows has no file, as no code gives one.
    fn store(&mut self, number: u8, page: Page, is_front: bool) -> Result<(), ToolFault>
        ensures number { OnOk result (self.new.numbers.page ≡ number + 1) }
        ensures whole { OnOk result (self.new.is_whole ≡ self.old.is_whole) }
        ensures empty { OnOk result (self.new.is_empty ≡ self.old.is_empty) }
        ensures fault { IfErr result IsOutside }
    {
        let first = self.numbers.found(number);
        if page.rows().is_empty() {
            return Ok(());
        }
        let file = match store_page(self.context.rt(), self.name, Rights::Umask, first, &page) {
            Ok(file) => file,
            Err(refused) => return Err(refused.noted(self.context)),
        };
        let _moved = self.numbers.written(file);
        let stored = Stored {
            numbers: self.numbers,
            page: &page,
        };
        tell_stored(self.context, self.form, &stored, is_front)
    }

    /// Tells on standard error what is missing of a page.
    fn tell_missing(&self, found: &Captured) -> Result<(), ToolFault>
        ensures { IfErr result IsOutside }
    {
        let mut line = ErrorLine::new(self.context.streams());
        if self.form == ListForm::Records {
            write_missing(self.context.alloc(), found, &mut line)?;
        } else {
            writeln!(line, "{}", Missing(found))?;
        }
        line.flush()?;
        Ok(())
    }

    /// Names what is missing of a page.
    fn name_missing(&mut self, found: &Captured) -> Result<(), ToolFault>
        ensures number { OnOk result (self.new.numbers ≡ self.old.numbers) }
        ensures whole { OnOk result (self.new.is_whole ≡ false) }
        ensures empty { OnOk result (self.new.is_empty ≡ self.old.is_empty) }
        ensures fault { IfErr result IsOutside }
    {
        self.is_whole = false;
        self.tell_missing(found)
    }
}

/// A writer that counts the lines that go through it.
#[derive(Drop)]
struct Counted<W> {
    writer: W,
    lines: u64,
}

impl<W: Write + Drop> Write for Counted<W> {
    fn write(&mut self, octets: &[u8]) -> io::Result<usize> {
        let written = self.writer.write(octets)?;
        for octet in octets.get(..written).unwrap_or(&[]) {
            if *octet == b'\n' {
                self.lines = self.lines.saturating_add(1);
            }
        }
        Ok(written)
    }

    fn flush(&mut self) -> io::Result<()> {
        self.writer.flush()
    }
}

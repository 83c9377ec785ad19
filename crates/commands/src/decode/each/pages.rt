//! The pages of a file, one after another: each is decoded as `decode` decodes it alone.

ghost use Rattle.commands.specs.Each.{EndsWithin, is_silent};
ghost use Rattle.commands.specs.FoundForms.{BeginsSo};
ghost use Rattle.commands.specs.Pages.{GoesOn, IsCutAt, IsPageReport, IsReadSo, IsRefusal, broken_line, end_of, file_end, have_damage};
ghost use Rattle.commands.specs.Pages.{is_answered, is_damaged, is_nothing, may_go_on, next_of, page_lines};
ghost use Rattle.commands.specs.Pages.{repaired_end, with_front};
ghost use Rattle.commands.specs.Places.{page_name};
ghost use Rattle.faults.specs.Faults.{IsOutside};
ghost use Rattle.page_files.specs.LaterPages.{BeginsWith};
ghost use Rattle.page_files.specs.Sources.{IsPageIn};
ghost use Rattle.page_code.specs.declared.page_reader.RefusedCode.{RefusedCode as RefusedCodeValue};
ghost use Rattle.raster.specs.Pixels.{IsWidth};
ghost use Rattle.std.specs.Prelude.{◌≡◌, ◌++◌, ◌∷◌, ◌⊎◌, ◌<◌, ◌^◌, [], IfErr, IfOk, IfSome, None, OnOk, Some, codes, false};
ghost use Rattle.std.specs.Prelude.{string_bytes};

use crate::decode::each::facts::{PageFacts, bits_of};
use crate::decode::each::places::page_name;
use crate::decode::each::report::FileReport;
use crate::decode::ends::FileEnd;
use crate::decode::found_form::Way;
use command_files::command::both;
use command_files::context::{Context, Part};
use command_files::files::images::{save_missing_images, save_new_images};
use command_files::files::output::make_folders;
use faults::{FAILED, ToolFault};
use page_code::RefusedCode;
use page_files::{Broken, DecodeOptions, FilePages, FoundPage, PageForm, ReadTo, asks_damaged};
use raster::Page;
use std::alloc::{AllocError, Global};
use std::io::Write;
use std::slice;

/// Where the images of a file's pages go, and what is asked for of each page.
#[derive(Clone, Copy)]
pub(crate) struct PagesOf<'a> {
    /// Their names, without the numbers.
    pub(crate) place: &'a str,
    /// What is asked for of each page.
    pub(crate) options: DecodeOptions,
    /// Whether an image that is there already, with the same octets, counts as written.
    pub(crate) resumes: bool,
    /// The most pages.
    pub(crate) most: u32,
}

/// How a page of a file ends.
#[derive(Clone, Copy)]
pub(crate) enum PageEnd {
    /// It was read to the end of its code.
    Read,
    /// It was read to its last row; its EOFB is missing or broken.
    NoEofb,
    /// It was read line by line; this number of its rows are repaired.
    Repaired(usize),
    /// It was read up to this row, counted from 1, in which it is refused.
    Cut(usize, ToolFault),
    /// It can't be repaired, or memory was refused.
    Lost(ToolFault),
    /// Its image can't be written.
    NotWritten(ToolFault),
}

/// What follows a page.
#[derive(Clone, Copy)]
pub(crate) enum Next {
    /// Another page.
    Page,
    /// Nothing, or only EOLs and 0 bits.
    Nothing,
    /// That isn't known, since the page can't be read to its end.
    Unknown,
}

impl Next {
    /// Returns what follows, if that is known: another page or nothing.
    fn of(is_page: bool) -> Next
        ensures { result ≡ next_of is_page }
    {
        if is_page { Next::Page } else { Next::Nothing }
    }
}

/// What is reported of a page.
#[derive(Drop)]
pub(crate) struct PageReport {
    /// What it is.
    pub(crate) facts: PageFacts,
    /// The lines that `decode` writes of it on standard error.
    pub(crate) told: Vec<u8>,
    /// Whether `decode` ends with status 0 for it.
    pub(crate) is_complete: bool,
    /// How far it was read, if it is refused and that is known.
    pub(crate) refused: Option<RefusedCode>,
}

impl PageReport {
    /// The report of a page that has no answer.
    fn without_answer(alloc: Global, end: PageEnd, refused: Option<RefusedCode>) -> PageReport
        ensures end { result.facts.end ≡ end }
        ensures out { result.facts.out ≡ None }
        ensures rows { result.facts.rows ≡ 0 }
        ensures bits { result.facts.bits ≡ None }
        ensures lacks { result.facts.lacks_end ≡ false }
        ensures none { result.told.items ≡ [] }
        ensures lacking { result.is_complete ≡ false }
    {
        PageReport {
            facts: PageFacts::without_image(end),
            told: Vec::new(alloc),
            is_complete: false,
            refused,
        }
    }
}

/// Returns the end of a page of so many rows that was read so far.
fn end_of(rows: usize, read_to: ReadTo) -> PageEnd
    requires { rows < 2 ^ 32 }
    ensures { result ≡ end_of rows read_to }
{
    match read_to {
        ReadTo::End(_bits) => PageEnd::Read,
        ReadTo::NoEnd(_bit) => PageEnd::NoEofb,
        ReadTo::Lines(repaired) => PageEnd::Repaired(repaired),
        ReadTo::Fault(fault) => PageEnd::Cut(rows + 1, fault),
    }
}

/// Returns whether `decode` ends with status 0 for a page.
fn is_answered(end: Result<bool, ToolFault>) -> bool
    ensures { result ≡ is_answered end }
{
    match end {
        Ok(is_complete) => is_complete,
        Err(_) => false,
    }
}

/// Returns the first page that is left, and its report: the lines and the end that `decode` gives it with these options. A page that was
/// found there isn't read again. Errors: the fault of a page that can't be repaired; `NoMemory` (9).
fn read_so(
    alloc: Global,
    left: &FilePages,
    options: DecodeOptions,
    found: Option<FoundPage>,
) -> Result<(Page, PageReport), ToolFault>
    requires { IfSome found (IsPageIn left.now.octets) }
    ensures read { IfOk result (λ read. IsReadSo options left.now.form left.now.octets read.1) }
    ensures refused { IfErr result (IsRefusal options left.now.form left.now.octets) }
{
    let broken = Broken::asked(options.salvage, options.repair);
    let mut kept = None;
    let decoded = match left.decode(alloc, broken, found, &mut kept) {
        Ok(decoded) => decoded,
        Err(fault) => return read_refused(alloc, left.form(), fault, kept),
    };
    let rows = decoded.page.rows().len();
    let facts = PageFacts {
        end: end_of(rows, decoded.read_to),
        out: None,
        rows,
        bits: bits_of(decoded.read_to),
        lacks_end: left.lacks_end(decoded.read_to),
    };
    let answer = left.answer(alloc, options, decoded)?;
    let report = PageReport {
        facts,
        told: answer.told,
        is_complete: is_answered(answer.end),
        refused: kept,
    };
    Ok((answer.page, report))
}

/// Returns the first page that is left, and its report. Where both are asked for, a page that can't be repaired is salvaged. Errors: the
/// fault of a page that can't be repaired, unless it is salvaged; `NoMemory` (9).
fn read_page(
    alloc: Global,
    left: &FilePages,
    options: DecodeOptions,
    found: Option<FoundPage>,
) -> Result<(Page, PageReport), ToolFault>
    requires { IfSome found (IsPageIn left.now.octets) }
    ensures { IfOk result (λ read. IsPageReport options left.now.form left.now.octets read.1) }
{
    let repairing = DecodeOptions {
        salvage: options.salvage && !options.repair,
        ..options
    };
    let read = read_so(alloc, left, repairing, found);
    if read.is_ok() || !options.salvage || !options.repair {
        return read;
    }
    let salvaging = DecodeOptions {
        repair: false,
        ..options
    };
    read_so(alloc, left, salvaging, None)
}

/// Returns a page without rows and the report of one that is refused; or the fault, if that isn't the refusal.
fn read_refused(
    alloc: Global,
    form: PageForm,
    fault: ToolFault,
    kept: Option<RefusedCode>,
) -> Result<(Page, PageReport), ToolFault>
    requires { IsWidth form.width }
    ensures cut { IfOk result (λ read. (refused : RefusedCodeValue) × (kept ≡ Some refused) × IsCutAt refused read.1) }
    ensures refused { IfErr result (λ other. IsOutside other ⊎ (other ≡ fault)) }
{
    match (fault, kept) {
        (ToolFault::AtBit { .. }, Some(refused)) => {
            let none = Page::new(alloc, form.width, form.fine)?;
            let end = PageEnd::Cut(refused.rows as usize + 1, ToolFault::from(refused.fault));
            Ok((none, PageReport::without_answer(alloc, end, kept)))
        }
        (_, _) => Err(fault),
    }
}

/// Decodes the first page that is left, and writes its rows, if it has any, as the image of this number. A page that was found there isn't
/// read again.
fn decode_one(
    own: &mut Context<'_>,
    of: PagesOf<'_>,
    left: &FilePages,
    number: u32,
    found: Option<FoundPage>,
) -> PageReport
    requires { IfSome found (IsPageIn left.now.octets) }
    ensures report { IsPageReport of.entry.options left.now.form left.now.octets result }
    ensures out { IfSome result.facts.out (λ name. string_bytes name ≡ page_name of.entry.place.now number) }
{
    let alloc = own.alloc();
    let (page, mut report) = match read_page(alloc, left, of.options, found) {
        Ok(read) => read,
        Err(fault) => return PageReport::without_answer(alloc, PageEnd::Lost(fault), None),
    };
    match write_page(own, of, number, &page) {
        Ok(out) => {
            report.facts.out = out;
            report
        }
        Err(fault) => PageReport::without_answer(alloc, PageEnd::NotWritten(fault), None),
    }
}

/// Writes a page's rows, if it has any, as a new file of this number, and returns its name. Errors: `Io` (8) if it can't be written, or if
/// something else is there, and that is noted; `NoMemory` (9).
fn write_page(
    own: &mut Context<'_>,
    of: PagesOf<'_>,
    number: u32,
    page: &Page,
) -> Result<Option<String>, ToolFault>
    ensures out { IfOk result (λ out. IfSome out (λ name. string_bytes name ≡ page_name of.entry.place.now number)) }
    ensures fault { IfErr result IsOutside }
{
    if page.rows().is_empty() {
        return Ok(None);
    }
    let name = page_name(own.alloc(), of.place, number)?;
    let pages = slice::from_ref(page);
    make_folders(own, name.as_str(), Part::Output)?;
    if of.resumes {
        save_missing_images(own, name.as_str(), pages)?;
    } else {
        save_new_images(own, name.as_str(), pages)?;
    }
    Ok(Some(name))
}

/// Returns whether a page after one with this end is looked for; if it is damaged, only if damaged pages are asked for.
fn may_go_on(mends: bool, end: PageEnd) -> bool
    ensures { result ≡ may_go_on mends end }
{
    match end {
        PageEnd::Read | PageEnd::NoEofb | PageEnd::Repaired(_) => true,
        PageEnd::Cut(..) | PageEnd::Lost(_) => mends,
        PageEnd::NotWritten(_) => false,
    }
}

/// Passes the first page that is left, which ended so, if another follows, as `decode --page` does, and returns what follows. If the number of
/// bits of its code is known, it isn't read again. Errors: `NoMemory` (9).
fn next_page(
    alloc: Global,
    left: &mut FilePages,
    mends: bool,
    end: PageEnd,
    used: Option<u128>,
) -> Result<Next, ToolFault>
    requires { IfSome used (BeginsWith left.old.form left.old.octets) }
    ensures form { left.new.form ≡ left.old.form }
    ensures next { IfOk result (GoesOn mends left.old.form left.old.octets left.new.octets end) }
    ensures fault { IfErr result IsOutside }
{
    if !may_go_on(mends, end) {
        return Ok(Next::Unknown);
    }
    if let Some(used) = used {
        return Ok(Next::of(left.pass_read(used)));
    }
    let mut kept = None;
    match left.pass(alloc, mends, &mut kept) {
        Ok(true) => Ok(Next::Page),
        Ok(false) => Ok(Next::Nothing),
        Err(fault) => match kept {
            Some(_) => Ok(Next::Unknown),
            None => Err(fault),
        },
    }
}

/// Appends the lines of a text, each after this front.
pub(crate) fn add_lines(front: &str, text: &[u8], lines: &mut Vec<u8>) -> Result<(), ToolFault>
    ensures told { OnOk result (lines.new.items ≡ lines.old.items ++ with_front front.now text.now) }
    ensures fault { IfErr result IsOutside }
{
    let Ok(mut rest) = str::from_utf8(text) else {
        return Err(FAILED);
    };
    while let Some((line, after)) = rest.split_once('\n') {
        add_line(front, line, lines)?;
        rest = after;
    }
    Ok(())
}

/// Appends a line after this front.
fn add_line(front: &str, line: &str, lines: &mut Vec<u8>) -> Result<(), ToolFault>
    ensures told { OnOk result (lines.new.items ≡ lines.old.items ++ (front.now ++ (line.now ++ codes "\n"))) }
    ensures fault { IfErr result IsOutside }
{
    writeln!(lines, "{front}{line}")?;
    Ok(())
}

/// Appends the lines that `decode` writes of a page, each after the page's number.
fn add_page(alloc: Global, number: u32, told: &[u8], lines: &mut Vec<u8>) -> Result<(), ToolFault>
    ensures told { OnOk result (lines.new.items ≡ lines.old.items ++ page_lines number told.now) }
    ensures fault { IfErr result IsOutside }
{
    let front = format!(in alloc; "page {number}: ")?;
    add_lines(front.as_str(), told, lines)
}

/// Appends the line of a page that isn't read to its end and is followed by another one. Errors: `NoMemory` (9).
fn add_broken(number: u32, end: PageEnd, lines: &mut Vec<u8>) -> Result<(), ToolFault>
    ensures told { OnOk result (lines.new.items ≡ lines.old.items ++ broken_line number end) }
    ensures fault { IfErr result IsOutside }
{
    match end {
        PageEnd::Cut(row, fault) => writeln!(lines, "page {number}: cut at row {row}: {fault}")?,
        PageEnd::Lost(fault) => writeln!(lines, "page {number}: not read: {fault}")?,
        PageEnd::Read | PageEnd::NoEofb | PageEnd::Repaired(_) | PageEnd::NotWritten(_) => {}
    }
    Ok(())
}

/// Returns whether a page with this end is damaged, or not written.
fn is_damaged(end: PageEnd) -> bool
    ensures { result ≡ is_damaged end }
{
    match end {
        PageEnd::Read | PageEnd::NoEofb => false,
        PageEnd::Repaired(repaired) => repaired > 0,
        PageEnd::Cut(..) | PageEnd::Lost(_) | PageEnd::NotWritten(_) => true,
    }
}

/// Returns whether one of these pages is damaged, or not written.
fn have_damage(pages: &[PageFacts]) -> bool
    ensures { result ≡ have_damage pages.now }
{
    for page in pages {
        if is_damaged(page.end) {
            return true;
        }
    }
    false
}

/// Appends what a page is to the pages before it. Errors: memory was refused.
fn add_facts(pages: &mut Vec<PageFacts>, facts: PageFacts) -> Result<(), AllocError>
    ensures { OnOk result (pages.new.items ≡ pages.old.items ++ facts ∷ []) }
{
    if pages.push(facts).is_err() {
        return Err(AllocError);
    }
    Ok(())
}

/// Decodes the pages that octets are, one after another, as long as it is known where the next one begins, and returns what is reported of
/// them. The context keeps the octets of the last one. Errors: `NoMemory` (9).
pub(crate) fn decode_pages(
    own: &mut Context<'_>,
    of: PagesOf<'_>,
    read: Vec<u8>,
    way: Way,
) -> Result<FileReport, ToolFault>
    requires width { IsWidth way.form.width }
    requires begins { BeginsSo read.items way }
    ensures report { IfOk result (EndsWithin of.entry.most of.entry.options way.form read.items) }
    ensures form { IfOk result (λ report. report.form ≡ Some way.form) }
    ensures fault { IfErr result IsOutside }
{
    let alloc = own.alloc();
    let mends = asks_damaged(of.options);
    let form = way.form;
    let mut used = way.used;
    let mut found = way.page;
    let mut left = FilePages::new(read, form);
    let mut told = Vec::new(alloc);
    let mut pages = Vec::new(alloc);
    let mut are_complete = true;
    for before in 0..of.most {
        let number = before + 1;
        let page = decode_one(own, of, &left, number, found);
        found = None;
        let end = page.facts.end;
        add_page(alloc, number, page.told.as_slice(), &mut told)?;
        add_facts(&mut pages, page.facts)?;
        are_complete = both(are_complete, page.is_complete);
        let next = next_page(alloc, &mut left, mends, end, used)?;
        used = None;
        let Next::Page = next else {
            own.keep_read(left.into_octets(), page.refused);
            let is_damaged = have_damage(pages.as_slice());
            let end = file_end(number, is_damaged, is_silent(told.as_slice()), end, next);
            return Ok(FileReport {
                end,
                told,
                is_complete: are_complete,
                form: Some(form),
                pages,
            });
        };
        add_broken(number, end, &mut told)?;
    }
    Ok(FileReport {
        end: FileEnd::More(of.most),
        told,
        is_complete: false,
        form: Some(form),
        pages,
    })
}

/// Returns whether it is known that no page follows.
fn is_nothing(next: Next) -> bool
    ensures { result ≡ is_nothing next }
{
    match next {
        Next::Nothing => true,
        Next::Page | Next::Unknown => false,
    }
}

/// Returns the end of a file by that of its last page, which has this number, by whether one of its pages is damaged, by whether nothing
/// was written of them, and by what follows them.
fn file_end(number: u32, is_damaged: bool, is_silent: bool, end: PageEnd, next: Next) -> FileEnd
    ensures { result ≡ file_end number is_damaged is_silent end next }
{
    let is_last = is_nothing(next);
    match end {
        PageEnd::Read | PageEnd::NoEofb => FileEnd::of(number, is_damaged, is_silent),
        PageEnd::Repaired(repaired) => {
            repaired_end(number, is_damaged, is_silent, repaired, next)
        }
        PageEnd::Cut(row, fault) => FileEnd::Cut(number, row, fault, is_last),
        PageEnd::Lost(fault) => FileEnd::Lost(number, fault, is_last),
        PageEnd::NotWritten(fault) => FileEnd::NotWritten {
            page: number,
            fault,
        },
    }
}

/// Returns the end of a file whose last page is read line by line: as that of others only if no row is repaired and nothing follows.
fn repaired_end(
    number: u32,
    is_damaged: bool,
    is_silent: bool,
    repaired: usize,
    next: Next,
) -> FileEnd
    ensures { result ≡ repaired_end number is_damaged is_silent repaired next }
{
    let is_last = is_nothing(next);
    if is_last && repaired == 0 {
        return FileEnd::of(number, is_damaged, is_silent);
    }
    FileEnd::Repaired(number, repaired, is_last)
}

/// Returns whether nothing is reported.
pub(crate) fn is_silent(told: &[u8]) -> bool
    ensures { result ≡ is_silent told.now }
{
    told.is_empty()
}

//! What is reported of a file of which every page is decoded.

ghost use Rattle.commands.specs.Each.{IsSaid, each_record, each_text, file_record, is_silent, left_out, left_out_line, not_read};
ghost use Rattle.commands.specs.Each.{pages_in, plain_record, report_text, said_record, with_pages};
ghost use Rattle.faults.specs.Faults.{IsOutside};
ghost use Rattle.commands.specs.PageFacts.{has_images};
ghost use Rattle.serde_json.specs.View.{view};
ghost use Rattle.std.specs.Prelude.{◌≡◌, ◌++◌, IfErr, IfOk, None, OnOk, option_map};

use crate::damaged::{Unread, format_name};
use crate::decode::each::facts::{PageFacts, page_records};
use crate::decode::each::pages::{add_lines, is_silent};
use crate::decode::each::places::{has_left_out, left_out_parts};
use crate::decode::ends::FileEnd;
use crate::names::{record_name, shown_name};
use faults::{FAILED, ToolFault, write_record};
use page_files::PageForm;
use serde_json::{Value, json, put};
use std::alloc::{AllocError, Global};
use std::io::Write;

/// What is reported of a file.
#[derive(Drop)]
pub(crate) struct FileReport {
    /// Its end.
    pub(crate) end: FileEnd,
    /// The lines that `decode` writes of its pages, each after its page's number.
    pub(crate) told: Vec<u8>,
    /// Whether `decode` ends with status 0 for each of its pages.
    pub(crate) is_complete: bool,
    /// How its pages are read, if they are.
    pub(crate) form: Option<PageForm>,
    /// What its pages are.
    pub(crate) pages: Vec<PageFacts>,
}

impl FileReport {
    /// Whether the image of one of its pages is written.
    pub(crate) fn has_image(&self) -> bool
        ensures { result ≡ has_images self.now.pages.items }
    {
        for page in &self.pages {
            if page.out.is_some() {
                return true;
            }
        }
        false
    }

    /// The report of a file of which no page is read.
    pub(crate) fn of(alloc: Global, end: FileEnd) -> FileReport
        ensures said { IsSaid end result }
        ensures form { result.form ≡ None }
    {
        FileReport {
            end,
            told: Vec::new(alloc),
            is_complete: false,
            form: None,
            pages: Vec::new(alloc),
        }
    }
}

/// Returns what is printed of a file, with the words of its fault if they are shown: a line and those under it, or a record. Errors:
/// `NoMemory` (9).
pub(crate) fn report_lines(
    alloc: Global,
    json: bool,
    name: &str,
    report: &FileReport,
    words: Option<&str>,
) -> Result<Vec<u8>, ToolFault>
    ensures told { IfOk result (λ lines. lines.items
        ≡ report_text json name.now report.now (option_map (λ text. text.now) words.entry)) }
    ensures fault { IfErr result IsOutside }
{
    let mut lines = Vec::new(alloc);
    if json {
        let file = record_name(alloc, name)?;
        let record = report_record(alloc, file.as_str(), report, words)?;
        write_record(alloc, &record, &mut lines)?;
        return Ok(lines);
    }
    write_report(alloc, name, report, words, &mut lines)?;
    Ok(lines)
}

/// Writes what of a file's name isn't in the names of its images, if it has some.
fn add_left_out(name: &str, has_image: bool, lines: &mut Vec<u8>) -> Result<(), ToolFault>
    ensures told { OnOk result (lines.new.items ≡ lines.old.items ++ left_out_line name.now has_image) }
    ensures fault { IfErr result IsOutside }
{
    if has_image && has_left_out(name) {
        writeln!(
            lines,
            "    the names of its images have no leading / and no .."
        )?;
    }
    Ok(())
}

/// Writes the line of a file, and under it the lines of its pages, what of its name is left out, and the words of its fault, each after four
/// spaces.
fn write_report(
    alloc: Global,
    name: &str,
    report: &FileReport,
    words: Option<&str>,
    lines: &mut Vec<u8>,
) -> Result<(), ToolFault>
    ensures told { OnOk result (lines.new.items
        ≡ lines.old.items ++ each_text name.now report.now.end report.now.told.items (has_images report.now.pages.items)
        (option_map (λ text. text.now) words.entry)) }
    ensures fault { IfErr result IsOutside }
{
    let shown = shown_name(alloc, name)?;
    lines.extend_from_slice(shown.as_slice())?;
    let end = report.end;
    writeln!(lines, ": {end}")?;
    add_lines("    ", report.told.as_slice(), lines)?;
    add_left_out(name, report.has_image(), lines)?;
    if let Some(text) = words {
        writeln!(lines, "    {text}")?;
    }
    Ok(())
}

/// Returns the name of the format of a file that isn't read, if it is known; otherwise null. Errors: memory was refused.
fn not_read(alloc: Global, end: FileEnd) -> Result<Value, AllocError>
    ensures { IfOk result (λ value. view value ≡ not_read end) }
{
    match end {
        FileEnd::NoFax(name) => Ok(Value::String(String::from_str(alloc, name)?)),
        FileEnd::TwoDims => Ok(Value::String(String::from_str(alloc, "MR")?)),
        FileEnd::NoEols(said) => {
            let name = format_name(Unread::NoEols(said));
            Ok(Value::String(String::from_str(alloc, name)?))
        }
        FileEnd::Whole(_)
        | FileEnd::NoEnd(_)
        | FileEnd::Mended(_)
        | FileEnd::More(_)
        | FileEnd::Repaired(..)
        | FileEnd::Cut(..)
        | FileEnd::Lost(..)
        | FileEnd::NotWritten { .. }
        | FileEnd::NoWidth
        | FileEnd::Nothing
        | FileEnd::NoText
        | FileEnd::Failed(_) => Ok(Value::Null),
    }
}

/// Returns the record of a file without a fault, or whose words aren't shown. It has no `says` if nothing is reported of its pages. Errors:
/// memory was refused.
fn plain_record(alloc: Global, name: &str, end: FileEnd, says: &str) -> Result<Value, AllocError>
    ensures { IfOk result (λ value. view value ≡ plain_record name.now end says.now (is_silent says.now)) }
{
    let text = format!(in alloc; "{end}")?;
    let is = text.as_str();
    let whole = end.is_whole();
    if is_silent(says.as_bytes()) {
        json!(in alloc; {"file": name, "is": is, "whole": whole})
    } else {
        json!(in alloc; {"file": name, "is": is, "says": says, "whole": whole})
    }
}

/// What the record of a file with a fault has.
#[derive(Clone, Copy)]
struct FaultOf<'a> {
    no: u8,
    name: &'a str,
    is: &'a str,
    says: &'a str,
    whole: bool,
    words: &'a str,
}

/// Returns the record of a file with a fault, of whose pages something is reported. Errors: memory was refused.
fn said_record(alloc: Global, of: &FaultOf<'_>) -> Result<Value, AllocError>
    ensures { IfOk result (λ value. view value
        ≡ said_record of.now.no of.now.name.now of.now.is.now of.now.says.now of.now.whole of.now.words.now) }
{
    let FaultOf {
        no,
        name,
        is,
        says,
        whole,
        words,
    } = *of;
    json!(in alloc; {"fault": no, "file": name, "is": is, "says": says, "whole": whole, "words": words})
}

/// Returns the record of a file, with its fault's number and words if it has one and they are shown. Errors: memory was refused.
fn file_record(
    alloc: Global,
    name: &str,
    end: FileEnd,
    says: &str,
    words: Option<&str>,
) -> Result<Value, AllocError>
    ensures { IfOk result (λ value. view value
        ≡ file_record name.now end says.now (option_map (λ text. text.now) words.entry)) }
{
    let Some(fault) = end.fault() else {
        return plain_record(alloc, name, end, says);
    };
    let Some(words) = words else {
        return plain_record(alloc, name, end, says);
    };
    let no = fault.kind().number();
    let text = format!(in alloc; "{end}")?;
    let is = text.as_str();
    let whole = end.is_whole();
    if is_silent(says.as_bytes()) {
        json!(in alloc; {"fault": no, "file": name, "is": is, "whole": whole, "words": words})
    } else {
        let of = FaultOf {
            no,
            name,
            is,
            says,
            whole,
            words,
        };
        said_record(alloc, &of)
    }
}

/// Returns the records of a file's pages, if they are read in a way; otherwise none. Errors: memory was refused.
fn pages_in(alloc: Global, form: Option<PageForm>, pages: &[PageFacts]) -> Result<Value, AllocError>
    ensures { IfOk result (λ value. view value ≡ pages_in form pages.now) }
{
    match form {
        Some(form) => page_records(alloc, form, pages),
        None => Ok(Value::Array(Vec::new(alloc))),
    }
}

/// Returns the record of a file of this name. Errors: `NoMemory` (9).
fn report_record(
    alloc: Global,
    name: &str,
    report: &FileReport,
    words: Option<&str>,
) -> Result<Value, ToolFault>
    ensures record { IfOk result (λ value. view value
        ≡ each_record name.now report.now (option_map (λ text. text.now) words.entry)) }
    ensures fault { IfErr result IsOutside }
{
    let Ok(says) = str::from_utf8(report.told.as_slice()) else {
        return Err(FAILED);
    };
    let value = file_record(alloc, name, report.end, says, words)?;
    let left = left_out(alloc, name, report.has_image())?;
    let format = not_read(alloc, report.end)?;
    let pages = pages_in(alloc, report.form, report.pages.as_slice())?;
    let value = with_pages(alloc, value, left, format, pages)?;
    Ok(value)
}

/// Returns the parts of a file's name that aren't in the names of its images, if it has some. Errors: memory was refused.
fn left_out(alloc: Global, name: &str, has_image: bool) -> Result<Value, AllocError>
    ensures { IfOk result (λ value. view value ≡ left_out name.now has_image) }
{
    if !has_image {
        return Ok(Value::Array(Vec::new(alloc)));
    }
    Ok(Value::Array(left_out_parts(alloc, name)?))
}

/// Returns a record with what of a file's name is left out, with the format of a file that isn't read, and with its pages. Errors: memory
/// was refused.
fn with_pages(
    alloc: Global,
    made: Value,
    left: Value,
    format: Value,
    pages: Value,
) -> Result<Value, AllocError>
    ensures { IfOk result (λ value. view value ≡ with_pages (view left) (view format) (view pages) (view made)) }
{
    match made {
        Value::Object(mut members) => {
            put(&mut members, alloc, "left_out", left)?;
            put(&mut members, alloc, "not_read", format)?;
            put(&mut members, alloc, "pages", pages)?;
            Ok(Value::Object(members))
        }
        other => Ok(other),
    }
}

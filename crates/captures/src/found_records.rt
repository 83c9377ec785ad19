//! The pages in a capture, and what is missing of others, as JSON for programs.

ghost use Rattle.faults.specs.Faults.{IsOutside};
ghost use Rattle.captures.specs.FoundRecords.{block_record, missing_record, stored_front_record, stored_record, used_record};
ghost use Rattle.captures.specs.Missing.{lines_word};
ghost use Rattle.faults.specs.RecordLines.{record_line};
ghost use Rattle.serde_json.specs.View.{view};
ghost use Rattle.std.specs.Io.KnownBytes.{Appends};
ghost use Rattle.std.specs.Prelude.{◌≡◌, IfErr, IfOk, OnOk};

use crate::captured::Captured;
use crate::missing::Stored;
use crate::numbers::missing_page;
use crate::texts::page_end;
use faults::{ToolFault, short_place, write_record};
use serde_json::{Value, json};
use signals::{Mark, PageEnd};
use std::alloc::{AllocError, Global};
use std::io::Write;

/// The lines of a page.
fn lines_word(fine: bool) -> &'static str
    ensures { result.now ≡ lines_word fine }
{
    if fine { "fine" } else { "standard" }
}

/// A page that is in a file: the file's name, its rows and its width in pixels, its lines and its number from 1.
fn stored_record(alloc: Global, stored: &Stored<'_>) -> Result<Value, AllocError>
    ensures { IfOk result (λ value. view value ≡ stored_record stored.now.numbers stored.now.page.now) }
{
    let file = format!(in alloc; "page-{}.pbm", stored.numbers.file)?;
    json!(in alloc; {
        "page": stored.numbers.page,
        "file": file,
        "width": stored.page.width(),
        "height": stored.page.rows().len(),
        "lines": lines_word(stored.page.fine()),
    })
}

/// The record of the rows of a page before a gap that are in a file: that of a page, with `salvaged` true.
fn stored_front_record(alloc: Global, stored: &Stored<'_>) -> Result<Value, AllocError>
    ensures { IfOk result (λ value. view value ≡ stored_front_record stored.now.numbers stored.now.page.now) }
{
    let file = format!(in alloc; "page-{}.pbm", stored.numbers.file)?;
    let height = stored.page.rows().len();
    json!(in alloc; {
        "page": stored.numbers.page,
        "file": file,
        "width": stored.page.width(),
        "height": height,
        "lines": lines_word(stored.page.fine()),
        "salvaged": true,
    })
}

/// What is missing of a block, by its own number from 0 and its page's from 1.
fn block_record(alloc: Global, what: &str, page: u64, mark: Mark) -> Result<Value, AllocError>
    ensures { IfOk result (λ value. view value ≡ block_record what.now page mark) }
{
    json!(in alloc; {"missing": what, "page": page, "block": mark.block})
}

/// What had to follow under a number that was used, by that of the block from 0 and its page's from 1.
fn used_record(alloc: Global, page: u64, mark: Mark, said: PageEnd) -> Result<Value, AllocError>
    ensures { IfOk result (λ value. view value ≡ used_record page mark said) }
{
    json!(in alloc; {
        "missing": "new number",
        "page": page,
        "block": mark.block,
        "after": page_end(said),
    })
}

/// The record of what is missing of a page; that of a whole page is empty.
fn missing_record(alloc: Global, found: &Captured) -> Result<Value, AllocError>
    ensures { IfOk result (λ value. view value ≡ missing_record found.now) }
{
    let page = missing_page(found);
    match found {
        Captured::Page { .. } => Ok(Value::Null),
        Captured::MissingPage(_) => json!(in alloc; {"missing": "page", "page": page}),
        Captured::Unread { mark: _, fault } => json!(in alloc; {
            "missing": "page",
            "page": page,
            "fault": fault.kind.number(),
            "bit": short_place(fault.place),
        }),
        Captured::MissingFrame { mark, frame } => json!(in alloc; {
            "missing": "frame",
            "page": page,
            "block": mark.block,
            "frame": *frame,
        }),
        Captured::MissingBlocks(mark) => block_record(alloc, "blocks before", page, *mark),
        Captured::Unfinished => json!(in alloc; {"missing": "end of page"}),
        Captured::BlockBeforeDcs(mark) => block_record(alloc, "DCS", page, *mark),
        Captured::BlockAfterEnd { mark, ends } => json!(in alloc; {
            "missing": "DCS",
            "page": page,
            "block": mark.block,
            "after": page_end(*ends),
        }),
        Captured::MissingAfter { page: _, ends } => json!(in alloc; {
            "missing": "page",
            "page": page,
            "after": page_end(*ends),
        }),
        Captured::UsedNumber { mark, said } => used_record(alloc, page, *mark, *said),
    }
}

/// Writes the record of a page that is in a file as one line: the file's name, its rows and its width in pixels, its lines, and its number
/// from 1. Errors: `Io` (8) from the writer, `NoMemory` (9).
pub fn write_stored<W: Write>(
    alloc: Global,
    stored: &Stored<'_>,
    writer: &mut W,
) -> Result<(), ToolFault>
    ensures line { OnOk result (Appends (W.contents writer.old) (W.contents writer.new)
        (record_line (stored_record stored.now.numbers stored.now.page.now))) }
    ensures fault { IfErr result IsOutside }
{
    let record = stored_record(alloc, stored)?;
    write_record(alloc, &record, writer)
}

/// Writes the record of the rows before a gap that are in a file as one line: what `write_stored` writes, with `salvaged` true. Errors:
/// `Io` (8) from the writer, `NoMemory` (9).
pub fn write_stored_front<W: Write>(
    alloc: Global,
    stored: &Stored<'_>,
    writer: &mut W,
) -> Result<(), ToolFault>
    ensures line { OnOk result (Appends (W.contents writer.old) (W.contents writer.new)
        (record_line (stored_front_record stored.now.numbers stored.now.page.now))) }
    ensures fault { IfErr result IsOutside }
{
    let record = stored_front_record(alloc, stored)?;
    write_record(alloc, &record, writer)
}

/// Writes the record of what is missing of a page as one line: page numbers from 1, blocks and frames from 0. Errors: `Io` (8) from the
/// writer, `NoMemory` (9).
pub fn write_missing<W: Write>(
    alloc: Global,
    found: &Captured,
    writer: &mut W,
) -> Result<(), ToolFault>
    ensures line { OnOk result (Appends (W.contents writer.old) (W.contents writer.new) (record_line (missing_record found.now))) }
    ensures fault { IfErr result IsOutside }
{
    let record = missing_record(alloc, found)?;
    write_record(alloc, &record, writer)
}

//! The messages of `decode` as JSON for programs.

ghost use Rattle.page_files.specs.DecodeRecords.{after_record, as_told, begins_record, notices, page_record, rows_record};
ghost use Rattle.faults.specs.Faults.{IsOutside};
ghost use Rattle.faults.specs.RecordLines.{record_line};
ghost use Rattle.serde_json.specs.View.{view};
ghost use Rattle.std.specs.Io.KnownBytes.{Appends};
ghost use Rattle.std.specs.Prelude.{◌≡◌, IfErr, IfOk, OnOk};

use faults::{FAILED, ToolFault, short_place, write_notice, write_record};
use serde_json::{Value, json};
use std::alloc::{AllocError, Global};
use std::io::Write;

/// The rows of a page, and the bits of its code.
fn page_record(alloc: Global, rows: usize, bits: u128) -> Result<Value, AllocError>
    ensures { IfOk result (λ value. view value ≡ page_record rows bits) }
{
    let bits = short_place(bits);
    json!(in alloc; {"rows": rows, "bits": bits})
}

/// How many octets come after a page.
fn after_record(alloc: Global, count: u128) -> Result<Value, AllocError>
    ensures { IfOk result (λ value. view value ≡ after_record count) }
{
    let count = short_place(count);
    json!(in alloc; {"octets_after": count})
}

/// The rows of a page alone.
fn rows_record(alloc: Global, rows: usize) -> Result<Value, AllocError>
    ensures { IfOk result (λ value. view value ≡ rows_record rows) }
{
    json!(in alloc; {"rows": rows})
}

/// The octet at which a page of this number begins.
fn begins_record(alloc: Global, page: u32, octet: usize) -> Result<Value, AllocError>
    ensures { IfOk result (λ value. view value ≡ begins_record page octet) }
{
    json!(in alloc; {"page": page, "begins_at_octet": octet})
}

/// Writes the record of a page's rows and of the bits of its code. Errors: `Io` (8) from the writer, `NoMemory` (9).
pub(crate) fn write_page<W: Write>(
    alloc: Global,
    rows: usize,
    bits: u128,
    writer: &mut W,
) -> Result<(), ToolFault>
    ensures told { OnOk result (Appends (W.contents writer.old) (W.contents writer.new) (record_line (page_record rows bits))) }
    ensures fault { IfErr result IsOutside }
{
    let record = page_record(alloc, rows, bits)?;
    write_record(alloc, &record, writer)
}

/// Writes the record of the octets after a page. Errors: `Io` (8) from the writer, `NoMemory` (9).
pub(crate) fn write_after<W: Write>(
    alloc: Global,
    count: u128,
    writer: &mut W,
) -> Result<(), ToolFault>
    ensures told { OnOk result (Appends (W.contents writer.old) (W.contents writer.new) (record_line (after_record count))) }
    ensures fault { IfErr result IsOutside }
{
    let record = after_record(alloc, count)?;
    write_record(alloc, &record, writer)
}

/// Writes the record of a page's rows. Errors: `Io` (8) from the writer, `NoMemory` (9).
pub(crate) fn write_rows<W: Write>(
    alloc: Global,
    rows: usize,
    writer: &mut W,
) -> Result<(), ToolFault>
    ensures told { OnOk result (Appends (W.contents writer.old) (W.contents writer.new) (record_line (rows_record rows))) }
    ensures fault { IfErr result IsOutside }
{
    let record = rows_record(alloc, rows)?;
    write_record(alloc, &record, writer)
}

/// Writes the record of the octet at which a page begins. Errors: `Io` (8) from the writer, `NoMemory` (9).
pub(crate) fn write_begins<W: Write>(
    alloc: Global,
    page: u32,
    octet: usize,
    writer: &mut W,
) -> Result<(), ToolFault>
    ensures told { OnOk result (Appends (W.contents writer.old) (W.contents writer.new) (record_line (begins_record page octet))) }
    ensures fault { IfErr result IsOutside }
{
    let record = begins_record(alloc, page, octet)?;
    write_record(alloc, &record, writer)
}

/// Writes the record of a notice for each line of a text, which ends with LF.
fn write_notices<W: Write>(alloc: Global, text: &str, writer: &mut W) -> Result<(), ToolFault>
    ensures told { OnOk result (Appends (W.contents writer.old) (W.contents writer.new) (notices text.now)) }
    ensures fault { IfErr result IsOutside }
{
    let mut rest = text;
    while let Some((line, after)) = rest.split_once('\n') {
        write_notice(alloc, line, writer)?;
        rest = after;
    }
    Ok(())
}

/// Returns the lines unchanged, or as records: a notice for each line. Errors: `Io` (8) if the lines of records aren't UTF-8, `NoMemory`
/// (9).
pub(crate) fn told_as(alloc: Global, records: bool, lines: Vec<u8>) -> Result<Vec<u8>, ToolFault>
    ensures told { IfOk result (λ told. told.items ≡ as_told records lines.items) }
    ensures fault { IfErr result IsOutside }
{
    if !records {
        return Ok(lines);
    }
    let Ok(text) = str::from_utf8(&lines) else {
        return Err(FAILED);
    };
    let mut told = Vec::new(alloc);
    write_notices(alloc, text, &mut told)?;
    Ok(told)
}

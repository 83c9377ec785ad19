//! What `decode` gives of octets in memory: a page, the messages about it, and whether the result is complete.
ghost use Rattle.page_files.specs.Answers.{AnswersDecode, TellsPage, after_text, end_text, few_line, is_mostly_read, lines_text, no_rtc_line};
ghost use Rattle.page_files.specs.Answers.{octets_after, page_text, rows_text};
ghost use Rattle.page_files.specs.CodedPages.{WritesPage};
ghost use Rattle.page_files.specs.DecodeRecords.{as_told};
ghost use Rattle.page_files.specs.Decodings.{IsKept, RefusesDecoding, broken_asked};
ghost use Rattle.faults.specs.Faults.{IsOutside};
ghost use Rattle.page_files.specs.PageEnds.{HasItsEnd, lines_end_by_rtc};
ghost use Rattle.page_code.specs.PageReaders.{IsPageRefused};
ghost use Rattle.raster.specs.Packed.{bits_of};
ghost use Rattle.raster.specs.Pixels.{IsWidth};
ghost use Rattle.std.specs.Io.KnownBytes.{Appends};
ghost use Rattle.std.specs.Prelude.{◌≡◌, ◌++◌, ◌↔◌, ◌&&◌, ◌||◌, [], ℕ, List, Some, None, true, false, IfErr, IfOk, IfSome, IsTrue, OnOk, cond};
ghost use Rattle.std.specs.Prelude.{length, not};

use crate::decode_records::{told_as, write_after, write_page, write_rows};
use crate::decoding::{Broken, Decoded, ReadTo, decode_page};
use crate::options::{DecodeOptions, PageForm};
use crate::page_end::{has_its_end, lines_end_by_rtc};
use faults::ToolFault;
use page_code::RefusedCode;
use raster::Page;
use run_tables::Order;
use std::alloc::Global;
use std::io::Write;

/// What decoding octets gives.
#[derive(Debug, Drop)]
pub struct DecodeAnswer {
    /// The page; without a row if none can be read.
    pub page: Page,
    /// The messages for standard error, as lines or as records.
    pub told: Vec<u8>,
    /// Whether the result is complete, or the fault of what can't be read.
    pub end: Result<bool, ToolFault>,
}

/// Writes the line, or the record, of a page's rows with the bits of its code.
fn tell_page<W: Write>(
    alloc: Global,
    records: bool,
    rows: usize,
    bits: u128,
    writer: &mut W,
) -> Result<(), ToolFault>
    ensures told { OnOk result (Appends (W.contents writer.old) (W.contents writer.new) (page_text records rows bits)) }
    ensures fault { IfErr result IsOutside }
{
    if records {
        return write_page(alloc, rows, bits, writer);
    }
    writeln!(writer, "rows {rows} bits {bits}")?;
    Ok(())
}

/// Writes the line, or the record, of the octets after a page, if there are any.
fn tell_after<W: Write>(
    alloc: Global,
    records: bool,
    count: u128,
    writer: &mut W,
) -> Result<(), ToolFault>
    ensures told { OnOk result (Appends (W.contents writer.old) (W.contents writer.new) (after_text records count)) }
    ensures fault { IfErr result IsOutside }
{
    if count == 0 {
        return Ok(());
    }
    if records {
        return write_after(alloc, count, writer);
    }
    writeln!(writer, "octets after the page {count}")?;
    Ok(())
}

/// Writes the lines, or the records, of a page's rows with the bits of its code, and of the octets after it, if asked for.
fn tell_counts<W: Write>(
    alloc: Global,
    options: DecodeOptions,
    rows: usize,
    bits: u128,
    after: u128,
    writer: &mut W,
) -> Result<(), ToolFault>
    ensures told { OnOk result (Appends (W.contents writer.old) (W.contents writer.new)
        (cond options.verbose (page_text options.records rows bits ++ after_text options.records after) [])) }
    ensures fault { IfErr result IsOutside }
{
    if !options.verbose {
        return Ok(());
    }
    tell_page(alloc, options.records, rows, bits, writer)?;
    tell_after(alloc, options.records, after, writer)?;
    Ok(())
}

/// Writes the line of a page without its RTC, unless it has its end.
fn tell_no_rtc<W: Write>(has_end: bool, rows: usize, writer: &mut W) -> Result<(), ToolFault>
    ensures told { OnOk result (Appends (W.contents writer.old) (W.contents writer.new) (cond has_end [] (no_rtc_line rows))) }
    ensures fault { IfErr result IsOutside }
{
    if has_end {
        return Ok(());
    }
    writeln!(writer, "the page ends without its RTC after {rows} rows")?;
    Ok(())
}

/// Writes the line, or the record, of a page's rows, if asked for.
fn tell_rows<W: Write>(
    alloc: Global,
    options: DecodeOptions,
    rows: usize,
    writer: &mut W,
) -> Result<(), ToolFault>
    ensures told { OnOk result (Appends (W.contents writer.old) (W.contents writer.new)
        (cond options.verbose (rows_text options.records rows) [])) }
    ensures fault { IfErr result IsOutside }
{
    if !options.verbose {
        return Ok(());
    }
    if options.records {
        return write_rows(alloc, rows, writer);
    }
    writeln!(writer, "rows {rows}")?;
    Ok(())
}

/// Writes the line of a page with more rows that are repaired than read, if it is one.
fn tell_repaired<W: Write>(is_read: bool, writer: &mut W) -> Result<(), ToolFault>
    ensures told { OnOk result (Appends (W.contents writer.old) (W.contents writer.new) (cond is_read [] few_line)) }
    ensures fault { IfErr result IsOutside }
{
    if is_read {
        return Ok(());
    }
    writeln!(
        writer,
        "more rows are repaired than read: identify may tell what it is"
    )?;
    Ok(())
}

/// Reports a page with more rows that are repaired than read, if it is one; returns whether it isn't.
fn tell_few<W: Write>(
    alloc: Global,
    records: bool,
    rows: usize,
    repaired: usize,
    writer: &mut W,
) -> Result<bool, ToolFault>
    ensures few { IfOk result (λ is_read. is_read ≡ is_mostly_read rows repaired) }
    ensures told { OnOk result (Appends (W.contents writer.old) (W.contents writer.new)
        (as_told records (cond (is_mostly_read rows repaired) [] few_line))) }
    ensures fault { IfErr result IsOutside }
{
    let is_read = repaired <= rows.saturating_sub(repaired);
    let mut lines = Vec::new(alloc);
    tell_repaired(is_read, &mut lines)?;
    let told = told_as(alloc, records, lines)?;
    writer.write_all(&told)?;
    Ok(is_read)
}

/// Writes what is reported of a page that was read to the end of its code, of so many rows and bits, and returns whether the code has its
/// end.
fn tell_end<W: Write>(
    alloc: Global,
    octets: &[u8],
    form: PageForm,
    options: DecodeOptions,
    read: (usize, u128),
    writer: &mut W,
) -> Result<bool, ToolFault>
    ensures end { IfOk result (λ has_end. IsTrue has_end ↔ HasItsEnd form.coding form.order octets.now read.1) }
    ensures told { IfOk result (λ has_end. Appends (W.contents writer.old) (W.contents writer.new)
        (end_text options.verbose options.records read.0 read.1 (octets_after octets.now read.1) has_end)) }
    ensures fault { IfErr result IsOutside }
{
    let (rows, bits) = read;
    let after = (octets.len() as u128).saturating_sub(bits.div_ceil(8));
    tell_counts(alloc, options, rows, bits, after, writer)?;
    let has_end = has_its_end(octets, form, bits);
    tell_missing(alloc, options.records, has_end, rows, writer)?;
    Ok(has_end)
}

/// Writes what is reported of a page that was read line by line, of so many rows, of which so many are repaired: with `--verbose` its rows,
/// that its lines end without RTC, and that more rows are repaired than read. Returns whether the result is complete.
fn tell_lines<W: Write>(
    alloc: Global,
    octets: &[u8],
    order: Order,
    options: DecodeOptions,
    read: (usize, usize),
    writer: &mut W,
) -> Result<bool, ToolFault>
    ensures end { IfOk result (λ complete.
        complete ≡ (is_mostly_read read.0 read.1 && (lines_end_by_rtc order octets.now || not options.whole))) }
    ensures told { OnOk result (Appends (W.contents writer.old) (W.contents writer.new)
        (lines_text options.verbose options.records read.0 read.1 (lines_end_by_rtc order octets.now))) }
    ensures fault { IfErr result IsOutside }
{
    let (rows, repaired) = read;
    tell_rows(alloc, options, rows, writer)?;
    let has_end = lines_end_by_rtc(octets, order);
    tell_missing(alloc, options.records, has_end, rows, writer)?;
    let is_read = tell_few(alloc, options.records, rows, repaired, writer)?;
    Ok(is_complete(is_read, has_end, options.whole))
}

/// Returns whether a page read line by line is complete: no more rows are repaired than read, and with `whole` it has its end.
fn is_complete(is_read: bool, has_end: bool, whole: bool) -> bool
    ensures { result ≡ (is_read && (has_end || not whole)) }
{
    is_read && (has_end || !whole)
}

/// Reports a page without its RTC, unless it has its end.
fn tell_missing<W: Write>(
    alloc: Global,
    records: bool,
    has_end: bool,
    rows: usize,
    writer: &mut W,
) -> Result<(), ToolFault>
    ensures told { OnOk result (Appends (W.contents writer.old) (W.contents writer.new)
        (as_told records (cond has_end [] (no_rtc_line rows)))) }
    ensures fault { IfErr result IsOutside }
{
    let mut lines = Vec::new(alloc);
    tell_no_rtc(has_end, rows, &mut lines)?;
    let told = told_as(alloc, records, lines)?;
    writer.write_all(&told)?;
    Ok(())
}

/// Returns a page of `form` that octets begin with and that was decoded so, with the messages about it. A page of T.4 gets a line if its code
/// doesn't end with RTC; with `whole` it isn't complete then. Errors: `NoMemory` (9).
pub fn answer_decoded(
    alloc: Global,
    octets: &[u8],
    form: PageForm,
    options: DecodeOptions,
    decoded: Decoded,
) -> Result<DecodeAnswer, ToolFault>
    ensures page { IfOk result (λ answer. answer.page ≡ decoded.page) }
    ensures told { IfOk result (λ answer. TellsPage form options octets.now decoded.read_to (length decoded.page.rows)
        decoded.lines.items answer.told.items answer.end) }
    ensures fault { IfErr result IsOutside }
{
    let Decoded {
        page,
        lines,
        read_to,
    } = decoded;
    let rows = page.rows().len();
    let mut told = told_as(alloc, options.records, lines)?;
    match read_to {
        ReadTo::End(bits) => {
            let has_end = tell_end(alloc, octets, form, options, (rows, bits), &mut told)?;
            let end = Ok(is_complete(true, has_end, options.whole));
            Ok(DecodeAnswer { page, told, end })
        }
        ReadTo::Lines(repaired) => {
            let read = (rows, repaired);
            let is_complete = tell_lines(alloc, octets, form.order, options, read, &mut told)?;
            let end = Ok(is_complete);
            Ok(DecodeAnswer { page, told, end })
        }
        ReadTo::NoEnd(_) => {
            tell_rows(alloc, options, rows, &mut told)?;
            let end = Ok(!options.whole);
            Ok(DecodeAnswer { page, told, end })
        }
        ReadTo::Fault(fault) => {
            let end = Err(fault);
            Ok(DecodeAnswer { page, told, end })
        }
    }
}

/// Decodes octets that begin with a page of `form` (1 to 2,432 pixels wide), as `options` ask, and returns the page and the messages about
/// it. A page of T.4 gets a line if its code doesn't end with RTC; with `whole` it isn't complete then. Errors, and `kept` (how far a
/// refused page was read), are those of `decode_page`; and `NoMemory` (9).
pub fn answer_decode(
    alloc: Global,
    octets: &[u8],
    form: PageForm,
    options: DecodeOptions,
    kept: &mut Option<RefusedCode>,
) -> Result<DecodeAnswer, ToolFault>
    requires { IsWidth form.width }
    ensures known { IfSome kept.new (IsPageRefused form.coding form.width (bits_of form.order octets.now)) }
    ensures answered { IfOk result (λ answer. (image : List ℕ) → WritesPage answer.page (Some []) (Some image)
        → AnswersDecode form options octets.now image answer.told.items answer.end) }
    ensures refused { IfErr result (RefusesDecoding (broken_asked options.salvage options.repair) form octets.now) }
    ensures kept { options.repair ≡ false → IfErr result (IsKept kept.new) }
    ensures kept_rows { options.repair ≡ false → IfOk result (λ answer. IfErr answer.end (IsKept kept.new)) }
    ensures kept_none { options.repair ≡ true → kept.new ≡ None }
{
    let broken = Broken::asked(options.salvage, options.repair);
    let decoded = decode_page(alloc, octets, form, broken, kept)?;
    let answer = answer_decoded(alloc, octets, form, options, decoded)?;
    Ok(answer)
}

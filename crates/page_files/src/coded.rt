//! An image that is read, and its code, which is written row by row; and a code that is read.

ghost use Rattle.page_files.specs.CodedPages.{AppendsCode, RefusesImage};
ghost use Rattle.page_files.specs.Decodings.{RefusesKept};
ghost use Rattle.faults.specs.Faults.{IsOutside};
ghost use Rattle.page_code.specs.PageReaders.{IsPageRead, IsPageRefused, IsRead};
ghost use Rattle.page_code.specs.RowCoders.{CodesRows, EndsPage, IsSameCoder};
ghost use Rattle.raster.specs.Packed.{bits_of};
ghost use Rattle.raster.specs.Pages.{max_rows};
ghost use Rattle.raster.specs.Pbm.{AreImages};
ghost use Rattle.raster.specs.Pixels.{IsWidth};
ghost use Rattle.raster.specs.declared.row.Color.{Color};
ghost use Rattle.std.specs.Io.KnownBytes.{Appends};
ghost use Rattle.std.specs.Prelude.{◌≡◌, ◌<◌, ◌++◌, ◌∷◌, [], List, ℕ, None, false, IfErr, IfOk, IfSome, OnOk, length};

use crate::options::PageForm;
use faults::{NO_MEMORY, ToolFault};
use page_code::{CodesPages, Coding, PageRead, RefusedCode, RowCoder};
use raster::{Page, RowRef, read_first_pbm};
use run_tables::Order;
use std::alloc::{AllocError, Global};
use std::io::{Read, Write};

/// `SeveralPages` (27): the input has more than one image.
const SEVERAL_PAGES: ToolFault = ToolFault::No(27);

/// The size of the buffer of coded octets; it may be exceeded by one row.
const PIECE: usize = 65536;

/// Reads a PBM file of one image and returns its page. Of several images only the first is kept in memory. Errors: the first fault of the
/// file, `SeveralPages` (27), `Io` (8) from the reader, `NoMemory` (9).
pub fn read_image<R: Read>(alloc: Global, reader: &mut R) -> Result<Page, ToolFault>
    ensures read { IfOk result (λ page. IfSome (R.remaining reader.old) (λ octets. AreImages false octets (page ∷ []))) }
    ensures rows { IfOk result (λ page. 0 < length page.rows) }
    ensures refused { IfErr result (λ fault. IfSome (R.remaining reader.old) (λ octets. RefusesImage octets fault)) }
{
    let (page, count) = read_first_pbm(alloc, reader, false)?;
    if count != 1 {
        return Err(SEVERAL_PAGES);
    }
    Ok(page)
}

/// Reads octets as a page: returns the page and the number of bits of its code, or the refusal with the whole rows before it. Errors:
/// `NoMemory` (9).
pub(crate) fn read_rows(alloc: Global, octets: &[u8], form: PageForm) -> Result<PageRead, ToolFault>
    requires { IsWidth form.width }
    ensures read { IfOk result (IsRead form.coding form.width form.fine (bits_of form.order octets.now)) }
    ensures fault { IfErr result IsOutside }
{
    let PageForm {
        coding,
        order,
        width,
        fine,
    } = form;
    match coding.page(alloc, octets, order, width, fine) {
        Ok(read) => Ok(read),
        Err(AllocError) => Err(NO_MEMORY),
    }
}

/// Returns the page that octets begin with, and the number of bits of its code. Errors: the refusal, at its bit, and then `kept` holds how
/// far the page was read, otherwise None; `NoMemory` (9).
pub(crate) fn read_code(
    alloc: Global,
    octets: &[u8],
    form: PageForm,
    kept: &mut Option<RefusedCode>,
) -> Result<(Page, u128), ToolFault>
    requires { IsWidth form.width }
    ensures read { IfOk result (λ read. IsPageRead form.coding form.width form.fine (bits_of form.order octets.now) read.0 read.1) }
    ensures none { IfOk result (λ read. kept.new ≡ None) }
    ensures known { IfSome kept.new (IsPageRefused form.coding form.width (bits_of form.order octets.now)) }
    ensures refused { IfErr result (RefusesKept kept.new form octets.now) }
{
    *kept = None;
    match read_rows(alloc, octets, form)? {
        PageRead::Page(page, bits) => Ok((page, bits)),
        PageRead::Refused(code, _rows) => {
            *kept = Some(code);
            Err(ToolFault::from(code.fault))
        }
    }
}

/// Writes the prescribed code of a page that has rows, filled with 0 bits to a whole octet. Rows are coded one by one and written 64 KiB at
/// a time, so memory doesn't grow with the page. Errors: `Io` (8) from the writer, `NoMemory` (9); a part of the code may be written then.
pub fn write_code<W: Write>(
    alloc: Global,
    page: &Page,
    coding: Coding,
    order: Order,
    writer: &mut W,
) -> Result<(), ToolFault>
    requires { 0 < length page.now.rows }
    ensures written { OnOk result (AppendsCode coding order page.now.width page.now.rows (W.contents writer.old) (W.contents writer.new)) }
    ensures fault { IfErr result IsOutside }
{
    let rows = page.rows();
    let mut coder = RowCoder::new(alloc, coding, order, page.width())?;
    let mut held = Vec::new(alloc);
    for row in rows {
        code_row(&mut coder, &row, &mut held)?;
        write_held(&mut held, writer)?;
    }
    end_code(coder, &mut held)?;
    writer.write_all(&held)?;
    Ok(())
}

/// Codes a row, and takes the octets that are whole out of the coder.
fn code_row(coder: &mut RowCoder, row: &RowRef<'_>, held: &mut Vec<u8>) -> Result<(), ToolFault>
    requires wide { length row.now ≡ coder.old.width }
    requires few { coder.old.count < max_rows }
    ensures same { OnOk result (IsSameCoder coder.old coder.new) }
    ensures more { OnOk result ((rows : List (List Color)) (first : List ℕ) → CodesRows coder.old rows (first ++ held.old.items)
        → CodesRows coder.new (rows ++ row.now ∷ []) (first ++ held.new.items)) }
    ensures fault { IfErr result IsOutside }
{
    coder.push_row(row)?;
    coder.move_octets(held)?;
    Ok(())
}

/// Writes the octets in the buffer if they are many, and empties it then.
fn write_held<W: Write>(held: &mut Vec<u8>, writer: &mut W) -> Result<(), ToolFault>
    ensures written { OnOk result ((octets : List ℕ) × Appends (W.contents writer.old) (W.contents writer.new) octets
        × (held.old.items ≡ octets ++ held.new.items)) }
    ensures fault { IfErr result IsOutside }
{
    if held.len() >= PIECE {
        writer.write_all(held)?;
        held.clear();
    }
    Ok(())
}

/// Takes the last octets out of a coder that has rows.
fn end_code(coder: RowCoder, held: &mut Vec<u8>) -> Result<(), ToolFault>
    requires { 0 < coder.count }
    ensures end { OnOk result (EndsPage coder held.old.items held.new.items) }
    ensures fault { IfErr result IsOutside }
{
    coder.finish(held)?;
    Ok(())
}

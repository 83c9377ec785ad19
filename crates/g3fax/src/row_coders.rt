//! Pages that are coded row by row, for C.

ghost use Rattle.g3fax.specs.Codes.{coding_of, order_of};
ghost use Rattle.g3fax.specs.Handles.{OnRowCoder};
ghost use Rattle.g3fax.specs.RowCoders.{EndsCoder, EndsKept, EndsRows, HandsOutRows, MakesCoder, PushesCoded};
ghost use Rattle.std.specs.Prelude.{◌≡◌, ◌≢◌};

use crate::codes::{G3Code, coding_of, order_of};
use crate::handle::{G3Handle, Kept, opened, room};
use crate::status::{
    BAD_CHOICE, BAD_LENGTH, BAD_WIDTH, EMPTY_HANDLE, FULL_HANDLE, NO_MEMORY, OK, OTHER_HANDLE,
    TOO_MANY_ROWS,
};
use page_code::RowCoder;
use raster::{MAX_ROWS, MAX_WIDTH, Row};
use std::alloc::Global;

/// Fills an empty handle with a coder of no rows.
fn new_coder(alloc: Global, code: &G3Code, out: &mut G3Handle) -> u32
    ensures { MakesCoder code.now out.old.value result out.new.value }
{
    if out.is_full(alloc) {
        return FULL_HANDLE;
    }
    let Some(coding) = coding_of(code.coding) else {
        return BAD_CHOICE;
    };
    let Some(order) = order_of(code.order) else {
        return BAD_CHOICE;
    };
    if code.width == 0 || code.width > MAX_WIDTH {
        return BAD_WIDTH;
    }
    let Ok(coder) = RowCoder::new(alloc, coding, order, code.width) else {
        return NO_MEMORY;
    };
    match Box::new(alloc, coder) {
        Ok(boxed) => out.fill(alloc, Kept::RowCoder(boxed)),
        Err(_) => NO_MEMORY,
    }
}

/// Makes a coder of a page in this form, without rows, in an empty handle; `fine` is ignored. Returns `G3_FULL_HANDLE` (102),
/// `G3_BAD_CHOICE` (104) or `G3_BAD_WIDTH` (1) for a wrong form, or `G3_NO_MEMORY` (9).
#[unsafe(no_mangle)]
pub extern "C" fn g3_core_row_coder_new(alloc: Global, code: &G3Code, out: &mut G3Handle) -> u32
    ensures { MakesCoder code.now out.old.value result out.new.value }
{
    new_coder(alloc, code, out)
}

/// Codes the row of the first bits of octets.
#[tactic(auto, using(raster::proofs::RowLemmas::lengths, raster::proofs::PackedLemmas::views))]
fn push_coded(alloc: Global, coder: &mut RowCoder, octets: &[u8]) -> u32
    ensures { PushesCoded octets.now coder.old coder.new result }
{
    let width = coder.width();
    if (octets.len() as u128) * 8 < width as u128 {
        return BAD_LENGTH;
    }
    if coder.rows() >= MAX_ROWS {
        return TOO_MANY_ROWS;
    }
    let row = match Row::from_octets(alloc, octets, width) {
        Ok(row) => row,
        Err(fault) => return fault.number() as u32,
    };
    match coder.push_row(&row.lent()) {
        Ok(()) => OK,
        Err(fault) => fault.number() as u32,
    }
}

/// Codes a row, from the first bits of octets; later bits are ignored. Returns `G3_BAD_LENGTH` (105) for too few octets, `G3_TOO_MANY_ROWS`
/// (3) if the page has 20,000 rows, or `G3_NO_MEMORY` (9).
#[unsafe(no_mangle)]
pub extern "C" fn g3_core_row_coder_push_row(
    alloc: Global,
    coder: &mut G3Handle,
    octets: &[u8],
) -> u32
    ensures { OnRowCoder (λ old new. PushesCoded octets.now old new result) coder.old.value coder.new.value result }
{
    opened!(alloc, coder, RowCoder, coder => push_coded(alloc, &mut **coder, octets))
}

/// Moves the octets that are whole so far into an empty handle.
fn take_octets(alloc: Global, coder: &mut RowCoder, out: &mut G3Handle) -> u32
    ensures { HandsOutRows coder.old coder.new out.old.value result out.new.value }
{
    if out.is_full(alloc) {
        return FULL_HANDLE;
    }
    let Some(mut kept) = room(alloc) else {
        return NO_MEMORY;
    };
    let mut octets = Vec::new(alloc);
    if coder.move_octets(&mut octets).is_err() {
        return NO_MEMORY;
    }
    *kept = Kept::Octets(octets);
    out.put(kept);
    OK
}

/// Moves the next octets of the code that are whole so far, perhaps none, into an empty handle. Returns `G3_FULL_HANDLE` (102) or
/// `G3_NO_MEMORY` (9).
#[unsafe(no_mangle)]
pub extern "C" fn g3_core_row_coder_take(
    alloc: Global,
    coder: &mut G3Handle,
    out: &mut G3Handle,
) -> u32
    ensures takes { OnRowCoder (λ old new. HandsOutRows old new out.old.value result out.new.value) coder.old.value coder.new.value result }
    ensures out { result ≢ 0 → out.new.value ≡ out.old.value }
{
    opened!(alloc, coder, RowCoder, coder => take_octets(alloc, &mut **coder, out))
}

/// Fills an empty handle with the last octets of a page's code.
fn end_rows(alloc: Global, coder: &mut RowCoder, out: &mut G3Handle) -> u32
    ensures ends { EndsRows coder.old out.old.value result out.new.value }
    ensures kept { result ≢ 0 → coder.new ≡ coder.old }
{
    if out.is_full(alloc) {
        return FULL_HANDLE;
    }
    let Some(mut kept) = room(alloc) else {
        return NO_MEMORY;
    };
    // the box is made first, so that nothing is lost if memory is refused
    match coder.end(alloc) {
        Ok(octets) => {
            *kept = Kept::Octets(octets);
            out.put(kept);
            OK
        }
        Err(fault) => fault.number() as u32,
    }
}

/// Fills an empty handle with the last octets of a page's code, if the value is a coder.
fn end_kept(alloc: Global, kept: &mut Kept, out: &mut G3Handle) -> u32
    ensures ends { EndsKept kept.old out.old.value result out.new.value }
    ensures kept { result ≢ 0 → kept.new ≡ kept.old }
{
    match kept {
        Kept::RowCoder(rows) => end_rows(alloc, &mut **rows, out),
        _ => OTHER_HANDLE,
    }
}

/// Moves the last octets of the code into an empty handle: what wasn't moved out, RTC or EOFB, and 0 bits that fill the last octet. The
/// coder's handle is empty then. Returns `G3_FULL_HANDLE` (102), `G3_NO_ROWS` (4) if no row was pushed, or `G3_NO_MEMORY` (9); then nothing
/// is lost.
#[unsafe(no_mangle)]
pub extern "C" fn g3_core_row_coder_finish(
    alloc: Global,
    coder: &mut G3Handle,
    out: &mut G3Handle,
) -> u32
    ensures { EndsCoder coder.old.value coder.new.value out.old.value result out.new.value }
{
    let Some(mut kept) = coder.take(alloc) else {
        return EMPTY_HANDLE;
    };
    let status = end_kept(alloc, &mut *kept, out);
    if status != OK {
        coder.put(kept);
    }
    status
}

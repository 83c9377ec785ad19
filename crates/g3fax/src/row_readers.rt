//! Pages that are read row by row from octets that come in pieces, for C.

ghost use Rattle.g3fax.specs.Handles.{OnRowReader};
ghost use Rattle.g3fax.specs.RowReaders.{FeedsRows, GivesRow, MakesReader};
ghost use Rattle.std.specs.Prelude.{◌≡◌, ◌≢◌};

use crate::codes::{G3Code, coding_of, in_64_bits, order_of};
use crate::handle::{G3Handle, Kept, opened};
use crate::octets::copy_out;
use crate::status::{BAD_CHOICE, BAD_WIDTH, FULL_HANDLE, NO_MEMORY, NO_ROOM, NOTHING, OK};
use page_code::{NextRow, RowReader};
use raster::MAX_WIDTH;
use std::alloc::Global;

/// Fills an empty handle with a reader that took no octets.
fn new_reader(alloc: Global, code: &G3Code, out: &mut G3Handle) -> u32
    ensures { MakesReader code.now out.old.value result out.new.value }
{
    if out.is_full(alloc) {
        return FULL_HANDLE;
    }
    let Some(coding) = coding_of(code.coding) else {
        return BAD_CHOICE;
    };
    let Some(order) = order_of(code.order) else {
        return BAD_CHOICE;
    };
    if code.width == 0 || code.width > MAX_WIDTH {
        return BAD_WIDTH;
    }
    let Ok(reader) = RowReader::new(alloc, coding, order, code.width) else {
        return NO_MEMORY;
    };
    match Box::new(alloc, reader) {
        Ok(boxed) => out.fill(alloc, Kept::RowReader(boxed)),
        Err(_) => NO_MEMORY,
    }
}

/// Makes a reader of a page in this form, without octets, in an empty handle; `fine` is ignored. Returns `G3_FULL_HANDLE` (102),
/// `G3_BAD_CHOICE` (104) or `G3_BAD_WIDTH` (1) for a wrong form, or `G3_NO_MEMORY` (9).
#[unsafe(no_mangle)]
pub extern "C" fn g3_core_row_reader_new(alloc: Global, code: &G3Code, out: &mut G3Handle) -> u32
    ensures { MakesReader code.now out.old.value result out.new.value }
{
    new_reader(alloc, code, out)
}

/// Takes the first of these octets, as many as there is room for.
fn feed(reader: &mut RowReader, octets: &[u8], taken: &mut u64) -> u32
    ensures { FeedsRows octets.now reader.old reader.new taken.new result }
{
    match reader.push_octets(octets) {
        Ok(count) => {
            *taken = count as u64;
            OK
        }
        Err(_) => NO_MEMORY,
    }
}

/// Takes the next octets of the page, as many as there is room for, and tells how many. Returns `G3_NO_MEMORY` (9), and nothing was taken
/// then.
#[unsafe(no_mangle)]
pub extern "C" fn g3_core_row_reader_feed(
    alloc: Global,
    reader: &mut G3Handle,
    octets: &[u8],
    taken: &mut u64,
) -> u32
    ensures { OnRowReader (λ old new. FeedsRows octets.now old new taken.new result) reader.old.value reader.new.value result }
{
    opened!(alloc, reader, RowReader, reader => feed(&mut **reader, octets, taken))
}

/// Copies the next row, or tells where the octets so far end or are refused.
fn next(reader: &mut RowReader, buffer: &mut [u8], count: &mut u64, place: &mut u64) -> u32
    ensures { GivesRow reader.old reader.new buffer.old buffer.new count.new place.new result }
{
    let wanted = reader.width().div_ceil(8);
    if buffer.len() < wanted as usize {
        *count = wanted as u64;
        return NO_ROOM;
    }
    match reader.next_row() {
        Ok(NextRow::Row(row)) => copy_out(row.octets(), buffer, count),
        Ok(NextRow::End(used)) => {
            *place = in_64_bits(used);
            NOTHING
        }
        Ok(NextRow::Refused(fault)) => {
            *place = in_64_bits(fault.place);
            fault.kind.number() as u32
        }
        Err(_) => NO_MEMORY,
    }
}

/// Copies the octets of the next row that is whole to the beginning of a buffer, and tells how many they are. If no row is whole, the
/// status says what all octets so far are: `G3_NOTHING` (106) at the page's end, with the bits used; or the number of the refusal, 4 or 10
/// to 18, with its bit. Returns `G3_NO_ROOM` (103) if the buffer is too small for a row, or `G3_NO_MEMORY` (9); no row is given then.
#[unsafe(no_mangle)]
pub extern "C" fn g3_core_row_reader_next(
    alloc: Global,
    reader: &mut G3Handle,
    buffer: &mut [u8],
    count: &mut u64,
    place: &mut u64,
) -> u32
    ensures { OnRowReader (λ old new. GivesRow old new buffer.old buffer.new count.new place.new result) reader.old.value reader.new.value
        result }
{
    opened!(alloc, reader, RowReader, reader => next(&mut **reader, buffer, count, place))
}

//! Pages of the one-dimensional code that are repaired, for C.

ghost use Rattle.g3fax.specs.Codes.{order_of};
ghost use Rattle.g3fax.specs.Repairs.{HasRepaired, RepairsForm};
ghost use Rattle.std.specs.Prelude.{◌≡◌, ◌≢◌};

use crate::codes::{G3Code, order_of};
use crate::handle::{G3Handle, Kept};
use crate::status::{BAD_CHOICE, BAD_WIDTH, FULL_HANDLE};
use page_code::OneDim;
use raster::MAX_WIDTH;
use std::alloc::Global;

/// Reads the page of T.4 in one dimension that octets begin with, line by line, into an empty handle, as a receiver without error
/// correction gives it: a row that can't be read is a copy of the one before it (ITU-T T.4, 4.1). Tells how many rows are repaired. Returns
/// `G3_FULL_HANDLE` (102), `G3_BAD_CHOICE` (104) for an unknown order or another code, `G3_BAD_WIDTH` (1), the number of the refusal if no
/// row can be read or there is a 20,001st line, or `G3_NO_MEMORY` (9).
#[unsafe(no_mangle)]
pub extern "C" fn g3_core_page_repair(
    alloc: Global,
    octets: &[u8],
    code: &G3Code,
    out: &mut G3Handle,
    count: &mut u64,
) -> u32
    ensures { RepairsForm code.now octets.now out.old.value result count.new out.new.value }
{
    if out.is_full(alloc) {
        return FULL_HANDLE;
    }
    let Some(order) = order_of(code.order) else {
        return BAD_CHOICE;
    };
    if code.coding != 1 {
        return BAD_CHOICE;
    }
    if code.width == 0 || code.width > MAX_WIDTH {
        return BAD_WIDTH;
    }
    match OneDim::repair(alloc, octets, order, code.width, code.fine != 0) {
        Ok(answer) => {
            *count = answer.repaired.len() as u64;
            out.fill(alloc, Kept::Page(answer.page))
        }
        Err(fault) => fault.kind.number() as u32,
    }
}

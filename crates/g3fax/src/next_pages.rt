//! Pages of a file one after another, for C.

ghost use Rattle.g3fax.specs.Codes.{coding_of, order_of};
ghost use Rattle.g3fax.specs.NextPages.{TellsNext};
ghost use Rattle.page_files.specs.LaterPages.{IsFrom};
ghost use Rattle.std.specs.Prelude.{◌≡◌, ◌≤◌, ◌*◌, ◌/◌, drop, length, take};

use crate::codes::{G3Code, coding_of, in_64_bits, order_of};
use crate::status::{BAD_CHOICE, NOTHING, OK};
use page_files::{PageForm, later_in, without_first};
use raster::packed::Order;

/// Sets the bits before this one in its octet to 0.
fn clear_before(octets: &mut [u8], order: Order, start: u128)
    requires { start ≤ 8 * length octets.old }
    ensures first { take (start / 8) octets.new ≡ take (start / 8) octets.old }
    ensures from { IsFrom order start octets.old (drop (start / 8) octets.new) }
{
    let fill = (start % 8) as u32;
    if fill > 0 {
        let at = (start / 8) as usize;
        octets[at] = without_first(order, octets[at], fill);
    }
}

/// Tells at which bit of the octets of a file the page begins that follows one with the first `used` bits, as `g3_core_page_decode` tells
/// them. In its octet the bits before it are set to 0, as fill: so it is read from that octet on. After T.4 it begins at the last EOL of
/// those that come next, or in the next octet; after T.6 in the next octet that isn't 0. The width and `fine` are ignored. Returns
/// `G3_NOTHING` (106) if no page follows, or `G3_BAD_CHOICE` (104) for an unknown code or order.
#[unsafe(no_mangle)]
pub extern "C" fn g3_core_page_next(
    octets: &mut [u8],
    code: &G3Code,
    used: u64,
    next: &mut u64,
) -> u32
    ensures { TellsNext (coding_of code.now.coding) (order_of code.now.order) used octets.old octets.new next.old result next.new }
{
    let Some(coding) = coding_of(code.coding) else {
        return BAD_CHOICE;
    };
    let Some(order) = order_of(code.order) else {
        return BAD_CHOICE;
    };
    let form = PageForm {
        coding,
        order,
        width: code.width,
        fine: code.fine != 0,
    };
    match later_in(octets, form, used as u128) {
        Some(start) => {
            clear_before(octets, order, start);
            *next = in_64_bits(start);
            OK
        }
        None => NOTHING,
    }
}

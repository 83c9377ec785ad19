//! The width that a page of T.4 says of itself, since an EOL ends each of its rows (ITU-T T.4, 4.1.2).

ghost use Rattle.page_code.specs.OneDimension.Pages.{EolBegins};
ghost use Rattle.page_code.specs.OneDimension.Repairs.{EndsPage, EolOf, IsFirstLine};
ghost use Rattle.page_files.specs.OwnWidths.{RowSays, SaysTwoDim, SaysWidth};
ghost use Rattle.raster.specs.Packed.{bits_of};
ghost use Rattle.std.specs.Prelude.{◌≤◌, ◌*◌, ◌↔◌, IfNone, IfSome, IsTrue, drop, length};

use crate::later_pages::EOL_ZEROS;
use crate::zeros::zeros_from;
use raster::Color;
use run_tables::{BitReader, Order};

/// Returns the bit after the EOL that octets begin with; None if they begin with none.
fn after_eol(octets: &[u8], order: Order) -> Option<u128>
    ensures eol { IfSome result (EolOf (bits_of order octets.now)) }
    ensures none { IfNone result (¬ EolBegins (bits_of order octets.now)) }
    ensures within { IfSome result (λ start. start ≤ 8 * length octets.now) }
{
    match zeros_from(octets, order, 0) {
        Some(zeros) if zeros >= EOL_ZEROS => Some(zeros + 1),
        _ => None,
    }
}

/// Returns the bit at which the first line begins: after the EOL that octets begin with, or their first bit if they begin with none.
pub(crate) fn first_line(octets: &[u8], order: Order) -> u128
    ensures first { IsFirstLine (bits_of order octets.now) result }
    ensures within { result ≤ 8 * length octets.now }
{
    match after_eol(octets, order) {
        Some(start) => start,
        None => 0,
    }
}

/// Returns whether an EOL begins at a place, or only 0 bits are left there.
fn ends_row(octets: &[u8], order: Order, place: u128) -> bool
    requires { place ≤ 8 * length octets.now }
    ensures { IsTrue result ↔ EndsPage (drop place (bits_of order octets.now)) }
{
    match zeros_from(octets, order, place) {
        Some(zeros) => zeros >= EOL_ZEROS,
        None => true,
    }
}

/// Returns the pixels of the runs of a row that begins at a place, if an EOL comes after them, or nothing but 0 bits; else None.
pub(crate) fn row_from(octets: &[u8], order: Order, start: u128) -> Option<u128>
    requires { start ≤ 8 * length octets.now }
    ensures { RowSays (bits_of order octets.now) start result }
{
    let _octets = octets.len(); // shows the proof that the sum fits
    let mut reader = BitReader::at(octets, order, start);
    let mut color = Color::White;
    let mut pixels = 0u128;
    while let Ok(run) = reader.read_run(color) {
        pixels += run as u128;
        color = color.other();
    }
    if ends_row(octets, order, reader.place()) {
        Some(pixels)
    } else {
        None
    }
}

/// Returns the width in pixels that octets say of themselves as a page of T.4: that of the row after the EOL that they begin with, if an
/// EOL comes after it, or nothing but 0 bits; else None.
pub fn own_width(octets: &[u8], order: Order) -> Option<u128>
    ensures { SaysWidth (bits_of order octets.now) result }
{
    match after_eol(octets, order) {
        Some(start) => row_from(octets, order, start),
        None => None,
    }
}

/// Returns the width in pixels that octets say of themselves as a page of T.4 in two dimensions, where the bit after the first EOL says
/// that a row in one dimension follows; else None.
pub(crate) fn two_dim_width(octets: &[u8], order: Order) -> Option<u128>
    ensures { SaysTwoDim (bits_of order octets.now) result }
{
    match after_eol(octets, order) {
        Some(start) => {
            let mut reader = BitReader::at(octets, order, start);
            match reader.bit() {
                Some(true) => row_from(octets, order, reader.place()),
                _ => None,
            }
        }
        None => None,
    }
}

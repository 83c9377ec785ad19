//! Pages whose end is missing or broken (ITU-T T.6, 2.4).

ghost use Rattle.page_code.specs.TwoDimensions.PageEnds.{NoRowBegins};
ghost use Rattle.raster.specs.Packed.{bits_of};
ghost use Rattle.std.specs.Prelude.{◌≡◌, ◌<◌, ◌≤◌, ◌*◌, IfOk, IsFalse, IsTrue, drop, length};

use crate::one_dim::eol::zeros_from;
use crate::page::Progress;
use crate::page_reader::read_further;
use crate::t6::T6;
use raster::packed::Order;
use raster::{Coding, Page};
use std::alloc::{AllocError, Global};

/// The whole rows of a page, and whether the page ends after them.
#[derive(Debug, Drop)]
pub struct RowsToEnd {
    /// The page of the whole rows.
    pub page: Page,
    /// The bit after the last of them.
    pub bit: u128,
    /// Whether no row begins there: nothing is left, or only 0 bits; or seven 0 bits come, with which EOFB
    /// begins and no mode code does.
    pub at_end: bool,
}

/// Whether no row begins at a place.
fn no_row_begins(octets: &[u8], order: Order, place: u128) -> bool
    requires { place ≤ 8 * length octets.now }
    ensures none { IsTrue result → NoRowBegins (drop place (bits_of order octets.now)) }
    ensures some { IsFalse result → ¬ NoRowBegins (drop place (bits_of order octets.now)) }
{
    let Some(zeros) = zeros_from(octets, order, place) else {
        return true;
    };
    if zeros < 7 {
        return false;
    }
    true
}

impl T6 {
    ghost use Rattle.page_code.specs.RowsSoFar.{AreWholeRows};
    ghost use Rattle.page_code.specs.TwoDimensions.PageEnds.{HoldsRowsTo};
    ghost use Rattle.raster.specs.declared.coding.Coding.TheVariants.{T6 as InT6};
    ghost use Rattle.raster.specs.Pixels.{IsWidth};

    /// Returns the whole rows at the beginning of the octets' bits, of this width in pixels, as
    /// `Coding::salvage` does, the bit after them, and whether no row begins there: then only EOFB is missing
    /// or broken, and no row of the page is lost. Errs only if memory is refused.
    pub fn rows_to_end(
        alloc: Global,
        octets: &[u8],
        order: Order,
        width: u32,
        fine: bool,
    ) -> Result<RowsToEnd, AllocError>
        requires { IsWidth width }
        ensures width { IfOk result (λ answer. answer.page.width ≡ width) }
        ensures fine { IfOk result (λ answer. answer.page.fine ≡ fine) }
        ensures rows { IfOk result (λ answer. AreWholeRows InT6 width (bits_of order octets.now) answer.page.rows) }
        ensures bit { IfOk result (λ answer. 0 < length answer.page.rows → HoldsRowsTo width (bits_of order octets.now) answer.page.rows answer.bit) }
        ensures ends { IfOk result (λ answer. IsTrue answer.at_end → NoRowBegins (drop answer.bit (bits_of order octets.now))) }
        ensures goes_on { IfOk result (λ answer. IsFalse answer.at_end → ¬ NoRowBegins (drop answer.bit (bits_of order octets.now))) }
    {
        let mut to = Progress::new(alloc, width, fine);
        read_further(alloc, Coding::T6, octets, order, &mut to)?;
        let at_end = no_row_begins(octets, order, to.place);
        Ok(RowsToEnd {
            page: to.page,
            bit: to.place,
            at_end,
        })
    }
}

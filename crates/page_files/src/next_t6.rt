//! Where the next page of a file may begin after one of T.6 without EOFB, as gs writes them, of which nothing marks the end.

ghost use Rattle.page_files.specs.NextT6.{BeginsWithRow, EndsByEofb, MayFollow};
ghost use Rattle.raster.specs.Packed.{bits_of};
ghost use Rattle.raster.specs.Pixels.{IsWidth};
ghost use Rattle.std.specs.Bool.{OnTrue};
ghost use Rattle.std.specs.Prelude.{IfSome};

use crate::coded::read_rows;
use crate::later_pages::zeros_at;
use crate::options::PageForm;
use crate::page_end::{eol_before, without_zeros};
use page_code::PageRead;
use run_tables::Order;
use std::alloc::Global;

/// Returns whether octets begin with a row of a page; not if memory is refused.
fn begins_with_row(alloc: Global, octets: &[u8], form: PageForm) -> bool
    requires { IsWidth form.width }
    ensures { OnTrue result (BeginsWithRow form (bits_of form.order octets.now)) }
{
    match read_rows(alloc, octets, form) {
        Ok(PageRead::Page(_, _)) => true,
        Ok(PageRead::Refused(refused, _)) => refused.rows > 0,
        Err(_fault) => false,
    }
}

/// Returns the octet at which the next page of a file may begin, if rows of this form end at a bit: if only 0 bits come before it, or none,
/// and from it on the octets begin with a row again. None if that isn't so, or memory is refused.
pub fn may_follow(alloc: Global, octets: &[u8], form: PageForm, rows_end: u128) -> Option<usize>
    requires { IsWidth form.width }
    ensures { IfSome result (MayFollow form octets.now rows_end) }
{
    if rows_end > 8 * octets.len() as u128 {
        return None;
    }
    let Some(zeros) = zeros_at(octets, form.order, rows_end) else {
        return None;
    };
    let octet = rows_end.div_ceil(8) as usize;
    if rows_end + zeros < 8 * octet as u128 {
        return None;
    }
    if begins_with_row(alloc, &octets[octet..], form) {
        Some(octet)
    } else {
        None
    }
}

/// Returns whether octets end with EOFB (ITU-T T.6, 2.4.1.1), but for 0 bits after it.
pub fn ends_by_eofb(octets: &[u8], order: Order) -> bool
    ensures { EndsByEofb order octets.now result }
{
    let code = without_zeros(octets, order, 8 * octets.len() as u128);
    match eol_before(octets, order, code) {
        Some(start) => eol_before(octets, order, start).is_some(),
        None => false,
    }
}

//! The mark that ends a page's code, RTC or EOFB, in octets that can't be read to it.

ghost use Rattle.page_files.specs.Marks.{end_of_mark, eols_end, mark_end, mark_eols, shown_by};
ghost use Rattle.page_files.specs.PageEnds.{gaps};
ghost use Rattle.raster.specs.Packed.{bits_of};
ghost use Rattle.std.specs.Prelude.{◌≡◌, ◌≤◌, ◌*◌, IfSome, drop, length};

use crate::later_pages::{EOL_ZEROS, zeros_at};
use crate::options::PageForm;
use crate::page_end::begin_eols;
use page_code::Coding;
use raster::packed::Order;

/// Returns how many EOLs the mark has: RTC six (ITU-T T.4, 4.1.4), EOFB two (ITU-T T.6, 2.4.1.1).
fn mark_eols(coding: Coding) -> u32
    ensures { result ≡ mark_eols coding }
{
    match coding {
        Coding::OneDim => 6,
        Coding::T6 => 2,
    }
}

/// Returns how many EOLs that follow one another show the mark: rows of T.4 have one, those of T.6 none.
fn shown_by(coding: Coding) -> u32
    ensures { result ≡ shown_by coding }
{
    match coding {
        Coding::OneDim => 2,
        Coding::T6 => 1,
    }
}

/// Returns the bit after this number of EOLs that follow one another from a place on; None if they don't.
fn eols_end(octets: &[u8], order: Order, place: u128, eols: u32) -> Option<u128>
    requires { place ≤ 8 * length octets.now }
    ensures end { result ≡ eols_end eols place (gaps 0 (drop place (bits_of order octets.now))) }
    ensures within { IfSome result (λ end. end ≤ 8 * length octets.now) }
{
    let mut at = place;
    for read in 0..eols {
        let Some(zeros) = zeros_at(octets, order, at) else {
            return None;
        };
        if zeros < EOL_ZEROS {
            return None;
        }
        at += zeros + 1;
    }
    Some(at)
}

/// Returns the bit after the mark of the page that octets begin with. None if there is none, or if the first EOLs that show one aren't its
/// own: then it is damaged, and a later one is another page's.
pub(crate) fn end_of_mark(octets: &[u8], form: PageForm) -> Option<u128>
    ensures end { result ≡ end_of_mark form octets.now }
    ensures within { IfSome result (λ end. end ≤ 8 * length octets.now) }
{
    let end = 8 * octets.len() as u128;
    let (shown, eols) = (shown_by(form.coding), mark_eols(form.coding));
    let mut place = 0;
    while place < end {
        if begin_eols(octets, form.order, place, shown) {
            return eols_end(octets, form.order, place, eols);
        }
        match zeros_at(octets, form.order, place) {
            Some(zeros) => place += zeros + 1,
            None => return None,
        }
    }
    None
}

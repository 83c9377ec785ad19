//! How the code of a page ends.
ghost use Rattle.page_files.specs.PageEnds.{EndsByRtc, FindsEol, HasItsEnd, LacksEnd, begin_eols, gaps, lines_end_by_rtc};
ghost use Rattle.raster.specs.Packed.{bit_in, bits_in, bits_of};
ghost use Rattle.std.specs.Prelude.{◌≡◌, ◌≤◌, ◌<◌, ◌-◌, ◌*◌, ◌++◌, ◌↔◌, IsTrue, drop, false, length, replicate, take, true};

use crate::decoding::ReadTo;
use crate::later_pages::{EOL_ZEROS, zeros_at};
use crate::options::PageForm;
use page_code::Coding;
use raster::packed::{Order, bit_of};

/// The EOLs of RTC (ITU-T T.4, 4.1.4).
const RTC_EOLS: u32 = 6;

/// Returns how many of the first `end` bits are left without the 0 bits at their end.
pub(crate) fn without_zeros(octets: &[u8], order: Order, end: u128) -> u128
    requires { end ≤ 8 * length octets.now }
    ensures zeros { bits_in order octets.now end ≡ bits_in order octets.now result ++ replicate (end - result) false }
    ensures within { result ≤ end }
    ensures one { 0 < result → bit_in order octets.now (result - 1) ≡ true }
{
    let mut place = end;
    while place > 0 {
        if bit_of(order, octets, place - 1) {
            return place;
        }
        place -= 1;
    }
    0
}

/// Returns where the EOL begins, fill included, that ends the first `end` bits; None if they don't end with an EOL.
pub(crate) fn eol_before(octets: &[u8], order: Order, end: u128) -> Option<u128>
    requires { end ≤ 8 * length octets.now }
    ensures { FindsEol order octets.now end result }
{
    if end == 0 {
        return None;
    }
    let zeros_end = end - 1;
    if !bit_of(order, octets, zeros_end) {
        return None;
    }
    let start = without_zeros(octets, order, zeros_end);
    if zeros_end - start < EOL_ZEROS {
        return None;
    }
    Some(start)
}

/// Returns whether the first `bits` bits of the octets (all, if they have fewer) end with RTC (ITU-T T.4, 4.1.4).
fn ends_by_rtc(octets: &[u8], order: Order, bits: u128) -> bool
    ensures { IsTrue result ↔ EndsByRtc (take bits (bits_of order octets.now)) }
{
    let end = bits.min(8 * octets.len() as u128);
    // from the last bit back, so that a page with RTC costs some 72 bits more
    let code = without_zeros(octets, order, end);
    let mut place = code;
    for eols in 0..RTC_EOLS {
        match eol_before(octets, order, place) {
            Some(start) => place = start,
            None => return false,
        }
    }
    true
}

/// Returns whether the code of a page, the first `bits` bits of the octets, has its end: RTC in T.4; always in T.6, since a page without
/// EOFB is refused.
pub fn has_its_end(octets: &[u8], form: PageForm, bits: u128) -> bool
    ensures { IsTrue result ↔ HasItsEnd form.coding form.order octets.now bits }
{
    match form.coding {
        Coding::OneDim => ends_by_rtc(octets, form.order, bits),
        Coding::T6 => true,
    }
}

/// Returns whether this number of EOLs follow one another from a place on.
pub(crate) fn begin_eols(octets: &[u8], order: Order, place: u128, eols: u32) -> bool
    requires { place ≤ 8 * length octets.now }
    ensures { result ≡ begin_eols eols (gaps 0 (drop place (bits_of order octets.now))) }
{
    let mut at = place;
    for read in 0..eols {
        let Some(zeros) = zeros_at(octets, order, at) else {
            return false;
        };
        if zeros < EOL_ZEROS {
            return false;
        }
        at += zeros + 1;
    }
    true
}

/// Returns whether the lines of a page of T.4, line by line, end with RTC (ITU-T T.4, 4.1.4): the first EOL that another one follows at once
/// is the first of six.
pub(crate) fn lines_end_by_rtc(octets: &[u8], order: Order) -> bool
    ensures { result ≡ lines_end_by_rtc order octets.now }
{
    let end = 8 * octets.len() as u128;
    let mut place = 0;
    while place < end {
        if begin_eols(octets, order, place, 2) {
            return begin_eols(octets, order, place, RTC_EOLS);
        }
        match zeros_at(octets, order, place) {
            Some(zeros) => place += zeros + 1,
            None => return false,
        }
    }
    false
}

/// Returns whether the code of a page that was read so far lacks its end, RTC in T.4 or EOFB in T.6. That isn't known of one that is refused.
pub(crate) fn lacks_end(octets: &[u8], form: PageForm, read_to: ReadTo) -> bool
    ensures { LacksEnd form octets.now read_to result }
{
    match read_to {
        ReadTo::End(bits) => {
            let has_end = has_its_end(octets, form, bits);
            !has_end
        }
        ReadTo::NoEnd(_) => true,
        ReadTo::Lines(_) => !lines_end_by_rtc(octets, form.order),
        ReadTo::Fault(_) => false,
    }
}

//! The end of a line (ITU-T T.4, 4.1.2).

ghost use Rattle.page_code.specs.OneDimension.Fronts.{CodeBegins, zeros_before, bits_of_five};
ghost use Rattle.page_code.specs.OneDimension.Reading.{SeesEol};
ghost use Rattle.raster.specs.Packed.{bits_of};
ghost use Rattle.raster.specs.Words.{IsFirstInWord};
ghost use Rattle.std.specs.Prelude.{◌≡◌, ◌≤◌, ◌<◌, ◌+◌, ◌*◌, drop, false, length, IfSome};

use raster::packed::{Order, word_at};
use run_tables::BitReader;

/// What is found at a place where an EOL may come (ITU-T T.4, 4.1.2).
#[derive(Clone, Copy, Debug, PartialEq, Eq)]
pub(crate) enum Eol {
    /// An EOL, 11 or more 0 bits and a 1, and the number of its bits.
    Present(u128),
    /// A 1 after fewer than 11 bits of 0: no EOL.
    Absent,
    /// Only 0 bits, or nothing.
    OnlyZeros,
}

/// The number of 0 bits before the first 1 of a word, or 64.
#[inline(always)]
pub(crate) fn zeros_of(word: u64) -> u32
    ensures { IsFirstInWord word 0 false result }
{
    word.leading_zeros()
}

/// The number of 0 bits before the first 1 from a place on; none if there is no 1.
pub(crate) fn zeros_from(octets: &[u8], order: Order, place: u128) -> Option<u128>
    requires { place ≤ 8 * length octets.now }
    ensures zeros { result ≡ zeros_before (drop place (bits_of order octets.now)) }
    ensures within { IfSome result (λ zeros. place + zeros < 8 * length octets.now) }
{
    let end = 8 * octets.len() as u128;
    let mut at = place;
    while at < end {
        let zeros = zeros_of(word_at(order, octets, at));
        if zeros < 64 {
            return Some(at - place + zeros as u128);
        }
        at += 64;
    }
    None
}

/// The number of bits of the EOL at a place, if the next 57 bits show that one is there and that a row's code
/// follows it.
#[inline(always)]
pub(crate) fn quick_eol(octets: &[u8], order: Order, place: u128) -> Option<u32>
    requires { place ≤ 8 * length octets.now }
    ensures eol { IfSome result (λ bits. SeesEol (drop place (bits_of order octets.now)) (Eol.Present bits)) }
    ensures code { IfSome result (λ bits. CodeBegins (drop (place + bits) (bits_of order octets.now))) }
{
    let reader = BitReader::at(octets, order, place);
    let enough = reader.has_57();
    if !enough {
        return None;
    }
    let word = reader.peek_57();
    let zeros = zeros_of(word);
    if zeros < 11 || zeros > 45 {
        return None;
    }
    let more = zeros_of(word << (zeros + 1));
    if more >= 11 {
        return None;
    }
    Some(zeros + 1)
}

/// What is found at a place where an EOL may come.
pub(crate) fn eol_at(octets: &[u8], order: Order, place: u128) -> Eol
    requires { place ≤ 8 * length octets.now }
    ensures { SeesEol (drop place (bits_of order octets.now)) result }
{
    match zeros_from(octets, order, place) {
        None => Eol::OnlyZeros,
        Some(zeros) => {
            if zeros < 11 {
                Eol::Absent
            } else {
                Eol::Present(zeros + 1)
            }
        }
    }
}

/// The place after the EOLs at a place, six at most together with the one before it.
pub(crate) fn after_five_eols(octets: &[u8], order: Order, place: u128) -> u128
    requires { place ≤ 8 * length octets.now }
    ensures { result ≡ place + bits_of_five (drop place (bits_of order octets.now)) }
{
    let mut after = place;
    for _ in 0..5u32 {
        match eol_at(octets, order, after) {
            Eol::Present(bits) => after += bits,
            Eol::Absent | Eol::OnlyZeros => return after,
        }
    }
    after
}

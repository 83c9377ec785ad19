//! 0 bits in a row: fill, and those that an EOL begins with.

ghost use Rattle.page_code.specs.OneDimension.Fronts.{zeros_before};
ghost use Rattle.raster.specs.Packed.{bits_of};
ghost use Rattle.raster.specs.Words.{IsFirstInWord};
ghost use Rattle.std.specs.Prelude.{◌≡◌, ◌≤◌, ◌<◌, ◌+◌, ◌*◌, IfSome, drop, false, length};

use raster::packed::{Order, word_at};

/// Returns the number of 0 bits before the first 1 of a word, or 64.
fn zeros_of(word: u64) -> u32
    ensures { IsFirstInWord word 0 false result }
{
    word.leading_zeros()
}

/// Returns the number of 0 bits before the first 1 from a place on, 64 bits at a time; None if no 1 follows.
pub(crate) fn zeros_from(octets: &[u8], order: Order, place: u128) -> Option<u128>
    requires { place ≤ 8 * length octets.now }
    ensures zeros { result ≡ zeros_before (drop place (bits_of order octets.now)) }
    ensures within { IfSome result (λ zeros. place + zeros < 8 * length octets.now) }
{
    let end = 8 * octets.len() as u128;
    let mut at = place;
    while at < end {
        let zeros = zeros_of(word_at(order, octets, at));
        if zeros < 64 {
            return Some(at - place + zeros as u128);
        }
        at += 64;
    }
    None
}

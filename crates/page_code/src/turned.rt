//! Octets with their bits in the other order.

ghost use Rattle.page_code.specs.TurnedCodes.{AreTurned, IsTurnedCode};
ghost use Rattle.raster.specs.Packed.{bits_of};
ghost use Rattle.raster.specs.Words.{turned_octet};
ghost use Rattle.std.specs.Prelude.{◌≡◌, ◌≤◌, ◌++◌, IfOk, drop, length, map, take};

use raster::packed::Order;
use std::alloc::{AllocError, Global};

/// The most octets of a code that are turned. A copy of more would take more memory than the page, so the
/// words of a longer code are turned as they are read.
const MOST_TURNED: usize = 4_194_304;

/// The octet with its bits in the other order: its least significant bit is the most significant.
#[inline(always)]
fn turned(octet: u8) -> u8
    ensures turned { result ≡ turned_octet octet }
    ensures back { turned_octet result ≡ octet }
{
    let halves = octet >> 4 | octet << 4;
    let pairs = halves >> 2 & 0x33 | (halves & 0x33) << 2;
    pairs >> 1 & 0x55 | (pairs & 0x55) << 1
}

/// Turns the bits of each octet. Turned once more they are as before.
fn turn(octets: &mut [u8])
    ensures turned { octets.new ≡ map turned_octet octets.old }
    ensures back { map turned_octet octets.new ≡ octets.old }
{
    let mut at = 0;
    while at < octets.len() {
        octets[at] = turned(octets[at]);
        at += 1;
    }
}

/// Puts the bits of each octet from a place on in the other order. Turned once more they are as before.
pub fn turn_from(octets: &mut [u8], from: usize)
    requires { from ≤ length octets.old }
    ensures turned { octets.new ≡ take from octets.old ++ map turned_octet (drop from octets.old) }
    ensures back { map turned_octet (drop from octets.new) ≡ drop from octets.old }
{
    turn(&mut octets[from..]);
}

/// Turns all octets, if the first ones are turned already: only the ones after them. Errs only if memory is
/// refused.
fn turned_on(octets: &[u8], kept: Vec<u8>) -> Result<Vec<u8>, AllocError>
    requires { AreTurned kept.items octets.now }
    ensures { IfOk result (λ all. all.items ≡ map turned_octet octets.now) }
{
    let mut all = kept;
    let from = all.len();
    all.extend_from_slice(&octets[from..])?;
    turn_from(&mut all, from);
    Ok(all)
}

/// The code of a page turned, if the least significant bit comes first and there are 4 MiB at most; else no
/// octets. Octets that are kept turned already aren't turned again. Errs only if memory is refused.
pub fn turned_code(
    alloc: Global,
    octets: &[u8],
    order: Order,
    kept: Vec<u8>,
) -> Result<Vec<u8>, AllocError>
    requires { AreTurned kept.items octets.now }
    ensures { IfOk result (λ code. IsTurnedCode order octets.now code.items) }
{
    match order {
        Order::MsbFirst => Ok(Vec::new(alloc)),
        Order::LsbFirst => {
            if octets.len() > MOST_TURNED {
                return Ok(Vec::new(alloc));
            }
            turned_on(octets, kept)
        }
    }
}

/// The octets from which a page is read, and their order of bits: the turned ones, if there are any.
#[inline(always)]
pub fn code_of<'a>(octets: &'a [u8], order: Order, turned: &'a [u8]) -> (&'a [u8], Order)
    requires { IsTurnedCode order octets.now turned.now }
    ensures { bits_of result.1 result.0.now ≡ bits_of order octets.now }
{
    match order {
        Order::MsbFirst => (octets, order),
        Order::LsbFirst => {
            if octets.len() > MOST_TURNED {
                return (octets, order);
            }
            (turned, Order::MsbFirst)
        }
    }
}

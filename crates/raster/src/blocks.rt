//! Pixels in blocks of 256, all octets of a block at once.

ghost use Rattle.raster.specs.Changes.{IsBlockChange};
ghost use Rattle.std.specs.Prelude.{◌≡◌, map, not, nat_eq};
ghost use Rattle.std.specs.Simd.Lanes.{mask_l};

use crate::row::Color;
use std::simd::prelude::*;

/// Which of 32 octets differ from an octet; the least significant bit of the result is for the first one.
fn differing(octets: &[u8; 32], same: u8) -> u64
    ensures { result ≡ mask_l (map (λ octet. not (nat_eq octet same)) octets.now) }
{
    u8x32::from_array(*octets)
        .simd_ne(u8x32::splat(same))
        .to_bitmask()
}

/// Returns the least of 256 pixels in 32 octets that differs from the pixel before it, or 256 if there is
/// none; `before` is the pixel before the first. The leftmost pixel is the highest bit of the first octet, a
/// 1 is black (ITU-T T.6, 2.2.1). Takes no memory.
pub fn block_change(octets: &[u8; 32], before: Color) -> u32
    ensures { IsBlockChange octets.now before result }
{
    let same = if before.is(Color::Black) { 0xff } else { 0 };
    let others = differing(octets, same);
    if others == 0 {
        return 256;
    }
    let at = others.trailing_zeros();
    8 * at + (octets[at as usize] ^ same).leading_zeros()
}

//! Tests of pages whose code comes in pieces.

ghost use Rattle.std.specs.Prelude.{◌≤◌, length};

use page_code::{Coding, PageReader};
use raster::packed::Order;
use run_tables::BitWriter;
use std::alloc::{AllocError, Global};
use std::test::Fail;

/// The number of rows of a page of 1,728 pixels a row whose octets come in two pieces, and the bits used.
fn in_two(alloc: Global, coding: Coding, octets: &[u8], cut: usize) -> Result<(usize, u128), Fail>
    requires { cut ≤ length octets.now }
{
    let mut reader = PageReader::new(alloc, coding, Order::LsbFirst, 1728, false);
    reader.read_on(&octets[..cut])?;
    let (page, used) = reader.finish(octets)?;
    Ok((page.rows().len(), used))
}

// A white row of 1,728 pixels.
#[test]
fn a_page_comes_in_two_pieces(rt: HostRuntime) -> Result<(), Fail> {
    let alloc = rt.alloc();
    let one_dim = [
        0x00, 0x28, 0x9B, 0x15, 0x00, 0x01, 0x10, 0x00, 0x01, 0x10, 0x00, 0x01, 0x10,
    ];
    for cut in 0..14 {
        assert_eq!(rt; in_two(alloc, Coding::OneDim, &one_dim, cut)?, (1, 101));
    }
    let t6 = [0x01, 0x10, 0x00, 0x01];
    for cut in 0..5 {
        assert_eq!(rt; in_two(alloc, Coding::T6, &t6, cut)?, (1, 25));
    }
    Ok(())
}

/// The code of 20,000 rows of 864 white and as many black pixels in turn: of the first one horizontal mode, 001 000111 010, 862 times,
/// VL3, VL2, VL1 and V0; of each other one 1,728 times V0; and EOFB.
fn combs(alloc: Global) -> Result<Vec<u8>, AllocError> {
    let mut bits = BitWriter::new(alloc, Order::LsbFirst);
    for _ in 0..862u32 {
        bits.push_digits(b"001000111010")?;
    }
    bits.push_digits(b"00000100000100101")?;
    for _ in 1..20_000u32 {
        bits.push_digits(&[b'1'; 1728])?;
    }
    bits.push_digits(b"000000000001000000000001")?;
    Ok(bits.into_octets())
}

#[test]
fn the_largest_page_comes_in_two_pieces(rt: HostRuntime) -> Result<(), Fail> {
    let alloc = rt.alloc();
    let octets = combs(alloc)?;
    let bits = 10_344 + 17 + 19_999 * 1728 + 24;
    for cut in [0, octets.len() / 2, octets.len()] {
        assert_eq!(rt; in_two(alloc, Coding::T6, &octets, cut)?, (20_000, bits));
    }
    Ok(())
}

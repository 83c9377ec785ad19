//! Tests of pages that are read row by row.

ghost use Rattle.std.specs.Prelude.{◌≤◌, length};

use page_code::{Coding, NextRow, RowReader};
use raster::packed::Order;
use std::alloc::Global;
use std::test::Fail;

/// Reads the rows that are whole, and answers how many there are after them.
fn read_rows(reader: &mut RowReader) -> Result<usize, Fail> {
    for _ in 0..20_001u32 {
        match reader.next_row()? {
            NextRow::Row(_) => {}
            NextRow::End(_) => return Ok(reader.rows()),
            NextRow::Refused(_) => return Ok(reader.rows()),
        }
    }
    Ok(reader.rows())
}

/// The bits used of a page that is read to its end, or 0.
fn used(reader: &mut RowReader) -> Result<u128, Fail> {
    match reader.next_row()? {
        NextRow::End(used) => Ok(used),
        _ => Ok(0),
    }
}

/// The number of rows of a page of 1,728 pixels a row whose octets come in two pieces, and the bits used, or 0 where they are
/// refused.
fn in_two(alloc: Global, coding: Coding, octets: &[u8], cut: usize) -> Result<(usize, u128), Fail>
    requires { cut ≤ length octets.now }
{
    let mut reader = RowReader::new(alloc, coding, Order::LsbFirst, 1728)?;
    let first = reader.push_octets(&octets[..cut])?;
    let _rows = read_rows(&mut reader)?;
    let second = reader.push_octets(&octets[cut..])?;
    if first != cut || second != octets.len() - cut {
        return Ok((0, 0));
    }
    let rows = read_rows(&mut reader)?;
    Ok((rows, used(&mut reader)?))
}

// A white row of 1,728 pixels.
#[test]
fn a_page_is_read_row_by_row(rt: HostRuntime) -> Result<(), Fail> {
    let alloc = rt.alloc();
    let one_dim = [
        0x00, 0x28, 0x9B, 0x15, 0x00, 0x01, 0x10, 0x00, 0x01, 0x10, 0x00, 0x01, 0x10,
    ];
    for cut in 0..14 {
        assert_eq!(rt; in_two(alloc, Coding::OneDim, &one_dim, cut)?, (1, 101));
    }
    let t6 = [0x01, 0x10, 0x00, 0x01];
    for cut in 0..5 {
        assert_eq!(rt; in_two(alloc, Coding::T6, &t6, cut)?, (1, 25));
    }
    Ok(())
}

/// How many of the octets are taken at first, at once, and after the rows that are read between; then those that are held.
fn taken(reader: &mut RowReader, octets: &[u8]) -> Result<[usize; 5], Fail> {
    let first = reader.push_octets(octets)?;
    let second = reader.push_octets(octets)?;
    let rows = read_rows(reader)?;
    let third = reader.push_octets(octets)?;
    Ok([first, second, rows, third, reader.held()])
}

// White rows of a bit each, in T.6: 65,536 octets hold 524,288 of them, of which a page has 20,000.
#[test]
fn no_more_octets_are_held_than_there_is_room_for(rt: HostRuntime) -> Result<(), Fail> {
    let alloc = rt.alloc();
    let mut octets = Vec::new(alloc);
    octets.resize(70_000, 0xFFu8)?;
    let mut reader = RowReader::new(alloc, Coding::T6, Order::LsbFirst, 2432)?;
    assert_eq!(rt;
        taken(&mut reader, &octets)?,
        [65_536, 0, 20_000, 2_500, 65_536]
    );
    Ok(())
}

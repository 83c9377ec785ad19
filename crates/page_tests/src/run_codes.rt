//! Rows in run codes: those of another program, at size, and after other octets.

use raster::{Color, Page, RasterFault, Row};
use run_tables::{BitReader, BitWriter, CodeFault, Order};
use std::alloc::{AllocError, Global};
use std::process::Abort;
use std::test::Fail;

/// The row's bits: how many, and the octets that hold them.
fn written_row(alloc: Global, runs: &[u32]) -> Result<(u128, Vec<u8>), RasterFault> {
    let row = Row::from_runs(alloc, runs)?;
    let mut bits = BitWriter::new(alloc, Order::MsbFirst);
    bits.write_row_1d(alloc, &row)?;
    Ok((bits.bits(), bits.into_octets()))
}

/// The bits of rows of these runs, each after an EOL, and of one more EOL.
fn written_page(alloc: Global, rows: &[&[u32]]) -> Result<BitWriter, RasterFault> {
    let mut bits = BitWriter::new(alloc, Order::MsbFirst);
    for runs in rows {
        bits.write_eol()?;
        bits.write_row_1d(alloc, &Row::from_runs(alloc, runs)?)?;
    }
    bits.write_eol()?;
    Ok(bits)
}

// The rows of the page that netpbm's pbmtog3 writes of the 16 by 3 pixels 0F F0, FF 00, 18 81.
const ROWS: [&[u32]; 3] = [&[4, 8, 4], &[0, 8, 8], &[3, 2, 3, 1, 6, 1]];

const PAGE: [u8; 13] = [
    0x00, 0x1B, 0x16, 0xC0, 0x04, 0xD4, 0x59, 0x80, 0x0C, 0x70, 0xB9, 0x00, 0x08,
];

#[test]
fn a_page_of_another_program(rt: HostRuntime) -> Result<(), Fail> {
    let bits = written_page(rt.alloc(), &ROWS)?;
    assert_eq!(rt; bits.bits(), 101);
    assert_eq!(rt; bits.into_octets().as_slice(), PAGE.as_slice());
    Ok(())
}

/// The octets of 9 bits of the number 3 after the octet A5.
fn after_octet(alloc: Global, rt: &impl Abort, order: Order) -> Result<Vec<u8>, AllocError> {
    let mut before = vec![in alloc; 0xA5]?;
    let mut bits = BitWriter::after(alloc, &mut before, order)?;
    assert_eq!(rt; (before.len(), bits.bits()), (0, 8));
    bits.push_bits(3, 9)?;
    Ok(bits.into_octets())
}

#[test]
fn bits_after_octets(rt: HostRuntime) -> Result<(), Fail> {
    for (order, octets) in [
        (Order::MsbFirst, [0xA5, 0x01, 0x80]),
        (Order::LsbFirst, [0xA5, 0x80, 0x01]),
    ] {
        assert_eq!(rt;
            after_octet(rt.alloc(), &rt, order)?.as_slice(),
            octets.as_slice()
        );
    }
    Ok(())
}

/// The octets of a text of digits, again and again.
fn repeated(alloc: Global, digits: &[u8], count: u32) -> Result<Vec<u8>, AllocError> {
    let mut bits = BitWriter::new(alloc, Order::MsbFirst);
    for _ in 0..count {
        bits.push_digits(digits)?;
    }
    Ok(bits.into_octets())
}

/// How many runs of a pixel are read from the octets, white first, and the bits that they take.
fn single_pixels(octets: &[u8]) -> (u32, u128) {
    let mut reader = BitReader::at(octets, Order::MsbFirst, 0);
    let mut color = Color::White;
    for run in 0..2432 {
        if reader.read_run(color) != Ok(1) {
            return (run, reader.place());
        }
        color = color.other();
    }
    (2432, reader.place())
}

#[test]
fn single_pixels_come_back(rt: HostRuntime) -> Result<(), Fail> {
    let alloc = rt.alloc();
    let (bits, octets) = written_row(alloc, &[1; 2432])?;
    assert_eq!(rt; bits, 1216 * 9);
    assert_eq!(rt; octets, repeated(alloc, b"000111010", 1216)?);
    assert_eq!(rt; single_pixels(&octets), (2432, bits));
    Ok(())
}

/// The octets of the row of this width that octets spell.
fn read_row(alloc: Global, octets: &[u8]) -> Result<Row, CodeFault> {
    BitReader::at(octets, Order::MsbFirst, 0).read_row_1d(alloc, 2432)
}

#[test]
fn a_row_of_2432_runs_is_read(rt: HostRuntime) -> Result<(), Fail> {
    let alloc = rt.alloc();
    let row = read_row(alloc, &repeated(alloc, b"000111010", 1216)?)?;
    let mut runs = Vec::new(alloc);
    row.runs(alloc, &mut runs)?;
    assert_eq!(rt; runs.as_slice(), [1; 2432].as_slice());
    Ok(())
}

/// A page of 16 pixels a row, of rows of these runs.
fn page_of(alloc: Global, rows: &[&[u32]]) -> Result<Page, RasterFault> {
    let mut page = Page::new(alloc, 16, false)?;
    for runs in rows {
        page.push_row(Row::from_runs(alloc, runs)?)?;
    }
    Ok(page)
}

/// The bits of a page's rows, each after an EOL, and of one more EOL.
fn written_rows(alloc: Global, page: &Page) -> Result<BitWriter, AllocError> {
    let mut bits = BitWriter::new(alloc, Order::MsbFirst);
    for row in page.rows() {
        bits.write_eol()?;
        bits.write_row_1d(alloc, &row.to_row(alloc)?)?;
    }
    bits.write_eol()?;
    Ok(bits)
}

#[test]
fn rows_of_a_page_are_copied(rt: HostRuntime) -> Result<(), Fail> {
    let alloc = rt.alloc();
    let bits = written_rows(alloc, &page_of(alloc, &ROWS)?)?;
    assert_eq!(rt; bits.into_octets().as_slice(), PAGE.as_slice());
    Ok(())
}

/// The bits of 20,000 white rows of 2,432 pixels, each after an EOL, and of a 1 bit.
fn many_rows(alloc: Global) -> Result<BitWriter, AllocError> {
    let mut bits = BitWriter::new(alloc, Order::MsbFirst);
    for _ in 0..20_000u32 {
        bits.write_eol()?;
        bits.write_run(Color::White, 2432)?;
    }
    bits.push(true)?;
    Ok(bits)
}

/// Whether all octets but the last are 00 10 1D 35 again and again: an EOL, the make-up code of 2,432 and that of no more white pixel.
fn are_white_rows(octets: &[u8]) -> bool {
    for (place, octet) in octets.iter().enumerate() {
        let wanted = match place % 4 {
            0 => 0x00,
            1 => 0x10,
            2 => 0x1D,
            _ => 0x35,
        };
        if *octet != wanted {
            return place == 80_000 && *octet == 0x80;
        }
    }
    false
}

#[test]
fn many_rows_are_written(rt: HostRuntime) -> Result<(), Fail> {
    let bits = many_rows(rt.alloc())?;
    assert_eq!(rt; bits.bits(), 640_001);
    let octets = bits.into_octets();
    assert_eq!(rt; (octets.len(), are_white_rows(&octets)), (80_001, true));
    Ok(())
}

//! Pages in the one-dimensional code: one of another program, and the longest.

use page_code::{OneDim, PageCode};
use raster::{Page, RasterFault};
use run_tables::{BitWriter, CodeFault, CodeFaultKind, Order};
use std::alloc::{AllocError, Global};
use std::test::Fail;

/// The own runs of the page's rows, one row after the other.
fn runs_of(alloc: Global, page: &Page) -> Result<Vec<u32>, RasterFault> {
    let mut runs = Vec::new(alloc);
    for row in page.rows() {
        row.runs(alloc, &mut runs)?;
    }
    Ok(runs)
}

/// The octets of the page's code, or none where it has no rows.
fn written(alloc: Global, page: &Page) -> Result<Vec<u8>, AllocError> {
    let mut written = Vec::new(alloc);
    if !page.rows().is_empty() {
        OneDim::encode(alloc, page, Order::MsbFirst, &mut written)?;
    }
    Ok(written)
}

// What netpbm's pbmtog3 writes of the rows 0F F0, FF 00 and 18 81, which ends with a seventh EOL.
#[test]
fn a_page_of_another_program(rt: HostRuntime) -> Result<(), Fail> {
    let alloc = rt.alloc();
    let octets = [
        0x00, 0x1B, 0x16, 0xC0, 0x04, 0xD4, 0x59, 0x80, 0x0C, 0x70, 0xB9, 0x00, 0x08, 0x00, 0x80,
        0x08, 0x00, 0x80, 0x08, 0x00, 0x80, 0x08,
    ];
    let (page, used) = OneDim::decode(alloc, &octets, Order::MsbFirst, 16, false)?;
    assert_eq!(rt; (page.rows().len(), used), (3, 161));
    assert_eq!(rt;
        runs_of(alloc, &page)?.as_slice(),
        [4, 8, 4, 0, 8, 8, 3, 2, 3, 1, 6, 1].as_slice()
    );
    assert_eq!(rt; written(alloc, &page)?.as_slice(), &octets[..21]);
    Ok(())
}

/// The number of rows of a page of a pixel a row, and the bits used, or the refusal.
fn read(alloc: Global, octets: &[u8]) -> Result<(usize, u128), CodeFault> {
    let (page, used) = OneDim::decode(alloc, octets, Order::MsbFirst, 1, false)?;
    Ok((page.rows().len(), used))
}

#[test]
fn at_most_20000_rows_are_read(rt: HostRuntime) -> Result<(), Fail> {
    let alloc = rt.alloc();
    let mut bits = BitWriter::new(alloc, Order::MsbFirst);
    for _ in 0..20001 {
        bits.push_digits(b"000000000001000111")?;
    }
    let mut octets = bits.into_octets();
    assert_eq!(rt; octets.len(), 45003);
    let fault = CodeFault::new(360012, CodeFaultKind::TooManyCodedRows);
    assert_eq!(rt; read(alloc, &octets), Err(fault));
    // 20,000 rows, and then eight 0 bits.
    octets.truncate(45001);
    assert_eq!(rt; read(alloc, &octets), Ok((20000, 360000)));
    Ok(())
}

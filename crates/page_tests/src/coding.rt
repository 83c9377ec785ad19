//! Tests of pages in either code.

ghost use Rattle.std.specs.Prelude.{◌≤◌};

use page_code::{CodesPages, Coding, RowCoder};
use raster::packed::Order;
use raster::{Page, RasterFault, Row};
use run_tables::{CodeFault, CodeFaultKind};
use std::alloc::{AllocError, Global};
use std::process::Abort;
use std::test::Fail;

const WIDTH: u32 = 2432;

/// Rows of two black runs, whose lengths and places change from row to row.
fn wide_page(alloc: Global, rows: u32) -> Result<Page, RasterFault>
    requires { rows ≤ 300 }
{
    let mut page = Page::new(alloc, WIDTH, true)?;
    for row in 0..rows {
        let runs = [row, 300 - row, 7 * row, 1, 2131 - 7 * row];
        page.push_row(Row::from_runs(alloc, &runs)?)?;
    }
    Ok(page)
}

/// The own runs of the page's rows, one row after the other.
fn runs_of(alloc: Global, page: &Page) -> Result<Vec<u32>, RasterFault> {
    let mut runs = Vec::new(alloc);
    for row in page.rows() {
        row.runs(alloc, &mut runs)?;
    }
    Ok(runs)
}

/// The codes, in each order of bits.
const CODES: [(Coding, Order); 4] = [
    (Coding::OneDim, Order::LsbFirst),
    (Coding::OneDim, Order::MsbFirst),
    (Coding::T6, Order::LsbFirst),
    (Coding::T6, Order::MsbFirst),
];

/// The octets of the page's code, or none where it has no rows.
fn coded(alloc: Global, page: &Page, coding: Coding, order: Order) -> Result<Vec<u8>, AllocError> {
    let mut octets = Vec::new(alloc);
    if !page.rows().is_empty() {
        coding.encode(alloc, page, order, &mut octets)?;
    }
    Ok(octets)
}

/// The own runs of the page's rows that the octets are the code of, whose lines are fine, and whose last bit is in the last octet.
fn decoded_runs(
    alloc: Global,
    rt: &impl Abort,
    coding: Coding,
    order: Order,
    octets: &[u8],
) -> Result<Vec<u32>, Fail> {
    let (read, used) = coding.decode(alloc, octets, order, WIDTH, true)?;
    let seen = (read.rows().len(), read.fine(), used.div_ceil(8));
    assert_eq!(rt; seen, (300, true, octets.len() as u128));
    Ok(runs_of(alloc, &read)?)
}

#[test]
fn a_wide_page_comes_back(rt: HostRuntime) -> Result<(), Fail> {
    let alloc = rt.alloc();
    let page = wide_page(alloc, 300)?;
    let runs = runs_of(alloc, &page)?;
    for (coding, order) in CODES {
        let octets = coded(alloc, &page, coding, order)?;
        assert_eq!(rt; decoded_runs(alloc, &rt, coding, order, &octets)?, runs);
    }
    Ok(())
}

/// The octets of the page's code, row by row, with the octets moved out after each row.
fn coded_by_rows(
    alloc: Global,
    rt: &impl Abort,
    page: &Page,
    coding: Coding,
    order: Order,
) -> Result<Vec<u8>, Fail> {
    let mut coder = RowCoder::new(alloc, coding, order, WIDTH)?;
    let mut octets = Vec::new(alloc);
    for row in page.rows() {
        coder.push_row(&row)?;
        coder.move_octets(&mut octets)?;
    }
    assert!(rt; coder.rows() == 300);
    coder.finish(&mut octets)?;
    Ok(octets)
}

#[test]
fn a_wide_page_is_coded_row_by_row(rt: HostRuntime) -> Result<(), Fail> {
    let alloc = rt.alloc();
    let page = wide_page(alloc, 300)?;
    let runs = runs_of(alloc, &page)?;
    for (coding, order) in CODES {
        let octets = coded_by_rows(alloc, &rt, &page, coding, order)?;
        assert_eq!(rt; decoded_runs(alloc, &rt, coding, order, &octets)?, runs);
    }
    Ok(())
}

/// The octets FF 01 80 and the page's code, which is written again where memory is refused: the octets are as they were.
fn code_again(
    alloc: Global,
    rt: &impl Abort,
    page: &Page,
    coding: Coding,
    order: Order,
) -> Result<Vec<u8>, AllocError> {
    assert!(rt; !page.rows().is_empty());
    let mut octets = vec![in alloc; 0xFF, 0x01, 0x80]?;
    if coding.encode(alloc, page, order, &mut octets).is_err() {
        assert_eq!(rt; octets.as_slice(), [0xFF, 0x01, 0x80].as_slice());
        coding.encode(alloc, page, order, &mut octets)?;
    }
    Ok(octets)
}

// Where memory is refused, the octets are as they were, and the page can be written again.
#[test]
fn a_code_comes_after_other_octets(rt: HostRuntime) -> Result<(), Fail> {
    let alloc = rt.alloc();
    let page = wide_page(alloc, 60)?;
    for (coding, order) in CODES {
        let mut all = vec![in alloc; 0xFF, 0x01, 0x80]?;
        all.extend_from_slice(&coded(alloc, &page, coding, order)?)?;
        assert_eq!(rt; code_again(alloc, &rt, &page, coding, order)?, all);
    }
    Ok(())
}

// A white row of 1,728 pixels.
#[test]
fn only_memory_is_refused_for_a_code(rt: HostRuntime) {
    let alloc = rt.alloc();
    for (coding, octets, bits) in [
        (
            Coding::OneDim,
            [
                0x00, 0x28, 0x9B, 0x15, 0x00, 0x01, 0x10, 0x00, 0x01, 0x10, 0x00, 0x01, 0x10,
            ]
            .as_slice(),
            101,
        ),
        (Coding::T6, &[0x01, 0x10, 0x00, 0x01], 25),
    ] {
        match coding.decode(alloc, octets, Order::LsbFirst, 1728, false) {
            Ok((_, used)) => assert_eq!(rt; used, bits),
            Err(fault) => assert_eq!(rt;
                fault,
                CodeFault {
                    place: 0,
                    kind: CodeFaultKind::NoMemory,
                }
            ),
        }
    }
}

/// A page of rows of 1,216 white and as many black pixels in turn.
fn combs(alloc: Global, rows: u32) -> Result<Page, RasterFault> {
    let mut page = Page::new(alloc, WIDTH, true)?;
    for _ in 0..rows {
        page.push_row(Row::from_runs(alloc, &[1; 2432])?)?;
    }
    Ok(page)
}

/// Asserts that the code of a page of so many such rows has this many bits, and that the page is read of it.
fn combs_come_back(
    alloc: Global,
    rt: &impl Abort,
    rows: u32,
    (coding, order): (Coding, Order),
    bits: u128,
) -> Result<(), Fail> {
    let page = combs(alloc, rows)?;
    let octets = coded(alloc, &page, coding, order)?;
    assert_eq!(rt; octets.len() as u128, bits.div_ceil(8));
    let (read, used) = coding.decode(alloc, &octets, order, WIDTH, true)?;
    assert_eq!(rt; (read.rows().len(), used), (rows as usize, bits));
    for row in read.rows() {
        let mut runs = Vec::new(alloc);
        row.runs(alloc, &mut runs)?;
        assert!(rt; runs.as_slice() == [1; 2432].as_slice());
    }
    Ok(())
}

// In one dimension a row has an EOL and 1,216 times 000111 010, and the page six EOLs.
#[test]
fn a_page_of_4_194_788_octets_comes_back(rt: HostRuntime) -> Result<(), Fail> {
    let code = (Coding::OneDim, Order::LsbFirst);
    combs_come_back(rt.alloc(), &rt, 3_063, code, 3_063 * 10_956 + 72)
}

// In two dimensions the first row has horizontal mode, 001 000111 010, 1,214 times, VL3, VL2, VL1 and V0; each other one 2,432 times V0;
// and the page EOFB.
#[test]
fn the_largest_page_comes_back(rt: HostRuntime) -> Result<(), Fail> {
    let code = (Coding::T6, Order::MsbFirst);
    combs_come_back(
        rt.alloc(),
        &rt,
        20_000,
        code,
        14_568 + 17 + 19_999 * 2432 + 24,
    )
}

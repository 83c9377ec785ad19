//! Tests of pages with rows that can't be read.

use page_code::{CodesPages, Coding, OneDim, RepairedPage};
use raster::packed::Order;
use raster::{Page, RasterFault, Row};
use run_tables::{BitWriter, CodeFault, CodeFaultKind};
use std::alloc::{AllocError, Global};
use std::process::Abort;
use std::test::Fail;

const WIDTH: u32 = 2432;

/// The octets of the bits that the digits `0` and `1` write; blanks are left out.
fn octets_of(alloc: Global, texts: &[&str]) -> Result<Vec<u8>, AllocError> {
    let mut bits = BitWriter::new(alloc, Order::MsbFirst);
    for text in texts {
        bits.push_digits(text.as_bytes())?;
    }
    Ok(bits.into_octets())
}

/// The own runs of the page's rows, one row after the other.
fn runs_of(alloc: Global, page: &Page) -> Result<Vec<u32>, RasterFault> {
    let mut runs = Vec::new(alloc);
    for row in page.rows() {
        row.runs(alloc, &mut runs)?;
    }
    Ok(runs)
}

/// The numbers and the bits of the repaired rows.
fn places_of(alloc: Global, given: &RepairedPage) -> Result<Vec<u128>, AllocError> {
    let mut places = Vec::new(alloc);
    for row in &given.repaired {
        places.push(row.row as u128)?;
        places.push(row.bit)?;
    }
    Ok(places)
}

const EOL: &str = "000000000001";
// A row of 8 pixels: 2 white ones, 2 black ones, 4 white ones.
const STRIPE: &str = "0111111011";
// A white row of 8 pixels.
const BLANK: &str = "10011";
// 2 white pixels of a row, and no more.
const PART: &str = "0111";
// 8 white pixels and 2 black ones, too many by 2.
const LONG: &str = "1001111";

/// Asserts that a page of 8 pixels a row, whose bits are these, is repaired to rows of these runs, with repairs at these places.
fn gives(
    alloc: Global,
    rt: &impl Abort,
    texts: &[&str],
    runs: &[u32],
    places: &[u128],
) -> Result<(), Fail> {
    let octets = octets_of(alloc, texts)?;
    let given = OneDim::repair(alloc, &octets, Order::MsbFirst, 8, true)?;
    assert!(rt; given.page.fine());
    assert_eq!(rt; runs_of(alloc, &given.page)?.as_slice(), runs, "{texts:?}");
    assert_eq!(rt; places_of(alloc, &given)?.as_slice(), places, "{texts:?}");
    Ok(())
}

/// The bits of lines, the runs of the rows that they give, and the places of the repairs.
const LINES: [(&[&str], &[u32], &[u128]); 6] = [
    // no fault
    (&[EOL, STRIPE, EOL, BLANK, EOL, EOL], &[2, 2, 4, 8], &[]),
    // a row that ends too soon, and one that has too many pixels
    (
        &[EOL, STRIPE, EOL, PART, EOL, BLANK, EOL, LONG, EOL, EOL],
        &[2, 2, 4, 2, 2, 4, 8, 8],
        &[2, 38, 4, 72],
    ),
    // the first row, with no EOL before it
    (&[PART, EOL, STRIPE, EOL, EOL], &[8, 2, 2, 4], &[1, 4]),
    // an EOL with a wrong bit
    (
        &[EOL, BLANK, "000001000001", STRIPE, EOL, EOL],
        &[8, 2, 2, 4],
        &[],
    ),
    // bits between a row and the EOL
    (
        &[STRIPE, EOL, BLANK, "11", EOL, EOL],
        &[2, 2, 4, 2, 2, 4],
        &[2, 27],
    ),
    // the bits end in a row
    (&[STRIPE, EOL, PART], &[2, 2, 4, 2, 2, 4], &[2, 26]),
];

#[test]
fn lines_give_rows(rt: HostRuntime) -> Result<(), Fail> {
    for (texts, runs, places) in LINES {
        gives(rt.alloc(), &rt, texts, runs, places)?;
    }
    Ok(())
}

// An EOL with a wrong bit has 12 bits as any, wherever the 1 is. Fewer bits end no line: its row is then repaired.
#[test]
fn torn_eols_have_twelve_bits(rt: HostRuntime) -> Result<(), Fail> {
    let alloc = rt.alloc();
    for torn in [
        "000001000001",
        "100000000001",
        "000000000011",
        "0000010000001",
    ] {
        let texts = [EOL, BLANK, torn, STRIPE, EOL, STRIPE, EOL, EOL];
        gives(alloc, &rt, &texts, &[8, 2, 2, 4, 2, 2, 4], &[])?;
    }
    for torn in [
        "000010001",
        "0000010001",
        "00000100001",
        "10000000001",
        "00000000011",
    ] {
        let texts = [EOL, BLANK, torn, STRIPE, EOL, STRIPE, EOL, EOL];
        gives(alloc, &rt, &texts, &[8, 2, 2, 4], &[1, 17])?;
    }
    Ok(())
}

/// Rows of two black runs, whose lengths and places change from row to row.
fn wide_page(alloc: Global, rows: u32) -> Result<Page, RasterFault> {
    let mut page = Page::new(alloc, WIDTH, true)?;
    for row in 0..rows {
        let at = row % 300;
        let runs = [at, 300 - at, 7 * at, 1, 2131 - 7 * at];
        page.push_row(Row::from_runs(alloc, &runs)?)?;
    }
    Ok(page)
}

/// Whether two pages have as many rows, of which two at most differ.
fn is_like(one: &Page, other: &Page) -> bool {
    let mut differing = 0u32;
    for (row, like) in one.rows().zip(other.rows()) {
        if row.octets() != like.octets() {
            differing = differing.saturating_add(1);
        }
    }
    differing <= 2 && one.rows().len() == other.rows().len()
}

/// Whether the page with this bit flipped is repaired to one like it.
fn comes_back(alloc: Global, page: &Page, octets: &mut [u8], bit: usize) -> Result<bool, Fail> {
    if bit / 8 >= octets.len() {
        return Ok(false);
    }
    octets[bit / 8] ^= 0x80 >> (bit % 8);
    let given = OneDim::repair(alloc, octets, Order::MsbFirst, WIDTH, true)?;
    octets[bit / 8] ^= 0x80 >> (bit % 8);
    Ok(is_like(page, &given.page))
}

#[test]
fn a_flipped_bit_changes_two_rows_at_most(rt: HostRuntime) -> Result<(), Fail> {
    let alloc = rt.alloc();
    let page = wide_page(alloc, 300)?;
    assert!(rt; !page.rows().is_empty());
    let mut octets = Vec::new(alloc);
    Coding::OneDim.encode(alloc, &page, Order::MsbFirst, &mut octets)?;
    for k in 0..200usize {
        let bit = 89 * k;
        assert!(rt; comes_back(alloc, &page, &mut octets, bit)?, "{bit}");
    }
    Ok(())
}

#[test]
fn the_longest_page_is_repaired(rt: HostRuntime) -> Result<(), Fail> {
    let alloc = rt.alloc();
    let page = wide_page(alloc, 20_000)?;
    assert!(rt; !page.rows().is_empty());
    let mut octets = Vec::new(alloc);
    Coding::OneDim.encode(alloc, &page, Order::MsbFirst, &mut octets)?;
    assert!(rt; comes_back(alloc, &page, &mut octets, 400_000)?);
    Ok(())
}

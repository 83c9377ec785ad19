//! Writers of images that fail.

use crate::text::Failing;
use raster::{Document, Page, RasterFault, Row, write_pbm};
use std::alloc::{AllocError, Global};
use std::test::Fail;

/// A page of one row.
fn page_of(alloc: Global, runs: &[u32]) -> Result<Page, RasterFault> {
    let row = Row::from_runs(alloc, runs)?;
    let mut page = Page::new(alloc, row.width(), true)?;
    page.push_row(row)?;
    Ok(page)
}

/// Two pages: one of a row of 8 pixels, and one of three rows of 9 pixels.
fn two_pages(alloc: Global) -> Result<Document, RasterFault> {
    let mut page = Page::new(alloc, 9, true)?;
    for runs in [[0, 9, 0], [8, 1, 0], [1, 1, 7]] {
        page.push_row(Row::from_runs(alloc, &runs)?)?;
    }
    let mut document = Document::new(alloc, page_of(alloc, &[2, 2, 4])?)?;
    document.push(page)?;
    Ok(document)
}

const TWO_IMAGES: &[u8] = b"P4\n8 1\n0P4\n9 3\n\xFF\x80\x00\x80\x40\x00";

/// The fault, or 0, where the document is written to a writer that takes this many octets, and those that it took.
fn written(alloc: Global, document: &Document, room: usize) -> Result<(u8, Vec<u8>), AllocError> {
    let mut writer = Failing {
        taken: Vec::with_capacity(alloc, 21)?,
        room,
    };
    let number = match write_pbm(document.pages(), &mut writer) {
        Ok(()) => 0,
        Err(fault) => fault.number(),
    };
    Ok((number, writer.taken))
}

#[test]
fn a_writer_may_fail_at_each_octet(rt: HostRuntime) -> Result<(), Fail> {
    let alloc = rt.alloc();
    let document = two_pages(alloc)?;
    for room in 0..22 {
        let (number, taken) = written(alloc, &document, room)?;
        assert_eq!(rt; number, if room == 21 { 0 } else { 8 }, "room for {room}");
        assert_eq!(rt; taken.as_slice(), &TWO_IMAGES[..room]);
    }
    Ok(())
}

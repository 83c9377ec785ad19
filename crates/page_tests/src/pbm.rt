//! Readers that give few octets at once, and that fail; images that a piece's end cuts; refused memory.

use raster::{Document, Page, RasterFault, Row, read_first_pbm, read_pbm, write_text};
use std::alloc::{AllocError, Global};
use std::io;
use std::io::Read;
use std::test::Fail;

/// A reader that gives at most `step` octets a read, and that may fail at their end.
#[derive(Drop)]
struct Slow<'a> {
    rest: &'a [u8],
    step: usize,
    fails: bool,
}

impl<'a> Read for Slow<'a> {
    fn read(&mut self, buffer: &mut [u8]) -> io::Result<usize> {
        if buffer.is_empty() {
            return Ok(0);
        }
        if self.rest.is_empty() && self.fails {
            return Err(io::Error::from(io::ErrorKind::Other));
        }
        let count = self.rest.len().min(self.step).min(buffer.len());
        let (front, rest) = self.rest.split_at(count);
        buffer[..count].copy_from_slice(front);
        self.rest = rest;
        Ok(count)
    }
}

/// The rows of all pages as text, with a line of `-` after each page, or the fault.
fn rows_of<R: Read>(alloc: Global, reader: &mut R) -> Result<Vec<u8>, RasterFault> {
    let document = read_pbm(alloc, reader, true)?;
    let mut text = Vec::new(alloc);
    for page in document.pages() {
        write_text(page, &mut text)?;
        text.extend_from_slice(b"-\n")?;
    }
    Ok(text)
}

/// The fault's number where a reader gives these octets, and fails at their end or ends; or 0.
fn number_of(alloc: Global, octets: &[u8], fails: bool) -> u8 {
    let mut reader = Slow {
        rest: octets,
        step: 3,
        fails,
    };
    match read_pbm(alloc, &mut reader, false) {
        Ok(_) => 0,
        Err(fault) => fault.number(),
    }
}

/// Three images: of 8 pixels, of two rows of 9, and of 3 after a comment.
const THREE: &[u8] = b"P4\n8 1\n0P4 9 2\n\xFF\x80\x00\x00P4\n#c\n3 1\n\xA0";

/// Their rows.
const THREE_ROWS: &[u8] = b"..##....\n-\n#########\n.........\n-\n#.#\n-\n";

#[test]
fn a_reader_may_give_few_octets_at_once(rt: HostRuntime) -> Result<(), Fail> {
    let alloc = rt.alloc();
    for step in [1, 7, 4096] {
        let mut reader = Slow {
            rest: THREE,
            step,
            fails: false,
        };
        assert_eq!(rt;
            rows_of(alloc, &mut reader)?.as_slice(),
            THREE_ROWS,
            "{step} at once"
        );
        let mut reader = Slow {
            rest: THREE,
            step,
            fails: false,
        };
        let (first, count) = read_first_pbm(alloc, &mut reader, false)?;
        assert_eq!(rt; (first.width(), first.rows().len(), count), (8, 1, 3));
    }
    Ok(())
}

#[test]
fn a_reader_may_fail_in_each_image(rt: HostRuntime) {
    let alloc = rt.alloc();
    for (octets, fault) in [
        (b"".as_slice(), 7),
        (b"P4\n8 1\n", 6),
        (b"P4\n8 1\n0", 0),
        (b"P4\n8 1\n0P4", 5),
        (b"P4\n8 1\n0P4\n9 2\n\xFF", 6),
        (b"P4\n8 1\n0P4 0 2\n\xFF", 1),
        (b"P4\n8 1\n0P4 9 0\n\xFF", 4),
        (b"P4\n8 1\n0P5\n9 2\n\xFF\x80\x00\x00", 5),
        (THREE, 0),
    ] {
        assert_eq!(rt; number_of(alloc, octets, false), fault);
        // the reader's own fault, whatever came before
        assert_eq!(rt; number_of(alloc, octets, true), 8);
    }
}

/// An image of 16,369 white rows of 8 pixels, which has 16,380 octets, and then the three images: the end of a piece of 16,384 octets
/// cuts a header after `P4`, LF and `8`.
fn cut_header(alloc: Global) -> Result<Vec<u8>, AllocError> {
    let mut octets = vec![in alloc; 0; 16380]?;
    octets[..11].copy_from_slice(b"P4\n8 16369\n");
    octets.extend_from_slice(THREE)?;
    Ok(octets)
}

#[test]
fn a_piece_may_end_within_a_header(rt: HostRuntime) -> Result<(), Fail> {
    let alloc = rt.alloc();
    let octets = cut_header(alloc)?;
    for step in [1000, 100000] {
        let mut reader = Slow {
            rest: &octets,
            step,
            fails: false,
        };
        let text = rows_of(alloc, &mut reader)?;
        // 16,369 lines of 8 pixels, and a line of -
        assert_eq!(rt; text.get(147323..), Some(THREE_ROWS), "{step} at once");
    }
    Ok(())
}

/// An image of 8 pixels, one of 16 whose header has a comment of 1,100 octets, and then the three images.
fn long_comment(alloc: Global) -> Result<Vec<u8>, AllocError> {
    let mut octets = vec![in alloc; 0; 0]?;
    octets.extend_from_slice(b"P4\n8 1\n0P4\n#")?;
    octets.extend_from_slice(&[b'c'; 1100])?;
    octets.extend_from_slice(b"\n16 1\n\x0F\x81")?;
    octets.extend_from_slice(THREE)?;
    Ok(octets)
}

#[test]
fn a_later_comment_may_be_long(rt: HostRuntime) -> Result<(), Fail> {
    let alloc = rt.alloc();
    let octets = long_comment(alloc)?;
    for step in [1, 7, 4096] {
        let mut reader = Slow {
            rest: &octets,
            step,
            fails: false,
        };
        let text = rows_of(alloc, &mut reader)?;
        assert_eq!(rt;
            text.get(..30),
            Some(b"..##....\n-\n....#####......#\n-\n".as_slice())
        );
        assert_eq!(rt; text.get(30..), Some(THREE_ROWS), "{step} at once");
    }
    Ok(())
}

#[test]
fn only_memory_is_refused_for_images(rt: HostRuntime) -> Result<(), Fail> {
    let alloc = rt.alloc();
    let cut = cut_header(alloc)?;
    let long = long_comment(alloc)?;
    for octets in [cut.as_slice(), long.as_slice()] {
        let mut reader = octets;
        match read_first_pbm(alloc, &mut reader, true) {
            Ok((_, count)) => assert!(rt; count == 4 || count == 5),
            Err(fault) => assert_eq!(rt; fault.number(), 9),
        }
        assert!(rt; matches!(number_of(alloc, octets, false), 0 | 9));
    }
    Ok(())
}

/// The image of the largest page, whose pixels are white and black in turn.
fn largest_image(alloc: Global) -> Result<Vec<u8>, AllocError> {
    let mut octets = Vec::new(alloc);
    octets.extend_from_slice(b"P4\n2432 20000\n")?;
    octets.resize(6_080_014, 0x55)?;
    Ok(octets)
}

/// The rows of the only image, or 0 where there are more.
fn rows_of_the_only(alloc: Global, octets: &[u8]) -> Result<usize, RasterFault> {
    let mut reader = octets;
    let document = read_pbm(alloc, &mut reader, true)?;
    match document.pages() {
        [page] => Ok(page.rows().len()),
        _ => Ok(0),
    }
}

#[test]
fn the_largest_image_is_read(rt: HostRuntime) -> Result<(), Fail> {
    let alloc = rt.alloc();
    let octets = largest_image(alloc)?;
    assert_eq!(rt; octets.len(), 14 + 20_000 * 304);
    assert_eq!(rt; rows_of_the_only(alloc, &octets)?, 20_000);
    Ok(())
}

/// A page of a white pixel.
fn pixel(alloc: Global) -> Result<Page, RasterFault> {
    let mut page = Page::new(alloc, 1, false)?;
    page.push_row(Row::from_runs(alloc, &[1])?)?;
    Ok(page)
}

/// A document of so many pages and one more.
fn document_after(alloc: Global, more: u32) -> Result<Document, RasterFault> {
    let mut document = Document::new(alloc, pixel(alloc)?)?;
    for _ in 0..more {
        document.push(pixel(alloc)?)?;
    }
    Ok(document)
}

#[test]
fn a_document_has_many_pages(rt: HostRuntime) -> Result<(), Fail> {
    let document = document_after(rt.alloc(), 4_999)?;
    assert_eq!(rt; document.pages().len(), 5_000);
    Ok(())
}

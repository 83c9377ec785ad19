//! One page through each layer: from an image to octets of a line, and back to the same rows.

use hdlc::{Deframer, write_frame};
use page_code::{CodesPages, Coding};
use partial_page::{BlockStore, Blocks};
use raster::{read_pbm, write_text};
use run_tables::{BitWriter, Order};
use signals::{Side, Signal, read, write};
use std::alloc::Global;
use std::test::Fail;

/// The header of an image of two rows of 1,728 pixels, which have 432 octets.
const HEADER: &[u8; 10] = b"P4\n1728 2\n";

/// The code of the page of an image, the least significant bit of each octet first.
fn coded(alloc: Global, image: &[u8]) -> Result<Vec<u8>, Fail> {
    let mut reader = image;
    let document = read_pbm(alloc, &mut reader, false)?;
    let mut octets = Vec::new(alloc);
    let [page] = document.pages() else {
        return Ok(octets);
    };
    Coding::T6.encode(alloc, page, Order::LsbFirst, &mut octets)?;
    Ok(octets)
}

/// The octets of a line with the FCDs of the first block.
fn sent(alloc: Global, blocks: &Blocks) -> Result<Vec<u8>, Fail> {
    let mut line = BitWriter::new(alloc, Order::LsbFirst);
    if blocks.count() == 0 {
        return Ok(line.into_octets());
    }
    for number in 0..blocks.last(0) as u16 + 1 {
        let octets = blocks.frame(0, number as u8);
        if octets.is_empty() || octets.len() > 256 {
            return Ok(line.into_octets());
        }
        let signal = Signal::Fcd {
            number: number as u8,
            octets,
        };
        let content = write(&signal, Side::Caller, false);
        write_frame(content.as_slice(), &mut line)?;
    }
    Ok(line.into_octets())
}

/// The frames of the FCDs in octets of a line, 256 at most.
fn heard(alloc: Global, line: &[u8]) -> Result<BlockStore, Fail> {
    let mut deframer = Deframer::new(alloc);
    let mut store = BlockStore::new(alloc, false);
    deframer.feed(line)?;
    for _frame in 0..256 {
        let Some(content) = deframer.next() else {
            return Ok(store);
        };
        if let Ok(Signal::Fcd { number, octets }) = read(content) {
            store.put(number, octets)?;
        }
    }
    Ok(store)
}

/// The octets of the frames up to the last, where all are there.
fn joined(alloc: Global, store: &BlockStore, last: u8) -> Result<Vec<u8>, Fail> {
    let mut octets = Vec::new(alloc);
    if store.whole(last) {
        store.append_joined(last, &mut octets)?;
    }
    Ok(octets)
}

/// The octets of a page's code that come over a line in a block of six frames, or none where it is cut into more blocks.
fn through_a_line(alloc: Global, code: Vec<u8>) -> Result<Vec<u8>, Fail> {
    let blocks = Blocks::cut(alloc, code, false)?;
    if blocks.count() != 1 {
        return Ok(Vec::new(alloc));
    }
    let line = sent(alloc, &blocks)?;
    joined(alloc, &heard(alloc, &line)?, 5)
}

/// The first place of a text of two rows where it doesn't have white and black pixels in turn, if there is one.
fn first_wrong(text: &[u8]) -> Option<usize> {
    for (place, letter) in text.iter().enumerate() {
        let wanted = match place % 1729 {
            1728 => b'\n',
            column if column % 2 == 0 => b'.',
            _ => b'#',
        };
        if *letter != wanted {
            return Some(place);
        }
    }
    None
}

/// The text of the page that octets begin with.
fn shown(alloc: Global, octets: &[u8]) -> Result<Vec<u8>, Fail> {
    let (page, _bits) = Coding::T6.decode(alloc, octets, Order::LsbFirst, 1728, false)?;
    let mut text = Vec::new(alloc);
    write_text(&page, &mut text)?;
    Ok(text)
}

#[test]
fn a_page_goes_through_each_layer(rt: HostRuntime) -> Result<(), Fail> {
    let alloc = rt.alloc();
    let mut image = [0x55; 442];
    image[..10].copy_from_slice(HEADER);
    let octets = coded(alloc, &image)?;
    assert_eq!(rt; octets.len(), 1515);
    let octets = through_a_line(alloc, octets)?;
    assert_eq!(rt; octets.len(), 1536);
    let text = shown(alloc, &octets)?;
    assert_eq!(rt; (text.len(), first_wrong(&text)), (3458, None));
    Ok(())
}

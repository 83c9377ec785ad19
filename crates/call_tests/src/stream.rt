//! A peer that is no station of this project: a whole block, fed at once.

use hdlc::write_frame;
use line_sim::{Feed, answer_stream};
use raster::packed::Order;
use run_tables::BitWriter;
use signals::{Caps, Modems, PageWidth};
use stations::Turn;
use std::alloc::Global;
use std::test::Fail;

/// A DCS of V.17 at 14,400 bit/s, 1,728 pixels, T.6 and 256 octets a frame.
const DCS: &[u8] = b"\xFF\x13\x83\x00\x22\xF8\x44";

/// Frame 0 of a white row's code and EOFB, without its 252 octets 00.
const FCD_ROW: &[u8] = b"\xFF\x03\x06\x00\x01\x10\x00\x01";

/// PPS of page 0 and block 0, the last of all, with 256 frames.
const PPS: &[u8] = b"\xFF\x13\xBF\x2F\x00\x00\xFF";

/// Appends the frame of a content: these octets, and then `zeros` octets 00.
fn send_frame(alloc: Global, octets: &mut Vec<u8>, head: &[u8], zeros: usize) -> Result<(), Fail> {
    let mut content = Vec::new(alloc);
    content.extend_from_slice(head)?;
    for _ in 0..zeros {
        content.push(0)?;
    }
    if content.len() < 3 || content.len() > 300 {
        return Ok(());
    }
    let mut writer = BitWriter::new(alloc, Order::LsbFirst);
    write_frame(&content, &mut writer)?;
    octets.extend_from_slice(&writer.into_octets())?;
    Ok(())
}

/// The octets of a block of 256 frames, the first of them that of the row, and of its PPS.
fn whole_block(alloc: Global) -> Result<Vec<u8>, Fail> {
    let mut block = Vec::new(alloc);
    send_frame(alloc, &mut block, FCD_ROW, 252)?;
    for number in 1..=255 {
        send_frame(alloc, &mut block, &[0xFF, 0x03, 0x06, number], 256)?;
    }
    send_frame(alloc, &mut block, PPS, 0)?;
    Ok(block)
}

const CAPS: Caps = Caps {
    receiver: true,
    modems: Modems::V17,
    fine: true,
    widest: PageWidth::W2432,
    t6: true,
    ecm: true,
};

#[test]
fn a_whole_block_comes_in_one_feed(rt: HostRuntime) -> Result<(), Fail> {
    let alloc = rt.alloc();
    let mut dcs = Vec::new(alloc);
    send_frame(alloc, &mut dcs, DCS, 0)?;
    let block = whole_block(alloc)?;
    let feeds = [
        Feed::Octets(&dcs),
        Feed::Training(&[0; 2700]),
        Feed::Octets(&block),
    ];
    let answered = answer_stream(alloc, CAPS, &feeds)?;
    assert_eq!(rt; (answered.turns.len(), answered.pages.len()), (260, 1));
    assert_eq!(rt; answered.turns.last().copied(), Some(Turn::Mcf));
    Ok(())
}

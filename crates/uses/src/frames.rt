//! Frames on the line, what they say, and the blocks of a coded page.

ghost use Rattle.std.specs.Prelude.{};

use call_logs::{Tally, judge_log};
use captures::{ListForm, frames_engine};
use faults::ToolFault;
use hdlc::{Deframer, write_frame};
use partial_page::{BlockFault, BlockStore, Blocks};
use referee::{Rule, Said};
use run_tables::{BitWriter, Order};
use signals::{Side, Signal};
use std::alloc::{AllocError, Global};

/// The contents of the good frames in pieces of a line's octets, in order.
pub fn list_frames(alloc: Global, pieces: &[&[u8]]) -> Result<Vec<Vec<u8>>, AllocError> {
    let mut deframer = Deframer::new(alloc);
    let mut contents = Vec::new(alloc);
    for piece in pieces {
        deframer.feed(piece)?;
        while let Some(content) = deframer.next() {
            contents.push(Vec::from_slice(alloc, content)?)?;
        }
    }
    Ok(contents)
}

/// The octets that an answerer sends to confirm a page: the frame of an MCF.
pub fn confirmation(alloc: Global) -> Result<Vec<u8>, AllocError> {
    let content = signals::write(&Signal::Mcf, Side::Answerer, true);
    let mut writer = BitWriter::new(alloc, Order::LsbFirst);
    write_frame(&content, &mut writer)?;
    Ok(writer.into_octets())
}

/// Whether a frame's content asks for frames again.
pub fn asks_again(content: &[u8]) -> bool {
    matches!(signals::read(content), Ok(Signal::Ppr(_)))
}

/// The first block of a coded page, sent frame by frame with one frame lost: the map of the frames to send again, in which all
/// numbers above the last frame are marked too.
pub fn lose_a_frame(alloc: Global, coded: Vec<u8>, lost: u8) -> Result<[u8; 32], BlockFault> {
    let blocks = Blocks::cut(alloc, coded, false)?;
    let mut store = BlockStore::new(alloc, false);
    if blocks.count() == 0 {
        return Ok(store.missing(0));
    }
    let last = blocks.last(0);
    for number in 0..=last {
        if number != lost {
            store.put(number, blocks.frame(0, number))?;
        }
    }
    Ok(store.missing(last))
}

/// What `faxtool frames` writes for the bits of a line that are in memory.
pub fn list_capture(alloc: Global, bits: &[u8]) -> Result<Vec<u8>, ToolFault> {
    let mut reader = bits;
    let mut list = Vec::new(alloc);
    frames_engine(alloc, &mut reader, &mut list, None)?;
    Ok(list)
}

/// The rule that an answerer breaks which confirms a block before the caller has sent one.
pub fn confirmed_too_early() -> Option<Rule> {
    let mcf = Said {
        by: Side::Answerer,
        signal: Signal::Mcf,
    };
    referee::broken(mcf, &[])
}

/// What `faxtool judge` writes of a log, and its counts.
pub fn judge_text(alloc: Global, log: &[u8]) -> Result<(Vec<u8>, Result<Tally, u64>), ToolFault> {
    let mut text = Vec::new(alloc);
    let judged = judge_log(alloc, log, ListForm::Plain, &mut text)?;
    Ok((text, judged))
}

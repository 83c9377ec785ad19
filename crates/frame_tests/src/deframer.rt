//! Frames at size that come octet by octet, and refused memory.

ghost use Rattle.std.specs.Prelude.{◌≤◌, length};

use hdlc::{Counts, Deframer, write_frame};
use run_tables::{BitWriter, Order};
use std::alloc::{AllocError, Global};
use std::process::Abort;
use std::test::Fail;

/// The content of a message confirmation (MCF) of the answering station, and its frame.
const CONFIRMATION: [u8; 3] = [0xFF, 0x13, 0x8C];

const FRAME: [u8; 8] = [0x7E, 0xDF, 0x47, 0x30, 0x8A, 0xC6, 0xFB, 0x01];

const NONE: Counts = Counts {
    good: 0,
    aborted: 0,
    ragged: 0,
    short: 0,
    long: 0,
    damaged: 0,
};

/// What has taken the octets, one a piece with an empty piece before each.
fn one_by_one(alloc: Global, octets: &[u8]) -> Result<Deframer, AllocError> {
    let mut deframer = Deframer::new(alloc);
    for octet in octets {
        deframer.feed(&[])?;
        deframer.feed(&[*octet])?;
    }
    Ok(deframer)
}

/// The octets of a content's frame.
fn framed(alloc: Global, content: &[u8]) -> Result<Vec<u8>, AllocError>
    requires least { 3 ≤ length content.now }
    requires most { length content.now ≤ 300 }
{
    let mut writer = BitWriter::new(alloc, Order::LsbFirst);
    write_frame(content, &mut writer)?;
    Ok(writer.into_octets())
}

/// Whether the deframer hands out this content next.
fn next_is(deframer: &mut Deframer, content: &[u8]) -> bool {
    match deframer.next() {
        Some(next) => next == content,
        None => false,
    }
}

/// Writes a flag.
fn write_flag(writer: &mut BitWriter) -> Result<(), AllocError> {
    for digit in b"01111110" {
        writer.push(*digit == b'1')?;
    }
    Ok(())
}

/// The counts of a number of 0 bits between two flags.
fn counted_zeros(alloc: Global, bits: u32) -> Result<Counts, AllocError> {
    let mut writer = BitWriter::new(alloc, Order::LsbFirst);
    write_flag(&mut writer)?;
    for _bit in 0..bits {
        writer.push(false)?;
    }
    write_flag(&mut writer)?;
    Ok(one_by_one(alloc, &writer.into_octets())?.counts())
}

#[test]
fn sizes(rt: HostRuntime) -> Result<(), Fail> {
    let alloc = rt.alloc();
    let ragged = Counts { ragged: 1, ..NONE };
    for (octets, counts) in [
        (1, Counts { short: 1, ..NONE }),
        (4, Counts { short: 1, ..NONE }),
        (5, Counts { damaged: 1, ..NONE }),
        (302, Counts { damaged: 1, ..NONE }),
        (303, Counts { long: 1, ..NONE }),
    ] {
        let one_more = counted_zeros(alloc, 8 * octets + 1)?;
        assert_eq!(rt;
            (counted_zeros(alloc, 8 * octets)?, one_more),
            (counts, ragged),
            "{octets} octets"
        );
    }
    Ok(())
}

#[test]
fn longest_content(rt: HostRuntime) -> Result<(), Fail> {
    let content = [0x5A; 300];
    let mut deframer = one_by_one(rt.alloc(), &framed(rt.alloc(), &content)?)?;
    assert_eq!(rt; deframer.counts(), Counts { good: 1, ..NONE });
    assert!(rt; next_is(&mut deframer, &content));
    Ok(())
}

/// The octets of two frames of a confirmation, each written again after a refusal.
fn two_frames(alloc: Global) -> Result<Vec<u8>, AllocError> {
    let mut writer = BitWriter::new(alloc, Order::LsbFirst);
    for _frame in 0..2 {
        if write_frame(&CONFIRMATION, &mut writer).is_err() {
            write_frame(&CONFIRMATION, &mut writer)?;
        }
    }
    Ok(writer.into_octets())
}

/// Feeds the octets, again after a refusal, which changes nothing.
fn feed_again(rt: &impl Abort, deframer: &mut Deframer, octets: &[u8]) -> Result<(), AllocError> {
    if deframer.feed(octets).is_ok() {
        return Ok(());
    }
    assert_eq!(rt; deframer.counts(), NONE);
    assert!(rt; deframer.next().is_none());
    deframer.feed(octets)
}

/// A call that refuses changes nothing: the same call right after it gives the right answer.
#[test]
fn again_after_a_refusal(rt: HostRuntime) -> Result<(), Fail> {
    let mut deframer = Deframer::new(rt.alloc());
    feed_again(&rt, &mut deframer, &two_frames(rt.alloc())?)?;
    assert_eq!(rt; deframer.counts(), Counts { good: 2, ..NONE });
    for frame in 0..2 {
        assert!(rt; next_is(&mut deframer, &CONFIRMATION), "frame {frame}");
    }
    assert!(rt; deframer.next().is_none());
    Ok(())
}

/// The octets of a frame of 300 octets of each value, one after the other.
fn frames_of_each_value(alloc: Global) -> Result<Vec<u8>, AllocError> {
    let mut writer = BitWriter::new(alloc, Order::LsbFirst);
    for value in 0..=255u8 {
        write_frame(&[value; 300], &mut writer)?;
    }
    Ok(writer.into_octets())
}

#[test]
fn many_frames_come_in_one_piece(rt: HostRuntime) -> Result<(), Fail> {
    let mut deframer = Deframer::new(rt.alloc());
    deframer.feed(&frames_of_each_value(rt.alloc())?)?;
    assert_eq!(rt; deframer.counts(), Counts { good: 256, ..NONE });
    for value in 0..=255u8 {
        assert!(rt; next_is(&mut deframer, &[value; 300]), "{value}");
    }
    assert!(rt; deframer.next().is_none());
    Ok(())
}

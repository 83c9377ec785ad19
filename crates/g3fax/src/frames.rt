//! Frames, for C: found in bits that come in any pieces, and written as bits.

ghost use Rattle.g3fax.specs.Frames.{Feeds, HoldsFrame, NextContent, TellsCounts, WritesFrame};
ghost use Rattle.g3fax.specs.Handles.{Fills, HasDeframer, OfDeframer, OnDeframer};
ghost use Rattle.hdlc.specs.DeframerState.{IsAfter};
ghost use Rattle.std.specs.Prelude.{[], ◌≡◌, ◌≢◌, ◌≤◌, IfErr, IfOk, length};

use crate::codes::in_64_bits;
use crate::handle::{G3Handle, Kept, opened};
use crate::octets::copy_out;
use crate::status::{BAD_LENGTH, FULL_HANDLE, NO_MEMORY, NO_ROOM, NOTHING, OK};
use hdlc::{Deframer, write_frame};
use run_tables::{BitWriter, Order};
use std::alloc::{AllocError, Global};

/// The greatest number of octets of a frame's content.
pub(crate) const LONGEST_CONTENT: usize = 300;

/// The number of gaps between flags, by class (ISO/IEC 13239, invalid frames).
#[repr(C)]
#[derive(Clone, Copy)]
pub struct G3Counts {
    /// Good frames.
    pub good: u64,
    /// Gaps with six 1 bits in a row.
    pub aborted: u64,
    /// Gaps that aren't a whole number of octets.
    pub ragged: u64,
    /// Gaps of fewer than 5 octets.
    pub short: u64,
    /// Gaps of more than 302 octets.
    pub long: u64,
    /// Gaps with a wrong check sequence.
    pub damaged: u64,
}

/// Makes a deframer that has taken no bits in an empty handle. Returns `G3_FULL_HANDLE` (102) or `G3_NO_MEMORY` (9).
#[unsafe(no_mangle)]
pub extern "C" fn g3_core_deframer_new(alloc: Global, out: &mut G3Handle) -> u32
    ensures { Fills (HasDeframer (λ state. IsAfter state [] 0)) out.old.value result out.new.value }
{
    if out.is_full(alloc) {
        return FULL_HANDLE;
    }
    match Box::new(alloc, Deframer::new(alloc)) {
        Ok(boxed) => out.fill(alloc, Kept::Deframer(boxed)),
        Err(_) => NO_MEMORY,
    }
}

/// Takes the bits of octets.
fn feed(deframer: &mut Deframer, octets: &[u8]) -> u32
    ensures { Feeds octets.now deframer.old deframer.new result }
{
    match deframer.feed(octets) {
        Ok(()) => OK,
        Err(_) => NO_MEMORY,
    }
}

/// Takes octets of the line, the least significant bit of each first, in pieces of any size. Returns `G3_NO_MEMORY` (9), and nothing was
/// taken then.
#[unsafe(no_mangle)]
pub extern "C" fn g3_core_deframer_feed(
    alloc: Global,
    deframer: &mut G3Handle,
    octets: &[u8],
) -> u32
    ensures { OnDeframer (λ old new. Feeds octets.now old new result) deframer.old.value deframer.new.value result }
{
    opened!(alloc, deframer, Deframer, deframer => feed(&mut **deframer, octets))
}

/// Copies the oldest content that waits.
fn next(deframer: &mut Deframer, buffer: &mut [u8], count: &mut u64) -> u32
    ensures { NextContent deframer.old deframer.new buffer.old buffer.new count.new result }
{
    if buffer.len() < LONGEST_CONTENT {
        *count = LONGEST_CONTENT as u64;
        return NO_ROOM;
    }
    match deframer.next() {
        Some(content) => copy_out(content, buffer, count),
        None => NOTHING,
    }
}

/// Copies the oldest content that waits, 3 to 300 octets, to the beginning of a buffer, and tells how many octets it has; it waits no
/// longer. Returns `G3_NOTHING` (106) if none waits, and `G3_NO_ROOM` (103) if the buffer has fewer than 300 octets; nothing is handed out
/// then.
#[unsafe(no_mangle)]
pub extern "C" fn g3_core_deframer_next(
    alloc: Global,
    deframer: &mut G3Handle,
    buffer: &mut [u8],
    count: &mut u64,
) -> u32
    ensures { OnDeframer (λ old new. NextContent old new buffer.old buffer.new count.new result) deframer.old.value deframer.new.value
        result }
{
    // room for the longest content, so that none is lost to a small buffer
    opened!(alloc, deframer, Deframer, deframer => next(&mut **deframer, buffer, count))
}

/// Tells the counts of a deframer.
fn tell_counts(deframer: &Deframer, counts: &mut G3Counts) -> u32
    ensures { TellsCounts deframer.now counts.new result }
{
    let told = deframer.counts();
    *counts = G3Counts {
        good: told.good,
        aborted: told.aborted,
        ragged: told.ragged,
        short: told.short,
        long: told.long,
        damaged: told.damaged,
    };
    OK
}

/// Tells how many gaps of each class there were between flags, of eight bits or more; 2^64 - 1 at most.
#[unsafe(no_mangle)]
pub extern "C" fn g3_core_deframer_counts(
    alloc: Global,
    deframer: &mut G3Handle,
    counts: &mut G3Counts,
) -> u32
    ensures answers { OfDeframer (λ state. TellsCounts state counts.new result) deframer.old.value result }
    ensures kept { deframer.new.value ≡ deframer.old.value }
    ensures untold { result ≢ 0 → counts.new ≡ counts.old }
{
    opened!(alloc, deframer, Deframer, deframer => tell_counts(&**deframer, counts))
}

/// The octets of a frame, and how many bits it has.
fn framed(alloc: Global, content: &[u8]) -> Result<(Vec<u8>, u64), AllocError>
    requires least { 3 ≤ length content.now }
    requires most { length content.now ≤ 300 }
    ensures { IfOk result (λ written. HoldsFrame content.now written.0.items written.1) }
{
    let mut writer = BitWriter::new(alloc, Order::LsbFirst);
    write_frame(content, &mut writer)?;
    let bits = in_64_bits(writer.bits());
    Ok((writer.into_octets(), bits))
}

/// Writes the frame of a content of 3 to 300 octets into an empty handle, the least significant bit of each octet first: a flag, the
/// content and its check sequence with 0 bits stuffed, a flag, and fewer than eight 0 bits. Tells how many bits the frame has. Returns
/// `G3_FULL_HANDLE` (102), `G3_BAD_LENGTH` (105) or `G3_NO_MEMORY` (9).
#[unsafe(no_mangle)]
pub extern "C" fn g3_core_frame_write(
    alloc: Global,
    content: &[u8],
    out: &mut G3Handle,
    bits: &mut u64,
) -> u32
    ensures { WritesFrame content.now out.old.value result bits.new out.new.value }
{
    if out.is_full(alloc) {
        return FULL_HANDLE;
    }
    if content.len() < 3 || content.len() > LONGEST_CONTENT {
        return BAD_LENGTH;
    }
    match framed(alloc, content) {
        Ok((octets, count)) => {
            *bits = count;
            out.fill(alloc, Kept::Octets(octets))
        }
        Err(_) => NO_MEMORY,
    }
}

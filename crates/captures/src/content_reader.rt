//! The contents of the good frames in a line's bits, one after the other, over any reader: what every command that hears a line reads.

ghost use Rattle.captures.specs.Contents.{GivesNext, HasRead, ReadsPiece};
ghost use Rattle.captures.specs.Frames.{counts_of};
ghost use Rattle.faults.specs.Faults.{IsOutside};
ghost use Rattle.hdlc.specs.DeframerState.{IsAfter};
ghost use Rattle.hdlc.specs.Gaps.{good};
ghost use Rattle.raster.specs.Packed.{bits_of};
ghost use Rattle.raster.specs.declared.packed.Order.TheVariants.{LsbFirst, MsbFirst};
ghost use Rattle.std.specs.Io.KnownBytes.{Consumes, IsAtEnd};
ghost use Rattle.std.specs.Prelude.{◌≡◌, ◌<◌, ◌≤◌, ◌++◌, ◌∷◌, [], ℕ, Bool, List, IfErr, IfOk, OnOk, Some, None, false, true};
ghost use Rattle.std.specs.Prelude.{drop, length, slice_get, take};

use faults::{FAILED, NO_MEMORY, ToolFault};
use hdlc::{Counts, Deframer};
use raster::packed::{Order, word_at, word_octets};
use std::alloc::{AllocError, Global};
use std::io;
use std::io::Read;
use std::marker::Model;

/// How many octets are read at a time.
const PIECE: usize = 4096;

/// Reads the octets of a line, and gives the contents of the good frames in their bits, in order. It holds one content, and those of the
/// octets that were read last.
#[derive(Debug, Drop)]
pub struct ContentReader {
    order: Order,
    deframer: Deframer,
    content: Vec<u8>,
    given: u64,
    octets: u64,
}

impl Model for ContentReader {
    ghost use Rattle.captures.specs.Contents.{ContentReading};

    ghost Value = { ContentReading };

    ghost view = { λ r. record {
      order = r.order;
      deframer = r.deframer;
      content = r.content.items;
      octets = r.octets;
    } };
}

/// Reads octets into the front of a buffer that isn't empty and returns how many: 0 only at the reader's end. An interrupted read is tried
/// again.
fn read_some<R: Read>(reader: &mut R, piece: &mut [u8]) -> Result<usize, ToolFault>
    requires { 0 < length piece.old }
    ensures room { IfOk result (λ count. count ≤ length piece.new) }
    ensures came { IfOk result (λ count. Consumes (R.remaining reader.old) (R.remaining reader.new) (take count piece.new)) }
    ensures end { IfOk result (λ count. count ≡ 0 → IsAtEnd (R.remaining reader.new)) }
    ensures fault { IfErr result IsOutside }
{
    for _try in 0..u64::MAX {
        match reader.read(piece) {
            Ok(count) => return Ok(count),
            Err(error) => {
                if error.kind() != io::ErrorKind::Interrupted {
                    return Err(ToolFault::from(error));
                }
            }
        }
    }
    Err(FAILED)
}

/// Returns the octet with its bits in the opposite order.
fn turned(octet: u8) -> u8
    ensures { bits_of LsbFirst (result ∷ []) ≡ bits_of MsbFirst (octet ∷ []) }
{
    let word = word_at(Order::MsbFirst, &[octet], 0);
    word_octets(Order::LsbFirst, word)[0]
}

/// Feeds a deframer the bits of octets, the most significant of each first. Errors: memory is refused for a content.
fn feed_turned(deframer: &mut Deframer, piece: &[u8]) -> Result<(), AllocError>
    ensures ok { OnOk result ((bits : List Bool) (handed : ℕ) → IsAfter deframer.old bits handed
        → IsAfter deframer.new (bits ++ bits_of MsbFirst piece.now) handed) }
{
    for octet in piece {
        deframer.feed(&[turned(*octet)])?;
    }
    Ok(())
}

/// Feeds a deframer the bits of octets in this order. Errors: memory is refused for a content.
fn feed_in(deframer: &mut Deframer, order: Order, piece: &[u8]) -> Result<(), AllocError>
    ensures ok { OnOk result ((bits : List Bool) (handed : ℕ) → IsAfter deframer.old bits handed
        → IsAfter deframer.new (bits ++ bits_of order piece.now) handed) }
{
    match order {
        Order::LsbFirst => deframer.feed(piece),
        Order::MsbFirst => feed_turned(deframer, piece),
    }
}

/// Takes the content that waits longest, and returns whether one did.
fn take_waiting(deframer: &mut Deframer, content: &mut Vec<u8>) -> Result<bool, ToolFault>
    ensures some { IfOk result (λ waited. waited ≡ true → slice_get deframer.old.queue 0 ≡ Some content.new.items) }
    ensures none { IfOk result (λ waited. waited ≡ false → slice_get deframer.old.queue 0 ≡ None) }
    ensures left { OnOk result (deframer.new ≡ record deframer.old { queue = drop 1 deframer.old.queue }) }
    ensures fault { IfErr result IsOutside }
{
    let Some(octets) = deframer.next() else {
        return Ok(false);
    };
    content.clear();
    match content.extend_from_slice(octets) {
        Ok(()) => Ok(true),
        Err(_) => Err(NO_MEMORY),
    }
}

impl ContentReader {
    /// Makes a reader of a line in whose octets the bits have this order, that has read none. Takes no memory.
    pub fn new(alloc: Global, order: Order) -> ContentReader
        ensures order { result.order ≡ order }
        ensures begins { (line : List ℕ) → HasRead result line line (good (bits_of order line)) }
    {
        let deframer = Deframer::new(alloc);
        let content = Vec::new(alloc);
        ContentReader {
            order,
            deframer,
            content,
            given: 0,
            octets: 0,
        }
    }

    /// Returns the content that was given last: 3 to 300 octets.
    pub fn content(&self) -> &[u8]
        ensures { result.now ≡ self.now.content }
    {
        &self.content
    }

    /// Returns how many octets were read, 2^64 - 1 at most.
    pub fn octets(&self) -> u64
        ensures { result ≡ self.now.octets }
    {
        self.octets
    }

    /// Returns whether a content that was read isn't given yet, so that the next one needs no read. No clause says it: writers are flushed
    /// by it, which changes nothing of what they hold.
    pub(crate) fn is_waiting(&self) -> bool {
        self.deframer.counts().good > self.given
    }

    /// Returns how many gaps of each class the bits so far have.
    pub fn counts(&self) -> Counts
        ensures { (line : List ℕ) → HasRead self.now line [] [] → result ≡ counts_of (bits_of self.now.order line) }
    {
        self.deframer.counts()
    }

    /// Reads a piece, and returns whether the line goes on.
    fn fill<R: Read>(&mut self, reader: &mut R) -> Result<bool, ToolFault>
        ensures order { OnOk result (self.new.order ≡ self.old.order) }
        ensures stands { OnOk result (ReadsPiece self.old (R.remaining reader.old) (R.remaining reader.new) (HasRead self.new)) }
        ensures end { IfOk result (λ more. more ≡ false → IsAtEnd (R.remaining reader.new) × (self.new ≡ self.old)) }
        ensures fault { IfErr result IsOutside }
    {
        let mut piece = [0; PIECE];
        let count = read_some(reader, &mut piece)?;
        if count == 0 {
            return Ok(false);
        }
        feed_in(&mut self.deframer, self.order, &piece[..count])?;
        self.octets = self.octets.saturating_add(count as u64);
        Ok(true)
    }

    /// Reads on to the next content of the line, which `content` then returns, and returns whether there is one. After the last one all of
    /// the line was read. Errors: `Io` (8) from the reader, or if it doesn't end in 2^64 reads; `NoMemory` (9).
    pub fn advance<R: Read>(&mut self, reader: &mut R) -> Result<bool, ToolFault>
        ensures order { OnOk result (self.new.order ≡ self.old.order) }
        ensures next { IfOk result (λ more.
            ReadsPiece self.old (R.remaining reader.old) (R.remaining reader.new) (GivesNext more self.new)) }
        ensures end { IfOk result (λ more. more ≡ false → IsAtEnd (R.remaining reader.new)) }
        ensures fault { IfErr result IsOutside }
    {
        for _read in 0..u64::MAX {
            let waited = take_waiting(&mut self.deframer, &mut self.content)?;
            if waited {
                self.given = self.given.saturating_add(1);
                return Ok(true);
            }
            let more = self.fill(reader)?;
            if !more {
                return Ok(false);
            }
        }
        Err(FAILED)
    }
}

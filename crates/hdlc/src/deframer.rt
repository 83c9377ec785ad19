//! The deframer: bits in any pieces, and the contents of the good frames in them.
//!
//! A layer above holds `IsAfter deframer bits handed` across `feed` and `next`: the bits of all octets fed so far, and how many contents
//! were taken. `counts` and `next` turn it into facts of `count_of` and `good`, which speak of the whole bit list alone;
//! `laws::good_contents_stay` says that the contents taken are still the first ones when more bits have come. A layer that sends one frame
//! at a time holds `IsIdle deframer` instead: it begins with `laws::new_is_idle`, and `laws::frame_is_heard` leads from one frame to the
//! next.

ghost use Rattle.raster.specs.Packed.{bits_of};
ghost use Rattle.raster.specs.declared.packed.Order.TheVariants.{LsbFirst};
ghost use Rattle.hdlc.specs.DeframerState.{IsAfter};
ghost use Rattle.hdlc.specs.Gaps.{good, count_of};
ghost use Rattle.hdlc.specs.DeframerParts.{count_in};
ghost use Rattle.hdlc.specs.contracts.deframer.Deframer.{the_row};
ghost use Rattle.hdlc.specs.declared.counts.Class.{Class as AnyClass};
ghost use Rattle.std.specs.Borrow.{sem};
ghost use Rattle.std.specs.Io.BufRead.{Rests};
ghost use Rattle.std.specs.Prelude.{ℕ, ◌≡◌, ◌++◌, [], List, Bool, true, false, min, length, OnOk, OnErr, IfSome, IfNone, slice_get, drop};

use crate::counts::Counts;
use crate::flag_finder::{FlagFinder, take_octets};
use std::alloc::{AllocError, Global};
use std::collections::VecDeque;
use std::marker::Model;

/// Finds frames in bits that come in pieces, and hands out the contents of the good ones, the oldest first
/// (ISO/IEC 13239, frame structure). The result depends only on all bits together, not on where the pieces
/// are cut.
#[derive(Debug, Drop)]
pub struct Deframer {
    alloc: Global,
    finder: FlagFinder,
    counts: Counts,
    queue: VecDeque<Vec<u8>>,
    lent: Option<Vec<u8>>,
}

impl Model for Deframer {
    ghost use Rattle.hdlc.specs.DeframerState.{DeframerState};

    ghost Value = { DeframerState };

    ghost use Rattle.hdlc.specs.Contents.{contents_of};
    ghost use Rattle.hdlc.specs.DeframerParts.{kept_in};

    ghost view = { λ d. record { kept = kept_in d.finder; counts = d.counts; queue = contents_of d.queue.items } };
}

impl Deframer {
    /// Makes a deframer that has taken no bits. Takes no memory; later memory comes from `alloc`.
    pub fn new(alloc: Global) -> Self
        ensures { IsAfter result [] 0 }
    {
        Deframer {
            alloc,
            finder: FlagFinder::new(),
            counts: Counts::zero(),
            queue: VecDeque::new(alloc),
            lent: None,
        }
    }

    /// Takes a piece that needs no memory, and returns whether it did; else nothing changed.
    fn take_in_place(&mut self, piece: &[u8]) -> bool
        ensures taken { result ≡ true → (bits : List Bool) (handed : ℕ) → IsAfter self.old bits handed
            → IsAfter self.new (bits ++ bits_of LsbFirst piece.now) handed }
        ensures left { result ≡ false → self.new ≡ self.old }
    {
        self.finder.take_piece(piece)
    }

    /// Takes a piece of any octets.
    fn take_all(&mut self, piece: &[u8]) -> Result<(), AllocError>
        ensures ok { OnOk result ((bits : List Bool) (handed : ℕ) → IsAfter self.old bits handed
            → IsAfter self.new (bits ++ bits_of LsbFirst piece.now) handed) }
        ensures err { OnErr result (self.new ≡ self.old) }
    {
        let finder = self.finder.copy();
        let counts = self.counts;
        let before = self.queue.len();
        let mut at = 0;
        while at < piece.len() {
            match take_octets(
                &mut self.finder,
                &mut self.counts,
                &mut self.queue,
                self.alloc,
                &piece[at..],
            ) {
                Ok(count) => at += count,
                Err(refused) => {
                    self.finder = finder;
                    self.counts = counts;
                    self.queue.truncate(before);
                    return Err(refused);
                }
            }
        }
        Ok(())
    }

    /// Takes the next bits, the octets' with the least significant of each first. Errs if memory is refused
    /// for a content, which changes nothing.
    pub fn feed(&mut self, piece: &[u8]) -> Result<(), AllocError>
        ensures ok { OnOk result ((bits : List Bool) (handed : ℕ) → IsAfter self.old bits handed
            → IsAfter self.new (bits ++ bits_of LsbFirst piece.now) handed) }
        ensures err { OnErr result (self.new ≡ self.old) }
    {
        // a piece without a flag's end needs no copy; before any other some 310 octets are copied, so that a refusal leaves no trace
        if self.take_in_place(piece) {
            return Ok(());
        }
        self.take_all(piece)
    }

    /// Hands out the oldest content that wasn't handed out yet, if there is one: the octets of a good frame
    /// without its check sequence, 3 to 300. Takes no memory. The content is borrowed and lasts until the
    /// next call.
    pub fn next(&mut self) -> Option<&[u8]>
        ensures* after { sem 𝓛 (Rests the_row self.entry (λ new. new ≡ record self.old { queue = drop 1 self.old.queue })) }
        ensures some { IfSome result (λ content. slice_get self.old.queue 0 ≡ Some content.now) }
        ensures none { IfNone result (slice_get self.old.queue 0 ≡ None) }
        ensures content { (bits : List Bool) (handed : ℕ) → IsAfter self.old bits handed
            → IfSome result (λ content. slice_get (good bits) handed ≡ Some content.now) }
        ensures end { (bits : List Bool) (handed : ℕ) → IsAfter self.old bits handed → IfNone result (handed ≡ length (good bits)) }
    {
        self.lent = self.queue.pop_front();
        self.lent.as_deref()
    }

    /// Returns the number of gaps of eight bits or more by class; bits before the first flag and after the
    /// last one are no gap. Each count stays at 2^64 - 1 once it is there.
    pub fn counts(&self) -> Counts
        ensures { (bits : List Bool) (handed : ℕ) → IsAfter self.now bits handed
            → (class : AnyClass) → count_in result class ≡ min u64.MAX (count_of class bits) }
    {
        self.counts
    }
}

//! The bits of one gap, as they come.

ghost use Rattle.hdlc.specs.Collects.{Collects};
ghost use Rattle.hdlc.specs.Gathers.{Gathers, IsGathering};
ghost use Rattle.raster.specs.Packed.{bits_of, bit_in};
ghost use Rattle.raster.specs.declared.packed.Order.TheVariants.{LsbFirst};
ghost use Rattle.hdlc.specs.Gaps.{class_of, checks, content};
ghost use Rattle.hdlc.specs.declared.counts.Class.TheVariants.{Good};
ghost use Rattle.std.specs.Prelude.{◌≡◌, ◌<◌, ◌≤◌, ◌+◌, ◌%◌, ◌++◌, ◌∷◌, [], List, Bool, cond, drop, min, length};

use crate::check_sequence::fcs;
use crate::counts::Class;
use crate::gathering::{Gathering, drained, gather_few, gather_four};
use crate::octet_buffer::OctetBuffer;
use crate::unstuffing::unstuffed;
use byteorder::{ByteOrder, LittleEndian};

/// Whether the last two octets are the check sequence of the others, its low octet first.
fn checked(octets: &[u8]) -> bool
    requires { 2 ≤ length octets.now }
    ensures { result ≡ checks octets.now }
{
    let (covered, sent) = octets.split_at(octets.len() - 2);
    LittleEndian::read_u16(sent) == fcs(covered)
}

/// A count with one more, up to so many.
pub fn one_more(count: u8, most: u8) -> u8
    ensures { result ≡ min most (count + 1) }
{
    if count < most { count + 1 } else { most }
}

/// How many 1 bits in a row there are after one bit more, counted up to six.
fn ones_after(ones: u8, bit: bool) -> u8
    ensures { ones ≤ 6 → result ≡ cond bit (min 6 (ones + 1)) 0 }
{
    if bit { one_more(ones, 6) } else { 0 }
}

/// The bit at a place of an octet, from the least significant.
pub fn bit_at(octet: u8, place: u32) -> bool
    requires { place < 8 }
    ensures { result ≡ bit_in LsbFirst (octet ∷ []) place }
{
    (octet >> place) % 2 == 1
}

/// What is kept of the bits of a gap that is still open.
#[derive(Debug, Drop)]
pub struct Gap {
    /// How many bits there are, up to eight.
    pub(crate) seen: u8,
    /// How many 1 bits in a row end them, up to six.
    pub(crate) ones: u8,
    /// Six 1 bits in a row have come.
    pub(crate) aborted: bool,
    /// The bits without the stuffed ones.
    pub(crate) unstuffed: OctetBuffer,
}

impl Gap {
    /// A gap without bits.
    pub fn new() -> Self
        ensures { Collects result [] }
    {
        Gap {
            seen: 0,
            ones: 0,
            aborted: false,
            unstuffed: OctetBuffer::new(),
        }
    }

    /// A copy, so that a refusal can be undone.
    pub fn copy(&self) -> Self
        ensures { result ≡ self.now }
    {
        Gap {
            seen: self.seen,
            ones: self.ones,
            aborted: self.aborted,
            unstuffed: self.unstuffed.copy(),
        }
    }

    /// Takes one bit more, which is stuffed if it comes directly after five 1 bits in a row.
    pub fn push(&mut self, bit: bool)
        ensures { (gap : List Bool) → Collects self.old gap → Collects self.new (gap ++ bit ∷ []) }
    {
        let stuffed = self.ones >= 5; // after five 1 bits or more: only an aborted gap has more
        self.seen = one_more(self.seen, 8);
        self.ones = ones_after(self.ones, bit);
        self.aborted |= self.ones == 6;
        if stuffed {
            return;
        }
        self.unstuffed.push(bit);
    }

    /// Takes the bits of an octet from a place on.
    pub fn push_from(&mut self, octet: u8, start: u32)
        requires { start ≤ 8 }
        ensures { (gap : List Bool) → Collects self.old gap
            → Collects self.new (gap ++ drop start (bits_of LsbFirst (octet ∷ []))) }
    {
        for place in start..8 {
            self.push(bit_at(octet, place));
        }
    }

    /// Takes the bits of an octet more, the least significant first.
    pub fn push_octet(&mut self, octet: u8)
        ensures { (gap : List Bool) → Collects self.old gap → Collects self.new (gap ++ bits_of LsbFirst (octet ∷ [])) }
    {
        let row = usize::from(self.ones.min(6)) * 256;
        let left = unstuffed(row, octet);
        let pending = self.unstuffed.pending();
        let last = self.unstuffed.push_after(pending, left.value, left.count);
        self.seen = 8;
        self.ones = (left.row / 256) as u8;
        self.aborted |= left.sixth;
        self.unstuffed.end(last);
    }

    /// What is known beside the whole octets.
    fn gathering(&self) -> Gathering
        ensures few { result.part < 8 }
        ensures sound { IsGathering result }
        ensures gathers { (gap : List Bool) → Collects self.now gap → Gathers self.now.unstuffed result gap }
    {
        let pending = self.unstuffed.pending();
        Gathering {
            bits: u64::from(pending.bits),
            part: pending.part,
            last: pending.last,
            row: usize::from(self.ones.min(6)) * 256,
            aborted: self.aborted,
        }
    }

    /// Takes the bits of an octet and of the octets after it, the least significant of each first, octet by octet.
    fn push_each(&mut self, first: u8, octets: &[u8])
        ensures { (gap : List Bool) → Collects self.old gap → Collects self.new (gap ++ bits_of LsbFirst (first ∷ octets.now)) }
    {
        self.push_octet(first);
        for octet in octets {
            self.push_octet(*octet);
        }
    }

    /// Takes the bits of an octet and of the octets after it, the least significant of each first.
    pub fn push_run(&mut self, first: u8, octets: &[u8])
        ensures { (gap : List Bool) → Collects self.old gap → Collects self.new (gap ++ bits_of LsbFirst (first ∷ octets.now)) }
    {
        if octets.len() < 3 {
            self.push_each(first, octets);
            return;
        }
        let mut state = self.gathering();
        let mut word = u32::from_le_bytes([first, octets[0], octets[1], octets[2]]);
        let mut at = 3;
        loop {
            state = gather_four(&mut self.unstuffed, state, word);
            if octets.len() - at < 4 {
                break;
            }
            word = u32::from_le_bytes([octets[at], octets[at + 1], octets[at + 2], octets[at + 3]]);
            at += 4;
        }
        let all = gather_few(state, &octets[at..]);
        let last = drained(&mut self.unstuffed, all);
        self.seen = 8;
        self.ones = (last.row / 256) as u8;
        self.aborted = last.aborted;
        self.unstuffed.end(last.pending());
    }

    /// The class of the gap, if it ends here.
    pub fn class(&self) -> Class
        ensures { (gap : List Bool) → Collects self.now gap → result ≡ class_of gap }
    {
        if self.aborted {
            return Class::Aborted;
        }
        if self.unstuffed.part != 0 {
            return Class::Ragged;
        }
        if self.unstuffed.whole.len() < 5 {
            return Class::Short;
        }
        if self.unstuffed.long {
            return Class::Long;
        }
        if !checked(self.unstuffed.whole.as_slice()) {
            return Class::Damaged;
        }
        Class::Good
    }

    /// The octets without the check sequence, borrowed.
    pub fn content(&self) -> &[u8]
        ensures { (gap : List Bool) → Collects self.now gap → class_of gap ≡ Good → result.now ≡ content gap }
    {
        let count = self.unstuffed.whole.len();
        &self.unstuffed.whole.as_slice()[..count.saturating_sub(2)]
    }
}

//! Bits cut into gaps at the flags, one bit after the other.

ghost use Rattle.raster.specs.Packed.{bits_of};
ghost use Rattle.raster.specs.declared.packed.Order.TheVariants.{LsbFirst};
ghost use Rattle.hdlc.specs.Collects.{Collects};
ghost use Rattle.hdlc.specs.Contents.{contents_of};
ghost use Rattle.hdlc.specs.Gaps.{class_of, is_class, content};
ghost use Rattle.hdlc.specs.OpenGap.{settled};
ghost use Rattle.hdlc.specs.DeframerParts.{Cuts, PartsAfter, Grows, count_in};
ghost use Rattle.hdlc.specs.EightBits.{ends_no_flag, end_no_flag, repeated};
ghost use Rattle.hdlc.specs.declared.counts.Class.{Class as AnyClass};
ghost use Rattle.hdlc.specs.declared.counts.Counts.{Counts as AnyCounts};
ghost use Rattle.std.specs.Prelude.{ℕ, ◌≡◌, ◌+◌, ◌/◌, ◌%◌, ◌<◌, ◌≤◌, ◌++◌, ◌∷◌, ◌&&◌, []};
ghost use Rattle.std.specs.Prelude.{List, Bool, true, false, cond, min, nat_lt, length, slice_index, take, drop, replicate, IfOk, OnOk};

use crate::counts::{Class, Counts};
use crate::gap::{Gap, bit_at, one_more};
use crate::octet_buffer::shifted;
use std::alloc::{AllocError, Global};
use std::collections::VecDeque;

/// What is kept of the bits: the last eight, and what matters of the open gap's bits before them.
#[derive(Debug, Drop)]
pub struct FlagFinder {
    /// A flag has come.
    pub(crate) begun: bool,
    /// How many of the last eight bits came after the last flag.
    pub(crate) held: u8,
    /// The last eight bits, the newest the most significant; 1 bits before the first.
    pub(crate) window: u8,
    /// The bits after the last flag that left the window.
    pub(crate) gap: Gap,
}

/// How many bits of the window came after the last flag, with one bit more.
fn held_after(begun: bool, held: u8) -> u8
    ensures { held ≤ 8 → result ≡ cond begun (min 8 (held + 1)) 0 }
{
    if begun { one_more(held, 8) } else { 0 }
}

/// The last eight bits after flags alone, by how many bits came after the last flag.
const REPEATED: [u8; 8] = [0x7E, 0x3F, 0x9F, 0xCF, 0xE7, 0xF3, 0xF9, 0xFC];

/// The same table as a slice.
fn repeated() -> &'static [u8]
    ensures { result.now ≡ repeated }
{
    &REPEATED
}

/// Whether no bit of an octet, after these last eight bits, ends a flag.
fn ends_no_flag(window: u8, octet: u8) -> bool
    ensures { result ≡ ends_no_flag window (bits_of LsbFirst (octet ∷ [])) }
{
    let both = u16::from(octet) * 256 + u16::from(window);
    let pairs = both & (both / 2);
    let fours = pairs & (pairs / 4);
    if (fours & (pairs / 16)) / 4 % 256 == 0 {
        return true; // no six 1 bits in a row
    }
    (both / 2 % 256 != 0x7E)
        & (both / 4 % 256 != 0x7E)
        & (both / 8 % 256 != 0x7E)
        & (both / 16 % 256 != 0x7E)
        & (both / 32 % 256 != 0x7E)
        & (both / 64 % 256 != 0x7E)
        & (both / 128 % 256 != 0x7E)
        & (both / 256 % 256 != 0x7E)
}

/// How many octets after the first of eight from a place on, up to seven, come before six 1 bits in a row have
/// ended, so that no flag ends in them.
fn calm_octets(octets: &[u8], at: usize) -> usize
    requires { at + 8 ≤ length octets.now }
    ensures most { result ≤ 7 }
    ensures quiet { end_no_flag (slice_index octets.now at) (take result (drop (at + 1) octets.now)) ≡ true }
{
    let all = u64::from_le_bytes([
        octets[at],
        octets[at + 1],
        octets[at + 2],
        octets[at + 3],
        octets[at + 4],
        octets[at + 5],
        octets[at + 6],
        octets[at + 7],
    ]);
    let pairs = all & (all / 2);
    let fours = pairs & (pairs / 4);
    let sixes = fours & (pairs / 16);
    if sixes == 0 {
        return 7;
    }
    (sixes.trailing_zeros().saturating_sub(2) / 8) as usize // the bit after the six is in the next octet
}

/// The number of octets from the front, the first with some after it, in which no flag ends, after any last eight
/// bits after which none ends in the first.
fn quiet_after(octets: &[u8]) -> usize
    requires { 8 ≤ length octets.now }
    ensures within { result ≤ length octets.now }
    ensures quiet { (last : ℕ) → ends_no_flag last (bits_of LsbFirst (slice_index octets.now 0 ∷ [])) ≡ true
        → end_no_flag last (take result octets.now) ≡ true }
{
    let mut count = 1;
    while octets.len() - count >= 7 {
        let calm = calm_octets(octets, count - 1);
        count += calm;
        if calm != 7 {
            return count;
        }
    }
    if count == octets.len() {
        return count;
    }
    if calm_octets(octets, octets.len() - 8) == 7 {
        return octets.len(); // the last seven, some of them a second time
    }
    count
}

/// The number of octets from a place on, one with some after it or none, in which no flag ends, after these last
/// eight bits.
fn quiet_step(last: u8, octets: &[u8], at: usize) -> usize
    requires { at < length octets.now }
    ensures within { at + result ≤ length octets.now }
    ensures quiet { end_no_flag last (take result (drop at octets.now)) ≡ true }
{
    if !ends_no_flag(last, octets[at]) {
        return 0;
    }
    if octets.len() - at < 8 {
        return 1;
    }
    quiet_after(&octets[at..])
}

/// The number of octets from the front in which no flag ends, after these last eight bits.
fn quiet_front(window: u8, octets: &[u8]) -> usize
    ensures within { result ≤ length octets.now }
    ensures quiet { end_no_flag window (take result octets.now) ≡ true }
{
    let mut count = 0;
    let mut last = window;
    while count < octets.len() {
        let step = quiet_step(last, octets, count);
        if step == 0 {
            return count;
        }
        count += step;
        last = octets[count - 1];
    }
    count
}

/// Whether four octets from a place on are all this one.
fn are_four(octet: u8, octets: &[u8], at: usize) -> bool
    requires { at + 4 ≤ length octets.now }
    ensures { result ≡ true → take 4 (drop at octets.now) ≡ replicate 4 octet }
{
    let next = u32::from_le_bytes([octets[at], octets[at + 1], octets[at + 2], octets[at + 3]]);
    next == u32::from(octet) * 0x0101_0101
}

/// The number of octets from the front, in fours, that are all this one.
fn same_fours(octet: u8, octets: &[u8]) -> usize
    ensures within { result ≤ length octets.now }
    ensures same { take result octets.now ≡ replicate result octet }
{
    let mut count = 0;
    while octets.len() - count >= 4 {
        if !are_four(octet, octets, count) {
            return count;
        }
        count += 4;
    }
    count
}

impl FlagFinder {
    /// A finder that has taken no bits.
    pub fn new() -> Self
        ensures { Cuts result [] }
    {
        FlagFinder {
            begun: false,
            held: 0,
            window: 0xFF,
            gap: Gap::new(),
        }
    }

    /// A copy, so that a refusal can be undone.
    pub fn copy(&self) -> Self
        ensures { result ≡ self.now }
    {
        FlagFinder {
            begun: self.begun,
            held: self.held,
            window: self.window,
            gap: self.gap.copy(),
        }
    }

    /// Moves a bit into the window; the oldest leaves it.
    fn shift(&mut self, bit: bool)
        ensures begun { self.new.begun ≡ self.old.begun }
        ensures held { self.new.held ≡ self.old.held }
        ensures window { self.new.window ≡ self.old.window / 2 + cond bit 128 0 }
        ensures gap { (bits : List Bool) → Cuts self.old bits → Collects self.new.gap (settled bits) }
    {
        let oldest = self.window % 2 == 1;
        self.window = shifted(self.window, bit);
        if self.held != 8 {
            return;
        }
        self.gap.push(oldest);
    }

    /// Whether flags alone came, so that the last octet, if it comes again, repeats them and changes nothing.
    fn repeats_flags(&self) -> bool
        ensures { result ≡ true → (counts : AnyCounts) (queue : List (List ℕ)) (bits : List Bool) (handed : ℕ)
            → PartsAfter self.now counts queue bits handed
            → PartsAfter self.now counts queue (bits ++ bits_of LsbFirst (self.now.window ∷ [])) handed }
    {
        if !self.begun {
            return false;
        }
        if self.held > 7 {
            return false;
        }
        self.window == repeated()[self.held as usize]
    }

    /// Whether the last eight bits are 1s, before the first flag or in a gap that 1s aborted, so that eight more
    /// change nothing.
    fn repeats_ones(&self) -> bool
        ensures { result ≡ true → (counts : AnyCounts) (queue : List (List ℕ)) (bits : List Bool) (handed : ℕ)
            → PartsAfter self.now counts queue bits handed
            → PartsAfter self.now counts queue (bits ++ bits_of LsbFirst (self.now.window ∷ [])) handed }
    {
        if self.window != 0xFF {
            return false;
        }
        if !self.begun {
            return true;
        }
        if self.held != 8 {
            return false;
        }
        (self.gap.ones == 6) & self.gap.aborted & (self.gap.seen == 8)
    }

    /// Whether the last octet, if it comes again, changes nothing: flags alone came, or 1 bits alone.
    fn repeats(&self) -> bool
        ensures { result ≡ true → (counts : AnyCounts) (queue : List (List ℕ)) (bits : List Bool) (handed : ℕ)
            → PartsAfter self.now counts queue bits handed
            → PartsAfter self.now counts queue (bits ++ bits_of LsbFirst (self.now.window ∷ [])) handed }
    {
        if self.repeats_ones() {
            return true;
        }
        self.repeats_flags()
    }

    /// The number of octets from the front that repeat flags or 1 bits, which changes nothing.
    fn repeated_front(&self, octets: &[u8]) -> usize
        ensures within { result ≤ length octets.now }
        ensures same { (counts : AnyCounts) (queue : List (List ℕ)) (bits : List Bool) (handed : ℕ)
            → PartsAfter self.now counts queue bits handed
            → PartsAfter self.now counts queue (bits ++ bits_of LsbFirst (take result octets.now)) handed }
    {
        if !self.repeats() {
            return 0;
        }
        let mut count = same_fours(self.window, octets);
        while count < octets.len() {
            if octets[count] != self.window {
                return count;
            }
            count += 1;
        }
        count
    }

    /// Takes octets in which no flag ends, when none or all of the last eight bits came after the last flag.
    fn take_quiet(&mut self, octets: &[u8])
        requires whole { self.old.held % 8 ≡ 0 }
        requires quiet { end_no_flag self.old.window octets.now ≡ true }
        ensures { (counts : AnyCounts) (queue : List (List ℕ)) (bits : List Bool) (handed : ℕ)
            → PartsAfter self.old counts queue bits handed → PartsAfter self.new counts queue (bits ++ bits_of LsbFirst octets.now) handed }
    {
        let count = octets.len();
        if count == 0 {
            return;
        }
        if self.held == 8 {
            self.gap.push_run(self.window, &octets[..count - 1]);
            self.window = octets[count - 1];
            return;
        }
        self.window = octets[count - 1];
        if !self.begun {
            return;
        }
        self.held = 8;
        if count == 1 {
            return;
        }
        self.gap.push_run(octets[0], &octets[1..count - 1]);
    }

    /// Takes octets if no flag ends in them, and returns whether it did; else nothing changed.
    fn take_unless_flags(&mut self, octets: &[u8]) -> bool
        ensures taken { result ≡ true → (counts : AnyCounts) (queue : List (List ℕ)) (bits : List Bool) (handed : ℕ)
            → PartsAfter self.old counts queue bits handed
            → PartsAfter self.new counts queue (bits ++ bits_of LsbFirst octets.now) handed }
        ensures left { result ≡ false → self.new ≡ self.old }
    {
        if self.held % 8 != 0 {
            return false;
        }
        if quiet_front(self.window, octets) != octets.len() {
            return false;
        }
        self.take_quiet(octets);
        true
    }

    /// Takes an octet if no flag ends in it, when none or all of the last eight bits came after the last flag,
    /// and returns whether it did; else nothing changed.
    fn take_quiet_octet(&mut self, octet: u8) -> bool
        ensures taken { result ≡ true → (counts : AnyCounts) (queue : List (List ℕ)) (bits : List Bool) (handed : ℕ)
            → PartsAfter self.old counts queue bits handed
            → PartsAfter self.new counts queue (bits ++ bits_of LsbFirst (octet ∷ [])) handed }
        ensures left { result ≡ false → self.new ≡ self.old }
    {
        if self.held % 8 != 0 {
            return false;
        }
        if !ends_no_flag(self.window, octet) {
            return false;
        }
        let first = self.window;
        self.window = octet;
        if self.held == 8 {
            self.gap.push_octet(first);
            return true;
        }
        if !self.begun {
            return true;
        }
        self.held = 8;
        true
    }

    /// Takes an octet if it changes no count and brings no content, and returns whether it did; else nothing
    /// changed.
    fn take_octet(&mut self, octet: u8) -> bool
        ensures taken { result ≡ true → (counts : AnyCounts) (queue : List (List ℕ)) (bits : List Bool) (handed : ℕ)
            → PartsAfter self.old counts queue bits handed
            → PartsAfter self.new counts queue (bits ++ bits_of LsbFirst (octet ∷ [])) handed }
        ensures left { result ≡ false → self.new ≡ self.old }
    {
        if octet == self.window {
            if self.repeats() {
                return true;
            }
        }
        self.take_quiet_octet(octet)
    }

    /// Takes a piece if it changes no count and brings no content, and returns whether it did; else nothing
    /// changed.
    pub fn take_piece(&mut self, piece: &[u8]) -> bool
        ensures taken { result ≡ true → (counts : AnyCounts) (queue : List (List ℕ)) (bits : List Bool) (handed : ℕ)
            → PartsAfter self.old counts queue bits handed
            → PartsAfter self.new counts queue (bits ++ bits_of LsbFirst piece.now) handed }
        ensures left { result ≡ false → self.new ≡ self.old }
    {
        if piece.len() == 1 {
            return self.take_octet(piece[0]);
        }
        if self.repeated_front(piece) == piece.len() {
            return true;
        }
        self.take_unless_flags(piece)
    }

    /// Takes an octet if no flag ends in it, when fewer than eight bits came after the last flag, and returns
    /// whether it did; else nothing changed.
    fn take_behind_flag(&mut self, octet: u8) -> bool
        ensures taken { result ≡ true → (counts : AnyCounts) (queue : List (List ℕ)) (bits : List Bool) (handed : ℕ)
            → PartsAfter self.old counts queue bits handed
            → PartsAfter self.new counts queue (bits ++ bits_of LsbFirst (octet ∷ [])) handed }
        ensures left { result ≡ false → self.new ≡ self.old }
    {
        if !self.begun {
            return false;
        }
        if self.held >= 8 {
            return false;
        }
        if !ends_no_flag(self.window, octet) {
            return false;
        }
        self.gap.push_from(self.window, u32::from(8 - self.held));
        self.window = octet;
        self.held = 8;
        true
    }

    /// Takes octets from the front that change no count and bring no content, and returns how many.
    fn take_front(&mut self, octets: &[u8]) -> usize
        ensures within { result ≤ length octets.now }
        ensures taken { (counts : AnyCounts) (queue : List (List ℕ)) (bits : List Bool) (handed : ℕ)
            → PartsAfter self.old counts queue bits handed
            → PartsAfter self.new counts queue (bits ++ bits_of LsbFirst (take result octets.now)) handed }
    {
        let repeated = self.repeated_front(octets);
        if repeated != 0 {
            return repeated;
        }
        if self.held % 8 != 0 {
            return 0;
        }
        let count = quiet_front(self.window, octets);
        self.take_quiet(&octets[..count]);
        count
    }
}

/// Counts a gap that a flag ended, and keeps the content of a good one.
fn close(
    gap: &Gap,
    counts: &mut Counts,
    queue: &mut VecDeque<Vec<u8>>,
    alloc: Global,
) -> Result<(), AllocError>
    ensures counted { (bits : List Bool) → Collects gap.now bits → (class : AnyClass) → count_in counts.old class ≤ u64.MAX
        → count_in counts.new class
        ≡ min u64.MAX (count_in counts.old class + cond (nat_lt 7 (length bits) && is_class class (class_of bits)) 1 0) }
    ensures ok { OnOk result ((bits : List Bool) → Collects gap.now bits
        → contents_of queue.new.items
        ≡ contents_of queue.old.items ++ cond (nat_lt 7 (length bits) && is_class Class.Good (class_of bits)) (content bits ∷ []) []) }
    ensures keeps { Grows queue.old.items queue.new.items }
{
    if gap.seen < 8 {
        return Ok(()); // fill between flags; also flags that touch or share a 0
    }
    let class = gap.class();
    counts.add(class);
    if !class.is_good() {
        return Ok(());
    }
    let mut octets = Vec::new(alloc);
    octets.extend_from_slice(gap.content())?;
    queue.push_back(octets)?;
    Ok(())
}

/// Takes one bit more. An `Err` leaves the queue longer or as it was, and the rest in any state.
fn take_bit(
    finder: &mut FlagFinder,
    counts: &mut Counts,
    queue: &mut VecDeque<Vec<u8>>,
    alloc: Global,
    bit: bool,
) -> Result<(), AllocError>
    ensures ok { OnOk result ((bits : List Bool) (handed : ℕ) → PartsAfter finder.old counts.old (contents_of queue.old.items) bits handed
        → PartsAfter finder.new counts.new (contents_of queue.new.items) (bits ++ bit ∷ []) handed) }
    ensures keeps { Grows queue.old.items queue.new.items }
{
    finder.shift(bit);
    if finder.window != 0x7E {
        finder.held = held_after(finder.begun, finder.held);
        return Ok(());
    }
    close(&finder.gap, counts, queue, alloc)?;
    finder.begun = true;
    finder.held = 0;
    finder.gap = Gap::new();
    Ok(())
}

/// Takes the eight bits of an octet, the least significant first, bit by bit.
#[inline(never)] // few octets end a flag
fn take_each(
    finder: &mut FlagFinder,
    counts: &mut Counts,
    queue: &mut VecDeque<Vec<u8>>,
    alloc: Global,
    octet: u8,
) -> Result<(), AllocError>
    ensures ok { OnOk result ((bits : List Bool) (handed : ℕ) → PartsAfter finder.old counts.old (contents_of queue.old.items) bits handed
        → PartsAfter finder.new counts.new (contents_of queue.new.items) (bits ++ bits_of LsbFirst (octet ∷ [])) handed) }
    ensures keeps { Grows queue.old.items queue.new.items }
{
    for place in 0..8 {
        take_bit(finder, counts, queue, alloc, bit_at(octet, place))?;
    }
    Ok(())
}

/// Takes the first of the octets, and the ones after it that can be taken at once: no flag ends in them, or
/// only flags come. Returns how many it took. An `Err` leaves the queue longer or as it was, and the rest in
/// any state.
pub fn take_octets(
    finder: &mut FlagFinder,
    counts: &mut Counts,
    queue: &mut VecDeque<Vec<u8>>,
    alloc: Global,
    octets: &[u8],
) -> Result<usize, AllocError>
    requires { 0 < length octets.now }
    ensures least { IfOk result (λ count. 0 < count) }
    ensures most { IfOk result (λ count. count ≤ length octets.now) }
    ensures ok { IfOk result (λ count. (bits : List Bool) (handed : ℕ)
        → PartsAfter finder.old counts.old (contents_of queue.old.items) bits handed
        → PartsAfter finder.new counts.new (contents_of queue.new.items) (bits ++ bits_of LsbFirst (take count octets.now)) handed) }
    ensures keeps { Grows queue.old.items queue.new.items }
{
    let count = finder.take_front(octets);
    if count != 0 {
        return Ok(count);
    }
    if finder.take_behind_flag(octets[0]) {
        return Ok(1);
    }
    take_each(finder, counts, queue, alloc, octets[0])?;
    Ok(1)
}

//! The bits of an open gap while octets come four at a time.

ghost use Rattle.hdlc.specs.EightBits.{fives, four, plain, IsStuffedAlone};
ghost use Rattle.raster.specs.Octets.{number};
ghost use Rattle.hdlc.specs.Gathers.{Gathers, IsGathering};
ghost use Rattle.hdlc.specs.Pending.{window_of, IsPending};
ghost use Rattle.hdlc.specs.declared.octet_buffer.OctetBuffer.{OctetBuffer as AnyBuffer};
ghost use Rattle.raster.specs.Packed.{bits_of};
ghost use Rattle.raster.specs.declared.packed.Order.TheVariants.{LsbFirst};
ghost use Rattle.std.specs.Prelude.{◌≡◌, ◌≤◌, ◌<◌, ◌+◌, ◌-◌, ◌*◌, ◌/◌, ◌%◌, ◌^◌, ◌++◌, ◌∷◌, [], List, Bool, true, length, take, drop};

use crate::octet_buffer::{OctetBuffer, Pending};
use crate::unstuffing::unstuffed;

/// What is known of an open gap, beside the whole octets of its buffer.
#[derive(Clone, Copy)]
pub struct Gathering {
    /// The unstuffed bits after these octets as a number, the first the least significant.
    pub(crate) bits: u64,
    /// How many they are.
    pub(crate) part: u32,
    /// The eight bits before them.
    pub(crate) last: u8,
    /// 256 for each 1 bit in a row at the gap's end, up to six.
    pub(crate) row: usize,
    /// Six 1 bits in a row have come.
    pub(crate) aborted: bool,
}

impl Gathering {
    /// With the bits of an octet more, the least significant first.
    pub fn with(self, octet: u8) -> Gathering
        requires few { self.part ≤ 55 }
        requires sound { IsGathering self }
        ensures few { result.part ≤ self.part + 8 }
        ensures sound { IsGathering result }
        ensures gathers { (buffer : AnyBuffer) (gap : List Bool) → Gathers buffer self gap
            → Gathers buffer result (gap ++ bits_of LsbFirst (octet ∷ [])) }
    {
        let left = unstuffed(self.row, octet);
        Gathering {
            bits: self.bits.wrapping_add(u64::from(left.value) << self.part),
            part: self.part + left.count,
            last: self.last,
            row: left.row,
            aborted: self.aborted | left.sixth,
        }
    }

    /// Where five 1 bits in a row begin in the 1 bits before 32 bits, and in these after them.
    fn fives(self, word: u32) -> u64
        requires sound { IsGathering self }
        ensures few { result < 2 ^ 34 }
        ensures is { result ≡ fives ((number (bits_of LsbFirst (four word)) + 1) * 2 ^ (self.row / 256) - 1) }
    {
        let all = ((u64::from(word) + 1) << (self.row / 256)) - 1;
        let pairs = all & (all / 2);
        let fours = pairs & (pairs / 4);
        fours & (all / 16)
    }

    /// With 32 bits more, none of which is stuffed.
    fn with_plain(self, word: u32) -> Gathering
        requires few { self.part < 32 }
        requires sound { IsGathering self }
        requires plain { plain (self.row / 256) (bits_of LsbFirst (four word)) ≡ true }
        ensures few { result.part ≡ self.part + 32 }
        ensures sound { IsGathering result }
        ensures gathers { (buffer : AnyBuffer) (gap : List Bool) → Gathers buffer self gap
            → Gathers buffer result (gap ++ bits_of LsbFirst (four word)) }
    {
        Gathering {
            bits: self.bits.wrapping_add(u64::from(word) << self.part),
            part: self.part + 32,
            last: self.last,
            row: unstuffed(0, (word / 16777216) as u8).row, // they have a 0 bit: what came before them doesn't matter
            aborted: self.aborted,
        }
    }

    /// 2 to the place of the only stuffed bit of 32 bits, by where five 1 bits in a row begin in the 1 bits before
    /// them, and in them after these; 0 if there are more, or if the bit after them is stuffed.
    fn stuffed_alone(self, starts: u64) -> u64
        requires least { 0 < starts }
        requires few { starts < 2 ^ 34 }
        requires sound { IsGathering self }
        ensures { (bits : List Bool) → length bits ≡ 32
            → starts ≡ fives ((number bits + 1) * 2 ^ (self.row / 256) - 1) → 0 < result
            → IsStuffedAlone (self.row / 256) bits result }
    {
        if starts & (starts - 1) != 0 {
            return 0;
        }
        let power = (starts * 32) >> (self.row / 256);
        if power >= 0x0001_0000_0000 {
            return 0;
        }
        power
    }

    /// With 32 bits more, one of which is stuffed; `power` is 2 to its place.
    fn with_others(self, word: u32, power: u64) -> Gathering
        requires few { self.part < 32 }
        requires sound { IsGathering self }
        requires stuffed { IsStuffedAlone (self.row / 256) (bits_of LsbFirst (four word)) power }
        ensures few { result.part ≡ self.part + 31 }
        ensures sound { IsGathering result }
        ensures gathers { (buffer : AnyBuffer) (gap : List Bool) → Gathers buffer self gap
            → Gathers buffer result (gap ++ bits_of LsbFirst (four word)) }
    {
        let all = u64::from(word);
        let before = all & (power - 1);
        let others = (all + before) / 2; // those before it stay, those after it come one place lower
        Gathering {
            bits: self.bits.wrapping_add(others << self.part),
            part: self.part + 31,
            last: self.last,
            row: unstuffed(0, (word / 16777216) as u8).row, // a 0 is stuffed: what came before them doesn't matter
            aborted: self.aborted,
        }
    }

    /// The bits after the whole octets, where they are fewer than eight.
    pub fn pending(self) -> Pending
        requires few { self.part < 8 }
        requires sound { IsGathering self }
        ensures pending { IsPending result }
        ensures part { result.part ≡ self.part }
        ensures window { window_of result ≡ (self.bits * 256 + self.last) / 2 ^ self.part % 256 }
    {
        Pending {
            bits: (self.bits % 256) as u32,
            part: self.part,
            last: self.last,
        }
    }
}

/// Moves four octets into the buffer, if so many bits are after its octets.
fn settled(buffer: &mut OctetBuffer, state: Gathering) -> Gathering
    requires most { state.part ≤ 63 }
    requires sound { IsGathering state }
    ensures few { result.part < 32 }
    ensures sound { IsGathering result }
    ensures gathers { (gap : List Bool) → Gathers buffer.old state gap → Gathers buffer.new result gap }
{
    if state.part < 32 {
        return state;
    }
    let word = (state.bits % 0x0001_0000_0000) as u32;
    buffer.push_four(word);
    Gathering {
        bits: state.bits / 0x0001_0000_0000,
        part: state.part - 32,
        last: (word / 0x0100_0000) as u8,
        row: state.row,
        aborted: state.aborted,
    }
}

/// Takes 32 bits, one octet of them after the other.
fn gather_each(buffer: &mut OctetBuffer, state: Gathering, word: u32) -> Gathering
    requires few { state.part < 32 }
    requires sound { IsGathering state }
    ensures few { result.part < 32 }
    ensures sound { IsGathering result }
    ensures gathers { (gap : List Bool) → Gathers buffer.old state gap
        → Gathers buffer.new result (gap ++ bits_of LsbFirst (four word)) }
{
    let one = state.with((word % 256) as u8);
    let two = one.with((word / 256 % 256) as u8);
    let three = two.with((word / 65536 % 256) as u8);
    settled(buffer, three.with((word / 16777216) as u8))
}

/// Takes 32 bits, the least significant first.
pub fn gather_four(buffer: &mut OctetBuffer, state: Gathering, word: u32) -> Gathering
    requires few { state.part < 32 }
    requires sound { IsGathering state }
    ensures few { result.part < 32 }
    ensures sound { IsGathering result }
    ensures gathers { (gap : List Bool) → Gathers buffer.old state gap
        → Gathers buffer.new result (gap ++ bits_of LsbFirst (four word)) }
{
    let fives = state.fives(word);
    if fives == 0 {
        return settled(buffer, state.with_plain(word));
    }
    let power = state.stuffed_alone(fives);
    if power != 0 {
        return settled(buffer, state.with_others(word, power));
    }
    gather_each(buffer, state, word)
}

/// With the bits of up to three octets more, the least significant of each first.
pub fn gather_few(state: Gathering, octets: &[u8]) -> Gathering
    requires few { state.part < 32 }
    requires most { length octets.now < 4 }
    requires sound { IsGathering state }
    ensures few { result.part ≤ 55 }
    ensures sound { IsGathering result }
    ensures gathers { (buffer : AnyBuffer) (gap : List Bool) → Gathers buffer state gap
        → Gathers buffer result (gap ++ bits_of LsbFirst octets.now) }
{
    let mut all = state;
    for octet in octets {
        all = all.with(*octet);
    }
    all
}

/// Moves the whole octets into the buffer.
pub fn drained(buffer: &mut OctetBuffer, state: Gathering) -> Gathering
    requires most { state.part ≤ 63 }
    requires sound { IsGathering state }
    ensures few { result.part < 8 }
    ensures sound { IsGathering result }
    ensures gathers { (gap : List Bool) → Gathers buffer.old state gap → Gathers buffer.new result gap }
{
    let mut rest = settled(buffer, state);
    while rest.part >= 8 {
        let octet = (rest.bits % 256) as u8;
        buffer.push_octet(octet);
        rest = Gathering {
            bits: rest.bits / 256,
            part: rest.part - 8,
            last: octet,
            row: rest.row,
            aborted: rest.aborted,
        };
    }
    rest
}

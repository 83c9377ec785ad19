//! Bits that are kept eight an octet, in either order.

ghost use Rattle.raster.specs.Changes.{AppendsChanges, AreChanges, IsRising, turning};
ghost use Rattle.raster.specs.Pixels.{colors, IsWidth};
ghost use Rattle.raster.specs.Appending.{AppendsKept, CutsLast};
ghost use Rattle.raster.specs.Packed.{bit_in, bits_in, bits_of, kept_bits, place_in, AreAlike, AreKept, IsPacked, Bits, FillsOctets};
ghost use Rattle.raster.specs.Painting.{FitsPainter, Paints};
ghost use Rattle.raster.specs.Runs.{colored};
ghost use Rattle.raster.specs.Words.{IsWordAt, IsFirstOtherBit, bit_of_word};
ghost use Rattle.raster.specs.declared.row.Color.{Color};
ghost use Rattle.std.specs.Int.{bit_at};
ghost use Rattle.std.specs.Prelude.{ℕ, List, ◌≡◌, ◌≤◌, ◌<◌, ◌+◌, ◌-◌, ◌*◌, ◌/◌, ◌++◌, length};
ghost use Rattle.std.specs.Prelude.{if◌then◌else◌, replicate, sum, slice_get, take, All, IfOk, IfSome, OnOk, OnErr};

use crate::changes::{changes, put_changes};
use crate::painting::{Painter, paint, paint_turns};
use crate::row::MAX_WIDTH;
use crate::words::{bit_of_all, first_other, in_order, moved_word, octets_of, shifted_word};
use std::alloc::{AllocError, Global};
use std::marker::Model;

/// Which bit of an octet comes first.
#[derive(Clone, Copy, Debug, PartialEq, Eq)]
pub enum Order {
    /// The least significant bit first, as on the telephone line.
    LsbFirst,
    /// The most significant bit first, as in a row of a PBM file.
    MsbFirst,
}

/// How far the bit at a place is above its octet's lowest bit.
fn shift_of(order: Order, place: u128) -> u32
    ensures value { result ≡ place_in order place }
    ensures below { result < 8 }
{
    let within = (place % 8) as u32;
    match order {
        Order::LsbFirst => within,
        Order::MsbFirst => 7 - within,
    }
}

/// Returns the bit at a place of the octets. Places count bits from 0, eight an octet.
pub fn bit_of(order: Order, octets: &[u8], place: u128) -> bool
    requires { place < 8 * length octets.now }
    ensures { result ≡ bit_in order octets.now place }
{
    (octets[(place / 8) as usize] >> shift_of(order, place)) & 1 == 1
}

/// Returns the 64 bits of the octets from a place on, the first of them the most significant. Places count
/// bits from 0, eight an octet; bits past the octets are 0.
#[inline(always)]
pub fn word_at(order: Order, octets: &[u8], place: u128) -> u64
    ensures { IsWordAt order octets.now place result }
{
    if place / 8 >= octets.len() as u128 {
        return 0;
    }
    shifted_word(order, octets, (place / 8) as usize, (place % 8) as u32)
}

/// Returns the eight octets that hold the bits of a word, its most significant bit first.
#[inline(always)]
pub fn word_octets(order: Order, word: u64) -> [u8; 8]
    ensures { (k : ℕ) → k < 64 → bit_in order result k ≡ bit_of_word word k }
{
    octets_of(in_order(order, word))
}

/// Returns the bits of eight octets from bit `within` of octet `at` on, the first of them the most
/// significant: 57 to 64 bits.
#[inline(always)]
pub fn word_of_eight(order: Order, octets: &[u8], at: usize, within: u32) -> u64
    requires at { at + 8 ≤ length octets.now }
    requires within { within < 8 }
    ensures { (k : ℕ) → within + k < 64 → bit_of_word result k ≡ bit_in order octets.now (8 * at + within + k) }
{
    moved_word(order, octets, at, within)
}

/// Returns the first `count` bits of an octet, followed by 0 bits.
fn first_of_octet(order: Order, octet: u8, count: u32) -> u8
    requires some { 0 < count }
    requires few { count < 8 }
    ensures inside { (k : ℕ) → k < count → bit_at result (place_in order k) ≡ bit_at octet (place_in order k) }
    ensures after { (k : ℕ) → count ≤ k → k < 8 → bit_at result (place_in order k) ≡ 0 }
{
    match order {
        Order::LsbFirst => octet & (u8::MAX >> (8 - count)),
        Order::MsbFirst => octet & !(u8::MAX >> count),
    }
}

/// The octets of the widest row of 0 bits, and of 1 bits.
const ALIKE: [[u8; 304]; 2] = [[0; 304], [0xFF; 304]];

/// The octets of the widest row whose bits are all equal to `bit`.
fn octets_alike(bit: bool) -> &'static [u8]
    ensures { result.now ≡ replicate 304 (if bit then 255 else 0) }
{
    if bit { &ALIKE[1] } else { &ALIKE[0] }
}

/// Returns `count` octets, all 0.
fn zeros(alloc: Global, count: usize) -> Result<Vec<u8>, AllocError>
    ensures { IfOk result (λ octets. octets.items ≡ replicate count 0) }
{
    let mut octets = Vec::with_capacity(alloc, count)?;
    octets.resize(count, 0)?;
    Ok(octets)
}

/// The number of octets that hold `count` bits; the last one may be filled in part.
pub(crate) fn octets_for(count: u32) -> usize
    ensures { result ≡ (count + 7) / 8 }
{
    (count as usize + 7) / 8
}

/// Clears the bits of the last octet after the first `count` bits.
fn clear_after(order: Order, octets: &mut Vec<u8>, count: u32)
    requires { length octets.old.items ≡ (count + 7) / 8 }
    ensures packed { IsPacked order octets.new.items count }
    ensures same { (k : ℕ) → k < count → bit_in order octets.new.items k ≡ bit_in order octets.old.items k }
{
    if count % 8 == 0 {
        return;
    }
    let last = (count / 8) as usize;
    octets[last] = first_of_octet(order, octets[last], count % 8);
}

/// Clears the bits of the last octet after the first `count` bits of the octets from `start` on, in the order of a row.
#[inline(always)]
pub(crate) fn clear_last(octets: &mut Vec<u8>, start: usize, count: u32)
    requires { length octets.old.items ≡ start + (count + 7) / 8 }
    ensures { (before own : List ℕ) → octets.old.items ≡ before ++ own → length before ≡ start → CutsLast count before own octets.new.items }
{
    if count % 8 == 0 {
        return;
    }
    let last = start + (count / 8) as usize;
    octets[last] = first_of_octet(Order::MsbFirst, octets[last], count % 8);
}

/// A list of bits, kept eight an octet in the order of a row; or, if all are alike, as one bit without
/// octets.
#[derive(Debug, Drop)]
pub(crate) struct PackedBits {
    octets: Vec<u8>,
    alike: Option<bool>,
    count: u32,
}

impl Model for PackedBits {
    ghost use Rattle.raster.specs.Packed.{kept_bits, AreKept};
    ghost use Rattle.raster.specs.declared.packed.Order.TheVariants.{MsbFirst};
    ghost use Rattle.std.specs.Prelude.{Bool, List};

    ghost Value = { List Bool };

    ghost view = { λ p. kept_bits p.alike MsbFirst p.octets.items p.count };

    ghost invariant = { λ p. AreKept p.alike MsbFirst p.octets.items p.count };
}

impl PackedBits {
    /// `count` bits of a row, all equal to `bit`. Takes no memory.
    #[inline(always)]
    fn of_one(alloc: Global, bit: bool, count: u32) -> Self
        requires { AreAlike bit count }
        ensures { result ≡ replicate count bit }
    {
        PackedBits {
            octets: Vec::new(alloc),
            alike: Some(bit),
            count,
        }
    }

    /// The bits of alternating runs, 0 bits first, if they are one run that can be kept as a single bit.
    /// Takes no memory.
    #[inline(always)]
    #[tactic(auto, using(crate::proofs::PackedLemmas::views))]
    pub(crate) fn of_one_run(alloc: Global, runs: &[u32]) -> Option<Self>
        ensures sum { IfSome result (λ p. length p ≡ sum runs.now) }
        ensures width { IfSome result (λ p. IsWidth (length p)) }
        ensures colors { IfSome result (λ p. colors p ≡ colored Color.White runs.now) }
    {
        if runs.len() == 1 && runs[0] > 0 && runs[0] <= MAX_WIDTH {
            return Some(PackedBits::of_one(alloc, false, runs[0]));
        }
        if runs.len() == 2
            && runs[0] == 0
            && runs[1] > 0
            && runs[1] <= MAX_WIDTH
            && runs[1] % 8 == 0
        {
            return Some(PackedBits::of_one(alloc, true, runs[1]));
        }
        None
    }

    /// The bits of alternating runs that add up to a width, 0 bits first, in the order of a row.
    #[tactic(auto, using(crate::proofs::PackedLemmas::views))]
    pub(crate) fn of_runs(alloc: Global, runs: &[u32], width: u32) -> Result<Self, AllocError>
        requires sum { sum runs.now ≡ width }
        requires small { width ≤ 2432 }
        ensures colors { IfOk result (λ p. colors p ≡ colored Color.White runs.now) }
    {
        let mut octets = zeros(alloc, width as usize / 8 + 9)?;
        paint(&mut octets, runs, width);
        Ok(PackedBits {
            octets,
            alike: None,
            count: width,
        })
    }

    /// The bits of a painted row.
    #[inline(always)]
    #[tactic(auto, using(crate::proofs::PackedLemmas::views))]
    pub(crate) fn of_painter(painter: Painter) -> Self
        requires fits { FitsPainter painter }
        requires whole { painter.place ≡ painter.width }
        ensures length { length result ≡ painter.width }
        ensures colors { (runs : List ℕ) → Paints runs painter → colors result ≡ colored Color.White runs }
    {
        let count = painter.width();
        PackedBits {
            octets: painter.into_octets(),
            alike: None,
            count,
        }
    }

    /// The bits up to a width that turn at rising places, a 0 bit first, if they are one run that can be kept
    /// as a single bit. Takes no memory.
    #[inline(always)]
    #[tactic(auto, using(crate::proofs::PackedLemmas::views))]
    pub(crate) fn of_no_turn(alloc: Global, places: &[u32], width: u32) -> Option<Self>
        requires small { width ≤ 2432 }
        ensures colors { IfSome result (λ p. colors p ≡ turning Color.White 0 places.now width) }
        ensures length { IfSome result (λ p. length p ≡ width) }
    {
        if places.is_empty() {
            return Some(PackedBits::of_one(alloc, false, width));
        }
        if places.len() == 1 && places[0] == 0 && width % 8 == 0 {
            return Some(PackedBits::of_one(alloc, true, width));
        }
        None
    }

    /// The bits up to a width that turn at rising places, a 0 bit first, in the order of a row.
    #[tactic(auto, using(crate::proofs::PackedLemmas::views))]
    pub(crate) fn of_turns(alloc: Global, places: &[u32], width: u32) -> Result<Self, AllocError>
        requires rising { IsRising places.now }
        requires below { All (λ place. place < width) places.now }
        requires small { width ≤ 2432 }
        ensures colors { IfOk result (λ p. colors p ≡ turning Color.White 0 places.now width) }
        ensures length { IfOk result (λ p. length p ≡ width) }
    {
        let mut octets = zeros(alloc, width as usize / 8 + 9)?;
        paint_turns(&mut octets, places, width);
        Ok(PackedBits {
            octets,
            alike: None,
            count: width,
        })
    }

    /// The first `count` bits of octets, in the order of a row.
    #[tactic(auto, using(crate::proofs::PackedLemmas::views))]
    pub(crate) fn copied(alloc: Global, octets: &[u8], count: u32) -> Result<Self, AllocError>
        requires some { 0 < count }
        requires within { count ≤ 8 * length octets.now }
        requires small { count ≤ 2432 }
        ensures { IfOk result (λ p. p ≡ bits_in Order.MsbFirst octets.now count) }
    {
        if let Some(bit) = bit_of_all(octets, count) {
            return Ok(PackedBits::of_one(alloc, bit, count));
        }
        let needed = octets_for(count);
        let mut kept = Vec::with_capacity(alloc, needed)?;
        kept.extend_from_slice(&octets[..needed])?;
        clear_after(Order::MsbFirst, &mut kept, count);
        Ok(PackedBits {
            octets: kept,
            alike: None,
            count,
        })
    }

    /// The same bits, lent.
    #[inline(always)]
    pub(crate) fn lent(&self) -> LentBits<'_>
        ensures { result ≡ self.now }
    {
        LentBits {
            octets: &self.octets,
            alike: self.alike,
            count: self.count,
        }
    }
}

/// Bits that are lent, kept eight an octet in the order of a row; where they all are alike, as one bit and with no octets.
#[derive(Debug, Drop)]
pub(crate) struct LentBits<'a> {
    octets: &'a [u8],
    alike: Option<bool>,
    count: u32,
}

impl<'a> Model for LentBits<'a> {
    ghost use Rattle.raster.specs.Packed.{kept_bits, AreKept};
    ghost use Rattle.raster.specs.declared.packed.Order.TheVariants.{MsbFirst};
    ghost use Rattle.std.specs.Prelude.{Bool, List};

    ghost Value = { List Bool };

    ghost view = { λ p. kept_bits p.alike MsbFirst p.octets.now p.count };

    ghost invariant = { λ p. AreKept p.alike MsbFirst p.octets.now p.count };
}

impl<'a> LentBits<'a> {
    /// Bits that are kept in octets, or as one.
    #[inline(always)]
    pub(crate) fn of_kept(octets: &'a [u8], alike: Option<bool>, count: u32) -> LentBits<'a>
        requires { AreKept alike Order.MsbFirst octets.now count }
        ensures { result ≡ kept_bits alike Order.MsbFirst octets.now count }
    {
        LentBits {
            octets,
            alike,
            count,
        }
    }

    /// Appends the octets that hold the bits, and answers the one that all of them are, where they are kept so, without octets.
    /// Errs where memory is refused, which changes nothing.
    #[inline(always)]
    #[tactic(auto, using(crate::proofs::PackedLemmas::views))]
    pub(crate) fn append_to(&self, octets: &mut Vec<u8>) -> Result<Option<bool>, AllocError>
        requires small { length self.now ≤ 2432 }
        ensures ok { IfOk result (λ alike. AppendsKept self.now (length self.now) octets.old.items octets.new.items alike) }
        ensures err { OnErr result (octets.new.items ≡ octets.old.items) }
    {
        match self.alike {
            Some(bit) => Ok(Some(bit)),
            None => {
                octets.extend_from_slice(&self.octets[..octets_for(self.count)])?;
                Ok(None)
            }
        }
    }

    /// The number of bits.
    #[tactic(auto, using(crate::proofs::PackedLemmas::views))]
    pub(crate) fn len(&self) -> u32
        ensures { result ≡ length self.now }
    {
        self.count
    }

    /// The bit at a place, from 0.
    #[tactic(auto, using(crate::proofs::PackedLemmas::views))]
    pub(crate) fn bit(&self, place: u128) -> bool
        requires { place < length self.now }
        ensures { slice_get self.now place ≡ Some result }
    {
        match self.alike {
            Some(bit) => bit,
            None => bit_of(Order::MsbFirst, self.octets, place),
        }
    }

    /// The first place at or after `from` whose bit isn't `bit`, or the number of bits.
    #[tactic(auto, using(crate::proofs::PackedLemmas::views))]
    pub(crate) fn first_other(&self, from: u32, bit: bool) -> u32
        requires from { from ≤ length self.now }
        requires small { length self.now ≤ 2432 }
        ensures { IsFirstOtherBit self.now from bit result }
    {
        match self.alike {
            Some(same) if same == bit => self.count,
            Some(_) => from,
            None => first_other(self.octets, from, self.count, bit),
        }
    }

    /// Appends all changing positions of the bits as a row.
    #[inline(always)]
    #[tactic(auto, using(crate::proofs::PackedLemmas::views))]
    pub(crate) fn changes(&self, out: &mut Vec<u32>) -> Result<(), AllocError>
        requires some { 0 < length self.now }
        requires small { length self.now ≤ 2432 }
        ensures ok { OnOk result (AppendsChanges (colors self.now) out.old.items out.new.items) }
        ensures err { OnErr result (out.new.items ≡ out.old.items) }
    {
        let Some(bit) = self.alike else {
            return changes(self.octets, self.count, out);
        };
        if bit {
            out.push(0)?;
        }
        Ok(())
    }

    /// Writes all changing positions of the bits as a row over the first places of a list, and returns their
    /// number.
    #[inline(always)]
    #[tactic(auto, using(crate::proofs::PackedLemmas::views))]
    pub(crate) fn put_changes(&self, out: &mut Vec<u32>) -> usize
        requires some { 0 < length self.now }
        requires small { length self.now ≤ 2432 }
        requires room { length self.now + 64 ≤ length out.old.items }
        ensures length { length out.new.items ≡ length out.old.items }
        ensures few { result ≤ length out.new.items }
        ensures changes { AreChanges (colors self.now) (take result out.new.items) }
    {
        let Some(bit) = self.alike else {
            return put_changes(self.octets, self.count, out);
        };
        if bit {
            out[0] = 0;
            return 1;
        }
        0
    }

    /// The same bits in memory of their own. Errs where memory is refused.
    pub(crate) fn to_own(&self, alloc: Global) -> Result<PackedBits, AllocError>
        requires small { length self.now ≤ 2432 }
        ensures { IfOk result (λ p. p ≡ self.now) }
    {
        let mut octets = Vec::with_capacity(alloc, self.octets.len())?;
        octets.extend_from_slice(self.octets)?;
        Ok(PackedBits {
            octets,
            alike: self.alike,
            count: self.count,
        })
    }

    /// The octets that hold the bits, lent, the last one filled with 0 bits.
    pub(crate) fn octets(&self) -> &'a [u8]
        ensures { FillsOctets Order.MsbFirst self.now result.now }
    {
        match self.alike {
            Some(bit) => &octets_alike(bit)[..octets_for(self.count)],
            None => &self.octets[..octets_for(self.count)],
        }
    }
}

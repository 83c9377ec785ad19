//! Rows painted from runs, and from the places where their color turns.

ghost use Rattle.raster.specs.PaintedRows.{AppendsPainted};
ghost use Rattle.raster.specs.Changes.{IsRising, differ, turning};
ghost use Rattle.raster.specs.Packed.{bit_in, bits_in, IsPacked};
ghost use Rattle.raster.specs.Painting.{bit_of_turns, drawn_bit, FitsPainter, IsStored, Paints};
ghost use Rattle.raster.specs.Pixels.{colors, IsWidth};
ghost use Rattle.raster.specs.Runs.{colored};
ghost use Rattle.raster.specs.declared.row.Color.{Color};
ghost use Rattle.std.specs.Prelude.{ℕ, true, false, ◌≡◌, ◌≤◌, ◌<◌, ◌+◌, ◌-◌, ◌*◌, ◌%◌, All, IfOk, None, OnErr, OnOk, [], ◌∷◌, ◌++◌, List, drop, if◌then◌else◌, length, nat_lt, not, slice_index_or, sum};

use crate::packed::{Order, octets_for};
use crate::words::{first_bits, octets_of, put_octets};
use std::alloc::{AllocError, Global};

/// How far a row is painted: the 64 bits before `end` are in the word and not yet in the octets, and all bits
/// from `end` on are equal to the word's last one.
#[derive(Clone, Copy)]
struct Brush {
    end: u32,
    word: u64,
}

/// Writes a word over eight octets, from a bit on that is the first of an octet.
#[inline(always)]
fn store(octets: &mut [u8], from: u32, word: u64)
    requires aligned { from % 8 ≡ 0 }
    requires inside { from + 64 ≤ 8 * length octets.old }
    ensures { IsStored octets.old from word octets.new }
{
    put_octets(octets, (from / 8) as usize, octets_of(word));
}

/// Sets all bits from one up to another, each the first of a word.
#[inline(never)]
fn blacken_words(octets: &mut [u8], from: u32, end: u32)
    requires order { from ≤ end }
    requires begins { from % 64 ≡ 0 }
    requires ends { end % 64 ≡ 0 }
    requires within { end ≤ 8 * length octets.old }
    ensures length { length octets.new ≡ length octets.old }
    ensures before { (k : ℕ) → k < from → bit_in Order.MsbFirst octets.new k ≡ bit_in Order.MsbFirst octets.old k }
    ensures set { (k : ℕ) → from ≤ k → k < end → bit_in Order.MsbFirst octets.new k ≡ true }
    ensures after { (k : ℕ) → end ≤ k → bit_in Order.MsbFirst octets.new k ≡ bit_in Order.MsbFirst octets.old k }
{
    octets[(from / 8) as usize..(end / 8) as usize].fill(0xFF);
}

/// Sets all bits from one up to another, each the first of a word; mostly the two are the same.
#[inline(always)]
fn blacken(octets: &mut [u8], from: u32, end: u32)
    requires order { from ≤ end }
    requires begins { from % 64 ≡ 0 }
    requires ends { end % 64 ≡ 0 }
    requires within { end ≤ 8 * length octets.old }
    ensures length { length octets.new ≡ length octets.old }
    ensures before { (k : ℕ) → k < from → bit_in Order.MsbFirst octets.new k ≡ bit_in Order.MsbFirst octets.old k }
    ensures set { (k : ℕ) → from ≤ k → k < end → bit_in Order.MsbFirst octets.new k ≡ true }
    ensures after { (k : ℕ) → end ≤ k → bit_in Order.MsbFirst octets.new k ≡ bit_in Order.MsbFirst octets.old k }
{
    if from >= end {
        return;
    }
    blacken_words(octets, from, end);
}

/// Paints on to the word that holds a place past the brush's word, over octets of 0 bits.
#[inline(always)]
fn next_word(octets: &mut [u8], brush: Brush, place: u32) -> Brush
    requires begun { 64 ≤ brush.end }
    requires aligned { brush.end % 64 ≡ 0 }
    requires past { brush.end ≤ place }
    requires small { place ≤ 2432 }
    requires room { place + 64 ≤ 8 * length octets.old }
    requires clear { (k : ℕ) → brush.end ≤ k + 64 → bit_in Order.MsbFirst octets.old k ≡ false }
    ensures length { length octets.new ≡ length octets.old }
    ensures begun { 64 ≤ result.end }
    ensures aligned { result.end % 64 ≡ 0 }
    ensures low { result.end ≤ place + 64 }
    ensures high { place < result.end }
    ensures clear { (k : ℕ) → result.end ≤ k + 64 → bit_in Order.MsbFirst octets.new k ≡ false }
    ensures drawn { (k : ℕ) → drawn_bit octets.new (result.end - 64) result.word k ≡ drawn_bit octets.old (brush.end - 64) brush.word k }
{
    let from = place / 64 * 64;
    store(octets, brush.end - 64, brush.word);
    if brush.word % 2 == 0 {
        return Brush {
            end: from + 64,
            word: 0,
        };
    }
    blacken(octets, brush.end, from);
    Brush {
        end: from + 64,
        word: u64::MAX,
    }
}

/// Paints on until a place is in the brush's word.
#[inline(always)]
fn reach(octets: &mut [u8], brush: Brush, place: u32) -> Brush
    requires begun { 64 ≤ brush.end }
    requires aligned { brush.end % 64 ≡ 0 }
    requires past { brush.end ≤ place + 64 }
    requires small { place ≤ 2432 }
    requires room { place + 64 ≤ 8 * length octets.old }
    requires clear { (k : ℕ) → brush.end ≤ k + 64 → bit_in Order.MsbFirst octets.old k ≡ false }
    ensures length { length octets.new ≡ length octets.old }
    ensures begun { 64 ≤ result.end }
    ensures aligned { result.end % 64 ≡ 0 }
    ensures low { result.end ≤ place + 64 }
    ensures high { place < result.end }
    ensures clear { (k : ℕ) → result.end ≤ k + 64 → bit_in Order.MsbFirst octets.new k ≡ false }
    ensures drawn { (k : ℕ) → drawn_bit octets.new (result.end - 64) result.word k ≡ drawn_bit octets.old (brush.end - 64) brush.word k }
{
    if place < brush.end {
        return brush;
    }
    next_word(octets, brush, place)
}

/// Turns the color at a place of the brush's word and after it.
#[inline(always)]
fn turn_within(brush: Brush, place: u32) -> Brush
    requires begun { 64 ≤ brush.end }
    requires aligned { brush.end % 64 ≡ 0 }
    requires low { brush.end ≤ place + 64 }
    requires high { place < brush.end }
    ensures end { result.end ≡ brush.end }
    ensures drawn { (octets : List ℕ) (k : ℕ) → drawn_bit octets (result.end - 64) result.word k
        ≡ (if nat_lt k place then drawn_bit octets (brush.end - 64) brush.word k
        else not (drawn_bit octets (brush.end - 64) brush.word k)) }
{
    Brush {
        end: brush.end,
        word: brush.word ^ u64::MAX >> (place % 64),
    }
}

/// Turns the color at a place and after it.
#[inline(always)]
fn turn(octets: &mut [u8], brush: Brush, place: u32) -> Brush
    requires begun { 64 ≤ brush.end }
    requires aligned { brush.end % 64 ≡ 0 }
    requires past { brush.end ≤ place + 64 }
    requires small { place ≤ 2432 }
    requires room { place + 64 ≤ 8 * length octets.old }
    requires clear { (k : ℕ) → brush.end ≤ k + 64 → bit_in Order.MsbFirst octets.old k ≡ false }
    ensures length { length octets.new ≡ length octets.old }
    ensures begun { 64 ≤ result.end }
    ensures aligned { result.end % 64 ≡ 0 }
    ensures low { result.end ≤ place + 64 }
    ensures clear { (k : ℕ) → result.end ≤ k + 64 → bit_in Order.MsbFirst octets.new k ≡ false }
    ensures drawn { (k : ℕ) → drawn_bit octets.new (result.end - 64) result.word k
        ≡ (if nat_lt k place then drawn_bit octets.old (brush.end - 64) brush.word k else not (drawn_bit octets.old (brush.end - 64) brush.word k)) }
{
    let here = reach(octets, brush, place);
    turn_within(here, place)
}

/// Turns the color at each of four of the rising places and after it; mostly all four are in the
/// brush's word.
#[inline(always)]
fn turn_four(octets: &mut [u8], brush: Brush, places: &[u32], at: usize) -> Brush
    requires begun { 64 ≤ brush.end }
    requires aligned { brush.end % 64 ≡ 0 }
    requires rising { IsRising places.now }
    requires within { at + 4 ≤ length places.now }
    requires past { brush.end ≤ slice_index_or places.now at 0 + 64 }
    requires small { slice_index_or places.now (at + 3) 0 ≤ 2432 }
    requires room { slice_index_or places.now (at + 3) 0 + 64 ≤ 8 * length octets.old }
    requires clear { (k : ℕ) → brush.end ≤ k + 64 → bit_in Order.MsbFirst octets.old k ≡ false }
    ensures length { length octets.new ≡ length octets.old }
    ensures begun { 64 ≤ result.end }
    ensures aligned { result.end % 64 ≡ 0 }
    ensures low { result.end ≤ slice_index_or places.now (at + 3) 0 + 64 }
    ensures clear { (k : ℕ) → result.end ≤ k + 64 → bit_in Order.MsbFirst octets.new k ≡ false }
    ensures drawn { (k : ℕ)
        → differ (bit_of_turns (drop (at + 4) places.now) k)
        (drawn_bit octets.new (result.end - 64) result.word k)
        ≡ differ (bit_of_turns (drop at places.now) k)
        (drawn_bit octets.old (brush.end - 64) brush.word k) }
{
    if places[at + 3] < brush.end {
        let one = turn_within(brush, places[at]);
        let two = turn_within(one, places[at + 1]);
        let three = turn_within(two, places[at + 2]);
        return turn_within(three, places[at + 3]);
    }
    let one = turn(octets, brush, places[at]);
    let two = turn(octets, one, places[at + 1]);
    let three = turn(octets, two, places[at + 2]);
    turn(octets, three, places[at + 3])
}

/// Paints on to the row's end.
fn finish(octets: &mut [u8], brush: Brush, width: u32)
    requires begun { 64 ≤ brush.end }
    requires aligned { brush.end % 64 ≡ 0 }
    requires past { brush.end ≤ width + 64 }
    requires small { width ≤ 2432 }
    requires room { width + 64 ≤ 8 * length octets.old }
    requires clear { (k : ℕ) → brush.end ≤ k + 64 → bit_in Order.MsbFirst octets.old k ≡ false }
    ensures packed { IsPacked Order.MsbFirst octets.new width }
    ensures bits { (k : ℕ) → k < width → bit_in Order.MsbFirst octets.new k ≡ drawn_bit octets.old (brush.end - 64) brush.word k }
{
    let Brush { end, word } = reach(octets, brush, width);
    let from = end - 64;
    let last = first_bits(word, width - from);
    store(octets, from, last);
}

/// Paints alternating runs, 0 bits first, over octets of 0 bits.
pub(crate) fn paint(octets: &mut [u8], runs: &[u32], width: u32)
    requires clear { (k : ℕ) → bit_in Order.MsbFirst octets.old k ≡ false }
    requires sum { sum runs.now ≡ width }
    requires small { width ≤ 2432 }
    requires room { width + 64 ≤ 8 * length octets.old }
    ensures packed { IsPacked Order.MsbFirst octets.new width }
    ensures painted { colors (bits_in Order.MsbFirst octets.new width) ≡ colored Color.White runs.now }
{
    let mut brush = Brush { end: 64, word: 0 };
    let mut place = 0;
    let mut at = 0;
    while at < runs.len() {
        place += runs[at];
        brush = turn(octets, brush, place);
        at += 1;
    }
    finish(octets, brush, width);
}

/// Paints the pixels that turn at rising places, white first, over octets of 0 bits.
pub(crate) fn paint_turns(octets: &mut [u8], places: &[u32], width: u32)
    requires clear { (k : ℕ) → bit_in Order.MsbFirst octets.old k ≡ false }
    requires rising { IsRising places.now }
    requires below { All (λ place. place < width) places.now }
    requires small { width ≤ 2432 }
    requires room { width + 64 ≤ 8 * length octets.old }
    ensures packed { IsPacked Order.MsbFirst octets.new width }
    ensures painted { colors (bits_in Order.MsbFirst octets.new width) ≡ turning Color.White 0 places.now width }
{
    let mut brush = Brush { end: 64, word: 0 };
    let mut at = 0;
    while at < places.len() {
        if places.len() - at >= 4 {
            brush = turn_four(octets, brush, places, at);
            at += 4;
            continue;
        }
        brush = turn(octets, brush, places[at]);
        at += 1;
    }
    finish(octets, brush, width);
}

/// A row that is painted run by run from its left, white first. A reader of coded rows passes each run on as
/// it reads it, and keeps no list of runs; `Row::of_painter` makes the row.
#[derive(Drop)]
pub struct Painter {
    octets: Vec<u8>,
    width: u32,
    place: u32,
    end: u32,
    word: u64,
}

impl Painter {
    /// Makes a painter of a row of this width in pixels, without a run. Errs only if memory is refused.
    #[inline(always)]
    pub fn begin(alloc: Global, width: u32) -> Result<Painter, AllocError>
        requires { IsWidth width }
        ensures fits { IfOk result (λ painter. FitsPainter painter) }
        ensures width { IfOk result (λ painter. painter.width ≡ width) }
        ensures paints { IfOk result (λ painter. Paints [] painter) }
    {
        let mut octets = Vec::with_capacity(alloc, width as usize / 8 + 9)?;
        octets.resize(width as usize / 8 + 9, 0)?;
        Ok(Painter {
            octets,
            width,
            place: 0,
            end: 64,
            word: 0,
        })
    }

    /// Paints one more run, in pixels: white and black by turns, white first. It must fit into the row.
    #[inline(always)]
    pub fn push_run(&mut self, run: u32)
        requires fits { FitsPainter self.old }
        requires within { self.old.place + run ≤ self.old.width }
        ensures fits { FitsPainter self.new }
        ensures width { self.new.width ≡ self.old.width }
        ensures place { self.new.place ≡ self.old.place + run }
        ensures paints { (runs : List ℕ) → Paints runs self.old → Paints (runs ++ run ∷ []) self.new }
    {
        let place = self.place + run;
        let brush = Brush {
            end: self.end,
            word: self.word,
        };
        let Brush { end, word } = turn(&mut self.octets, brush, place);
        self.place = place;
        self.end = end;
        self.word = word;
    }

    /// Begins another row of the width, in the same memory.
    #[inline(always)]
    pub fn restart(&mut self)
        requires width { IsWidth self.old.width }
        requires room { self.old.width + 64 ≤ 8 * length self.old.octets.items }
        ensures fits { FitsPainter self.new }
        ensures width { self.new.width ≡ self.old.width }
        ensures place { self.new.place ≡ 0 }
        ensures paints { Paints [] self.new }
    {
        self.octets.fill(0);
        self.place = 0;
        self.end = 64;
        self.word = 0;
    }

    /// Appends the octets of the whole row to those of a page. Errs where memory is refused, which appends none.
    #[inline(always)]
    pub(crate) fn append_to(&mut self, octets: &mut Vec<u8>) -> Result<(), AllocError>
        requires fits { FitsPainter self.old }
        requires whole { self.old.place ≡ self.old.width }
        ensures ok { OnOk result (AppendsPainted self.old octets.old.items octets.new.items) }
        ensures err { OnErr result (octets.new.items ≡ octets.old.items) }
        ensures width { self.new.width ≡ self.old.width }
        ensures room { self.new.width + 64 ≤ 8 * length self.new.octets.items }
    {
        let brush = Brush {
            end: self.end,
            word: self.word,
        };
        finish(&mut self.octets, brush, self.width);
        octets.extend_from_slice(&self.octets[..octets_for(self.width)])?;
        Ok(())
    }

    /// The row's width.
    #[inline(always)]
    pub(crate) fn width(&self) -> u32
        ensures { result ≡ self.now.width }
    {
        self.width
    }

    /// The octets of the whole row.
    #[inline(always)]
    pub(crate) fn into_octets(self) -> Vec<u8>
        requires fits { FitsPainter self }
        requires whole { self.place ≡ self.width }
        ensures packed { IsPacked Order.MsbFirst result.items self.width }
        ensures painted { (runs : List ℕ) → Paints runs self → colors (bits_in Order.MsbFirst result.items self.width) ≡ colored Color.White runs }
    {
        let Painter {
            mut octets,
            width,
            place: _,
            end,
            word,
        } = self;
        finish(&mut octets, Brush { end, word }, width);
        octets
    }
}

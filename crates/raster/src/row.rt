//! Rows of pixels.

ghost use Rattle.raster.specs.Appending.{AppendsRow};
ghost use Rattle.raster.specs.Changes.{AppendsChanges, AreChanges, IsNextChange, IsRising, turning};
ghost use Rattle.raster.specs.Pbm.{row_pixels};
ghost use Rattle.raster.specs.PbmText.{HoldsRow};
ghost use Rattle.raster.specs.Pixels.{other, color_of, colors, IsWidth};
ghost use Rattle.raster.specs.Runs.{colored, FromRuns, AppendsRuns, AreOwnRuns};
ghost use Rattle.raster.specs.Words.{EndsRun};
ghost use Rattle.raster.specs.Painting.{FitsPainter, Paints};
ghost use Rattle.std.specs.Prelude.{List, ◌≡◌, ◌≤◌, ◌<◌, ◌+◌, ◌*◌, ◌^◌, ◌↔◌, ℕ, ◌++◌, ◌∷◌, [], replicate, length, slice_get, sum, take, OnOk, OnErr};
ghost use Rattle.std.specs.Prelude.{All, IfOk, IfErr, SomeIff, IsOkUnless, IsTrue};

use crate::fault::RasterFault;
use crate::packed::{LentBits, Order, PackedBits};
use crate::painting::Painter;
use std::alloc::{AllocError, Global};
use std::marker::Model;

/// The color of a pixel (ITU-T T.4, 4.1).
#[derive(Clone, Copy, Debug, PartialEq, Eq)]
pub enum Color {
    White,
    Black,
}

impl Color {
    /// Whether the color is this one.
    pub(crate) fn is(self, color: Color) -> bool
        ensures { IsTrue result ↔ (self ≡ color) }
    {
        self == color
    }

    /// Black for a 1 bit, white for a 0 bit.
    pub(crate) fn of_bit(bit: bool) -> Color
        ensures { result ≡ color_of bit }
    {
        if bit { Color::Black } else { Color::White }
    }

    /// Returns the other color.
    pub fn other(self) -> Color
        ensures { result ≡ other self }
    {
        match self {
            Color::White => Color::Black,
            Color::Black => Color::White,
        }
    }
}

/// The greatest width of a row, in pixels.
pub const MAX_WIDTH: u32 = 2432;

/// The sum of the runs, if it is a width.
fn total_width(runs: &[u32]) -> Option<u32>
    ensures { SomeIff result (IsWidth (sum runs.now)) (sum runs.now) }
{
    let mut width: u128 = 0; // no sum of runs in memory is too large for it
    for run in runs {
        width += *run as u128;
    }
    if width == 0 || width > MAX_WIDTH as u128 {
        return None;
    }
    Some(width as u32)
}

/// A row of 1 to 2,432 pixels, leftmost first. It is kept packed, eight pixels an octet, the leftmost in the
/// highest bit; a white row, and a black one that fills its octets, takes no memory of its own.
#[derive(Debug, Drop)]
pub struct Row {
    pixels: PackedBits,
}

impl Model for Row {
    ghost use Rattle.std.specs.Prelude.{◌≡◌, List, length};
    ghost use Rattle.raster.specs.declared.row.Color.{Color};
    ghost use Rattle.raster.specs.Pixels.{colors, IsWidth};

    ghost Value = { List Color };

    ghost view = { λ row. colors row.pixels };

    ghost invariant = { λ row. IsWidth (length row.pixels) };
}

impl Row {
    /// Makes a row from alternating runs in pixels, white first; runs of 0 are allowed. Errs with `BadWidth`
    /// if the runs don't add up to 1 to 2,432 pixels, and with `NoMemory`.
    #[inline(never)]
    #[tactic(auto, using(crate::proofs::RowLemmas::lengths))]
    pub fn from_runs(alloc: Global, runs: &[u32]) -> Result<Row, RasterFault>
        ensures { FromRuns runs.now result }
    {
        match PackedBits::of_one_run(alloc, runs) {
            Some(pixels) => Ok(Row { pixels }),
            None => Row::painted(alloc, runs),
        }
    }

    /// Makes a row from alternating runs in pixels, white first, that add up to a width; runs of 0 are
    /// allowed. Errs only if memory is refused.
    #[inline(always)]
    pub fn from_valid_runs(alloc: Global, runs: &[u32]) -> Result<Row, AllocError>
        requires { IsWidth (sum runs.now) }
        ensures { IfOk result (λ row. row ≡ colored Color.White runs.now) }
    {
        match Row::from_runs(alloc, runs) {
            Ok(row) => Ok(row),
            Err(RasterFault::NoMemory) => Err(AllocError),
            Err(_) => unreachable!(),
        }
    }

    /// The row of alternating runs, white first, painted run by run.
    #[inline(never)]
    #[tactic(auto, using(crate::proofs::RowLemmas::lengths))]
    fn painted(alloc: Global, runs: &[u32]) -> Result<Row, RasterFault>
        ensures { FromRuns runs.now result }
    {
        let Some(width) = total_width(runs) else {
            return Err(RasterFault::BadWidth);
        };
        let pixels = PackedBits::of_runs(alloc, runs, width)?;
        Ok(Row { pixels })
    }

    /// Makes the row of a width in pixels that has these changing positions, in rising order (ITU-T T.6,
    /// 2.2.1). Errs only if memory is refused.
    #[inline(always)]
    #[tactic(auto, using(crate::proofs::RowLemmas::lengths))]
    pub fn from_changes(alloc: Global, places: &[u32], width: u32) -> Result<Row, AllocError>
        requires width { IsWidth width }
        requires rising { IsRising places.now }
        requires below { All (λ place. place < width) places.now }
        ensures row { IfOk result (λ row. row ≡ turning Color.White 0 places.now width) }
        ensures changes { IfOk result (λ row. AreChanges row places.now) }
    {
        match PackedBits::of_no_turn(alloc, places, width) {
            Some(pixels) => Ok(Row { pixels }),
            None => Row::painted_turns(alloc, places, width),
        }
    }

    /// The row with these changing positions, painted.
    #[inline(never)]
    #[tactic(auto, using(crate::proofs::RowLemmas::lengths))]
    fn painted_turns(alloc: Global, places: &[u32], width: u32) -> Result<Row, AllocError>
        requires width { IsWidth width }
        requires rising { IsRising places.now }
        requires below { All (λ place. place < width) places.now }
        ensures row { IfOk result (λ row. row ≡ turning Color.White 0 places.now width) }
        ensures changes { IfOk result (λ row. AreChanges row places.now) }
    {
        let pixels = PackedBits::of_turns(alloc, places, width)?;
        Ok(Row { pixels })
    }

    /// Makes the row of a painter whose runs fill its width. Takes no memory.
    #[inline(always)]
    #[tactic(auto, using(crate::proofs::RowLemmas::lengths))]
    pub fn of_painter(painter: Painter) -> Row
        requires fits { FitsPainter painter }
        requires whole { painter.place ≡ painter.width }
        ensures { (runs : List ℕ) → Paints runs painter → result ≡ colored Color.White runs }
    {
        Row {
            pixels: PackedBits::of_painter(painter),
        }
    }

    /// Makes a row of `width` pixels from the first bits of octets: in each octet the highest bit is
    /// leftmost, and a 1 is black. Later bits are ignored. Errs only with `NoMemory`.
    #[tactic(auto, using(crate::proofs::RowLemmas::lengths, crate::proofs::PackedLemmas::views))]
    pub fn from_octets(alloc: Global, octets: &[u8], width: u32) -> Result<Row, RasterFault>
        requires width { IsWidth width }
        requires octets { width ≤ 8 * length octets.now }
        ensures ok { IfOk result (λ row. row ≡ row_pixels width octets.now) }
        ensures only { IsOkUnless result RasterFault.NoMemory }
    {
        let pixels = PackedBits::copied(alloc, octets, width)?;
        Ok(Row { pixels })
    }

    /// The row, lent.
    #[inline(always)]
    pub fn lent(&self) -> RowRef<'_>
        ensures { result ≡ self.now }
    {
        RowRef {
            pixels: self.pixels.lent(),
        }
    }

    /// The width in pixels, 1 to 2,432.
    #[inline(always)]
    pub fn width(&self) -> u32
        ensures width { result ≡ length self.now }
        ensures range { IsWidth result }
    {
        self.lent().width()
    }

    /// The pixel at a place, from 0 at the left.
    #[inline(always)]
    pub fn pixel(&self, at: u32) -> Color
        requires { at < length self.now }
        ensures { slice_get self.now at ≡ Some result }
    {
        self.lent().pixel(at)
    }

    /// The row's octets as Netpbm's raw PBM format has them: eight pixels an octet, the leftmost in the
    /// highest bit, 1 for black, and the last octet filled with 0 bits.
    #[inline(always)]
    pub fn octets(&self) -> &[u8]
        ensures { HoldsRow self.now result.now }
    {
        self.lent().octets()
    }

    /// The least changing position at or above `from`, or the width where there is none
    /// (ITU-T T.6, 2.2.1).
    #[inline(always)]
    pub fn next_change(&self, from: u32) -> u32
        ensures { IsNextChange self.now from result }
    {
        self.lent().next_change(from)
    }

    /// Writes all changing positions of the row, in rising order (ITU-T T.6, 2.2.1), over the first places of
    /// a list that has room for one a pixel and 64 more, and answers how many they are.
    #[inline(always)]
    pub fn put_changes(&self, out: &mut Vec<u32>) -> usize
        requires { length self.now + 64 ≤ length out.old.items }
        ensures length { length out.new.items ≡ length out.old.items }
        ensures few { result ≤ length out.new.items }
        ensures changes { AreChanges self.now (take result out.new.items) }
    {
        self.lent().put_changes(out)
    }

    /// Appends all changing positions of the row, in rising order (ITU-T T.6, 2.2.1). Errs where memory
    /// is refused, which changes nothing.
    #[inline(always)]
    pub fn changes(&self, alloc: Global, out: &mut Vec<u32>) -> Result<(), AllocError>
        ensures ok { OnOk result (AppendsChanges self.now out.old.items out.new.items) }
        ensures err { OnErr result (out.new.items ≡ out.old.items) }
    {
        self.lent().changes(alloc, out)
    }

    /// Appends the row's own runs in pixels: white first, and the later ones above 0. Errs with
    /// `NoMemory`, which changes nothing.
    #[inline(always)]
    pub fn runs(&self, alloc: Global, out: &mut Vec<u32>) -> Result<(), RasterFault>
        ensures ok { OnOk result (AppendsRuns self.now out.old.items out.new.items) }
        ensures err { OnErr result (out.new.items ≡ out.old.items) }
        ensures only { IsOkUnless result RasterFault.NoMemory }
    {
        self.lent().runs(alloc, out)
    }
}

/// A row that is lent, seen as the list of its pixels, leftmost first: what `Row` answers, of a row of a page.
#[derive(Debug, Drop)]
pub struct RowRef<'a> {
    pixels: LentBits<'a>,
}

impl<'a> Model for RowRef<'a> {
    ghost use Rattle.std.specs.Prelude.{◌≡◌, List, length};
    ghost use Rattle.raster.specs.declared.row.Color.{Color};
    ghost use Rattle.raster.specs.Pixels.{colors, IsWidth};

    ghost Value = { List Color };

    ghost view = { λ row. colors row.pixels };

    ghost invariant = { λ row. IsWidth (length row.pixels) };
}

impl<'a> RowRef<'a> {
    /// The row of bits.
    #[inline(always)]
    #[tactic(auto, using(crate::proofs::RowLemmas::lengths))]
    pub(crate) fn of_bits(pixels: LentBits<'a>) -> RowRef<'a>
        requires { IsWidth (length pixels) }
        ensures { result ≡ colors pixels.entry }
    {
        RowRef { pixels }
    }

    /// Appends the row's octets to a page's, and answers the bit that all its pixels are, where they are kept so, without octets.
    /// Errs where memory is refused, which changes nothing.
    #[inline(always)]
    #[tactic(auto, using(crate::proofs::RowLemmas::lengths))]
    pub(crate) fn append_to(&self, octets: &mut Vec<u8>) -> Result<Option<bool>, AllocError>
        ensures ok { IfOk result (λ alike. AppendsRow self.now octets.old.items octets.new.items alike) }
        ensures err { OnErr result (octets.new.items ≡ octets.old.items) }
    {
        let _width = self.width(); // tells the proof that it is a width
        self.pixels.append_to(octets)
    }

    /// The width in pixels, 1 to 2,432.
    #[tactic(auto, using(crate::proofs::RowLemmas::lengths))]
    pub fn width(&self) -> u32
        ensures width { result ≡ length self.now }
        ensures range { IsWidth result }
    {
        self.pixels.len()
    }

    /// The pixel at a place, from 0 at the left.
    #[tactic(auto, using(crate::proofs::RowLemmas::lengths))]
    pub fn pixel(&self, at: u32) -> Color
        requires { at < length self.now }
        ensures { slice_get self.now at ≡ Some result }
    {
        Color::of_bit(self.pixels.bit(at as u128))
    }

    /// The same row in memory of its own. Errs only if memory is refused.
    #[tactic(auto, using(crate::proofs::RowLemmas::lengths))]
    pub fn to_row(&self, alloc: Global) -> Result<Row, AllocError>
        ensures { IfOk result (λ row. row ≡ self.now) }
    {
        let _width = self.width(); // shows the proof that it is a width
        let pixels = self.pixels.to_own(alloc)?;
        Ok(Row { pixels })
    }

    /// The row's octets, borrowed, as in Netpbm's raw PBM format: eight pixels an octet, the leftmost in the
    /// highest bit, 1 for black, and the last octet filled with 0 bits.
    pub fn octets(&self) -> &'a [u8]
        ensures { HoldsRow self.now result.now }
    {
        let octets = self.pixels.octets(); // the proof speaks of them by this name
        octets
    }

    /// The least changing position at or after `from`, or the width if there is none (ITU-T T.6, 2.2.1).
    #[tactic(auto, using(crate::proofs::RowLemmas::lengths))]
    pub fn next_change(&self, from: u32) -> u32
        ensures { IsNextChange self.now from result }
    {
        let width = self.width();
        if from >= width {
            return width;
        }
        let before = from > 0 && self.pixels.bit(from as u128 - 1);
        self.pixels.first_other(from, before)
    }

    /// Writes all changing positions of the row, in rising order (ITU-T T.6, 2.2.1), over the first places of
    /// a list, and returns their number. The list must have a place for each pixel and 64 more.
    #[inline(always)]
    #[tactic(auto, using(crate::proofs::RowLemmas::lengths))]
    pub fn put_changes(&self, out: &mut Vec<u32>) -> usize
        requires { length self.now + 64 ≤ length out.old.items }
        ensures length { length out.new.items ≡ length out.old.items }
        ensures few { result ≤ length out.new.items }
        ensures changes { AreChanges self.now (take result out.new.items) }
    {
        let _width = self.width(); // shows the proof that it is a width
        self.pixels.put_changes(out)
    }

    /// Appends all changing positions of the row, in rising order (ITU-T T.6, 2.2.1). Errs if memory is
    /// refused, which changes nothing.
    #[inline(always)]
    #[tactic(auto, using(crate::proofs::RowLemmas::lengths))]
    pub fn changes(&self, alloc: Global, out: &mut Vec<u32>) -> Result<(), AllocError>
        ensures ok { OnOk result (AppendsChanges self.now out.old.items out.new.items) }
        ensures err { OnErr result (out.new.items ≡ out.old.items) }
    {
        let _width = self.width(); // shows the proof that it is a width
        self.pixels.changes(out)
    }

    /// The end of a run of this color: the first place at or after `from` with the other color, or the width.
    #[tactic(auto, using(crate::proofs::RowLemmas::lengths))]
    fn end_of_run(&self, from: u32, color: Color) -> u32
        requires { from ≤ length self.now }
        ensures { EndsRun self.now from color result }
    {
        let _width = self.width(); // shows the proof that it is a width
        self.pixels.first_other(from, color.is(Color::Black))
    }

    /// The row's own runs in pixels, white first, in a list of their own.
    fn collected_runs(&self, alloc: Global) -> Result<Vec<u32>, AllocError>
        ensures { IfOk result (λ runs. AreOwnRuns self.now runs.items) }
    {
        let mut runs = Vec::new(alloc);
        let mut color = Color::White;
        let mut at = self.end_of_run(0, color);
        runs.push(at)?;
        while at < self.width() {
            color = color.other();
            let end = self.end_of_run(at, color);
            runs.push(end - at)?;
            at = end;
        }
        Ok(runs)
    }

    /// Appends the row's own runs in pixels: white first (0 if the row begins with black), each later run
    /// above 0. Errs only with `NoMemory`, which changes nothing.
    pub fn runs(&self, alloc: Global, out: &mut Vec<u32>) -> Result<(), RasterFault>
        ensures ok { OnOk result (AppendsRuns self.now out.old.items out.new.items) }
        ensures err { OnErr result (out.new.items ≡ out.old.items) }
        ensures only { IsOkUnless result RasterFault.NoMemory }
    {
        let runs = self.collected_runs(alloc)?;
        out.extend_from_slice(&runs)?;
        Ok(())
    }
}

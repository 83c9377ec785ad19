//! The reference line and the coding line of a row that is read (ITU-T T.6, 2.2.1).

ghost use Rattle.page_code.specs.TwoDimensions.Fronts.{PageSoFar, after_mode};
ghost use Rattle.page_code.specs.TwoDimensions.Lines.{BothLines};
ghost use Rattle.page_code.specs.TwoDimensions.Modes.{runs_added};
ghost use Rattle.page_code.specs.TwoDimensions.Positions.{a0_of, line_begin, white_line};
ghost use Rattle.page_code.specs.TwoDimensions.Reading.{LeadsOn, StepsAlong};
ghost use Rattle.raster.specs.Pages.{max_rows};
ghost use Rattle.raster.specs.Pixels.{IsWidth, max_width};
ghost use Rattle.run_tables.specs.Reading.{rest_of};
ghost use Rattle.std.specs.Bool.{OnFalse, OnTrue};
ghost use Rattle.std.specs.Prelude.{◌≡◌, ◌≤◌, ◌<◌, ◌+◌, ◌∷◌, ◌++◌, [], Err, IfErr, IfOk, OnErr, OnOk, length, take};

use crate::t6::a0::A0;
use crate::t6::front::{Front, to_a1, to_a2, turns_within, under_b2};
use crate::t6::mode::{ModeCode, Shift};
use crate::t6::read::quick_modes;
use raster::{Page, Row, RowRef};
use run_tables::{BitReader, CodeFaultKind};
use std::alloc::{AllocError, Global};
use std::marker::Model;
use std::mem;

/// Writes the width three times after the first places of a list that has room for it.
#[inline(always)]
pub(crate) fn end_list(list: &mut Vec<u32>, count: usize, width: u32)
    requires { count + 3 ≤ length list.old.items }
    ensures length { length list.new.items ≡ length list.old.items }
    ensures ends { take (count + 3) list.new.items ≡ take count list.old.items ++ width ∷ width ∷ width ∷ [] }
{
    list[count] = width;
    list[count + 1] = width;
    list[count + 2] = width;
}

/// The lines of a row that is being read, as lists of the places where they change their color. After the
/// places of the reference line comes its width three times, so that no search passes them. When the row is
/// whole, the coding line's list becomes the next row's reference line.
#[derive(Drop)]
pub(crate) struct Lines {
    width: u32,
    held: Vec<u32>,
    known: usize,
    list: Vec<u32>,
    front: Front,
}

impl Model for Lines {
    ghost use Rattle.std.specs.Prelude.{◌≡◌, ◌≤◌, ◌+◌, ◌-◌, length, take};
    ghost use Rattle.raster.specs.declared.row.Color.TheVariants.{White};
    ghost use Rattle.raster.specs.Changes.{turning};
    ghost use Rattle.page_code.specs.TwoDimensions.Changes.{AreHeld};
    ghost use Rattle.page_code.specs.TwoDimensions.Lines.{BothLines, FitsLists, line_of};

    ghost Value = { BothLines };

    ghost view = { λ lines. record {
      reference = turning White 0 (take (lines.known - 3) lines.held.items) lines.width;
      line = line_of lines.list.items lines.front;
    } };

    ghost invariant = { λ lines. record {
      known : lines.known ≤ length lines.held.items;
      room : lines.width + 4 ≤ length lines.held.items;
      held : AreHeld (turning White 0 (take (lines.known - 3) lines.held.items) lines.width) (take lines.known lines.held.items);
      fits : FitsLists (take lines.known lines.held.items) lines.list.items lines.width lines.front;
    } };
}

impl Lines {
    /// No pixels yet after a row.
    pub(crate) fn after(alloc: Global, row: &RowRef<'_>) -> Result<Self, AllocError>
        ensures { IfOk result (λ lines. lines ≡ record { reference = row.now; line = line_begin }) }
    {
        let width = row.width();
        let mut held = Vec::new(alloc);
        row.changes(alloc, &mut held)?;
        let count = held.len();
        held.resize(width as usize + 4, 0)?;
        end_list(&mut held, count, width);
        let mut list = Vec::new(alloc);
        list.resize(width as usize + 4, 0)?;
        Ok(Lines {
            width,
            held,
            known: count + 3,
            list,
            front: Front::begin(),
        })
    }

    /// The lines' width in pixels.
    pub(crate) fn width(&self) -> u32
        ensures width { result ≡ length self.now.reference }
        ensures range { IsWidth result }
        ensures fits { length self.now.line.pixels ≤ length self.now.reference }
    {
        self.width
    }

    /// Whether the reference line is white.
    #[inline(always)]
    pub(crate) fn follow_white(&self) -> bool
        ensures { OnTrue result (self.now.reference ≡ white_line (length self.now.reference)) }
    {
        self.known == 3
    }

    /// a0, which is after the coding line's pixels so far.
    #[inline(always)]
    pub(crate) fn a0(&self) -> A0
        ensures { result ≡ a0_of self.now.line }
    {
        self.front.a0()
    }

    /// Whether pixels are missing in the coding line.
    #[inline(always)]
    pub(crate) fn is_short(&self) -> bool
        ensures yes { OnTrue result (length self.now.line.pixels < length self.now.reference) }
        ensures no { OnFalse result (length self.now.line.pixels ≡ length self.now.reference) }
    {
        self.front.from <= self.width
    }

    /// Reads the vertical and pass modes that the next 57 bits hold whole, up to another mode, and returns
    /// how many bits they have.
    #[inline(always)]
    pub(crate) fn quick_modes(&mut self, reader: &mut BitReader) -> u32
        requires { 57 ≤ length (rest_of reader.old) }
        ensures along { StepsAlong self.old.reference reader.old reader.new self.old.line self.new.line }
        ensures reference { self.new.reference ≡ self.old.reference }
        ensures used { reader.new ≡ record reader.old { place = reader.old.place + result } }
        ensures none { result ≡ 0 → self.new ≡ self.old }
    {
        let held = &self.held[..self.known];
        let (front, used) = quick_modes(reader, held, &mut self.list, self.width, self.front);
        self.front = front;
        used
    }

    /// Pass mode: a0 goes under b2.
    pub(crate) fn pass(&mut self)
        requires { length self.old.line.pixels < length self.old.reference }
        ensures leads { LeadsOn self.old.reference self.old.line self.new.line ModeCode.Pass }
        ensures reference { self.new.reference ≡ self.old.reference }
    {
        let held = &self.held[..self.known];
        self.front = under_b2(held, &self.list, self.width, self.front);
    }

    /// A vertical mode: a0 goes to a1. Errs if the mode is refused, which changes nothing.
    pub(crate) fn vertical(&mut self, shift: Shift) -> Result<(), CodeFaultKind>
        requires { length self.old.line.pixels < length self.old.reference }
        ensures leads { OnOk result (LeadsOn self.old.reference self.old.line self.new.line (ModeCode.Vertical shift)) }
        ensures refuses { IfErr result (λ kind. (page : PageSoFar) → page.reference ≡ self.old.reference
            → after_mode (length self.old.reference) page self.old.line (ModeCode.Vertical shift) ≡ Err kind) }
        ensures reference { self.new.reference ≡ self.old.reference }
        ensures stays { OnErr result (self.new.line ≡ self.old.line) }
    {
        let held = &self.held[..self.known];
        self.front = to_a1(held, &mut self.list, self.width, self.front, shift)?;
        Ok(())
    }

    /// Horizontal mode: a0 goes to a2, after two runs.
    #[inline(always)]
    pub(crate) fn push_runs(&mut self, a0a1: u32, a1a2: u32)
        requires { length self.old.line.pixels + a0a1 + a1a2 ≤ length self.old.reference }
        ensures { self.new ≡ record self.old { line = runs_added self.old.line a0a1 a1a2 } }
    {
        self.front = to_a2(&mut self.list, self.front, a0a1, a1a2);
    }

    /// No pixels again.
    #[inline(always)]
    pub(crate) fn begin(&mut self)
        ensures { self.new ≡ record self.old { line = line_begin } }
    {
        self.front = Front::begin();
    }

    /// Appends the row of a whole coding line to a page that has room for it, and the line becomes the next row's
    /// reference line. Errs if memory is refused, which changes nothing.
    #[inline(always)]
    pub(crate) fn push_to(&mut self, page: &mut Page) -> Result<(), AllocError>
        requires whole { length self.old.line.pixels ≡ length self.old.reference }
        requires wide { length self.old.reference ≡ page.old.width }
        requires room { length page.old.rows < max_rows }
        ensures page { OnOk result (page.new ≡ record page.old { rows = page.old.rows ++ self.old.line.pixels ∷ [] }) }
        ensures next { OnOk result (self.new ≡ record { reference = self.old.line.pixels; line = line_begin }) }
        ensures same { OnErr result (self.new ≡ self.old) }
        ensures kept { OnErr result (page.new ≡ page.old) }
    {
        let count = turns_within(&self.list, self.front.turns, self.width);
        page.push_changes(&self.list[..count])?;
        end_list(&mut self.list, count, self.width);
        mem::swap(&mut self.held, &mut self.list);
        self.known = count + 3;
        self.front = Front::begin();
        Ok(())
    }

    /// The row of a whole coding line, which becomes the next row's reference line.
    #[inline(always)]
    pub(crate) fn row(&mut self, alloc: Global) -> Result<Row, AllocError>
        requires { length self.old.line.pixels ≡ length self.old.reference }
        ensures row { IfOk result (λ row. row ≡ self.old.line.pixels) }
        ensures next { OnOk result (self.new ≡ record { reference = self.old.line.pixels; line = line_begin }) }
        ensures same { OnErr result (self.new ≡ self.old) }
    {
        let count = turns_within(&self.list, self.front.turns, self.width);
        let row = Row::from_changes(alloc, &self.list[..count], self.width)?;
        end_list(&mut self.list, count, self.width);
        mem::swap(&mut self.held, &mut self.list);
        self.known = count + 3;
        self.front = Front::begin();
        Ok(row)
    }
}

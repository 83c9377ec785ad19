//! Writing of a page in the two-dimensional code (ITU-T T.6, 2.2).

ghost use Rattle.page_code.specs.TwoDimensions.Changes.{AreHeld};
ghost use Rattle.page_code.specs.TwoDimensions.Code.{page_code, row_code, rows_code, verticals, vertical_to};
ghost use Rattle.page_code.specs.TwoDimensions.Coding.{FitsCoding, FitsLines, IsListed, WritesOn};
ghost use Rattle.page_code.specs.TwoDimensions.Fronts.{mode_word};
ghost use Rattle.page_code.specs.TwoDimensions.Modes.{horizontal_word};
ghost use Rattle.page_code.specs.TwoDimensions.Writing.{reference_at, row_at};
ghost use Rattle.raster.specs.Pixels.{IsWidth, max_width, other};
ghost use Rattle.raster.specs.Words.{number_bits};
ghost use Rattle.run_tables.specs.Codes.{run_words};
ghost use Rattle.run_tables.specs.Written.{Appends, KeepsBits};
ghost use Rattle.std.specs.Prelude.{ℕ, List, ◌≡◌, ◌≤◌, ◌<◌, ◌+◌, ◌^◌, ◌++◌, All, IfOk, length, slice_index_or, take, OnErr, OnOk};

use crate::t6::changes::put_held;
use crate::t6::front::{Front, b1_at, index_after};
use crate::t6::mode::{EOFB, ModeCode, Shift};
use raster::{Color, Page, Row, RowRef, Rows};
use run_tables::{BitWriter, run_word};
use std::alloc::{AllocError, Global};
use std::mem;

/// The vertical mode that leads from b1 to a1, if there is one (ITU-T T.6, 2.2.3).
#[inline(always)]
fn shift_to(b1: u32, a1: u32) -> Option<Shift>
    requires b1 { b1 ≤ max_width }
    requires a1 { a1 ≤ max_width }
    ensures { result ≡ vertical_to b1 a1 verticals }
{
    if a1 + 3 < b1 {
        return None;
    }
    match a1 + 3 - b1 {
        0 => Some(Shift::VL3),
        1 => Some(Shift::VL2),
        2 => Some(Shift::VL1),
        3 => Some(Shift::V0),
        4 => Some(Shift::VR1),
        5 => Some(Shift::VR2),
        6 => Some(Shift::VR3),
        _ => None,
    }
}

/// Appends a mode code (ITU-T T.6, 2.2.2, table 1).
#[inline(always)]
fn push_mode(writer: &mut BitWriter, code: ModeCode) -> Result<(), AllocError>
    ensures ok { OnOk result (Appends (mode_word code) writer.old writer.new) }
    ensures err { OnErr result (writer.new ≡ writer.old) }
{
    let (value, count) = code.number();
    writer.push_bits(value, count)
}

/// The number of places that two lists, from an index of each on, have the same: at most 32, and none after
/// one that is the width.
#[inline(always)]
fn same_places(reference: &[u32], at: usize, row: &[u32], turns: usize, width: u32) -> u32
    requires above { IsListed reference.now width }
    requires listed { IsListed row.now width }
    requires index { at + 1 < length reference.now }
    requires turns { turns + 3 ≤ length row.now }
    ensures few { result ≤ 32 }
    ensures within { turns + result + 2 ≤ length row.now }
    ensures same { (k : ℕ) → k < result → slice_index_or reference.now (at + k) 0 ≡ slice_index_or row.now (turns + k) 0 }
    ensures inside { (k : ℕ) → k + 1 < result → slice_index_or row.now (turns + k) 0 < width }
{
    let mut count = 0;
    while count < 32 {
        let place = row[turns + count];
        if reference[at + count] != place {
            return count as u32;
        }
        count += 1;
        if place >= width {
            return count as u32;
        }
    }
    32
}

/// The flag of horizontal mode and the code words of its first run as one number, and their length in bits.
#[inline(always)]
fn flag_and_run(color: Color, run: u32) -> (u32, u32)
    requires { run ≤ max_width }
    ensures words { number_bits result.1 result.0 ≡ horizontal_word ++ run_words color run }
    ensures short { result.1 ≤ 29 }
    ensures below { result.0 < 2 ^ result.1 }
{
    let (word, length) = run_word(color, run);
    ((0b001 << length) + word, 3 + length)
}

/// Appends horizontal mode and its two runs, as one number where it has at most 32 bits.
#[inline(always)]
fn push_horizontal(
    writer: &mut BitWriter,
    color: Color,
    a0a1: u32,
    a1a2: u32,
) -> Result<(), AllocError>
    requires first { a0a1 ≤ max_width }
    requires second { a1a2 ≤ max_width }
    ensures ok { OnOk result (Appends (horizontal_word ++ (run_words color a0a1 ++ run_words (other color) a1a2)) writer.old writer.new) }
    ensures err { OnErr result (KeepsBits writer.old writer.new) }
{
    let (first, first_length) = flag_and_run(color, a0a1);
    let (second, second_length) = run_word(color.other(), a1a2);
    let length = first_length + second_length;
    if length > 32 {
        writer.push_bits(first, first_length)?;
        return writer.push_bits(second, second_length);
    }
    writer.push_bits((first << second_length) + second, length)
}

/// Appends the next prescribed mode, or as many V0 as come next, up to 32. Returns the front after them.
#[inline(always)]
fn write_modes(
    writer: &mut BitWriter,
    reference: &[u32],
    row: &[u32],
    width: u32,
    front: Front,
) -> Result<Front, AllocError>
    requires fits { FitsCoding reference.now row.now width front }
    requires short { front.from ≤ width }
    ensures fits { IfOk result (λ next. FitsCoding reference.now row.now width next) }
    ensures further { IfOk result (λ next. front.from < next.from) }
    ensures writes { IfOk result (λ next. WritesOn reference.now row.now front next writer.old writer.new) }
    ensures err { OnErr result (KeepsBits writer.old writer.new) }
{
    let at = b1_at(reference, front.from, front.at, width);
    let same = same_places(reference, at, row, front.turns, width);
    if same > 0 {
        writer.push_bits(u32::MAX >> (32 - same), same)?;
        let turns = front.turns + same as usize;
        return Ok(Front {
            from: row[turns - 1] + 1,
            at: at + same as usize,
            turns,
        });
    }
    let a1 = row[front.turns];
    let b1 = reference[at];
    let b2 = reference[at + 1];
    if b2 < a1 {
        push_mode(writer, ModeCode::Pass)?;
        return Ok(Front {
            from: b2 + 1,
            at,
            turns: front.turns,
        });
    }
    if let Some(shift) = shift_to(b1, a1) {
        push_mode(writer, ModeCode::Vertical(shift))?;
        return Ok(Front {
            from: a1 + 1,
            at: index_after(reference, front.from, at, a1),
            turns: front.turns + 1,
        });
    }
    let a2 = row[front.turns + 1];
    push_horizontal(
        writer,
        front.color(),
        a1 - front.from.saturating_sub(1),
        a2 - a1,
    )?;
    Ok(Front {
        from: a2 + 1,
        at,
        turns: front.turns + 2,
    })
}

/// Appends the code of a row after its reference row (ITU-T T.6, 2.2), both as the lists of their changing elements.
fn write_row(
    writer: &mut BitWriter,
    reference: &[u32],
    row: &[u32],
    width: u32,
) -> Result<(), AllocError>
    requires wide { IsWidth width }
    requires above { IsListed reference.now width }
    requires listed { IsListed row.now width }
    ensures code { OnOk result ((a b : List Color) → AreHeld a reference.now → AreHeld b row.now → length a ≡ length b
        → Appends (row_code a b) writer.old writer.new) }
    ensures keeps { KeepsBits writer.old writer.new }
{
    let mut front = Front::begin();
    while front.from <= width {
        front = write_modes(writer, reference, row, width, front)?;
    }
    Ok(())
}

/// A list with room for the changing elements of a row of a width, and 67 places more.
fn list_for(alloc: Global, width: u32) -> Result<Vec<u32>, AllocError>
    ensures { IfOk result (λ list. length list.items ≡ width + 67) }
{
    let mut list = Vec::new(alloc);
    list.resize(width as usize + 67, 0)?;
    Ok(list)
}

/// The changing elements of a reference line and those of a row, in lists that are written in place.
#[derive(Debug, Drop)]
pub(crate) struct Lines {
    pub(crate) reference: Vec<u32>,
    pub(crate) known: usize,
    pub(crate) row: Vec<u32>,
}

impl Lines {
    /// Lists without room, of no line.
    pub(crate) fn none(alloc: Global) -> Lines {
        Lines {
            reference: Vec::new(alloc),
            known: 0,
            row: Vec::new(alloc),
        }
    }

    /// Lists for rows as wide as a line, the first of them after it.
    pub(crate) fn after(alloc: Global, line: &RowRef<'_>) -> Result<Lines, AllocError>
        ensures fits { IfOk result (λ lines. FitsLines (length line.now) lines.reference.items lines.row.items lines.known) }
        ensures held { IfOk result (λ lines. AreHeld line.now (take lines.known lines.reference.items)) }
    {
        let mut reference = list_for(alloc, line.width())?;
        let row = list_for(alloc, line.width())?;
        let known = put_held(line, &mut reference);
        Ok(Lines {
            reference,
            known,
            row,
        })
    }

    /// Appends the code of a row after the reference line. The row becomes the next one's reference line.
    #[inline(always)]
    pub(crate) fn write_row(
        &mut self,
        writer: &mut BitWriter,
        row: &RowRef<'_>,
    ) -> Result<(), AllocError>
        requires { FitsLines (length row.now) self.old.reference.items self.old.row.items self.old.known }
        ensures fits { FitsLines (length row.now) self.new.reference.items self.new.row.items self.new.known }
        ensures code { OnOk result ((line : List Color) → AreHeld line (take self.old.known self.old.reference.items)
            → length line ≡ length row.now → Appends (row_code line row.now) writer.old writer.new) }
        ensures held { OnOk result (AreHeld row.now (take self.new.known self.new.reference.items)) }
        ensures keeps { KeepsBits writer.old writer.new }
        ensures same { OnErr result (take self.new.known self.new.reference.items ≡ take self.old.known self.old.reference.items) }
    {
        let count = put_held(row, &mut self.row);
        write_row(
            writer,
            &self.reference[..self.known],
            &self.row[..count],
            row.width(),
        )?;
        mem::swap(&mut self.reference, &mut self.row);
        self.known = count;
        Ok(())
    }
}

/// Appends the codes of rows, each after the one before and the first after a white row.
fn write_rows(
    alloc: Global,
    writer: &mut BitWriter,
    white: &RowRef<'_>,
    rows: &Rows<'_>,
) -> Result<(), AllocError>
    requires { All (λ row. length row ≡ length white.now) rows.now }
    ensures ok { OnOk result (Appends (rows_code white.now rows.now) writer.old writer.new) }
    ensures err { OnErr result (KeepsBits writer.old writer.new) }
{
    let mut lines = Lines::after(alloc, white)?;
    for at in 0..rows.len() {
        lines.write_row(writer, &rows.row(at))?;
    }
    Ok(())
}

/// Appends the code of a page: its rows and EOFB (ITU-T T.6, 2.2).
pub(crate) fn write_page(
    alloc: Global,
    writer: &mut BitWriter,
    page: &Page,
) -> Result<(), AllocError>
    ensures ok { OnOk result (Appends (page_code page.now.width page.now.rows) writer.old writer.new) }
    ensures err { OnErr result (KeepsBits writer.old writer.new) }
{
    let rows = page.rows();
    let white = Row::from_valid_runs(alloc, &[page.width()])?;
    write_rows(alloc, writer, &white.lent(), &rows)?;
    writer.push_digits(EOFB)
}

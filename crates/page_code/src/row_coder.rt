//! Writing of a page row by row, in memory that doesn't grow with its rows.

ghost use Rattle.page_code.specs.RowCoders.{BeginsCode, EndsPage, FinishesPage, HandsOut, IsEndRefused, HasLists, HoldsBefore, PushesRow, end_of, row_of as row_code_of};
ghost use Rattle.page_code.specs.TwoDimensions.Positions.{white_line};
ghost use Rattle.raster.specs.Pixels.{IsWidth};
ghost use Rattle.raster.specs.declared.row.Color.{Color};
ghost use Rattle.run_tables.specs.Written.{Appends, KeepsBits};
ghost use Rattle.std.specs.Prelude.{◌≡◌, ◌<◌, [], List, IfErr, IfOk, OnErr, OnOk, length, take};

use crate::one_dim;
use crate::t6::mode::EOFB;
use crate::t6::write::Lines;
use raster::packed::Order;
use raster::{Coding, MAX_ROWS, RasterFault, Row, RowRef};
use run_tables::BitWriter;
use std::alloc::{AllocError, Global};
use std::marker::Model;
use std::mem;

/// The lists by which rows of this width are coded, before the first row.
fn first_lines(alloc: Global, coding: Coding, width: u32) -> Result<Lines, AllocError>
    requires { IsWidth width }
    ensures fits { IfOk result (λ lines. HasLists coding width lines.reference.items lines.row.items lines.known) }
    ensures held { IfOk result (λ lines. HoldsBefore coding (white_line width) (take lines.known lines.reference.items)) }
{
    match coding {
        Coding::OneDim => Ok(Lines::none(alloc)),
        Coding::T6 => {
            let white = Row::from_valid_runs(alloc, &[width])?;
            Lines::after(alloc, &white.lent())
        }
    }
}

/// Appends the code of a row after the one before it.
fn write_row(
    coding: Coding,
    writer: &mut BitWriter,
    row: &RowRef<'_>,
    lines: &mut Lines,
) -> Result<(), AllocError>
    requires some { 0 < length row.now }
    requires fits { HasLists coding (length row.now) lines.old.reference.items lines.old.row.items lines.old.known }
    ensures fits { HasLists coding (length row.now) lines.new.reference.items lines.new.row.items lines.new.known }
    ensures code { OnOk result ((before : List Color) → HoldsBefore coding before (take lines.old.known lines.old.reference.items)
        → length before ≡ length row.now → Appends (row_code_of coding before row.now) writer.old writer.new) }
    ensures held { OnOk result (HoldsBefore coding row.now (take lines.new.known lines.new.reference.items)) }
    ensures keeps { KeepsBits writer.old writer.new }
    ensures same { OnErr result (take lines.new.known lines.new.reference.items ≡ take lines.old.known lines.old.reference.items) }
{
    match coding {
        Coding::OneDim => one_dim::write_row(writer, row, &mut lines.row),
        Coding::T6 => lines.write_row(writer, row),
    }
}

/// Appends the end of a page.
fn write_end(coding: Coding, writer: &mut BitWriter) -> Result<(), AllocError>
    ensures ends { OnOk result (Appends (end_of coding) writer.old writer.new) }
    ensures keeps { OnErr result (KeepsBits writer.old writer.new) }
{
    match coding {
        Coding::OneDim => one_dim::write_rtc(writer),
        Coding::T6 => writer.push_digits(EOFB),
    }
}

/// Codes a page whose rows come one by one. If the octets of its code are moved out after each row, it holds
/// only the row before the next one, and one row's code.
#[derive(Debug, Drop)]
pub struct RowCoder {
    coding: Coding,
    width: u32,
    rows: usize,
    lines: Lines,
    pending: BitWriter,
}

impl Model for RowCoder {
    ghost use Rattle.page_code.specs.RowCoders.{HasLists, RowCoding};
    ghost use Rattle.raster.specs.Pixels.{IsWidth};
    ghost use Rattle.std.specs.Prelude.{take};

    ghost Value = { RowCoding };

    ghost view = { λ coder. record {
      coding = coder.coding;
      width = coder.width;
      count = coder.rows;
      before = take coder.lines.known coder.lines.reference.items;
      pending = coder.pending;
    } };

    ghost invariant = { λ coder. record {
      wide : IsWidth coder.width;
      lists : HasLists coder.coding coder.width coder.lines.reference.items coder.lines.row.items coder.lines.known;
    } };
}

impl RowCoder {
    /// Makes a coder of a page in this code, order of bits and width in pixels, 1 to 2,432, without rows.
    /// Errs if memory is refused.
    pub fn new(
        alloc: Global,
        coding: Coding,
        order: Order,
        width: u32,
    ) -> Result<RowCoder, AllocError>
        requires { IsWidth width }
        ensures { IfOk result (λ coder. BeginsCode coding order width coder) }
    {
        Ok(RowCoder {
            coding,
            width,
            rows: 0,
            lines: first_lines(alloc, coding, width)?,
            pending: BitWriter::new(alloc, order),
        })
    }

    /// The width of the page's rows in pixels.
    pub fn width(&self) -> u32
        ensures width { result ≡ self.now.width }
        ensures range { IsWidth result }
    {
        self.width // of each row
    }

    /// The number of rows so far, 20,000 at most.
    pub fn rows(&self) -> usize
        ensures { result ≡ self.now.count }
    {
        self.rows // so far
    }

    /// Appends a row at the page's bottom. Errs with `WrongRowWidth` (2), with `TooManyRows` (3) after 20,000
    /// rows, and with `NoMemory` (9); an error changes nothing.
    pub fn push_row(&mut self, row: &RowRef<'_>) -> Result<(), RasterFault>
        ensures { PushesRow self.old row.now self.new result }
    {
        if row.width() != self.width {
            return Err(RasterFault::WrongRowWidth);
        }
        if self.rows >= MAX_ROWS {
            return Err(RasterFault::TooManyRows);
        }
        let start = self.pending.bits();
        if write_row(self.coding, &mut self.pending, row, &mut self.lines).is_err() {
            self.pending.truncate(start);
            return Err(RasterFault::NoMemory);
        }
        self.rows += 1;
        Ok(())
    }

    /// Moves the octets that are whole so far, the next ones of the page's code, to the end of a list. Errs
    /// if memory is refused, which changes nothing.
    pub fn move_octets(&mut self, out: &mut Vec<u8>) -> Result<(), AllocError>
        ensures ok { OnOk result (HandsOut self.old out.old.items out.new.items self.new) }
        ensures err { OnErr result (out.new.items ≡ out.old.items) }
        ensures kept { OnErr result (self.new ≡ self.old) }
    {
        self.pending.move_octets(out)
    }

    /// Appends the last octets of the page's code: its end is RTC or EOFB, and 0 bits fill the last octet.
    /// All octets handed out are then the ones that `Coding::encode` appends for the page. Errs with `NoRows`
    /// (4) if no row was pushed, and with `NoMemory` (9); an error leaves the list as it was.
    pub fn finish(self, out: &mut Vec<u8>) -> Result<(), RasterFault>
        ensures { FinishesPage self out.old.items out.new.items result }
    {
        let RowCoder {
            coding,
            rows,
            mut pending,
            ..
        } = self;
        if rows == 0 {
            return Err(RasterFault::NoRows);
        }
        write_end(coding, &mut pending)?;
        let octets = pending.into_octets();
        out.extend_from_slice(&octets)?;
        Ok(())
    }

    /// Returns the last octets of the page's code, as `finish` appends them; after them the coder has done
    /// its work. Errs with `NoRows` (4) if no row was pushed, and with `NoMemory` (9); an error changes
    /// nothing.
    pub fn end(&mut self, alloc: Global) -> Result<Vec<u8>, RasterFault>
        ensures ends { IfOk result (λ octets. EndsPage self.old [] octets.items) }
        ensures some { OnOk result (0 < self.old.count) }
        ensures refuses { IfErr result (IsEndRefused self.old) }
        ensures kept { OnErr result (self.new ≡ self.old) }
    {
        if self.rows == 0 {
            return Err(RasterFault::NoRows);
        }
        let start = self.pending.bits();
        if write_end(self.coding, &mut self.pending).is_err() {
            self.pending.truncate(start);
            return Err(RasterFault::NoMemory);
        }
        let pending = mem::replace(&mut self.pending, BitWriter::new(alloc, Order::MsbFirst));
        Ok(pending.into_octets())
    }
}

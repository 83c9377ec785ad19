//! Reading of rows in one dimension (ITU-T T.4, 4.1.1). A reader's contract says that reading the whole from before a call is reading on
//! after it, or is the refusal that the call returns; so a loop's invariant is one equation, and the public clauses follow from the laws.

ghost use Rattle.raster.specs.Pages.{max_rows};
ghost use Rattle.raster.specs.Painting.{FitsPainter};
ghost use Rattle.raster.specs.Pixels.{IsWidth};
ghost use Rattle.run_tables.specs.RowReading.{IsInRow, IsQuickRow, ReadsRow, RefusesRow, RowRuns, WholeRow};
ghost use Rattle.run_tables.specs.RowReading.{IsQuickRowOnto, PaintsRow, PaintsRuns};
ghost use Rattle.run_tables.specs.Reading.{Reading};
ghost use Rattle.run_tables.specs.Windows.{IsWindow, passed};
ghost use Rattle.std.specs.Bool.{OnTrue};
ghost use Rattle.std.specs.Prelude.{ℕ, IfOk, IfErr, OnErr, OnOk, ◌≡◌, ◌≢◌, ◌≤◌, ◌<◌, ◌+◌, ◌*◌, length};

use crate::fault::{CodeFault, CodeFaultKind};
use crate::reader::BitReader;
use crate::window::Window;
use raster::{Color, Page, Painter, Row};
use std::alloc::{AllocError, Global};

impl<'a> BitReader<'a> {
    /// Reads the first runs of a row, as many as can be read quickly. Returns the color of the next run, and
    /// how many pixels are left.
    fn quick_runs(&mut self, width: u32, runs: &mut Vec<u32>) -> Result<(Color, u32), AllocError>
        requires { IsWidth width }
        ensures { IfOk result (λ next. IsInRow width self.old self.new runs.new.items next.0 next.1) }
    {
        let _place = self.place(); // shows the proof that it is within the bits
        runs.clear();
        let mut color = Color::White;
        let mut room = width;
        let Some(mut window) = Window::at(self.look_ahead()) else {
            return Ok((color, room));
        };
        while room > 0 {
            let Some(white) = window.run(Color::White, room) else {
                break;
            };
            runs.push(white)?;
            room -= white;
            color = Color::Black;
            if room == 0 {
                break;
            }
            let Some(black) = window.run(Color::Black, room) else {
                break;
            };
            runs.push(black)?;
            room -= black;
            color = Color::White;
        }
        *self = window.into_reader();
        Ok((color, room))
    }

    /// The next row, painted while it is read, if all of it can be read quickly. Else none, and nothing
    /// changed. A row of one color takes no memory of its own.
    #[inline(always)]
    fn quick_row(&mut self, alloc: Global, width: u32) -> Result<Option<Row>, AllocError>
        requires { IsWidth width }
        ensures { IfOk result (IsQuickRow width self.old self.new) }
    {
        let _place = self.place(); // shows the proof that it is within the bits
        let Some(mut window) = Window::at(self.look_ahead()) else {
            return Ok(None);
        };
        let Some(first) = window.run(Color::White, width) else {
            return Ok(None);
        };
        if first == width {
            let row = Row::from_valid_runs(alloc, &[width])?;
            *self = window.into_reader();
            return Ok(Some(row));
        }
        let Some(second) = window.run(Color::Black, width - first) else {
            return Ok(None);
        };
        if second == width {
            let row = Row::from_valid_runs(alloc, &[first, second])?;
            *self = window.into_reader();
            return Ok(Some(row));
        }
        let mut painter = Painter::begin(alloc, width)?;
        painter.push_run(first);
        painter.push_run(second);
        let all = self.paint_rest(&mut window, &mut painter, width - first - second);
        if !all {
            return Ok(None);
        }
        *self = window.into_reader();
        Ok(Some(Row::of_painter(painter)))
    }

    /// The reader after the next row, which is as wide as a page with room for it and is appended to that page, if
    /// all of it can be read quickly. It is painted while it is read, in the memory of a painter of the page's
    /// width; what that has painted doesn't matter. Else none, and the page is as it was.
    #[inline(always)]
    pub fn quick_row_onto(
        self,
        page: &mut Page,
        painter: &mut Painter,
    ) -> Result<Option<BitReader<'a>>, AllocError>
        requires width { IsWidth page.old.width }
        requires room { length page.old.rows < max_rows }
        requires wide { painter.old.width ≡ page.old.width }
        requires octets { painter.old.width + 64 ≤ 8 * length painter.old.octets.items }
        ensures row { IfOk result (IsQuickRowOnto page.old page.new self.entry) }
        ensures page { OnErr result (page.new ≡ page.old) }
        ensures wide { painter.new.width ≡ painter.old.width }
        ensures octets { painter.new.width + 64 ≤ 8 * length painter.new.octets.items }
    {
        let _place = self.place(); // shows the proof that it is within the bits
        let width = page.width();
        let Some(mut window) = Window::at(self.look_ahead()) else {
            return Ok(None);
        };
        let Some(first) = window.run(Color::White, width) else {
            return Ok(None);
        };
        if first == width {
            page.push_changes(&[])?;
            return Ok(Some(window.into_reader()));
        }
        let Some(second) = window.run(Color::Black, width - first) else {
            return Ok(None);
        };
        if second == width {
            page.push_changes(&[0])?;
            return Ok(Some(window.into_reader()));
        }
        painter.restart();
        painter.push_run(first);
        painter.push_run(second);
        let all = self.paint_rest(&mut window, painter, width - first - second);
        if !all {
            return Ok(None);
        }
        page.push_painted(painter)?;
        Ok(Some(window.into_reader()))
    }

    /// Reads the runs of a row from a white one on, up to its end, and paints them. `self` is the reader at the
    /// row's beginning. Returns whether all of them can be read quickly.
    #[inline(always)]
    fn paint_rest(&self, window: &mut Window<'a>, painter: &mut Painter, left: u32) -> bool
        requires window { IsWindow window.old.reader window.old.used window.old.word }
        requires fits { FitsPainter painter.old }
        requires left { painter.old.place + left ≡ painter.old.width }
        requires row { PaintsRuns painter.old.width self.now (passed window.old.reader window.old.used) painter.old Color.White left }
        ensures window { IsWindow window.new.reader window.new.used window.new.word }
        ensures fits { FitsPainter painter.new }
        ensures width { painter.new.width ≡ painter.old.width }
        ensures whole { OnTrue result (painter.new.place ≡ painter.new.width) }
        ensures row { OnTrue result (PaintsRow painter.old.width self.now (passed window.new.reader window.new.used) painter.new) }
    {
        let mut room = left;
        while room > 0 {
            if let Some(pair) = window.pair(room) {
                let white = pair.white();
                let black = pair.black();
                painter.push_run(white);
                painter.push_run(black);
                room -= white + black;
                continue;
            }
            let Some(white) = window.run(Color::White, room) else {
                return false;
            };
            painter.push_run(white);
            room -= white;
            if room == 0 {
                return true;
            }
            let Some(black) = window.run(Color::Black, room) else {
                return false;
            };
            painter.push_run(black);
            room -= black;
        }
        true
    }

    /// Reads the other runs of a row, code by code: `next` is the color of the next one, and `left` pixels
    /// are left.
    #[cold]
    #[inline(never)]
    fn other_runs(&mut self, next: Color, left: u32, runs: &mut Vec<u32>) -> Result<(), CodeFault>
        ensures { (width : ℕ) (start : Reading) → IsInRow width start self.old runs.old.items next left
            → RowRuns width start self.new runs.new.items result }
    {
        let mut color = next;
        let mut room = left;
        // a run of 0 pixels is accepted anywhere, though only a row that begins with black needs one
        while room > 0 {
            let run = self.read_run_by_codes(color, room, CodeFaultKind::RunTooLong)?;
            runs.push(run)?;
            room -= run;
            color = color.other();
        }
        Ok(())
    }

    /// Reads the runs of a row of this width. After an error the reader is somewhere in the row.
    fn row_runs(&mut self, width: u32, runs: &mut Vec<u32>) -> Result<(), CodeFault>
        requires { IsWidth width }
        ensures { RowRuns width self.old self.new runs.new.items result }
    {
        let (color, room) = self.quick_runs(width, runs)?;
        if room == 0 {
            return Ok(());
        }
        let mut ahead = self.look_ahead();
        ahead.other_runs(color, room, runs)?;
        *self = ahead;
        Ok(())
    }

    /// Reads a row of this width, and leaves its runs in the list. After an error the reader is somewhere in
    /// the row.
    fn whole_row(
        &mut self,
        alloc: Global,
        width: u32,
        list: &mut Vec<u32>,
    ) -> Result<Row, CodeFault>
        requires { IsWidth width }
        ensures { WholeRow width self.old self.new result }
    {
        if let Some(row) = self.quick_row(alloc, width)? {
            return Ok(row);
        }
        self.row_by_runs(alloc, width, list)
    }

    /// As `whole_row`, by the runs.
    fn row_by_runs(
        &mut self,
        alloc: Global,
        width: u32,
        list: &mut Vec<u32>,
    ) -> Result<Row, CodeFault>
        requires { IsWidth width }
        ensures { WholeRow width self.old self.new result }
    {
        self.row_runs(width, list)?;
        Ok(Row::from_valid_runs(alloc, list)?)
    }

    /// Reads the next row in one dimension, `width` pixels wide: its run codes, white first (ITU-T T.4,
    /// 4.1.1). Errs at the run code that is refused: with `RunTooLong` (12) if it takes the row past the
    /// width, with `Truncated` (11) if the bits end inside a valid code or before one, else with `BadCode`
    /// (10); and with `NoMemory` (9), at the reader's place. An error changes nothing.
    pub fn read_row_1d(&mut self, alloc: Global, width: u32) -> Result<Row, CodeFault>
        requires { IsWidth width }
        ensures reads { IfOk result (ReadsRow width self.old self.new) }
        ensures refuses { IfErr result (λ fault. fault.kind ≢ CodeFaultKind.NoMemory → RefusesRow width self.old fault) }
        ensures memory { IfErr result (λ fault. fault.kind ≡ CodeFaultKind.NoMemory → fault.place ≡ self.old.place) }
        ensures stays { OnErr result (self.new ≡ self.old) }
    {
        let mut list = Vec::new(alloc);
        self.read_row_1d_in(alloc, width, &mut list)
    }

    /// As `read_row_1d`, in the memory of a list, to read many rows one after the other. What is in the list
    /// doesn't matter, before or after.
    pub fn read_row_1d_in(
        &mut self,
        alloc: Global,
        width: u32,
        list: &mut Vec<u32>,
    ) -> Result<Row, CodeFault>
        requires { IsWidth width }
        ensures reads { IfOk result (ReadsRow width self.old self.new) }
        ensures refuses { IfErr result (λ fault. fault.kind ≢ CodeFaultKind.NoMemory → RefusesRow width self.old fault) }
        ensures memory { IfErr result (λ fault. fault.kind ≡ CodeFaultKind.NoMemory → fault.place ≡ self.old.place) }
        ensures stays { OnErr result (self.new ≡ self.old) }
    {
        let mut ahead = self.look_ahead();
        match ahead.whole_row(alloc, width, list) {
            Ok(row) => {
                *self = ahead;
                Ok(row)
            }
            Err(fault) => Err(fault.begun_at(self.place())),
        }
    }
}

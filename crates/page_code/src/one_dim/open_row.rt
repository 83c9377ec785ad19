//! The row after a page's whole rows, which comes in pieces: how far its bits were passed, so that none of them is read again at each
//! piece (ITU-T T.4, 4.1).

ghost use Rattle.page_code.specs.OneDimension.Fronts.{CodeBegins, zeros_before};
ghost use Rattle.page_code.specs.OneDimension.OpenRows.{AreRunsBefore, AreZerosBefore, IsOpenRow};
ghost use Rattle.page_code.specs.OneDimension.Reading.{FindsRow};
ghost use Rattle.page_code.specs.RowsSoFar.{AreRowsSoFar, IsReadTo};
ghost use Rattle.page_code.specs.declared.one_dim.Start.TheVariants.{Row};
ghost use Rattle.raster.specs.Packed.{bits_of};
ghost use Rattle.std.specs.Prelude.{◌≡◌, ◌≤◌, ◌<◌, ◌+◌, ◌*◌, ◌↔◌, drop, length, true, IfNone, IfSome, OnSome};

use crate::one_dim::eol::{zeros_from, zeros_of};
use crate::page::Progress;
use raster::packed::Order;
use raster::{Coding, Color, MAX_ROWS};
use run_tables::{BitReader, CodeFaultKind};

/// The place in a row after whole runs of it.
#[derive(Clone, Copy, Debug, PartialEq, Eq)]
pub(crate) struct RunsBefore {
    /// The bit after them.
    pub(crate) at: u128,
    /// The color of the next run.
    pub(crate) color: Color,
    /// The pixels that are left.
    pub(crate) left: u32,
}

/// How far the row after the whole rows was passed.
#[derive(Clone, Copy, Debug, PartialEq, Eq)]
pub(crate) enum OpenRow {
    /// So many 0 bits come after the whole rows.
    Zeros(u128),
    /// Whole runs of the row come.
    Runs(RunsBefore),
}

/// The number of 0 bits before the first 1 from a place on, `known` of which were seen before; none if there is no 1.
pub(crate) fn zeros_after(octets: &[u8], order: Order, place: u128, known: u128) -> Option<u128>
    requires place { place ≤ 8 * length octets.now }
    requires known { AreZerosBefore (bits_of order octets.now) place known }
    ensures zeros { result ≡ zeros_before (drop place (bits_of order octets.now)) }
    ensures within { IfSome result (λ zeros. place + zeros < 8 * length octets.now) }
{
    let more = zeros_from(octets, order, place + known)?;
    Some(known + more)
}

/// Whether a run code may begin at a place: neither an EOL nor only 0 bits come.
fn code_begins(octets: &[u8], order: Order, place: u128) -> bool
    requires { place ≤ 8 * length octets.now }
    ensures { (result ≡ true) ↔ CodeBegins (drop place (bits_of order octets.now)) }
{
    let reader = BitReader::at(octets, order, place);
    zeros_of(reader.peek_57()) < 11
}

/// The place of the next row's first code, after so many 0 bits; none if no row begins there.
fn row_start(octets: &[u8], order: Order, to: &Progress, zeros: Option<u128>) -> Option<u128>
    requires read { IsReadTo Coding.OneDim to.now.page.width (bits_of order octets.now) to.now.page.rows to.now.place }
    requires zeros { zeros ≡ zeros_before (drop to.now.place (bits_of order octets.now)) }
    requires within { IfSome zeros (λ zeros. to.now.place + zeros < 8 * length octets.now) }
    ensures row { IfSome result (λ at. FindsRow (bits_of order octets.now) to.now.page.width to.now.page.rows to.now.place (Row at)) }
    ensures none { IfNone result (AreRowsSoFar Coding.OneDim to.now.page.width (bits_of order octets.now) (length to.now.page.rows)) }
{
    let rows = to.page.rows().len();
    let zeros = zeros?;
    if zeros < 11 {
        if rows == 0 {
            return Some(to.place);
        }
        return None;
    }
    if rows >= MAX_ROWS {
        return None;
    }
    let start = to.place + zeros + 1;
    let begins = code_begins(octets, order, start);
    if !begins {
        return None;
    }
    Some(start)
}

/// Passes the whole runs that come after these; none if the row ends there.
fn pass_runs(octets: &[u8], order: Order, to: &Progress, passed: RunsBefore) -> Option<OpenRow>
    requires read { IsReadTo Coding.OneDim to.now.page.width (bits_of order octets.now) to.now.page.rows to.now.place }
    requires runs { AreRunsBefore to.now.page.width (bits_of order octets.now) to.now.page.rows to.now.place passed }
    ensures passed { IfSome result (IsOpenRow to.now.page.width (bits_of order octets.now) to.now.page.rows to.now.place) }
    ensures rows { OnSome result (AreRowsSoFar Coding.OneDim to.now.page.width (bits_of order octets.now) (length to.now.page.rows)) }
{
    let _rows = to.page.rows(); // shows the proof that there are 20,000 at most
    let mut passed = passed;
    let mut reader = BitReader::at(octets, order, passed.at);
    loop {
        match reader.read_run_within(passed.color, passed.left, CodeFaultKind::RunTooLong) {
            Ok(run) => {
                if run == passed.left {
                    return None;
                }
                passed = RunsBefore {
                    at: reader.place(),
                    color: passed.color.other(),
                    left: passed.left - run,
                };
            }
            Err(_) => return Some(OpenRow::Runs(passed)),
        }
    }
}

/// Passes what has come of the row after the whole rows, from where it was passed before; none if it is whole.
pub(crate) fn pass(octets: &[u8], order: Order, to: &Progress, before: OpenRow) -> Option<OpenRow>
    requires read { IsReadTo Coding.OneDim to.now.page.width (bits_of order octets.now) to.now.page.rows to.now.place }
    requires before { IsOpenRow to.now.page.width (bits_of order octets.now) to.now.page.rows to.now.place before }
    ensures passed { IfSome result (IsOpenRow to.now.page.width (bits_of order octets.now) to.now.page.rows to.now.place) }
    ensures rows { OnSome result (AreRowsSoFar Coding.OneDim to.now.page.width (bits_of order octets.now) (length to.now.page.rows)) }
{
    let known = match before {
        OpenRow::Zeros(known) => known,
        OpenRow::Runs(passed) => return pass_runs(octets, order, to, passed),
    };
    let zeros = zeros_after(octets, order, to.place, known);
    let Some(at) = row_start(octets, order, to, zeros) else {
        return Some(OpenRow::Zeros(zeros.unwrap_or(8 * octets.len() as u128 - to.place)));
    };
    let first = RunsBefore {
        at,
        color: Color::White,
        left: to.page.width(),
    };
    pass_runs(octets, order, to, first)
}

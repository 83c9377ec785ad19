//! One row of a page in the two-dimensional code, at a place in bits, read on from where an earlier reading of it ended (ITU-T T.6, 2.2).

ghost use Rattle.page_code.specs.PassedRows.{IsPassedRow};
ghost use Rattle.page_code.specs.RowReaders.{FindsNext};
ghost use Rattle.page_code.specs.TwoDimensions.OpenLines.{AreOpenLines};
ghost use Rattle.page_code.specs.TwoDimensions.Positions.{line_begin};
ghost use Rattle.page_code.specs.TwoDimensions.Reading.{SeesStart, StepsAlong};
ghost use Rattle.raster.specs.Packed.{bits_of};
ghost use Rattle.raster.specs.Pages.{max_rows};
ghost use Rattle.raster.specs.Pixels.{IsWidth};
ghost use Rattle.run_tables.specs.Reading.{rest_of};
ghost use Rattle.std.specs.Prelude.{◌≡◌, ◌≤◌, ◌*◌, drop, length};

use crate::one_dim::open_row::zeros_after;
use crate::page_rows::{NextRow, RowPlace, refused};
use crate::passed_row::{NO_EOLS, PassedRow};
use crate::t6::lines::Lines;
use crate::t6::mode::EOFB;
use crate::t6::read::{Start, begins_row, read_row, start_by};
use raster::packed::Order;
use raster::{Coding, MAX_ROWS};
use run_tables::{BitReader, CodeFault};
use std::alloc::{AllocError, Global};

/// The lines of the row after the rows that were given, and how far it was read.
#[derive(Drop)]
pub(crate) struct OpenLines {
    pub(crate) lines: Lines,
    /// The bits of the modes that were read, the row's first ones. If there are none, the coding line may be any.
    pub(crate) used: u128,
}

/// What is found after these rows, as `start_at` finds it. Keeps how many 0 bits were passed.
#[inline(always)]
fn start_after(
    octets: &[u8],
    order: Order,
    reader: &BitReader,
    to: &RowPlace,
    passed: &mut PassedRow,
) -> Start
    requires within { to.now.at ≤ 8 * length octets.now }
    requires reader { reader.now ≡ record { bits = bits_of order octets.now; place = to.now.at } }
    requires passed { IsPassedRow to.now.width to.now.rows (drop to.now.at (bits_of order octets.now)) passed.old }
    ensures sees { SeesStart (rest_of reader.now) to.now.rows result }
    ensures passed { IsPassedRow to.now.width to.now.rows (drop to.now.at (bits_of order octets.now)) passed.new }
{
    let row = begins_row(reader);
    if row && to.rows < MAX_ROWS {
        return Start::Row;
    }
    let zeros = zeros_after(octets, order, to.at, passed.zeros);
    passed.zeros = zeros.unwrap_or(8 * octets.len() as u128 - to.at);
    passed.eols = NO_EOLS;
    start_by(reader, to.rows, zeros.is_none())
}

/// The reader where the row at a place goes on. If no mode of it was read, it begins.
#[inline(always)]
fn goes_on<'a>(octets: &'a [u8], order: Order, at: u128, begun: &mut OpenLines) -> BitReader<'a>
    requires within { at ≤ 8 * length octets.now }
    requires begun { AreOpenLines (drop at (bits_of order octets.now)) begun.old }
    ensures along { StepsAlong begun.old.lines.reference
        (record { bits = bits_of order octets.now; place = at }) result line_begin
        begun.new.lines.line }
    ensures reference { begun.new.lines.reference ≡ begun.old.lines.reference }
{
    let _width = begun.lines.width(); // shows the proof that there are pixels to read
    if begun.used == 0 {
        begun.lines.begin();
        return BitReader::at(octets, order, at);
    }
    BitReader::at(octets, order, at + begun.used)
}

/// The next row after the reference line of these lines, the page's end or a refusal, counted from the beginning of the
/// octets. Keeps the modes that were read of a row that isn't whole.
pub(crate) fn next_row(
    alloc: Global,
    octets: &[u8],
    order: Order,
    to: &mut RowPlace,
    begun: &mut OpenLines,
    passed: &mut PassedRow,
) -> Result<NextRow, AllocError>
    requires within { to.old.at ≤ 8 * length octets.now }
    requires few { to.old.rows ≤ max_rows }
    requires width { IsWidth to.old.width }
    requires passed { IsPassedRow to.old.width to.old.rows (drop to.old.at (bits_of order octets.now)) passed.old }
    requires begun { AreOpenLines (drop to.old.at (bits_of order octets.now)) begun.old }
    ensures passed { IsPassedRow to.old.width to.old.rows (drop to.old.at (bits_of order octets.now)) passed.new }
    ensures begun { AreOpenLines (drop to.old.at (bits_of order octets.now)) begun.new }
    ensures finds { FindsNext Coding.T6 (bits_of order octets.now) to.old to.new begun.old.lines.reference begun.new.lines.reference result }
{
    let start = BitReader::at(octets, order, to.at);
    match start_after(octets, order, &start, to, passed) {
        Start::Row => {}
        Start::End => return Ok(NextRow::End(to.at + EOFB.len() as u128)),
        Start::Refused(kind) => return Ok(NextRow::Refused(CodeFault::new(to.at, kind))),
    }
    let mut reader = goes_on(octets, order, to.at, begun);
    match read_row(alloc, &mut reader, &mut begun.lines) {
        Ok(row) => {
            begun.used = 0;
            to.rows += 1;
            to.at = reader.place();
            Ok(NextRow::Row(row))
        }
        Err(fault) => {
            begun.used = reader.place() - to.at;
            refused(fault)
        }
    }
}

//! One row of a page in the one-dimensional code, at a place in bits (ITU-T T.4, 4.1).

ghost use Rattle.page_code.specs.OneDimension.OpenRows.{AreZerosBefore};
ghost use Rattle.page_code.specs.OneDimension.Reading.{SeesEol, SeesStart};
ghost use Rattle.page_code.specs.OneDimension.Fronts.{bits_of_five};
ghost use Rattle.page_code.specs.PassedRows.{AreEolsPassed, AreRunsPassed, IsPassedRow};
ghost use Rattle.page_code.specs.RowReaders.{FindsNext, FindsStart, IsFoundRefused, IsStartWithin, ReadsRowThere};
ghost use Rattle.raster.specs.Packed.{bits_of};
ghost use Rattle.raster.specs.Pages.{max_rows};
ghost use Rattle.raster.specs.Pixels.{IsWidth};
ghost use Rattle.raster.specs.declared.row.Color.{Color};
ghost use Rattle.std.specs.Prelude.{◌≡◌, ◌≤◌, ◌<◌, ◌+◌, ◌*◌, IfSome, List, drop, length};

use crate::one_dim::eol::{Eol, quick_eol};
use crate::one_dim::open_row::{RunsBefore, zeros_after};
use crate::one_dim::{Start, start_by};
use crate::page_rows::{NextRow, RowPlace, refused};
use crate::passed_row::{EolsBefore, NO_EOLS, PassedRow};
use raster::packed::Order;
use raster::{Coding, Color, MAX_ROWS};
use run_tables::{BitReader, CodeFault, CodeFaultKind};
use std::alloc::{AllocError, Global};

/// What is found at a place where an EOL may come, of whose 0 bits so many are known.
fn eol_after(octets: &[u8], order: Order, place: u128, known: u128) -> Eol
    requires place { place ≤ 8 * length octets.now }
    requires known { AreZerosBefore (bits_of order octets.now) place known }
    ensures { SeesEol (drop place (bits_of order octets.now)) result }
{
    match zeros_after(octets, order, place, known) {
        None => Eol::OnlyZeros,
        Some(zeros) => {
            if zeros < 11 {
                Eol::Absent
            } else {
                Eol::Present(zeros + 1)
            }
        }
    }
}

/// Passes the EOLs that come after these, five at most beside the first one, which ends at this place; and the 0 bits after them, if nothing
/// else comes.
fn pass_eols(octets: &[u8], order: Order, place: u128, before: EolsBefore) -> EolsBefore
    requires place { place ≤ 8 * length octets.now }
    requires eols { AreEolsPassed (drop place (bits_of order octets.now)) before }
    ensures eols { AreEolsPassed (drop place (bits_of order octets.now)) result }
    ensures all { result.at ≡ bits_of_five (drop place (bits_of order octets.now)) }
{
    let mut eols = before;
    while eols.count < 5 {
        match eol_after(octets, order, place + eols.at, eols.zeros) {
            Eol::Present(bits) => {
                eols = EolsBefore {
                    at: eols.at + bits,
                    count: eols.count + 1,
                    zeros: 0,
                };
            }
            Eol::Absent => return eols,
            Eol::OnlyZeros => {
                let left = 8 * octets.len() as u128 - (place + eols.at);
                return EolsBefore {
                    zeros: left,
                    ..eols
                };
            }
        }
    }
    eols
}

/// What is found after an EOL at a row's place.
fn start_after_eol(
    octets: &[u8],
    order: Order,
    to: &RowPlace,
    bits: u128,
    passed: &mut PassedRow,
) -> Start
    requires within { to.now.at ≤ 8 * length octets.now }
    requires eol { SeesEol (drop to.now.at (bits_of order octets.now)) (Eol.Present bits) }
    requires passed { IsPassedRow to.now.width to.now.rows (drop to.now.at (bits_of order octets.now)) passed.old }
    ensures sees { SeesStart (bits_of order octets.now) (to.now.at + bits) to.now.rows result }
    ensures passed { IsPassedRow to.now.width to.now.rows (drop to.now.at (bits_of order octets.now)) passed.new }
{
    let place = to.at + bits;
    let zeros = bits - 1;
    let eols = pass_eols(octets, order, place, passed.eols_after(zeros));
    passed.zeros = zeros;
    passed.eols = eols;
    if eols.count == 0 {
        let eol = eol_after(octets, order, place, eols.zeros);
        return start_by(octets, order, place, to.rows, eol);
    }
    if to.rows == 0 {
        return Start::Refused(CodeFault::new(place, CodeFaultKind::NoRows));
    }
    Start::End(place + eols.at)
}

/// What is found after these rows: the next row's first code, the page's end or a refusal. Keeps how many 0 bits were passed.
fn start_after(octets: &[u8], order: Order, to: &RowPlace, passed: &mut PassedRow) -> Start
    requires within { to.now.at ≤ 8 * length octets.now }
    requires few { to.now.rows ≤ max_rows }
    requires passed { IsPassedRow to.now.width to.now.rows (drop to.now.at (bits_of order octets.now)) passed.old }
    ensures finds { FindsStart (bits_of order octets.now) to.now.at to.now.rows result }
    ensures within { IsStartWithin to.now.at (8 * length octets.now) to.now.rows result }
    ensures passed { IsPassedRow to.now.width to.now.rows (drop to.now.at (bits_of order octets.now)) passed.new }
{
    if to.rows < MAX_ROWS {
        if let Some(bits) = quick_eol(octets, order, to.at) {
            return Start::Row(to.at + bits as u128);
        }
    }
    match eol_after(octets, order, to.at, passed.zeros) {
        Eol::Present(bits) => start_after_eol(octets, order, to, bits, passed),
        Eol::Absent => {
            if to.rows == 0 {
                Start::Row(to.at)
            } else {
                Start::Refused(CodeFault::new(to.at, CodeFaultKind::BadCode))
            }
        }
        Eol::OnlyZeros => {
            passed.zeros = 8 * octets.len() as u128 - to.at;
            passed.eols = NO_EOLS;
            if to.rows == 0 {
                Start::Refused(CodeFault::new(to.at, CodeFaultKind::NoRows))
            } else {
                Start::End(to.at)
            }
        }
    }
}

/// Passes the whole runs that come after these, and returns the place after them and the refusal of the row; none if the row ends there.
fn pass_runs(
    octets: &[u8],
    order: Order,
    to: &RowPlace,
    before: RunsBefore,
) -> Option<(RunsBefore, CodeFault)>
    requires within { to.now.at ≤ 8 * length octets.now }
    requires few { to.now.rows ≤ max_rows }
    requires width { IsWidth to.now.width }
    requires runs { AreRunsPassed to.now.width to.now.rows (drop to.now.at (bits_of order octets.now)) before }
    ensures passed { IfSome result (λ passed. AreRunsPassed to.now.width to.now.rows (drop to.now.at (bits_of order octets.now)) passed.0) }
    ensures refused { IfSome result (λ passed. IsFoundRefused (bits_of order octets.now) to.now passed.1) }
{
    let mut passed = before;
    let mut reader = BitReader::at(octets, order, to.at + passed.at);
    loop {
        match reader.read_run_within(passed.color, passed.left, CodeFaultKind::RunTooLong) {
            Ok(run) => {
                if run == passed.left {
                    return None;
                }
                passed = RunsBefore {
                    at: reader.place() - to.at,
                    color: passed.color.other(),
                    left: passed.left - run,
                };
            }
            Err(fault) => return Some((passed, fault)),
        }
    }
}

/// Reads the row whose first code is at a place, in the memory of a list.
fn read_row_there(
    alloc: Global,
    octets: &[u8],
    order: Order,
    place: u128,
    to: &mut RowPlace,
    list: &mut Vec<u32>,
) -> Result<NextRow, AllocError>
    requires within { place ≤ 8 * length octets.now }
    requires room { to.old.rows < max_rows }
    requires width { IsWidth to.old.width }
    ensures { ReadsRowThere (bits_of order octets.now) place to.old to.new result }
{
    let mut reader = BitReader::at(octets, order, place);
    match reader.read_row_1d_in(alloc, to.width, list) {
        Ok(row) => {
            to.rows += 1;
            to.at = reader.place();
            Ok(NextRow::Row(row))
        }
        Err(fault) => refused(fault),
    }
}

/// As `next_row`, of a row that isn't known to be open.
fn read_new_row(
    alloc: Global,
    octets: &[u8],
    order: Order,
    to: &mut RowPlace,
    list: &mut Vec<u32>,
    passed: &mut PassedRow,
) -> Result<NextRow, AllocError>
    requires within { to.old.at ≤ 8 * length octets.now }
    requires few { to.old.rows ≤ max_rows }
    requires width { IsWidth to.old.width }
    requires passed { IsPassedRow to.old.width to.old.rows (drop to.old.at (bits_of order octets.now)) passed.old }
    ensures finds { (before : List Color) → FindsNext Coding.OneDim (bits_of order octets.now) to.old to.new before before result }
    ensures passed { IsPassedRow to.old.width to.old.rows (drop to.old.at (bits_of order octets.now)) passed.new }
{
    match start_after(octets, order, to, passed) {
        Start::Row(place) => {
            // a row is most often whole with the next octets, and is passed only if it isn't
            if passed.tried {
                passed.runs = Some(RunsBefore {
                    at: place - to.at,
                    color: Color::White,
                    left: to.width,
                });
            }
            passed.tried = true;
            read_row_there(alloc, octets, order, place, to, list)
        }
        Start::End(used) => Ok(NextRow::End(used)),
        Start::Refused(fault) => Ok(NextRow::Refused(fault)),
    }
}

/// The next row, the page's end or a refusal, counted from the beginning of the octets. Keeps what was passed of a row that isn't whole.
pub(crate) fn next_row(
    alloc: Global,
    octets: &[u8],
    order: Order,
    to: &mut RowPlace,
    list: &mut Vec<u32>,
    passed: &mut PassedRow,
) -> Result<NextRow, AllocError>
    requires within { to.old.at ≤ 8 * length octets.now }
    requires few { to.old.rows ≤ max_rows }
    requires width { IsWidth to.old.width }
    requires passed { IsPassedRow to.old.width to.old.rows (drop to.old.at (bits_of order octets.now)) passed.old }
    ensures finds { (before : List Color) → FindsNext Coding.OneDim (bits_of order octets.now) to.old to.new before before result }
    ensures passed { IsPassedRow to.old.width to.old.rows (drop to.old.at (bits_of order octets.now)) passed.new }
{
    if let Some(runs) = passed.runs {
        if let Some((more, fault)) = pass_runs(octets, order, to, runs) {
            passed.runs = Some(more);
            return Ok(NextRow::Refused(fault));
        }
    }
    read_new_row(alloc, octets, order, to, list, passed)
}

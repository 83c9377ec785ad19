//! Reading of a page row by row from octets that come in pieces, in memory that doesn't grow with its rows.

ghost use Rattle.page_code.specs.PassedRows.{IsPassedRow};
ghost use Rattle.page_code.specs.TwoDimensions.OpenLines.{AreOpenLines};
ghost use Rattle.page_code.specs.RowReaders.{BeginsReading, FindsNext, IsRefusal, ReadsNext, TakesOctets, max_held};
ghost use Rattle.raster.specs.Packed.{bits_of};
ghost use Rattle.raster.specs.Pages.{max_rows};
ghost use Rattle.raster.specs.Pixels.{IsWidth};
ghost use Rattle.std.specs.Prelude.{◌≡◌, ◌≤◌, ◌*◌, ◌++◌, IfOk, OnOk, OnErr, drop, length};

use crate::passed_row::PassedRow;
use crate::t6::lines::Lines;
use crate::t6::read::one_row::OpenLines;
use crate::{one_dim, t6};
use raster::packed::Order;
use raster::{Coding, Row};
use run_tables::CodeFault;
use std::alloc::{AllocError, Global};
use std::marker::Model;

/// The most octets that a `RowReader` holds: 65,536. A row of T.6 has 5,800 or so at most; in one dimension
/// fill before an EOL and runs of 0 pixels have no end. At 33,600 bit/s 65,536 octets are 15 seconds of fill.
pub const MAX_HELD: usize = 65_536;

/// What the octets of a page so far give after the rows that were given.
#[derive(Debug, Drop)]
pub enum NextRow {
    /// The next row.
    Row(Row),
    /// The page's end, and the number of bits that the page uses.
    End(u128),
    /// No whole row and no end: the bit, from 0 at the page's beginning, at which the octets so far are
    /// refused, and why.
    Refused(CodeFault),
}

/// A place where a row is looked for: the rows' width in pixels, the number of rows before it, and the place
/// in the bits at hand.
#[derive(Clone, Copy, Debug, PartialEq, Eq)]
pub(crate) struct RowPlace {
    pub(crate) width: u32,
    pub(crate) rows: usize,
    pub(crate) at: u128,
}

/// The result for a refused row, or for refused memory.
pub(crate) fn refused(fault: CodeFault) -> Result<NextRow, AllocError>
    ensures { IsRefusal fault result }
{
    if fault.is_memory() {
        Err(AllocError)
    } else {
        Ok(NextRow::Refused(fault))
    }
}

/// What a row is read with: the runs of one dimension, the lines of T.6, and what was passed of the row.
#[derive(Drop)]
struct Lists {
    runs: Vec<u32>,
    begun: OpenLines,
    passed: PassedRow,
}

/// The next row, the page's end or a refusal, counted from the beginning of the bits at hand.
fn find_next(
    alloc: Global,
    coding: Coding,
    octets: &[u8],
    order: Order,
    to: &mut RowPlace,
    lists: &mut Lists,
) -> Result<NextRow, AllocError>
    requires within { to.old.at ≤ 8 * length octets.now }
    requires few { to.old.rows ≤ max_rows }
    requires width { IsWidth to.old.width }
    requires passed { IsPassedRow to.old.width to.old.rows (drop to.old.at (bits_of order octets.now)) lists.old.passed }
    requires begun { AreOpenLines (drop to.old.at (bits_of order octets.now)) lists.old.begun }
    ensures passed { IsPassedRow to.old.width to.old.rows (drop to.old.at (bits_of order octets.now)) lists.new.passed }
    ensures begun { AreOpenLines (drop to.old.at (bits_of order octets.now)) lists.new.begun }
    ensures finds { FindsNext coding (bits_of order octets.now) to.old to.new lists.old.begun.lines.reference lists.new.begun.lines.reference result }
{
    match coding {
        Coding::OneDim => one_dim::one_row::next_row(
            alloc,
            octets,
            order,
            to,
            &mut lists.runs,
            &mut lists.passed,
        ),
        Coding::T6 => t6::read::one_row::next_row(
            alloc,
            octets,
            order,
            to,
            &mut lists.begun,
            &mut lists.passed,
        ),
    }
}

/// Appends octets to those that are left after the first `gone`, and returns how many before these are still there. Errs if memory is
/// refused, which leaves the octets as they were. Those that are gone are removed when the others are no more than they are, so that no
/// octet is moved more than once for each that is given up.
fn append(
    alloc: Global,
    held: &mut Vec<u8>,
    gone: usize,
    octets: &[u8],
) -> Result<usize, AllocError>
    requires { gone ≤ length held.old.items }
    ensures within { IfOk result (λ now. now ≤ length held.new.items) }
    ensures joined { IfOk result (λ now. drop now held.new.items ≡ drop gone held.old.items ++ octets.now) }
    ensures same { OnErr result (held.new.items ≡ held.old.items) }
{
    if gone < held.len() - gone {
        held.extend_from_slice(octets)?;
        return Ok(gone);
    }
    let mut left = Vec::new(alloc);
    left.extend_from_slice(&held[gone..])?;
    left.extend_from_slice(octets)?;
    *held = left;
    Ok(0)
}

/// Reads a page row by row from octets that come in pieces. It holds the row before the next one and the
/// octets that weren't read yet, 65,536 at most, whatever the page has; and as many at most that were read.
#[derive(Drop)]
pub struct RowReader {
    alloc: Global,
    coding: Coding,
    order: Order,
    place: RowPlace,
    start: u128,
    held: Vec<u8>,
    /// The number of octets at the beginning of `held` that were given up and aren't removed yet.
    gone: usize,
    lists: Lists,
}

impl Model for RowReader {
    ghost use Rattle.page_code.specs.RowReaders.{RowReading, max_held};
    ghost use Rattle.raster.specs.Pages.{max_rows};
    ghost use Rattle.raster.specs.Pixels.{IsWidth};
    ghost use Rattle.page_code.specs.PassedRows.{IsPassedRow};
    ghost use Rattle.page_code.specs.TwoDimensions.OpenLines.{AreOpenLines};
    ghost use Rattle.raster.specs.Packed.{bits_of};
    ghost use Rattle.std.specs.Prelude.{◌≤◌, ◌*◌, ◌+◌, drop, length};

    ghost Value = { RowReading };

    ghost view = { λ reader. record {
      coding = reader.coding;
      order = reader.order;
      width = reader.place.width;
      count = reader.place.rows;
      before = reader.lists.begun.lines.reference;
      start = reader.start;
      held = drop reader.gone reader.held.items;
      at = reader.place.at;
    } };

    ghost invariant = { λ reader. record {
      width : IsWidth reader.place.width;
      rows : reader.place.rows ≤ max_rows;
      gone : reader.gone ≤ length reader.held.items;
      within : reader.place.at ≤ 8 * length (drop reader.gone reader.held.items);
      few : length (drop reader.gone reader.held.items) ≤ max_held;
      start : reader.start + reader.place.at ≤ reader.place.rows * (8 * max_held);
      passed : IsPassedRow reader.place.width reader.place.rows
          (drop reader.place.at (bits_of reader.order (drop reader.gone reader.held.items))) reader.lists.passed;
      begun : AreOpenLines (drop reader.place.at (bits_of reader.order (drop reader.gone reader.held.items))) reader.lists.begun;
    } };
}

impl RowReader {
    /// Makes a reader of a page in this code, order of bits and width in pixels, 1 to 2,432, that has taken
    /// no octets. Errs if memory is refused.
    pub fn new(
        alloc: Global,
        coding: Coding,
        order: Order,
        width: u32,
    ) -> Result<RowReader, AllocError>
        requires { IsWidth width }
        ensures { IfOk result (λ reader. BeginsReading coding order width reader) }
    {
        let white = Row::from_valid_runs(alloc, &[width])?;
        let lists = Lists {
            runs: Vec::new(alloc),
            begun: OpenLines {
                lines: Lines::after(alloc, &white.lent())?,
                used: 0,
            },
            passed: PassedRow::none(),
        };
        Ok(RowReader {
            alloc,
            coding,
            order,
            place: RowPlace {
                width,
                rows: 0,
                at: 0,
            },
            start: 0,
            held: Vec::new(alloc),
            gone: 0,
            lists,
        })
    }

    /// The width of the page's rows in pixels.
    pub fn width(&self) -> u32
        ensures width { result ≡ self.now.width }
        ensures range { IsWidth result }
    {
        self.place.width
    }

    /// The number of rows given so far, 20,000 at most.
    pub fn rows(&self) -> usize
        ensures { result ≡ self.now.count }
    {
        self.place.rows // so far
    }

    /// The number of octets held, 65,536 at most.
    pub fn held(&self) -> usize
        ensures held { result ≡ length self.now.held }
        ensures few { result ≤ max_held }
    {
        self.held.len() - self.gone
    }

    /// Takes the next octets of the page, as many as there is room for, and returns how many. Octets whose
    /// bits were read are dropped first. Errs if memory is refused, which changes nothing.
    pub fn push_octets(&mut self, octets: &[u8]) -> Result<usize, AllocError>
        ensures takes { IfOk result (λ count. TakesOctets self.old octets.now count self.new) }
        ensures same { OnErr result (self.new ≡ self.old) }
    {
        let up = (self.place.at / 8) as usize;
        let gone = self.gone + up;
        let room = MAX_HELD - (self.held.len() - gone);
        let count = if octets.len() < room {
            octets.len()
        } else {
            room
        };
        self.gone = append(self.alloc, &mut self.held, gone, &octets[..count])?;
        self.place.at %= 8;
        self.start += 8 * up as u128;
        Ok(count)
    }

    /// Returns the next row that is whole in the octets so far; if there is none, the page's end or a
    /// refusal, as `Coding::decode` returns for all octets so far. More octets may change these two, and
    /// asking again loses nothing. A row that isn't whole in 65,536 octets is refused, and `push_octets`
    /// takes no more. Errs if memory is refused, which changes nothing.
    pub fn next_row(&mut self) -> Result<NextRow, AllocError>
        ensures { ReadsNext self.old self.new result }
    {
        let mut to = self.place;
        let found = find_next(
            self.alloc,
            self.coding,
            &self.held[self.gone..],
            self.order,
            &mut to,
            &mut self.lists,
        )?;
        match found {
            NextRow::Row(row) => {
                self.place = to;
                self.lists.passed = PassedRow::none();
                self.lists.begun.used = 0;
                Ok(NextRow::Row(row))
            }
            NextRow::End(used) => Ok(NextRow::End(self.start + used)),
            NextRow::Refused(fault) => Ok(NextRow::Refused(CodeFault::new(
                self.start + fault.place,
                fault.kind,
            ))),
        }
    }
}

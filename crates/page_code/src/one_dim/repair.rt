//! Pages with rows that can't be read: each is given as the row before it (ITU-T T.4, 4.1).

ghost use Rattle.page_code.specs.OneDimension.Repairs.{EndsInBlack, EndsPage, IsFirstLine, IsSkipped};
ghost use Rattle.page_code.specs.OneDimension.Repairing.{FindsEnd, FindsLine, FindsRowEnd, GivesLast, GivesLine, RepairsLines};
ghost use Rattle.raster.specs.Packed.{bits_of};
ghost use Rattle.raster.specs.Pages.{max_rows};
ghost use Rattle.raster.specs.Pixels.{IsWidth};
ghost use Rattle.raster.specs.declared.row.Color.{Color};
ghost use Rattle.run_tables.specs.declared.fault.CodeFaultKind.TheVariants.{NoMemory};
ghost use Rattle.std.specs.Prelude.{◌≡◌, ◌≢◌, ◌⊎◌, ◌≤◌, ◌<◌, ◌+◌, ◌*◌, [], ℕ, List};
ghost use Rattle.std.specs.Prelude.{IfErr, IfOk, IsFalse, IsTrue, MatchResult, OnOk, drop, length};

use crate::coding::PageCode;
use crate::one_dim::OneDim;
use crate::one_dim::eol::{Eol, eol_at, zeros_from};
use crate::page::{push_row, push_white};
use raster::packed::Order;
use raster::{Color, MAX_ROWS, Page, Row};
use run_tables::{BitReader, CodeFault, CodeFaultKind};
use std::alloc::{AllocError, Global};

/// The code of a white run of 0 pixels (T.4, table 2): 8 bits.
const WHITE_0: u32 = 0b0011_0101;

/// A row that can't be read, in place of which the one before it is given.
#[derive(Clone, Copy, Debug, PartialEq, Eq)]
pub struct RepairedRow {
    /// The row's number, from 1 at the top.
    pub row: usize,
    /// The bit, from 0, at which it can't be read.
    pub bit: u128,
}

/// A page, and which of its rows are repaired.
#[derive(Debug, Drop)]
pub struct RepairedPage {
    /// The page.
    pub page: Page,
    /// Its repaired rows, from the top.
    pub repaired: Vec<RepairedRow>,
}

/// What was found of a line.
#[derive(Drop)]
enum Found {
    /// A row, and the place of the next line.
    Read(Row, u128),
    /// The bit at which its row can't be read.
    Broken(u128),
}

/// The rows given so far, and the place of the next line.
#[derive(Drop)]
struct Lines {
    page: Page,
    repaired: Vec<RepairedRow>,
    place: u128,
}

/// The place after a line's end, at a place after its row, if the line ends there.
fn line_end(octets: &[u8], order: Order, place: u128) -> Option<u128>
    requires { place ≤ 8 * length octets.now }
    ensures { FindsEnd (bits_of order octets.now) place result }
{
    let Some(zeros) = zeros_from(octets, order, place) else {
        return Some(place);
    };
    let after = place + zeros + 1;
    if zeros >= 11 {
        return Some(after);
    }
    let Some(more) = zeros_from(octets, order, after) else {
        return None;
    };
    if zeros + more < 10 {
        return None;
    }
    Some(after + more + 1)
}

/// Whether a row's last pixel is black.
fn ends_in_black(row: &Row) -> bool
    ensures black { IsTrue result → EndsInBlack row.now }
    ensures other { IsFalse result → ¬ EndsInBlack row.now }
{
    row.pixel(row.width() - 1) == Color::Black
}

/// The place after a line's end, at a place after this row, if the line ends there: at once, or after a white
/// run of 0 pixels, which some programs write after a row that ends in black.
fn row_end(octets: &[u8], order: Order, row: &Row, place: u128) -> Option<u128>
    requires { place ≤ 8 * length octets.now }
    ensures { FindsRowEnd row.now (bits_of order octets.now) place result }
{
    if let Some(next) = line_end(octets, order, place) {
        return Some(next);
    }
    let has_white = BitReader::at(octets, order, place).starts_with(WHITE_0, 8);
    if has_white && ends_in_black(row) {
        line_end(octets, order, place + 8)
    } else {
        None
    }
}

/// The place after the first EOL from a place on, or after all bits if there is no EOL.
fn after_eol(octets: &[u8], order: Order, place: u128) -> u128
    requires { place ≤ 8 * length octets.now }
    ensures skipped { (more : ℕ) × IsSkipped (drop place (bits_of order octets.now)) more × (result ≡ place + more) }
    ensures within { result ≤ 8 * length octets.now }
{
    let mut at = place;
    loop {
        match zeros_from(octets, order, at) {
            None => return 8 * octets.len() as u128,
            Some(zeros) => {
                if zeros >= 11 {
                    return at + zeros + 1;
                }
                at += zeros + 1;
            }
        }
    }
}

/// The place of the first line.
fn first_line(octets: &[u8], order: Order) -> u128
    ensures first { IsFirstLine (bits_of order octets.now) result }
    ensures within { result ≤ 8 * length octets.now }
{
    match eol_at(octets, order, 0) {
        Eol::Present(bits) => bits,
        Eol::Absent | Eol::OnlyZeros => 0,
    }
}

/// Whether a line begins at a place: the page doesn't end there.
fn line_begins(octets: &[u8], order: Order, place: u128) -> bool
    requires { place ≤ 8 * length octets.now }
    ensures begins { IsTrue result → ¬ EndsPage (drop place (bits_of order octets.now)) }
    ensures ends { IsFalse result → EndsPage (drop place (bits_of order octets.now)) }
{
    match eol_at(octets, order, place) {
        Eol::Absent => true,
        Eol::Present(_) | Eol::OnlyZeros => false,
    }
}

/// Reads the line at a place.
fn find_line(
    alloc: Global,
    octets: &[u8],
    order: Order,
    place: u128,
    width: u32,
) -> Result<Found, AllocError>
    requires within { place ≤ 8 * length octets.now }
    requires width { IsWidth width }
    ensures { IfOk result (FindsLine width (bits_of order octets.now) place) }
{
    let mut reader = BitReader::at(octets, order, place);
    match reader.read_row_1d(alloc, width) {
        Ok(row) => {
            let end = reader.place();
            match row_end(octets, order, &row, end) {
                Some(next) => Ok(Found::Read(row, next)),
                None => Ok(Found::Broken(end)),
            }
        }
        Err(fault) => {
            if fault.is_memory() {
                Err(AllocError)
            } else {
                Ok(Found::Broken(fault.place))
            }
        }
    }
}

/// Gives the last row once more, or a white one before the first, where there is room for one. Errs only if memory is refused.
fn give_last(page: &mut Page) -> Result<(), AllocError>
    requires { length page.old.rows < max_rows }
    ensures { OnOk result (GivesLast page.old page.new) }
{
    let count = page.rows().len();
    if count == 0 {
        return push_white(page);
    }
    page.push_again(count - 1)
}

/// Gives a row for the line after the rows so far. Errs only if memory is refused.
fn give_line(alloc: Global, octets: &[u8], order: Order, to: &mut Lines) -> Result<(), AllocError>
    requires within { to.old.place ≤ 8 * length octets.now }
    requires line { ¬ EndsPage (drop to.old.place (bits_of order octets.now)) }
    requires width { IsWidth to.old.page.width }
    requires room { length to.old.page.rows < max_rows }
    ensures { OnOk result (GivesLine (bits_of order octets.now) to.old to.new) }
{
    match find_line(alloc, octets, order, to.place, to.page.width())? {
        Found::Read(row, next) => {
            push_row(&mut to.page, row)?;
            to.place = next;
        }
        Found::Broken(bit) => {
            give_last(&mut to.page)?;
            let number = to.page.rows().len();
            to.repaired.push(RepairedRow { row: number, bit })?;
            to.place = after_eol(octets, order, to.place);
        }
    }
    Ok(())
}

/// The page that the lines give, and which of its rows are repaired.
fn give_lines(
    alloc: Global,
    octets: &[u8],
    order: Order,
    width: u32,
    fine: bool,
) -> Result<RepairedPage, CodeFault>
    requires { IsWidth width }
    ensures { RepairsLines width fine (bits_of order octets.now) result }
{
    let mut to = Lines {
        page: Page::new(alloc, width, fine).unwrap(),
        repaired: Vec::new(alloc),
        place: first_line(octets, order),
    };
    while line_begins(octets, order, to.place) {
        if to.page.rows().len() == MAX_ROWS {
            return Err(CodeFault::new(to.place, CodeFaultKind::TooManyCodedRows));
        }
        give_line(alloc, octets, order, &mut to)?;
    }
    Ok(RepairedPage {
        page: to.page,
        repaired: to.repaired,
    })
}

impl OneDim {
    ghost use Rattle.page_code.specs.OneDimension.Pages.{ReadsAs};
    ghost use Rattle.page_code.specs.OneDimension.Repairs.{HasMoreLines, HasNoRow, IsRepair};

    /// Reads a page of this width in pixels from the lines that the octets' bits begin with, as a receiver
    /// without error correction does: a row that can't be read is given as the one before it, white for the
    /// first, and reading goes on after the next EOL. Returns the page and its repaired rows, each with its
    /// number and the bit at which it can't be read. A page that can be read is returned with no row
    /// repaired. Errs if no row can be read, at the bit and with the kind of `decode`; with
    /// `TooManyCodedRows` (18) at a 20,001st line; and with `NoMemory` (9), at bit 0.
    pub fn repair(
        alloc: Global,
        octets: &[u8],
        order: Order,
        width: u32,
        fine: bool,
    ) -> Result<RepairedPage, CodeFault>
        requires { IsWidth width }
        ensures width { IfOk result (λ answer. answer.page.width ≡ width) }
        ensures fine { IfOk result (λ answer. answer.page.fine ≡ fine) }
        ensures rows { IfOk result (λ answer. IsRepair width (bits_of order octets.now) answer.page.rows answer.repaired.items) }
        ensures some { IfOk result (λ answer. length answer.repaired.items < length answer.page.rows) }
        ensures whole { (rows : List (List Color)) (used : ℕ) → ReadsAs width (bits_of order octets.now) rows used
            → MatchResult result (λ answer. (answer.page.rows ≡ rows) × (answer.repaired.items ≡ [])) (λ fault. fault.kind ≡ NoMemory) }
        ensures refuses { IfErr result (λ fault. fault.kind ≢ NoMemory
            → HasNoRow width (bits_of order octets.now) fault ⊎ HasMoreLines width (bits_of order octets.now) fault) }
        ensures memory { IfErr result (λ fault. fault.kind ≡ NoMemory → fault.place ≡ 0) }
    {
        let given = match give_lines(alloc, octets, order, width, fine) {
            Ok(given) => given,
            Err(fault) => return Err(fault.begun_at(0)),
        };
        if given.repaired.len() < given.page.rows().len() {
            return Ok(given);
        }
        match OneDim::decode(alloc, octets, order, width, fine) {
            Ok(_) => unreachable!(),
            Err(fault) => Err(fault),
        }
    }
}

//! Pages in the one-dimensional code (ITU-T T.4, 4.1).

ghost use Rattle.page_code.specs.OneDimension.Fronts.{read_page as read_bits};
ghost use Rattle.page_code.specs.OneDimension.Pages.{eol_word, row_words, rows_words, eol_words, page_words, rtc};
ghost use Rattle.page_code.specs.OneDimension.Reading.{FindsRow, ReadsRowOfPage, SeesEol, SeesStart};
ghost use Rattle.page_code.specs.RowsSoFar.{IsReadTo, ReadsOn};
ghost use Rattle.raster.specs.Packed.{Bits, bits_of};
ghost use Rattle.raster.specs.Pages.{max_rows};
ghost use Rattle.raster.specs.Pixels.{IsWidth};
ghost use Rattle.raster.specs.declared.row.Color.{Color};
ghost use Rattle.run_tables.specs.Written.{Appends, KeepsBits};
ghost use Rattle.std.specs.Prelude.{◌≡◌, ◌≤◌, ◌<◌, ◌+◌, ◌*◌, ◌++◌, ◌∷◌, [], ℕ, List, drop, length, OnErr, OnOk, All};

pub(crate) mod eol;
pub(crate) mod one_row;
pub(crate) mod open_row;
pub(crate) mod repair;
pub(crate) mod white_rows;

use crate::coding::{PageCode, decode_in, encode_in};
use crate::one_dim::eol::{Eol, after_five_eols, eol_at, quick_eol};
use crate::one_dim::white_rows::{WhiteRow, white_rows};
use crate::page::Progress;
use crate::turned::{code_of, turned_code};
use raster::packed::Order;
use raster::{Coding, MAX_ROWS, Page, Painter, RowRef, Rows};
use run_tables::{BitReader, BitWriter, CodeFault, CodeFaultKind};
use std::alloc::{AllocError, Global};

/// The one-dimensional code of ITU-T T.4, 4.1. A page is written as EOL, the rows by their own runs with one
/// EOL between two, and six EOLs. It is read as no EOL or one, rows with one EOL between two, any EOL with
/// fill before it, and an end. Refusals are `NoRows`, `Truncated`, `BadCode`, `RunTooLong` and
/// `TooManyCodedRows`.
#[derive(Clone, Copy, Debug, PartialEq, Eq)]
pub struct OneDim;

/// What is found at a place where a row may begin.
enum Start {
    /// A row, at this place.
    Row(u128),
    /// The page's end, and the number of bits used.
    End(u128),
    /// Nothing valid.
    Refused(CodeFault),
}

/// What is found at a place after an EOL, after `rows` rows, where this is found of an EOL.
fn start_by(octets: &[u8], order: Order, place: u128, rows: usize, eol: Eol) -> Start
    requires within { place ≤ 8 * length octets.now }
    requires eol { SeesEol (drop place (bits_of order octets.now)) eol }
    ensures { SeesStart (bits_of order octets.now) place rows result }
{
    // other software ends a page with no EOL or one (then only 0 bits may follow) or with two to six; a seventh is left unread
    match eol {
        Eol::Absent => {
            if rows < MAX_ROWS {
                Start::Row(place)
            } else {
                Start::Refused(CodeFault::new(place, CodeFaultKind::TooManyCodedRows))
            }
        }
        Eol::OnlyZeros => {
            // `NoRows` only before the first row: inside it the bits are `Truncated` or `BadCode`
            if rows == 0 {
                Start::Refused(CodeFault::new(place, CodeFaultKind::NoRows))
            } else {
                Start::End(place)
            }
        }
        Eol::Present(_) => {
            if rows == 0 {
                Start::Refused(CodeFault::new(place, CodeFaultKind::NoRows))
            } else {
                Start::End(after_five_eols(octets, order, place))
            }
        }
    }
}

/// What is found at a place after an EOL, after `rows` rows.
fn start_at(octets: &[u8], order: Order, place: u128, rows: usize) -> Start
    requires { place ≤ 8 * length octets.now }
    ensures { SeesStart (bits_of order octets.now) place rows result }
{
    let eol = eol_at(octets, order, place);
    start_by(octets, order, place, rows, eol)
}

/// What is found after the rows read so far: the first row begins at the page's beginning or after one EOL,
/// each later one after one EOL.
fn next_row(octets: &[u8], order: Order, to: &Progress) -> Start
    requires { to.now.place ≤ 8 * length octets.now }
    ensures finds { FindsRow (bits_of order octets.now) to.now.page.width to.now.page.rows to.now.place result }
    ensures few { length to.now.page.rows ≤ max_rows }
{
    let rows = to.page.rows().len();
    if rows < MAX_ROWS {
        if let Some(bits) = quick_eol(octets, order, to.place) {
            return Start::Row(to.place + bits as u128);
        }
    }
    match eol_at(octets, order, to.place) {
        Eol::Present(bits) => start_at(octets, order, to.place + bits, rows),
        Eol::Absent => {
            if rows == 0 {
                Start::Row(to.place)
            } else {
                Start::Refused(CodeFault::new(to.place, CodeFaultKind::BadCode))
            }
        }
        Eol::OnlyZeros => {
            if rows == 0 {
                Start::Refused(CodeFault::new(to.place, CodeFaultKind::NoRows))
            } else {
                Start::End(to.place)
            }
        }
    }
}

/// Where a row may begin: the octets, their order of bits, and the place in these.
#[derive(Clone, Copy)]
struct RowBegin<'a> {
    octets: &'a [u8],
    order: Order,
    place: u128,
}

impl<'a> RowBegin<'a> {
    /// A reader that begins there.
    #[inline(always)]
    fn reader(self) -> BitReader<'a>
        requires { self.place ≤ 8 * length self.octets.now }
        ensures { result ≡ record { bits = bits_of self.entry.order self.entry.octets.now; place = self.entry.place } }
    {
        BitReader::at(self.octets, self.order, self.place)
    }
}

/// Reads the row that comes next onto the page, in the memory of a list and of a painter of the page's width. A row that can't be read
/// quickly is read again, by a reader made anew: one that is kept meanwhile takes registers from the quick one.
fn read_row(
    alloc: Global,
    at: RowBegin<'_>,
    list: &mut Vec<u32>,
    painter: &mut Painter,
    to: &mut Progress,
) -> Result<(), CodeFault>
    requires within { at.place ≤ 8 * length at.octets.now }
    requires room { length to.old.page.rows < max_rows }
    requires width { IsWidth to.old.page.width }
    requires wide { painter.old.width ≡ to.old.page.width }
    requires octets { painter.old.width + 64 ≤ 8 * length painter.old.octets.items }
    ensures row { ReadsRowOfPage (bits_of at.entry.order at.entry.octets.now) at.entry.place to.old to.new result }
    ensures wide { painter.new.width ≡ painter.old.width }
    ensures octets { painter.new.width + 64 ≤ 8 * length painter.new.octets.items }
{
    let quick = at.reader();
    if let Some(after) = quick.quick_row_onto(&mut to.page, painter)? {
        to.place = after.place();
        return Ok(());
    }
    read_row_by_runs(alloc, at.reader(), list, to)
}

/// Reads the row that comes next onto the page by its runs, in the memory of a list.
#[cold]
#[inline(never)]
fn read_row_by_runs(
    alloc: Global,
    mut reader: BitReader<'_>,
    list: &mut Vec<u32>,
    to: &mut Progress,
) -> Result<(), CodeFault>
    requires room { length to.old.page.rows < max_rows }
    requires width { IsWidth to.old.page.width }
    ensures { ReadsRowOfPage reader.entry.bits reader.entry.place to.old to.new result }
{
    let row = reader.read_row_1d_in(alloc, to.page.width(), list)?;
    match to.page.push_row(row) {
        Ok(()) => {
            to.place = reader.place();
            Ok(())
        }
        Err(_) => Err(CodeFault::from(AllocError)),
    }
}

/// Reads on in the order of the octets, as `read_on`.
#[inline(never)]
fn read_in_order(
    alloc: Global,
    octets: &[u8],
    order: Order,
    to: &mut Progress,
) -> Result<u128, CodeFault>
    requires width { IsWidth to.old.page.width }
    requires read { IsReadTo Coding.OneDim to.old.page.width (bits_of order octets.now) to.old.page.rows to.old.place }
    ensures { ReadsOn Coding.OneDim (bits_of order octets.now) to.old to.new result }
{
    let mut list = Vec::new(alloc);
    let mut painter = Painter::begin(alloc, to.page.width())?;
    let white = WhiteRow::of(to.page.width());
    loop {
        match next_row(octets, order, to) {
            Start::Row(place) => {
                let at = RowBegin {
                    octets,
                    order,
                    place,
                };
                read_row(alloc, at, &mut list, &mut painter, to)?;
                white_rows(white, place, octets, order, to)?;
            }
            Start::End(used) => return Ok(used),
            Start::Refused(fault) => return Err(fault),
        }
    }
}

/// Reads on from the rows read so far to the page's end, and returns how many bits the page uses. After an
/// error the rows before it were read. If the least significant bit comes first, the octets are turned once,
/// so that no word of them is.
pub(crate) fn read_on(
    alloc: Global,
    octets: &[u8],
    order: Order,
    to: &mut Progress,
) -> Result<u128, CodeFault>
    requires width { IsWidth to.old.page.width }
    requires read { IsReadTo Coding.OneDim to.old.page.width (bits_of order octets.now) to.old.page.rows to.old.place }
    ensures { ReadsOn Coding.OneDim (bits_of order octets.now) to.old to.new result }
{
    let turned = turned_code(alloc, octets, order, Vec::new(alloc))?;
    let (code, first) = code_of(octets, order, &turned);
    read_in_order(alloc, code, first, to)
}

/// Writes the return to control: six EOLs (ITU-T T.4, 4.1.4).
pub(crate) fn write_rtc(bits: &mut BitWriter) -> Result<(), AllocError>
    ensures ok { OnOk result (Appends (eol_words rtc) bits.old bits.new) }
    ensures err { OnErr result (KeepsBits bits.old bits.new) }
{
    for _ in 0..6u32 {
        bits.write_eol()?;
    }
    Ok(())
}

/// Writes an EOL and a row, in the memory of a list.
#[inline(always)]
pub(crate) fn write_row(
    bits: &mut BitWriter,
    row: &RowRef<'_>,
    list: &mut Vec<u32>,
) -> Result<(), AllocError>
    requires { 0 < length row.now }
    ensures ok { OnOk result (Appends (eol_word 11 ++ row_words row.now) bits.old bits.new) }
    ensures keeps { KeepsBits bits.old bits.new }
{
    bits.write_eol()?;
    bits.write_row_1d_in(row, list)
}

/// Writes the rows, each after an EOL.
fn write_rows(alloc: Global, rows: &Rows<'_>, bits: &mut BitWriter) -> Result<(), AllocError>
    requires { All (λ row. 0 < length row) rows.now }
    ensures ok { OnOk result (Appends (rows_words rows.now) bits.old bits.new) }
    ensures err { OnErr result (KeepsBits bits.old bits.new) }
{
    let mut list = Vec::new(alloc);
    for at in 0..rows.len() {
        write_row(bits, &rows.row(at), &mut list)?;
    }
    Ok(())
}

/// Writes the rows of a page and the return to control.
pub(crate) fn write_page(
    alloc: Global,
    rows: &Rows<'_>,
    bits: &mut BitWriter,
) -> Result<(), AllocError>
    requires { All (λ row. 0 < length row) rows.now }
    ensures ok { OnOk result (Appends (page_words rows.now) bits.old bits.new) }
    ensures err { OnErr result (KeepsBits bits.old bits.new) }
{
    write_rows(alloc, rows, bits)?;
    write_rtc(bits)
}

impl PageCode for OneDim {
    ghost use Rattle.page_code.specs.OneDimension.Pages.{ReadsAs};
    ghost use Rattle.page_code.specs.OneDimension.Laws.{IsLongestFront};

    ghost code = { λ width rows. page_words rows };

    ghost Reads = { ReadsAs };

    ghost outcome = { read_bits };

    ghost Longest = { IsLongestFront };

    #[tactic(auto, unfolding(crate::specs::Codings::code_of))]
    fn encode(
        alloc: Global,
        page: &Page,
        order: Order,
        out: &mut Vec<u8>,
    ) -> Result<(), AllocError> {
        encode_in(Coding::OneDim, alloc, page, order, out)
    }

    fn decode(
        alloc: Global,
        octets: &[u8],
        order: Order,
        width: u32,
        fine: bool,
    ) -> Result<(Page, u128), CodeFault> {
        decode_in(Coding::OneDim, alloc, octets, order, width, fine)
    }

    fn reads_its_code() {}
}

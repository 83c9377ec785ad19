//! Pages of T.4 without EOLs, as a TIFF of compression 2 has them: each row begins with an octet. They aren't read, but named.

ghost use Rattle.faults.specs.Faults.{IsOutside};
ghost use Rattle.page_files.specs.Identified.{no_eols_line, no_eols_text, tried_widths};
ghost use Rattle.page_files.specs.NoEols.{AreRowsAlone, FirstAlone};
ghost use Rattle.page_files.specs.Unread.{AreNoEols, no_eols_in, rows_line};
ghost use Rattle.raster.specs.Packed.{bits_of};
ghost use Rattle.raster.specs.Pixels.{IsWidth};
ghost use Rattle.std.specs.Io.KnownBytes.{Appends};
ghost use Rattle.std.specs.Prelude.{◌≡◌, ℕ, Option, All, IfErr, IfOk, OnOk, option_map};

use crate::identify::{WIDTHS, order_name};
use faults::{NO_MEMORY, ToolFault};
use raster::MAX_ROWS;
use run_tables::{BitReader, Order};
use std::alloc::Global;
use std::io::Write;

/// How many rows of T.4 octets are in one width, if they are nothing else.
#[derive(Clone, Copy)]
struct Alone {
    width: u32,
    rows: usize,
}

/// Returns how many rows of T.4 of this width in pixels octets are, each of which begins with an octet, if they are nothing else and 20,000
/// at most. Errors: `NoMemory` (9).
fn rows_alone(
    alloc: Global,
    octets: &[u8],
    order: Order,
    width: u32,
) -> Result<Option<usize>, ToolFault>
    requires { IsWidth width }
    ensures rows { IfOk result (AreRowsAlone width (bits_of order octets.now)) }
    ensures fault { IfErr result IsOutside }
{
    let end = 8 * octets.len() as u128;
    let mut list = Vec::new(alloc);
    let mut place = 0u128;
    let mut rows = 0usize;
    while place < end {
        if rows >= MAX_ROWS {
            return Ok(None);
        }
        let mut reader = BitReader::at(octets, order, place);
        match reader.read_row_1d_in(alloc, width, &mut list) {
            Ok(_row) => {
                rows += 1;
                place = 8 * reader.place().div_ceil(8);
            }
            Err(fault) if fault.is_memory() => return Err(NO_MEMORY),
            Err(_fault) => return Ok(None),
        }
    }
    Ok(Some(rows))
}

/// Returns the first of these widths in which octets are rows of T.4 and nothing else, and how many. Errors: `NoMemory` (9).
fn first_alone(
    alloc: Global,
    octets: &[u8],
    order: Order,
    widths: &[u32],
) -> Result<Option<Alone>, ToolFault>
    requires { All IsWidth widths.now }
    ensures first { IfOk result (λ first. FirstAlone (bits_of order octets.now) widths.now
        (option_map (λ alone. (alone.width, alone.rows)) first)) }
    ensures fault { IfErr result IsOutside }
{
    for width in widths {
        if let Some(rows) = rows_alone(alloc, octets, order, *width)? {
            return Ok(Some(Alone {
                width: *width,
                rows,
            }));
        }
    }
    Ok(None)
}

/// Writes the line of so many rows of T.4 without EOLs of this width.
fn tell_rows<W: Write>(
    order: Order,
    width: u32,
    rows: usize,
    writer: &mut W,
) -> Result<(), ToolFault>
    ensures told { OnOk result
        (Appends (W.contents writer.old) (W.contents writer.new) (no_eols_text order width rows)) }
    ensures fault { IfErr result IsOutside }
{
    let order = order_name(order);
    writeln!(
        writer,
        "T.4 without EOLs (TIFF compression 2), {order}, width {width}, {rows} rows: not read; try tiffcp -c g4 on its TIFF"
    )?;
    Ok(())
}

/// Writes the line of rows of T.4 without EOLs, if there are any.
fn tell_first<W: Write>(order: Order, first: Option<Alone>, writer: &mut W) -> Result<(), ToolFault>
    ensures told { OnOk result (Appends (W.contents writer.old) (W.contents writer.new)
        (no_eols_line order (option_map (λ alone. (alone.width, alone.rows)) first))) }
    ensures fault { IfErr result IsOutside }
{
    match first {
        Some(Alone { width, rows }) if rows > 0 => tell_rows(order, width, rows, writer)?,
        _ => {}
    }
    Ok(())
}

/// Writes the line of octets that are rows of T.4 without EOLs in one order of bits, if they are. Errors: `Io` (8) from the writer,
/// `NoMemory` (9).
pub(crate) fn tell_order<W: Write>(
    alloc: Global,
    octets: &[u8],
    order: Order,
    writer: &mut W,
) -> Result<(), ToolFault>
    ensures told { OnOk result ((first : Option (ℕ × ℕ)) × FirstAlone (bits_of order octets.now) tried_widths first
        × Appends (W.contents writer.old) (W.contents writer.new) (no_eols_line order first)) }
    ensures fault { IfErr result IsOutside }
{
    let first = first_alone(alloc, octets, order, &WIDTHS)?;
    tell_first(order, first, writer)?;
    Ok(())
}

/// Rows of T.4 without EOLs.
#[derive(Clone, Copy, Debug, PartialEq, Eq)]
pub struct NoEols {
    /// The order of bits in which octets are such rows.
    pub order: Order,
    /// The width in pixels.
    pub width: u32,
    /// How many there are, above 0.
    pub rows: usize,
}

/// Returns these rows with this order of bits, if there are any.
fn no_eols_in(order: Order, first: Option<Alone>) -> Option<NoEols>
    ensures { result ≡ no_eols_in order (option_map (λ alone. (alone.width, alone.rows)) first) }
{
    match first {
        Some(Alone { width, rows }) if rows > 0 => Some(NoEols { order, width, rows }),
        Some(_) | None => None,
    }
}

/// Returns which rows of T.4 without EOLs octets are, if they are such rows of a width that `identify` tries, and nothing else. Errors:
/// `NoMemory` (9).
pub fn no_eols_of(alloc: Global, octets: &[u8]) -> Result<Option<NoEols>, ToolFault>
    ensures rows { IfOk result (AreNoEols octets.now) }
    ensures fault { IfErr result IsOutside }
{
    let msb = first_alone(alloc, octets, Order::MsbFirst, &WIDTHS)?;
    let lsb = first_alone(alloc, octets, Order::LsbFirst, &WIDTHS)?;
    match no_eols_in(Order::MsbFirst, msb) {
        Some(said) => Ok(Some(said)),
        None => Ok(no_eols_in(Order::LsbFirst, lsb)),
    }
}

/// Writes the line of rows of T.4 without EOLs, as `identify_engine` does. Errors: `Io` (8) from the writer.
pub fn tell_no_eols<W: Write>(said: NoEols, writer: &mut W) -> Result<(), ToolFault>
    ensures told { OnOk result
        (Appends (W.contents writer.old) (W.contents writer.new) (rows_line said)) }
    ensures fault { IfErr result IsOutside }
{
    tell_rows(said.order, said.width, said.rows, writer)
}

//! What `decode --repair` does: an image of a coded page with rows that can't be read, over any reader and any writers.
ghost use Rattle.page_files.specs.CodedPages.{WritesPage};
ghost use Rattle.page_files.specs.Decodings.{GivesRepaired};
ghost use Rattle.faults.specs.Faults.{IsOutside};
ghost use Rattle.page_files.specs.Repairs.{RefusesRepair, RepairsPage, count_line, repaired_line, repaired_text};
ghost use Rattle.raster.specs.Pixels.{IsWidth};
ghost use Rattle.std.specs.Io.KnownBytes.{Appends};
ghost use Rattle.std.specs.Prelude.{[], ℕ, List, Some, IfErr, IfOk, IfSome, OnOk, length};

use crate::decoding::{Decoded, ReadTo};
use crate::options::PageForm;
use faults::ToolFault;
use page_code::{Coding, OneDim, RepairedPage, RepairedRow};
use raster::write_pbm;
use std::alloc::Global;
use std::io::{Read, Write};

/// How many rows a repair gave.
#[derive(Clone, Copy, Debug, PartialEq, Eq)]
pub struct Repair {
    /// The number of rows written.
    pub rows: usize,
    /// The number of repaired rows among them, each a copy of the row before it.
    pub repaired: usize,
}

/// Reads octets that begin with a page of T.4, of the width and lines of `form` (1 to 2,432 pixels), and writes it as a raw PBM image. Each
/// line, up to its EOL, gives one row; a row that can't be read is a copy of the one before it, white for the first. `lines` gets a line
/// for each such row, and one with their number if there are any. Errors: the refusal at its bit if no row can be read, `TooManyCodedRows`
/// (18) for a 20,001st line, `Io` (8) from the reader or a writer, `NoMemory` (9).
pub fn repair_engine<R: Read, W: Write, L: Write>(
    alloc: Global,
    reader: &mut R,
    writer: &mut W,
    lines: &mut L,
    form: PageForm,
) -> Result<Repair, ToolFault>
    requires { IsWidth form.width }
    ensures repaired { IfOk result (λ repair. IfSome (R.remaining reader.old)
        (RepairsPage form.order form.width form.fine (W.contents writer.old) (W.contents writer.new)
        (L.contents lines.old) (L.contents lines.new) repair)) }
    ensures refused { IfErr result (λ fault. IfSome (R.remaining reader.old) (λ octets.
        RefusesRepair form.order form.width octets fault)) }
{
    let mut octets = Vec::new(alloc);
    reader.read_to_end(&mut octets)?;
    let RepairedPage { page, repaired } = OneDim::repair(
        alloc, &octets, form.order, form.width, form.fine,
    )?;
    let rows = page.rows().len();
    write_pbm(&[page], writer)?;
    write_repaired(&repaired, lines)?;
    Ok(Repair {
        rows,
        repaired: repaired.len(),
    })
}

/// Returns the page that octets begin with, line by line, as `repair_engine` writes it, and the lines of its repaired rows.
pub(crate) fn repair_lines(
    alloc: Global,
    octets: &[u8],
    form: PageForm,
) -> Result<Decoded, ToolFault>
    requires { IsWidth form.width }
    ensures given { IfOk result (λ given. (image : List ℕ) → WritesPage given.page (Some []) (Some image)
        → GivesRepaired Coding.OneDim form octets.now given.read_to (length given.page.rows) image given.lines.items) }
    ensures refused { IfErr result (RefusesRepair form.order form.width octets.now) }
{
    let RepairedPage { page, repaired } = OneDim::repair(
        alloc, octets, form.order, form.width, form.fine,
    )?;
    let mut lines = Vec::new(alloc);
    write_repaired(&repaired, &mut lines)?;
    let count = repaired.len();
    let read_to = ReadTo::Lines(count);
    Ok(Decoded {
        page,
        lines,
        read_to,
    })
}

/// Writes the line of a repaired row.
fn write_row<L: Write>(row: &RepairedRow, lines: &mut L) -> Result<(), ToolFault>
    ensures line { OnOk result (Appends (L.contents lines.old) (L.contents lines.new) (repaired_line row.now)) }
    ensures fault { IfErr result IsOutside }
{
    writeln!(lines, "row {} repaired at bit {}", row.row, row.bit)?;
    Ok(())
}

/// Writes the line with the number of repaired rows.
fn write_count<L: Write>(count: usize, lines: &mut L) -> Result<(), ToolFault>
    ensures line { OnOk result (Appends (L.contents lines.old) (L.contents lines.new) (count_line count)) }
    ensures fault { IfErr result IsOutside }
{
    writeln!(lines, "repaired rows: {count}")?;
    Ok(())
}

/// Writes a line for each repaired row, and one with their number, if there is one.
fn write_repaired<L: Write>(rows: &[RepairedRow], lines: &mut L) -> Result<(), ToolFault>
    ensures lines { OnOk result (Appends (L.contents lines.old) (L.contents lines.new) (repaired_text rows.now)) }
    ensures fault { IfErr result IsOutside }
{
    if rows.is_empty() {
        return Ok(());
    }
    for row in rows {
        write_row(row, lines)?;
    }
    write_count(rows.len(), lines)?;
    Ok(())
}

//! Where in a coded page a refused bit lies: its row, and what was expected there.

ghost use Rattle.page_files.specs.Refusals.{EndsInEmptyRuns, HasNoEol, IsExpected, IsRefusedRow, IsRefusedRun};
ghost use Rattle.raster.specs.Packed.{bits_of};
ghost use Rattle.raster.specs.Pixels.{IsWidth};
ghost use Rattle.page_code.specs.PageReaders.{IsPageRefused};
ghost use Rattle.raster.specs.declared.coding.Coding.TheVariants.{T6};
ghost use Rattle.std.specs.Bool.{OnTrue};
ghost use Rattle.std.specs.Prelude.{◌≡◌, ◌≤◌, ◌*◌, IfSome, None, length};

use crate::options::PageForm;
use crate::own_widths::row_from;
use faults::Expected;
use page_code::{CodesPages, Coding, RefusedCode};
use raster::Color;
use run_tables::{BitReader, Order};
use std::alloc::Global;

/// Returns where a page of this width in pixels is refused at a bit: its row, counted from 1 (the one after all whole rows; None if memory
/// is refused), and in T.4 what is expected at the bit: a run of a color, or an EOL after a whole row (None if that isn't known).
pub fn refused_at(
    alloc: Global,
    octets: &[u8],
    coding: Coding,
    order: Order,
    width: u32,
    place: u128,
) -> (Option<usize>, Option<Expected>)
    requires { IsWidth width }
    ensures row { IfSome result.0 (IsRefusedRow coding width (bits_of order octets.now)) }
    ensures expected { IfSome result.1 (IsExpected width (bits_of order octets.now) place) }
    ensures of_rows { coding ≡ T6 → result.1 ≡ None }
{
    let row = refused_row(alloc, octets, coding, order, width);
    match coding {
        Coding::OneDim => (row, expected_at(alloc, octets, order, width, 0, place)),
        Coding::T6 => (row, None),
    }
}

/// Returns what `refused_at` returns, for a page of `form` that was read up to this refusal. Looks again only at the row of the refusal.
#[tactic(auto, using(crate::proofs::RefusedRows::refused_row))]
pub fn refused_in(
    alloc: Global,
    octets: &[u8],
    form: PageForm,
    refused: RefusedCode,
) -> (usize, Option<Expected>)
    requires { IsWidth form.width }
    ensures row { IsPageRefused form.coding form.width (bits_of form.order octets.now) refused
        → IsRefusedRow form.coding form.width (bits_of form.order octets.now) result.0 }
    ensures expected { IfSome result.1 (IsExpected form.width (bits_of form.order octets.now) refused.fault.place) }
    ensures of_rows { form.coding ≡ T6 → result.1 ≡ None }
{
    let row = refused.rows as usize + 1;
    let PageForm {
        coding,
        order,
        width,
        fine: _,
    } = form;
    let RefusedCode {
        fault,
        row_start,
        ..
    } = refused;
    match coding {
        Coding::OneDim => (
            row,
            expected_at(alloc, octets, order, width, row_start, fault.place),
        ),
        Coding::T6 => (row, None),
    }
}

/// Returns the row in which a page of this width in pixels is refused, counted from 1: the one after all whole rows. None if memory is
/// refused.
fn refused_row(
    alloc: Global,
    octets: &[u8],
    coding: Coding,
    order: Order,
    width: u32,
) -> Option<usize>
    requires { IsWidth width }
    ensures { IfSome result (IsRefusedRow coding width (bits_of order octets.now)) }
{
    match coding.salvage(alloc, octets, order, width, false) {
        Ok(page) => page.rows().len().checked_add(1),
        Err(_refused) => None,
    }
}

/// Returns what is expected at a bit where a page of T.4 is refused, by reading its row from the last EOL on; `from` is where the search
/// for EOLs begins. None if it isn't known.
fn expected_at(
    alloc: Global,
    octets: &[u8],
    order: Order,
    width: u32,
    from: u128,
    place: u128,
) -> Option<Expected>
    requires { IsWidth width }
    ensures { IfSome result (IsExpected width (bits_of order octets.now) place) }
{
    if place > 8 * octets.len() as u128 {
        return None;
    }
    let start = last_start(octets, order, from, place);
    let reader = BitReader::at(octets, order, start);
    if has_no_eol(alloc, reader.look_ahead(), width, place) {
        return Some(Expected::Eol);
    }
    match refused_color(reader, width, place) {
        Some(color) => Some(Expected::RunOf(color)),
        None => None,
    }
}

/// Returns whether a row of T.4 that is refused at a bit reads run by run up to an EOL and is this width in pixels: then the bit is that of
/// runs of 0 pixels after the row, as mgetty writes them, and `decode --repair` reads it.
pub fn ends_in_empty_runs(octets: &[u8], order: Order, width: u32, place: u128) -> bool
    ensures { OnTrue result (EndsInEmptyRuns width (bits_of order octets.now) place) }
{
    if place > 8 * octets.len() as u128 {
        return false;
    }
    let start = last_start(octets, order, 0, place);
    row_from(octets, order, start) == Some(width as u128)
}

/// Returns whether the row of this width in pixels that begins at the reader's place ends at `place`, and no EOL begins there.
fn has_no_eol(alloc: Global, reader: BitReader<'_>, width: u32, place: u128) -> bool
    requires { IsWidth width }
    ensures { OnTrue result (HasNoEol width reader.entry.bits place) }
{
    let mut reader = reader;
    let Ok(_row) = reader.read_row_1d(alloc, width) else {
        return false;
    };
    if reader.place() != place {
        return false;
    }
    !reader.starts_with(0, 11)
}

/// Returns the color of the run that is refused at a bit, by reading the runs of a row of this width from the reader's place on. None if
/// something else is refused there.
fn refused_color(reader: BitReader<'_>, width: u32, place: u128) -> Option<Color>
    ensures { IfSome result (IsRefusedRun reader.entry.bits place) }
{
    let mut reader = reader;
    let mut color = Color::White;
    let mut pixels = 0u32;
    for _number in 0..MOST_RUNS {
        if pixels >= width {
            return None;
        }
        match reader.read_run(color) {
            Ok(run) => {
                pixels = pixels.saturating_add(run);
                color = color.other();
            }
            Err(fault) if fault.place == place => return Some(color),
            Err(_fault) => return None,
        }
    }
    None
}

/// More runs than any row has.
const MOST_RUNS: u32 = 5000;

/// Returns the bit after the last EOL that begins at or after `from` and ends before a bit; `from` if there is none.
fn row_start(octets: &[u8], order: Order, from: u128, place: u128) -> u128
    requires within { place ≤ 8 * length octets.now }
    requires before { from ≤ place }
    ensures { result ≤ place }
{
    let mut zeros = 0u32;
    let mut start = from;
    let mut reader = BitReader::at(octets, order, from);
    for at in from..place {
        match reader.bit() {
            Some(false) => zeros = zeros.saturating_add(1),
            _ => {
                if zeros >= 11 {
                    start = at + 1;
                }
                zeros = 0;
            }
        }
    }
    start
}

/// Returns the bit after the last EOL that ends before a bit, searching from another bit on and then in all octets; 0 if there is none.
fn last_start(octets: &[u8], order: Order, from: u128, place: u128) -> u128
    requires { place ≤ 8 * length octets.now }
    ensures { result ≤ place }
{
    let from = from.min(place);
    let start = row_start(octets, order, from, place);
    if start > from {
        return start;
    }
    row_start(octets, order, 0, place)
}

//! Rasters, for C: the packed rows of a page in memory, which begin some number of octets apart.

ghost use Rattle.g3fax.specs.Handles.{OfPage};
ghost use Rattle.g3fax.specs.Pages.{is_set};
ghost use Rattle.g3fax.specs.Rasters.{LaysRows, ReadsRaster, WritesRaster, raster_octets, raster_page, raster_rows, raster_size};
ghost use Rattle.raster.specs.Pages.{PagePixels, max_rows};
ghost use Rattle.raster.specs.Pbm.{stride};
ghost use Rattle.raster.specs.Pixels.{IsWidth};
ghost use Rattle.std.specs.Prelude.{◌≡◌, ◌≢◌, ◌≤◌, ◌+◌, ◌++◌, IfErr, IfOk, drop, length, take};

use crate::codes::in_64_bits;
use crate::handle::{G3Handle, Kept, opened};
use crate::status::{BAD_LENGTH, BAD_WIDTH, FULL_HANDLE, NO_MEMORY, NO_ROOM, OK, TOO_MANY_ROWS};
use raster::{MAX_ROWS, MAX_WIDTH, Page};
use std::alloc::Global;

/// How rows lie in octets: the octets from one row to the next, the width in pixels, the number of rows, and whether the lines are fine.
#[repr(C)]
#[derive(Clone, Copy)]
pub struct G3Raster {
    /// The octets from the beginning of a row to that of the next one.
    pub stride: u64,
    /// The width in pixels, 1 to 2,432.
    pub width: u32,
    /// The number of rows, 0 to 20,000.
    pub rows: u32,
    /// 1 if the lines are fine, otherwise 0.
    pub fine: u32,
}

/// How many octets a row of this width has.
fn row_size(width: u32) -> u64
    ensures { result ≡ stride width }
{
    (width as u64 + 7) / 8
}

/// How many octets there are from the beginning of the first row to the end of the last one.
fn size_of(row: u64, apart: u64, rows: u64) -> u128
    ensures { result ≡ raster_octets row apart rows }
{
    if rows == 0 {
        return 0;
    }
    apart as u128 * (rows as u128 - 1) + row as u128
}

/// The rows of octets as a page. Errors: `NoMemory` (9).
fn rows_of(alloc: Global, octets: &[u8], raster: &G3Raster) -> Result<Page, u32>
    requires width { IsWidth raster.now.width }
    requires few { raster.now.rows ≤ max_rows }
    requires octets { raster_size raster.now ≤ length octets.now }
    ensures ok { IfOk result (λ page. page ≡ raster_page raster.now octets.now) }
    ensures only { IfErr result (λ status. status ≡ 9) }
{
    let mut page = match Page::new(alloc, raster.width, raster.fine != 0) {
        Ok(page) => page,
        Err(fault) => return Err(fault.number() as u32),
    };
    for number in 0..raster.rows {
        let at = raster.stride as u128 * number as u128;
        match page.push_octets(&octets[at as usize..]) {
            Ok(()) => {}
            Err(_) => return Err(NO_MEMORY),
        }
    }
    Ok(page)
}

/// Makes a page of rows in memory, in an empty handle; what lies between the rows and after the last one is ignored. Returns
/// `G3_FULL_HANDLE` (102); `G3_BAD_WIDTH` (1) if the width isn't 1 to 2,432 pixels; `G3_TOO_MANY_ROWS` (3) over 20,000; `G3_BAD_LENGTH`
/// (105) if rows begin closer than a row is long, or there are too few octets; `G3_NO_MEMORY` (9).
#[unsafe(no_mangle)]
pub extern "C" fn g3_core_page_read_raster(
    alloc: Global,
    octets: &[u8],
    raster: &G3Raster,
    out: &mut G3Handle,
) -> u32
    ensures { ReadsRaster raster.now octets.now out.old.value result out.new.value }
{
    if out.is_full(alloc) {
        return FULL_HANDLE;
    }
    if raster.width == 0 || raster.width > MAX_WIDTH {
        return BAD_WIDTH;
    }
    if raster.rows as usize > MAX_ROWS {
        return TOO_MANY_ROWS;
    }
    let row = row_size(raster.width);
    if raster.stride < row
        || size_of(row, raster.stride, raster.rows as u64) > octets.len() as u128
    {
        return BAD_LENGTH;
    }
    match rows_of(alloc, octets, raster) {
        Ok(page) => out.fill(alloc, Kept::Page(page)),
        Err(status) => status,
    }
}

/// Copies octets to a place of a buffer.
fn put(octets: &[u8], at: usize, buffer: &mut [u8])
    requires { at + length octets.now ≤ length buffer.old }
    ensures { buffer.new ≡ take at buffer.old ++ (octets.now ++ drop (at + length octets.now) buffer.old) }
{
    buffer[at..at + octets.len()].copy_from_slice(octets);
}

/// Copies the rows of a page to a buffer, from the last one to the first.
fn lay_rows(page: &Page, apart: u64, buffer: &mut [u8])
    requires apart { stride page.now.width ≤ apart }
    requires room { raster_octets (stride page.now.width) apart (length page.now.rows) ≤ length buffer.old }
    ensures { LaysRows apart page.now.rows buffer.old buffer.new }
{
    let rows = page.rows();
    let mut number = rows.len();
    while number > 0 {
        number -= 1;
        let at = apart as u128 * number as u128;
        put(rows.row(number).octets(), at as usize, buffer);
    }
}

/// Writes the rows of a page.
fn write_rows(page: &Page, apart: u64, buffer: &mut [u8], count: &mut u64) -> u32
    ensures { WritesRaster page.now apart buffer.old buffer.new count.old count.new result }
{
    let row = row_size(page.width());
    if apart < row {
        return BAD_LENGTH;
    }
    let size = size_of(row, apart, page.rows().len() as u64);
    *count = in_64_bits(size);
    if size > buffer.len() as u128 {
        return NO_ROOM;
    }
    lay_rows(page, apart, buffer);
    OK
}

/// Copies the rows of a page to a buffer, so many octets from one to the next, and tells how many octets they take; what lies between the
/// rows stays. Returns `G3_BAD_LENGTH` (105) if rows would begin closer than a row is long, and `G3_NO_ROOM` (103) if the buffer is too
/// small.
#[unsafe(no_mangle)]
pub extern "C" fn g3_core_page_write_raster(
    alloc: Global,
    page: &mut G3Handle,
    apart: u64,
    buffer: &mut [u8],
    count: &mut u64,
) -> u32
    ensures answers { OfPage (λ page. WritesRaster page apart buffer.old buffer.new count.old count.new result)
        page.old.value result }
    ensures kept { page.new.value ≡ page.old.value }
    ensures buffer { result ≢ 0 → buffer.new ≡ buffer.old }
{
    opened!(alloc, page, Page, page => write_rows(page, apart, buffer, count))
}

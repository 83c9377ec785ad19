//! Pages, for C: rows of 1 to 2,432 pixels, eight an octet, the leftmost in the highest bit, 1 black.

ghost use Rattle.g3fax.specs.Handles.{OfPage, OnPage};
ghost use Rattle.g3fax.specs.Pages.{CopiesRow, MakesPage, PushesOctets, TellsSize};
ghost use Rattle.std.specs.Prelude.{◌≡◌, ◌≢◌, slice_get};

use crate::handle::{G3Handle, Kept, opened};
use crate::octets::copy_out;
use crate::status::{BAD_LENGTH, FULL_HANDLE, NOTHING, OK};
use raster::Page;
use std::alloc::Global;

/// The size of a page: its width in pixels, its rows, and whether its lines are fine.
#[repr(C)]
#[derive(Clone, Copy)]
pub struct G3Size {
    /// The width in pixels.
    pub width: u32,
    /// The number of rows.
    pub rows: u32,
    /// 1 if the lines are fine (7.7 a millimeter), otherwise 0.
    pub fine: u32,
}

/// Makes a page without rows in an empty handle. Returns `G3_FULL_HANDLE` (102), `G3_BAD_WIDTH` (1) if the width isn't 1 to 2,432 pixels,
/// or `G3_NO_MEMORY` (9).
#[unsafe(no_mangle)]
pub extern "C" fn g3_core_page_new(alloc: Global, out: &mut G3Handle, width: u32, fine: u32) -> u32
    ensures { MakesPage width fine out.old.value result out.new.value }
{
    if out.is_full(alloc) {
        return FULL_HANDLE;
    }
    match Page::new(alloc, width, fine != 0) {
        Ok(page) => out.fill(alloc, Kept::Page(page)),
        Err(fault) => fault.number() as u32,
    }
}

/// Appends the row of the first bits of octets.
#[tactic(auto, using(raster::proofs::RowLemmas::lengths, raster::proofs::PackedLemmas::views))]
fn push_octets(page: &mut Page, octets: &[u8]) -> u32
    ensures { PushesOctets octets.now page.old page.new result }
{
    if (octets.len() as u128) * 8 < page.width() as u128 {
        return BAD_LENGTH;
    }
    match page.push_octets(octets) {
        Ok(()) => OK,
        Err(fault) => fault.number() as u32,
    }
}

/// Appends a row to a page, from the first bits of octets, 1 for black; later bits are ignored. Returns `G3_BAD_LENGTH` (105) for too few
/// octets, `G3_TOO_MANY_ROWS` (3) if the page has 20,000 rows, or `G3_NO_MEMORY` (9).
#[unsafe(no_mangle)]
pub extern "C" fn g3_core_page_push_row(alloc: Global, page: &mut G3Handle, octets: &[u8]) -> u32
    ensures { OnPage (λ old new. PushesOctets octets.now old new result) page.old.value page.new.value result }
{
    opened!(alloc, page, Page, page => push_octets(page, octets))
}

/// Tells the size of a page.
fn tell_size(page: &Page, size: &mut G3Size) -> u32
    ensures { TellsSize page.now size.new result }
{
    let rows = page.rows();
    *size = G3Size {
        width: page.width(),
        rows: rows.len() as u32,
        fine: page.fine() as u32,
    };
    OK
}

/// Tells the size of a page.
#[unsafe(no_mangle)]
pub extern "C" fn g3_core_page_size(alloc: Global, page: &mut G3Handle, size: &mut G3Size) -> u32
    ensures answers { OfPage (λ page. TellsSize page size.new result) page.old.value result }
    ensures kept { page.new.value ≡ page.old.value }
    ensures untold { result ≢ 0 → size.new ≡ size.old }
{
    opened!(alloc, page, Page, page => tell_size(page, size))
}

/// Copies the octets of a row to the beginning of a buffer.
fn copy_row(page: &Page, number: u32, buffer: &mut [u8], count: &mut u64) -> u32
    ensures { CopiesRow (slice_get page.now.rows number) buffer.old buffer.new count.old count.new result }
{
    match page.rows().get(number as usize) {
        Some(row) => copy_out(row.octets(), buffer, count),
        None => NOTHING,
    }
}

/// Copies the octets of a row, counted from 0 at the top, to the beginning of a buffer, and tells how many they are. Returns `G3_NOTHING`
/// (106) if there is no such row, and `G3_NO_ROOM` (103) if the buffer is too small.
#[unsafe(no_mangle)]
pub extern "C" fn g3_core_page_row(
    alloc: Global,
    page: &mut G3Handle,
    number: u32,
    buffer: &mut [u8],
    count: &mut u64,
) -> u32
    ensures answers { OfPage (λ page. CopiesRow (slice_get page.rows number) buffer.old buffer.new count.old count.new result)
        page.old.value result }
    ensures kept { page.new.value ≡ page.old.value }
    ensures buffer { result ≢ 0 → buffer.new ≡ buffer.old }
{
    opened!(alloc, page, Page, page => copy_row(page, number, buffer, count))
}

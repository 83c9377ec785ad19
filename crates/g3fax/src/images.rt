//! Images of Netpbm's raw PBM format in memory, for C.

ghost use Rattle.g3fax.specs.Handles.{OfPage};
ghost use Rattle.g3fax.specs.Images.{ReadsImages, WritesImage};
ghost use Rattle.raster.specs.Pbm.{BeginsImages};
ghost use Rattle.raster.specs.PbmFaults.{AnswersFirstFault};
ghost use Rattle.raster.specs.PbmText.{ArePagesText};
ghost use Rattle.std.specs.Prelude.{[], ◌∷◌, ◌≡◌, ◌≢◌, ◌<◌, ◌⊎◌, IfErr, IfOk, None, length};

use crate::handle::{G3Handle, Kept, opened};
use crate::status::{FULL_HANDLE, NO_MEMORY, NO_ROWS};
use raster::{Page, RasterFault, read_first_pbm, write_pbm};
use std::alloc::Global;
use std::slice;

/// Returns the page of the first image, and the number of images.
fn first_image(alloc: Global, octets: &[u8], fine: bool) -> Result<(Page, u64), RasterFault>
    ensures found { IfOk result (λ found. BeginsImages fine octets.now found.0 found.1) }
    ensures first { AnswersFirstFault octets.now result }
{
    let mut reader = octets;
    let (page, count) = read_first_pbm(alloc, &mut reader, fine)?;
    Ok((page, count as u64))
}

/// Reads raw PBM images into an empty handle, which gets the page of the first one; tells how many images there are. Returns
/// `G3_FULL_HANDLE` (102), the first fault of the octets (1, or 3 to 7), or `G3_NO_MEMORY` (9).
#[unsafe(no_mangle)]
pub extern "C" fn g3_core_page_read_pbm(
    alloc: Global,
    octets: &[u8],
    fine: u32,
    out: &mut G3Handle,
    count: &mut u64,
) -> u32
    ensures { ReadsImages fine octets.now out.old.value result count.new out.new.value }
{
    if out.is_full(alloc) {
        return FULL_HANDLE;
    }
    match first_image(alloc, octets, fine != 0) {
        Ok((page, images)) => {
            *count = images;
            out.fill(alloc, Kept::Page(page))
        }
        Err(fault) => fault.number() as u32,
    }
}

/// Returns a page as an image. Errors: 4 for a page without rows, 9.
fn image(alloc: Global, page: &Page) -> Result<Vec<u8>, u32>
    ensures ok { IfOk result (λ octets. ArePagesText (page.now ∷ []) octets.items) }
    ensures some { IfOk result (λ octets. 0 < length page.now.rows) }
    ensures none { IfErr result (λ status. ((length page.now.rows ≡ 0) × (status ≡ 4)) ⊎ ((0 < length page.now.rows) × (status ≡ 9))) }
{
    if page.rows().is_empty() {
        return Err(NO_ROWS);
    }
    let mut octets = Vec::new(alloc);
    match write_pbm(slice::from_ref(page), &mut octets) {
        Ok(()) => Ok(octets),
        Err(_) => Err(NO_MEMORY),
    }
}

/// Fills an empty handle with the image of a page.
fn write_image(alloc: Global, page: &Page, out: &mut G3Handle) -> u32
    ensures { WritesImage page.now out.old.value result out.new.value }
{
    if out.is_full(alloc) {
        return FULL_HANDLE;
    }
    match image(alloc, page) {
        Ok(octets) => out.fill(alloc, Kept::Octets(octets)),
        Err(status) => status,
    }
}

/// Writes a page as a raw PBM image, whose octets fill an empty handle. Returns `G3_FULL_HANDLE` (102), `G3_NO_ROWS` (4) or `G3_NO_MEMORY`
/// (9).
#[unsafe(no_mangle)]
pub extern "C" fn g3_core_page_write_pbm(
    alloc: Global,
    page: &mut G3Handle,
    out: &mut G3Handle,
) -> u32
    ensures answers { OfPage (λ page. WritesImage page out.old.value result out.new.value) page.old.value result }
    ensures kept { page.new.value ≡ page.old.value }
    ensures out { result ≢ 0 → out.new.value ≡ out.old.value }
{
    opened!(alloc, page, Page, page => write_image(alloc, page, out))
}

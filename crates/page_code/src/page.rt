//! Pages where only memory can be refused.

ghost use Rattle.page_code.specs.TwoDimensions.Positions.{white_line};
ghost use Rattle.raster.specs.Octets.{AreOctets};
ghost use Rattle.raster.specs.Pages.{max_rows};
ghost use Rattle.raster.specs.Pixels.{IsWidth};
ghost use Rattle.std.specs.Prelude.{◌≡◌, ◌<◌, ◌++◌, ◌∷◌, [], OnOk, length};

use raster::{Page, RasterFault, Row};
use std::alloc::{AllocError, Global};

/// Octets are below 256, which a proof may need. Nothing runs.
pub(crate) fn are_octets(octets: &[u8])
    ensures { AreOctets octets.now }
{}

/// A page that is being read: its whole rows so far, and the place in the bits after them.
#[derive(Debug, Drop)]
pub(crate) struct Progress {
    pub(crate) page: Page,
    pub(crate) place: u128,
}

impl Progress {
    /// No rows of a page of this width in pixels. Takes no memory.
    pub(crate) fn new(alloc: Global, width: u32, fine: bool) -> Self
        requires { IsWidth width }
        ensures { result ≡ record { page = record { width = width; fine = fine; rows = [] }; place = 0 } }
    {
        Progress {
            page: Page::new(alloc, width, fine).unwrap(),
            place: 0,
        }
    }
}

/// Appends a row of the page's width, if there is room for it. Errs only if memory is refused.
#[inline(always)]
pub(crate) fn push_row(page: &mut Page, row: Row) -> Result<(), AllocError>
    requires wide { length row ≡ page.old.width }
    requires room { length page.old.rows < max_rows }
    ensures { OnOk result (page.new ≡ record page.old { rows = page.old.rows ++ row ∷ [] }) }
{
    match page.push_row(row) {
        Ok(()) => Ok(()),
        Err(RasterFault::NoMemory) => Err(AllocError),
        Err(_) => unreachable!(),
    }
}

/// Appends a white row, if there is room for it. Errs only if memory is refused.
#[inline(always)]
pub(crate) fn push_white(page: &mut Page) -> Result<(), AllocError>
    requires room { length page.old.rows < max_rows }
    ensures { OnOk result (page.new ≡ record page.old { rows = page.old.rows ++ white_line page.old.width ∷ [] }) }
{
    page.push_changes(&[])
}

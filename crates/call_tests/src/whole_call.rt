//! A whole call of two terminals: the case in which `call_comes` returns true, of which its clause speaks, is the case.

use joined_terminals::whole_call::call_comes;
use page_code::Coding;
use raster::{Document, Page, RasterFault, Row};
use signals::{Caps, Modems, PageWidth, Wish};
use stations::Limits;
use std::alloc::Global;
use std::test::Fail;

const WISH: Wish = Wish {
    modems: Modems::V17,
    coding: Coding::T6,
    small: false,
};

const CAPS: Caps = Caps {
    receiver: true,
    modems: Modems::V17,
    fine: true,
    widest: PageWidth::W2432,
    t6: true,
    ecm: true,
};

const TWO_PAGES: Limits = Limits {
    pages: 2,
    octets: 8_388_608,
};

const ONE_PAGE: Limits = Limits {
    pages: 1,
    octets: 8_388_608,
};

/// Returns a document of one page, with one white row.
fn one_page(alloc: Global) -> Result<Document, RasterFault> {
    let mut page = Page::new(alloc, 1728, false)?;
    page.push_row(Row::from_runs(alloc, &[1728])?)?;
    Ok(Document::new(alloc, page)?)
}

#[test]
fn a_whole_call_comes(rt: HostRuntime) -> Result<(), Fail> {
    let alloc = rt.alloc();
    assert!(rt; call_comes(alloc, one_page(alloc)?, WISH, CAPS, TWO_PAGES));
    // an answerer with room for one page says RNR in place of MCF, until that is taken out
    assert!(rt; !call_comes(alloc, one_page(alloc)?, WISH, CAPS, ONE_PAGE));
    Ok(())
}

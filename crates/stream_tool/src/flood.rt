//! A caller that sends one page forty times to an answerer that has room for two.

use crate::{CAPS, show_page};
use page_code::Coding;
use signals::{PageEnd, PageWidth, Params, Signal, Speed};
use stations::{AnswererIn, LimitedAnswerer, Limits, Turn};
use std::alloc::AllocError;
use std::io;

/// Room for two pages.
pub const LIMITS: Limits = Limits {
    pages: 2,
    octets: 100_000_000,
};

const PARAMS: Params = Params {
    speed: Speed::V17At14400,
    fine: false,
    width: PageWidth::W2432,
    coding: Coding::T6,
    small: false,
};

/// Sends a page of one block, by its code: its frames, and the PPS, which another page follows. Answers the turn that answers that.
fn send_page(station: &mut LimitedAnswerer, page: u8, code: &[u8]) -> Result<Turn, AllocError> {
    let mut last = 0;
    for (number, octets) in (0..=u8::MAX).zip(code.chunks(256)) {
        station.step(AnswererIn::Heard(Signal::Fcd { number, octets }))?;
        last = number;
    }
    station.step(AnswererIn::Heard(Signal::Pps {
        ends: PageEnd::Mps,
        page,
        block: 0,
        last,
    }))
}

/// Sends the page of this code forty times, and takes the stored pages after each RNR. Prints the turn that answers each page, the pages
/// that were taken, and the turn that answers the RR after them.
pub fn show_flood(rt: &HostRuntime, code: &[u8]) -> io::Result<()> {
    let (mut station, _) = LimitedAnswerer::new(rt.alloc(), CAPS, LIMITS);
    station.step(AnswererIn::Heard(Signal::Dcs(PARAMS)))?;
    station.step(AnswererIn::Training(&[0; 1350]))?;
    for page in 0..40u8 {
        let turn = send_page(&mut station, page, code)?;
        println!(rt; "{turn:?}")?;
        if turn != Turn::Rnr {
            continue;
        }
        for page in station.take_pages() {
            show_page(rt, &page)?;
        }
        let ready = station.step(AnswererIn::Heard(Signal::Rr))?;
        println!(rt; "{ready:?}")?;
    }
    Ok(())
}

//! What a station says of itself, in lines of text.

ghost use Rattle.signals.specs.Signals.{plain};
ghost use Rattle.signals.specs.Writing.{IsWritable};
ghost use Rattle.std.specs.Prelude.{◌↔◌, IsTrue};

use crate::call::show_octets;
use crate::show_page;
use raster::Page;
use signals::{Side, Signal, write};
use stations::{Answerer, Bursts, Caller, Item, Turn, Wait};
use std::io;
use terminals::wait_millis;

/// Whether a signal has a content.
fn is_writable(signal: Signal<'_>) -> bool
    ensures { IsTrue result ↔ IsWritable (plain signal.entry) }
{
    match signal {
        Signal::Fcd { octets, .. } => !octets.is_empty() && octets.len() <= 256,
        Signal::Other(_) => false,
        Signal::Dis(_)
        | Signal::Dcs(_)
        | Signal::Cfr
        | Signal::Ftt
        | Signal::Rcp
        | Signal::Pps { .. }
        | Signal::Ppr(_)
        | Signal::Mcf
        | Signal::Rnr
        | Signal::Rr
        | Signal::Dcn => true,
    }
}

/// Prints an item: the content of its frame in hex digits, or the number of octets of a training check.
fn show_item(rt: &HostRuntime, side: Side, item: Item<'_>) -> io::Result<()> {
    let (signal, last) = match item {
        Item::Frame { signal, last } => (signal, last),
        Item::Training(count) => return println!(rt; "check {count}"),
    };
    if !is_writable(signal) {
        return println!(rt; "no content");
    }
    let content = write(&signal, side, last);
    show_octets(rt, content.as_slice())
}

/// Prints bursts: the carrier of each, whether it is the turn's last one, and its items.
fn show_bursts(rt: &HostRuntime, side: Side, bursts: Bursts<'_>) -> io::Result<()> {
    for burst in bursts {
        println!(rt; "{:?} last {}", burst.carrier, burst.last)?;
        for item in burst.items {
            show_item(rt, side, item)?;
        }
    }
    Ok(())
}

/// Prints a wait and its milliseconds.
fn show_wait(rt: &HostRuntime, wait: Option<Wait>) -> io::Result<()> {
    match wait {
        Some(wait) => println!(rt; "wait {wait:?} {}", wait_millis(wait)),
        None => println!(rt; "no wait"),
    }
}

/// Prints both waits of a station.
fn show_waits(rt: &HostRuntime, wait: Option<Wait>, longer: Option<Wait>) -> io::Result<()> {
    show_wait(rt, wait)?;
    show_wait(rt, longer)
}

/// Prints a caller after a turn.
pub fn show_caller(rt: &HostRuntime, station: &Caller, turn: &Turn) -> io::Result<()> {
    println!(rt; "turn {turn:?}")?;
    show_bursts(rt, Side::Caller, station.bursts(turn))?;
    show_waits(rt, station.waits(), station.longer_wait())?;
    println!(rt;
        "listens {:?}\nparams {:?}",
        station.listens(),
        station.params()
    )?;
    println!(rt; "peer {:?}\n{:?}", station.peer(), station.progress())
}

/// Prints an answerer after a turn.
pub fn show_answerer(rt: &HostRuntime, station: &Answerer, turn: &Turn) -> io::Result<()> {
    println!(rt; "turn {turn:?}")?;
    show_bursts(rt, Side::Answerer, station.bursts(turn))?;
    show_waits(rt, station.waits(), station.longer_wait())?;
    println!(rt;
        "listens {:?}\nparams {:?}",
        station.listens(),
        station.params()
    )?;
    println!(rt; "peer {:?}\n{:?}", station.peer(), station.progress())?;
    show_bad_page(rt, station)
}

/// Prints the octets, the parameters and the fault of the page over which an answerer's call ended, if it ended so.
fn show_bad_page(rt: &HostRuntime, station: &Answerer) -> io::Result<()> {
    let Some(page) = station.bad_page()? else {
        return Ok(());
    };
    let digits = hex::encode(rt.alloc(), page.octets())?;
    println!(rt;
        "bad page {} {:?} {:?}",
        digits,
        page.params(),
        page.fault()
    )
}

/// Prints pages.
pub fn show_pages(rt: &HostRuntime, pages: &[Page]) -> io::Result<()> {
    println!(rt; "pages {}", pages.len())?;
    for page in pages {
        show_page(rt, page)?;
    }
    Ok(())
}

//! What a program can ask of a station after each input: its turn in bursts, the waits that run, what it listens for, its parameters,
//! how far it is, its pages and its end.

use crate::call::{document_of, head_of};
use crate::flood::LIMITS;
use crate::shown::{show_answerer, show_caller, show_pages};
use crate::{CAPS, first_piece};
use raster::Document;
use signals::{PageWidth, Signal, Wish, read, why_not};
use stations::{
    Answerer, AnswererIn, Caller, CallerIn, LimitedAnswerer, Limits, StoppableAnswerer,
    StoppableCaller, Turn,
};
use std::alloc::{AllocError, Global};
use std::io;

/// Room for the packed rows of two pages of one row of 1,728 pixels.
const OCTETS: Limits = Limits {
    pages: 100,
    octets: 432,
};

/// A station of each type.
#[derive(Drop)]
enum Tried {
    Caller(Caller),
    StoppableCaller(StoppableCaller),
    Answerer(Answerer),
    StoppableAnswerer(StoppableAnswerer),
    Limited(LimitedAnswerer),
}

/// The answerer of this letter, with its first turn: with no limits, that can be stopped, with room for two pages, or for the octets of
/// two.
fn answerer_of(alloc: Global, letter: u8) -> (Tried, Turn) {
    if letter == b'l' {
        let (station, turn) = LimitedAnswerer::new(alloc, CAPS, LIMITS);
        return (Tried::Limited(station), turn);
    }
    if letter == b'o' {
        let (station, turn) = LimitedAnswerer::new(alloc, CAPS, OCTETS);
        return (Tried::Limited(station), turn);
    }
    let (station, turn) = Answerer::new(alloc, CAPS);
    if letter == b'a' {
        return (Tried::Answerer(station), turn);
    }
    let stoppable = StoppableAnswerer::new(station);
    (Tried::StoppableAnswerer(stoppable), turn)
}

/// The caller of this letter: that only runs, or can be stopped. None where the document is none that a call can have.
fn caller_of(alloc: Global, letter: u8, document: Document, wish: Wish) -> Option<Tried> {
    let station = Caller::new(alloc, document, wish).ok()?;
    if letter == b'c' {
        return Some(Tried::Caller(station));
    }
    Some(Tried::StoppableCaller(StoppableCaller::new(station)))
}

/// The input of a caller of this kind.
fn caller_in(kind: u8, octets: &[u8]) -> Option<CallerIn<'_>> {
    match kind {
        b'H' => Some(CallerIn::Heard(read(octets).ok()?)),
        b'T' => Some(CallerIn::Timeout),
        b'5' => Some(CallerIn::T5),
        _ => None,
    }
}

/// The input of an answerer of this kind.
fn answerer_in(kind: u8, octets: &[u8]) -> Option<AnswererIn<'_>> {
    match kind {
        b'H' => Some(AnswererIn::Heard(read(octets).ok()?)),
        b'C' => Some(AnswererIn::Training(octets)),
        b'1' => Some(AnswererIn::T1),
        b'2' => Some(AnswererIn::T2),
        b'B' => Some(AnswererIn::Busy(true)),
        b'R' => Some(AnswererIn::Busy(false)),
        _ => None,
    }
}

impl Tried {
    /// The turn that answers an input of this kind; silence where it is none of this station.
    fn step(&mut self, kind: u8, octets: &[u8]) -> Result<Turn, AllocError> {
        match self {
            Tried::Caller(station) => match caller_in(kind, octets) {
                Some(input) => station.step(input),
                None => Ok(Turn::Silent),
            },
            Tried::StoppableCaller(station) => match caller_in(kind, octets) {
                Some(input) => station.step(input),
                None => Ok(Turn::Silent),
            },
            Tried::Answerer(station) => match answerer_in(kind, octets) {
                Some(input) => station.step(input),
                None => Ok(Turn::Silent),
            },
            Tried::StoppableAnswerer(station) => match answerer_in(kind, octets) {
                Some(input) => station.step(input),
                None => Ok(Turn::Silent),
            },
            Tried::Limited(station) => match answerer_in(kind, octets) {
                Some(input) => station.step(input),
                None => Ok(Turn::Silent),
            },
        }
    }

    /// The program stops the call: the turn.
    fn stop(&mut self) -> Turn {
        match self {
            Tried::StoppableCaller(station) => station.stop(),
            Tried::StoppableAnswerer(station) => station.stop(),
            Tried::Limited(station) => station.stop(),
            _ => Turn::Silent,
        }
    }

    /// The line is gone.
    fn lost(&mut self) {
        match self {
            Tried::StoppableCaller(station) => station.lost(),
            Tried::StoppableAnswerer(station) => station.lost(),
            Tried::Limited(station) => station.lost(),
            _ => {}
        }
    }

    /// Takes the stored pages, and prints them.
    fn take(&mut self, rt: &HostRuntime) -> io::Result<()> {
        match self {
            Tried::Answerer(station) => show_pages(rt, &station.take_pages()),
            Tried::StoppableAnswerer(station) => show_pages(rt, &station.take_pages()),
            Tried::Limited(station) => show_pages(rt, &station.take_pages()),
            _ => Ok(()),
        }
    }

    /// Hears the first piece, and is printed after it.
    fn hear_piece(&mut self, rt: &HostRuntime, kind: u8, octets: &[u8]) -> io::Result<()> {
        let turn = match kind {
            b'S' => self.stop(),
            _ => self.step(kind, octets)?,
        };
        match kind {
            b'L' => self.lost(),
            b'K' => self.take(rt)?,
            _ => {}
        }
        self.show(rt, &turn)
    }

    /// Hears what octets say, piece by piece.
    fn hear(&mut self, rt: &HostRuntime, heard: &[u8]) -> io::Result<()> {
        let mut left = heard;
        for _ in 0..heard.len() {
            let Some((kind, octets, after)) = first_piece(left) else {
                break;
            };
            self.hear_piece(rt, kind, octets)?;
            left = after;
        }
        Ok(())
    }

    /// Prints the station's end.
    fn show_end(&self, rt: &HostRuntime) -> io::Result<()> {
        match self {
            Tried::Caller(station) => println!(rt; "end {:?}", station.end()),
            Tried::StoppableCaller(station) => println!(rt; "end {:?}", station.end()),
            Tried::Answerer(station) => println!(rt; "end {:?}", station.end()),
            Tried::StoppableAnswerer(station) => println!(rt; "end {:?}", station.end()),
            Tried::Limited(station) => println!(rt; "end {:?}", station.end()),
        }
    }

    /// Prints what the station says of itself after a turn, and its end.
    fn show(&self, rt: &HostRuntime, turn: &Turn) -> io::Result<()> {
        match self {
            Tried::Caller(station) => show_caller(rt, station, turn)?,
            Tried::StoppableCaller(station) => show_caller(rt, station.station(), turn)?,
            Tried::Answerer(station) => show_answerer(rt, station, turn)?,
            Tried::StoppableAnswerer(station) => show_answerer(rt, station.station(), turn)?,
            Tried::Limited(station) => show_answerer(rt, station.station(), turn)?,
        }
        self.show_end(rt)
    }

    /// Gives the station up: prints how many pages its document has, and how many of them are confirmed; or the pages.
    fn give_up(self, rt: &HostRuntime) -> io::Result<()> {
        match self {
            Tried::Caller(station) => {
                let (document, confirmed) = station.into_document();
                println!(rt; "document {} confirmed {confirmed}", document.pages().len())
            }
            Tried::Answerer(station) => show_pages(rt, &station.into_pages()),
            _ => Ok(()),
        }
    }
}

/// The station hears what octets say, piece by piece, and is printed after its first turn and after each piece.
fn show_station(rt: &HostRuntime, station: Tried, first: &Turn, heard: &[u8]) -> io::Result<()> {
    let mut station = station;
    station.show(rt, first)?;
    station.hear(rt, heard)?;
    station.give_up(rt)
}

/// Prints why a caller with a wish can't send the first page of a document to the station of a DIS, where it can't.
fn show_reason(rt: &HostRuntime, document: &Document, wish: &Wish, dis: &[u8]) -> io::Result<()> {
    let Ok(Signal::Dis(caps)) = read(dis) else {
        return println!(rt; "no DIS");
    };
    for page in document.pages().iter().take(1) {
        if let Some(width) = PageWidth::of_pixels(page.width()) {
            println!(rt; "why not {:?}", why_not(&caps, wish, width, page.fine()))?;
        }
    }
    Ok(())
}

/// Runs what octets say: a letter for the type of station; the modems' number; whether the code is one-dimensional, the frames are small
/// and the lines fine, an octet each; the number of octets of what is heard in two, the high one first; these, for each input its kind,
/// the number of its octets in two and these; and the images of a caller. With `w` the octets are a DIS, and the reason is printed for
/// which the caller can't send to its station.
pub fn show_tried(rt: &HostRuntime, octets: &[u8]) -> io::Result<()> {
    let Some((letter, said)) = octets.split_first() else {
        return println!(rt; "no station");
    };
    let Some((head, count, rest)) = head_of(said) else {
        return println!(rt; "no station");
    };
    let count = usize::from(count);
    if rest.len() < count {
        return println!(rt; "nothing is heard");
    }
    let (heard, images) = rest.split_at(count);
    if images.is_empty() {
        let (station, turn) = answerer_of(rt.alloc(), *letter);
        return show_station(rt, station, &turn, heard);
    }
    match document_of(rt.alloc(), head, images) {
        Some(document) if *letter == b'w' => show_reason(rt, &document, &head.wish, heard),
        Some(document) => show_calling(rt, *letter, document, head.wish, heard),
        None => println!(rt; "no images"),
    }
}

/// A caller of this letter hears what octets say, and is printed after each piece.
fn show_calling(
    rt: &HostRuntime,
    letter: u8,
    document: Document,
    wish: Wish,
    heard: &[u8],
) -> io::Result<()> {
    match caller_of(rt.alloc(), letter, document, wish) {
        Some(station) => show_station(rt, station, &Turn::Silent, heard),
        None => println!(rt; "no such call"),
    }
}

//! For the gate: what the stations do about a file of octets, its first word. With that word alone, what an answerer makes of a file of
//! feeds, whoever sends them: its turns, a line each, the pages that it stored, each with a number of its octets, and its end; with a
//! second word `few`, the same of an answerer that has few capabilities. With `call`, the octets on the line of the call that the file
//! says; with `caller`, what a caller does about what it hears; with `flood`, what an answerer that has room for two pages does about the
//! page of this code, sent forty times. A feed is an octet of `O` (octets of the line), `C` (a training check), `1` or `2` (the end of a
//! wait), `B` or `R` (busy, ready), the number of octets in two, the high one first, and these octets.

#![tactic(auto)]

ghost use Rattle.std.specs.Prelude.{◌≡◌, true};

mod call;
mod caller;
mod flood;
mod framing;
mod join;
mod shown;
mod station;

use crate::call::show_call;
use crate::caller::show_caller;
use crate::flood::show_flood;
use crate::join::show_joined;
use crate::station::show_tried;
use line_sim::{Answered, Feed, answer_stream};
use raster::Page;
use signals::{Caps, Modems, PageWidth};
use std::alloc::{AllocError, Global};
use std::{env, fs, io};

const CAPS: Caps = Caps {
    receiver: true,
    modems: Modems::V17,
    fine: true,
    widest: PageWidth::W2432,
    t6: true,
    ecm: true,
};

const FEW_CAPS: Caps = Caps {
    receiver: true,
    modems: Modems::V29,
    fine: false,
    widest: PageWidth::W2048,
    t6: false,
    ecm: true,
};

/// The feed of this kind with these octets.
fn feed_of(kind: u8, octets: &[u8]) -> Option<Feed<'_>> {
    match kind {
        b'O' => Some(Feed::Octets(octets)),
        b'C' => Some(Feed::Training(octets)),
        b'1' => Some(Feed::T1),
        b'2' => Some(Feed::T2),
        b'B' => Some(Feed::Busy(true)),
        b'R' => Some(Feed::Busy(false)),
        _ => None,
    }
}

/// The first piece in octets, as a kind, the number of its octets in two and these; and the octets after it.
fn first_piece(octets: &[u8]) -> Option<(u8, &[u8], &[u8])> {
    let (kind, rest) = octets.split_first()?;
    let (high, rest) = rest.split_first()?;
    let (low, rest) = rest.split_first()?;
    let size = usize::from(u16::from_be_bytes([*high, *low]));
    if size > rest.len() {
        return None;
    }
    let (data, rest) = rest.split_at(size);
    Some((*kind, data, rest))
}

/// The first feed in octets, and the octets after it.
fn first_feed(octets: &[u8]) -> Option<(Feed<'_>, &[u8])> {
    let (kind, data, rest) = first_piece(octets)?;
    Some((feed_of(kind, data)?, rest))
}

/// The feeds in octets, up to the first octets that are none.
fn feeds_in(alloc: Global, octets: &[u8]) -> Result<Vec<Feed<'_>>, AllocError> {
    let mut feeds = Vec::new(alloc);
    let mut rest = octets;
    for _ in 0..octets.len() {
        let Some((feed, after)) = first_feed(rest) else {
            break;
        };
        feeds.push(feed)?;
        rest = after;
    }
    Ok(feeds)
}

/// A number of 32 bits of the page's octets.
fn digest(page: &Page) -> u32 {
    let mut number: u32 = 0;
    for row in page.rows() {
        for octet in row.octets() {
            number = number
                .wrapping_mul(31)
                .wrapping_add(u32::from(*octet))
                .wrapping_add(1);
        }
    }
    number
}

/// Prints a page: its pixels a row, whether its lines are fine, its rows and a number of its octets.
fn show_page(rt: &HostRuntime, page: &Page) -> io::Result<()> {
    println!(rt;
        "page {} {} {} {}",
        page.width(),
        page.fine(),
        page.rows().len(),
        digest(page)
    )
}

/// Prints the turns, the pages and the end.
fn show_answered(rt: &HostRuntime, answered: &Answered) -> io::Result<()> {
    for turn in &answered.turns {
        println!(rt; "{turn:?}")?;
    }
    for page in &answered.pages {
        show_page(rt, page)?;
    }
    println!(rt; "end {:?}", answered.ending)
}

/// Sends the feeds in octets to an answerer of these capabilities, and prints what it has made of them.
fn show_stream(rt: &HostRuntime, caps: Caps, octets: &[u8]) -> io::Result<()>
    requires receiver { caps.receiver ≡ true }
    requires ecm { caps.ecm ≡ true }
{
    let feeds = feeds_in(rt.alloc(), octets)?;
    let answered = answer_stream(rt.alloc(), caps, &feeds)?;
    show_answered(rt, &answered)
}

fn main(rt: HostRuntime) -> io::Result<()> {
    let mut words = env::args(&rt)?;
    let _program = words.next();
    let Some(name) = words.next() else {
        return println!(&rt; "which file?");
    };
    let octets = fs::read(&rt, name.as_str())?;
    match words.next() {
        None => show_stream(&rt, CAPS, &octets),
        Some(word) => match word.as_str() {
            "call" => show_call(&rt, &octets),
            "caller" => show_caller(&rt, &octets),
            "flood" => show_flood(&rt, &octets),
            "join" => show_joined(&rt, &octets),
            "station" => show_tried(&rt, &octets),
            _ => show_stream(&rt, FEW_CAPS, &octets),
        },
    }
}

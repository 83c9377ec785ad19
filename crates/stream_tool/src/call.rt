//! The octets on the line of a call: those that each event delivers or loses.

use crate::CAPS;
use line_sim::{Event, World};
use page_code::Coding;
use raster::{Document, read_pbm};
use signals::{Caps, Modems, Side, Wish};
use std::alloc::Global;
use std::io;

/// The modems of this number.
pub fn modems_of(number: u8) -> Modems {
    match number {
        0 => Modems::V17,
        1 => Modems::V27V29,
        2 => Modems::V29,
        3 => Modems::V27,
        _ => Modems::Fallback,
    }
}

/// The code of this number.
pub fn coding_of(number: u8) -> Coding {
    if number == 1 {
        Coding::OneDim
    } else {
        Coding::T6
    }
}

/// The event of this number, as `.ci/data/try_octets.py` counts them, and the station to which it delivers or loses an item.
pub fn event_of(number: u8) -> (Event, Option<Side>) {
    match number {
        0 => (Event::DeliverToAnswerer, Some(Side::Answerer)),
        1 => (Event::DeliverToCaller, Some(Side::Caller)),
        2 => (Event::LoseToAnswerer, Some(Side::Answerer)),
        3 => (Event::LoseToCaller, Some(Side::Caller)),
        4 => (Event::Spoil, None),
        5 => (Event::CallerTimeout, None),
        6 => (Event::CallerT5, None),
        7 => (Event::AnswererT1, None),
        8 => (Event::AnswererT2, None),
        9 => (Event::Busy(true), None),
        _ => (Event::Busy(false), None),
    }
}

/// Prints octets in hex digits.
pub fn show_octets(rt: &HostRuntime, octets: &[u8]) -> io::Result<()> {
    let digits = hex::encode(rt.alloc(), octets)?;
    println!(rt; "{}", digits)
}

/// One event. Prints before it the octets that it delivers or loses, in hex digits, or `-` where there are none.
fn show_event(rt: &HostRuntime, world: &mut World, number: u8) -> io::Result<()> {
    let (event, to) = event_of(number);
    if let Some(side) = to {
        match world.next_octets(side) {
            Some(octets) => show_octets(rt, octets)?,
            None => println!(rt; "-")?,
        }
    }
    let _answer = world.event(event);
    Ok(())
}

/// What octets say of a caller: its wish, and whether the lines of its pages are fine.
#[derive(Clone, Copy)]
pub struct Head {
    pub wish: Wish,
    pub fine: bool,
}

/// The head that octets begin with: the modems' number; whether the code is one-dimensional, the frames are small and the lines fine, an
/// octet each; then a number in two octets, the high one first. The head, the number, and the octets after it.
pub fn head_of(octets: &[u8]) -> Option<(Head, u16, &[u8])> {
    if octets.len() < 6 {
        return None;
    }
    let wish = Wish {
        modems: modems_of(octets[0]),
        coding: coding_of(octets[1]),
        small: octets[2] == 1,
    };
    let fine = octets[3] == 1;
    let number = u16::from_be_bytes([octets[4], octets[5]]);
    Some((Head { wish, fine }, number, &octets[6..]))
}

/// The caller's document, whose images the octets are.
pub fn document_of(alloc: Global, head: Head, octets: &[u8]) -> Option<Document> {
    let mut images = octets;
    read_pbm(alloc, &mut images, head.fine).ok()
}

/// Both stations of the call of a document, and their line.
fn world_of(alloc: Global, head: Head, document: Document) -> Option<World> {
    let caps = Caps {
        modems: head.wish.modems,
        ..CAPS
    };
    World::new(alloc, document, head.wish, caps).ok()
}

/// Runs the call that octets say: the head, with the number of events, the events' numbers, and the images.
pub fn show_call(rt: &HostRuntime, octets: &[u8]) -> io::Result<()> {
    let Some((head, count, rest)) = head_of(octets) else {
        return println!(rt; "no call");
    };
    let count = usize::from(count);
    if rest.len() < count {
        return println!(rt; "no events");
    }
    let (events, images) = rest.split_at(count);
    let Some(document) = document_of(rt.alloc(), head, images) else {
        return println!(rt; "no images");
    };
    match world_of(rt.alloc(), head, document) {
        Some(mut world) => show_events(rt, &mut world, events),
        None => println!(rt; "no such call"),
    }
}

/// The events of a call, one after the other.
fn show_events(rt: &HostRuntime, world: &mut World, events: &[u8]) -> io::Result<()> {
    for number in events {
        show_event(rt, world, *number)?;
    }
    Ok(())
}

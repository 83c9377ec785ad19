//! What a caller does about what it hears: its turns, and the octets of each DCS and training check.

use crate::call::{document_of, head_of, show_octets};
use crate::first_piece;
use signals::{Side, Signal, read, write};
use stations::{Caller, CallerIn, Item, Turn};
use std::alloc::AllocError;
use std::io;

/// The turn that answers the content of a frame, the end of a wait (`T`), or the end of T5 (`5`).
fn answer(caller: &mut Caller, kind: u8, content: &[u8]) -> Result<Turn, AllocError> {
    match kind {
        b'T' => caller.step(CallerIn::Timeout),
        b'5' => caller.step(CallerIn::T5),
        _ => match read(content) {
            Ok(signal) => caller.step(CallerIn::Heard(signal)),
            Err(_) => Ok(Turn::Silent),
        },
    }
}

/// Prints a turn, and the content of its DCS in hex digits and the number of octets of its training check, where it has them.
fn show_turn(rt: &HostRuntime, caller: &Caller, turn: &Turn) -> io::Result<()> {
    println!(rt; "{turn:?}")?;
    let Turn::Training = turn else {
        return Ok(());
    };
    let mut items = caller.frames(turn);
    let Some(Item::Frame { signal, last }) = items.next() else {
        return Ok(());
    };
    let Signal::Dcs(_) = signal else {
        return Ok(());
    };
    let content = write(&signal, Side::Caller, last);
    show_octets(rt, content.as_slice())?;
    let Some(Item::Training(count)) = items.next() else {
        return Ok(());
    };
    println!(rt; "{count}")
}

/// Passes a caller what octets say: a head as that of a call, with the number of octets of what is passed in place of the number of
/// events; then for each input a kind, the number of its octets in two, and these; then the images. Prints each turn, and the end.
pub fn show_caller(rt: &HostRuntime, octets: &[u8]) -> io::Result<()> {
    let Some((head, count, rest)) = head_of(octets) else {
        return println!(rt; "no call");
    };
    let count = usize::from(count);
    if rest.len() < count {
        return println!(rt; "nothing is heard");
    }
    let (heard, images) = rest.split_at(count);
    let Some(document) = document_of(rt.alloc(), head, images) else {
        return println!(rt; "no images");
    };
    match Caller::new(rt.alloc(), document, head.wish) {
        Ok(mut caller) => show_turns(rt, &mut caller, heard),
        Err(_) => println!(rt; "no such call"),
    }
}

/// Passes a caller what octets say, piece by piece. Prints each turn, and the end.
fn show_turns(rt: &HostRuntime, caller: &mut Caller, heard: &[u8]) -> io::Result<()> {
    let mut left = heard;
    for _ in 0..heard.len() {
        let Some((kind, content, after)) = first_piece(left) else {
            break;
        };
        let turn = answer(caller, kind, content)?;
        show_turn(rt, caller, &turn)?;
        left = after;
    }
    println!(rt; "end {:?}", caller.end())
}

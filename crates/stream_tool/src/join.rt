//! Two terminals that hear each other's octets alone, over a line on which the events of a call happen.

use crate::call::{document_of, event_of, head_of};
use crate::framing::{Item, add_burst};
use crate::{CAPS, show_page};
use line_sim::Event;
use signals::{Caps, Modems};
use stations::{Answerer, Caller, Turn, Wait};
use std::alloc::{AllocError, Global};
use std::io;
use terminals::{AnswererTerminal, CallerTerminal, HearFault, Station, Terminal};

/// Both terminals, and what is under way to each, the first item first.
#[derive(Drop)]
struct Joined {
    alloc: Global,
    caller: CallerTerminal,
    answerer: AnswererTerminal,
    to_caller: Vec<Item>,
    to_answerer: Vec<Item>,
    piece: usize,
}

/// The first item under way, taken off the line.
fn take_first(items: &mut Vec<Item>) -> Option<Item> {
    if items.is_empty() {
        return None;
    }
    Some(items.remove(0))
}

/// A terminal hears an item, whose octets come in pieces of a size.
fn hear<S: Station>(to: &mut Terminal<S>, item: &Item, piece: usize) -> Result<(), AllocError> {
    if item.is_check {
        return to.hear_training(&item.octets);
    }
    for part in item.octets.chunks(piece.max(1)) {
        match to.hear(part) {
            Ok(()) => {}
            Err(HearFault::NothingTaken) => return Err(AllocError),
            Err(HearFault::FrameLost) => return Err(AllocError),
        }
    }
    Ok(())
}

/// What a terminal has to send is on its way; what is on its way to it is dropped then.
fn answer<S: Station>(
    alloc: Global,
    from: &mut Terminal<S>,
    towards: &mut Vec<Item>,
    away: &mut Vec<Item>,
) -> Result<(), AllocError> {
    for _ in 0..u8::MAX {
        let Some(burst) = from.next_burst()? else {
            return Ok(());
        };
        towards.clear();
        add_burst(alloc, &burst, away)?;
    }
    Ok(())
}

impl Joined {
    /// A caller and an answerer with these modems, with nothing under way; octets come in pieces of a size.
    fn new(alloc: Global, caller: Caller, modems: Modems, piece: usize) -> Joined {
        let (answerer, first) = Answerer::new(alloc, Caps { modems, ..CAPS });
        Joined {
            alloc,
            caller: Terminal::new(alloc, caller, Turn::Silent),
            answerer: Terminal::new(alloc, answerer, first),
            to_caller: Vec::new(alloc),
            to_answerer: Vec::new(alloc),
            piece,
        }
    }

    /// The answerer's first turn, and then the events of these numbers.
    fn run(&mut self, events: &[u8]) -> Result<(), AllocError> {
        self.answerer_answers()?;
        for number in events {
            let (event, _) = event_of(*number);
            self.happens(event)?;
        }
        Ok(())
    }

    /// The caller's turn is on its way.
    fn caller_answers(&mut self) -> Result<(), AllocError> {
        answer(
            self.alloc,
            &mut self.caller,
            &mut self.to_caller,
            &mut self.to_answerer,
        )
    }

    /// The answerer's turn is on its way.
    fn answerer_answers(&mut self) -> Result<(), AllocError> {
        answer(
            self.alloc,
            &mut self.answerer,
            &mut self.to_answerer,
            &mut self.to_caller,
        )
    }

    /// The first item comes to the answerer.
    fn come_to_answerer(&mut self) -> Result<(), AllocError> {
        if let Some(item) = take_first(&mut self.to_answerer) {
            hear(&mut self.answerer, &item, self.piece)?;
        }
        self.answerer_answers()
    }

    /// The first item comes to the caller.
    fn come_to_caller(&mut self) -> Result<(), AllocError> {
        if let Some(item) = take_first(&mut self.to_caller) {
            hear(&mut self.caller, &item, self.piece)?;
        }
        self.caller_answers()
    }

    /// A wait of the caller is over.
    fn caller_waited(&mut self, wait: Wait) -> Result<(), AllocError> {
        self.caller.wait_over(wait)?;
        self.caller_answers()
    }

    /// A wait of the answerer is over.
    fn answerer_waited(&mut self, wait: Wait) -> Result<(), AllocError> {
        self.answerer.wait_over(wait)?;
        self.answerer_answers()
    }

    /// An event happens.
    fn happens(&mut self, event: Event) -> Result<(), AllocError> {
        match event {
            Event::DeliverToAnswerer => self.come_to_answerer(),
            Event::DeliverToCaller => self.come_to_caller(),
            Event::LoseToAnswerer => {
                let _lost = take_first(&mut self.to_answerer);
                Ok(())
            }
            Event::LoseToCaller => {
                let _lost = take_first(&mut self.to_caller);
                Ok(())
            }
            Event::Spoil => {
                if let Some(item) = self.to_answerer.first_mut() {
                    item.spoil();
                }
                Ok(())
            }
            Event::CallerTimeout => match self.caller.station().waits() {
                Some(wait) => self.caller_waited(wait),
                None => Ok(()),
            },
            Event::CallerT5 => self.caller_waited(Wait::T5),
            Event::AnswererT1 => self.answerer_waited(Wait::T1),
            Event::AnswererT2 => self.answerer_waited(Wait::T2),
            Event::Busy(busy) => {
                self.answerer.set_busy(busy)?;
                self.answerer_answers()
            }
        }
    }
}

/// Runs the call that octets say, as those of `show_call` with the size of the pieces in two octets after the first four, and the number of
/// events in four. Prints both ends, how many pages the caller counts as confirmed, and the pages.
pub fn show_joined(rt: &HostRuntime, octets: &[u8]) -> io::Result<()> {
    let Some((head, piece, rest)) = head_of(octets) else {
        return println!(rt; "no call");
    };
    let Some((count, rest)) = count_of(rest) else {
        return println!(rt; "no call");
    };
    if rest.len() < count {
        return println!(rt; "no events");
    }
    let (events, images) = rest.split_at(count);
    let Some(document) = document_of(rt.alloc(), head, images) else {
        return println!(rt; "no images");
    };
    let Ok(caller) = Caller::new(rt.alloc(), document, head.wish) else {
        return println!(rt; "no such call");
    };
    let mut joined = Joined::new(rt.alloc(), caller, head.wish.modems, usize::from(piece));
    joined.run(events)?;
    show_ends(rt, &joined)
}

/// The number in the first four octets, the high one first, and the octets after them.
fn count_of(octets: &[u8]) -> Option<(usize, &[u8])> {
    if octets.len() < 4 {
        return None;
    }
    let count = u32::from_be_bytes([octets[0], octets[1], octets[2], octets[3]]);
    Some((count as usize, &octets[4..]))
}

/// Prints both ends, and the pages.
fn show_ends(rt: &HostRuntime, joined: &Joined) -> io::Result<()> {
    let caller = joined.caller.station();
    let answerer = joined.answerer.station();
    println!(rt;
        "caller {:?} confirmed {}",
        caller.end(),
        caller.confirmed()
    )?;
    println!(rt;
        "answerer {:?} pages {}",
        answerer.end(),
        answerer.pages().len()
    )?;
    for page in answerer.pages() {
        show_page(rt, page)?;
    }
    Ok(())
}

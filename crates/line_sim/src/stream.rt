//! An answerer over the octets of a line, whoever sends them.

ghost use Rattle.line_sim.specs.Streams.{Hears, HasHeard, IsStored, TakesFeed, answers, contents, heard, heard_if};
ghost use Rattle.line_sim.specs.Streams.{line_octets, plain_answered, plain_feed};
ghost use Rattle.signals.specs.Reading.{read_content};
ghost use Rattle.stations.specs.Inputs.{answerer_input};
ghost use Rattle.stations.specs.Laws.{Each};
ghost use Rattle.std.specs.Prelude.{◌≡◌, [], ◌∷◌, List, ℕ, map, true, IfOk, OnOk};

use crate::laws::foreign_peers;
use hdlc::Deframer;
use raster::Page;
use signals::Caps;
use stations::{Answerer, AnswererIn, End, Turn};
use std::alloc::{AllocError, Global};

/// What an answerer over the octets of a line is given. It has no signals: these come by octets alone.
#[derive(Clone, Copy, Debug, PartialEq, Eq)]
pub enum Feed<'a> {
    /// Octets of the line, the least significant bit of each first; they may be cut anywhere.
    Octets(&'a [u8]),
    /// The octets of a training check, without flags.
    Training(&'a [u8]),
    /// The wait for a caller is over.
    T1,
    /// The wait for a command is over.
    T2,
    /// Pages can't be taken for now (true), or can again (false).
    Busy(bool),
}

/// What an answerer has made of the octets of a line.
#[derive(Debug, Drop)]
pub struct Answered {
    /// The first DIS, and then a turn for each signal heard and for each feed that isn't octets of the line, in order; silent ones after
    /// the call has ended.
    pub turns: Vec<Turn>,
    /// The pages stored, in order.
    pub pages: Vec<Page>,
    /// Why the call has ended, if it has.
    pub ending: Option<End>,
}

/// The answerer takes an input, and its turn is added. Errs if memory is refused.
fn hear(
    answerer: &mut Answerer,
    turns: &mut Vec<Turn>,
    input: AnswererIn<'_>,
) -> Result<(), AllocError>
    ensures { OnOk result (Hears (answerer_input input.entry ∷ []) answerer.old answerer.new turns.old.items turns.new.items) }
{
    let turn = answerer.step(input)?;
    turns.push(turn)?;
    Ok(())
}

/// The answerer hears the signal that a content says; a content that says none is left out. Errs if memory is refused.
fn hear_content(
    answerer: &mut Answerer,
    turns: &mut Vec<Turn>,
    content: &[u8],
) -> Result<(), AllocError>
    ensures { OnOk result (Hears (heard_if (read_content content.now)) answerer.old answerer.new turns.old.items turns.new.items) }
{
    let Ok(signal) = signals::read(content) else {
        return Ok(());
    };
    hear(answerer, turns, AnswererIn::Heard(signal))
}

/// The answerer hears the signals of all contents that wait. Errs if memory is refused.
fn hear_waiting(
    deframer: &mut Deframer,
    answerer: &mut Answerer,
    turns: &mut Vec<Turn>,
) -> Result<(), AllocError>
    ensures heard { OnOk result (Hears (heard deframer.old.queue) answerer.old answerer.new turns.old.items turns.new.items) }
    ensures taken { OnOk result (deframer.new ≡ record deframer.old { queue = [] }) }
{
    while let Some(content) = deframer.next() {
        hear_content(answerer, turns, content)?;
    }
    Ok(())
}

/// The answerer takes a feed. Errs if memory is refused.
fn take_feed(
    deframer: &mut Deframer,
    answerer: &mut Answerer,
    turns: &mut Vec<Turn>,
    feed: Feed<'_>,
) -> Result<(), AllocError>
    ensures { OnOk result ((octets : List ℕ) → HasHeard deframer.old octets →
        TakesFeed octets (plain_feed feed.entry) deframer.new answerer.old answerer.new turns.old.items turns.new.items) }
{
    match feed {
        Feed::Octets(octets) => {
            // The whole feed goes to the deframer before its contents are read; by the clause on cutting nothing shows where a feed ends.
            deframer.feed(octets)?;
            hear_waiting(deframer, answerer, turns)
        }
        Feed::Training(octets) => hear(answerer, turns, AnswererIn::Training(octets)),
        Feed::T1 => hear(answerer, turns, AnswererIn::T1),
        Feed::T2 => hear(answerer, turns, AnswererIn::T2),
        Feed::Busy(busy) => hear(answerer, turns, AnswererIn::Busy(busy)),
    }
}

/// What a new answerer of these capabilities makes of feeds, whoever is on the line: its turns, the pages stored and its end. All octets of
/// the line go to one deframer. The content of each good frame is read as soon as the frame has ended; its signal is heard, and a content
/// that says none is left out. So it doesn't matter where the octets of the line are cut, and each page stored is read from the data fields
/// of FCDs that came in good frames (clause `stored`). Errs if memory is refused.
pub fn answer_stream(alloc: Global, caps: Caps, feeds: &[Feed<'_>]) -> Result<Answered, AllocError>
    requires receiver { caps.receiver ≡ true }
    requires ecm { caps.ecm ≡ true }
    ensures answers { IfOk result (λ answered. plain_answered answered ≡ answers caps (map plain_feed feeds.now)) }
    ensures stored { IfOk result (λ answered.
        Each (IsStored caps (contents (line_octets (map plain_feed feeds.now)))) answered.pages.items) }
{
    foreign_peers();
    let mut deframer = Deframer::new(alloc);
    let (mut answerer, first) = Answerer::new(alloc, caps);
    let mut turns = Vec::new(alloc);
    turns.push(first)?;
    for feed in feeds {
        take_feed(&mut deframer, &mut answerer, &mut turns, *feed)?;
    }
    let ending = answerer.end();
    Ok(Answered {
        turns,
        pages: answerer.into_pages(),
        ending,
    })
}

//! The picture of a call of which both directions were captured: its frames, in the order in which they are drawn.

ghost use Rattle.call_pictures.specs.CapturedCalls.{AreFramesOf, IsDrawnOf, before_after, content_frame, entry_of, frames_of};
ghost use Rattle.call_pictures.specs.CapturedCalls.{is_answer, left_after, next_frame, others_of};
ghost use Rattle.captures.specs.Contents.{ReadsAll};
ghost use Rattle.faults.specs.Faults.{IsOutside};
ghost use Rattle.std.specs.Prelude.{◌≡◌, ◌+◌, ◌++◌, ◌∷◌, [], IfErr, IfOk, OnOk, None, Some};

use crate::ladder::Ladder;
use calls::after;
use captures::ContentReader;
use faults::{FAILED, NO_MEMORY, ToolFault};
use line_sim::{Entry, Event, Fields, Kind};
use raster::packed::Order;
use signals::Side;
use stations::Turn;
use std::alloc::Global;
use std::io::Read;

/// A frame of a capture.
#[derive(Clone, Copy, Debug)]
pub struct CapturedFrame {
    /// The kind of its signal.
    pub kind: Kind,
    /// What its information field says.
    pub fields: Fields,
}

/// The frames of a capture: those of one station.
#[derive(Debug, Drop)]
pub struct CapturedFrames {
    /// The good frames whose signal is known, in order.
    pub known: Vec<CapturedFrame>,
    /// How many other good frames there are: their signal isn't known or can't be read.
    pub others: u64,
}

/// The frame of a content; None if its signal isn't known or can't be read.
fn frame_of(content: &[u8]) -> Option<CapturedFrame>
    ensures { result ≡ content_frame content.now }
{
    let Ok(signal) = signals::read(content) else {
        return None;
    };
    let kind = Kind::of(&signal)?;
    Some(CapturedFrame {
        kind,
        fields: Fields::of(&signal),
    })
}

impl CapturedFrames {
    /// Takes the frame with this content. Errs with `FAILED` (8) if there would be 2^64 others, and with `NO_MEMORY`.
    fn take(&mut self, content: &[u8]) -> Result<(), ToolFault>
        ensures known { OnOk result (self.new.known.items ≡ self.old.known.items ++ frames_of (content.now ∷ [])) }
        ensures others { OnOk result (self.new.others ≡ self.old.others + others_of (content.now ∷ [])) }
        ensures fault { IfErr result IsOutside }
    {
        match frame_of(content) {
            Some(frame) => self.known.push(frame).map_err(|_refused| NO_MEMORY)?,
            None => self.others = after(self.others)?,
        }
        Ok(())
    }
}

/// Reads the frames of a capture, whose octets have the bits in this order. Errs with `FAILED` (8) if the reader fails or doesn't end in
/// 2^64 reads, and with `NO_MEMORY` (9).
pub fn captured_frames<R: Read>(
    alloc: Global,
    reader: &mut R,
    order: Order,
) -> Result<CapturedFrames, ToolFault>
    ensures found { IfOk result (λ frames. ReadsAll (R.remaining reader.old) (R.remaining reader.new) (λ octets.
        AreFramesOf order octets frames)) }
    ensures fault { IfErr result IsOutside }
{
    let mut contents = ContentReader::new(alloc, order);
    let mut frames = CapturedFrames {
        known: Vec::new(alloc),
        others: 0,
    };
    for _content in 0..u64::MAX {
        let more = contents.advance(reader)?;
        if !more {
            return Ok(frames);
        }
        frames.take(contents.content())?;
    }
    Err(FAILED)
}

/// What is drawn last.
#[derive(Clone, Copy)]
pub(crate) enum Before {
    /// Nothing yet.
    Nothing,
    /// A frame of the caller.
    Command(Kind),
    /// A frame of the answerer.
    Answer,
}

/// A frame, and who sent it.
#[derive(Clone, Copy)]
pub(crate) struct LineFrame {
    /// Who sent it.
    pub(crate) from: Side,
    /// What it is.
    pub(crate) frame: CapturedFrame,
}

/// True if a frame answers a command.
fn answers(command: Kind, kind: Kind) -> bool
    ensures { result ≡ is_answer (Before.Command command) kind }
{
    match (command, kind) {
        (Kind::Dcs, Kind::Cfr | Kind::Ftt) => true,
        (Kind::Pps | Kind::Rr, Kind::Mcf | Kind::Ppr | Kind::Rnr) => true,
        _ => false,
    }
}

/// True if the answerer says a frame after what is drawn last.
fn is_answer(before: Before, kind: Kind) -> bool
    ensures { result ≡ is_answer before kind }
{
    match before {
        Before::Command(command) => answers(command, kind),
        Before::Nothing | Before::Answer => matches!(kind, Kind::Dis),
    }
}

/// The frame that is drawn next, if each station has one left.
fn chosen(before: Before, next: CapturedFrame, frame: CapturedFrame) -> LineFrame
    ensures { Some result ≡ next_frame before (next ∷ []) (frame ∷ []) }
{
    if is_answer(before, frame.kind) {
        LineFrame {
            from: Side::Answerer,
            frame,
        }
    } else {
        LineFrame {
            from: Side::Caller,
            frame: next,
        }
    }
}

/// The frame that is drawn next of those that are left: the answerer's if it is an answer, else the caller's if it has one.
fn next_frame(
    before: Before,
    caller: &[CapturedFrame],
    answerer: &[CapturedFrame],
) -> Option<LineFrame>
    ensures { result ≡ next_frame before caller.now answerer.now }
{
    match (caller.first(), answerer.first()) {
        (None, None) => None,
        (None, Some(frame)) => Some(LineFrame {
            from: Side::Answerer,
            frame: *frame,
        }),
        (Some(next), None) => Some(LineFrame {
            from: Side::Caller,
            frame: *next,
        }),
        (Some(next), Some(frame)) => Some(chosen(before, *next, *frame)),
    }
}

impl LineFrame {
    /// What is drawn last, after this frame.
    fn before(self) -> Before
        ensures { result ≡ before_after self }
    {
        match self.from {
            Side::Caller => Before::Command(self.frame.kind),
            Side::Answerer => Before::Answer,
        }
    }

    /// The event that is drawn for it.
    fn entry(self) -> Entry
        ensures { result ≡ entry_of self }
    {
        let event = match self.from {
            Side::Caller => Event::DeliverToAnswerer,
            Side::Answerer => Event::DeliverToCaller,
        };
        Entry {
            event,
            item: Some(self.frame.kind),
            fields: self.frame.fields,
            turn: Turn::Silent,
            fcds: 0,
            refused: false,
        }
    }
}

/// The frames of a station that are left after one of `from` was drawn.
fn left_after(side: Side, from: Side, frames: &[CapturedFrame]) -> &[CapturedFrame]
    ensures { result.now ≡ left_after side from frames.now }
{
    match (side, from) {
        (Side::Caller, Side::Caller) | (Side::Answerer, Side::Answerer) => {
            frames.get(1..).unwrap_or(frames)
        }
        _ => frames,
    }
}

/// What a picture of two captures is drawn from, by the frames of the caller and of the answerer: each frame once, as one that comes, and
/// each answer after the first command that it can answer. Errs with `FAILED` (8) if there are 2^64 frames, and with `NO_MEMORY` (9).
pub fn ladder_of(
    alloc: Global,
    caller: &[CapturedFrame],
    answerer: &[CapturedFrame],
) -> Result<Ladder, ToolFault>
    ensures drawn { IfOk result (λ ladder. IsDrawnOf caller.now answerer.now ladder.entries) }
    ensures feet { IfOk result (λ ladder. ladder.feet ≡ None) }
    ensures fault { IfErr result IsOutside }
{
    let mut ladder = Ladder::new(alloc);
    let mut number = 0;
    let mut before = Before::Nothing;
    let mut caller = caller;
    let mut answerer = answerer;
    while let Some(frame) = next_frame(before, caller, answerer) {
        number = after(number)?;
        ladder.add(number, &frame.entry())?;
        before = frame.before();
        caller = left_after(Side::Caller, frame.from, caller);
        answerer = left_after(Side::Answerer, frame.from, answerer);
    }
    Ok(ladder)
}

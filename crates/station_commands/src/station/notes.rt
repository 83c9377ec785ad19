//! What is noted of a station's call while it runs, beside its trace, and what the other station says that is no signal of ours.

ghost use Rattle.station_commands.specs.CallNotes.{IsLack, IsMissing, ends_all, ends_document, is_confirmation, is_of_mark, is_whole};
ghost use Rattle.station_commands.specs.CallNotes.{known_heard, no_notes, noted_heard, noted_said, with_pps};
ghost use Rattle.signals.specs.Signals.{plain, plain_read};
ghost use Rattle.faults.specs.Faults.{IsOutside};
ghost use Rattle.std.specs.Prelude.{◌≡◌, ◌+◌, ◌-◌, ◌^◌, IfErr, None, Some, min, not};

use crate::station::lateness::Lateness;
use crate::station::records::{other_line, write_heard, write_heard_words, write_lost};
use crate::station::trace::Trace;
use command_files::error_line::ErrorLine;
use command_files::notices::notice_as;
use command_files::streams::Streams;
use conversations::{Follower, Heard};
use faults::ToolFault;
use signals::{Caps, Mark, PageEnd, PageWidth, Pps, Reason, Signal, SignalFault, Wish, why_not};
use stations::Carrier;
use std::marker::Model;
use terminals::{Figures, Watch};

/// What is noted of the frames that a station heard, and of those that it said.
#[derive(Clone, Copy, Debug, PartialEq, Eq)]
pub(crate) struct Noted {
    /// The last PPS that it heard.
    pps: Option<Pps>,
    /// What the last DIS offers that it heard.
    caps: Option<Caps>,
    /// Whether it said MCF last.
    confirms: bool,
    /// What the call came to so far.
    figures: Figures,
}

impl Noted {
    /// Nothing was heard or said.
    const NOTHING: Noted = Noted {
        pps: None,
        caps: None,
        confirms: false,
        figures: Figures::NONE,
    };

    /// What is noted once a content was heard too, which says this.
    fn heard(self, content: &[u8], said: Result<Signal<'_>, SignalFault>) -> Noted
        ensures { result ≡ noted_heard self content.now (plain_read said.entry) }
    {
        Noted {
            figures: self.figures.heard(content, said),
            ..self.known(said)
        }
    }

    /// What is noted once a signal was said too.
    fn said(self, signal: Signal<'_>) -> Noted
        ensures { result ≡ noted_said self (plain signal.entry) }
    {
        Noted {
            confirms: is_confirmation(signal),
            figures: self.figures.said(signal),
            ..self
        }
    }

    /// What is noted, beside the figures, once a content that says this was heard too.
    fn known(self, said: Result<Signal<'_>, SignalFault>) -> Noted
        ensures { result ≡ known_heard self (plain_read said.entry) }
    {
        match said {
            Ok(
                Signal::Pps {
                    ends,
                    page,
                    block,
                    last,
                },
            ) => self.heard_pps(Pps {
                ends,
                mark: Mark { page, block },
                last,
            }),
            Ok(Signal::Dis(caps)) => Noted {
                caps: Some(caps),
                ..self
            },
            _ => self,
        }
    }

    /// What is noted once a PPS was heard: nothing of one that repeats a block which was confirmed.
    fn heard_pps(self, pps: Pps) -> Noted
        ensures { result ≡ with_pps self pps }
    {
        if self.confirms && is_of_mark(self.pps, pps.mark) {
            return self;
        }
        Noted {
            pps: Some(pps),
            ..self
        }
    }

    /// Whether the call of an answerer is whole whose last accepted block has this mark: the block ended the document, MCF was said last, and
    /// there was no gap in the numbers of pages.
    pub(crate) fn is_whole(self, accepted: Option<Mark>, gap: bool) -> bool
        ensures { result ≡ is_whole self accepted gap }
    {
        self.confirms && ends_document(self.pps, accepted) && !gap
    }

    /// Returns what the call came to so far.
    pub(crate) fn figures(self) -> Figures
        ensures { result ≡ self.figures }
    {
        self.figures
    }

    /// Whether MCF wasn't said last.
    pub(crate) fn is_unconfirmed(self) -> bool
        ensures { result ≡ not self.confirms }
    {
        !self.confirms
    }

    /// What the answerer lacks, of stations that aren't compatible.
    pub(crate) fn missing(self, wish: Wish, fine: bool) -> Option<Reason>
        ensures { IsMissing self.caps wish fine result }
    {
        let caps = self.caps?;
        Some(lack_of(caps, wish, fine))
    }
}

/// Returns what an answerer that offers this lacks, of stations that aren't compatible.
fn lack_of(caps: Caps, wish: Wish, fine: bool) -> Reason
    ensures { IsLack caps wish fine result }
{
    match why_not(&caps, &wish, PageWidth::W1728, fine) {
        Some(reason) => reason,
        None => Reason::TooWide,
    }
}

/// Whether the block of a PPS has this mark.
fn is_of_mark(pps: Option<Pps>, mark: Mark) -> bool
    ensures { result ≡ is_of_mark pps mark }
{
    match pps {
        Some(heard) => heard.mark.is_same(mark),
        None => false,
    }
}

/// Whether the last PPS is that of the last accepted block, and ended the document.
fn ends_document(pps: Option<Pps>, accepted: Option<Mark>) -> bool
    ensures { result ≡ ends_document pps accepted }
{
    match (pps, accepted) {
        (Some(last), Some(accepted)) => ends_all(last.ends) && last.mark.is_same(accepted),
        _ => false,
    }
}

/// Whether a block with this end is the last one of the document.
fn ends_all(ends: PageEnd) -> bool
    ensures { result ≡ ends_all ends }
{
    match ends {
        PageEnd::Null | PageEnd::Mps | PageEnd::Eom => false,
        PageEnd::Eop => true,
    }
}

/// Whether a signal is MCF.
fn is_confirmation(signal: Signal<'_>) -> bool
    ensures { result ≡ is_confirmation (plain signal.entry) }
{
    matches!(signal, Signal::Mcf)
}

/// Where what was heard at a time is told, if it is.
#[derive(Clone, Copy)]
struct Teller<'a> {
    streams: &'a Streams<'a>,
    records: bool,
    at: u64,
}

impl Teller<'_> {
    /// Writes the words of a content that is no signal of ours, as a line.
    fn write_words(
        self,
        octet: u8,
        content: &[u8],
        line: &mut ErrorLine<'_>,
    ) -> Result<(), ToolFault>
        ensures { IfErr result IsOutside }
    {
        let fields = content.get(3..).unwrap_or(&[]);
        let alloc = self.streams.rt().alloc();
        // without memory for its name it is said as the list of frames does
        let words = other_line(alloc, octet, fields).unwrap_or(Vec::new(alloc));
        write_heard_words(self.at, content, &words, line)
    }

    /// Tells of a content that says this, if it is no signal of ours.
    fn tell(self, content: &[u8], said: Result<Signal<'_>, SignalFault>) {
        let Ok(Signal::Other(octet)) = said else {
            return;
        };
        let fields = content.get(3..).unwrap_or(&[]);
        let mut line = ErrorLine::new(self.streams);
        let made = if self.records {
            write_heard(self.streams.rt().alloc(), self.at, octet, fields, &mut line)
        } else {
            self.write_words(octet, content, &mut line)
        };
        line.end(made);
    }
}

/// Observes a call: writes its trace, if one is asked for, and notes what is known of it at its end.
#[derive(Drop)]
pub(crate) struct Notes<'a> {
    streams: &'a Streams<'a>,
    records: bool,
    trace: Trace<'a>,
    lateness: Lateness<'a>,
    // the time of the last line
    at: u64,
    noted: Noted,
    lost: u64,
}

impl<'a> Model for Notes<'a> {
    ghost use Rattle.station_commands.specs.Following.{NotesFields};

    ghost Value = { NotesFields };

    ghost view = { λ notes. record { noted = notes.noted; lateness = notes.lateness; lost = notes.lost } };
}

impl Watch for Notes<'_> {
    ghost use Rattle.station_commands.specs.Following.{notes_heard, notes_said};

    ghost saw = { notes_heard };

    ghost saw_said = { notes_said };

    fn see(&mut self, content: &[u8], said: Result<Signal<'_>, SignalFault>) {
        self.noted = self.noted.heard(content, said);
        self.trace.heard(self.at, content, said);
        let teller = Teller {
            streams: self.streams,
            records: self.records,
            at: self.at,
        };
        teller.tell(content, said);
    }

    fn see_said(&mut self, content: &[u8], signal: Signal<'_>) {
        self.noted = self.noted.said(signal);
        self.trace.said(self.at, content, signal);
    }
}

impl Follower for Notes<'_> {
    ghost use Rattle.station_commands.specs.Following.{JudgesAnswer, MeetsLine};

    ghost notes = { λ old at new. MeetsLine old at new };

    ghost judges = { λ old at late new. JudgesAnswer old at late new };

    fn begin_line(&mut self, at: u64, begun: bool) {
        self.at = at;
        if !begun {
            return;
        }
        self.lateness.note(at);
    }

    fn end_line(&mut self, heard: Heard) {
        self.trace.end_line(self.at, heard);
    }

    // Said on standard error, as nothing of the answer is sent.
    fn is_late(&mut self, at: u64) -> bool {
        let is_late = self.lateness.is_late(at);
        if is_late {
            self.tell_late(at);
        }
        is_late
    }

    fn end_burst(&mut self, carrier: Carrier) {
        self.trace.end_burst(self.at, carrier);
    }
}

impl<'a> Notes<'a> {
    /// What is noted of a call that hasn't begun. `records` if what is no signal of ours is told.
    pub(crate) fn new(
        streams: &'a Streams<'a>,
        records: bool,
        trace: Trace<'a>,
        lateness: Lateness<'a>,
    ) -> Notes<'a>
        ensures noted { result.noted ≡ no_notes }
        ensures lateness { result.lateness ≡ lateness.entry }
    {
        Notes {
            streams,
            records,
            trace,
            lateness,
            at: 0,
            noted: Noted::NOTHING,
            lost: 0,
        }
    }

    /// Notes that a line is lost since memory was refused, and tells it of the first one. `at` is the time of the last line that wasn't.
    pub(crate) fn lose_line(&mut self, at: u64)
        ensures counted { self.new.lost ≡ min (self.old.lost + 1) (2 ^ 64 - 1) }
        ensures rest { self.new.noted ≡ self.old.noted }
    {
        self.lost = self.lost.saturating_add(1);
        if self.lost == 1 {
            self.tell_lost(at);
        }
    }

    /// Tells how many lines are lost at the end, if there are more than the first one.
    pub(crate) fn end(&mut self, at: u64)
        ensures { (self.new.lost ≡ self.old.lost) × (self.new.noted ≡ self.old.noted) }
    {
        if self.lost > 1 {
            self.tell_lost(at);
        }
    }

    /// Tells how many lines are lost, in the trace too.
    fn tell_lost(&mut self, at: u64)
        ensures { (self.new.lost ≡ self.old.lost) × (self.new.noted ≡ self.old.noted) }
    {
        let mut line = ErrorLine::new(self.streams);
        let made = write_lost(self.records, at, self.lost, &mut line);
        line.end(made);
        self.trace.lost(at, self.lost);
    }

    /// Tells that the answer to the line of a time isn't sent.
    fn tell_late(&self, at: u64) {
        let alloc = self.streams.rt().alloc();
        let Ok(words) = format!(in alloc;
            "the answer to the line at {at} isn't sent: it comes too late"
        ) else {
            return;
        };
        let _told = notice_as(self.streams, self.records, words.as_str());
    }

    /// What was noted.
    pub(crate) fn noted(&self) -> Noted
        ensures { result ≡ self.now.noted }
    {
        self.noted
    }
}

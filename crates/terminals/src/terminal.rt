//! A station over the bits of a line.

ghost use Rattle.std.specs.Prelude.{◌≡◌, ℕ, List, [], OnOk, OnErr};
ghost use Rattle.hdlc.specs.DeframerState.{IsAfter};
ghost use Rattle.signals.specs.Reading.{read_content};
ghost use Rattle.terminals.specs.Hearing.{HasHeard, check, over, busy, good_frames, heard_if};
ghost use Rattle.terminals.specs.Runs.{Hears, TakesAll};
ghost use Rattle.terminals.specs.Sending.{HasBurst, Sends};
ghost use Rattle.terminals.specs.Speaking.{Takes, is_mcf};
ghost use Rattle.terminals.specs.Stations.{without_pages};
ghost use Rattle.terminals.specs.Stopping.{IsShown, hung_up, silenced, stopped, with_pages_taken};
ghost use Rattle.terminals.specs.Watching.{SawSent, SeesByIfTaken, SeesIfTaken, seen_reading};

use crate::fault::HearFault;
use crate::input::Input;
use crate::sending::SentBurst;
use crate::speaking::{Speaker, hear_waiting};
use crate::station::Station;
use crate::stopping::{Shown, Stoppable};
use crate::watching::{Watch, Watched};
use hdlc::Deframer;
use raster::Page;
use stations::{Answerer, Caller, LimitedAnswerer, Turn, Wait};
use std::alloc::{AllocError, Global};
use std::marker::Model;

/// A station that hears the octets of a line and keeps its turn for sending. The turn of a step takes the place of the
/// one that is kept, sent or not; a silent turn does not.
#[derive(Debug, Drop)]
pub struct Terminal<S: Station> {
    alloc: Global,
    deframer: Deframer,
    speaker: Speaker<S>,
}

/// A terminal of the calling station.
pub type CallerTerminal = Terminal<Caller>;

/// A terminal of the answering station.
pub type AnswererTerminal = Terminal<Answerer>;

impl<S: Station> Model for Terminal<S> {
    ghost use Rattle.terminals.specs.Runs.{TerminalFields};

    ghost Value = { TerminalFields S };

    ghost view = { λ t. record { framing = t.deframer; speaking = t.speaker } };
}

impl<S: Station> Terminal<S> {
    /// A terminal of a station, with its first turn to be sent: an answerer's DIS, or a caller's silence. Takes no
    /// memory.
    pub fn new(alloc: Global, station: S, first: Turn) -> Terminal<S>
        ensures framing { IsAfter result.framing [] 0 }
        ensures speaking { result.speaking ≡ record { station = station; turn = first; taken = 0 } }
    {
        Terminal {
            alloc,
            deframer: Deframer::new(alloc),
            speaker: Speaker::new(station, first),
        }
    }

    /// Returns the station itself: its waits, what it listens for, its parameters, its pages and its end.
    pub fn station(&self) -> &S
        ensures { result.now ≡ self.now.speaking.station }
    {
        &self.speaker.station
    }

    /// Returns the station itself; what was heard, and the turn that is kept, are given up.
    pub fn into_station(self) -> S
        ensures { result ≡ self.speaking.station }
    {
        self.speaker.station
    }

    /// Returns how many good frames the octets heard so far had; the count stops at 2^64 - 1.
    pub fn good_frames(&self) -> u64
        ensures { (octets : List ℕ) → HasHeard self.now.framing octets → result ≡ good_frames octets }
    {
        self.deframer.counts().good
    }

    /// Hears the next octets of the line, any octets in pieces of any size, the least significant bit of each first.
    /// The station takes the signal of each good frame, in order, but for those that come while a burst of its turn is left to be sent: of
    /// these it takes DCN alone. Frames with a wrong check sequence, and contents that say no signal, are ignored. `NothingTaken` if memory is
    /// refused before the octets are taken: nothing has changed, and they can be heard again. `FrameLost` if it is refused to a step: a frame
    /// is lost, as on a line.
    pub fn hear(&mut self, octets: &[u8]) -> Result<(), HearFault>
        ensures { Hears S.steps S.lends self.old octets.now self.new result }
    {
        let mut nothing: Option<Watched> = None;
        let mut none: Option<Watched> = None;
        self.hear_by(octets, &mut nothing, &mut none)
    }

    /// Hears octets as `hear` does. What is watched, and a second watch, see each good frame, read once, also if the frame is lost to the
    /// station.
    pub fn hear_by<W: Watch>(
        &mut self,
        octets: &[u8],
        watched: &mut Option<Watched>,
        watch: &mut W,
    ) -> Result<(), HearFault>
        ensures hears { Hears S.steps S.lends self.old octets.now self.new result }
        ensures sees { SeesIfTaken self.old.framing octets.now watched.old watched.new result }
        ensures seen { SeesByIfTaken W.saw self.old.framing octets.now watch.old watch.new result }
    {
        if let Err(_) = self.deframer.feed(octets) {
            return Err(HearFault::NothingTaken);
        }
        if hear_waiting(&mut self.deframer, &mut self.speaker, watched, watch) {
            return Ok(());
        }
        Err(HearFault::FrameLost)
    }

    /// Hears the content of a good frame that was found elsewhere: the station takes the signal that it says, or nothing if it says none,
    /// or one that isn't DCN while a burst of its turn is left to be sent. What is watched, and a second watch, see it, read once. The octets
    /// heard so far, and the count of good frames in them, stay. `AllocError` if memory is refused to the step: the frame is lost, as on a
    /// line, and was seen.
    pub fn hear_content<W: Watch>(
        &mut self,
        content: &[u8],
        watched: &mut Option<Watched>,
        watch: &mut W,
    ) -> Result<(), AllocError>
        ensures ok { OnOk result (TakesAll S.steps S.lends self.old.speaking (heard_if (read_content content.now)) self.new.speaking) }
        ensures err { OnErr result (self.new ≡ self.old) }
        ensures framing { self.new.framing ≡ self.old.framing }
        ensures sees { watched.new
            ≡ seen_reading watched.old content.now (read_content content.now) }
        ensures seen { watch.new ≡ W.saw watch.old content.now (read_content content.now) }
    {
        let said = signals::read(content);
        watched.see(content, said);
        watch.see(content, said);
        if self.speaker.hear_said(said) {
            return Ok(());
        }
        Err(AllocError)
    }

    /// The station hears the octets of a training check. `AllocError` if memory is refused; nothing changes.
    pub fn hear_training(&mut self, octets: &[u8]) -> Result<(), AllocError>
        ensures ok { OnOk result (Takes S S.steps self.old.speaking (check octets.now) self.new.speaking) }
        ensures err { OnErr result (self.new ≡ self.old) }
        ensures framing { self.new.framing ≡ self.old.framing }
    {
        self.speaker.hear(Input::Training(octets))
    }

    /// A wait of the station is over; one that doesn't run changes nothing. `AllocError` if memory is refused; nothing
    /// changes.
    pub fn wait_over(&mut self, wait: Wait) -> Result<(), AllocError>
        ensures ok { OnOk result (Takes S S.steps self.old.speaking (over wait) self.new.speaking) }
        ensures err { OnErr result (self.new ≡ self.old) }
        ensures framing { self.new.framing ≡ self.old.framing }
    {
        self.speaker.hear(Input::Over(wait))
    }

    /// From now on pages can't be taken (`is`), or they can again. `AllocError` if memory is refused; nothing changes.
    pub fn set_busy(&mut self, is: bool) -> Result<(), AllocError>
        ensures ok { OnOk result (Takes S S.steps self.old.speaking (busy is) self.new.speaking) }
        ensures err { OnErr result (self.new ≡ self.old) }
        ensures framing { self.new.framing ≡ self.old.framing }
    {
        self.speaker.hear(Input::Busy(is))
    }

    /// Returns whether a burst of the turn that is kept is left to be sent. Takes no memory.
    pub fn has_burst(&self) -> bool
        ensures { HasBurst S.lends self.now.speaking result }
    {
        self.speaker.has_burst()
    }

    /// Returns whether the turn that is kept is MCF, which confirms all blocks that were accepted so far. Takes no memory.
    pub fn confirms(&self) -> bool
        ensures { result ≡ is_mcf self.now.speaking.turn }
    {
        self.speaker.confirms()
    }

    /// Takes the next burst of the turn that is kept, to be sent: flags, the frames of its items, flags; or the zeros
    /// of a training check. None if all were taken. `AllocError` if memory is refused; nothing changes.
    pub fn next_burst(&mut self) -> Result<Option<SentBurst>, AllocError>
        ensures sends { Sends S.sends S.lends self.old.speaking self.new.speaking result }
        ensures framing { self.new.framing ≡ self.old.framing }
    {
        let mut nothing: Option<Watched> = None;
        self.next_burst_by(&mut nothing)
    }

    /// Takes the next burst as `next_burst` does; a watch sees each of its frames once the burst is whole.
    pub fn next_burst_by<W: Watch>(
        &mut self,
        watch: &mut W,
    ) -> Result<Option<SentBurst>, AllocError>
        ensures sends { Sends S.sends S.lends self.old.speaking self.new.speaking result }
        ensures framing { self.new.framing ≡ self.old.framing }
        ensures says { SawSent W.saw_said S.sends S.lends self.old.speaking watch.old watch.new result }
    {
        self.speaker.next_burst(self.alloc, watch)
    }
}

impl<S: Stoppable> Terminal<S> {
    /// Stops the call: DCN takes the place of the turn that is kept. If the call has ended it stays as it ended, and
    /// nothing changes.
    pub fn stop(&mut self)
        ensures framing { self.new.framing ≡ self.old.framing }
        ensures speaking { self.new.speaking ≡ stopped S.cut_off S.stop_says self.old.speaking }
    {
        self.speaker.stop();
    }

    /// Stops the call, and DCN takes the place of the turn that is kept, also if the call has ended: for a program that
    /// can't keep what that turn would confirm.
    pub fn hang_up(&mut self)
        ensures framing { self.new.framing ≡ self.old.framing }
        ensures speaking { self.new.speaking ≡ hung_up S.cut_off self.old.speaking }
    {
        self.speaker.hang_up();
    }

    /// The line is gone: the turn that is kept is dropped, and nothing is left to be sent. If the call has ended it
    /// stays as it ended.
    pub fn lost(&mut self)
        ensures framing { self.new.framing ≡ self.old.framing }
        ensures speaking { self.new.speaking ≡ silenced S.cut_off self.old.speaking }
    {
        self.speaker.lost();
    }

    /// Returns what the station shows of its call: its waits, none after the end, what it listens for, and its end.
    pub fn shown(&self) -> Shown
        ensures { IsShown S.shows self.now.speaking.station result }
    {
        self.speaker.station.shown()
    }
}

impl Terminal<LimitedAnswerer> {
    /// Takes out the stored pages, in the order in which they came, and so makes room: the answerer is then as busy as
    /// the program said last. Takes no memory.
    pub fn take_pages(&mut self) -> Vec<Page>
        ensures pages { result.items ≡ self.old.speaking.station.station.pages }
        ensures framing { self.new.framing ≡ self.old.framing }
        ensures left { self.new.speaking ≡ with_pages_taken self.old.speaking }
    {
        self.speaker.station.take_pages()
    }
}

impl Terminal<Answerer> {
    /// Takes out the stored pages, in the order in which they came; nothing else changes. Takes no memory.
    pub fn take_pages(&mut self) -> Vec<Page>
        ensures pages { result.items ≡ self.old.speaking.station.pages }
        ensures framing { self.new.framing ≡ self.old.framing }
        ensures left { self.new.speaking ≡ without_pages self.old.speaking }
    {
        self.speaker.station.take_pages()
    }
}

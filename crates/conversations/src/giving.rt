//! What a line gives a station.

ghost use Rattle.conversations.specs.Conversations.{begins, heard_given, line_gives, missed_given, over_given, plain_given, state_of};
ghost use Rattle.conversations.specs.Conversations.{Gives, IsRefused, SawGiven, SeesGiven, behaviour, frames, is_check, nothing};
ghost use Rattle.terminals.specs.Clocks.{clock_at, most_step};
ghost use Rattle.terminals.specs.Hearing.{check as heard_check};
ghost use Rattle.std.specs.Prelude.{◌≡◌, ◌⊎◌, cond, true, IfOk, OnErr, OnOk};
ghost use Rattle.terminals.specs.Watching.{Sees, SeesBy};

use crate::hearing::{Heard, heard_as};
use crate::line::Said;
use signals::Side;
use stations::{Listening, Wait};
use std::alloc::AllocError;
use terminals::{Clock, Durations, LineState, Shown, Stoppable, Terminal, Watch, Watched};

/// The input that a line means for a station.
#[derive(Clone, Copy, Debug, PartialEq, Eq)]
pub enum Given<'a> {
    /// No input.
    Nothing,
    /// Octets of frames.
    Frames(&'a [u8]),
    /// The octets of the awaited training check.
    Check(&'a [u8]),
    /// A wait is over.
    Over(Wait),
    /// Pages can't be taken for now (true), or can again (false).
    Busy(bool),
    /// The call is to be stopped.
    Stop,
    /// The line is lost.
    Loss,
}

/// The input that a line means for a station, at the line's clock. Until the station has begun nothing is heard and no wait is over.
pub(crate) fn line_gives<'a>(
    begun: bool,
    side: Side,
    shown: Shown,
    clock: Clock,
    durations: Durations,
    said: &'a Said,
) -> Given<'a>
    ensures { plain_given result ≡ line_gives begun side shown clock durations said.now }
{
    match said {
        Said::Quiet => over_given(begun, clock.wait_over(side, shown, durations)),
        Said::Received {
            channel,
            kind,
            octets,
            ..
        } => heard_given(begun, heard_as(shown.listens, *channel, *kind), octets),
        Said::Busy => Given::Nothing,
        Said::NotReady => Given::Busy(true),
        Said::Ready => Given::Busy(false),
        Said::Missed => missed_given(begun, shown.listens),
        Said::Told { .. } => Given::Nothing,
        Said::Stop => Given::Stop,
        Said::End => Given::Loss,
    }
}

/// A wait that is over, if the station has begun.
fn over_given<'a>(begun: bool, over: Option<Wait>) -> Given<'a>
    ensures { plain_given result ≡ cond begun (over_given over) nothing }
{
    match over {
        Some(wait) if begun => Given::Over(wait),
        _ => Given::Nothing,
    }
}

/// What is heard of octets, if the station has begun.
fn heard_given(begun: bool, heard: Heard, octets: &[u8]) -> Given<'_>
    ensures { plain_given result ≡ cond begun (heard_given heard octets.now) nothing }
{
    match heard {
        Heard::Frames if begun => Given::Frames(octets),
        Heard::Check if begun => Given::Check(octets),
        _ => Given::Nothing,
    }
}

/// What is given if what was to be heard didn't come, if the station has begun.
fn missed_given<'a>(begun: bool, listens: Listening) -> Given<'a>
    ensures { plain_given result ≡ cond begun (missed_given listens) nothing }
{
    match listens {
        Listening::Training(_) if begun => Given::Check(b""),
        _ => Given::Nothing,
    }
}

/// What a line says of the line of the call.
pub(crate) fn state_of(said: &Said) -> LineState
    ensures { result ≡ state_of said.now }
{
    match said {
        Said::Quiet => LineState::Quiet,
        Said::Busy => LineState::Carrier,
        Said::Received { .. } => LineState::Ended,
        Said::NotReady | Said::Ready | Said::Missed | Said::Told { .. } | Said::Stop | Said::End =>
            LineState::Unsaid,
    }
}

/// The clock of a station at a line.
pub(crate) fn clock_at(clock: Clock, said: &Said, at: u64) -> Clock
    ensures { result ≡ clock_at clock (state_of said.now) at }
{
    clock.at(state_of(said), at)
}

/// How much later than the line before it a line can be, in milliseconds.
pub(crate) fn most_step(clock: Clock, said: &Said, durations: Durations) -> u32
    ensures { result ≡ most_step clock.calm (state_of said.now) durations }
{
    clock.most_step(state_of(said), durations)
}

/// True if a station has begun after a line: an answerer begins at the first quiet line from 1,000 ms on, or at a line that stops it.
pub(crate) fn has_begun(begun: bool, said: &Said, at: u64) -> bool
    ensures { result ≡ cond begun true (begins said.now at) }
{
    begun || begins(said, at)
}

/// True if a station begins at a line.
fn begins(said: &Said, at: u64) -> bool
    ensures { result ≡ begins said.now at }
{
    match said {
        Said::Quiet => at >= 1000,
        Said::Stop => true,
        Said::Busy
        | Said::Received { .. }
        | Said::NotReady
        | Said::Ready
        | Said::Missed
        | Said::Told { .. }
        | Said::End => false,
    }
}

/// Gives the terminal an input. What is watched, and a second watch, see what it brings. Returns true if it brought a good frame or an octet
/// of the awaited training check. Errs if memory is refused.
pub(crate) fn give<S: Stoppable, W: Watch>(
    terminal: &mut Terminal<S>,
    watched: &mut Option<Watched>,
    watch: &mut W,
    given: Given<'_>,
) -> Result<bool, AllocError>
    ensures ok { IfOk result (λ brought.
        Gives (behaviour S.sends S.steps S.lends S.shows S.cut_off S.stop_says) terminal.old (plain_given given.entry) terminal.new brought) }
    ensures err { OnErr result (
        IsRefused (behaviour S.sends S.steps S.lends S.shows S.cut_off S.stop_says) terminal.old (plain_given given.entry) terminal.new) }
    ensures sees { OnOk result (SeesGiven terminal.old.framing (plain_given given.entry) watched.old watched.new) }
    ensures refused { OnErr result ((watched.new ≡ watched.old) ⊎
        SeesGiven terminal.old.framing (plain_given given.entry) watched.old watched.new) }
    ensures seen { OnOk result
        (SawGiven W.saw terminal.old.framing (plain_given given.entry) watch.old watch.new) }
{
    match given {
        Given::Nothing => Ok(false),
        Given::Frames(octets) => hear(terminal, watched, watch, octets),
        Given::Check(octets) => {
            terminal.hear_training(octets)?;
            Ok(has_octets(octets))
        }
        Given::Over(wait) => {
            terminal.wait_over(wait)?;
            Ok(false)
        }
        Given::Busy(is) => {
            terminal.set_busy(is)?;
            Ok(false)
        }
        Given::Stop => {
            terminal.stop();
            Ok(false)
        }
        Given::Loss => {
            terminal.lost();
            Ok(false)
        }
    }
}

/// Whether a training check has octets.
fn has_octets(check: &[u8]) -> bool
    ensures { result ≡ is_check (heard_check check.now) }
{
    match check {
        [] => false,
        _ => true,
    }
}

/// The terminal hears octets of frames, and each is seen. Returns true if they brought a good frame. Errs if memory is refused.
fn hear<S: Stoppable, W: Watch>(
    terminal: &mut Terminal<S>,
    watched: &mut Option<Watched>,
    watch: &mut W,
    octets: &[u8],
) -> Result<bool, AllocError>
    ensures ok { IfOk result (λ brought.
        Gives (behaviour S.sends S.steps S.lends S.shows S.cut_off S.stop_says) terminal.old (frames octets.now) terminal.new brought) }
    ensures err { OnErr result (
        IsRefused (behaviour S.sends S.steps S.lends S.shows S.cut_off S.stop_says) terminal.old (frames octets.now) terminal.new) }
    ensures sees { OnOk result (Sees terminal.old.framing octets.now watched.old watched.new) }
    ensures refused { OnErr result ((watched.new ≡ watched.old) ⊎ Sees terminal.old.framing octets.now watched.old watched.new) }
    ensures seen { OnOk result
        (SeesBy W.saw terminal.old.framing octets.now watch.old watch.new) }
{
    let before = terminal.good_frames();
    match terminal.hear_by(octets, watched, watch) {
        Ok(()) => Ok(before < terminal.good_frames()),
        Err(_) => Err(AllocError),
    }
}

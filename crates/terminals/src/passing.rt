//! The step in time of a call: a terminal is told the time and what its line is.

ghost use Rattle.std.specs.Prelude.{◌≡◌, IfOk, OnErr, OnOk};
ghost use Rattle.terminals.specs.Passing.{Acts, Passes, is_awaited};
ghost use Rattle.terminals.specs.Timed.{PassesUnlessSending, unless_sending};

use crate::clock::{Clock, Durations, LineState};
use crate::stopping::{Shown, Stoppable};
use crate::terminal::Terminal;
use crate::timeout::{Limit, Timeout};
use stations::Listening;
use std::alloc::AllocError;

/// A time of a call, what the line is from then on, and whether something has come.
#[derive(Clone, Copy, Debug, PartialEq, Eq)]
pub struct Moment {
    /// The time, in milliseconds since the call was set up; one before the last time counts as that.
    pub at: u64,
    /// What the line is from then on.
    pub line: LineState,
    /// Whether a good frame or the awaited training check has come since the last time.
    pub brought: bool,
}

/// Does what is to be done.
fn act<S: Stoppable>(terminal: &mut Terminal<S>, done: Option<Timeout>) -> Result<(), AllocError>
    ensures ok { OnOk result (Acts S S.steps S.cut_off S.stop_says done terminal.old terminal.new) }
    ensures err { OnErr result (terminal.new ≡ terminal.old) }
{
    match done {
        None => Ok(()),
        Some(Timeout::Over(wait)) => terminal.wait_over(wait),
        Some(Timeout::Stop) => {
            terminal.stop();
            Ok(())
        }
        Some(Timeout::GiveUp) => {
            terminal.lost();
            Ok(())
        }
    }
}

/// Whether octets are those of an awaited training check.
pub fn is_awaited(listens: Listening, octets: &[u8]) -> bool
    ensures { result ≡ is_awaited listens octets.now }
{
    match listens {
        Listening::Training(_) => !octets.is_empty(),
        Listening::V21 | Listening::V21OrPage(_) | Listening::V21ThenPage(_) => false,
    }
}

/// Tells a terminal the time: a wait that is over ends, and a call that has lasted as long as it may is stopped, or given up. Returns what was
/// done. `AllocError` if memory is refused; nothing changes.
pub fn pass<S: Stoppable>(
    terminal: &mut Terminal<S>,
    clock: &mut Clock,
    moment: Moment,
    durations: Durations,
    limit: Limit,
) -> Result<Option<Timeout>, AllocError>
    ensures ok { IfOk result (λ done. Passes S S.sends S.steps S.cut_off S.stop_says S.shows moment durations limit
        terminal.old clock.old terminal.new clock.new done) }
    ensures err { OnErr result ((terminal.new ≡ terminal.old) × (clock.new ≡ clock.old)) }
{
    let side = terminal.station().side();
    let shown = terminal.shown();
    let at = moment.at.max(clock.now);
    let told = clock
        .at(moment.line, at)
        .heard(moment.brought)
        .asked(shown.longer);
    let done = told.timeout(moment.line, side, shown, durations, limit);
    act(terminal, done)?;
    *clock = told.asked(terminal.shown().longer);
    Ok(done)
}

/// What a station shows while a burst waits to be sent, or none does: no wait runs until the burst was sent.
pub(crate) fn unless_sending(sending: bool, shown: Shown) -> Shown
    ensures { result ≡ unless_sending sending shown }
{
    if sending {
        return Shown {
            running: None,
            longer: None,
            ..shown
        };
    }
    shown
}

/// Tells a terminal the time, as `pass` does; but no wait ends while a burst waits to be sent.
pub(crate) fn pass_unless_sending<S: Stoppable>(
    terminal: &mut Terminal<S>,
    clock: &mut Clock,
    moment: Moment,
    durations: Durations,
    limit: Limit,
) -> Result<Option<Timeout>, AllocError>
    ensures ok { IfOk result (λ done. PassesUnlessSending S S.sends S.lends S.steps S.cut_off S.stop_says S.shows moment durations limit
        terminal.old clock.old terminal.new clock.new done) }
    ensures err { OnErr result ((terminal.new ≡ terminal.old) × (clock.new ≡ clock.old)) }
{
    let side = terminal.station().side();
    let shown = terminal.shown();
    let waits = unless_sending(terminal.has_burst(), shown);
    let at = moment.at.max(clock.now);
    let told = clock
        .at(moment.line, at)
        .heard(moment.brought)
        .asked(shown.longer);
    let done = told.timeout(moment.line, side, waits, durations, limit);
    act(terminal, done)?;
    *clock = told.asked(terminal.shown().longer);
    Ok(done)
}

//! Terminals that are told the time, for C.

ghost use Rattle.g3fax.specs.Handles.{OfBoth, OnBoth};
ghost use Rattle.g3fax.specs.Stations.{behaviour};
ghost use Rattle.g3fax.specs.Ticking.{AnswersTick, LimitsCall, TellsDue, TellsNext, limit_of, line_of, of_t30};
ghost use Rattle.std.specs.Prelude.{◌≡◌, ◌≢◌};

use crate::codes::in_64_bits;
use crate::handle::{G3Handle, Kept, opened_both};
use crate::status::{BAD_CHOICE, EMPTY_HANDLE, NO_MEMORY, NOTHING, OK, OTHER_HANDLE};
use std::alloc::Global;
use terminals::{
    Durations, Limit, LineState, Next, Stoppable, T1_MILLIS, T2_MILLIS, T4_MILLIS, T5_MILLIS,
    TimedTerminal,
};

/// How much later than its end a call is given up whose line doesn't fall quiet, in milliseconds.
const MORE_MILLIS: u32 = 10_000;

/// The limit of a call that has so many seconds at most; 0 for no limit.
pub(crate) fn limit_of(seconds: u32) -> Limit
    ensures { result ≡ limit_of seconds }
{
    let most = if seconds == 0 {
        None
    } else {
        Some(seconds as u64 * 1000)
    };
    Limit {
        most,
        more: MORE_MILLIS,
    }
}

/// The durations of T.30.
pub(crate) fn durations() -> Durations
    ensures { result ≡ of_t30 }
{
    Durations {
        t1: T1_MILLIS,
        t2: T2_MILLIS,
        t4: T4_MILLIS,
        t5: T5_MILLIS,
    }
}

/// What the line is, by its number.
fn line_of(number: u32) -> Option<LineState>
    ensures { result ≡ line_of number }
{
    match number {
        1 => Some(LineState::Quiet),
        2 => Some(LineState::Carrier),
        3 => Some(LineState::Ended),
        _ => None,
    }
}

/// Tells a terminal the time, and what the line is.
fn tick<S: Stoppable>(timed: &mut TimedTerminal<S>, now: u64, line: u32) -> u32
    ensures { AnswersTick S (behaviour S.sends S.steps S.lends S.cut_off S.stop_says S.shows) (line_of line) now timed.old timed.new result }
{
    let Some(line) = line_of(line) else {
        return BAD_CHOICE;
    };
    if now < timed.now() {
        return BAD_CHOICE;
    }
    match timed.pass(line, now) {
        Ok(_) => OK,
        Err(_) => NO_MEMORY,
    }
}

/// Tells a terminal the time, in milliseconds since its call was set up, and what the line is: 1 for a quiet line, 2 for one on which a
/// carrier of the other station is on, 3 for one on which it has just ended. On a quiet line the wait that is over ends, unless a burst waits
/// to be sent. A call that has lasted as long as it may is stopped on a quiet line and where a carrier has just ended, and given up in silence
/// 10 s later on another one. Returns `G3_BAD_CHOICE` (104) for another number, or a time before that of the last tick, or `G3_NO_MEMORY` (9).
#[unsafe(no_mangle)]
pub extern "C" fn g3_core_terminal_tick(
    alloc: Global,
    terminal: &mut G3Handle,
    now: u64,
    line: u32,
) -> u32
    ensures { OnBoth (λ S b old new. AnswersTick S b (line_of line) now old new result) terminal.old.value terminal.new.value result }
{
    opened_both!(alloc, terminal, timed => tick(timed, now, line))
}

/// Limits the call of a terminal.
fn limit_call<S: Stoppable>(timed: &mut TimedTerminal<S>, seconds: u32) -> u32
    ensures { LimitsCall S timed.old seconds timed.new result }
{
    timed.set_limit(limit_of(seconds));
    OK
}

/// Lets the call of a terminal last so many seconds at most, from 0 ms on; 0 for no limit, as in the beginning. The first tick at which they
/// have passed on a quiet line, or where a carrier has just ended, stops it, and the first one 10 s later on any other line gives it up.
#[unsafe(no_mangle)]
pub extern "C" fn g3_core_terminal_most_seconds(
    alloc: Global,
    terminal: &mut G3Handle,
    seconds: u32,
) -> u32
    ensures { OnBoth (λ S b old new. LimitsCall S old seconds new result) terminal.old.value terminal.new.value result }
{
    opened_both!(alloc, terminal, timed => limit_call(timed, seconds))
}

/// Tells when something is to be done.
fn tell_due<S: Stoppable>(timed: &TimedTerminal<S>, at: &mut u64) -> u32
    ensures tells { TellsDue S (behaviour S.sends S.steps S.lends S.cut_off S.stop_says S.shows) timed.now at.old at.new result }
    ensures untold { result ≢ 0 → at.new ≡ at.old }
{
    match timed.due() {
        Some(due) => {
            *at = in_64_bits(due);
            OK
        }
        None => NOTHING,
    }
}

/// Tells when the next tick does something, in the milliseconds of the ticks, if the line stays as it is and nothing comes: a wait is over, or
/// the call has lasted as long as it may. Returns `G3_NOTHING` (106) if none ever does: no wait ends on a carrier, while a burst waits to be
/// sent, before the first tick, nor before the one that follows a burst.
#[unsafe(no_mangle)]
pub extern "C" fn g3_core_terminal_due(alloc: Global, terminal: &mut G3Handle, at: &mut u64) -> u32
    ensures answers { OfBoth (λ S b timed. TellsDue S b timed at.old at.new result) terminal.old.value result }
    ensures kept { terminal.new.value ≡ terminal.old.value }
    ensures untold { result ≢ 0 → at.new ≡ at.old }
{
    match terminal.take(alloc) {
        None => EMPTY_HANDLE,
        Some(kept) => {
            let status = match &*kept {
                Kept::Caller(calling) => tell_due(&**calling, at),
                Kept::Answerer(answering) => tell_due(&answering.timed, at),
                _ => OTHER_HANDLE,
            };
            terminal.put(kept);
            status
        }
    }
}

/// Tells what a program does next.
fn tell_next<S: Stoppable>(timed: &TimedTerminal<S>, next: &mut u32, at: &mut u64) -> u32
    ensures { TellsNext S (behaviour S.sends S.steps S.lends S.cut_off S.stop_says S.shows) timed.now at.old at.new next.new result }
{
    match timed.next() {
        Next::Send => *next = 1,
        Next::At(due) => {
            *next = 2;
            *at = in_64_bits(due);
        }
        Next::Nothing => *next = 0,
    }
    OK
}

/// Tells what a program does next with a terminal: 1 if a burst waits to be sent; 2 if it has to wait for a time, as `g3_core_terminal_due`
/// tells it, or for what comes before; 0 if it has to wait for what comes.
#[unsafe(no_mangle)]
pub extern "C" fn g3_core_terminal_next(
    alloc: Global,
    terminal: &mut G3Handle,
    next: &mut u32,
    at: &mut u64,
) -> u32
    ensures answers { OfBoth (λ S b timed. TellsNext S b timed at.old at.new next.new result) terminal.old.value result }
    ensures kept { terminal.new.value ≡ terminal.old.value }
    ensures untold { result ≢ 0 → (at.new ≡ at.old) × (next.new ≡ next.old) }
{
    match terminal.take(alloc) {
        None => EMPTY_HANDLE,
        Some(kept) => {
            let status = match &*kept {
                Kept::Caller(calling) => tell_next(&**calling, next, at),
                Kept::Answerer(answering) => tell_next(&answering.timed, next, at),
                _ => OTHER_HANDLE,
            };
            terminal.put(kept);
            status
        }
    }
}

//! What terminals hear, for C, and how their calls are stopped.

ghost use Rattle.g3fax.specs.Handles.{OnBoth};
ghost use Rattle.g3fax.specs.Hearing.{AnswersContent, AnswersOctets, EndsWait, HangsUp, HearsOctets, LosesLine, MissesWhatIsHeard};
ghost use Rattle.g3fax.specs.Hearing.{StopsCall, TakesCheck, TakesContent, TakesInput, is_reused, stopped_if_reused};
ghost use Rattle.g3fax.specs.Numbers.{wait_of};
ghost use Rattle.g3fax.specs.Pages.{is_set};
ghost use Rattle.g3fax.specs.Stations.{behaviour};
ghost use Rattle.std.specs.Prelude.{◌≡◌};
ghost use Rattle.terminals.specs.Hearing.{busy};

use crate::frames::LONGEST_CONTENT;
use crate::handle::{G3Handle, opened_both};
use crate::numbers::wait_of;
use crate::status::{BAD_CHOICE, BAD_LENGTH, FRAME_LOST, NO_MEMORY, OK};
use std::alloc::Global;
use terminals::{HearFault, Stoppable, TimedTerminal, Watched};

/// Hears octets of the line, and sees what they bring.
fn hear_octets<S: Stoppable>(timed: &mut TimedTerminal<S>, octets: &[u8]) -> u32
    ensures { HearsOctets S (behaviour S.sends S.steps S.lends S.cut_off S.stop_says S.shows) timed.old octets.now timed.new result }
{
    match timed.hear(octets) {
        Ok(()) => OK,
        Err(HearFault::NothingTaken) => NO_MEMORY,
        Err(HearFault::FrameLost) => FRAME_LOST,
    }
}

/// Whether a page came under the number of the last one.
fn is_reused(watched: Option<Watched>) -> bool
    ensures { result ≡ is_reused watched }
{
    match watched {
        None => false,
        Some(watched) => watched.used.again,
    }
}

/// Stops the call if a page came under the number of the last one.
fn stop_reused<S: Stoppable>(timed: &mut TimedTerminal<S>)
    ensures { timed.new ≡ stopped_if_reused (behaviour S.sends S.steps S.lends S.cut_off S.stop_says S.shows) (is_reused timed.old.watched)
        timed.old }
{
    if is_reused(timed.watched()) {
        timed.stop();
    }
}

/// Hears octets of the line. The call is stopped if a page comes under the number of the last one.
fn hear<S: Stoppable>(timed: &mut TimedTerminal<S>, octets: &[u8]) -> u32
    ensures { AnswersOctets S (behaviour S.sends S.steps S.lends S.cut_off S.stop_says S.shows) timed.old octets.now timed.new result }
{
    let status = hear_octets(timed, octets);
    if status == NO_MEMORY {
        return status;
    }
    stop_reused(timed);
    status
}

/// Hears the next octets of the line, flags and frames, the least significant bit of each first, in pieces of any size. The station takes
/// the signal of each good frame in them, or DCN alone while a burst of its turn waits to be sent. An answerer that hears a page under the
/// number of the last one, which it can't tell from that one, stops its call in place of confirming it. Returns `G3_NO_MEMORY` (9) if
/// nothing was taken, and `G3_FRAME_LOST` (108) if memory was refused and frames in the octets are lost, as on a bad line.
#[unsafe(no_mangle)]
pub extern "C" fn g3_core_terminal_hear(
    alloc: Global,
    terminal: &mut G3Handle,
    octets: &[u8],
) -> u32
    ensures { OnBoth (λ S b old new. AnswersOctets S b old octets.now new result) terminal.old.value terminal.new.value result }
{
    opened_both!(alloc, terminal, timed => hear(timed, octets))
}

/// Hears a content, and sees it.
fn take_content<S: Stoppable>(timed: &mut TimedTerminal<S>, content: &[u8]) -> u32
    ensures { TakesContent S (behaviour S.sends S.steps S.lends S.cut_off S.stop_says S.shows) timed.old content.now timed.new result }
{
    match timed.hear_content(content) {
        Ok(()) => OK,
        Err(_) => NO_MEMORY,
    }
}

/// Hears the content of a good frame. The call is stopped if a page comes under the number of the last one.
fn hear_content<S: Stoppable>(timed: &mut TimedTerminal<S>, content: &[u8]) -> u32
    ensures { AnswersContent S (behaviour S.sends S.steps S.lends S.cut_off S.stop_says S.shows) timed.old content.now timed.new result }
{
    if content.len() < 3 || content.len() > LONGEST_CONTENT {
        return BAD_LENGTH;
    }
    let status = take_content(timed, content);
    if status != OK {
        return status;
    }
    stop_reused(timed);
    OK
}

/// Hears a good frame by its content of 3 to 300 octets, as `g3_core_terminal_hear` hears the octets of that frame: for a modem that finds
/// frames itself. What was heard of octets stays. Returns `G3_BAD_LENGTH` (105) for another length, or `G3_NO_MEMORY` (9), and nothing was
/// taken then.
#[unsafe(no_mangle)]
pub extern "C" fn g3_core_terminal_hear_frame(
    alloc: Global,
    terminal: &mut G3Handle,
    content: &[u8],
) -> u32
    ensures { OnBoth (λ S b old new. AnswersContent S b old content.now new result) terminal.old.value terminal.new.value result }
{
    opened_both!(alloc, terminal, timed => hear_content(timed, content))
}

/// Hears a training check.
fn hear_training<S: Stoppable>(timed: &mut TimedTerminal<S>, octets: &[u8]) -> u32
    ensures { TakesCheck S (behaviour S.sends S.steps S.lends S.cut_off S.stop_says S.shows) timed.old octets.now timed.new result }
{
    match timed.hear_check(octets) {
        Ok(()) => OK,
        Err(_) => NO_MEMORY,
    }
}

/// Hears the octets of a training check; a caller ignores them. Returns `G3_NO_MEMORY` (9).
#[unsafe(no_mangle)]
pub extern "C" fn g3_core_terminal_hear_training(
    alloc: Global,
    terminal: &mut G3Handle,
    octets: &[u8],
) -> u32
    ensures { OnBoth (λ S b old new. TakesCheck S b old octets.now new result) terminal.old.value terminal.new.value result }
{
    opened_both!(alloc, terminal, timed => hear_training(timed, octets))
}

/// What is listened for hasn't come.
fn miss<S: Stoppable>(timed: &mut TimedTerminal<S>) -> u32
    ensures { MissesWhatIsHeard S (behaviour S.sends S.steps S.lends S.cut_off S.stop_says S.shows) timed.old timed.new result }
{
    match timed.missed() {
        Ok(()) => OK,
        Err(_) => NO_MEMORY,
    }
}

/// Reports that what the terminal listens for hasn't come: a carrier other than that of the awaited training check, or none that could be read.
/// An answerer that awaits a check takes that for a bad one; else nothing changes. Returns `G3_NO_MEMORY` (9).
#[unsafe(no_mangle)]
pub extern "C" fn g3_core_terminal_missed(alloc: Global, terminal: &mut G3Handle) -> u32
    ensures { OnBoth (λ S b old new. MissesWhatIsHeard S b old new result) terminal.old.value terminal.new.value result }
{
    opened_both!(alloc, terminal, timed => miss(timed))
}

/// Ends a wait.
fn end_wait<S: Stoppable>(timed: &mut TimedTerminal<S>, wait: u32) -> u32
    ensures { EndsWait S (behaviour S.sends S.steps S.lends S.cut_off S.stop_says S.shows) (wait_of wait) timed.old timed.new result }
{
    let Some(wait) = wait_of(wait) else {
        return BAD_CHOICE;
    };
    match timed.wait_over(wait) {
        Ok(()) => OK,
        Err(_) => NO_MEMORY,
    }
}

/// Reports that a wait is over: T1, T2, T4 or T5 by its number. One that doesn't run changes nothing. Returns `G3_BAD_CHOICE` (104) for
/// another number, or `G3_NO_MEMORY` (9).
#[unsafe(no_mangle)]
pub extern "C" fn g3_core_terminal_wait_over(
    alloc: Global,
    terminal: &mut G3Handle,
    wait: u32,
) -> u32
    ensures { OnBoth (λ S b old new. EndsWait S b (wait_of wait) old new result) terminal.old.value terminal.new.value result }
{
    opened_both!(alloc, terminal, timed => end_wait(timed, wait))
}

/// Tells whether pages can't be taken for now.
fn tell_busy<S: Stoppable>(timed: &mut TimedTerminal<S>, is: u32) -> u32
    ensures { TakesInput S (behaviour S.sends S.steps S.lends S.cut_off S.stop_says S.shows) timed.old (busy (is_set is)) timed.new result }
{
    match timed.set_busy(is != 0) {
        Ok(()) => OK,
        Err(_) => NO_MEMORY,
    }
}

/// Tells an answerer whether it is busy, so that it takes no pages for now: 0 for no. A caller ignores it. Returns `G3_NO_MEMORY` (9).
#[unsafe(no_mangle)]
pub extern "C" fn g3_core_terminal_set_busy(alloc: Global, terminal: &mut G3Handle, is: u32) -> u32
    ensures { OnBoth (λ S b old new. TakesInput S b old (busy (is_set is)) new result) terminal.old.value terminal.new.value result }
{
    opened_both!(alloc, terminal, timed => tell_busy(timed, is))
}

/// Stops the call.
fn stop<S: Stoppable>(timed: &mut TimedTerminal<S>) -> u32
    ensures { StopsCall S (behaviour S.sends S.steps S.lends S.cut_off S.stop_says S.shows) timed.old timed.new result }
{
    timed.stop();
    OK
}

/// Stops the call: DCN is sent in place of what was to be sent. A call that has ended stays as it ended.
#[unsafe(no_mangle)]
pub extern "C" fn g3_core_terminal_stop(alloc: Global, terminal: &mut G3Handle) -> u32
    ensures { OnBoth (λ S b old new. StopsCall S b old new result) terminal.old.value terminal.new.value result }
{
    opened_both!(alloc, terminal, timed => stop(timed))
}

/// Hangs up.
fn hang_up<S: Stoppable>(timed: &mut TimedTerminal<S>) -> u32
    ensures { HangsUp S (behaviour S.sends S.steps S.lends S.cut_off S.stop_says S.shows) timed.old timed.new result }
{
    timed.hang_up();
    OK
}

/// Stops the call and sends DCN in place of what was to be sent, even if the call has ended.
#[unsafe(no_mangle)]
pub extern "C" fn g3_core_terminal_hang_up(alloc: Global, terminal: &mut G3Handle) -> u32
    ensures { OnBoth (λ S b old new. HangsUp S b old new result) terminal.old.value terminal.new.value result }
{
    opened_both!(alloc, terminal, timed => hang_up(timed))
}

/// Loses the line.
fn lose<S: Stoppable>(timed: &mut TimedTerminal<S>) -> u32
    ensures { LosesLine S (behaviour S.sends S.steps S.lends S.cut_off S.stop_says S.shows) timed.old timed.new result }
{
    timed.lost();
    OK
}

/// Reports that the line is gone: nothing is left to be sent. A call that has ended stays as it ended.
#[unsafe(no_mangle)]
pub extern "C" fn g3_core_terminal_lost(alloc: Global, terminal: &mut G3Handle) -> u32
    ensures { OnBoth (λ S b old new. LosesLine S b old new result) terminal.old.value terminal.new.value result }
{
    opened_both!(alloc, terminal, timed => lose(timed))
}

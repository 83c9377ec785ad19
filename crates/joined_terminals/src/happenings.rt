//! Each call of a terminal is something that happens to two joined terminals. These functions make the call and nothing else; their clauses
//! say what happens.

ghost use Rattle.joined_terminals.specs.Calls.{AnswererGives, AreNew, CallerGives, CheckComes, HappensToAnswerer, HappensToCaller, TakesOut};
ghost use Rattle.joined_terminals.specs.Calls.{HappensToHearingAnswerer, HappensToHearingCaller};
ghost use Rattle.hdlc.specs.DeframerState.{IsAfter};
ghost use Rattle.joined_terminals.specs.Happening.Happening.{answerer_hangs_up, answerer_lost, answerer_stops, answerer_waits};
ghost use Rattle.joined_terminals.specs.Happening.Happening.{caller_hangs_up, caller_lost, caller_stops, caller_waits, program_says};
ghost use Rattle.std.specs.Prelude.{◌≡◌, ◌<◌, [], true, IfOk, OnOk};

use raster::{Document, Page};
use signals::{Caps, Wish};
use stations::{Caller, CallerFault, LimitedAnswerer, Limits, StoppableCaller, Turn, Wait};
use std::alloc::{AllocError, Global};
use terminals::{HearFault, SentBurst, Terminal};

/// Returns two new terminals: of a caller of a document, and of an answerer with limits, neither of them 0. `caps` must have a receiver and
/// error correction. `WidthNotCallable` (26) if a page isn't 1,728, 2,048 or 2,432 pixels wide. Takes no memory.
pub fn new_terminals(
    alloc: Global,
    document: Document,
    wish: Wish,
    caps: Caps,
    limits: Limits,
) -> Result<(Terminal<StoppableCaller>, Terminal<LimitedAnswerer>), CallerFault>
    requires receiver { caps.receiver ≡ true }
    requires ecm { caps.ecm ≡ true }
    requires pages { 0 < limits.pages }
    requires octets { 0 < limits.octets }
    ensures new { IfOk result (λ both.
        AreNew document wish caps limits both.0.speaking both.1.speaking) }
    ensures silent { IfOk result (λ both. IsAfter both.0.framing [] 0 × IsAfter both.1.framing [] 0) }
{
    let caller = Caller::new(alloc, document, wish)?;
    let caller = Terminal::new(alloc, StoppableCaller::new(caller), Turn::Silent);
    let (answerer, first) = LimitedAnswerer::new(alloc, caps, limits);
    Ok((caller, Terminal::new(alloc, answerer, first)))
}

/// Calls `hear` of a caller's terminal, with its faults: what happens when the octets bring a piece of the line.
pub fn caller_hears(caller: &mut Terminal<StoppableCaller>, octets: &[u8]) -> Result<(), HearFault>
    ensures { HappensToHearingCaller caller.old octets.now caller.new result }
{
    crate::laws::terminals_are_safe();
    caller.hear(octets)
}

/// Calls `hear` of an answerer's terminal, with its faults: what happens when the octets bring a piece of the line.
pub fn answerer_hears(
    answerer: &mut Terminal<LimitedAnswerer>,
    octets: &[u8],
) -> Result<(), HearFault>
    ensures { HappensToHearingAnswerer answerer.old octets.now answerer.new result }
{
    crate::laws::terminals_are_safe();
    answerer.hear(octets)
}

/// Calls `hear_training` of an answerer's terminal: a training check comes, if it is first on its way. `AllocError` if memory is refused.
pub fn answerer_hears_training(
    answerer: &mut Terminal<LimitedAnswerer>,
    octets: &[u8],
) -> Result<(), AllocError>
    ensures { OnOk result (CheckComes octets.now answerer.old.speaking answerer.new.speaking) }
{
    answerer.hear_training(octets)
}

/// Calls `wait_over` of a caller's terminal: its wait is over. `AllocError` if memory is refused.
pub fn caller_waits(caller: &mut Terminal<StoppableCaller>, wait: Wait) -> Result<(), AllocError>
    ensures { OnOk result
        (HappensToCaller (caller_waits wait) caller.old.speaking caller.new.speaking) }
{
    caller.wait_over(wait)
}

/// Calls `wait_over` of an answerer's terminal: its wait is over. `AllocError` if memory is refused.
pub fn answerer_waits(
    answerer: &mut Terminal<LimitedAnswerer>,
    wait: Wait,
) -> Result<(), AllocError>
    ensures { OnOk result
        (HappensToAnswerer (answerer_waits wait) answerer.old.speaking answerer.new.speaking) }
{
    answerer.wait_over(wait)
}

/// Calls `set_busy` of an answerer's terminal: its program says if pages can be taken. `AllocError` if memory is refused.
pub fn answerer_is_told(
    answerer: &mut Terminal<LimitedAnswerer>,
    is: bool,
) -> Result<(), AllocError>
    ensures { OnOk result
        (HappensToAnswerer (program_says is) answerer.old.speaking answerer.new.speaking) }
{
    answerer.set_busy(is)
}

/// Calls `next_burst` of a caller's terminal: the burst that it returns goes onto the line. `AllocError` if memory is refused.
pub fn caller_sends(caller: &mut Terminal<StoppableCaller>) -> Result<Option<SentBurst>, AllocError>
    ensures { IfOk result (λ sent. CallerGives caller.old.speaking caller.new.speaking sent) }
{
    crate::laws::bursts_are_pieces();
    caller.next_burst()
}

/// Calls `next_burst` of an answerer's terminal: the burst that it returns goes onto the line. `AllocError` if memory is refused.
pub fn answerer_sends(
    answerer: &mut Terminal<LimitedAnswerer>,
) -> Result<Option<SentBurst>, AllocError>
    ensures { IfOk result (λ sent. AnswererGives answerer.old.speaking answerer.new.speaking sent) }
{
    crate::laws::bursts_are_pieces();
    answerer.next_burst()
}

/// Calls `take_pages` of an answerer's terminal, and returns the pages: they come after those that were taken before.
pub fn pages_are_taken(answerer: &mut Terminal<LimitedAnswerer>) -> Vec<Page>
    ensures { TakesOut answerer.old.speaking answerer.new.speaking result.items }
{
    answerer.take_pages()
}

/// Calls `stop` of a caller's terminal: the program stops the call.
pub fn caller_stops(caller: &mut Terminal<StoppableCaller>)
    ensures { HappensToCaller caller_stops caller.old.speaking caller.new.speaking }
{
    caller.stop();
}

/// Calls `stop` of an answerer's terminal: the program stops the call.
pub fn answerer_stops(answerer: &mut Terminal<LimitedAnswerer>)
    ensures { HappensToAnswerer answerer_stops answerer.old.speaking answerer.new.speaking }
{
    answerer.stop();
}

/// Calls `hang_up` of a caller's terminal: it says DCN, also after the end.
pub fn caller_hangs_up(caller: &mut Terminal<StoppableCaller>)
    ensures { HappensToCaller caller_hangs_up caller.old.speaking caller.new.speaking }
{
    caller.hang_up();
}

/// Calls `hang_up` of an answerer's terminal: it says DCN, also after the end.
pub fn answerer_hangs_up(answerer: &mut Terminal<LimitedAnswerer>)
    ensures { HappensToAnswerer answerer_hangs_up answerer.old.speaking answerer.new.speaking }
{
    answerer.hang_up();
}

/// Calls `lost` of a caller's terminal: its line is gone.
pub fn caller_is_lost(caller: &mut Terminal<StoppableCaller>)
    ensures { HappensToCaller caller_lost caller.old.speaking caller.new.speaking }
{
    caller.lost();
}

/// Calls `lost` of an answerer's terminal: its line is gone.
pub fn answerer_is_lost(answerer: &mut Terminal<LimitedAnswerer>)
    ensures { HappensToAnswerer answerer_lost answerer.old.speaking answerer.new.speaking }
{
    answerer.lost();
}

//! A whole call of two joined terminals, in which each burst that one gives is heard by the other.

ghost use Rattle.joined_terminals.specs.WholeCall.{CallComes, GoesOn, HearsBy};
ghost use Rattle.std.specs.Prelude.{◌≡◌, ◌<◌, true, IfOk, Some};
ghost use Rattle.stations.specs.declared.stopping.CallEnd.TheVariants.{By};
ghost use Rattle.stations.specs.declared.turn.End.TheVariants.{Normal};

use crate::happenings::new_terminals;
use raster::Document;
use signals::{Caps, Wish};
use stations::{CallEnd, Carrier, End, LimitedAnswerer, Limits, StoppableCaller};
use std::alloc::Global;
use terminals::{SentBurst, Terminal};

/// More than the bursts of a call of three thousand blocks, each of which takes two.
const MOST_TURNS: u32 = 10_000;

/// A whole call, from the answerer's DIS to the caller's DCN, over a line that loses nothing. True if both stations ended normally, so that
/// all pages are in the answerer; false if memory is refused, if the stations don't agree, or if the answerer's limits are met.
pub fn call_comes(alloc: Global, document: Document, wish: Wish, caps: Caps, limits: Limits) -> bool
    requires receiver { caps.receiver ≡ true }
    requires ecm { caps.ecm ≡ true }
    requires pages { 0 < limits.pages }
    requires octets { 0 < limits.octets }
    ensures { result ≡ true → CallComes document wish caps limits }
{
    crate::laws::sent_bursts_come();
    crate::laws::terminals_are_safe();
    let Ok((mut caller, mut answerer)) = new_terminals(alloc, document, wish, caps, limits) else {
        return false;
    };
    for _turn in 0..MOST_TURNS {
        if is_normal(caller.shown().end) && is_normal(answerer.shown().end) {
            return true;
        }
        if !answerer_says(&mut caller, &mut answerer) || !caller_says(&mut caller, &mut answerer) {
            return false;
        }
    }
    false
}

/// Returns whether a call has ended normally.
fn is_normal(end: Option<CallEnd>) -> bool
    ensures { result ≡ true → end ≡ Some (By Normal) }
{
    match end {
        Some(CallEnd::By(End::Normal)) => true,
        Some(CallEnd::By(_)) | Some(CallEnd::Stopped) | Some(CallEnd::LineLost) | None => false,
    }
}

/// The answerer says the next burst of its turn, if it has one, and the caller hears it. False if memory is refused.
fn answerer_says(
    caller: &mut Terminal<StoppableCaller>,
    answerer: &mut Terminal<LimitedAnswerer>,
) -> bool
    ensures { result ≡ true → GoesOn caller.old answerer.old caller.new answerer.new }
{
    crate::laws::bursts_are_pieces();
    crate::laws::sent_bursts_come();
    crate::laws::terminals_are_safe();
    terminals::laws::turns_have_few_bursts();
    let Ok(sent) = answerer.next_burst() else {
        return false;
    };
    let Some(sent) = sent else {
        return true;
    };
    match caller.hear(&sent.octets) {
        Ok(()) => true,
        Err(_) => false,
    }
}

/// The caller says the next burst of its turn, if it has one, and the answerer hears it. False if memory is refused, or if the answerer
/// answers before the turn is through.
fn caller_says(
    caller: &mut Terminal<StoppableCaller>,
    answerer: &mut Terminal<LimitedAnswerer>,
) -> bool
    ensures { result ≡ true → GoesOn caller.old answerer.old caller.new answerer.new }
{
    crate::laws::bursts_are_pieces();
    crate::laws::sent_bursts_come();
    crate::laws::terminals_are_safe();
    terminals::laws::turns_can_be_written();
    stations::laws::bursts_cut();
    let Ok(sent) = caller.next_burst() else {
        return false;
    };
    let Some(sent) = sent else {
        return true;
    };
    if !is_heard(answerer, &sent) {
        return false;
    }
    if sent.last {
        return true;
    }
    !answerer.has_burst()
}

/// An answerer hears a burst of the caller's. False if memory is refused.
fn is_heard(answerer: &mut Terminal<LimitedAnswerer>, sent: &SentBurst) -> bool
    ensures { result ≡ true
        → HearsBy sent.now.carrier answerer.old sent.now.octets.items answerer.new }
{
    match sent.carrier {
        Carrier::Training(_) => answerer.hear_training(&sent.octets).is_ok(),
        Carrier::V21 | Carrier::Page(_) => answerer.hear(&sent.octets).is_ok(),
    }
}

//! How many tries of a call's phases were bad. They are counted beside the call, step by step: by a step's events, by how much was under
//! way before and after it, and by its caller sending a block or not.

ghost use Rattle.call_tallies.specs.TriesCounted.{begins, first_try, goes_on, is_bad_in, is_check_in, is_mcf, is_mcf_in, met_by, stays, stood_in};
ghost use Rattle.call_tallies.specs.TriesCounted.{tried};
ghost use Rattle.faults.specs.Faults.{IsOutside};
ghost use Rattle.line_sim.specs.Entries.{head_kind};
ghost use Rattle.line_sim.specs.Fates.{entries_of};
ghost use Rattle.line_sim.specs.Line.{World};
ghost use Rattle.line_sim.specs.Represents.{Shows};
ghost use Rattle.line_sim.specs.Tolerance.{bad_with};
ghost use Rattle.line_sim.specs.declared.event.Kind.TheVariants.{Training};
ghost use Rattle.std.specs.Prelude.{◌≡◌, ◌≢◌, IfErr, IfOk, Some};

use crate::many_calls::{is_loss, is_spoiling, one_if, sum};
use calls::{Counts, after};
use faults::ToolFault;
use line_sim::{DrivenCall, Event, Kind, Step};

/// How much is under way in a call before or after a step, and whether its caller is sending a block.
#[derive(Clone, Copy)]
pub(crate) struct Stood {
    /// How much is under way.
    counts: Counts,
    /// True if the caller is sending a block.
    sends: bool,
}

/// How many tries of a call's phases were bad. A phase is a group's negotiation, or a block from its first burst to MCF; a try is one
/// transmission of the caller, or one DIS, with its answer. It is bad if any item of it is lost or spoiled.
#[derive(Clone, Copy)]
pub(crate) struct TryCounts {
    /// How many tries of the present phase were bad.
    bad: u64,
    /// True if the present try is bad.
    now: bool,
    /// How many training checks of the present phase were spoiled.
    checks: u64,
    /// True if so far no phase had more than two bad tries, or more spoiled checks than it bears.
    pub(crate) few: bool,
}

impl Stood {
    /// How much is under way in a call, and whether its caller is sending a block. No training check is first under way to the caller.
    pub(crate) fn of(call: &DrivenCall) -> Stood
        ensures stood { (w : World) → Shows call.now.live w → result ≡ stood_in w }
        ensures no_check { head_kind call.now.live.to_caller ≢ Some Training }
    {
        Stood {
            counts: Counts::of(call.live()),
            sends: call.sends_block(),
        }
    }
}

/// True if an item was lost or spoiled in a step.
fn is_bad(step: &Step) -> bool
    ensures { result ≡ is_bad_in (entries_of step.now) }
{
    match step.before {
        Some(before) => is_spoiling(before.event),
        None => is_loss(step.entry.event),
    }
}

/// True if a training check was spoiled in a step.
fn spoils_check(step: &Step) -> bool
    ensures { result ≡ is_check_in (entries_of step.now) }
{
    match step.before {
        Some(before) => is_spoiling(before.event),
        None => false,
    }
}

/// True if an MCF comes in an event, by the item that it delivers or loses.
fn is_mcf(event: Event, item: Option<Kind>) -> bool
    ensures { result ≡ is_mcf event item }
{
    match event {
        Event::DeliverToCaller => matches!(item, Some(Kind::Mcf)),
        _ => false,
    }
}

/// True if an MCF came in a step.
fn has_mcf(step: &Step) -> bool
    ensures { result ≡ is_mcf_in (entries_of step.now) }
{
    match step.before {
        Some(_) => false,
        None => is_mcf(step.entry.event, step.entry.item),
    }
}

/// True if a step stayed in its phase: a block is left by an MCF, and else none is begun.
fn stays(step: &Step, before: Stood, after: Stood) -> bool
    ensures { result ≡ stays (entries_of step.now) before after }
{
    if before.sends {
        return !has_mcf(step);
    }
    !after.sends
}

/// True if a try began: nothing was under way to the answerer, and something is; or nothing at all was, and something is to the
/// caller.
fn begins(before: Counts, after: Counts) -> bool
    ensures { result ≡ begins before after }
{
    before.to_answerer == 0
        && (after.to_answerer > 0 || (before.to_caller == 0 && after.to_caller > 0))
}

/// The number of bad tries, with one more where a try turns bad. Errs with `FAILED` (8) if it would be 2^64.
fn bad_with(is_bad: bool, now: bool, bad: u64) -> Result<u64, ToolFault>
    ensures bad { IfOk result (λ sum. sum ≡ bad_with is_bad now bad) }
    ensures fault { IfErr result IsOutside }
{
    if is_bad && !now {
        return after(bad);
    }
    Ok(bad)
}

impl TryCounts {
    /// Before the first try of a phase, where the tries so far were few or not.
    pub(crate) fn first(few: bool) -> TryCounts
        ensures { result ≡ first_try few }
    {
        TryCounts {
            bad: 0,
            now: false,
            checks: 0,
            few,
        }
    }

    /// The counts when a step's item has met its fate. Errs with `FAILED` (8) if a number would be 2^64.
    fn met_by(self, step: &Step, spare: u64) -> Result<TryCounts, ToolFault>
        ensures met { IfOk result (λ met. met ≡ met_by spare (entries_of step.now) self) }
        ensures fault { IfErr result IsOutside }
    {
        let is_bad = is_bad(step);
        let bad = bad_with(is_bad, self.now, self.bad)?;
        let checks = sum(self.checks, one_if(spoils_check(step)))?;
        Ok(TryCounts {
            bad,
            now: is_bad || self.now,
            checks,
            few: self.few && bad <= 2 && checks <= spare,
        })
    }

    /// The counts in the same phase, where a try begins or not.
    fn goes_on(self, again: bool) -> TryCounts
        ensures { result ≡ goes_on again self }
    {
        TryCounts {
            bad: self.bad,
            now: self.now && !again,
            checks: self.checks,
            few: self.few,
        }
    }

    /// The counts after a step, by how much was under way before and after it and whether the caller sent a block; of a group's training
    /// checks as many may be spoiled as are spare. Errs with `FAILED` (8) if a number would be 2^64.
    pub(crate) fn after_step(
        self,
        step: &Step,
        spare: u64,
        before: Stood,
        after: Stood,
    ) -> Result<TryCounts, ToolFault>
        ensures tried { IfOk result (λ t. t ≡ tried spare (entries_of step.now) before after self) }
        ensures fault { IfErr result IsOutside }
    {
        let met = self.met_by(step, spare)?;
        if stays(step, before, after) {
            return Ok(met.goes_on(begins(before.counts, after.counts)));
        }
        Ok(TryCounts::first(met.few))
    }
}

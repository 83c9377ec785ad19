//! An undisturbed call: all that is under way comes.

ghost use Rattle.line_sim.specs.Delivering.{DeliversAll, DeliversNext, GoesThrough};
ghost use Rattle.line_sim.specs.Invariant.{Holds};
ghost use Rattle.line_sim.specs.Line.{World as WorldValue};
ghost use Rattle.line_sim.specs.PageMachine.{Moves};
ghost use Rattle.line_sim.specs.Polite.{is_between_groups};
ghost use Rattle.line_sim.specs.Represents.{Shows, fields_state};
ghost use Rattle.std.specs.Prelude.{◌≡◌, [], IsTrue, ◌↔◌, IfOk, length};

use crate::call::Call;
use crate::event::Event;
use crate::laws::{headline, polite_calls};
use crate::world::World;
use stations::laws::{layers_hold, signals_hold};
use std::alloc::AllocError;

impl Call {
    /// True if a group is through and another one follows: neither station has ended, the caller waits for another DIS and the answerer for
    /// a DCS.
    pub(crate) fn is_between_groups(&self) -> bool
        ensures { (w : WorldValue) → Shows self.now w → result ≡ is_between_groups w }
    {
        if self.caller.end().is_some() {
            return false;
        }
        if self.answerer.end().is_some() {
            return false;
        }
        if !self.caller.between_groups() {
            return false;
        }
        self.answerer.in_phase_b()
    }
}

impl World {
    /// True if nothing is under way to the answerer.
    fn is_clear_to_answerer(&self) -> bool
        ensures { IsTrue result ↔ (self.now.call.to_answerer ≡ []) }
    {
        self.call.to_answerer.is_empty()
    }

    /// True if nothing is under way to the caller.
    fn is_clear_to_caller(&self) -> bool
        ensures { IsTrue result ↔ (self.now.call.to_caller ≡ []) }
    {
        self.call.to_caller.is_empty()
    }

    /// True if a group is through and another one follows.
    fn is_between_groups(&self) -> bool
        ensures { (w : WorldValue) → Shows self.now.call w → result ≡ is_between_groups w }
    {
        self.call.is_between_groups()
    }

    /// Makes the next delivery, if there is one, and returns true if there was; between groups the answerer sends its DIS again, and that
    /// is delivered. Errs if a growth is refused.
    fn deliver_next(&mut self) -> Result<bool, AllocError>
        ensures { (w : WorldValue) → Shows self.old.call w → DeliversNext self.old self.new w result }
    {
        if !self.is_clear_to_answerer() {
            self.event(Event::DeliverToAnswerer)?;
            return Ok(true);
        }
        if !self.is_clear_to_caller() {
            self.event(Event::DeliverToCaller)?;
            return Ok(true);
        }
        if !self.is_between_groups() {
            return Ok(false);
        }
        self.event(Event::AnswererT2)?;
        self.event(Event::DeliverToCaller)?;
        Ok(true)
    }

    /// Delivers what is under way, in order, at most `most` items, and returns their number.
    fn deliver(&mut self, most: u64) -> Result<u64, AllocError>
        ensures { (w : WorldValue) → Shows self.old.call w → DeliversAll self.old self.new w most result }
    {
        let mut delivered = 0;
        while delivered < most {
            if !self.deliver_next()? {
                return Ok(delivered);
            }
            delivered += 1;
        }
        Ok(delivered)
    }

    /// Delivers what is under way, in order, until nothing is under way or `most` items were delivered, and returns the number of
    /// deliveries. If a group of pages is through and another one follows, the answerer's T2 begins it; that has an entry and isn't
    /// counted. Errs at the first refused event. Both stations are in step before and after it, whatever it returns.
    pub fn polite(&mut self, most: u64) -> Result<u64, AllocError>
        ensures delivers { (w : WorldValue) → Shows self.old.call w → DeliversAll self.old self.new w most result }
        ensures through { IfOk result (λ number. GoesThrough self.old self.new most number) }
        ensures moves { Moves (length self.old.call.caller.document) (fields_state self.old.call) (fields_state self.new.call) }
        ensures document { self.new.call.caller.document ≡ self.old.call.caller.document }
        ensures before { Holds self.old }
        ensures after { Holds self.new }
    {
        polite_calls();
        headline();
        layers_hold();
        signals_hold();
        let _ = &self.call; // for the proof: what holds of every world
        // Of a refused event the clauses say less than those of `event`: who needs to know its outcome makes the events one by one.
        self.deliver(most)
    }
}

//! How much is under way in a call.

ghost use Rattle.line_sim.specs.Entries.{head_kind};
ghost use Rattle.line_sim.specs.Octets.{under_way_to};
ghost use Rattle.line_sim.specs.declared.event.Kind.TheVariants.{Training};
ghost use Rattle.signals.specs.declared.signal.Side.TheVariants.{Answerer, Caller};
ghost use Rattle.std.specs.Prelude.{◌≡◌, ◌≢◌, Some, length};

use line_sim::LiveCall;
use signals::Side;

/// How many items are under way to each station.
#[derive(Clone, Copy, Debug, PartialEq, Eq)]
pub struct Counts {
    /// How many to the answerer.
    pub to_answerer: usize,
    /// How many to the caller.
    pub to_caller: usize,
}

impl Counts {
    /// None, as before a call.
    pub fn none() -> Counts
        ensures { result ≡ record { to_answerer = 0; to_caller = 0 } }
    {
        Counts {
            to_answerer: 0,
            to_caller: 0,
        }
    }

    /// What is under way in a call.
    pub fn of(live: &LiveCall) -> Counts
        ensures to_answerer { result.to_answerer ≡ length (under_way_to Answerer live.now) }
        ensures to_caller { result.to_caller ≡ length (under_way_to Caller live.now) }
        ensures no_check { head_kind live.now.to_caller ≢ Some Training }
    {
        Counts {
            to_answerer: live.count_to(Side::Answerer),
            to_caller: live.count_to(Side::Caller),
        }
    }
}

//! Both stations as a terminal carries them.

ghost use Rattle.signals.specs.declared.signal.Side.{Side};
ghost use Rattle.signals.specs.declared.signal.Side.TheVariants.{Caller as CallerSide, Answerer as AnswererSide};
ghost use Rattle.std.specs.Prelude.{◌≡◌, List};
ghost use Rattle.stations.specs.Bursts.{PlainBurst};
ghost use Rattle.stations.specs.declared.turn.Turn.{Turn};
ghost use Rattle.terminals.specs.Hearing.{PlainInput, plain_input};
ghost use Rattle.terminals.specs.Speaking.{AreLent, StepsOrStays};
ghost use Rattle.terminals.specs.Stations.{AnswererLends, AnswererSteps, CallerLends, CallerSteps, answerer_takes, caller_takes};
ghost use Rattle.terminals.specs.Stations.{plain_answerer_input, plain_caller_input};

use crate::input::Input;
use signals::Side;
use stations::{Answerer, AnswererIn, Bursts, Caller, CallerIn, Turn, Wait};
use std::alloc::AllocError;

/// A station that a terminal carries: of a caller or an answerer.
pub trait Station: Drop {
    // The step by an input: before, the input, after, and the turn.
    ghost steps: { Self → PlainInput → Self → Turn → Type 0 };

    // The bursts that it has for a turn.
    ghost lends: { Self → Turn → List PlainBurst → Type 0 };

    // Which of the two stations it is.
    ghost sends: { Side };

    /// Takes an input and returns the turn to be sent. `AllocError` if memory is refused; nothing changes.
    fn take(&mut self, input: Input<'_>) -> Result<Turn, AllocError>
        ensures { StepsOrStays steps self.old (plain_input input.entry) self.new result };

    /// Returns the bursts of a turn. Takes no memory.
    fn lend(&self, turn: &Turn) -> Bursts<'_>
        ensures { AreLent lends self.now turn.now result };

    /// Returns which of the two stations it is.
    fn side(&self) -> Side
        ensures { result ≡ sends };
}

impl Station for Caller {
    ghost steps = { CallerSteps };

    ghost lends = { CallerLends };

    ghost sends = { CallerSide };

    fn take(&mut self, input: Input<'_>) -> Result<Turn, AllocError> {
        match caller_input(self.waits(), input) {
            Some(taken) => self.step(taken),
            None => Ok(Turn::Silent),
        }
    }

    fn lend(&self, turn: &Turn) -> Bursts<'_> {
        self.bursts(turn)
    }

    fn side(&self) -> Side {
        Side::Caller
    }
}

impl Station for Answerer {
    ghost steps = { AnswererSteps };

    ghost lends = { AnswererLends };

    ghost sends = { AnswererSide };

    fn take(&mut self, input: Input<'_>) -> Result<Turn, AllocError> {
        match answerer_input(input) {
            Some(taken) => self.step(taken),
            None => Ok(Turn::Silent),
        }
    }

    fn lend(&self, turn: &Turn) -> Bursts<'_> {
        self.bursts(turn)
    }

    fn side(&self) -> Side {
        Side::Answerer
    }
}

/// What a caller takes of an input, by the wait that runs: the end of T1 only if it waits for a DIS, that of T4 only if
/// it doesn't.
pub(crate) fn caller_input(running: Option<Wait>, input: Input<'_>) -> Option<CallerIn<'_>>
    ensures { plain_caller_input result ≡ caller_takes running (plain_input input.entry) }
{
    match (input, running) {
        (Input::Heard(signal), _) => Some(CallerIn::Heard(signal)),
        (Input::Over(Wait::T1), Some(Wait::T1)) => Some(CallerIn::Timeout),
        (Input::Over(Wait::T4), Some(Wait::T4)) => Some(CallerIn::Timeout),
        (Input::Over(Wait::T5), _) => Some(CallerIn::T5),
        _ => None,
    }
}

/// What an answerer takes of an input.
pub(crate) fn answerer_input(input: Input<'_>) -> Option<AnswererIn<'_>>
    ensures { plain_answerer_input result ≡ answerer_takes (plain_input input.entry) }
{
    match input {
        Input::Heard(signal) => Some(AnswererIn::Heard(signal)),
        Input::Training(octets) => Some(AnswererIn::Training(octets)),
        Input::Over(Wait::T1) => Some(AnswererIn::T1),
        Input::Over(Wait::T2) => Some(AnswererIn::T2),
        Input::Over(Wait::T4) => None,
        Input::Over(Wait::T5) => None,
        Input::Busy(busy) => Some(AnswererIn::Busy(busy)),
    }
}

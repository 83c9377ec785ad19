//! If a call ended as its script's author wants it.

ghost use Rattle.calls.specs.Ends.{ended_normally, is_normal};
ghost use Rattle.std.specs.Prelude.{◌≡◌};

use line_sim::Ending;
use stations::End;

/// True if a call ended normally for a station.
fn is_normal(ending: Option<End>) -> bool
    ensures { result ≡ is_normal ending }
{
    matches!(ending, Some(End::Normal))
}

/// True if a call ended normally for both stations: all its pages went over, and both say so. False for a call that goes on.
pub fn ended_normally(ending: &Ending) -> bool
    ensures { result ≡ ended_normally ending.now }
{
    is_normal(ending.caller_end) && is_normal(ending.answerer_end)
}

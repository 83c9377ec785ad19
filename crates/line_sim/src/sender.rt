//! Which station sends what is under way.

ghost use Rattle.signals.specs.declared.signal.Side.{Side};
ghost use Rattle.std.specs.Prelude.{◌≡◌};

use signals::Side;

/// The station that sends what is under way in one direction.
pub(crate) trait Sender: Copy + Drop {
    ghost sends: { Side };

    /// The side of the sending station.
    fn side(self) -> Side
        ensures { result ≡ sends };
}

/// The caller sends.
#[derive(Clone, Copy, Debug)]
pub(crate) struct FromCaller;

impl Sender for FromCaller {
    ghost sends = { Side.Caller };

    fn side(self) -> Side {
        Side::Caller
    }
}

/// The answerer sends.
#[derive(Clone, Copy, Debug)]
pub(crate) struct FromAnswerer;

impl Sender for FromAnswerer {
    ghost sends = { Side.Answerer };

    fn side(self) -> Side {
        Side::Answerer
    }
}

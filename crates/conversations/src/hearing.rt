//! What a station hears of a carrier of the other side.

ghost use Rattle.conversations.specs.Hearing.{expected_first, expected_then, heard_as, place_of, same_speed};
ghost use Rattle.std.specs.Prelude.{◌≡◌};

use crate::carrier::{Channel, Kind};
use signals::Speed;
use stations::Listening;

/// How a station takes received bits.
#[derive(Clone, Copy, Debug, PartialEq, Eq)]
pub enum Heard {
    /// As frames that it hears.
    Frames,
    /// As the training check that it awaits.
    Check,
    /// It ignores them.
    Nothing,
}

/// A carrier that a station expects, and what its bits are.
#[derive(Clone, Copy, Debug, PartialEq, Eq)]
pub struct Expected {
    /// The carrier.
    pub channel: Channel,
    /// What its bits are.
    pub kind: Kind,
}

/// What a station that listens for this expects first.
pub fn expected_first(listens: Listening) -> Expected
    ensures { result ≡ expected_first listens }
{
    match listens {
        Listening::V21 | Listening::V21ThenPage(_) => Expected {
            channel: Channel::V21,
            kind: Kind::Frames,
        },
        Listening::Training(speed) => Expected {
            channel: Channel::Message(speed),
            kind: Kind::Check,
        },
        Listening::V21OrPage(speed) => Expected {
            channel: Channel::Message(speed),
            kind: Kind::Frames,
        },
    }
}

/// What it expects after that, or in its place; None if it is V.21 alone.
pub fn expected_then(listens: Listening) -> Option<Expected>
    ensures { result ≡ expected_then listens }
{
    match listens {
        Listening::V21 => None,
        Listening::Training(_) | Listening::V21OrPage(_) => Some(Expected {
            channel: Channel::V21,
            kind: Kind::Frames,
        }),
        Listening::V21ThenPage(speed) => Some(Expected {
            channel: Channel::Message(speed),
            kind: Kind::Frames,
        }),
    }
}

/// How a station that listens for this takes bits of a kind by a carrier: frames by V.21 always, a training check and the frames of a page
/// only if they are awaited at that speed (ITU-T T.30, 5.3 and Annex A).
pub fn heard_as(listens: Listening, channel: Channel, kind: Kind) -> Heard
    ensures { result ≡ heard_as listens channel kind }
{
    match (channel, kind, listens) {
        (Channel::V21, Kind::Frames, _) => Heard::Frames,
        (Channel::Message(speed), Kind::Check, Listening::Training(agreed))
            if is_same(speed, agreed) => Heard::Check,
        (Channel::Message(speed), Kind::Frames, Listening::V21OrPage(agreed))
            if is_same(speed, agreed) => Heard::Frames,
        (Channel::Message(speed), Kind::Frames, Listening::V21ThenPage(agreed))
            if is_same(speed, agreed) => Heard::Frames,
        _ => Heard::Nothing,
    }
}

/// True if two speeds are the same.
fn is_same(speed: Speed, other: Speed) -> bool
    ensures { result ≡ same_speed speed other }
{
    place(speed) == place(other)
}

/// A speed's place among the eight.
fn place(speed: Speed) -> u8
    ensures { result ≡ place_of speed }
{
    match speed {
        Speed::V27At2400 => 0,
        Speed::V27At4800 => 1,
        Speed::V29At7200 => 2,
        Speed::V29At9600 => 3,
        Speed::V17At7200 => 4,
        Speed::V17At9600 => 5,
        Speed::V17At12000 => 6,
        Speed::V17At14400 => 7,
    }
}

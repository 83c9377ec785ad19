//! What a station listens for, and what it knows of the other one.

ghost use Rattle.std.specs.Prelude.{◌≡◌};
ghost use Rattle.stations.specs.CallerFields.{Represents};
ghost use Rattle.stations.specs.CallerStep.{Caller as CallerTuple, confirmed};
ghost use Rattle.stations.specs.Listening.{answerer_listens, answerer_params, answerer_peer, caller_params, caller_peer};
ghost use Rattle.stations.specs.Listening.{ends_group, is_v21_first, last_reply, listens_after, put_v21_first};
ghost use Rattle.stations.specs.declared.listening.Listening.TheVariants.{V21};

use crate::answerer::Answerer;
use crate::caller::Caller;
use crate::limiting::LimitedAnswerer;
use crate::mark::Accepted;
use crate::turn::{AnswererState, CallerState, Turn};
use signals::{Caps, PageEnd, Params, Speed};

/// What a modem listens for. Frames by V.21 are heard in every state; at a message speed more is heard.
#[derive(Clone, Copy, Debug, PartialEq, Eq)]
pub enum Listening {
    /// Frames by V.21 alone (T.30, 5.3).
    V21,
    /// A training check at this speed; or DCS by V.21 again, if none comes (T.30, 5.3.6.1).
    Training(Speed),
    /// The frames of a page at this speed, and PPS and all other frames by V.21 (T.30, Annex A).
    V21OrPage(Speed),
    /// The same, but V.21 comes first, and pages only after it: after RNR, and after the MCF to a PPS with EOP or EOM.
    V21ThenPage(Speed),
}

/// The last reply of a station after a turn.
pub(crate) fn last_reply(reply: Turn, turn: Turn) -> Turn
    ensures { result ≡ last_reply reply turn }
{
    match turn {
        Turn::Silent => reply,
        _ => turn,
    }
}

/// Whether a block with this end is the last one of its group.
fn ends_group(ends: PageEnd) -> bool
    ensures { result ≡ ends_group ends }
{
    match ends {
        PageEnd::Null | PageEnd::Mps => false,
        PageEnd::Eom | PageEnd::Eop => true,
    }
}

/// Whether what follows a reply comes by V.21, by the block that was accepted last.
fn is_v21_first(reply: &Turn, accepted: Option<Accepted>) -> bool
    ensures { result ≡ is_v21_first reply.now accepted }
{
    match (*reply, accepted) {
        (Turn::Rnr, _) => true,
        (Turn::Mcf, Some(accepted)) => ends_group(accepted.ends),
        _ => false,
    }
}

/// Of V.21 and a page V.21 comes first.
fn put_v21_first(listening: Listening) -> Listening
    ensures { result ≡ put_v21_first listening }
{
    match listening {
        Listening::V21OrPage(speed) => Listening::V21ThenPage(speed),
        _ => listening,
    }
}

impl Caller {
    /// Returns what the caller listens for: V.21, by which each reply comes.
    pub fn listens(&self) -> Listening
        ensures { result ≡ V21 }
    {
        Listening::V21
    }

    /// Returns the parameters of the group that is under way, as the caller's DCS says them; None while the caller
    /// waits for a DIS.
    pub fn params(&self) -> Option<Params>
        ensures { (t : CallerTuple) → Represents self.now t → result ≡ caller_params t.state t.params }
    {
        match self.state() {
            CallerState::WaitDis => None,
            _ => Some(self.agreed_params()),
        }
    }

    /// Returns the answerer's capabilities by the last DIS that was agreed on; None before the first one.
    pub fn peer(&self) -> Option<Caps>
        ensures { (t : CallerTuple) → Represents self.now t → result ≡ caller_peer t.state (confirmed t) t.caps }
    {
        match self.state() {
            CallerState::WaitDis => {
                if self.confirmed() > 0 {
                    Some(self.agreed_caps())
                } else {
                    None
                }
            }
            _ => Some(self.agreed_caps()),
        }
    }
}

impl Answerer {
    /// Returns what the answerer listens for, whatever it said last; after the end V.21, and nothing that it hears changes anything.
    pub fn listens(&self) -> Listening
        ensures { result ≡ answerer_listens self.now }
    {
        if self.end().is_some() {
            return Listening::V21;
        }
        let speed = self.agreed_params().speed;
        match self.state() {
            AnswererState::PhaseB => Listening::V21,
            AnswererState::WaitTraining => Listening::Training(speed),
            AnswererState::Message => Listening::V21OrPage(speed),
        }
    }

    /// Returns what the answerer listens for if `reply` is the last turn of it that wasn't silent: it tells which carrier comes first.
    pub fn listens_after(&self, reply: &Turn) -> Listening
        ensures { result ≡ listens_after reply.now self.now }
    {
        if is_v21_first(reply, self.last_accepted()) {
            put_v21_first(self.listens())
        } else {
            self.listens()
        }
    }

    /// Returns the parameters of the group that is under way, as the caller's DCS says them; None in phase B.
    pub fn params(&self) -> Option<Params>
        ensures { result ≡ answerer_params self.now.state self.now.params }
    {
        match self.state() {
            AnswererState::PhaseB => None,
            _ => Some(self.agreed_params()),
        }
    }

    /// Returns what the last DCS said that was allowed, also after the end; None before the first one, and in phase B
    /// before a block was accepted.
    pub fn peer(&self) -> Option<Params>
        ensures { result ≡ answerer_peer self.now.state self.now.accepted self.now.params }
    {
        match self.state() {
            AnswererState::PhaseB => {
                if self.has_accepted_any() {
                    Some(self.agreed_params())
                } else {
                    None
                }
            }
            _ => Some(self.agreed_params()),
        }
    }
}

impl LimitedAnswerer {
    /// Returns what the answerer listens for, and which carrier comes first; after the end V.21.
    pub fn listens(&self) -> Listening
        ensures { result ≡ listens_after self.now.said self.now.station }
    {
        self.station().listens_after(self.said())
    }
}

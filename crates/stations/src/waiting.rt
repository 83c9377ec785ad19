//! Which of the waits of ITU-T T.30 run in a station.

ghost use Rattle.std.specs.Prelude.{◌≡◌, Some};
ghost use Rattle.stations.specs.CallerFields.{Represents};
ghost use Rattle.stations.specs.CallerStep.{Caller as CallerTuple};
ghost use Rattle.stations.specs.Waits.{caller_wait, caller_longer_wait, answerer_wait, answerer_longer_wait, unless_over};

use crate::answerer::Answerer;
use crate::caller::Caller;
use crate::turn::{AnswererState, CallerState};

/// A wait of ITU-T T.30, 5.4.3. The stations have no clock: a program measures the waits and says when one is over.
#[derive(Clone, Copy, Debug, PartialEq, Eq)]
pub enum Wait {
    /// 35 s ± 5 s: for the other station to appear. `CallerIn::Timeout` or `AnswererIn::T1` when it is over.
    T1,
    /// 6 s ± 1 s: an answerer's wait for a command. `AnswererIn::T2` when it is over.
    T2,
    /// 3 s ± 15 %: a caller's wait for the answer to a command. `CallerIn::Timeout` when it is over.
    T4,
    /// 60 s ± 5 s from the first RNR of a block: for a busy answerer. `CallerIn::T5` when it is over.
    T5,
}

impl Caller {
    /// Returns the wait that runs, from the end of the caller's last transmission or the last signal heard, whichever
    /// is later; T1 runs from the start of the call, and between two groups from the MCF before it. None after the end.
    pub fn waits(&self) -> Option<Wait>
        ensures { (t : CallerTuple) → Represents self.now t → result ≡ unless_over t.ending (Some (caller_wait t.state)) }
    {
        if self.has_ended() {
            return None;
        }
        Some(match self.state() {
            CallerState::WaitDis => Wait::T1,
            CallerState::WaitCfr => Wait::T4,
            CallerState::WaitBlock => Wait::T4,
            CallerState::WaitReady => Wait::T4,
        })
    }

    /// Returns the longer wait that runs beside it: T5 while the answerer is busy.
    pub fn longer_wait(&self) -> Option<Wait>
        ensures { (t : CallerTuple) → Represents self.now t → result ≡ unless_over t.ending (caller_longer_wait t.state) }
    {
        if self.has_ended() {
            return None;
        }
        match self.state() {
            CallerState::WaitReady => Some(Wait::T5),
            _ => None,
        }
    }
}

impl Answerer {
    /// Returns the wait that runs, from the end of the answerer's last transmission or the last signal heard, whichever
    /// is later. None after the end.
    pub fn waits(&self) -> Option<Wait>
        ensures { result ≡ unless_over self.now.ending (Some (answerer_wait self.now.state)) }
    {
        if self.end().is_some() {
            return None;
        }
        Some(match self.state() {
            AnswererState::PhaseB => Wait::T2,
            AnswererState::WaitTraining => Wait::T2,
            AnswererState::Message => Wait::T1,
        })
    }

    /// Returns the longer wait that runs beside it: T1, from the start of the call or the last signal heard; None in
    /// the message, where T1 runs alone, and after the end.
    pub fn longer_wait(&self) -> Option<Wait>
        ensures { result ≡ unless_over self.now.ending (answerer_longer_wait self.now.state) }
    {
        if self.end().is_some() {
            return None;
        }
        match self.state() {
            AnswererState::Message => None,
            _ => Some(Wait::T1),
        }
    }
}

//! Both stations as handles have them, so that what is told of a terminal, and its next burst, have one contract for both.

ghost use Rattle.g3fax.specs.Kinds.{Kind, TakesBurst, TellsGroup, TellsOther, TellsProgress, TellsState, answerer_kind, caller_kind};
ghost use Rattle.std.specs.Prelude.{◌≡◌, ◌≢◌};

use crate::agreed::{tell_params, tell_peer, told_dcs, told_dis};
use crate::answering::Answering;
use crate::bursts::{G3Burst, next_burst};
use crate::codes::in_64_bits;
use crate::handle::G3Handle;
use crate::progress::{G3Progress, answering_told, calling_told, with_watch};
use crate::signal::{G3Params, G3Signal};
use crate::states::{G3State, known_end, state_told};
use crate::status::OK;
use stations::{LimitedAnswerer, StoppableCaller};
use std::alloc::Global;
use terminals::{Shown, TimedTerminal};

/// A station as a handle has it.
pub(crate) trait Told {
    /// The station of its terminal.
    type Station;

    // What it does, and what is told of it.
    ghost kind: { Kind Self.Station Self };

    /// Tells its state.
    fn tell_state(&self, state: &mut G3State) -> u32
        ensures { TellsState kind self.now state.new result };

    /// Tells how far it is.
    fn tell_progress(&self, progress: &mut G3Progress) -> u32
        ensures { TellsProgress kind self.now progress.new result };

    /// Tells the parameters of its group.
    fn tell_group(&self, params: &mut G3Params) -> u32
        ensures tells { TellsGroup kind self.now params.old params.new result }
        ensures untold { result ≢ 0 → params.new ≡ params.old };

    /// Tells what is known of the other station.
    fn tell_other(&self, signal: &mut G3Signal) -> u32
        ensures tells { TellsOther kind self.now signal.old signal.new result }
        ensures untold { result ≢ 0 → signal.new ≡ signal.old };

    /// Fills an empty handle with the octets of its next burst.
    fn take_burst(&mut self, alloc: Global, out: &mut G3Handle, burst: &mut G3Burst) -> u32
        ensures next { TakesBurst kind self.old self.new out.old.value out.new.value burst.new
            result }
        ensures untold { result ≢ 0 → burst.new ≡ burst.old };
}

impl Told for TimedTerminal<StoppableCaller> {
    type Station = StoppableCaller;

    ghost kind = { caller_kind };

    fn tell_state(&self, state: &mut G3State) -> u32 {
        let confirmed = self.terminal().station().station().confirmed();
        *state = state_told(self.terminal().shown(), confirmed, self.good_frames());
        OK
    }

    fn tell_progress(&self, progress: &mut G3Progress) -> u32 {
        let far = self.terminal().station().station().progress();
        *progress = calling_told(far, self.figures());
        OK
    }

    fn tell_group(&self, params: &mut G3Params) -> u32 {
        tell_params(self.terminal().station().station().params(), params)
    }

    fn tell_other(&self, signal: &mut G3Signal) -> u32 {
        tell_peer(told_dis(self.terminal().station().station().peer()), signal)
    }

    fn take_burst(&mut self, alloc: Global, out: &mut G3Handle, burst: &mut G3Burst) -> u32 {
        next_burst(alloc, self, out, burst)
    }
}

impl Told for Answering {
    type Station = LimitedAnswerer;

    ghost kind = { answerer_kind };

    fn tell_state(&self, state: &mut G3State) -> u32 {
        let shown = self.timed.terminal().shown();
        let shown = Shown {
            end: known_end(self.is_confirmed(), shown.end),
            ..shown
        };
        let pages = in_64_bits(self.count_left());
        *state = state_told(shown, pages, self.timed.good_frames());
        OK
    }

    fn tell_progress(&self, progress: &mut G3Progress) -> u32 {
        let far = self.timed.terminal().station().station().progress();
        let pages = in_64_bits(self.count_left());
        let told = answering_told(far, pages, self.tally.confirmed, self.timed.figures());
        *progress = with_watch(told, self.timed.watched());
        OK
    }

    fn tell_group(&self, params: &mut G3Params) -> u32 {
        tell_params(self.timed.terminal().station().station().params(), params)
    }

    fn tell_other(&self, signal: &mut G3Signal) -> u32 {
        tell_peer(
            told_dcs(self.timed.terminal().station().station().peer()),
            signal,
        )
    }

    // if the burst is an MCF, that confirms all pages stored so far
    fn take_burst(&mut self, alloc: Global, out: &mut G3Handle, burst: &mut G3Burst) -> u32 {
        let tally = self.with_confirmed(self.timed.terminal().confirms());
        let status = next_burst(alloc, &mut self.timed, out, burst);
        if status == OK {
            self.tally = tally;
        }
        status
    }
}

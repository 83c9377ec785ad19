//! Stations over the bits of a line: octets that are heard in pieces of any size, and bursts that go out as octets with
//! their flags. It uses `stations`, `hdlc` and the crates below them.
#![tactic(auto)]

mod clock;
mod fault;
mod figures;
mod input;
pub mod laws;
mod passing;
mod sending;
mod speaking;
mod station;
mod stopping;
mod terminal;
mod timed;
mod timeout;
mod timing;
mod watching;

pub use crate::clock::{Clock, Durations, LineState};
pub use crate::fault::HearFault;
pub use crate::figures::Figures;
pub use crate::input::Input;
pub use crate::passing::{Moment, is_awaited, pass};
pub use crate::sending::SentBurst;
pub use crate::station::Station;
pub use crate::stopping::{Shown, Stoppable};
pub use crate::terminal::{AnswererTerminal, CallerTerminal, Terminal};
pub use crate::timed::{Next, TimedTerminal};
pub use crate::timeout::{Limit, Timeout};
pub use crate::timing::{
    BETWEEN_CARRIERS_MILLIS, T1_MILLIS, T2_MILLIS, T4_MILLIS, T5_MILLIS, flags_after, flags_before,
    wait_millis,
};
pub use crate::watching::{PageNumbers, Refusal, Refused, UsedMark, Watch, Watched, note};

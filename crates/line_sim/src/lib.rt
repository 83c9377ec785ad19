//! The line between the two stations of a call, and what holds over every schedule.
#![tactic(auto)]

mod call;
mod channel;
mod drive;
mod event;
mod fault;
mod item;
pub mod laws;
mod live;
mod pages;
mod polite;
mod report;
mod sender;
mod stream;
mod world;

pub use crate::drive::{DrivenCall, Fate, Patience, Step};
pub use crate::event::{Entry, Event, Fields, Form, Kind, LineItem};
pub use crate::fault::WorldFault;
pub use crate::live::{Ending, EndingCounts, LiveCall, Next};
pub use crate::report::Report;
pub use crate::stream::{Answered, Feed, answer_stream};
pub use crate::world::{World, run};

//! A station as a process: lines of text that say what is on a line and when, and lines that say what is sent.
#![tactic(auto)]

mod answering;
mod carrier;
mod conversation;
mod conversing;
mod giving;
mod hearing;
mod holding;
pub mod laws;
mod line;
mod reading;
mod refusing;
mod talking;
mod writing;

pub use crate::answering::{PageStore, answer_line, keep_pages, store_pages};
pub use crate::carrier::{Channel, Kind};
pub use crate::conversation::{Conversation, TakeFault};
pub use crate::conversing::{ConverseFault, Ending, converse};
pub use crate::hearing::{Expected, Heard, expected_first, expected_then, heard_as};
pub use crate::holding::{PageHolder, can_come, hold_pages};
pub use crate::line::{Fate, LineRefused, MOST_OCTETS, Said, TimedLine, read_line};
pub use crate::talking::{AnswerFault, Answered, Follower, Keeper, answer};
pub use crate::writing::Says;
pub use terminals::{Refusal, Refused};

//! The commands `dial` and `answer`: one end of a call, by lines of text.
#![tactic(auto)]

pub mod laws;
pub mod station;

pub use crate::station::{AnswerCommand, DialCommand};

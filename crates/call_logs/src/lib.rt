//! A log of a call, as a tap on the line writes it, and what is written of each frame in it that breaks a rule of ITU-T T.30.
#![tactic(auto)]

mod judge;
mod log;
mod pieces;
mod report;
mod rule_words;
mod tally;
mod verdicts;

pub use crate::judge::judge_log;
pub use crate::log::{LogFrame, read_log};
pub use crate::rule_words::is_reading;
pub use crate::tally::Tally;

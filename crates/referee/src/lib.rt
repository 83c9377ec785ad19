//! A referee of calls: which frame that a station has said breaks a rule of ITU-T T.30, Annex A, that no loss on the line can excuse.
#![tactic(auto)]

mod frame_test;
pub mod laws;
mod question;
mod rule;
mod said;
mod verdict;

pub use crate::frame_test::FrameTest;
pub use crate::question::Question;
pub use crate::rule::Rule;
pub use crate::said::Said;
pub use crate::verdict::{RULES, broken, judge};

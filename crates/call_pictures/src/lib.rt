//! Calls and captures drawn as ladders.
#![tactic(auto)]

mod alike;
mod captured_call;
mod diagram;
mod drawn_fields;
mod ladder;
pub mod laws;
mod picture;

pub use crate::captured_call::{CapturedFrame, CapturedFrames, captured_frames, ladder_of};
pub use crate::diagram::WithDiagram;
pub use crate::ladder::Ladder;
pub use crate::picture::write_picture;

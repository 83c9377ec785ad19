//! Many calls over a bad line, and what is counted of them.
#![tactic(auto)]

pub mod laws;
mod line_time;
mod many_calls;
mod seconds;
mod tallies;
mod tries;

pub use crate::many_calls::{drive_document_often, drive_many};

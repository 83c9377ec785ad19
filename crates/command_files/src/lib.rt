//! What the commands share: what each answers, the files that it reads and writes, and what is noted for the words of a fault.
#![tactic(auto)]

pub mod command;
pub mod context;
pub mod error_line;
pub mod files;
pub mod laws;
pub mod notices;
pub mod streams;

pub use crate::command::{Completeness, NO_NAMES, Names, Runs};

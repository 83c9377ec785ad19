//! The commands of pages, frames and calls: the files that each reads and writes, the engine that it runs, and what comes of it.
#![tactic(auto)]

pub mod call;
pub mod code;
mod damaged;
pub mod decode;
pub mod frames;
pub mod identify;
pub mod judge;
pub mod laws;
pub mod names;
pub mod show;
pub mod version;
pub mod words;

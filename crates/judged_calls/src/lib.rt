//! What the referee says of calls of the two stations. Nothing runs.
#![tactic(auto)]

pub mod laws;

//! What holds of two terminals joined by a line, whatever happens.
#![tactic(auto)]

pub mod happenings;
pub mod laws;
pub mod whole_call;

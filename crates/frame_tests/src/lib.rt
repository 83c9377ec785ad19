//! What no clause of `hdlc` and `partial_page` says: blocks and frames at size, and refused memory.
#![tactic(auto)]

#[cfg(test)]
mod blocks;
#[cfg(test)]
mod deframer;

//! Programs of an embedder, one for each crate: the examples of the crates' READMEs, word for word.
#![tactic(auto)]

pub mod calling;
pub mod frames;
pub mod pages;
#[cfg(test)]
mod tests;

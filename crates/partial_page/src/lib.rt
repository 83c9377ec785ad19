//! The partial pages of ITU-T T.30, Annex A: a coded page cut into blocks of frames, and a store that gathers the
//! frames of a block. It uses `raster` and `signals`.
#![tactic(auto)]

mod assembler;
mod blocks;
mod fault;
pub mod laws;
mod store;

pub use crate::assembler::BlockAssembler;
pub use crate::blocks::{Blocks, MAX_PAGE_OCTETS};
pub use crate::fault::BlockFault;
pub use crate::store::BlockStore;

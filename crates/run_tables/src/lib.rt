//! Runs and rows of the one-dimensional T.4 code: bits in either order, the run codes of both
//! colors, and their writing and reading. Uses `raster`.
#![tactic(auto)]

mod fault;
pub mod laws;
mod pair_table;
mod pair_words;
mod read_table;
mod reader;
mod row_reader;
mod table;
mod window;
mod write_table;
mod writer;

pub use crate::fault::{CodeFault, CodeFaultKind};
pub use crate::reader::{Among, BitReader, RunCode};
pub use crate::table::{BLACK, Code, WHITE, codes};
pub use crate::write_table::run_word;
pub use crate::writer::BitWriter;
pub use raster::packed::Order;

//! Codes of pages: the one-dimensional code of ITU-T T.4 and the two-dimensional code of ITU-T T.6,
//! under one trait. Uses `raster` and `run_tables`.
#![tactic(auto)]

mod coding;
pub mod laws;
mod one_dim;
mod page;
mod page_reader;
mod page_rows;
mod passed_row;
mod row_coder;
mod t6;
mod turned;

pub use crate::coding::{CodesPages, PageCode};
pub use crate::one_dim::OneDim;
pub use crate::one_dim::repair::{RepairedPage, RepairedRow};
pub use crate::page_reader::{PageRead, PageReader, RefusedCode};
pub use crate::page_rows::{MAX_HELD, NextRow, RowReader};
pub use crate::row_coder::RowCoder;
pub use crate::t6::T6;
pub use crate::t6::page_end::RowsToEnd;
pub use crate::turned::{code_of, turn_from, turned_code};
pub use raster::Coding;

//! What no clause of `raster`, `run_tables` and `page_code` says: vectors of other programs, pages at size, readers and writers that fail, and
//! refused memory. Tests are apart so that proving one does not prove the crate that it calls anew.
#![tactic(auto)]

#[cfg(test)]
mod coding;
#[cfg(test)]
mod one_dim;
#[cfg(test)]
mod page_reader;
#[cfg(test)]
mod pbm;
#[cfg(test)]
mod pbm_writer;
#[cfg(test)]
mod repair;
#[cfg(test)]
mod row_reader;
#[cfg(test)]
mod rows;
#[cfg(test)]
mod run_codes;
#[cfg(test)]
mod t6;
#[cfg(test)]
mod text;

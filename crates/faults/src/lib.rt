//! The faults of a command, the words that explain them, and records of JSON.
#![tactic(auto)]

mod expected;
mod explain;
mod fault;
mod fault_kind;
mod fault_records;
pub mod laws;
mod line_fault;
mod record_lines;

pub use crate::expected::Expected;
pub use crate::explain::{Explained, Known, is_shown, reason_words};
pub use crate::fault::{FAILED, NO_MEMORY, TOO_MANY_OCTETS, ToolFault};
pub use crate::fault_kind::FaultKind;
pub use crate::fault_records::{short_place, write_fault, write_line_fault, write_notice};
pub use crate::line_fault::LineFault;
pub use crate::record_lines::write_record;

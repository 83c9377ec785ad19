//! What `call` does, over any readers and any writer: calls by a script, and over a bad line.
#![tactic(auto)]

mod bad_line;
mod call;
mod call_records;
mod call_writer;
mod counts;
mod ends;
mod explained;
mod in_form;
pub mod laws;
mod line_fault;
mod losses;
mod options;
mod script;
mod sent;
mod transcript;

pub use crate::bad_line::{drive_document, drive_to_end, next_step, patience_of, set_answerer};
pub use crate::call::{
    after, answerer_caps, call_engine, call_of_document, call_of_text, call_to_end, fault_of,
};
pub use crate::call_writer::{CallWriter, WithBits};
pub use crate::counts::Counts;
pub use crate::ends::ended_normally;
pub use crate::in_form::InForm;
pub use crate::line_fault::line_fault_at;
pub use crate::losses::{BadLine, generator_of, read_rate};
pub use crate::options::CallOptions;
pub use crate::script::{Command, check_script, read_script};
pub use crate::transcript::{ItemText, TurnText, end_word, write_entry};

//! What each command does with frames and the pages in them, over any readers and any writer.
#![tactic(auto)]

mod captured;
mod content_reader;
mod found;
mod found_records;
mod frames;
mod fronts;
pub mod laws;
mod missing;
mod names;
mod numbers;
mod other_words;
mod records;
mod signal_words;
mod texts;
mod trace_records;

pub use crate::captured::{Captured, captured_in};
pub use crate::content_reader::ContentReader;
pub use crate::found::{FoundStore, pages_engine};
pub use crate::found_records::{write_missing, write_stored, write_stored_front};
pub use crate::frames::{ListForm, ListOptions, frames_engine, list_engine};
pub use crate::fronts::{FrontStore, salvage_pages_engine};
pub use crate::missing::{Missing, Stored, StoredFront};
pub use crate::numbers::PageNumbers;
pub use crate::other_words::{other_name, write_signs};
pub use crate::records::signal_record;
pub use crate::signal_words::{is_in_map, write_signal};
pub use crate::texts::{ContentText, NamedText};
pub use crate::trace_records::{write_traced, write_traced_check};

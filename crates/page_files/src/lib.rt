//! What each command does with images and coded pages, over any readers and any writer.
#![tactic(auto)]

mod agreed_widths;
mod answer;
mod coded;
mod decode_records;
mod decoding;
mod file_pages;
mod found;
mod identify;
mod later_pages;
pub mod laws;
mod marks;
mod next_t6;
mod no_eols;
mod options;
mod own_widths;
mod page_end;
mod pages;
mod refused;
mod repair;
mod repair_t6;
mod source;
mod two_dim;
mod unread;
mod zeros;

pub use crate::agreed_widths::agreed_width;
pub use crate::answer::{DecodeAnswer, answer_decoded};
pub use crate::coded::{read_image, write_code};
pub use crate::decoding::{Broken, Decoded, ReadTo, decode_page};
pub use crate::file_pages::FilePages;
pub use crate::found::{Found, find_way, find_way_by, tell_found};
pub use crate::identify::{Identity, Tried, WIDTHS, identify_engine};
pub use crate::later_pages::{answer_page, asks_damaged, later_in, without_first};
pub use crate::next_t6::{ends_by_eofb, may_follow};
pub use crate::no_eols::{NoEols, no_eols_of, tell_no_eols};
pub use crate::options::{DecodeOptions, PageForm};
pub use crate::own_widths::own_width;
pub use crate::page_end::has_its_end;
pub use crate::pages::{
    Salvage, code_engine, decode_engine, salvage_engine, show_engine, show_page, write_some,
};
pub use crate::refused::{ends_in_empty_runs, refused_at, refused_in};
pub use crate::repair::{Repair, repair_engine};
pub use crate::source::FoundPage;
pub use crate::two_dim::{TwoDim, tell_two_dims, two_dim_of};
pub use crate::unread::tell_unread;

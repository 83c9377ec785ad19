//! The words that the program is called with: its commands and their options, and what they ask for.

pub(crate) mod captures_words;
pub(crate) mod each_words;
pub(crate) mod fault_table;
pub(crate) mod judge_words;
pub(crate) mod parser;
pub(crate) mod station_words;
pub(crate) mod table;
pub(crate) mod unfit;
pub(crate) mod words;

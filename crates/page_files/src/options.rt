//! How a page is read.
use page_code::Coding;
use run_tables::Order;

/// How a coded page is read.
#[derive(Clone, Copy, Debug, PartialEq, Eq)]
pub struct PageForm {
    /// The code of the page.
    pub coding: Coding,
    /// Which bit of an octet is first.
    pub order: Order,
    /// The page's width in pixels.
    pub width: u32,
    /// Whether the lines are fine, 7.7 a millimeter, and not standard, 3.85.
    pub fine: bool,
}

/// What is wanted of a page that is decoded.
#[derive(Clone, Copy, Debug, PartialEq, Eq)]
pub struct DecodeOptions {
    /// Its whole rows, if the rest can't be read.
    pub salvage: bool,
    /// A row for each line, even if it can't be read; overrides `salvage`.
    pub repair: bool,
    /// A page without its RTC (T.4) or its EOFB (T.6, with `repair`) isn't complete.
    pub whole: bool,
    /// Also messages with its rows, the bits of its code and the octets after it.
    pub verbose: bool,
    /// Messages are records of JSON, not lines.
    pub records: bool,
}

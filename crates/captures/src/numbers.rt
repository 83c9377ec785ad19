//! The numbers of captured pages and of the files that they go to.
ghost use Rattle.captures.specs.PageNumbers.{file_from, page_missing};
ghost use Rattle.std.specs.Prelude.{◌≡◌, ◌+◌, nat_eq, not};

use crate::captured::Captured;

/// The numbers of the last page found, one more than in its PPS, and of the last file written, from 1; 0 before the first.
#[derive(Clone, Copy, Debug, PartialEq, Eq)]
pub struct PageNumbers {
    /// The last page's number.
    pub page: u64,
    /// The last file's number.
    pub file: u64,
}

impl PageNumbers {
    /// Returns the numbers before any page.
    pub fn new() -> PageNumbers
        ensures { result ≡ record { page = 0; file = 0 } }
    {
        PageNumbers { page: 0, file: 0 }
    }

    /// Notes a page by its number in its PPS, and returns the first number that its file may have: the page's own, from 1, or the one after
    /// the last file.
    pub fn found(&mut self, number: u8) -> u64
        ensures new { self.new ≡ record self.old { page = number + 1 } }
        ensures from { result ≡ file_from self.new }
    {
        self.page = u64::from(number) + 1;
        self.page.max(self.file.saturating_add(1))
    }

    /// Notes that the last page is in the file with this number, and returns whether that isn't the page's own.
    pub fn written(&mut self, file: u64) -> bool
        ensures new { self.new ≡ record self.old { file = file } }
        ensures other { result ≡ not (nat_eq file self.old.page) }
    {
        self.file = file;
        file != self.page
    }
}

/// Returns the number of a page of which something is missing, from 1; 0 if it isn't known.
pub(crate) fn missing_page(found: &Captured) -> u64
    ensures { result ≡ page_missing found.now }
{
    match found {
        Captured::Unread { mark, .. }
        | Captured::MissingFrame { mark, .. }
        | Captured::MissingBlocks(mark)
        | Captured::BlockBeforeDcs(mark)
        | Captured::BlockAfterEnd { mark, .. }
        | Captured::UsedNumber { mark, .. } => u64::from(mark.page) + 1,
        Captured::MissingPage(number) => u64::from(*number) + 1,
        Captured::MissingAfter { page, .. } => u64::from(*page) + 1,
        Captured::Page { .. } | Captured::Unfinished => 0,
    }
}

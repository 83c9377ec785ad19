//! The pages in a capture, and what is missing of others, in words.

ghost use Rattle.std.specs.Prelude.{◌≡◌};

use crate::captured::Captured;
use crate::numbers::{PageNumbers, missing_page};
use crate::texts::page_end;
use raster::Page;
use signals::{Mark, PageEnd};
use std::fmt;

/// A block by the number of its page, from 1, and its own.
#[derive(Clone, Copy, Drop)]
struct BlockText {
    page: u64,
    block: u8,
}

impl BlockText {
    /// The block of a mark.
    fn of(page: u64, mark: &Mark) -> BlockText
        ensures { result ≡ record { page = page; block = mark.now.block } }
    {
        BlockText {
            page,
            block: mark.block,
        }
    }
}

impl fmt::Display for BlockText {
    ghost use Rattle.std.specs.Prelude.{Some};
    ghost use Rattle.captures.specs.Missing.{block_words};

    ghost output = { λ text. Some (block_words text.page text.block) };

    fn fmt<W: fmt::Write>(&self, f: &mut fmt::Formatter<W>) -> fmt::Result {
        write!(f, "page {} block {}", self.page, self.block)
    }
}

/// A block that no DCS went before, after the end of a page by EOM or EOP.
#[derive(Clone, Copy, Drop)]
struct AfterText {
    block: BlockText,
    ends: PageEnd,
}

impl AfterText {
    /// The block of a mark.
    fn of(page: u64, mark: &Mark, ends: PageEnd) -> AfterText
        ensures { result ≡ record { block = record { page = page; block = mark.now.block }; ends = ends } }
    {
        AfterText {
            block: BlockText::of(page, mark),
            ends,
        }
    }
}

impl fmt::Display for AfterText {
    ghost use Rattle.std.specs.Prelude.{Some};
    ghost use Rattle.captures.specs.Missing.{after_words};

    ghost output = { λ text. Some (after_words text.block.page text.block.block text.ends) };

    fn fmt<W: fmt::Write>(&self, f: &mut fmt::Formatter<W>) -> fmt::Result {
        write!(
            f,
            "{}: no DCS after {}, so it isn't stored",
            self.block,
            page_end(self.ends),
        )
    }
}

/// A block that had to follow what the PPS before it said, under a number that was used.
#[derive(Clone, Copy, Drop)]
struct UsedText {
    block: BlockText,
    said: PageEnd,
}

impl UsedText {
    /// The block of a mark.
    fn of(page: u64, mark: &Mark, said: PageEnd) -> UsedText
        ensures { result ≡ record { block = record { page = page; block = mark.now.block }; said = said } }
    {
        UsedText {
            block: BlockText::of(page, mark),
            said,
        }
    }
}

impl fmt::Display for UsedText {
    ghost use Rattle.std.specs.Prelude.{Some};
    ghost use Rattle.captures.specs.Missing.{used_words};

    ghost output = { λ text. Some (used_words text.block.page text.block.block text.said) };

    fn fmt<W: fmt::Write>(&self, f: &mut fmt::Formatter<W>) -> fmt::Result {
        write!(
            f,
            "{}: its number was used already, so it counts as what follows {}",
            self.block,
            page_end(self.said),
        )
    }
}

/// A page that had to follow one with this end.
#[derive(Clone, Copy, Drop)]
struct FollowingText {
    page: u64,
    ends: PageEnd,
}

impl fmt::Display for FollowingText {
    ghost use Rattle.std.specs.Prelude.{Some};
    ghost use Rattle.captures.specs.Missing.{following_words};

    ghost output = { λ text. Some (following_words text.page text.ends) };

    fn fmt<W: fmt::Write>(&self, f: &mut fmt::Formatter<W>) -> fmt::Result {
        write!(
            f,
            "page {} is missing: the page before it ended with {}",
            self.page,
            page_end(self.ends),
        )
    }
}

/// What is missing of a page in a capture, on a line without its LF. The page's number is counted from 1, those of block and frame from 0,
/// as in PPS and FCD. Empty for a whole page.
#[derive(Clone, Copy, Drop)]
pub struct Missing<'a>(pub &'a Captured);

impl fmt::Display for Missing<'_> {
    ghost use Rattle.std.specs.Prelude.{Some};
    ghost use Rattle.captures.specs.Missing.{missing_text};

    ghost output = { λ text. Some (missing_text text.0.now) };

    fn fmt<W: fmt::Write>(&self, f: &mut fmt::Formatter<W>) -> fmt::Result {
        let page = missing_page(self.0);
        match self.0 {
            Captured::Page { .. } => Ok(()),
            Captured::MissingPage(_) => write!(f, "page {page} is missing"),
            Captured::Unread { mark: _, fault } => write!(
                f,
                "page {page}: can't be read, fault {} at bit {}",
                fault.kind.number(),
                fault.place,
            ),
            Captured::MissingFrame { mark, frame } => {
                write!(f, "{}: frame {frame} is missing", BlockText::of(page, mark))
            }
            Captured::MissingBlocks(mark) => write!(
                f,
                "{}: the blocks before it are missing",
                BlockText::of(page, mark),
            ),
            Captured::Unfinished => write!(f, "a page has no end"),
            Captured::BlockBeforeDcs(mark) => {
                write!(f, "{}: no DCS before it", BlockText::of(page, mark))
            }
            Captured::BlockAfterEnd { mark, ends } => {
                write!(f, "{}", AfterText::of(page, mark, *ends))
            }
            Captured::MissingAfter { page: _, ends } => {
                write!(f, "{}", FollowingText { page, ends: *ends })
            }
            Captured::UsedNumber { mark, said } => {
                write!(f, "{}", UsedText::of(page, mark, *said))
            }
        }
    }
}

/// A page of a capture that is in a file, on a line without its LF: its number, its file `page-N.pbm`, its width in pixels, its rows, and
/// whether its lines are fine.
#[derive(Clone, Copy, Drop)]
pub struct Stored<'a> {
    /// The numbers of the page and of its file.
    pub numbers: PageNumbers,
    /// The page.
    pub page: &'a Page,
}

impl fmt::Display for Stored<'_> {
    ghost use Rattle.std.specs.Prelude.{Some};
    ghost use Rattle.captures.specs.Missing.{stored_text};

    ghost output = { λ text. Some (stored_text text.numbers text.page.now) };

    fn fmt<W: fmt::Write>(&self, f: &mut fmt::Formatter<W>) -> fmt::Result {
        let lines = if self.page.fine() { "fine" } else { "standard" };
        write!(
            f,
            "page {}: page-{}.pbm, {} x {} pixels, {lines} lines",
            self.numbers.page,
            self.numbers.file,
            self.page.width(),
            self.page.rows().len(),
        )
    }
}

/// The rows of a page before a gap that are in a file, on a line without its LF: as `Stored`, and that they are the rows before a gap.
#[derive(Clone, Copy, Drop)]
pub struct StoredFront<'a>(pub Stored<'a>);

impl fmt::Display for StoredFront<'_> {
    ghost use Rattle.std.specs.Prelude.{Some};
    ghost use Rattle.captures.specs.Missing.{stored_front_text};

    ghost output = { λ text. Some (stored_front_text text.0.numbers text.0.page.now) };

    fn fmt<W: fmt::Write>(&self, f: &mut fmt::Formatter<W>) -> fmt::Result {
        write!(f, "{}, rows before a gap", self.0)
    }
}

//! What is said of a file of which every page is decoded.

ghost use Rattle.commands.specs.Each.{after_words, ends_whole, fault_of};
ghost use Rattle.commands.specs.Pages.{end_of_pages};
ghost use Rattle.page_files.specs.Identified.{order_name};
ghost use Rattle.std.specs.Prelude.{◌≡◌};

use faults::ToolFault;
use page_files::NoEols;
use run_tables::Order;
use std::fmt;

/// How far a file was decoded.
#[derive(Clone, Copy, Drop)]
pub(crate) enum FileEnd {
    /// It has this number of pages, and `decode` writes nothing of any.
    Whole(u32),
    /// It has this number of pages, of which one or more has no RTC, or no EOFB.
    NoEnd(u32),
    /// It has this number of pages, of which one or more before the last is damaged.
    Mended(u32),
    /// It has more pages than this number, the most that are asked for.
    More(u32),
    /// Of its page with this number so many rows are repaired; and whether it is known that no page follows.
    Repaired(u32, usize, bool),
    /// Its page with this number is cut, or damaged, in this row, counted from 1, by this fault; and whether it is known that no page
    /// follows.
    Cut(u32, usize, ToolFault, bool),
    /// Its page with this number can't be repaired, by this fault; and whether it is known that no page follows.
    Lost(u32, ToolFault, bool),
    /// The image of its page with this number can't be written.
    NotWritten {
        /// The number of the page.
        page: u32,
        /// The fault.
        fault: ToolFault,
    },
    /// It begins as a format of this name.
    NoFax(&'static str),
    /// It is T.4 in two dimensions (MR), which isn't read.
    TwoDims,
    /// It is rows of T.4 without EOLs, which aren't read.
    NoEols(NoEols),
    /// It reads as a page in several widths.
    NoWidth,
    /// It is neither a page nor a known format.
    Nothing,
    /// Its name isn't UTF-8.
    NoText,
    /// It can't be read.
    Failed(ToolFault),
}

/// Returns what is said of the pages after one, by whether it is known that none follows.
fn after_words(is_last: bool) -> &'static str
    ensures { result.now ≡ after_words is_last }
{
    if is_last {
        ""
    } else {
        "; a page after it is not looked for"
    }
}

/// Returns the name of an order of bits, as `identify` writes it.
fn order_name(order: Order) -> &'static str
    ensures { result.now ≡ order_name order }
{
    match order {
        Order::MsbFirst => "most significant bit first",
        Order::LsbFirst => "least significant bit first",
    }
}

impl FileEnd {
    /// Returns the end of a file of this number of pages, of which one is damaged or none, and nothing is written or something is.
    pub(crate) fn of(pages: u32, is_damaged: bool, is_silent: bool) -> FileEnd
        ensures { result ≡ end_of_pages pages is_damaged is_silent }
    {
        if is_damaged {
            FileEnd::Mended(pages)
        } else if is_silent {
            FileEnd::Whole(pages)
        } else {
            FileEnd::NoEnd(pages)
        }
    }

    /// Returns whether every page of the file has its end, and no row is repaired or missing.
    pub(crate) fn is_whole(self) -> bool
        ensures { result ≡ ends_whole self }
    {
        match self {
            FileEnd::Whole(_) => true,
            FileEnd::NoEnd(_)
            | FileEnd::Mended(_)
            | FileEnd::More(_)
            | FileEnd::Repaired(..)
            | FileEnd::Cut(..)
            | FileEnd::Lost(..)
            | FileEnd::NotWritten { .. }
            | FileEnd::NoFax(_)
            | FileEnd::TwoDims
            | FileEnd::NoEols(_)
            | FileEnd::NoWidth
            | FileEnd::Nothing
            | FileEnd::NoText
            | FileEnd::Failed(_) => false,
        }
    }

    /// Returns the fault with which it ends, if it does.
    pub(crate) fn fault(self) -> Option<ToolFault>
        ensures { result ≡ fault_of self }
    {
        match self {
            FileEnd::Cut(_, _, fault, _)
            | FileEnd::Lost(_, fault, _)
            | FileEnd::NotWritten { page: _, fault }
            | FileEnd::Failed(fault) => Some(fault),
            FileEnd::Whole(_)
            | FileEnd::NoEnd(_)
            | FileEnd::Mended(_)
            | FileEnd::More(_)
            | FileEnd::Repaired(..)
            | FileEnd::NoFax(_)
            | FileEnd::TwoDims
            | FileEnd::NoEols(_)
            | FileEnd::NoWidth
            | FileEnd::Nothing
            | FileEnd::NoText => None,
        }
    }
}

impl fmt::Display for FileEnd {
    ghost use Rattle.std.specs.Prelude.{Some};
    ghost use Rattle.commands.specs.Each.{end_text};

    ghost output = { λ end. Some (end_text end) };

    fn fmt<W: fmt::Write>(&self, f: &mut fmt::Formatter<W>) -> fmt::Result {
        match self {
            FileEnd::Whole(pages) => write!(f, "whole {pages} pages"),
            FileEnd::NoEnd(pages) => write!(f, "{pages} pages, and one or more has no end"),
            FileEnd::More(pages) => {
                write!(f, "{pages} pages, and more follow that weren't asked for")
            }
            FileEnd::Mended(pages) => write!(f, "{pages} pages, and one or more is damaged"),
            FileEnd::Repaired(page, repaired, is_last) => {
                let after = after_words(*is_last);
                write!(f, "repaired {repaired} rows of page {page}{after}")
            }
            FileEnd::Cut(page, row, fault, is_last) => {
                let after = after_words(*is_last);
                write!(f, "cut at row {row} of page {page}: {fault}{after}")
            }
            FileEnd::Lost(page, fault, is_last) => {
                let after = after_words(*is_last);
                write!(f, "page {page} is not read: {fault}{after}")
            }
            FileEnd::NotWritten { page, fault } => {
                write!(f, "page {page} is not written: {fault}")
            }
            FileEnd::NoFax(name) => write!(f, "no fax: {name}"),
            FileEnd::TwoDims => write!(f, "not read: T.4 in two dimensions (MR)"),
            FileEnd::NoEols(NoEols { order, width, rows }) => {
                let order = order_name(*order);
                write!(
                    f,
                    "T.4 without EOLs (TIFF compression 2), {order}, width {width}, {rows} rows: not read; try tiffcp -c g4 on its TIFF"
                )
            }
            FileEnd::NoWidth => write!(
                f,
                "the width is not known: identify names several; give one of them by --width"
            ),
            FileEnd::Nothing => write!(f, "not read: identify may tell what it is"),
            FileEnd::NoText => write!(f, "its name isn't UTF-8"),
            FileEnd::Failed(fault) => write!(f, "{fault}"),
        }
    }
}

//! Laws of pages in either code: what their contracts say is proved, and nothing runs.

ghost use Rattle.page_code.specs.RowsSoFar.{RowsStay};
ghost use Rattle.page_code.specs.Codings.{GivesCodedRows, ReadsCode, ReadsExactly, RefusesAtLongest, RefusesExactly, RefusesNoPage};
ghost use Rattle.page_code.specs.WorkedPages.{AreOneDimPages, AreOpenRows, AreT6Pages};

pub mod one_dim;
pub mod t6;

/// A page is read exactly if the bits read as it.
pub fn reads_exactly()
    ensures { ReadsExactly }
{}

/// Bits that are refused read as no page.
pub fn refuses_no_page()
    ensures { RefusesNoPage }
{}

/// The place of a refusal is the length of the longest front, and its kind is that of the bits after it.
pub fn refuses_at_longest()
    ensures { RefusesAtLongest }
{}

/// Reading is refused exactly where whole items of a page begin the bits and the page goes no further, for
/// the reason that a relation over the grammar gives; bits read as a page or have one refusal, and not both.
pub fn refuses_exactly()
    ensures { RefusesExactly }
{}

/// The code of a page, followed by any bits, reads as the page, and reading it gives the page and the code's
/// length.
pub fn round_trip()
    ensures reads { ReadsCode }
    ensures gives { GivesCodedRows }
{}

/// Rows that are whole stay whole when bits follow.
pub fn rows_stay()
    ensures { RowsStay }
{}

/// Pages that were coded by hand from the tables: each end of a T.4 page, T.4 rows without their end, and the
/// modes of T.6.
pub fn worked_pages()
    ensures one_dim { AreOneDimPages }
    ensures open_rows { AreOpenRows }
    ensures t6 { AreT6Pages }
{}

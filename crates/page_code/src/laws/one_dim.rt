//! Laws of pages in the one-dimensional code: what their contracts say is proved, and nothing runs.

ghost use Rattle.page_code.specs.OneDimension.KindLaws.{AreRefusedPages, FrontsGoOn, OneKind, RefusesPagesExactly};
ghost use Rattle.page_code.specs.OneDimension.LinesMean.{FirstLineMeans, LineEndsMean, RowLinesEndMean, SkippingMeans};
ghost use Rattle.page_code.specs.OneDimension.OwnRuns.{OwnRunsOwn, OwnRunsOnly};
ghost use Rattle.page_code.specs.OneDimension.Repairs.{OneRepair, RepairsNothing};
ghost use Rattle.page_code.specs.OneDimension.Laws.{ReadsExactly, RefusesNoPage, RefusesAtLongest, OneFront, ReadsCode};

/// A page is read exactly if the bits read as it.
pub fn reads_exactly()
    ensures { ReadsExactly }
{}

/// Bits that are refused read as no page.
pub fn refuses_no_page()
    ensures { RefusesNoPage }
{}

/// The place of a refusal is the length of the longest front, and its kind is that of the bits after it.
pub fn refuses_at_longest()
    ensures { RefusesAtLongest }
{}

/// Of two fronts of the same bits, one begins the other.
pub fn one_front()
    ensures { OneFront }
{}

/// The code of a page, followed by any bits, reads as the page.
pub fn round_trip()
    ensures { ReadsCode }
{}

/// The own runs that the function gives are the row's own runs.
pub fn own_runs_own()
    ensures { OwnRunsOwn }
{}

/// No other runs are a row's own runs.
pub fn own_runs_only()
    ensures { OwnRunsOnly }
{}

/// A page that can be read is given as it is, with no row repaired.
pub fn repair_of_a_whole_page()
    ensures { RepairsNothing }
{}

/// Bits give one page, with the same rows repaired.
pub fn one_repair()
    ensures { OneRepair }
{}

/// When a line of a repaired page ends, by bits: with an EOL, also one with a single wrong bit among its
/// first eleven; after a row that ends in black also with a white run of 0 pixels and an EOL. After a line
/// that can't be read, reading goes on after the next EOL and nowhere else. The first line begins after an
/// EOL, or at once.
pub fn lines_mean()
    ensures ends { LineEndsMean }
    ensures rows { RowLinesEndMean }
    ensures skips { SkippingMeans }
    ensures first { FirstLineMeans }
{}

/// One place of a page has one kind of refusal.
pub fn one_kind()
    ensures { OneKind }
{}

/// A page is refused exactly where it goes no further after whole items, for the reason that the bits there
/// give: bits read as a page or have one refusal, and not both.
pub fn refuses_pages_exactly()
    ensures { RefusesPagesExactly }
{}

/// After whole items of a page some bits complete a page; after a run code that passes the width, a second
/// EOL before any row, bits that begin no code, or a 20,001st row's beginning, no bits do.
pub fn fronts_go_on()
    ensures { FrontsGoOn }
{}

/// Refused pages that were coded by hand from the tables.
pub fn refused_pages()
    ensures { AreRefusedPages }
{}

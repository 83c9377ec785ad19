//! Laws of the two-dimensional code: what their contracts say is proved, and nothing runs.

ghost use Rattle.page_code.specs.TwoDimensions.ByPlaces.{ModesByValue, PrescribesByPlaces};
ghost use Rattle.page_code.specs.TwoDimensions.KindLaws.{AreRefusedPages, FrontsAreParts, FrontsGoOn, OneKind, RefusesPagesExactly};
ghost use Rattle.page_code.specs.TwoDimensions.PageEnds.{PageEndsMean};
ghost use Rattle.page_code.specs.TwoDimensions.Laws.{FindsPositions, OneFront, PassLeadsOn, ReadsExactly};
ghost use Rattle.page_code.specs.TwoDimensions.Laws.{RefusesAtLongest, RefusesNoPage, RoundTrip};

/// Where `T6::rows_to_end` finds that no row begins, no row's code is there; EOFB, a part of it and nothing
/// are such ends of a page, and an extension isn't.
pub fn page_ends_mean()
    ensures { PageEndsMean }
{}

/// The search finds exactly b1, b2 and the next changing element of a row.
pub fn finds_positions()
    ensures { FindsPositions }
{}

/// Pass mode is never refused on a line that isn't whole.
pub fn pass_leads_on()
    ensures { PassLeadsOn }
{}

/// A page is read exactly if the bits read as it.
pub fn reads_exactly()
    ensures { ReadsExactly }
{}

/// Bits that are refused read as no page.
pub fn refuses_no_page()
    ensures { RefusesNoPage }
{}

/// The place of a refusal is the length of the longest front, and its kind is that of the bits after it.
pub fn refuses_at_longest()
    ensures { RefusesAtLongest }
{}

/// Of two fronts of the same bits, one begins the other.
pub fn one_front()
    ensures { OneFront }
{}

/// A page is refused exactly where it goes no further after whole codes, for the reason that the bits there
/// give: bits read as a page or have one refusal, and not both.
pub fn refuses_pages_exactly()
    ensures { RefusesPagesExactly }
{}

/// One place of a page has one kind of refusal.
pub fn one_kind()
    ensures { OneKind }
{}

/// The fronts that a reader goes over are exactly the whole codes of a page.
pub fn fronts_are_parts()
    ensures { FrontsAreParts }
{}

/// After whole codes some bits complete a page, whose first rows are the ones before; after what is refused
/// no bits do.
pub fn fronts_go_on()
    ensures { FrontsGoOn }
{}

/// Refused pages that were coded by hand from the tables.
pub fn refused_pages()
    ensures { AreRefusedPages }
{}

/// The code of a page, followed by any bits, reads as the page.
pub fn round_trip()
    ensures { RoundTrip }
{}

/// The prescribed mode by the places of the changing elements: pass mode if b2 is to the left of a1, else a
/// vertical mode if a1 is at most three places from b1, else horizontal mode; and the mode codes by length
/// and value (ITU-T T.6, 2.2).
pub fn prescribes_by_places()
    ensures modes { PrescribesByPlaces }
    ensures codes { ModesByValue }
{}

//! Laws of the definitions. Nothing runs.

ghost use Rattle.page_files.specs.AgreedRows.{LinesByGaps};
ghost use Rattle.page_files.specs.FormatRows.{FlagsByOctets, FormatsByOctets, WidthsMean};
ghost use Rattle.page_files.specs.IdentifyLaws.{FindsWhatIsSaid, FirstLineIsBest};
ghost use Rattle.page_files.specs.MarkRows.{MarksByGaps};
ghost use Rattle.page_files.specs.OwnWidths.{PagesSayWidths};
ghost use Rattle.page_files.specs.RepairsMean.{RowsAreListed, TornIsOneBitOff};

/// The lines written for repaired rows, by three lists; and each torn EOL that ends a line has one wrong bit, among its first eleven.
pub fn repairs_mean()
    ensures rows { RowsAreListed }
    ensures torn { TornIsOneBitOff }
{}

/// A page of T.4 says its width, so that `identify` needs no list of widths for it (ITU-T T.4, 4.1.2).
pub fn own_widths()
    ensures { PagesSayWidths }
{}

/// What `decode --each` does is what `identify` says: it reads octets in the way of the first line, and what it finds follows from the ways
/// that `identify` tried.
pub fn each_as_identified()
    ensures first { FirstLineIsBest }
    ensures finds { FindsWhatIsSaid }
{}

/// The formats that `identify` names, by octets; and which widths it tries where a file says none.
pub fn formats_by_octets()
    ensures formats { FormatsByOctets }
    ensures flags { FlagsByOctets }
    ensures widths { WidthsMean }
{}

/// The marks that end a page's code, RTC and EOFB, by the 0 bits before each 1.
pub fn marks_by_gaps()
    ensures { MarksByGaps }
{}

/// Lines of T.4 begin after EOLs, by the 0 bits before each 1, and agree on a width or don't.
pub fn lines_by_gaps()
    ensures { LinesByGaps }
{}

//! Laws of the definitions. Nothing runs.

ghost use Rattle.commands.specs.EachRows.{EndsByPage, ImagesByName, LinesBelow, LinesByEnd};
ghost use Rattle.commands.specs.EachRows.{NamesByOctets, PagesByRecords, RowsAreEnough};
ghost use Rattle.commands.specs.Laws.{OnePageAsDecode};
ghost use Rattle.commands.specs.PrintedRows.{PrintedInOrder, SaidByLines, UnreadByKind};

/// What `decode --each` reports of a file of one page is what `decode` with the same options gives of it.
pub fn one_page_as_decode()
    ensures { OnePageAsDecode }
{}

/// The lines that `decode --each` prints of a file, by its end, and those below them.
pub fn each_by_lines()
    ensures ends { LinesByEnd }
    ensures below { LinesBelow }
{}

/// The names of images, by those of their files, and how the names of files stand on lines and in lists.
pub fn images_by_names()
    ensures images { ImagesByName }
    ensures names { NamesByOctets }
{}

/// A file ends as its last page says, and octets with enough rows are a damaged page.
pub fn ends_by_pages()
    ensures ends { EndsByPage }
    ensures rows { RowsAreEnough }
{}

/// The records of pages and files, as JSON.
pub fn pages_by_records()
    ensures { PagesByRecords }
{}

/// What is printed of several files, and what `identify` prints of one.
pub fn printed_by_files()
    ensures order { PrintedInOrder }
    ensures lines { SaidByLines }
    ensures unread { UnreadByKind }
{}

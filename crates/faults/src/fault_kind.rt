//! What each fault is, by its number and by what it is of: a whole file, a coded page at a bit, or a script at a line.

ghost use Rattle.faults.specs.FaultKinds.{number_of, page_kind, whole_kind, words_of};
ghost use Rattle.std.specs.Prelude.{◌≡◌};

use std::fmt;

/// What a fault is. Each kind has a number and words; `Display` writes the words.
#[derive(Clone, Copy, Debug, PartialEq, Eq)]
pub enum FaultKind {
    /// An image's width isn't 1 to 2,432 pixels.
    BadWidth,
    /// A row isn't as wide as its page.
    WrongRowWidth,
    /// An image has more than 20,000 rows.
    TooManyRows,
    /// An image has no row.
    NoRows,
    /// A file isn't a raw PBM, or the header of one of its images is wrong.
    BadHeader,
    /// An image is cut short.
    ShortData,
    /// A file of images is empty.
    NoPages,
    /// A reader, a writer or a file failed.
    Io,
    /// Memory was refused.
    NoMemory,
    /// The address of a frame's content isn't FF.
    BadAddress,
    /// The control field of a frame's content is neither 03 nor 13.
    BadControl,
    /// A field of a frame's content is missing or cut short.
    ShortField,
    /// A call can't carry a page of this width: it isn't 1,728, 2,048 or 2,432 pixels.
    WidthNotCallable,
    /// Several images, though one is wanted.
    SeveralPages,
    /// The file has fewer pages than the number of the page asked for.
    FewerPages,
    /// Not a page in any of the ways tried, and no known format.
    Unidentified,
    /// A file has more octets than are read of such a file.
    TooManyOctets,
    /// A fault without a place whose number no other kind has.
    Unknown(u8),
    /// A coded page ends before its first row.
    NoCodedRows,
    /// No valid code begins at the bit.
    BadCode,
    /// The bits end inside a code, or before the next one.
    Truncated,
    /// A run goes past the row's width, in the one-dimensional code.
    RunTooLong,
    /// A vertical mode that doesn't move to the right.
    Backwards,
    /// A mode or a run goes past the row's width, in T.6.
    PastEnd,
    /// A horizontal mode of two runs of 0 pixels.
    EmptyHorizontal,
    /// An extension code, for example of uncompressed mode.
    Extension,
    /// The page's end, EOFB, is missing (T.6, 2.4).
    MissingEofb,
    /// The page has a 20,001st row.
    TooManyCodedRows,
    /// A fault at a bit whose number no other kind has.
    UnknownAtBit(u8),
    /// A line of a script is no command.
    BadLine,
}

// The number alone names no kind: 4 is an image without rows, and at a bit a page that ends before its first row. The matches have no
// catch-all, so that a new kind needs a number and words.
impl FaultKind {
    /// Returns the number of the fault, as the fault line shows it.
    pub fn number(self) -> u8
        ensures { result ≡ number_of self }
    {
        match self {
            FaultKind::BadWidth => 1,
            FaultKind::WrongRowWidth => 2,
            FaultKind::TooManyRows => 3,
            FaultKind::NoRows | FaultKind::NoCodedRows => 4,
            FaultKind::BadHeader => 5,
            FaultKind::ShortData => 6,
            FaultKind::NoPages => 7,
            FaultKind::Io => 8,
            FaultKind::NoMemory => 9,
            FaultKind::BadCode => 10,
            FaultKind::Truncated => 11,
            FaultKind::RunTooLong => 12,
            FaultKind::Backwards => 13,
            FaultKind::PastEnd => 14,
            FaultKind::EmptyHorizontal => 15,
            FaultKind::Extension => 16,
            FaultKind::MissingEofb => 17,
            FaultKind::TooManyCodedRows => 18,
            FaultKind::BadAddress => 20,
            FaultKind::BadControl => 21,
            FaultKind::ShortField => 22,
            FaultKind::WidthNotCallable => 26,
            FaultKind::SeveralPages => 27,
            FaultKind::FewerPages => 28,
            FaultKind::Unidentified => 29,
            FaultKind::BadLine => 30,
            FaultKind::TooManyOctets => 32,
            FaultKind::Unknown(no) | FaultKind::UnknownAtBit(no) => no,
        }
    }

    /// Returns the words of this kind, for a fault of which nothing more is known.
    pub(crate) fn words(self) -> &'static str
        ensures { result.now ≡ words_of self }
    {
        match self {
            FaultKind::BadWidth => "the width isn't 1 to 2432 pixels",
            FaultKind::WrongRowWidth => "a row isn't as wide as its page",
            FaultKind::TooManyRows => "the image has more than 20000 rows",
            FaultKind::NoRows => "the image has no row",
            FaultKind::BadHeader => "no raw PBM: it doesn't begin with P4",
            FaultKind::ShortData =>
                "the image is cut short: it has fewer octets than its width and height say",
            FaultKind::NoPages => "there is no image: it has no octet",
            FaultKind::Io => "it can't be read or written",
            FaultKind::NoMemory => "memory was refused: try it with less input or more memory",
            FaultKind::WidthNotCallable =>
                "a page's width isn't 1728, 2048 or 2432 pixels, the widths that a call carries",
            FaultKind::SeveralPages => "several images: code takes one",
            FaultKind::FewerPages => "the file has fewer pages than --page says",
            FaultKind::Unidentified =>
                "it reads as no page in any way that is tried, and begins as no known format",
            FaultKind::TooManyOctets => "it has more octets than are read of such a file",
            FaultKind::BadAddress
            | FaultKind::BadControl
            | FaultKind::ShortField
            | FaultKind::Unknown(_) => "it can't be used",
            FaultKind::NoCodedRows => "the page ends before its first row",
            FaultKind::BadCode => "no valid code begins here",
            FaultKind::Truncated =>
                "the file ends inside a code or before the next one: it is cut short",
            FaultKind::RunTooLong => "this run goes past the row's width: is --width right?",
            FaultKind::Backwards => "this vertical mode doesn't move to the right",
            FaultKind::PastEnd => "this mode or run goes past the row's width: is --width right?",
            FaultKind::EmptyHorizontal => "a horizontal mode of two runs of 0 pixels",
            FaultKind::Extension =>
                "an extension code, as of uncompressed mode, which faxtool doesn't read",
            FaultKind::MissingEofb => "the page's end (EOFB) is missing: the file is cut short",
            FaultKind::TooManyCodedRows => "one row more than 20000, the most that a page has",
            FaultKind::UnknownAtBit(_) => "no page can go on here",
            FaultKind::BadLine => "no command of a script, or no count that it takes",
        }
    }

    /// The kind of a fault of a whole file, by its number.
    pub(crate) fn of_whole(no: u8) -> FaultKind
        ensures { result ≡ whole_kind no }
    {
        match no {
            1 => FaultKind::BadWidth,
            2 => FaultKind::WrongRowWidth,
            3 => FaultKind::TooManyRows,
            4 => FaultKind::NoRows,
            5 => FaultKind::BadHeader,
            6 => FaultKind::ShortData,
            7 => FaultKind::NoPages,
            8 => FaultKind::Io,
            9 => FaultKind::NoMemory,
            20 => FaultKind::BadAddress,
            21 => FaultKind::BadControl,
            22 => FaultKind::ShortField,
            26 => FaultKind::WidthNotCallable,
            27 => FaultKind::SeveralPages,
            28 => FaultKind::FewerPages,
            29 => FaultKind::Unidentified,
            32 => FaultKind::TooManyOctets,
            _ => FaultKind::Unknown(no),
        }
    }

    /// The kind of a fault of a coded page at a bit, by its number.
    pub(crate) fn of_page(no: u8) -> FaultKind
        ensures { result ≡ page_kind no }
    {
        match no {
            4 => FaultKind::NoCodedRows,
            10 => FaultKind::BadCode,
            11 => FaultKind::Truncated,
            12 => FaultKind::RunTooLong,
            13 => FaultKind::Backwards,
            14 => FaultKind::PastEnd,
            15 => FaultKind::EmptyHorizontal,
            16 => FaultKind::Extension,
            17 => FaultKind::MissingEofb,
            18 => FaultKind::TooManyCodedRows,
            _ => FaultKind::UnknownAtBit(no),
        }
    }
}

impl fmt::Display for FaultKind {
    ghost use Rattle.std.specs.Prelude.{Some};

    ghost output = { λ kind. Some (words_of kind) };

    fn fmt<W: fmt::Write>(&self, f: &mut fmt::Formatter<W>) -> fmt::Result {
        write!(f, "{}", self.words())
    }
}

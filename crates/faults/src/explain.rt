//! What a fault line means, in words: which file, where in it, and what is wrong there.

ghost use Rattle.faults.specs.Explanations.{are_shown, is_at_end, is_shown, line_words, missing_code, no_raw_pbm};
ghost use Rattle.faults.specs.Explanations.{other_words, reason_words, try_words, wrong_words};
ghost use Rattle.std.specs.Prelude.{◌≡◌};

use crate::expected::Expected;
use crate::fault::ToolFault;
use crate::fault_kind::FaultKind;
use crate::line_fault::LineFault;
use page_code::Coding;
use raster::Color;
use run_tables::Order;
use std::fmt;
use std::io::ErrorKind;

/// What is known of a fault beside the fault line; `None` or empty for what isn't known.
#[derive(Clone, Copy, Debug, PartialEq, Eq)]
pub struct Known<'a> {
    /// The name of the file that the fault is about.
    pub file: &'a str,
    /// Why the system refused to read or write the file, if it did.
    pub reason: Option<ErrorKind>,
    /// The first octets of the file, if it is an image.
    pub begins: &'a [u8],
    /// The row of a coded page that has the refused bit, counted from 1.
    pub row: Option<usize>,
    /// What was expected at the refused bit.
    pub expected: Option<Expected>,
    /// The code and the bit order with which a coded page was read.
    pub read_as: Option<(Coding, Order)>,
    /// What is wrong with the refused line of a script.
    pub line: Option<LineFault>,
}

/// A fault in words, on one line: no LF and no other control character, whatever the file's name is. The words depend on `fault` and
/// `known` alone.
#[derive(Clone, Copy, Debug, PartialEq, Eq)]
pub struct Explained<'a> {
    /// The fault.
    pub fault: ToolFault,
    /// What else is known of it.
    pub known: Known<'a>,
}

impl fmt::Display for Explained<'_> {
    ghost use Rattle.std.specs.Prelude.{Some};
    ghost use Rattle.faults.specs.Explanations.{explained};

    ghost output = { λ words. Some (explained words.fault words.known) };

    fn fmt<W: fmt::Write>(&self, f: &mut fmt::Formatter<W>) -> fmt::Result {
        let name = NameText(self.known.file);
        let kind = self.fault.kind();
        let wrong = wrong_words(kind, self.known);
        match self.fault {
            ToolFault::No(_) => write!(f, "{name}: {wrong}"),
            ToolFault::AtBit { .. } => write!(
                f,
                "{name}: {}{wrong}{}",
                RowText(self.known.row),
                try_words(kind, self.known.row, self.known.read_as),
            ),
            ToolFault::AtLine(line) => write!(f, "{name}: line {line}: {wrong}"),
        }
    }
}

/// The name of a file; `a file` if the name has a control character.
#[derive(Clone, Copy, Drop)]
struct NameText<'a>(&'a str);

impl fmt::Display for NameText<'_> {
    ghost use Rattle.std.specs.Prelude.{Some};
    ghost use Rattle.faults.specs.Explanations.{name_text};

    ghost output = { λ text. Some (name_text text.0.now) };

    fn fmt<W: fmt::Write>(&self, f: &mut fmt::Formatter<W>) -> fmt::Result {
        // so no file name makes a second line or moves a terminal's cursor
        if is_shown(self.0) {
            write!(f, "{}", self.0)
        } else {
            write!(f, "a file")
        }
    }
}

/// Returns whether a text has no control character: none of U+0000 to U+001F and U+007F to U+009F.
pub fn is_shown(text: &str) -> bool
    ensures { result ≡ are_shown 0 text.now }
{
    let mut before = 0;
    for octet in text.as_bytes() {
        if !is_shown_after(before, *octet) {
            return false;
        }
        before = *octet;
    }
    true
}

/// Returns whether an octet after another one neither is a control character nor ends one (C2 and then 80 to 9F).
fn is_shown_after(before: u8, octet: u8) -> bool
    ensures { result ≡ is_shown before octet }
{
    octet >= 32 && !(octet == 127 || (octet >= 128 && octet < 160 && before == 194))
}

/// The row in which a coded page is refused.
#[derive(Clone, Copy, Drop)]
struct RowText(Option<usize>);

impl fmt::Display for RowText {
    ghost use Rattle.std.specs.Prelude.{Some};
    ghost use Rattle.faults.specs.Explanations.{row_text};

    ghost output = { λ text. Some (row_text text.0) };

    fn fmt<W: fmt::Write>(&self, f: &mut fmt::Formatter<W>) -> fmt::Result {
        match self.0 {
            Some(row) => write!(f, "row {row}: "),
            None => write!(f, ""),
        }
    }
}

/// What is wrong, by the kind of the fault and by what is known of it.
fn wrong_words(kind: FaultKind, known: Known<'_>) -> &'static str
    ensures { result.now ≡ wrong_words kind known.entry }
{
    match kind {
        FaultKind::BadHeader => no_raw_pbm(known.begins),
        FaultKind::Io => reason_words(known.reason),
        FaultKind::BadCode => missing_code(known.expected),
        FaultKind::BadLine => line_words(known.line),
        FaultKind::BadWidth
        | FaultKind::WrongRowWidth
        | FaultKind::TooManyRows
        | FaultKind::NoRows
        | FaultKind::ShortData
        | FaultKind::NoPages
        | FaultKind::NoMemory
        | FaultKind::BadAddress
        | FaultKind::BadControl
        | FaultKind::ShortField
        | FaultKind::WidthNotCallable
        | FaultKind::SeveralPages
        | FaultKind::FewerPages
        | FaultKind::Unidentified
        | FaultKind::TooManyOctets
        | FaultKind::Unknown(_)
        | FaultKind::NoCodedRows
        | FaultKind::Truncated
        | FaultKind::RunTooLong
        | FaultKind::Backwards
        | FaultKind::PastEnd
        | FaultKind::EmptyHorizontal
        | FaultKind::Extension
        | FaultKind::MissingEofb
        | FaultKind::TooManyCodedRows
        | FaultKind::UnknownAtBit(_) => kind.words(),
    }
}

/// Why the octets of a file, of which these are the first ones, aren't a raw PBM (P4).
fn no_raw_pbm(begins: &[u8]) -> &'static str
    ensures { result.now ≡ no_raw_pbm begins.now }
{
    match begins {
        [80, 49, ..] => "a plain PBM (P1): faxtool reads raw ones (P4)",
        [80, 50, ..] => "a plain PGM (P2): faxtool reads raw PBM (P4)",
        [80, 51, ..] => "a plain PPM (P3): faxtool reads raw PBM (P4)",
        [80, 52, ..] => {
            "a header is wrong: after P4 come the width and the height, and after an image the next P4 or the end"
        }
        [80, 53, ..] => "a raw PGM (P5): faxtool reads raw PBM (P4)",
        [80, 54, ..] => "a raw PPM (P6): faxtool reads raw PBM (P4)",
        [80, 55, ..] => "a PAM (P7): faxtool reads raw PBM (P4)",
        [73, 73, ..] | [77, 77, ..] => "perhaps a TIFF: faxtool reads raw PBM (P4)",
        _ => "no raw PBM: it doesn't begin with P4",
    }
}

/// Why the system refuses a file.
pub fn reason_words(reason: Option<ErrorKind>) -> &'static str
    ensures { result.now ≡ reason_words reason }
{
    match reason {
        // the kind in our own words: no contract speaks of the text of the C library
        Some(ErrorKind::NotFound) => "no such file or folder",
        Some(ErrorKind::PermissionDenied) => "permission denied",
        Some(ErrorKind::AlreadyExists) => "there is a file of this name already",
        Some(ErrorKind::IsADirectory) => "it is a folder",
        Some(ErrorKind::NotADirectory) => "a part of its path is no folder",
        Some(ErrorKind::StorageFull) => "no space left on the device",
        Some(ErrorKind::QuotaExceeded) => "the quota is used up",
        Some(ErrorKind::FileTooLarge) => "it would be larger than a file may be",
        Some(ErrorKind::ReadOnlyFilesystem) => "the file system is read-only",
        Some(ErrorKind::BrokenPipe) => "what reads the pipe has closed it",
        Some(ErrorKind::InvalidFilename) => "the name is too long",
        Some(ErrorKind::FilesystemLoop) => "its links lead in a circle",
        Some(ErrorKind::ExecutableFileBusy) => "it is a program that is running",
        Some(ErrorKind::InvalidData) => "it isn't UTF-8",
        Some(ErrorKind::InvalidInput | ErrorKind::Unsupported) => "its file system can't do this",
        _ => "it can't be read or written",
    }
}

/// Returns what was expected at the bit where no code word begins.
fn missing_code(expected: Option<Expected>) -> &'static str
    ensures { result.now ≡ missing_code expected }
{
    match expected {
        Some(Expected::RunOf(Color::White)) => "no code word of a white run begins here",
        Some(Expected::RunOf(Color::Black)) => "no code word of a black run begins here",
        Some(Expected::Eol) => "an EOL is expected here, and no EOL begins here",
        None => "no valid code begins here",
    }
}

/// Returns what to try if the first row of a page is refused, unless the file ends there.
fn try_words(kind: FaultKind, row: Option<usize>, read_as: Option<(Coding, Order)>) -> &'static str
    ensures { result.now ≡ try_words kind row read_as }
{
    match (row, read_as) {
        // both are named, since nothing says which one is more likely
        (Some(1), Some((coding, order))) if !is_at_end(kind) => other_words(coding, order),
        _ => "",
    }
}

/// Returns whether a fault of a coded page is that its file ends.
fn is_at_end(kind: FaultKind) -> bool
    ensures { result ≡ is_at_end kind }
{
    matches!(kind, FaultKind::Truncated | FaultKind::MissingEofb)
}

/// What to try in place of a code and an order of bits: the other ones.
fn other_words(coding: Coding, order: Order) -> &'static str
    ensures { result.now ≡ other_words (coding, order) }
{
    match (coding, order) {
        (Coding::OneDim, Order::MsbFirst) => " (try --order lsb, or --code mmr)",
        (Coding::OneDim, Order::LsbFirst) => " (try --order msb, or --code mmr)",
        (Coding::T6, Order::MsbFirst) => " (try --order lsb, or --code mh)",
        (Coding::T6, Order::LsbFirst) => " (try --order msb, or --code mh)",
    }
}

/// What is wrong with a line of a script.
fn line_words(line: Option<LineFault>) -> &'static str
    ensures { result.now ≡ line_words line }
{
    match line {
        Some(LineFault::NotUtf8) => "it isn't UTF-8",
        Some(LineFault::Blank) => {
            "a blank is wrong: a line is a word, or a word, one space and a count"
        }
        Some(LineFault::Word) => "no command of a script begins with this word",
        Some(LineFault::Count) => "the count is missing or isn't 1 to 1000000",
        None => "no command of a script, or no count that it takes",
    }
}

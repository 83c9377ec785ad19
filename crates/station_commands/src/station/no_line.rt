//! Why a station doesn't answer a line, and at which column of it.

ghost use Rattle.std.specs.Prelude.{◌≡◌, ◌+◌, [], cond, false, min, nat_eq, IfOk, if◌then◌else◌, ◌-◌, ◌^◌};
ghost use Rattle.station_commands.specs.NoLines.{KeepsOctet, begun_line, line_words};

use conversations::{Channel, Kind, LineRefused, MOST_OCTETS, Said, TimedLine, read_line};
use std::alloc::Global;
use std::io::{BufRead, Read};
use std::{fmt, io};

/// A reader that keeps the line that was read last.
#[derive(Drop)]
pub(crate) struct LastLine<R> {
    reader: R,
    line: Vec<u8>,
    is_ended: bool,
    ended: u64,
}

impl<R: BufRead + Drop> LastLine<R> {
    /// The reader, of which nothing was read.
    pub(crate) fn new(alloc: Global, reader: R) -> LastLine<R>
        ensures { (result.line.items ≡ []) × (result.is_ended ≡ false) × (result.ended ≡ 0) }
    {
        LastLine {
            reader,
            line: Vec::new(alloc),
            is_ended: false,
            ended: 0,
        }
    }

    /// The line that was read last, without its LF, as far as it was read and there was memory for it.
    pub(crate) fn line(&self) -> &[u8]
        ensures { result.now ≡ self.now.line.items }
    {
        self.line.as_slice()
    }

    /// The number of the line that was read last, from 1; 0 if no octet was read.
    pub(crate) fn number(&self) -> u64
        ensures { result ≡ (if self.now.is_ended then self.now.ended else min (self.now.ended + 1) (2 ^ 64 - 1)) }
    {
        if self.is_ended {
            self.ended
        } else {
            self.ended.saturating_add(1)
        }
    }

    /// Reads on to the end of the line that was begun. Returns whether the line has one. Errors: those of the reader.
    pub(crate) fn skip_line(&mut self) -> io::Result<bool>
        ensures { IfOk result (λ ends. ends ≡ self.new.is_ended) }
    {
        let mut octet = [0];
        for _octet in 0..u64::MAX {
            if self.is_ended || self.read(&mut octet)? == 0 {
                break;
            }
        }
        Ok(self.is_ended)
    }

    // Drops the line before, if it has ended.
    fn begin(&mut self)
        ensures line { self.new.line.items ≡ begun_line self.old.is_ended self.old.line.items }
        ensures begun { self.new.is_ended ≡ false }
        ensures rest { (self.new.ended ≡ self.old.ended) × (self.new.reader ≡ self.old.reader) }
    {
        if self.is_ended {
            self.line.clear();
            self.is_ended = false;
        }
    }

    fn keep(&mut self, octet: u8)
        ensures line { KeepsOctet (begun_line self.old.is_ended self.old.line.items) octet self.new.line.items }
        ensures ends { self.new.is_ended ≡ nat_eq octet 10 }
        ensures number { self.new.ended ≡ cond (nat_eq octet 10) (min (self.old.ended + 1) (2 ^ 64 - 1)) self.old.ended }
        ensures rest { self.new.reader ≡ self.old.reader }
    {
        self.begin();
        if octet == b'\n' {
            self.is_ended = true;
            self.ended = self.ended.saturating_add(1);
        } else if self.line.len() <= MOST_OCTETS {
            let _kept = self.line.push(octet);
        }
    }
}

impl<R: BufRead + Drop> Read for LastLine<R> {
    fn read(&mut self, octets: &mut [u8]) -> io::Result<usize> {
        let count = self.reader.read(octets)?;
        for octet in octets.get(..count).unwrap_or(&[]) {
            self.keep(*octet);
        }
        Ok(count)
    }
}

impl<R: BufRead + Drop> BufRead for LastLine<R> {
    // A line of which nothing could be taken was begun too.
    fn fill_buf(&mut self) -> io::Result<&[u8]> {
        self.begin();
        self.reader.fill_buf()
    }

    // What is taken at once has no LF.
    fn consume(&mut self, amount: usize) {
        let LastLine { reader, line, .. } = self;
        if let Ok(octets) = reader.fill_buf() {
            if line.len() <= MOST_OCTETS {
                let _kept = line.extend_from_slice(octets.get(..amount).unwrap_or(&[]));
            }
        }
        self.reader.consume(amount);
    }
}

/// What is wrong with a line, at a column that is counted from 1.
#[derive(Clone, Copy, Debug, PartialEq, Eq)]
pub(crate) struct NoLine {
    column: usize,
    wrong: Wrong,
}

/// What is wrong with a line.
#[derive(Clone, Copy, Debug, PartialEq, Eq)]
enum Wrong {
    /// It has more than 400,000 octets.
    TooLong,
    /// No line begins with its first word.
    Word,
    /// There is no time, or what stands there is none.
    Time,
    /// Something follows the time.
    More,
    /// There is no carrier of this name.
    Carrier,
    /// There is no kind of this name.
    Kind,
    /// There is no number of bits.
    Bits,
    /// The digits aren't those of as many octets as the bits need.
    Hex,
    /// What stands there is no content of a frame.
    Content,
    /// There is no file after the time.
    File,
    /// The page of this file isn't held, or the time can't follow.
    NotHeld,
    /// Its time is before that of the line before it, or too long after it.
    OutOfTime,
}

impl Wrong {
    fn words(self) -> &'static str
        ensures { result.now ≡ line_words self }
    {
        match self {
            Wrong::TooLong => "the line has more than 400000 octets",
            Wrong::Word => "no line of a station begins with this word",
            Wrong::Time => "a time is expected here, 1 to 15 digits",
            Wrong::More => "such a line ends after its time",
            Wrong::Carrier => "a carrier is expected here",
            Wrong::Kind => "hdlc or raw is expected here",
            Wrong::Bits => "the number of bits is expected here, 1 to 7 digits",
            Wrong::Hex => "two hexadecimal digits are expected for each octet of the bits",
            Wrong::Content => "a frame's content of 3 to 300 octets is expected here",
            Wrong::File => "a space and the name of a file are expected after the time",
            Wrong::NotHeld => "no page of this name is held, or the time can't follow",
            Wrong::OutOfTime => "the time is before that of the line before, or too long after it",
        }
    }
}

impl fmt::Display for NoLine {
    ghost use Rattle.std.specs.Prelude.{Some, ◌++◌, codes};
    ghost use Rattle.std.specs.Fmt.{decimal};
    ghost use Rattle.station_commands.specs.NoLines.{line_words};

    ghost output = { λ line. Some (codes "column " ++ (decimal line.column ++ (codes ": " ++ line_words line.wrong))) };

    fn fmt<W: fmt::Write>(&self, f: &mut fmt::Formatter<W>) -> fmt::Result {
        write!(f, "column {}: {}", self.column, self.wrong.words())
    }
}

/// The words of a line, one after the other, each with its column.
#[derive(Drop)]
struct Words<'a> {
    line: &'a [u8],
    at: usize,
}

impl<'a> Words<'a> {
    /// The next word, up to a space or the line's end.
    fn next_word(&self) -> &'a [u8] {
        let rest = self.line.get(self.at..).unwrap_or(&[]);
        for place in 0..rest.len() {
            if rest[place] == b' ' {
                return rest.get(..place).unwrap_or(rest);
            }
        }
        rest
    }

    /// Goes on after two words.
    fn skip_two(&mut self) {
        for _word in 0..2 {
            let word = self.next_word();
            self.skip(word);
        }
    }

    /// Goes to the first word that is no content of a frame.
    fn skip_contents(&mut self) {
        for _place in 0..self.line.len() {
            let word = self.next_word();
            if !is_content(word) {
                return;
            }
            self.skip(word);
        }
    }

    /// Goes on after a word and the space after it.
    fn skip(&mut self, word: &[u8]) {
        self.at = self.at.saturating_add(word.len()).saturating_add(1);
    }
}

/// Returns whether octets are decimal digits, 1 to `most` of them.
fn are_digits(octets: &[u8], most: usize) -> bool {
    let is_number = octets.iter().all(|octet| octet.is_ascii_digit());
    is_number && !octets.is_empty() && octets.len() <= most
}

/// Returns whether octets are hexadecimal digits, two for each of 3 to 300 octets.
fn is_content(octets: &[u8]) -> bool {
    let are_digits = octets.iter().all(|octet| octet.is_ascii_hexdigit());
    are_digits && octets.len() % 2 == 0 && octets.len() >= 6 && octets.len() <= 600
}

/// Returns why a line, without its LF, isn't answered: it is too long or isn't a line of a station, or else its time runs back.
pub(crate) fn no_line(alloc: Global, line: &[u8]) -> NoLine {
    if line.len() > MOST_OCTETS {
        return NoLine {
            column: MOST_OCTETS + 1,
            wrong: Wrong::TooLong,
        };
    }
    let mut words = Words { line, at: 0 };
    let wrong = match read_line(alloc, line) {
        Err(LineRefused::NoLine) => wrong_word(&mut words),
        Ok(
            TimedLine {
                said: Said::Told { .. },
                ..
            },
        ) => {
            words.skip_two();
            Wrong::NotHeld
        }
        _ => {
            let word = words.next_word();
            words.skip(word);
            Wrong::OutOfTime
        }
    };
    NoLine {
        column: words.at.saturating_add(1),
        wrong,
    }
}

/// What follows the time of a line.
#[derive(Clone, Copy)]
enum AfterTime {
    /// Nothing.
    Nothing,
    /// The name of a page's file.
    File,
    /// A carrier, and what came by it.
    Burst,
}

/// Returns what follows the time of a line that begins with this word, if one does.
fn after_time(word: &[u8]) -> Option<AfterTime> {
    match word {
        b"quiet" | b"busy" | b"not-ready" | b"ready" | b"missed" | b"stop" | b"end" => {
            Some(AfterTime::Nothing)
        }
        b"kept" | b"lost" => Some(AfterTime::File),
        b"rx" => Some(AfterTime::Burst),
        _ => None,
    }
}

/// Returns what is wrong with a line that says nothing, and goes to the word that is wrong.
fn wrong_word(words: &mut Words<'_>) -> Wrong {
    let word = words.next_word();
    let Some(after) = after_time(word) else {
        return Wrong::Word;
    };
    words.skip(word);
    let time = words.next_word();
    if !are_digits(time, 15) {
        return Wrong::Time;
    }
    match after {
        AfterTime::File => Wrong::File,
        AfterTime::Nothing => {
            words.skip(time);
            Wrong::More
        }
        AfterTime::Burst => {
            words.skip(time);
            wrong_burst(words)
        }
    }
}

/// Returns what is wrong with what came by a carrier, and goes to the word that is wrong.
fn wrong_burst(words: &mut Words<'_>) -> Wrong {
    let carrier = words.next_word();
    if Channel::named(carrier).is_none() {
        return Wrong::Carrier;
    }
    words.skip(carrier);
    let kind = words.next_word();
    if matches!(carrier, b"v21") && matches!(kind, b"frames") {
        words.skip(kind);
        words.skip_contents();
        return Wrong::Content;
    }
    if Kind::named(kind).is_none() {
        return Wrong::Kind;
    }
    words.skip(kind);
    let bits = words.next_word();
    if !are_digits(bits, 7) {
        return Wrong::Bits;
    }
    words.skip(bits);
    Wrong::Hex
}

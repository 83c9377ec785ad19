//! A fault in words, with what the program alone knows of it.

ghost use Rattle.faults.specs.Explanations.{name_text};
ghost use Rattle.std.specs.Prelude.{◌≡◌};

use command_files::context::Cause;
use faults::{Explained, is_shown, reason_words};
use std::fmt;

/// A fault in words, on one line: those that its number has, unless the program knows the cause.
#[derive(Clone, Copy, Drop)]
pub struct Told<'a> {
    /// The fault, and what its number says of it.
    pub words: Explained<'a>,
    /// What else is known of it.
    pub cause: Option<Cause>,
}

/// Returns a name as messages show it.
fn shown_name(name: &str) -> &str
    ensures { result.now ≡ name_text name.now }
{
    if is_shown(name) { name } else { "a file" }
}

impl fmt::Display for Told<'_> {
    ghost use Rattle.std.specs.Prelude.{Some};
    ghost use Rattle.command_files.specs.Told.{told};

    ghost output = { λ text. Some (told text.words text.cause) };

    fn fmt<W: fmt::Write>(&self, f: &mut fmt::Formatter<W>) -> fmt::Result {
        let words = self.words;
        let name = shown_name(words.known.file);
        let reason = reason_words(words.known.reason);
        match self.cause {
            None => write!(f, "{words}"),
            Some(Cause::Terminal) => write!(f, "{name} is a terminal"),
            Some(Cause::TooLong(most)) => write!(
                f,
                "{name}: it has more octets than are read of such a file, {most}"
            ),
            Some(Cause::Taken(file)) => write!(f, "{name}/{file}: {reason}"),
            Some(Cause::NotCallable { page, width }) => write!(
                f,
                "{name}: page {page} is {width} pixels wide, and a call carries 1728, 2048 or 2432"
            ),
            Some(Cause::FewerPages { count, from }) => write!(
                f,
                "{name}: it has pages up to {count}, and --from is {from}"
            ),
            Some(Cause::RowsOf(width)) => write!(
                f,
                "{words}; each row ends after {width} pixels: try --width {width}"
            ),
            Some(Cause::EmptyRuns) => write!(
                f,
                "{words}; runs of 0 pixels come before the row's EOL: decode --repair reads it"
            ),
            Some(Cause::NextPage(octet)) => write!(
                f,
                "{words}; without EOFB nothing marks a page's end: another page may begin at octet {octet}"
            ),
            Some(Cause::NoEofb) => write!(
                f,
                "{words}; the file doesn't end with EOFB: nothing marks a page's end then, and another page may begin before this bit"
            ),
            Some(Cause::FailedTrial(step)) => write!(f, "{name}: {}: {reason}", step.words()),
            Some(Cause::Listed) => write!(f, "{name}: the list of names is read from it"),
        }
    }
}

//! What is wrong with a line of a script.

ghost use Rattle.calls.specs.Scripts.{IsLineAt, IsLineFault, IsWord, has_space, has_tab, has_wrong_blank, is_badly_spaced};
ghost use Rattle.calls.specs.Scripts.{is_wrongly_spaced, word_in};
ghost use Rattle.std.specs.Bool.{MatchBool};
ghost use Rattle.std.specs.Prelude.{◌≡◌, ℕ, IfSome, List};

use crate::script::{event_named, split_line};
use faults::LineFault;

/// What is wrong with the line of this number, from 1, of a script that is refused there; None if the text has no such line. By the law
/// `one_line_fault` a line is wrong in one way alone.
pub fn line_fault_at(text: &[u8], number: u64) -> Option<LineFault>
    ensures { IfSome result (λ fault. (line : List ℕ) × IsLineAt text.now number line × IsLineFault line fault) }
{
    let mut rest = text;
    let mut at: u64 = 1;
    while let Some((line, after)) = split_line(rest) {
        if at == number {
            return Some(line_fault(line));
        }
        rest = after;
        at += 1;
    }
    if at == number {
        Some(line_fault(rest))
    } else {
        None
    }
}

/// What is wrong with a line that says no command.
fn line_fault(line: &[u8]) -> LineFault
    ensures { IsLineFault line.now result }
{
    let Ok(text) = str::from_utf8(line) else {
        return LineFault::NotUtf8;
    };
    if has_wrong_blank(text) {
        return LineFault::Blank;
    }
    if is_word(word_in(text)) {
        LineFault::Count
    } else {
        LineFault::Word
    }
}

/// True if a line has a tab or a CR, or a space that isn't alone between two words.
fn has_wrong_blank(line: &str) -> bool
    ensures { result ≡ has_wrong_blank line.now }
{
    has_tab(line) || is_wrongly_spaced(line)
}

/// True if a line has a tab or a CR.
fn has_tab(line: &str) -> bool
    ensures { result ≡ has_tab line.now }
{
    line.split_once('\t').is_some() || line.split_once('\r').is_some()
}

/// True if a line has a space that isn't alone between two words.
fn is_wrongly_spaced(line: &str) -> bool
    ensures { result ≡ is_wrongly_spaced line.now }
{
    match line.split_once(' ') {
        None => false,
        Some((before, after)) => is_badly_spaced(before, after),
    }
}

/// True if nothing is before or after the first space of a line, or there is another space after it.
fn is_badly_spaced(before: &str, after: &str) -> bool
    ensures { result ≡ is_badly_spaced before.now after.now }
{
    before.is_empty() || after.is_empty() || has_space(after)
}

/// True if a text has a space.
fn has_space(text: &str) -> bool
    ensures { result ≡ has_space text.now }
{
    text.split_once(' ').is_some()
}

/// The word that a line begins with.
fn word_in(line: &str) -> &str
    ensures { result.now ≡ word_in line.now }
{
    match line.split_once(' ') {
        Some((word, _after)) => word,
        None => line,
    }
}

/// True if a word is that of an event, or `polite`.
fn is_word(word: &str) -> bool
    ensures { MatchBool result (IsWord word.now) (¬ IsWord word.now) }
{
    word == "polite" || event_named(word).is_some()
}

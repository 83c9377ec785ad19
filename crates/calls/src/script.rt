//! What a script says: the events of a call, a line each.

ghost use Rattle.calls.specs.Calls.{IsBadScript};
ghost use Rattle.calls.specs.Scripts.{AddsLine, HasNoFeed, IsBadLine, IsCount, IsLineOf, IsNoLine, IsScript, RefusesLine};
ghost use Rattle.calls.specs.Scripts.{RefusesScript, Says, word_of};
ghost use Rattle.line_sim.specs.declared.event.Event.{Event as EventValue};
ghost use Rattle.faults.specs.declared.fault.ToolFault.TheVariants.{No};
ghost use Rattle.calls.specs.declared.script.Command.{Command as CommandValue};
ghost use Rattle.std.specs.Prelude.{◌≡◌, ◌++◌, ◌∷◌, ℕ, IsOk, List, MatchOption, MatchResult};

use faults::{NO_MEMORY, ToolFault};
use line_sim::Event;
use std::alloc::Global;

/// The greatest count of a line.
const MOST: u64 = 1_000_000;

/// The most digits of a count.
const MOST_DIGITS: usize = 7;

/// The command of a script's line.
#[derive(Clone, Copy, Debug, PartialEq, Eq)]
pub enum Command {
    /// An event, so many times.
    Events {
        /// The event itself.
        event: Event,
        /// How many times it happens, 1 to 1,000,000.
        count: u64,
    },
    /// Deliveries until nothing is under way, at most this number of them, 1 to 1,000,000.
    Polite(u64),
}

/// The event that a word names.
pub(crate) fn event_named(word: &str) -> Option<Event>
    ensures { MatchOption result ((event : EventValue) → word.now ≡ word_of event → ⊥) (λ event. word.now ≡ word_of event) }
{
    match word {
        word if word == "to-answerer" => Some(Event::DeliverToAnswerer),
        word if word == "to-caller" => Some(Event::DeliverToCaller),
        word if word == "lose-to-answerer" => Some(Event::LoseToAnswerer),
        word if word == "lose-to-caller" => Some(Event::LoseToCaller),
        word if word == "spoil" => Some(Event::Spoil),
        word if word == "caller-timeout" => Some(Event::CallerTimeout),
        word if word == "caller-t5" => Some(Event::CallerT5),
        word if word == "answerer-t1" => Some(Event::AnswererT1),
        word if word == "answerer-t2" => Some(Event::AnswererT2),
        word if word == "busy" => Some(Event::Busy(true)),
        word if word == "ready" => Some(Event::Busy(false)),
        _ => None,
    }
}

/// The count that digits write: digits alone, without a sign.
fn count_in(digits: &str) -> Option<u64>
    ensures { MatchOption result ((count : ℕ) → IsCount digits.now count → ⊥) (IsCount digits.now) }
{
    if digits.len() > MOST_DIGITS || digits.starts_with('+') {
        return None;
    }
    match digits.parse::<u64>() {
        Ok(count) if 1 <= count && count <= MOST => Some(count),
        _ => None,
    }
}

/// The command that a line says; without a space it has no count.
fn command_in(line: &str) -> Option<Command>
    ensures { MatchOption result ((command : CommandValue) → Says line.now command → ⊥) (Says line.now) }
{
    let Some((word, digits)) = line.split_once(' ') else {
        let event = event_named(line)?;
        return Some(Command::Events { event, count: 1 });
    };
    let Some(count) = count_in(digits) else {
        return None;
    };
    if word == "polite" {
        return Some(Command::Polite(count));
    }
    let event = event_named(word)?;
    Some(Command::Events { event, count })
}

/// What a line says: a command, or nothing if it is skipped. None if it isn't a line of a script.
fn read_line(line: &[u8]) -> Option<Option<Command>>
    ensures { MatchOption result (IsNoLine line.now) (IsLineOf line.now) }
{
    // A script is text: a comment that isn't UTF-8 is refused too, and a CR is no part of a line's end.
    let Ok(text) = str::from_utf8(line) else {
        return None;
    };
    if text.is_empty() || text.starts_with('#') {
        return Some(None);
    }
    let command = command_in(text)?;
    Some(Some(command))
}

/// What the line of this number says: a command, or nothing if it is skipped. Errs with `AtLine` (30) if it isn't a line of a script.
pub(crate) fn said_at(line: &[u8], number: u64) -> Result<Option<Command>, ToolFault>
    ensures { MatchResult result (IsLineOf line.now) (IsBadLine line.now number) }
{
    match read_line(line) {
        Some(said) => Ok(said),
        None => Err(ToolFault::AtLine(number)),
    }
}

/// Adds the command of the line of this number. Errs with fault 30 at that line, and with `NO_MEMORY`.
fn add_line(commands: &mut Vec<Command>, line: &[u8], number: u64) -> Result<(), ToolFault>
    ensures { MatchResult result (λ _. AddsLine line.now commands.old.items commands.new.items) (RefusesLine line.now number) }
{
    match said_at(line, number) {
        Err(fault) => Err(fault),
        Ok(None) => Ok(()),
        Ok(Some(command)) => match commands.push(command) {
            Ok(()) => Ok(()),
            Err(_) => Err(NO_MEMORY),
        },
    }
}

/// The line that a text begins with, without its LF, and what follows the LF; None for a text without an LF.
pub(crate) fn split_line(text: &[u8]) -> Option<(&[u8], &[u8])>
    ensures { MatchOption result (HasNoFeed text.now)
        (λ parts. HasNoFeed parts.0.now × (text.now ≡ parts.0.now ++ 10 ∷ parts.1.now)) }
{
    for place in 0..text.len() {
        if text[place] == b'\n' {
            return Some((&text[..place], &text[place + 1..]));
        }
    }
    None
}

/// The commands that the octets of a script say, in order. Each line ends with LF; the last one need not. Errs with `AtLine` (30) at the
/// first line that isn't one of a script, counted from 1, and with `NO_MEMORY` (9).
pub fn read_script(alloc: Global, text: &[u8]) -> Result<Vec<Command>, ToolFault>
    ensures says { MatchResult result (λ commands. IsScript text.now commands.items) (RefusesScript text.now) }
    ensures only { (script : List CommandValue) → IsScript text.now script
        → MatchResult result (λ commands. commands.items ≡ script) (λ fault. fault ≡ No 9) }
{
    let mut commands = Vec::new(alloc);
    let mut rest = text;
    let mut number: u64 = 1;
    while let Some((line, after)) = split_line(rest) {
        add_line(&mut commands, line, number)?;
        rest = after;
        number += 1;
    }
    add_line(&mut commands, rest, number)?;
    Ok(commands)
}

/// Checks that octets are a script, line by line, and keeps nothing. Errs with `AtLine` (30) at the first line that isn't one of a script,
/// counted from 1, as `read_script` does. Takes no memory.
pub fn check_script(text: &[u8]) -> Result<(), ToolFault>
    ensures says { MatchResult result (λ _. (script : List CommandValue) × IsScript text.now script) (IsBadScript text.now) }
    ensures only { (script : List CommandValue) → IsScript text.now script → IsOk result }
{
    let mut rest = text;
    let mut at: u64 = 1;
    while let Some((line, after)) = split_line(rest) {
        let _said = said_at(line, at)?;
        rest = after;
        at += 1;
    }
    let _said = said_at(rest, at)?;
    Ok(())
}

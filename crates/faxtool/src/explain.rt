//! How a fault is shown: a line, and one of words where they are asked for.

ghost use Rattle.faxtool.specs.declared.args.words.Outcome.TheVariants.{Fault};
ghost use Rattle.raster.specs.Pixels.{IsWidth};
ghost use Rattle.std.specs.Prelude.{◌≡◌, IfSome};

use crate::args::parser::entry_named;
use crate::args::words::Outcome;
use clap::Error;
use command_files::Runs;
use command_files::context::Context;
use command_files::error_line::{ErrorLine, write_line};
use command_files::notices::is_explained;
use command_files::streams::Streams;
use commands::names::shown_text;
use commands::words::{Told, explained};
use faults::{Explained, FAILED, Known, ToolFault, is_shown, write_fault};
use page_files::PageForm;
use std::alloc::{AllocError, Global};
use std::env::{self, Env, FillError};
use std::io;
use std::io::{IsTerminal, Write};

/// Shows why words aren't run, and returns that: what is wrong with them, the help that they ask for, or refused memory.
pub fn show_refusal(streams: &Streams<'_>, words: &[&str], refusal: Outcome) -> Outcome
    ensures { result ≡ refusal }
{
    match &refusal {
        Outcome::Fault(fault) => show_no_file(streams, *fault, "the command's words", None),
        Outcome::Words(error) => show_words(streams, words, error),
        Outcome::Done | Outcome::Incomplete => {}
    }
    refusal
}

/// Shows what is wrong with a wrong command line, or the help that was asked for. A command line with a control character in it isn't
/// shown, as it could move the cursor.
fn show_words(streams: &Streams<'_>, texts: &[&str], error: &Error) {
    if !texts.iter().all(|text| is_shown(text)) {
        let words =
            "error: the words are not a command, and one of them has a control character\n\nFor more information, try 'faxtool --help'.";
        return write_line(streams, &words);
    }
    match with_help_named(streams.rt().alloc(), texts, error) {
        Ok(text) => {
            let _shown = streams.tell(text.as_bytes());
        }
        Err(_memory) => {
            let mut line = ErrorLine::new(streams);
            let made = write!(line, "{error}");
            line.end(made);
        }
    }
}

/// The text of such an error; where it ends in the help to try, that is the help of the words' command.
fn with_help_named(alloc: Global, texts: &[&str], error: &Error) -> Result<String, AllocError> {
    let text = format!(in alloc; "{error}")?;
    let Some(front) = text.as_str().strip_suffix("try '--help'.\n") else {
        return Ok(text);
    };
    match texts.get(1) {
        Some(name) if entry_named(name).is_some() => {
            format!(in alloc; "{front}try 'faxtool {name} --help'.\n")
        }
        _ => format!(in alloc; "{front}try 'faxtool --help'.\n"),
    }
}

/// Shows a fault before any file was named, and returns it as what the program ends with.
pub fn refused(
    streams: &Streams<'_>,
    fault: ToolFault,
    file: &str,
    reason: Option<io::ErrorKind>,
) -> Outcome
    ensures { result ≡ Fault fault }
{
    show_no_file(streams, fault, file, reason);
    Outcome::Fault(fault)
}

/// Shows a fault before any file was named: its line, and on a terminal its words.
fn show_no_file(
    streams: &Streams<'_>,
    fault: ToolFault,
    file: &str,
    reason: Option<io::ErrorKind>,
) {
    let rt = streams.rt();
    write_line(streams, &fault);
    if !is_explained(rt) && !is_asked(rt) {
        return;
    }
    let known = Known {
        file,
        reason,
        begins: &[],
        row: None,
        expected: None,
        read_as: None,
        line: None,
    };
    let words = Explained { fault, known };
    write_line(streams, &words);
}

/// The fault of a word that isn't UTF-8: its line, and on a terminal which word that is, and what to do if it names a file.
pub fn refuse_no_text(streams: &Streams<'_>) -> Outcome {
    let rt = streams.rt();
    write_line(streams, &FAILED);
    if is_explained(rt) || is_asked(rt) {
        let advice = "isn't UTF-8: for a file of that name write - and give the file by < NAME";
        let mut line = ErrorLine::new(streams);
        let made = match no_text(rt) {
            Some(number) => writeln!(line, "word {number} of the command {advice}"),
            None => writeln!(line, "a word of the command {advice}"),
        };
        line.end(made);
    }
    Outcome::Fault(FAILED)
}

/// Returns the number of the first word after the program's name that isn't UTF-8, if it is not longer than a file's name can be.
fn no_text(rt: &HostRuntime) -> Option<usize> {
    let mut word = [0u8; 4096];
    for number in 1..usize::MAX {
        match rt.arg(number, &mut word) {
            Ok(size) => {
                if str::from_utf8(word.get(..size).unwrap_or(&[])).is_err() {
                    return Some(number);
                }
            }
            Err(FillError::TooLong) => {}
            Err(FillError::NotPresent) => return None,
        }
    }
    None
}

/// Returns whether one of the command's words is `--explain`, also where another one isn't UTF-8.
fn is_asked(rt: &HostRuntime) -> bool {
    let mut word = [0u8; 16];
    for number in 1..usize::MAX {
        match rt.arg(number, &mut word) {
            Ok(size) => {
                if word.get(..size) == Some(b"--explain") {
                    return true;
                }
            }
            Err(FillError::TooLong) => {}
            Err(FillError::NotPresent) => return false,
        }
    }
    false
}

/// Shows the fault of a command: a line, and if asked for one of words; or its record.
pub fn show_fault<C: Runs>(command: &C, fault: ToolFault, context: &Context<'_>)
    requires { IfSome (C.width command.now) IsWidth }
{
    let rt = context.rt();
    let name = command.names().shown(context.part_of(fault));
    match shown_text(rt.alloc(), name) {
        Ok(text) => show_named(command.page(), text.as_str(), fault, context),
        // if memory is refused, the words have no name
        Err(_memory) => show_named(command.page(), "a file", fault, context),
    }
}

/// Shows the fault of a command that reads pages of this form, with the name of its file.
fn show_named(form: Option<PageForm>, file: &str, fault: ToolFault, context: &Context<'_>)
    requires { IfSome form (λ form. IsWidth form.width) }
{
    let streams = context.streams();
    let words = explained(form, file, fault, context);
    if context.is_json() && show_record(streams, &words).is_ok() {
        return;
    }
    write_line(streams, &fault);
    if context.explains() {
        let mut line = ErrorLine::new(streams);
        let made = writeln!(line, "{words}");
        line.end(made);
    }
}

/// Shows the record of a fault on standard error.
fn show_record(streams: &Streams<'_>, told: &Told<'_>) -> Result<(), ToolFault> {
    let alloc = streams.rt().alloc();
    let text = format!(in alloc; "{told}")?;
    let mut line = ErrorLine::new(streams);
    write_fault(alloc, told.words.fault, text.as_str(), &mut line)?;
    line.flush()?;
    Ok(())
}

//! A tool on fax pages and frames: it codes images, shows and decodes coded pages, lists the frames in bits and
//! runs calls. Here the words are read, their command is run, and the program ends with its status.
#![tactic(auto)]

mod apart;
mod args;
mod command;
mod dispatch;
mod explain;
mod standard;

use args::words::{Outcome, read_words, status, status_told};
use command_files::streams::Streams;
use commands::names::{is_untold, untold_name};
use dispatch::run_request;
use explain::{refuse_no_text, refused, show_refusal};
use faults::{NO_MEMORY, ToolFault};
use standard::hold_closed;
use std::alloc::AllocError;
use std::env::{Env, FillError};
use std::process::ExitCode;
use std::{env, io};

fn main(rt: HostRuntime) -> ExitCode {
    let _held = hold_closed(&rt);
    let streams = Streams::new(&rt);
    let outcome = run_words(&streams);
    ExitCode::from(status_told(status(&outcome), streams.is_cut()))
}

/// The words of the command that `--version` or `-V` alone asks for.
const VERSION_WORDS: &[&str] = &["faxtool", "version"];

/// Whether the words, after the program's name, are `--version` or `-V` alone.
fn asks_version(words: &[&str]) -> bool {
    words.len() == 2 && (words[1] == "--version" || words[1] == "-V")
}

/// Runs what the program's words ask for, and shows what is wrong with them.
fn run_words(streams: &Streams<'_>) -> Outcome {
    let rt = streams.rt();
    let words = match given_words(rt) {
        Ok(words) => words,
        // an argument that isn't UTF-8 can't name a file, but others may be named beside it
        Err(error) if error.kind() == io::ErrorKind::InvalidData => return run_untold(streams),
        Err(error) => return refuse_words(streams, error),
    };
    let mut texts = Vec::new(rt.alloc());
    for word in &words {
        if texts.push(word.as_str()).is_err() {
            return refused(streams, NO_MEMORY, "the command's words", None);
        }
    }
    if asks_version(texts.as_slice()) {
        return run_asked(streams, VERSION_WORDS);
    }
    run_asked(streams, texts.as_slice())
}

/// Shows why the words can't be read.
fn refuse_words(streams: &Streams<'_>, error: io::Error) -> Outcome {
    let reason = Some(error.kind());
    refused(
        streams,
        ToolFault::from(error),
        "a word of the command",
        reason,
    )
}

/// Runs what these words ask for, and shows what is wrong with them.
fn run_asked(streams: &Streams<'_>, asked: &[&str]) -> Outcome {
    match read_words(streams.rt().alloc(), asked) {
        Ok(request) => run_request(streams, &request),
        Err(refusal) => show_refusal(streams, asked, refusal),
    }
}

/// Runs what the words ask for, of which one or more isn't UTF-8, if each of these is one of several files; otherwise refuses them.
fn run_untold(streams: &Streams<'_>) -> Outcome {
    let rt = streams.rt();
    let words = match untold_words(rt) {
        Ok(words) => words,
        Err(error) if error.kind() == io::ErrorKind::InvalidData => return refuse_no_text(streams),
        Err(error) => return refuse_words(streams, error),
    };
    let mut texts = Vec::new(rt.alloc());
    for word in &words {
        if texts.push(word.as_str()).is_err() {
            return refused(streams, NO_MEMORY, "the command's words", None);
        }
    }
    let untold = count_untold(words.as_slice());
    match read_words(rt.alloc(), texts.as_slice()) {
        Ok(request) => {
            if count_untold(request.command.several_files()) != untold {
                return refuse_no_text(streams);
            }
            run_request(streams, &request)
        }
        Err(_refusal) => refuse_no_text(streams),
    }
}

/// Returns how many of these names stand for ones that aren't UTF-8.
fn count_untold(names: &[String]) -> usize {
    names.iter().filter(|name| is_untold(name.as_str())).count()
}

/// Returns the words that the program is called with. Errors: one of them isn't UTF-8, or memory was refused.
fn given_words(rt: &HostRuntime) -> io::Result<Vec<String>> {
    let words = env::args(rt)?.collect(rt.alloc())?;
    Ok(words)
}

/// The most octets of a word that Linux has, with the 0 at its end.
const MOST_OCTETS: usize = 131_072;

/// Returns the words that the program is called with, and for one that isn't UTF-8 what stands for such a name. Errors: a word is too long, or
/// memory was refused.
fn untold_words(rt: &HostRuntime) -> io::Result<Vec<String>> {
    let mut word = vec![in rt.alloc(); 0u8; MOST_OCTETS]?;
    let mut words = Vec::new(rt.alloc());
    for number in 0..usize::MAX {
        match rt.arg(number, word.as_mut_slice()) {
            Ok(size) => words.push(told_word(rt, word.get(..size).unwrap_or(&[]))?)?,
            Err(FillError::TooLong) => return Err(io::Error::from(io::ErrorKind::InvalidData)),
            Err(FillError::NotPresent) => break,
        }
    }
    Ok(words)
}

/// Returns a word as text, or what stands for it as a name. Errors: memory was refused.
fn told_word(rt: &HostRuntime, octets: &[u8]) -> Result<String, AllocError> {
    if let Ok(text) = str::from_utf8(octets) {
        return String::from_str(rt.alloc(), text);
    }
    let name = untold_name(rt.alloc(), octets)?;
    // all its octets are ASCII
    String::from_str(rt.alloc(), str::from_utf8(name.as_slice()).unwrap_or("\0"))
}

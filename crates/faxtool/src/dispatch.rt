//! What is done for a command: its files are looked at, it runs, and its fault is shown.

ghost use Rattle.faxtool.specs.Jobs.{HasWidth};
ghost use Rattle.faxtool.specs.Ran.{Gave, Ran};
ghost use Rattle.raster.specs.Pixels.{IsWidth};
ghost use Rattle.std.specs.Prelude.{IfSome};

use crate::apart::{refuse_not_apart, why_not_apart};
use crate::args::words::{Outcome, Request};
use crate::command::Command;
use crate::explain::{refused, show_fault};
use command_files::context::{Context, Messages};
use command_files::streams::Streams;
use command_files::{Completeness, Runs};
use faults::NO_MEMORY;

/// What a command is run with: the system, and how its messages are shown.
#[derive(Clone, Copy)]
struct Asked<'a> {
    streams: &'a Streams<'a>,
    messages: Messages,
}

/// Runs the command of a request, and shows its fault: a line, and on a terminal or if asked for a second line in words.
pub fn run_request(streams: &Streams<'_>, request: &Request) -> Outcome
    requires { HasWidth request.now.command }
    ensures { Ran request.now.command result }
{
    let messages = Messages {
        json: request.json,
        explain: request.explain,
    };
    let asked = Asked { streams, messages };
    run_one(&request.command, asked)
}

/// Runs the command that is asked for.
fn run_one(command: &Command, asked: Asked<'_>) -> Outcome
    requires { HasWidth command.now }
    ensures { Ran command.now result }
{
    // each command has an arm here, and nothing else decides what runs
    match command {
        Command::Code(command) => run_command(command, asked),
        Command::Show(command) => run_command(command, asked),
        Command::Decode(command) => run_command(command, asked),
        Command::Each(command) => run_command(command, asked),
        Command::Frames(command) => run_command(command, asked),
        Command::Captures(command) => run_command(command, asked),
        Command::Identify(command) => run_command(command, asked),
        Command::Several(command) => run_command(command, asked),
        Command::Call(command) => run_command(command, asked),
        Command::Drive(command) => run_command(command, asked),
        Command::Judge(command) => run_command(command, asked),
        Command::Answer(command) => run_command(command, asked),
        Command::Dial(command) => run_command(command, asked),
        Command::Version(command) => run_command(command, asked),
    }
}

/// Runs a command if its files are apart, and shows its fault.
fn run_command<C: Runs>(command: &C, asked: Asked<'_>) -> Outcome
    requires { IfSome (C.width command.now) IsWidth }
    ensures { Gave (C.its_files command.now) (C.gives command.now) result }
{
    // two files that are one are found before anything is read or written
    let why = match why_not_apart(asked.streams.rt(), command) {
        Ok(why) => why,
        Err(_memory) => return refused(asked.streams, NO_MEMORY, "the command's words", None),
    };
    if let Some(why) = why {
        return refuse_not_apart(asked.streams, asked.messages, why);
    }
    let mut context = Context::new(asked.streams, asked.messages);
    match command.run(&mut context) {
        Ok(Completeness::Whole) => Outcome::Done,
        Ok(Completeness::Lacking) => Outcome::Incomplete,
        Err(fault) => {
            show_fault(command, fault, &context);
            Outcome::Fault(fault)
        }
    }
}

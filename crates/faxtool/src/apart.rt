//! A command whose files aren't apart is refused before anything runs.

ghost use Rattle.faxtool.specs.Apart.{AreNamedApart, SaysNotApart};
ghost use Rattle.faxtool.specs.declared.args.words.Outcome.TheVariants.{Incomplete};
ghost use Rattle.std.specs.Prelude.{◌≡◌, IfOk, MatchOption};

use crate::args::words::Outcome;
use command_files::Runs;
use command_files::context::Messages;
use command_files::files::apart::{CommandFiles, NotApart};
use command_files::notices::notice_as;
use command_files::streams::Streams;
use faults::ToolFault;
use std::alloc::AllocError;

/// Returns why the files of a command aren't apart; None if they are. Errors: memory was refused.
pub fn why_not_apart<C: Runs>(rt: &HostRuntime, command: &C) -> Result<Option<NotApart>, AllocError>
    ensures { IfOk result (λ why. MatchOption why (AreNamedApart (C.its_files command.now)) (SaysNotApart (C.its_files command.now))) }
{
    let mut files = CommandFiles::new(rt);
    command.add_files(&mut files)?;
    Ok(files.not_apart())
}

/// Says on standard error why a command whose files aren't apart doesn't run, and returns what the program ends with then.
pub fn refuse_not_apart(streams: &Streams<'_>, messages: Messages, why: NotApart) -> Outcome
    ensures { result ≡ Incomplete }
{
    let _told = tell_not_apart(streams, messages, why);
    Outcome::Incomplete
}

/// Writes why the files of a command aren't apart, as a line or a record. Errors: `Io` (8) if it can't be written, `NoMemory` (9).
fn tell_not_apart(
    streams: &Streams<'_>,
    messages: Messages,
    why: NotApart,
) -> Result<(), ToolFault> {
    let words = format!(in streams.rt().alloc(); "{why}: nothing is read or written")?;
    notice_as(streams, messages.json, words.as_str())
}

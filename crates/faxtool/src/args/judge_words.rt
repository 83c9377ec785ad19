//! The words of the command `judge`.
ghost use Rattle.std.specs.Prelude.{IfOk, MatchResult, Some, codes};
ghost use Rattle.clap.specs.Words.{found_of, rows_of};
ghost use Rattle.faxtool.specs.Jobs.{HasNoCommand, IsCommandOf};

use crate::args::unfit::Unfit;
use crate::args::words::{is_named, text_in};
use crate::command::Command;
use clap::ArgMatches;
use commands::frames::list_form;
use commands::judge::JudgeCommand;
use std::alloc::{AllocError, Global};

/// Returns the command that judges a log, if its file is given.
pub(crate) fn judge_command(
    alloc: Global,
    matches: &ArgMatches<'_>,
) -> Result<Result<Command, Unfit>, AllocError>
    ensures { let met = Some (codes "judge", rows_of (found_of matches.now)) in
        IfOk result (λ command. MatchResult command (IsCommandOf met) (λ unfit. HasNoCommand met)) }
{
    let Some(input) = text_in(matches, "log") else {
        return Ok(Err(Unfit::Missing));
    };
    Ok(Ok(Command::Judge(JudgeCommand {
        form: list_form(
            is_named(text_in(matches, "json"), "true"),
            is_named(text_in(matches, "explain"), "true"),
        ),
        strict: is_named(text_in(matches, "strict"), "true"),
        input: String::from_str(alloc, input)?,
    })))
}

//! The words of the command `frames` where it draws two captures.
ghost use Rattle.std.specs.Prelude.{◌≡◌, IfOk, MatchResult, Some, codes, true};
ghost use Rattle.clap.specs.Words.{found_of, rows_of};
ghost use Rattle.faxtool.specs.Jobs.{HasNoCommand, IsCommandOf, has_captures, has_listing};

use crate::args::unfit::Unfit;
use crate::args::words::{are_both_standard, is_named, line_order_in, text_in};
use crate::command::Command;
use clap::ArgMatches;
use commands::frames::two_captures::CapturesCommand;
use std::alloc::{AllocError, Global};

/// Returns whether an option for drawing two captures was given.
pub(crate) fn has_captures(matches: &ArgMatches<'_>) -> bool
    ensures { result ≡ has_captures (rows_of (found_of matches.now)) }
{
    text_in(matches, "diagram").is_some()
        || text_in(matches, "caller").is_some()
        || text_in(matches, "answerer").is_some()
}

// Whether an option for listing one capture was given.
fn has_listing(matches: &ArgMatches<'_>) -> bool
    ensures { result ≡ has_listing (rows_of (found_of matches.now)) }
{
    text_in(matches, "file").is_some()
        || text_in(matches, "data").is_some()
        || text_in(matches, "pages").is_some()
        || is_named(text_in(matches, "salvage"), "true")
}

/// Returns the command that draws two captures, if all its values are given and its options go together.
pub(crate) fn captures_command(
    alloc: Global,
    matches: &ArgMatches<'_>,
) -> Result<Result<Command, Unfit>, AllocError>
    requires { has_captures (rows_of (found_of matches.now)) ≡ true }
    ensures { let met = Some (codes "frames", rows_of (found_of matches.now)) in
        IfOk result (λ command. MatchResult command (IsCommandOf met) (λ unfit. HasNoCommand met)) }
{
    if has_listing(matches) {
        return Ok(Err(Unfit::PictureAndListing));
    }
    let Some(diagram) = text_in(matches, "diagram") else {
        return Ok(Err(Unfit::NoPicture));
    };
    let Some(caller) = text_in(matches, "caller") else {
        return Ok(Err(Unfit::NoCaptures));
    };
    let Some(answerer) = text_in(matches, "answerer") else {
        return Ok(Err(Unfit::NoCaptures));
    };
    if are_both_standard(caller, answerer) {
        return Ok(Err(Unfit::CapturesBothStandard));
    }
    Ok(Ok(Command::Captures(CapturesCommand {
        order: line_order_in(matches),
        records: is_named(text_in(matches, "json"), "true"),
        diagram: String::from_str(alloc, diagram)?,
        caller: String::from_str(alloc, caller)?,
        answerer: String::from_str(alloc, answerer)?,
    })))
}

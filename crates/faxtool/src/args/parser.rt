//! The command that the table of commands gives `clap`.
ghost use Rattle.clap.specs.Words.{app_of, rule_of};
ghost use Rattle.clap.specs.declared.builder.command.Command.TheViews.{out-Command as fields_of};
ghost use Rattle.faxtool.specs.Jobs.{IsFaxtool, empty_app};
ghost use Rattle.faxtool.specs.Table.{app_in, rule_in, with_commands};
ghost use Rattle.std.specs.Prelude.{◌≡◌, IfOk, None, false};

use crate::args::fault_table::FAULTS;
use crate::args::table::{Argument, Entry, call_commands, commands, later_commands};
use clap::builder::ValueParser;
use clap::{Arg, Command};
use std::alloc::{AllocError, Global};

/// The argument with its parser, if it has one.
fn with_parser<'a>(arg: Arg<'a>, parser: Option<ValueParser<'a>>) -> Arg<'a>
    requires { arg.value_parser ≡ None }
    ensures { result ≡ record arg.entry { value_parser = parser.entry } }
{
    match parser {
        Some(parser) => arg.value_parser(parser),
        None => arg,
    }
}

fn arg_of<'a>(alloc: Global, argument: &Argument<'a>) -> Arg<'a>
    ensures rule { rule_of result ≡ rule_in argument.now }
    ensures local { result.global ≡ false }
{
    let arg = Arg::new(alloc, argument.id)
        .value_names(argument.shown)
        .action(argument.action)
        .required(argument.required)
        .default_values(argument.defaults)
        .help(argument.help);
    let arg = with_parser(arg, argument.parser);
    if argument.is_option {
        arg.long(argument.id)
    } else {
        arg
    }
}

fn command_of<'a>(alloc: Global, entry: &Entry<'a>) -> Result<Command<'a>, AllocError>
    ensures app { IfOk result (λ command. app_of command ≡ app_in entry.now) }
    ensures local { IfOk result (λ command. (fields_of command).has_globals ≡ false) }
{
    let mut command = Command::new(alloc, entry.name).about(entry.about);
    for argument in entry.arguments {
        command = command.arg(arg_of(alloc, argument))?;
    }
    Ok(command)
}

fn empty_command<'a>(alloc: Global) -> Command<'a>
    ensures { app_of result ≡ empty_app }
{
    Command::new(alloc, "faxtool")
        .about("Codes images as fax pages, shows and decodes pages, lists frames and runs calls")
        .after_help(FAULTS)
        .subcommand_required(true)
        .arg_required_else_help(true)
}

/// A command with more commands.
fn with_entries<'a>(
    alloc: Global,
    begun: Command<'a>,
    entries: &[Entry<'a>],
) -> Result<Command<'a>, AllocError>
    ensures { IfOk result (λ made. app_of made ≡ with_commands (app_of begun.entry) entries.now) }
{
    let mut command = begun;
    for entry in entries {
        command = command.subcommand(command_of(alloc, entry)?)?;
    }
    Ok(command)
}

/// The program with its commands.
pub(crate) fn faxtool_command<'a>(alloc: Global) -> Result<Command<'a>, AllocError>
    ensures { IfOk result (λ command. IsFaxtool (app_of command)) }
{
    let pages = with_entries(alloc, empty_command(alloc), commands())?;
    let first = with_entries(alloc, pages, call_commands())?;
    with_entries(alloc, first, later_commands())
}

/// The command of this name, as the table of commands has it, if there is one.
pub(crate) fn entry_named(name: &str) -> Option<&'static Entry<'static>> {
    for entries in [commands(), call_commands(), later_commands()] {
        if let Some(entry) = entry_in(entries, name) {
            return Some(entry);
        }
    }
    None
}

/// The command of this name among these, if it is there.
fn entry_in(entries: &'static [Entry<'static>], name: &str) -> Option<&'static Entry<'static>> {
    for entry in entries {
        if entry.name == name {
            return Some(entry);
        }
    }
    None
}

/// A command of the program by itself, with its usage in the program.
pub(crate) fn command_alone(
    alloc: Global,
    entry: &Entry<'static>,
) -> Result<Command<'static>, AllocError> {
    let in_program = format!(in alloc; "faxtool {}", entry.name)?;
    command_of(alloc, entry)?.bin_name(in_program.as_str())
}

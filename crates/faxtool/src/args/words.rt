//! The words that the program is called with.
ghost use Rattle.std.specs.Prelude.{◌≡◌, IfOk, IfSome, MatchOption, MatchResult, Some, codes, false, true};
ghost use Rattle.faxtool.specs.declared.args.unfit.Unfit.TheVariants.{NoRate, NoScript, ScriptAndLine, ScriptAndLose};
ghost use Rattle.std.specs.Prelude.{ℕ, Option, if◌then◌else◌, is_some, map, option_map, string_bytes};
ghost use Rattle.clap.specs.Words.{first_of, found_of, kind_of, rows_of, subcommand_rows_of};
ghost use Rattle.clap.specs.declared.error.kind.ErrorKind.TheVariants.{OutOfMemory};
ghost use Rattle.faxtool.specs.Jobs.{AreDecodeOptionsIn, AreOptionsIn, HasNoCommand, HasNoOptions, IsCommandOf, IsOutcomeOf, IsRefusalOf};
ghost use Rattle.faxtool.specs.Jobs.{IsWidthIn, ReadsAs};
ghost use Rattle.faxtool.specs.Jobs.{ReadsNumber, are_both_standard, asks, coding_named, is_named, modems_named, page_of};
ghost use Rattle.faxtool.specs.Jobs.{IsLineIn, IsRateIn, IsSpoilIn, IsBusyIn, IsTimesIn, calls_of, has_line, is_normal_wanted};
ghost use Rattle.faxtool.specs.Jobs.{line_order_named, order_named, status_of};
ghost use Rattle.faxtool.specs.Ran.{status_told};
ghost use Rattle.calls.specs.declared.losses.BadLine.{BadLine as LineValue};

use crate::args::captures_words::{captures_command, has_captures};
use crate::args::each_words::{
    each_command, form_in, has_half_form, has_more, is_for_many, likely_in, several_command,
};
use crate::args::judge_words::judge_command;
use crate::args::parser::{command_alone, entry_named, faxtool_command};
use crate::args::station_words::station_command;
use crate::args::unfit::Unfit;
use crate::command::Command;
use calls::{BadLine, CallOptions, read_rate};
use clap::error::ErrorKind;
use clap::{ArgMatches, Error};
use commands::call::ScriptCommand;
use commands::call::drives::DriveCommand;
use commands::code::CodeCommand;
use commands::decode::DecodeCommand;
use commands::frames::{FramesCommand, list_form};
use commands::identify::IdentifyCommand;
use commands::show::ShowCommand;
use commands::version::VersionCommand;
use faults::{NO_MEMORY, ToolFault};
use page_code::Coding;
use page_files::DecodeOptions;
use run_tables::Order;
use signals::Modems;
use std::alloc::{AllocError, Global};

/// How many words the generator of a bad line has.
const ALL_WORDS: u64 = 4_294_967_296;

/// What the program is asked to do, and how it is to show a fault.
#[derive(Debug, PartialEq, Eq, Drop)]
pub struct Request {
    /// The command.
    pub command: Command,
    /// Whether a fault is explained in words too.
    pub explain: bool,
    /// Whether messages are records for programs.
    pub json: bool,
}

/// How the program ends.
#[derive(Debug, Drop)]
pub enum Outcome {
    /// The command is done.
    Done,
    /// The command is done as far as possible and what is missing was named; or a call was run and didn't end as expected.
    Incomplete,
    /// The command failed.
    Fault(ToolFault),
    /// The words are not a command, or ask for help: the error has the text.
    Words(Error),
}

/// Returns the program's exit status: 0 if the command is done, 1 for a fault or if something is missing, 2 if the command line is wrong, and
/// for `--help`.
pub fn status(outcome: &Outcome) -> u8
    ensures { result ≡ status_of outcome.now }
{
    match outcome {
        Outcome::Done => 0,
        Outcome::Incomplete | Outcome::Fault(_) => 1,
        Outcome::Words(_) => 2,
    }
}

/// Returns the program's exit status: at least 1 if something was to be told on standard error and there was no room for it.
pub fn status_told(status: u8, is_cut: bool) -> u8
    ensures { result ≡ status_told status is_cut }
{
    if is_cut { status.max(1) } else { status }
}

impl From<AllocError> for Outcome {
    ghost use Rattle.std.specs.Prelude.{◌≡◌};
    ghost use Rattle.faults.specs.declared.fault.ToolFault.TheVariants.{No};
    ghost use Rattle.faxtool.specs.declared.args.words.Outcome.TheVariants.{Fault};

    ghost from_gives = { λ _ outcome. outcome ≡ Fault (No 9) };

    fn from(_error: AllocError) -> Outcome {
        Outcome::Fault(NO_MEMORY)
    }
}

impl From<Error> for Outcome {
    ghost use Rattle.faxtool.specs.Jobs.{IsOutcomeOf};

    ghost from_gives = { IsOutcomeOf };

    fn from(error: Error) -> Outcome {
        match error.kind() {
            ErrorKind::OutOfMemory => Outcome::Fault(NO_MEMORY),
            _ => Outcome::Words(error),
        }
    }
}

/// Reads the words of the command line, of which the first is the program's name. An `Err` is `NoMemory` (9), or the text for the user:
/// what is wrong with the words, or the help that they ask for.
pub fn read_words(alloc: Global, words: &[&str]) -> Result<Request, Outcome>
    ensures { let texts = map (λ word. word.now) words.now in
        MatchResult result (ReadsAs texts) (IsRefusalOf texts) }
{
    let mut command = faxtool_command(alloc)?;
    let matches = match command.try_get_matches_from_mut(words) {
        Ok(matches) => matches,
        Err(error) => return Err(Outcome::from(error)),
    };
    match command_in(alloc, &matches)? {
        Ok(command) => {
            let explain = asks(&matches, "explain");
            let json = asks(&matches, "json");
            Ok(Request {
                command,
                explain,
                json,
            })
        }
        Err(why) => {
            let name = matches.subcommand_name();
            Err(Outcome::from(unfit(alloc, name, why.words())?))
        }
    }
}

// Whether the words of a command have an option without a value.
fn asks(matches: &ArgMatches<'_>, id: &str) -> bool
    ensures { result ≡ asks id.now (subcommand_rows_of matches.now) }
{
    match matches.subcommand() {
        Some((_name, inner)) => is_named(text_in(inner, id), "true"),
        None => false,
    }
}

// The command, if all its values are given and its options go together.
fn command_in(alloc: Global, matches: &ArgMatches<'_>) -> Result<Result<Command, Unfit>, AllocError>
    ensures { let met = subcommand_rows_of matches.now in
        IfOk result (λ command. MatchResult command (IsCommandOf met) (λ unfit. HasNoCommand met)) }
{
    if let Some(inner) = matches.subcommand_matches("code") {
        return code_command(alloc, inner);
    }
    if let Some(inner) = matches.subcommand_matches("show") {
        return show_command(alloc, inner);
    }
    if let Some(inner) = matches.subcommand_matches("decode") {
        return decode_command(alloc, inner);
    }
    if let Some(inner) = matches.subcommand_matches("frames") {
        return frames_command(alloc, inner);
    }
    if let Some(inner) = matches.subcommand_matches("call") {
        return call_command(alloc, inner);
    }
    if let Some(inner) = matches.subcommand_matches("identify") {
        return identify_command(alloc, inner);
    }
    if let Some(inner) = matches.subcommand_matches("judge") {
        return judge_command(alloc, inner);
    }
    if let Some(inner) = matches.subcommand_matches("station") {
        return station_command(alloc, inner);
    }
    if let Some(inner) = matches.subcommand_matches("version") {
        return Ok(Ok(version_command(inner)));
    }
    Ok(Err(Unfit::Missing))
}

fn version_command(matches: &ArgMatches<'_>) -> Command
    ensures { IsCommandOf (Some (codes "version", rows_of (found_of matches.now))) result }
{
    Command::Version(VersionCommand {
        proof: is_named(text_in(matches, "proof"), "true"),
    })
}

fn code_command(
    alloc: Global,
    matches: &ArgMatches<'_>,
) -> Result<Result<Command, Unfit>, AllocError>
    ensures { let met = Some (codes "code", rows_of (found_of matches.now)) in
        IfOk result (λ command. MatchResult command (IsCommandOf met) (λ unfit. HasNoCommand met)) }
{
    let Some(coding) = coding_in(matches) else {
        return Ok(Err(Unfit::Missing));
    };
    let Some(input) = text_in(matches, "in") else {
        return Ok(Err(Unfit::Missing));
    };
    let Some(output) = text_in(matches, "out") else {
        return Ok(Err(Unfit::Missing));
    };
    Ok(Ok(Command::Code(CodeCommand {
        coding,
        order: order_in(matches),
        input: String::from_str(alloc, input)?,
        output: String::from_str(alloc, output)?,
    })))
}

fn show_command(
    alloc: Global,
    matches: &ArgMatches<'_>,
) -> Result<Result<Command, Unfit>, AllocError>
    ensures { let met = Some (codes "show", rows_of (found_of matches.now)) in
        IfOk result (λ command. MatchResult command (IsCommandOf met) (λ unfit. HasNoCommand met)) }
{
    let Some(coding) = coding_in(matches) else {
        return Ok(Err(Unfit::Missing));
    };
    let Some(width) = width_in(matches) else {
        return Ok(Err(Unfit::Missing));
    };
    let Some(input) = text_in(matches, "file") else {
        return Ok(Err(Unfit::Missing));
    };
    Ok(Ok(Command::Show(ShowCommand {
        coding,
        order: order_in(matches),
        width,
        input: String::from_str(alloc, input)?,
    })))
}

fn decode_command(
    alloc: Global,
    matches: &ArgMatches<'_>,
) -> Result<Result<Command, Unfit>, AllocError>
    ensures { let met = Some (codes "decode", rows_of (found_of matches.now)) in
        IfOk result (λ command. MatchResult command (IsCommandOf met) (λ unfit. HasNoCommand met)) }
{
    if text_in(matches, "each").is_some() {
        return each_command(alloc, matches);
    }
    if is_for_many(matches) {
        return Ok(Err(Unfit::OneAndMany));
    }
    if has_half_form(matches) {
        return Ok(Err(Unfit::HalfForm));
    }
    let Some(input) = text_in(matches, "file") else {
        return Ok(Err(Unfit::NoFile));
    };
    let Some(output) = text_in(matches, "out") else {
        return Ok(Err(Unfit::NoOut));
    };
    if has_more(matches, "out") {
        return Ok(Err(Unfit::ManyOuts));
    }
    let options = decode_options(matches);
    if options.salvage && options.repair {
        return Ok(Err(Unfit::RepairAndSalvage));
    }
    Ok(Ok(Command::Decode(DecodeCommand {
        form: form_in(matches),
        likely: likely_in(matches),
        fine: is_named(text_in(matches, "fine"), "true"),
        options,
        page: page_of(number_in(matches, "page")),
        input: String::from_str(alloc, input)?,
        output: String::from_str(alloc, output)?,
    })))
}

// The number of the page that is decoded, or sent first.
pub(crate) fn page_of(given: Option<u32>) -> u32
    ensures { result ≡ page_of given }
{
    given.unwrap_or(1)
}

// What is wanted of a page that is decoded.
pub(crate) fn decode_options(matches: &ArgMatches<'_>) -> DecodeOptions
    ensures { AreDecodeOptionsIn (rows_of (found_of matches.now)) result }
{
    DecodeOptions {
        salvage: is_named(text_in(matches, "salvage"), "true"),
        repair: is_named(text_in(matches, "repair"), "true"),
        whole: is_named(text_in(matches, "whole"), "true"),
        verbose: is_named(text_in(matches, "verbose"), "true"),
        records: is_named(text_in(matches, "json"), "true"),
    }
}

fn frames_command(
    alloc: Global,
    matches: &ArgMatches<'_>,
) -> Result<Result<Command, Unfit>, AllocError>
    ensures { let met = Some (codes "frames", rows_of (found_of matches.now)) in
        IfOk result (λ command. MatchResult command (IsCommandOf met) (λ unfit. HasNoCommand met)) }
{
    if has_captures(matches) {
        return captures_command(alloc, matches);
    }
    let Some(input) = text_in(matches, "file") else {
        return Ok(Err(Unfit::NoCapture));
    };
    let salvage = is_named(text_in(matches, "salvage"), "true");
    if salvage && text_in(matches, "pages").is_none() {
        return Ok(Err(Unfit::NoPages));
    }
    Ok(Ok(Command::Frames(FramesCommand {
        most: number_in(matches, "data"),
        order: line_order_in(matches),
        form: list_form(
            is_named(text_in(matches, "json"), "true"),
            is_named(text_in(matches, "explain"), "true"),
        ),
        pages: copy_of(alloc, text_in(matches, "pages"))?,
        salvage,
        input: String::from_str(alloc, input)?,
    })))
}

fn identify_command(
    alloc: Global,
    matches: &ArgMatches<'_>,
) -> Result<Result<Command, Unfit>, AllocError>
    ensures { let met = Some (codes "identify", rows_of (found_of matches.now)) in
        IfOk result (λ command. MatchResult command (IsCommandOf met) (λ unfit. HasNoCommand met)) }
{
    if is_named(text_in(matches, "json"), "true") || has_more(matches, "file") {
        return Ok(Ok(several_command(alloc, matches)?));
    }
    let Some(input) = text_in(matches, "file") else {
        return Ok(Err(Unfit::Missing));
    };
    Ok(Ok(Command::Identify(IdentifyCommand {
        input: String::from_str(alloc, input)?,
    })))
}

fn call_command(
    alloc: Global,
    matches: &ArgMatches<'_>,
) -> Result<Result<Command, Unfit>, AllocError>
    ensures { let met = Some (codes "call", rows_of (found_of matches.now)) in
        IfOk result (λ command. MatchResult command (IsCommandOf met) (λ unfit. HasNoCommand met)) }
{
    let Some(options) = options_in(matches) else {
        return Ok(Err(Unfit::Missing));
    };
    let Some(input) = text_in(matches, "in") else {
        return Ok(Err(Unfit::Missing));
    };
    let Some(script) = text_in(matches, "script") else {
        let line = match line_in(matches) {
            Ok(line) => line,
            Err(why) => return Ok(Err(why)),
        };
        let times = match times_in(matches) {
            Ok(times) => times,
            Err(why) => return Ok(Err(why)),
        };
        return Ok(Ok(Command::Drive(DriveCommand {
            line,
            times,
            options,
            out: copy_of(alloc, text_in(matches, "out"))?,
            bits: copy_of(alloc, text_in(matches, "bits"))?,
            normal: is_normal_wanted(matches),
            diagram: copy_of(alloc, text_in(matches, "diagram"))?,
            input: String::from_str(alloc, input)?,
        })));
    };
    if has_line(matches) {
        return Ok(Err(script_and_line(matches)));
    }
    if are_both_standard(script, input) {
        return Ok(Err(Unfit::ScriptAndInStandard));
    }
    Ok(Ok(Command::Call(ScriptCommand {
        script: String::from_str(alloc, script)?,
        options,
        out: copy_of(alloc, text_in(matches, "out"))?,
        bits: copy_of(alloc, text_in(matches, "bits"))?,
        normal: is_normal_wanted(matches),
        diagram: copy_of(alloc, text_in(matches, "diagram"))?,
        input: String::from_str(alloc, input)?,
    })))
}

// Whether a call is to end normally for both stations.
fn is_normal_wanted(matches: &ArgMatches<'_>) -> bool
    ensures { result ≡ is_normal_wanted (rows_of (found_of matches.now)) }
{
    is_named(text_in(matches, "expect"), "normal")
}

// Whether any option that needs `--lose` was given.
fn has_line(matches: &ArgMatches<'_>) -> bool
    ensures { result ≡ has_line (rows_of (found_of matches.now)) }
{
    text_in(matches, "lose").is_some()
        || text_in(matches, "spoil").is_some()
        || text_in(matches, "busy").is_some()
        || text_in(matches, "seed").is_some()
        || text_in(matches, "calls").is_some()
        || text_in(matches, "times").is_some()
}

// Why a script and options of a bad line don't go together.
fn script_and_line(matches: &ArgMatches<'_>) -> Unfit
    ensures { result ≡ (if is_some (first_of (codes "lose") (rows_of (found_of matches.now))) then ScriptAndLose else ScriptAndLine) }
{
    match text_in(matches, "lose") {
        Some(_rate) => Unfit::ScriptAndLose,
        None => Unfit::ScriptAndLine,
    }
}

// Why there is no rate of lost items.
fn no_rate(matches: &ArgMatches<'_>) -> Unfit
    ensures { result ≡ (if is_some (first_of (codes "lose") (rows_of (found_of matches.now))) then NoRate else NoScript) }
{
    match text_in(matches, "lose") {
        Some(_rate) => Unfit::NoRate,
        None => Unfit::NoScript,
    }
}

// The bad line, if its rates and its seed are given and valid.
fn line_in(matches: &ArgMatches<'_>) -> Result<BadLine, Unfit>
    ensures { let rows = rows_of (found_of matches.now) in
        MatchResult result (IsLineIn rows) (λ unfit. (line : LineValue) → IsLineIn rows line → ⊥) }
{
    let Some(lose) = rate_in(matches, "lose") else {
        return Err(no_rate(matches));
    };
    let Some(spoil) = spoil_in(matches) else {
        return Err(Unfit::NoRate);
    };
    let Some(busy) = busy_in(matches) else {
        return Err(Unfit::NoRate);
    };
    let Some(seed) = number_in(matches, "seed") else {
        return Err(Unfit::NoSeed);
    };
    if lose > ALL_WORDS || spoil > ALL_WORDS - lose {
        return Err(Unfit::RatesAboveAll);
    }
    Ok(BadLine {
        lose,
        spoil,
        busy,
        seed: u64::from(seed),
        calls: calls_of(number_in(matches, "calls")),
    })
}

// The value of `--times`; it excludes `--out`, `--bits`, `--expect`, `--diagram` and `--json`.
fn times_in(matches: &ArgMatches<'_>) -> Result<Option<u32>, Unfit>
    ensures { let rows = rows_of (found_of matches.now) in
        MatchResult result (IsTimesIn rows) (λ unfit. (times : Option ℕ) → IsTimesIn rows times → ⊥) }
{
    // many calls keep no pages; the table is no record and says how many calls ended how
    if text_in(matches, "times").is_none() {
        return Ok(None);
    }
    if text_in(matches, "out").is_some() {
        return Err(Unfit::TimesAndOut);
    }
    if text_in(matches, "bits").is_some() {
        return Err(Unfit::TimesAndBits);
    }
    if text_in(matches, "expect").is_some() {
        return Err(Unfit::TimesAndExpect);
    }
    if text_in(matches, "diagram").is_some() {
        return Err(Unfit::TimesAndDiagram);
    }
    if is_named(text_in(matches, "json"), "true") {
        return Err(Unfit::TimesAndJson);
    }
    match number_in(matches, "times") {
        Some(times) if 1 <= times => Ok(Some(times)),
        _ => Err(Unfit::Missing),
    }
}

// How many DIS are sent in one wait.
fn calls_of(given: Option<u32>) -> u64
    ensures { result ≡ calls_of given }
{
    match given {
        Some(calls) => u64::from(calls),
        None => 3,
    }
}

// The rate that is an option's value.
fn rate_in(matches: &ArgMatches<'_>, id: &str) -> Option<u64>
    ensures is { IfSome result (IsRateIn id.now (rows_of (found_of matches.now))) }
    ensures only { (share : ℕ) → IsRateIn id.now (rows_of (found_of matches.now)) share → result ≡ Some share }
{
    match text_in(matches, id) {
        Some(text) => read_rate(text),
        None => None,
    }
}

// The rate of spoiled items, 0 if none is given.
fn spoil_in(matches: &ArgMatches<'_>) -> Option<u64>
    ensures is { IfSome result (IsSpoilIn (rows_of (found_of matches.now))) }
    ensures only { (share : ℕ) → IsSpoilIn (rows_of (found_of matches.now)) share → result ≡ Some share }
{
    match text_in(matches, "spoil") {
        Some(text) => read_rate(text),
        None => Some(0),
    }
}

// The rate at which the answerer is busy, 0 if none is given.
fn busy_in(matches: &ArgMatches<'_>) -> Option<u64>
    ensures is { IfSome result (IsBusyIn (rows_of (found_of matches.now))) }
    ensures only { (share : ℕ) → IsBusyIn (rows_of (found_of matches.now)) share → result ≡ Some share }
{
    match text_in(matches, "busy") {
        Some(text) => read_rate(text),
        None => Some(0),
    }
}

// Whether a script and an image are both standard input.
pub(crate) fn are_both_standard(script: &str, input: &str) -> bool
    ensures { result ≡ are_both_standard script.now input.now }
{
    script == "-" && input == "-"
}

// The options of a call, if the code of its pages is given.
pub(crate) fn options_in(matches: &ArgMatches<'_>) -> Option<CallOptions>
    ensures { let rows = rows_of (found_of matches.now) in
        MatchOption result (HasNoOptions rows) (AreOptionsIn rows) }
{
    let Some(coding) = coding_in(matches) else {
        return None;
    };
    Some(CallOptions {
        coding,
        small: is_named(text_in(matches, "frame"), "64"),
        modems: modems_named(text_in(matches, "modems")),
        fine: is_named(text_in(matches, "fine"), "true"),
    })
}

// Whether the value is the name.
pub(crate) fn is_named(value: Option<&str>, name: &str) -> bool
    ensures { result ≡ is_named name.now (option_map (λ value. value.now) value.entry) }
{
    match value {
        Some(value) => value == name,
        None => false,
    }
}

pub(crate) fn modems_named(name: Option<&str>) -> Modems
    ensures { result ≡ modems_named (option_map (λ name. name.now) name.entry) }
{
    match name {
        Some(name) if name == "v27v29" => Modems::V27V29,
        Some(name) if name == "v29" => Modems::V29,
        Some(name) if name == "v27" => Modems::V27,
        Some(name) if name == "fallback" => Modems::Fallback,
        _ => Modems::V17,
    }
}

// A copy of the text, if there is one.
pub(crate) fn copy_of(alloc: Global, text: Option<&str>) -> Result<Option<String>, AllocError>
    ensures { IfOk result (λ copy. option_map string_bytes copy ≡ option_map (λ text. text.now) text.entry) }
{
    match text {
        Some(text) => Ok(Some(String::from_str(alloc, text)?)),
        None => Ok(None),
    }
}

pub(crate) fn coding_in(matches: &ArgMatches<'_>) -> Option<Coding>
    ensures { result ≡ coding_named (first_of (codes "code") (rows_of (found_of matches.now))) }
{
    coding_named(text_in(matches, "code"))
}

fn coding_named(name: Option<&str>) -> Option<Coding>
    ensures { result ≡ coding_named (option_map (λ name. name.now) name.entry) }
{
    match name {
        Some(name) if name == "mh" || name == "t4" => Some(Coding::OneDim),
        Some(name) if name == "mmr" || name == "t6" => Some(Coding::T6),
        _ => None,
    }
}

pub(crate) fn order_in(matches: &ArgMatches<'_>) -> Order
    ensures { result ≡ order_named (first_of (codes "order") (rows_of (found_of matches.now))) }
{
    order_named(text_in(matches, "order"))
}

// The bit order on a line: `lsb`, unless `msb` is given.
pub(crate) fn line_order_in(matches: &ArgMatches<'_>) -> Order
    ensures { result ≡ line_order_named (first_of (codes "order") (rows_of (found_of matches.now))) }
{
    line_order_named(text_in(matches, "order"))
}

fn line_order_named(name: Option<&str>) -> Order
    ensures { result ≡ line_order_named (option_map (λ name. name.now) name.entry) }
{
    match name {
        Some(name) if name == "msb" => Order::MsbFirst,
        _ => Order::LsbFirst,
    }
}

fn order_named(name: Option<&str>) -> Order
    ensures { result ≡ order_named (option_map (λ name. name.now) name.entry) }
{
    match name {
        Some(name) if name == "lsb" => Order::LsbFirst,
        _ => Order::MsbFirst,
    }
}

// The first value of an argument.
pub(crate) fn text_in<'a>(matches: &ArgMatches<'a>, id: &str) -> Option<&'a str>
    ensures { option_map (λ text. text.now) result
        ≡ first_of id.now (rows_of (found_of matches.now)) }
{
    matches.get_str(id)
}

pub(crate) fn width_in(matches: &ArgMatches<'_>) -> Option<u32>
    ensures { let rows = rows_of (found_of matches.now) in
        MatchOption result ((width : ℕ) → IsWidthIn rows width → ⊥) (IsWidthIn rows) }
{
    match number_in(matches, "width") {
        Some(width) if 1 <= width && width <= 2432 => Some(width),
        _ => None,
    }
}

// The number that is an option's value.
pub(crate) fn number_in(matches: &ArgMatches<'_>, id: &str) -> Option<u32>
    ensures { ReadsNumber id.now (rows_of (found_of matches.now)) result }
{
    matches.get_one::<u32>(id)
}

// The error for words whose options or files don't go together, or that miss a value, with the usage of the command of this name.
fn unfit(alloc: Global, name: Option<&str>, text: &str) -> Result<Error, AllocError>
    ensures { IfOk result (λ error. kind_of error ≡ ErrorKind.ArgumentConflict) }
{
    let mut command = named_command(alloc, name)?;
    command.error(ErrorKind::ArgumentConflict, text)
}

// The command of this name; the program if it has none.
fn named_command(alloc: Global, name: Option<&str>) -> Result<clap::Command<'static>, AllocError> {
    let entry = match name {
        Some(name) => entry_named(name),
        None => None,
    };
    match entry {
        Some(entry) => command_alone(alloc, entry),
        None => faxtool_command(alloc),
    }
}

//! The words of the command `station`.
ghost use Rattle.faxtool.specs.Jobs.{AreMillis, IsLateNamed};
ghost use Rattle.station_commands.specs.declared.station.given.GivenWaits.{GivenWaits as GivenWaitsValue};
ghost use Rattle.std.specs.Prelude.{◌≡◌, ℕ, IfOk, MatchOption, MatchResult, Option, Some, codes, false, option_map, true};
ghost use Rattle.std.specs.Str.{bytes_eq};
ghost use Rattle.clap.specs.Words.{first_of, found_of, rows_of};
ghost use Rattle.faxtool.specs.Jobs.{AreWaitsIn, HasNoCommand, IsCommandOf, caps_in, has_answerer, has_caller, limit_of, is_named, takes_t6};
ghost use Rattle.faxtool.specs.Jobs.{AreLimitsIn, has_refusing, has_stops, is_octal, mode_named, mode_of, refuses_and_not};
ghost use Rattle.faxtool.specs.Jobs.{has_storing, holds_and_limits, refuses_in, rights_named, seconds_of, widest_named};

use crate::args::unfit::Unfit;
use crate::args::words::{
    coding_in, copy_of, is_named, modems_named, number_in, options_in, page_of, text_in,
};
use crate::command::Command;
use clap::ArgMatches;
use command_files::files::output::Rights;
use page_code::Coding;
use signals::{Caps, PageWidth};
use station_commands::station::given::{GivenLimits, GivenWaits};
use station_commands::station::{AnswerCommand, DialCommand};
use std::alloc::{AllocError, Global};

/// Returns the command of one station, if all its values are given and its options go together.
pub(crate) fn station_command(
    alloc: Global,
    matches: &ArgMatches<'_>,
) -> Result<Result<Command, Unfit>, AllocError>
    ensures { let met = Some (codes "station", rows_of (found_of matches.now)) in
        IfOk result (λ command. MatchResult command (IsCommandOf met) (λ unfit. HasNoCommand met)) }
{
    let answers = is_named(text_in(matches, "answer"), "true");
    let calls = is_named(text_in(matches, "call"), "true");
    if answers && !calls {
        return answer_command(alloc, matches);
    }
    if calls && !answers {
        return dial_command(alloc, matches);
    }
    Ok(Err(if answers {
        Unfit::BothStations
    } else {
        Unfit::NoStation
    }))
}

// The command of an answerer.
fn answer_command(
    alloc: Global,
    matches: &ArgMatches<'_>,
) -> Result<Result<Command, Unfit>, AllocError>
    requires answers { is_named (codes "true") (first_of (codes "answer") (rows_of (found_of matches.now))) ≡ true }
    requires calls { is_named (codes "true") (first_of (codes "call") (rows_of (found_of matches.now))) ≡ false }
    ensures { let met = Some (codes "station", rows_of (found_of matches.now)) in
        IfOk result (λ command. MatchResult command (IsCommandOf met) (λ unfit. HasNoCommand met)) }
{
    if has_caller(matches) {
        return Ok(Err(Unfit::AnswererAsCaller));
    }
    let Some(coding) = coding_in(matches) else {
        return Ok(Err(Unfit::Missing));
    };
    let Some(out) = text_in(matches, "out") else {
        return Ok(Err(Unfit::NoFolder));
    };
    let Some(rights) = rights_named(text_in(matches, "mode")) else {
        return Ok(Err(Unfit::NoMode));
    };
    if refuses_and_not(matches) {
        return Ok(Err(Unfit::RefuseAndNot));
    }
    if holds_and_limits(matches) {
        return Ok(Err(Unfit::HoldAndLimit));
    }
    let Some(waits) = waits_in(matches) else {
        return Ok(Err(Unfit::NoLate));
    };
    Ok(Ok(Command::Answer(AnswerCommand {
        caps: caps_in(matches, coding),
        limit: limit_of(number_in(matches, "limit")),
        holds: is_named(text_in(matches, "hold"), "true"),
        limits: limits_in(matches),
        refuses: refuses_in(matches),
        waits,
        out: String::from_str(alloc, out)?,
        rights,
        trace: copy_of(alloc, text_in(matches, "trace"))?,
        frames: is_named(text_in(matches, "trace-frames"), "true"),
    })))
}

// The command of a caller.
fn dial_command(
    alloc: Global,
    matches: &ArgMatches<'_>,
) -> Result<Result<Command, Unfit>, AllocError>
    requires calls { is_named (codes "true") (first_of (codes "call") (rows_of (found_of matches.now))) ≡ true }
    requires answers { is_named (codes "true") (first_of (codes "answer") (rows_of (found_of matches.now))) ≡ false }
    ensures { let met = Some (codes "station", rows_of (found_of matches.now)) in
        IfOk result (λ command. MatchResult command (IsCommandOf met) (λ unfit. HasNoCommand met)) }
{
    if has_answerer(matches) {
        return Ok(Err(Unfit::CallerAsAnswerer));
    }
    let Some(options) = options_in(matches) else {
        return Ok(Err(Unfit::Missing));
    };
    let Some(input) = text_in(matches, "in") else {
        return Ok(Err(Unfit::NoDocument));
    };
    if is_standard(input) {
        return Ok(Err(Unfit::DocumentStandard));
    }
    let Some(waits) = waits_in(matches) else {
        return Ok(Err(Unfit::NoLate));
    };
    Ok(Ok(Command::Dial(DialCommand {
        options,
        from: page_of(number_in(matches, "from")),
        waits,
        trace: copy_of(alloc, text_in(matches, "trace"))?,
        frames: is_named(text_in(matches, "trace-frames"), "true"),
        input: String::from_str(alloc, input)?,
    })))
}

// Whether a file is standard input.
fn is_standard(input: &str) -> bool
    ensures { result ≡ bytes_eq input.now (codes "-") }
{
    input == "-"
}

// Whether an option for an answerer only was given.
fn has_answerer(matches: &ArgMatches<'_>) -> bool
    ensures { result ≡ has_answerer (rows_of (found_of matches.now)) }
{
    text_in(matches, "out").is_some()
        || is_named(text_in(matches, "standard"), "true")
        || text_in(matches, "widest").is_some()
        || text_in(matches, "limit").is_some()
        || has_storing(matches)
        || has_stops(matches)
}

// Whether it was said how pages are stored.
fn has_storing(matches: &ArgMatches<'_>) -> bool
    ensures { result ≡ has_storing (rows_of (found_of matches.now)) }
{
    text_in(matches, "mode").is_some() || is_named(text_in(matches, "hold"), "true")
}

// Whether it was said when the call is stopped: a limit, or what a DCS that isn't allowed does.
fn has_stops(matches: &ArgMatches<'_>) -> bool
    ensures { result ≡ has_stops (rows_of (found_of matches.now)) }
{
    text_in(matches, "most-pages").is_some()
        || text_in(matches, "most-octets").is_some()
        || has_refusing(matches)
}

// Whether it was said if a call is stopped at the second DCS that isn't allowed.
fn has_refusing(matches: &ArgMatches<'_>) -> bool
    ensures { result ≡ has_refusing (rows_of (found_of matches.now)) }
{
    is_named(text_in(matches, "refuse"), "true") || is_named(text_in(matches, "no-refuse"), "true")
}

// Whether it was said so and otherwise.
fn refuses_and_not(matches: &ArgMatches<'_>) -> bool
    ensures { result ≡ refuses_and_not (rows_of (found_of matches.now)) }
{
    is_named(text_in(matches, "refuse"), "true") && is_named(text_in(matches, "no-refuse"), "true")
}

// Whether pages are handed over, which are one at a time, and it was said how many wait.
fn holds_and_limits(matches: &ArgMatches<'_>) -> bool
    ensures { result ≡ holds_and_limits (rows_of (found_of matches.now)) }
{
    is_named(text_in(matches, "hold"), "true") && text_in(matches, "limit").is_some()
}

// Whether a call is stopped at the second DCS that isn't allowed: unless that is said otherwise.
fn refuses_in(matches: &ArgMatches<'_>) -> bool
    ensures { result ≡ refuses_in (rows_of (found_of matches.now)) }
{
    !is_named(text_in(matches, "no-refuse"), "true")
}

// Whether an option for a caller only was given.
fn has_caller(matches: &ArgMatches<'_>) -> bool
    ensures { result ≡ has_caller (rows_of (found_of matches.now)) }
{
    text_in(matches, "frame").is_some()
        || is_named(text_in(matches, "fine"), "true")
        || text_in(matches, "from").is_some()
        || text_in(matches, "in").is_some()
}

// Who may read and write the files of pages: their owner alone, if no mode is given.
fn rights_named(text: Option<&str>) -> Option<Rights>
    ensures { result ≡ rights_named (option_map (λ text. text.now) text.entry) }
{
    match text {
        Some(text) => Some(Rights::Mode(mode_named(text)?)),
        None => Some(Rights::Private),
    }
}

// The mode that three octal digits say, perhaps after a 0.
fn mode_named(text: &str) -> Option<u32>
    ensures { result ≡ mode_named text.now }
{
    match text.as_bytes() {
        [user, group, others] => mode_of(*user, *group, *others),
        [b'0', user, group, others] => mode_of(*user, *group, *others),
        _ => None,
    }
}

// The mode of three octal digits.
fn mode_of(user: u8, group: u8, others: u8) -> Option<u32>
    ensures { result ≡ mode_of user group others }
{
    if !is_octal(user) || !is_octal(group) || !is_octal(others) {
        return None;
    }
    let digits = [user - b'0', group - b'0', others - b'0'];
    Some(64 * u32::from(digits[0]) + 8 * u32::from(digits[1]) + u32::from(digits[2]))
}

fn is_octal(octet: u8) -> bool
    ensures { result ≡ is_octal octet }
{
    octet >= b'0' && octet <= b'7'
}

// How many pages wait in memory at most.
fn limit_of(given: Option<u32>) -> u32
    ensures { result ≡ limit_of given }
{
    match given {
        Some(limit) => limit,
        None => 2,
    }
}

// What the call may have.
fn limits_in(matches: &ArgMatches<'_>) -> GivenLimits
    ensures { AreLimitsIn (rows_of (found_of matches.now)) result }
{
    GivenLimits {
        pages: number_in(matches, "most-pages"),
        octets: number_in(matches, "most-octets"),
    }
}

// The seconds of a call at most, if that isn't said: four hours.
const FOUR_HOURS: u32 = 14_400;

// The seconds of a call at most, by the number that is given; 0 is none.
fn seconds_of(given: Option<u32>) -> Option<u32>
    ensures { result ≡ seconds_of given }
{
    match given {
        None => Some(FOUR_HOURS),
        Some(0) => None,
        Some(seconds) => Some(seconds),
    }
}

// How many milliseconds late an answer may come, if `--late` isn't given.
const LATE: u32 = 2000;

// The milliseconds that one to seven decimal digits are, 1 to 3,600,000.
fn millis_in(digits: &str) -> Option<u32>
    ensures { MatchOption result ((millis : ℕ) → AreMillis digits.now millis → ⊥) (AreMillis digits.now) }
{
    if digits.len() > 7 || digits.starts_with('+') {
        return None;
    }
    match digits.parse::<u32>() {
        Ok(millis) if 1 <= millis && millis <= 3_600_000 => Some(millis),
        _ => None,
    }
}

// How many milliseconds late an answer may come, or any number.
fn late_named(text: Option<&str>) -> Option<Option<u32>>
    ensures { let given = option_map (λ text. text.now) text.entry in
        MatchOption result ((late : Option ℕ) → IsLateNamed given late → ⊥) (IsLateNamed given) }
{
    let Some(text) = text else {
        return Some(Some(LATE));
    };
    if text == "off" {
        return Some(None);
    }
    match millis_in(text) {
        Some(millis) => Some(Some(millis)),
        None => None,
    }
}

// How long the waits and the call last, and how late an answer may come.
fn waits_in(matches: &ArgMatches<'_>) -> Option<GivenWaits>
    ensures { let rows = rows_of (found_of matches.now) in
        MatchOption result ((waits : GivenWaitsValue) → AreWaitsIn rows waits → ⊥) (AreWaitsIn rows) }
{
    let Some(late) = late_named(text_in(matches, "late")) else {
        return None;
    };
    Some(GivenWaits {
        t1: number_in(matches, "t1"),
        t2: number_in(matches, "t2"),
        t4: number_in(matches, "t4"),
        t5: number_in(matches, "t5"),
        hears: is_named(text_in(matches, "hear"), "true"),
        frames: is_named(text_in(matches, "frames"), "true"),
        late,
        seconds: seconds_of(number_in(matches, "most-seconds")),
    })
}

// What an answerer can do.
fn caps_in(matches: &ArgMatches<'_>, coding: Coding) -> Caps
    ensures { result ≡ caps_in (rows_of (found_of matches.now)) coding }
{
    Caps {
        receiver: true,
        modems: modems_named(text_in(matches, "modems")),
        fine: !is_named(text_in(matches, "standard"), "true"),
        widest: widest_named(text_in(matches, "widest")),
        t6: takes_t6(coding),
        ecm: true,
    }
}

fn takes_t6(coding: Coding) -> bool
    ensures { result ≡ takes_t6 coding }
{
    match coding {
        Coding::OneDim => false,
        Coding::T6 => true,
    }
}

fn widest_named(name: Option<&str>) -> PageWidth
    ensures { result ≡ widest_named (option_map (λ name. name.now) name.entry) }
{
    match name {
        Some(name) if name == "1728" => PageWidth::W1728,
        Some(name) if name == "2048" => PageWidth::W2048,
        _ => PageWidth::W2432,
    }
}

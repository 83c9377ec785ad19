//! How the call of a station ended, and how that is shown.

ghost use Rattle.faults.specs.Faults.{IsOutside};
ghost use Rattle.captures.specs.OtherWords.{other_name};
ghost use Rattle.station_commands.specs.CallNotes.{end_why, has_left, is_given_up, left_why, lost_why, missing_why};
ghost use Rattle.station_commands.specs.CallNotes.{reason_words, refusal_words, stopped_why, why_words};
ghost use Rattle.station_commands.specs.EndRecords.{asking_name, is_beside_dcs, is_beside_dis, left_out, left_out_words, named, unanswered_words};
ghost use Rattle.station_commands.specs.Stations.{IsHalt, ended_of};
ghost use Rattle.std.specs.Prelude.{◌≡◌, IfErr, IfSome, Some, option_map, string_bytes};

use crate::station::end_records::{Ended, pages_word, write_ended, write_figures};
use crate::station::folder::StoppedBy;
use crate::station::no_line::NoLine;
use crate::station::records::{State, write_state};
use crate::station::{self, Halted, Talked};
use captures::other_name;
use command_files::command::Completeness;
use command_files::context::Context;
use command_files::error_line::ErrorLine;
use command_files::streams::Streams;
use conversations::Refusal;
use faults::{ToolFault, write_line_fault};
use signals::Reason;
use stations::{CallEnd, End};
use std::alloc::Global;
use std::io::Write;

/// Shows what came of the lines of a station: how its call ended, or why the lines went no further. It is complete if the call is whole and
/// lacks its last DCN at most. Errors: the fault of a file, or of memory.
pub(crate) fn end_station(
    context: &Context<'_>,
    talked: &Talked,
    calls: bool,
) -> Result<Completeness, ToolFault>
    requires { IfSome talked.now.halted IsHalt }
    ensures ended { result
        ≡ ended_of talked.now.halted talked.now.end talked.now.stopped talked.now.whole }
    ensures fault { IfErr result IsOutside }
{
    record_state(context, talked, calls);
    match talked.halted {
        Some(Halted::Fault(fault)) => return Err(fault),
        Some(Halted::Line(number, reason)) => {
            show_line_fault(context, number, reason);
            return Ok(Completeness::Lacking);
        }
        None => {}
    }
    show_end(context, talked, calls);
    Ok(Completeness::of(talked.whole && has_left(talked.end, talked.stopped)))
}

/// Returns true if the program gave the call up in silence.
pub(crate) fn is_given_up(by: Option<StoppedBy>) -> bool
    ensures { result ≡ is_given_up by }
{
    match by {
        Some(StoppedBy::NeverQuiet) => true,
        _ => false,
    }
}

/// Whether the end of a call of which all was confirmed lacks its last DCN at most.
fn has_left(end: Option<CallEnd>, by: Option<StoppedBy>) -> bool
    ensures { result ≡ has_left end by }
{
    match end {
        Some(CallEnd::LineLost) => !is_given_up(by),
        Some(CallEnd::By(End::Normal | End::NoAnswer)) => true,
        _ => false,
    }
}

/// Why a call is refused, in words.
fn refusal_words(refused: Refusal) -> &'static str
    ensures { result.now ≡ refusal_words refused }
{
    match refused {
        Refusal::NoErrorCorrection => "the caller sends without error correction",
        Refusal::NotOffered =>
            "the caller sends at a speed or pages that the answerer doesn't offer",
        Refusal::UsedNumber => "a page came under the number of the last one",
    }
}

/// What an answerer lacks, in words.
fn reason_words(reason: Reason) -> &'static str
    ensures { result.now ≡ reason_words reason }
{
    match reason {
        Reason::NoReceiver => "the answerer doesn't receive",
        Reason::NoErrorCorrection => "the answerer has no error correction",
        Reason::TooWide => "the page is wider than the answerer takes",
        Reason::NoFineLines => "the answerer takes no fine lines",
        Reason::NoCommonSpeed => "the stations have no common speed",
    }
}

/// Why a call that was stopped is refused, or else why the program stopped it.
fn stopped_why(refused: Option<Refusal>, by: Option<StoppedBy>) -> Option<&'static str>
    ensures { option_map (λ why. why.now) result ≡ stopped_why refused by }
{
    match (refused, by) {
        (Some(why), _) => Some(refusal_words(why)),
        (None, Some(by)) => Some(by.words()),
        (None, None) => None,
    }
}

/// Why a call whose line is lost was given up, if it was.
fn lost_why(by: Option<StoppedBy>) -> Option<&'static str>
    ensures { option_map (λ why. why.now) result ≡ lost_why by }
{
    if is_given_up(by) {
        return Some(StoppedBy::NeverQuiet.words());
    }
    None
}

/// What is missing, of stations that aren't compatible.
fn missing_why(missing: Option<Reason>) -> Option<&'static str>
    ensures { option_map (λ why. why.now) result ≡ missing_why missing }
{
    match missing {
        Some(reason) => Some(reason_words(reason)),
        None => None,
    }
}

/// Why the caller of an answerer left after its last page, if that wasn't confirmed.
fn left_why(unconfirmed: bool) -> Option<&'static str>
    ensures { option_map (λ why. why.now) result ≡ left_why unconfirmed }
{
    if unconfirmed {
        return Some("the caller left before its last page was confirmed");
    }
    None
}

/// Why the call ended so, in words, or why a page's file couldn't be written.
fn why_words(talked: &Talked) -> Option<&'static str>
    ensures { option_map (λ why. why.now) result
        ≡ why_words talked.now.failed (end_why talked.now.end talked.now.unconfirmed talked.now.refused talked.now.stopped
        talked.now.missing) }
{
    match talked.failed {
        Some(kind) => Some(faults::reason_words(Some(kind))),
        None => end_why(talked),
    }
}

/// Why the call ended so, in words, where more is known than its end.
fn end_why(talked: &Talked) -> Option<&'static str>
    ensures { option_map (λ why. why.now) result
        ≡ end_why talked.now.end talked.now.unconfirmed talked.now.refused talked.now.stopped talked.now.missing }
{
    match talked.end {
        Some(CallEnd::Stopped) => stopped_why(talked.refused, talked.stopped),
        Some(CallEnd::LineLost) => lost_why(talked.stopped),
        Some(CallEnd::By(End::NotCompatible)) => missing_why(talked.missing),
        Some(CallEnd::By(End::Normal)) => left_why(talked.unconfirmed),
        _ => None,
    }
}

/// Returns the name of a frame by its control field, if it has one.
fn named(octet: u8) -> Option<&'static str>
    ensures { option_map (λ name. name.now) result ≡ named (other_name octet) }
{
    let name = other_name(octet);
    if name.is_empty() { None } else { Some(name) }
}

/// Returns whether a frame goes beside a DIS, and tells what a station is or wants.
fn is_beside_dis(octet: u8) -> bool
    ensures { result ≡ is_beside_dis octet }
{
    match octet {
        0x20 | 0x21 | 0x40 | 0x41 | 0xA1 | 0xC1 | 0x61 | 0xE1 | 0x11 | 0x24 | 0x25 => true,
        _ => false,
    }
}

/// Returns whether a frame goes beside a DCS.
fn is_beside_dcs(octet: u8) -> bool
    ensures { result ≡ is_beside_dcs octet }
{
    match octet {
        0x22 | 0x23 | 0x42 | 0x43 | 0xA2 | 0xA3 => true,
        0xC2 | 0xC3 | 0x62 | 0x63 | 0xE2 | 0xE3 => true,
        _ => false,
    }
}

/// Returns the name of a frame that asks for an answer, by its control field, if it has a name.
fn asking_name(octet: u8) -> Option<&'static str>
    ensures { option_map (λ name. name.now) result ≡ asking_name octet }
{
    if is_beside_dis(octet) || is_beside_dcs(octet) {
        return None;
    }
    named(octet)
}

/// Returns the name of the last frame that was heard, by its control field, if that asks for an answer that we don't give, and a call ended
/// so after it.
fn left_out(end: Option<CallEnd>, unread: Option<u8>) -> Option<&'static str>
    ensures { option_map (λ name. name.now) result ≡ left_out end unread }
{
    match (end, unread) {
        (Some(CallEnd::By(End::Normal | End::NotCompatible) | CallEnd::Stopped), _) => None,
        (Some(CallEnd::By(_) | CallEnd::LineLost), Some(octet)) => asking_name(octet),
        (None, _) | (_, None) => None,
    }
}

/// Says that a frame of this name isn't answered. It says nothing without memory.
fn unanswered(alloc: Global, name: &str) -> Option<String>
    ensures { IfSome result (λ words. string_bytes words ≡ unanswered_words name.now) }
{
    let Ok(words) = format!(in alloc; "{name}, which isn't answered") else {
        return None;
    };
    Some(words)
}

/// Says that a call ended so after a frame which isn't answered. It says nothing without memory.
fn left_out_words(alloc: Global, talked: &Talked) -> Option<String>
    ensures { IfSome result (λ words. left_out_words talked.now.end talked.now.figures.unread
        ≡ Some (string_bytes words)) }
{
    let Some(name) = left_out(talked.end, talked.figures.unread) else {
        return None;
    };
    unanswered(alloc, name)
}

/// Records how a call stands at its end, if records are asked for.
fn record_state(context: &Context<'_>, talked: &Talked, calls: bool) {
    if !context.is_json() {
        return;
    }
    let left_out = left_out_words(context.alloc(), talked);
    let state = State {
        calls,
        pages: talked.pages,
        whole: talked.whole,
        why: why_words(talked).or(left_out.as_deref()),
    };
    let mut line = ErrorLine::new(context.streams());
    let made = write_state(context.alloc(), &state, &mut line);
    line.end(made);
}

/// Shows why a call is refused, or what the answerer lacks, if that is so.
fn show_why(streams: &Streams<'_>, talked: &Talked) {
    if let (Some(CallEnd::Stopped), Some(refused)) = (talked.end, talked.refused) {
        let mut line = ErrorLine::new(&*streams);
        let made = writeln!(line, "the call is refused: {}", refusal_words(refused));
        line.end(made);
    }
    if let (Some(CallEnd::By(End::Normal)), Some(why)) = (
        talked.end,
        left_why(talked.unconfirmed),
    ) {
        let mut line = ErrorLine::new(&*streams);
        let made = writeln!(line, "{why}");
        line.end(made);
    }
    if let (Some(CallEnd::By(End::NotCompatible)), Some(missing)) = (talked.end, talked.missing) {
        let mut line = ErrorLine::new(&*streams);
        let made = writeln!(line, "not compatible: {}", reason_words(missing));
        line.end(made);
    }
}

/// Shows how the call of a station ended: as a record, or as a line after one of why it ended so, if more is known, and one of its figures.
fn show_end(context: &Context<'_>, talked: &Talked, calls: bool) {
    let streams = context.streams();
    let left_out = left_out_words(context.alloc(), talked);
    let ended = Ended {
        calls,
        end: station::word_of(
            talked.end,
            talked.unconfirmed,
            talked.refused,
            talked.stopped,
        ),
        pages: talked.pages,
        seconds: talked.seconds,
        figures: talked.figures,
        why: why_words(talked).or(left_out.as_deref()).unwrap_or(""),
    };
    let mut line = ErrorLine::new(streams);
    if context.is_json() && write_ended(context.alloc(), &ended, &mut line).is_ok() {
        return line.end(Ok::<(), ToolFault>(()));
    }
    show_why(streams, talked);
    if let (None, Some(words)) = (why_words(talked), left_out.as_deref()) {
        show_line(streams, words);
    }
    show_end_words(streams, &ended);
}

/// Shows a line of words.
fn show_line(streams: &Streams<'_>, words: &str) {
    let mut line = ErrorLine::new(streams);
    let made = writeln!(line, "{words}");
    line.end(made);
}

/// Shows what the call of a station came to, and how it ended.
fn show_end_words(streams: &Streams<'_>, ended: &Ended<'_>) {
    let mut line = ErrorLine::new(streams);
    let made = write_figures(ended.seconds, ended.figures, &mut line);
    line.end(made);
    let counted = pages_word(ended.calls);
    let mut line = ErrorLine::new(streams);
    let made = writeln!(line, "end {} {counted} {}", ended.end, ended.pages);
    line.end(made);
}

/// Shows that a line says nothing that a station knows.
fn show_line_fault(context: &Context<'_>, number: u64, reason: NoLine) {
    let streams = context.streams();
    if context.is_json() && record_line_fault(streams, number, reason).is_ok() {
        return;
    }
    let mut line = ErrorLine::new(streams);
    let made = writeln!(line, "fault 31 at line {number}");
    line.end(made);
    if context.explains() {
        let mut line = ErrorLine::new(streams);
        let made = writeln!(line, "standard input: line {number}, {reason}");
        line.end(made);
    }
}

/// Shows the record of a line that says nothing that a station knows.
fn record_line_fault(streams: &Streams<'_>, number: u64, reason: NoLine) -> Result<(), ToolFault>
    ensures { IfErr result IsOutside }
{
    let alloc = streams.rt().alloc();
    let words = format!(in alloc; "standard input: line {number}, {reason}")?;
    let mut line = ErrorLine::new(streams);
    write_line_fault(alloc, 31, number, words.as_str(), &mut line)?;
    line.flush()?;
    Ok(())
}

//! What `call` prints: a line for each event of a call, and what has become of it.

ghost use Rattle.faults.specs.Faults.{IsOutside};
ghost use Rattle.calls.specs.Transcripts.{end_text, ending_text, entry_line};
ghost use Rattle.calls.specs.Scripts.{word_of};
ghost use Rattle.std.specs.Io.KnownBytes.{Appends};
ghost use Rattle.std.specs.Prelude.{◌≡◌, IfErr, OnOk};

use faults::ToolFault;
use line_sim::{Ending, Entry, Event, Kind};
use stations::{End, Turn};
use std::fmt;
use std::io::Write;

/// The word of an event, as in scripts.
pub(crate) fn event_word(event: Event) -> &'static str
    ensures { result.now ≡ word_of event }
{
    match event {
        Event::DeliverToAnswerer => "to-answerer",
        Event::DeliverToCaller => "to-caller",
        Event::LoseToAnswerer => "lose-to-answerer",
        Event::LoseToCaller => "lose-to-caller",
        Event::Spoil => "spoil",
        Event::CallerTimeout => "caller-timeout",
        Event::CallerT5 => "caller-t5",
        Event::AnswererT1 => "answerer-t1",
        Event::AnswererT2 => "answerer-t2",
        Event::Busy(true) => "busy",
        Event::Busy(false) => "ready",
    }
}

/// The word of why a call ended for a station: `normal`, `no-reply` .., or `running` if it goes on.
pub fn end_word(ending: Option<End>) -> &'static str
    ensures { result.now ≡ end_text ending }
{
    match ending {
        None => "running",
        Some(End::Normal) => "normal",
        Some(End::NoAnswer) => "no-answer",
        Some(End::NotCompatible) => "not-compatible",
        Some(End::Training) => "training",
        Some(End::NoReply) => "no-reply",
        Some(End::Unreadable) => "unreadable",
        Some(End::StillBusy) => "still-busy",
        Some(End::PeerLeft) => "peer-left",
        Some(End::BadPage) => "bad-page",
        Some(End::PageTooLong) => "page-too-long",
    }
}

/// The words of what was delivered or lost.
#[derive(Drop)]
pub struct ItemText(pub Option<Kind>);

impl fmt::Display for ItemText {
    ghost use Rattle.std.specs.Prelude.{Some};
    ghost use Rattle.calls.specs.Transcripts.{item_text};

    ghost output = { λ text. Some (item_text text.0) };

    fn fmt<W: fmt::Write>(&self, f: &mut fmt::Formatter<W>) -> fmt::Result {
        match self.0 {
            None => write!(f, "-"),
            Some(Kind::Dis) => write!(f, "DIS"),
            Some(Kind::Dcs) => write!(f, "DCS"),
            Some(Kind::Training) => write!(f, "TRAINING"),
            Some(Kind::Cfr) => write!(f, "CFR"),
            Some(Kind::Ftt) => write!(f, "FTT"),
            Some(Kind::Fcd(number)) => write!(f, "FCD:{number}"),
            Some(Kind::Rcp) => write!(f, "RCP"),
            Some(Kind::Pps) => write!(f, "PPS"),
            Some(Kind::Mcf) => write!(f, "MCF"),
            Some(Kind::Ppr) => write!(f, "PPR"),
            Some(Kind::Rnr) => write!(f, "RNR"),
            Some(Kind::Rr) => write!(f, "RR"),
            Some(Kind::Dcn) => write!(f, "DCN"),
        }
    }
}

/// The words of what was transmitted: a turn, and the number of its FCDs.
#[derive(Drop)]
pub struct TurnText(pub Turn, pub u16);

impl fmt::Display for TurnText {
    ghost use Rattle.std.specs.Prelude.{Some};
    ghost use Rattle.calls.specs.Transcripts.{turn_text};

    ghost output = { λ text. Some (turn_text text.0 text.1) };

    fn fmt<W: fmt::Write>(&self, f: &mut fmt::Formatter<W>) -> fmt::Result {
        match self.0 {
            Turn::Silent => write!(f, "-"),
            Turn::Dis => write!(f, "DIS"),
            Turn::Training => write!(f, "DCS"),
            Turn::Cfr => write!(f, "CFR"),
            Turn::Ftt => write!(f, "FTT"),
            Turn::Burst(_) => write!(f, "BURST:{}", self.1),
            Turn::Pps => write!(f, "PPS"),
            Turn::Mcf => write!(f, "MCF"),
            Turn::Ppr(_) => write!(f, "PPR"),
            Turn::Rnr => write!(f, "RNR"),
            Turn::Rr => write!(f, "RR"),
            Turn::Dcn => write!(f, "DCN"),
        }
    }
}

/// Writes the line of an event: its number, its word, the item, the turn, and ` !` if a growth was refused in it. Errs if the writer fails.
pub fn write_entry<W: Write>(number: u64, entry: &Entry, writer: &mut W) -> Result<(), ToolFault>
    ensures line { OnOk result (Appends (W.contents writer.old) (W.contents writer.new) (entry_line number entry.now)) }
    ensures fault { IfErr result IsOutside }
{
    let word = event_word(entry.event);
    let item = ItemText(entry.item);
    let turn = TurnText(entry.turn, entry.fcds);
    if entry.refused {
        writeln!(writer, "{number} {word} {item} {turn} !")?;
    } else {
        writeln!(writer, "{number} {word} {item} {turn}")?;
    }
    Ok(())
}

/// Writes what a call leaves: how it ended for the caller, with the number of confirmed pages, and for the answerer, with the number of
/// stored pages. Errs with `FAILED` (8) if the writer fails, and with `NO_MEMORY`.
pub(crate) fn write_ending<W: Write>(ending: &Ending, writer: &mut W) -> Result<(), ToolFault>
    ensures text { OnOk result (Appends (W.contents writer.old) (W.contents writer.new) (ending_text ending.now)) }
    ensures fault { IfErr result IsOutside }
{
    let caller = end_word(ending.caller_end);
    writeln!(writer, "caller {caller} confirmed {}", ending.confirmed)?;
    let answerer = end_word(ending.answerer_end);
    writeln!(writer, "answerer {answerer} pages {}", ending.pages.len())?;
    Ok(())
}

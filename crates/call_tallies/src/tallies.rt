//! What many calls have come to, in numbers: how many ended how, and sums.

ghost use Rattle.faults.specs.Faults.{IsOutside};
ghost use Rattle.call_tallies.specs.ManyCalls.{Tallies, all_ends, borne_in, end_row, ended_at, few_in, is_mild, mild_in, place_of, row_of};
ghost use Rattle.call_tallies.specs.ManyCalls.{few_row, mild_row, sum_row, table_text, through_in};
ghost use Rattle.call_tallies.specs.declared.many_calls.OneCall.{OneCall as OneCallValue};
ghost use Rattle.std.specs.Io.KnownBytes.{Appends};
ghost use Rattle.std.specs.List.{flat_map};
ghost use Rattle.std.specs.Prelude.{◌≡◌, ◌≤◌, [], ◌∷◌, ◌++◌, List, IfErr, OnOk, Some};

use crate::many_calls::{CallCounts, OneCall, one_if, sum};
use calls::{after, end_word};
use faults::ToolFault;
use stations::End;
use std::io::Write;

/// The ends that a call can have for a station, in the order of the table.
const ENDS: [End; 10] = [
    End::Normal,
    End::NoAnswer,
    End::NotCompatible,
    End::Training,
    End::NoReply,
    End::Unreadable,
    End::StillBusy,
    End::PeerLeft,
    End::BadPage,
    End::PageTooLong,
];

/// The place of an end in `ENDS`, and 10 of a call that goes on.
fn place_of(ending: Option<End>) -> usize
    ensures place { result ≡ place_of ending }
    ensures few { result ≤ 10 }
{
    match ending {
        Some(End::Normal) => 0,
        Some(End::NoAnswer) => 1,
        Some(End::NotCompatible) => 2,
        Some(End::Training) => 3,
        Some(End::NoReply) => 4,
        Some(End::Unreadable) => 5,
        Some(End::StillBusy) => 6,
        Some(End::PeerLeft) => 7,
        Some(End::BadPage) => 8,
        Some(End::PageTooLong) => 9,
        None => 10,
    }
}

/// Numbers of many calls.
#[derive(Clone, Copy)]
pub(crate) struct Tally {
    /// How many calls there were.
    calls: u64,
    /// How many of them ended so for the caller, by the place of the end.
    ended: [u64; 11],
    /// In how many at most two items were lost or spoiled.
    mild: u64,
    /// How many of these ended normally for the caller.
    borne: u64,
    /// In how many each phase had few bad tries.
    few: u64,
    /// How many of these ended normally for the caller.
    through: u64,
    /// How many items came.
    deliveries: u64,
    /// How many FCDs were sent again.
    again: u64,
}

/// True if a call had at most two losses.
fn is_mild(counts: &CallCounts) -> bool
    ensures { result ≡ is_mild counts.now }
{
    counts.lost < 3 && counts.spoiled < 3 - counts.lost
}

/// 1 if at most two items of a call were lost or spoiled.
fn mild_in(call: &OneCall) -> u64
    ensures { result ≡ mild_in call.now }
{
    if is_mild(&call.counts) { 1 } else { 0 }
}

/// 1 if at most two items of a call were lost or spoiled and it ended normally for the caller.
fn borne_in(call: &OneCall) -> u64
    ensures { result ≡ borne_in call.now }
{
    if place_of(call.caller_end) == 0 {
        return mild_in(call);
    }
    0
}

/// 1 if a call had few bad tries in each phase.
fn few_in(call: &OneCall) -> u64
    ensures { result ≡ few_in call.now }
{
    one_if(call.few)
}

/// 1 if a call had few bad tries in each phase and it ended normally for the caller.
fn through_in(call: &OneCall) -> u64
    ensures { result ≡ through_in call.now }
{
    if place_of(call.caller_end) == 0 {
        return few_in(call);
    }
    0
}

/// Writes the row of an end, with how many calls ended so for the caller, or nothing if there is none. Errs with `FAILED` (8) if the writer
/// fails, and with `NO_MEMORY`.
fn write_end<W: Write>(why: End, count: u64, writer: &mut W) -> Result<(), ToolFault>
    ensures row { OnOk result (Appends (W.contents writer.old) (W.contents writer.new) (row_of why count)) }
    ensures fault { IfErr result IsOutside }
{
    if count == 0 {
        return Ok(());
    }
    let word = end_word(Some(why));
    writeln!(writer, "caller {word} {count}")?;
    Ok(())
}

/// Writes the row of a word and a number. Errs with `FAILED` (8) if the writer fails, and with `NO_MEMORY`.
fn write_sum<W: Write>(word: &str, count: u64, writer: &mut W) -> Result<(), ToolFault>
    ensures row { OnOk result (Appends (W.contents writer.old) (W.contents writer.new) (sum_row word.now count)) }
    ensures fault { IfErr result IsOutside }
{
    writeln!(writer, "{word} {count}")?;
    Ok(())
}

/// Writes how many calls lost little, and how many of them ended normally for the caller. Errs with `FAILED` (8) if the writer fails, and
/// with `NO_MEMORY`.
fn write_mild<W: Write>(mild: u64, borne: u64, writer: &mut W) -> Result<(), ToolFault>
    ensures row { OnOk result (Appends (W.contents writer.old) (W.contents writer.new) (mild_row mild borne)) }
    ensures fault { IfErr result IsOutside }
{
    writeln!(writer, "at-most-two-bad {mild} normal {borne}")?;
    Ok(())
}

/// Writes how many calls had few bad tries in each phase, and how many of them ended normally for the caller. Errs with `FAILED` (8) if the
/// writer fails, and with `NO_MEMORY`.
fn write_few<W: Write>(few: u64, through: u64, writer: &mut W) -> Result<(), ToolFault>
    ensures row { OnOk result (Appends (W.contents writer.old) (W.contents writer.new) (few_row few through)) }
    ensures fault { IfErr result IsOutside }
{
    writeln!(writer, "few-bad-tries {few} normal {through}")?;
    Ok(())
}

impl Tally {
    /// Before the first call.
    pub(crate) fn new() -> Tally
        ensures { Tallies result [] }
    {
        Tally {
            calls: 0,
            ended: [0; 11],
            mild: 0,
            borne: 0,
            few: 0,
            through: 0,
            deliveries: 0,
            again: 0,
        }
    }

    /// One call more. Errs with `FAILED` (8) if a number would be 2^64.
    pub(crate) fn add(&mut self, call: &OneCall) -> Result<(), ToolFault>
        ensures tallies { OnOk result ((calls : List OneCallValue) → Tallies self.old calls → Tallies self.new (calls ++ call.now ∷ [])) }
        ensures fault { IfErr result IsOutside }
    {
        self.calls = after(self.calls)?;
        self.mild = sum(self.mild, mild_in(call))?;
        self.borne = sum(self.borne, borne_in(call))?;
        self.few = sum(self.few, few_in(call))?;
        self.through = sum(self.through, through_in(call))?;
        self.deliveries = sum(self.deliveries, call.counts.deliveries)?;
        self.again = sum(self.again, call.counts.again)?;
        let place = place_of(call.caller_end);
        self.ended[place] = after(self.ended[place])?;
        Ok(())
    }

    /// How many calls ended so for the caller.
    fn ended(&self, why: End) -> u64
        ensures { (calls : List OneCallValue) → Tallies self.now calls → result ≡ ended_at (place_of (Some why)) calls }
    {
        self.ended[place_of(Some(why))]
    }

    /// Writes the row of an end, if a call had it for the caller. Errs with `FAILED` (8) if the writer fails, and with `NO_MEMORY`.
    fn write_end_of<W: Write>(&self, why: End, writer: &mut W) -> Result<(), ToolFault>
        ensures row { OnOk result ((calls : List OneCallValue) → Tallies self.now calls →
            Appends (W.contents writer.old) (W.contents writer.new) (end_row calls why)) }
        ensures fault { IfErr result IsOutside }
    {
        let count = self.ended(why);
        write_end(why, count, writer)?;
        Ok(())
    }

    /// Writes the rows of the ends that a call had for the caller. Errs with `FAILED` (8) if the writer fails, and with `NO_MEMORY`.
    fn write_ends<W: Write>(&self, writer: &mut W) -> Result<(), ToolFault>
        ensures rows { OnOk result ((calls : List OneCallValue) → Tallies self.now calls →
            Appends (W.contents writer.old) (W.contents writer.new) (flat_map (end_row calls) all_ends)) }
        ensures fault { IfErr result IsOutside }
    {
        for why in &ENDS {
            self.write_end_of(*why, writer)?;
        }
        Ok(())
    }

    /// Writes the table. Errs with `FAILED` (8) if the writer fails, and with `NO_MEMORY`.
    pub(crate) fn write<W: Write>(&self, writer: &mut W) -> Result<(), ToolFault>
        ensures table { OnOk result ((calls : List OneCallValue) → Tallies self.now calls →
            Appends (W.contents writer.old) (W.contents writer.new) (table_text calls)) }
        ensures fault { IfErr result IsOutside }
    {
        write_sum("calls", self.calls, writer)?;
        self.write_ends(writer)?;
        write_mild(self.mild, self.borne, writer)?;
        write_few(self.few, self.through, writer)?;
        write_sum("deliveries", self.deliveries, writer)?;
        write_sum("again", self.again, writer)?;
        Ok(())
    }
}

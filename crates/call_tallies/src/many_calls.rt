//! Runs many calls of a document over a bad line, for `call --times`, over any writer, and writes a table of them.

ghost use Rattle.calls.specs.BadLines.{Going, RefusesDriven, Stands, is_marked};
ghost use Rattle.faults.specs.Faults.{IsOutside};
ghost use Rattle.call_tallies.specs.ManyCalls.{CountsAll, IsCallOf, TellsCalls, TellsMany, counts_in, counts_with, frames_again};
ghost use Rattle.call_tallies.specs.ManyCalls.{counts_words, ends_words, is_delivery, is_loss, is_spoiling, one_line};
ghost use Rattle.call_tallies.specs.FewTries.{slower_speeds};
ghost use Rattle.call_tallies.specs.Totals.{one_if};
ghost use Rattle.faults.specs.declared.fault.ToolFault.TheVariants.{No};
ghost use Rattle.line_sim.specs.Fates.{entries_of};
ghost use Rattle.stations.specs.CallerFields.{AreCallable};
ghost use Rattle.std.specs.Io.KnownBytes.{Appends};
ghost use Rattle.std.specs.Prelude.{◌≡◌, ◌≤◌, ◌+◌, ◌↔◌, ◌⊎◌, [], ◌∷◌, IfErr, IfOk, IsTrue, OnOk};

use crate::line_time::{Clocks, seconds_in, waited_in};
use crate::seconds::Seconds;
use crate::tallies::Tally;
use crate::tries::{Stood, TryCounts};
use calls::{
    BadLine, CallOptions, Counts, answerer_caps, end_word, fault_of, generator_of, next_step,
    patience_of, set_answerer,
};
use faults::{FAILED, NO_MEMORY, ToolFault};
use line_sim::{DrivenCall, Entry, Event, Kind, Step};
use rand_pcg::Lcg64Xsh32;
use raster::{Document, read_pbm};
use signals::{Modems, Wish};
use stations::{CodedDocument, End};
use std::alloc::Global;
use std::io::Write;

/// What is counted of a call.
#[derive(Clone, Copy)]
pub(crate) struct CallCounts {
    /// How many items came.
    pub(crate) deliveries: u64,
    /// How many items were lost.
    pub(crate) lost: u64,
    /// How many training checks were spoiled.
    pub(crate) spoiled: u64,
    /// How many FCDs were sent again, in answer to a PPR.
    pub(crate) again: u64,
    /// How long the waits that were over had run, in milliseconds; a caller's wait for an answer is T4.
    pub(crate) waited: u64,
}

/// What is counted of a call, and how long what was sent lasts.
#[derive(Clone, Copy)]
struct Counted {
    /// What is counted.
    counts: CallCounts,
    /// How long it lasts.
    clocks: Clocks,
    /// True if each phase had few bad tries, and no more spoiled training checks than are spare.
    few: bool,
}

/// The result of one call of many.
#[derive(Clone, Copy)]
pub(crate) struct OneCall {
    /// The call's number.
    pub(crate) number: u64,
    /// Why it ended for the caller.
    pub(crate) caller_end: Option<End>,
    /// How many pages the caller counts as confirmed.
    pub(crate) confirmed: u64,
    /// Why it ended for the answerer.
    pub(crate) answerer_end: Option<End>,
    /// How many pages the answerer has stored.
    pub(crate) pages: usize,
    /// What was counted of it.
    pub(crate) counts: CallCounts,
    /// For how many whole seconds it had the line.
    pub(crate) seconds: u64,
    /// True if each phase had few bad tries, as `line_sim::laws::calls_bear` counts them.
    pub(crate) few: bool,
}

/// The sum of two numbers. Errs with `FAILED` (8) if it would be 2^64 or more.
pub(crate) fn sum(one: u64, other: u64) -> Result<u64, ToolFault>
    ensures sum { IfOk result (λ sum. sum ≡ one + other) }
    ensures fault { IfErr result IsOutside }
{
    one.checked_add(other).ok_or(FAILED)
}

/// 1 if true, 0 if false.
pub(crate) fn one_if(so: bool) -> u64
    ensures { result ≡ one_if so }
{
    if so { 1 } else { 0 }
}

/// True if an item comes in an event.
fn is_delivery(event: Event) -> bool
    ensures { result ≡ is_delivery event }
{
    matches!(event, Event::DeliverToAnswerer | Event::DeliverToCaller)
}

/// True if an item is lost in an event.
pub(crate) fn is_loss(event: Event) -> bool
    ensures { result ≡ is_loss event }
{
    matches!(event, Event::LoseToAnswerer | Event::LoseToCaller)
}

/// True if a training check is spoiled in an event.
pub(crate) fn is_spoiling(event: Event) -> bool
    ensures { result ≡ is_spoiling event }
{
    matches!(event, Event::Spoil)
}

/// How many FCDs of a burst are sent again: all of them if it answers a PPR, which names the frames that came with an error (ITU-T T.30,
/// Annex A). A first burst answers a CFR or an MCF. A PPS, a DCS or a DIS that is sent again isn't counted.
fn frames_again(item: Option<Kind>, fcds: u16) -> u64
    ensures { result ≡ frames_again item fcds }
{
    match item {
        Some(Kind::Ppr) => u64::from(fcds),
        _ => 0,
    }
}

impl CallCounts {
    /// The counts before the first event.
    fn new() -> CallCounts
        ensures { result ≡ counts_in [] }
    {
        CallCounts {
            deliveries: 0,
            lost: 0,
            spoiled: 0,
            again: 0,
            waited: 0,
        }
    }

    /// The counts with one entry more. Errs with `FAILED` (8) if a number would be 2^64.
    fn with_entry(self, entry: &Entry) -> Result<CallCounts, ToolFault>
        ensures counts { IfOk result (λ counts. counts ≡ counts_with self (counts_in (entry.now ∷ []))) }
        ensures fault { IfErr result IsOutside }
    {
        Ok(CallCounts {
            deliveries: sum(self.deliveries, one_if(is_delivery(entry.event)))?,
            lost: sum(self.lost, one_if(is_loss(entry.event)))?,
            spoiled: sum(self.spoiled, one_if(is_spoiling(entry.event)))?,
            again: sum(self.again, frames_again(entry.item, entry.fcds))?,
            waited: sum(self.waited, waited_in(entry.event))?,
        })
    }

    /// The counts with the entries of one step more. Errs with `FAILED` (8) if a number would be 2^64.
    fn with_step(self, step: &Step) -> Result<CallCounts, ToolFault>
        ensures counts { IfOk result (λ counts. counts ≡ counts_with self (counts_in (entries_of step.now))) }
        ensures fault { IfErr result IsOutside }
    {
        let Some(before) = step.before else {
            return self.with_entry(&step.entry);
        };
        let first = self.with_entry(&before)?;
        first.with_entry(&step.entry)
    }
}

/// True if a growth was refused in an event, if there was one.
fn is_marked(set: Option<Entry>) -> bool
    ensures { result ≡ is_marked set }
{
    match set {
        Some(entry) => entry.refused,
        None => false,
    }
}

/// How many speeds two stations with the same modems have below their first one.
fn slower_speeds(modems: Modems) -> u64
    ensures { result ≡ slower_speeds modems }
{
    match modems {
        Modems::Fallback => 0,
        Modems::V27 | Modems::V29 => 1,
        Modems::V27V29 => 3,
        Modems::V17 => 5,
    }
}

/// Makes the steps of a call until it is over, by the generator's words, and counts its events, how long what it sends lasts, and if each
/// phase had few bad tries and each group no more spoiled checks than are spare. Errs with `NO_MEMORY` if a growth was refused, and with
/// `FAILED` (8) if a number would be 2^64.
fn count_fates(
    call: &mut DrivenCall,
    line: &BadLine,
    generator: &mut Lcg64Xsh32,
    spare: u64,
) -> Result<Counted, ToolFault>
    ensures counted { IfOk result (λ counted. (first : Going) → Stands call.old line.now generator.old first →
        CountsAll line.now spare first call.new counted) }
    ensures document { OnOk result (call.new.live.caller.document ≡ call.old.live.caller.document) }
    ensures fault { IfErr result IsOutside }
{
    let mut counts = CallCounts::new();
    let mut clocks = Clocks::new().after_sent(call.live(), Counts::none())?;
    let mut tries = TryCounts::first(true);
    for _made in 0..u64::MAX {
        let before = Counts::of(call.live());
        let set = set_answerer(call, line, generator);
        if is_marked(set) {
            return Err(NO_MEMORY);
        }
        let stood = Stood::of(call);
        let Some(step) = next_step(call, line, generator) else {
            return Ok(Counted {
                counts,
                clocks,
                few: tries.few,
            });
        };
        if step.entry.refused {
            return Err(NO_MEMORY);
        }
        counts = counts.with_step(&step)?;
        clocks = clocks.after_sent(call.live(), before)?;
        tries = tries.after_step(&step, spare, stood, Stood::of(call))?;
    }
    Err(FAILED)
}

/// True if a call is one that is borne: few of its tries were bad, at least three DIS are sent in a wait, and the answerer is never busy.
fn is_borne(line: &BadLine, few: bool) -> bool
    ensures { IsTrue result ↔ ((3 ≤ line.now.calls) × (line.now.busy ≡ 0) × IsTrue few) }
{
    line.calls >= 3 && line.busy == 0 && few
}

/// Runs the call of a number, of a document, over a bad line, and returns the document for the next call. Errs with 26 if no call can have
/// the width of a page, with `NO_MEMORY`, and with `FAILED` (8) if a number would be 2^64.
fn run_call(
    alloc: Global,
    document: CodedDocument,
    options: &CallOptions,
    line: &BadLine,
    number: u64,
) -> Result<(OneCall, CodedDocument), ToolFault>
    ensures is { IfOk result (λ ran. IsCallOf options.now line.now number document ran.0) }
    ensures document { IfOk result (λ ran. ran.1 ≡ document) }
    ensures refused { IfErr result (λ fault. IsOutside fault ⊎ (¬ AreCallable document × (fault ≡ No 26))) }
{
    let wish = Wish {
        modems: options.modems,
        coding: options.coding,
        small: options.small,
    };
    let caps = answerer_caps(options.modems);
    let patience = patience_of(line);
    let mut call = match DrivenCall::of_coded(alloc, document, wish, caps, patience) {
        Ok(call) => call,
        Err(fault) => return Err(fault_of(fault)),
    };
    let mut generator = generator_of(line, number);
    let spare = slower_speeds(options.modems);
    let counted = count_fates(&mut call, line, &mut generator, spare)?;
    let (ending, document) = call.into_live().into_counts_and_document();
    let seconds = seconds_in(&counted.clocks, counted.counts.waited, ending.caller_end)?;
    let few = is_borne(line, counted.few);
    let ran = OneCall {
        number,
        caller_end: ending.caller_end,
        confirmed: ending.confirmed,
        answerer_end: ending.answerer_end,
        pages: ending.stored,
        counts: counted.counts,
        seconds,
        few,
    };
    Ok((ran, document))
}

/// Writes a call's number and how it ended for both stations, without the end of the line. Errs with `FAILED` (8) if the writer fails, and
/// with `NO_MEMORY`.
fn write_ends<W: Write>(call: &OneCall, writer: &mut W) -> Result<(), ToolFault>
    ensures words { OnOk result (Appends (W.contents writer.old) (W.contents writer.new) (ends_words call.now)) }
    ensures fault { IfErr result IsOutside }
{
    let caller = end_word(call.caller_end);
    write!(
        writer,
        "call {} caller {caller} confirmed {}",
        call.number, call.confirmed
    )?;
    let answerer = end_word(call.answerer_end);
    write!(writer, " answerer {answerer} pages {}", call.pages)?;
    Ok(())
}

/// Writes what was counted of a call, after a space, and the end of its line. Errs with `FAILED` (8) if the writer fails, and with
/// `NO_MEMORY`.
fn write_counts<W: Write>(counts: &CallCounts, writer: &mut W) -> Result<(), ToolFault>
    ensures words { OnOk result (Appends (W.contents writer.old) (W.contents writer.new) (counts_words counts.now)) }
    ensures fault { IfErr result IsOutside }
{
    writeln!(
        writer,
        " deliveries {} lost {} spoiled {} again {}",
        counts.deliveries, counts.lost, counts.spoiled, counts.again
    )?;
    Ok(())
}

/// Writes the line of a call. Errs with `FAILED` (8) if the writer fails, and with `NO_MEMORY`.
fn write_call<W: Write>(call: &OneCall, writer: &mut W) -> Result<(), ToolFault>
    ensures line { OnOk result (Appends (W.contents writer.old) (W.contents writer.new) (one_line call.now)) }
    ensures fault { IfErr result IsOutside }
{
    write_ends(call, writer)?;
    write_counts(&call.counts, writer)
}

/// Runs calls 0 to `times` - 1 of a document over a lossy line, as `drive_many` does. Errs with 26 if no call can have the width of a page
/// (nothing is written then), with `FAILED` (8) if the writer fails or a sum would be 2^64, and with `NO_MEMORY` (9).
pub fn drive_document_often<W: Write>(
    alloc: Global,
    document: Document,
    writer: &mut W,
    options: &CallOptions,
    line: &BadLine,
    times: u64,
) -> Result<(), ToolFault>
    ensures told { OnOk result (TellsCalls options.now line.now times document (W.contents writer.old) (W.contents writer.new)) }
    ensures refused { IfErr result (λ fault. IsOutside fault ⊎ (¬ AreCallable document × (fault ≡ No 26))) }
    ensures unwritten { IfErr result (λ fault. IsOutside fault ⊎ (writer.new ≡ writer.old)) }
{
    let mut tally = Tally::new();
    let mut seconds = Seconds::new(alloc)?;
    let mut coded = CodedDocument::coded(alloc, document, options.coding)?;
    for number in 0..times {
        // A call takes its document and gives it back; only numbers are kept of it. The call draws from the stream of its number, so it is
        // the call that runs alone with that number.
        let (call, again) = run_call(alloc, coded, options, line, number)?;
        coded = again;
        write_call(&call, writer)?;
        tally.add(&call)?;
        seconds.add(&call)?;
    }
    tally.write(writer)?;
    seconds.write(writer)?;
    Ok(())
}

/// Runs calls 0 to `times` - 1 over a lossy line, one after the other, each as `drive_to_end` runs the call of its number. Writes a line
/// for each as it is over: how it ended for both stations, how many items came and were lost, how many training checks were spoiled and how
/// many FCDs were sent again. Then it writes a table: how many calls ended how for the caller, how many had at most two losses, how many
/// had few bad tries in each phase, the sums, and for how many seconds calls had the line. It keeps only numbers of a call, so its memory
/// doesn't grow with `times`. Errs with the first fault of the images; with 26 if no call can have the width of a page; with `FAILED` (8)
/// if the writer fails or a sum would be 2^64; and with `NO_MEMORY` (9). With any fault but 8 and 9 nothing is written.
pub fn drive_many<W: Write>(
    alloc: Global,
    images: &[u8],
    writer: &mut W,
    options: &CallOptions,
    line: &BadLine,
    times: u64,
) -> Result<(), ToolFault>
    ensures told { OnOk result (TellsMany options.now line.now times images.now (W.contents writer.old) (W.contents writer.new)) }
    ensures refused { IfErr result (RefusesDriven options.now.fine images.now) }
    ensures unwritten { IfErr result (λ fault. IsOutside fault ⊎ (writer.new ≡ writer.old)) }
{
    let mut input = images;
    let document = read_pbm(alloc, &mut input, options.fine)?;
    drive_document_often(alloc, document, writer, options, line, times)?;
    Ok(())
}

//! Runs a call of a document over a bad line, for `call --lose`, over any reader and any writer.

ghost use Rattle.calls.specs.BadLines.{Draws, Going, IsSet, LeavesDriven, RefusesDriven, Stands, TellsAll, entry_if};
ghost use Rattle.calls.specs.BadLines.{LeavesAfter, is_marked, patience_of};
ghost use Rattle.calls.specs.Calls.{HaveRows};
ghost use Rattle.faults.specs.Faults.{IsOutside};
ghost use Rattle.calls.specs.SentBits.{WritesLines};
ghost use Rattle.calls.specs.Transcripts.{entry_line, entry_lines};
ghost use Rattle.faults.specs.declared.fault.ToolFault.TheVariants.{No};
ghost use Rattle.line_sim.specs.Fates.{entries_of, plain_patience};
ghost use Rattle.stations.specs.CallerFields.{AreCallable};
ghost use Rattle.std.specs.Prelude.{◌≡◌, ◌+◌, ◌⊎◌, false, length, IfErr, IfOk, IfSome, OnOk};

use crate::call::{after, answerer_caps, fault_of};
use crate::call_writer::CallWriter;
use crate::counts::Counts;
use crate::losses::{BadLine, draw, draw_busy, generator_of};
use crate::options::CallOptions;
use crate::sent::write_sent;
use faults::{FAILED, NO_MEMORY, ToolFault};
use line_sim::laws::headline;
use line_sim::{DrivenCall, Ending, Entry, Fate, Patience, Step};
use rand_pcg::Lcg64Xsh32;
use raster::{Document, Page, read_pbm};
use signals::Wish;
use std::alloc::Global;
use std::io::Read;

/// How many RNRs may come for a block: T5, 60 s, is over after 20 exchanges of RNR and RR, of some 3 s each at 300 bit/s.
const MOST_RNRS: u64 = 20;

/// The retry limits of a call over a bad line.
pub fn patience_of(line: &BadLine) -> Patience
    ensures { plain_patience result ≡ patience_of line.now }
{
    Patience {
        calls: line.calls,
        busy: MOST_RNRS,
    }
}

/// Sets the answerer busy or ready by the generator's next word, if a PPS or an RR is first under way to it and the line makes it busy at
/// all. Returns the event's entry.
pub fn set_answerer(
    call: &mut DrivenCall,
    line: &BadLine,
    generator: &mut Lcg64Xsh32,
) -> Option<Entry>
    ensures set { (g : Going) → Stands call.old line.now generator.old g → IsSet line.now g call.new generator.new result }
    ensures document { call.new.live.caller.document ≡ call.old.live.caller.document }
{
    if line.busy == 0 {
        return None;
    }
    if !call.asks_ready() {
        return None;
    }
    let busy = draw_busy(line, generator);
    Some(call.set_busy(busy))
}

/// Makes the next step of a call, by a fate of the generator if one is due.
pub fn next_step(call: &mut DrivenCall, line: &BadLine, generator: &mut Lcg64Xsh32) -> Option<Step>
    ensures draws { (g : Going) → Stands call.old line.now generator.old g → Draws line.now g call.old call.new generator.new result }
    ensures document { call.new.live.caller.document ≡ call.old.live.caller.document }
{
    if call.is_fate_due() {
        let fate = draw(line, generator);
        return call.step(fate);
    }
    call.step(Fate::Comes)
}

/// Writes the line of an entry with a number, which is then the next one. Errs with `FAILED` (8) if the writer fails or no number is left,
/// and with `NO_MEMORY`.
fn tell_entry<T: CallWriter>(
    entry: &Entry,
    number: &mut u64,
    writer: &mut T,
) -> Result<(), ToolFault>
    ensures line { OnOk result (WritesLines (T.written writer.old) (T.written writer.new) (entry_line number.old entry.now)) }
    ensures next { OnOk result (number.new ≡ number.old + 1) }
    ensures fault { IfErr result IsOutside }
{
    writer.entry(*number, entry)?;
    *number = after(*number)?;
    Ok(())
}

/// Writes the lines of a step, one or two.
fn tell_step<T: CallWriter>(step: &Step, number: &mut u64, writer: &mut T) -> Result<(), ToolFault>
    ensures lines { OnOk result (WritesLines (T.written writer.old) (T.written writer.new) (entry_lines number.old (entries_of step.now))) }
    ensures next { OnOk result (number.new ≡ number.old + length (entries_of step.now)) }
    ensures fault { IfErr result IsOutside }
{
    let Some(before) = step.before else {
        return tell_entry(&step.entry, number, writer);
    };
    tell_entry(&before, number, writer)?;
    tell_entry(&step.entry, number, writer)
}

/// Writes the line of an entry, if there is one. Errs with `FAILED` (8) if the writer fails or no number is left, and with `NO_MEMORY`,
/// after the line, if a growth was refused.
fn tell_set<T: CallWriter>(
    set: Option<Entry>,
    number: &mut u64,
    writer: &mut T,
) -> Result<(), ToolFault>
    ensures lines { OnOk result (WritesLines (T.written writer.old) (T.written writer.new) (entry_lines number.old (entry_if set))) }
    ensures next { OnOk result (number.new ≡ number.old + length (entry_if set)) }
    ensures whole { OnOk result (is_marked set ≡ false) }
    ensures fault { IfErr result IsOutside }
{
    let Some(entry) = set else {
        return Ok(());
    };
    tell_entry(&entry, number, writer)?;
    if entry.refused {
        return Err(NO_MEMORY);
    }
    Ok(())
}

/// Makes the steps of a call until it is over, by the generator's words, and writes the lines of each as it is made, and the octets that it
/// has put under way. Errs with `NO_MEMORY` after the lines of a step in which a growth was refused.
fn follow_fates<T: CallWriter>(
    call: &mut DrivenCall,
    line: &BadLine,
    generator: &mut Lcg64Xsh32,
    writer: &mut T,
) -> Result<(), ToolFault>
    ensures told { OnOk result ((first : Going) → Stands call.old line.now generator.old first →
        TellsAll line.now first call.new (T.written writer.old) (T.written writer.new)) }
    ensures fault { IfErr result IsOutside }
{
    let mut number: u64 = 1;
    for _made in 0..u64::MAX {
        let counts = Counts::of(call.live());
        let set = set_answerer(call, line, generator);
        tell_set(set, &mut number, writer)?;
        let Some(step) = next_step(call, line, generator) else {
            return Ok(());
        };
        tell_step(&step, &mut number, writer)?;
        write_sent(call.live(), counts, writer)?;
        // What would come after a refused growth is no call by its fates.
        if step.entry.refused {
            return Err(NO_MEMORY);
        }
    }
    Err(FAILED)
}

/// Runs the call of this number, of a document, over a bad line, as `drive_to_end` does. Errs with 26 if no call can have the width of a
/// page (nothing is written then); with `FAILED` (8) if the writer fails or there are 2^64 events; and with `NO_MEMORY` (9), after its
/// line, if a growth was refused in an event.
pub fn drive_document<T: CallWriter>(
    alloc: Global,
    document: Document,
    writer: &mut T,
    options: &CallOptions,
    line: &BadLine,
    number: u64,
) -> Result<Ending, ToolFault>
    ensures told { IfOk result (LeavesAfter options.now line.now number document (T.written writer.old) (T.written writer.new)) }
    ensures rows { IfOk result (λ ending. HaveRows ending.pages.items) }
    ensures refused { IfErr result (λ fault. IsOutside fault ⊎ (¬ AreCallable document × (fault ≡ No 26))) }
    ensures unwritten { IfErr result (λ fault. IsOutside fault ⊎ (writer.new ≡ writer.old)) }
{
    headline();
    let _pages = document.pages(); // for the proof: what holds of every document
    let wish = Wish {
        modems: options.modems,
        coding: options.coding,
        small: options.small,
    };
    let caps = answerer_caps(options.modems);
    let patience = patience_of(line);
    let mut call = match DrivenCall::new(alloc, document, wish, caps, patience) {
        Ok(call) => call,
        Err(fault) => return Err(fault_of(fault)),
    };
    write_sent(call.live(), Counts::none(), writer)?;
    let mut generator = generator_of(line, number);
    follow_fates(&mut call, line, &mut generator, writer)?;
    let ending = call.into_live().into_ending();
    writer.ending(&ending)?;
    Ok(ending)
}

/// Reads a document's images and runs the call of this number over a bad line, between a caller that has the document and an answerer that
/// can take it, until it is over. Each item under way comes, is lost or is spoiled, as the generator's next word says (PCG-XSH-RR of 64
/// bits of state and 32 bits a word, whose state begins with the seed and whose stream is the number); if the line makes the answerer busy,
/// the word before that of a PPS or an RR says if it is. Writes the line of each event as it happens, keeping none, and then how the call
/// ended. Returns what it leaves: the pages stored, and how the call ended for each station; both are safe, as the headline says. A
/// `WithBits` gets the octets of what each station sends too, also of what is lost, the answerer's DIS first. Errs with the first fault of
/// the images; with 26 if no call can have the width of a page; with `FAILED` (8) if the reader or the writer fails or there are 2^64
/// events; and with `NO_MEMORY` (9), after its line, if a growth was refused in an event. With any fault but 8 and 9 nothing is written.
pub fn drive_to_end<R: Read, T: CallWriter>(
    alloc: Global,
    input: &mut R,
    writer: &mut T,
    options: &CallOptions,
    line: &BadLine,
    number: u64,
) -> Result<Ending, ToolFault>
    ensures called { IfOk result (λ ending. IfSome (R.remaining input.old) (λ images.
        LeavesDriven options.now line.now number images (T.written writer.old) (T.written writer.new) ending)) }
    ensures refused { IfErr result (λ fault. IfSome (R.remaining input.old) (λ images. RefusesDriven options.now.fine images fault)) }
    ensures rows { IfOk result (λ ending. HaveRows ending.pages.items) }
    ensures unwritten { IfErr result (λ fault. IsOutside fault ⊎ (writer.new ≡ writer.old)) }
{
    let document = read_pbm(alloc, input, options.fine)?;
    let ending = drive_document(alloc, document, writer, options, line, number)?;
    Ok(ending)
}

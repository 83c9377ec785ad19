//! Runs a call of a document by a script, for the command `call`, over any readers and any writer.

ghost use Rattle.calls.specs.Calls.{HaveRows, IsAtLine, IsBadScript, LeavesCall, LeavesScript, RefusesCall, RunsCall, TellsCommand};
ghost use Rattle.calls.specs.Calls.{TellsEvent, TellsLine, TellsNext, TellsScript, answerer_caps};
ghost use Rattle.faults.specs.Faults.{IsOutside};
ghost use Rattle.calls.specs.Scripts.{IsBadLine};
ghost use Rattle.faults.specs.declared.fault.ToolFault.TheVariants.{No};
ghost use Rattle.calls.specs.declared.script.Command.TheVariants.{Events, Polite};
ghost use Rattle.line_sim.specs.Line.{World as WorldValue};
ghost use Rattle.line_sim.specs.Report.{number_of};
ghost use Rattle.line_sim.specs.Represents.{Shows};
ghost use Rattle.raster.specs.Pages.{IsDocument};
ghost use Rattle.stations.specs.CallerFields.{AreCallable};
ghost use Rattle.std.specs.Prelude.{◌≡◌, ◌+◌, ◌⊎◌, IfErr, IfOk, IfSome, OnOk};

use crate::call_writer::CallWriter;
use crate::counts::Counts;
use crate::options::CallOptions;
use crate::script::{Command, check_script, said_at, split_line};
use crate::sent::write_sent;
use faults::{FAILED, ToolFault};
use line_sim::laws::headline;
use line_sim::{Ending, Event, LiveCall, Next, WorldFault};
use raster::{Document, Page, read_pbm};
use signals::{Caps, Modems, PageWidth, Wish};
use std::alloc::Global;
use std::io::Read;

/// The fault of a document that no call can have.
pub fn fault_of(fault: WorldFault) -> ToolFault
    ensures { result ≡ No (number_of fault) }
{
    ToolFault::No(fault.number())
}

/// What the answerer of a call can do: with these modems, it takes pages of each width, fine lines too, in each code, with error
/// correction.
pub fn answerer_caps(modems: Modems) -> Caps
    ensures { result ≡ answerer_caps modems }
{
    Caps {
        receiver: true,
        modems,
        fine: true,
        widest: PageWidth::W2432,
        t6: true,
        ecm: true,
    }
}

/// The number of the next line. Errs with `FAILED` (8) if it would be 2^64.
pub fn after(number: u64) -> Result<u64, ToolFault>
    ensures next { IfOk result (λ next. next ≡ number + 1) }
    ensures fault { IfErr result IsOutside }
{
    number.checked_add(1).ok_or(FAILED)
}

/// Gives a call an event, writes the line of its entry with a number, which is then the next one, and the octets that it has put under way.
/// Returns true if a growth was refused in the event. Errs with `FAILED` (8) if the writer fails or no number is left, and with
/// `NO_MEMORY`.
fn tell<T: CallWriter>(
    live: &mut LiveCall,
    event: Event,
    number: &mut u64,
    writer: &mut T,
) -> Result<bool, ToolFault>
    ensures told { IfOk result (λ refused. (w : WorldValue) → Shows live.old w →
        TellsEvent event w live.new number.old number.new (T.written writer.old) (T.written writer.new) refused) }
    ensures fault { IfErr result IsOutside }
{
    let counts = Counts::of(live);
    let entry = live.event(event);
    // Lines aren't flushed one by one: the writer decides how many are seen at once.
    writer.entry(*number, &entry)?;
    write_sent(live, counts, writer)?;
    *number = after(*number)?;
    Ok(entry.refused)
}

/// Gives a call an event `count` times, whatever becomes of each, and writes the line of each.
fn repeat<T: CallWriter>(
    live: &mut LiveCall,
    event: Event,
    count: u64,
    number: &mut u64,
    writer: &mut T,
) -> Result<(), ToolFault>
    ensures told { OnOk result ((w : WorldValue) → Shows live.old w →
        TellsCommand (Events event count) w live.new number.old number.new (T.written writer.old) (T.written writer.new)) }
    ensures fault { IfErr result IsOutside }
{
    for _time in 0..count {
        let _refused = tell(live, event, number, writer)?;
    }
    Ok(())
}

/// Makes the next delivery, if there is one; between groups the answerer sends its DIS again, and that comes. Returns true if there was one
/// and no growth was refused in it; a refused event is the last one.
fn deliver_next<T: CallWriter>(
    live: &mut LiveCall,
    number: &mut u64,
    writer: &mut T,
) -> Result<bool, ToolFault>
    ensures told { IfOk result (λ whole. (w : WorldValue) → Shows live.old w →
        TellsNext w live.new number.old number.new (T.written writer.old) (T.written writer.new) whole) }
    ensures fault { IfErr result IsOutside }
{
    match live.next_delivery() {
        Next::Item(event) => {
            let item_refused = tell(live, event, number, writer)?;
            Ok(!item_refused)
        }
        Next::Group => {
            let group_refused = tell(live, Event::AnswererT2, number, writer)?;
            if group_refused {
                return Ok(false);
            }
            let dis_refused = tell(live, Event::DeliverToCaller, number, writer)?;
            Ok(!dis_refused)
        }
        Next::Nothing => Ok(false),
    }
}

/// Makes deliveries, at most `most`, up to the first that is refused, and writes the line of each event.
fn politely<T: CallWriter>(
    live: &mut LiveCall,
    most: u64,
    number: &mut u64,
    writer: &mut T,
) -> Result<(), ToolFault>
    ensures told { OnOk result ((w : WorldValue) → Shows live.old w →
        TellsCommand (Polite most) w live.new number.old number.new (T.written writer.old) (T.written writer.new)) }
    ensures fault { IfErr result IsOutside }
{
    for _delivery in 0..most {
        let whole = deliver_next(live, number, writer)?;
        if !whole {
            return Ok(());
        }
    }
    Ok(())
}

/// Gives a call a command, and writes the line of each event.
fn follow<T: CallWriter>(
    live: &mut LiveCall,
    command: Command,
    number: &mut u64,
    writer: &mut T,
) -> Result<(), ToolFault>
    ensures told { OnOk result ((w : WorldValue) → Shows live.old w →
        TellsCommand command w live.new number.old number.new (T.written writer.old) (T.written writer.new)) }
    ensures fault { IfErr result IsOutside }
{
    match command {
        Command::Events { event, count } => repeat(live, event, count, number, writer),
        Command::Polite(most) => politely(live, most, number, writer),
    }
}

/// Gives a call what a script's line of this number says, and writes the line of each event. Errs with `AtLine` (30) if it isn't a line of
/// a script.
fn follow_line<T: CallWriter>(
    live: &mut LiveCall,
    line: &[u8],
    at: u64,
    number: &mut u64,
    writer: &mut T,
) -> Result<(), ToolFault>
    ensures told { OnOk result (TellsLine line.now live.old live.new number.old number.new (T.written writer.old) (T.written writer.new)) }
    ensures fault { IfErr result (λ fault. IsOutside fault ⊎ IsBadLine line.now at fault) }
{
    let said = said_at(line, at)?;
    match said {
        Some(command) => follow(live, command, number, writer),
        None => Ok(()),
    }
}

/// Gives a call the commands of a script, each as its line is read, and writes the line of each event. Errs with `AtLine` (30) at the first
/// line that isn't one of a script, after the lines before it.
fn follow_script<T: CallWriter>(
    live: &mut LiveCall,
    script: &[u8],
    number: &mut u64,
    writer: &mut T,
) -> Result<(), ToolFault>
    ensures told { OnOk result (TellsScript script.now live.old live.new number.old number.new
        (T.written writer.old) (T.written writer.new)) }
    ensures fault { IfErr result (λ fault. IsOutside fault ⊎ IsBadScript script.now fault) }
{
    let mut rest = script;
    let mut at: u64 = 1;
    while let Some((line, after)) = split_line(rest) {
        follow_line(live, line, at, number, writer)?;
        rest = after;
        at += 1;
    }
    follow_line(live, rest, at, number, writer)?;
    Ok(())
}

/// Runs a call of a document by a script that `check_script` takes, as `call_to_end` does. Errs with 26 if no call can have the width of a
/// page (nothing is written then); with `FAILED` (8) if the writer fails or there are 2^64 events; with `NO_MEMORY` (9); and with `AtLine`
/// (30) at the first line that isn't one of a script, after the lines of the events before it.
pub fn call_of_document<T: CallWriter>(
    alloc: Global,
    script: &[u8],
    document: Document,
    writer: &mut T,
    options: &CallOptions,
) -> Result<Ending, ToolFault>
    ensures told { IfOk result (LeavesScript options.now document script.now (T.written writer.old) (T.written writer.new)) }
    ensures rows { IfOk result (λ ending. HaveRows ending.pages.items) }
    ensures refused { IfErr result (λ fault.
        IsOutside fault ⊎ (IsBadScript script.now fault ⊎ (¬ AreCallable document × (fault ≡ No 26)))) }
    ensures unwritten { IfErr result (λ fault. IsOutside fault ⊎ (IsBadScript script.now fault ⊎ (writer.new ≡ writer.old))) }
{
    headline();
    let _pages = document.pages(); // for the proof: what holds of every document
    let wish = Wish {
        modems: options.modems,
        coding: options.coding,
        small: options.small,
    };
    let caps = answerer_caps(options.modems);
    let mut live = match LiveCall::new(alloc, document, wish, caps) {
        Ok(live) => live,
        Err(fault) => return Err(fault_of(fault)),
    };
    write_sent(&live, Counts::none(), writer)?;
    let mut number = 1;
    follow_script(&mut live, script, &mut number, writer)?;
    let ending = live.into_ending();
    writer.ending(&ending)?;
    Ok(ending)
}

/// Does what `call_to_end` does, with a script that is in memory.
pub fn call_of_text<R: Read, T: CallWriter>(
    alloc: Global,
    script: &[u8],
    input: &mut R,
    writer: &mut T,
    options: &CallOptions,
) -> Result<Ending, ToolFault>
    ensures called { IfOk result (λ ending. IfSome (R.remaining input.old) (λ images.
        LeavesCall options.now script.now images (T.written writer.old) (T.written writer.new) ending)) }
    ensures refused { IfErr result (λ fault. IfSome (R.remaining input.old) (λ images.
        RefusesCall options.now.fine script.now images fault)) }
    ensures rows { IfOk result (λ ending. HaveRows ending.pages.items) }
    ensures early { IfErr result (λ fault. IsAtLine fault → (input.new ≡ input.old) × (writer.new ≡ writer.old)) }
    ensures unwritten { IfErr result (λ fault. IsOutside fault ⊎ (writer.new ≡ writer.old)) }
{
    check_script(script)?;
    let document = read_pbm(alloc, input, options.fine)?;
    let ending = call_of_document(alloc, script, document, writer, options)?;
    Ok(ending)
}

/// Reads a script and then a document's images, and runs the call that the script says between a caller that has the document and an
/// answerer that can take it. Writes the line of each event as it happens, keeping none, and then how the call ended. Returns what it
/// leaves: the pages stored, and how the call ended for each station; both are safe, as the headline says. A `WithBits` gets the octets of
/// what each station sends too, the answerer's DIS first. Errs with `AtLine` (30) at the script's first bad line, before an image is read;
/// with the first fault of the images; with 26 if no call can have the width of a page; with `FAILED` (8) if a reader or the writer fails
/// or there are 2^64 events; and with `NO_MEMORY` (9). With any fault but 8 and 9 nothing is written; if the writer fails, the call ends
/// after the lines that it took. A growth that is refused while the call runs is no fault: its line shows it.
pub fn call_to_end<S: Read, R: Read, T: CallWriter>(
    alloc: Global,
    script: &mut S,
    input: &mut R,
    writer: &mut T,
    options: &CallOptions,
) -> Result<Ending, ToolFault>
    ensures called { IfOk result (λ ending. IfSome (S.remaining script.old) (λ said. IfSome (R.remaining input.old) (λ images.
        LeavesCall options.now said images (T.written writer.old) (T.written writer.new) ending))) }
    ensures refused { IfErr result (λ fault. IfSome (S.remaining script.old) (λ said. IfSome (R.remaining input.old) (λ images.
        RefusesCall options.now.fine said images fault))) }
    ensures rows { IfOk result (λ ending. HaveRows ending.pages.items) }
    ensures early { IfErr result (λ fault. IsAtLine fault → (input.new ≡ input.old) × (writer.new ≡ writer.old)) }
    ensures unwritten { IfErr result (λ fault. IsOutside fault ⊎ (writer.new ≡ writer.old)) }
{
    let mut said = Vec::new(alloc);
    script.read_to_end(&mut said)?;
    let ending = call_of_text(alloc, said.as_slice(), input, writer, options)?;
    Ok(ending)
}

/// Does what `call_to_end` does, and returns only the pages stored.
pub fn call_engine<S: Read, R: Read, T: CallWriter>(
    alloc: Global,
    script: &mut S,
    input: &mut R,
    writer: &mut T,
    options: &CallOptions,
) -> Result<Vec<Page>, ToolFault>
    ensures called { IfOk result (λ pages. IfSome (S.remaining script.old) (λ said. IfSome (R.remaining input.old) (λ images.
        RunsCall options.now said images (T.written writer.old) (T.written writer.new) pages.items))) }
    ensures refused { IfErr result (λ fault. IfSome (S.remaining script.old) (λ said. IfSome (R.remaining input.old) (λ images.
        RefusesCall options.now.fine said images fault))) }
    ensures rows { IfOk result (λ pages. HaveRows pages.items) }
    ensures early { IfErr result (λ fault. IsAtLine fault → (input.new ≡ input.old) × (writer.new ≡ writer.old)) }
    ensures unwritten { IfErr result (λ fault. IsOutside fault ⊎ (writer.new ≡ writer.old)) }
{
    match call_to_end(alloc, script, input, writer, options) {
        Ok(ending) => Ok(ending.pages),
        Err(fault) => Err(fault),
    }
}

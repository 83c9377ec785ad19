//! A caller's step, a terminal, an answerer by lines, a call of two stations over one line, and an answerer over octets; a call by a
//! script, its picture, and many calls over a bad line; a command of the program.

ghost use Rattle.joined_terminals.specs.Calls.{TakesOut};
ghost use Rattle.judged_calls.specs.SaidCalls.{RuleIsKeptOfPages};
ghost use Rattle.line_sim.specs.Report.{Keeps};
ghost use Rattle.referee.specs.declared.rule.Rule.TheVariants.{NotCome};
ghost use Rattle.std.specs.Prelude.{IfOk};

use call_pictures::{Ladder, WithDiagram, write_picture};
use call_tallies::drive_many;
use calls::{BadLine, CallOptions, call_engine};
use command_files::context::{Context, Messages};
use command_files::files::printed::say;
use command_files::streams::Streams;
use command_files::{Completeness, Runs};
use commands::version::VersionCommand;
use conversations::{Conversation, PageStore, TakeFault, TimedLine, answer_line};
use faults::ToolFault;
use joined_terminals::happenings::pages_are_taken;
use line_sim::{Answered, Event, Feed, Report, World, WorldFault, answer_stream};
use page_code::Coding;
use raster::{Document, Page};
use signals::{Caps, Modems, PageWidth, Signal, Wish};
use station_commands::AnswerCommand;
use stations::{Caller, CallerIn, Item, LimitedAnswerer};
use std::alloc::{AllocError, Global};
use terminals::{AnswererTerminal, SentBurst, Terminal};

/// What the answerers of these programs can do: everything that this library has.
const CAPS: Caps = Caps {
    receiver: true,
    modems: Modems::V17,
    fine: true,
    widest: PageWidth::W2432,
    t6: true,
    ecm: true,
};

/// What the callers of these programs wish.
const WISH: Wish = Wish {
    modems: Modems::V17,
    coding: Coding::T6,
    small: false,
};

/// A caller hears a signal: the number of frames that it then transmits, and of octets in the training check after them.
pub fn hears(caller: &mut Caller, signal: Signal<'_>) -> Result<(u64, u32), AllocError> {
    let turn = caller.step(CallerIn::Heard(signal))?;
    let mut frames = 0u64;
    let mut check = 0;
    for item in caller.frames(&turn) {
        match item {
            Item::Frame { .. } => frames = frames.saturating_add(1),
            Item::Training(octets) => check = octets,
        }
    }
    Ok((frames, check))
}

/// An answerer's terminal hears octets of the line: what it then has to send on its next carrier, if anything. Octets and frames for
/// which memory is refused are lost, as on a line.
pub fn hears_octets(
    terminal: &mut AnswererTerminal,
    octets: &[u8],
) -> Result<Option<SentBurst>, AllocError> {
    let _heard = terminal.hear(octets);
    terminal.next_burst()
}

/// Takes the pages out of the answerer of two joined terminals: they come after those that were taken before.
pub fn take_out(answerer: &mut Terminal<LimitedAnswerer>) -> Vec<Page>
    ensures { TakesOut answerer.old.speaking answerer.new.speaking result.items }
{
    pages_are_taken(answerer)
}

/// A call that sends a document over a line whose first DIS is lost; the caller then hears nothing until its wait is over.
pub fn send(alloc: Global, document: Document, most: u64) -> Result<Report, WorldFault>
    ensures { IfOk result (Keeps document) }
{
    let mut world = World::new(alloc, document, WISH, CAPS)?;
    world.event(Event::LoseToCaller)?;
    world.event(Event::AnswererT2)?;
    world.polite(most)?;
    Ok(world.report())
}

/// What an answerer makes of octets from a line: a DCS, a good training check, and the frames of a page.
pub fn answer(
    alloc: Global,
    dcs: &[u8],
    check: &[u8],
    page: &[u8],
) -> Result<Answered, AllocError> {
    let feeds = [Feed::Octets(dcs), Feed::Training(check), Feed::Octets(page)];
    answer_stream(alloc, CAPS, &feeds)
}

/// An answerer by lines takes the next one: what it then has to send on its next carrier, if anything. Each page that came is stored
/// before that; where one can't be stored the answer is DCN.
pub fn takes_line<P: PageStore>(
    conversation: &mut Conversation<LimitedAnswerer>,
    line: &TimedLine,
    store: &mut P,
) -> Result<Option<SentBurst>, TakeFault> {
    let _refused = answer_line(conversation, line, store)?;
    Ok(conversation.next_burst()?)
}

/// What `faxtool call` prints for a script and an image that are in memory.
pub fn call_text(alloc: Global, script: &[u8], image: &[u8]) -> Result<Vec<u8>, ToolFault> {
    let options = CallOptions {
        coding: WISH.coding,
        small: WISH.small,
        modems: WISH.modems,
        fine: false,
    };
    let mut commands = script;
    let mut reader = image;
    let mut text = Vec::new(alloc);
    call_engine(alloc, &mut commands, &mut reader, &mut text, &options)?;
    Ok(text)
}

/// The picture that `faxtool call --diagram` draws, for a script and an image that are in memory.
pub fn call_picture(
    alloc: Global,
    script: &[u8],
    image: &[u8],
    options: &CallOptions,
) -> Result<Vec<u8>, ToolFault> {
    let mut commands = script;
    let mut reader = image;
    let text: Vec<u8> = Vec::new(alloc);
    let mut drawn = WithDiagram {
        writer: text,
        ladder: Some(Ladder::new(alloc)),
    };
    call_engine(alloc, &mut commands, &mut reader, &mut drawn, options)?;
    let mut picture = Vec::new(alloc);
    let WithDiagram { writer: _, ladder } = drawn;
    if let Some(ladder) = ladder {
        write_picture(ladder, &mut picture)?;
    }
    Ok(picture)
}

/// What `faxtool call --lose RATE --times N` prints for an image that is in memory: the line of each call, and then the table.
pub fn call_table(
    alloc: Global,
    image: &[u8],
    options: &CallOptions,
    lose: u64,
    times: u64,
) -> Result<Vec<u8>, ToolFault> {
    let line = BadLine {
        lose,
        spoil: 0,
        busy: 0,
        seed: 0,
        calls: 3,
    };
    let mut text = Vec::new(alloc);
    drive_many(alloc, image, &mut text, options, &line, times)?;
    Ok(text)
}

/// A line on standard output, as commands print it.
pub fn print_words(rt: &HostRuntime, words: &str) -> Result<(), ToolFault> {
    let messages = Messages {
        json: false,
        explain: false,
    };
    let streams = Streams::new(rt);
    let mut context = Context::new(&streams, messages);
    say(&mut context, words.as_bytes())
}

/// What `faxtool station` does as an answerer: it answers the lines of standard input until the call is over.
pub fn answer_call(
    context: &mut Context<'_>,
    command: &AnswerCommand,
) -> Result<Completeness, ToolFault> {
    command.run(context)
}

/// What `faxtool version` does.
pub fn print_version(context: &mut Context<'_>) -> Result<Completeness, ToolFault> {
    VersionCommand { proof: false }.run(context)
}

/// Returns nothing: no answerer here says by a PPR that a frame has come which can't have, whatever the line loses.
pub fn told_frames_have_come()
    ensures { RuleIsKeptOfPages NotCome }
{
    judged_calls::laws::frames_come();
}

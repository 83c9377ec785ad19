//! One end of a call, by lines of text on standard input and output.

pub(crate) mod confirmations;
pub(crate) mod end_records;
pub(crate) mod ending;
pub(crate) mod folder;
pub mod given;
pub(crate) mod lateness;
pub(crate) mod no_line;
pub(crate) mod notes;
pub(crate) mod records;
pub(crate) mod trace;

ghost use Rattle.faults.specs.Faults.{IsOutside};
ghost use Rattle.station_commands.specs.Stations.{HaltsBy, IsHalt, IsNoDocument, SendsFrom, as_outside, end_word, ends_normal, given_wait, page_limit};
ghost use Rattle.station_commands.specs.Stations.{lost_word, millis_of, stopped_word, table_word};
ghost use Rattle.station_commands.specs.Talks.{AnswerTalks, DialTalks, NewAnswering, NewDialling, TalksSo, halt_of, says_of};
ghost use Rattle.station_commands.specs.Talks.{wish_of};
ghost use Rattle.station_commands.specs.Following.{NotesFields};
ghost use Rattle.station_commands.specs.declared.station.Halted.{Halted as HaltedValue};
ghost use Rattle.conversations.specs.Conversations.{behaviour};
ghost use Rattle.conversations.specs.Talking.{keeping};
ghost use Rattle.stations.specs.CallerFields.{NewCaller};
ghost use Rattle.std.specs.Prelude.{◌≡◌, ◌-◌, IfErr, IfOk, IfSome, List, Ok, Result, unwrap_or};
ghost use Rattle.raster.specs.Pages.{PagePixels};
ghost use Rattle.stations.specs.declared.waiting.Wait.{Wait as AnyWait};
ghost use Rattle.terminals.specs.Clocks.{duration};
ghost use Rattle.terminals.specs.Timing.{wait_millis};

use crate::station::confirmations::Confirmed;
use crate::station::ending::{end_station, is_given_up};
use crate::station::folder::{CallLimits, Folder, StoppedBy};
use crate::station::given::{GivenLimits, GivenWaits};
use crate::station::lateness::Lateness;
use crate::station::no_line::{LastLine, NoLine, no_line};
use crate::station::notes::Notes;
use crate::station::trace::Trace;
use calls::{CallOptions, end_word};
use command_files::command::{Completeness, NO_NAMES, Names, Runs};
use command_files::context::{Cause, Context, Part, first_not_callable};
use command_files::files::STANDARD;
use command_files::files::apart::CommandFiles;
use command_files::files::input::read_document;
use command_files::files::leftovers::remove_leftovers;
use command_files::files::output::Rights;
use command_files::files::printed::{self, Printed};
use command_files::files::progress::Watch;
use command_files::files::trial::check_stores;
use command_files::notices::notice;
use conversations::{Conversation, ConverseFault, Ending, Keeper, Refusal, Says, converse};
use faults::{FAILED, NO_MEMORY, ToolFault};
use page_files::PageForm;
use raster::Document;
use signals::{Caps, Reason, Wish};
use stations::{CallEnd, Caller, CallerFault, End, LimitedAnswerer, Limits, StoppableCaller, Turn};
use std::alloc::{AllocError, Global};
use std::io;
use std::io::{BufRead, BufReader, BufWriter, ErrorKind, Write};
use terminals::{Durations, Figures, Stoppable, Terminal};

/// How many octets of standard input are read at a time.
const READ_AT_ONCE: usize = 65536;

/// Why the lines of a station went no further.
#[derive(Clone, Copy, Drop)]
pub(crate) enum Halted {
    /// The line with this number, from 1, isn't answered, for this reason.
    Line(u64, NoLine),
    /// A file, standard input or output failed, or memory was refused.
    Fault(ToolFault),
}

impl From<io::Error> for Halted {
    ghost use Rattle.station_commands.specs.Stations.{IsFailure, IsHalt};

    ghost from_gives = { λ _ halted. IsFailure halted × IsHalt halted };

    fn from(error: io::Error) -> Halted {
        Halted::Fault(ToolFault::from(error))
    }
}

impl From<AllocError> for Halted {
    ghost use Rattle.faults.specs.declared.fault.ToolFault.TheVariants.{No};
    ghost use Rattle.station_commands.specs.Stations.{IsHalt};
    ghost use Rattle.station_commands.specs.declared.station.Halted.TheVariants.{Fault};
    ghost use Rattle.std.specs.Prelude.{◌≡◌};

    ghost from_gives = { λ _ halted. (halted ≡ Fault (No 9)) × IsHalt halted };

    fn from(error: AllocError) -> Halted {
        Halted::Fault(ToolFault::from(error))
    }
}

/// What came of the lines of a station.
#[derive(Drop)]
pub(crate) struct Talked {
    /// Why its call ended, if it has.
    pub(crate) end: Option<CallEnd>,
    /// Why the call is refused, if it is.
    pub(crate) refused: Option<Refusal>,
    /// Why the program stopped it, if it did.
    pub(crate) stopped: Option<StoppedBy>,
    /// Why a page's file couldn't be written, if that is so.
    pub(crate) failed: Option<ErrorKind>,
    /// What the answerer lacks, if it wasn't compatible.
    pub(crate) missing: Option<Reason>,
    /// The pages that a caller counts as confirmed, or that an answerer has on disk.
    pub(crate) pages: u64,
    /// Whether all pages are confirmed.
    pub(crate) whole: bool,
    /// Whether the last block that an answerer was asked about isn't confirmed.
    pub(crate) unconfirmed: bool,
    /// What it came to.
    pub(crate) figures: Figures,
    /// The time of its last line, in whole seconds.
    pub(crate) seconds: u64,
    /// Why its lines went no further, if that is so.
    pub(crate) halted: Option<Halted>,
}

/// Whether a call ended as it should by a station's table.
fn ends_normal(end: End) -> bool
    ensures { result ≡ ends_normal end }
{
    match end {
        End::Normal => true,
        _ => false,
    }
}

/// The word of how a call ended by a station's table. A caller left that ended the call before its last page was confirmed.
fn table_word(end: End, unconfirmed: bool) -> &'static str
    ensures { result.now ≡ table_word end unconfirmed }
{
    if ends_normal(end) && unconfirmed {
        return end_word(Some(End::PeerLeft));
    }
    end_word(Some(end))
}

/// The word of why a call ended, or that it goes on; a call that was stopped may be refused for a reason, and the program may have given up
/// one whose line is lost.
pub(crate) fn word_of(
    end: Option<CallEnd>,
    unconfirmed: bool,
    refused: Option<Refusal>,
    by: Option<StoppedBy>,
) -> &'static str
    ensures { result.now ≡ end_word end unconfirmed refused by }
{
    match end {
        Some(CallEnd::By(end)) => table_word(end, unconfirmed),
        Some(CallEnd::Stopped) => stopped_word(refused),
        Some(CallEnd::LineLost) => lost_word(is_given_up(by)),
        None => end_word(None),
    }
}

/// The word of why the line of a call is gone.
fn lost_word(given_up: bool) -> &'static str
    ensures { result.now ≡ lost_word given_up }
{
    if given_up { "never-quiet" } else { "line-lost" }
}

/// The word of why a call was stopped.
fn stopped_word(refused: Option<Refusal>) -> &'static str
    ensures { result.now ≡ stopped_word refused }
{
    match refused {
        Some(_why) => "refused",
        None => "stopped",
    }
}

/// How long the waits of a station run.
fn durations(given: GivenWaits) -> Durations
    ensures { (wait : AnyWait) → duration result wait ≡ unwrap_or (given_wait given wait) (wait_millis wait) }
{
    let usual = Durations::of_t30();
    Durations {
        t1: given.t1.unwrap_or(usual.t1),
        t2: given.t2.unwrap_or(usual.t2),
        t4: given.t4.unwrap_or(usual.t4),
        t5: given.t5.unwrap_or(usual.t5),
    }
}

/// What a station says beside its bursts.
fn says(given: GivenWaits) -> Says
    ensures { result ≡ says_of given }
{
    Says {
        hears: given.hears,
        waits: given.hears,
        frames: given.frames,
    }
}

/// Seconds in milliseconds, if they are given.
fn millis_of(seconds: Option<u32>) -> Option<u64>
    ensures { result ≡ millis_of seconds }
{
    match seconds {
        Some(seconds) => Some(1000 * u64::from(seconds)),
        None => None,
    }
}

/// The fault of a keeper: `NoMemory` (9), or `Io` (8).
fn outside(fault: ToolFault) -> ToolFault
    ensures is { result ≡ as_outside fault }
    ensures outside { IsOutside result }
{
    match fault {
        ToolFault::No(9) => NO_MEMORY,
        _ => FAILED,
    }
}

/// Why the lines of a reader go no further. Why they can't be read is noted.
fn halted_by<R: BufRead + Drop>(
    context: &mut Context<'_>,
    fault: ConverseFault,
    reader: &LastLine<R>,
) -> Halted
    ensures by { HaltsBy fault result }
    ensures halt { IsHalt result }
{
    match fault {
        ConverseFault::Line(_) => {
            let why = no_line(context.alloc(), reader.line());
            Halted::Line(reader.number(), why)
        }
        ConverseFault::NoMemory | ConverseFault::Writer(ErrorKind::OutOfMemory) => {
            Halted::Fault(NO_MEMORY)
        }
        ConverseFault::Reader(kind) => {
            context.blame(Part::Input, kind);
            Halted::Fault(FAILED)
        }
        ConverseFault::Writer(_) | ConverseFault::TooManyLines => Halted::Fault(FAILED),
    }
}

/// Takes the lines of standard input until the call is over, and writes the answer to each. If the input ends before, the line is lost. A line
/// for which memory is refused is lost too, and the call goes on.
fn talk<S: Stoppable, K: Keeper<S, Refused = ToolFault>>(
    context: &mut Context<'_>,
    conversation: &mut Conversation<S>,
    keeper: &mut K,
    writer: &mut BufWriter<Printed<'_>>,
    notes: &mut Notes<'_>,
) -> Result<(), Halted>
    ensures halted { IfErr result IsHalt }
    ensures talks { TalksSo
        (behaviour S.sends S.steps S.lends S.shows S.cut_off S.stop_says)
        (keeping K.keeps K.takes K.tells) S.lends
        conversation.old keeper.old notes.old conversation.new keeper.new notes.new result }
{
    let alloc = context.alloc();
    let input = BufReader::with_capacity(alloc, READ_AT_ONCE, context.rt().reader())?;
    let mut reader = LastLine::new(alloc, input);
    for _lost in 0..u64::MAX {
        match converse(alloc, &mut reader, conversation, keeper, writer, notes) {
            Ok(Ending::Over) => return Ok(()),
            Ok(Ending::Lost) => return Ok(()),
            Ok(Ending::Unkept(fault)) => return Err(Halted::Fault(outside(fault))),
            Err(ConverseFault::NoMemory) => notes.lose_line(conversation.clock().now),
            Err(fault) => return Err(halted_by(context, fault, &reader)),
        }
        if !reader.skip_line()? {
            return Err(Halted::Fault(NO_MEMORY));
        }
        writer.write_all(b"wait\n")?;
        writer.flush()?;
    }
    Err(Halted::Fault(NO_MEMORY))
}

/// Talks, and notes why standard output failed. Returns why the lines went no further, if that is so. Errors: `NoMemory` (9).
fn talk_out<S: Stoppable, K: Keeper<S, Refused = ToolFault>>(
    context: &mut Context<'_>,
    conversation: &mut Conversation<S>,
    keeper: &mut K,
    notes: &mut Notes<'_>,
) -> Result<Option<Halted>, ToolFault>
    ensures halted { IfOk result (λ halted. IfSome halted IsHalt) }
    ensures talks { IfOk result (λ halted. (ended : Result (Unit {0}) HaltedValue) × (last : NotesFields)
        × TalksSo
        (behaviour S.sends S.steps S.lends S.shows S.cut_off S.stop_says)
        (keeping K.keeps K.takes K.tells) S.lends
        conversation.old keeper.old notes.old conversation.new keeper.new last ended
        × (halted ≡ halt_of ended) × (notes.new.noted ≡ last.noted)) }
    ensures fault { IfErr result IsOutside }
{
    let mut writer = printed::print(context)?;
    let talked = talk(context, conversation, keeper, &mut writer, notes);
    notes.end(conversation.clock().now);
    if let Some(kind) = writer.get_ref().failed() {
        context.blame(Part::Printed, kind);
    }
    Ok(talked.err())
}

/// How many pages wait in memory at most: one, if it is handed over, else the limit, at least one.
fn page_limit(holds: bool, limit: u32) -> u64
    ensures { result ≡ page_limit holds limit }
{
    if holds { 1 } else { u64::from(limit).max(1) }
}

/// Runs an answerer by lines of text.
#[derive(Debug, PartialEq, Eq, Drop)]
pub struct AnswerCommand {
    /// What it can do.
    pub caps: Caps,
    /// How many pages wait in memory at most, 1 to 1,000.
    pub limit: u32,
    /// Whether its pages are handed over, and confirmed once a line says that they are kept.
    pub holds: bool,
    /// What its call may have at most, if given.
    pub limits: GivenLimits,
    /// Whether its call is stopped at the second DCS that isn't allowed.
    pub refuses: bool,
    /// How long its waits run.
    pub waits: GivenWaits,
    /// The name of the folder that the stored pages go to.
    pub out: String,
    /// Who may read and write their files.
    pub rights: Rights,
    /// The name of the file that the trace goes to, if one is given.
    pub trace: Option<String>,
    /// Whether the trace has a line for each frame of a block.
    pub frames: bool,
}

impl Runs for AnswerCommand {
    ghost use Rattle.std.specs.Prelude.{None};
    ghost use Rattle.station_commands.specs.Talks.{AnswerGives};
    ghost use Rattle.station_commands.specs.Files.{answer_files};

    ghost width = { λ command. None };

    ghost its_files = { answer_files };

    ghost gives = { λ command result. AnswerGives command result };

    fn names(&self) -> Names<'_> {
        Names {
            output: Some(self.out.as_str()),
            trace: self.trace.as_deref(),
            ..NO_NAMES
        }
    }

    fn add_files(&self, files: &mut CommandFiles<'_>) -> Result<(), AllocError> {
        files.reads("standard input", STANDARD)?;
        files.may_write("--trace", self.trace.as_deref())?;
        files.prints()
    }

    fn page(&self) -> Option<PageForm> {
        None
    }

    fn run(&self, context: &mut Context<'_>) -> Result<Completeness, ToolFault> {
        // before a line is read
        self.make_ready(context)?;
        let talked = self.talk(context)?;
        end_station(context, &talked, false)
    }
}

impl AnswerCommand {
    /// Removes what ended programs have left in its folder, says so, and checks that pages can be stored there. Errors: `Io` (8) if they can't,
    /// and that is noted; `NoMemory` (9).
    fn make_ready(&self, context: &mut Context<'_>) -> Result<(), ToolFault>
        ensures { IfErr result IsOutside }
    {
        let folder = self.out.as_str();
        let left = remove_leftovers(context.rt(), folder);
        if left > 0 {
            let words = format!(in context.alloc();
                "part files of ended programs were removed: {left}"
            )?;
            let _told = notice(context, words.as_str());
        }
        check_stores(context, folder, self.rights, Part::Output)
    }

    /// Its conversation, which hasn't begun, and whether it is stopped at the second DCS that isn't allowed.
    fn conversation(&self, alloc: Global) -> Conversation<LimitedAnswerer>
        ensures { NewAnswering self.now result }
    {
        let caps = Caps {
            receiver: true,
            ecm: true,
            ..self.caps
        };
        let limits = Limits {
            pages: page_limit(self.holds, self.limit),
            octets: u64::MAX,
        };
        let (station, first) = LimitedAnswerer::new(alloc, caps, limits);
        let terminal = Terminal::new(alloc, station, first);
        let conversation = Conversation::new_answerer(terminal, durations(self.waits));
        conversation
            .saying(says(self.waits))
            .watching(caps, self.refuses)
            .lasting(millis_of(self.waits.seconds))
    }

    /// Takes the lines. Errors: `Io` (8) if a file can't be opened, and that is noted; `NoMemory` (9).
    fn talk(&self, context: &mut Context<'_>) -> Result<Talked, ToolFault>
        ensures halted { IfOk result (λ talked. IfSome talked.halted IsHalt) }
        ensures talks { IfOk result (AnswerTalks self.now) }
        ensures fault { IfErr result IsOutside }
    {
        let mut conversation = self.conversation(context.alloc());
        let limits = CallLimits::of(self.limits);
        let (name, records) = (self.out.as_str(), context.is_json());
        let folder = Folder::new(context.streams(), name, self.rights, records, limits);
        let mut folder = folder.holding(self.holds);
        let trace = Trace::open(context, self.trace.as_deref(), self.rights, self.frames)?;
        let lateness = Lateness::new(context.rt(), self.waits.late);
        let mut notes = Notes::new(context.streams(), records, trace, lateness);
        let halted = talk_out(context, &mut conversation, &mut folder, &mut notes)?;
        if let Some(kind) = folder.failed() {
            context.blame(Part::Output, kind);
        }
        let progress = conversation.answerer().progress();
        let noted = notes.noted();
        Ok(Talked {
            end: conversation.end(),
            refused: conversation.refusal(),
            stopped: folder.stopped(),
            failed: folder.failed(),
            missing: None,
            pages: folder.stored(),
            whole: noted.is_whole(progress.accepted, folder.has_gap()),
            unconfirmed: noted.is_unconfirmed(),
            figures: noted.figures(),
            seconds: conversation.clock().now / 1000,
            halted,
        })
    }
}

/// Runs a caller by lines of text.
#[derive(Debug, PartialEq, Eq, Drop)]
pub struct DialCommand {
    /// What it is run with.
    pub options: CallOptions,
    /// The number of the first page that it sends, from 1.
    pub from: u32,
    /// How long its waits run.
    pub waits: GivenWaits,
    /// The name of the file that the trace goes to, if one is given.
    pub trace: Option<String>,
    /// Whether the trace has a line for each frame of a block.
    pub frames: bool,
    /// The name of the document's file.
    pub input: String,
}

impl Runs for DialCommand {
    ghost use Rattle.std.specs.Prelude.{None};
    ghost use Rattle.station_commands.specs.Talks.{DialGives};
    ghost use Rattle.station_commands.specs.Files.{dial_files};

    ghost width = { λ command. None };

    ghost its_files = { dial_files };

    ghost gives = { λ command result. DialGives command result };

    fn names(&self) -> Names<'_> {
        Names {
            input: self.input.as_str(),
            trace: self.trace.as_deref(),
            ..NO_NAMES
        }
    }

    fn add_files(&self, files: &mut CommandFiles<'_>) -> Result<(), AllocError> {
        files.reads("standard input", STANDARD)?;
        files.reads("IN", self.input.as_str())?;
        files.may_write("--trace", self.trace.as_deref())?;
        files.prints()
    }

    fn page(&self) -> Option<PageForm> {
        None
    }

    fn run(&self, context: &mut Context<'_>) -> Result<Completeness, ToolFault> {
        let caller = self.caller(context)?;
        let talked = self.talk(context, caller)?;
        end_station(context, &talked, true)
    }
}

impl DialCommand {
    /// Returns the pages that are sent: those of its file from a number on. Errors: the first fault of the file, `FewerPages` (28), `Io` (8)
    /// if the file can't be read, and that is noted; `NoMemory` (9).
    fn document(&self, context: &mut Context<'_>) -> Result<Document, ToolFault>
        ensures { SendsFrom self.now.options.fine self.now.from result }
    {
        let fine = self.options.fine;
        let document = read_document(context, self.input.as_str(), Watch::Silent, fine)?;
        let count = document.pages().len();
        let before = self.pages_before();
        if before < count {
            return Ok(document.drop_first(before));
        }
        let from = self.from;
        context.note_cause(Cause::FewerPages { count, from });
        Err(ToolFault::No(28))
    }

    /// How many pages of its file come before those that it sends.
    fn pages_before(&self) -> usize
        ensures { result ≡ self.now.from - 1 }
    {
        self.from.saturating_sub(1) as usize
    }

    /// Returns the caller, with the pages that are sent. Errors: those of `document`, and `WidthNotCallable` (26).
    fn caller(&self, context: &mut Context<'_>) -> Result<Caller, ToolFault>
        ensures caller { IfOk result (λ caller. (document : List PagePixels)
            × SendsFrom self.now.options.fine self.now.from (Ok document) × NewCaller document (wish_of self.now.options) (Ok caller)) }
        ensures fault { IfErr result (IsNoDocument self.now.options.fine self.now.from) }
    {
        let document = self.document(context)?;
        if let Some(cause) = first_not_callable(document.pages(), self.pages_before()) {
            context.note_cause(cause);
        }
        match Caller::new(context.alloc(), document, self.wish()) {
            Ok(caller) => Ok(caller),
            Err(CallerFault::WidthNotCallable) => Err(ToolFault::No(26)),
        }
    }

    /// How it sends, if the answerer takes that.
    fn wish(&self) -> Wish
        ensures { result ≡ wish_of self.now.options }
    {
        Wish {
            modems: self.options.modems,
            coding: self.options.coding,
            small: self.options.small,
        }
    }

    /// Its conversation, at time 0.
    fn conversation(&self, alloc: Global, caller: Caller) -> Conversation<StoppableCaller>
        ensures { (document : List PagePixels) → NewCaller document (wish_of self.now.options) (Ok caller)
            → NewDialling self.now document result }
    {
        let station = StoppableCaller::new(caller);
        let terminal = Terminal::new(alloc, station, Turn::Silent);
        Conversation::new_caller(terminal, durations(self.waits))
            .saying(says(self.waits))
            .lasting(millis_of(self.waits.seconds))
    }

    /// Takes the lines. Errors: `Io` (8) if the trace can't be opened, and that is noted; `NoMemory` (9).
    fn talk(&self, context: &mut Context<'_>, caller: Caller) -> Result<Talked, ToolFault>
        ensures halted { IfOk result (λ talked. IfSome talked.halted IsHalt) }
        ensures talks { (document : List PagePixels) → SendsFrom self.now.options.fine self.now.from (Ok document)
            → NewCaller document (wish_of self.now.options) (Ok caller) → IfOk result (DialTalks self.now) }
        ensures fault { IfErr result IsOutside }
    {
        let mut conversation = self.conversation(context.alloc(), caller);
        let (streams, records) = (context.streams(), context.is_json());
        let trace = Trace::open(context, self.trace.as_deref(), Rights::Umask, self.frames)?;
        let mut notes = Notes::new(
            streams,
            records,
            trace,
            Lateness::new(streams.rt(), self.waits.late),
        );
        let mut confirmed = Confirmed::new(streams, records);
        let halted = talk_out(context, &mut conversation, &mut confirmed, &mut notes)?;
        let progress = conversation.caller().progress();
        let noted = notes.noted();
        Ok(Talked {
            end: conversation.end(),
            refused: None,
            stopped: confirmed.stopped(),
            failed: None,
            missing: noted.missing(self.wish(), self.options.fine),
            pages: progress.confirmed,
            whole: progress.confirmed == progress.pages,
            unconfirmed: false,
            figures: noted.figures(),
            seconds: conversation.clock().now / 1000,
            halted,
        })
    }
}

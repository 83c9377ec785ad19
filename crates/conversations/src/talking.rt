//! A station that talks: it takes a line of text, keeps what that brings, and writes the bursts of its turn and a word.

ghost use Rattle.conversations.specs.Conversations.{ConversationFields, behaviour};
ghost use Rattle.conversations.specs.Hearing.{heard_in};
ghost use Rattle.conversations.specs.Talking.{AnswersFollowed, FindsLate, GivesSome, IsNoAnswer, JudgesTurn, NotesLine, Withholds};
ghost use Rattle.conversations.specs.Talking.{WritesFollowed, WritesPart, following, is_refused, keeping};
ghost use Rattle.conversations.specs.declared.line.Said.{Said as SaidValue};
ghost use Rattle.std.specs.Prelude.{◌≡◌, ℕ, Bool, IfErr, IfOk, List, OnErr, OnOk, false, is_none, true};
ghost use Rattle.terminals.specs.Sending.{HasBurst};
ghost use Rattle.terminals.specs.declared.sending.SentBurst.{SentBurst as SentValue};
ghost use Rattle.terminals.specs.declared.stopping.Shown.{Shown as AnyShown};

use crate::conversation::{Conversation, TakeFault};
use crate::hearing::{Heard, heard_as};
use crate::line::{LineRefused, Said, TimedLine, read_line};
use crate::writing::{write_octets, write_rest, write_sent};
use stations::Carrier;
use std::alloc::{AllocError, Global};
use std::io;
use std::io::{ErrorKind, Write};
use terminals::{Stoppable, Watch};

/// The most bursts that are written of a turn; a turn has two.
const MOST_BURSTS: u32 = 255;

/// Where the pages that a station has stored go before it answers.
pub trait Keeper<S: Stoppable> {
    // What it is to keep what there is after a line: the keeper and the conversation before, what the line says, both after, and whether
    // all was kept.
    ghost keeps: { Self → ConversationFields S → SaidValue → Self → ConversationFields S → Bool → Type 0 };

    // Whether a line that says this can come.
    ghost takes: { Self → SaidValue → Bool };

    // What is said of what it keeps, before the bursts.
    ghost tells: { Self → List ℕ };

    /// The error of a keeper.
    type Refused: Drop;

    /// Whether a line that says this can come now.
    fn can_take(&self, said: &Said) -> bool
        ensures { result ≡ takes self.now said.now };

    /// Keeps what the last line brought, which says this. Returns the storage error, if any.
    fn keep(&mut self, conversation: &mut Conversation<S>, said: &Said) -> Option<Self::Refused>
        ensures { keeps self.old conversation.old said.now self.new conversation.new (is_none result) };

    /// The lines that are written before the bursts.
    fn told(&self) -> &[u8]
        ensures { result.now ≡ tells self.now };
}

/// Observes a conversation, for example to write a trace: it sees each frame that the station hears or says, once. It changes nothing but that
/// late answers aren't sent.
pub trait Follower: Watch {
    // What it notes of a line that comes at a time, in milliseconds.
    ghost notes: { Self → ℕ → Self → Type 0 };

    // Whether it finds that the answer to the line of a time, in milliseconds, comes too late.
    ghost judges: { Self → ℕ → Bool → Self → Type 0 };

    /// Notes that a line of this time, in milliseconds, comes; not before the station has begun, which hears nothing of it then.
    fn begin_line(&mut self, at: u64, begun: bool)
        ensures { NotesLine notes begun self.old at self.new };

    /// Ends a line that the station hears so; its frames were seen. Nothing more is noted.
    fn end_line(&mut self, heard: Heard)
        ensures { self.new ≡ self.old };

    /// Whether the answer to the line of this time, in milliseconds, comes too late to be sent.
    fn is_late(&mut self, at: u64) -> bool
        ensures { FindsLate judges self.old at result self.new };

    /// Ends a burst by this carrier, which is sent; its frames were seen. Nothing more is noted.
    fn end_burst(&mut self, carrier: Carrier)
        ensures { self.new ≡ self.old };
}

/// Why a line wasn't answered.
#[derive(Clone, Copy, Debug, PartialEq, Eq, Drop)]
pub enum AnswerFault {
    /// The octets aren't a line of a station. Nothing has changed.
    NoLine,
    /// The line is about a page that isn't held. Nothing has changed.
    NotHeld,
    /// The line's time is before that of the line before it, or too late after it. Nothing has changed.
    OutOfTime,
    /// Memory was refused.
    NoMemory,
    /// The writer failed.
    Writer(ErrorKind),
}

impl From<AllocError> for AnswerFault {
    ghost use Rattle.conversations.specs.declared.talking.AnswerFault.TheVariants.{NoMemory};
    ghost use Rattle.std.specs.Prelude.{◌≡◌};

    ghost from_gives = { λ _ fault. fault ≡ NoMemory };

    fn from(_refused: AllocError) -> AnswerFault {
        AnswerFault::NoMemory
    }
}

impl From<io::Error> for AnswerFault {
    ghost use Rattle.conversations.specs.declared.talking.AnswerFault.TheVariants.{Writer};
    ghost use Rattle.std.specs.IoError.{error_kind};
    ghost use Rattle.std.specs.Prelude.{◌≡◌};

    ghost from_gives = { λ error fault. fault ≡ Writer (error_kind error) };

    fn from(error: io::Error) -> AnswerFault {
        AnswerFault::Writer(error.kind())
    }
}

/// The answer to a line, once it is written.
#[derive(Debug, Drop)]
pub struct Answered<E> {
    /// True if the call is over, as `done` says.
    pub over: bool,
    /// The storage error, if any; the station has hung up then.
    pub unkept: Option<E>,
}

/// Writes the bursts that are left of the turn, in order, a line each, and then `done` if the call is over, else what the station says
/// beside and `wait`; returns true for `done`. A follower sees the frames of each burst. Errs with `Writer` or `NoMemory`; a beginning of the
/// answer may be written then, and nothing else.
pub fn write_turn<S: Stoppable, W: Write, F: Follower>(
    alloc: Global,
    conversation: &mut Conversation<S>,
    writer: &mut W,
    follower: &mut F,
) -> Result<bool, AnswerFault>
    ensures ok { IfOk result (λ over. WritesFollowed F.saw_said S.sends S.lends S.shows
        conversation.old conversation.new (W.contents writer.old) (W.contents writer.new)
        follower.old follower.new over) }
    ensures part { OnErr result
        (WritesPart S S.sends S.lends S.shows conversation.old conversation.new (W.contents writer.old) (W.contents writer.new)) }
    ensures late { IfErr result (λ fault. is_refused fault ≡ false) }
{
    let frames = conversation.says().frames;
    for _burst in 0..MOST_BURSTS {
        let Some(burst) = conversation.next_burst_by(follower)? else {
            let shown = conversation.terminal().shown();
            let at = conversation.next_quiet(shown);
            let begun = conversation.has_begun();
            let over = write_rest(writer, conversation.says(), begun, shown, at)?;
            return Ok(over);
        };
        follower.end_burst(burst.carrier);
        write_sent(alloc, frames, &burst, writer)?;
    }
    Err(AnswerFault::NoMemory)
}

/// Returns how the station of a conversation hears a line: not at all before it has begun.
fn heard_in<S: Stoppable>(conversation: &Conversation<S>, line: &TimedLine) -> Heard
    ensures { (shown : AnyShown) × S.shows conversation.now.terminal.speaking.station shown
        × (result ≡ heard_in conversation.now.begun shown.listens line.now.said) }
{
    let listens = conversation.terminal().shown().listens;
    match &line.said {
        Said::Received { channel, kind, .. } if conversation.has_begun() => {
            heard_as(listens, *channel, *kind)
        }
        _ => Heard::Nothing,
    }
}

/// Whether there are bursts, and the follower says that they come too late in answer to the line of this time.
fn comes_late<S: Stoppable, F: Follower>(
    conversation: &Conversation<S>,
    at: u64,
    follower: &mut F,
) -> bool
    ensures { (some : Bool) × HasBurst S.lends conversation.now.terminal.speaking some
        × JudgesTurn F.judges some follower.old at result follower.new }
{
    if !conversation.terminal().has_burst() {
        return false;
    }
    follower.is_late(at)
}

/// Gives the bursts that are left of the turn, if the answer comes too late, so that none of them is sent. Errs if memory is refused.
fn withhold<S: Stoppable>(conversation: &mut Conversation<S>, late: bool) -> Result<(), AllocError>
    ensures ok { OnOk result (Withholds S.sends S.lends conversation.old late conversation.new) }
    ensures err { OnErr result
        ((bursts : List SentValue) × GivesSome S.sends S.lends conversation.old bursts conversation.new) }
{
    if !late {
        return Ok(());
    }
    for _burst in 0..MOST_BURSTS {
        if conversation.next_burst()?.is_none() {
            return Ok(());
        }
    }
    Err(AllocError)
}

/// Answers a line, which comes without its LF: takes it, stops the call if it is refused, keeps what it brought, and only
/// then writes what the keeper says, the bursts of the turn and a word. If something can't be kept, the answer is what the conversation says
/// after that; if it comes too late, its bursts aren't sent. Errs with `NoLine`, with `NotHeld` if the keeper can't take the line, or with
/// `OutOfTime` if the time can't follow: nothing has changed. Errs with `NoMemory` or `Writer`: something is written only if what the line
/// brought was kept before, and it is a beginning of the answer.
pub fn answer<S: Stoppable, K: Keeper<S>, W: Write, F: Follower>(
    alloc: Global,
    line: &[u8],
    conversation: &mut Conversation<S>,
    keeper: &mut K,
    writer: &mut W,
    follower: &mut F,
) -> Result<Answered<K::Refused>, AnswerFault>
    ensures ok { IfOk result (λ answer. AnswersFollowed
        (following F.saw F.saw_said F.notes F.judges)
        (behaviour S.sends S.steps S.lends S.shows S.cut_off S.stop_says)
        (keeping K.keeps K.takes K.tells) S.lends line.now
        conversation.old conversation.new keeper.old keeper.new (W.contents writer.old)
        (W.contents writer.new) follower.old follower.new (is_none answer.unkept) answer.over) }
    ensures none { IfErr result (λ fault. IsNoAnswer (behaviour S.sends S.steps S.lends S.shows S.cut_off S.stop_says)
        (keeping K.keeps K.takes K.tells) S.lends line.now conversation.old conversation.new keeper.old keeper.new
        (W.contents writer.old) (W.contents writer.new) fault) }
    ensures unchanged { IfErr result (λ fault. is_refused fault ≡ true →
        (conversation.new ≡ conversation.old) × (keeper.new ≡ keeper.old) × (writer.new ≡ writer.old)) }
{
    let timed = match read_line(alloc, line) {
        Ok(timed) => timed,
        Err(LineRefused::NoLine) => return Err(AnswerFault::NoLine),
        Err(LineRefused::NoMemory) => return Err(AnswerFault::NoMemory),
    };
    if !keeper.can_take(&timed.said) {
        return Err(AnswerFault::NotHeld);
    }
    follower.begin_line(timed.at, conversation.has_begun());
    let heard = heard_in(conversation, &timed);
    let taken = conversation.take_by(&timed, follower);
    follower.end_line(heard);
    match taken {
        Ok(()) => {}
        Err(TakeFault::OutOfTime) => return Err(AnswerFault::OutOfTime),
        Err(TakeFault::NoMemory) => return Err(AnswerFault::NoMemory),
    }
    conversation.refuse();
    let unkept = keeper.keep(conversation, &timed.said);
    write_octets(writer, keeper.told())?;
    let late = comes_late(conversation, timed.at, follower);
    withhold(conversation, late)?;
    let over = write_turn(alloc, conversation, writer, follower)?;
    Ok(Answered { over, unkept })
}

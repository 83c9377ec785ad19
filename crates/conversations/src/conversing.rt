//! A whole conversation: the lines of a reader, answered one after the other until the call is over.

ghost use Rattle.conversations.specs.Conversations.{RefusesLine, TakesLine, behaviour};
ghost use Rattle.conversations.specs.Conversing.{ConversesFollowed, StopsSo, lost_at, talk_state, talker, unanswered};
ghost use Rattle.conversations.specs.Talking.{following, keeping};
ghost use Rattle.std.specs.Prelude.{◌≡◌, IfErr, IfOk, OnErr, OnOk};

use crate::conversation::{Conversation, TakeFault};
use crate::line::{Said, TimedLine};
use crate::reading::{ReadFault, next_line};
use crate::talking::{AnswerFault, Follower, Keeper, answer};
use std::alloc::{AllocError, Global};
use std::io::{BufRead, ErrorKind, Write};
use terminals::Stoppable;

/// How a conversation ended.
#[derive(Debug, Drop)]
pub enum Ending<E> {
    /// The call is over.
    Over,
    /// No line was left before the call was over: the station's line is lost.
    Lost,
    /// Something that a line brought can't be kept. The station hung up, and wrote so.
    Unkept(E),
}

/// Why a conversation stopped before its end.
#[derive(Clone, Copy, Debug, PartialEq, Eq, Drop)]
pub enum ConverseFault {
    /// The line of this number, from 1, has more than 400,000 octets, isn't a line of a station, or can't come now. It has changed nothing
    /// but what is left to be read.
    Line(u64),
    /// Memory was refused.
    NoMemory,
    /// The reader failed.
    Reader(ErrorKind),
    /// The writer failed.
    Writer(ErrorKind),
    /// There were 2^64 - 2 lines.
    TooManyLines,
}

/// The fault of a conversation whose line of this number, from 1, isn't answered.
fn unanswered(fault: AnswerFault, number: u64) -> ConverseFault
    ensures { result ≡ unanswered fault number }
{
    match fault {
        AnswerFault::NoLine | AnswerFault::NotHeld | AnswerFault::OutOfTime => {
            ConverseFault::Line(number)
        }
        AnswerFault::NoMemory => ConverseFault::NoMemory,
        AnswerFault::Writer(kind) => ConverseFault::Writer(kind),
    }
}

/// Gives the station the loss of its line, at the time of the last line. Errs if memory is refused.
fn lose<S: Stoppable>(conversation: &mut Conversation<S>) -> Result<(), AllocError>
    ensures lost { OnOk result (TakesLine S (behaviour S.sends S.steps S.lends S.shows S.cut_off S.stop_says)
        conversation.old (lost_at conversation.old.clock.now) conversation.new) }
    ensures refused { OnErr result (RefusesLine S (behaviour S.sends S.steps S.lends S.shows S.cut_off S.stop_says)
        conversation.old (lost_at conversation.old.clock.now) conversation.new) }
{
    let lost = TimedLine {
        at: conversation.clock().now,
        said: Said::End,
    };
    match conversation.take(&lost) {
        Ok(()) => Ok(()),
        Err(TakeFault::OutOfTime | TakeFault::NoMemory) => Err(AllocError),
    }
}

/// Reads line after line and answers each, as `answer` does, until the call is over, and returns how it ended. If no line is left before
/// that, the station's line is lost at the time of the last one; if something that a line brought can't be kept, the conversation ends
/// after the answer to that line. Errs with `Line` at the first line that is too long, isn't a line of a station, or that can't come now;
/// with `NoMemory`; and with `Reader` or `Writer` if one of these fails. Holds one line at a time.
pub fn converse<S: Stoppable, R: BufRead, K: Keeper<S>, W: Write, F: Follower>(
    alloc: Global,
    reader: &mut R,
    conversation: &mut Conversation<S>,
    keeper: &mut K,
    writer: &mut W,
    follower: &mut F,
) -> Result<Ending<K::Refused>, ConverseFault>
    ensures ends { IfOk result (λ ending.
        ConversesFollowed S K K.Refused F
        (talker (behaviour S.sends S.steps S.lends S.shows S.cut_off S.stop_says)
        (keeping K.keeps K.takes K.tells) S.lends)
        (following F.saw F.saw_said F.notes F.judges)
        (talk_state (R.remaining reader.old) conversation.old keeper.old (W.contents writer.old))
        (talk_state (R.remaining reader.new) conversation.new keeper.new (W.contents writer.new))
        follower.old follower.new ending) }
    ensures stops { IfErr result (λ fault.
        StopsSo (talker (behaviour S.sends S.steps S.lends S.shows S.cut_off S.stop_says) (keeping K.keeps K.takes K.tells) S.lends)
        (talk_state (R.remaining reader.old) conversation.old keeper.old (W.contents writer.old))
        (talk_state (R.remaining reader.new) conversation.new keeper.new (W.contents writer.new)) fault) }
{
    let mut line = Vec::new(alloc);
    for number in 1..u64::MAX {
        match next_line(reader, &mut line) {
            Ok(true) => {}
            Ok(false) => match lose(conversation) {
                Ok(()) => return Ok(Ending::Lost),
                Err(AllocError) => return Err(ConverseFault::NoMemory),
            },
            Err(ReadFault::NoMemory) => return Err(ConverseFault::NoMemory),
            Err(ReadFault::TooLong) => return Err(ConverseFault::Line(number)),
            Err(ReadFault::Failed(kind)) => return Err(ConverseFault::Reader(kind)),
        }
        let answered = match answer(alloc, &line, conversation, keeper, writer, follower) {
            Ok(answered) => answered,
            Err(fault) => return Err(unanswered(fault, number)),
        };
        if let Some(why) = answered.unkept {
            return Ok(Ending::Unkept(why));
        }
        if answered.over {
            return Ok(Ending::Over);
        }
    }
    Err(ConverseFault::TooManyLines)
}

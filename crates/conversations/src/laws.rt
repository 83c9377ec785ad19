//! Laws of what is heard, of where a conversation's station stands, and of what an answerer stores. Nothing runs.

ghost use Rattle.conversations.specs.Answering.{NoneAreLeft};
ghost use Rattle.conversations.specs.Answering.{limited_behaviour};
ghost use Rattle.conversations.specs.Given.{AnswerersHangUp, BeginsAt, CallersHangUp, KindsAreHeard, LinesGiveAlways, QuietEndsWaitsOf, SpeedsAreTold};
ghost use Rattle.conversations.specs.Hearing.{ExpectsWhatIsHeard};
ghost use Rattle.conversations.specs.Holding.{HeldIsNotConfirmed};
ghost use Rattle.conversations.specs.Led.{AnswerersAreLed, CallersAreLed, caller_behaviour};
ghost use Rattle.conversations.specs.LineEffects.{BeginsWhenNamedOf, BlocksAreInTimeOf, LinesTellOf, NamedBegins};
ghost use Rattle.conversations.specs.LineEffects.{NamesWhatIsHeld};
ghost use Rattle.conversations.specs.LimitRows.{LimitEndsOf};
ghost use Rattle.conversations.specs.StoredLines.{LastIsSaid, LineIsSaid, RefusedIsLast, StoredIsSaid};
ghost use Rattle.stations.specs.Limiting.{LimitedFields};
ghost use Rattle.stations.specs.Stopping.{StoppableCallerFields};

use crate::answering::PageStore;

pub mod lines;

/// What `hear` says is what is heard, and nothing else.
pub fn hears_are_heard()
    ensures { ExpectsWhatIsHeard }
{}

/// Frames are heard as frames and a training check as a check, at the agreed speed alone; frames by V.21 always.
pub fn kinds_are_heard()
    ensures kinds { KindsAreHeard }
    ensures speeds { SpeedsAreTold }
{}

/// What each line gives a station, and at which lines it begins.
pub fn lines_give()
    ensures gives { LinesGiveAlways }
    ensures begins { BeginsAt }
{}

/// At a quiet line a station is given the end of the wait that is over then: of T5, 60 s after the line at which it was first shown.
pub fn quiet_ends_waits()
    ensures caller { QuietEndsWaitsOf StoppableCallerFields caller_behaviour }
    ensures answerer { QuietEndsWaitsOf LimitedFields limited_behaviour }
{
    terminals::laws::passed_are_over();
}

/// What a line makes of a conversation: `busy` and `rx` say a carrier, on which T2 and T4 don't run; T1 runs anew from a line that brings a
/// good frame or the awaited training check; and what comes by V.21 is watched.
pub fn lines_tell()
    ensures caller { LinesTellOf StoppableCallerFields caller_behaviour }
    ensures answerer { LinesTellOf LimitedFields limited_behaviour }
{}

/// How long after the last line one can come: as long as a block lasts, unless both are quiet. An answerer begins at the first quiet line from
/// the time on that `wait` names.
pub fn lines_are_in_time()
    ensures caller { BlocksAreInTimeOf StoppableCallerFields }
    ensures answerer { BlocksAreInTimeOf LimitedFields }
    ensures named { NamedBegins }
    ensures begins { BeginsWhenNamedOf LimitedFields limited_behaviour }
{}

/// A line about a page can come only while the page in its file is held.
pub fn lines_name_what_is_held()
    ensures { NamesWhatIsHeld }
{}

/// A conversation that hung up, as for a page that can't be stored, gives DCN and nothing else, whatever was to be sent.
pub fn dcn_is_given()
    ensures caller { CallersHangUp }
    ensures answerer { AnswerersHangUp }
{}

/// A call that has lasted as long as it may ends with DCN; one that is given up ends in silence.
pub fn limits_end()
    ensures caller { LimitEndsOf StoppableCallerFields caller_behaviour }
    ensures answerer { LimitEndsOf LimitedFields limited_behaviour }
{}

/// After a line that was taken each station stands where its table leads by what the line gives it, whoever is on the line, unless its call
/// was cut off before.
pub fn stations_are_led()
    ensures answerer { AnswerersAreLed }
    ensures caller { CallersAreLed }
{}

/// After a line that was answered no page is left in the answerer: each is in the store or was refused.
pub fn none_are_left()
    ensures { NoneAreLeft }
{}

/// An answerer whose pages are held takes one at a time, and says no MCF while it has one, whatever it hears: a page is confirmed only once it
/// is kept.
pub fn held_is_not_confirmed()
    ensures { HeldIsNotConfirmed }
{
    stations::laws::busy_before();
}

/// Whoever is on the line, the pages that an answerer of lines has stored are stored in order, and each is read, by the grammar of its
/// code, from data fields of FCDs, joined, by the parameters of a DCS that the answerer allows; these FCDs and the DCS came in good frames
/// among the octets that the lines bring. It holds after each line, after the last one, and if a page was refused.
pub fn stored_is_said<P: PageStore>()
    ensures lines { StoredIsSaid P P.stores P.refuses }
    ensures last { LastIsSaid P P.stores P.refuses }
    ensures refused { RefusedIsLast P P.stores P.refuses }
    ensures heard { LineIsSaid P P.stores P.refuses }
{
    terminals::laws::cuts_change_nothing();
    stations::laws::stored_is_read();
    stations::laws::taken_and_there();
    stations::laws::limited_serves();
}

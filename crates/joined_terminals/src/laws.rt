//! What holds of two joined terminals, whatever happens. Nothing runs.

ghost use Rattle.joined_terminals.specs.Answered.{AnswersAreSteps};
ghost use Rattle.joined_terminals.specs.Promised.{CallersAnswer, CallersBreakOff, StoringAnswers, StoringBreaksOff};
ghost use Rattle.joined_terminals.specs.Coming.{CutPiecesCome, SentBurstsCome};
ghost use Rattle.joined_terminals.specs.DrivenSafety.{ConversationsAreSafe};
ghost use Rattle.joined_terminals.specs.Held.{HeldAreDriven, HeldAreStored, OnePageIsStored};
ghost use Rattle.joined_terminals.specs.HeldAnswers.{HeldAnswersAreSteps, HoldingAnswers, HoldingBreaksOff};
ghost use Rattle.joined_terminals.specs.HeldPages.{HeldPageStays};
ghost use Rattle.joined_terminals.specs.Kept.{ConfirmedAreStored, KeptAreDriven};
ghost use Rattle.joined_terminals.specs.Octets.{BurstsAreHeard, BurstsArePieces, HearingTakes, SendingSends};
ghost use Rattle.joined_terminals.specs.Safety.{JoinedAreSafe, TerminalsAreSafe};

use conversations::{Keeper, PageHolder, PageStore};
use stations::StoppableCaller;

/// Two terminals are joined by a half-duplex line: a caller whose call can be stopped, and an answerer with limits. Whatever happens, the
/// pages taken out and those still there are the first of the caller's document, pixel for pixel; each confirmed page is among them, and
/// at most one more; and a normal end of either station means all of them.
pub fn joined_terminals_are_safe()
    ensures { JoinedAreSafe }
{
    line_sim::laws::headline();
    stations::laws::layers_hold();
    stations::laws::signals_hold();
    stations::laws::bursts_cut();
    stations::laws::busy_before();
    stations::laws::taken_and_there();
    stations::laws::answerers_keep();
}

/// Such terminals are safe too while they hear the octets of the line, in pieces. What a terminal takes while it hears octets is taken one
/// after the other, or lost.
pub fn terminals_are_safe()
    ensures takes { HearingTakes }
    ensures safe { TerminalsAreSafe }
{
    joined_terminals_are_safe();
}

/// Each frame of a burst is heard, in order, and nothing else, if no frame was open before it; and none is open after it.
pub fn bursts_are_heard()
    ensures { BurstsAreHeard }
{
    hdlc::laws::flag_forgets();
    stations::laws::signals_arrive();
    raster::laws::bits_join();
}

/// A burst of a caller's turn has frames of a page and at most one other frame, which is its last, or is a training check; one of an
/// answerer's is one frame. So a station answers no frame of a burst but its last. What `next_burst` gives are the octets of such a burst.
pub fn bursts_are_pieces()
    ensures pieces { BurstsArePieces }
    ensures sends { SendingSends }
{
    stations::laws::bursts_cut();
}

/// Each burst of frames, as a terminal gives it, comes whole as such a piece. So what the laws of joined terminals ask of octets can be met.
pub fn sent_bursts_come()
    ensures { SentBurstsCome }
{
    bursts_are_heard();
    bursts_are_pieces();
    terminals::laws::turns_are_sent_whole();
    stations::laws::bursts_cut();
}

/// A burst that is cut comes too: its first frames are heard, and the others are lost.
pub fn cut_bursts_come()
    ensures { CutPiecesCome }
{
    terminals::laws::cuts_change_nothing();
}

/// A driver joins two conversations of such stations, as `docs/STATION.md` says. Whatever happens, the pages stored are the first of the
/// caller's document, pixel for pixel. With those that a store refused and those still in the answerer they have each confirmed page, and at
/// most one more; and a normal end of either station means all of them.
pub fn conversations_are_safe()
    ensures { ConversationsAreSafe }
{
    terminals_are_safe();
}

/// If each page is kept before anything is said after it, as `answer` does, each page that the caller counts confirmed is among those
/// stored, also where the store refused a page; and a normal end of the caller means that all pages are stored.
pub fn confirmed_are_stored()
    ensures stored { ConfirmedAreStored }
    ensures driven { KeptAreDriven }
{
    held_are_stored();
}

/// What `answer` of a conversation promises of a line, of a caller and of an answerer whose pages are stored, is a list of such steps by
/// which pages are kept before anything is said, also where it fails. It leaves the other conversation as it was.
pub fn answers_are_steps()
    ensures { AnswersAreSteps }
{
    terminals_are_safe();
}

/// The contract of `answer`, of a caller and of an answerer whose pages go to a store of any kind, gives the
/// answers of which `answers_are_steps` speaks, if the line comes of what is on its way.
pub fn contracts_are_answers<P: PageStore, K: Keeper<StoppableCaller>>()
    ensures answerer { StoringAnswers P P.stores P.refuses }
    ensures answerer_fails { StoringBreaksOff P P.stores P.refuses }
    ensures caller { CallersAnswer K K.keeps }
    ensures caller_fails { CallersBreakOff K K.keeps }
{}

/// If no page is confirmed that is still in the answerer, as where others store its pages, each page that the caller counts confirmed is
/// among those stored, also where the store lost or refused a page; and a normal end of the caller means that all pages are stored.
pub fn held_are_stored()
    ensures stored { HeldAreStored }
    ensures driven { HeldAreDriven }
{
    conversations_are_safe();
    stations::laws::answerers_keep();
}

/// Whatever happens to an answerer that takes one page at a time, and whenever its pages are stored, each page that the caller counts
/// confirmed is among those stored; and a normal end of the caller means that all pages are stored.
pub fn one_page_is_stored()
    ensures { OnePageIsStored }
{
    held_are_stored();
    conversations::laws::held_is_not_confirmed();
    stations::laws::limited_serves();
    stations::laws::answerers_keep();
    stations::laws::always_answered();
}

/// What `answer` promises of a line, of an answerer that takes one page at a time, whose pages are held for others, is a list of such steps,
/// also where it fails. It leaves the caller as it was, and the answerer takes one page at a time after it.
pub fn held_answers_are_steps()
    ensures { HeldAnswersAreSteps }
{
    terminals_are_safe();
    conversations::laws::held_is_not_confirmed();
    stations::laws::limited_serves();
    stations::laws::answerers_keep();
    stations::laws::always_answered();
}

/// The page of an answerer that takes one page at a time stays there, the only one, whatever is heard and said, until it is stored.
pub fn held_page_stays()
    ensures { HeldPageStays }
{
    terminals_are_safe();
    stations::laws::stored_is_read();
    conversations::laws::held_is_not_confirmed();
    stations::laws::limited_serves();
    stations::laws::answerers_keep();
    stations::laws::always_answered();
}

/// The contract of `answer`, of an answerer whose pages are handed over to a holder of any kind, gives
/// the answers of which `held_answers_are_steps` speaks, if the line comes of what is on its way.
pub fn held_contracts_are_answers<P: PageHolder>()
    ensures ok { HoldingAnswers P P.hands P.refuses P.stores P.held }
    ensures err { HoldingBreaksOff P P.hands P.refuses P.stores P.held }
{}

//! What holds over every schedule. Nothing runs.

ghost use Rattle.line_sim.specs.Breaking.{LostDcsBreak, LostDisBreak, SpoiledCheckBreaks};
ghost use Rattle.line_sim.specs.BusyCalls.{BusyCallsAreSafe, BusyCallsEnd, BusyStepsAreEvents};
ghost use Rattle.line_sim.specs.Counted.{DcsBetweenGroups, RunsAreCounted};
ghost use Rattle.line_sim.specs.Driving.{DrivenCallsAreSafe, DrivenCallsEnd, DrivenStepsAreEvents};
ghost use Rattle.line_sim.specs.Tolerance.{AnswerersEndWell, AnyTwoLossesAreBorne, CallersEndWell, DrivenCallsBear, DrivenCallsEndFor};
ghost use Rattle.line_sim.specs.EventsMean.{EventsMake, EventsRefuse, EventsTouch};
ghost use Rattle.line_sim.specs.Fates.{AsksByKind, RnrIsAsked};
ghost use Rattle.line_sim.specs.Polite.{GroupsAreAgreed, PoliteCalls, PoliteEvents};
ghost use Rattle.line_sim.specs.Headline.{EventsMove, LineHolds, LinesCanBeWritten, RunsAreSafe, RunsMove, StationsInStep};
ghost use Rattle.line_sim.specs.Headline.{WholeBlocksAccepted};
ghost use Rattle.line_sim.specs.Redialling.{CallsAreRedialled, CallsGoOn};
ghost use Rattle.line_sim.specs.Streams.{CutsChangeNothing, StoredIsSaid};

/// Over every schedule of losses, spoiled training checks, time-outs, waits and refused growths: the facts of the line hold, and both
/// stations stay in step; each event is at most two moves of the page machine, and each run from a new world is moves from its first state;
/// the pages stored are the first of the document, each confirmed page is stored once, and a station that ended Normal has them all; and a
/// block is accepted exactly if each of its frames is open. All that travels can be written.
pub fn headline()
    ensures facts { LineHolds }
    ensures steps { StationsInStep }
    ensures moves { EventsMove }
    ensures runs { RunsMove }
    ensures safe { RunsAreSafe }
    ensures whole { WholeBlocksAccepted }
    ensures written { LinesCanBeWritten }
{
    stations::laws::layers_hold();
    stations::laws::signals_hold();
}

/// A polite run makes deliveries alone, and between groups the answerer's T2. An undisturbed call of any number of groups, in which both
/// stations agree on each page and each page's code is within the limit, takes 4 deliveries for each group, the frames and 5 for each
/// block, and one more. A polite run makes as many of them as it may; after all of them each page is stored and confirmed, and both
/// stations have ended normally.
pub fn polite_calls()
    ensures events { PoliteEvents }
    ensures groups { GroupsAreAgreed }
    ensures calls { PoliteCalls }
{
    stations::laws::layers_hold();
    stations::laws::signals_hold();
}

/// A call begins with a new world, and what happens on its line leaves one that the call has come to: of these `redialled` speaks.
pub fn calls_go_on()
    ensures { CallsGoOn }
{}

/// Several calls send a document, each over any line and to any answerer, and each further one sends the pages that the call before it has
/// not confirmed. The pages stored in all of them, in order, are the first of the document; at most one of them comes again for each call
/// that failed, since a page that was stored may not have been confirmed; and after a normal end none is missing.
pub fn redialled()
    ensures { CallsAreRedialled }
{
    headline();
    stations::laws::layers_hold();
    stations::laws::signals_hold();
}

/// In the transcript of every run the caller has at most 18 turns DCS for each group begun, and as many between one entry into the wait for
/// a DIS and the next, so also before the first MCF that it answers in silence and after each; one DCN; 3 RR for each RNR that it answers
/// with RR; and 12 PPS and bursts together for each burst that answers a CFR or an MCF.
pub fn counted()
    ensures runs { RunsAreCounted }
    ensures groups { DcsBetweenGroups }
{
    stations::laws::steps_spend();
}

/// Whoever is on a line, an answerer of its octets returns the same wherever they are cut; and each page that it stores is read, by the
/// grammar of its code, from octets joined from data fields of FCDs in good frames, by the parameters of a DCS in one of these frames that
/// it allows.
pub fn foreign_peers()
    ensures cut { CutsChangeNothing }
    ensures stored { StoredIsSaid }
{
    raster::laws::bits_join();
    hdlc::laws::good_contents_stay();
    stations::laws::stored_is_read();
}

/// A driven call ends, whatever the fates, within a number of steps that its document bounds; and at each of its steps the headline holds.
/// Each step is a run of one or two events, by its fate.
pub fn driven_calls_end()
    ensures driven { DrivenCallsEnd }
    ensures safe { DrivenCallsAreSafe }
    ensures steps { DrivenStepsAreEvents }
{
    headline();
    stations::laws::speeds_hold();
    stations::laws::callers_end();
}

/// A driven call in which the answerer is set busy or ready before any of its steps ends within the same number of steps: for each block as
/// many RNRs as the caller's patience allows take 8 steps each. At each step the headline holds, and the step is a run of the setting's
/// event and its own.
pub fn busy_calls_end()
    ensures busy { BusyCallsEnd }
    ensures safe { BusyCallsAreSafe }
    ensures steps { BusyStepsAreEvents }
{
    headline();
    stations::laws::speeds_hold();
    stations::laws::callers_end();
}

/// If both stations agree on each page and its code fits a call, the caller of a driven call ends normally or for one of four reasons, each
/// of which costs a number of bad tries or spoiled checks of one phase; so a call with at most two bad tries in each phase goes through,
/// and so does one with any two losses.
pub fn calls_bear()
    ensures ends { CallersEndWell }
    ensures bear { DrivenCallsBear }
    ensures two { AnyTwoLossesAreBorne }
    ensures reasons { DrivenCallsEndFor }
    ensures answerers { AnswerersEndWell }
{
    driven_calls_end();
    stations::laws::layers_hold();
    stations::laws::signals_hold();
    stations::laws::speeds_hold();
    signals::laws::lowered_is_allowed();
}

// Losses of a block need its page's code, whose logic takes minutes for one white row: for these `call_tests` has tests.
/// The fewest losses that break a call before its first page, each of a kind, whatever its document is: three lost DIS, if three are sent
/// in a wait; a DCS that is lost three times; and the training check of stations with one common speed, spoiled once. So `calls_bear` can't
/// allow one loss more of any of these.
pub fn calls_break()
    ensures dis { LostDisBreak }
    ensures dcs { LostDcsBreak }
    ensures check { SpoiledCheckBreaks }
{}

/// What each event may change: a station changes only at the events that it hears of, what is under way from it grows only at these, and
/// then what is under way to it is lost; and what each event makes of the first item under way, or of a wait that is over. An event that
/// was refused before anything happened changes nothing.
pub fn events_mean()
    ensures touch { EventsTouch }
    ensures make { EventsMake }
    ensures refuse { EventsRefuse }
{}

/// Which items ask the answerer for more: a PPS and an RR. It says RNR to no other item, so only before one of these is it set busy or ready.
pub fn rnr_is_asked()
    ensures kinds { AsksByKind }
    ensures asked { RnrIsAsked }
{}

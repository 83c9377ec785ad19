//! Laws of what is heard, of where it leads, of waits, of DCN, of what can be written, of what is held, of what is watched, and of what a
//! call came to. Nothing runs.

ghost use Rattle.terminals.specs.BurstSizes.{AnswerersBurstsAreShort, CallersBurstsAreShort, FramesAreShort};
ghost use Rattle.terminals.specs.Bursts.{AnswerersSendOne, CallersSendTwo};
ghost use Rattle.terminals.specs.ClockLaws.{FlagsLast, OverHavePassedAlways, PassedAreOverAlways, T1RunsFromHeardAlways, T5RunsFromFirstAlways, WaitsLast};
ghost use Rattle.terminals.specs.Clocks.{CalmIsQuiet, CarriersHold, WaitsAreNamed, WaitsPass};
ghost use Rattle.terminals.specs.FiguresLaws.{FiguresByOctets, PagesCountAsNothing};
ghost use Rattle.terminals.specs.Hearing.{CutsChangeNothing};
ghost use Rattle.terminals.specs.InputsTaken.{AnswerersTake, CallersTake};
ghost use Rattle.terminals.specs.Memory.{OneFrameIsKept, OpenPagesAreLimited};
ghost use Rattle.terminals.specs.Saying.{AnswerersHangUp, AnswerersLose, AnswerersStop, CallersHangUp, CallersLose, CallersStop};
ghost use Rattle.terminals.specs.Saying.{TurnsAreLeft, WaitsAreShown};
ghost use Rattle.terminals.specs.StationsAfter.{AnswererIsAfter, CallerIsAfter, WhatFollowsIsPassed};
ghost use Rattle.terminals.specs.Stopping.{AnswerersSendDcn, CallersSendDcn};
ghost use Rattle.terminals.specs.Timed.{TimedAreDue, TimedLimitsHold};
ghost use Rattle.terminals.specs.Timeouts.{LimitsHold, TimeoutsAreDue};
ghost use Rattle.terminals.specs.WatchingLaws.{GapIsFirstJump, GapsByOctets, RefusedByOctets, SecondIsRefused, UsedByOctets, UsedIsBrought};
ghost use Rattle.terminals.specs.Writable.{AnswerersCanBeWritten, AnswerersSendWhole, CallersCanBeWritten, CallersSendWhole};
ghost use Rattle.terminals.specs.Writable.{KeptMapsAreWhole, MapsAreWhole};

use crate::station::Station;

/// Octets that come in two pieces are heard as the same octets in one piece.
pub fn cuts_change_nothing()
    ensures { CutsChangeNothing }
{
    raster::laws::bits_join();
    hdlc::laws::good_contents_stay();
}

/// A station that has heard signals is where its table leads by those that it doesn't pass over: it takes DCN alone while a burst of its turn is left
/// to be sent.
pub fn stations_are_after()
    ensures caller { CallerIsAfter }
    ensures answerer { AnswererIsAfter }
{}

/// No signal but DCN changes a station while a burst of its turn is left to be sent: what follows a turn is passed over. Of CFR, MCF and MCF in
/// one burst a caller takes the CFR, and confirms nothing.
pub fn what_follows_is_passed()
    ensures { WhatFollowsIsPassed }
{
    stations::laws::bursts_cut();
}

/// A wait is over only if the station shows it and its duration has passed since the time that it runs from.
pub fn waits_pass()
    ensures { WaitsPass }
{}

/// A wait that is shown is over at each line by which its duration has passed, or the longer one beside it is; and at no earlier one. T5
/// runs from the line after which it is first shown, T1 from what was heard last, T2 and T4 from the first quiet line.
pub fn passed_are_over()
    ensures over { PassedAreOverAlways }
    ensures only { OverHavePassedAlways }
    ensures t5 { T5RunsFromFirstAlways }
    ensures t1 { T1RunsFromHeardAlways }
{}

/// How long waits and flags last, by the limits of T.30.
pub fn durations_are_t30s()
    ensures waits { WaitsLast }
    ensures flags { FlagsLast }
{}

/// What each station makes of each input: it hears each signal, the end of a wait that runs does what the table says, and that of another
/// one changes nothing.
pub fn inputs_are_taken()
    ensures caller { CallersTake }
    ensures answerer { AnswerersTake }
{}

/// The waits of its state are shown of a call that goes on, and none of one that has ended in any way.
pub fn waits_are_shown()
    ensures { WaitsAreShown }
{}

/// The time that `wait` names is the first one at which a wait is over, if nothing comes before; if none is named, none is over at any
/// time.
pub fn waits_are_named()
    ensures { WaitsAreNamed }
{}

/// Something is to be done at a time exactly if the time at which it is due has come, whatever the line is. So a program that waits for that
/// time and tells it never spins; and a call that has a limit ends by it, by DCN once the line is quiet, or else in silence.
pub fn timeouts_are_due()
    ensures due { TimeoutsAreDue }
    ensures limits { LimitsHold }
{}

/// After a `pass` of a `TimedTerminal` the next one does something at a time exactly if the time that is due has come, unless something comes
/// before, or the line changes; and the limit of its call holds. Both hold also while a burst waits to be sent, when no wait ends.
pub fn timed_are_due()
    ensures due { TimedAreDue }
    ensures limits { TimedLimitsHold }
{}

/// T2 and T4 are never over while a carrier is on, nor before the line has been quiet since a carrier of either side.
pub fn carriers_hold()
    ensures hold { CarriersHold }
    ensures calm { CalmIsQuiet }
{}

/// DCN goes out as one burst by V.21, with no other frame, from each station in every state.
pub fn dcn_goes_alone()
    ensures caller { CallersSendDcn }
    ensures answerer { AnswerersSendDcn }
{}

/// When the program hangs up, or stops a call that runs, DCN alone is left to be sent, whatever was kept; when the line is gone, nothing is.
/// A call that has ended isn't changed by a stop.
pub fn dcn_is_left()
    ensures caller_hangs_up { CallersHangUp }
    ensures answerer_hangs_up { AnswerersHangUp }
    ensures caller_stops { CallersStop }
    ensures answerer_stops { AnswerersStop }
    ensures caller_loses { CallersLose }
    ensures answerer_loses { AnswerersLose }
{}

/// After an input all bursts of the station's turn are left to be sent, whatever was taken of the turn before; after a silent turn, those
/// that were left before.
pub fn turns_are_left<S: Station>()
    ensures { TurnsAreLeft S S.steps S.lends }
{}

/// A turn of a caller has two bursts at most, and one of an answerer one.
pub fn turns_have_few_bursts()
    ensures caller { CallersSendTwo }
    ensures answerer { AnswerersSendOne }
{
    stations::laws::bursts_cut();
}

/// What a terminal holds beside its station's pages: of the octets heard no whole content and at most the 302 octets of
/// one frame; of an answerer at most 65,536 octets of the frames of the open block, and 8,388,608 of the open page's
/// code.
pub fn little_is_held()
    ensures framing { OneFrameIsKept }
    ensures open { OpenPagesAreLimited }
{
    stations::laws::open_is_limited();
}

/// Each item of a turn has a frame or is a training check: the frames of a caller's blocks have 1 to 256 octets,
/// whatever its state, and the map of each PPR that an answerer sends, and keeps for sending, has 32.
pub fn turns_can_be_written()
    ensures caller { CallersCanBeWritten }
    ensures answerer { AnswerersCanBeWritten }
    ensures maps { MapsAreWhole }
    ensures kept { KeptMapsAreWhole }
{
    partial_page::laws::page_is_cut_into_full_frames();
}

/// Each burst of such a turn is sent with the frame of each of its items; none is left out.
pub fn turns_are_sent_whole()
    ensures caller { CallersSendWhole }
    ensures answerer { AnswerersSendWhole }
{
    stations::laws::bursts_cut();
    partial_page::laws::page_is_cut_into_full_frames();
}

/// A frame has two flags, and at most six bits for each five of its content and its check sequence. So a burst of a caller has at most
/// 800,000 bits, and one of an answerer at most 6,000.
pub fn bursts_are_short()
    ensures frames { FramesAreShort }
    ensures caller { CallersBurstsAreShort }
    ensures answerer { AnswerersBurstsAreShort }
{
    stations::laws::bursts_cut();
    partial_page::laws::page_is_cut_into_full_frames();
    signals::laws::written_fits_a_frame();
}

/// Which DCS isn't allowed, and why, by its octets.
pub fn refused_by_octets()
    ensures { RefusedByOctets }
{}

/// A call is refused for the second DCS that isn't allowed, and for no other one.
pub fn second_is_refused()
    ensures { SecondIsRefused }
{}

/// Page numbers that jump, by octets; and the gap of a call is the first one that doesn't follow the number before it.
pub fn gaps_are_jumps()
    ensures octets { GapsByOctets }
    ensures first { GapIsFirstJump }
{}

/// A page under the number of the last one, and a PPS that is repeated, by octets; and such a page came exactly if a PPS of the last block's
/// mark comes after an FCD.
pub fn used_by_octets()
    ensures octets { UsedByOctets }
    ensures brought { UsedIsBrought }
{}

/// Calls come to these figures, by the octets of their frames; and frames of pages count as nothing, so that the figures are those of V.21.
pub fn figures_by_octets()
    ensures octets { FiguresByOctets }
    ensures pages { PagesCountAsNothing }
{}

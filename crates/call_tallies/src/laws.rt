//! Laws of the definitions. Nothing runs.

ghost use Rattle.call_tallies.specs.FewTries.{FewTriesAreBorne, FewTriesAreDriven};
ghost use Rattle.call_tallies.specs.TallyRows.{EventsAreCounted, ItemsLast, LinesByOctets, OctetsLast, SharesMean, WaitsLast};

/// A call over a bad line with few bad tries in each phase is a driven call with few, of the fates that it draws. So if both stations agree
/// on each page and its code fits a call, it ends normally for the caller, and all pages are stored and confirmed.
pub fn few_tries_are_borne()
    ensures driven { FewTriesAreDriven }
    ensures borne { FewTriesAreBorne }
{
    line_sim::laws::driven_calls_end();
    line_sim::laws::calls_bear();
}

/// How long items, octets and waits last, and for how many seconds a call has the line, by rows that were worked by hand.
pub fn times_by_rows()
    ensures items { ItemsLast }
    ensures octets { OctetsLast }
    ensures waits { WaitsLast }
{}

/// What is counted of calls, by rows; a share of calls has one number of seconds; and the lines of the table, by octets.
pub fn tallies_by_rows()
    ensures counted { EventsAreCounted }
    ensures shares { SharesMean }
    ensures lines { LinesByOctets }
{}

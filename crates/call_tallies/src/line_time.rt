//! How long a call has the line: by what is sent, and by the waits that are over.

ghost use Rattle.call_tallies.specs.LineTimes.{Runs, RunsAfter, after_item, before_item, is_page, lasting, longer_wait, new_clock, new_clocks};
ghost use Rattle.call_tallies.specs.LineTimes.{octet_after, seconds_in, ticks_of, waited_in};
ghost use Rattle.faults.specs.Faults.{IsOutside};
ghost use Rattle.line_sim.specs.Octets.{sender_to, under_way_to};
ghost use Rattle.std.specs.Prelude.{◌≡◌, ◌≤◌, ◌+◌, ◌*◌, drop, IfErr, IfOk};

use crate::many_calls::sum;
use calls::Counts;
use faults::{FAILED, ToolFault};
use line_sim::{Event, Form, LiveCall};
use signals::Side;
use stations::{End, Wait};
use terminals::{BETWEEN_CARRIERS_MILLIS, wait_millis};

/// How many ticks a millisecond has.
const TICKS: u64 = 18;

/// How many ticks a second has.
const SECOND_TICKS: u64 = 18_000;

/// How many ticks an octet lasts at 300 bit/s.
const CONTROL_OCTET: u64 = 480;

/// How many ticks a training check lasts, 1.5 s: ITU-T T.30, 5.3.6.1.3.
const CHECK_TICKS: u64 = 27_000;

/// How long flags come before a frame at 300 bit/s, in milliseconds: ITU-T T.30, 5.3.1.
const CONTROL_FLAGS_MILLIS: u32 = 1_000;

/// How long flags come before the frames of a page, in milliseconds: ITU-T T.30, Annex A.
const PAGE_FLAGS_MILLIS: u32 = 200;

/// How many ticks come before the octets of a carrier: the silence, and so many milliseconds of flags.
fn before_octets(flags: u32) -> u64
    requires { flags ≤ 1000 }
    ensures { result ≡ ticks_of (75 + flags) }
{
    TICKS * u64::from(BETWEEN_CARRIERS_MILLIS + flags)
}

/// The product of two numbers. Errs with `FAILED` (8) if it would be 2^64 or more.
fn product(one: u64, other: u64) -> Result<u64, ToolFault>
    ensures product { IfOk result (λ product. product ≡ one * other) }
    ensures fault { IfErr result IsOutside }
{
    one.checked_mul(other).ok_or(FAILED)
}

/// How long what is sent in one direction lasts.
#[derive(Clone, Copy)]
pub(crate) struct Clock {
    /// How many ticks an octet of a page's frame lasts.
    pub(crate) octet: u64,
    /// True if such a frame was the last item.
    pub(crate) page: bool,
    /// How many ticks all items lasted.
    pub(crate) ticks: u64,
}

/// How many ticks come before an item of a form, after a page's frame or not.
fn before_item(form: Form, page: bool) -> u64
    ensures { result ≡ before_item form page }
{
    match form {
        Form::Control => before_octets(CONTROL_FLAGS_MILLIS),
        Form::Check => before_octets(0),
        Form::Page => {
            if page {
                return 0;
            }
            before_octets(PAGE_FLAGS_MILLIS)
        }
    }
}

/// How many ticks an item of a form lasts that has so many octets, where an octet of a page's frame lasts so many. Errs with `FAILED` (8)
/// if they would be 2^64 or more.
fn lasting(form: Form, octets: u64, octet: u64) -> Result<u64, ToolFault>
    ensures lasts { IfOk result (λ ticks. ticks ≡ lasting form octets octet) }
    ensures fault { IfErr result IsOutside }
{
    match form {
        Form::Control => product(CONTROL_OCTET, octets),
        Form::Page => product(octet, octets),
        Form::Check => Ok(CHECK_TICKS),
    }
}

/// How many ticks an octet of a page's frame lasts after an item.
fn octet_after(form: Form, octets: u64, octet: u64) -> u64
    ensures { result ≡ octet_after form octets octet }
{
    match form {
        Form::Check => CHECK_TICKS.checked_div(octets).unwrap_or(0),
        Form::Control | Form::Page => octet,
    }
}

/// True if an item is a page's frame.
fn is_page(form: Form) -> bool
    ensures { result ≡ is_page form }
{
    matches!(form, Form::Page)
}

impl Clock {
    /// Before anything is sent.
    fn new() -> Clock
        ensures { result ≡ new_clock }
    {
        Clock {
            octet: 0,
            page: false,
            ticks: 0,
        }
    }

    /// An item of a form and a number of octets is sent. Errs with `FAILED` (8) if a number would be 2^64 or more.
    fn after_item(self, form: Form, octets: u64) -> Result<Clock, ToolFault>
        ensures after { IfOk result (λ clock. clock ≡ after_item form octets self) }
        ensures fault { IfErr result IsOutside }
    {
        let lasts = lasting(form, octets, self.octet)?;
        let all = sum(before_item(form, self.page), lasts)?;
        Ok(Clock {
            octet: octet_after(form, octets, self.octet),
            page: is_page(form),
            // What a modem sends before its data, as the training of V.29, and the flags after a frame's last one aren't counted.
            ticks: sum(self.ticks, all)?,
        })
    }
}

/// What is under way to a station from a place on is sent. Errs with `FAILED` (8) if a number would be 2^64 or more.
fn after_items(live: &LiveCall, to: Side, first: usize, clock: Clock) -> Result<Clock, ToolFault>
    ensures runs { IfOk result (Runs (sender_to to) (drop first (under_way_to to live.now)) clock) }
    ensures fault { IfErr result IsOutside }
{
    let mut clock = clock;
    for place in first..live.count_to(to) {
        let Some(item) = live.item_to(to, place) else {
            return Ok(clock);
        };
        clock = clock.after_item(item.kind.form(), item.octets.len() as u64)?;
    }
    Ok(clock)
}

/// How long what is sent in each direction lasts.
#[derive(Clone, Copy)]
pub(crate) struct Clocks {
    /// What the caller sends.
    pub(crate) to_answerer: Clock,
    /// What the answerer sends.
    pub(crate) to_caller: Clock,
}

impl Clocks {
    /// Before anything is sent.
    pub(crate) fn new() -> Clocks
        ensures { result ≡ new_clocks }
    {
        Clocks {
            to_answerer: Clock::new(),
            to_caller: Clock::new(),
        }
    }

    /// What a call has put under way since its items were counted is sent. Errs with `FAILED` (8) if a number would be 2^64 or more.
    pub(crate) fn after_sent(self, live: &LiveCall, counts: Counts) -> Result<Clocks, ToolFault>
        ensures runs { IfOk result (RunsAfter counts live.now self) }
        ensures fault { IfErr result IsOutside }
    {
        let to_answerer = after_items(live, Side::Answerer, counts.to_answerer, self.to_answerer)?;
        let to_caller = after_items(live, Side::Caller, counts.to_caller, self.to_caller)?;
        Ok(Clocks {
            to_answerer,
            to_caller,
        })
    }
}

/// How long the wait that is over in an event had run, in milliseconds: it counts whole, so a T1 or T5 that runs beside what is sent makes
/// a call's seconds more than a real call's.
pub(crate) fn waited_in(event: Event) -> u64
    ensures { result ≡ waited_in event }
{
    match event {
        Event::CallerTimeout => u64::from(wait_millis(Wait::T4)),
        Event::CallerT5 => u64::from(wait_millis(Wait::T5)),
        Event::AnswererT1 => u64::from(wait_millis(Wait::T1)),
        Event::AnswererT2 => u64::from(wait_millis(Wait::T2)),
        _ => 0,
    }
}

/// By how many milliseconds the last wait of a caller that ended so was longer than T4.
fn longer_wait(ending: Option<End>) -> u64
    ensures { result ≡ longer_wait ending }
{
    match ending {
        Some(End::NoAnswer) => u64::from(wait_millis(Wait::T1) - wait_millis(Wait::T4)),
        _ => 0,
    }
}

/// For how many whole seconds a call has the line, by what was sent, the milliseconds of its waits and the caller's end. Errs with `FAILED`
/// (8) if a number would be 2^64 or more.
pub(crate) fn seconds_in(
    clocks: &Clocks,
    waited: u64,
    ending: Option<End>,
) -> Result<u64, ToolFault>
    ensures seconds { IfOk result (λ seconds. seconds ≡ seconds_in clocks.now waited ending) }
    ensures fault { IfErr result IsOutside }
{
    let sent = sum(clocks.to_answerer.ticks, clocks.to_caller.ticks)?;
    let waits = product(TICKS, sum(waited, longer_wait(ending))?)?;
    Ok(sum(sent, waits)? / SECOND_TICKS)
}

//! What an answerer watches its caller for: DCSs that it doesn't allow, page numbers that jump, and a page under the number of the last one.

ghost use Rattle.signals.specs.Reading.{field_bit, late_bit, with_x};
ghost use Rattle.signals.specs.Signals.{PlainSignal, plain, plain_read};
ghost use Rattle.signals.specs.declared.fault.SignalFault.{SignalFault as AnyFault};
ghost use Rattle.std.specs.Prelude.{◌≡◌, ◌≤◌, ◌||◌, ◌&&◌, List, Result as AnyResult, Some, None, cond, drop, ℕ};
ghost use Rattle.terminals.specs.Watching.{first_gap, follows, numbered_by, page_read, refusal_read, refused_by, seen_reading};
ghost use Rattle.terminals.specs.Watching.{is_marked, is_still, no_numbers, noted, nothing_used, nothing_watched, once_more, refusal_for};
ghost use Rattle.terminals.specs.Watching.{refusal_of_seen, second_refusal, unknown_dcs, used_now, used_read, watched_reading};

use signals::{Caps, Mark, Signal, SignalFault, allows};

/// What sees each good frame that a terminal hears, once, with what it says, and each frame that its station says: what is watched, notes.
pub trait Watch {
    // What it is after a content that was heard and what that says.
    ghost saw: { Self → List ℕ → AnyResult PlainSignal AnyFault → Self };

    // What it is after a content that the station says and its signal.
    ghost saw_said: { Self → List ℕ → PlainSignal → Self };

    /// Sees the content of a good frame, and what it says.
    fn see(&mut self, content: &[u8], said: Result<Signal<'_>, SignalFault>)
        ensures { self.new ≡ saw self.old content.now (plain_read said.entry) };

    /// Sees the content of a frame that the station says, and its signal.
    fn see_said(&mut self, content: &[u8], signal: Signal<'_>)
        ensures { self.new ≡ saw_said self.old content.now (plain signal.entry) };
}

impl Watch for Option<Watched> {
    ghost saw = { seen_reading };

    ghost saw_said = { λ watched content signal. watched };

    fn see(&mut self, content: &[u8], said: Result<Signal<'_>, SignalFault>) {
        if let Some(before) = *self {
            *self = Some(before.with(content, said));
        }
    }

    fn see_said(&mut self, _content: &[u8], _signal: Signal<'_>) {}
}

/// Why a call is refused.
#[derive(Clone, Copy, Debug, PartialEq, Eq)]
pub enum Refusal {
    /// Of a DCS: its pages would come without error correction.
    NoErrorCorrection,
    /// Of a DCS: the answerer has no such speed, width, lines or code.
    NotOffered,
    /// A page or block came under the numbers of the one that was accepted last, so that its PPS can't be told from a repeated one.
    UsedNumber,
}

/// How often a DCS wasn't allowed.
#[derive(Clone, Copy, Debug, PartialEq, Eq)]
pub enum Refused {
    /// Never.
    Never,
    /// Once.
    Once,
    /// Twice or more, the second time for this reason.
    Twice(Refusal),
}

/// The page numbers of the PPSs of a call, from 0, modulo 256.
#[derive(Clone, Copy, Debug, PartialEq, Eq)]
pub struct PageNumbers {
    /// The last one; None before the first PPS.
    pub last: Option<u8>,
    /// The first one that was neither that of the PPS before it nor the next; of the first PPS, that wasn't 0. None if each followed.
    pub gap: Option<u8>,
}

/// The mark of the block that a station accepted last, and what has come since.
#[derive(Clone, Copy, Debug, PartialEq, Eq)]
pub struct UsedMark {
    /// The mark; None before the first block.
    pub mark: Option<Mark>,
    /// Whether an FCD has come since.
    pub frames: bool,
    /// Whether a PPS with such a mark has come after an FCD: other content under used numbers.
    pub again: bool,
}

/// What was seen of a caller in the frames that an answerer heard, apart from what the station makes of them.
#[derive(Clone, Copy, Debug, PartialEq, Eq)]
pub struct Watched {
    /// The capabilities that allow a DCS.
    pub caps: Caps,
    /// How often a DCS wasn't allowed.
    pub refused: Refused,
    /// The page numbers.
    pub pages: PageNumbers,
    /// The mark of the block that was accepted last.
    pub used: UsedMark,
}

impl Watched {
    /// Nothing seen yet, by an answerer with these capabilities.
    pub fn new(caps: Caps) -> Watched
        ensures { result ≡ nothing_watched caps }
    {
        Watched {
            caps,
            refused: Refused::Never,
            pages: PageNumbers::NONE,
            used: UsedMark::NONE,
        }
    }

    /// What was seen, with the content of a good frame and what it says.
    fn with(self, content: &[u8], said: Result<Signal<'_>, SignalFault>) -> Watched
        ensures { result ≡ watched_reading self content.now (plain_read said.entry) }
    {
        Watched {
            caps: self.caps,
            refused: refused_by(self.refused, refusal_read(&self.caps, content, said)),
            pages: self.pages.with(page_read(said)),
            used: self.used.with(said),
        }
    }

    /// Why the call is refused: the second DCS wasn't allowed, or a page came under the number of the last one. None if it isn't.
    pub fn refusal(self) -> Option<Refusal>
        ensures { result ≡ refusal_of_seen self }
    {
        refusal_for(self.refused.second(), self.used.again)
    }

    /// Why the call is refused, whatever DCSs there were: a page came under the number of the last one. None if it isn't.
    pub fn reuse(self) -> Option<Refusal>
        ensures { result ≡ refusal_for None self.used.again }
    {
        refusal_for(None, self.used.again)
    }
}

impl Refused {
    /// Why a second DCS wasn't allowed; None if there was none.
    fn second(self) -> Option<Refusal>
        ensures { result ≡ second_refusal self }
    {
        match self {
            Refused::Never | Refused::Once => None,
            Refused::Twice(why) => Some(why),
        }
    }
}

impl UsedMark {
    /// No block was accepted yet.
    const NONE: UsedMark = UsedMark {
        mark: None,
        frames: false,
        again: false,
    };

    /// The used mark, if a station has accepted this block last: after another one no frame has come.
    fn now(self, mark: Option<Mark>) -> UsedMark
        ensures { result ≡ used_now mark self }
    {
        UsedMark {
            mark,
            frames: is_still(self.mark, mark) && self.frames,
            again: self.again,
        }
    }

    /// The used mark after a signal.
    fn with(self, said: Result<Signal<'_>, SignalFault>) -> UsedMark
        ensures { result ≡ used_read self (plain_read said.entry) }
    {
        match said {
            Ok(Signal::Fcd { .. }) => UsedMark {
                frames: true,
                ..self
            },
            Ok(Signal::Pps { page, block, .. }) => self.named(Mark { page, block }),
            _ => self,
        }
    }

    /// The used mark after a PPS with this mark.
    fn named(self, mark: Mark) -> UsedMark
        ensures { result ≡ record self { again = self.again || (self.frames && is_marked self.mark mark) } }
    {
        UsedMark {
            again: self.again || self.frames && is_marked(self.mark, mark),
            ..self
        }
    }
}

/// Notes which block a station has accepted last, if anything is watched: before each input, so that a page under its number is seen. Octets
/// that bring a page and at once another one under its number count as one page, and get one answer.
pub fn note(watched: &mut Option<Watched>, mark: Option<Mark>)
    ensures { watched.new ≡ noted mark watched.old }
{
    if let Some(before) = *watched {
        *watched = Some(Watched {
            used: before.used.now(mark),
            ..before
        });
    }
}

/// Whether this is the mark of a block that was accepted.
fn is_marked(accepted: Option<Mark>, mark: Mark) -> bool
    ensures { result ≡ is_marked accepted mark }
{
    match accepted {
        None => false,
        Some(accepted) => accepted.is_same(mark),
    }
}

/// Whether two blocks that were accepted last have one mark.
fn is_still(before: Option<Mark>, now: Option<Mark>) -> bool
    ensures { result ≡ is_still before now }
{
    match before {
        None => false,
        Some(mark) => is_marked(now, mark),
    }
}

/// Why a call is refused: for a page under a used number, or for the second DCS that isn't allowed.
fn refusal_for(second: Option<Refusal>, again: bool) -> Option<Refusal>
    ensures { result ≡ refusal_for second again }
{
    if again {
        return Some(Refusal::UsedNumber);
    }
    second
}

impl PageNumbers {
    /// No page number yet.
    pub const NONE: PageNumbers = PageNumbers {
        last: None,
        gap: None,
    };

    /// The page numbers after a content, with the one that it has.
    fn with(self, page: Option<u8>) -> PageNumbers
        ensures { result ≡ numbered_by self page }
    {
        match page {
            None => self,
            Some(page) => PageNumbers {
                last: Some(page),
                gap: first_gap(self.gap, follows(self.last, page), page),
            },
        }
    }
}

/// The first page number that didn't follow, by the next one, which does or doesn't.
fn first_gap(gap: Option<u8>, so: bool, next: u8) -> Option<u8>
    ensures { result ≡ first_gap gap so next }
{
    match gap {
        Some(page) => Some(page),
        None if so => None,
        None => Some(next),
    }
}

/// True if a page number follows the last one: it is the same or the next; the first one is 0.
fn follows(last: Option<u8>, page: u8) -> bool
    ensures { result ≡ follows last page }
{
    match last {
        None => page == 0,
        Some(last) => page == last || page == last.wrapping_add(1),
    }
}

/// The page number of a signal; None if it isn't a PPS.
fn page_read(said: Result<Signal<'_>, SignalFault>) -> Option<u8>
    ensures { result ≡ page_read (plain_read said.entry) }
{
    match said {
        Ok(Signal::Pps { page, .. }) => Some(page),
        _ => None,
    }
}

/// How often a DCS wasn't allowed, after a content.
fn refused_by(refused: Refused, refusal: Option<Refusal>) -> Refused
    ensures { result ≡ refused_by refused refusal }
{
    match refusal {
        None => refused,
        Some(why) => once_more(refused, why),
    }
}

/// How often, with one more.
fn once_more(refused: Refused, why: Refusal) -> Refused
    ensures { result ≡ once_more refused why }
{
    match refused {
        Refused::Never => Refused::Once,
        Refused::Once => Refused::Twice(why),
        Refused::Twice(first) => Refused::Twice(first),
    }
}

/// Why a content that says this is a DCS that isn't allowed, if it is one (ITU-T T.30, 5.3.6.2).
fn refusal_read(
    caps: &Caps,
    content: &[u8],
    said: Result<Signal<'_>, SignalFault>,
) -> Option<Refusal>
    ensures { result ≡ refusal_read caps.now (drop 3 content.now) (plain_read said.entry) }
{
    match said {
        Ok(Signal::Dcs(params)) => {
            if allows(caps, &params) {
                None
            } else {
                Some(Refusal::NotOffered)
            }
        }
        Ok(Signal::Other(octet)) => other_refusal(octet, fields_of(content)),
        _ => None,
    }
}

/// Why a signal that says nothing known is a DCS that isn't allowed, if it is one.
fn other_refusal(octet: u8, fields: &[u8]) -> Option<Refusal>
    ensures { result ≡ cond (with_x 0x82 octet) (Some (unknown_dcs (late_bit fields.now 27))) None }
{
    if octet == 0x82 || octet == 0x83 {
        return Some(unknown_dcs(bit(fields, 24) && bit(fields, 27)));
    }
    None
}

/// Why a DCS isn't allowed that is with error correction (true) or without.
fn unknown_dcs(corrects: bool) -> Refusal
    ensures { result ≡ unknown_dcs corrects }
{
    if corrects {
        return Refusal::NotOffered;
    }
    Refusal::NoErrorCorrection
}

/// The octets after a content's third.
pub(crate) fn fields_of(content: &[u8]) -> &[u8]
    ensures { result.now ≡ drop 3 content.now }
{
    if content.len() < 3 {
        return b"";
    }
    &content[3..]
}

/// A bit of the information field, numbered from 1 in order of sending; 0 past the last.
fn bit(fields: &[u8], number: usize) -> bool
    requires { 1 ≤ number }
    ensures { result ≡ field_bit fields.now number }
{
    let place = number - 1;
    match fields.get(place / 8) {
        Some(octet) => (octet >> (place % 8)) & 1 == 1,
        None => false,
    }
}

//! What a call came to, counted from the frames that its station heard and said.

ghost use Rattle.raster.specs.Packed.{bit_in};
ghost use Rattle.signals.specs.Signals.{plain, plain_read};
ghost use Rattle.std.specs.Prelude.{◌≡◌, ◌≤◌};
ghost use Rattle.terminals.specs.Figures.{asked_below, asked_of, begins_block, commanding, counted, figures_heard, figures_said, hearing};
ghost use Rattle.terminals.specs.Figures.{is_blank, is_command, is_name, is_of_page, more, name_after, no_figures, said_as, unread_of};
ghost use Rattle.terminals.specs.Figures.{with_confirmed, with_pps, with_request, with_speed};

use crate::watching::{Watch, fields_of};
use raster::packed::{Order, bit_of};
use signals::{Mark, Pps, Signal, SignalFault, Speed};

/// What a call came to so far, counted from the good frames that its station heard and those that it said. A frame of a page, FCD or RCP,
/// changes nothing. A count stays at its greatest value.
#[derive(Clone, Copy, Debug, PartialEq, Eq)]
pub struct Figures {
    /// The blocks that are confirmed: each by the first MCF after its PPS.
    pub blocks: u64,
    /// The PPRs.
    pub requests: u64,
    /// The frames that these ask for, of those that the block of the last PPS has.
    pub resent: u64,
    /// The commands that the station said again though no frame answered the one before.
    pub retries: u64,
    /// The FTTs.
    pub failed_checks: u64,
    /// The speed of the first DCS.
    pub first_speed: Option<Speed>,
    /// The speed of the last DCS.
    pub last_speed: Option<Speed>,
    /// The information field of the last TSI or CSI that was heard: what the other station calls itself, the last sign first.
    pub name: Option<[u8; 20]>,
    /// The control field of the last frame that was heard, if that is no signal of ours; frames of pages aside.
    pub unread: Option<u8>,
    /// The last PPS.
    pub pps: Option<Pps>,
    /// Whether its block isn't confirmed.
    pub is_open: bool,
    /// Whether no frame has answered the last command.
    pub is_unanswered: bool,
}

/// Returns one more, unless the count is at its greatest value.
fn more(count: u64) -> u64
    ensures { result ≡ more count }
{
    count.saturating_add(1)
}

/// Returns whether a signal is one that a station says again if nothing answers it: a DIS, a DCS, a PPS or an RR.
fn is_command(signal: Signal<'_>) -> bool
    ensures { result ≡ is_command (plain signal.entry) }
{
    match signal {
        Signal::Dis(_) | Signal::Dcs(_) | Signal::Pps { .. } | Signal::Rr => true,
        _ => false,
    }
}

/// Returns whether a signal is a frame of a page.
fn is_of_page(signal: Signal<'_>) -> bool
    ensures { result ≡ is_of_page (plain signal.entry) }
{
    matches!(signal, Signal::Fcd { .. } | Signal::Rcp)
}

/// Returns whether a control field is that of CSI or TSI, by which a station names itself (T.30, 5.3.6.2).
fn is_name(octet: u8) -> bool
    ensures { result ≡ is_name octet }
{
    octet == 0x40 || octet == 0x42 || octet == 0x43
}

/// Returns how many of the frames before a number a PPR asks for.
fn asked_below(map: &[u8; 32], end: u16) -> u64
    requires { end ≤ 256 }
    ensures { result ≡ asked_below map.now end }
{
    let mut asked = 0;
    for number in 0..end {
        asked += u64::from(bit_of(Order::LsbFirst, map, u128::from(number)));
    }
    asked
}

/// Returns how many frames of the last PPS's block a PPR asks for: none before the first PPS.
fn asked_of(pps: Option<Pps>, map: &[u8; 32]) -> u64
    ensures { result ≡ asked_of pps map.now }
{
    match pps {
        Some(pps) => asked_below(map, u16::from(pps.last) + 1),
        None => 0,
    }
}

/// Returns whether a PPS begins another block than the last PPS.
fn begins_block(last: Option<Pps>, mark: Mark) -> bool
    ensures { result ≡ begins_block last mark }
{
    match last {
        Some(last) => !last.mark.is_same(mark),
        None => true,
    }
}

/// Returns the control field of a signal that isn't ours.
fn unread_of(signal: Signal<'_>) -> Option<u8>
    ensures { result ≡ unread_of (plain signal.entry) }
{
    match signal {
        Signal::Other(octet) => Some(octet),
        _ => None,
    }
}

/// Returns whether all octets are spaces.
fn is_blank(octets: &[u8]) -> bool
    ensures { result ≡ is_blank octets.now }
{
    for octet in octets {
        if *octet != b' ' {
            return false;
        }
    }
    true
}

/// Returns what the other station calls itself once a content with this information field was heard. A name has 20 signs, and not only
/// spaces.
fn name_after(before: Option<[u8; 20]>, octet: Option<u8>, fields: &[u8]) -> Option<[u8; 20]>
    ensures { result ≡ name_after before octet fields.now }
{
    match octet {
        Some(octet) if is_name(octet) && fields.len() == 20 && !is_blank(fields) => {
            let mut name = [0; 20];
            name.copy_from_slice(fields);
            Some(name)
        }
        _ => before,
    }
}

impl Figures {
    /// Those of a call that hasn't begun.
    pub const NONE: Figures = Figures {
        blocks: 0,
        requests: 0,
        resent: 0,
        retries: 0,
        failed_checks: 0,
        first_speed: None,
        last_speed: None,
        name: None,
        unread: None,
        pps: None,
        is_open: false,
        is_unanswered: false,
    };

    /// Returns the figures once a content was heard too that says this.
    pub fn heard(self, content: &[u8], said: Result<Signal<'_>, SignalFault>) -> Figures
        ensures { result ≡ figures_heard self content.now (plain_read said.entry) }
    {
        let Ok(signal) = said else {
            return Figures {
                unread: None,
                is_unanswered: false,
                ..self
            };
        };
        if is_of_page(signal) {
            return self;
        }
        self.hearing(fields_of(content), signal).counted(signal)
    }

    /// Returns the figures once a signal was said too.
    pub fn said(self, signal: Signal<'_>) -> Figures
        ensures { result ≡ said_as self (plain signal.entry) }
    {
        self.commanding(signal).counted(signal)
    }

    /// Returns the figures once a signal was heard in a content with this information field, but for what it adds, whoever says it.
    fn hearing(self, fields: &[u8], signal: Signal<'_>) -> Figures
        ensures { result ≡ hearing self fields.now (plain signal.entry) }
    {
        let unread = unread_of(signal);
        Figures {
            name: name_after(self.name, unread, fields),
            unread,
            is_unanswered: false,
            ..self
        }
    }

    /// Returns the figures once a signal was said, as far as it asks for an answer.
    fn commanding(self, signal: Signal<'_>) -> Figures
        ensures { result ≡ commanding self (plain signal.entry) }
    {
        if !is_command(signal) {
            return self;
        }
        let retries = if self.is_unanswered {
            more(self.retries)
        } else {
            self.retries
        };
        Figures {
            retries,
            is_unanswered: true,
            ..self
        }
    }

    /// Adds a signal, whoever said it.
    fn counted(self, signal: Signal<'_>) -> Figures
        ensures { result ≡ counted self (plain signal.entry) }
    {
        match signal {
            Signal::Dcs(params) => self.with_speed(params.speed),
            Signal::Ftt => Figures {
                failed_checks: more(self.failed_checks),
                ..self
            },
            Signal::Pps {
                ends,
                page,
                block,
                last,
            } => self.with_pps(Pps {
                ends,
                mark: Mark { page, block },
                last,
            }),
            Signal::Ppr(map) => self.with_request(&map),
            Signal::Mcf => self.with_confirmed(),
            Signal::Dis(_)
            | Signal::Cfr
            | Signal::Fcd { .. }
            | Signal::Rcp
            | Signal::Rnr
            | Signal::Rr
            | Signal::Dcn
            | Signal::Other(_) => self,
        }
    }

    /// Adds a DCS of this speed.
    fn with_speed(self, speed: Speed) -> Figures
        ensures { result ≡ with_speed self speed }
    {
        Figures {
            first_speed: Some(self.first_speed.unwrap_or(speed)),
            last_speed: Some(speed),
            ..self
        }
    }

    /// Adds a PPS. One that has the mark of the last one asks about the same block.
    fn with_pps(self, pps: Pps) -> Figures
        ensures { result ≡ with_pps self pps }
    {
        Figures {
            pps: Some(pps),
            is_open: self.is_open || begins_block(self.pps, pps.mark),
            ..self
        }
    }

    /// Adds a PPR.
    fn with_request(self, map: &[u8; 32]) -> Figures
        ensures { result ≡ with_request self map.now }
    {
        Figures {
            requests: more(self.requests),
            resent: self.resent.saturating_add(asked_of(self.pps, map)),
            ..self
        }
    }

    /// Adds an MCF.
    fn with_confirmed(self) -> Figures
        ensures { result ≡ with_confirmed self }
    {
        if !self.is_open {
            return self;
        }
        Figures {
            blocks: more(self.blocks),
            is_open: false,
            ..self
        }
    }
}

impl Watch for Figures {
    ghost saw = { figures_heard };

    ghost saw_said = { figures_said };

    fn see(&mut self, content: &[u8], said: Result<Signal<'_>, SignalFault>) {
        *self = self.heard(content, said);
    }

    fn see_said(&mut self, _content: &[u8], signal: Signal<'_>) {
        *self = self.said(signal);
    }
}

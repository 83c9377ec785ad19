//! Events, items as a transcript names them, and entries.

ghost use Rattle.line_sim.specs.Entries.{signal_fields, signal_kind};
ghost use Rattle.line_sim.specs.Octets.{form_of};
ghost use Rattle.signals.specs.Signals.{plain};
ghost use Rattle.std.specs.Prelude.{◌≡◌};

use signals::{Caps, PageEnd, Params, Signal};
use stations::Turn;

/// What happens on the line, or to one of its stations.
#[derive(Clone, Copy, Debug, PartialEq, Eq)]
pub enum Event {
    /// The first item under way to the answerer comes.
    DeliverToAnswerer,
    /// The first item under way to the caller comes.
    DeliverToCaller,
    /// The first item under way to the answerer is lost.
    LoseToAnswerer,
    /// The first item under way to the caller is lost.
    LoseToCaller,
    /// The training check that is first under way to the answerer is spoiled: all its octets become FF.
    Spoil,
    /// The caller's wait for an answer is over: T4, or T1 while it waits for a DIS.
    CallerTimeout,
    /// The caller's wait for a busy answerer, T5, is over.
    CallerT5,
    /// The answerer's wait for a caller, T1, is over.
    AnswererT1,
    /// The answerer's wait for a command or a training check, T2, is over.
    AnswererT2,
    /// The answerer can't take pages for now (true), or can again (false).
    Busy(bool),
}

/// The kind of an item on the line: the signal of a frame, or a training check.
#[derive(Clone, Copy, Debug, PartialEq, Eq)]
pub enum Kind {
    /// A frame with DIS: what the answerer can do.
    Dis,
    /// A frame with DCS: how pages will be sent.
    Dcs,
    /// A training check: 1.5 s of 0 bits, without flags.
    Training,
    /// A frame with CFR: the training check was good.
    Cfr,
    /// A frame with FTT: the training check was bad.
    Ftt,
    /// A frame with FCD, page data, and its number in the block, 0 to 255.
    Fcd(u8),
    /// A frame with RCP: the end of a burst.
    Rcp,
    /// A frame with PPS: the end of a block.
    Pps,
    /// A frame with MCF: the block is confirmed.
    Mcf,
    /// A frame with PPR: which frames are to be sent again.
    Ppr,
    /// A frame with RNR: the answerer is busy.
    Rnr,
    /// A frame with RR: the caller asks a busy answerer again.
    Rr,
    /// A frame with DCN: its station hangs up.
    Dcn,
}

/// What a frame's information field says: of a DIS, a DCS, a PPS and a PPR (ITU-T T.30, 5.3.6.2 and A.4).
#[derive(Clone, Copy, Debug, PartialEq, Eq)]
pub enum Fields {
    /// Nothing: another frame, a training check, or no item.
    Nothing,
    /// A DIS: what the answerer can do.
    Dis(Caps),
    /// A DCS: how pages will be sent.
    Dcs(Params),
    /// A PPS: the block that it ends.
    Pps {
        /// What ends with the block.
        ends: PageEnd,
        /// The number of the page modulo 256.
        page: u8,
        /// The number of the block in its page modulo 256.
        block: u8,
        /// The number of the block's last frame.
        last: u8,
    },
    /// A PPR: 256 bits, the least significant of the first octet for frame 0; a 1 asks for the frame.
    Ppr([u8; 32]),
}

/// How an item is sent: the carrier, its speed, and flags or none.
#[derive(Clone, Copy, Debug, PartialEq, Eq)]
pub enum Form {
    /// A frame of the control channel, at 300 bit/s: each but FCD and RCP (ITU-T T.30, 5.3).
    Control,
    /// A frame of a page, FCD or RCP, at the speed that the DCS before it says (ITU-T T.30, A.4).
    Page,
    /// A training check, at the page's speed too: 1.5 s of 0 bits without flags (ITU-T T.30, 5.3.6.1.3).
    Check,
}

impl Kind {
    /// The kind of a signal; None if the signal isn't known, and no station sends one like that.
    pub fn of(signal: &Signal) -> Option<Kind>
        ensures { result ≡ signal_kind (plain signal.now) }
    {
        match signal {
            Signal::Dis(_) => Some(Kind::Dis),
            Signal::Dcs(_) => Some(Kind::Dcs),
            Signal::Cfr => Some(Kind::Cfr),
            Signal::Ftt => Some(Kind::Ftt),
            Signal::Fcd { number, .. } => Some(Kind::Fcd(*number)),
            Signal::Rcp => Some(Kind::Rcp),
            Signal::Pps { .. } => Some(Kind::Pps),
            Signal::Ppr(_) => Some(Kind::Ppr),
            Signal::Mcf => Some(Kind::Mcf),
            Signal::Rnr => Some(Kind::Rnr),
            Signal::Rr => Some(Kind::Rr),
            Signal::Dcn => Some(Kind::Dcn),
            Signal::Other(_) => None,
        }
    }

    /// How an item of this kind is sent.
    pub fn form(self) -> Form
        ensures { result ≡ form_of self }
    {
        match self {
            Kind::Training => Form::Check,
            Kind::Fcd(_) | Kind::Rcp => Form::Page,
            _ => Form::Control,
        }
    }
}

/// A borrowed item in transit.
#[derive(Clone, Copy, Debug, PartialEq, Eq)]
pub struct LineItem<'a> {
    /// Its kind, which says how it is sent.
    pub kind: Kind,
    /// Its octets as they are on the line, the least significant bit of each first: those of a frame with its flags, or of a training
    /// check.
    pub octets: &'a [u8],
}

impl Fields {
    /// What the information field of a signal says.
    pub fn of(signal: &Signal) -> Fields
        ensures { result ≡ signal_fields (plain signal.now) }
    {
        match signal {
            Signal::Dis(caps) => Fields::Dis(*caps),
            Signal::Dcs(params) => Fields::Dcs(*params),
            Signal::Pps {
                ends,
                page,
                block,
                last,
            } => Fields::Pps {
                ends: *ends,
                page: *page,
                block: *block,
                last: *last,
            },
            Signal::Ppr(map) => Fields::Ppr(*map),
            _ => Fields::Nothing,
        }
    }
}

/// What the transcript shows of the item that an event delivers or loses.
#[derive(Clone, Copy, Debug)]
pub(crate) struct Shown {
    /// Its kind, if there is an item.
    pub(crate) item: Option<Kind>,
    /// What its information field says.
    pub(crate) fields: Fields,
}

/// Shows no item.
pub(crate) const NONE_SHOWN: Shown = Shown {
    item: None,
    fields: Fields::Nothing,
};

/// What the transcript shows of an event.
#[derive(Clone, Copy, Debug, PartialEq, Eq)]
pub struct Entry {
    /// The event itself.
    pub event: Event,
    /// The item that was delivered or lost, if there was one.
    pub item: Option<Kind>,
    /// What that item's information field says, as it was sent.
    pub fields: Fields,
    /// The turn of the station that the event acts on; `Silent` if it took no step.
    pub turn: Turn,
    /// How many FCDs a burst has, of the whole burst even if its transmission was cut; 0 for any other turn.
    pub fcds: u16,
    /// True if a growth was refused in the event.
    pub refused: bool,
}

//! The carriers that items go out on: ITU-T T.30, 5.3 and Annex A.

ghost use Rattle.std.specs.Prelude.{◌≡◌};
ghost use Rattle.signals.specs.Signals.{plain};
ghost use Rattle.stations.specs.Bursts.{carrier_of, same_kind};
ghost use Rattle.stations.specs.Inputs.{framed};
ghost use Rattle.stations.specs.Lending.{plain_item};

use crate::lending::Item;
use signals::{Signal, Speed};

/// What a modem sends with. ITU-T T.30, 5.3 and Annex A.
#[derive(Clone, Copy, Debug, PartialEq, Eq)]
pub enum Carrier {
    /// V.21 at 300 bit/s, for every frame but those of a page (T.30, 5.3).
    V21,
    /// The training check at the message speed, octets 00 with no frame (T.30, 5.3.6.1).
    Training(Speed),
    /// FCDs and RCPs, the frames of a page, at the message speed (T.30, Annex A).
    Page(Speed),
}

/// The carrier of an item at a message speed.
pub(crate) fn carrier_of(speed: Speed, item: Item<'_>) -> Carrier
    ensures { result ≡ carrier_of speed (plain_item item.entry) }
{
    match item {
        Item::Frame { signal, .. } => carrier_of_frame(speed, signal),
        Item::Training(_) => Carrier::Training(speed),
    }
}

/// The carrier of a frame at a message speed.
fn carrier_of_frame(speed: Speed, signal: Signal<'_>) -> Carrier
    ensures { result ≡ carrier_of speed (framed (plain signal.entry)) }
{
    match signal {
        Signal::Fcd { .. } => Carrier::Page(speed),
        Signal::Rcp => Carrier::Page(speed),
        Signal::Dis(_) => Carrier::V21,
        Signal::Dcs(_) => Carrier::V21,
        Signal::Cfr => Carrier::V21,
        Signal::Ftt => Carrier::V21,
        Signal::Pps { .. } => Carrier::V21,
        Signal::Ppr(_) => Carrier::V21,
        Signal::Mcf => Carrier::V21,
        Signal::Rnr => Carrier::V21,
        Signal::Rr => Carrier::V21,
        Signal::Dcn => Carrier::V21,
        Signal::Other(_) => Carrier::V21,
    }
}

/// Whether two carriers of one turn are the same.
pub(crate) fn is_same_kind(carrier: Carrier, other: Carrier) -> bool
    ensures { result ≡ same_kind carrier other }
{
    match (carrier, other) {
        (Carrier::V21, Carrier::V21) => true,
        (Carrier::Training(_), Carrier::Training(_)) => true,
        (Carrier::Page(_), Carrier::Page(_)) => true,
        (Carrier::V21, _) => false,
        (Carrier::Training(_), _) => false,
        (Carrier::Page(_), _) => false,
    }
}

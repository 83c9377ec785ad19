//! The facsimile control fields and their octets.

ghost use Rattle.signals.specs.Controls.{control_of, is_octet, octet_of, x_of};
ghost use Rattle.std.specs.Prelude.{◌≡◌};

use crate::signal::Side;

/// The facsimile control fields that are read and written. ITU-T T.30, 5.3.6.1 and A.4.
#[derive(Clone, Copy)]
pub(crate) enum Control {
    Dis,
    Dcs,
    Cfr,
    Ftt,
    Fcd,
    Rcp,
    Pps,
    Ppr,
    Mcf,
    Rnr,
    Rr,
    Dcn,
}

/// All of them.
const CONTROLS: [Control; 12] = [
    Control::Dis,
    Control::Dcs,
    Control::Cfr,
    Control::Ftt,
    Control::Fcd,
    Control::Rcp,
    Control::Pps,
    Control::Ppr,
    Control::Mcf,
    Control::Rnr,
    Control::Rr,
    Control::Dcn,
];

impl Side {
    /// The first bit X of a facsimile control field that this station sends.
    fn x(self) -> u8
        ensures { result ≡ x_of self }
    {
        match self {
            Side::Caller => 1,
            Side::Answerer => 0,
        }
    }
}

impl Control {
    /// The octet that a station sends, the least significant bit first.
    pub(crate) fn octet(self, side: Side) -> u8
        ensures { result ≡ octet_of self side }
    {
        // The one place that has these octets: reading looks for the field that either station would write so.
        let x = side.x();
        match self {
            Control::Dis => 0x80,
            Control::Dcs => 0x82 + x,
            Control::Cfr => 0x84 + x,
            Control::Ftt => 0x44 + x,
            Control::Fcd => 0x06,
            Control::Rcp => 0x86,
            Control::Pps => 0xBE + x,
            Control::Ppr => 0xBC + x,
            Control::Mcf => 0x8C + x,
            Control::Rnr => 0xEC + x,
            Control::Rr => 0x6E + x,
            Control::Dcn => 0xFA + x,
        }
    }

    /// Whether an octet is the one that either station sends.
    fn is_sent_as(self, octet: u8) -> bool
        ensures { result ≡ is_octet octet self }
    {
        octet == self.octet(Side::Caller) || octet == self.octet(Side::Answerer)
    }

    /// The control field with this octet, from either station; None for another octet.
    #[tactic(auto, unfolding(crate::specs::Controls::control_of))]
    pub(crate) fn of_octet(octet: u8) -> Option<Control>
        ensures { result ≡ control_of octet }
    {
        CONTROLS
            .iter()
            .copied()
            .find(|control| control.is_sent_as(octet))
    }
}

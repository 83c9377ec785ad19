//! The carriers and kinds of bursts, and their names in lines.

ghost use Rattle.conversations.specs.Lines.{channel_name, kind_name};
ghost use Rattle.conversations.specs.declared.carrier.Channel.{Channel as ChannelValue};
ghost use Rattle.conversations.specs.declared.carrier.Kind.{Kind as KindValue};
ghost use Rattle.std.specs.Prelude.{◌≡◌, MatchOption};

use signals::Speed;

/// The carrier that bits on the line go by.
#[derive(Clone, Copy, Debug, PartialEq, Eq)]
pub enum Channel {
    /// V.21 at 300 bit/s.
    V21,
    /// The carrier of a training check or of a page at a message speed.
    Message(Speed),
}

impl Channel {
    /// The carrier's name in lines: `v21`, or a modulation and its bit/s as `v29-9600`.
    pub fn name(self) -> &'static str
        ensures { result.now ≡ channel_name self }
    {
        match self {
            Channel::V21 => "v21",
            Channel::Message(Speed::V27At2400) => "v27ter-2400",
            Channel::Message(Speed::V27At4800) => "v27ter-4800",
            Channel::Message(Speed::V29At7200) => "v29-7200",
            Channel::Message(Speed::V29At9600) => "v29-9600",
            Channel::Message(Speed::V17At7200) => "v17-7200",
            Channel::Message(Speed::V17At9600) => "v17-9600",
            Channel::Message(Speed::V17At12000) => "v17-12000",
            Channel::Message(Speed::V17At14400) => "v17-14400",
        }
    }

    /// The carrier of this name; None if no carrier has it.
    pub fn named(name: &[u8]) -> Option<Channel>
        ensures { MatchOption result ((channel : ChannelValue) → name.now ≡ channel_name channel → ⊥)
            (λ channel. name.now ≡ channel_name channel) }
    {
        match name {
            b"v21" => Some(Channel::V21),
            b"v27ter-2400" => Some(Channel::Message(Speed::V27At2400)),
            b"v27ter-4800" => Some(Channel::Message(Speed::V27At4800)),
            b"v29-7200" => Some(Channel::Message(Speed::V29At7200)),
            b"v29-9600" => Some(Channel::Message(Speed::V29At9600)),
            b"v17-7200" => Some(Channel::Message(Speed::V17At7200)),
            b"v17-9600" => Some(Channel::Message(Speed::V17At9600)),
            b"v17-12000" => Some(Channel::Message(Speed::V17At12000)),
            b"v17-14400" => Some(Channel::Message(Speed::V17At14400)),
            _ => None,
        }
    }
}

/// What bits on the line are.
#[derive(Clone, Copy, Debug, PartialEq, Eq)]
pub enum Kind {
    /// Flags and frames, `hdlc` in lines.
    Frames,
    /// A training check, `raw` in lines.
    Check,
}

impl Kind {
    /// The kind's name in lines: `hdlc` or `raw`.
    pub fn name(self) -> &'static str
        ensures { result.now ≡ kind_name self }
    {
        match self {
            Kind::Frames => "hdlc",
            Kind::Check => "raw",
        }
    }

    /// The kind of this name; None if no kind has it.
    pub fn named(name: &[u8]) -> Option<Kind>
        ensures { MatchOption result ((kind : KindValue) → name.now ≡ kind_name kind → ⊥) (λ kind. name.now ≡ kind_name kind) }
    {
        match name {
            b"hdlc" => Some(Kind::Frames),
            b"raw" => Some(Kind::Check),
            _ => None,
        }
    }
}

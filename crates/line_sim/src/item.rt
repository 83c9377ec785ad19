//! What is under way: frames as octets, and training checks.

ghost use Rattle.hdlc.specs.DeframerState.{IsIdle};
ghost use Rattle.line_sim.specs.Entries.{fields_of, kind_of, signal_kind};
ghost use Rattle.line_sim.specs.Headline.{CanBeWritten};
ghost use Rattle.line_sim.specs.Hearing.{AnswererHears, CallerHears};
ghost use Rattle.line_sim.specs.Line.{spoiled};
ghost use Rattle.line_sim.specs.Octets.{AreOctetsOf, Carries, TellsFinal, is_final};
ghost use Rattle.signals.specs.Reading.{read_content};
ghost use Rattle.signals.specs.Signals.{PlainSignal, plain};
ghost use Rattle.signals.specs.Writing.{IsWritable};
ghost use Rattle.signals.specs.declared.fault.SignalFault.{SignalFault};
ghost use Rattle.stations.specs.Lending.{plain_item};
ghost use Rattle.std.specs.Prelude.{◌≡◌, [], ◌∷◌, replicate, option_map, IfOk, IfSome, IfNone, IsTrue, ◌↔◌};

use crate::event::{Fields, Kind, LineItem};
use crate::sender::Sender;
use hdlc::{Deframer, write_frame};
use raster::packed::Order;
use run_tables::BitWriter;
use signals::{Side, Signal};
use stations::{Answerer, AnswererIn, Caller, CallerIn, Item, Turn};
use std::alloc::{AllocError, Global};
use std::marker::Model;

/// The kind of a signal that a station sends.
fn kind_of(signal: &Signal) -> Kind
    requires { IsWritable (plain signal.now) }
    ensures { signal_kind (plain signal.now) ≡ Some result }
{
    Kind::of(signal).unwrap_or(Kind::Dcn)
}

/// True if an item is a training check.
fn is_check(kind: Kind) -> bool
    ensures { IsTrue result ↔ (kind ≡ Kind.Training) }
{
    matches!(kind, Kind::Training)
}

/// The octets of the frame of a signal, with its flags, as a station sends it. Errs if memory is refused.
fn frame_octets(
    alloc: Global,
    signal: &Signal,
    side: Side,
    last: bool,
) -> Result<Vec<u8>, AllocError>
    requires writable { IsWritable (plain signal.now) }
    requires told { last ≡ is_final (plain signal.now) }
    ensures { IfOk result (λ octets. Carries side octets.items (plain signal.now)) }
{
    let content = signals::write(signal, side, last);
    let mut writer = BitWriter::new(alloc, Order::LsbFirst);
    write_frame(content.as_slice(), &mut writer)?;
    Ok(writer.into_octets())
}

/// The octets of a training check: `count` octets 0. Errs if memory is refused.
fn training_octets(alloc: Global, count: u32) -> Result<Vec<u8>, AllocError>
    ensures { IfOk result (λ octets. octets.items ≡ replicate count 0) }
{
    let mut octets = Vec::new(alloc);
    octets.resize(count as usize, 0)?;
    Ok(octets)
}

/// The signal that a frame's content says; None without a frame, or if its content says none.
fn signal_in(content: Option<&[u8]>) -> Option<Signal<'_>>
    ensures said { IfSome content.entry (λ octets. (signal : PlainSignal) → read_content octets.now ≡ Ok signal
        → option_map plain result ≡ Some signal) }
    ensures refused { IfSome content.entry (λ octets. (fault : SignalFault) → read_content octets.now ≡ Err fault → result ≡ None) }
    ensures none { IfNone content.entry (result ≡ None) }
{
    signals::read(content?).ok()
}

/// An item in transit, of the station that sends it: the octets of a frame or of a training check.
#[derive(Debug, Drop)]
pub(crate) struct InTransit<S: Sender> {
    sender: S,
    kind: Kind,
    fields: Fields,
    octets: Vec<u8>,
}

impl<S: Sender> Model for InTransit<S> {
    ghost use Rattle.stations.specs.Inputs.{PlainItem};
    ghost use Rattle.line_sim.specs.Octets.{item_said, IsKept};

    ghost Value = { PlainItem };

    ghost view = { λ i. item_said i.kind i.octets.items };

    ghost invariant = { λ i. IsKept S.sends i.kind i.fields i.octets.items };
}

impl<S: Sender> InTransit<S> {
    /// An item as a station sends it. Errs if memory is refused.
    pub(crate) fn new(alloc: Global, sender: S, item: Item<'_>) -> Result<InTransit<S>, AllocError>
        requires can { CanBeWritten (plain_item item) }
        requires told { TellsFinal item }
        ensures { IfOk result (λ made. made ≡ plain_item item.entry) }
    {
        hdlc::laws::frame_octets_grow();
        signals::laws::reads_what_is_written();
        match item {
            Item::Frame { signal, last } => {
                let octets = frame_octets(alloc, &signal, sender.side(), last)?;
                let kind = kind_of(&signal);
                let fields = Fields::of(&signal);
                Ok(InTransit {
                    sender,
                    kind,
                    fields,
                    octets,
                })
            }
            Item::Training(count) => {
                let octets = training_octets(alloc, count)?;
                let kind = Kind::Training;
                Ok(InTransit {
                    sender,
                    kind,
                    fields: Fields::Nothing,
                    octets,
                })
            }
        }
    }

    /// The kind of the item.
    pub(crate) fn kind(&self) -> Kind
        ensures { kind_of self.now ≡ Some result }
    {
        hdlc::laws::frame_octets_grow();
        signals::laws::reads_what_is_written();
        self.kind
    }

    /// What the item's information field says.
    pub(crate) fn fields(&self) -> Fields
        ensures { result ≡ fields_of self.now }
    {
        self.fields
    }

    /// The octets of the item, as they are on the line.
    pub(crate) fn octets(&self) -> &[u8]
        ensures { AreOctetsOf S.sends result.now self.now }
    {
        hdlc::laws::frame_octets_grow();
        signals::laws::reads_what_is_written();
        &self.octets
    }

    /// Borrows the item: its kind and its octets.
    pub(crate) fn lend(&self) -> LineItem<'_>
        ensures kind { kind_of self.now ≡ Some result.kind }
        ensures octets { AreOctetsOf S.sends result.octets.now self.now }
    {
        LineItem {
            kind: self.kind(),
            octets: self.octets(),
        }
    }

    /// Delivers the item to the caller, and returns its turn. A training check is silent: a caller takes none. Errs if memory is refused:
    /// the caller hasn't heard the item.
    pub(crate) fn come_to_caller(
        &self,
        deframer: &mut Deframer,
        caller: &mut Caller,
    ) -> Result<Turn, AllocError>
        requires { IsIdle deframer.old }
        ensures idle { IsIdle deframer.new }
        ensures heard { CallerHears self.now caller.old caller.new result }
    {
        hdlc::laws::frame_octets_grow();
        hdlc::laws::frame_is_heard();
        signals::laws::reads_what_is_written();
        if is_check(self.kind) {
            return Ok(Turn::Silent);
        }
        deframer.feed(&self.octets)?;
        let Some(signal) = signal_in(deframer.next()) else {
            return Ok(Turn::Silent);
        };
        caller.step(CallerIn::Heard(signal))
    }

    /// Delivers the item to the answerer, and returns its turn. Errs if memory is refused: the answerer hasn't heard the item.
    pub(crate) fn come_to_answerer(
        &self,
        deframer: &mut Deframer,
        answerer: &mut Answerer,
    ) -> Result<Turn, AllocError>
        requires { IsIdle deframer.old }
        ensures idle { IsIdle deframer.new }
        ensures heard { AnswererHears self.now answerer.old answerer.new result }
    {
        hdlc::laws::frame_octets_grow();
        hdlc::laws::frame_is_heard();
        signals::laws::reads_what_is_written();
        if is_check(self.kind) {
            return answerer.step(AnswererIn::Training(&self.octets));
        }
        deframer.feed(&self.octets)?;
        let Some(signal) = signal_in(deframer.next()) else {
            return Ok(Turn::Silent);
        };
        answerer.step(AnswererIn::Heard(signal))
    }

    /// Spoils a training check: all its octets become FF. A frame stays as it is.
    pub(crate) fn spoil(&mut self)
        ensures { self.new ∷ [] ≡ spoiled (self.old ∷ []) }
    {
        if is_check(self.kind) {
            self.octets.fill(0xFF);
        }
    }
}

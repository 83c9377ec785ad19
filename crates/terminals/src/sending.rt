//! A burst written as octets with its flags.

ghost use Rattle.hdlc.specs.Flags.{flag};
ghost use Rattle.run_tables.specs.Written.{Appends};
ghost use Rattle.signals.specs.Signals.{plain};
ghost use Rattle.signals.specs.Writing.{IsWritable};
ghost use Rattle.std.specs.Prelude.{◌≡◌, ◌↔◌, ◌*◌, [], List, Bool, drop, replicate, false, IfOk, IsTrue, OnOk};
ghost use Rattle.stations.specs.Bursts.{PlainBurst, items_of};
ghost use Rattle.stations.specs.GivenBursts.{GivesBurst, plain_burst};
ghost use Rattle.stations.specs.Inputs.{PlainItem};
ghost use Rattle.stations.specs.Lending.{TellsLast, plain_item};
ghost use Rattle.terminals.specs.Sending.{AreBits, AreBitsOf, IsSent, idle};
ghost use Rattle.terminals.specs.Watching.{SawFirst, SawItem, SawItems};

use crate::timing::{flags_after, flags_before};
use crate::watching::Watch;
use hdlc::write_frame;
use run_tables::{BitWriter, Order};
use signals::{Side, Signal};
use stations::{Burst, BurstItems, Bursts, Carrier, Item};
use std::alloc::{AllocError, Global};

/// A burst as it is sent.
#[derive(Debug, Drop)]
pub struct SentBurst {
    /// The carrier that it goes out on.
    pub carrier: Carrier,
    /// How many bits it has.
    pub bits: u128,
    /// The octets that hold the bits: the first bit is the least significant one of the first octet, and fewer than
    /// eight 0 bits fill the last.
    pub octets: Vec<u8>,
    /// Whether it is the turn's last burst.
    pub last: bool,
}

/// Passes over the first bursts.
pub(crate) fn pass(bursts: &mut Bursts<'_>, count: u8)
    ensures { bursts.new ≡ drop count bursts.old }
{
    for _ in 0..count {
        let _passed = bursts.take_next();
    }
}

/// A burst as it is sent from a side. `AllocError` if memory is refused.
pub(crate) fn send(alloc: Global, side: Side, burst: Burst<'_>) -> Result<SentBurst, AllocError>
    ensures { IfOk result (λ sent. (later : List PlainBurst) →
        burst.entry.items.after ≡ items_of later → (IsTrue burst.entry.last ↔ (later ≡ [])) →
        IsSent side (plain_burst burst.entry) later sent) }
{
    let mut writer = BitWriter::new(alloc, Order::LsbFirst);
    write_flags(&mut writer, flags_before(burst.carrier))?;
    write_items(&mut writer, side, burst.items)?;
    write_flags(&mut writer, flags_after(burst.carrier))?;
    Ok(SentBurst {
        carrier: burst.carrier,
        bits: writer.bits(),
        octets: writer.into_octets(),
        last: burst.last,
    })
}

/// Writes flags. An `Err` may leave some of them.
fn write_flags(writer: &mut BitWriter, count: u32) -> Result<(), AllocError>
    ensures { OnOk result (Appends (idle count) writer.old writer.new) }
{
    for _ in 0..count {
        writer.push_bits(0x7E, 8)?;
    }
    Ok(())
}

/// Writes the 0 bits of a training check of this number of octets. An `Err` may leave some of them.
fn write_zeros(writer: &mut BitWriter, octets: u32) -> Result<(), AllocError>
    ensures { OnOk result (Appends (replicate (8 * octets) false) writer.old writer.new) }
{
    for _ in 0..octets {
        writer.push_bits(0, 8)?;
    }
    Ok(())
}

/// Whether a signal can be written: an FCD with 1 to 256 octets of data, or any other signal but `Other`.
fn is_writable(signal: Signal<'_>) -> bool
    ensures { IsTrue result ↔ IsWritable (plain signal.entry) }
{
    match signal {
        Signal::Fcd { octets, .. } => !octets.is_empty() && octets.len() <= 256,
        Signal::Other(_) => false,
        Signal::Dis(_)
        | Signal::Dcs(_)
        | Signal::Cfr
        | Signal::Ftt
        | Signal::Rcp
        | Signal::Pps { .. }
        | Signal::Ppr(_)
        | Signal::Mcf
        | Signal::Rnr
        | Signal::Rr
        | Signal::Dcn => true,
    }
}

/// Writes an item, which items follow in its turn. An `Err` may leave some of its bits.
fn write_item(writer: &mut BitWriter, side: Side, item: Item<'_>) -> Result<(), AllocError>
    ensures { OnOk result ((following : List PlainItem) → TellsLast item.entry following →
        (bits : List Bool) × AreBitsOf side (plain_item item.entry) following bits × Appends bits writer.old writer.new) }
{
    match item {
        Item::Frame { signal, last } => {
            // No turn has another one, by turns_can_be_written; but whose turn it is isn't known here.
            if is_writable(signal) {
                let content = signals::write(&signal, side, last);
                write_frame(content.as_slice(), writer)?;
            }
            Ok(())
        }
        Item::Training(octets) => write_zeros(writer, octets),
    }
}

/// Writes the items of a burst. An `Err` may leave some of them.
fn write_items(writer: &mut BitWriter, side: Side, items: BurstItems<'_>) -> Result<(), AllocError>
    ensures { OnOk result ((bits : List Bool) ×
        AreBits side items.entry.burst items.entry.after bits × Appends bits writer.old writer.new) }
{
    let mut left = items;
    while let Some(item) = left.take_next() {
        write_item(writer, side, item)?;
    }
    Ok(())
}

/// An item that is said is seen, if it is a frame.
fn see_item<W: Watch>(side: Side, item: Item<'_>, watch: &mut W)
    ensures { (following : List PlainItem) → TellsLast item.entry following →
        SawItem W.saw_said side (plain_item item.entry) following watch.old watch.new }
{
    match item {
        Item::Frame { signal, last } => {
            if is_writable(signal) {
                let said = signals::write(&signal, side, last);
                watch.see_said(said.as_slice(), signal);
            }
        }
        Item::Training(_) => {}
    }
}

/// The frames of a burst that is said are seen.
fn see_items<W: Watch>(side: Side, items: BurstItems<'_>, watch: &mut W)
    ensures { SawItems W.saw_said side items.entry.burst items.entry.after watch.old watch.new }
{
    let mut left = items;
    while let Some(item) = left.take_next() {
        see_item(side, item, watch);
    }
}

/// The frames of a burst that is said are seen, if there is one.
pub(crate) fn see_burst<W: Watch>(side: Side, burst: Option<Burst<'_>>, watch: &mut W)
    ensures { (bursts later : List PlainBurst) → GivesBurst bursts burst.entry later →
        SawFirst W.saw_said side bursts watch.old watch.new }
{
    match burst {
        Some(burst) => see_items(side, burst.items, watch),
        None => {}
    }
}

//! What a station as a process writes: the bursts that are sent, and a word after them.

ghost use Rattle.conversations.specs.FrameLines.{contents_text};
ghost use Rattle.conversations.specs.Writing.{WritesText, burst_line, channel_of, frames_line, hear_line, hear_lines, kind_of, on_lines};
ghost use Rattle.conversations.specs.Writing.{rest_lines, then_line, tx_line, wait_line};
ghost use Rattle.hex.specs.Hex.{encode_upper};
ghost use Rattle.std.specs.Prelude.{◌≡◌, ◌↔◌, ◌++◌, ◌∷◌, IfOk, IsSome, IsTrue, flat_map};

use crate::carrier::{Channel, Kind};
use crate::hearing::{Expected, expected_first, expected_then};
use hdlc::Deframer;
use itoa::Buffer;
use stations::{Carrier, Listening};
use std::alloc::Global;
use std::io;
use std::io::{ErrorKind, Write};
use terminals::{SentBurst, Shown};

/// How many octets are written in hex at a time.
const PIECE: usize = 1024;

/// What a station says beside its bursts and the words `wait` and `done`, and how it says its bursts.
#[derive(Clone, Copy, Debug, PartialEq, Eq)]
pub struct Says {
    /// What it expects on the line, a line `hear CARRIER KIND` for each thing.
    pub hears: bool,
    /// The time from which a quiet line does something, after `wait`.
    pub waits: bool,
    /// Its bursts by V.21 as the contents of their frames, in place of bits.
    pub frames: bool,
}

impl Says {
    /// Nothing, and bursts in bits, as a driver wants it that reads bursts and words alone.
    pub const LEAST: Says = Says {
        hears: false,
        waits: false,
        frames: false,
    };
}

impl Channel {
    /// The carrier of a burst, as lines name it.
    pub fn of(carrier: Carrier) -> Channel
        ensures { result ≡ channel_of carrier }
    {
        match carrier {
            Carrier::V21 => Channel::V21,
            Carrier::Training(speed) | Carrier::Page(speed) => Channel::Message(speed),
        }
    }
}

impl Kind {
    /// What the bits of a burst are.
    pub fn of(carrier: Carrier) -> Kind
        ensures { result ≡ kind_of carrier }
    {
        match carrier {
            Carrier::Training(_) => Kind::Check,
            Carrier::V21 | Carrier::Page(_) => Kind::Frames,
        }
    }
}

/// Writes octets, as `Write::write_all` does. Errs if the writer fails; a beginning of them may be written then.
// (`write_all` itself says nothing of what is written where it errs)
pub(crate) fn write_octets<W: Write>(writer: &mut W, octets: &[u8]) -> io::Result<()>
    ensures { WritesText (W.contents writer.old) (W.contents writer.new) octets.now result }
{
    let mut rest = octets;
    for _turn in 0..u64::MAX {
        if rest.is_empty() {
            return Ok(());
        }
        match writer.write(rest) {
            Ok(0) => return Err(io::Error::from(ErrorKind::WriteZero)),
            Ok(count) => rest = &rest[count..],
            Err(error) => {
                if error.kind() != ErrorKind::Interrupted {
                    return Err(error);
                }
            }
        }
    }
    Err(io::Error::from(ErrorKind::TimedOut))
}

/// Writes words one after the other, as they are. Errs as `write_octets` does.
fn write_words<W: Write>(writer: &mut W, words: &[&str]) -> io::Result<()>
    ensures { WritesText (W.contents writer.old) (W.contents writer.new) (flat_map (λ word. word.now) words.now) result }
{
    for word in words {
        write_octets(writer, word.as_bytes())?;
    }
    Ok(())
}

/// Writes octets in hexadecimal digits, in capitals.
fn write_hex<W: Write>(alloc: Global, octets: &[u8], writer: &mut W) -> io::Result<()>
    ensures { WritesText (W.contents writer.old) (W.contents writer.new) (encode_upper octets.now) result }
{
    let mut rest = octets;
    while !rest.is_empty() {
        let (piece, after) = rest.split_at(rest.len().min(PIECE));
        let digits = hex::encode_upper(alloc, piece)?;
        write_octets(writer, digits.as_bytes())?;
        rest = after;
    }
    Ok(())
}

/// Writes the line of a burst that is sent, `tx CARRIER KIND BITS HEX` and LF. Holds the digits of 1,024 octets at a time. Errs if the
/// writer fails or memory is refused; a beginning of the line may be written then.
pub fn write_burst<W: Write>(alloc: Global, burst: &SentBurst, writer: &mut W) -> io::Result<()>
    ensures { WritesText (W.contents writer.old) (W.contents writer.new) (tx_line burst.now) result }
{
    let channel = Channel::of(burst.carrier).name();
    let kind = Kind::of(burst.carrier).name();
    let mut digits = Buffer::new();
    let bits = digits.format(burst.bits);
    write_words(writer, &["tx ", channel, " ", kind, " ", bits, " "])?;
    write_hex(alloc, &burst.octets, writer)?;
    write_octets(writer, b"\n")
}

/// Writes a content after a space.
fn write_content<W: Write>(alloc: Global, content: &[u8], writer: &mut W) -> io::Result<()>
    ensures { WritesText (W.contents writer.old) (W.contents writer.new) (32 ∷ encode_upper content.now) result }
{
    write_octets(writer, b" ")?;
    write_hex(alloc, content, writer)
}

/// Writes the contents that wait, each after a space.
fn write_contents<W: Write>(alloc: Global, ear: &mut Deframer, writer: &mut W) -> io::Result<()>
    ensures { WritesText (W.contents writer.old) (W.contents writer.new) (contents_text ear.old.queue) result }
{
    while let Some(content) = ear.next() {
        write_content(alloc, content, writer)?;
    }
    Ok(())
}

/// Writes the line of a burst by V.21 as the contents of its good frames, `tx v21 frames HEX HEX ..` and LF. Errs if the writer fails or
/// memory is refused; a beginning of the line may be written then.
fn write_frames<W: Write>(alloc: Global, burst: &SentBurst, writer: &mut W) -> io::Result<()>
    ensures { WritesText (W.contents writer.old) (W.contents writer.new) (frames_line burst.now) result }
{
    let mut ear = Deframer::new(alloc);
    ear.feed(&burst.octets)?;
    write_octets(writer, b"tx v21 frames")?;
    write_contents(alloc, &mut ear, writer)?;
    write_octets(writer, b"\n")
}

/// Writes the line of a burst that is sent, as contents if `frames` says so and it goes by V.21. Errs as `write_burst` does.
pub(crate) fn write_sent<W: Write>(
    alloc: Global,
    frames: bool,
    burst: &SentBurst,
    writer: &mut W,
) -> io::Result<()>
    ensures { WritesText (W.contents writer.old) (W.contents writer.new) (burst_line frames burst.now) result }
{
    match burst.carrier {
        Carrier::V21 if frames => write_frames(alloc, burst, writer),
        _ => write_burst(alloc, burst, writer),
    }
}

/// Writes a line of what a station expects. Errs if the writer fails.
fn write_hear<W: Write>(writer: &mut W, expected: Expected) -> io::Result<()>
    ensures { WritesText (W.contents writer.old) (W.contents writer.new) (hear_line expected) result }
{
    let channel = expected.channel.name();
    let kind = expected.kind.name();
    write_words(writer, &["hear ", channel, " ", kind, "\n"])
}

/// Writes the line of what may be expected too, if there is anything. Errs if the writer fails.
fn write_then<W: Write>(writer: &mut W, expected: Option<Expected>) -> io::Result<()>
    ensures { WritesText (W.contents writer.old) (W.contents writer.new) (then_line expected) result }
{
    match expected {
        Some(expected) => write_hear(writer, expected),
        None => Ok(()),
    }
}

/// Writes what a station expects, a line for each thing, what comes first in front; nothing if it isn't wanted. Errs if the writer fails.
fn write_hears<W: Write>(writer: &mut W, wanted: bool, listens: Listening) -> io::Result<()>
    ensures { WritesText (W.contents writer.old) (W.contents writer.new) (hear_lines wanted listens) result }
{
    if !wanted {
        return Ok(());
    }
    write_hear(writer, expected_first(listens))?;
    write_then(writer, expected_then(listens))
}

/// Writes `wait`, with a time in milliseconds if one is named. Errs if the writer fails.
fn write_wait<W: Write>(writer: &mut W, at: Option<u128>) -> io::Result<()>
    ensures { WritesText (W.contents writer.old) (W.contents writer.new) (wait_line at) result }
{
    match at {
        Some(at) => write_words(writer, &["wait ", Buffer::new().format(at), "\n"]),
        None => write_octets(writer, b"wait\n"),
    }
}

/// Writes the lines after the bursts of a call that goes on: what the station expects, once it has `begun`, and `wait`, with the time `at` if
/// it is wanted. Errs if the writer fails.
fn write_on<W: Write>(
    writer: &mut W,
    says: Says,
    begun: bool,
    listens: Listening,
    at: Option<u128>,
) -> io::Result<()>
    ensures { WritesText (W.contents writer.old) (W.contents writer.new) (on_lines says begun listens at) result }
{
    write_hears(writer, says.hears && begun, listens)?;
    write_wait(writer, if says.waits { at } else { None })
}

/// Writes the lines after the bursts, by what the station shows, and flushes the writer: `done` if the call is over, else what it expects, once
/// it has `begun`, and `wait`, with the time `at`; of both only what is wanted. Returns true for `done`. Errs if the writer fails.
pub(crate) fn write_rest<W: Write>(
    writer: &mut W,
    says: Says,
    begun: bool,
    shown: Shown,
    at: Option<u128>,
) -> io::Result<bool>
    ensures writes { WritesText (W.contents writer.old) (W.contents writer.new)
        (rest_lines shown.end (on_lines says begun shown.listens at)) result }
    ensures over { IfOk result (λ over. IsTrue over ↔ IsSome shown.end) }
{
    match shown.end {
        Some(_) => {
            write_octets(writer, b"done\n")?;
            writer.flush()?;
            Ok(true)
        }
        None => {
            write_on(writer, says, begun, shown.listens, at)?;
            writer.flush()?;
            Ok(false)
        }
    }
}

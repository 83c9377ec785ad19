//! A line that says what is on the line of a call, and when.

ghost use Rattle.conversations.specs.FrameLines.{AreCoded, EndsWord, IsContent, NoFrameComes, SaysNoFrames, WritesFirst, WritesFrames};
ghost use Rattle.conversations.specs.Lines.{AreBits, HasCome, IsBurst, IsNumber, ReceivedAfter, IsWordOf, HasNoSpace, Says, SaysNothing};
ghost use Rattle.conversations.specs.Lines.{ToldAfter, fate_word};
ghost use Rattle.conversations.specs.declared.carrier.Channel.{Channel as ChannelValue};
ghost use Rattle.conversations.specs.declared.carrier.Kind.{Kind as KindValue};
ghost use Rattle.conversations.specs.declared.line.Fate.{Fate as FateValue};
ghost use Rattle.conversations.specs.declared.line.LineRefused.TheVariants.{NoLine};
ghost use Rattle.conversations.specs.declared.line.Said.{Said as SaidValue};
ghost use Rattle.conversations.specs.declared.line.TimedLine.{TimedLine as TimedValue};
ghost use Rattle.raster.specs.Octets.{AreOctets};
ghost use Rattle.std.specs.Prelude.{◌≡◌, ◌↔◌, ◌≤◌, ◌++◌, ◌∷◌, ℕ, IsTrue, List, MatchOption, MatchResult, codes};

use crate::carrier::{Channel, Kind};
use hdlc::write_frame;
use hex::FromHexError;
use run_tables::{BitWriter, Order};
use std::alloc::Global;
use thiserror::Error;

/// The most octets of a line, without its LF.
pub const MOST_OCTETS: usize = 400_000;

/// The most digits of a time.
const TIME_DIGITS: usize = 15;

/// The most digits of a number of bits.
const BITS_DIGITS: usize = 7;

/// What a line says.
#[derive(Debug, PartialEq, Eq, Drop)]
pub enum Said {
    /// `quiet`: nothing is on the line.
    Quiet,
    /// `busy`: a carrier of the other side has begun.
    Busy,
    /// `rx`: the other side's carrier has ended, and this came by it.
    Received {
        /// The carrier.
        channel: Channel,
        /// What its bits are.
        kind: Kind,
        /// How many bits came; the last octet may have spare ones.
        bits: u64,
        /// The octets that hold the bits, the least significant bit of each first.
        octets: Vec<u8>,
    },
    /// `not-ready`: the receiver can't take pages for now.
    NotReady,
    /// `ready`: the receiver can take pages again.
    Ready,
    /// `missed`: what was to be heard didn't come.
    Missed,
    /// `kept` or `lost`: what became of a page that was handed over.
    Told {
        /// Whether it is kept.
        fate: Fate,
        /// The name of its file.
        file: Vec<u8>,
    },
    /// `stop`: the call is to be ended in order.
    Stop,
    /// `end`: the line has dropped.
    End,
}

/// What became of a page that was handed over.
#[derive(Clone, Copy, Debug, PartialEq, Eq)]
pub enum Fate {
    /// `kept`: it is stored for good.
    Kept,
    /// `lost`: it can't be stored.
    Lost,
}

/// What a line says, and when.
#[derive(Debug, PartialEq, Eq, Drop)]
pub struct TimedLine {
    /// Milliseconds since the call was set up.
    pub at: u64,
    /// What it says.
    pub said: Said,
}

/// Why a line wasn't read.
#[derive(Clone, Copy, Debug, PartialEq, Eq, Drop, Error)]
pub enum LineRefused {
    /// Memory was refused.
    #[error("no memory")]
    NoMemory,
    /// The octets aren't a line of a station.
    #[error("no such line")]
    NoLine,
}

/// A burst, as words say it.
#[derive(Drop)]
struct Burst {
    /// Its carrier.
    channel: Channel,
    /// What its bits are.
    kind: Kind,
    /// Its bits.
    content: Bits,
}

/// Bits in octets.
#[derive(Drop)]
struct Bits {
    /// How many bits.
    count: u64,
    /// The octets that hold them.
    octets: Vec<u8>,
}

/// The word that a text begins with, and what follows the space after it; None for a text without a space.
fn split_word(text: &[u8]) -> Option<(&[u8], &[u8])>
    ensures { MatchOption result (HasNoSpace text.now)
        (λ parts. HasNoSpace parts.0.now × (text.now ≡ parts.0.now ++ 32 ∷ parts.1.now)) }
{
    for place in 0..text.len() {
        if text[place] == b' ' {
            return Some((&text[..place], &text[place + 1..]));
        }
    }
    None
}

/// The number that one to `most` decimal digits write; they may begin with zeros.
fn number_in(digits: &[u8], most: usize) -> Option<u64>
    requires { most ≤ 15 }
    ensures { MatchOption result ((number : ℕ) → IsNumber most digits.now number → ⊥) (IsNumber most digits.now) }
{
    if digits.len() > most {
        return None;
    }
    let Ok(text) = str::from_utf8(digits) else {
        return None;
    };
    if text.starts_with('+') {
        return None;
    }
    match text.parse::<u64>() {
        Ok(number) => Some(number),
        Err(_) => None,
    }
}

/// Reads BITS HEX.
fn read_bits(alloc: Global, text: &[u8]) -> Result<Bits, LineRefused>
    ensures { MatchResult result (λ bits. AreBits text.now bits.count bits.octets.items)
        (λ refused. refused ≡ NoLine → (count : ℕ) → (octets : List ℕ) → AreBits text.now count octets → ⊥) }
{
    let Some((digits, hex)) = split_word(text) else {
        return Err(LineRefused::NoLine);
    };
    let Some(count) = number_in(digits, BITS_DIGITS) else {
        return Err(LineRefused::NoLine);
    };
    if hex.len() as u64 != 2 * count.div_ceil(8) {
        return Err(LineRefused::NoLine);
    }
    match hex::decode(alloc, hex) {
        Ok(octets) => Ok(Bits { count, octets }),
        Err(FromHexError::OutOfMemory) => Err(LineRefused::NoMemory),
        Err(_) => Err(LineRefused::NoLine),
    }
}

/// Reads CARRIER KIND BITS HEX.
fn read_burst(alloc: Global, text: &[u8]) -> Result<Burst, LineRefused>
    ensures { MatchResult result (λ burst. IsBurst text.now burst.channel burst.kind burst.content.count burst.content.octets.items)
        (λ refused. refused ≡ NoLine → (channel : ChannelValue) → (kind : KindValue) → (count : ℕ) → (octets : List ℕ)
        → IsBurst text.now channel kind count octets → ⊥) }
{
    let Some((carrier, rest)) = split_word(text) else {
        return Err(LineRefused::NoLine);
    };
    let Some(channel) = Channel::named(carrier) else {
        return Err(LineRefused::NoLine);
    };
    let Some((name, rest)) = split_word(rest) else {
        return Err(LineRefused::NoLine);
    };
    let Some(kind) = Kind::named(name) else {
        return Err(LineRefused::NoLine);
    };
    let content = read_bits(alloc, rest)?;
    Ok(Burst {
        channel,
        kind,
        content,
    })
}

/// The octets before the first space, and those from it on.
fn cut_word(text: &[u8]) -> (&[u8], &[u8])
    ensures solid { HasNoSpace result.0.now }
    ensures ends { EndsWord result.1.now }
    ensures cut { text.now ≡ result.0.now ++ result.1.now }
{
    for place in 0..text.len() {
        if text[place] == b' ' {
            return text.split_at(place);
        }
    }
    text.split_at(text.len())
}

/// Reads a content of 3 to 300 octets.
fn read_content(alloc: Global, word: &[u8]) -> Result<Vec<u8>, LineRefused>
    ensures { MatchResult result (λ content. IsContent word.now content.items)
        (λ refused. refused ≡ NoLine → (content : List ℕ) → IsContent word.now content → ⊥) }
{
    let content = match hex::decode(alloc, word) {
        Ok(content) => content,
        Err(FromHexError::OutOfMemory) => return Err(LineRefused::NoMemory),
        Err(_) => return Err(LineRefused::NoLine),
    };
    if content.len() < 3 || content.len() > 300 {
        return Err(LineRefused::NoLine);
    }
    Ok(content)
}

/// Reads a space and a content, writes the content's frame, and returns what comes after it.
fn write_first<'a>(
    alloc: Global,
    text: &'a [u8],
    writer: &mut BitWriter,
) -> Result<&'a [u8], LineRefused>
    ensures { MatchResult result
        (λ after. WritesFirst text.now after.now writer.old writer.new)
        (λ refused. refused ≡ NoLine → NoFrameComes text.now) }
{
    let Some(rest) = text.strip_prefix(b" ") else {
        return Err(LineRefused::NoLine);
    };
    let (word, after) = cut_word(rest);
    let content = read_content(alloc, word)?;
    if write_frame(&content, writer).is_err() {
        return Err(LineRefused::NoMemory);
    }
    Ok(after)
}

/// Reads contents, each after a space, and writes their frames. An `Err` may leave some of them.
fn write_frames(alloc: Global, text: &[u8], writer: &mut BitWriter) -> Result<(), LineRefused>
    ensures { MatchResult result
        (λ _. WritesFrames text.now writer.old writer.new)
        (λ refused. refused ≡ NoLine → SaysNoFrames text.now) }
{
    let mut rest = text;
    while !rest.is_empty() {
        rest = write_first(alloc, rest, writer)?;
    }
    Ok(())
}

/// Octets are below 256, which a proof needs. Nothing runs.
fn are_octets(octets: &[u8])
    ensures { AreOctets octets.now }
{}

/// Reads contents, each after a space, as the bits of their frames.
fn read_frames(alloc: Global, text: &[u8]) -> Result<Bits, LineRefused>
    ensures { MatchResult result (λ bits. AreCoded text.now bits.count bits.octets.items)
        (λ refused. refused ≡ NoLine → (count : ℕ) → (octets : List ℕ) → AreCoded text.now count octets → ⊥) }
{
    let mut writer = BitWriter::new(alloc, Order::LsbFirst);
    write_frames(alloc, text, &mut writer)?;
    let count = writer.bits();
    if count > u128::from(u64::MAX) {
        return Err(LineRefused::NoMemory); // so many bits are in no memory
    }
    let octets = writer.into_octets();
    are_octets(&octets);
    Ok(Bits {
        count: count as u64,
        octets,
    })
}

/// Reads a burst that has come: CARRIER KIND BITS HEX, or v21 frames HEX HEX ..
fn read_come(alloc: Global, text: &[u8]) -> Result<Burst, LineRefused>
    ensures { MatchResult result (λ burst. HasCome text.now burst.channel burst.kind burst.content.count burst.content.octets.items)
        (λ refused. refused ≡ NoLine → (channel : ChannelValue) → (kind : KindValue) → (count : ℕ) → (octets : List ℕ)
        → HasCome text.now channel kind count octets → ⊥) }
{
    let Some(contents) = text.strip_prefix(b"v21 frames") else {
        return read_burst(alloc, text);
    };
    match read_frames(alloc, contents) {
        Ok(content) => Ok(Burst {
            channel: Channel::V21,
            kind: Kind::Frames,
            content,
        }),
        Err(refused) => Err(refused),
    }
}

/// What a word says that is followed by the time alone.
fn said_by(word: &[u8]) -> Option<Said>
    ensures { MatchOption result ((said : SaidValue) → IsWordOf word.now said → ⊥) (IsWordOf word.now) }
{
    match word {
        b"quiet" => Some(Said::Quiet),
        b"busy" => Some(Said::Busy),
        b"not-ready" => Some(Said::NotReady),
        b"ready" => Some(Said::Ready),
        b"missed" => Some(Said::Missed),
        b"stop" => Some(Said::Stop),
        b"end" => Some(Said::End),
        _ => None,
    }
}

/// True if a word is `rx`, which says that a burst was received.
fn is_rx(word: &[u8]) -> bool
    ensures { IsTrue result ↔ (word.now ≡ codes "rx") }
{
    match word {
        b"rx" => true,
        _ => false,
    }
}

/// Reads the time and a burst: what was received, and when.
fn read_received(alloc: Global, text: &[u8]) -> Result<TimedLine, LineRefused>
    ensures { MatchResult result (ReceivedAfter text.now) (λ refused. refused ≡ NoLine → (timed : TimedValue)
        → ReceivedAfter text.now timed → ⊥) }
{
    let Some((digits, rest)) = split_word(text) else {
        return Err(LineRefused::NoLine);
    };
    let Some(at) = number_in(digits, TIME_DIGITS) else {
        return Err(LineRefused::NoLine);
    };
    let Burst {
        channel,
        kind,
        content,
    } = read_come(alloc, rest)?;
    let Bits {
        count: bits,
        octets,
    } = content;
    let said = Said::Received {
        channel,
        kind,
        bits,
        octets,
    };
    Ok(TimedLine { at, said })
}

/// What a word says of a page that was handed over, if it does.
fn fate_by(word: &[u8]) -> Option<Fate>
    ensures { MatchOption result ((fate : FateValue) → word.now ≡ fate_word fate → ⊥) (λ fate. word.now ≡ fate_word fate) }
{
    match word {
        b"kept" => Some(Fate::Kept),
        b"lost" => Some(Fate::Lost),
        _ => None,
    }
}

/// Reads the time and the name of a file: what became of its page, and when.
fn read_told(alloc: Global, fate: Fate, text: &[u8]) -> Result<TimedLine, LineRefused>
    ensures { MatchResult result (ToldAfter fate text.now) (λ refused. refused ≡ NoLine → (timed : TimedValue)
        → ToldAfter fate text.now timed → ⊥) }
{
    let Some((digits, name)) = split_word(text) else {
        return Err(LineRefused::NoLine);
    };
    let Some(at) = number_in(digits, TIME_DIGITS) else {
        return Err(LineRefused::NoLine);
    };
    let mut file = Vec::new(alloc);
    if file.extend_from_slice(name).is_err() {
        return Err(LineRefused::NoMemory);
    }
    let said = Said::Told { fate, file };
    Ok(TimedLine { at, said })
}

/// Reads a line without its LF: what it says, and when, in milliseconds. Errs with `NoLine` only if the octets aren't a line of a station,
/// and with `NoMemory`.
pub fn read_line(alloc: Global, line: &[u8]) -> Result<TimedLine, LineRefused>
    ensures { MatchResult result (Says line.now) (λ refused. refused ≡ NoLine → SaysNothing line.now) }
{
    if line.len() > MOST_OCTETS {
        return Err(LineRefused::NoLine);
    }
    let Some((word, rest)) = split_word(line) else {
        return Err(LineRefused::NoLine);
    };
    if is_rx(word) {
        return read_received(alloc, rest);
    }
    if let Some(fate) = fate_by(word) {
        return read_told(alloc, fate, rest);
    }
    let Some(said) = said_by(word) else {
        return Err(LineRefused::NoLine);
    };
    let Some(at) = number_in(rest, TIME_DIGITS) else {
        return Err(LineRefused::NoLine);
    };
    Ok(TimedLine { at, said })
}

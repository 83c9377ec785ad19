//! Lines out of any reader.

ghost use Rattle.conversations.specs.Reading.{HasNoFeed, TakesNext, TakesPlain};
ghost use Rattle.conversations.specs.declared.reading.ReadFault.TheVariants.{TooLong};
ghost use Rattle.std.specs.Io.KnownBytes.{Consumes, IsAtEnd};
ghost use Rattle.std.specs.Prelude.{◌≡◌, ◌≢◌, ◌≤◌, [], Err, IfOk, None, Ok, OnErr, length, option_to_list, take};

use crate::line::MOST_OCTETS;
use std::alloc::AllocError;
use std::io::{BufRead, ErrorKind, Read};
use thiserror::Error;

/// Why the next line wasn't read.
#[derive(Clone, Copy, Debug, PartialEq, Eq, Drop, Error)]
pub enum ReadFault {
    /// Memory was refused.
    #[error("no memory")]
    NoMemory,
    /// The line has more than 400,000 octets.
    #[error("a line of more than 400000 octets")]
    TooLong,
    /// The reader failed.
    #[error("the reader failed")]
    Failed(ErrorKind),
}

impl From<AllocError> for ReadFault {
    ghost use Rattle.conversations.specs.declared.reading.ReadFault.TheVariants.{NoMemory};
    ghost use Rattle.std.specs.Prelude.{◌≡◌};

    ghost from_gives = { λ _ fault. fault ≡ NoMemory };

    fn from(_refused: AllocError) -> ReadFault {
        ReadFault::NoMemory
    }
}

/// The next octet, or None at the end. Reads again if the reader is interrupted.
fn next_octet<R: Read>(reader: &mut R) -> Result<Option<u8>, ReadFault>
    ensures taken { IfOk result (λ octet. Consumes (R.remaining reader.old) (R.remaining reader.new) (option_to_list octet)) }
    ensures end { result ≡ Ok None → IsAtEnd (R.remaining reader.new) }
    ensures kept { OnErr result (Consumes (R.remaining reader.old) (R.remaining reader.new) []) }
    ensures fault { result ≢ Err TooLong }
{
    let mut octet = [0];
    for _try in 0..u64::MAX {
        match reader.read(&mut octet) {
            Ok(0) => return Ok(None),
            Ok(_) => return Ok(Some(octet[0])),
            Err(error) => {
                if error.kind() != ErrorKind::Interrupted {
                    return Err(ReadFault::Failed(error.kind()));
                }
            }
        }
    }
    Err(ReadFault::Failed(ErrorKind::Interrupted))
}

/// How many of the first octets come before an LF: at most `most`.
fn plain_count(octets: &[u8], most: usize) -> usize
    ensures within { result ≤ length octets.now }
    ensures few { result ≤ most }
    ensures plain { HasNoFeed (take result octets.now) }
{
    let end = octets.len().min(most);
    for place in 0..end {
        if octets[place] == b'\n' {
            return place;
        }
    }
    end
}

/// Takes what the reader has at hand of a line, up to an LF or as much as a line may have, and appends it. Takes nothing if the reader is
/// interrupted, or if it errs.
fn take_plain<R: BufRead>(reader: &mut R, line: &mut Vec<u8>) -> Result<(), ReadFault>
    ensures taken { IfOk result (λ _. TakesPlain (R.remaining reader.old) (R.remaining reader.new) line.old.items line.new.items) }
    ensures kept { OnErr result (Consumes (R.remaining reader.old) (R.remaining reader.new) []) }
    ensures line { OnErr result (line.new.items ≡ line.old.items) }
    ensures fault { result ≢ Err TooLong }
{
    let room = MOST_OCTETS.saturating_sub(line.len());
    let octets = match reader.fill_buf() {
        Ok(octets) => octets,
        Err(error) => {
            if error.kind() != ErrorKind::Interrupted {
                return Err(ReadFault::Failed(error.kind()));
            }
            return Ok(());
        }
    };
    let count = plain_count(octets, room);
    line.extend_from_slice(&octets[..count])?;
    reader.consume(count);
    Ok(())
}

/// Reads the next line, without its LF, in place of what `line` holds, and returns true if there was one. What follows the last LF is a
/// line too, unless it is empty. Takes what the reader has at hand at once, and holds at most 400,000 octets. Errs with `TooLong`,
/// `NoMemory` or `Failed`: `line` is then what was taken of the line, but for the octet after it, if one too many came.
pub fn next_line<R: BufRead>(reader: &mut R, line: &mut Vec<u8>) -> Result<bool, ReadFault>
    ensures { TakesNext (R.remaining reader.old) (R.remaining reader.new) line.new.items result }
{
    line.clear();
    for _place in 0..MOST_OCTETS {
        take_plain(reader, line)?;
        match next_octet(reader)? {
            None => return Ok(!line.is_empty()),
            Some(b'\n') => return Ok(true),
            Some(octet) => {
                if line.len() >= MOST_OCTETS {
                    return Err(ReadFault::TooLong);
                }
                if line.push(octet).is_err() {
                    return Err(ReadFault::NoMemory);
                }
            }
        }
    }
    match next_octet(reader)? {
        None => Ok(true),
        Some(b'\n') => Ok(true),
        Some(_octet) => Err(ReadFault::TooLong),
    }
}

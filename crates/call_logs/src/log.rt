//! A log of a call: a line for each good frame that a station has said.

ghost use Rattle.call_logs.specs.Logs.{are_seen, content_in, frame_in, if_line, is_passed, log_in, pieces, plain_frame};
ghost use Rattle.call_logs.specs.Logs.{side_named, three_of, with_line, word_in};
ghost use Rattle.std.specs.Prelude.{◌≡◌, IfOk, MatchResult, map, option_map};

use crate::pieces::split_at_first;
use hex::FromHexError;
use signals::Side;
use std::alloc::{AllocError, Global};

/// A good frame that a station has said.
#[derive(Debug, Drop)]
pub struct LogFrame<'a> {
    /// When, as the log says it.
    pub at: &'a str,
    /// The station.
    pub by: Side,
    /// The content, without its check sequence.
    pub content: Vec<u8>,
}

/// Returns the station that a word names.
fn side_named(word: &[u8]) -> Option<Side>
    ensures { result ≡ side_named word.now }
{
    if word == b"caller".as_slice() {
        return Some(Side::Caller);
    }
    if word == b"answerer".as_slice() {
        return Some(Side::Answerer);
    }
    None
}

/// Returns whether all octets are signs of ASCII that are seen.
fn are_seen(octets: &[u8]) -> bool
    ensures { result ≡ are_seen octets.now }
{
    for octet in octets {
        if *octet <= 32 || *octet >= 127 {
            return false;
        }
    }
    true
}

/// Returns the text of octets, if they are a word.
fn word_in(octets: &[u8]) -> Option<&str>
    ensures { option_map (λ word. word.now) result ≡ word_in octets.now }
{
    if octets.is_empty() || !are_seen(octets) {
        return None;
    }
    match str::from_utf8(octets) {
        Ok(word) => Some(word),
        Err(_other) => None,
    }
}

/// Returns the time, the word of the station and the digits of a line, if it has these three and no more.
fn parts_of(line: &[u8]) -> Option<(&[u8], &[u8], &[u8])>
    ensures { three_of (pieces 32 line.now)
        ≡ option_map (λ parts. (parts.0.now, parts.1.now, parts.2.now)) result }
{
    let (at, rest) = split_at_first(line, b' ')?;
    let (who, digits) = split_at_first(rest, b' ')?;
    match split_at_first(digits, b' ') {
        Some(_more) => None,
        None => Some((at, who, digits)),
    }
}

/// Returns the octets that digits say, if they say any.
fn content_in(alloc: Global, digits: &[u8]) -> Result<Option<Vec<u8>>, AllocError>
    ensures { IfOk result (λ content. option_map (λ content. content.items) content
        ≡ content_in digits.now) }
{
    if digits.is_empty() {
        return Ok(None);
    }
    match hex::decode(alloc, digits) {
        Ok(content) => Ok(Some(content)),
        Err(FromHexError::OutOfMemory) => Err(AllocError),
        Err(_) => Ok(None),
    }
}

/// Returns the frame of a line, if it has one.
fn frame_in<'a>(alloc: Global, line: &'a [u8]) -> Result<Option<LogFrame<'a>>, AllocError>
    ensures { IfOk result (λ frame. option_map plain_frame frame ≡ frame_in line.now) }
{
    let Some((at, who, digits)) = parts_of(line) else {
        return Ok(None);
    };
    let Some(at) = word_in(at) else {
        return Ok(None);
    };
    let Some(by) = side_named(who) else {
        return Ok(None);
    };
    let Some(content) = content_in(alloc, digits)? else {
        return Ok(None);
    };
    Ok(Some(LogFrame { at, by, content }))
}

/// Returns whether a line is passed over.
fn is_passed(line: &[u8]) -> bool
    ensures { result ≡ is_passed line.now }
{
    line.is_empty() || line[0] == b'#'
}

/// Appends the frame of a line, unless it is passed over. Returns whether the line is one of a log.
fn add_line<'a>(
    alloc: Global,
    line: &'a [u8],
    frames: &mut Vec<LogFrame<'a>>,
) -> Result<bool, AllocError>
    ensures { IfOk result (λ is_line. with_line (map plain_frame frames.old.items) line.now
        ≡ if_line is_line (map plain_frame frames.new.items)) }
{
    if is_passed(line) {
        return Ok(true);
    }
    match frame_in(alloc, line)? {
        Some(frame) => {
            frames.push(frame)?;
            Ok(true)
        }
        None => Ok(false),
    }
}

/// Returns the frames of a log, in order; or the number of the first line that is none of a log, from 1. `AllocError` if memory is refused.
pub fn read_log<'a>(
    alloc: Global,
    octets: &'a [u8],
) -> Result<Result<Vec<LogFrame<'a>>, u64>, AllocError>
    ensures { IfOk result (λ read. MatchResult read (λ frames. log_in octets.now
        ≡ Ok (map plain_frame frames.items))
        (λ line. log_in octets.now ≡ Err line)) }
{
    let mut frames = Vec::new(alloc);
    let mut rest = octets;
    let mut before: u64 = 0;
    while let Some((line, after)) = split_at_first(rest, b'\n') {
        before += 1;
        if !add_line(alloc, line, &mut frames)? {
            return Ok(Err(before));
        }
        rest = after;
    }
    if !add_line(alloc, rest, &mut frames)? {
        return Ok(Err(before + 1));
    }
    Ok(Ok(frames))
}

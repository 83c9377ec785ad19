//! What the frames of a log say, and which rule each of them breaks.

ghost use Rattle.call_logs.specs.Logs.{plain_frame};
ghost use Rattle.call_logs.specs.Told.{broken_among, is_broken, is_read, judged, plain_told, read_among, said_in, told_in, told_of};
ghost use Rattle.referee.specs.History.{plain_said};
ghost use Rattle.signals.specs.Reading.{read_content};
ghost use Rattle.std.specs.Prelude.{◌≡◌, ◌++◌, IfOk, OnOk, map};

use crate::log::LogFrame;
use crate::rule_words::is_reading;
use referee::{Rule, Said, judge};
use signals::{Signal, read};
use std::alloc::{AllocError, Global};

/// A frame that is a signal.
#[derive(Clone, Copy)]
pub(crate) struct Told<'a, 'b> {
    /// Its number, from 1.
    pub(crate) number: u64,
    /// The frame.
    pub(crate) frame: &'a LogFrame<'b>,
    /// What it says.
    pub(crate) signal: Signal<'a>,
}

impl<'a> Told<'a, '_> {
    /// Returns the frame as the referee takes it.
    fn said(self) -> Said<'a>
        ensures { plain_said result ≡ said_in (plain_told self.entry) }
    {
        Said {
            by: self.frame.by,
            signal: self.signal,
        }
    }
}

/// Appends the frame of this number, if it is a signal.
fn add_told<'a, 'b>(
    number: u64,
    frame: &'a LogFrame<'b>,
    told: &mut Vec<Told<'a, 'b>>,
) -> Result<(), AllocError>
    ensures { OnOk result (map plain_told told.new.items ≡ map plain_told told.old.items
        ++ told_of number (plain_frame frame.now) (read_content frame.now.content.items)) }
{
    if let Ok(signal) = read(&frame.content) {
        told.push(Told {
            number,
            frame,
            signal,
        })?;
    }
    Ok(())
}

/// Returns the frames that are signals. `AllocError` if memory is refused.
pub(crate) fn told_in<'a, 'b>(
    alloc: Global,
    frames: &'a [LogFrame<'b>],
) -> Result<Vec<Told<'a, 'b>>, AllocError>
    ensures { IfOk result (λ told. map plain_told told.items
        ≡ told_in 1 (map plain_frame frames.now)) }
{
    let mut told = Vec::new(alloc);
    for at in 0..frames.len() {
        add_told(at as u64 + 1, &frames[at], &mut told)?;
    }
    Ok(told)
}

/// Returns what was said, in order. `AllocError` if memory is refused.
fn said_of<'a>(alloc: Global, told: &[Told<'a, '_>]) -> Result<Vec<Said<'a>>, AllocError>
    ensures { IfOk result (λ said. map plain_said said.items
        ≡ map said_in (map plain_told told.now)) }
{
    let mut said = Vec::new(alloc);
    for one in told {
        said.push(one.said())?;
    }
    Ok(said)
}

/// Returns of each frame, in order, the first rule that it breaks. `AllocError` if memory is refused.
pub(crate) fn judged(alloc: Global, told: &[Told<'_, '_>]) -> Result<Vec<Option<Rule>>, AllocError>
    ensures { IfOk result (λ found. found.items ≡ judged (map plain_told told.now)) }
{
    // the referee takes and gives the latest frame first
    let mut said = said_of(alloc, told)?;
    said.reverse();
    let mut found = judge(alloc, &said)?;
    found.reverse();
    Ok(found)
}

/// Returns whether a rule is broken.
fn is_broken(rule: Option<Rule>) -> bool
    ensures { result ≡ is_broken rule }
{
    match rule {
        Some(rule) => !is_reading(rule),
        None => false,
    }
}

/// Returns whether a rule is broken that can be read otherwise.
fn is_read(rule: Option<Rule>) -> bool
    ensures { result ≡ is_read rule }
{
    match rule {
        Some(rule) => is_reading(rule),
        None => false,
    }
}

/// Returns how many rules are broken.
pub(crate) fn broken_among(found: &[Option<Rule>]) -> usize
    ensures { result ≡ broken_among found.now }
{
    let mut count = 0;
    for at in 0..found.len() {
        count += usize::from(is_broken(found[at]));
    }
    count
}

/// Returns how many rules are broken that can be read otherwise.
pub(crate) fn read_among(found: &[Option<Rule>]) -> usize
    ensures { result ≡ read_among found.now }
{
    let mut count = 0;
    for at in 0..found.len() {
        count += usize::from(is_read(found[at]));
    }
    count
}

//! Writers of a call: of its lines, and if wanted of the octets on the line.

ghost use Rattle.faults.specs.Faults.{IsOutside};
ghost use Rattle.calls.specs.SentBits.{Written, WritesLines, WritesOctets};
ghost use Rattle.calls.specs.Transcripts.{ending_text, entry_line};
ghost use Rattle.std.specs.Prelude.{IfErr, OnOk};

use crate::transcript::{write_ending, write_entry};
use faults::ToolFault;
use line_sim::{Ending, Entry};
use signals::Side;
use std::io::Write;

/// What a call is written to. A plain writer takes its lines alone, and `WithBits` the octets on the line too. A line changes nothing of
/// the octets, and octets of one direction change nothing of the lines and of the other direction.
pub trait CallWriter {
    ghost written: { Self → Written };

    /// Writes the line of an event, with its number. Errs with `FAILED` (8) if the writer fails, and with `NO_MEMORY`.
    fn entry(&mut self, number: u64, entry: &Entry) -> Result<(), ToolFault>
        ensures line { OnOk result (WritesLines (written self.old) (written self.new) (entry_line number entry.now)) }
        ensures fault { IfErr result IsOutside };

    /// Writes how a call ended. Errs with `FAILED` (8) if the writer fails, and with `NO_MEMORY`.
    fn ending(&mut self, ending: &Ending) -> Result<(), ToolFault>
        ensures lines { OnOk result (WritesLines (written self.old) (written self.new) (ending_text ending.now)) }
        ensures fault { IfErr result IsOutside };

    /// Writes the octets of an item that is sent to a station. Errs with `FAILED` (8) if the writer fails, and with `NO_MEMORY`.
    fn sent(&mut self, to: Side, octets: &[u8]) -> Result<(), ToolFault>
        ensures octets { OnOk result (WritesOctets to (written self.old) (written self.new) octets.now) }
        ensures fault { IfErr result IsOutside };
}

impl<W: Write> CallWriter for W {
    ghost use Rattle.calls.specs.SentBits.{lines_alone};

    ghost written = { λ w. lines_alone (W.contents w) };

    fn entry(&mut self, number: u64, entry: &Entry) -> Result<(), ToolFault> {
        write_entry(number, entry, self)
    }

    fn ending(&mut self, ending: &Ending) -> Result<(), ToolFault> {
        write_ending(ending, self)
    }

    fn sent(&mut self, _to: Side, _octets: &[u8]) -> Result<(), ToolFault> {
        Ok(())
    }
}

/// A writer of a call's lines, and one for each direction of the line, which gets the octets of each item when it is sent, even if it is
/// lost or spoiled later: the least significant bit of an octet first, as `frames_engine` reads frames. A training check is written as it
/// is sent, its 0 bits; no flags are added between items. If a growth is refused in an event, they are the octets of the items that it has
/// put under way.
#[derive(Debug, Drop)]
pub struct WithBits<L, B> {
    /// Takes the lines.
    pub lines: L,
    /// Takes the octets of what the caller sends.
    pub to_answerer: B,
    /// Takes the octets of what the answerer sends.
    pub to_caller: B,
}

impl<L: Write, B: Write> CallWriter for WithBits<L, B> {
    ghost use Rattle.calls.specs.SentBits.{lines_and_bits};

    ghost written = { λ w. lines_and_bits (L.contents w.lines) (B.contents w.to_answerer) (B.contents w.to_caller) };

    fn entry(&mut self, number: u64, entry: &Entry) -> Result<(), ToolFault> {
        write_entry(number, entry, &mut self.lines)
    }

    fn ending(&mut self, ending: &Ending) -> Result<(), ToolFault> {
        write_ending(ending, &mut self.lines)
    }

    fn sent(&mut self, to: Side, octets: &[u8]) -> Result<(), ToolFault> {
        match to {
            Side::Answerer => self.to_answerer.write_all(octets)?,
            Side::Caller => self.to_caller.write_all(octets)?,
        }
        Ok(())
    }
}

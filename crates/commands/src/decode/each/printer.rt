//! What the reports of files go to.

ghost use Rattle.faults.specs.Faults.{IsOutside};
ghost use Rattle.std.specs.Io.KnownBytes.{Appends};
ghost use Rattle.std.specs.Prelude.{◌≡◌, IfErr, OnOk};

use crate::decode::each::tally::Tally;
use faults::ToolFault;
use std::io::Write;

/// A writer of the reports of files, with the count that a terminal shows beside them.
#[derive(Drop)]
pub(crate) struct Printer<'a, W> {
    /// Takes the lines, or the records.
    pub(crate) writer: W,
    /// Counts the files.
    pub(crate) tally: Tally<'a>,
    /// Whether they are records.
    pub(crate) json: bool,
}

impl<W: Write> Printer<'_, W> {
    /// Prints what is reported of a file at once. Errors: `Io` (8) from the writer, `NoMemory` (9).
    pub(crate) fn say(&mut self, octets: &[u8]) -> Result<(), ToolFault>
        ensures told { OnOk result
            (Appends (W.contents self.old.writer) (W.contents self.new.writer) octets.now) }
        ensures json { self.new.json ≡ self.old.json }
        ensures fault { IfErr result IsOutside }
    {
        self.tally.step_aside();
        self.writer.write_all(octets)?;
        self.writer.flush()?;
        Ok(())
    }
}

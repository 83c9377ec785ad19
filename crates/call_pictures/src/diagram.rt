//! A writer of a call that is drawn too.

use crate::ladder::Ladder;
use calls::CallWriter;
use faults::ToolFault;
use line_sim::{Ending, Entry};
use signals::Side;

/// A writer of a call, and the ladder that its picture is drawn from, if it is drawn. It says its lines as long as they are those of the
/// ladder's events, so the writer must have no lines yet.
#[derive(Debug, Drop)]
pub struct WithDiagram<T> {
    /// Takes the lines and the octets.
    pub writer: T,
    /// Takes the events, and what the call has left.
    pub ladder: Option<Ladder>,
}

impl<T: CallWriter> CallWriter for WithDiagram<T> {
    ghost use Rattle.call_pictures.specs.Diagrams.{beside};

    ghost written = { λ w. beside (T.written w.writer) w.ladder };

    fn entry(&mut self, number: u64, entry: &Entry) -> Result<(), ToolFault> {
        self.writer.entry(number, entry)?;
        if let Some(ladder) = &mut self.ladder {
            ladder.add(number, entry)?;
        }
        Ok(())
    }

    fn ending(&mut self, ending: &Ending) -> Result<(), ToolFault> {
        self.writer.ending(ending)?;
        if let Some(ladder) = &mut self.ladder {
            ladder.end(ending)?;
        }
        Ok(())
    }

    fn sent(&mut self, to: Side, octets: &[u8]) -> Result<(), ToolFault> {
        self.writer.sent(to, octets)
    }
}

//! A writer of a call in a form: plain lines, lines with words, or records.

use crate::call_records::{write_ending_records, write_entry_record};
use crate::call_writer::{CallWriter, WithBits};
use crate::explained::write_explained;
use crate::transcript::write_ending;
use captures::ListForm;
use faults::ToolFault;
use line_sim::{Ending, Entry};
use signals::Side;
use std::alloc::Global;
use std::io::Write;

/// A writer of a call, with the form of its lines. If they are plain, it has all that `WithBits` has. For lines with words and for records
/// it is proved which ones are written at each event and at the end, but not what those of a whole call are; the octets are proved in each
/// form.
#[derive(Debug, Drop)]
pub struct InForm<L, B> {
    /// Where the records are built.
    pub alloc: Global,
    /// How the lines are written.
    pub form: ListForm,
    /// Takes the lines and the octets.
    pub writer: WithBits<L, B>,
}

impl<L: Write, B: Write> CallWriter for InForm<L, B> {
    ghost use Rattle.calls.specs.Explained.{in_form};
    ghost use Rattle.calls.specs.SentBits.{lines_and_bits};

    ghost written = { λ w. in_form w.form
        (lines_and_bits (L.contents w.writer.lines) (B.contents w.writer.to_answerer) (B.contents w.writer.to_caller)) };

    fn entry(&mut self, number: u64, entry: &Entry) -> Result<(), ToolFault> {
        match self.form {
            ListForm::Plain => self.writer.entry(number, entry),
            ListForm::Explained => write_explained(number, entry, &mut self.writer.lines),
            ListForm::Records => {
                write_entry_record(self.alloc, number, entry, &mut self.writer.lines)
            }
        }
    }

    fn ending(&mut self, ending: &Ending) -> Result<(), ToolFault> {
        match self.form {
            ListForm::Plain => self.writer.ending(ending),
            ListForm::Explained => write_ending(ending, &mut self.writer.lines),
            ListForm::Records => write_ending_records(self.alloc, ending, &mut self.writer.lines),
        }
    }

    fn sent(&mut self, to: Side, octets: &[u8]) -> Result<(), ToolFault> {
        self.writer.sent(to, octets)
    }
}

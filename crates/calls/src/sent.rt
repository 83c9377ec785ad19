//! What a call has put under way, written as octets.

ghost use Rattle.faults.specs.Faults.{IsOutside};
ghost use Rattle.calls.specs.SentBits.{WritesAfter, WritesTo};
ghost use Rattle.line_sim.specs.Octets.{under_way_to};
ghost use Rattle.std.specs.Prelude.{drop, IfErr, OnOk};

use crate::call_writer::CallWriter;
use crate::counts::Counts;
use faults::ToolFault;
use line_sim::LiveCall;
use signals::Side;

/// Writes the octets of the items under way to a station from a place on. Errs with `FAILED` (8) if the writer fails, and with `NO_MEMORY`.
fn write_from<T: CallWriter>(
    live: &LiveCall,
    to: Side,
    first: usize,
    writer: &mut T,
) -> Result<(), ToolFault>
    ensures sent { OnOk result (WritesTo to (drop first (under_way_to to live.now)) (T.written writer.old) (T.written writer.new)) }
    ensures fault { IfErr result IsOutside }
{
    for place in first..live.count_to(to) {
        let Some(item) = live.item_to(to, place) else {
            return Ok(());
        };
        writer.sent(to, item.octets)?;
    }
    Ok(())
}

/// Writes the octets of what a call has put under way since its items were counted. Errs with `FAILED` (8) if the writer fails, and with
/// `NO_MEMORY`.
pub(crate) fn write_sent<T: CallWriter>(
    live: &LiveCall,
    counts: Counts,
    writer: &mut T,
) -> Result<(), ToolFault>
    ensures sent { OnOk result (WritesAfter counts live.now (T.written writer.old) (T.written writer.new)) }
    ensures fault { IfErr result IsOutside }
{
    write_from(live, Side::Answerer, counts.to_answerer, writer)?;
    write_from(live, Side::Caller, counts.to_caller, writer)
}

//! The command `frames` where it draws two captures.

ghost use Rattle.commands.specs.Captured.{IsCapture};
ghost use Rattle.faults.specs.Faults.{IsOutside};
ghost use Rattle.std.specs.Prelude.{IfErr, IfOk};

use crate::call::diagram;
use call_pictures::{CapturedFrames, captured_frames, ladder_of};
use command_files::command::{Completeness, NO_NAMES, Names, Runs};
use command_files::context::{Context, Part};
use command_files::files::apart::CommandFiles;
use command_files::files::input;
use command_files::files::progress::Watch;
use command_files::notices::notice;
use faults::ToolFault;
use page_files::PageForm;
use run_tables::Order;
use std::alloc::AllocError;

/// Draws the frames in two files of bits, one of each station of a call.
#[derive(Debug, PartialEq, Eq, Drop)]
pub struct CapturesCommand {
    /// Which bit of an octet of the files is first.
    pub order: Order,
    /// Whether messages are written as JSON.
    pub records: bool,
    /// The name of the file that the frames are drawn in.
    pub diagram: String,
    /// The name of the file of what the caller sent.
    pub caller: String,
    /// The name of the file of what the answerer sent.
    pub answerer: String,
}

impl Runs for CapturesCommand {
    ghost use Rattle.std.specs.Prelude.{None};
    ghost use Rattle.commands.specs.Captured.{CapturesGives};
    ghost use Rattle.commands.specs.Files.{captures_files};

    ghost width = { λ command. None };

    ghost its_files = { captures_files };

    ghost gives = { λ command result. CapturesGives command result };

    fn names(&self) -> Names<'_> {
        Names {
            input: self.caller.as_str(),
            answerer: Some(self.answerer.as_str()),
            diagram: Some(self.diagram.as_str()),
            ..NO_NAMES
        }
    }

    fn add_files(&self, files: &mut CommandFiles<'_>) -> Result<(), AllocError> {
        files.writes("--diagram", self.diagram.as_str())
    }

    fn page(&self) -> Option<PageForm> {
        None
    }

    // It says how many frames of each aren't drawn. Without a frame that can be drawn no file is written, and it isn't complete.
    fn run(&self, context: &mut Context<'_>) -> Result<Completeness, ToolFault> {
        let caller = self.read_capture(context, self.caller.as_str(), Part::Input)?;
        let answerer = self.read_capture(context, self.answerer.as_str(), Part::Answerer)?;
        say_others(context, "caller", caller.others)?;
        say_others(context, "answerer", answerer.others)?;
        if caller.known.is_empty() && answerer.known.is_empty() {
            notice(context, "no good frame: nothing is drawn")?;
            return Ok(Completeness::Lacking);
        }
        let ladder = ladder_of(context.alloc(), &caller.known, &answerer.known)?;
        diagram::draw(context, self.diagram.as_str(), ladder)?;
        Ok(Completeness::Whole)
    }
}

impl CapturesCommand {
    /// Reads the frames of a capture. Errors: `Io` (8) if its file can't be read, and that is noted; `NoMemory` (9).
    fn read_capture(
        &self,
        context: &mut Context<'_>,
        name: &str,
        part: Part,
    ) -> Result<CapturedFrames, ToolFault>
        ensures read { IfOk result (IsCapture self.now.order) }
        ensures fault { IfErr result IsOutside }
    {
        let mut reader = input::open(context, name, part, Watch::Shown)?;
        let frames = captured_frames(context.alloc(), &mut reader, self.order);
        reader.close(context);
        frames
    }
}

/// Says on standard error how many frames of a capture aren't drawn, if there are such.
fn say_others(context: &Context<'_>, whose: &str, others: u64) -> Result<(), ToolFault>
    ensures { IfErr result IsOutside }
{
    if others == 0 {
        return Ok(());
    }
    let words = format!(in context.alloc();
        "frames of the {whose} that aren't drawn, since their signal isn't known: {others}"
    )?;
    notice(context, words.as_str())
}

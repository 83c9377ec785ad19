//! The command `judge`.

ghost use Rattle.commands.specs.Judge.{IsJudged, is_kept, judged_as};
ghost use Rattle.faults.specs.Faults.{IsOutside, IsUnread};
ghost use Rattle.std.specs.Prelude.{◌≡◌, IfErr, IfOk};

use crate::names::shown_text;
use call_logs::{Tally, judge_log};
use captures::ListForm;
use command_files::command::{Completeness, NO_NAMES, Names, Runs};
use command_files::context::{Context, Part};
use command_files::error_line::ErrorLine;
use command_files::files::apart::CommandFiles;
use command_files::files::bounded::read_script_file;
use command_files::files::printed;
use faults::{ToolFault, write_line_fault};
use page_files::PageForm;
use std::alloc::AllocError;
use std::io::Write;

/// What a line of a log has, for one that hasn't.
const LINE_WORDS: &str =
    "a time, caller or answerer, and the octets of a frame in hex are expected here, with one space between each two";

/// Prints each frame of a call's log that breaks a rule.
#[derive(Debug, PartialEq, Eq, Drop)]
pub struct JudgeCommand {
    /// What is written of each frame.
    pub form: ListForm,
    /// Whether a rule that can be read otherwise counts as one.
    pub strict: bool,
    /// The name of the log's file.
    pub input: String,
}

impl Runs for JudgeCommand {
    ghost use Rattle.std.specs.Prelude.{None};
    ghost use Rattle.commands.specs.Judge.{JudgeGives, judge_files};

    ghost width = { λ command. None };

    ghost its_files = { judge_files };

    ghost gives = { λ command result. JudgeGives command result };

    fn names(&self) -> Names<'_> {
        Names {
            input: self.input.as_str(),
            script: Some(self.input.as_str()),
            ..NO_NAMES
        }
    }

    fn add_files(&self, files: &mut CommandFiles<'_>) -> Result<(), AllocError> {
        files.prints()
    }

    fn page(&self) -> Option<PageForm> {
        None
    }

    fn run(&self, context: &mut Context<'_>) -> Result<Completeness, ToolFault> {
        read_script_file(context, self.input.as_str())?;
        let judged = self.judge(context)?;
        if let Err(line) = judged {
            self.show_no_line(context, line);
        }
        Ok(judged_as(self.strict, judged))
    }
}

impl JudgeCommand {
    /// Judges the log that was read, and prints what comes of it.
    fn judge(&self, context: &mut Context<'_>) -> Result<Result<Tally, u64>, ToolFault>
        ensures judged { IfOk result (IsJudged self.now.form) }
        ensures fault { IfErr result IsOutside }
    {
        let mut writer = printed::print(context)?;
        let judged = judge_log(context.alloc(), context.script(), self.form, &mut writer);
        let printed = printed::end_print(context, writer, judged.is_ok());
        let judged = judged?;
        printed?;
        Ok(judged)
    }

    /// Shows that the line of this number is none of a log.
    fn show_no_line(&self, context: &Context<'_>, number: u64) {
        if context.is_json() && self.record_no_line(context, number).is_ok() {
            return;
        }
        let mut line = ErrorLine::new(context.streams());
        let made = writeln!(line, "fault 31 at line {number}");
        line.end(made);
        if context.explains() {
            let made = self.explain_no_line(context, number);
            let mut line = ErrorLine::new(context.streams());
            if let Ok(text) = made {
                let made = writeln!(line, "{text}");
                line.end(made);
            }
        }
    }

    /// Returns the words of such a line.
    fn explain_no_line(&self, context: &Context<'_>, number: u64) -> Result<String, AllocError> {
        let alloc = context.alloc();
        let file = shown_text(alloc, self.names().shown(Part::Script))?;
        format!(in alloc; "{file}: line {number}: {LINE_WORDS}")
    }

    /// Shows the record of such a line.
    fn record_no_line(&self, context: &Context<'_>, number: u64) -> Result<(), ToolFault>
        ensures { IfErr result IsOutside }
    {
        let words = self.explain_no_line(context, number)?;
        let mut line = ErrorLine::new(context.streams());
        write_line_fault(context.alloc(), 31, number, words.as_str(), &mut line)?;
        line.flush()?;
        Ok(())
    }
}

/// Returns whether no rule is broken; where `strict`, also none that can be read otherwise.
fn is_kept(strict: bool, tally: Tally) -> bool
    ensures { result ≡ is_kept strict tally }
{
    tally.broken == 0 && (!strict || tally.readings == 0)
}

/// Returns what a log comes to: whole if no rule is broken.
fn judged_as(strict: bool, judged: Result<Tally, u64>) -> Completeness
    ensures { result ≡ judged_as strict judged }
{
    match judged {
        Ok(tally) => Completeness::of(is_kept(strict, tally)),
        Err(_line) => Completeness::Lacking,
    }
}

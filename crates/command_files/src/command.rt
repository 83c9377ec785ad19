//! What all commands answer, and what is asked of each.

ghost use Rattle.command_files.specs.Runs.{completeness_of};
ghost use Rattle.command_files.specs.Told.{name_in, name_shown};
ghost use Rattle.std.specs.Prelude.{◌≡◌, ◌&&◌};

use crate::context::{Context, Part};
use crate::files::STANDARD;
use crate::files::apart::CommandFiles;
use faults::ToolFault;
use page_files::PageForm;
use std::alloc::AllocError;

/// Whether a command that ran has done all that it was asked for.
#[derive(Clone, Copy, Debug, PartialEq, Eq)]
pub enum Completeness {
    /// It has.
    Whole,
    /// What is missing was named; or a call was run and didn't end as expected.
    Lacking,
}

impl Completeness {
    /// Whole, or lacking something.
    pub fn of(is_complete: bool) -> Completeness
        ensures { result ≡ completeness_of is_complete }
    {
        if is_complete {
            Completeness::Whole
        } else {
            Completeness::Lacking
        }
    }
}

/// Returns whether both are so.
pub fn both(one: bool, other: bool) -> bool
    ensures { result ≡ (one && other) }
{
    one && other
}

/// The names of the files of a command, by what they are.
#[derive(Clone, Copy)]
pub struct Names<'a> {
    /// What it reads; `-` if that is only the lines of a station, or nothing.
    pub input: &'a str,
    /// The file of what an answerer sent.
    pub answerer: Option<&'a str>,
    /// The file of the script, or of the list of names.
    pub script: Option<&'a str>,
    /// The file or the folder that it writes.
    pub output: Option<&'a str>,
    /// The folder of the octets on the line.
    pub bits: Option<&'a str>,
    /// The file of the picture.
    pub diagram: Option<&'a str>,
    /// The file of the trace.
    pub trace: Option<&'a str>,
}

/// The names of a command that has no files.
pub const NO_NAMES: Names<'static> = Names {
    input: STANDARD,
    answerer: None,
    script: None,
    output: None,
    bits: None,
    diagram: None,
    trace: None,
};

impl<'a> Names<'a> {
    /// Returns the name of a file, as messages show it; that of the input if there is no such file.
    pub fn shown(self, part: Part) -> &'a str
        ensures { result.now ≡ name_shown (name_in self.entry part) part }
    {
        let named = match part {
            Part::Input => None,
            Part::Answerer => self.answerer,
            Part::Script => self.script,
            Part::Output => self.output,
            Part::Bits => self.bits,
            Part::Diagram => self.diagram,
            Part::Trace => self.trace,
            Part::Printed => Some(STANDARD),
        };
        shown_name(named.unwrap_or(self.input), part)
    }
}

/// A name as messages have it.
fn shown_name<'a>(named: &'a str, part: Part) -> &'a str
    ensures { result.now ≡ name_shown named.now part }
{
    match part {
        Part::Output | Part::Diagram | Part::Printed if named == STANDARD => "standard output",
        _ if named == STANDARD => "standard input",
        _ => named,
    }
}

/// A command that runs, and what is asked of each.
pub trait Runs {
    ghost use Rattle.std.specs.Prelude.{ℕ, List, Option, Result, IfSome, OnOk};
    ghost use Rattle.faults.specs.declared.fault.ToolFault.{ToolFault};
    ghost use Rattle.command_files.specs.Apart.{AddsFiles, NamedFile};
    ghost use Rattle.command_files.specs.Runs.{Comes};
    ghost use Rattle.command_files.specs.declared.command.Completeness.{Completeness};
    ghost use Rattle.raster.specs.Pixels.{IsWidth};

    // The width of the coded pages that it reads, if it reads such.
    ghost width: { Self → Option ℕ };

    // The files that it reads and writes, in the order in which they are added.
    ghost its_files: { Self → List NamedFile };

    // What can come of it.
    ghost gives: { Self → Result Completeness ToolFault → Type 0 };

    /// The names of its files.
    fn names(&self) -> Names<'_>;

    /// Adds the files that it reads and writes, which have to be apart. Errors: memory was refused.
    fn add_files(&self, files: &mut CommandFiles<'_>) -> Result<(), AllocError>
        ensures { OnOk result (AddsFiles (its_files self.now) files.old.files.items files.new.files.items) };

    /// The form of the coded pages that it reads, if it reads such.
    fn page(&self) -> Option<PageForm>
        requires { IfSome (width self.now) IsWidth }
        ensures { IfSome result (λ form. IsWidth form.width) };

    /// Does what it is asked for. Errors: the fault, of which the context has what else is known.
    fn run(&self, context: &mut Context<'_>) -> Result<Completeness, ToolFault>
        requires { IfSome (width self.now) IsWidth }
        ensures { Comes (gives self.now) result };
}

//! A trial of a folder: all that is done to store a page is done once before a call, and undone.

ghost use Rattle.faults.specs.Faults.{IsOutside};
ghost use Rattle.std.specs.Prelude.{IfErr};

use crate::context::{Cause, Context, Part, TrialStep};
use crate::files::output::check_folder;
use crate::files::parts::{PartFile, Rights, make_in, name_in, remove, sync_folder};
use faults::ToolFault;
use std::io::{self, ErrorKind, Write};

/// What the file of a trial has.
const TRIAL: &[u8] = b"faxtool tries whether it can store pages here\n";

/// The step of a trial that failed, and why.
#[derive(Drop)]
struct Failed {
    step: TrialStep,
    error: io::Error,
}

/// Checks that a name is that of a folder in which pages of these rights can be stored: a file is made, written, synced and named as a page's
/// is, the folder is synced, and the file removed. Errors: `Io` (8), and that is noted; `NoMemory` (9).
pub fn check_stores(
    context: &mut Context<'_>,
    name: &str,
    rights: Rights,
    part: Part,
) -> Result<(), ToolFault>
    ensures { IfErr result IsOutside }
{
    check_folder(context, name, part)?;
    match try_folder(context.rt(), name, rights) {
        Ok(()) => Ok(()),
        Err(failed) => {
            if failed.error.kind() != ErrorKind::OutOfMemory {
                context.note_cause(Cause::FailedTrial(failed.step));
            }
            context.checked(Err(failed.error), part)
        }
    }
}

/// Tries all that is done to store a page.
fn try_folder(rt: &HostRuntime, folder: &str, rights: Rights) -> Result<(), Failed> {
    let mut made = at(TrialStep::Make, make_in(rt, folder, rights))?;
    let tried = try_file(rt, folder, &mut made);
    let removed = at(TrialStep::Remove, made.remove(rt));
    tried?;
    removed
}

/// Tries all that is done with a page's file but to make and remove it.
fn try_file(rt: &HostRuntime, folder: &str, made: &mut PartFile) -> Result<(), Failed> {
    let place = at(TrialStep::Name, name_in(rt, folder, "trial"))?;
    at(TrialStep::Write, made.write_all(TRIAL))?;
    at(TrialStep::Sync, made.sync())?;
    at(TrialStep::Name, made.put_new(rt, place.as_str()))?;
    let synced = at(TrialStep::SyncFolder, sync_folder(rt, folder));
    let removed = at(TrialStep::Remove, remove(rt, place.as_str()));
    synced?;
    removed
}

/// What was done, or the step that failed.
fn at<T: Drop>(step: TrialStep, done: io::Result<T>) -> Result<T, Failed> {
    match done {
        Ok(value) => Ok(value),
        Err(error) => Err(Failed { step, error }),
    }
}

//! Faults in words: those of a command, and those of one file of many, by the same function.

ghost use Rattle.command_files.specs.declared.context.Cause.TheVariants.{EmptyRuns, NoEofb};
ghost use Rattle.page_files.specs.NextT6.{EndsByEofb};
ghost use Rattle.page_files.specs.Refusals.{EndsInEmptyRuns};
ghost use Rattle.raster.specs.Packed.{bits_of};
ghost use Rattle.raster.specs.Pixels.{IsWidth};
ghost use Rattle.std.specs.Prelude.{◌≡◌, IfSome, Some, false};

mod row_widths;
mod told;

use crate::damaged::CHANCE_ROWS;
use crate::names::shown_text;
use crate::words::row_widths::same_width;
pub use crate::words::told::Told;
use calls::line_fault_at;
use command_files::command::{NO_NAMES, Names};
use command_files::context::{Cause, Context, Messages, Part};
use faults::{Expected, Explained, FaultKind, Known, LineFault, ToolFault};
use page_code::Coding;
use page_files::{PageForm, ends_by_eofb, ends_in_empty_runs, may_follow, refused_at, refused_in};
use raster::MAX_WIDTH;
use run_tables::Order;
use std::alloc::AllocError;

/// Returns a fault in words: that of a page of this form, if it is one, and of a file of this name, with what is noted of it.
pub fn explained<'a>(
    form: Option<PageForm>,
    file: &'a str,
    fault: ToolFault,
    context: &'a Context<'_>,
) -> Told<'a>
    requires { IfSome form (λ form. IsWidth form.width) }
    ensures fault { result.words.fault ≡ fault }
{
    let form = form_read(form, context);
    let (row, expected) = refused_place(form, fault, context);
    let cause = context.cause().or(cause_of(form, fault, context));
    // with another width, or such runs, neither the order nor the code is in doubt
    let read_as = match cause {
        Some(Cause::RowsOf(_) | Cause::EmptyRuns) => None,
        _ => form.map(|form| (form.coding, form.order)),
    };
    let known = Known {
        file,
        reason: context.reason(),
        begins: context.octets(),
        row,
        expected,
        read_as,
        line: refused_line(fault, context.script()),
    };
    Told {
        words: Explained { fault, known },
        cause,
    }
}

/// Returns how the page was read in which the fault is: in the form that is given, or else in the one that is noted.
fn form_read(given: Option<PageForm>, context: &Context<'_>) -> Option<PageForm>
    requires { IfSome given (λ form. IsWidth form.width) }
    ensures { IfSome result (λ form. IsWidth form.width) }
{
    if given.is_some() {
        return given;
    }
    match context.form() {
        Some(form) if form.width != 0 && form.width <= MAX_WIDTH => Some(form),
        _ => None,
    }
}

/// Returns a context for one file of several: what is noted in it is of that file alone.
pub(crate) fn context_of_file<'a>(context: &Context<'a>) -> Context<'a>
    ensures { result.messages ≡ context.now.messages }
{
    let messages = Messages {
        json: context.is_json(),
        explain: context.is_explained(),
    };
    Context::new(context.streams(), messages)
}

/// Returns the fault of one file of several in words, as a command of that file alone says it, if they are shown: on standard error they
/// would follow the fault's line. Errors: memory was refused.
pub(crate) fn words_of_file(
    own: &Context<'_>,
    form: Option<PageForm>,
    name: &str,
    fault: ToolFault,
) -> Result<Option<String>, AllocError>
    requires { IfSome form (λ form. IsWidth form.width) }
{
    if !own.is_json() && !own.explains() {
        return Ok(None);
    }
    let alloc = own.alloc();
    let names = Names {
        input: name,
        ..NO_NAMES
    };
    let shown = shown_text(alloc, names.shown(Part::Input))?;
    let words = explained(form, shown.as_str(), fault, own);
    let text = format!(in alloc; "{words}")?;
    Ok(Some(text))
}

/// Returns what the input's octets say of a fault beside its number.
fn cause_of(form: Option<PageForm>, fault: ToolFault, context: &Context<'_>) -> Option<Cause>
    requires { IfSome form (λ form. IsWidth form.width) }
{
    match fault {
        ToolFault::AtBit { no: _, place } => {
            let form = form?;
            match form.coding {
                Coding::OneDim => one_dim_cause(form, fault, place, context.octets()),
                Coding::T6 => t6_cause(form, fault, context),
            }
        }
        ToolFault::No(_) | ToolFault::AtLine(_) => None,
    }
}

/// What is known of a fault of a page of T.4: that it has another width, or rows with runs of 0 before their EOLs.
fn one_dim_cause(form: PageForm, fault: ToolFault, place: u128, octets: &[u8]) -> Option<Cause>
    ensures { result ≡ Some EmptyRuns → EndsInEmptyRuns form.width (bits_of form.order octets.now) place }
{
    if let Some(width) = other_width(octets, form.order, form.width) {
        return Some(Cause::RowsOf(width));
    }
    match fault.kind() {
        FaultKind::BadCode if ends_in_empty_runs(octets, form.order, form.width, place) => {
            Some(Cause::EmptyRuns)
        }
        _ => None,
    }
}

/// What is known of a page of T.6 that is refused after so many rows that it is one: where the next page may begin, or that the file has no EOFB at its end;
/// unless the file ends there.
fn t6_cause(form: PageForm, fault: ToolFault, context: &Context<'_>) -> Option<Cause>
    requires { IsWidth form.width }
    ensures { result ≡ Some NoEofb → EndsByEofb form.order context.now.noted.octets.items false }
{
    let refused = context.refused()?;
    let octets = context.octets();
    match fault.kind() {
        FaultKind::Truncated | FaultKind::MissingEofb => None,
        _ if refused.rows <= CHANCE_ROWS => None,
        _ => match may_follow(context.alloc(), octets, form, refused.row_start) {
            Some(octet) => Some(Cause::NextPage(octet)),
            None if ends_by_eofb(octets, form.order) => None,
            None => Some(Cause::NoEofb),
        },
    }
}

/// Returns the width of the rows of a page of T.4, if they all have the same one, and it isn't the one given.
fn other_width(octets: &[u8], order: Order, given: u32) -> Option<u32> {
    match same_width(octets, order) {
        Some(width) if width != given => Some(width),
        _ => None,
    }
}

/// What is wrong with the line of a script that is refused.
fn refused_line(fault: ToolFault, script: &[u8]) -> Option<LineFault> {
    match fault {
        ToolFault::AtLine(line) => line_fault_at(script, line),
        ToolFault::No(_) | ToolFault::AtBit { .. } => None,
    }
}

/// Returns the row, counted from 1, in which a page of a form is refused, and what is expected there, as far as they are known.
fn refused_place(
    form: Option<PageForm>,
    fault: ToolFault,
    context: &Context<'_>,
) -> (Option<usize>, Option<Expected>)
    requires { IfSome form (λ form. IsWidth form.width) }
{
    let ToolFault::AtBit { no: _, place } = fault else {
        return (None, None);
    };
    let Some(form) = form else {
        return (None, None);
    };
    let octets = context.octets();
    if let Some(refused) = context.refused() {
        let (row, expected) = refused_in(context.alloc(), octets, form, refused);
        return (Some(row), expected);
    }
    // `--repair` doesn't keep how far it read: the page is read again, and only if the words are shown
    let PageForm {
        coding,
        order,
        width,
        fine: _,
    } = form;
    refused_at(context.alloc(), octets, coding, order, width, place)
}

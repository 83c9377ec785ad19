//! How octets are decoded: as is given, or else as `identify` says it.

ghost use Rattle.commands.specs.FoundForms.{BeginsSo, IsFormOf, IsFoundForm, form_by, form_in, given_width, lined, unread_end, used_in};
ghost use Rattle.faults.specs.Faults.{IsOutside};
ghost use Rattle.page_files.specs.Found.{HasItsWidth};
ghost use Rattle.raster.specs.Pixels.{IsWidth};
ghost use Rattle.std.specs.Prelude.{◌≡◌, IfErr, IfOk, IfSome};

use crate::damaged::{Unread, is_damaged_page, unread_of};
use crate::decode::ends::FileEnd;
use crate::identify::several::bits_in;
use faults::ToolFault;
use page_files::{Found, FoundPage, PageForm, find_way_by};
use std::alloc::Global;

/// Returns a way to read pages, with the lines that are asked for.
fn lined(fine: bool, form: PageForm) -> PageForm
    ensures { result ≡ lined fine form }
{
    PageForm { fine, ..form }
}

/// Returns what is said of octets that are this, which isn't read.
fn unread_end(unread: Unread) -> FileEnd
    ensures { result ≡ unread_end unread }
{
    match unread {
        Unread::TwoDims(_) => FileEnd::TwoDims,
        Unread::NoEols(said) => FileEnd::NoEols(said),
    }
}

/// Returns the form in which octets are decoded that are this, and perhaps something that isn't read; or what is said of octets that aren't
/// decoded.
fn form_by(fine: bool, unread: Option<Unread>, found: Found) -> Result<PageForm, FileEnd>
    requires { HasItsWidth found }
    ensures form { result ≡ form_by fine unread found }
    ensures width { IfOk result (λ form. IsWidth form.width) }
{
    if let Some(said) = unread {
        return Err(unread_end(said));
    }
    match found {
        Found::Page(way) => Ok(lined(fine, way.form)),
        Found::Begun(way) => {
            if is_damaged_page(&way) {
                Ok(lined(fine, way.form))
            } else {
                Err(FileEnd::Nothing)
            }
        }
        Found::Format(name) => Err(FileEnd::NoFax(name)),
        Found::Several => Err(FileEnd::NoWidth),
        Found::Nothing => Err(FileEnd::Nothing),
    }
}

/// How octets are decoded.
#[derive(Drop)]
pub(crate) struct Way {
    /// The form of their pages.
    pub(crate) form: PageForm,
    /// The number of bits of the first page's code, if it is read to its end and that is known.
    pub(crate) used: Option<u128>,
    /// A page that the octets begin with, if one was read to its end.
    pub(crate) page: Option<FoundPage>,
}

/// What is asked for of how octets are decoded.
#[derive(Clone, Copy)]
pub(crate) struct FormAsked {
    /// The form in which they are, if it is given.
    pub(crate) form: Option<PageForm>,
    /// Otherwise the width that they are likely to have, if one is given.
    pub(crate) likely: Option<u32>,
    /// Whether the lines of a page whose form isn't given are fine.
    pub(crate) fine: bool,
}

/// Returns the number of bits of the first page's code, if octets are a page that is read to its end.
fn used_in(found: &Found) -> Option<u128>
    ensures { result ≡ used_in found.now }
{
    match found {
        Found::Page(way) => bits_in(way.end),
        Found::Begun(_) | Found::Format(_) | Found::Several | Found::Nothing => None,
    }
}

/// Identifies octets, by a likely width if one is given, and returns how they are decoded then, with fine lines or standard ones; or what is
/// said of them if they aren't. Errors: `NoMemory` (9).
#[tactic(auto, using(crate::proofs::WaysFound::found_begins))]
fn found_form(
    alloc: Global,
    octets: &[u8],
    likely: Option<u32>,
    fine: bool,
) -> Result<Result<Way, FileEnd>, ToolFault>
    requires { IfSome likely IsWidth }
    ensures form { IfOk result (λ way. IsFoundForm likely fine octets.now (form_in way)) }
    ensures width { IfOk result (λ way. IfOk way (λ way. IsWidth way.form.width)) }
    ensures used { IfOk result (λ way. IfOk way (BeginsSo octets.now)) }
    ensures fault { IfErr result IsOutside }
{
    let (found, page) = find_way_by(alloc, octets, likely)?;
    let unread = unread_of(alloc, octets, &found)?;
    match form_by(fine, unread, found) {
        Ok(form) => {
            let used = used_in(&found);
            Ok(Ok(Way { form, used, page }))
        }
        Err(end) => Ok(Err(end)),
    }
}

/// Returns how octets are decoded: in the form that is given, or else as they are identified. Errors: `NoMemory` (9).
pub(crate) fn form_of(
    alloc: Global,
    asked: FormAsked,
    octets: &[u8],
) -> Result<Result<Way, FileEnd>, ToolFault>
    requires { IfSome (given_width asked.form asked.likely) IsWidth }
    ensures form { IfOk result (λ way.
        IsFormOf asked.form asked.likely asked.fine octets.now (form_in way)) }
    ensures width { IfOk result (λ way. IfOk way (λ way. IsWidth way.form.width)) }
    ensures used { IfOk result (λ way. IfOk way (BeginsSo octets.now)) }
    ensures fault { IfErr result IsOutside }
{
    match asked.form {
        Some(form) => Ok(Ok(Way {
            form,
            used: None,
            page: None,
        })),
        None => found_form(alloc, octets, asked.likely, asked.fine),
    }
}

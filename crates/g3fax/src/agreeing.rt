//! What two stations agree on, for C.

ghost use Rattle.g3fax.specs.Agreeing.{AnswersAgree, Agrees};
ghost use Rattle.g3fax.specs.Beginning.{wish_of};
ghost use Rattle.g3fax.specs.Pages.{is_set};
ghost use Rattle.g3fax.specs.SignalNumbers.{reason_number};
ghost use Rattle.g3fax.specs.SignalsMeant.{dis_meant};
ghost use Rattle.signals.specs.Agreement.{width_of_pixels};
ghost use Rattle.std.specs.Prelude.{◌≡◌};

use crate::beginning::{G3Wish, wish_of};
use crate::signal::{G3Dis, G3Params, params_told};
use crate::signalling::dis_meant;
use crate::status::{BAD_CHOICE, NOT_CALLABLE, NOT_COMPATIBLE, OK};
use signals::{Caps, PageWidth, Reason, Wish, agree, why_not};

/// The number of a reason.
fn reason_number(reason: Reason) -> u32
    ensures { result ≡ reason_number reason }
{
    match reason {
        Reason::NoReceiver => 1,
        Reason::NoErrorCorrection => 2,
        Reason::TooWide => 3,
        Reason::NoFineLines => 4,
        Reason::NoCommonSpeed => 5,
    }
}

/// Tells what is agreed for pages, or why nothing is.
fn agree_for(
    caps: &Caps,
    wish: &Wish,
    pages: (PageWidth, bool),
    params: &mut G3Params,
    reason: &mut u32,
) -> u32
    ensures { Agrees caps.now wish.now pages.0 pages.1 params.old params.new reason.old reason.new result }
{
    let (width, fine) = pages;
    match agree(caps, wish, width, fine) {
        Ok(agreed) => {
            *params = params_told(&agreed);
            OK
        }
        Err(_) => {
            if let Some(why) = why_not(caps, wish, width, fine) {
                *reason = reason_number(why);
            }
            NOT_COMPATIBLE
        }
    }
}

/// Tells what a caller with this wish agrees on with the station of a DIS, for pages of a width in pixels, fine if `fine` isn't 0: the
/// parameters of a DCS (ITU-T T.30, 5.3.6.2). Returns `G3_BAD_CHOICE` (104) for an unknown number, `G3_NOT_CALLABLE` (26) if the width
/// isn't 1,728, 2,048 or 2,432, `G3_NOT_COMPATIBLE` (28) if they don't agree. Then the first reason is told: 1 the station doesn't receive,
/// 2 it has no error correction, 3 the page is too wide, 4 it takes no fine lines, 5 no common speed.
#[unsafe(no_mangle)]
pub extern "C" fn g3_core_agree(
    dis: &G3Dis,
    wish: &G3Wish,
    width: u32,
    fine: u32,
    params: &mut G3Params,
    reason: &mut u32,
) -> u32
    ensures { AnswersAgree (dis_meant dis.now) (wish_of wish.now) (width_of_pixels width) (is_set fine) params.old params.new reason.old
        reason.new result }
{
    let Some(caps) = dis_meant(dis) else {
        return BAD_CHOICE;
    };
    let Some(wish) = wish_of(wish) else {
        return BAD_CHOICE;
    };
    match PageWidth::of_pixels(width) {
        Some(width) => agree_for(&caps, &wish, (width, fine != 0), params, reason),
        None => NOT_CALLABLE,
    }
}

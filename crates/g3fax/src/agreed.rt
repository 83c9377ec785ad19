//! What a terminal and the other station have agreed on, for C.

ghost use Rattle.g3fax.specs.Agreed.{TellsParams, TellsPeer, told_dcs, told_dis};
ghost use Rattle.g3fax.specs.Kinds.{OfKind, TellsGroup, TellsOther};
ghost use Rattle.std.specs.Prelude.{◌≡◌, ◌≢◌};

use crate::handle::{G3Handle, Kept};
use crate::kinds::Told;
use crate::signal::{G3Params, G3Signal, params_told, told};
use crate::status::{EMPTY_HANDLE, NOTHING, OK, OTHER_HANDLE};
use signals::{Caps, Params, Signal};
use std::alloc::Global;

/// Tells parameters, if there are some.
pub(crate) fn tell_params(found: Option<Params>, params: &mut G3Params) -> u32
    ensures tells { TellsParams found params.old params.new result }
    ensures untold { result ≢ 0 → params.new ≡ params.old }
{
    match found {
        Some(agreed) => {
            *params = params_told(&agreed);
            OK
        }
        None => NOTHING,
    }
}

/// Tells how the pages of the group under way are sent, as the caller's DCS says it. Returns `G3_NOTHING` (106) if none is under way: a
/// caller waits for a DIS, or an answerer is in phase B.
#[unsafe(no_mangle)]
pub extern "C" fn g3_core_terminal_params(
    alloc: Global,
    terminal: &mut G3Handle,
    params: &mut G3Params,
) -> u32
    ensures answers { OfKind (λ S H k it. TellsGroup k it params.old params.new result) terminal.old.value result }
    ensures kept { terminal.new.value ≡ terminal.old.value }
    ensures untold { result ≢ 0 → params.new ≡ params.old }
{
    match terminal.take(alloc) {
        None => EMPTY_HANDLE,
        Some(kept) => {
            let status = match &*kept {
                Kept::Caller(calling) => (**calling).tell_group(params),
                Kept::Answerer(answering) => (**answering).tell_group(params),
                _ => OTHER_HANDLE,
            };
            terminal.put(kept);
            status
        }
    }
}

/// A DIS as a signal is told, if there is one.
pub(crate) fn told_dis(found: Option<Caps>) -> Option<G3Signal>
    ensures { result ≡ told_dis found }
{
    match found {
        Some(caps) => Some(told(&Signal::Dis(caps))),
        None => None,
    }
}

/// A DCS as a signal is told, if there is one.
pub(crate) fn told_dcs(found: Option<Params>) -> Option<G3Signal>
    ensures { result ≡ told_dcs found }
{
    match found {
        Some(params) => Some(told(&Signal::Dcs(params))),
        None => None,
    }
}

/// Tells what is known of the other station, if anything is.
pub(crate) fn tell_peer(known: Option<G3Signal>, signal: &mut G3Signal) -> u32
    ensures tells { TellsPeer known signal.old signal.new result }
    ensures untold { result ≢ 0 → signal.new ≡ signal.old }
{
    match known {
        Some(peer) => {
            *signal = peer;
            OK
        }
        None => NOTHING,
    }
}

/// Tells what is known of the other station: for a caller's terminal the last DIS that was agreed on, for an answerer's the last DCS that
/// was allowed (in phase B only once a block was accepted). Returns `G3_NOTHING` (106) if nothing is known.
#[unsafe(no_mangle)]
pub extern "C" fn g3_core_terminal_peer(
    alloc: Global,
    terminal: &mut G3Handle,
    signal: &mut G3Signal,
) -> u32
    ensures answers { OfKind (λ S H k it. TellsOther k it signal.old signal.new result) terminal.old.value result }
    ensures kept { terminal.new.value ≡ terminal.old.value }
    ensures untold { result ≢ 0 → signal.new ≡ signal.old }
{
    match terminal.take(alloc) {
        None => EMPTY_HANDLE,
        Some(kept) => {
            let status = match &*kept {
                Kept::Caller(calling) => (**calling).tell_other(signal),
                Kept::Answerer(answering) => (**answering).tell_other(signal),
                _ => OTHER_HANDLE,
            };
            terminal.put(kept);
            status
        }
    }
}

//! The states of terminals, for C.

ghost use Rattle.g3fax.specs.Kinds.{OfKind, TellsState};
ghost use Rattle.g3fax.specs.States.{TellsShown, known_end};
ghost use Rattle.std.specs.Prelude.{◌≡◌, ◌≢◌};

use crate::handle::{G3Handle, Kept};
use crate::kinds::Told;
use crate::numbers::{end_number, listens_carrier, listens_number, wait_number};
use crate::status::{EMPTY_HANDLE, OK, OTHER_HANDLE};
use stations::{CallEnd, End};
use std::alloc::Global;
use terminals::Shown;

/// The state of a terminal: its pages, what it listens for, its waits, and why its call ended.
#[repr(C)]
#[derive(Clone, Copy)]
pub struct G3State {
    /// How many pages a caller has confirmed, or an answerer has stored and not handed out.
    pub pages: u64,
    /// How many good frames were heard.
    pub frames: u64,
    /// 1 if it listens for V.21 alone, 2 for a training check, 3 for V.21 and the frames of a page, 4 for these with V.21 first.
    pub listens: u32,
    /// The carrier of the training check or the page, 2 to 9; 0 if it listens for V.21 alone.
    pub carrier: u32,
    /// The wait that runs: 1 for T1, 2 for T2, 4 for T4, 5 for T5; 0 for none.
    pub wait: u32,
    /// The longer wait that runs beside it; 0 for none.
    pub longer: u32,
    /// Why the call ended, 1 to 12; 0 while it goes on.
    pub end: u32,
}

/// What is told of what a station shows.
pub(crate) fn state_told(shown: Shown, pages: u64, frames: u64) -> G3State
    ensures told { TellsShown shown result }
    ensures pages { result.pages ≡ pages }
    ensures frames { result.frames ≡ frames }
{
    G3State {
        pages,
        frames,
        listens: listens_number(shown.listens),
        carrier: listens_carrier(shown.listens),
        wait: wait_number(shown.running),
        longer: wait_number(shown.longer),
        end: end_number(shown.end),
    }
}

/// Why the call of an answerer ended, by whether each page that it has stored is confirmed: if not, a caller that left after its last page
/// doesn't know that this arrived, and left before it was confirmed.
pub(crate) fn known_end(confirmed: bool, end: Option<CallEnd>) -> Option<CallEnd>
    ensures { result ≡ known_end confirmed end }
{
    match end {
        Some(CallEnd::By(End::Normal)) if !confirmed => Some(CallEnd::By(End::PeerLeft)),
        _ => end,
    }
}

/// Tells the state of a terminal: what it listens for, its waits, its pages and good frames so far, and why its call ended.
#[unsafe(no_mangle)]
pub extern "C" fn g3_core_terminal_state(
    alloc: Global,
    terminal: &mut G3Handle,
    state: &mut G3State,
) -> u32
    ensures answers { OfKind (λ S H k it. TellsState k it state.new result) terminal.old.value result }
    ensures kept { terminal.new.value ≡ terminal.old.value }
    ensures untold { result ≢ 0 → state.new ≡ state.old }
{
    match terminal.take(alloc) {
        None => EMPTY_HANDLE,
        Some(kept) => {
            let status = match &*kept {
                Kept::Caller(calling) => (**calling).tell_state(state),
                Kept::Answerer(answering) => (**answering).tell_state(state),
                _ => OTHER_HANDLE,
            };
            terminal.put(kept);
            status
        }
    }
}

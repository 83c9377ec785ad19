//! How far terminals are with their calls, for C.

ghost use Rattle.g3fax.specs.Kinds.{OfKind, TellsProgress};
ghost use Rattle.g3fax.specs.Progress.{answering_told, calling_told, refused_times, refused_why, with_watch};
ghost use Rattle.std.specs.Prelude.{◌≡◌, ◌≢◌, ◌≤◌};

use crate::figures::{G3Figures, figures_told};
use crate::handle::{G3Handle, Kept};
use crate::kinds::Told;
use crate::status::{EMPTY_HANDLE, OTHER_HANDLE};
use stations::{AnswererProgress, CallerProgress};
use std::alloc::Global;
use terminals::{Figures, Refusal, Refused, Watched};

/// How far a terminal is with its call; what belongs to the other station is 0.
#[repr(C)]
#[derive(Clone, Copy)]
pub struct G3Progress {
    /// The number of pages in a caller's document, or stored by an answerer and not handed out.
    pub pages: u64,
    /// How many pages are confirmed: of a caller's document, or of those that an answerer has stored.
    pub confirmed: u64,
    /// Which block of its page a caller sends, from 1, from the CFR on; 0 if it sends none.
    pub block: u64,
    /// The number of blocks in that page; 0 if the caller sends none.
    pub blocks: u64,
    /// The octets of code, of the blocks accepted so far, of the page that an answerer receives.
    pub octets: u64,
    /// How often frames of that block were asked for again by PPR, 0 to 3.
    pub resends: u32,
    /// How often a caller's last command was sent; 0 before the first.
    pub tries: u32,
    /// How many frames of the block that is under way an answerer has, 0 to 256.
    pub frames: u32,
    /// 1 if an answerer has accepted a block, otherwise 0.
    pub accepted: u32,
    /// The page number, modulo 256, of the last block accepted.
    pub accepted_page: u32,
    /// The number of that block in its page, modulo 256.
    pub accepted_block: u32,
    /// How often an answerer was sent a DCS that it doesn't allow, 0 to 2: 2 for twice or more.
    pub refused: u32,
    /// Why the call is refused: 1 if a second DCS was without error correction, 2 if it wanted what isn't offered, 3 if a page came under the
    /// number of the last one; 0 if it isn't.
    pub refused_why: u32,
    /// 1 if the page numbers of an answerer's PPSs have jumped, otherwise 0.
    pub gap: u32,
    /// The page number, modulo 256, that came first after a jump.
    pub gap_page: u32,
    /// What the call came to.
    pub figures: G3Figures,
}

/// How often a DCS wasn't allowed.
fn refused_times(refused: Refused) -> u32
    ensures { result ≡ refused_times refused }
{
    match refused {
        Refused::Never => 0,
        Refused::Once => 1,
        Refused::Twice(_) => 2,
    }
}

/// Why a call is refused, by number; 0 if it isn't.
fn refused_why(refusal: Option<Refusal>) -> u32
    ensures { result ≡ refused_why refusal }
{
    match refusal {
        None => 0,
        Some(Refusal::NoErrorCorrection) => 1,
        Some(Refusal::NotOffered) => 2,
        Some(Refusal::UsedNumber) => 3,
    }
}

/// What is told of how far a station is, with what it saw.
pub(crate) fn with_watch(told: G3Progress, watched: Option<Watched>) -> G3Progress
    ensures { result ≡ with_watch watched told }
{
    let Some(watched) = watched else {
        return told;
    };
    let (gap, gap_page) = match watched.pages.gap {
        Some(page) => (1, page as u32),
        None => (0, 0),
    };
    G3Progress {
        refused: refused_times(watched.refused),
        refused_why: refused_why(watched.refusal()),
        gap,
        gap_page,
        ..told
    }
}

/// What is told of how far a caller is, whose call came to this.
pub(crate) fn calling_told(far: CallerProgress, figures: Figures) -> G3Progress
    ensures { result ≡ calling_told far figures }
{
    let (block, blocks, resends) = match far.block {
        Some(block) => (block.number, block.blocks, block.resends as u32),
        None => (0, 0, 0),
    };
    G3Progress {
        pages: far.pages,
        confirmed: far.confirmed,
        block,
        blocks,
        octets: 0,
        resends,
        tries: far.tries as u32,
        frames: 0,
        accepted: 0,
        accepted_page: 0,
        accepted_block: 0,
        refused: 0,
        refused_why: 0,
        gap: 0,
        gap_page: 0,
        figures: figures_told(figures),
    }
}

/// What is told of how far an answerer is, with this many pages and so many of all confirmed, whose call came to this.
pub(crate) fn answering_told(
    far: AnswererProgress,
    pages: u64,
    confirmed: u64,
    figures: Figures,
) -> G3Progress
    ensures { result ≡ answering_told far pages confirmed figures }
{
    let (accepted, accepted_page, accepted_block) = match far.accepted {
        Some(mark) => (1, mark.page as u32, mark.block as u32),
        None => (0, 0, 0),
    };
    G3Progress {
        pages,
        confirmed,
        block: 0,
        blocks: 0,
        octets: far.octets,
        resends: 0,
        tries: 0,
        frames: far.frames as u32,
        accepted,
        accepted_page,
        accepted_block,
        refused: 0,
        refused_why: 0,
        gap: 0,
        gap_page: 0,
        figures: figures_told(figures),
    }
}

/// Tells how far a terminal is with its call: a caller's pages, block and tries, or an answerer's pages, octets and
/// frames, and what it saw of its caller; and what the call came to.
#[unsafe(no_mangle)]
pub extern "C" fn g3_core_terminal_progress(
    alloc: Global,
    terminal: &mut G3Handle,
    progress: &mut G3Progress,
) -> u32
    ensures answers { OfKind (λ S H k it. TellsProgress k it progress.new result) terminal.old.value result }
    ensures kept { terminal.new.value ≡ terminal.old.value }
    ensures untold { result ≢ 0 → progress.new ≡ progress.old }
{
    match terminal.take(alloc) {
        None => EMPTY_HANDLE,
        Some(kept) => {
            let status = match &*kept {
                Kept::Caller(calling) => (**calling).tell_progress(progress),
                Kept::Answerer(answering) => (**answering).tell_progress(progress),
                _ => OTHER_HANDLE,
            };
            terminal.put(kept);
            status
        }
    }
}

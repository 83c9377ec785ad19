//! What terminals' calls came to, for C.

ghost use Rattle.g3fax.specs.Figures.{figures_told, figures_without, filled, speed_told, with_name, with_other, without_blanks};
ghost use Rattle.std.specs.Prelude.{◌≡◌, ◌≤◌, drop, length};

use crate::numbers::speed_number;
use signals::Speed;
use terminals::Figures;

/// What a call came to so far, counted from the good frames that a terminal heard and from those of the bursts that were taken; FCD and RCP
/// count as nothing.
#[repr(C)]
#[derive(Clone, Copy)]
pub struct G3Figures {
    /// The blocks that are confirmed: each by the first MCF after its PPS.
    pub blocks: u64,
    /// The PPRs.
    pub pprs: u64,
    /// The frames that these ask for, of those that the block of the last PPS has.
    pub resent: u64,
    /// The commands, DIS, DCS, PPS and RR, that were said with no frame heard since the one before.
    pub retries: u64,
    /// The FTTs.
    pub failed_checks: u64,
    /// The carrier of the first DCS, 2 to 9; 0 if none came.
    pub first_speed: u32,
    /// The carrier of the last DCS.
    pub last_speed: u32,
    /// 1 if the last frame that was heard is no signal of these stations, otherwise 0.
    pub other: u32,
    /// The facsimile control field of that frame.
    pub control: u32,
    /// How many characters the other station's name has, 0 to 20.
    pub peer_length: u32,
    /// The characters of that name in the order of reading, and then 0.
    pub peer: [u8; 20],
}

/// Returns the carrier of a speed; 0 of none.
fn speed_told(speed: Option<Speed>) -> u32
    ensures { result ≡ speed_told speed }
{
    match speed {
        Some(speed) => speed_number(speed),
        None => 0,
    }
}

/// Returns how many spaces octets begin with.
fn count_blanks(octets: &[u8]) -> usize
    ensures within { result ≤ length octets.now }
    ensures blanks { drop result octets.now ≡ without_blanks octets.now }
{
    let mut count = 0;
    for octet in octets {
        if *octet != b' ' {
            return count;
        }
        count += 1;
    }
    count
}

/// Returns signs as 20 octets, which are 0 after them.
fn filled(signs: &[u8]) -> [u8; 20]
    requires { length signs.now ≤ 20 }
    ensures { result ≡ filled signs.now }
{
    let mut octets = [0; 20];
    octets[..signs.len()].copy_from_slice(signs);
    octets
}

/// Adds the control field of the last frame that was heard, if that is no signal of these stations.
fn with_other(told: G3Figures, control: Option<u8>) -> G3Figures
    ensures { result ≡ with_other control told }
{
    match control {
        Some(control) => G3Figures {
            other: 1,
            control: control as u32,
            ..told
        },
        None => told,
    }
}

/// Adds what the other station calls itself, if it does: the last sign came first, and the spaces after it.
fn with_name(told: G3Figures, name: Option<[u8; 20]>) -> G3Figures
    ensures { result ≡ with_name name told }
{
    let Some(name) = name else {
        return told;
    };
    let mut signs = name;
    signs.reverse();
    let read = &signs[count_blanks(&signs)..];
    G3Figures {
        peer_length: read.len() as u32,
        peer: filled(read),
        ..told
    }
}

/// Returns what is told of what a call came to, beside the name and the frame that isn't known.
fn figures_without(figures: Figures) -> G3Figures
    ensures { result ≡ figures_without figures }
{
    G3Figures {
        blocks: figures.blocks,
        pprs: figures.requests,
        resent: figures.resent,
        retries: figures.retries,
        failed_checks: figures.failed_checks,
        first_speed: speed_told(figures.first_speed),
        last_speed: speed_told(figures.last_speed),
        other: 0,
        control: 0,
        peer_length: 0,
        peer: [0; 20],
    }
}

/// Returns what is told of what a call came to.
pub(crate) fn figures_told(figures: Figures) -> G3Figures
    ensures { result ≡ figures_told figures }
{
    let told = figures_without(figures);
    with_name(with_other(told, figures.unread), figures.name)
}

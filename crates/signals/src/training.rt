//! The training check.

ghost use Rattle.signals.specs.Training.{training_octets, longest_zeros, IsGoodTraining};
ghost use Rattle.std.specs.Prelude.{◌≡◌, ◌↔◌, IsTrue, max};

use crate::params::Speed;

/// Returns how many octets 00 the training check has at a speed: 1.5 s of 0 bits. ITU-T T.30, 5.3.6.1.3.
pub fn training_len(speed: Speed) -> u32
    ensures { result ≡ training_octets speed }
{
    match speed {
        Speed::V27At2400 => 450,
        Speed::V27At4800 => 900,
        Speed::V29At7200 | Speed::V17At7200 => 1350,
        Speed::V29At9600 | Speed::V17At9600 => 1800,
        Speed::V17At12000 => 2250,
        Speed::V17At14400 => 2700,
    }
}

/// How many octets 00 the longest run of them has.
fn longest_run(octets: &[u8]) -> usize
    ensures { result ≡ longest_zeros octets.now }
{
    let mut longest = 0;
    let mut run: usize = 0;
    for octet in octets {
        run = if *octet == 0 { run + 1 } else { 0 };
        longest = run.max(longest);
    }
    longest
}

/// Whether what was heard is a good training check: twice its longest run of octets 00 is at least the check's length.
pub fn training_good(octets: &[u8], speed: Speed) -> bool
    ensures { IsTrue result ↔ IsGoodTraining octets.now speed }
{
    training_len(speed).div_ceil(2) as usize <= longest_run(octets)
}

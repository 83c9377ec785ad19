//! Texts in which the system has numbers of this process.

ghost use Rattle.command_files.specs.SystemTexts.{after_label, is_blank, is_digit, number_after, number_at, number_from};
ghost use Rattle.std.specs.Prelude.{◌≡◌, MatchOption, None, Some};

use std::fs::File;
use std::io::Read;

/// How many octets are read of such a text.
pub(crate) const TEXT_OCTETS: usize = 4096;

/// Reads the beginning of a text of this name into these octets. None if it can't be read.
pub(crate) fn read_text<'a>(
    rt: &HostRuntime,
    name: &str,
    octets: &'a mut [u8; TEXT_OCTETS],
) -> Option<&'a [u8]> {
    let mut file = File::open(rt, name).ok()?;
    let count = file.read(octets).ok()?;
    octets.get(..count)
}

/// The octets after the first place where a label stands, if it stands in these.
#[tactic(auto, using(crate::proofs::SystemTextLemmas::labels))]
fn after_label<'a>(octets: &'a [u8], label: &[u8]) -> Option<&'a [u8]>
    ensures { MatchOption result (after_label label.now octets.now ≡ None) (λ rest. after_label label.now octets.now ≡ Some rest.now) }
{
    let mut left = octets;
    while let [_first, more @ ..] = left {
        if left.starts_with(label) {
            return Some(&left[label.len()..]);
        }
        left = more;
    }
    None
}

/// Whether an octet is a space or a tab.
fn is_blank(octet: u8) -> bool
    ensures { result ≡ is_blank octet }
{
    octet == b' ' || octet == b'\t'
}

/// Whether an octet is a digit to this base.
fn is_digit(octet: u8, base: u8) -> bool
    ensures { result ≡ is_digit base octet }
{
    octet >= b'0' && octet - b'0' < base
}

/// The number whose digits to this base come first in these octets, after those of which this is the number.
#[tactic(auto, using(crate::proofs::SystemTextLemmas::numbers))]
fn number_from(octets: &[u8], base: u8, before: u64) -> u64
    ensures { result ≡ number_from base before octets.now }
{
    let mut number = before;
    let mut left = octets;
    while let [first, more @ ..] = left {
        if !is_digit(*first, base) {
            return number;
        }
        let shifted = number.saturating_mul(u64::from(base));
        number = shifted.saturating_add(u64::from(*first - b'0'));
        left = more;
    }
    number
}

/// The number to this base that comes first in these octets, after blanks. None if there is none.
#[tactic(auto, using(crate::proofs::SystemTextLemmas::fronts))]
fn number_at(octets: &[u8], base: u8) -> Option<u64>
    ensures { result ≡ number_at base octets.now }
{
    let mut left = octets;
    while let [first, more @ ..] = left {
        if is_digit(*first, base) {
            return Some(number_from(left, base, 0));
        }
        if !is_blank(*first) {
            return None;
        }
        left = more;
    }
    None
}

/// The number to this base, of at most 10, that comes after the first place where a label stands, if there is one.
pub(crate) fn number_after(octets: &[u8], label: &[u8], base: u8) -> Option<u64>
    ensures { result ≡ number_after label.now base octets.now }
{
    number_at(after_label(octets, label)?, base)
}

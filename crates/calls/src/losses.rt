//! What becomes of the items on a bad line: rates, and fates that a generator draws by them.

ghost use Rattle.calls.specs.Losses.{AreDigits, IsFraction, IsPercent, IsRate, fate_of, generator_of, is_busy_word, share_of};
ghost use Rattle.line_sim.specs.Fates.{plain_fate};
ghost use Rattle.rand_pcg.specs.Pcg.{pcg32};
ghost use Rattle.std.specs.Prelude.{◌≡◌, ◌≤◌, ◌^◌, ℕ, IfSome, Some};

use line_sim::Fate;
use rand_core::utils::NextWord;
use rand_pcg::Lcg64Xsh32;

/// The most digits of a number in a rate.
const MOST_DIGITS: usize = 9;

/// The greatest number in a rate.
const MOST: u64 = 999_999_999;

/// How bad a line is, and the numbers that its losses are drawn by.
#[derive(Clone, Copy, Debug, PartialEq, Eq)]
pub struct BadLine {
    /// How many of the generator's 2^32 words lose an item: those below this number.
    pub lose: u64,
    /// How many words spoil it: those after the ones that lose it.
    pub spoil: u64,
    /// How many words make the answerer busy when a PPS or an RR comes to it; 0 draws no word.
    pub busy: u64,
    /// The state with which the generator begins.
    pub seed: u64,
    /// How many DIS are sent in one wait for a DIS; the first one always is.
    pub calls: u64,
}

/// The number that decimal digits write.
fn digits_in(digits: &str) -> Option<u64>
    ensures is { IfSome result (AreDigits digits.now) }
    ensures only { (value : ℕ) → AreDigits digits.now value → result ≡ Some value }
{
    if digits.len() > MOST_DIGITS || digits.starts_with('+') {
        return None;
    }
    match digits.parse::<u64>() {
        Ok(value) if value <= MOST => Some(value),
        _ => None,
    }
}

/// How many of the 2^32 words a part of a whole is, rounded down.
fn share_of(part: u64, whole: u64) -> u64
    requires least { 1 ≤ whole }
    requires most { part ≤ 2 ^ 30 }
    ensures { result ≡ share_of part whole }
{
    part * 4_294_967_296 / whole
}

/// The share of a percentage, without its %.
fn percent_in(digits: &str) -> Option<u64>
    ensures is { IfSome result (IsPercent digits.now) }
    ensures only { (share : ℕ) → IsPercent digits.now share → result ≡ Some share }
{
    match digits_in(digits) {
        Some(value) if value <= 100 => Some(share_of(value, 100)),
        _ => None,
    }
}

/// The share of a fraction.
fn fraction_in(above: &str, below: &str) -> Option<u64>
    ensures is { IfSome result (IsFraction above.now below.now) }
    ensures only { (share : ℕ) → IsFraction above.now below.now share → result ≡ Some share }
{
    let part = digits_in(above)?;
    let whole = digits_in(below)?;
    if whole == 0 || part > whole {
        return None;
    }
    Some(share_of(part, whole))
}

/// The rate that a text says, as `5%` or `1/20`: how many of the generator's 2^32 words are below it, rounded down. Its numbers have one to
/// nine decimal digits. None if the text is no rate: above 1, or a fraction with 0 below.
pub fn read_rate(text: &str) -> Option<u64>
    ensures is { IfSome result (IsRate text.now) }
    ensures only { (share : ℕ) → IsRate text.now share → result ≡ Some share }
{
    if let Some(digits) = text.strip_suffix('%') {
        return percent_in(digits);
    }
    let Some((above, below)) = text.split_once('/') else {
        return None;
    };
    fraction_in(above, below)
}

/// What a word of the generator makes of an item.
fn fate_of(line: &BadLine, word: u32) -> Fate
    ensures { plain_fate result ≡ fate_of line.now word }
{
    let word = u64::from(word);
    if word < line.lose {
        return Fate::Lost;
    }
    if word - line.lose < line.spoil {
        return Fate::Spoiled;
    }
    Fate::Comes
}

/// The generator of the call of this number, from 0: PCG-XSH-RR of 64 bits of state and 32 bits a word, known as pcg32. The seed is its
/// state, the number its stream, so any program can draw the same.
pub fn generator_of(line: &BadLine, number: u64) -> Lcg64Xsh32
    ensures { result ≡ generator_of line.now number }
{
    Lcg64Xsh32::new(line.seed, number)
}

/// True if the answerer is busy, by the generator's next word.
pub(crate) fn draw_busy(line: &BadLine, generator: &mut Lcg64Xsh32) -> bool
    ensures busy { result ≡ is_busy_word line.now (pcg32 generator.old).0 }
    ensures next { generator.new ≡ (pcg32 generator.old).1 }
{
    let word = generator.next_word();
    u64::from(word) < line.busy
}

/// The next fate that the generator draws.
pub(crate) fn draw(line: &BadLine, generator: &mut Lcg64Xsh32) -> Fate
    ensures fate { plain_fate result ≡ fate_of line.now (pcg32 generator.old).0 }
    ensures next { generator.new ≡ (pcg32 generator.old).1 }
{
    let word = generator.next_word();
    fate_of(line, word)
}

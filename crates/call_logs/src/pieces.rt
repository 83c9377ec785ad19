//! Octets between separators.

ghost use Rattle.call_logs.specs.Logs.{pieces};
ghost use Rattle.std.specs.Prelude.{◌≡◌, ◌<◌, ◌∷◌, [], IfSome, MatchOption, length};

/// Returns what comes before the first separator, and what comes after it; None without a separator.
pub(crate) fn split_at_first(octets: &[u8], separator: u8) -> Option<(&[u8], &[u8])>
    ensures pieces { MatchOption result (pieces separator octets.now ≡ octets.now ∷ [])
        (λ parts. pieces separator octets.now ≡ parts.0.now ∷ pieces separator parts.1.now) }
    ensures shorter { IfSome result (λ parts. length parts.1.now < length octets.now) }
{
    for place in 0..octets.len() {
        if octets[place] == separator {
            return Some((&octets[..place], &octets[place + 1..]));
        }
    }
    None
}

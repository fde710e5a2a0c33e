//! Cuts bytes at the first byte with a value.

ghost use Rattle.std.specs.Prelude.{◌≡◌, ◌++◌, ◌∷◌, MatchOption};
ghost use Rattle.trace_text.specs.Cuts.{Lacks};

use memchr::memchr;

/// Returns what comes before the first byte with this value, and what comes after it; `None` where there is none.
pub fn split_at_byte(text: &[u8], byte: u8) -> Option<(&[u8], &[u8])>
    ensures { MatchOption result (Lacks byte text.now)
        (λ parts. (text.now ≡ parts.0.now ++ byte ∷ parts.1.now) × Lacks byte parts.0.now) }
{
    match memchr(byte, text) {
        Some(i) => Some((&text[..i], &text[i + 1..])),
        None => None,
    }
}

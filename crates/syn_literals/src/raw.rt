//! Raw strings.
ghost use Rattle.std.specs.Prelude.{◌≡◌, ℕ, List, ◌∷◌, MatchBool, option_map};
ghost use Rattle.tok_lexical.specs.Ascii.{lower_r, quote};
ghost use Rattle.syn_literals.specs.TextValues.{raw_value};

/// Returns the text between the quotes of a raw string without a suffix, or `None` for any other
/// literal.
pub(crate) fn raw_text(text: &str) -> Option<&str>
    ensures { option_map (λ r. r.now) result ≡ raw_value text.now }
{
    let at = text.find('"')?;
    let (front, quoted) = text.split_at(at);
    let (_, rest) = quoted.split_at(1);
    // The front has `r` before its marks, and the tail a quote.
    let end = rest.len().checked_sub(at)?;
    let (_, tail) = rest.as_bytes().split_at(end);
    if !closes(front.as_bytes(), tail) {
        return None;
    }
    let (value, _) = rest.split_at(end);
    Some(value)
}

// Returns `true` for `r` and a quote, with the same marks after both.
fn closes(front: &[u8], tail: &[u8]) -> bool
    ensures { MatchBool result
        ((marks : List ℕ) × (front.now ≡ lower_r ∷ marks) × (tail.now ≡ quote ∷ marks))
        ((marks : List ℕ) → front.now ≡ lower_r ∷ marks → tail.now ≡ quote ∷ marks → ⊥) }
{
    match (front.split_first(), tail.split_first()) {
        (Some((b'r', marks)), Some((b'"', same))) => *marks == *same,
        _ => false,
    }
}

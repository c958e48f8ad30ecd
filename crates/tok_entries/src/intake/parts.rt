//! Reads the fields of entries.
ghost use Rattle.std.specs.Prelude.{◌≡◌, ◌≤◌, ◌+◌, ◌<◌, ◌^◌, ◌∷◌, ◌++◌, List, ℕ, length, IfSome, MatchOption};
ghost use Rattle.std.specs.Str.{IsUtf8};
ghost use Rattle.tok_leaves.specs.Spans.{source};
ghost use Rattle.tok_entries.specs.Entries as spec;
ghost use Rattle.tok_entries.specs.declared.entry.Entry.{Entry};
ghost use Rattle.tok_lexical.specs.declared.delimiter.Delimiter.{Delimiter};

use crate::entry::Entry;
use tok_core::{Delimiter, Span};

// Splits texts that begin at byte `begin` before byte `end`.
pub fn text_up_to(begin: usize, end: usize, rest: &str) -> Option<(&str, &str)>
    requires { begin + length rest.now < 2 ^ 64 }
    ensures parts { MatchOption result
        ((text behind : List ℕ) → IsUtf8 text → rest.now ≡ text ++ behind
        → end ≡ begin + length text → ⊥)
        (λ p. (rest.now ≡ p.0.now ++ p.1.now) × (end ≡ begin + length p.0.now)) }
    ensures utf8 { IfSome result (λ p. IsUtf8 p.0.now × IsUtf8 p.1.now) }
{
    let Some(size) = end.checked_sub(begin) else {
        return None;
    };
    match rest.split_at_checked(size) {
        Some((text, behind)) => Some((text, behind)),
        None => None,
    }
}

// Returns the span from byte `start` to byte `end` of source 0.
pub fn source_span(start: usize, end: usize) -> Option<Span>
    ensures { MatchOption result (end < start)
        (λ span. (span ≡ source 0 start end) × (start ≤ end)) }
{
    if start <= end {
        Some(Span::source(0, start, end))
    } else {
        None
    }
}

// Returns the delimiter of this number.
pub fn delimiter_of(number: u16) -> Option<Delimiter>
    ensures { MatchOption result ((d : Delimiter) → spec.delimiter_code d ≡ number → ⊥)
        (λ d. spec.delimiter_code d ≡ number) }
{
    match number {
        0 => Some(Delimiter::Parenthesis),
        1 => Some(Delimiter::Brace),
        2 => Some(Delimiter::Bracket),
        3 => Some(Delimiter::None),
        _ => None,
    }
}

// Splits what follows an opening into the entries inside the group, its closing, and the rest.
pub fn cut(after: &[Entry], distance: usize) -> Option<(&[Entry], &Entry, &[Entry])>
    ensures { MatchOption result
        ((inside later : List Entry) (closing : Entry) → after.now ≡ inside ++ closing ∷ later
        → distance ≡ length inside + 1 → ⊥)
        (λ p. (after.now ≡ p.0.now ++ p.1.now ∷ p.2.now) × (distance ≡ length p.0.now + 1)) }
{
    let size = distance.checked_sub(1)?;
    let (inside, from) = after.split_at_checked(size)?;
    let (closing, later) = from.split_first()?;
    Some((inside, closing, later))
}

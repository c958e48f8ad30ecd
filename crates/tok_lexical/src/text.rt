//! Functions that read a text from its start.
ghost use Rattle.std.specs.Prelude.{◌≡◌, ℕ, ◌<◌, ◌≤◌, ◌+◌, ◌++◌, ◌∷◌, [], length, List, MatchOption, IfSome, encode_utf8, encode_utf8_all};
ghost use Rattle.std.specs.Str.{chars, IsUtf8};
ghost use Rattle.tok_lexical.specs.Private.Fronts.{begins_beyond_ascii, begins_passing};
ghost use Rattle.tok_lexical.specs.Scans.{IsAsciiTest};
ghost use Rattle.tok_lexical.specs.Pieces.{after_first, Skips, begins_with, is_neither, up_to};

use crate::scan::{ByteTest, Others, front_run, run_from};

/// Returns the first character of `text` and the rest of `text`, or `None` if `text` is empty.
pub fn next_char(text: &str) -> Option<(char, &str)>
    ensures chars { MatchOption result (chars text.now ≡ [])
        (λ r. chars text.now ≡ r.0 ∷ chars r.1.now) }
    ensures bytes { IfSome result (λ r. text.now ≡ encode_utf8 r.0 ++ r.1.now) }
    ensures utf8 { IfSome result (λ r. IsUtf8 r.1.now) }
    ensures shorter { IfSome result (λ r. length r.1.now < length text.now) }
{
    let mut rest = text.chars();
    let first = rest.next()?;
    Some((first, rest.as_str()))
}

/// Returns `text` without the leading characters `first` and `second`.
///
/// Returns `None` if `text` does not begin with these two characters.
pub fn past_pair(text: &str, first: char, second: char) -> Option<&str>
    ensures chars { MatchOption result
        ((more : List ℕ) → chars text.now ≡ first ∷ second ∷ more → ⊥)
        (λ rest. chars text.now ≡ first ∷ second ∷ chars rest.now) }
    ensures utf8 { IfSome result (λ rest. IsUtf8 rest.now) }
    ensures shorter { IfSome result (λ rest. length rest.now + 1 < length text.now) }
{
    let (one, after) = next_char(text)?;
    let (two, rest) = next_char(after)?;
    if one == first && two == second {
        Some(rest)
    } else {
        None
    }
}

/// Returns `text` without the leading character `ch`, or `None` if `text` does not begin with `ch`.
///
/// # Requires
///
/// `ch` must be ASCII.
#[inline]
pub fn past_char(text: &str, ch: char) -> Option<&str>
    requires ascii { ch < 128 }
    ensures chars { MatchOption result ((more : List ℕ) → chars text.now ≡ ch ∷ more → ⊥)
        (λ rest. chars text.now ≡ ch ∷ chars rest.now) }
    ensures utf8 { IfSome result (λ rest. IsUtf8 rest.now) }
    ensures shorter { IfSome result (λ rest. length rest.now < length text.now) }
{
    let first = text.as_bytes().first()?;
    if *first == ch as u8 {
        let (_, rest) = text.split_at(1);
        Some(rest)
    } else {
        None
    }
}

/// Returns the first character of `text` and the rest of `text`.
///
/// Returns `None` if `text` does not begin with an ASCII character.
#[inline(always)]
pub(crate) fn next_ascii(text: &str) -> Option<(char, &str)>
    ensures chars { MatchOption result
        ((c : ℕ) → (more : List ℕ) → c < 128 → chars text.now ≡ c ∷ more → ⊥)
        (λ r. chars text.now ≡ r.0 ∷ chars r.1.now) }
    ensures ascii { IfSome result (λ r. r.0 < 128) }
    ensures utf8 { IfSome result (λ r. IsUtf8 r.1.now) }
    ensures shorter { IfSome result (λ r. length r.1.now < length text.now) }
{
    let first = text.as_bytes().first()?;
    if first.is_ascii() {
        let (_, rest) = text.split_at(1);
        Some((*first as char, rest))
    } else {
        None
    }
}

/// Returns `true` if `text` begins with the character `ch`.
///
/// # Requires
///
/// `ch` must be ASCII.
#[inline]
pub fn begins_with(text: &str, ch: char) -> bool
    requires ascii { ch < 128 }
    ensures { result ≡ begins_with ch (chars text.now) }
{
    past_char(text, ch).is_some()
}

/// Returns `text` without its suffix `rest`.
///
/// # Requires
///
/// `text` must end with `rest`.
pub fn front_of<'a>(text: &'a str, rest: &str) -> &'a str
    requires { (front : List ℕ) × (chars text.now ≡ front ++ chars rest.now) }
    ensures chars { chars text.now ≡ chars result.now ++ chars rest.now }
    ensures len { length result.now + length rest.now ≡ length text.now }
    ensures is { (front : List ℕ) → chars text.now ≡ front ++ chars rest.now
        → chars result.now ≡ front }
    ensures bytes { (front : List ℕ) → chars text.now ≡ front ++ chars rest.now
        → result.now ≡ encode_utf8_all front }
{
    let (front, _) = text.split_at(text.len() - rest.len());
    front
}

/// Returns the first character of `text`.
///
/// # Requires
///
/// `text` must not be empty.
pub fn first_of(text: &str) -> char
    requires { (c : ℕ) × (more : List ℕ) × (chars text.now ≡ c ∷ more) }
    ensures { (c : ℕ) → (more : List ℕ) → chars text.now ≡ c ∷ more → result ≡ c }
{
    match next_char(text) {
        Some((first, _)) => first,
        None => unreachable!(),
    }
}

/// Returns `text` without its first character, or an empty text if `text` is empty.
pub fn past_first(text: &str) -> &str
    ensures { chars result.now ≡ after_first (chars text.now) }
{
    match next_char(text) {
        Some((_, rest)) => rest,
        None => text,
    }
}

/// Returns `true` if `text` begins with a character that is not ASCII.
#[inline(always)]
pub(crate) fn begins_beyond_ascii(text: &str) -> bool
    ensures { result ≡ begins_beyond_ascii (chars text.now) }
{
    match text.as_bytes().first() {
        Some(byte) => *byte >= 0x80,
        None => false,
    }
}

/// Returns `true` if the first byte of `text` passes the test.
///
/// # Requires
///
/// Either all bytes that are not ASCII must pass the test, or none of them.
#[inline(always)]
pub(crate) fn begins_run<S: ByteTest>(text: &str, test: &S) -> bool
    requires ascii { IsAsciiTest (S.passes test.now) }
    ensures { result ≡ begins_passing (S.passes test.now) (chars text.now) }
{
    match text.as_bytes().first() {
        Some(byte) => test.holds(*byte),
        None => false,
    }
}

/// Splits `text` after its longest prefix in which each byte passes the test.
///
/// Returns the prefix and the rest of `text`.
///
/// # Requires
///
/// Either all bytes that are not ASCII must pass the test, or none of them.
// Wholly inlined, for texts of a few bytes: a call takes as long as five of them. In the lexer it
// would grow `first_rule` so that the compiler inlines that no more. Many runs are empty, and no
// bytes are loaded for those.
#[inline(always)]
pub fn split_run<'a, S: ByteTest>(text: &'a str, test: &S) -> (&'a str, &'a str)
    requires ascii { IsAsciiTest (S.passes test.now) }
    ensures skips { Skips (S.passes test.now) (chars text.now) (chars result.0.now)
        (chars result.1.now) }
    ensures bytes { text.now ≡ result.0.now ++ result.1.now }
    ensures utf8 { IsUtf8 result.0.now × IsUtf8 result.1.now }
{
    if !begins_run(text, test) {
        return ("", text);
    }
    text.split_at(run_from(test, text.as_bytes(), 0))
}

/// Returns the rest of `text` after its longest prefix in which each byte passes the test.
///
/// # Requires
///
/// Either all bytes that are not ASCII must pass the test, or none of them.
// Inlined up to the first load, for the lexer.
#[inline(always)]
pub(crate) fn past_run<'a, S: ByteTest>(text: &'a str, test: &S) -> &'a str
    requires ascii { IsAsciiTest (S.passes test.now) }
    ensures skips { (front : List ℕ)
        × Skips (S.passes test.now) (chars text.now) front (chars result.now) }
    ensures shorter { length result.now ≤ length text.now }
{
    let (_, rest) = text.split_at(front_run(test, text.as_bytes()));
    rest
}

/// Returns the same as `past_run`, and tests the first byte before it loads 16.
///
/// # Requires
///
/// Either all bytes that are not ASCII must pass the test, or none of them.
// For runs that are mostly empty.
#[inline(always)]
pub(crate) fn past_rare_run<'a, S: ByteTest>(text: &'a str, test: &S) -> &'a str
    requires ascii { IsAsciiTest (S.passes test.now) }
    ensures skips { (front : List ℕ)
        × Skips (S.passes test.now) (chars text.now) front (chars result.now) }
    ensures shorter { length result.now ≤ length text.now }
{
    if begins_run(text, test) {
        past_run(text, test)
    } else {
        text
    }
}

/// Returns the part of `text` that begins at the first `one` or `other`.
///
/// Returns an empty text if `text` contains neither of them.
///
/// # Requires
///
/// `one` and `other` must be ASCII.
#[inline(always)]
pub fn past_others(text: &str, one: u8, other: u8) -> &str
    requires one { one < 128 }
    requires other { other < 128 }
    ensures skips { (front : List ℕ)
        × Skips (is_neither one other) (chars text.now) front (chars result.now) }
    ensures shorter { length result.now ≤ length text.now }
{
    past_run(text, &Others { one, other })
}

/// Returns the part of `text` before the first `stop`, or all of `text` if it does not contain
/// `stop`.
///
/// # Requires
///
/// `stop` must be ASCII.
pub fn up_to(text: &str, stop: u8) -> &str
    requires ascii { stop < 128 }
    ensures { chars result.now ≡ up_to stop (chars text.now) }
{
    front_of(text, past_others(text, stop, stop))
}

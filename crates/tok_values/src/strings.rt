//! Finds the values of strings and characters.
ghost use Rattle.std.specs.Prelude.{◌≡◌, ◌<◌, ◌≤◌, ◌+◌, ◌*◌, ◌++◌, ℕ, List, None, Some, IfOk, IfSome, MatchOption, OnOk, [], length, true, false, encode_utf8_all, string_bytes};
ghost use Rattle.std.specs.Str.{chars, IsUtf8};
ghost use Rattle.tok_lexical.specs.Pieces.{Skips};
ghost use Rattle.tok_values.specs.Private.Plain.{is_plain};
ghost use Rattle.tok_values.specs.CStrings.{bytes_of, c_unit, names_byte};
ghost use Rattle.tok_values.specs.Strings.{Means, MeansBy, characters_of, one_char, unit, without_blanks, is_blank, ends_line, past_escape, FindsUnit};
ghost use Rattle.tok_values.specs.Escapes.{FindsCharacter};

use crate::escapes::escape;
use crate::plain::Plain;
use std::alloc::AllocError;
use tok_lexical::text::{begins_with, next_char, past_char, past_first, split_run};

fn is_blank(c: char) -> bool
    ensures { result ≡ is_blank c }
{
    matches!(c, ' ' | '\t' | '\n' | '\r')
}

fn past_blanks(text: &str) -> &str
    ensures chars { chars result.now ≡ without_blanks (chars text.now) }
    ensures shorter { length result.now ≤ length text.now }
{
    let mut rest = text;
    while let Some((c, after)) = next_char(rest) {
        if !is_blank(c) {
            break;
        }
        rest = after;
    }
    rest
}

fn ends_line(text: &str) -> bool
    ensures { result ≡ ends_line (chars text.now) }
{
    begins_with(text, '\n') || (begins_with(text, '\r') && begins_with(past_first(text), '\n'))
}

// Returns the character that a `\` and the text after it mean, if any, and the text after both.
#[inline(always)]
fn escaped(text: &str, wide: bool) -> Option<(Option<char>, &str)>
    ensures finds { FindsUnit (past_escape wide (chars text.now)) result }
    ensures utf8 { IfSome result (λ r. IsUtf8 r.1.now) }
    ensures shorter { IfSome result (λ r. length r.1.now ≤ length text.now) }
    ensures narrow { wide ≡ true → IfSome result (λ r. IfSome r.0 (λ c. c < 256)) }
{
    if ends_line(text) {
        return Some((None, past_blanks(text)));
    }
    let (c, rest) = escape(text, wide)?;
    Some((Some(c), rest))
}

// Returns the character that the front of a text in quotes means, if any, and the text after it.
// Inlined with the escape: a text of escapes calls it for each, and a call returns through memory.
#[inline(always)]
fn unit(text: &str, wide: bool) -> Option<(Option<char>, &str)>
    ensures finds { FindsUnit (unit wide (chars text.now)) result }
    ensures utf8 { IfSome result (λ r. IsUtf8 r.1.now) }
    ensures shorter { IfSome result (λ r. length r.1.now < length text.now) }
    ensures narrow { wide ≡ true → IfSome result (λ r. IfSome r.0 (λ c. c < 256)) }
{
    let (c, rest) = next_char(text)?;
    match c {
        '\\' => escaped(rest, wide),
        '"' => None,
        '\r' => Some((Some('\n'), past_char(rest, '\n')?)),
        _ => {
            if wide && c >= '\u{80}' {
                None
            } else {
                Some((Some(c), rest))
            }
        }
    }
}

// Returns how many bytes to reserve before `added` are appended and `left` more of the literal
// follow: up to a power of two, but no more than the value may take. `reserve` may then ask for
// more, since it at least doubles the room that it has.
fn room_for(added: usize, left: usize, len: usize, capacity: usize) -> usize
    ensures few { result ≤ added + left }
    ensures doubled { result ≤ len + 2 * added }
{
    let least = len.saturating_add(added);
    // Where a quote alone is left, the append itself asks for just what it takes.
    if left <= 1 || least <= capacity || least > 1 << 62 {
        return 0;
    }
    let most = least.saturating_add(left - 1);
    least.next_power_of_two().min(most).saturating_sub(len)
}

// Appends the characters at the front of a text that mean themselves, and returns what is left.
// Inlined: a text of escapes calls it after each, and a call returns through memory.
#[inline(always)]
fn push_plain<'a>(to: &mut String, text: &'a str) -> Result<&'a str, AllocError>
    ensures value { IfOk result (λ rest. (front : List ℕ)
        × Skips (is_plain false) (chars text.now) front (chars rest.now)
        × (string_bytes to.new ≡ string_bytes to.old ++ encode_utf8_all front)) }
    ensures utf8 { IfOk result (λ rest. IsUtf8 rest.now) }
    ensures shorter { IfOk result (λ rest. length rest.now ≤ length text.now) }
{
    let (front, rest) = split_run(text, &Plain { wide: false });
    if front.is_empty() {
        return Ok(rest);
    }
    to.reserve(room_for(front.len(), rest.len(), to.len(), to.capacity()))?;
    to.push_str(front)?;
    Ok(rest)
}

// Does the same as `push_plain` in bytes. A trait of strings and vectors that reserve and append
// would take more lines than both functions.
#[inline(always)]
fn push_plain_bytes<'a>(to: &mut Vec<u8>, text: &'a str) -> Result<&'a str, AllocError>
    ensures value { IfOk result (λ rest. (front : List ℕ)
        × Skips (is_plain true) (chars text.now) front (chars rest.now)
        × (to.new.items ≡ to.old.items ++ front)) }
    ensures utf8 { IfOk result (λ rest. IsUtf8 rest.now) }
    ensures shorter { IfOk result (λ rest. length rest.now ≤ length text.now) }
{
    let (front, rest) = split_run(text, &Plain { wide: true });
    if front.is_empty() {
        return Ok(rest);
    }
    to.reserve(room_for(front.len(), rest.len(), to.len(), to.capacity()))?;
    to.extend_from_slice(front.as_bytes())?;
    Ok(rest)
}

/// Appends the text that the leading characters and escapes of a string's contents stand for.
///
/// Returns the rest of `text`, which is empty or begins with a quote or an invalid part. Returns an
/// error if an allocation fails.
pub fn push_text<'a>(to: &mut String, text: &'a str) -> Result<&'a str, AllocError>
    ensures { IfOk result (λ rest. (characters : List ℕ)
        × Means false (chars text.now) (chars rest.now) characters
        × (string_bytes to.new ≡ string_bytes to.old ++ encode_utf8_all characters)
        × (unit false (chars rest.now) ≡ None)) }
{
    let mut rest = push_plain(to, text)?;
    while let Some((c, after)) = unit(rest, false) {
        if let Some(c) = c {
            to.push(c)?;
        }
        rest = push_plain(to, after)?;
    }
    Ok(rest)
}

/// Appends the bytes that the leading characters and escapes of a byte string's contents stand for.
///
/// Returns the rest of `text`, which is empty or begins with a quote or an invalid part. Returns an
/// error if an allocation fails.
pub fn push_bytes<'a>(to: &mut Vec<u8>, text: &'a str) -> Result<&'a str, AllocError>
    ensures { IfOk result (λ rest. (bytes : List ℕ)
        × Means true (chars text.now) (chars rest.now) bytes
        × (to.new.items ≡ to.old.items ++ bytes)
        × (unit true (chars rest.now) ≡ None)) }
{
    let mut rest = push_plain_bytes(to, text)?;
    while let Some((c, after)) = unit(rest, true) {
        if let Some(c) = c {
            to.push(c as u32 as u8)?;
        }
        rest = push_plain_bytes(to, after)?;
    }
    Ok(rest)
}

// Returns `true` for an escape by which a C string names a byte.
fn names_byte(text: &str) -> bool
    ensures { result ≡ names_byte (chars text.now) }
{
    begins_with(text, '\\') && begins_with(past_first(text), 'x')
}

// Appends the byte that an escape names, or a character in UTF-8.
fn push_meaning(to: &mut Vec<u8>, c: Option<char>, is_byte: bool) -> Result<(), AllocError>
    requires narrow { is_byte ≡ true → IfSome c (λ c. c < 256) }
    ensures { OnOk result
        (to.new.items ≡ to.old.items ++ bytes_of is_byte (characters_of c)) }
{
    let Some(c) = c else {
        return Ok(());
    };
    if is_byte {
        to.extend_from_slice(&[c as u32 as u8])
    } else {
        to.extend_from_slice(c.encode_utf8(&mut [0; 4]).as_bytes())
    }
}

// Appends the bytes that the front of a C string means, and returns the text after it. Appends
// nothing if the front is no unit.
fn push_c_unit<'a>(to: &mut Vec<u8>, text: &'a str) -> Result<Option<&'a str>, AllocError>
    ensures value { IfOk result (λ found. MatchOption found
        ((c_unit (chars text.now) ≡ None) × (to.new.items ≡ to.old.items))
        (λ rest. (bytes : List ℕ) × (c_unit (chars text.now) ≡ Some (bytes, chars rest.now))
        × (to.new.items ≡ to.old.items ++ bytes))) }
    ensures utf8 { IfOk result (λ found. IfSome found (λ rest. IsUtf8 rest.now)) }
    ensures shorter { IfOk result (λ found. IfSome found
        (λ rest. length rest.now < length text.now)) }
{
    let is_byte = names_byte(text);
    let Some((c, rest)) = unit(text, is_byte) else {
        return Ok(None);
    };
    push_meaning(to, c, is_byte)?;
    Ok(Some(rest))
}

/// Appends the bytes that the leading characters and escapes of a C string's contents stand for.
///
/// Returns the rest of `text`, which is empty or begins with a quote or an invalid part. Returns an
/// error if an allocation fails.
pub fn push_c_bytes<'a>(to: &mut Vec<u8>, text: &'a str) -> Result<&'a str, AllocError>
    ensures { IfOk result (λ rest. (bytes : List ℕ)
        × MeansBy c_unit (chars text.now) (chars rest.now) bytes
        × (to.new.items ≡ to.old.items ++ bytes)
        × (c_unit (chars rest.now) ≡ None)) }
{
    let mut rest = text;
    while let Some(after) = push_c_unit(to, rest)? {
        rest = after;
    }
    Ok(rest)
}

/// Returns the character that the first character or escape of `text` stands for, and the rest of
/// `text`.
///
/// If `wide` is `true`, the rules of byte literals apply. Returns `None` if `text` begins with
/// neither a valid character nor an escape.
pub fn one_char(text: &str, wide: bool) -> Option<(char, &str)>
    ensures finds { FindsCharacter (one_char wide (chars text.now)) result }
    ensures utf8 { IfSome result (λ r. IsUtf8 r.1.now) }
    ensures narrow { wide ≡ true → IfSome result (λ r. r.0 < 256) }
{
    let (c, rest) = next_char(text)?;
    match c {
        '\\' => escape(rest, wide),
        '\'' | '\t' | '\n' | '\r' => None,
        _ => {
            if wide && c >= '\u{80}' {
                None
            } else {
                Some((c, rest))
            }
        }
    }
}

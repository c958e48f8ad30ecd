//! Finds the reason why a quoted literal is malformed, and the byte of the fault.
ghost use Rattle.std.specs.Prelude.{◌≡◌, ◌==◌, ◌≤◌, ◌++◌, IfSome, List, MatchOption, Some, length, ℕ};
ghost use Rattle.std.specs.Str.{chars, IsUtf8};
ghost use Rattle.tok_lexical.specs.Ascii.{number_sign};
ghost use Rattle.tok_lexical.specs.Pieces.{IsAll};
ghost use Rattle.tok_lexical.specs.Private.Finds.{ReadsPrefix};
ghost use Rattle.tok_lexical.specs.QuotedFaults.{IsCharFault, IsQuotedFault, IsRawFault, IsStringFault, OpensRaw, StopsAt, char_fault, code_fault, escape_at, hex_fault, no_char_fault, quoted_fault_words, raw_letters, unless_closed};
ghost use Rattle.tok_lexical.specs.Strings.{IsByte, IsChar};
ghost use Rattle.tok_lexical.specs.Widths.{bytes};
ghost use Rattle.tok_lexical.specs.declared.contents.Contents.TheVariants.{Text, Bytes};

use crate::char_literals::{past_byte, past_escaped, past_plain};
use crate::contents::Contents;
use crate::prefixes::past_number_signs;
use crate::raw::{MOST_SIGNS, past_raw_body};
use crate::strings::past_units;
use crate::text::{begins_with, front_of, next_char, past_char, past_pair};
use std::fmt::{self, Display, Formatter, Write};

/// The reason why a string, character or byte literal is malformed.
#[derive(Clone, Copy, PartialEq, Eq, Debug)]
pub enum QuotedFault {
    /// The text ends before the closing quote, or after an opening apostrophe or a backslash.
    Unclosed,
    /// The text ends before a closing quote with as many `#` as the opening quote.
    UnclosedRaw,
    /// The opening quote of a raw string has more than 255 `#`.
    TooManyHashes,
    /// The closing apostrophe after the character is missing.
    UnclosedChar,
    /// There is neither a character nor an escape between the apostrophes.
    NoChar,
    /// There is neither an ASCII character nor an escape between the apostrophes.
    NoByte,
    /// The character after the backslash does not begin an escape.
    UnknownEscape,
    /// The escape `\x` does not have two hexadecimal digits, or their value is above 7F.
    AsciiEscape,
    /// The escape `\x` does not have two hexadecimal digits.
    ByteEscape,
    /// The escape `\u` does not name a character.
    UnicodeEscape,
}

impl QuotedFault {
    /// Returns a message that describes the fault, such as `unknown escape`.
    pub fn words(self) -> &'static str
        ensures { result.now ≡ quoted_fault_words self }
    {
        match self {
            QuotedFault::Unclosed => "the closing quote is missing",
            QuotedFault::UnclosedRaw => {
                "the closing quote is missing, with as many `#` as the opening one has"
            }
            QuotedFault::TooManyHashes => "a raw string has at most 255 `#` before its quote",
            QuotedFault::UnclosedChar => "expected `'` after one character",
            QuotedFault::NoChar => "expected one character or an escape",
            QuotedFault::NoByte => "expected one ASCII character or an escape",
            QuotedFault::UnknownEscape => "unknown escape",
            QuotedFault::AsciiEscape => "expected `\\x` and two hexadecimal digits, at most `7F`",
            QuotedFault::ByteEscape => "expected `\\x` and two hexadecimal digits",
            QuotedFault::UnicodeEscape => {
                "expected `\\u{..}` with the hexadecimal number of a character"
            }
        }
    }
}

impl Display for QuotedFault {
    ghost output = { λ fault. Some (quoted_fault_words fault) };

    fn fmt<W: Write>(&self, f: &mut Formatter<W>) -> fmt::Result {
        f.write_str(self.words())
    }
}

// Returns what is wrong with an escape of such a literal, and where. `rest` begins after its
// backslash, which is at byte `at`.
fn escape_at(contents: Contents, at: usize, rest: &str) -> (QuotedFault, usize)
    ensures { result ≡ escape_at contents at (chars rest.now) }
{
    match next_char(rest) {
        None => (QuotedFault::Unclosed, 0),
        Some(('x', _)) => (hex_fault(contents), at),
        Some(('u', _)) => (code_fault(contents), at),
        Some(_) => (QuotedFault::UnknownEscape, at),
    }
}

// Returns the fault of an `\x` that is no escape.
fn hex_fault(contents: Contents) -> QuotedFault
    ensures { result ≡ hex_fault contents }
{
    match contents {
        Contents::Text => QuotedFault::AsciiEscape,
        Contents::Bytes | Contents::C => QuotedFault::ByteEscape,
    }
}

// Returns the fault of a `\u` that is no escape. Bytes have no such escape.
fn code_fault(contents: Contents) -> QuotedFault
    ensures { result ≡ code_fault contents }
{
    match contents {
        Contents::Bytes => QuotedFault::UnknownEscape,
        Contents::Text | Contents::C => QuotedFault::UnicodeEscape,
    }
}

// Returns the text from where neither a character nor an escape of a string begins.
fn past_inside(text: &str, contents: Contents) -> &str
    ensures stops { (front : List ℕ) × StopsAt contents (chars text.now) front (chars result.now) }
    ensures utf8 { IsUtf8 result.now }
{
    let mut rest = text;
    while let Some(after) = past_units(rest, contents) {
        rest = after;
    }
    rest
}

// Returns how many bytes of the literal come before its end `rest`.
fn bytes_before(literal: &str, rest: &str) -> usize
    requires { (front : List ℕ) × (chars literal.now ≡ front ++ chars rest.now) }
    ensures within { result ≤ length literal.now }
    ensures is { (front : List ℕ) → chars literal.now ≡ front ++ chars rest.now
        → result ≡ bytes front }
{
    front_of(literal, rest).len()
}

// Returns what is wrong with a string. `text` begins after its opening quote.
fn string_fault(literal: &str, text: &str, contents: Contents) -> Option<(QuotedFault, usize)>
    requires { (before : List ℕ) × (chars literal.now ≡ before ++ chars text.now) }
    ensures within { IfSome result (λ found. found.1 ≤ length literal.now) }
    ensures is { (before : List ℕ) → chars literal.now ≡ before ++ chars text.now
        → IsStringFault contents before (chars text.now) result }
{
    let rest = past_inside(text, contents);
    match next_char(rest) {
        None => Some((QuotedFault::Unclosed, 0)),
        Some(('\\', after)) => Some(escape_at(contents, bytes_before(literal, rest), after)),
        Some(_) => None,
    }
}

// Returns what is wrong if there is neither a character nor an escape.
fn no_char_fault(contents: Contents, at: usize, text: &str) -> (QuotedFault, usize)
    ensures { result ≡ no_char_fault contents at (chars text.now) }
{
    match next_char(text) {
        None => (QuotedFault::Unclosed, 0),
        Some(('\\', after)) => escape_at(contents, at, after),
        Some(_) => (char_fault(contents), at),
    }
}

// Returns what such a literal must have between its apostrophes.
fn char_fault(contents: Contents) -> QuotedFault
    ensures { result ≡ char_fault contents }
{
    match contents {
        Contents::Text => QuotedFault::NoChar,
        Contents::Bytes | Contents::C => QuotedFault::NoByte,
    }
}

// Returns what is wrong after the one character, which ends at byte `at`.
fn unless_closed(at: usize, rest: &str) -> Option<(QuotedFault, usize)>
    ensures { result ≡ unless_closed at (chars rest.now) }
{
    if begins_with(rest, '\'') {
        None
    } else {
        Some((QuotedFault::UnclosedChar, at))
    }
}

// Returns the text after a character, or an escape of one.
fn past_inner(text: &str) -> Option<&str>
    ensures finds { ReadsPrefix IsChar (chars text.now) result }
    ensures utf8 { IfSome result (λ rest. IsUtf8 rest.now) }
{
    match past_escaped(text) {
        Some(rest) => Some(rest),
        None => past_plain(text),
    }
}

// Returns what is wrong with a character. `text` begins after its opening apostrophe.
fn character_fault(literal: &str, text: &str) -> Option<(QuotedFault, usize)>
    requires { (before : List ℕ) × (chars literal.now ≡ before ++ chars text.now) }
    ensures within { IfSome result (λ found. found.1 ≤ length literal.now) }
    ensures is { (before : List ℕ) → chars literal.now ≡ before ++ chars text.now
        → IsCharFault IsChar Text before (chars text.now) result }
{
    match past_inner(text) {
        Some(rest) => unless_closed(bytes_before(literal, rest), rest),
        None => Some(no_char_fault(Contents::Text, bytes_before(literal, text), text)),
    }
}

// Returns what is wrong with a byte character. `text` begins after its opening apostrophe.
fn byte_fault(literal: &str, text: &str) -> Option<(QuotedFault, usize)>
    requires { (before : List ℕ) × (chars literal.now ≡ before ++ chars text.now) }
    ensures within { IfSome result (λ found. found.1 ≤ length literal.now) }
    ensures is { (before : List ℕ) → chars literal.now ≡ before ++ chars text.now
        → IsCharFault IsByte Bytes before (chars text.now) result }
{
    match past_byte(text) {
        Some(rest) => unless_closed(bytes_before(literal, rest), rest),
        None => Some(no_char_fault(Contents::Bytes, bytes_before(literal, text), text)),
    }
}

// Returns the text after the letters of a raw string.
fn past_raw_letters(text: &str) -> Option<&str>
    ensures letters { MatchOption result
        ((contents : Contents) (rest : List ℕ) → chars text.now ≡ raw_letters contents ++ rest → ⊥)
        (λ rest. (contents : Contents)
        × (chars text.now ≡ raw_letters contents ++ chars rest.now)) }
    ensures utf8 { IfSome result (λ rest. IsUtf8 rest.now) }
{
    if let Some(rest) = past_char(text, 'r') {
        return Some(rest);
    }
    if let Some(rest) = past_pair(text, 'b', 'r') {
        return Some(rest);
    }
    past_pair(text, 'c', 'r')
}

// Returns the `#` of a raw string, and the text after its opening quote.
fn past_raw_opening(text: &str) -> Option<(&str, &str)>
    ensures opens { MatchOption result
        ((contents : Contents) (hashes rest : List ℕ)
        → OpensRaw contents (chars text.now) hashes rest → ⊥)
        (λ r. (contents : Contents)
        × OpensRaw contents (chars text.now) (chars r.0.now) (chars r.1.now)) }
    ensures utf8 { IfSome result (λ r. IsUtf8 r.0.now × IsUtf8 r.1.now) }
{
    let signs = past_raw_letters(text)?;
    let quote = past_number_signs(signs);
    let rest = past_char(quote, '"')?;
    Some((front_of(signs, quote), rest))
}

// Returns what is wrong with a raw string. `text` begins after its opening quote.
fn raw_fault(hashes: &str, text: &str) -> Option<(QuotedFault, usize)>
    requires { IsAll (λ c. c == number_sign) (chars hashes.now) }
    ensures within { IfSome result (λ found. found.1 ≡ 0) }
    ensures is { IsRawFault (chars hashes.now) (chars text.now) result }
{
    if hashes.len() > MOST_SIGNS {
        return Some((QuotedFault::TooManyHashes, 0));
    }
    match past_raw_body(text, hashes) {
        Some(_) => None,
        None => Some((QuotedFault::UnclosedRaw, 0)),
    }
}

/// Returns the reason why the quoted literal at the start of `text` is malformed, and the byte of
/// the fault.
///
/// The literal is a string, a raw string, a character literal or a byte literal. Returns `None` if
/// the literal has no fault, or if `text` does not begin with such a literal. A character that a
/// source rejects, such as `é` in a byte string, is not a fault.
///
/// The byte depends on the fault:
///
/// - For a raw string, the byte is 0.
/// - For the fault `Unclosed`, the byte is 0: the text ends in the string, or ends directly after an
///   opening apostrophe or a backslash.
/// - For an invalid escape, the byte is the position of the backslash.
/// - For the fault `UnclosedChar`, the byte is the position directly after the character.
/// - For the faults `NoChar` and `NoByte`, the byte is the position of the missing or invalid
///   character.
///
/// # Examples
///
/// ```rust
/// let fault = quoted_fault("\"a\\q\"");
/// assert_eq!(rt; fault, Some((QuotedFault::UnknownEscape, 2)));
/// ```
pub fn quoted_fault(text: &str) -> Option<(QuotedFault, usize)>
    ensures within { IfSome result (λ found. found.1 ≤ length text.now) }
    ensures is { IsQuotedFault (chars text.now) result }
{
    if let Some(rest) = past_char(text, '"') {
        return string_fault(text, rest, Contents::Text);
    }
    if let Some(rest) = past_pair(text, 'b', '"') {
        return string_fault(text, rest, Contents::Bytes);
    }
    if let Some(rest) = past_pair(text, 'c', '"') {
        return string_fault(text, rest, Contents::C);
    }
    if let Some(rest) = past_char(text, '\'') {
        return character_fault(text, rest);
    }
    if let Some(rest) = past_pair(text, 'b', '\'') {
        return byte_fault(text, rest);
    }
    let (hashes, rest) = past_raw_opening(text)?;
    raw_fault(hashes, rest)
}

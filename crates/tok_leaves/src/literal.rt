//! Literals.
ghost use Rattle.std.specs.Prelude.{◌≡◌, ◌<◌, ◌≤◌, ◌^◌, ℕ, List, ◌++◌, [], ◌∷◌, length, codes, encode_utf8_all, string_bytes, IfOk, IfErr, SomeIff, OnOk, None, Ok, Some, Err, MatchOption};
ghost use Rattle.std.specs.Str.{chars, IsUtf8};
ghost use Rattle.std.specs.CStr.{c_str_bytes};
ghost use Rattle.std.specs.Fmt.{decimal};
ghost use Rattle.tok_leaves.specs.IntegerTypes.{integer_type_max, integer_type_name};
ghost use Rattle.tok_leaves.specs.Leaves.{literal, literal_of, leaf_span, leaf_text, most_short};
ghost use Rattle.tok_leaves.specs.Literals.{IsOneLiteral, literal_fault};
ghost use Rattle.tok_leaves.specs.Quoting.{escaped, in_quotes, in_apostrophes, is_unseen, shown, shown_in_quotes, escaped_byte, bytes_between};
ghost use Rattle.tok_leaves.specs.Private.Plain.{is_plain, is_unescaped};
ghost use Rattle.tok_leaves.specs.Spans.{call_site};
ghost use Rattle.tok_lexical.specs.Pieces.{Skips};

use crate::integer_type::IntegerType;
use crate::literal_fault::{LiteralFault, is_literal, literal_fault};
use crate::span::Span;
use crate::text::Text;
use std::alloc::{AllocError, Global};
use std::ffi::CStr;
use std::fmt::{self, Display, Formatter, Write};
use std::simd::prelude::*;
use tok_lexical::scan::{ByteTest, count_failing};
use tok_lexical::text::{next_char, split_run};

/// A literal with its text and its span. The text includes the literal's quotes, prefix and suffix.
///
/// # Examples
///
/// ```rust
/// let literal = Literal::string(alloc, "a \"b\"")?;
/// assert_eq!(rt; literal.as_str(), "\"a \\\"b\\\"\"");
/// ```
#[derive(Drop, Debug)]
pub struct Literal {
    text: Text,
    span: Span,
}

// The bytes that a literal holds as they are, or with a code.
#[derive(Drop)]
struct Unescaped;

impl ByteTest for Unescaped {
    ghost passes = { λ _. is_unescaped };

    #[inline(always)]
    fn holds(&self, byte: u8) -> bool {
        !matches!(byte, b'"' | b'\\' | b'\n' | b'\r' | b'\t' | 0)
    }

    #[inline(always)]
    fn fails(&self, bytes: u8x16) -> u64 {
        let escaped = bytes.simd_eq(u8x16::splat(b'"'))
            | bytes.simd_eq(u8x16::splat(b'\\'))
            | bytes.simd_eq(u8x16::splat(b'\n'))
            | bytes.simd_eq(u8x16::splat(b'\r'))
            | bytes.simd_eq(u8x16::splat(b'\t'))
            | bytes.simd_eq(u8x16::splat(0));
        escaped.to_bitmask()
    }
}

// Returns the length of the text in quotes, if it is less than 2^64.
fn quoted_len(text: &str) -> usize
    ensures { length (in_quotes (chars text.now)) < 2 ^ 64
        → result ≡ length (in_quotes (chars text.now)) }
{
    // An escape takes one byte more than what it stands for.
    text.len()
        .saturating_add(count_failing(&Unescaped, text.as_bytes()))
        .saturating_add(2)
}

// The bytes of the characters that show and are no quote or backslash.
#[derive(Drop)]
struct Plain;

impl ByteTest for Plain {
    ghost passes = { λ _. is_plain };

    #[inline(always)]
    fn holds(&self, byte: u8) -> bool {
        !(byte < b' ' || byte > b'~' || byte == b'"' || byte == b'\\')
    }

    #[inline(always)]
    fn fails(&self, bytes: u8x16) -> u64 {
        let loose = bytes.simd_lt(u8x16::splat(b' '))
            | bytes.simd_gt(u8x16::splat(b'~'))
            | bytes.simd_eq(u8x16::splat(b'"'))
            | bytes.simd_eq(u8x16::splat(b'\\'));
        loose.to_bitmask()
    }
}

// Appends the characters of a text before the first that isn't plain, and returns what is left.
// Inlined: a text that isn't ASCII calls it for each character, and a call returns through memory.
#[inline(always)]
fn push_plain<'a>(to: &mut String, text: &'a str) -> Result<&'a str, AllocError>
    ensures value { IfOk result (λ rest. (front : List ℕ)
        × Skips is_plain (chars text.now) front (chars rest.now)
        × (string_bytes to.new ≡ string_bytes to.old ++ encode_utf8_all front)) }
    ensures utf8 { IfOk result (λ rest. IsUtf8 rest.now) }
    ensures shorter { IfOk result (λ rest. length rest.now ≤ length text.now) }
{
    // In a text that isn't ASCII, most runs are empty.
    let (front, rest) = split_run(text, &Plain);
    if front.is_empty() {
        return Ok(rest);
    }
    to.push_str(front)?;
    Ok(rest)
}

fn push_escaped(to: &mut String, c: char) -> Result<(), AllocError>
    ensures { OnOk result (string_bytes to.new ≡ string_bytes to.old ++ escaped c) }
{
    match c {
        '"' => to.push_str("\\\""),
        '\\' => to.push_str("\\\\"),
        '\n' => to.push_str("\\n"),
        '\r' => to.push_str("\\r"),
        '\t' => to.push_str("\\t"),
        '\0' => to.push_str("\\0"),
        _ => to.push(c),
    }
}

// Returns `true` for a character that shows nothing by itself.
fn is_unseen(c: char) -> bool
    ensures { result ≡ is_unseen c }
{
    matches!(
        c,
        '\u{1}'..='\u{8}'
            | '\u{B}'..='\u{C}'
            | '\u{E}'..='\u{1F}'
            | '\u{7F}'..='\u{A0}'
            | '\u{AD}'
            | '\u{300}'..='\u{36F}'
            | '\u{61C}'
            | '\u{1680}'
            | '\u{17B4}'..='\u{17B5}'
            | '\u{180B}'..='\u{180F}'
            | '\u{1AB0}'..='\u{1AFF}'
            | '\u{1DC0}'..='\u{1DFF}'
            | '\u{2000}'..='\u{200F}'
            | '\u{2028}'..='\u{202F}'
            | '\u{205F}'..='\u{206F}'
            | '\u{20D0}'..='\u{20FF}'
            | '\u{3000}'
            | '\u{E000}'..='\u{F8FF}'
            | '\u{FE00}'..='\u{FE0F}'
            | '\u{FE20}'..='\u{FE2F}'
            | '\u{FEFF}'
            | '\u{FFF0}'..='\u{FFFB}'
            | '\u{1BCA0}'..='\u{1BCA3}'
            | '\u{1D173}'..='\u{1D17A}'
            | '\u{E0000}'..='\u{10FFFF}'
    )
}

fn push_shown(to: &mut String, c: char) -> Result<(), AllocError>
    ensures { OnOk result (string_bytes to.new ≡ string_bytes to.old ++ shown c) }
{
    if is_unseen(c) {
        for part in c.escape_unicode() {
            to.push(part)?;
        }
        Ok(())
    } else {
        push_escaped(to, c)
    }
}

fn push_escaped_byte(to: &mut String, byte: u8) -> Result<(), AllocError>
    ensures { OnOk result (string_bytes to.new ≡ string_bytes to.old ++ escaped_byte byte) }
{
    for c in byte.escape_ascii() {
        to.push(c as char)?;
    }
    Ok(())
}

// Makes a literal at the call site: an opening, the bytes with their escapes, a closing.
fn bytes_between(
    alloc: Global,
    opening: &str,
    bytes: &[u8],
    closing: &str,
) -> Result<Literal, AllocError>
    ensures { IfOk result (λ l. literal_of l
        ≡ literal (bytes_between opening.now bytes.now closing.now) call_site) }
{
    let mut out = String::new(alloc);
    out.push_str(opening)?;
    for byte in bytes {
        push_escaped_byte(&mut out, *byte)?;
    }
    out.push_str(closing)?;
    let text = Text::from_string(alloc, out)?;
    Ok(Literal::unchecked(text, Span::call_site()))
}

impl Literal {
    /// Creates a literal from its text.
    ///
    /// `text` must be exactly one literal of the latest edition, without white space or comments
    /// around it. Returns `Sign` if `text` begins with `-` or `+`, and `NotLiteral` for any other
    /// invalid text. Returns `Memory` if the allocation fails.
    ///
    /// # Examples
    ///
    /// ```rust
    /// let number = Literal::new(alloc, "5i32", Span::call_site())?;
    /// assert_eq!(rt; number.as_str(), "5i32");
    /// let fault = Literal::new(alloc, "-5", Span::call_site()).err();
    /// assert_eq!(rt; fault, Some(LiteralFault::Sign));
    /// ```
    pub fn new(alloc: Global, text: &str, span: Span) -> Result<Literal, LiteralFault>
        ensures made { IfOk result (λ l. literal_of l ≡ literal text.now span) }
        ensures one { IfOk result (λ _. IsOneLiteral (chars text.now)) }
        ensures takes { IsOneLiteral (chars text.now)
            → IfErr result (λ fault. fault ≡ LiteralFault.Memory) }
        ensures refuses { (IsOneLiteral (chars text.now) → ⊥)
            → result ≡ Err (literal_fault (chars text.now)) }
    {
        if !is_literal(text) {
            return Err(literal_fault(text));
        }
        let text = Text::from_str(alloc, text)?;
        Ok(Literal::unchecked(text, span))
    }

    /// Creates an unsuffixed decimal integer literal, with the call site as its span.
    ///
    /// Returns an error if an allocation fails.
    pub fn integer_unsuffixed(alloc: Global, number: u128) -> Result<Literal, AllocError>
        ensures { IfOk result (λ l. literal_of l ≡ literal (decimal number) call_site) }
    {
        let digits = number.to_string(alloc)?;
        let text = Text::from_string(alloc, digits)?;
        Ok(Literal::unchecked(text, Span::call_site()))
    }

    /// Creates a decimal integer literal with the suffix `suffix`, and with the call site as its
    /// span.
    ///
    /// Returns `None` if `number` is larger than the maximum of the type, and an error if an
    /// allocation fails. A literal has no sign. To create the literal `128i8` of the expression
    /// `-128i8`, use [`Literal::new`].
    ///
    /// # Examples
    ///
    /// ```rust
    /// let five = Literal::integer_suffixed(alloc, 5, IntegerType::I32)?;
    /// assert_eq!(rt; five.as_ref().map(Literal::as_str), Some("5i32"));
    /// ```
    pub fn integer_suffixed(
        alloc: Global,
        number: u128,
        suffix: IntegerType,
    ) -> Result<Option<Literal>, AllocError>
        ensures made { IfOk result (λ made. MatchOption made (integer_type_max suffix < number)
            (λ l. (number ≤ integer_type_max suffix) × (literal_of l
            ≡ literal (decimal number ++ integer_type_name suffix) call_site))) }
        ensures refuses { integer_type_max suffix < number → result ≡ Ok None }
    {
        if number > suffix.max() {
            return Ok(None);
        }
        let mut digits = number.to_string(alloc)?;
        digits.push_str(suffix.name())?;
        let text = Text::from_string(alloc, digits)?;
        Ok(Some(Literal::unchecked(text, Span::call_site())))
    }

    /// Creates a string literal for `text`, with the call site as its span.
    ///
    /// The literal contains `text` in double quotes. The call writes the characters `"`, `\`, line
    /// feed, carriage return, tab and U+0000 as `\"`, `\\`, `\n`, `\r`, `\t` and `\0`. Returns an
    /// error if an allocation fails.
    pub fn string(alloc: Global, text: &str) -> Result<Literal, AllocError>
        ensures { IfOk result (λ l. literal_of l ≡ literal (in_quotes (chars text.now)) call_site) }
    {
        let mut out = String::with_capacity(alloc, quoted_len(text))?;
        out.push('"')?;
        let mut rest = push_plain(&mut out, text)?;
        while let Some((c, after)) = next_char(rest) {
            push_escaped(&mut out, c)?;
            rest = push_plain(&mut out, after)?;
        }
        out.push('"')?;
        let text = Text::from_string(alloc, out)?;
        Ok(Literal::unchecked(text, Span::call_site()))
    }

    /// Creates a string literal for the text of a doc comment, with the call site as its span.
    ///
    /// The call escapes characters according to the rules of [`Literal::string`]. It also escapes
    /// characters that are not visible by themselves as `\u{..}`:
    ///
    /// - control characters, and spaces other than U+0020
    /// - separators, and format characters that are ignored if they are not supported
    /// - marks that combine with letters of any script
    /// - private use characters
    ///
    /// Returns an error if an allocation fails.
    pub fn doc_comment(alloc: Global, text: &str) -> Result<Literal, AllocError>
        ensures { IfOk result (λ l. literal_of l
            ≡ literal (shown_in_quotes (chars text.now)) call_site) }
    {
        // A body shared with `string`, inlined with a flag, takes 3 more instructions a comment.
        let mut out = String::with_capacity(alloc, quoted_len(text))?;
        out.push('"')?;
        let mut rest = push_plain(&mut out, text)?;
        while let Some((c, after)) = next_char(rest) {
            push_shown(&mut out, c)?;
            rest = push_plain(&mut out, after)?;
        }
        out.push('"')?;
        let text = Text::from_string(alloc, out)?;
        Ok(Literal::unchecked(text, Span::call_site()))
    }

    /// Creates a character literal for `c`, with the call site as its span.
    ///
    /// The literal contains `c` in apostrophes. The call writes the characters `'`, `\`, line feed,
    /// carriage return, tab and U+0000 as `\'`, `\\`, `\n`, `\r`, `\t` and `\0`. Returns an error
    /// if an allocation fails.
    pub fn character(alloc: Global, c: char) -> Result<Literal, AllocError>
        ensures { IfOk result (λ l. literal_of l ≡ literal (in_apostrophes c) call_site) }
    {
        let mut out = String::new(alloc);
        out.push('\'')?;
        match c {
            '\'' => out.push_str("\\'")?,
            '"' => out.push('"')?,
            _ => push_escaped(&mut out, c)?,
        }
        out.push('\'')?;
        let text = Text::from_string(alloc, out)?;
        Ok(Literal::unchecked(text, Span::call_site()))
    }

    /// Creates a byte literal for `byte`, with the call site as its span.
    ///
    /// The literal contains `byte` between `b'` and `'`, escaped according to the rules of
    /// `u8::escape_ascii`. Returns an error if an allocation fails.
    pub fn byte_character(alloc: Global, byte: u8) -> Result<Literal, AllocError>
        ensures { IfOk result (λ l. literal_of l
            ≡ literal (bytes_between (codes "b'") (byte ∷ []) (codes "'")) call_site) }
    {
        bytes_between(alloc, "b'", &[byte], "'")
    }

    /// Creates a byte string literal for `bytes`, with the call site as its span.
    ///
    /// The literal contains the bytes between `b"` and `"`, escaped according to the rules of
    /// `u8::escape_ascii`. Returns an error if an allocation fails.
    pub fn byte_string(alloc: Global, bytes: &[u8]) -> Result<Literal, AllocError>
        ensures { IfOk result (λ l. literal_of l
            ≡ literal (bytes_between (codes "b\"") bytes.now (codes "\"")) call_site) }
    {
        bytes_between(alloc, "b\"", bytes, "\"")
    }

    /// Creates a C string literal for `text`, with the call site as its span.
    ///
    /// The literal contains the bytes of `text` between `c"` and `"`, escaped according to the
    /// rules of `u8::escape_ascii`. It does not contain the zero byte at the end of `text`. Returns
    /// an error if an allocation fails.
    pub fn c_string(alloc: Global, text: CStr<'_>) -> Result<Literal, AllocError>
        ensures { IfOk result (λ l. literal_of l ≡ literal
            (bytes_between (codes "c\"") (c_str_bytes text.entry) (codes "\"")) call_site) }
    {
        bytes_between(alloc, "c\"", text.to_bytes(), "\"")
    }

    // Doesn't test the text.
    pub(crate) fn unchecked(text: Text, span: Span) -> Literal
        ensures { literal_of result ≡ literal text span }
    {
        Literal { text, span }
    }

    /// Returns the text of the literal, including its quotes, prefix and suffix.
    pub fn as_str(&self) -> &str
        ensures { result.now ≡ leaf_text (literal_of self.now) }
    {
        self.text.as_str()
    }

    /// Returns a copy of the literal's text, including its quotes, prefix and suffix.
    ///
    /// Returns an error if an allocation fails.
    pub fn to_text(&self) -> Result<Text, AllocError>
        ensures { IfOk result (λ t. t ≡ leaf_text (literal_of self.now)) }
    {
        self.text.clone()
    }

    /// Returns a copy of the literal if its text has at most 14 bytes.
    ///
    /// Returns `None` if the text is longer. The call does not allocate.
    #[inline(always)]
    pub fn copied_if_short(&self) -> Option<Literal>
        ensures { SomeIff result (length (leaf_text (literal_of self.now)) ≤ most_short) self.now }
    {
        let text = self.text.copied_if_short()?;
        let span = self.span;
        Some(Literal { text, span })
    }

    /// Returns the span of the literal.
    pub fn span(&self) -> Span
        ensures { result ≡ leaf_span (literal_of self.now) }
    {
        self.span
    }

    /// Sets the span of the literal.
    pub fn set_span(&mut self, span: Span)
        ensures { literal_of self.new ≡ literal (leaf_text (literal_of self.old)) span }
    {
        self.span = span;
    }
}

/// Copies the literal and its span.
impl Clone for Literal {
    ghost is_clone = { λ l m. m ≡ l };

    #[inline(always)]
    fn clone(&self) -> Result<Literal, AllocError> {
        Ok(Literal {
            text: self.text.clone()?,
            span: self.span,
        })
    }
}

/// Writes the text of the literal.
impl Display for Literal {
    ghost output = { λ l. Some (leaf_text (literal_of l)) };

    fn fmt<W: Write>(&self, f: &mut Formatter<W>) -> fmt::Result {
        f.write_str(self.as_str())
    }
}

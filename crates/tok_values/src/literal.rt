//! Methods that return the values and suffixes of literals.
ghost use Rattle.std.specs.Prelude.{◌≡◌, ◌⊎◌, ◌&&◌, ◌++◌, ℕ, List, IfErr, IfOk, MatchOption, None, Ok, false, true, option_map, string_bytes};
ghost use Rattle.std.specs.CStr.{c_string_bytes};
ghost use Rattle.std.specs.Str.{chars};
ghost use Rattle.tok_leaves.specs.Leaves.{ident_of, leaf_span, leaf_text, literal, literal_of};
ghost use Rattle.tok_lexical.specs.Ascii.{lower_b, lower_c, quote};
ghost use Rattle.tok_lexical.specs.Pieces.{after_first, begins_with};
ghost use Rattle.tok_values.specs.Floats.{begins_decimal, float_value};
ghost use Rattle.tok_values.specs.Integers.{ReadsInteger};
ghost use Rattle.tok_values.specs.RawStrings.{IsRawBytesValue, IsRawStringValue};
ghost use Rattle.tok_values.specs.Strings.{IsByteValue, IsBytesValue, IsCharValue, IsStringValue, bool_of};
ghost use Rattle.tok_values.specs.Suffixed.{IsByteCharacterValue, IsByteStrValue, IsCStrValue, IsCharacterValue, IsStrValue, begins_prefixed, begins_string};
ghost use Rattle.tok_values.specs.Suffixes.{literal_suffix};
ghost use Rattle.tok_values.specs.TypedNumbers.{IsNumberFault, IsTypedNumber};
ghost use Rattle.tok_values.specs.declared.numbers.NumberFault.TheVariants.{Memory};
ghost use Rattle.tok_values.specs.Values.{HasValue, integer_value, string_value};

use crate::between::{Tail, byte_string, c_string, closes, ended, in_apostrophes, text_in_quotes};
use crate::floats::float_value;
use crate::integers::{Integer, IntegerFault, read_integer};
use crate::numbers::{NumberFault, number};
use crate::raw::{in_raw, in_raw_by};
use crate::strings::push_bytes;
use crate::suffixes::{before_suffix, literal_suffix};
use std::alloc::{AllocError, Global};
use std::ffi::CString;
use tok_leaves::known::unchecked_literal;
use tok_leaves::{Ident, Literal, Span, Text};
use tok_lexical::text::past_char;

/// Extends `Literal` with methods that return its value and its suffix.
///
/// Each method that returns a value accepts one kind of literal, and returns no value for other
/// kinds. Only `float_value` accepts two kinds: floats and decimal integers.
///
/// The methods `str_value`, `byte_str_value`, `cstr_value`, `character_value` and
/// `byte_character_value` accept any suffix, like the methods of the compiler's
/// `proc_macro::Literal`. The first three of these methods also accept raw strings.
///
/// # Examples
///
/// ```rust
/// let port = literal.integer_value()?.value;
/// ```
pub trait LiteralExt {
    /// Creates an integer or float literal from its text.
    ///
    /// `text` must be exactly one integer or float. An integer may have the name of an integer type
    /// as its suffix, and a float or a decimal integer may have the suffix `f32` or `f64`. The
    /// value may be too large for the type, as in `300u8`. If an integer is above `u64::MAX`,
    /// `integer_value` returns `TooLarge` for the new literal.
    ///
    /// Returns `Sign` if `text` begins with `-` or `+`, `NotNumber` if `text` is not exactly one
    /// number, and `Suffix` if the number has any other suffix. The call allocates only for a valid
    /// number, and returns `Memory` if this allocation fails.
    ///
    /// # Examples
    ///
    /// ```rust
    /// let half = Literal::number(alloc, "0.5f32", Span::call_site())?;
    /// assert_eq!(rt; half.suffix(), "f32");
    /// let fault = Literal::number(alloc, "0.5f33", Span::call_site()).err();
    /// assert_eq!(rt; fault, Some(NumberFault::Suffix));
    /// ```
    fn number(alloc: Global, text: &str, span: Span) -> Result<Literal, NumberFault>;

    /// Returns the text that a string literal stands for, or `None` if the literal has no such
    /// text.
    ///
    /// The string may be raw, and may have any suffix. If the string is not raw, the call replaces
    /// escapes like [`LiteralExt::string_value`]. Returns an error if an allocation fails.
    ///
    /// # Examples
    ///
    /// ```rust
    /// let name = Literal::new(alloc, "r#\"a\"#s", Span::call_site())?;
    /// assert_eq!(rt; name.str_value(alloc)?.as_deref(), Some("a"));
    /// ```
    fn str_value(&self, alloc: Global) -> Result<Option<String>, AllocError>;

    /// Returns the bytes that a byte string literal stands for, or `None` if the literal has no
    /// such bytes.
    ///
    /// The byte string may be raw, and may have any suffix. If the byte string is not raw, the call
    /// replaces escapes. Returns an error if an allocation fails.
    fn byte_str_value(&self, alloc: Global) -> Result<Option<Vec<u8>>, AllocError>;

    /// Returns the C string that a C string literal stands for, or `None` if the literal has no
    /// such value.
    ///
    /// The literal may be raw, and may have any suffix. An escape `\x` stands for a byte, and the
    /// call encodes other characters in UTF-8. A literal that contains U+0000 has no value, and
    /// `lex_source` rejects such a literal. Returns an error if an allocation fails.
    fn cstr_value(&self, alloc: Global) -> Result<Option<CString>, AllocError>;

    /// Returns the character that a character literal stands for, or `None` for any other literal.
    ///
    /// The character literal may have any suffix.
    fn character_value(&self) -> Option<char>;

    /// Returns the byte that a byte literal stands for, or `None` for any other literal.
    ///
    /// The byte literal may have any suffix.
    fn byte_character_value(&self) -> Option<u8>;

    /// Returns the text that a string literal stands for, or `None` if the literal has no such
    /// text.
    ///
    /// Returns `None` for a raw string and for a string with a suffix. For a raw string, call
    /// [`LiteralExt::raw_string_value`]. For a string with a suffix, call
    /// [`LiteralExt::without_suffix`] first.
    ///
    /// The call replaces escapes with the characters that they stand for, and CRLF with a line
    /// feed. It removes a backslash at the end of a line, together with the line ending and the
    /// spaces, tabs, line feeds and carriage returns after it. A string with any other carriage
    /// return, which `lex` accepts, has no value. Returns an error if an allocation fails.
    fn string_value(&self, alloc: Global) -> Result<Option<String>, AllocError>;

    /// Returns the bytes that a byte string literal stands for, or `None` if the literal has no
    /// such bytes.
    ///
    /// Returns `None` for a raw byte string and for a byte string with a suffix. For a raw byte
    /// string, call [`LiteralExt::raw_bytes_value`]. Returns an error if an allocation fails.
    fn bytes_value(&self, alloc: Global) -> Result<Option<Vec<u8>>, AllocError>;

    /// Returns the text between the quotes of a raw string literal without a suffix.
    ///
    /// Returns `None` for any other literal. The result is a part of the literal's own text, and
    /// keeps each CRLF.
    fn raw_string_value(&self) -> Option<&str>;

    /// Returns the bytes between the quotes of a raw byte string literal without a suffix.
    ///
    /// Returns `None` for any other literal. The result is a part of the literal's own bytes, and
    /// keeps each CRLF.
    fn raw_bytes_value(&self) -> Option<&[u8]>;

    /// Returns the character that a character literal without a suffix stands for.
    ///
    /// Returns `None` for any other literal.
    fn char_value(&self) -> Option<char>;

    /// Returns the byte that a byte literal without a suffix stands for.
    ///
    /// Returns `None` for any other literal.
    fn byte_value(&self) -> Option<u8>;

    /// Returns the value and the suffix of an integer literal.
    ///
    /// Returns `NotInteger` if the literal is not an integer, and `TooLarge` if the value is above
    /// `u64::MAX`.
    fn integer_value(&self) -> Result<Integer<'_>, IntegerFault>;

    /// Returns the suffix of the literal, or an empty text if the literal has no suffix.
    ///
    /// # Examples
    ///
    /// ```rust
    /// let number = Literal::new(alloc, "1.5e3f32", Span::call_site())?;
    /// assert_eq!(rt; number.suffix(), "f32");
    /// ```
    fn suffix(&self) -> &str;

    /// Returns a copy of the literal without its suffix. The copy has the same span.
    ///
    /// Methods such as [`LiteralExt::string_value`], which accept no suffix, can return the value
    /// of this copy. Returns an error if the allocation fails.
    ///
    /// # Examples
    ///
    /// ```rust
    /// let name = Literal::new(alloc, "\"a\"s", Span::call_site())?;
    /// let plain = name.without_suffix(alloc)?;
    /// assert_eq!(rt; plain.string_value(alloc)?.as_deref(), Some("a"));
    /// ```
    fn without_suffix(&self, alloc: Global) -> Result<Literal, AllocError>;

    /// Returns the `f64` nearest to the value of a float or a decimal integer, or `None` for any
    /// other literal.
    ///
    /// The literal may have the suffix `f32` or `f64`. Returns an error if an allocation fails.
    fn float_value(&self, alloc: Global) -> Result<Option<f64>, AllocError>;
}

impl LiteralExt for Literal {
    fn number(alloc: Global, text: &str, span: Span) -> Result<Literal, NumberFault>
        ensures made { IfOk result (λ l. (literal_of l ≡ literal text.now span)
            × IsTypedNumber text.now) }
        ensures takes { IsTypedNumber text.now → IfErr result (λ fault. fault ≡ Memory) }
        ensures refuses { IfErr result (λ fault. (fault ≡ Memory)
            ⊎ IsNumberFault text.now fault) }
        ensures rejects { (IsTypedNumber text.now → ⊥)
            → IfErr result (λ fault. IsNumberFault text.now fault) }
    {
        number(alloc, text, span)
    }

    fn string_value(&self, alloc: Global) -> Result<Option<String>, AllocError>
        ensures grammar { IfOk result (λ answer.
            let text = chars (leaf_text (literal_of self.now)) in
            MatchOption answer ((value : List ℕ) → IsStringValue text value → ⊥)
            (λ value. IsStringValue text (string_bytes value))) }
        ensures value { IfOk result (λ answer.
            option_map string_bytes answer
            ≡ string_value (chars (leaf_text (literal_of self.now)))) }
        ensures others { begins_with quote (chars (leaf_text (literal_of self.now))) ≡ false
            → result ≡ Ok None }
    {
        text_in_quotes(alloc, self.as_str(), Tail::Nothing)
    }

    fn bytes_value(&self, alloc: Global) -> Result<Option<Vec<u8>>, AllocError>
        ensures value { IfOk result (λ answer. let text = chars (leaf_text (literal_of self.now)) in
            MatchOption answer ((value : List ℕ) → IsBytesValue text value → ⊥)
            (λ value. IsBytesValue text value.items)) }
        ensures others { let text = chars (leaf_text (literal_of self.now)) in
            (begins_with lower_b text && begins_with quote (after_first text)) ≡ false
            → result ≡ Ok None }
    {
        let Some(quoted) = past_char(self.as_str(), 'b') else {
            return Ok(None);
        };
        let Some(inner) = past_char(quoted, '"') else {
            return Ok(None);
        };
        let mut value = Vec::new(alloc);
        let rest = push_bytes(&mut value, inner)?;
        if closes(rest, '"', Tail::Nothing) {
            Ok(Some(value))
        } else {
            Ok(None)
        }
    }

    fn raw_string_value(&self) -> Option<&str>
        ensures { let text = chars (leaf_text (literal_of self.now)) in
            MatchOption result ((value : List ℕ) → IsRawStringValue text value → ⊥)
            (λ value. IsRawStringValue text value.now) }
    {
        in_raw(self.as_str())
    }

    fn raw_bytes_value(&self) -> Option<&[u8]>
        ensures { let text = chars (leaf_text (literal_of self.now)) in
            MatchOption result ((value : List ℕ) → IsRawBytesValue text value → ⊥)
            (λ value. IsRawBytesValue text value.now) }
    {
        let raw = past_char(self.as_str(), 'b')?;
        let value = in_raw(raw)?;
        Some(value.as_bytes())
    }

    fn char_value(&self) -> Option<char>
        ensures { let text = chars (leaf_text (literal_of self.now)) in
            MatchOption result ((c : ℕ) → IsCharValue text c → ⊥) (λ c. IsCharValue text c) }
    {
        in_apostrophes(self.as_str(), false, Tail::Nothing)
    }

    fn byte_value(&self) -> Option<u8>
        ensures { let text = chars (leaf_text (literal_of self.now)) in
            MatchOption result ((byte : ℕ) → IsByteValue text byte → ⊥)
            (λ byte. IsByteValue text byte) }
    {
        let quoted = past_char(self.as_str(), 'b')?;
        let c = in_apostrophes(quoted, true, Tail::Nothing)?;
        Some(c as u32 as u8)
    }

    fn integer_value(&self) -> Result<Integer<'_>, IntegerFault>
        ensures grammar { ReadsInteger (chars (leaf_text (literal_of self.now))) result }
        ensures value { HasValue (integer_value (chars (leaf_text (literal_of self.now)))) result }
    {
        read_integer(self.as_str())
    }

    fn suffix(&self) -> &str
        ensures { chars result.now ≡ literal_suffix (chars (leaf_text (literal_of self.now))) }
    {
        literal_suffix(self.as_str())
    }

    fn without_suffix(&self, alloc: Global) -> Result<Literal, AllocError>
        ensures text { let text = chars (leaf_text (literal_of self.now)) in
            IfOk result (λ l. chars (leaf_text (literal_of l)) ++ literal_suffix text ≡ text) }
        ensures span { IfOk result (λ l.
            leaf_span (literal_of l) ≡ leaf_span (literal_of self.now)) }
    {
        let text = Text::from_str(alloc, before_suffix(self.as_str()))?;
        Ok(unchecked_literal(text, self.span()))
    }

    fn str_value(&self, alloc: Global) -> Result<Option<String>, AllocError>
        ensures value { IfOk result (λ answer. let text = chars (leaf_text (literal_of self.now)) in
            MatchOption answer ((value : List ℕ) → IsStrValue text value → ⊥)
            (λ value. IsStrValue text (string_bytes value))) }
        ensures others { begins_string (chars (leaf_text (literal_of self.now))) ≡ false
            → result ≡ Ok None }
    {
        let text = self.as_str();
        match in_raw_by(text) {
            Some(value) => Ok(Some(String::from_str(alloc, value)?)),
            None => text_in_quotes(alloc, text, Tail::Suffix),
        }
    }

    fn byte_str_value(&self, alloc: Global) -> Result<Option<Vec<u8>>, AllocError>
        ensures value { IfOk result (λ answer. let text = chars (leaf_text (literal_of self.now)) in
            MatchOption answer ((value : List ℕ) → IsByteStrValue text value → ⊥)
            (λ value. IsByteStrValue text value.items)) }
        ensures others { begins_prefixed lower_b (chars (leaf_text (literal_of self.now))) ≡ false
            → result ≡ Ok None }
    {
        match past_char(self.as_str(), 'b') {
            Some(string) => byte_string(alloc, string),
            None => Ok(None),
        }
    }

    fn cstr_value(&self, alloc: Global) -> Result<Option<CString>, AllocError>
        ensures value { IfOk result (λ answer. let text = chars (leaf_text (literal_of self.now)) in
            MatchOption answer ((value : List ℕ) → IsCStrValue text value → ⊥)
            (λ value. IsCStrValue text (c_string_bytes value))) }
        ensures others { begins_prefixed lower_c (chars (leaf_text (literal_of self.now))) ≡ false
            → result ≡ Ok None }
    {
        let Some(string) = past_char(self.as_str(), 'c') else {
            return Ok(None);
        };
        match c_string(alloc, string)? {
            Some(bytes) => ended(bytes),
            None => Ok(None),
        }
    }

    fn character_value(&self) -> Option<char>
        ensures { let text = chars (leaf_text (literal_of self.now)) in
            MatchOption result ((c : ℕ) → IsCharacterValue text c → ⊥)
            (λ c. IsCharacterValue text c) }
    {
        in_apostrophes(self.as_str(), false, Tail::Suffix)
    }

    fn byte_character_value(&self) -> Option<u8>
        ensures { let text = chars (leaf_text (literal_of self.now)) in
            MatchOption result ((byte : ℕ) → IsByteCharacterValue text byte → ⊥)
            (λ byte. IsByteCharacterValue text byte) }
    {
        let quoted = past_char(self.as_str(), 'b')?;
        let byte = in_apostrophes(quoted, true, Tail::Suffix)?;
        Some(byte as u32 as u8)
    }

    fn float_value(&self, alloc: Global) -> Result<Option<f64>, AllocError>
        ensures value { IfOk result (λ value.
            value ≡ float_value (leaf_text (literal_of self.now))) }
        ensures others { begins_decimal (leaf_text (literal_of self.now)) ≡ false
            → result ≡ Ok None }
    {
        float_value(alloc, self.as_str())
    }
}

/// Returns the value of the identifier `true` or `false`, or `None` for any other identifier.
pub fn bool_value(ident: &Ident) -> Option<bool>
    ensures { result ≡ bool_of (leaf_text (ident_of ident.now)) }
{
    match ident.as_str() {
        "true" => Some(true),
        "false" => Some(false),
        _ => None,
    }
}

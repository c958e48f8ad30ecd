//! The rules of the lexical grammar, and the order in which the lexer tries them.
ghost use Rattle.std.specs.Prelude.{◌≡◌, ◌++◌, ◌∷◌, [], ℕ, List, true, false, IfSome, MatchOption};
ghost use Rattle.std.specs.Str.{chars, IsUtf8};
ghost use Rattle.tok_lexical.specs.Ascii.{apostrophe};
ghost use Rattle.tok_lexical.specs.Fits.{IsFirstFit, ReadsByRules};
ghost use Rattle.tok_lexical.specs.Widths.{is_group_mark, width};
ghost use Rattle.tok_lexical.specs.Pieces.{ReadsLongest, Skips};
ghost use Rattle.tok_lexical.specs.Numbers.{is_digit_or_underscore, starts_digit};
ghost use Rattle.tok_lexical.specs.Rules.{among, decimal_rules, has_raw_lifetimes, last_rules, rules_of, Spells};
ghost use Rattle.tok_lexical.specs.Private.Starts.{beginning};
ghost use Rattle.tok_lexical.specs.declared.start.Start.TheVariants.{Prefix};
ghost use Rattle.tok_lexical.specs.Private.Starts.{tells, start_of, names_base, opens_string, opens_literal};
ghost use Rattle.tok_lexical.specs.Starts.{begins_letter, begins_punct};
ghost use Rattle.tok_lexical.specs.declared.rule.Mode.{Mode};
ghost use Rattle.tok_lexical.specs.declared.rule.Rule.TheVariants.{Identifier, Punct};

use crate::char_literals::{past_byte_char, past_escaped_char, past_plain_char};
use crate::classes::{closing_mark, is_invisible, is_punct, is_whitespace, opening_mark};
use crate::comments::{past_block_comment, past_line_comment};
use crate::contents::Contents;
use crate::delimiter::Delimiter;
use crate::edition::Edition;
use crate::floats::{past_exponent, past_float, past_fraction, past_pointed};
use crate::joint::begins_comment;
use crate::numbers::{Base, past_based, past_decimal, past_decimals, past_number_suffix};
use crate::prefixes::{past_prefix_of, past_string_prefix};
use crate::raw::past_raw_string;
use crate::start::{Start, begins_letter, begins_punct};
use crate::strings::{past_byte_string, past_c_string, past_string};
use crate::text::{begins_with, next_char, past_char, past_first, past_pair};
use crate::words::{
    past_continues, past_identifier, past_lifetime, past_plain_lifetime, past_raw_identifier,
};

/// A rule of the lexical grammar, which recognizes a token, a comment or white space at the start
/// of a text.
///
/// The lexer tries the rules in order. Some rules recognize text that the lexer then rejects, such
/// as a comment that is not closed.
#[derive(Clone, Copy, Debug)]
pub enum Rule {
    ByteOrderMark,
    Whitespace,
    LineComment,
    BlockComment,
    OpenComment,
    Opening(Delimiter),
    Closing(Delimiter),
    QuotedString(Contents),
    BadString,
    ByteChar,
    BadByteChar,
    StringPrefix,
    RawString(Contents),
    BadPrefixed(Contents),
    EscapedChar,
    BadEscapedChar,
    PlainChar,
    Lifetime,
    PlainLifetime,
    Apostrophe,
    Based(Base),
    BadBased(Base),
    Float,
    PointedDecimal,
    Decimal,
    RawIdentifier,
    Identifier,
    Punct,
    Other,
}

/// Selects the grammar that the lexer applies to a text.
///
/// `Plain` is the grammar of `lex`, `Marked` is the grammar of `lex_marked`, and `Source` is the
/// grammar of `lex_source` for an edition. The mode decides which rules apply, which token trees
/// the lexer creates, and why it rejects a text.
#[derive(Clone, Copy, Debug)]
pub enum Mode {
    Plain,
    Marked,
    Source(Edition),
}

impl Mode {
    // Returns the rules that may begin so, in their order, without the last three.
    #[inline(always)]
    fn at(self, start: Start) -> &'static [Rule]
        ensures { tells start ≡ false → result.now ++ last_rules ≡ among self (beginning start) }
    {
        match start {
            Start::Rest => match self {
                Mode::Marked => &[
                    Rule::ByteOrderMark,
                    Rule::Whitespace,
                    Rule::Opening(Delimiter::None),
                    Rule::Closing(Delimiter::None),
                ],
                Mode::Plain | Mode::Source(_) => &[Rule::ByteOrderMark, Rule::Whitespace],
            },
            Start::Whitespace => &[Rule::Whitespace],
            Start::Zero => match self {
                Mode::Plain | Mode::Marked => &[
                    Rule::Based(Base::Hexadecimal),
                    Rule::Based(Base::Octal),
                    Rule::Based(Base::Binary),
                    Rule::BadBased(Base::Hexadecimal),
                    Rule::BadBased(Base::Octal),
                    Rule::BadBased(Base::Binary),
                    Rule::Decimal,
                ],
                Mode::Source(_) => &[
                    Rule::Based(Base::Hexadecimal),
                    Rule::Based(Base::Octal),
                    Rule::Based(Base::Binary),
                    Rule::BadBased(Base::Hexadecimal),
                    Rule::BadBased(Base::Octal),
                    Rule::BadBased(Base::Binary),
                    Rule::Float,
                    Rule::PointedDecimal,
                    Rule::Decimal,
                ],
            },
            Start::Digit => match self {
                Mode::Plain | Mode::Marked => &[Rule::Decimal],
                Mode::Source(_) => &[Rule::Float, Rule::PointedDecimal, Rule::Decimal],
            },
            Start::Prefix => self.prefixed(),
            Start::Slash => &[Rule::LineComment, Rule::BlockComment, Rule::OpenComment],
            Start::Quote => &[Rule::QuotedString(Contents::Text), Rule::BadString],
            Start::Apostrophe => match self {
                Mode::Source(Edition::Edition2015 | Edition::Edition2018) => &[
                    Rule::EscapedChar,
                    Rule::BadEscapedChar,
                    Rule::PlainChar,
                    Rule::PlainLifetime,
                    Rule::Apostrophe,
                ],
                Mode::Plain
                | Mode::Marked
                | Mode::Source(Edition::Edition2021 | Edition::Edition2024) => &[
                    Rule::EscapedChar,
                    Rule::BadEscapedChar,
                    Rule::PlainChar,
                    Rule::Lifetime,
                    Rule::Apostrophe,
                ],
            },
            // Told by the first character.
            _ => &[],
        }
    }

    // Returns `true` if raw lifetimes exist.
    fn has_raw_lifetimes(self) -> bool
        ensures { result ≡ has_raw_lifetimes self }
    {
        match self {
            Mode::Source(edition) => edition.reserves_prefixes(),
            Mode::Plain | Mode::Marked => true,
        }
    }

    // Returns those that `b`, `c` or `r` may begin.
    #[inline(always)]
    fn prefixed(self) -> &'static [Rule]
        ensures { result.now ++ last_rules ≡ among self (beginning Prefix) }
    {
        match self {
            Mode::Plain | Mode::Marked => &[
                Rule::ByteChar,
                Rule::BadByteChar,
                Rule::StringPrefix,
                Rule::RawIdentifier,
            ],
            Mode::Source(Edition::Edition2015 | Edition::Edition2018) => &[
                Rule::ByteChar,
                Rule::BadByteChar,
                Rule::QuotedString(Contents::Bytes),
                Rule::RawString(Contents::Text),
                Rule::RawString(Contents::Bytes),
                Rule::BadPrefixed(Contents::Text),
                Rule::BadPrefixed(Contents::Bytes),
                Rule::RawIdentifier,
            ],
            Mode::Source(Edition::Edition2021 | Edition::Edition2024) => &[
                Rule::ByteChar,
                Rule::BadByteChar,
                Rule::QuotedString(Contents::Bytes),
                Rule::RawString(Contents::Text),
                Rule::RawString(Contents::Bytes),
                Rule::BadPrefixed(Contents::Text),
                Rule::BadPrefixed(Contents::Bytes),
                Rule::QuotedString(Contents::C),
                Rule::RawString(Contents::C),
                Rule::BadPrefixed(Contents::C),
                Rule::RawIdentifier,
            ],
        }
    }

    /// Finds the first rule for the decimal number at the start of `text`, and returns the rule and
    /// the rest of `text`.
    fn decimal(self, text: &str) -> (Rule, &str)
        requires { starts_digit (chars text.now) ≡ true }
        ensures fits { (piece : List ℕ)
            × IsFirstFit (chars text.now) (among self decimal_rules) result.0 piece
            (chars result.1.now) }
        ensures utf8 { IsUtf8 result.1.now }
    {
        let rest = past_decimals(text);
        match self {
            Mode::Source(_) => source_decimal(text, rest),
            Mode::Plain | Mode::Marked => (Rule::Decimal, past_number_suffix(rest, 10)),
        }
    }
}

impl Rule {
    /// Returns the rest of `text` after the part that this rule recognizes, or `None` if the rule
    /// does not fit.
    #[inline(always)]
    fn past(self, text: &str) -> Option<&str>
        ensures tries { ReadsLongest (Spells self) (chars text.now) result }
        ensures utf8 { IfSome result (λ rest. IsUtf8 rest.now) }
    {
        let (first, rest) = next_char(text)?;
        match self {
            Rule::ByteOrderMark if first == '\u{FEFF}' => Some(rest),
            Rule::Whitespace if is_whitespace(first) => Some(rest),
            Rule::LineComment => past_line_comment(text),
            Rule::BlockComment => past_block_comment(text),
            Rule::OpenComment => past_pair(text, '/', '*'),
            Rule::Opening(delimiter) if first == opening_mark(delimiter) => Some(rest),
            Rule::Closing(delimiter) if first == closing_mark(delimiter) => Some(rest),
            Rule::QuotedString(Contents::Text) => past_string(text),
            Rule::QuotedString(Contents::Bytes) => past_byte_string(text),
            Rule::QuotedString(Contents::C) => past_c_string(text),
            Rule::BadString if first == '"' => Some(rest),
            Rule::ByteChar => past_byte_char(text),
            Rule::BadByteChar => past_pair(text, 'b', '\''),
            Rule::StringPrefix => past_string_prefix(text),
            Rule::RawString(contents) => past_raw_string(text, contents),
            Rule::BadPrefixed(contents) => past_prefix_of(text, contents),
            Rule::EscapedChar => past_escaped_char(text),
            Rule::BadEscapedChar => past_pair(text, '\'', '\\'),
            Rule::PlainChar => past_plain_char(text),
            Rule::Lifetime => past_lifetime(text),
            Rule::PlainLifetime => past_plain_lifetime(text),
            Rule::Apostrophe if first == '\'' => Some(rest),
            Rule::Based(base) => past_based(text, base),
            Rule::BadBased(base) => past_pair(text, '0', base.mark()),
            Rule::Float => past_float(text),
            Rule::PointedDecimal => past_pointed(text),
            Rule::Decimal => past_decimal(text),
            Rule::RawIdentifier => past_raw_identifier(text),
            Rule::Identifier => past_identifier(text),
            Rule::Punct if is_punct(first) => Some(rest),
            Rule::Other => Some(rest),
            _ => None,
        }
    }

    fn is_group_mark(self) -> bool
        ensures { result ≡ is_group_mark self }
    {
        match self {
            Rule::Opening(delimiter) => is_invisible(delimiter),
            Rule::Closing(delimiter) => is_invisible(delimiter),
            _ => false,
        }
    }

    /// Returns the length of `piece` in bytes.
    ///
    /// Returns 0 if the rule is for `«` or `»`, which are the delimiters of invisible groups.
    pub fn width(self, piece: &str) -> usize
        ensures { result ≡ width self (chars piece.now) }
    {
        if self.is_group_mark() { 0 } else { piece.len() }
    }
}

/// Finds the first rule for the decimal number at the start of a source.
///
/// `rest` is the part of `text` after the leading digits. Returns the rule, and the rest of `text`
/// after the number.
#[inline(never)]
fn source_decimal<'a>(text: &str, rest: &'a str) -> (Rule, &'a str)
    requires starts { starts_digit (chars text.now) ≡ true }
    requires digits { (front : List ℕ)
        × Skips (is_digit_or_underscore 10) (chars text.now) front (chars rest.now) }
    ensures fits { (piece : List ℕ)
        × IsFirstFit (chars text.now) decimal_rules result.0 piece (chars result.1.now) }
    ensures utf8 { IsUtf8 result.1.now }
{
    if let Some(after) = past_char(rest, '.') {
        match past_fraction(after) {
            Some(end) => (Rule::Float, end),
            None => (Rule::PointedDecimal, after),
        }
    } else {
        match past_exponent(rest) {
            Some(end) => (Rule::Float, end),
            None => (Rule::Decimal, past_number_suffix(rest, 10)),
        }
    }
}

/// Returns `true` if a zero directly before `rest` begins the prefix of a base, such as `0x`.
fn names_base(rest: &str) -> bool
    ensures { result ≡ names_base (chars rest.now) }
{
    begins_with(rest, 'x') || begins_with(rest, 'o') || begins_with(rest, 'b')
}

fn opens_string(rest: &str) -> bool
    ensures { result ≡ opens_string (chars rest.now) }
{
    begins_with(rest, '"') || begins_with(rest, '#')
}

/// Returns `true` if `b`, `c` or `r` directly before `rest` may begin a literal or a raw
/// identifier.
fn opens_literal(rest: &str) -> bool
    ensures { result ≡ opens_literal (chars rest.now) }
{
    begins_with(rest, '\'')
        || opens_string(rest)
        || begins_with(rest, 'r') && opens_string(past_first(rest))
}

/// Finds the first rule that fits a text with a leading apostrophe. `rest` is the text after the
/// apostrophe.
///
/// Returns the rule, and the rest of `text` after the part that the rule recognizes.
// Kept out of line: few pieces begin so. Nothing is read twice, not even a long escape without an
// end.
#[inline(never)]
fn past_apostrophe<'a>(mode: Mode, text: &'a str, rest: &'a str) -> (Rule, &'a str)
    requires { chars text.now ≡ apostrophe ∷ chars rest.now }
    ensures fits { (piece : List ℕ)
        × IsFirstFit (chars text.now) (rules_of mode) result.0 piece (chars result.1.now) }
    ensures utf8 { IsUtf8 result.1.now }
{
    if let Some(after) = past_char(rest, '\\') {
        return match past_escaped_char(text) {
            Some(end) => (Rule::EscapedChar, end),
            None => (Rule::BadEscapedChar, after),
        };
    }
    if let Some(end) = past_plain_char(text) {
        return (Rule::PlainChar, end);
    }
    if mode.has_raw_lifetimes() {
        match past_lifetime(text) {
            Some(end) => (Rule::Lifetime, end),
            None => (Rule::Apostrophe, rest),
        }
    } else {
        match past_plain_lifetime(text) {
            Some(end) => (Rule::PlainLifetime, end),
            None => (Rule::Apostrophe, rest),
        }
    }
}

/// Finds the first rule that fits, if the class `start` of the first character and the next
/// character determine it.
///
/// For example, a digit begins a number, and a letter before `#` may begin a raw identifier.
/// Returns `None` if the two characters do not determine the rule.
// Inlined: most numbers, and most words that begin so, are told here.
#[inline(always)]
fn second_told<'a>(
    mode: Mode,
    start: Start,
    text: &'a str,
    rest: &'a str,
) -> Option<(Rule, &'a str)>
    requires { (c : ℕ) × (chars text.now ≡ c ∷ chars rest.now) × (start ≡ start_of c) }
    ensures fits { IfSome result
        (λ found. (piece : List ℕ)
        × IsFirstFit (chars text.now) (rules_of mode) found.0 piece (chars found.1.now)) }
    ensures utf8 { IfSome result (λ found. IsUtf8 found.1.now) }
{
    match start {
        Start::Digit => Some(mode.decimal(text)),
        Start::Zero if !names_base(rest) => Some(mode.decimal(text)),
        Start::Prefix if !opens_literal(rest) => Some((Rule::Identifier, past_continues(rest))),
        Start::Prefix if begins_with(rest, '#') => {
            let end = past_raw_identifier(text)?;
            Some((Rule::RawIdentifier, end))
        }
        _ => None,
    }
}

/// Returns the rest of `text` after a leading identifier, if the first character can only begin an
/// identifier.
///
/// Such a character is `_`, or an ASCII letter other than `b`, `c` and `r`, which can also begin
/// literals. Returns `None` if `text` does not begin with such a character.
#[inline(always)]
pub fn past_told_identifier(text: &str) -> Option<&str>
    ensures told { MatchOption result (begins_letter (chars text.now) ≡ false)
        (λ rest. (begins_letter (chars text.now) ≡ true) × ((mode : Mode) → (piece : List ℕ)
        × IsFirstFit (chars text.now) (rules_of mode) Identifier piece (chars rest.now))) }
    ensures utf8 { IfSome result (λ rest. IsUtf8 rest.now) }
{
    if !begins_letter(text) {
        return None;
    }
    let (_, rest) = next_char(text)?;
    Some(past_continues(rest))
}

/// Returns `text` without its first character, if this character is always a punct.
///
/// Such a character is any punctuation character except an apostrophe and `/`. A `/` can also begin
/// a comment. Returns `None` if `text` does not begin with such a character.
#[inline(always)]
pub fn past_told_punct(text: &str) -> Option<&str>
    ensures told { MatchOption result (begins_punct (chars text.now) ≡ false)
        (λ rest. (begins_punct (chars text.now) ≡ true) × ((mode : Mode) → (piece : List ℕ)
        × IsFirstFit (chars text.now) (rules_of mode) Punct piece (chars rest.now))) }
    ensures utf8 { IfSome result (λ rest. IsUtf8 rest.now) }
{
    if !begins_punct(text) {
        return None;
    }
    let (_, rest) = next_char(text)?;
    Some(rest)
}

/// Finds the first rule that fits the start of `text`, and returns the rule and the rest of `text`.
///
/// `mode` selects the rules. Returns `None` if no rule fits.
#[inline(always)]
pub fn first_rule(mode: Mode, text: &str) -> Option<(Rule, &str)>
    ensures tries { ReadsByRules (rules_of mode) (chars text.now) result }
    ensures utf8 { IfSome result (λ found. IsUtf8 found.1.now) }
{
    let (first, rest) = next_char(text)?;
    // Most pieces are told by their first character alone.
    let start = Start::of(first);
    match start {
        Start::Letter => return Some((Rule::Identifier, past_continues(rest))),
        Start::Punct => return Some((Rule::Punct, rest)),
        Start::Opening(delimiter) => return Some((Rule::Opening(delimiter), rest)),
        Start::Closing(delimiter) => return Some((Rule::Closing(delimiter), rest)),
        Start::Slash if !begins_comment(text) => return Some((Rule::Punct, rest)),
        // The first of the rules that may begin so fits nearly always.
        Start::Slash => {
            if let Some(end) = past_line_comment(text) {
                return Some((Rule::LineComment, end));
            }
        }
        // Two rules may begin so, and the second always fits: no string is read twice.
        Start::Quote => {
            if let Some(end) = past_string(text) {
                return Some((Rule::QuotedString(Contents::Text), end));
            }
            return Some((Rule::BadString, rest));
        }
        Start::Apostrophe => return Some(past_apostrophe(mode, text, rest)),
        _ => {}
    }
    if start.has_second() {
        if let Some(found) = second_told(mode, start, text, rest) {
            return Some(found);
        }
    }
    let those = mode.at(start);
    for rule in those {
        if let Some(rest) = rule.past(text) {
            return Some((*rule, rest));
        }
    }
    // The last three rules, of which one fits.
    if let Some(rest) = past_identifier(text) {
        Some((Rule::Identifier, rest))
    } else if is_punct(first) {
        Some((Rule::Punct, rest))
    } else {
        Some((Rule::Other, rest))
    }
}

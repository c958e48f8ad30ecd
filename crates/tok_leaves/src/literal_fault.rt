//! Decides whether a text is exactly one literal, and finds the reason if it is not.
ghost use Rattle.std.specs.Prelude.{◌≡◌, MatchBool, Some};
ghost use Rattle.std.specs.Str.{chars};
ghost use Rattle.tok_leaves.specs.Literals.{IsOneLiteral, is_literal_rule, is_number_rule, is_quoted_rule, literal_fault, literal_fault_words};

use std::alloc::AllocError;
use std::fmt::{self, Display, Formatter, Write};
use tok_lexical::text::begins_with;
use tok_lexical::{Edition, Mode, Rule, error_kind, first_rule};

/// An error that `Literal::new` can return.
#[derive(Clone, Copy, PartialEq, Eq, Debug)]
pub enum LiteralFault {
    /// The text begins with `-` or `+`. A sign is a separate punct.
    Sign,
    /// The text is not a literal, or contains other text before or after a literal.
    NotLiteral,
    /// An allocation failed.
    Memory,
}

impl From<AllocError> for LiteralFault {
    ghost use Rattle.tok_leaves.specs.declared.literal_fault.LiteralFault.TheVariants.{Memory};

    ghost from_gives = { λ _ fault. fault ≡ Memory };

    fn from(_: AllocError) -> Self {
        LiteralFault::Memory
    }
}

impl LiteralFault {
    fn words(self) -> &'static str
        ensures { result.now ≡ literal_fault_words self }
    {
        match self {
            LiteralFault::Sign => "begins with a sign, which is a punct of its own",
            LiteralFault::NotLiteral => "not exactly one literal",
            LiteralFault::Memory => "out of memory",
        }
    }
}

impl Display for LiteralFault {
    ghost output = { λ fault. Some (literal_fault_words fault) };

    fn fmt<W: Write>(&self, f: &mut Formatter<W>) -> fmt::Result {
        f.write_str(self.words())
    }
}

impl std::error::Error for LiteralFault {}

// How literals are read: as those of a source of the latest edition.
const SOURCE: Mode = Mode::Source(Edition::Edition2024);

/// Returns `true` if `text` is exactly one literal of the latest edition, without white space or
/// comments around it.
///
/// The call does not allocate.
pub fn is_literal(text: &str) -> bool
    ensures { MatchBool result (IsOneLiteral (chars text.now)) (IsOneLiteral (chars text.now) → ⊥) }
{
    let Some((rule, after)) = first_rule(SOURCE, text) else {
        return false;
    };
    if !after.is_empty() {
        return false;
    }
    if !is_literal_rule(rule) {
        return false;
    }
    error_kind(rule, SOURCE, 0, text, "", true).is_none()
}

fn is_literal_rule(rule: Rule) -> bool
    ensures { result ≡ is_literal_rule rule }
{
    is_number_rule(rule) || is_quoted_rule(rule)
}

/// Returns `true` if `rule` takes an integer or a float.
#[inline]
pub fn is_number_rule(rule: Rule) -> bool
    ensures { result ≡ is_number_rule rule }
{
    matches!(
        rule,
        Rule::Based(_) | Rule::Float | Rule::PointedDecimal | Rule::Decimal
    )
}

/// Returns `true` if `rule` takes a string, a character or a byte literal.
#[inline]
pub fn is_quoted_rule(rule: Rule) -> bool
    ensures { result ≡ is_quoted_rule rule }
{
    matches!(
        rule,
        Rule::QuotedString(_)
            | Rule::RawString(_)
            | Rule::ByteChar
            | Rule::EscapedChar
            | Rule::PlainChar
    )
}

// Returns why a text is not one literal.
pub fn literal_fault(text: &str) -> LiteralFault
    ensures { result ≡ literal_fault (chars text.now) }
{
    if begins_with(text, '-') || begins_with(text, '+') {
        LiteralFault::Sign
    } else {
        LiteralFault::NotLiteral
    }
}

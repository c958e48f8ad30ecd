//! Decides whether a text is valid for an identifier or a literal.
ghost use Rattle.std.specs.Prelude.{◌≡◌, MatchBool, MatchOption};
ghost use Rattle.tok_lexical.specs.declared.rule.Rule.{Rule};
ghost use Rattle.tok_entries.specs.Texts.{IsLiteralText, IsNegative, IsPiece, IsRawWord, IsUnsigned, IsWord};

use tok_leaves::{is_number_rule, is_quoted_rule};
use tok_lexical::words::{has_no_raw, is_identifier};
use tok_lexical::{Edition, Mode, Rule, error_kind, first_rule};

// How a compiler's own literals are read.
const SOURCE: Mode = Mode::Source(Edition::Edition2024);

// Returns `true` for an identifier, raw or not, and for the root `$crate` of a path, which a
// compiler hands out as one.
pub fn is_word(text: &str) -> bool
    ensures { MatchBool result (IsWord text.now) (IsWord text.now → ⊥) }
{
    is_identifier(text) || is_raw_word(text) || text == "$crate"
}

fn is_raw_word(text: &str) -> bool
    ensures { MatchBool result (IsRawWord text.now) (IsRawWord text.now → ⊥) }
{
    match text.strip_prefix("r#") {
        Some(name) => is_identifier(name) && !has_no_raw(name),
        None => false,
    }
}

// Returns `true` if the rules of a source read all of this text as one literal, or the text after a
// minus sign as one number.
pub fn is_literal(text: &str) -> bool
    ensures { MatchBool result (IsLiteralText text.now) (IsLiteralText text.now → ⊥) }
{
    is_unsigned(text) || is_negative(text)
}

fn is_unsigned(text: &str) -> bool
    ensures { MatchBool result (IsUnsigned text.now) (IsUnsigned text.now → ⊥) }
{
    match rule_of(text) {
        Some(rule) => is_number_rule(rule) || is_quoted_rule(rule),
        None => false,
    }
}

fn is_negative(text: &str) -> bool
    ensures { MatchBool result (IsNegative text.now) (IsNegative text.now → ⊥) }
{
    match text.strip_prefix("-") {
        Some(number) => match rule_of(number) {
            Some(rule) => is_number_rule(rule),
            None => false,
        },
        None => false,
    }
}

// Returns the rule that takes all of this text.
fn rule_of(text: &str) -> Option<Rule>
    ensures { MatchOption result ((r : Rule) → IsPiece r text.now → ⊥)
        (λ r. IsPiece r text.now × ((s : Rule) → IsPiece s text.now → s ≡ r)) }
{
    let Some((rule, after)) = first_rule(SOURCE, text) else {
        return None;
    };
    if after.is_empty() && error_kind(rule, SOURCE, 0, text, "", true).is_none() {
        Some(rule)
    } else {
        None
    }
}

//! Finds the place at which the tokens of a whole source begin.
ghost use Rattle.std.specs.Prelude.{◌≡◌, ℕ, ◌++◌, List, MatchBool, true};
ghost use Rattle.std.specs.Str.{chars};
ghost use Rattle.tok_lexical.specs.Sources.{is_blank_piece, Blanks, OpensAttribute, past_mark, Begins, BeginsAt};
ghost use Rattle.tok_lexical.specs.Fits.{IsFirstFit};
ghost use Rattle.tok_lexical.specs.Rules.{rules_of};
ghost use Rattle.tok_lexical.specs.declared.rule.Rule.{Rule};
ghost use Rattle.tok_lexical.specs.declared.edition.Edition.TheVariants.{Edition2021};
ghost use Rattle.tok_lexical.specs.declared.rule.Mode.TheVariants.{Source};

use crate::comments::{is_block_doc, is_line_doc, past_line};
use crate::edition::Edition;
use crate::rule::{Mode, Rule, first_rule};
use crate::text::{begins_with, front_of, next_char, past_pair};

fn is_blank_piece(rule: Rule, piece: &str) -> bool
    ensures { result ≡ is_blank_piece rule (chars piece.now) }
{
    match rule {
        Rule::Whitespace => true,
        Rule::LineComment => !is_line_doc(piece),
        Rule::BlockComment => !is_block_doc(piece),
        _ => false,
    }
}

/// Returns `text` without its leading white space and comments. Doc comments are not removed.
#[inline(never)]
fn past_blank_pieces(text: &str) -> &str
    ensures blanks { Blanks (chars text.now) (chars result.now) }
    ensures last { (rule : Rule) → (taken after : List ℕ)
        → IsFirstFit (chars result.now) (rules_of (Source Edition2021)) rule taken after
        → is_blank_piece rule taken ≡ true → ⊥ }
{
    let mut rest = text;
    while let Some((rule, after)) = first_rule(Mode::Source(Edition::Edition2021), rest) {
        if !is_blank_piece(rule, front_of(rest, after)) {
            return rest;
        }
        rest = after;
    }
    rest
}

/// Returns `true` if `text`, which begins after `#!`, continues an attribute.
fn opens_attribute(text: &str) -> bool
    ensures { MatchBool result (OpensAttribute (chars text.now))
        (OpensAttribute (chars text.now) → ⊥) }
{
    begins_with(past_blank_pieces(text), '[')
}

/// Returns `text` without its byte order mark, if it has one.
fn past_mark(text: &str) -> &str
    ensures { chars result.now ≡ past_mark (chars text.now) }
{
    match next_char(text) {
        Some(('\u{FEFF}', rest)) => rest,
        _ => text,
    }
}

/// Returns `text` without its shebang line, if it has one.
fn past_shebang(text: &str) -> &str
    ensures { Begins (chars text.now) (chars result.now) }
{
    let Some(rest) = past_pair(text, '#', '!') else {
        return text;
    };
    if opens_attribute(rest) {
        text
    } else {
        past_line(text)
    }
}

/// Returns `text` without its byte order mark and its shebang line, if it has either.
pub fn past_start(text: &str) -> &str
    ensures begins { BeginsAt (chars text.now) (chars result.now) }
    ensures cut { (front : List ℕ) × (chars text.now ≡ front ++ chars result.now) }
{
    past_shebang(past_mark(text))
}

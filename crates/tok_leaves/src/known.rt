//! Creates identifiers, puncts and literals from valid texts, without checking the texts.
//!
//! The caller has proved that a text is valid, or has just lexed the text.
ghost use Rattle.std.specs.Prelude.{◌≡◌, true, IfOk};
ghost use Rattle.std.specs.Str.{chars};
ghost use Rattle.tok_leaves.specs.Leaves.{ident, ident_of, literal, literal_of, punct, punct_of};
ghost use Rattle.tok_lexical.specs.Characters.{is_punct_or_apostrophe};
ghost use Rattle.tok_lexical.specs.Words.{IsIdentifier};

use crate::ident::Ident;
use crate::literal::Literal;
use crate::punct::{Punct, Spacing};
use crate::span::Span;
use crate::text::Text;
use std::alloc::{AllocError, Global};

/// Creates an identifier from `text`, without checking that `text` is an identifier.
///
/// Returns an error if the allocation fails.
///
/// # Requires
///
/// `text` must be an identifier.
pub fn identifier(alloc: Global, text: &str, span: Span) -> Result<Ident, AllocError>
    requires { IsIdentifier (chars text.now) }
    ensures { IfOk result (λ i. ident_of i ≡ ident text.now span) }
{
    let text = Text::from_str(alloc, text)?;
    Ok(unchecked_ident(text, span))
}

/// Creates a punct from `ch`, without checking that `ch` is a punctuation character.
///
/// # Requires
///
/// `ch` must be a punctuation character or an apostrophe.
pub fn punct(ch: char, spacing: Spacing, span: Span) -> Punct
    requires { is_punct_or_apostrophe ch ≡ true }
    ensures { punct_of result ≡ punct ch spacing span }
{
    unchecked_punct(ch, spacing, span)
}

/// Creates an identifier from a text that a lexer has read as an identifier.
///
/// The call does not check the text.
pub fn unchecked_ident(text: Text, span: Span) -> Ident
    ensures { ident_of result ≡ ident text span }
{
    Ident::unchecked(text, span)
}

/// Creates a punct from a character that a lexer has read as a punct.
///
/// The call does not check the character.
pub fn unchecked_punct(ch: char, spacing: Spacing, span: Span) -> Punct
    ensures { punct_of result ≡ punct ch spacing span }
{
    Punct::unchecked(ch, spacing, span)
}

/// Creates a literal from a text that a lexer has read as a literal.
///
/// The call does not check the text.
pub fn unchecked_literal(text: Text, span: Span) -> Literal
    ensures { literal_of result ≡ literal text span }
{
    Literal::unchecked(text, span)
}

//! Floating-point literals.
ghost use Rattle.std.specs.Prelude.{◌≡◌, IfOk, Some, codes, SomeIff, true};
ghost use Rattle.tok_core.specs.Forest.{leaf, no_trees, tree};
ghost use Rattle.tok_leaves.specs.Leaves.{leaf_span, leaf_text, literal_of};
ghost use Rattle.tok_types.specs.Looks.{PeeksFor, IsText};
ghost use Rattle.tok_lexical.specs.Numbers.{starts_digit};
ghost use Rattle.tok_values.specs.Floats.{float_value};
ghost use Rattle.syn_parse.specs.Takings.{lower, told};
ghost use Rattle.syn_literals.specs.Kinds.{KindParses, is_float, read_literal_of};
ghost use Rattle.syn_literals.specs.TakeLiterals.{lowers_float, float_first, take_float};

use crate::integer::is_integer;
use crate::kind::{Kind, parse_kind, peek_kind};
use std::alloc::{AllocError, Global};
use std::fmt::{self, Display, Formatter, Write};
use std::marker::Model;
use syn_parse::{Parse, ParseStream, Result};
use tok_buffer::Cursor;
use tok_core::{Literal, Span, ToTokens, TokenStream};
use tok_types::token::Token;
use tok_values::LiteralExt;

/// A floating-point literal, such as `1.5`, with or without a suffix.
///
/// Every number literal that is not an integer literal is a floating-point literal. A minus sign is
/// a separate token.
///
/// Contracts represent a `LitFloat` as its `Literal`.
#[derive(Drop, Debug)]
pub struct LitFloat {
    token: Literal,
}

impl Model for LitFloat {
    ghost use Rattle.tok_leaves.specs.declared.literal.Literal.{Literal};

    ghost Value = { Literal };

    ghost view = { λ x. x.token };
}

// Returns `true` if the text begins with a decimal digit.
fn begins_digit(text: &str) -> bool
    ensures { result ≡ starts_digit text.now }
{
    match text.as_bytes().first() {
        Some(byte) => byte.is_ascii_digit(),
        None => false,
    }
}

impl Kind for LitFloat {
    ghost accepts = { is_float };

    ghost words = { codes "expected floating point literal" };

    fn accepts(literal: &Literal) -> bool {
        begins_digit(literal.as_str()) && !is_integer(literal)
    }

    fn words() -> &'static str {
        "expected floating point literal"
    }
}

impl LitFloat {
    /// Creates a `LitFloat` from a floating-point literal.
    ///
    /// The literal may have any suffix. If `literal` is not a floating-point literal, the call
    /// drops `literal` and returns `None`.
    pub fn from_literal(literal: Literal) -> Option<LitFloat>
        ensures { SomeIff result (is_float (leaf_text (literal_of literal)) ≡ true) literal }
    {
        if LitFloat::accepts(&literal) {
            Some(LitFloat { token: literal })
        } else {
            None
        }
    }

    /// Returns a reference to the `Literal` in this `LitFloat`.
    pub fn token(&self) -> &Literal
        ensures { result.now ≡ self.now }
    {
        &self.token
    }

    /// Returns the span of the literal.
    pub fn span(&self) -> Span
        ensures { result ≡ leaf_span (literal_of self.now) }
    {
        self.token.span()
    }

    /// Returns the `f64` that is nearest to the literal's value.
    ///
    /// Returns `None` if the literal has a suffix other than `f32` and `f64`, and an error if an
    /// allocation fails.
    pub fn value(&self, alloc: Global) -> std::result::Result<Option<f64>, AllocError>
        ensures { IfOk result (λ value. value ≡ float_value (leaf_text (literal_of self.now))) }
    {
        self.token.float_value(alloc)
    }
}

impl Token for LitFloat {
    ghost peeks = { PeeksFor (read_literal_of is_float) };

    ghost sees = { Some float_first };

    ghost shown = { IsText (codes "floating point literal") };

    fn peek(cursor: Cursor<'_>) -> bool {
        peek_kind::<LitFloat>(cursor)
    }

    fn display() -> &'static str {
        "floating point literal"
    }
}

impl Parse for LitFloat {
    ghost parses = { KindParses is_float (codes "expected floating point literal") };

    ghost takes = { told (λ x. x) take_float (lower lowers_float) };

    fn parse(input: ParseStream<'_, '_>) -> Result<Self> {
        parsed(input)
    }
}

// Does what `LitFloat::parse` does.
fn parsed(input: ParseStream<'_, '_>) -> Result<LitFloat>
    ensures { KindParses is_float (codes "expected floating point literal")
        input.old result input.new }
{
    let token = parse_kind::<LitFloat>(input)?;
    Ok(LitFloat { token })
}

impl ToTokens for LitFloat {
    ghost printed = { λ x. tree (leaf (literal_of x)) no_trees };

    fn to_tokens(&self, tokens: &mut TokenStream) -> std::result::Result<(), AllocError> {
        self.token.to_tokens(tokens)
    }
}

/// Clones the literal and its span.
impl Clone for LitFloat {
    ghost is_clone = { λ x y. y ≡ x };

    fn clone(&self) -> std::result::Result<LitFloat, AllocError> {
        Ok(LitFloat {
            token: self.token.clone()?,
        })
    }
}

/// Writes the text of the literal.
impl Display for LitFloat {
    ghost output = { λ x. Some (leaf_text (literal_of x)) };

    fn fmt<W: Write>(&self, f: &mut Formatter<W>) -> fmt::Result {
        f.write_str(self.token.as_str())
    }
}

//! Integer literals.
ghost use Rattle.std.specs.Prelude.{◌≡◌, Some, codes, SomeIff, true};
ghost use Rattle.tok_core.specs.Forest.{leaf, no_trees, tree};
ghost use Rattle.std.specs.Str.{chars};
ghost use Rattle.tok_leaves.specs.Leaves.{leaf_span, leaf_text, literal_of};
ghost use Rattle.tok_types.specs.Looks.{PeeksFor, IsText};
ghost use Rattle.tok_values.specs.Values.{HasValue, integer_value};
ghost use Rattle.syn_parse.specs.Takings.{lower, told};
ghost use Rattle.syn_literals.specs.Kinds.{KindParses, is_integer, read_literal_of};
ghost use Rattle.syn_literals.specs.TakeLiterals.{lowers_integer, integer_first, take_integer};

use crate::kind::{Kind, parse_kind, peek_kind};
use std::alloc::AllocError;
use std::fmt::{self, Display, Formatter, Write};
use std::marker::Model;
use syn_parse::{Parse, ParseStream, Result};
use tok_buffer::Cursor;
use tok_core::{Literal, Span, ToTokens, TokenStream};
use tok_types::token::Token;
use tok_values::{Integer, IntegerFault, LiteralExt};

/// An integer literal, such as `1` or `0xFFu8`, with or without a suffix.
///
/// A minus sign is a separate token.
///
/// Contracts represent a `LitInt` as its `Literal`.
///
/// # Examples
///
/// ```rust
/// let literal: LitInt = input.parse()?;
/// match literal.value() {
///     Ok(integer) => Ok(integer.value),
///     Err(fault) => Err(Fault::at(input.allocator(), literal.span(), fault)),
/// }
/// ```
#[derive(Drop, Debug)]
pub struct LitInt {
    token: Literal,
}

impl Model for LitInt {
    ghost use Rattle.tok_leaves.specs.declared.literal.Literal.{Literal};

    ghost Value = { Literal };

    ghost view = { λ n. n.token };
}

// Returns `true` for an integer of any size.
pub(crate) fn is_integer(literal: &Literal) -> bool
    ensures { result ≡ is_integer (leaf_text (literal_of literal.now)) }
{
    match literal.integer_value() {
        Ok(_) | Err(IntegerFault::TooLarge) => true,
        Err(IntegerFault::NotInteger) => false,
    }
}

impl Kind for LitInt {
    ghost accepts = { is_integer };

    ghost words = { codes "expected integer literal" };

    fn accepts(literal: &Literal) -> bool {
        is_integer(literal)
    }

    fn words() -> &'static str {
        "expected integer literal"
    }
}

impl LitInt {
    /// Creates a `LitInt` from an integer literal.
    ///
    /// The literal may have any suffix. If `literal` is not an integer literal, the call drops
    /// `literal` and returns `None`.
    pub fn from_literal(literal: Literal) -> Option<LitInt>
        ensures { SomeIff result (is_integer (leaf_text (literal_of literal)) ≡ true) literal }
    {
        if LitInt::accepts(&literal) {
            Some(LitInt { token: literal })
        } else {
            None
        }
    }

    /// Returns a reference to the `Literal` in this `LitInt`.
    pub fn token(&self) -> &Literal
        ensures { result.now ≡ self.now }
    {
        &self.token
    }

    /// Returns the span of the literal.
    pub fn span(&self) -> Span
        ensures { result ≡ leaf_span (literal_of self.now) }
    {
        self.token.span()
    }

    /// Returns the value and the suffix of the literal.
    ///
    /// The suffix is empty if the literal has none. Returns `IntegerFault::TooLarge` if the value
    /// is greater than `u64::MAX`.
    pub fn value(&self) -> std::result::Result<Integer<'_>, IntegerFault>
        ensures { HasValue (integer_value (chars (leaf_text (literal_of self.now)))) result }
    {
        self.token.integer_value()
    }
}

impl Token for LitInt {
    ghost peeks = { PeeksFor (read_literal_of is_integer) };

    ghost sees = { Some integer_first };

    ghost shown = { IsText (codes "integer literal") };

    fn peek(cursor: Cursor<'_>) -> bool {
        peek_kind::<LitInt>(cursor)
    }

    fn display() -> &'static str {
        "integer literal"
    }
}

impl Parse for LitInt {
    ghost parses = { KindParses is_integer (codes "expected integer literal") };

    ghost takes = { told (λ n. n) take_integer (lower lowers_integer) };

    fn parse(input: ParseStream<'_, '_>) -> Result<Self> {
        parsed(input)
    }
}

// Does what `LitInt::parse` does.
fn parsed(input: ParseStream<'_, '_>) -> Result<LitInt>
    ensures { KindParses is_integer (codes "expected integer literal") input.old result input.new }
{
    let token = parse_kind::<LitInt>(input)?;
    Ok(LitInt { token })
}

impl ToTokens for LitInt {
    ghost printed = { λ n. tree (leaf (literal_of n)) no_trees };

    fn to_tokens(&self, tokens: &mut TokenStream) -> std::result::Result<(), AllocError> {
        self.token.to_tokens(tokens)
    }
}

/// Clones the literal and its span.
impl Clone for LitInt {
    ghost is_clone = { λ n m. m ≡ n };

    fn clone(&self) -> std::result::Result<LitInt, AllocError> {
        Ok(LitInt {
            token: self.token.clone()?,
        })
    }
}

/// Writes the text of the literal.
impl Display for LitInt {
    ghost output = { λ n. Some (leaf_text (literal_of n)) };

    fn fmt<W: Write>(&self, f: &mut Formatter<W>) -> fmt::Result {
        f.write_str(self.token.as_str())
    }
}

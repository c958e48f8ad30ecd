//! String literals.
ghost use Rattle.std.specs.Prelude.{◌≡◌, IfOk, Some, codes, option_map, string_bytes, SomeIff, true};
ghost use Rattle.tok_core.specs.Forest.{leaf, no_trees, tree};
ghost use Rattle.tok_leaves.specs.Leaves.{leaf_span, leaf_text, literal_of};
ghost use Rattle.tok_types.specs.Looks.{PeeksFor, IsText};
ghost use Rattle.syn_parse.specs.Takings.{lower, told};
ghost use Rattle.syn_literals.specs.Kinds.{KindParses, read_literal_of};
ghost use Rattle.syn_literals.specs.TakeLiterals.{lowers_string, string_first, take_string};
ghost use Rattle.syn_literals.specs.TextValues.{text_value};
ghost use Rattle.tok_values.specs.Suffixed.{begins_string};

use crate::kind::{Kind, parse_kind, peek_kind};
use crate::raw::raw_text;
use std::alloc::{AllocError, Global};
use std::fmt::{self, Display, Formatter, Write};
use std::marker::Model;
use syn_parse::{Parse, ParseStream, Result};
use tok_buffer::Cursor;
use tok_core::{Literal, Span, ToTokens, TokenStream};
use tok_types::token::Token;
use tok_values::LiteralExt;

/// A string literal, such as `"text"` or `r"text"`.
///
/// A byte string or a C string is not a `LitStr`.
///
/// Contracts represent a `LitStr` as its `Literal`.
///
/// # Examples
///
/// ```rust
/// let path: LitStr = input.parse()?;
/// let path = path.value(input.allocator())?;
/// ```
#[derive(Drop, Debug)]
pub struct LitStr {
    token: Literal,
}

impl Model for LitStr {
    ghost use Rattle.tok_leaves.specs.declared.literal.Literal.{Literal};

    ghost Value = { Literal };

    ghost view = { λ s. s.token };
}

impl Kind for LitStr {
    ghost accepts = { begins_string };

    ghost words = { codes "expected string literal" };

    fn accepts(literal: &Literal) -> bool {
        matches!(literal.as_str().as_bytes().first(), Some(b'"' | b'r'))
    }

    fn words() -> &'static str {
        "expected string literal"
    }
}

impl LitStr {
    /// Creates a `LitStr` from a string literal, which may be raw.
    ///
    /// The literal may have any suffix. If `literal` is not a string literal, the call drops
    /// `literal` and returns `None`.
    pub fn from_literal(literal: Literal) -> Option<LitStr>
        ensures { SomeIff result (begins_string (leaf_text (literal_of literal)) ≡ true) literal }
    {
        if LitStr::accepts(&literal) {
            Some(LitStr { token: literal })
        } else {
            None
        }
    }

    /// Returns a reference to the `Literal` in this `LitStr`.
    pub fn token(&self) -> &Literal
        ensures { result.now ≡ self.now }
    {
        &self.token
    }

    /// Returns the span of the literal.
    pub fn span(&self) -> Span
        ensures { result ≡ leaf_span (literal_of self.now) }
    {
        self.token.span()
    }

    /// Returns the value of the literal, or `None` if the literal has a suffix.
    ///
    /// The value of a raw string is the text between its quotes. Returns an error if an allocation
    /// fails.
    pub fn value(&self, alloc: Global) -> std::result::Result<Option<String>, AllocError>
        ensures { IfOk result (λ answer. option_map string_bytes answer
            ≡ text_value (leaf_text (literal_of self.now))) }
    {
        match raw_text(self.token.as_str()) {
            Some(value) => Ok(Some(String::from_str(alloc, value)?)),
            None => self.token.string_value(alloc),
        }
    }
}

impl Token for LitStr {
    ghost peeks = { PeeksFor (read_literal_of begins_string) };

    ghost sees = { Some string_first };

    ghost shown = { IsText (codes "string literal") };

    fn peek(cursor: Cursor<'_>) -> bool {
        peek_kind::<LitStr>(cursor)
    }

    fn display() -> &'static str {
        "string literal"
    }
}

impl Parse for LitStr {
    ghost parses = { KindParses begins_string (codes "expected string literal") };

    ghost takes = { told (λ s. s) take_string (lower lowers_string) };

    fn parse(input: ParseStream<'_, '_>) -> Result<Self> {
        parsed(input)
    }
}

// Does what `LitStr::parse` does.
fn parsed(input: ParseStream<'_, '_>) -> Result<LitStr>
    ensures { KindParses begins_string (codes "expected string literal") input.old result
        input.new }
{
    let token = parse_kind::<LitStr>(input)?;
    Ok(LitStr { token })
}

impl ToTokens for LitStr {
    ghost printed = { λ s. tree (leaf (literal_of s)) no_trees };

    fn to_tokens(&self, tokens: &mut TokenStream) -> std::result::Result<(), AllocError> {
        self.token.to_tokens(tokens)
    }
}

/// Clones the literal and its span.
impl Clone for LitStr {
    ghost is_clone = { λ s t. t ≡ s };

    fn clone(&self) -> std::result::Result<LitStr, AllocError> {
        Ok(LitStr {
            token: self.token.clone()?,
        })
    }
}

/// Writes the text of the literal.
impl Display for LitStr {
    ghost output = { λ s. Some (leaf_text (literal_of s)) };

    fn fmt<W: Write>(&self, f: &mut Formatter<W>) -> fmt::Result {
        f.write_str(self.token.as_str())
    }
}

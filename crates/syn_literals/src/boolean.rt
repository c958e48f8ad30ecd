//! The literals `true` and `false`, which are identifiers in a token stream.
ghost use Rattle.std.specs.Prelude.{◌≡◌, Some, codes};
ghost use Rattle.tok_core.specs.Forest.{leaf, no_trees, tree};
ghost use Rattle.tok_leaves.specs.Leaves.{ident};
ghost use Rattle.tok_buffer.specs.Cursors.{place_of};
ghost use Rattle.tok_buffer.specs.Reads.{read_word};
ghost use Rattle.tok_types.specs.Looks.{PeeksFor, IsText};
ghost use Rattle.syn_parse.specs.Takings.{lower, told};
ghost use Rattle.syn_literals.specs.Kinds.{BoolParses, bool_text, is_bool, read_bool};
ghost use Rattle.syn_literals.specs.TakeLiterals.{bool_first, lowers_bool, take_bool};

use std::alloc::AllocError;
use std::fmt::{self, Display, Formatter, Write};
use syn_parse::parsing::keyword;
use syn_parse::{Parse, ParseStream, Result};
use tok_buffer::Cursor;
use tok_core::known::identifier;
use tok_core::{Span, ToTokens, TokenStream, TokenTree};
use tok_types::token::Token;
use tok_values::bool_value;

/// A boolean literal, `true` or `false`.
///
/// # Examples
///
/// ```rust
/// let is_public = input.parse::<LitBool>()?.value;
/// ```
#[derive(Clone, Copy, Debug)]
pub struct LitBool {
    pub value: bool,
    pub span: Span,
}

impl LitBool {
    /// Creates a boolean literal with the value `value` and the span `span`.
    pub fn new(value: bool, span: Span) -> Self
        ensures value { result.value ≡ value }
        ensures span { result.span ≡ span }
    {
        LitBool { value, span }
    }

    /// Returns the span of the literal.
    pub fn span(&self) -> Span
        ensures { result ≡ self.now.span }
    {
        self.span
    }
}

// Returns the text of a value.
fn text_of(value: bool) -> &'static str
    ensures { result.now ≡ bool_text value }
{
    if value { "true" } else { "false" }
}

// Returns the value that is next.
fn next_bool(cursor: Cursor<'_>) -> Option<bool>
    ensures { result ≡ read_bool (place_of cursor.entry) }
{
    let (ident, _) = cursor.ident()?;
    bool_value(ident)
}

impl Token for LitBool {
    ghost peeks = { PeeksFor (read_word is_bool) };

    ghost sees = { Some bool_first };

    ghost shown = { IsText (codes "boolean literal") };

    fn peek(cursor: Cursor<'_>) -> bool {
        next_bool(cursor).is_some()
    }

    fn display() -> &'static str {
        "boolean literal"
    }
}

impl Parse for LitBool {
    ghost parses = { BoolParses };

    ghost takes = { told (λ b. b) take_bool (lower lowers_bool) };

    fn parse(input: ParseStream<'_, '_>) -> Result<Self> {
        boolean(input)
    }
}

// Does what `LitBool::parse` does.
fn boolean(input: ParseStream<'_, '_>) -> Result<LitBool>
    ensures { BoolParses input.old result input.new }
{
    let Some(value) = next_bool(input.cursor()) else {
        return Err(input.error("expected boolean literal"));
    };
    let span = keyword(input, text_of(value))?;
    Ok(LitBool { value, span })
}

/// Writes the literal as the identifier `true` or `false`.
impl ToTokens for LitBool {
    ghost printed = { λ b. tree (leaf (ident (bool_text b.value) b.span)) no_trees };

    fn to_tokens(&self, tokens: &mut TokenStream) -> std::result::Result<(), AllocError> {
        let ident = identifier(tokens.allocator(), text_of(self.value), self.span)?;
        tokens.append(TokenTree::Ident(ident))
    }
}

/// Writes `true` or `false`.
impl Display for LitBool {
    ghost output = { λ b. Some (bool_text b.value) };

    fn fmt<W: Write>(&self, f: &mut Formatter<W>) -> fmt::Result {
        f.write_str(text_of(self.value))
    }
}

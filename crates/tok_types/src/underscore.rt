//! The token type of the underscore.
ghost use Rattle.std.specs.Prelude.{◌≡◌, [], ◌∷◌, codes, Some};
ghost use Rattle.tok_leaves.specs.Spans.{call_site};
ghost use Rattle.tok_buffer.specs.Reads.{read_keyword};
ghost use Rattle.tok_types.specs.Looks.{PeeksFor, IsText};
ghost use Rattle.tok_types.specs.Printed.{first_span, word};
ghost use Rattle.tok_types.specs.Sees.{underscore_first};
ghost use Rattle.tok_types.specs.Texts.{in_token};

use crate::look::{Token, append_word};
use std::alloc::AllocError;
use std::fmt::{self, Debug, Formatter, Write};
use tok_buffer::Cursor;
use tok_core::{Span, ToTokens, TokenStream};

/// The token `_`. All values of this type are equal.
///
/// In a token stream, `_` is an identifier.
#[derive(Clone, Copy)]
#[derive_where(PartialEq, Eq, Hash)]
pub struct Underscore {
    #[derive_where(skip(EqHashOrd))]
    pub spans: [Span; 1],
}

impl Underscore {
    /// Creates the token `_`. The only element of `spans` is the span of the token.
    pub fn new(spans: [Span; 1]) -> Self
        ensures { result.spans ≡ spans }
    {
        Underscore { spans }
    }

    /// Creates the token `_` with the span `span`.
    pub fn from_span(span: Span) -> Self
        ensures { result.spans ≡ span ∷ [] }
    {
        Underscore { spans: [span] }
    }

    /// Returns the span of the token `_`.
    pub fn span(&self) -> Span
        ensures { self.now.spans ≡ result ∷ [] }
    {
        self.spans[0]
    }

    /// Sets the span of the token `_`.
    pub fn set_span(&mut self, span: Span)
        ensures { self.new.spans ≡ span ∷ [] }
    {
        self.spans = [span];
    }
}

impl Token for Underscore {
    ghost peeks = { PeeksFor (read_keyword (codes "_")) };

    ghost sees = { Some underscore_first };

    ghost shown = { IsText (codes "`_`") };

    #[tactic(auto, using(crate::proofs::Seen::underscore_seen))]
    fn peek(cursor: Cursor<'_>) -> bool {
        cursor.peek_keyword("_")
    }

    fn display() -> &'static str {
        "`_`"
    }
}

/// Writes the identifier `_`.
impl ToTokens for Underscore {
    ghost printed = { λ u. word (codes "_") (first_span u.spans) };

    fn to_tokens(&self, tokens: &mut TokenStream) -> Result<(), AllocError> {
        append_word("_", self.span(), tokens)
    }
}

/// Creates the token `_`. Its span is the call site.
impl Default for Underscore {
    ghost is_default = { λ u. u.spans ≡ call_site ∷ [] };

    fn default() -> Self {
        Underscore::from_span(Span::call_site())
    }
}

/// Writes `Token![_]`.
impl Debug for Underscore {
    ghost debug_output = { λ _. Some (in_token (codes "_")) };

    fn fmt<W: Write>(&self, f: &mut Formatter<W>) -> fmt::Result {
        f.write_str("Token![_]")
    }
}

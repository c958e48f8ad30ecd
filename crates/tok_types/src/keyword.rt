//! Token types for keywords.
ghost use Rattle.std.specs.Prelude.{◌≡◌, Some};
ghost use Rattle.tok_leaves.specs.Spans.{call_site};
ghost use Rattle.tok_buffer.specs.Reads.{read_keyword};
ghost use Rattle.tok_types.specs.Looks.{PeeksFor, IsText};
ghost use Rattle.tok_types.specs.Printed.{word};
ghost use Rattle.tok_types.specs.Texts.{keyword_text, in_backquotes, in_token};
ghost use Rattle.tok_types.specs.Sees.{keyword_first};

use crate::look::{Token, append_word};
use crate::texts::{keyword_display, keyword_text};
use std::alloc::AllocError;
use std::fmt::{self, Debug, Formatter, Write};
use tok_buffer::Cursor;
use tok_core::{Span, ToTokens, TokenStream};

/// The token type of the keyword with the number `K` in the table of keywords.
///
/// For example, `token::Fn` is `Keyword<18>`. All values of `Keyword<K>` are equal.
///
/// If `K` is past the end of the table, the keyword has no text, a peek never finds it, and it is
/// written as no tokens.
#[derive(Clone, Copy)]
#[derive_where(PartialEq, Eq, Hash)]
pub struct Keyword<const K: usize> {
    #[derive_where(skip(EqHashOrd))]
    pub span: Span,
}

impl<const K: usize> Keyword<K> {
    /// Creates the keyword with the span `span`.
    pub fn new(span: Span) -> Self
        ensures { result.span ≡ span }
    {
        Keyword { span }
    }

    /// Creates the keyword with the span `span`. This function is the same as `new`.
    ///
    /// Every token type has a function `from_span`.
    pub fn from_span(span: Span) -> Self
        ensures { result.span ≡ span }
    {
        Keyword::new(span)
    }
}

impl<const K: usize> Token for Keyword<K> {
    ghost peeks = { PeeksFor (read_keyword (keyword_text K)) };

    ghost sees = { Some (keyword_first K) };

    ghost shown = { IsText (in_backquotes (keyword_text K)) };

    #[tactic(auto, using(crate::proofs::Seen::keyword_seen))]
    fn peek(cursor: Cursor<'_>) -> bool {
        cursor.peek_keyword(keyword_text(K))
    }

    fn display() -> &'static str {
        keyword_display(K)
    }
}

/// Writes an identifier with the text of the keyword.
impl<const K: usize> ToTokens for Keyword<K> {
    ghost printed = { λ k. word (keyword_text K) k.span };

    fn to_tokens(&self, tokens: &mut TokenStream) -> Result<(), AllocError> {
        append_word(keyword_text(K), self.span, tokens)
    }
}

/// Creates the keyword with the call site as its span.
impl<const K: usize> Default for Keyword<K> {
    ghost is_default = { λ k. k.span ≡ call_site };

    fn default() -> Self {
        Keyword::new(Span::call_site())
    }
}

/// Writes `Token![..]` with the text of the keyword, such as `Token![fn]`.
impl<const K: usize> Debug for Keyword<K> {
    ghost debug_output = { λ _. Some (in_token (keyword_text K)) };

    fn fmt<W: Write>(&self, f: &mut Formatter<W>) -> fmt::Result {
        write!(f, "Token![{}]", keyword_text(K))
    }
}

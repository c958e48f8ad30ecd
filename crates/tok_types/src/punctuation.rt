//! Token types for punctuation.
ghost use Rattle.std.specs.Prelude.{◌≡◌, [], ◌∷◌, replicate, Some};
ghost use Rattle.tok_leaves.specs.Spans.{call_site};
ghost use Rattle.tok_buffer.specs.Reads.{read_punctuation};
ghost use Rattle.tok_types.specs.Looks.{PeeksFor, IsText};
ghost use Rattle.tok_types.specs.Printed.{puncts};
ghost use Rattle.tok_types.specs.Texts.{punctuation_word, in_backquotes, in_token};
ghost use Rattle.tok_types.specs.Sees.{punctuation_first};

use crate::look::Token;
use crate::texts::{punctuation_display, punctuation_text};
use crate::token::printing;
use std::alloc::AllocError;
use std::fmt::{self, Debug, Formatter, Write};
use tok_buffer::Cursor;
use tok_core::{Span, ToTokens, TokenStream};

/// The token type of the punctuation with the number `K`, which has `N` characters.
///
/// For example, `token::PathSep` is `Punctuation<28, 2>`. All values of `Punctuation<K, N>` are
/// equal.
///
/// If `K` is past the end of the table of punctuation tokens, the token has no text, a peek never
/// finds it, and it is written as no tokens. The same applies if the text in the table does not
/// have `N` characters.
#[derive(Clone, Copy)]
#[derive_where(PartialEq, Eq, Hash)]
pub struct Punctuation<const K: usize, const N: usize> {
    /// The spans of the characters, in order.
    #[derive_where(skip(EqHashOrd))]
    pub spans: [Span; N],
}

impl<const K: usize, const N: usize> Punctuation<K, N> {
    /// Creates the token with the spans `spans`, one for each character.
    pub fn new(spans: [Span; N]) -> Self
        ensures { result.spans ≡ spans.entry }
    {
        Punctuation { spans }
    }

    /// Creates the token with `span` as the span of every character.
    pub fn from_span(span: Span) -> Self
        ensures { result.spans ≡ replicate N span }
    {
        Punctuation { spans: [span; N] }
    }

    // Returns the text, or the empty text unless it has `N` characters.
    fn text() -> &'static str
        ensures { result.now ≡ punctuation_word K N }
    {
        let text = punctuation_text(K);
        if text.len() == N { text } else { "" }
    }
}

impl<const K: usize> Punctuation<K, 1> {
    /// Returns the span of this token, which has only one character.
    pub fn span(&self) -> Span
        ensures { self.now.spans ≡ result ∷ [] }
    {
        self.spans[0]
    }

    /// Sets the span of this token, which has only one character.
    pub fn set_span(&mut self, span: Span)
        ensures { self.new.spans ≡ span ∷ [] }
    {
        self.spans = [span];
    }
}

impl<const K: usize, const N: usize> Token for Punctuation<K, N> {
    ghost peeks = { PeeksFor (read_punctuation (punctuation_word K N)) };

    ghost sees = { Some (punctuation_first K N) };

    ghost shown = { IsText (in_backquotes (punctuation_word K N)) };

    fn peek(cursor: Cursor<'_>) -> bool {
        cursor.peek_punct(Self::text())
    }

    fn display() -> &'static str {
        if Self::text().is_empty() {
            "``"
        } else {
            punctuation_display(K)
        }
    }
}

/// Writes a punct for each character. Each punct except the last is joint.
impl<const K: usize, const N: usize> ToTokens for Punctuation<K, N> {
    ghost printed = { λ p. puncts (punctuation_word K N) p.spans };

    fn to_tokens(&self, tokens: &mut TokenStream) -> Result<(), AllocError> {
        printing::punct(Self::text(), &self.spans, tokens)
    }
}

/// Creates the punctuation token. The span of every character is the call site.
impl<const K: usize, const N: usize> Default for Punctuation<K, N> {
    ghost is_default = { λ p. p.spans ≡ replicate N call_site };

    fn default() -> Self {
        Punctuation::from_span(Span::call_site())
    }
}

/// Writes `Token![..]` with the text of the token, such as `Token![::]`.
impl<const K: usize, const N: usize> Debug for Punctuation<K, N> {
    ghost debug_output = { λ _. Some (in_token (punctuation_word K N)) };

    fn fmt<W: Write>(&self, f: &mut Formatter<W>) -> fmt::Result {
        write!(f, "Token![{}]", Self::text())
    }
}

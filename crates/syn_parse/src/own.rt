//! Custom keywords, and methods that parse an identifier with a given text.
ghost use Rattle.std.specs.Prelude.{◌≡◌, ℕ, List, Some};
ghost use Rattle.tok_leaves.specs.Spans.{call_site};
ghost use Rattle.tok_buffer.specs.Reads.{read_keyword};
ghost use Rattle.tok_types.specs.Looks.{PeeksFor, IsText};
ghost use Rattle.tok_types.specs.Sees.{Sees};
ghost use Rattle.tok_types.specs.Texts.{in_backquotes, in_token};
ghost use Rattle.syn_parse.specs.Owned.{own_first, own_word, take_own};
ghost use Rattle.syn_parse.specs.Parses.{WordParses};
ghost use Rattle.syn_parse.specs.Takes.{Takes};
ghost use Rattle.syn_parse.specs.Takings.{lower, told};
ghost use Rattle.syn_parse.specs.Lighter.{lowers_token};

use crate::fault::Result;
use crate::parse::Parse;
use crate::parsing::keyword;
use crate::stream::{ParseBuffer, ParseStream};
use std::alloc::AllocError;
use std::fmt;
use std::fmt::{Debug, Display, Formatter, Write};
use std::marker::PhantomData;
use tok_buffer::Cursor;
use tok_core::{Ident, MakeFault, Span, ToTokens, TokenStream, TokenTree};
use tok_types::token::Token;

/// A type that defines the text of a custom keyword.
///
/// If `W` implements `Word`, then `Own<W>` is the token type of the keyword.
///
/// # Examples
///
/// ```rust
/// struct ServerWord;
///
/// impl Word for ServerWord {
///     ghost text = { codes "server" };
///
///     fn display() -> &'static str {
///         "`server`"
///     }
/// }
///
/// type Server = Own<ServerWord>;
/// ```
pub trait Word {
    ghost text: { List ℕ };

    /// Returns the text of the keyword in backquotes. Error messages use this text as the name of
    /// the keyword.
    fn display() -> &'static str
        ensures { result.now ≡ in_backquotes text };

    /// Returns the text of the keyword.
    final fn text() -> &'static str
        ensures { result.now ≡ text }
    {
        unquoted(Self::display())
    }
}

// Returns the text that is in backquotes.
// Inlined: callers know the text, so it is cut at compile time.
#[inline(always)]
#[tactic(auto, using(crate::proofs::Owned::after_quote, crate::proofs::Owned::before_quote, crate::proofs::Owned::text_is))]
fn unquoted(quoted: &str) -> &str
    requires { (text : List ℕ) × (quoted.now ≡ in_backquotes text) }
    ensures { (text : List ℕ) → quoted.now ≡ in_backquotes text → result.now ≡ text }
{
    let (_, rest) = quoted.split_at(1);
    let (text, _) = rest.split_at(rest.len() - 1);
    text
}

impl<'a> ParseBuffer<'a> {
    /// Parses an identifier with the text `text`, and returns its span.
    ///
    /// If this identifier is not next, returns an error that names `text` in backquotes, and the
    /// stream does not move. To use a keyword with `Lookahead1`, or to write a keyword, create a
    /// type with `Own`.
    ///
    /// # Examples
    ///
    /// ```rust
    /// let span = input.parse_word("target")?;
    /// ```
    #[inline(always)]
    #[tactic(auto, using(crate::proofs::Told::own_told))]
    pub fn parse_word(&mut self, text: &str) -> Result<Span>
        ensures reads { WordParses (λ span. span) text.now self.old result self.new }
        ensures takes { Takes (take_own text.now) self.old result self.new }
    {
        keyword(self, text)
    }

    /// Returns `true` if the next token is an identifier with the text `text`.
    ///
    /// The stream does not move.
    ///
    /// # Examples
    ///
    /// ```rust
    /// let is_target = input.peek_word("target");
    /// ```
    #[inline(always)]
    #[tactic(auto, using(crate::proofs::Owned::own_seen))]
    pub fn peek_word(&self, text: &str) -> bool
        ensures peeks { PeeksFor (read_keyword text.now) self.now.place result }
        ensures sees { Sees (Some (own_first text.now)) self.now.place result }
    {
        self.cursor().peek_keyword(text)
    }
}

/// The token type of a custom keyword, which is an identifier with the text of `W`.
///
/// Like the types in `token`, `Own<W>` can be parsed, peeked and written. All values of `Own<W>`
/// are equal.
#[derive_where(Clone, Copy, PartialEq, Eq, Hash)]
pub struct Own<W> {
    #[derive_where(skip(EqHashOrd))]
    pub span: Span,
    #[derive_where(skip(EqHashOrd))]
    word: PhantomData<W>,
}

impl<W: Word> Own<W> {
    /// Creates the keyword with the span `span`.
    pub fn new(span: Span) -> Self
        ensures { result.span ≡ span }
    {
        Own {
            span,
            word: PhantomData,
        }
    }
}

impl<W: Word> Token for Own<W> {
    ghost peeks = { PeeksFor (read_keyword W.text) };

    ghost sees = { Some (own_first W.text) };

    ghost shown = { IsText (in_backquotes W.text) };

    #[tactic(auto, using(crate::proofs::Owned::own_seen))]
    fn peek(cursor: Cursor<'_>) -> bool {
        cursor.peek_keyword(W::text())
    }

    fn display() -> &'static str {
        W::display()
    }
}

impl<W: Word> Parse for Own<W> {
    ghost parses = { WordParses (λ own. own.span) W.text };

    ghost takes = { told (λ own. own.span) (take_own W.text) (lower (lowers_token _)) };

    #[tactic(auto, using(crate::proofs::Told::own_told))]
    fn parse(input: ParseStream<'_, '_>) -> Result<Self> {
        own_token(input)
    }
}

// Does what `Own::parse` does.
fn own_token<W: Word>(input: ParseStream<'_, '_>) -> Result<Own<W>>
    ensures { WordParses (λ own. own.span) W.text input.old result input.new }
{
    let span = keyword(input, W::text())?;
    Ok(Own::new(span))
}

/// Writes an identifier with the text of the keyword, or nothing if the text is not an identifier.
impl<W: Word> ToTokens for Own<W> {
    ghost printed = { λ own. own_word W.text own.span };

    fn to_tokens(&self, tokens: &mut TokenStream) -> std::result::Result<(), AllocError> {
        match Ident::new(tokens.allocator(), W::text(), self.span) {
            Ok(ident) => tokens.append(TokenTree::Ident(ident)),
            Err(MakeFault::Refused) => Ok(()),
            Err(MakeFault::Memory) => Err(AllocError),
        }
    }
}

/// Creates the keyword with the call site as its span.
impl<W: Word> Default for Own<W> {
    ghost is_default = { λ own. own.span ≡ call_site };

    fn default() -> Self {
        Own::new(Span::call_site())
    }
}

/// Writes the text of the keyword.
impl<W: Word> Display for Own<W> {
    ghost output = { λ _. Some W.text };

    fn fmt<F: Write>(&self, f: &mut Formatter<F>) -> fmt::Result {
        f.write_str(W::text())
    }
}

/// Writes `Token![..]` with the text of the keyword, such as `Token![server]`.
impl<W: Word> Debug for Own<W> {
    ghost debug_output = { λ _. Some (in_token W.text) };

    fn fmt<F: Write>(&self, f: &mut Formatter<F>) -> fmt::Result {
        write!(f, "Token![{}]", W::text())
    }
}

//! Token types for parentheses, braces, brackets and invisible groups.
ghost use Rattle.std.specs.Prelude.{◌≡◌, Ok, OnOk, OnErr, Some};
ghost use Rattle.std.specs.Fn.{FnOnceReturnsAtMut, FnOnceTakesAtMut};
ghost use Rattle.tok_buffer.specs.Entry.{enter};
ghost use Rattle.tok_core.specs.Forest.{no_trees};
ghost use Rattle.tok_leaves.specs.Spans.{call_site, whole_span};
ghost use Rattle.tok_lexical.specs.declared.delimiter.Delimiter.TheVariants as delimiter;
ghost use Rattle.tok_types.specs.Delimiters.{delimiter_at, delimiter_display, delimiter_name};
ghost use Rattle.tok_types.specs.Looks.{PeeksFor, IsText};
ghost use Rattle.tok_types.specs.Printed.{Surrounds};
ghost use Rattle.tok_types.specs.Sees.{group_first};

use crate::look::Token;
use std::alloc::AllocError;
use std::fmt::{self, Debug, Formatter, Write};
use tok_buffer::Cursor;
use tok_core::{DelimSpan, Delimiter, Span, TokenStream, TokenTree};

// Returns the name of a delimiter in errors.
fn delimiter_display(delimiter: Delimiter) -> &'static str
    ensures { result.now ≡ delimiter_display delimiter }
{
    match delimiter {
        Delimiter::Parenthesis => "parentheses",
        Delimiter::Brace => "curly braces",
        Delimiter::Bracket => "square brackets",
        Delimiter::None => "invisible group",
    }
}

// Returns the name of the type of a delimiter.
fn delimiter_name(delimiter: Delimiter) -> &'static str
    ensures { result.now ≡ delimiter_name delimiter }
{
    match delimiter {
        Delimiter::Parenthesis => "Paren",
        Delimiter::Brace => "Brace",
        Delimiter::Bracket => "Bracket",
        Delimiter::None => "Group",
    }
}

// Writes a group around what `f` writes.
fn surround<F>(
    delimiter: Delimiter,
    span: Span,
    tokens: &mut TokenStream,
    f: F,
) -> Result<(), AllocError>
where
    F: FnOnce(&mut TokenStream) -> Result<(), AllocError>,
    requires { FnOnceTakesAtMut F.FnOnce f no_trees }
    ensures ok { OnOk result
        (Surrounds (FnOnceReturnsAtMut F.FnOnce f no_trees (Ok tt))
        delimiter span tokens.old tokens.new) }
    ensures err { OnErr result (tokens.new ≡ tokens.old) }
{
    let mut inside = TokenStream::new(tokens.allocator());
    f(&mut inside)?;
    tokens.append(TokenTree::Group(tok_core::Group::new(delimiter, inside, span)))
}

/// The token type of the visible delimiters with the number `D`.
///
/// `token::Paren` is `Visible<0>`, `token::Brace` is `Visible<1>`, and `token::Bracket` is
/// `Visible<2>`. Any larger number also stands for brackets.
///
/// A peek first enters every invisible group that is next. All values of `Visible<D>` are equal.
#[derive(Clone, Copy)]
#[derive_where(PartialEq, Eq, Hash)]
pub struct Visible<const D: usize> {
    #[derive_where(skip(EqHashOrd))]
    pub span: DelimSpan,
}

impl<const D: usize> Visible<D> {
    /// Returns the `Delimiter` that this type stands for.
    pub fn delimiter() -> Delimiter
        ensures { result ≡ delimiter_at D }
    {
        match D {
            0 => Delimiter::Parenthesis,
            1 => Delimiter::Brace,
            _ => Delimiter::Bracket,
        }
    }

    /// Creates the delimiters of a group with the span `span`.
    pub fn new(span: DelimSpan) -> Self
        ensures { result.span ≡ span }
    {
        Visible { span }
    }

    /// Creates the delimiters of a group with the span `span`, which covers the whole group.
    pub fn from_span(span: Span) -> Self
        ensures { whole_span result.span ≡ span }
    {
        Visible::new(DelimSpan::new(span))
    }

    /// Appends a group with these delimiters to `tokens`. The group contains the tokens that `f`
    /// writes.
    ///
    /// Returns an error if an allocation fails, or if `f` returns an error. `tokens` is then
    /// unchanged.
    ///
    /// # Requires
    ///
    /// `f` must be callable on an empty stream.
    ///
    /// # Examples
    ///
    /// ```rust
    /// let mut tokens = TokenStream::new(alloc);
    /// token::Paren::default().surround(&mut tokens, |inside| {
    ///     token::Comma::default().to_tokens(inside)
    /// })?;
    /// assert_eq!(rt; format!(in alloc; "{tokens}")?.as_str(), "(,)");
    /// ```
    pub fn surround<F>(&self, tokens: &mut TokenStream, f: F) -> Result<(), AllocError>
    where
        F: FnOnce(&mut TokenStream) -> Result<(), AllocError>,
        requires { FnOnceTakesAtMut F.FnOnce f no_trees }
        ensures ok { OnOk result
            (Surrounds (FnOnceReturnsAtMut F.FnOnce f no_trees (Ok tt)) (delimiter_at D)
            (whole_span self.now.span) tokens.old tokens.new) }
        ensures err { OnErr result (tokens.new ≡ tokens.old) }
    {
        surround(Self::delimiter(), self.span.join(), tokens, f)
    }
}

impl<const D: usize> Token for Visible<D> {
    ghost peeks = { PeeksFor (enter (delimiter_at D)) };

    ghost sees = { Some (group_first (delimiter_at D)) };

    ghost shown = { IsText (delimiter_display (delimiter_at D)) };

    #[tactic(auto, using(crate::proofs::Seen::group_seen, crate::proofs::Seen::is_visible))]
    fn peek(cursor: Cursor<'_>) -> bool {
        cursor.group(Self::delimiter()).is_some()
    }

    fn display() -> &'static str {
        delimiter_display(Self::delimiter())
    }
}

/// Creates the delimiters of a group. The span of the group is the call site.
impl<const D: usize> Default for Visible<D> {
    ghost is_default = { λ t. whole_span t.span ≡ call_site };

    fn default() -> Self {
        Visible::from_span(Span::call_site())
    }
}

/// Writes the name of the delimiters, such as `Paren`.
impl<const D: usize> Debug for Visible<D> {
    ghost debug_output = { λ _. Some (delimiter_name (delimiter_at D)) };

    fn fmt<W: Write>(&self, f: &mut Formatter<W>) -> fmt::Result {
        f.write_str(delimiter_name(Self::delimiter()))
    }
}

/// The token type of an invisible group. Macros insert such groups around tokens.
///
/// A peek finds an invisible group only if the group is the next tree. All values of `Group` are
/// equal.
#[derive(Clone, Copy)]
#[derive_where(PartialEq, Eq, Hash)]
pub struct Group {
    #[derive_where(skip(EqHashOrd))]
    pub span: Span,
}

impl Group {
    /// Creates the delimiters of an invisible group with the span `span`.
    pub fn new(span: Span) -> Self
        ensures { result.span ≡ span }
    {
        Group { span }
    }

    /// Creates the delimiters of an invisible group with the span `span`. This function is the same
    /// as `new`.
    pub fn from_span(span: Span) -> Self
        ensures { result.span ≡ span }
    {
        Group::new(span)
    }

    /// Appends an invisible group to `tokens`. The group contains the tokens that `f` writes.
    ///
    /// Returns an error if an allocation fails, or if `f` returns an error. `tokens` is then
    /// unchanged.
    ///
    /// # Requires
    ///
    /// `f` must be callable on an empty stream.
    pub fn surround<F>(&self, tokens: &mut TokenStream, f: F) -> Result<(), AllocError>
    where
        F: FnOnce(&mut TokenStream) -> Result<(), AllocError>,
        requires { FnOnceTakesAtMut F.FnOnce f no_trees }
        ensures ok { OnOk result
            (Surrounds (FnOnceReturnsAtMut F.FnOnce f no_trees (Ok tt)) delimiter.None
            (self.now.span) tokens.old tokens.new) }
        ensures err { OnErr result (tokens.new ≡ tokens.old) }
    {
        surround(Delimiter::None, self.span, tokens, f)
    }
}

impl Token for Group {
    ghost peeks = { PeeksFor (enter delimiter.None) };

    ghost shown = { IsText (delimiter_display delimiter.None) };

    fn peek(cursor: Cursor<'_>) -> bool {
        cursor.group(Delimiter::None).is_some()
    }

    fn display() -> &'static str {
        delimiter_display(Delimiter::None)
    }
}

/// Creates the delimiters of an invisible group. The span of the group is the call site.
impl Default for Group {
    ghost is_default = { λ t. t.span ≡ call_site };

    fn default() -> Self {
        Group::from_span(Span::call_site())
    }
}

impl Debug for Group {
    ghost debug_output = { λ _. Some (delimiter_name delimiter.None) };

    fn fmt<W: Write>(&self, f: &mut Formatter<W>) -> fmt::Result {
        f.write_str(delimiter_name(Delimiter::None))
    }
}

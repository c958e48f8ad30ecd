//! Groups, which are token streams between delimiters.
ghost use Rattle.std.specs.Prelude.{◌≡◌};
ghost use Rattle.tok_core.specs.Forest.{tree_delimiter, tree_inside, group, tree_span};
ghost use Rattle.tok_core.specs.Seen.{group_of};
ghost use Rattle.tok_leaves.specs.Spans.{call_site, closing_span, opening_span, whole_span};

use crate::stream::TokenStream;
use std::alloc::AllocError;
use tok_leaves::{Bounds, DelimSpan, Delimiter, Span};

/// A token stream between delimiters.
///
/// A group with the delimiter `Delimiter::None` is *invisible*. The delimiters of an invisible
/// group have no text.
#[cycle(trees)]
#[derive(Drop)]
pub struct Group {
    bounds: Bounds,
    stream: TokenStream,
}

impl Group {
    /// Creates a group with the span `span`, which also covers the delimiters.
    pub fn new(delimiter: Delimiter, stream: TokenStream, span: Span) -> Group
        ensures { group_of result ≡ group delimiter stream span }
    {
        let bounds = Bounds::new(delimiter, span);
        Group { bounds, stream }
    }

    /// Creates a group with the call site as its span.
    pub fn at_call_site(delimiter: Delimiter, stream: TokenStream) -> Group
        ensures { group_of result ≡ group delimiter stream call_site }
    {
        Group::new(delimiter, stream, Span::call_site())
    }

    /// Returns the delimiter of the group.
    pub fn delimiter(&self) -> Delimiter
        ensures { result ≡ tree_delimiter (group_of self.now) }
    {
        self.bounds.delimiter()
    }

    /// Returns the token stream between the delimiters.
    pub fn stream(&self) -> &TokenStream
        ensures { result.now ≡ tree_inside (group_of self.now) }
    {
        &self.stream
    }

    /// Converts the group into the token stream between its delimiters.
    pub fn into_stream(self) -> TokenStream
        ensures { result ≡ tree_inside (group_of self) }
    {
        self.stream
    }

    /// Returns the span of the whole group, including its delimiters.
    pub fn span(&self) -> Span
        ensures { result ≡ tree_span (group_of self.now) }
    {
        self.bounds.span()
    }

    /// Returns the span of the whole group as a `DelimSpan`, which computes the spans of the
    /// delimiters.
    pub fn delim_span(&self) -> DelimSpan
        ensures { whole_span result ≡ tree_span (group_of self.now) }
    {
        DelimSpan::new(self.span())
    }

    /// Returns the span of the opening delimiter, which is the first byte of the group.
    ///
    /// Returns the span of the whole group if that span is an empty range or the call site.
    pub fn span_open(&self) -> Span
        ensures { result ≡ opening_span (tree_span (group_of self.now)) }
    {
        self.delim_span().open()
    }

    /// Returns the span of the closing delimiter, which is the last byte of the group.
    ///
    /// Returns the span of the whole group if that span is an empty range or the call site.
    pub fn span_close(&self) -> Span
        ensures { result ≡ closing_span (tree_span (group_of self.now)) }
    {
        self.delim_span().close()
    }

    /// Sets the span of the whole group. The spans of the trees inside the group do not change.
    pub fn set_span(&mut self, span: Span)
        ensures { group_of self.new
            ≡ group (tree_delimiter (group_of self.old)) (tree_inside (group_of self.old)) span }
    {
        self.bounds = Bounds::new(self.delimiter(), span);
    }
}

/// Copies the group and all spans in it.
impl Clone for Group {
    ghost is_clone = { λ g h. h ≡ g };

    #[cycle(clone)]
    fn clone(&self) -> Result<Group, AllocError> {
        let stream = self.stream.clone()?;
        Ok(Group {
            bounds: self.bounds,
            stream,
        })
    }
}

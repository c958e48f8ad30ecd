//! The entries that a buffer stores: leaf tokens, and the openings and ends of groups.
ghost use Rattle.std.specs.Prelude.{◌≡◌, IfOk, OnErr, OnOk};
ghost use Rattle.tok_core.specs.Forest.{concat, leaf, no_trees, tree};
ghost use Rattle.tok_core.specs.Seen.{tree_of};
ghost use Rattle.tok_leaves.specs.Leaves.{leaf_span};
ghost use Rattle.tok_buffer.specs.Entry.{same_delimiter};
ghost use Rattle.tok_buffer.specs.Private.Layout.{entry_enclosing, entry_of, leaf_in};
ghost use Rattle.tok_buffer.specs.Spans.{closing_of};

use std::alloc::AllocError;
use tok_core::{DelimSpan, Delimiter, Ident, Literal, Punct, Span, TokenStream, TokenTree};

/// The opening of a group, with the delimiter and the span of the whole group.
#[derive(Clone, Copy)]
pub struct Opening {
    pub delimiter: Delimiter,
    pub span: Span,
}

/// An entry of a buffer: a leaf token, the opening of a group or the end of a group.
///
/// An entry takes 48 bytes. The variants that may own memory come first. When a buffer is dropped,
/// one comparison therefore finds them.
#[derive(Drop)]
pub enum Entry {
    Ident(Ident),
    Literal(Literal),
    Punct(Punct),
    /// The opening of a group, and the number of entries from the opening to the end of the group.
    Group(Opening, usize),
    /// The end of a group, and the number of entries from the end back to the opening of the group.
    ///
    /// For the end of the buffer, the number is 0.
    End(usize),
}

/// A reference to the leaf token that an entry stores. The variants are in the same order as in
/// `Entry`.
#[derive(Clone, Copy)]
pub enum Leaf<'a> {
    Ident(&'a Ident),
    Literal(&'a Literal),
    Punct(&'a Punct),
}

/// A reference to the contents of an entry. All kinds of leaf tokens share one variant.
#[derive(Clone, Copy)]
pub enum Held<'a> {
    Leaf(Leaf<'a>),
    Group(&'a Opening, usize),
    End(usize),
}

impl<'a> Leaf<'a> {
    /// Returns the span of the leaf token.
    pub fn span(self) -> Span
        ensures { result ≡ leaf_span (leaf_in self.entry) }
    {
        match self {
            Leaf::Ident(ident) => ident.span(),
            Leaf::Punct(punct) => punct.span(),
            Leaf::Literal(literal) => literal.span(),
        }
    }

    /// Copies the leaf token into a token tree.
    ///
    /// Returns an error if the allocation fails.
    pub fn copied(self) -> Result<TokenTree, AllocError>
        ensures { IfOk result (λ t. tree_of t ≡ leaf (leaf_in self.entry)) }
    {
        match self {
            Leaf::Ident(ident) => Ok(TokenTree::Ident(ident.clone()?)),
            Leaf::Punct(punct) => Ok(TokenTree::Punct(*punct)),
            Leaf::Literal(literal) => Ok(TokenTree::Literal(literal.clone()?)),
        }
    }

    /// Appends a copy of the leaf token to `stream`.
    ///
    /// Returns an error if an allocation fails. The stream is then unchanged.
    //
    // Each kind is appended apart, and so is a short text. If they met before that, each leaf would
    // go through memory once more.
    #[inline(always)]
    pub fn append_to(self, stream: &mut TokenStream) -> Result<(), AllocError>
        ensures ok { OnOk result
            (stream.new ≡ concat stream.old (tree (leaf (leaf_in self.entry)) no_trees)) }
        ensures err { OnErr result (stream.new ≡ stream.old) }
    {
        match self {
            Leaf::Ident(ident) => match ident.copied_if_short() {
                Some(copy) => stream.append(TokenTree::Ident(copy)),
                None => stream.append(TokenTree::Ident(ident.clone()?)),
            },
            Leaf::Punct(punct) => stream.append(TokenTree::Punct(*punct)),
            Leaf::Literal(literal) => match literal.copied_if_short() {
                Some(copy) => stream.append(TokenTree::Literal(copy)),
                None => stream.append(TokenTree::Literal(literal.clone()?)),
            },
        }
    }
}

impl Entry {
    /// Returns a reference to the contents of the entry.
    pub fn held(&self) -> Held<'_>
        ensures { self.now ≡ entry_of result }
    {
        match self {
            Entry::Ident(ident) => Held::Leaf(Leaf::Ident(ident)),
            Entry::Punct(punct) => Held::Leaf(Leaf::Punct(punct)),
            Entry::Literal(literal) => Held::Leaf(Leaf::Literal(literal)),
            Entry::Group(group, offset) => Held::Group(group, *offset),
            Entry::End(back) => Held::End(*back),
        }
    }

    /// Returns the delimiter of the group that opens at this entry, and the span of its closing
    /// delimiter.
    ///
    /// If the entry does not open a group, returns `Delimiter::None` and the call site.
    pub fn closing(&self) -> (Delimiter, Span)
        ensures { result ≡ closing_of (entry_enclosing self.now) }
    {
        match self {
            Entry::Group(group, _) => (group.delimiter, DelimSpan::new(group.span).close()),
            _ => (Delimiter::None, Span::call_site()),
        }
    }
}

/// Returns `true` if `left` and `right` are the same delimiter, as the definition `same_delimiter`
/// states.
pub fn same(left: Delimiter, right: Delimiter) -> bool
    ensures { result ≡ same_delimiter left right }
{
    left == right
}

//! Token streams and token trees.
ghost use Rattle.std.specs.Prelude.{◌≡◌, ◌+◌, not, min, IfOk, IsOk, OnOk, OnErr};
ghost use Rattle.std.specs.Slice.Iter.{iter_rest};
ghost use Rattle.std.specs.Vec.Iter.{into_iter_items};
ghost use Rattle.tok_core.specs.Filled.{has_trees};
ghost use Rattle.tok_core.specs.Forest.{concat, group, leaf, no_trees, tree, tree_span, with_span};
ghost use Rattle.tok_core.specs.Laws.{IsTheOnly};
ghost use Rattle.tok_core.specs.Private.Excess.{excess};
ghost use Rattle.tok_core.specs.Seen.{group_of, tree_of, trees_of};
ghost use Rattle.tok_leaves.specs.Leaves.{ident_of, literal_of, punct_of};
ghost use Rattle.tok_core.specs.Weight.{weight};

use crate::group::Group;
use std::alloc::{AllocError, Global};
use std::marker::Model;
use std::{slice, vec};
use tok_leaves::{Ident, Literal, Punct, Span};

/// A sequence of token trees. Contracts describe a stream as a `Forest`, which is a list of trees.
///
/// # Examples
///
/// ```rust
/// let mut stream = TokenStream::new(alloc);
/// let name = Ident::new(alloc, "a", Span::call_site())?;
/// stream.append(TokenTree::Ident(name))?;
/// assert_eq!(rt; stream.trees().len(), 1);
/// ```
#[cycle(trees)]
#[derive(Drop)]
pub struct TokenStream {
    trees: Vec<TokenTree>,
    alloc: Global,
}

/// A single token, or a group of token trees between delimiters.
#[cycle(trees)]
#[derive(Drop, Debug)]
pub enum TokenTree {
    Group(Group),
    Ident(Ident),
    Punct(Punct),
    Literal(Literal),
}

impl Model for TokenStream {
    ghost use Rattle.tok_core.specs.Forest.{Forest};
    ghost use Rattle.tok_core.specs.Code.{forest_code};
    ghost use Rattle.tok_core.specs.Weight.{weight};

    ghost Value = { Forest };

    ghost coded = { forest_code };

    ghost use Rattle.tok_core.specs.Seen.{trees_of};
    ghost use Rattle.std.proofs.Common.{arith};

    ghost view = { λ s. trees_of s.trees.items };

    ghost size = { weight };

    ghost use Rattle.tok_core.specs.Private.TreeFalls.{most_le_weight};

    ghost size_decreases = { λ a h. omega (arith, most_le_weight a.trees.items) };
}

impl TokenStream {
    /// Creates an empty stream.
    ///
    /// The stream does not allocate until a tree is appended.
    pub fn new(alloc: Global) -> TokenStream
        ensures { result ≡ no_trees }
    {
        TokenStream {
            trees: Vec::new(alloc),
            alloc,
        }
    }

    /// Creates an empty stream with room for at least `capacity` trees.
    ///
    /// Returns an error if the allocation fails. If `capacity` is 0, the call does not allocate.
    pub fn with_capacity(alloc: Global, capacity: usize) -> Result<TokenStream, AllocError>
        ensures empty { IfOk result (λ s. s ≡ no_trees) }
        ensures succeeds { capacity ≡ 0 → IsOk result }
    {
        let trees = Vec::with_capacity(alloc, capacity)?;
        Ok(TokenStream { trees, alloc })
    }

    /// Creates a stream that contains `trees`, in order.
    ///
    /// If the allocation fails, the call returns an error and drops the trees.
    ///
    /// # Examples
    ///
    /// ```rust
    /// let name = Ident::new(alloc, "a", Span::call_site())?;
    /// let copy = name.clone()?;
    /// let stream = TokenStream::from_trees(alloc, [name.into(), copy.into()])?;
    /// assert_eq!(rt; stream.trees().len(), 2);
    /// ```
    pub fn from_trees<const N: usize>(
        alloc: Global,
        trees: [TokenTree; N],
    ) -> Result<TokenStream, AllocError>
        ensures { IfOk result (λ s. s ≡ trees_of trees.entry) }
    {
        let trees = Vec::from_array(alloc, trees)?;
        Ok(TokenStream::of_trees(alloc, trees))
    }

    /// Returns the allocator of the stream.
    ///
    /// All streams have the same allocator, because a program has only one `Global`.
    pub fn allocator(&self) -> Global
        ensures { IsTheOnly result }
    {
        self.alloc
    }

    /// Appends a tree to the stream.
    ///
    /// If the allocation fails, the call returns an error, leaves the stream unchanged, and drops
    /// the tree.
    #[inline(always)]
    pub fn append(&mut self, next: TokenTree) -> Result<(), AllocError>
        ensures ok { OnOk result (self.new ≡ concat self.old (tree (tree_of next) no_trees)) }
        ensures err { OnErr result (self.new ≡ self.old) }
    {
        self.trees.push(next)?;
        Ok(())
    }

    /// Appends the trees of `other` to the stream, in order.
    ///
    /// If the allocation fails, the call returns an error, leaves the stream unchanged, and drops
    /// `other`.
    pub fn extend(&mut self, other: TokenStream) -> Result<(), AllocError>
        ensures ok { OnOk result (self.new ≡ concat self.old other) }
        ensures err { OnErr result (self.new ≡ self.old) }
    {
        let mut trees = other.into_trees();
        self.trees.append(&mut trees)
    }

    // Makes a stream of these trees.
    #[inline(always)]
    pub(crate) fn of_trees(alloc: Global, trees: Vec<TokenTree>) -> TokenStream
        ensures { result ≡ trees_of trees.items }
    {
        TokenStream { trees, alloc }
    }

    /// Returns the trees of the stream as a slice, in order.
    pub fn trees(&self) -> &[TokenTree]
        ensures { trees_of result.now ≡ self.now }
    {
        self.trees.as_slice()
    }

    /// Converts the stream into a vector of its trees, in order.
    pub fn into_trees(self) -> Vec<TokenTree>
        ensures { trees_of result.items ≡ self }
    {
        self.trees
    }

    /// Returns `true` if the stream contains no trees.
    ///
    /// A stream that contains only an empty invisible group is not empty.
    pub fn is_empty(&self) -> bool
        ensures { has_trees self.now ≡ not result }
    {
        self.trees.is_empty()
    }

    /// Returns the number of identifiers, puncts and literals in the stream, plus two for each
    /// group.
    ///
    /// The call counts trees at every depth. If the number exceeds `usize::MAX`, the call returns
    /// `usize::MAX`.
    #[tactic(auto, using(crate::proofs::Weights::weight_counted))]
    pub fn weight(&self) -> usize
        ensures { result ≡ min (weight self.now) usize.MAX }
    {
        self.add_excess(self.trees.len())
    }

    // Adds what the groups add to a number that already counts each tree of this stream. Most trees
    // are leaves, and add nothing.
    fn add_excess(&self, counted: usize) -> usize
        ensures { result ≡ min (counted + excess self.now) usize.MAX }
    {
        let mut sum = counted;
        for next in &self.trees {
            if let TokenTree::Group(group) = next {
                let inside = group.stream();
                sum = inside.add_excess(sum.saturating_add(inside.trees.len() + 1));
            }
        }
        sum
    }
}

/// Copies the stream and all spans in it.
impl Clone for TokenStream {
    ghost is_clone = { λ s t. t ≡ s };

    #[cycle(clone)]
    fn clone(&self) -> Result<TokenStream, AllocError> {
        let mut trees = Vec::with_capacity(self.alloc, self.trees.len())?;
        for next in &self.trees {
            // Each kind is put in its place apart, and so is a short text. If they met before that,
            // each tree would go through memory once more.
            match next {
                TokenTree::Group(group) => {
                    trees.push_reserved(TokenTree::Group(group.clone()?));
                }
                TokenTree::Ident(ident) => match ident.copied_if_short() {
                    Some(copy) => trees.push_reserved(TokenTree::Ident(copy)),
                    None => trees.push_reserved(TokenTree::Ident(ident.clone()?)),
                },
                TokenTree::Punct(punct) => trees.push_reserved(TokenTree::Punct(*punct)),
                TokenTree::Literal(literal) => match literal.copied_if_short() {
                    Some(copy) => trees.push_reserved(TokenTree::Literal(copy)),
                    None => trees.push_reserved(TokenTree::Literal(literal.clone()?)),
                },
            }
        }
        Ok(TokenStream {
            trees,
            alloc: self.alloc,
        })
    }
}

impl TokenTree {
    /// Returns the span of the token or of the whole group.
    pub fn span(&self) -> Span
        ensures { result ≡ tree_span (tree_of self.now) }
    {
        match self {
            TokenTree::Group(group) => group.span(),
            TokenTree::Ident(ident) => ident.span(),
            TokenTree::Punct(punct) => punct.span(),
            TokenTree::Literal(literal) => literal.span(),
        }
    }

    /// Sets the span of the token or of the whole group.
    ///
    /// The spans of the trees inside a group do not change.
    pub fn set_span(&mut self, span: Span)
        ensures { tree_of self.new ≡ with_span span (tree_of self.old) }
    {
        match self {
            TokenTree::Group(group) => group.set_span(span),
            TokenTree::Ident(ident) => ident.set_span(span),
            TokenTree::Punct(punct) => punct.set_span(span),
            TokenTree::Literal(literal) => literal.set_span(span),
        }
    }
}

/// Copies the tree and all spans in it.
impl Clone for TokenTree {
    ghost is_clone = { λ t u. u ≡ t };

    fn clone(&self) -> Result<TokenTree, AllocError> {
        match self {
            TokenTree::Group(group) => Ok(TokenTree::Group(group.clone()?)),
            TokenTree::Ident(ident) => Ok(TokenTree::Ident(ident.clone()?)),
            TokenTree::Punct(punct) => Ok(TokenTree::Punct(*punct)),
            TokenTree::Literal(literal) => Ok(TokenTree::Literal(literal.clone()?)),
        }
    }
}

impl From<Group> for TokenTree {
    ghost from_gives = { λ group tree. tree_of tree ≡ group_of group };

    fn from(group: Group) -> Self {
        TokenTree::Group(group)
    }
}

impl From<Ident> for TokenTree {
    ghost from_gives = { λ ident tree. tree_of tree ≡ leaf (ident_of ident) };

    fn from(ident: Ident) -> Self {
        TokenTree::Ident(ident)
    }
}

impl From<Punct> for TokenTree {
    ghost from_gives = { λ punct tree. tree_of tree ≡ leaf (punct_of punct) };

    fn from(punct: Punct) -> Self {
        TokenTree::Punct(punct)
    }
}

impl From<Literal> for TokenTree {
    ghost from_gives = { λ literal tree. tree_of tree ≡ leaf (literal_of literal) };

    fn from(literal: Literal) -> Self {
        TokenTree::Literal(literal)
    }
}

/// Yields the trees in order.
impl IntoIterator for TokenStream {
    type Item = TokenTree;

    type IntoIter = vec::IntoIter<TokenTree>;

    ghost into_iter_gives = { λ stream trees. trees_of (into_iter_items trees) ≡ stream };

    fn into_iter(self) -> vec::IntoIter<TokenTree> {
        self.into_trees().into_iter()
    }
}

/// Yields references to the trees in order.
impl<'a> IntoIterator for &'a TokenStream {
    type Item = &'a TokenTree;

    type IntoIter = slice::Iter<'a, TokenTree>;

    ghost into_iter_gives = { λ stream trees. trees_of (iter_rest trees) ≡ stream.now };

    fn into_iter(self) -> slice::Iter<'a, TokenTree> {
        self.trees().iter()
    }
}

//! Methods of `Cursor` that copy or print the trees that remain in the scope.
ghost use Rattle.std.specs.Prelude.{◌≡◌, ◌≤◌, ◌++◌, ◌∷◌, [], IfOk, true};
ghost use Rattle.std.specs.Fmt.{WritesOnOk};
ghost use Rattle.tok_lexical.specs.Delimiters as delimiters;
ghost use Rattle.tok_leaves.specs.Leaves.{leaf_text};
ghost use Rattle.tok_core.specs.Forest.{concat, leaf, no_trees};
ghost use Rattle.tok_core.specs.Seen.{group_of, tree_of};
ghost use Rattle.tok_core.specs.Text as spec;
ghost use Rattle.tok_core.specs.Text.{text};
ghost use Rattle.tok_core.specs.Weight.{weight};
ghost use Rattle.tok_buffer.specs.Private.Counts.{tree_count};
ghost use Rattle.tok_buffer.specs.Private.Layout.{leaf_in};
ghost use Rattle.tok_buffer.specs.Private.Steps.{OpensGroup};
ghost use Rattle.tok_buffer.specs.Between.{LosesNoTree, between, trees_to};
ghost use Rattle.tok_buffer.specs.Cursors.{place_of, spot_place};
ghost use Rattle.tok_buffer.specs.Gives.{Gives};
ghost use Rattle.tok_buffer.specs.Moves.{in_scope, place_at};
ghost use Rattle.tok_buffer.specs.Reads.{is_group, read_if, read_tree};
ghost use Rattle.tok_buffer.specs.Rest.{rest};
ghost use Rattle.tok_buffer.specs.Trees.{read_visible};

use crate::ahead::{Ahead, Next};
use crate::buffer::TokenBuffer;
use crate::cursor::Cursor;
use crate::entry::{Held, Leaf};
use crate::spot::Spot;
use std::alloc::{AllocError, Global};
use std::fmt;
use std::fmt::{Debug, Formatter, Write};
use tok_core::{Delimiter, Group, Spacing, TokenStream, TokenTree};

impl<'a> Cursor<'a> {
    /// Copies the next tree if it is a visible or invisible group.
    ///
    /// Returns the copy and the cursor after the tree, or `None` if the next tree is not a group.
    /// Returns an error if an allocation fails.
    pub fn any_group_token(self, alloc: Global) -> Result<Option<(Group, Cursor<'a>)>, AllocError>
        ensures { IfOk result (λ found. Gives found (read_if is_group (place_of self.entry))
            (λ r. (group_of r.0 ∷ [], place_of r.1))) }
    {
        match self.any_group() {
            Some((content, delimiter, span, after)) => {
                let stream = content.token_stream(alloc)?;
                Ok(Some((Group::new(delimiter, stream, span.join()), after)))
            }
            None => Ok(None),
        }
    }

    /// Copies the next tree, which may be an invisible group.
    ///
    /// Returns the copy and the cursor after the tree, or `None` at the end of the scope. Returns
    /// an error if an allocation fails.
    pub fn token_tree(self, alloc: Global) -> Result<Option<(TokenTree, Cursor<'a>)>, AllocError>
        ensures { IfOk result (λ found. Gives found (read_tree (place_of self.entry))
            (λ r. (tree_of r.0 ∷ [], place_of r.1))) }
    {
        let Some(spot) = self.spot else {
            return Ok(None);
        };
        match spot.entry().held() {
            Held::Leaf(leaf) => Ok(Some((leaf.copied()?, Cursor::at(spot.bump())))),
            _ => match self.any_group_token(alloc)? {
                Some((group, after)) => Ok(Some((TokenTree::Group(group), after))),
                None => Ok(None),
            },
        }
    }

    /// Copies the next visible tree.
    ///
    /// The call first enters every invisible group that is next. It also copies the invisible
    /// groups inside the tree.
    ///
    /// Returns the copy and the cursor after the tree, or `None` if no visible tree is left in the
    /// scope. Returns an error if an allocation fails.
    pub fn visible_tree(self, alloc: Global) -> Result<Option<(TokenTree, Cursor<'a>)>, AllocError>
        ensures { IfOk result (λ found. Gives found (read_visible (place_of self.entry))
            (λ r. (tree_of r.0 ∷ [], place_of r.1))) }
    {
        match self.spot {
            None => Ok(None),
            Some(spot) => Cursor::at(spot.ignore_none()).token_tree(alloc),
        }
    }

    /// Copies the trees from the cursor to the end of its scope.
    ///
    /// If the cursor has entered invisible groups, the trees that remain in the innermost of these
    /// groups come first. The trees after that group come next, and so on outwards. Returns an
    /// error if an allocation fails.
    pub fn token_stream(self, alloc: Global) -> Result<TokenStream, AllocError>
        ensures { IfOk result (λ s. s ≡ rest (place_of self.entry)) }
    {
        if let Some(spot) = self.spot {
            return copy_ahead(alloc, spot.buffer, spot.position, spot.scope);
        }
        Ok(TokenStream::new(alloc))
    }

    /// Copies the trees from this cursor up to `end`, which is a later cursor of the same scope.
    ///
    /// The call copies an invisible group if the whole group is between the two cursors. If only a
    /// part of the group is between them, the call copies only the trees of that part. If `end` is
    /// earlier, or in another scope or buffer, the stream is empty.
    ///
    /// Returns an error if an allocation fails.
    ///
    /// # Examples
    ///
    /// ```rust
    /// let buffer = TokenBuffer::from_marked(alloc, 0, 0, "«a» = b")?;
    /// if let Some((_, rest)) = buffer.begin().ident() {
    ///     let tokens = buffer.begin().tokens_up_to(alloc, rest)?;
    ///     assert!(rt; matches!(tokens.trees().first(), Some(TokenTree::Group(_))));
    /// }
    /// ```
    pub fn tokens_up_to(self, alloc: Global, end: Cursor<'_>) -> Result<TokenStream, AllocError>
        ensures trees { IfOk result
            (λ s. s ≡ between (place_of self.entry) (place_of end.entry)) }
        ensures visible { IfOk result (LosesNoTree (place_of self.entry) (place_of end.entry)) }
    {
        if let (Some(from), Some(to)) = (self.spot, end.spot) {
            if self.same_scope(end) {
                return copy_up_to(alloc, from, to.position);
            }
        }
        Ok(TokenStream::new(alloc))
    }

    /// Writes the trees from the cursor to the end of its scope as text.
    ///
    /// The text is the one that `Display` writes for the stream that `token_stream` returns. The
    /// call does not allocate.
    pub fn write_ahead<W: Write>(self, f: &mut Formatter<W>) -> fmt::Result
        ensures { WritesOnOk W.write_str_gives f.old result
            (text (rest (place_of self.entry))) f.new }
    {
        match self.spot {
            None => Ok(()),
            Some(spot) => write_from(f, spot.buffer, spot.position, spot.scope),
        }
    }
}

/// Writes the remaining trees of the scope, as in `Cursor(a b)`.
impl<'a> Debug for Cursor<'a> {
    fn fmt<W: Write>(&self, f: &mut Formatter<W>) -> fmt::Result {
        f.write_str("Cursor(")?;
        self.write_ahead(f)?;
        f.write_str(")")
    }
}

/// Writes the text of the buffer, as in `TokenBuffer(a b)`.
impl Debug for TokenBuffer {
    fn fmt<W: Write>(&self, f: &mut Formatter<W>) -> fmt::Result {
        f.write_str("TokenBuffer(")?;
        self.begin().write_ahead(f)?;
        f.write_str(")")
    }
}

// Counts the trees from a position to the scope's end. A group is one.
fn count_ahead(buffer: &TokenBuffer, from: usize, scope: usize) -> usize
    requires in_buffer { scope ≤ weight buffer.now.forest }
    requires within { in_scope buffer.now.forest from scope ≡ true }
    ensures { result
        ≡ tree_count (rest (place_at buffer.now.number buffer.now.forest from scope)) }
{
    let mut ahead = Ahead::new(buffer, from, scope);
    let mut count = 0;
    while ahead.position != ahead.scope {
        match ahead.next() {
            Next::Leaf(_, after) => {
                count += 1;
                ahead = after;
            }
            Next::Group(group) => {
                count += 1;
                ahead = group.after;
            }
            Next::End(after) => ahead = after,
        }
    }
    count
}

// Creates an empty stream with room for the trees from a position to the scope's end.
// Kept out of line: inlined, it would take its stack at each level of `copy_ahead`.
#[inline(never)]
fn room_ahead(
    alloc: Global,
    buffer: &TokenBuffer,
    from: usize,
    scope: usize,
) -> Result<TokenStream, AllocError>
    requires in_buffer { scope ≤ weight buffer.now.forest }
    requires within { in_scope buffer.now.forest from scope ≡ true }
    ensures { IfOk result (λ s. s ≡ no_trees) }
{
    TokenStream::with_capacity(alloc, count_ahead(buffer, from, scope))
}

// Appends the leaves from a position up to the next group, or to the scope's end, and returns that
// position.
// Kept out of line, as `room_ahead` is.
#[inline(never)]
fn copy_leaves(
    stream: &mut TokenStream,
    buffer: &TokenBuffer,
    from: usize,
    scope: usize,
) -> Result<usize, AllocError>
    requires in_buffer { scope ≤ weight buffer.now.forest }
    requires within { in_scope buffer.now.forest from scope ≡ true }
    ensures within { IfOk result (λ n. in_scope buffer.now.forest n scope ≡ true) }
    ensures later { IfOk result (λ n. from ≤ n) }
    ensures stops { IfOk result
        (λ n. (n ≡ scope → ⊥)
        → OpensGroup (place_at buffer.now.number buffer.now.forest n scope)) }
    ensures copied { IfOk result (λ n. concat stream.new
        (rest (place_at buffer.now.number buffer.now.forest n scope))
        ≡ concat stream.old (rest (place_at buffer.now.number buffer.now.forest from scope))) }
{
    let mut ahead = Ahead::new(buffer, from, scope);
    while ahead.position != ahead.scope {
        match ahead.next() {
            Next::Leaf(leaf, after) => {
                leaf.append_to(stream)?;
                ahead = after;
            }
            Next::Group(_) => return Ok(ahead.position),
            Next::End(after) => ahead = after,
        }
    }
    Ok(ahead.position)
}

// Copies the trees from a position to the scope's end, into a stream of their number.
fn copy_ahead(
    alloc: Global,
    buffer: &TokenBuffer,
    from: usize,
    scope: usize,
) -> Result<TokenStream, AllocError>
    requires in_buffer { scope ≤ weight buffer.now.forest }
    requires within { in_scope buffer.now.forest from scope ≡ true }
    ensures { IfOk result
        (λ s. s ≡ rest (place_at buffer.now.number buffer.now.forest from scope)) }
{
    let mut stream = room_ahead(alloc, buffer, from, scope)?;
    let mut position = copy_leaves(&mut stream, buffer, from, scope)?;
    while position != scope {
        let Next::Group(group) = Ahead::new(buffer, position, scope).next() else {
            unreachable!();
        };
        let inside = group.inside;
        let content = copy_ahead(alloc, inside.buffer, inside.position, inside.scope)?;
        let copy = Group::new(group.opening.delimiter, content, group.opening.span);
        stream.append(TokenTree::Group(copy))?;
        position = copy_leaves(&mut stream, buffer, group.after.position, scope)?;
    }
    Ok(stream)
}

// Counts the trees from a spot up to a position. A group that ends by then is one.
fn count_up_to(spot: Spot<'_>, end: usize) -> usize
    requires { end ≤ spot.scope }
    ensures { result ≡ tree_count (trees_to end (spot_place spot.entry)) }
{
    let mut ahead = Ahead::new(spot.buffer, spot.position, spot.scope);
    let mut trees = 0;
    while ahead.position < end {
        match ahead.next() {
            Next::Leaf(_, after) => {
                trees += 1;
                ahead = after;
            }
            Next::Group(group) => {
                if group.after.position <= end {
                    trees += 1;
                    ahead = group.after;
                } else {
                    ahead = group.entered;
                }
            }
            Next::End(after) => ahead = after,
        }
    }
    trees
}

// Copies the trees from a spot up to a position, into a stream of their number. Enters the groups
// that end later.
fn copy_up_to(alloc: Global, spot: Spot<'_>, end: usize) -> Result<TokenStream, AllocError>
    requires { end ≤ spot.scope }
    ensures { IfOk result (λ s. s ≡ trees_to end (spot_place spot.entry)) }
{
    let mut stream = TokenStream::with_capacity(alloc, count_up_to(spot, end))?;
    let mut ahead = Ahead::new(spot.buffer, spot.position, spot.scope);
    while ahead.position < end {
        match ahead.next() {
            Next::Leaf(leaf, after) => {
                leaf.append_to(&mut stream)?;
                ahead = after;
            }
            Next::Group(group) => {
                if group.after.position <= end {
                    let inside = group.inside;
                    let content = copy_ahead(alloc, inside.buffer, inside.position, inside.scope)?;
                    let copied = Group::new(group.opening.delimiter, content, group.opening.span);
                    stream.append(TokenTree::Group(copied))?;
                    ahead = group.after;
                } else {
                    ahead = group.entered;
                }
            }
            Next::End(after) => ahead = after,
        }
    }
    Ok(stream)
}

// Writes the trees from a position to the scope's end.
fn write_from<W: Write>(
    f: &mut Formatter<W>,
    buffer: &TokenBuffer,
    from: usize,
    scope: usize,
) -> fmt::Result
    requires in_buffer { scope ≤ weight buffer.now.forest }
    requires within { in_scope buffer.now.forest from scope ≡ true }
    ensures { WritesOnOk W.write_str_gives f.old result
        (text (rest (place_at buffer.now.number buffer.now.forest from scope))) f.new }
{
    let mut ahead = Ahead::new(buffer, from, scope);
    let mut is_glued = true;
    while ahead.position != ahead.scope {
        match ahead.next() {
            Next::Leaf(leaf, after) => {
                write_leaf(f, is_glued, leaf)?;
                is_glued = leaf.is_joint();
                ahead = after;
            }
            Next::Group(group) => {
                let inside = group.inside;
                write_opening(f, is_glued, group.opening.delimiter)?;
                write_from(f, inside.buffer, inside.position, inside.scope)?;
                f.write_str(group.opening.delimiter.closing())?;
                is_glued = false;
                ahead = group.after;
            }
            Next::End(after) => ahead = after,
        }
    }
    Ok(())
}

impl<'a> Leaf<'a> {
    // Returns `true` for a joint punct.
    fn is_joint(self) -> bool
        ensures { result ≡ spec.is_joint_tree (leaf (leaf_in self.entry)) }
    {
        match self {
            Leaf::Punct(punct) => match punct.spacing() {
                Spacing::Joint => true,
                Spacing::Alone => false,
            },
            _ => false,
        }
    }
}

// Writes a leaf, after a space unless it is glued to what was written.
fn write_leaf<W: Write>(f: &mut Formatter<W>, is_glued: bool, leaf: Leaf<'_>) -> fmt::Result
    ensures { WritesOnOk W.write_str_gives f.old result
        (spec.space is_glued ++ leaf_text (leaf_in leaf.entry)) f.new }
{
    f.write_str(space(is_glued))?;
    match leaf {
        Leaf::Ident(ident) => f.write_str(ident.as_str()),
        Leaf::Punct(punct) => f.write_char(punct.as_char()),
        Leaf::Literal(literal) => f.write_str(literal.as_str()),
    }
}

// Writes a group's opening, after a space unless it is glued to what was written.
fn write_opening<W: Write>(
    f: &mut Formatter<W>,
    is_glued: bool,
    delimiter: Delimiter,
) -> fmt::Result
    ensures { WritesOnOk W.write_str_gives f.old result
        (spec.space is_glued ++ delimiters.opening delimiter) f.new }
{
    f.write_str(space(is_glued))?;
    f.write_str(delimiter.opening())
}

fn space(is_glued: bool) -> &'static str
    ensures { result.now ≡ spec.space is_glued }
{
    if is_glued { "" } else { " " }
}

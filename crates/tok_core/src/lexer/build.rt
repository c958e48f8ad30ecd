//! Builders, which create token trees or other values from the tokens of a text.
ghost use Rattle.std.specs.Prelude.{◌≡◌, [], OnOk, OnErr, IfOk, ◌<◌, ◌≤◌, ◌/◌, ◌^◌, length, min, take, drop};
ghost use Rattle.std.specs.Vec.{vec_len, vec_capacity};
ghost use Rattle.tok_core.specs.Building.{Levels, add_leaf, nothing, opened, Closes};
ghost use Rattle.tok_leaves.specs.Leaves.{ident_of, punct_of, literal_of};

use crate::group::Group;
use crate::room::{counted_bytes, fitted};
use crate::stream::{TokenStream, TokenTree};
use std::alloc::{AllocError, Global};
use std::marker::Model;
use tok_leaves::{Ident, Literal, Punct, Span};
use tok_lexical::Delimiter;

/// A builder, which creates a value from the tokens that the lexer reads.
///
/// The lexer calls a method for each identifier, punct and literal, and for each delimiter of a
/// group, in order. The lexer stores the delimiters and the positions of open groups, and the
/// builder stores the trees. Contracts describe a builder as its `Levels`. Each level contains the
/// trees of one open group, or the trees outside all groups.
///
/// If a method returns an error, it leaves the levels unchanged, and drops the token that it
/// received.
pub trait Build {
    // The trees so far: those before each open group, and those of the innermost level.
    ghost levels: { Self → Levels };

    /// Appends an identifier to the innermost open group, or to the top level if no group is open.
    fn ident(&mut self, ident: Ident) -> Result<(), AllocError>
        ensures ok { OnOk result (levels self.new ≡ add_leaf (ident_of ident) (levels self.old)) }
        ensures err { OnErr result (levels self.new ≡ levels self.old) };

    /// Appends a punct to the innermost open group, or to the top level if no group is open.
    fn punct(&mut self, punct: Punct) -> Result<(), AllocError>
        ensures ok { OnOk result (levels self.new ≡ add_leaf (punct_of punct) (levels self.old)) }
        ensures err { OnErr result (levels self.new ≡ levels self.old) };

    /// Appends a literal to the innermost open group, or to the top level if no group is open.
    fn literal(&mut self, literal: Literal) -> Result<(), AllocError>
        ensures ok { OnOk result
            (levels self.new ≡ add_leaf (literal_of literal) (levels self.old)) }
        ensures err { OnErr result (levels self.new ≡ levels self.old) };

    /// Opens an empty group, which becomes the innermost open group.
    fn open(&mut self) -> Result<(), AllocError>
        ensures ok { OnOk result (levels self.new ≡ opened (levels self.old)) }
        ensures err { OnErr result (levels self.new ≡ levels self.old) };

    /// Closes the innermost open group, and appends this group to the group around it, or to the
    /// top level.
    ///
    /// # Requires
    ///
    /// A group must be open.
    fn close(&mut self, delimiter: Delimiter, span: Span) -> Result<(), AllocError>
        requires { 0 < length (levels self.old).outer }
        ensures ok { OnOk result (Closes delimiter span (levels self.old) (levels self.new)) }
        ensures err { OnErr result (levels self.new ≡ levels self.old) };
}

/// A builder of token streams.
///
/// One vector contains the trees outside all groups, and then the trees of each open group, from
/// the outermost group to the innermost. A second vector contains the positions at which the trees
/// of the open groups begin. Contracts describe a builder as its `Levels`.
///
/// When a group closes, its trees move to a new vector with exactly enough room. No group therefore
/// keeps a vector that has grown.
#[derive(Drop)]
pub struct TreeBuilder {
    alloc: Global,
    trees: Vec<TokenTree>,
    starts: Vec<usize>,
}

impl Model for TreeBuilder {
    ghost use Rattle.std.specs.Prelude.{◌≡◌, true, length, reverse};
    ghost use Rattle.tok_core.specs.Building.{Levels, levels_code};
    ghost use Rattle.tok_core.specs.Private.Cuts.{levels_in, is_in_order};

    ghost Value = { Levels };

    ghost coded = { levels_code };

    ghost view = { λ b. levels_in (reverse b.starts.items) b.trees.items };

    ghost invariant = { λ b.
        is_in_order (reverse b.starts.items) (length b.trees.items) ≡ true };
}

// Takes the trees from this one on out of the vector, which then has room for one more.
fn take_level(
    alloc: Global,
    trees: &mut Vec<TokenTree>,
    start: usize,
) -> Result<Vec<TokenTree>, AllocError>
    requires { start ≤ length trees.old.items }
    ensures kept { OnOk result (trees.new.items ≡ take start trees.old.items) }
    ensures taken { IfOk result (λ level. level.items ≡ drop start trees.old.items) }
    ensures room { OnOk result (vec_len trees.new < vec_capacity trees.new) }
    ensures err { OnErr result (trees.new.items ≡ trees.old.items) }
{
    if start == trees.len() {
        trees.reserve(1)?;
        return Ok(Vec::new(alloc));
    }
    // The trees that move out leave room.
    trees.split_off(start)
}

// Few texts have more trees than one in so many bytes outside of all groups.
const BYTES_A_TREE: usize = 16;

// Returns for how many trees a builder has room at first.
fn first_room(bytes: usize) -> usize
    ensures few { bytes < 2 ^ 8 → result ≡ 0 }
    ensures many { 2 ^ 8 ≤ bytes → result ≡ min bytes (2 ^ 18) / 16 }
{
    counted_bytes(bytes) / BYTES_A_TREE
}

impl TreeBuilder {
    /// Creates an empty builder for a text of `bytes` bytes.
    ///
    /// The builder has enough room for most texts of this length. Returns an error if the
    /// allocation fails.
    pub fn with_room(alloc: Global, bytes: usize) -> Result<TreeBuilder, AllocError>
        ensures { IfOk result (λ b. b ≡ nothing) }
    {
        Ok(TreeBuilder {
            alloc,
            trees: Vec::with_capacity(alloc, first_room(bytes))?,
            starts: Vec::new(alloc),
        })
    }

    /// Converts the builder into a stream of its trees.
    ///
    /// Returns an error if the allocation fails.
    ///
    /// # Requires
    ///
    /// All groups must be closed.
    //
    // The inner levels may have taken far more room than the outermost one needs.
    pub fn into_stream(self) -> Result<TokenStream, AllocError>
        requires { self.outer ≡ [] }
        ensures { IfOk result (λ stream. stream ≡ self.inner) }
    {
        let TreeBuilder {
            alloc,
            trees,
            starts: _,
        } = self;
        Ok(TokenStream::of_trees(alloc, fitted(trees)?))
    }
}

impl Build for TreeBuilder {
    ghost levels = { λ b. b };

    #[inline(always)]
    fn ident(&mut self, ident: Ident) -> Result<(), AllocError> {
        self.trees.push(TokenTree::Ident(ident))?;
        Ok(())
    }

    #[inline(always)]
    fn punct(&mut self, punct: Punct) -> Result<(), AllocError> {
        self.trees.push(TokenTree::Punct(punct))?;
        Ok(())
    }

    #[inline(always)]
    fn literal(&mut self, literal: Literal) -> Result<(), AllocError> {
        self.trees.push(TokenTree::Literal(literal))?;
        Ok(())
    }

    #[inline(always)]
    fn open(&mut self) -> Result<(), AllocError> {
        self.starts.push(self.trees.len())?;
        Ok(())
    }

    // If the allocation fails, nothing changes.
    #[inline(always)]
    fn close(&mut self, delimiter: Delimiter, span: Span) -> Result<(), AllocError> {
        let Some(start) = self.starts.pop() else {
            unreachable!()
        };
        match take_level(self.alloc, &mut self.trees, start) {
            Ok(inside) => {
                let inside = TokenStream::of_trees(self.alloc, inside);
                let group = Group::new(delimiter, inside, span);
                self.trees.push_reserved(TokenTree::Group(group));
                Ok(())
            }
            Err(_) => {
                self.starts.push_reserved(start);
                Err(AllocError)
            }
        }
    }
}

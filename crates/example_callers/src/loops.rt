//! Loops over a cursor.
//!
//! Each read of a cursor stays in the cursor's scope and decreases `remaining`, as the laws of
//! `tok_buffer` state. Therefore, the loops end, and return cursors in the same scope.
ghost use Rattle.std.specs.Prelude.{◌≡◌, ◌∷◌, [], true, None, Some, IfOk, IfSome, MatchOption};
ghost use Rattle.tok_core.specs.Forest.{Tree};
ghost use Rattle.tok_core.specs.Seen.{tree_of};
ghost use Rattle.tok_buffer.specs.Cursors.{place_of};
ghost use Rattle.tok_buffer.specs.Place.{Place};
ghost use Rattle.tok_buffer.specs.Progress.{StaysIn};
ghost use Rattle.tok_buffer.specs.Reads.{is_punct_of, read_ident, read_tree};
ghost use Rattle.example_callers.specs.Loops.{PassesIdents, PassesOthers};

use std::alloc::{AllocError, Global};
use tok_buffer::Cursor;
use tok_buffer::laws::{reads_go_on, stays_along};
use tok_core::TokenTree;

/// Skips identifiers up to the next token of another kind, and returns the cursor at this token.
///
/// The call ignores the delimiters of invisible groups.
#[tactic(auto, using(crate::specs::Loops::none))]
pub fn past_idents<'a>(cursor: Cursor<'a>) -> Cursor<'a>
    ensures passes { PassesIdents (place_of cursor.entry) (place_of result) }
    ensures all { read_ident (place_of result) ≡ None }
    ensures stays { StaysIn (place_of cursor.entry) (place_of result) }
{
    reads_go_on();
    stays_along();
    let mut after = cursor;
    while let Some((_, next)) = after.ident() {
        after = next;
    }
    after
}

/// Returns the cursor after the first `@` in the scope, or `None` if the scope contains no `@`.
///
/// The call does not search inside groups. Returns an error if an allocation fails.
#[tactic(auto, using(crate::specs::Loops::no_more))]
pub fn past_sign<'a>(alloc: Global, cursor: Cursor<'a>) -> Result<Option<Cursor<'a>>, AllocError>
    ensures finds { IfOk result (λ found. (p : Place) × PassesOthers (place_of cursor.entry) p
        × MatchOption found
        (read_tree p ≡ None)
        (λ rest. (t : Tree) × (read_tree p ≡ Some (t ∷ [], place_of rest))
        × (is_punct_of 64 t ≡ true))) }
    ensures stays { IfOk result
        (λ found. IfSome found (λ rest. StaysIn (place_of cursor.entry) (place_of rest))) }
{
    reads_go_on();
    stays_along();
    let mut rest = cursor;
    while let Some((tree, next)) = rest.token_tree(alloc)? {
        if is_sign(tree) {
            return Ok(Some(next));
        }
        rest = next;
    }
    Ok(None)
}

// Returns `true` if this tree, which is dropped, is an `@`.
fn is_sign(tree: TokenTree) -> bool
    ensures { result ≡ is_punct_of 64 (tree_of tree) }
{
    match tree {
        TokenTree::Punct(punct) => punct.as_char() == '@',
        _ => false,
    }
}

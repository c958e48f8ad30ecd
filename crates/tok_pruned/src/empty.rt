//! Removes the invisible groups that contain no visible tree.
ghost use Rattle.std.specs.Prelude.{◌≡◌, IfOk, IsOk, OnOk, true};
ghost use Rattle.tok_core.specs.Filled.{filled};
ghost use Rattle.tok_core.specs.Forest.{concat, no_trees, tree};
ghost use Rattle.tok_core.specs.Seen.{tree_of};
ghost use Rattle.tok_pruned.specs.Pruned.{pruned, is_kept};

use std::alloc::{AllocError, Global};
use tok_core::{Delimiter, Group, TokenStream, TokenTree, is_filled};

/// Removes the invisible groups that contain no visible tree, at every depth.
///
/// A visible tree is any token tree except an invisible group. The result contains the same visible
/// trees as `stream`, with the same spans. Each invisible group of the result contains a visible
/// tree (the law `pruning_fills`).
///
/// If there is no group to remove, the call returns the stream unchanged, and does not allocate.
/// Otherwise, the call moves the trees to new streams, and makes one allocation for each new
/// stream. If an allocation fails, the call returns an error and drops the stream.
///
/// # Examples
///
/// ```rust
/// let stream = prune(alloc, lex_marked(alloc, 0, "« » f(« » a)")?)?;
/// ```
#[tactic(auto, using(crate::proofs::Pruning::pruned_filled))]
pub fn prune(alloc: Global, stream: TokenStream) -> Result<TokenStream, AllocError>
    ensures prunes { IfOk result (λ f. f ≡ pruned stream) }
    ensures succeeds { filled stream ≡ true → IsOk result }
{
    if is_filled(&stream) {
        Ok(stream)
    } else {
        prune_level(alloc, stream)
    }
}

// Moves the trees that stay into a new stream.
#[cycle(pruning)]
fn prune_level(alloc: Global, stream: TokenStream) -> Result<TokenStream, AllocError>
    ensures { IfOk result (λ f. f ≡ pruned stream) }
{
    let mut kept = TokenStream::with_capacity(alloc, stream.trees().len())?;
    for next in stream.into_trees() {
        prune_tree(alloc, &mut kept, next)?;
    }
    Ok(kept)
}

// Appends a tree, unless it is an invisible group that contains nothing visible.
#[cycle(pruning)]
fn prune_tree(alloc: Global, kept: &mut TokenStream, next: TokenTree) -> Result<(), AllocError>
    ensures { OnOk result (kept.new ≡ concat kept.old (pruned (tree (tree_of next) no_trees))) }
{
    match next {
        TokenTree::Ident(ident) => kept.append(TokenTree::Ident(ident)),
        TokenTree::Punct(punct) => kept.append(TokenTree::Punct(punct)),
        TokenTree::Literal(literal) => kept.append(TokenTree::Literal(literal)),
        TokenTree::Group(group) => {
            let delimiter = group.delimiter();
            let span = group.span();
            let inside = prune_level(alloc, group.into_stream())?;
            if stays(delimiter, &inside) {
                kept.append(TokenTree::Group(Group::new(delimiter, inside, span)))?;
            }
            Ok(())
        }
    }
}

// Returns `true` if a group with these pruned contents stays.
fn stays(delimiter: Delimiter, inside: &TokenStream) -> bool
    ensures { result ≡ is_kept delimiter inside.now }
{
    match delimiter {
        Delimiter::None => !inside.is_empty(),
        _ => true,
    }
}

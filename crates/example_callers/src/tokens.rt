//! Callers of `tok_types`, which define a token, peek at two tokens, and write tokens.
ghost use Rattle.std.specs.Prelude.{◌≡◌, ◌||◌, ◌&&◌, Bool, codes, is_some, OnOk};
ghost use Rattle.tok_core.specs.Forest.{group, concat, leaf, no_trees, tree};
ghost use Rattle.tok_leaves.specs.Leaves.{ident};
ghost use Rattle.tok_leaves.specs.Spans.{call_site};
ghost use Rattle.tok_lexical.specs.declared.delimiter.Delimiter.TheVariants.{Parenthesis};
ghost use Rattle.tok_buffer.specs.Cursors.{place_of};
ghost use Rattle.tok_buffer.specs.Entry.{enter};
ghost use Rattle.tok_buffer.specs.Reads.{read_keyword, skip};
ghost use Rattle.example_callers.specs.Looks.{after_skip};

use std::alloc::AllocError;
use tok_buffer::Cursor;
use tok_core::{ToTokens, TokenStream};
use tok_types::token;
use tok_types::token::Token;

/// A word that is a keyword only for this caller.
///
/// To declare such a word, implement the two functions of `Token`.
pub struct Sealed;

impl Token for Sealed {
    fn peek(cursor: Cursor<'_>) -> bool {
        cursor.peek_keyword("sealed")
    }

    fn display() -> &'static str {
        "`sealed`"
    }
}

/// Returns `true` if `A` or `B` is next.
pub fn either<A: Token, B: Token>(cursor: Cursor<'_>) -> bool
    ensures { (a : Bool) × (b : Bool) × A.peeks (place_of cursor.entry) a
        × B.peeks (place_of cursor.entry) b × (result ≡ (a || b)) }
{
    let first = A::peek(cursor);
    let second = B::peek(cursor);
    first || second
}

/// Returns `true` if `pub` is the next token and parentheses come after it, as in `pub (crate)`.
pub fn is_restricted(cursor: Cursor<'_>) -> bool
    ensures { result ≡ (is_some (read_keyword (codes "pub") (place_of cursor.entry))
        && after_skip (λ p. is_some (enter Parenthesis p)) (skip (place_of cursor.entry))) }
{
    match cursor.skip() {
        Some(rest) => token::Pub::peek(cursor) && token::Paren::peek(rest),
        None => false,
    }
}

// Writes `crate`.
fn write_crate(tokens: &mut TokenStream) -> Result<(), AllocError>
    ensures { OnOk result
        (tokens.new ≡ concat tokens.old (tree (leaf (ident (codes "crate") call_site)) no_trees)) }
{
    token::Crate::default().to_tokens(tokens)
}

/// Appends the tokens `pub (crate)` to `tokens`.
#[tactic(auto, using(tok_core::proofs::Facts::joined_assoc))]
pub fn write_restricted(tokens: &mut TokenStream) -> Result<(), AllocError>
    ensures { OnOk result (tokens.new ≡ concat tokens.old
        (tree (leaf (ident (codes "pub") call_site))
        (tree (group Parenthesis (tree (leaf (ident (codes "crate") call_site)) no_trees) call_site)
        no_trees))) }
{
    token::Pub::default().to_tokens(tokens)?;
    token::Paren::default().surround(tokens, write_crate)
}

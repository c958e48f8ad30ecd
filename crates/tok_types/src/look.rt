//! The trait of the types that a peek can find, and a function that writes an identifier.
ghost use Rattle.std.specs.Prelude.{◌≡◌, ℕ, Bool, List, None, Option, OnOk, OnErr};
ghost use Rattle.std.specs.Str.{chars};
ghost use Rattle.tok_buffer.specs.Cursors.{place_of};
ghost use Rattle.tok_buffer.specs.Place.{Place};
ghost use Rattle.tok_core.specs.Forest.{AppendsFront, Forest, concat};
ghost use Rattle.tok_leaves.specs.Leaves.{ident};
ghost use Rattle.tok_lexical.specs.Words.{IsSuffix};
ghost use Rattle.tok_types.specs.Printed.{word};
ghost use Rattle.tok_types.specs.Sees.{Sees};

use std::alloc::AllocError;
use tok_buffer::Cursor;
use tok_core::known::identifier;
use tok_core::{Ident, Span, TokenStream, TokenTree};

/// A type of token that a peek can find and an error can name.
///
/// All token types implement this trait. To define a token type of your own, implement both
/// functions. You may also add contracts that state what the functions do.
pub trait Token {
    // When a peek at a place is true. Of a type that states nothing, nothing is known.
    ghost peeks: { Place → Bool → Type 0 } = { λ _ _. Unit {0} };

    ghost shown: { List ℕ → Type 0 } = { λ _. Unit {0} };

    // When a peek is true, as a function of the visible trees ahead.
    ghost sees: { Option (Forest → Bool) } = { None };

    /// Returns `true` if the token at `cursor` is of this type.
    fn peek(cursor: Cursor<'_>) -> bool
        ensures peeks { peeks (place_of cursor.entry) result }
        ensures sees { Sees sees (place_of cursor.entry) result };

    /// Returns the name that error messages use for this type of token.
    ///
    /// The name is the text of the token in backquotes, or a description such as `identifier`.
    fn display() -> &'static str
        ensures { shown result.now };
}

/// Appends an identifier with the text `text` to `tokens`, or nothing if `text` is empty.
///
/// Returns an error if an allocation fails. `tokens` is then unchanged.
///
/// # Requires
///
/// `text` must be empty or a valid identifier that is not raw.
pub fn append_word(text: &str, span: Span, tokens: &mut TokenStream) -> Result<(), AllocError>
    requires { IsSuffix (chars text.now) }
    ensures ok { OnOk result (tokens.new ≡ concat tokens.old (word text.now span)) }
    ensures err { OnErr result (AppendsFront tokens.old (word text.now span) tokens.new) }
{
    if text.is_empty() {
        return Ok(());
    }
    let ident = identifier(tokens.allocator(), text, span)?;
    tokens.append(TokenTree::Ident(ident))
}

//! The trait of the kinds of literals, and functions that peek at or parse a literal of one kind.
ghost use Rattle.std.specs.Prelude.{◌≡◌, ℕ, Bool, List};
ghost use Rattle.tok_leaves.specs.Leaves.{leaf_text, literal_of};
ghost use Rattle.tok_buffer.specs.Cursors.{place_of};
ghost use Rattle.tok_types.specs.Looks.{PeeksFor};
ghost use Rattle.syn_literals.specs.Kinds.{KindParses, read_literal_of};

use syn_parse::{ParseStream, Result};
use tok_buffer::Cursor;
use tok_core::Literal;

/// A kind of literal that a parser can expect, such as the integer literals.
pub(crate) trait Kind {
    // Whether a literal of this text is of the kind.
    ghost accepts: { List ℕ → Bool };

    // The text of the error where there is none.
    ghost words: { List ℕ };

    /// Returns `true` if the literal is of this kind.
    fn accepts(literal: &Literal) -> bool
        ensures { result ≡ accepts (leaf_text (literal_of literal.now)) };

    /// Returns the error message for a token that is not a literal of this kind.
    fn words() -> &'static str
        ensures { result.now ≡ words };
}

/// Returns `true` if a literal of the kind `K` is next.
pub(crate) fn peek_kind<K: Kind>(cursor: Cursor<'_>) -> bool
    ensures { PeeksFor (read_literal_of K.accepts) (place_of cursor.entry) result }
{
    match cursor.literal() {
        Some((literal, _)) => K::accepts(literal),
        None => false,
    }
}

/// Parses a literal of the kind `K`.
pub(crate) fn parse_kind<K: Kind>(input: ParseStream<'_, '_>) -> Result<Literal>
    ensures { KindParses K.accepts K.words input.old result input.new }
{
    if !peek_kind::<K>(input.cursor()) {
        return Err(input.error(K::words()));
    }
    input.parse()
}

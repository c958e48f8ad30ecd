//! Implementations of `Token` for identifiers, literals, puncts, lifetimes, groups and trees, and
//! types for the end of a scope and for any identifier.
ghost use Rattle.std.specs.Prelude.{◌≡◌, codes, Some};
ghost use Rattle.tok_buffer.specs.Place.{is_at_end};
ghost use Rattle.tok_buffer.specs.Reads.{any_text, is_group, read_ident, read_lifetime, read_literal, read_punct, read_tree, read_word, read_if};
ghost use Rattle.tok_types.specs.Looks.{PeeksFor, IsText};
ghost use Rattle.tok_types.specs.Texts.{accept_as_ident};
ghost use Rattle.tok_types.specs.Sees.{any_ident_first, ident_first, lifetime_first, literal_first, punct_first};

use crate::look::Token;
use crate::texts::accept_as_ident;
use tok_buffer::{Cursor, Lifetime};
use tok_core::{Group, Ident, Literal, Punct, TokenTree};

/// A pseudo-token for peeking at the end of a parse stream.
///
/// The stream is over a whole text, or over the contents of a group.
#[derive(Clone, Copy, PartialEq, Eq, Hash, Debug, Default)]
pub struct End;

/// An identifier with any text, including reserved words.
pub struct IdentAny;

/// A peek finds an identifier that is not a reserved word.
impl Token for Ident {
    ghost peeks = { PeeksFor (read_word accept_as_ident) };

    ghost sees = { Some ident_first };

    ghost shown = { IsText (codes "identifier") };

    fn peek(cursor: Cursor<'_>) -> bool {
        match cursor.ident() {
            Some((ident, _)) => accept_as_ident(ident.as_str()),
            None => false,
        }
    }

    fn display() -> &'static str {
        "identifier"
    }
}

impl Token for IdentAny {
    ghost peeks = { PeeksFor read_ident };

    ghost sees = { Some any_ident_first };

    ghost shown = { IsText (codes "identifier") };

    #[tactic(auto, using(crate::proofs::Seen::any_ident_seen))]
    fn peek(cursor: Cursor<'_>) -> bool {
        cursor.ident().is_some()
    }

    fn display() -> &'static str {
        Ident::display()
    }
}

/// A peek finds a lifetime, whose name may be a reserved word.
impl Token for Lifetime {
    ghost peeks = { PeeksFor (read_lifetime any_text) };

    ghost sees = { Some lifetime_first };

    ghost shown = { IsText (codes "lifetime") };

    #[tactic(auto, using(crate::proofs::Seen::lifetime_seen))]
    fn peek(cursor: Cursor<'_>) -> bool {
        cursor.lifetime().is_some()
    }

    fn display() -> &'static str {
        "lifetime"
    }
}

impl Token for Literal {
    ghost peeks = { PeeksFor read_literal };

    ghost sees = { Some literal_first };

    ghost shown = { IsText (codes "literal") };

    #[tactic(auto, using(crate::proofs::Seen::literal_seen))]
    fn peek(cursor: Cursor<'_>) -> bool {
        cursor.literal().is_some()
    }

    fn display() -> &'static str {
        "literal"
    }
}

/// A peek finds a punct other than an apostrophe.
impl Token for Punct {
    ghost peeks = { PeeksFor read_punct };

    ghost sees = { Some punct_first };

    ghost shown = { IsText (codes "punctuation token") };

    #[tactic(auto, using(crate::proofs::Seen::punct_seen))]
    fn peek(cursor: Cursor<'_>) -> bool {
        cursor.punct().is_some()
    }

    fn display() -> &'static str {
        "punctuation token"
    }
}

/// A peek finds a visible or invisible group if the group is the next tree.
///
/// The peek does not enter invisible groups.
impl Token for Group {
    ghost peeks = { PeeksFor (read_if is_group) };

    ghost shown = { IsText (codes "group token") };

    fn peek(cursor: Cursor<'_>) -> bool {
        cursor.any_group().is_some()
    }

    fn display() -> &'static str {
        "group token"
    }
}

/// A peek finds any tree, including an invisible group.
impl Token for TokenTree {
    ghost peeks = { PeeksFor read_tree };

    ghost shown = { IsText (codes "token") };

    fn peek(cursor: Cursor<'_>) -> bool {
        !cursor.eof()
    }

    fn display() -> &'static str {
        "token"
    }
}

/// A peek finds the end of the stream. If an empty invisible group is next, the stream is not at
/// its end.
///
/// In place of the name that `display` returns, the error of a `Lookahead1` shows the closing
/// delimiter of the group.
impl Token for End {
    ghost peeks = { λ p found. found ≡ is_at_end p };

    ghost shown = { IsText (codes "`)`") };

    fn peek(cursor: Cursor<'_>) -> bool {
        cursor.eof()
    }

    fn display() -> &'static str {
        "`)`"
    }
}

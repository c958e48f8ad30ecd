//! Token types that combine the peeks of other token types.
ghost use Rattle.std.specs.Prelude.{codes};
ghost use Rattle.syn_choices.specs.Peeks.{BothPeek, EitherPeeks, NoPeek, both_see, either_sees, not_sees};
ghost use Rattle.syn_parse.specs.Reads.{Peeks2};
ghost use Rattle.syn_parse.specs.Skips.{second_sees};
ghost use Rattle.tok_buffer.specs.Cursors.{place_of};
ghost use Rattle.tok_types.specs.Looks.{IsText};
ghost use Rattle.tok_types.specs.Sees.{Sees};

use std::marker::PhantomData;
use tok_buffer::Cursor;
use tok_types::token::Token;

/// A pseudo-token for a peek that is true if an `A` is next and the token after it is a `B`.
///
/// Error messages show the name of `A` for this type.
///
/// # Examples
///
/// ```rust
/// let is_named = input.peek::<Then<Ident, token::Colon>>();
/// ```
pub struct Then<A, B> {
    of: PhantomData<(A, B)>,
}

/// A pseudo-token for a peek that is true if an `A` or a `B` is next.
///
/// Error messages show the name of `A` for this type. A lookahead shows both names only if it peeks
/// at `A` and at `B` separately.
///
/// # Examples
///
/// ```rust
/// let items = input.parse_while::<OneOf<token::Struct, token::Enum>, Item>()?;
/// ```
pub struct OneOf<A, B> {
    of: PhantomData<(A, B)>,
}

/// A pseudo-token for a peek that is true if no `A` is next.
///
/// The peek is also true at the end of the stream. Error messages show the name "something else"
/// for this type.
///
/// # Examples
///
/// ```rust
/// let words = input.parse_while::<Then<Ident, NotNext<token::Eq>>, Ident>()?;
/// ```
pub struct NotNext<A> {
    of: PhantomData<A>,
}

impl<A: Token, B: Token> Token for Then<A, B> {
    ghost peeks = { BothPeek A.peeks (Peeks2 B.peeks) };

    ghost sees = { both_see A.sees (second_sees B.sees) };

    ghost shown = { A.shown };

    fn peek(cursor: Cursor<'_>) -> bool {
        A::peek(cursor) && peek_second::<B>(cursor)
    }

    fn display() -> &'static str {
        A::display()
    }
}

impl<A: Token, B: Token> Token for OneOf<A, B> {
    ghost peeks = { EitherPeeks A.peeks B.peeks };

    ghost sees = { either_sees A.sees B.sees };

    ghost shown = { A.shown };

    fn peek(cursor: Cursor<'_>) -> bool {
        A::peek(cursor) || B::peek(cursor)
    }

    fn display() -> &'static str {
        A::display()
    }
}

impl<A: Token> Token for NotNext<A> {
    ghost peeks = { NoPeek A.peeks };

    ghost sees = { not_sees A.sees };

    ghost shown = { IsText (codes "something else") };

    fn peek(cursor: Cursor<'_>) -> bool {
        !A::peek(cursor)
    }

    fn display() -> &'static str {
        "something else"
    }
}

// Returns `true` if this token comes after the next one.
fn peek_second<T: Token>(cursor: Cursor<'_>) -> bool
    ensures peeks { Peeks2 T.peeks (place_of cursor.entry) result }
    ensures sees { Sees (second_sees T.sees) (place_of cursor.entry) result }
{
    match cursor.skip() {
        Some(second) => T::peek(second),
        None => false,
    }
}

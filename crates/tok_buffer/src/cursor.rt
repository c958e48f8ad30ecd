//! Cursors, which are positions in a token buffer, and references to the lifetimes in a buffer.
mod reads;
mod rest;
mod spans;

use crate::buffer::TokenBuffer;
use crate::spot::Spot;
use tok_core::{Ident, Span};

/// A position in a token buffer, together with a scope: the whole buffer or the contents of a
/// group.
///
/// A cursor is cheap to copy. A method that reads a token returns the cursor after the token.
///
/// Macros insert invisible groups, whose delimiter is `Delimiter::None`, around tokens. The methods
/// that read or skip a visible token or tree, and the peeks, first enter every invisible group that
/// is next. The method `group` does the same if its delimiter is visible. The methods `eof`,
/// `any_group` and `token_tree` treat an invisible group as a tree. A cursor leaves an invisible
/// group at the end of the group.
///
/// # Examples
///
/// ```rust
/// let buffer = TokenBuffer::from_marked(alloc, 0, 0, "«a» = (b)")?;
/// if let Some((name, rest)) = buffer.begin().ident() {
///     assert_eq!(rt; name.as_str(), "a");
///     assert_eq!(rt; rest.peek_punct("="), true);
/// }
/// ```
#[derive(Clone, Copy)]
pub struct Cursor<'a> {
    // `None` is the empty place.
    spot: Option<Spot<'a>>,
}

/// A lifetime in a buffer: the span of the apostrophe, and a reference to the identifier.
#[derive(Clone, Copy, Debug)]
pub struct LifetimeRef<'a> {
    pub apostrophe: Span,
    pub ident: &'a Ident,
}

impl TokenBuffer {
    ghost use Rattle.std.specs.Prelude.{◌≡◌};
    ghost use Rattle.tok_buffer.specs.Cursors.{place_of};
    ghost use Rattle.tok_buffer.specs.Place.{start};

    /// Returns a cursor at the first tree of the buffer. The scope of the cursor is the whole
    /// buffer.
    pub fn begin<'a>(&'a self) -> Cursor<'a>
        ensures { place_of result ≡ start self.now.number self.now.forest }
    {
        Cursor::at(Spot {
            buffer: self,
            position: 0,
            scope: self.last(),
        })
    }
}

impl<'a> Cursor<'a> {
    ghost use Rattle.std.specs.Prelude.{◌≡◌};
    ghost use Rattle.tok_buffer.specs.Cursors.{place_of, spot_place};
    ghost use Rattle.tok_buffer.specs.Place.{empty_place, is_at_end};

    // Returns the cursor at a spot.
    fn at(spot: Spot<'a>) -> Cursor<'a>
        ensures { place_of result ≡ spot_place spot.entry }
    {
        Cursor { spot: Some(spot) }
    }

    /// Returns the empty cursor, which belongs to no buffer and is at the end of its scope.
    pub fn empty() -> Cursor<'a>
        ensures { place_of result ≡ empty_place }
    {
        Cursor { spot: None }
    }

    /// Returns `true` if the cursor is at the end of its scope.
    ///
    /// If the next tree is an invisible group, the cursor is not at the end, even if the group is
    /// empty.
    pub fn eof(self) -> bool
        ensures { result ≡ is_at_end (place_of self.entry) }
    {
        match self.spot {
            None => true,
            Some(spot) => spot.position == spot.scope,
        }
    }
}

//! Callers of `tok_buffer`, which move a cursor over tokens and read a lifetime across a delimiter
//! of an invisible group.
ghost use Rattle.std.specs.Prelude.{◌≡◌, ◌∷◌, [], MatchOption, Some, None};
ghost use Rattle.tok_core.specs.Forest.{leaf};
ghost use Rattle.tok_leaves.specs.Leaves.{ident_of};
ghost use Rattle.tok_buffer.specs.Cursors.{place_of};
ghost use Rattle.tok_buffer.specs.Place.{Place};
ghost use Rattle.tok_buffer.specs.Reads.{read_then, any_text, read_ident, read_lifetime};
ghost use Rattle.tok_core.specs.Seen.{lifetime_trees};

use tok_buffer::Cursor;
use tok_core::{Ident, Span};

/// Returns the next two identifiers and the cursor after them, or `None` if the next two tokens are
/// not identifiers.
///
/// The call ignores the delimiters of invisible groups.
pub fn pair_of_idents<'a>(cursor: Cursor<'a>) -> Option<(&'a Ident, &'a Ident, Cursor<'a>)>
    ensures { MatchOption result
        (read_then (read_ident (place_of cursor.entry)) read_ident ≡ None)
        (λ r. read_then (read_ident (place_of cursor.entry)) read_ident
        ≡ Some (leaf (ident_of r.0.now) ∷ leaf (ident_of r.1.now) ∷ [], place_of r.2)) }
{
    let (first, after) = cursor.ident()?;
    let (second, rest) = after.ident()?;
    Some((first, second, rest))
}

/// Returns the span of the apostrophe and the name of the next lifetime, or `None` if no lifetime
/// is next.
///
/// The lifetime may have any name, and the name may be in an invisible group.
pub fn any_lifetime<'a>(cursor: Cursor<'a>) -> Option<(Span, &'a Ident)>
    ensures { MatchOption result
        (read_lifetime any_text (place_of cursor.entry) ≡ None)
        (λ r. (p : Place)
        × (read_lifetime any_text (place_of cursor.entry)
        ≡ Some (lifetime_trees r.0 (ident_of r.1.now), p))) }
{
    let (lifetime, _) = cursor.lifetime()?;
    Some((lifetime.apostrophe, lifetime.ident))
}

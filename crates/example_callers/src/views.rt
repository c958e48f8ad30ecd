//! A caller of the laws that compare cursors without their invisible groups. Its result does not
//! depend on invisible groups.
ghost use Rattle.std.specs.Prelude.{◌≡◌};
ghost use Rattle.example_callers.specs.Views.{IsSame, is_name_second};
ghost use Rattle.tok_buffer.specs.Cursors.{place_of};

use tok_buffer::Cursor;
use tok_buffer::laws::{calls_lead_on, views_decide};

// Returns `true` if a name comes after the next token.
fn is_name_second(cursor: Cursor<'_>) -> bool
    ensures { result ≡ is_name_second (place_of cursor.entry) }
{
    match cursor.skip() {
        Some(rest) => rest.ident().is_some(),
        None => false,
    }
}

/// Returns, for each of the cursors `left` and `right`, whether a name comes after the next token.
///
/// Suppose that each invisible group in both buffers contains a visible token, and that the
/// positions of the cursors differ only in invisible groups. Then both results are equal. They are
/// equal even if the next token is a lifetime whose name is in an invisible group of its own.
#[tactic(auto, using(crate::proofs::SameViews::same_seconds))]
pub fn names_second(left: Cursor<'_>, right: Cursor<'_>) -> (bool, bool)
    ensures left { result.0 ≡ is_name_second (place_of left.entry) }
    ensures right { result.1 ≡ is_name_second (place_of right.entry) }
    ensures same { IsSame (place_of left.entry) (place_of right.entry) result.0 result.1 }
{
    views_decide();
    calls_lead_on();
    (is_name_second(left), is_name_second(right))
}

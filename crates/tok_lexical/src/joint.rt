//! Decides whether a punctuation character is joint to the next one, and whether a dot belongs to a
//! float.
ghost use Rattle.std.specs.Prelude.{◌≡◌};
ghost use Rattle.std.specs.Str.{chars};
ghost use Rattle.tok_lexical.specs.Following.{starts_punct, begins_comment, makes_joint, makes_joint_apostrophe, past_marks, takes_point};

use crate::classes::is_punct_or_apostrophe;
use crate::text::{begins_with, next_char, past_char};
use crate::words::{is_identifier_start, starts_name};

/// Returns `true` if `rest` begins with a punctuation character or an apostrophe.
fn starts_punct(rest: &str) -> bool
    ensures { result ≡ starts_punct (chars rest.now) }
{
    match next_char(rest) {
        Some((first, _)) => is_punct_or_apostrophe(first),
        None => false,
    }
}

/// Returns `true` if `rest` begins with `//` or `/*`.
pub fn begins_comment(rest: &str) -> bool
    ensures { result ≡ begins_comment (chars rest.now) }
{
    match past_char(rest, '/') {
        Some(after) => begins_with(after, '/') || begins_with(after, '*'),
        None => false,
    }
}

/// Returns `true` if a punctuation character directly before `rest` is joint.
///
/// The character is joint if `rest` begins with a punctuation character or an apostrophe, but not
/// with a comment.
// Inlined: the loop over pieces asks this after each punct.
#[inline(always)]
pub fn makes_joint(rest: &str) -> bool
    ensures { result ≡ makes_joint (chars rest.now) }
{
    starts_punct(rest) && !begins_comment(rest)
}

/// Returns `true` if, in a text for `lex_marked`, an apostrophe directly before `after` is joint.
///
/// The call ignores `«` and `»` at the start of `after`. The apostrophe is joint if the rest of
/// `after` begins with an identifier, a punctuation character or another apostrophe.
pub fn makes_joint_apostrophe(after: &str) -> bool
    ensures { result ≡ makes_joint_apostrophe (chars after.now) }
{
    let next = past_marks(after);
    starts_name(next) || starts_punct(next)
}

/// Returns `text` without its leading `«` and `»`, which are the delimiters of invisible groups.
pub fn past_marks(text: &str) -> &str
    ensures { chars result.now ≡ past_marks (chars text.now) }
{
    let mut rest = text;
    while let Some((c, after)) = next_char(rest) {
        if !matches!(c, '\u{AB}' | '\u{BB}') {
            break;
        }
        rest = after;
    }
    rest
}

/// Returns `true` if a dot between decimal digits and the text `after` belongs to a float.
///
/// The dot belongs to a float unless `after` begins with another dot or an identifier.
pub fn takes_point(after: &str) -> bool
    ensures { result ≡ takes_point (chars after.now) }
{
    match next_char(after) {
        Some((first, _)) => !(first == '.' || is_identifier_start(first)),
        None => true,
    }
}

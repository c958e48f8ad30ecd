//! The reasons why a text is not an identifier.
ghost use Rattle.std.specs.Prelude.{◌≡◌, ◌++◌, ℕ, List, Some, encode_utf8_all, length};
ghost use Rattle.std.specs.Str.{chars};
ghost use Rattle.tok_leaves.specs.IdentFaults.{ident_fault, ident_fault_words, raw_ident_fault};
ghost use Rattle.tok_leaves.specs.Private.Front.{front_fault};

use std::fmt::{self, Display, Formatter, Write};
use tok_lexical::text::{front_of, next_char};
use tok_lexical::words::{has_no_raw, is_identifier_start, is_plain, past_continues};

/// The reason why a text is not an identifier or has no raw form.
///
/// # Examples
///
/// ```rust
/// assert_eq!(rt; IdentFault::of("size"), None);
/// assert_eq!(rt; IdentFault::of("8bit"), Some(IdentFault::Number));
/// let fault = IdentFault::Character { at: 2, character: '-' };
/// assert_eq!(rt; IdentFault::of("to-do"), Some(fault));
/// assert_eq!(rt; IdentFault::of_raw("self"), Some(IdentFault::NoRaw));
/// ```
#[derive(Clone, Copy, PartialEq, Eq, Debug)]
pub enum IdentFault {
    /// The text is empty.
    Empty,
    /// The text begins with an ASCII digit.
    Number,
    /// The text begins with `r#`. To create a raw identifier, call `Ident::new_raw` with the text
    /// after `r#`.
    Raw,
    /// The text is `_`, `self`, `Self`, `super` or `crate`, which have no raw form.
    NoRaw,
    /// The character at byte `at` is the first one that an identifier must not contain at that
    /// position.
    Character { at: usize, character: char },
}

impl IdentFault {
    /// Returns the reason why `Ident::new` rejects `text`, or `None` if `Ident::new` accepts
    /// `text`.
    pub fn of(text: &str) -> Option<IdentFault>
        ensures { result ≡ ident_fault (chars text.now) }
    {
        if !is_plain(text) {
            return Some(IdentFault::Raw);
        }
        let Some((first, rest)) = next_char(text) else {
            return Some(IdentFault::Empty);
        };
        if first.is_ascii_digit() {
            Some(IdentFault::Number)
        } else if is_identifier_start(first) {
            front_fault(text, past_continues(rest))
        } else {
            front_fault(text, text)
        }
    }

    /// Returns the reason why `Ident::new_raw` rejects `text`, or `None` if `Ident::new_raw`
    /// accepts `text`.
    pub fn of_raw(text: &str) -> Option<IdentFault>
        ensures { result ≡ raw_ident_fault (chars text.now) }
    {
        if has_no_raw(text) {
            Some(IdentFault::NoRaw)
        } else {
            IdentFault::of(text)
        }
    }
}

/// Writes a description of the reason. For `Character`, the description contains the character.
impl Display for IdentFault {
    ghost output = { λ fault. Some (ident_fault_words fault) };

    fn fmt<W: Write>(&self, f: &mut Formatter<W>) -> fmt::Result {
        match self {
            IdentFault::Empty => f.write_str("empty text"),
            IdentFault::Number => f.write_str("begins with a digit"),
            IdentFault::Raw => f.write_str("begins with `r#`: pass the rest to `Ident::new_raw`"),
            IdentFault::NoRaw => f.write_str("has no raw form"),
            IdentFault::Character { at: _, character } => {
                f.write_str("unexpected character `")?;
                f.write_char(*character)?;
                f.write_str("` in an identifier")
            }
        }
    }
}

impl std::error::Error for IdentFault {}

// Names the character at the front of the rest of a text, if there is one.
fn front_fault(text: &str, rest: &str) -> Option<IdentFault>
    requires { (front : List ℕ) × (chars text.now ≡ front ++ chars rest.now) }
    ensures { (front : List ℕ) → chars text.now ≡ front ++ chars rest.now
        → result ≡ front_fault (length (encode_utf8_all front)) (chars rest.now) }
{
    let at = front_of(text, rest).len();
    let (character, _) = next_char(rest)?;
    Some(IdentFault::Character { at, character })
}

//! Functions that find the next token in an array of entries.
ghost use Rattle.std.specs.Prelude.{◌≡◌};
ghost use Rattle.tok_entries.specs.Cursor.{read_ident, read_lifetime, read_literal, read_punct, skip};
ghost use Rattle.syn_tokens_c.specs.Cursors.{IsFound, delimiter_of, read_numbered};

use tok_core::Delimiter;
use tok_entries::Entry;
use tok_entries::cursor::{Step, group, ident, lifetime, literal, punct, skip};

/// Writes the location of the next token to `step` if this token is an identifier, a keyword or
/// `_`.
///
/// Returns `true` if the location was written. Otherwise, writes nothing and returns `false`.
///
/// `entries` contains the remaining entries of a scope, which is a whole text or the contents of a
/// group. The call skips the delimiters of invisible groups before the token.
#[unsafe(no_mangle)]
pub extern "C" fn syn_tokens_ident(entries: &[Entry], step: &mut Step) -> bool
    ensures { IsFound (read_ident entries.now) result step.old step.new }
{
    tell(ident(entries), step)
}

/// Writes the location of the next token to `step` if this token is a punct other than an
/// apostrophe.
///
/// `texts` contains the texts of all entries. `syn_tokens_ident` explains `entries` and the result.
#[unsafe(no_mangle)]
pub extern "C" fn syn_tokens_punct(entries: &[Entry], texts: &[u8], step: &mut Step) -> bool
    ensures { IsFound (read_punct texts.now entries.now) result step.old step.new }
{
    tell(punct(entries, texts), step)
}

/// Writes the location of the next token to `step` if this token is a literal.
///
/// `syn_tokens_ident` explains `entries` and the result.
#[unsafe(no_mangle)]
pub extern "C" fn syn_tokens_literal(entries: &[Entry], step: &mut Step) -> bool
    ensures { IsFound (read_literal entries.now) result step.old step.new }
{
    tell(literal(entries), step)
}

/// Writes the location of the next token to `step` if this token is a lifetime.
///
/// A lifetime consists of a joint apostrophe and a name. `texts` contains the texts of all entries.
/// `syn_tokens_ident` explains `entries` and the result.
#[unsafe(no_mangle)]
pub extern "C" fn syn_tokens_lifetime(entries: &[Entry], texts: &[u8], step: &mut Step) -> bool
    ensures { IsFound (read_lifetime texts.now entries.now) result step.old step.new }
{
    tell(lifetime(entries, texts), step)
}

/// Writes the location of the next group to `step` if the delimiter of this group has the number
/// `delimiter`.
///
/// The call finds an invisible group only if the group begins at the first entry.
/// `syn_tokens_ident` explains `entries` and the result.
#[unsafe(no_mangle)]
pub extern "C" fn syn_tokens_group(entries: &[Entry], delimiter: u32, step: &mut Step) -> bool
    ensures { IsFound (read_numbered delimiter entries.now) result step.old step.new }
{
    match delimiter_of(delimiter) {
        Some(delimiter) => tell(group(entries, delimiter), step),
        None => false,
    }
}

/// Writes the location of the next token to `step`.
///
/// The token can be a lifetime, another leaf token or a visible group. If no such token is left,
/// the call writes nothing and returns `false`.
///
/// `texts` contains the texts of all entries. `syn_tokens_ident` explains `entries` and the result.
#[unsafe(no_mangle)]
pub extern "C" fn syn_tokens_skip(entries: &[Entry], texts: &[u8], step: &mut Step) -> bool
    ensures { IsFound (skip texts.now entries.now) result step.old step.new }
{
    tell(skip(entries, texts), step)
}

// Writes what was found.
fn tell(found: Option<Step>, step: &mut Step) -> bool
    ensures { IsFound found result step.old step.new }
{
    match found {
        Some(there) => {
            *step = there;
            true
        }
        None => false,
    }
}

// Returns the delimiter of a number.
fn delimiter_of(number: u32) -> Option<Delimiter>
    ensures { result ≡ delimiter_of number }
{
    match number {
        0 => Some(Delimiter::Parenthesis),
        1 => Some(Delimiter::Brace),
        2 => Some(Delimiter::Bracket),
        3 => Some(Delimiter::None),
        _ => None,
    }
}

//! Finds the next token in a slice of entries.
//!
//! The slice contains the remaining entries of a text, or of the contents of a group. Each function
//! ignores the delimiters of invisible groups, unless its description says otherwise. No function
//! assumes that the entries are valid.
ghost use Rattle.std.specs.Prelude.{◌≡◌, ◌<◌, ◌≤◌, ◌==◌, length, IfSome};
ghost use Rattle.std.specs.List.{prefix_len};
ghost use Rattle.tok_entries.specs.Cursor as spec;

use crate::entry::{CLOSING, Entry, IDENT, LITERAL, OPENING, PUNCT, delimiter_number};
use tok_core::Delimiter;

/// The location of a token in a slice of entries, and the entry at which to continue.
#[repr(C)]
#[derive(Clone, Copy, PartialEq, Eq, Debug)]
pub struct Step {
    /// The index of the token's first entry.
    ///
    /// The first entry of a lifetime is its apostrophe, and the first entry of a group is its
    /// opening delimiter.
    pub at: usize,
    /// The index of the token's last entry.
    ///
    /// The last entry of a lifetime is its name, and the last entry of a group is its closing
    /// delimiter. The contents of a group are between the entries `at` and `last`.
    pub last: usize,
    /// The index of the entry at which to continue.
    ///
    /// This entry is after the token, and after the closing delimiters of all invisible groups that
    /// end directly after the token.
    pub next: usize,
}

/// Returns the location of the next token if the token is an identifier, a keyword or `_`, and
/// `None` otherwise.
pub fn ident(entries: &[Entry]) -> Option<Step>
    ensures token { result ≡ spec.read_ident entries.now }
    ensures within { IfSome result (λ s. spec.IsWithin s (length entries.now)) }
{
    leaf(entries, IDENT)
}

/// Returns the location of the next token if the token is a literal, and `None` otherwise.
pub fn literal(entries: &[Entry]) -> Option<Step>
    ensures token { result ≡ spec.read_literal entries.now }
    ensures within { IfSome result (λ s. spec.IsWithin s (length entries.now)) }
{
    leaf(entries, LITERAL)
}

/// Returns the location of the next token if the token is a punct other than an apostrophe, and
/// `None` otherwise.
///
/// `texts` contains the texts of all entries.
pub fn punct(entries: &[Entry], texts: &[u8]) -> Option<Step>
    ensures token { result ≡ spec.read_punct texts.now entries.now }
    ensures within { IfSome result (λ s. spec.IsWithin s (length entries.now)) }
{
    let at = hidden(entries);
    let entry = entries.get(at)?;
    if entry.kind == PUNCT && !is_apostrophe(entry, texts) {
        Some(step_over(entries, at, at))
    } else {
        None
    }
}

/// Returns the location of the next token if the token is a lifetime, and `None` otherwise.
///
/// A lifetime consists of a joint apostrophe and any identifier. The call ignores delimiters of
/// invisible groups between the apostrophe and the identifier. `texts` contains the texts of all
/// entries.
pub fn lifetime(entries: &[Entry], texts: &[u8]) -> Option<Step>
    ensures token { result ≡ spec.read_lifetime texts.now entries.now }
    ensures within { IfSome result (λ s. spec.IsWithin s (length entries.now)) }
{
    let at = hidden(entries);
    let entry = entries.get(at)?;
    if !is_joint_apostrophe(entry, texts) {
        return None;
    }
    let after = at + 1;
    let name = ident(&entries[after..])?;
    Some(Step {
        at,
        last: after + name.last,
        next: after + name.next,
    })
}

/// Returns the location of the next token if the token is a group with the delimiter `delimiter`,
/// and `None` otherwise.
///
/// To find a visible group, the call ignores the delimiters of invisible groups before the group.
/// The call finds an invisible group only if the first entry is the opening delimiter of the group.
pub fn group(entries: &[Entry], delimiter: Delimiter) -> Option<Step>
    ensures token { result ≡ spec.read_group delimiter entries.now }
    ensures within { IfSome result (λ s. spec.IsWithin s (length entries.now)) }
{
    if delimiter == Delimiter::None {
        group_at(entries, 0, delimiter)
    } else {
        group_at(entries, hidden(entries), delimiter)
    }
}

/// Returns the location of the next token, which is a lifetime, another single token or a visible
/// group.
///
/// Returns `None` if no such token is left, or if the closing delimiter of a visible group comes
/// first. `texts` contains the texts of all entries.
pub fn skip(entries: &[Entry], texts: &[u8]) -> Option<Step>
    ensures token { result ≡ spec.skip texts.now entries.now }
    ensures within { IfSome result (λ s. spec.IsWithin s (length entries.now)) }
{
    match lifetime(entries, texts) {
        Some(step) => Some(step),
        None => tree(entries),
    }
}

// Returns the next leaf or group.
fn tree(entries: &[Entry]) -> Option<Step>
    ensures token { result ≡ spec.read_tree entries.now }
    ensures within { IfSome result (λ s. spec.IsWithin s (length entries.now)) }
{
    let at = hidden(entries);
    let entry = entries.get(at)?;
    if entry.kind < OPENING {
        Some(step_over(entries, at, at))
    } else if entry.kind == OPENING {
        whole(entries, at, entry)
    } else {
        None
    }
}

// Returns the next token, if it is a leaf of this kind.
fn leaf(entries: &[Entry], kind: u32) -> Option<Step>
    ensures token { result ≡ spec.read_leaf (λ e. e.kind == kind) entries.now }
    ensures within { IfSome result (λ s. spec.IsWithin s (length entries.now)) }
{
    let at = hidden(entries);
    let entry = entries.get(at)?;
    if entry.kind == kind {
        Some(step_over(entries, at, at))
    } else {
        None
    }
}

// Returns the group that opens at this entry, if it has this delimiter.
fn group_at(entries: &[Entry], at: usize, delimiter: Delimiter) -> Option<Step>
    ensures token { result ≡ spec.read_group_at delimiter entries.now at }
    ensures within { IfSome result (λ s. spec.IsWithin s (length entries.now)) }
{
    let entry = entries.get(at)?;
    if entry.kind == OPENING && entry.delimiter == delimiter_number(delimiter) {
        whole(entries, at, entry)
    } else {
        None
    }
}

// Returns the group of this opening, if its closing is among the entries.
fn whole(entries: &[Entry], at: usize, opening: &Entry) -> Option<Step>
    requires { at < length entries.now }
    ensures token { result ≡ spec.whole entries.now at opening.now.distance }
    ensures within { IfSome result (λ s. spec.IsWithin s (length entries.now)) }
{
    let distance = opening.distance;
    if 0 < distance && distance < entries.len() - at {
        Some(step_over(entries, at, at + distance))
    } else {
        None
    }
}

// Goes on after a token.
fn step_over(entries: &[Entry], at: usize, last: usize) -> Step
    requires ordered { at ≤ last }
    requires within { last < length entries.now }
    ensures step { result ≡ spec.step_over entries.now at last }
    ensures within { spec.IsWithin result (length entries.now) }
{
    let after = last + 1;
    Step {
        at,
        last,
        next: after + ended(&entries[after..]),
    }
}

// Returns how many edges of invisible groups come first.
fn hidden(entries: &[Entry]) -> usize
    ensures count { result ≡ prefix_len spec.is_invisible_edge entries.now }
    ensures within { result ≤ length entries.now }
{
    let mut count = 0;
    while count < entries.len() && is_invisible_edge(&entries[count]) {
        count += 1;
    }
    count
}

// Returns how many invisible groups end first.
fn ended(entries: &[Entry]) -> usize
    ensures count { result ≡ prefix_len spec.is_invisible_closing entries.now }
    ensures within { result ≤ length entries.now }
{
    let mut count = 0;
    while count < entries.len() && is_invisible_closing(&entries[count]) {
        count += 1;
    }
    count
}

fn is_invisible_edge(entry: &Entry) -> bool
    ensures { result ≡ spec.is_invisible_edge entry.now }
{
    (entry.kind == OPENING || entry.kind == CLOSING)
        && entry.delimiter == delimiter_number(Delimiter::None)
}

fn is_invisible_closing(entry: &Entry) -> bool
    ensures { result ≡ spec.is_invisible_closing entry.now }
{
    entry.kind == CLOSING && entry.delimiter == delimiter_number(Delimiter::None)
}

fn is_apostrophe(entry: &Entry, texts: &[u8]) -> bool
    ensures { result ≡ spec.has_apostrophe texts.now entry.now }
{
    texts.get(entry.text_start) == Some(&b'\'')
}

fn is_joint_apostrophe(entry: &Entry, texts: &[u8]) -> bool
    ensures { result ≡ spec.is_joint_apostrophe texts.now entry.now }
{
    entry.kind == PUNCT && entry.spacing == 1 && is_apostrophe(entry, texts)
}

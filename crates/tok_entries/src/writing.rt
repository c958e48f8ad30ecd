//! Converts token streams into arrays of entries.
ghost use Rattle.std.specs.Prelude.{◌≡◌, ◌++◌, length, OnErr, OnOk, string_bytes};
ghost use Rattle.tok_core.specs.Seen.{tree_of};
ghost use Rattle.tok_entries.specs.Entries as spec;
ghost use Rattle.tok_entries.specs.Entries.{BeginsWith};

use crate::entry::{CLOSING, Entry, IDENT, LITERAL, OPENING, PUNCT, edge, leaf, spacing_number};
use std::alloc::AllocError;
use tok_core::{TokenStream, TokenTree};

/// Appends the entries of `stream` to the array `entries`, and the texts of its tokens to `texts`.
///
/// Each identifier, punct, literal and delimiter becomes an entry. The text of each entry is a
/// range of bytes of `texts`. The distance between an opening and its closing delimiter counts
/// entries.
///
/// If an allocation fails, the call returns an error. `entries` and `texts` still begin with their
/// previous contents, but may contain additional, unspecified elements.
///
/// # Examples
///
/// ```rust
/// let mut entries = Vec::new(alloc);
/// let mut texts = String::new(alloc);
/// write_entries(&mut entries, &mut texts, &lex(alloc, 0, "a(b)")?)?;
/// assert_eq!(rt; (entries.len(), texts.as_str()), (4, "ab"));
/// assert_eq!(rt; (entries[1].kind, entries[1].distance), (3, 2));
/// ```
#[cycle(write)]
pub fn write_entries(
    entries: &mut Vec<Entry>,
    texts: &mut String,
    stream: &TokenStream,
) -> Result<(), AllocError>
    ensures entries { OnOk result (entries.new.items
        ≡ entries.old.items ++ spec.entries (length (string_bytes texts.old)) stream.now) }
    ensures texts { OnOk result
        (string_bytes texts.new ≡ string_bytes texts.old ++ spec.texts stream.now) }
    ensures entries_kept { OnErr result (BeginsWith entries.new.items entries.old.items) }
    ensures texts_kept { OnErr result
        (BeginsWith (string_bytes texts.new) (string_bytes texts.old)) }
{
    for next in stream.trees() {
        write_tree(entries, texts, next)?;
    }
    Ok(())
}

#[cycle(write)]
fn write_tree(
    entries: &mut Vec<Entry>,
    texts: &mut String,
    next: &TokenTree,
) -> Result<(), AllocError>
    ensures entries { OnOk result (entries.new.items
        ≡ entries.old.items
        ++ spec.tree_entries (length (string_bytes texts.old)) (tree_of next.now)) }
    ensures texts { OnOk result
        (string_bytes texts.new ≡ string_bytes texts.old ++ spec.tree_texts (tree_of next.now)) }
    ensures entries_kept { OnErr result (BeginsWith entries.new.items entries.old.items) }
    ensures texts_kept { OnErr result
        (BeginsWith (string_bytes texts.new) (string_bytes texts.old)) }
{
    let begin = texts.len();
    match next {
        TokenTree::Ident(ident) => {
            texts.push_str(ident.as_str())?;
            entries.push(leaf(IDENT, 0, ident.span(), begin, texts.len()))?;
        }
        TokenTree::Punct(punct) => {
            texts.push(punct.as_char())?;
            let spacing = spacing_number(punct.spacing());
            entries.push(leaf(PUNCT, spacing, punct.span(), begin, texts.len()))?;
        }
        TokenTree::Literal(literal) => {
            texts.push_str(literal.as_str())?;
            entries.push(leaf(LITERAL, 0, literal.span(), begin, texts.len()))?;
        }
        TokenTree::Group(group) => {
            let start = entries.len();
            let delimiter = group.delimiter();
            entries.push(edge(OPENING, delimiter, group.span_open(), begin, 0))?;
            write_entries(entries, texts, group.stream())?;
            let distance = entries.len() - start;
            let closing = edge(
                CLOSING,
                delimiter,
                group.span_close(),
                texts.len(),
                distance,
            );
            entries.push(closing)?;
            entries[start] = edge(OPENING, delimiter, group.span_open(), begin, distance);
        }
    }
    Ok(())
}

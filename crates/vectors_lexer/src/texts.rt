//! Reads texts by each list of rules, into trees and straight into a buffer, and prints their
//! tokens as a line.
use std::alloc::{AllocError, Global};
use tok_buffer::{Cursor, TokenBuffer};
use tok_core::{
    Edition, LexError, LexFault, Spacing, Span, TokenStream, TokenStreamHelper, TokenTree, lex,
    lex_marked, lex_source,
};

/// A list of rules: that of `lex`, of `lex_marked`, or of `lex_source` by an edition.
#[derive(Clone, Copy)]
pub enum Rules {
    Plain,
    Marked,
    Source(Edition),
}

/// What is printed of a text.
#[derive(Clone, Copy)]
pub enum Goal {
    Tokens,
    Outcome,
    Words,
    Alike,
}

// The number of the source, for all texts.
const SOURCE: u32 = 7;

// The deepest nesting of groups that is compared.
const LEVELS: usize = 300;

// The most tokens of a group that are compared.
const TOKENS: usize = 10_000;

fn trees(alloc: Global, rules: &Rules, text: &str) -> Result<TokenStream, LexFault> {
    match rules {
        Rules::Plain => lex(alloc, SOURCE, text),
        Rules::Marked => lex_marked(alloc, SOURCE, text),
        Rules::Source(edition) => lex_source(alloc, *edition, SOURCE, text),
    }
}

// Lays out the trees of a text.
fn laid(alloc: Global, rules: &Rules, text: &str) -> Result<TokenBuffer, LexFault> {
    let stream = trees(alloc, rules, text)?;
    match TokenBuffer::new2(alloc, 0, stream) {
        Ok(buffer) => Ok(buffer),
        Err(_) => Err(LexFault::Memory),
    }
}

// Reads a text straight into a buffer.
fn read(alloc: Global, rules: &Rules, text: &str) -> Result<TokenBuffer, LexFault> {
    match rules {
        Rules::Plain => TokenBuffer::from_text(alloc, 0, SOURCE, text),
        Rules::Marked => TokenBuffer::from_marked(alloc, 0, SOURCE, text),
        Rules::Source(edition) => TokenBuffer::from_source(alloc, 0, *edition, SOURCE, text),
    }
}

// Returns the kind, the text and the spacing of a tree, or the opening delimiter of a group.
fn word(alloc: Global, tree: &TokenTree) -> Result<String, AllocError> {
    match tree {
        TokenTree::Ident(ident) => format!(in alloc; "i {}", ident.as_str()),
        TokenTree::Literal(literal) => format!(in alloc; "l {}", literal.as_str()),
        TokenTree::Punct(punct) => match punct.spacing() {
            Spacing::Joint => format!(in alloc; "p {} joint", punct.as_char()),
            Spacing::Alone => format!(in alloc; "p {}", punct.as_char()),
        },
        TokenTree::Group(group) => format!(in alloc; "{}", group.delimiter().opening()),
    }
}

// Appends a word, after a space unless it is the first.
fn push_word(out: &mut String, word: &str) -> Option<()> {
    if !out.is_empty() {
        out.push(' ').ok()?;
    }
    out.push_str(word).ok()
}

fn push_range(alloc: Global, out: &mut String, tree: &TokenTree) -> Option<()> {
    let range = match tree.span().as_range() {
        Some((SOURCE, start, end)) => format!(in alloc; "{start}..{end}"),
        _ => format!(in alloc; "elsewhere"),
    };
    push_word(out, range.ok()?.as_str())
}

fn push_tree(alloc: Global, out: &mut String, tree: &TokenTree) -> Option<()> {
    push_word(out, word(alloc, tree).ok()?.as_str())?;
    push_range(alloc, out, tree)
}

fn push_trees(alloc: Global, out: &mut String, stream: &TokenStream, levels: usize) -> Option<()> {
    for tree in stream.trees() {
        push_tree(alloc, out, tree)?;
        if let TokenTree::Group(group) = tree {
            if levels == 0 {
                return None;
            }
            push_trees(alloc, out, group.stream(), levels - 1)?;
            push_word(out, group.delimiter().closing())?;
        }
    }
    Some(())
}

// Returns all trees of a stream with their spans: `( 0..3 i a 1..2 )` for `(a)`.
fn line(alloc: Global, stream: &TokenStream) -> Option<String> {
    let mut out = String::new(alloc);
    push_trees(alloc, &mut out, stream, LEVELS)?;
    Some(out)
}

fn read_refused(alloc: Global, rules: &Rules, text: &str) -> Option<LexError> {
    match read(alloc, rules, text) {
        Err(LexFault::Refused(error)) => Some(error),
        _ => None,
    }
}

fn is_same_place(left: Cursor<'_>, right: Cursor<'_>) -> bool {
    left.position() == right.position()
        && left.span() == right.span()
        && left.start_span() == right.start_span()
        && left.prev_span() == right.prev_span()
        && left.scope_delimiter() == right.scope_delimiter()
}

// Returns `true` if all places from two cursors on are alike, inside groups too.
fn are_same_places(left: Cursor<'_>, right: Cursor<'_>, levels: usize) -> bool {
    let mut left = left;
    let mut right = right;
    for _ in 0..TOKENS {
        if !is_same_place(left, right) {
            return false;
        }
        match (left.any_group(), right.any_group()) {
            (Some((content, _, _, after)), Some((other, _, _, after_other))) => {
                if levels == 0 || !are_same_places(content, other, levels - 1) {
                    return false;
                }
                left = after;
                right = after_other;
            }
            (None, None) => match (left.skip(), right.skip()) {
                (Some(after), Some(after_other)) => {
                    left = after;
                    right = after_other;
                }
                _ => return left.eof() && right.eof(),
            },
            _ => return false,
        }
    }
    false
}

fn is_stream(alloc: Global, stream: &TokenStream, from: Cursor<'_>) -> Option<bool> {
    let other = from.token_stream(alloc).ok()?;
    Some(TokenStreamHelper(stream) == TokenStreamHelper(&other))
}

fn are_same_trees(alloc: Global, left: Cursor<'_>, right: Cursor<'_>) -> Option<bool> {
    let stream = left.token_stream(alloc).ok()?;
    is_stream(alloc, &stream, right)
}

// Returns `true` if a text is read straight into the entries from this place on.
fn is_read(alloc: Global, rules: &Rules, text: &str, wanted: Cursor<'_>) -> Option<bool> {
    let buffer = read(alloc, rules, text).ok()?;
    let found = buffer.begin();
    let alike = are_same_trees(alloc, wanted, found)?;
    Some(alike && are_same_places(wanted, found, LEVELS))
}

// Returns `true` if a text is read straight into the entries that its trees are laid out as.
fn is_read_alike(alloc: Global, rules: &Rules, text: &str) -> Option<bool> {
    let buffer = laid(alloc, rules, text).ok()?;
    is_read(alloc, rules, text, buffer.begin())
}

// Returns `true` if the printed trees of a text are read as these trees again. A marked text may
// read otherwise: in `+«/»/` the mark parts two slashes. A space before them keeps `#!` from being
// read as the start of a script.
fn is_read_again(alloc: Global, rules: &Rules, stream: &TokenStream) -> Option<bool> {
    if let Rules::Marked = rules {
        return Some(true);
    }
    let printed = format!(in alloc; " {stream}").ok()?;
    let again = trees(alloc, rules, printed.as_str()).ok()?;
    Some(TokenStreamHelper(stream) == TokenStreamHelper(&again))
}

// Returns what is printed of a text that is read as these trees.
fn answer_read(
    alloc: Global,
    goal: Goal,
    rules: &Rules,
    text: &str,
    stream: &TokenStream,
) -> Option<String> {
    if !is_read_alike(alloc, rules, text)? || !is_read_again(alloc, rules, stream)? {
        return format!(in alloc; "differs").ok();
    }
    match goal {
        Goal::Tokens => line(alloc, stream),
        Goal::Outcome => format!(in alloc; "read").ok(),
        Goal::Words => format!(in alloc; "no error").ok(),
        Goal::Alike => format!(in alloc; "alike").ok(),
    }
}

// Returns what is printed of a text that is rejected with this error.
fn answer_rejected(
    alloc: Global,
    goal: Goal,
    rules: &Rules,
    text: &str,
    error: LexError,
) -> Option<String> {
    let (number, at) = (error.number(), error.at());
    if read_refused(alloc, rules, text) != Some(error)
        || error.span() != Span::source(SOURCE, at, at)
    {
        return format!(in alloc; "differs").ok();
    }
    match goal {
        Goal::Tokens | Goal::Outcome => format!(in alloc; "L{number} at {at}").ok(),
        Goal::Words => format!(in alloc; "L{number} {error}").ok(),
        Goal::Alike => format!(in alloc; "alike").ok(),
    }
}

/// Returns what is printed of a text, or `None` if an allocation fails.
pub fn answer(alloc: Global, goal: Goal, rules: &Rules, text: &str) -> Option<String> {
    match trees(alloc, rules, text) {
        Ok(stream) => answer_read(alloc, goal, rules, text, &stream),
        Err(LexFault::Refused(error)) => answer_rejected(alloc, goal, rules, text, error),
        Err(LexFault::Memory) => None,
    }
}

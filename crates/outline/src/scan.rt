//! Finds the places where items begin among the tokens of a source.
ghost use Rattle.std.specs.Prelude.{IfSome};
ghost use Rattle.tok_buffer.specs.Cursors.{place_of};
ghost use Rattle.outline.specs.Passing.{Passes, Stays};

use crate::find::attribute;
use tok_buffer::Cursor;
use tok_buffer::laws::{entries_go_on, reads_go_on, skips_go_on, stays_along};
use tok_core::{Delimiter, Ident};
use tok_types::token::Token;
use tok_types::{accept_as_ident, token};

/// The place where a scan stops, which is an item, a group or the end of the scope.
#[derive(Clone, Copy)]
pub struct Stop<'a> {
    pub at: Cursor<'a>,
    pub is_item: bool,
}

/// Skips tokens, attributes and macros up to an item, a group or the end of the scope.
///
/// An item begins only at a place where at most `most` buffer entries remain. If more entries
/// remain before the attributes of an item, then the item begins after its attributes.
pub fn scan<'a>(cursor: Cursor<'a>, most: usize) -> Stop<'a>
    ensures { Stays (place_of cursor.entry) (place_of result.at) }
{
    stays_along();
    let mut rest = cursor;
    'tokens: loop {
        let front = past_attributes(rest);
        if begins_item(front) && front.remaining() <= most {
            return Stop {
                at: if rest.remaining() <= most {
                    rest
                } else {
                    front
                },
                is_item: true,
            };
        }
        let Some(after) = past_token(front) else {
            return Stop {
                at: front,
                is_item: false,
            };
        };
        rest = after;
    }
}

// Returns the cursor after outer attributes.
fn past_attributes<'a>(cursor: Cursor<'a>) -> Cursor<'a>
    ensures { Stays (place_of cursor.entry) (place_of result) }
{
    stays_along();
    let mut rest = cursor;
    loop {
        match attribute(rest) {
            Some((found, after)) if found.style.is_outer() => rest = after,
            _ => return rest,
        }
    }
}

// Returns `true` if a visibility and `struct`, `enum` or `union` are next.
fn begins_item(cursor: Cursor<'_>) -> bool {
    match cursor.ident() {
        Some((word, after)) if word.as_str() == "pub" => begins_data(past_parentheses(after)),
        _ => begins_data(cursor),
    }
}

// Returns `true` if `struct` or `enum` is next, or `union` before a name: it is no reserved word.
fn begins_data(cursor: Cursor<'_>) -> bool {
    match cursor.ident() {
        Some((word, after)) => match word.as_str() {
            "struct" | "enum" => true,
            "union" => Ident::peek(after),
            _ => false,
        },
        None => false,
    }
}

// Returns the cursor after parentheses, if they are next.
fn past_parentheses<'a>(cursor: Cursor<'a>) -> Cursor<'a>
    ensures { Stays (place_of cursor.entry) (place_of result) }
{
    entries_go_on();
    stays_along();
    match cursor.group(Delimiter::Parenthesis) {
        Some((_, _, after)) => after,
        None => cursor,
    }
}

// Returns the cursor after the next token or macro. A group is neither.
fn past_token<'a>(cursor: Cursor<'a>) -> Option<Cursor<'a>>
    ensures { IfSome result (λ after. Passes (place_of cursor.entry) (place_of after)) }
{
    reads_go_on();
    skips_go_on();
    stays_along();
    if let Some((_, after)) = attribute(cursor) {
        return Some(after);
    }
    if let Some((word, after)) = cursor.ident() {
        return Some(past_macro(word.as_str(), after));
    }
    match cursor.any_group() {
        Some(_) => None,
        None => cursor.skip(),
    }
}

// Returns the cursor after the macro call, or the definition of a macro, that begins with this
// word; or else the cursor itself.
fn past_macro<'a>(word: &str, cursor: Cursor<'a>) -> Cursor<'a>
    ensures { Stays (place_of cursor.entry) (place_of result) }
{
    stays_along();
    let called = if word == "macro" {
        past_definition(cursor)
    } else if accept_as_ident(word) || word == "try" {
        past_call(cursor)
    } else {
        None
    };
    called.unwrap_or(cursor)
}

// Returns the cursor after `!`, a name if there is one, and a group.
fn past_call<'a>(cursor: Cursor<'a>) -> Option<Cursor<'a>>
    ensures { IfSome result (λ after. Passes (place_of cursor.entry) (place_of after)) }
{
    reads_go_on();
    entries_go_on();
    stays_along();
    if !token::Not::peek(cursor) || token::Ne::peek(cursor) {
        return None;
    }
    let (_, after) = cursor.punct()?;
    let named = past_name(after);
    let (_, _, _, called) = named.any_group()?;
    Some(called)
}

// Returns the cursor after a name, if one is next.
fn past_name<'a>(cursor: Cursor<'a>) -> Cursor<'a>
    ensures { Stays (place_of cursor.entry) (place_of result) }
{
    reads_go_on();
    stays_along();
    match cursor.ident() {
        Some((_, after)) => after,
        None => cursor,
    }
}

// Returns the cursor after a name, parentheses if there are any, and braces.
fn past_definition<'a>(cursor: Cursor<'a>) -> Option<Cursor<'a>>
    ensures { IfSome result (λ after. Passes (place_of cursor.entry) (place_of after)) }
{
    reads_go_on();
    entries_go_on();
    stays_along();
    let (_, after) = cursor.ident()?;
    let rules = past_parentheses(after);
    let (_, _, defined) = rules.group(Delimiter::Brace)?;
    Some(defined)
}

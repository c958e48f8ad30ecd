//! The path and the arguments of an attribute.
ghost use Rattle.std.specs.Prelude.{◌<◌, IfSome};
ghost use Rattle.tok_buffer.specs.Cursors.{place_of};
ghost use Rattle.tok_buffer.specs.Progress.{remaining};

use crate::show::{show_list, show_tokens};
use std::alloc::{AllocError, Global};
use tok_buffer::Cursor;
use tok_buffer::laws::reads_go_on;
use tok_core::{Delimiter, Span};

/// The path, the delimiter and the arguments of an attribute, as they are printed.
#[derive(Drop)]
pub struct Attribute {
    pub path: String,
    pub delimiter: &'static str,
    pub arguments: String,
}

/// The reason why the contents of brackets are not an attribute.
#[derive(Drop)]
pub enum Fault {
    /// The token at this span is unexpected. The text says what is expected instead.
    Expected(Span, &'static str),
    /// A macro inserts tokens at this place.
    Placeholder,
    Memory,
}

impl From<AllocError> for Fault {
    fn from(_: AllocError) -> Self {
        Fault::Memory
    }
}

/// Reads an attribute from the contents of its brackets.
pub fn read<'a>(alloc: Global, contents: Cursor<'a>) -> Result<Attribute, Fault> {
    let (path, rest) = read_path(alloc, contents)?;
    if rest.eof() {
        return Ok(Attribute {
            path,
            delimiter: "",
            arguments: String::new(alloc),
        });
    }
    let (delimiter, arguments) = read_arguments(alloc, rest)?;
    Ok(Attribute {
        path,
        delimiter,
        arguments,
    })
}

// Reads a path: identifiers with `::` between them.
fn read_path<'a>(alloc: Global, cursor: Cursor<'a>) -> Result<(String, Cursor<'a>), Fault> {
    reads_go_on();
    let mut path = String::new(alloc);
    let mut rest = cursor;
    if let Some(after) = read_colons(rest) {
        path.push_str("::")?;
        rest = after;
    }
    while let Some((name, after)) = rest.ident() {
        path.push_str(name.as_str())?;
        let Some(next) = read_colons(after) else {
            return Ok((path, after));
        };
        path.push_str("::")?;
        rest = next;
    }
    Err(Fault::Expected(rest.span(), "a path"))
}

fn read_colons<'a>(cursor: Cursor<'a>) -> Option<Cursor<'a>>
    ensures { IfSome result
        (λ after. remaining (place_of after) < remaining (place_of cursor.entry)) }
{
    reads_go_on();
    if !cursor.peek_punct("::") {
        return None;
    }
    let (_, between) = cursor.punct()?;
    let (_, after) = between.punct()?;
    Some(after)
}

// Reads what is after a path: `=` and a value, or a group.
fn read_arguments<'a>(alloc: Global, cursor: Cursor<'a>) -> Result<(&'static str, String), Fault> {
    if let Some((equals, value)) = cursor.punct() {
        match equals.as_char() {
            '=' => {}
            '$' | '#' => return Err(Fault::Placeholder),
            _ => return Err(Fault::Expected(cursor.span(), EXPECTED)),
        }
        if value.eof() {
            return Err(Fault::Expected(value.span(), "a value"));
        }
        return Ok(("=", show_tokens(alloc, value)?));
    }
    let Some((inside, delimiter, _, after)) = cursor.any_group() else {
        return Err(Fault::Expected(cursor.span(), EXPECTED));
    };
    if !after.eof() {
        return Err(Fault::Expected(after.span(), "`]`"));
    }
    Ok((both(delimiter), show_list(alloc, inside)?))
}

const EXPECTED: &str = "`::`, `=`, `(`, `[`, `{` or `]`";

// Returns the opening and the closing delimiter.
fn both(delimiter: Delimiter) -> &'static str {
    match delimiter {
        Delimiter::Parenthesis => "()",
        Delimiter::Brace => "{}",
        Delimiter::Bracket => "[]",
        Delimiter::None => "",
    }
}

//! Functions that write arguments and tokens on one line.
use arguments::{Arguments, Value, parse_arguments};
use std::alloc::{AllocError, Global};
use syn_derive::Path;
use syn_parse::Fault;
use tok_buffer::Cursor;
use tok_core::{MOST_LEVELS, TokenStream};

// The tokens inside a group: as arguments with `, ` between them if they are such a list, else as
// they are printed.
pub fn show_list<'a>(alloc: Global, inside: Cursor<'a>) -> Result<String, AllocError> {
    match parse_arguments(alloc, inside.token_stream(alloc)?) {
        Ok(list) => {
            let mut text = String::new(alloc);
            push_list(&mut text, &list, MOST_LEVELS)?;
            Ok(text)
        }
        Err(Fault::Refused(_)) => show_tokens(alloc, inside),
        Err(Fault::Memory(error)) => Err(error),
    }
}

// The tokens up to the end of the scope, as they are printed.
pub fn show_tokens<'a>(alloc: Global, cursor: Cursor<'a>) -> Result<String, AllocError> {
    let printed = cursor.token_stream(alloc)?.to_string(alloc)?;
    let mut text = String::new(alloc);
    push_line(&mut text, printed.as_str())?;
    Ok(text)
}

/// Appends the text of `tokens` to `text`, on one line.
pub fn push_tokens(text: &mut String, tokens: &TokenStream) -> Result<(), AllocError> {
    let printed = tokens.to_string(tokens.allocator())?;
    push_line(text, printed.as_str())
}

/// Appends `path` to `text`, without spaces.
pub fn push_path(text: &mut String, path: &Path) -> Result<(), AllocError> {
    let mut before = match path.leading_colon {
        Some(_) => "::",
        None => "",
    };
    for segment in path.segments.iter() {
        text.push_str(before)?;
        text.push_str(segment.ident.as_str())?;
        before = "::";
    }
    Ok(())
}

// Appends a text in which line feeds and carriage returns are written as `\n` and `\r`.
fn push_line(text: &mut String, more: &str) -> Result<(), AllocError> {
    for c in more.chars() {
        match c {
            '\n' => text.push_str("\\n")?,
            '\r' => text.push_str("\\r")?,
            _ => text.push(c)?,
        }
    }
    Ok(())
}

fn push_list(text: &mut String, list: &Arguments, depth: usize) -> Result<(), AllocError> {
    let mut comma = "";
    for argument in list.iter() {
        text.push_str(comma)?;
        text.push_str(argument.name.as_str())?;
        match &argument.value {
            Value::Flag => {}
            Value::Literal(_, literal) => {
                text.push_str(" = ")?;
                push_line(text, literal.as_str())?;
            }
            Value::List(_, inner) => {
                text.push('(')?;
                if depth > 0 {
                    push_list(text, inner, depth - 1)?;
                }
                text.push(')')?;
            }
        }
        comma = ", ";
    }
    Ok(())
}

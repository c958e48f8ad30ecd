//! Arguments as text: each name, literal, sign and group with its range of bytes.
use arguments::{Arguments, Value};
use std::alloc::{AllocError, Global};
use tok_core::Span;

// The deepest nesting of lists in the lines that are read.
const DEPTH: u8 = 8;

/// Returns `ok` and the arguments.
pub fn show(alloc: Global, list: &Arguments) -> Result<String, AllocError> {
    let mut text = format!(in alloc; "ok")?;
    add_list(&mut text, list, DEPTH)?;
    Ok(text)
}

fn add_list(text: &mut String, list: &Arguments, depth: u8) -> Result<(), AllocError> {
    for pair in list.pairs() {
        let argument = pair.value();
        add(text, argument.name.as_str(), argument.name.span())?;
        match &argument.value {
            Value::Flag => {}
            Value::Literal(equals, literal) => {
                add(text, "=", equals.span())?;
                add(text, literal.as_str(), literal.span())?;
            }
            Value::List(paren, inner) => {
                add(text, "(", paren.span.join())?;
                if depth > 0 {
                    add_list(text, inner, depth - 1)?;
                }
                text.push_str(" )")?;
            }
        }
        if let Some(comma) = pair.punct() {
            add(text, ",", comma.span())?;
        }
    }
    Ok(())
}

// Appends a token and its range.
fn add(text: &mut String, token: &str, span: Span) -> Result<(), AllocError> {
    let alloc = *text.allocator();
    let added = match span.as_range() {
        Some((_, start, end)) => format!(in alloc; " {token} {start}..{end}")?,
        None => format!(in alloc; " {token} call site")?,
    };
    text.push_str(added.as_str())?;
    Ok(())
}

//! Tokens as lines of text.
use std::alloc::AllocError;
use tok_core::{Spacing, Span, TokenStream, TokenTree};

/// Appends a line for each token: its kind, its range of bytes and its text, and the spacing of a
/// punct. A group has a line for each delimiter.
#[cycle(lines)]
pub fn push_stream(lines: &mut String, stream: &TokenStream) -> Result<(), AllocError> {
    for next in stream.trees() {
        push_tree(lines, next)?;
    }
    Ok(())
}

#[cycle(lines)]
fn push_tree(lines: &mut String, next: &TokenTree) -> Result<(), AllocError> {
    match next {
        TokenTree::Group(group) => {
            push_line(lines, "group", group.span(), group.delimiter().opening())?;
            push_stream(lines, group.stream())?;
            push_line(
                lines,
                "end",
                group.span_close(),
                group.delimiter().closing(),
            )
        }
        TokenTree::Ident(ident) => push_line(lines, "ident", ident.span(), ident.as_str()),
        TokenTree::Punct(punct) => {
            let kind = match punct.spacing() {
                Spacing::Joint => "joint",
                Spacing::Alone => "alone",
            };
            push_front(lines, kind, punct.span())?;
            lines.push(punct.as_char())?;
            lines.push('\n')
        }
        TokenTree::Literal(literal) => {
            push_line(lines, "literal", literal.span(), literal.as_str())
        }
    }
}

// Appends the line of a token. Its text has `\n`, `\r` and `\\` in place of a line feed, a carriage
// return and a `\`.
fn push_line(lines: &mut String, kind: &str, span: Span, text: &str) -> Result<(), AllocError> {
    push_front(lines, kind, span)?;
    for c in text.chars() {
        match c {
            '\n' => lines.push_str("\\n")?,
            '\r' => lines.push_str("\\r")?,
            '\\' => lines.push_str("\\\\")?,
            _ => lines.push(c)?,
        }
    }
    lines.push('\n')
}

// Appends a kind and a range of bytes.
fn push_front(lines: &mut String, kind: &str, span: Span) -> Result<(), AllocError> {
    let alloc = *lines.allocator();
    let (start, end) = match span.as_range() {
        Some((_, start, end)) => (start, end),
        None => (0, 0),
    };
    let front = format!(in alloc; "{kind} {start}..{end} ")?;
    lines.push_str(front.as_str())
}

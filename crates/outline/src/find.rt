//! Functions that find the attributes among the tokens of a buffer.
ghost use Rattle.std.specs.Prelude.{IfSome};
ghost use Rattle.tok_buffer.specs.Cursors.{place_of};
ghost use Rattle.outline.specs.Passing.{Passes};

use std::alloc::AllocError;
use tok_buffer::Cursor;
use tok_buffer::laws::{entries_go_on, reads_go_on, skips_go_on, stays_along};
use tok_core::{Delimiter, Span};

/// The style of an attribute. An outer attribute belongs to the item after it, and an inner
/// attribute belongs to the item that contains it.
#[derive(Clone, Copy)]
pub enum Style {
    Outer,
    Inner,
}

impl Style {
    /// Returns `true` if the style is `Outer`.
    pub fn is_outer(self) -> bool {
        match self {
            Style::Outer => true,
            Style::Inner => false,
        }
    }
}

/// The style and the start of an attribute, and the contents of its brackets.
#[derive(Clone, Copy)]
pub struct Found<'a> {
    pub style: Style,
    pub span: Span,
    pub contents: Cursor<'a>,
}

/// Appends the attributes from `cursor` on to `found`, in order, including attributes in groups.
#[cycle(find)]
pub fn find<'a>(found: &mut Vec<Found<'a>>, cursor: Cursor<'a>) -> Result<(), AllocError> {
    skips_go_on();
    entries_go_on();
    let mut rest = cursor;
    loop {
        if let Some((attribute, after)) = attribute(rest) {
            found.push(attribute)?;
            rest = after;
        } else if let Some((inside, _, _, after)) = rest.any_group() {
            find(found, inside)?;
            rest = after;
        } else if let Some(after) = rest.skip() {
            rest = after;
        } else {
            return Ok(());
        }
    }
}

/// Returns the attribute at `cursor`, and the cursor after the attribute.
///
/// In a macro, `#[$name]` and `#[#name]` are not attributes.
pub fn attribute<'a>(cursor: Cursor<'a>) -> Option<(Found<'a>, Cursor<'a>)>
    ensures { IfSome result
        (λ r. Passes (place_of cursor.entry) (place_of r.1)) }
{
    entries_go_on();
    stays_along();
    let (style, span, brackets) = sign(cursor)?;
    let (contents, _, after) = brackets.group(Delimiter::Bracket)?;
    if contents.peek_punct("$") || contents.peek_punct("#") {
        return None;
    }
    let found = Found {
        style,
        span,
        contents,
    };
    Some((found, after))
}

// Returns the `#` or `#!` of an attribute, and the cursor after it.
fn sign<'a>(cursor: Cursor<'a>) -> Option<(Style, Span, Cursor<'a>)>
    ensures { IfSome result
        (λ r. Passes (place_of cursor.entry) (place_of r.2)) }
{
    reads_go_on();
    stays_along();
    let (pound, after) = cursor.punct()?;
    if pound.as_char() != '#' {
        return None;
    }
    match after.punct() {
        Some((mark, brackets)) if mark.as_char() == '!' => {
            Some((Style::Inner, pound.span(), brackets))
        }
        _ => Some((Style::Outer, pound.span(), after)),
    }
}

//! A function that lists the attributes of a file.
ghost use Rattle.std.specs.Prelude.{◌≡◌, ◌≢◌, ◌++◌, [], IfOk, codes, decimal, string_bytes};

use crate::attribute::{Fault, read};
use crate::find::{Found, Style, find};
use crate::position::{Place, Position};
use crate::source::{File, Listing, shown, start};
use std::alloc::{AllocError, Global};
use tok_buffer::Cursor;

/// Returns the listing of the attributes of `file` that begin at or after `cursor`.
pub fn list_attributes<'a>(
    alloc: Global,
    file: File<'_>,
    cursor: Cursor<'a>,
) -> Result<Listing, AllocError> {
    let mut found = Vec::new(alloc);
    find(&mut found, cursor)?;
    list_found(alloc, file, found.as_slice())
}

// Lists the attributes that were found, in order.
fn list_found(alloc: Global, file: File<'_>, found: &[Found<'_>]) -> Result<Listing, AllocError> {
    let mut listing = Listing {
        lines: String::new(alloc),
        errors: String::new(alloc),
        is_found: false,
    };
    let mut place = Place::new(file.text);
    for it in found {
        place = place.moved_to(start(it.span));
        match read(alloc, it.contents) {
            Ok(attribute) => {
                let words = words_of(
                    alloc,
                    attribute.path.as_str(),
                    attribute.delimiter,
                    attribute.arguments.as_str(),
                )?;
                let style = style_text(it.style);
                let line = line_of(alloc, file.name, place.position, style, words.as_str())?;
                listing.lines.push_str(line.as_str())?;
                listing.is_found = true;
            }
            Err(Fault::Expected(span, words)) => {
                let words = format!(in alloc; "expected {words}")?;
                let position = place.moved_to(start(span)).position;
                let error = shown(alloc, file, position, span, words.as_str())?;
                listing.errors.push_str(error.as_str())?;
            }
            Err(Fault::Placeholder) => {}
            Err(Fault::Memory) => return Err(AllocError),
        }
    }
    Ok(listing)
}

// Returns the line of an attribute.
fn line_of(
    alloc: Global,
    file: &str,
    position: Position,
    style: &str,
    words: &str,
) -> Result<String, AllocError>
    ensures { IfOk result (λ line. string_bytes line
        ≡ file.now ++ (codes ":" ++ (decimal position.line ++ (codes ":"
        ++ (decimal position.column ++ (codes ": " ++ (style.now ++ (codes " "
        ++ (words.now ++ codes "\n"))))))))) }
{
    let Position { line, column } = position;
    format!(in alloc; "{file}:{line}:{column}: {style} {words}\n")
}

// Returns a path, and the delimiter and the arguments after it, if there are any.
fn words_of(
    alloc: Global,
    path: &str,
    delimiter: &str,
    arguments: &str,
) -> Result<String, AllocError>
    ensures path { delimiter.now ≡ []
        → IfOk result (λ words. string_bytes words ≡ path.now) }
    ensures no_arguments { delimiter.now ≢ [] → arguments.now ≡ []
        → IfOk result (λ words. string_bytes words
        ≡ path.now ++ (codes " " ++ delimiter.now)) }
    ensures arguments { delimiter.now ≢ [] → arguments.now ≢ []
        → IfOk result (λ words. string_bytes words
        ≡ path.now ++ (codes " " ++ (delimiter.now ++ (codes " " ++ arguments.now)))) }
{
    if delimiter.is_empty() {
        String::from_str(alloc, path)
    } else if arguments.is_empty() {
        format!(in alloc; "{path} {delimiter}")
    } else {
        format!(in alloc; "{path} {delimiter} {arguments}")
    }
}

fn style_text(style: Style) -> &'static str {
    match style {
        Style::Outer => "outer",
        Style::Inner => "inner",
    }
}

//! A function that lists the items or the attributes of a file.
use crate::attribute_lines::list_attributes;
use crate::item_lines::list_items;
use crate::position::Place;
use crate::source::{ErrorStyle, File, Listing, SOURCE, shown, start};
use std::alloc::{AllocError, Global};
use std::str::from_utf8;
use tok_buffer::TokenBuffer;
use tok_core::{Edition, LexError, LexFault, Span};

/// The kind of a listing: the items or the attributes of a file.
#[derive(Clone, Copy)]
pub enum Mode {
    /// The structs, enums and unions of the file.
    Items,
    /// The attributes of the file.
    Attributes,
}

/// Returns the listing of the items or the attributes of a file with this name and contents.
///
/// Returns an error if an allocation fails.
pub fn list<'a>(
    alloc: Global,
    mode: Mode,
    edition: Edition,
    style: ErrorStyle,
    name: &'a str,
    bytes: &'a [u8],
) -> Result<Listing, AllocError> {
    let level = level_of(mode);
    match from_utf8(bytes) {
        Ok(text) => {
            let file = File {
                name,
                text,
                style,
                level,
            };
            list_text(alloc, mode, edition, file)
        }
        Err(error) => {
            let front = bytes.get(..error.valid_up_to()).unwrap_or(&[]);
            let text = from_utf8(front).unwrap_or("");
            let end = Span::source(SOURCE, text.len(), text.len());
            let file = File {
                name,
                text,
                style,
                level,
            };
            failed(alloc, file, end, "not UTF-8, expected a character")
        }
    }
}

// Returns what is before the words of an error in one line.
fn level_of(mode: Mode) -> &'static str {
    match mode {
        Mode::Items => "error: ",
        Mode::Attributes => "",
    }
}

fn list_text(
    alloc: Global,
    mode: Mode,
    edition: Edition,
    file: File<'_>,
) -> Result<Listing, AllocError> {
    match TokenBuffer::from_source(alloc, 0, edition, SOURCE, file.text) {
        Ok(buffer) => match mode {
            Mode::Items => list_items(alloc, file, &buffer),
            Mode::Attributes => list_attributes(alloc, file, buffer.begin()),
        },
        Err(LexFault::Refused(error)) => {
            let words = format!(in alloc; "{error}, expected {}", expected(error))?;
            failed(alloc, file, error.span(), words.as_str())
        }
        Err(LexFault::Memory) => Err(AllocError),
    }
}

// Returns the listing of a file that is rejected as a whole.
fn failed(alloc: Global, file: File<'_>, span: Span, words: &str) -> Result<Listing, AllocError> {
    let place = Place::new(file.text).moved_to(start(span));
    Ok(Listing {
        lines: String::new(alloc),
        errors: shown(alloc, file, place.position, span, words)?,
        is_found: false,
    })
}

// Returns what is expected where a text is rejected.
fn expected(error: LexError) -> &'static str {
    match error.number() {
        2 => "its closing delimiter",
        3 => "the closing delimiter of the innermost group",
        4 => "`*/`",
        6 => "a closing quote, and escapes that exist",
        9 => "digits of its base",
        10 => "a name that may be raw",
        11 => "a character or a lifetime",
        12 => "at most 256 levels",
        13 => "white space before the quote or the `#`",
        14 => "a line feed after it",
        _ => "a token",
    }
}

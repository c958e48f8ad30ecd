//! A source file, the errors in the file, and the lines that are listed for the file.
ghost use Rattle.std.specs.Prelude.{◌≡◌, ◌++◌, IfOk, codes, decimal, string_bytes};

use crate::position::Position;
use std::alloc::{AllocError, Global};
use tok_carets::Source;
use tok_core::Span;

/// The source number in the spans of the file's tokens.
pub const SOURCE: u32 = 0;

/// The style in which an error is shown.
#[derive(Clone, Copy)]
pub enum ErrorStyle {
    /// One line with the file name, the line and the column.
    Line,
    /// The text of the error, and the line of the file with carets under the span.
    Carets,
}

/// The name and the text of a file, and the style in which errors in the file are shown.
#[derive(Clone, Copy)]
pub struct File<'a> {
    pub name: &'a str,
    pub text: &'a str,
    pub style: ErrorStyle,
    /// The text that comes before the message of an error, if the error is shown on one line.
    pub level: &'static str,
}

/// The lines that are listed for a file, and the lines for errors in the file.
#[derive(Drop)]
pub struct Listing {
    pub lines: String,
    pub errors: String,
    pub is_found: bool,
}

/// Returns the text of an error at `span`, which begins at `position`.
pub fn shown(
    alloc: Global,
    file: File<'_>,
    position: Position,
    span: Span,
    words: &str,
) -> Result<String, AllocError> {
    let File {
        name,
        text,
        style,
        level,
    } = file;
    match style {
        ErrorStyle::Line => error_of(alloc, name, position, level, words),
        ErrorStyle::Carets => {
            let source = Source {
                name,
                number: SOURCE,
                text,
            };
            source.show(alloc, span, words)
        }
    }
}

// Returns the line of an error.
fn error_of(
    alloc: Global,
    file: &str,
    position: Position,
    level: &str,
    words: &str,
) -> Result<String, AllocError>
    ensures { IfOk result (λ line. string_bytes line
        ≡ file.now ++ (codes ":" ++ (decimal position.line ++ (codes ":"
        ++ (decimal position.column ++ (codes ": " ++ (level.now ++ (words.now
        ++ codes "\n")))))))) }
{
    let Position { line, column } = position;
    format!(in alloc; "{file}:{line}:{column}: {level}{words}\n")
}

/// Returns the offset of the byte at which `span` begins, or 0 if `span` is the call site.
pub fn start(span: Span) -> usize {
    match span.as_range() {
        Some((_, start, _)) => start,
        None => 0,
    }
}

//! Lines and columns of a text, and functions that format one line.
ghost use Rattle.std.specs.Prelude.{◌≡◌, ◌<◌, ◌≤◌, ◌+◌, ◌++◌, ◌∷◌, [], ℕ, List, OnOk, length, string_bytes};
ghost use Rattle.std.specs.List.{flat_map, repeat};
ghost use Rattle.std.specs.Str.{chars};
ghost use Rattle.tok_carets.specs.Lines.{IsFirstLine, IsLastLine, columns, line_number, marks, shown_character, within, without_return};

use crate::counts::line_feeds;
use memchr::memrchr;
use std::alloc::AllocError;
use tok_lexical::text::{front_of, next_char, past_char, past_others};
use unicode_width::UnicodeWidthChar;

/// A position in a text: the line, and the column in characters. Lines and columns are numbered
/// from 1.
// Laid out as C has it, so that a caller in C is lent places as they are.
#[repr(C)]
#[derive(Clone, Copy, PartialEq, Eq, Debug)]
pub struct LineColumn {
    pub line: usize,
    pub column: usize,
}

/// Returns the line and the column of the position at the end of the text `before`.
///
/// # Examples
///
/// ```rust
/// assert_eq!(rt; line_column("a\né"), LineColumn { line: 2, column: 2 });
/// ```
pub fn line_column(before: &str) -> LineColumn
    ensures line { result.line ≡ line_number (chars before.now) }
    ensures column { (line : List ℕ) × IsLastLine (chars before.now) line
        × (result.column ≡ 1 + length line) }
{
    let (line, head) = last_line(before);
    LineColumn {
        line,
        column: chars_in(head) + 1,
    }
}

/// Returns the number of the last line of `text`, and this line.
pub fn last_line(text: &str) -> (usize, &str)
    ensures number { result.0 ≡ line_number (chars text.now) }
    ensures line { IsLastLine (chars text.now) (chars result.1.now) }
{
    let bytes = text.as_bytes();
    let number = 1 + line_feeds(bytes);
    let Some(at) = memrchr(b'\n', bytes) else {
        return (number, text);
    };
    let (_, line) = text.split_at(at + 1);
    (number, line)
}

/// Returns the first line of `text`, without the line feed.
pub fn first_line(text: &str) -> &str
    ensures { IsFirstLine (chars text.now) (chars result.now) }
{
    front_of(text, past_others(text, b'\n', b'\n'))
}

/// Returns the number of characters in `text`.
pub fn chars_in(text: &str) -> usize
    ensures value { result ≡ length (chars text.now) }
    ensures small { result ≤ length text.now }
{
    let mut count = 0;
    let mut rest = text;
    while let Some((_, after)) = next_char(rest) {
        count += 1;
        rest = after;
    }
    count
}

/// Returns `line` without the carriage return at its end, if there is one.
pub fn without_return(line: &str) -> &str
    ensures { chars result.now ≡ without_return (chars line.now) }
{
    match line.strip_suffix('\r') {
        Some(front) => front,
        None => line,
    }
}

/// Returns the characters that begin in the first `bytes` bytes of `text`.
pub fn within(text: &str, bytes: usize) -> &str
    ensures { chars result.now ≡ within bytes (chars text.now) }
{
    let mut left = bytes;
    let mut rest = text;
    while let Some((c, after)) = next_char(rest) {
        if left == 0 {
            break;
        }
        left = left.saturating_sub(c.len_utf8());
        rest = after;
    }
    front_of(text, rest)
}

fn columns(c: char) -> usize
    ensures value { result ≡ columns c }
    ensures few { result ≤ 4 }
{
    if c == '\t' { 4 } else { c.width().unwrap_or(0) }
}

/// Appends `line` to `to`, with four spaces in place of each tab.
///
/// Returns an error if an allocation fails.
pub fn push_shown(to: &mut String, line: &str) -> Result<(), AllocError>
    ensures { OnOk result
        (string_bytes to.new ≡ string_bytes to.old ++ flat_map shown_character (chars line.now)) }
{
    let mut rest = line;
    loop {
        let tab = past_others(rest, b'\t', b'\t');
        to.push_str(front_of(rest, tab))?;
        let Some(after) = past_char(tab, '\t') else {
            return Ok(());
        };
        to.push_str("    ")?;
        rest = after;
    }
}

/// Appends the character `mark` to `to`, repeated `times` times.
///
/// Returns an error if an allocation fails.
///
/// # Requires
///
/// `mark` must be an ASCII character.
pub fn push_times(to: &mut String, mark: char, times: usize) -> Result<(), AllocError>
    requires ascii { mark < 128 }
    ensures { OnOk result
        (string_bytes to.new ≡ string_bytes to.old ++ repeat times (mark ∷ [])) }
{
    let mut left = times;
    while left > 0 {
        to.push(mark)?;
        left -= 1;
    }
    Ok(())
}

/// Appends the character `mark` to `to` once for each column that `text` occupies.
///
/// Returns an error if an allocation fails.
///
/// # Requires
///
/// `mark` must be an ASCII character.
pub fn push_marks(to: &mut String, text: &str, mark: char) -> Result<(), AllocError>
    requires ascii { mark < 128 }
    ensures { OnOk result
        (string_bytes to.new ≡ string_bytes to.old ++ marks mark (chars text.now)) }
{
    let mut rest = text;
    while let Some((c, after)) = next_char(rest) {
        push_times(to, mark, columns(c))?;
        rest = after;
    }
    Ok(())
}

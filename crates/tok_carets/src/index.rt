//! An index of the positions at which the lines of a text begin.
ghost use Rattle.std.specs.Prelude.{◌≡◌, ◌≤◌, ◌+◌, IfOk, IfSome, MatchOption, length, take};
ghost use Rattle.std.specs.Str.{IsCharBoundary, IsUtf8, chars};
ghost use Rattle.tok_lexical.specs.Ascii.{line_feed};
ghost use Rattle.memchr.specs.Find.{is_byte, places};
ghost use Rattle.tok_carets.specs.Lines.{ArePlaces, IsKnown, IsLastLine, IsLineColumn, IsLineStart, IsPlaceAt, IsStretch, line_feeds, line_number};

use crate::line::{LineColumn, chars_in};
use memchr::memchr_iter;
use std::alloc::{AllocError, Global};
use tok_lexical::text::past_others;

/// A text with an index of its lines, for finding the lines and columns of many byte offsets.
///
/// The method `line_column` performs a binary search over the lines, and then reads one line. In
/// contrast, the function `line_column` reads the whole text before the offset.
///
/// # Examples
///
/// ```rust
/// let index = LineIndex::new(alloc, "a\nbc")?;
/// assert_eq!(rt; index.line_column(3), Some(LineColumn { line: 2, column: 2 }));
/// ```
#[derive(Drop, Debug)]
pub struct LineIndex<'a> {
    text: &'a str,
    // The byte of each line feed, in order.
    feeds: Vec<usize>,
    ghost are: { feeds.items ≡ places (is_byte line_feed) text.now },
}

impl<'a> LineIndex<'a> {
    /// Creates an index of the lines of `text`.
    ///
    /// The call reads `text` once. Returns an error if an allocation fails.
    pub fn new(alloc: Global, text: &'a str) -> Result<LineIndex<'a>, AllocError>
        ensures { IfOk result (λ index. index.text.now ≡ text.now) }
    {
        let mut feeds = Vec::new(alloc);
        for at in memchr_iter(b'\n', text.as_bytes()) {
            feeds.push(at)?;
        }
        Ok(LineIndex { text, feeds })
    }

    /// Returns the indexed text.
    pub fn text(&self) -> &'a str
        ensures { result.now ≡ self.now.text.now }
    {
        self.text
    }

    /// Returns the line and the column of the byte offset `at`.
    ///
    /// Returns `None` if `at` is within a character or after the end of the text.
    pub fn line_column(&self, at: usize) -> Option<LineColumn>
        ensures { MatchOption result (IsCharBoundary self.now.text.now at → ⊥)
            (λ place. IsCharBoundary self.now.text.now at
            × IsLineColumn (take at self.now.text.now) place) }
    {
        let (before, _) = self.text.split_at_checked(at)?;
        let (line, head) = self.last_line(before);
        Some(LineColumn {
            line,
            column: chars_in(head) + 1,
        })
    }

    /// Writes the line and the column of each byte offset in `bytes` to the element of `places`
    /// with the same index.
    ///
    /// If an offset is within a character or after the end of the text, the call writes line 0 and
    /// column 0. The call is fastest if the offsets are in ascending order.
    ///
    /// # Requires
    ///
    /// `places` must have at least as many elements as `bytes`.
    pub fn line_columns(&self, bytes: &[usize], places: &mut [LineColumn])
        requires room { length bytes.now ≤ length places.old }
        ensures { ArePlaces self.now.text.now bytes.now places.old places.new }
    {
        // A character begins at the first byte of a text.
        let _text = self.text;
        let mut from = 0;
        let mut known = LineColumn { line: 1, column: 1 };
        let mut done = 0;
        while done < bytes.len() {
            let (place, last, found) = self.next_place(from, known, bytes[done]);
            places[done] = place;
            from = last;
            known = found;
            done += 1;
        }
    }

    // Returns the place before a byte, and of this byte and the one whose place is known that which
    // has a place, with it.
    fn next_place(
        &self,
        from: usize,
        known: LineColumn,
        at: usize,
    ) -> (LineColumn, usize, LineColumn)
        requires known { IsKnown self.now.text.now from known }
        ensures place { IsPlaceAt self.now.text.now at result.0 }
        ensures known { IsKnown self.now.text.now result.1 result.2 }
    {
        match self.line_column_after(from, known, at) {
            Some(place) => (place, at, place),
            None => (LineColumn { line: 0, column: 0 }, from, known),
        }
    }

    // Returns what `line_column` does, sooner if the byte is in the line of one whose place is known,
    // and not before it.
    fn line_column_after(&self, from: usize, known: LineColumn, at: usize) -> Option<LineColumn>
        requires known { IsKnown self.now.text.now from known }
        ensures { MatchOption result (IsCharBoundary self.now.text.now at → ⊥)
            (λ place. IsKnown self.now.text.now at place) }
    {
        let text = self.text;
        match same_line(text, from, at) {
            Some(between) => Some(LineColumn {
                line: known.line,
                column: known.column + chars_in(between),
            }),
            None => self.line_column(at),
        }
    }

    // Returns the number of the last line of a front of the text, and this line, as the function
    // `last_line` does, but doesn't read the front.
    pub(crate) fn last_line<'t>(&self, before: &'t str) -> (usize, &'t str)
        requires front { before.now ≡ take (length before.now) self.now.text.now }
        ensures number { result.0 ≡ line_number (chars before.now) }
        ensures line { IsLastLine (chars before.now) (chars result.1.now) }
    {
        let (lines, start) = self.last_start(before.len());
        let (_, line) = before.split_at(start);
        (lines + 1, line)
    }

    // Returns how many lines are before the line of this byte, and where this line begins.
    pub(crate) fn last_start(&self, at: usize) -> (usize, usize)
        ensures lines { result.0 ≡ line_feeds (take at self.now.text.now) }
        ensures start { IsLineStart self.now.text.now at result.1 }
    {
        let lines = self.feeds_before(at);
        if lines == 0 {
            (0, 0)
        } else {
            (lines, self.feeds[lines - 1] + 1)
        }
    }

    // Returns how many line feeds are before this byte.
    fn feeds_before(&self, at: usize) -> usize
        ensures count { result ≡ line_feeds (take at self.now.text.now) }
        ensures few { result ≤ length self.now.feeds.items }
    {
        self.feeds.partition_point(|feed| *feed < at)
    }
}

// Returns the text from one byte to another, if no line feed is in it.
fn same_line(text: &str, from: usize, at: usize) -> Option<&str>
    ensures stretch { IfSome result (λ between. IsCharBoundary text.now at
        × IsStretch text.now from at between.now) }
    ensures utf8 { IfSome result (λ between. IsUtf8 between.now) }
{
    let (before, _) = text.split_at_checked(at)?;
    let (_, between) = before.split_at_checked(from)?;
    if past_others(between, b'\n', b'\n').is_empty() {
        Some(between)
    } else {
        None
    }
}

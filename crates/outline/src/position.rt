//! Types for lines and columns, and for places in a text.
ghost use Rattle.std.specs.Prelude.{◌≡◌, ◌≤◌, ◌⊎◌, []};
ghost use Rattle.std.specs.Str.{chars};
ghost use Rattle.outline.specs.Positions.{GoesOn, step};

use tok_lexical::text::next_char;

/// A line and a column. Both are counted from 1, and a column is a number of characters.
#[derive(Clone, Copy)]
pub struct Position {
    pub line: usize,
    pub column: usize,
}

// The position of the first character of a text.
const START: Position = Position { line: 1, column: 1 };

/// A place in a text, with the rest of the text, the byte offset, and the line and column.
#[derive(Clone, Copy)]
pub struct Place<'a> {
    rest: &'a str,
    at: usize,
    pub position: Position,
}

impl<'a> Place<'a> {
    /// Returns the place of the first character of `text`.
    ///
    /// A byte order mark at the start of `text` does not count as a column.
    pub fn new(text: &'a str) -> Place<'a> {
        let rest = match next_char(text) {
            Some(('\u{FEFF}', after)) => after,
            _ => text,
        };
        Place {
            rest,
            at: text.len().saturating_sub(rest.len()),
            position: START,
        }
    }

    /// Returns the first place at or after `self` whose byte offset is at least `at`, or the end of
    /// the text.
    #[tactic(auto, using(crate::proofs::Moves::starts))]
    pub fn moved_to(self, at: usize) -> Place<'a>
        ensures goes_on { GoesOn self.entry.position self.entry.rest.now
            result.position result.rest.now }
        ensures reaches { (at ≤ result.at) ⊎ (chars result.rest.now ≡ []) }
    {
        let mut place = self;
        while place.at < at {
            let Some((c, rest)) = next_char(place.rest) else {
                return place;
            };
            place = Place {
                rest,
                at: place.at.saturating_add(c.len_utf8()),
                position: step(place.position, c),
            };
        }
        place
    }
}

// Returns the position after one character.
fn step(position: Position, c: char) -> Position
    ensures { result ≡ step position c }
{
    if c == '\n' {
        Position {
            line: position.line.saturating_add(1),
            column: 1,
        }
    } else {
        Position {
            line: position.line,
            column: position.column.saturating_add(1),
        }
    }
}

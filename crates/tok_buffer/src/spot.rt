//! The type `Spot`, which is a position in a buffer together with the end of its scope.
ghost use Rattle.std.specs.Prelude.{◌≡◌, ◌≤◌, true};
ghost use Rattle.tok_core.specs.Weight.{weight};
ghost use Rattle.tok_buffer.specs.Moves.{in_scope, settled_at};

use crate::buffer::TokenBuffer;
use crate::entry::{Entry, same};
use tok_core::Delimiter;

/// A position in a buffer, together with the position of the end of its scope.
///
/// If a group ends at the position, then it is the group whose contents are the scope.
#[derive(Clone, Copy)]
pub struct Spot<'a> {
    pub buffer: &'a TokenBuffer,
    pub position: usize,
    pub scope: usize,
    ghost in_buffer: { scope ≤ weight buffer.now.forest },
    ghost within: { in_scope buffer.now.forest position scope ≡ true },
    ghost settled: { settled_at buffer.now.forest position scope ≡ true },
}

impl<'a> Spot<'a> {
    ghost use Rattle.std.specs.Prelude.{◌+◌, false};
    ghost use Rattle.tok_buffer.specs.Cursors.{spot_place};
    ghost use Rattle.tok_buffer.specs.Descent.{descend};
    ghost use Rattle.tok_buffer.specs.Private.Layout.{entry_here};
    ghost use Rattle.tok_buffer.specs.Moves.{place_at, advance, invisible_front, frames_at, frame_ahead};
    ghost use Rattle.tok_buffer.specs.Place.{is_at_end, settled};

    /// Returns the spot that is `length + 1` entries after `position`.
    ///
    /// If groups inside the scope end there, returns the spot after the ends of these groups.
    pub fn past(buffer: &'a TokenBuffer, position: usize, length: usize, scope: usize) -> Spot<'a>
        requires in_buffer { scope ≤ weight buffer.now.forest }
        requires in_front { position + length + 1 ≤ scope }
        requires within { in_scope buffer.now.forest (position + length + 1) scope ≡ true }
        ensures { spot_place result
            ≡ settled (place_at buffer.now.number buffer.now.forest (position + length + 1) scope) }
    {
        let mut position = position + length + 1;
        while position != scope && buffer.ends_at(position) {
            position += 1;
        }
        Spot {
            buffer,
            position,
            scope,
        }
    }

    /// Returns the spot at the start of the contents of the group that opens at `position`.
    ///
    /// `offset` is the number of entries from the opening of the group to its end.
    pub fn inside(buffer: &'a TokenBuffer, position: usize, offset: usize, scope: usize) -> Spot<'a>
        requires in_buffer { scope ≤ weight buffer.now.forest }
        requires in_front { position + offset + 1 ≤ scope }
        requires within { in_scope buffer.now.forest (position + 1) (position + offset) ≡ true }
        requires settled { settled_at buffer.now.forest (position + 1) (position + offset) ≡ true }
        ensures { spot_place result
            ≡ place_at buffer.now.number buffer.now.forest (position + 1) (position + offset) }
    {
        Spot {
            buffer,
            position: position + 1,
            scope: position + offset,
        }
    }

    /// Returns the buffer entry at this spot.
    pub fn entry(self) -> &'a Entry
        ensures { result.now
            ≡ entry_here (frames_at self.entry.buffer.now.forest self.entry.position).0 }
    {
        self.buffer.entry(self.position)
    }

    /// Returns the spot after the entry at this spot.
    ///
    /// If a non-empty group opens at this spot, the returned spot is at the start of the group's
    /// contents.
    ///
    /// # Requires
    ///
    /// The spot must not be at the end of its scope.
    pub fn bump(self) -> Spot<'a>
        requires { is_at_end (spot_place self) ≡ false }
        ensures { spot_place result ≡ settled (advance (spot_place self.entry)) }
    {
        Spot::past(self.buffer, self.position, 0, self.scope)
    }

    // Returns `true` if an invisible group opens here.
    fn at_invisible(self) -> bool
        ensures { result
            ≡ invisible_front
            (frame_ahead (frames_at self.entry.buffer.now.forest self.entry.position).0) }
    {
        match self.entry() {
            Entry::Group(group, _) => same(group.delimiter, Delimiter::None),
            _ => false,
        }
    }

    /// Enters invisible groups as long as an invisible group is next, and returns the reached spot.
    pub fn ignore_none(self) -> Spot<'a>
        ensures { spot_place result ≡ descend (spot_place self.entry) }
    {
        let mut spot = self;
        while spot.at_invisible() {
            spot = spot.bump();
        }
        spot
    }
}

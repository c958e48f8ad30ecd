//! Iteration over the buffer entries that remain in a scope.
ghost use Rattle.std.specs.Prelude.{◌≡◌, ◌≤◌, ◌<◌, ◌^◌, true};
ghost use Rattle.tok_core.specs.Weight.{weight};
ghost use Rattle.tok_buffer.specs.Moves.{in_scope};

use crate::buffer::TokenBuffer;
use crate::entry::{Held, Leaf, Opening};

/// The buffer entries from a position to the end of a scope.
///
/// The scope is the whole buffer or the contents of one group. The method `next` returns the
/// entries one by one.
#[derive(Clone, Copy)]
pub struct Ahead<'a> {
    pub buffer: &'a TokenBuffer,
    pub position: usize,
    pub scope: usize,
    ghost in_range: { scope < 2 ^ 64 },
    ghost in_buffer: { scope ≤ weight buffer.now.forest },
    ghost within: { in_scope buffer.now.forest position scope ≡ true },
}

/// A group that opens at the next buffer entry.
///
/// The fields are the opening of the group, the entries inside the group, all entries after the
/// opening, and the entries after the end of the group.
#[derive(Clone, Copy)]
pub struct NextGroup<'a> {
    pub opening: &'a Opening,
    pub inside: Ahead<'a>,
    pub entered: Ahead<'a>,
    pub after: Ahead<'a>,
}

/// The buffer entry that `Ahead::next` returns, with the entries that remain after it.
#[derive(Clone, Copy)]
pub enum Next<'a> {
    Leaf(Leaf<'a>, Ahead<'a>),
    Group(NextGroup<'a>),
    /// The end of a group inside the scope, with the entries that remain after it.
    End(Ahead<'a>),
}

impl<'a> Ahead<'a> {
    ghost use Rattle.tok_buffer.specs.Private.Steps.{Finds};

    /// Returns the entries of `buffer` from index `position` up to index `scope`, the end of the
    /// scope.
    #[inline(always)]
    pub fn new(buffer: &'a TokenBuffer, position: usize, scope: usize) -> Ahead<'a>
        requires in_buffer { scope ≤ weight buffer.now.forest }
        requires within { in_scope buffer.now.forest position scope ≡ true }
        ensures buffer { result.buffer.now ≡ buffer.now }
        ensures position { result.position ≡ position }
        ensures scope { result.scope ≡ scope }
    {
        Ahead {
            buffer,
            position,
            scope,
        }
    }

    /// Returns the next buffer entry, with the entries that remain after it.
    ///
    /// # Requires
    ///
    /// The position must be before the end of the scope.
    // Inlined: nothing is left of what a loop does not use.
    #[inline(always)]
    pub fn next(self) -> Next<'a>
        requires { self.position ≡ self.scope → ⊥ }
        ensures { Finds self.entry result }
    {
        let Ahead {
            buffer,
            position,
            scope,
        } = self;
        let onward = Ahead::new(buffer, position + 1, scope);
        match buffer.entry(position).held() {
            Held::Leaf(leaf) => Next::Leaf(leaf, onward),
            Held::Group(opening, offset) => Next::Group(NextGroup {
                opening,
                inside: Ahead::new(buffer, position + 1, position + offset),
                entered: onward,
                after: Ahead::new(buffer, position + offset + 1, scope),
            }),
            Held::End(_) => Next::End(onward),
        }
    }
}

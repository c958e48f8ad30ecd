//! The builder that collects the entries of a buffer from a text, or from a caller's entries.
ghost use Rattle.std.specs.Prelude.{◌≡◌, ◌++◌, ◌∷◌, [], IfOk};
ghost use Rattle.tok_core.specs.Building.{nothing};
ghost use Rattle.tok_buffer.specs.Private.Layout.{layout, laid};
ghost use Rattle.tok_buffer.specs.declared.entry.Entry.TheVariants.{End};

use crate::entry::{Entry, Opening};
use std::alloc::{AllocError, Global};
use std::marker::Model;
use tok_core::room::fitted;
use tok_core::{Build, Delimiter, Ident, Literal, Punct, Span};
use tok_entries::{TakeBack, first_room};

/// A builder that collects the entries of a buffer in order.
///
/// When a group opens, the builder stores a temporary `End` entry in place of the group's opening.
/// When the group closes, the builder replaces this entry with the opening. The builder also keeps
/// the positions of the open groups, from the outermost group to the innermost.
///
/// Contracts describe the builder as several lists of token trees: one list for each open group,
/// and one for the outermost level.
#[derive(Drop)]
pub struct EntryBuilder {
    entries: Vec<Entry>,
    open: Vec<usize>,
}

impl Model for EntryBuilder {
    ghost use Rattle.std.specs.Prelude.{◌≡◌};
    ghost use Rattle.tok_core.specs.Building.{Levels, levels_code, places};
    ghost use Rattle.tok_buffer.specs.Private.Layout.{layout, laid, levels_in};

    ghost Value = { Levels };

    ghost coded = { levels_code };

    ghost view = { λ b. levels_in b.entries.items };

    ghost use Rattle.std.specs.Prelude.{◌++◌};

    ghost invariant = { λ b.
        (b.entries.items
        ≡ laid (levels_in b.entries.items).outer ++ layout (levels_in b.entries.items).inner)
        × (b.«open».items ≡ places 0 (levels_in b.entries.items).outer) };
}

impl EntryBuilder {
    /// Creates an empty builder, with a capacity that is estimated for a text of `bytes` bytes.
    ///
    /// If the text has fewer than 256 bytes, the capacity is 0. Returns an error if the allocation
    /// fails.
    //
    // A vector that grows from nothing copies its entries about once more.
    pub fn with_room(alloc: Global, bytes: usize) -> Result<EntryBuilder, AllocError>
        ensures { IfOk result (λ b. b ≡ nothing) }
    {
        Ok(EntryBuilder {
            entries: Vec::with_capacity(alloc, first_room(bytes))?,
            open: Vec::new(alloc),
        })
    }

    /// Creates an empty builder with room for at least `capacity` entries.
    ///
    /// Returns an error if the allocation fails.
    pub fn with_capacity(alloc: Global, capacity: usize) -> Result<EntryBuilder, AllocError>
        ensures { IfOk result (λ b. b ≡ nothing) }
    {
        Ok(EntryBuilder {
            entries: Vec::with_capacity(alloc, capacity)?,
            open: Vec::new(alloc),
        })
    }

    /// Returns the collected entries, with an entry for the end of the buffer after them.
    ///
    /// The vector is at most twice as large as the entries need, or has room for four. Returns an
    /// error if an allocation fails.
    pub fn into_entries(self) -> Result<Vec<Entry>, AllocError>
        ensures { IfOk result
            (λ v. v.items ≡ (laid self.outer ++ layout self.inner) ++ End 0 ∷ []) }
    {
        let mut entries = self.entries;
        entries.push(Entry::End(0))?;
        fitted(entries)
    }
}

impl Build for EntryBuilder {
    ghost levels = { λ b. b };

    #[inline(always)]
    fn ident(&mut self, ident: Ident) -> Result<(), AllocError> {
        self.entries.push(Entry::Ident(ident))?;
        Ok(())
    }

    #[inline(always)]
    fn punct(&mut self, punct: Punct) -> Result<(), AllocError> {
        self.entries.push(Entry::Punct(punct))?;
        Ok(())
    }

    #[inline(always)]
    fn literal(&mut self, literal: Literal) -> Result<(), AllocError> {
        self.entries.push(Entry::Literal(literal))?;
        Ok(())
    }

    // If the allocation fails, nothing changes.
    #[inline(always)]
    fn open(&mut self) -> Result<(), AllocError> {
        let start = self.entries.len();
        self.entries.push(Entry::End(0))?;
        match self.open.push(start) {
            Ok(()) => Ok(()),
            Err(failed) => {
                self.entries.pop();
                Err(AllocError::from(failed))
            }
        }
    }

    // If the allocation fails, nothing changes.
    #[inline(always)]
    fn close(&mut self, delimiter: Delimiter, span: Span) -> Result<(), AllocError> {
        let Some(start) = self.open.pop() else {
            unreachable!()
        };
        let offset = self.entries.len() - start;
        match self.entries.push(Entry::End(offset)) {
            Ok(()) => {
                self.entries[start] = Entry::Group(Opening { delimiter, span }, offset);
                Ok(())
            }
            Err(failed) => {
                self.open.push_reserved(start);
                Err(AllocError::from(failed))
            }
        }
    }
}

impl TakeBack for EntryBuilder {
    #[inline(always)]
    fn take_back(&mut self) -> bool {
        let Some(place) = self.open.pop() else {
            unreachable!()
        };
        if self.entries.len() - place > 1 {
            self.open.push_reserved(place);
            return false;
        }
        self.entries.pop();
        true
    }
}

//! The reasons why `read_entries` rejects entries.
ghost use Rattle.std.specs.Prelude.{◌≡◌, Some};
ghost use Rattle.tok_entries.specs.Refusals.{entry_fault_words, refusal_words};

use std::alloc::AllocError;
use std::fmt;
use std::fmt::{Formatter, Write};

/// The reason why an array of entries does not represent a token stream.
#[derive(Clone, Copy, PartialEq, Eq, Debug)]
pub enum Refusal {
    /// A field of an entry is invalid.
    ///
    /// For example, the kind of the entry is above 4, its text does not begin where the previous
    /// text ends, or a group lacks its opening or closing delimiter.
    Shape,
    /// The text of an identifier, a punct or a literal is not valid for this kind of token.
    Text,
    /// More than 256 groups are nested.
    Depth,
}

/// An error that `read_entries` can return.
#[derive(Clone, Copy, PartialEq, Eq, Debug)]
pub enum EntryFault {
    /// `read_entries` rejected an entry. The fields are the reason and the index of the entry.
    Refused(Refusal, usize),
    /// An allocation failed.
    Memory,
}

impl From<AllocError> for EntryFault {
    ghost use Rattle.tok_entries.specs.declared.intake.fault.EntryFault.TheVariants.{Memory};

    ghost from_gives = { λ _ fault. fault ≡ Memory };

    fn from(_: AllocError) -> Self {
        EntryFault::Memory
    }
}

impl fmt::Display for Refusal {
    ghost output = { λ refusal. Some (refusal_words refusal) };

    fn fmt<W: Write>(&self, f: &mut Formatter<W>) -> fmt::Result {
        f.write_str(match self {
            Refusal::Shape => "a field does not fit",
            Refusal::Text => "not a token of this kind",
            Refusal::Depth => "groups nested too deep",
        })
    }
}

/// Writes the index of the entry, and the reason why the entry is rejected.
impl fmt::Display for EntryFault {
    ghost output = { λ fault. Some (entry_fault_words fault) };

    fn fmt<W: Write>(&self, f: &mut Formatter<W>) -> fmt::Result {
        match self {
            EntryFault::Refused(refusal, number) => write!(f, "entry {number}: {refusal}"),
            EntryFault::Memory => f.write_str("out of memory"),
        }
    }
}

impl std::error::Error for EntryFault {}

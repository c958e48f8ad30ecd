//! Laws about the structs that callers see. Each law is the contract of a function that does
//! nothing.
ghost use Rattle.tok_lexical.specs.Laws.{ClonesKeep};

use crate::flat::FlatArgument;
use crate::open::Opened;
use crate::read::Reading;
use crate::value::LiteralValue;

/// A clone of a struct that the library fills in for a caller equals the original, including its
/// pointers.
pub fn clones_keep_structs()
    ensures openings { ClonesKeep ⟦<Opened as Clone>⟧.is_clone }
    ensures readings { ClonesKeep ⟦<Reading as Clone>⟧.is_clone }
    ensures arguments { ClonesKeep ⟦<FlatArgument as Clone>⟧.is_clone }
    ensures values { ClonesKeep ⟦<LiteralValue as Clone>⟧.is_clone }
{}

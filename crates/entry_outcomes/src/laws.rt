//! Laws about outcomes. Each law is the contract of a function that does nothing.
ghost use Rattle.tok_lexical.specs.Laws.{ClonesKeep};

use crate::outcome::{Message, Outcome};

/// A clone of an `Outcome` or of a `Message` equals the original.
pub fn clones_keep_outcomes()
    ensures outcomes { ClonesKeep ⟦<Outcome as Clone>⟧.is_clone }
    ensures messages { ClonesKeep ⟦<Message as Clone>⟧.is_clone }
{}

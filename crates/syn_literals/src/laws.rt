//! Laws about literals. Each law is the contract of a function that does nothing.
ghost use Rattle.tok_lexical.specs.Laws.{ClonesKeep};

use crate::boolean::LitBool;

/// A clone of a `LitBool` has the same value and span as the original.
pub fn clones_keep_booleans()
    ensures { ClonesKeep ⟦<LitBool as Clone>⟧.is_clone }
{}

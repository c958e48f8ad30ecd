//! Laws about positions in texts. Each law is the contract of a function that does nothing.
ghost use Rattle.tok_lexical.specs.Laws.{ClonesKeep, EqualAsValues};

use crate::line::LineColumn;
use crate::source::Source;

/// Two values of `LineColumn` are equal if and only if their lines and their columns are equal.
pub fn places_are_compared_whole()
    ensures { EqualAsValues ⟦<LineColumn as PartialEq>⟧.eq }
{}

/// A clone of a `LineColumn` or of a `Source` equals the original.
pub fn clones_keep_places<'a>()
    ensures places { ClonesKeep ⟦<LineColumn as Clone>⟧.is_clone }
    ensures sources { ClonesKeep ⟦<Source<'a> as Clone>⟧.is_clone }
{}

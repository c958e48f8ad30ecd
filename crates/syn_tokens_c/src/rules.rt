//! The rules by which a text is read.
ghost use Rattle.std.specs.Prelude.{◌≡◌};
ghost use Rattle.syn_tokens_c.specs.Rules.{rules_of};

use crate::read::edition_of;
use tok_core::Edition;

/// The rules by which a call reads a text: the rules of `lex`, of `lex_marked`, or of `lex_source`
/// for an edition.
#[derive(Clone, Copy)]
pub enum Rules {
    Plain,
    Marked,
    Source(Edition),
}

// Returns the rules of this number, if there are any.
pub fn rules_of(number: u32) -> Option<Rules>
    ensures { result ≡ rules_of number }
{
    match number {
        0 => Some(Rules::Plain),
        1 => Some(Rules::Marked),
        _ => match edition_of(number) {
            Some(edition) => Some(Rules::Source(edition)),
            None => None,
        },
    }
}

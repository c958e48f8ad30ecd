//! The parser of lists, which is generic over the rule that decides when a list ends.
ghost use Rattle.std.specs.Prelude.{◌≡◌, ◌+◌, ◌<◌, ◌≤◌, false, true, length, IfOk, MatchResult};
ghost use Rattle.std.specs.Fn.{CalledAtMut};
ghost use Rattle.tok_buffer.specs.Cursors.{place_of};
ghost use Rattle.tok_buffer.specs.Progress.{remaining};
ghost use Rattle.syn_parse.specs.Faults.{Refuses};
ghost use Rattle.syn_punctuated.specs.Lists.{values_of};
ghost use Rattle.syn_punctuated.specs.Private.Pieces.{IsPiece, Keeps};
ghost use Rattle.syn_punctuated.specs.Progress.{MakesNone, progresses};
ghost use Rattle.syn_punctuated.specs.TakeLists.{Separates};
ghost use Rattle.syn_punctuated.specs.Turns.{Rule, IsRun, LeadsToTurn, no_progress};

use crate::punctuated::Punctuated;
use std::alloc::Global;
use syn_parse::{Fault, Parse, ParseBuffer, ParseStream, Result};
use tok_buffer::laws::staying_adds_nothing;
use tok_buffer::{Cursor, Error};

/// A rule that decides when a list with separators of type `P` ends.
pub(crate) trait ListRule<P> {
    ghost rule: { Rule };

    /// Returns `true` if another value follows, and `false` if the list ends here.
    fn begins(input: &ParseBuffer<'_>) -> bool
        ensures begins { result ≡ true → rule.begins input.now.place }
        ensures ends { result ≡ false → rule.ends input.now.place };

    /// Returns `true` if a separator follows the last parsed value, and `false` if the list ends
    /// with this value.
    fn goes_on(input: &ParseBuffer<'_>) -> bool
        ensures goes_on { result ≡ true → rule.goes_on input.now.place }
        ensures stops { result ≡ false → rule.stops input.now.place };
}

/// Parses a list that ends by the rule `R`, and parses each of its values with `parser`.
pub(crate) fn parse_list<'a, R, T, P, F>(
    input: ParseStream<'_, 'a>,
    mut parser: F,
) -> Result<Punctuated<T, P>>
where
    R: ListRule<P>,
    T: Drop,
    P: Parse + Drop,
    F: FnMut(ParseStream<'_, 'a>) -> Result<T>,
    requires { (f : F) (y : _) → remaining y.now.place ≤ remaining input.old.place
        → LeadsToTurn R.rule (CalledAtMut F.FnMut) (Separates P.parses P.takes) parser input.old
        f y.now → F.pre f y }
    ensures run { IsRun R.rule (CalledAtMut F.FnMut)
        (Separates P.parses P.takes) parser input.old result input.new }
    ensures bounded { IfOk result
        (λ list. length (values_of list) ≤ remaining input.old.place + 1) }
{
    let alloc = input.allocator();
    let mut pairs = Vec::new(alloc);
    let mut start = input.cursor();
    loop {
        match read_turn::<R, T, P, F>(input, &mut parser)? {
            Piece::End => {
                return Ok(Punctuated {
                    inner: pairs,
                    last: None,
                });
            }
            Piece::Bare(value) => return with_bare(alloc, pairs, value),
            Piece::Full(value, separator) => pairs.push((value, separator))?,
        }
        start = next_turn(input, start)?;
    }
}

/// The result of parsing a value and the separator after it.
#[derive(Drop)]
enum Piece<T, P> {
    /// The list ends without another value.
    End,
    /// The last value, without a separator after it.
    Bare(T),
    /// A value and the separator after it.
    Full(T, P),
}

/// Parses a value and the separator after it, if the rule `R` allows them.
fn read_turn<'a, R, T, P, F>(input: ParseStream<'_, 'a>, parser: &mut F) -> Result<Piece<T, P>>
where
    R: ListRule<P>,
    T: Drop,
    P: Parse + Drop,
    F: FnMut(ParseStream<'_, 'a>) -> Result<T>,
    requires { (y : _) → y.now ≡ input.old → R.rule.begins input.old.place → F.pre parser.old y }
    ensures { IsPiece R.rule (CalledAtMut F.FnMut)
        (Separates P.parses P.takes) parser.old input.old result parser.new input.new }
{
    if !R::begins(input) {
        return Ok(Piece::End);
    }
    let value = parser(input)?;
    if !R::goes_on(input) {
        return Ok(Piece::Bare(value));
    }
    let separator = P::parse(input)?;
    Ok(Piece::Full(value, separator))
}

/// Returns the cursor for the next value, or an error if no progress was made since `start`.
///
/// Because of this error, the parser of a list terminates for every value parser and every
/// separator.
fn next_turn<'a>(input: &ParseBuffer<'a>, start: Cursor<'a>) -> Result<Cursor<'a>>
    ensures progress { MatchResult result
        (λ now. (place_of now ≡ input.now.place)
        × (progresses (place_of start.entry) input.now.place ≡ true))
        (λ fault. MakesNone (place_of start.entry) input.now.place
        × Refuses (no_progress input.now) fault) }
    ensures lowers { IfOk result
        (λ _. remaining input.now.place < remaining (place_of start.entry)) }
{
    staying_adds_nothing();
    let now = input.cursor();
    if has_passed(now, start) {
        Ok(now)
    } else {
        Err(no_progress(input))
    }
}

/// Returns `true` if `now` is later than `start` in the same scope, or if `now` is empty and
/// `start` is not.
fn has_passed(now: Cursor<'_>, start: Cursor<'_>) -> bool
    ensures test { result ≡ progresses (place_of start.entry) (place_of now.entry) }
    ensures lowers { result ≡ true
        → remaining (place_of now.entry) < remaining (place_of start.entry) }
{
    staying_adds_nothing();
    start.same_scope(now) && start < now || start.position().is_some() && now.position().is_none()
}

/// Returns the error for a value and a separator that made no progress.
fn no_progress(input: &ParseBuffer<'_>) -> Fault
    ensures { Refuses (no_progress input.now) result }
{
    match Error::new(input.allocator(), input.span(), "parser made no progress") {
        Ok(error) => Fault::Refused(error),
        Err(error) => Fault::Memory(error),
    }
}

/// Creates a list from pairs and a last value without a separator.
fn with_bare<T: Drop, P: Drop>(
    alloc: Global,
    pairs: Vec<(T, P)>,
    value: T,
) -> Result<Punctuated<T, P>>
    ensures { Keeps pairs.items value result }
{
    let value = Box::new(alloc, value)?;
    Ok(Punctuated {
        inner: pairs,
        last: Some(value),
    })
}

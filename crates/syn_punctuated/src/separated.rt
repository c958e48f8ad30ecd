//! The parsers of separated lists, in which another value follows each separator.
ghost use Rattle.std.specs.Prelude.{◌+◌, ◌≤◌, length, IfOk};
ghost use Rattle.std.specs.Fn.{CalledAtMut};
ghost use Rattle.tok_buffer.specs.Progress.{remaining};
ghost use Rattle.syn_parse.specs.Progress.{ParsesOn};
ghost use Rattle.syn_parse.specs.Takes.{Taking};
ghost use Rattle.syn_parse.specs.Takings.{Keeps, Lightens, lighter, told};
ghost use Rattle.syn_punctuated.specs.Lists.{values_of};
ghost use Rattle.syn_punctuated.specs.TakeLists.{EachTakes, Separates, separated_list};
ghost use Rattle.tok_types.specs.Sees.{Sees};
ghost use Rattle.syn_punctuated.specs.Turns.{separated, IsRun, IsPlainRun, LeadsToTurn};

use crate::parse::{ListRule, parse_list};
use crate::punctuated::Punctuated;
use syn_parse::{Parse, ParseBuffer, ParseStream, Result};
use tok_types::token::Token;

/// The rule of separated lists, in which another value follows each separator.
pub(crate) enum Separated {}

impl<P: Token> ListRule<P> for Separated {
    ghost rule = { separated (λ p found. P.peeks p found × Sees P.sees p found) };

    fn begins(_: &ParseBuffer<'_>) -> bool {
        true
    }

    fn goes_on(input: &ParseBuffer<'_>) -> bool {
        input.peek::<P>()
    }
}

impl<T: Drop, P: Parse + Token + Drop> Punctuated<T, P> {
    /// Parses one or more values with `parser`, with separators between them.
    ///
    /// After each value, if a separator is next, the call parses this separator and another value.
    /// The list has at least one value, and no separator after the last value.
    ///
    /// The call terminates for every parser and every separator type. If a value and its separator
    /// do not move the stream forward in its scope, the call returns the error "parser made no
    /// progress". After an error, the stream is where the failing parser left it.
    ///
    /// # Requires
    ///
    /// `parser` must be callable wherever a value begins in `input`: at the start, and after each
    /// separator. At these positions, the stream has at most as many remaining tokens and
    /// delimiters as at the start.
    ///
    /// # Examples
    ///
    /// ```rust
    /// pub fn path(input: ParseStream<'_, '_>) -> parse::Result<Punctuated<Ident, token::PathSep>> {
    ///     Punctuated::parse_separated_nonempty_with(input, |input| Ident::parse_any(input))
    /// }
    /// ```
    pub fn parse_separated_nonempty_with<'a, F>(
        input: ParseStream<'_, 'a>,
        parser: F,
    ) -> Result<Self>
    where
        F: FnMut(ParseStream<'_, 'a>) -> Result<T>,
        requires { (f : F) (y : _) → remaining y.now.place ≤ remaining input.old.place
            → LeadsToTurn (separated (λ p found. P.peeks p found × Sees P.sees p found))
            (CalledAtMut F.FnMut) (Separates P.parses P.takes) parser input.old f y.now
            → F.pre f y }
        ensures run { IsRun (separated P.peeks) (CalledAtMut F.FnMut)
            P.parses parser input.old result input.new }
        ensures turns { IsRun (separated (λ p found. P.peeks p found × Sees P.sees p found))
            (CalledAtMut F.FnMut) (Separates P.parses P.takes) parser input.old result input.new }
        ensures bounded { IfOk result
            (λ list. length (values_of list) ≤ remaining input.old.place + 1) }
        ensures takes { (value : Taking T) (less : Lightens value)
            → EachTakes value (CalledAtMut F.FnMut) → ParsesOn P.parses
            → Keeps (separated_list P.sees (told (λ v. v) value (lighter less)) P.takes) input.old
            result input.new }
    {
        parse_list::<Separated, T, P, F>(input, parser)
    }
}

impl<T: Parse + Drop, P: Parse + Token + Drop> Punctuated<T, P> {
    /// Parses one or more values, with separators between them.
    ///
    /// The call returns the same errors as `parse_separated_nonempty_with`.
    ///
    /// The contract describes the list only if the contract of `T` states that parsing a value
    /// never increases the number of remaining tokens (see `lighter` and `lower` in `Takings`).
    ///
    /// # Examples
    ///
    /// ```rust
    /// let path: Punctuated<Ident, token::PathSep> = Punctuated::parse_separated_nonempty(input)?;
    /// ```
    pub fn parse_separated_nonempty(input: ParseStream<'_, '_>) -> Result<Self>
        ensures run { IsPlainRun (separated P.peeks) T.parses P.parses input.old result input.new }
        ensures bounded { IfOk result
            (λ list. length (values_of list) ≤ remaining input.old.place + 1) }
        ensures takes { ParsesOn P.parses
            → Keeps (separated_list P.sees T.takes P.takes) input.old result input.new }
    {
        parse_list::<Separated, T, P, _>(input, |stream| T::parse(stream))
    }
}

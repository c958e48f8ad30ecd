//! The parsers of terminated lists, in which a separator follows each value except perhaps the
//! last.
ghost use Rattle.std.specs.Prelude.{◌+◌, ◌≤◌, length, IfOk};
ghost use Rattle.std.specs.Fn.{CalledAtMut};
ghost use Rattle.tok_buffer.specs.Progress.{remaining};
ghost use Rattle.syn_parse.specs.State.{State};
ghost use Rattle.syn_parse.specs.Progress.{ParsesOn};
ghost use Rattle.syn_parse.specs.Takes.{Taking};
ghost use Rattle.syn_parse.specs.Takings.{Keeps, Lightens, lighter, told};
ghost use Rattle.syn_punctuated.specs.Lists.{values_of};
ghost use Rattle.syn_punctuated.specs.TakeLists.{EachTakes, Separates, terminated_list};
ghost use Rattle.syn_punctuated.specs.Turns.{terminated, IsRun, IsPlainRun, LeadsToTurn};

use crate::parse::{ListRule, parse_list};
use crate::punctuated::Punctuated;
use syn_parse::{Parse, ParseBuffer, ParseStream, Result};

/// The rule of terminated lists, in which a separator follows each value. The last separator may be
/// missing.
pub(crate) enum Terminated {}

impl<P> ListRule<P> for Terminated {
    ghost rule = { terminated };

    fn begins(input: &ParseBuffer<'_>) -> bool {
        !input.is_empty()
    }

    fn goes_on(input: &ParseBuffer<'_>) -> bool {
        !input.is_empty()
    }
}

impl<T: Drop, P: Parse + Drop> Punctuated<T, P> {
    /// Parses values with `parser` up to the end of the stream, with a separator after each value.
    ///
    /// The separator after the last value may be missing.
    ///
    /// The call terminates for every parser and every separator type. If a value and its separator
    /// do not move the stream forward in its scope, the call returns the error "parser made no
    /// progress". After an error, the stream is where the failing parser left it.
    ///
    /// # Requires
    ///
    /// `parser` must be callable wherever a value begins in the stream: at the start unless the
    /// stream is at its end, and after each separator. At these positions, the stream has at most
    /// as many remaining tokens and delimiters as at the start.
    ///
    /// # Examples
    ///
    /// ```rust
    /// pub fn names(input: ParseStream<'_, '_>) -> parse::Result<Punctuated<Ident, token::Comma>> {
    ///     Punctuated::parse_terminated_with(input, |input| Ident::parse_any(input))
    /// }
    /// ```
    pub fn parse_terminated_with<'a, F>(input: ParseStream<'_, 'a>, parser: F) -> Result<Self>
    where
        F: FnMut(ParseStream<'_, 'a>) -> Result<T>,
        requires { (f : F) (y : _) → remaining y.now.place ≤ remaining input.old.place
            → LeadsToTurn terminated (CalledAtMut F.FnMut) (Separates P.parses P.takes) parser
            input.old f y.now → F.pre f y }
        ensures run { IsRun terminated (CalledAtMut F.FnMut)
            P.parses parser input.old result input.new }
        ensures turns { IsRun terminated (CalledAtMut F.FnMut)
            (Separates P.parses P.takes) parser input.old result input.new }
        ensures bounded { IfOk result
            (λ list. length (values_of list) ≤ remaining input.old.place + 1) }
        ensures takes { (value : Taking T) (less : Lightens value)
            → EachTakes value (CalledAtMut F.FnMut) → ParsesOn P.parses
            → Keeps (terminated_list (told (λ v. v) value (lighter less)) P.takes) input.old result
            input.new }
    {
        parse_list::<Terminated, T, P, F>(input, parser)
    }
}

impl<T: Parse + Drop, P: Parse + Drop> Punctuated<T, P> {
    /// Parses values up to the end of the stream, with a separator after each value.
    ///
    /// The separator after the last value may be missing. The call returns the same errors as
    /// `parse_terminated_with`.
    ///
    /// The contract describes the list only if the contract of `T` states that parsing a value
    /// never increases the number of remaining tokens (see `lighter` and `lower` in `Takings`).
    ///
    /// # Examples
    ///
    /// ```rust
    /// let names: Punctuated<Ident, token::Comma> = Punctuated::parse_terminated(input)?;
    /// ```
    pub fn parse_terminated(input: ParseStream<'_, '_>) -> Result<Self>
        ensures run { IsPlainRun terminated T.parses P.parses input.old result input.new }
        ensures bounded { IfOk result
            (λ list. length (values_of list) ≤ remaining input.old.place + 1) }
        ensures takes { ParsesOn P.parses
            → Keeps (terminated_list T.takes P.takes) input.old result input.new }
    {
        parse_list::<Terminated, T, P, _>(input, |stream| T::parse(stream))
    }
}

/// A trait that adds the method `parse_terminated` to parse streams.
pub trait ParseTerminated {
    ghost state: { Self → State };

    /// Parses values with `parser` up to the end of the stream, with a separator after each value.
    ///
    /// This method is the same as [`Punctuated::parse_terminated_with`].
    ///
    /// # Requires
    ///
    /// `parser` must be callable wherever a value begins in the stream: at the start unless the
    /// stream is at its end, and after each separator. At these positions, the stream has at most
    /// as many remaining tokens and delimiters as at the start.
    ///
    /// # Examples
    ///
    /// ```rust
    /// let names = input.parse_terminated::<Ident, token::Comma, _>(|input| input.parse())?;
    /// ```
    fn parse_terminated<T: Drop, P: Parse + Drop, F>(
        &mut self,
        parser: F,
    ) -> Result<Punctuated<T, P>>
    where
        F: FnMut(ParseStream<'_, '_>) -> Result<T>,
        requires { (f : F) (y : _) → remaining y.now.place ≤ remaining (state self.old).place
            → LeadsToTurn terminated (CalledAtMut F.FnMut) (Separates P.parses P.takes) parser
            (state self.old) f y.now → F.pre f y }
        ensures run { IsRun terminated (CalledAtMut F.FnMut) P.parses parser (state self.old)
            result (state self.new) }
        ensures turns { IsRun terminated (CalledAtMut F.FnMut) (Separates P.parses P.takes) parser
            (state self.old) result (state self.new) }
        ensures bounded { IfOk result
            (λ list. length (values_of list) ≤ remaining (state self.old).place + 1) }
        ensures takes { (value : Taking T) (less : Lightens value)
            → EachTakes value (CalledAtMut F.FnMut) → ParsesOn P.parses
            → Keeps (terminated_list (told (λ v. v) value (lighter less)) P.takes)
            (state self.old) result (state self.new) };
}

impl<'a> ParseTerminated for ParseBuffer<'a> {
    ghost state = { λ s. s };

    fn parse_terminated<T: Drop, P: Parse + Drop, F>(
        &mut self,
        parser: F,
    ) -> Result<Punctuated<T, P>>
    where
        F: FnMut(ParseStream<'_, '_>) -> Result<T>,
    {
        Punctuated::parse_terminated_with(self, parser)
    }
}

//! The trait `ParseBufferExt`, which adds methods to parse streams.
ghost use Rattle.std.specs.Fn.{CalledAtMut, FnOnceReturnsAtMut, FnOnceTakesAtMut};
ghost use Rattle.std.specs.Prelude.{◌≡◌, ◌+◌, ◌<◌, ◌≤◌, ◌⊎◌, IfOk, MatchResult, false, true};
ghost use Rattle.syn_choices.specs.Attempts.{Attempts, attempted, take_attempt};
ghost use Rattle.syn_choices.specs.CallLoops.{LoopsToEndBy, LoopsWhileBy};
ghost use Rattle.syn_choices.specs.Choices.{EitherParses, either_of};
ghost use Rattle.syn_parse.specs.Grouped.{grouped};
ghost use Rattle.syn_parse.specs.ErrorWords.{delimiter_words, refused_at};
ghost use Rattle.syn_parse.specs.Faults.{Refuses};
ghost use Rattle.syn_parse.specs.Groups.{IsAfter, RunsWithin};
ghost use Rattle.syn_parse.specs.Loops.{nothing_taken};
ghost use Rattle.syn_parse.specs.Many.{many, many_to_end};
ghost use Rattle.syn_parse.specs.Optional.{optional};
ghost use Rattle.syn_parse.specs.Progress.{ParsesOn};
ghost use Rattle.syn_parse.specs.Reads.{Does, OptionParses};
ghost use Rattle.syn_parse.specs.State.{State, forked};
ghost use Rattle.syn_parse.specs.Takes.{TakeEach, Takes, Taking};
ghost use Rattle.syn_parse.specs.Takings.{Keeps, Lowers, lower, told};
ghost use Rattle.syn_punctuated.specs.TakeLists.{EachTakes, terminated_list};
ghost use Rattle.syn_punctuated.specs.Turns.{IsPlainRun, terminated};
ghost use Rattle.tok_buffer.specs.Cursors.{place_of};
ghost use Rattle.tok_buffer.specs.Entry.{enter};
ghost use Rattle.tok_buffer.specs.Order.{same_scope};
ghost use Rattle.tok_buffer.specs.Progress.{remaining};
ghost use Rattle.tok_buffer.specs.View.{IsVisibleDelimiter};

use either::Either;
use syn_parse::{Fault, Parse, ParseBuffer, ParseStream, Result};
use syn_punctuated::Punctuated;
use tok_buffer::Cursor;
use tok_core::{DelimSpan, Delimiter};
use tok_types::token::Token;

/// An extension trait that adds methods to `ParseBuffer`.
///
/// The methods parse choices, optional values, loops over a function, and lists in groups.
pub trait ParseBufferExt {
    ghost state: { Self → State };

    /// Parses a `T` if the next token is a `P`, and returns `None` otherwise.
    ///
    /// # Examples
    ///
    /// ```rust
    /// let generics = input.parse_if::<token::Lt, Generics>()?;
    /// ```
    fn parse_if<P: Token, T: Parse>(&mut self) -> Result<Option<T>>
        ensures reads { Does (OptionParses P.peeks T.parses) (state self.old) result
            (state self.new) }
        ensures takes { Keeps (optional P.sees T.takes) (state self.old) result (state self.new) };

    /// Parses an `A` if the next token is a `P`, and a `B` otherwise.
    ///
    /// # Examples
    ///
    /// ```rust
    /// let body = input.parse_either::<token::Brace, Fields, token::Semi>()?;
    /// ```
    fn parse_either<P: Token, A: Parse, B: Parse>(&mut self) -> Result<Either<A, B>>
        ensures reads { Does (EitherParses P.peeks A.parses B.parses) (state self.old) result
            (state self.new) }
        ensures takes { Keeps (either_of P.sees A.takes B.takes) (state self.old) result
            (state self.new) };

    /// Tries to parse a `T`, and returns `None` if the parser of `T` rejects the tokens.
    ///
    /// The parser runs on a fork. If it rejects the tokens, the call discards the error, and the
    /// stream does not move. If an allocation fails, the call returns an error.
    ///
    /// If the parser leaves the fork in another scope, for example with `swap`, the call returns
    /// the error "parser left its stream". The stream then does not move.
    ///
    /// # Examples
    ///
    /// ```rust
    /// let pair = input.attempt::<(Ident, token::Comma)>()?;
    /// ```
    fn attempt<T: Parse + Drop>(&mut self) -> Result<Option<T>>
        ensures reads { Does (Attempts T.parses) (state self.old) result (state self.new) }
        ensures takes { Keeps (attempted T.takes) (state self.old) result (state self.new) };

    /// Runs `parser` on a fork, and advances the stream to the fork if `parser` returns a value.
    ///
    /// The call handles errors in the same way as `attempt`.
    ///
    /// # Requires
    ///
    /// `parser` must be callable on a fork of this stream.
    ///
    /// # Examples
    ///
    /// ```rust
    /// let name = input.attempt_with(|input| Ident::parse_any(input))?;
    /// ```
    fn attempt_with<T: Drop, F>(&mut self, parser: F) -> Result<Option<T>>
    where
        F: FnOnce(ParseStream<'_, '_>) -> Result<T>,
        requires { FnOnceTakesAtMut F.FnOnce parser (forked (state self.old)) }
        ensures runs { Attempts (FnOnceReturnsAtMut F.FnOnce parser) (state self.old) result
            (state self.new) }
        ensures takes { (value : Taking T)
            → TakeEach (λ v. v) value (FnOnceReturnsAtMut F.FnOnce parser)
            → Takes (take_attempt value) (state self.old) result (state self.new) };

    /// Parses values with `parser` as long as the next token is a `P`.
    ///
    /// The loop terminates for every parser. In the same cases as `parse_while`, the call returns
    /// the error "parser made no progress". The call also returns this error if `parser` leaves the
    /// scope of the stream, for example with `swap`, or moves the stream to before the start of the
    /// loop.
    ///
    /// # Requires
    ///
    /// `parser` must be callable on every stream that has at most as many remaining tokens and
    /// delimiters as this stream.
    ///
    /// # Examples
    ///
    /// ```rust
    /// let stars = input.parse_while_with::<token::Star, Span, _>(parse_star)?;
    /// ```
    fn parse_while_with<P: Token, T: Drop, F>(&mut self, parser: F) -> Result<Vec<T>>
    where
        F: FnMut(ParseStream<'_, '_>) -> Result<T>,
        requires { (f : F) (y : _) → remaining y.now.place ≤ remaining (state self.old).place
            → F.pre f y }
        ensures calls { LoopsWhileBy P.peeks (CalledAtMut F.FnMut) parser (state self.old) result
            (state self.new) }
        ensures takes { (value : Taking T) (less : Lowers value)
            → EachTakes value (CalledAtMut F.FnMut)
            → Keeps (many P.sees (told (λ v. v) value (lower less))) (state self.old) result
            (state self.new) };

    /// Parses values with `parser` up to the end of the stream.
    ///
    /// The loop terminates for every parser, and the call returns the same errors as
    /// `parse_while_with`.
    ///
    /// # Requires
    ///
    /// `parser` must be callable on every stream that has at most as many remaining tokens and
    /// delimiters as this stream.
    ///
    /// # Examples
    ///
    /// ```rust
    /// let items = input.parse_until_end_with(parse_item)?;
    /// ```
    fn parse_until_end_with<T: Drop, F>(&mut self, parser: F) -> Result<Vec<T>>
    where
        F: FnMut(ParseStream<'_, '_>) -> Result<T>,
        requires { (f : F) (y : _) → remaining y.now.place ≤ remaining (state self.old).place
            → F.pre f y }
        ensures calls { LoopsToEndBy (CalledAtMut F.FnMut) parser (state self.old) result
            (state self.new) }
        ensures takes { (value : Taking T) (less : Lowers value)
            → EachTakes value (CalledAtMut F.FnMut)
            → Keeps (many_to_end (told (λ v. v) value (lower less))) (state self.old) result
            (state self.new) };

    /// Parses a list in a group with the delimiter `delimiter`, and returns the span of the group
    /// and the list.
    ///
    /// The call parses the list in the same way as `Punctuated::parse_terminated`.
    ///
    /// To prove which list is returned, first call the law `parses_go_on`. The contract describes
    /// the list only if the contract of `T` states that parsing a value never increases the number
    /// of remaining tokens (see `lighter` and `lower` in `Takings`).
    ///
    /// # Requires
    ///
    /// `delimiter` must not be `Delimiter::None`.
    ///
    /// # Examples
    ///
    /// ```rust
    /// let (_, names) = input.parse_terminated_within::<Ident, token::Comma>(Delimiter::Bracket)?;
    /// ```
    fn parse_terminated_within<T: Parse + Drop, P: Parse + Drop>(
        &mut self,
        delimiter: Delimiter,
    ) -> Result<(DelimSpan, Punctuated<T, P>)>
        requires { IsVisibleDelimiter delimiter }
        ensures runs { Does (λ s. RunsWithin (IsPlainRun terminated T.parses P.parses)
            (enter delimiter s.place) (refused_at s (delimiter_words delimiter)) s)
            (state self.old) result (state self.new) }
        ensures takes { ParsesOn P.parses
            → Keeps (grouped delimiter (terminated_list T.takes P.takes)) (state self.old) result
            (state self.new) }
        ensures after { IfOk result
            (λ _. IsAfter (enter delimiter (state self.old).place) (state self.new).place) };
}

impl<'a> ParseBufferExt for ParseBuffer<'a> {
    ghost state = { λ s. s };

    #[tactic(auto, unfolding(syn_parse::specs::Optional::take_optional, syn_parse::specs::Reads::Does))]
    fn parse_if<P: Token, T: Parse>(&mut self) -> Result<Option<T>> {
        if self.peek::<P>() {
            Ok(Some(T::parse(self)?))
        } else {
            Ok(None)
        }
    }

    #[tactic(auto, unfolding(syn_parse::specs::Reads::Does))]
    fn parse_either<P: Token, A: Parse, B: Parse>(&mut self) -> Result<Either<A, B>> {
        if self.peek::<P>() {
            let left = self.parse()?;
            Ok(Either::Left(left))
        } else {
            let right = self.parse()?;
            Ok(Either::Right(right))
        }
    }

    fn attempt<T: Parse + Drop>(&mut self) -> Result<Option<T>> {
        run_attempt(
            self,
            |fork|
                ensures reads { T.parses fork.old result fork.new }
                ensures takes { Keeps T.takes fork.old result fork.new }
            { T::parse(fork) },
        )
    }

    fn attempt_with<T: Drop, F>(&mut self, parser: F) -> Result<Option<T>>
    where
        F: FnOnce(ParseStream<'_, '_>) -> Result<T>,
    {
        run_attempt(self, parser)
    }

    fn parse_while_with<P: Token, T: Drop, F>(&mut self, mut parser: F) -> Result<Vec<T>>
    where
        F: FnMut(ParseStream<'_, '_>) -> Result<T>,
    {
        let mut values = Vec::new(self.allocator());
        let start = self.cursor();
        let mut turns = start.remaining();
        while self.peek::<P>() {
            values.push(next_value(self, &mut parser)?)?;
            turns = next_turn(self, start, turns)?;
        }
        Ok(values)
    }

    fn parse_until_end_with<T: Drop, F>(&mut self, mut parser: F) -> Result<Vec<T>>
    where
        F: FnMut(ParseStream<'_, '_>) -> Result<T>,
    {
        let mut values = Vec::new(self.allocator());
        let start = self.cursor();
        let mut turns = start.remaining();
        while !self.is_empty() {
            values.push(next_value(self, &mut parser)?)?;
            turns = next_turn(self, start, turns)?;
        }
        Ok(values)
    }

    fn parse_terminated_within<T: Parse + Drop, P: Parse + Drop>(
        &mut self,
        delimiter: Delimiter,
    ) -> Result<(DelimSpan, Punctuated<T, P>)> {
        self.within(
            delimiter,
            |content|
                ensures run { IsPlainRun terminated T.parses P.parses content.old result
                    content.new }
                ensures takes { ParsesOn P.parses
                    → Keeps (terminated_list T.takes P.takes) content.old result content.new }
            { Punctuated::parse_terminated(content) },
        )
    }
}

// Does what `attempt_with` does.
fn run_attempt<'a, T: Drop, F>(input: ParseStream<'_, 'a>, parser: F) -> Result<Option<T>>
where
    F: FnOnce(ParseStream<'_, 'a>) -> Result<T>,
    requires { FnOnceTakesAtMut F.FnOnce parser (forked input.old) }
    ensures { Attempts (FnOnceReturnsAtMut F.FnOnce parser) input.old result input.new }
{
    let mut fork = input.fork();
    match parser(&mut fork) {
        Ok(value) => {
            if !input.cursor().same_scope(fork.cursor()) {
                fork.discard();
                return Err(input.error("parser left its stream"));
            }
            input.advance_to(fork);
            Ok(Some(value))
        }
        Err(Fault::Refused(_)) => {
            fork.discard();
            Ok(None)
        }
        Err(Fault::Memory(failure)) => {
            fork.discard();
            Err(Fault::Memory(failure))
        }
    }
}

// Calls a parser of values on this stream.
fn next_value<'a, T, F>(input: ParseStream<'_, 'a>, parser: &mut F) -> Result<T>
where
    F: FnMut(ParseStream<'_, 'a>) -> Result<T>,
    requires { (y : _) → y.now ≡ input.old → F.pre parser.old y }
    ensures { CalledAtMut F.FnMut parser.old input.old result parser.new input.new }
{
    parser(input)
}

// Returns how many turns are left after one that stays in the scope of the first. A value that takes
// a token leaves fewer of them, so there are no more turns than tokens.
fn next_turn<'a>(input: &ParseBuffer<'a>, start: Cursor<'a>, turns: usize) -> Result<usize>
    ensures { MatchResult result
        (λ left. (turns ≡ left + 1) × (same_scope (place_of start.entry) input.now.place ≡ true)
        × (remaining input.now.place ≤ remaining (place_of start.entry)))
        (λ f. ((turns ≡ 0) ⊎ ((same_scope (place_of start.entry) input.now.place ≡ false)
        ⊎ (remaining (place_of start.entry) < remaining input.now.place)))
        × Refuses (nothing_taken input.now) f) }
{
    let Some(left) = turns.checked_sub(1) else {
        return Err(no_progress(input));
    };
    let now = input.cursor();
    if !start.same_scope(now) || start.remaining() < now.remaining() {
        return Err(no_progress(input));
    }
    Ok(left)
}

// Returns the error of a value that took no token.
fn no_progress(input: &ParseBuffer<'_>) -> Fault
    ensures { Refuses (nothing_taken input.now) result }
{
    Fault::at(input.allocator(), input.span(), "parser made no progress")
}

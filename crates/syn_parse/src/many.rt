//! Methods that parse a sequence of values, and implementations of `Parse` for vectors and tuples.
ghost use Rattle.std.specs.Prelude.{◌≡◌, ◌+◌, MatchResult};
ghost use Rattle.syn_parse.specs.Faults.{Refuses};
ghost use Rattle.syn_parse.specs.Loops.{LoopsToEnd, LoopsWhile, nothing_taken};
ghost use Rattle.syn_parse.specs.Many.{many, many_to_end};
ghost use Rattle.syn_parse.specs.Reads.{BothParse, Does, ThreeParse};
ghost use Rattle.syn_parse.specs.Sequences.{both, three};
ghost use Rattle.syn_parse.specs.Takings.{Keeps};

use crate::fault::{Fault, Result};
use crate::parse::Parse;
use crate::stream::{ParseBuffer, ParseStream};
use tok_types::token::Token;

impl<'a> ParseBuffer<'a> {
    /// Parses values of type `T` as long as the next token is a `P`.
    ///
    /// If the parser of a value returns an error, the call returns this error, and the stream stays
    /// where that parser left it.
    ///
    /// The loop always ends. It counts the leaf tokens and delimiters that remain in the stream at
    /// the start. After more values than this number, the call returns the error "parser made no
    /// progress".
    ///
    /// The contract states which tokens the loop consumes only if the contracts of `T` and `P` meet
    /// two conditions. The contract of `T` must state that each value lowers the number of
    /// remaining tokens (`lower` in `Takings`). The contract of `P` must state which trees a peek
    /// finds.
    ///
    /// # Examples
    ///
    /// ```rust
    /// let stars = input.parse_while::<token::Star, token::Star>()?;
    /// ```
    pub fn parse_while<P: Token, T: Parse + Drop>(&mut self) -> Result<Vec<T>>
        ensures calls { Does (LoopsWhile P.peeks T.parses) self.old result self.new }
        ensures takes { Keeps (many P.sees T.takes) self.old result self.new }
    {
        let mut values = Vec::new(self.allocator());
        let mut turns = self.cursor().remaining();
        while self.peek::<P>() {
            values.push(self.parse()?)?;
            turns = self.next_turn(turns)?;
        }
        Ok(values)
    }

    /// Parses values of type `T` up to the end of the stream.
    ///
    /// The call always ends, and returns the same errors as `parse_while`. The contract states
    /// which tokens the loop consumes only if the contract of `T` states that each value lowers the
    /// number of remaining tokens (`lower` in `Takings`).
    ///
    /// # Examples
    ///
    /// ```rust
    /// let names = input.parse_until_end::<Ident>()?;
    /// ```
    pub fn parse_until_end<T: Parse + Drop>(&mut self) -> Result<Vec<T>>
        ensures calls { Does (LoopsToEnd T.parses) self.old result self.new }
        ensures takes { Keeps (many_to_end T.takes) self.old result self.new }
    {
        let mut values = Vec::new(self.allocator());
        let mut turns = self.cursor().remaining();
        while !self.is_empty() {
            values.push(self.parse()?)?;
            turns = self.next_turn(turns)?;
        }
        Ok(values)
    }

    // Returns how many turns are left after one. A value that takes a token leaves fewer of them,
    // so there are no more turns than tokens.
    fn next_turn(&self, turns: usize) -> Result<usize>
        ensures { MatchResult result (λ left. turns ≡ left + 1)
            (λ f. (turns ≡ 0) × Refuses (nothing_taken self.now) f) }
    {
        match turns.checked_sub(1) {
            Some(left) => Ok(left),
            None => {
                let error = Fault::at(self.allocator(), self.span(), "parser made no progress");
                Err(error)
            }
        }
    }
}

/// Parses values of type `T` up to the end of the stream, like `parse_until_end`.
///
/// With the type `Vec<T>`, `parse_within` parses all values in a group, and `parse_str` parses all
/// values of a text. The contract states which tokens the parser consumes only if the contract of
/// `T` states that each value lowers the number of remaining tokens (`lower` in `Takings`).
///
/// # Examples
///
/// ```rust
/// let (_, names) = input.parse_within::<Vec<Ident>>(Delimiter::Brace)?;
/// ```
impl<T: Parse + Drop> Parse for Vec<T> {
    ghost parses = { LoopsToEnd T.parses };

    ghost takes = { many_to_end T.takes };

    #[tactic(auto, unfolding(crate::specs::Reads::Does))]
    fn parse(input: ParseStream<'_, '_>) -> Result<Self> {
        input.parse_until_end()
    }
}

/// Parses a value of type `A`, and then a value of type `B`.
///
/// # Examples
///
/// ```rust
/// let (_, (name, _)) = input.parse_within::<(Ident, token::Semi)>(Delimiter::Brace)?;
/// ```
impl<A: Parse + Drop, B: Parse> Parse for (A, B) {
    ghost parses = { BothParse A.parses B.parses };

    ghost takes = { both A.takes B.takes };

    #[tactic(auto, using(crate::proofs::Sequences::both_keep, crate::proofs::Returned::error_keeps, crate::proofs::Returned::error_calls), unfolding(crate::specs::Reads::Does))]
    fn parse(input: ParseStream<'_, '_>) -> Result<Self> {
        let first = input.parse()?;
        let second = input.parse()?;
        Ok((first, second))
    }
}

/// Parses a value of type `A`, then a value of type `B`, and then a value of type `C`.
///
/// # Examples
///
/// ```rust
/// let (_, (owner, _, name)) = input.parse_within::<(Ident, token::PathSep, Ident)>(
///     Delimiter::Parenthesis,
/// )?;
/// ```
impl<A: Parse + Drop, B: Parse + Drop, C: Parse> Parse for (A, B, C) {
    ghost parses = { ThreeParse A.parses B.parses C.parses };

    ghost takes = { three A.takes B.takes C.takes };

    #[tactic(auto, using(crate::proofs::Sequences::three_keep, crate::proofs::Returned::error_keeps, crate::proofs::Returned::error_calls), unfolding(crate::specs::Reads::Does))]
    fn parse(input: ParseStream<'_, '_>) -> Result<Self> {
        let first = input.parse()?;
        let second = input.parse()?;
        let third = input.parse()?;
        Ok((first, second, third))
    }
}

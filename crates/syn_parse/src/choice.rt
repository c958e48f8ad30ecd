//! A method that parses a value after an optional token, and a method that peeks into a group.
ghost use Rattle.syn_parse.specs.After.{after};
ghost use Rattle.syn_parse.specs.Inside.{PeeksInside, inside};
ghost use Rattle.syn_parse.specs.Reads.{BothParse, Does, OptionParses};
ghost use Rattle.syn_parse.specs.Takings.{Keeps};
ghost use Rattle.tok_buffer.specs.View.{IsVisibleDelimiter};
ghost use Rattle.tok_types.specs.Sees.{Sees};

use crate::fault::Result;
use crate::parse::Parse;
use crate::stream::ParseBuffer;
use tok_core::Delimiter;
use tok_types::token::Token;

impl<'a> ParseBuffer<'a> {
    /// Parses a token of type `P` and a value of type `T` after this token, if such a token is
    /// next.
    ///
    /// If the next token is not a `P`, returns `None`, and the stream does not move.
    ///
    /// # Examples
    ///
    /// ```rust
    /// let guard = input.parse_after::<token::Where, Ident>()?;
    /// ```
    #[tactic(auto, using(crate::proofs::AfterTakes::value_fails, crate::proofs::Returned::error_keeps), unfolding(crate::specs::After::take_after, crate::specs::Reads::Does))]
    pub fn parse_after<P: Token + Parse + Drop, T: Parse>(&mut self) -> Result<Option<(P, T)>>
        ensures reads { Does (OptionParses P.peeks (BothParse P.parses T.parses)) self.old result
            self.new }
        ensures takes { Keeps (after P.sees P.takes T.takes) self.old result self.new }
    {
        if self.peek::<P>() {
            let token = self.parse()?;
            let value = self.parse()?;
            Ok(Some((token, value)))
        } else {
            Ok(None)
        }
    }

    /// Returns `true` if a group with the delimiter `delimiter` is next, and the first token in the
    /// group is a `T`.
    ///
    /// The stream does not move.
    ///
    /// # Requires
    ///
    /// `delimiter` must be visible.
    ///
    /// # Examples
    ///
    /// ```rust
    /// let is_restricted = input.peek_inside::<token::Crate>(Delimiter::Parenthesis);
    /// ```
    pub fn peek_inside<T: Token>(&self, delimiter: Delimiter) -> bool
        requires { IsVisibleDelimiter delimiter }
        ensures peeks { PeeksInside T.peeks delimiter self.now.place result }
        ensures sees { Sees (inside delimiter T.sees) self.now.place result }
    {
        match self.cursor().group(delimiter) {
            Some((content, _, _)) => T::peek(content),
            None => false,
        }
    }
}

//! Runs of tokens. Types, expressions, parameters and predicates are runs of tokens, which end
//! before certain tokens.
ghost use Rattle.std.specs.Prelude.{◌≡◌};
ghost use Rattle.tok_buffer.specs.Cursors.{place_of};
ghost use Rattle.tok_buffer.specs.View.{erased_ahead};
ghost use Rattle.tok_core.specs.Erase.{erase};
ghost use Rattle.syn_parse.specs.Takes.{TakesAs};
ghost use Rattle.syn_derive.specs.Runs.{PassesTokens, begins, ends, goes_past, is_operator_word, last_after, opens, start, starts_pair, take_until, within};

use syn_parse::{ParseStream, Result, Run};
use tok_buffer::Cursor;
use tok_buffer::laws::ahead_tells;
use tok_core::{Ident, Punct, TokenStream};
use tok_types::token::Token;
use tok_types::{IdentAny, token};

/// The kind of a run of tokens, which determines the tokens before which the run ends.
#[derive(Clone, Copy, PartialEq, Eq)]
pub(crate) enum Until {
    // A type ends at `,`, `;`, `=`, `>`, a `:` that is alone, or braces after a value.
    Ty,
    // An expression ends at `,` or `;`. A `<` opens only where a value is expected, or after `::`.
    Expr,
    // Parameters end at `>`, `;` or braces after a value.
    Params,
    // Predicates end at `;` or braces.
    Predicates,
}

// The token before the next one, if it decides what that is.
#[derive(Clone, Copy, PartialEq, Eq)]
pub(crate) enum Last {
    // The first half of a token of two characters, whose second half is nothing of its own.
    Half,
    // Another punct, a reserved word, or none: a value is expected.
    Operator,
    // The end of a value.
    Operand,
}

/// The state of a run: the number of open `<`, and the last token.
#[derive(Clone, Copy)]
pub(crate) struct Passed {
    pub(crate) until: Until,
    pub(crate) depth: usize,
    pub(crate) last: Last,
}

impl Until {
    fn start(self) -> Passed
        ensures { result ≡ start self }
    {
        Passed {
            until: self,
            depth: 0,
            last: Last::Operator,
        }
    }

    // Returns `true` if a run ends before the next token where no `<` is open.
    fn ends(self, last: Last, cursor: Cursor<'_>) -> bool
        ensures { result ≡ ends self last (erased_ahead (place_of cursor.entry)) }
    {
        match self {
            Until::Ty => {
                token::Comma::peek(cursor)
                    || token::Semi::peek(cursor)
                    || token::Eq::peek(cursor)
                    || token::Gt::peek(cursor)
                    || token::Colon::peek(cursor)
                    || last == Last::Operand && token::Brace::peek(cursor)
            }
            Until::Expr => token::Comma::peek(cursor) || token::Semi::peek(cursor),
            Until::Params => {
                token::Gt::peek(cursor)
                    || token::Semi::peek(cursor)
                    || last == Last::Operand && token::Brace::peek(cursor)
            }
            Until::Predicates => token::Semi::peek(cursor) || token::Brace::peek(cursor),
        }
    }

    // Returns `true` if a `<` after this token opens, and is no operator.
    fn opens(self, last: Last) -> bool
        ensures { result ≡ opens self last }
    {
        self != Until::Expr || last != Last::Operand
    }

    // Returns `true` before two characters of one token that hold a bracket or an end: `->`, `::`,
    // and the operator `<<`.
    fn starts_pair(self, last: Last, cursor: Cursor<'_>) -> bool
        ensures { result ≡ starts_pair self last (erased_ahead (place_of cursor.entry)) }
    {
        token::RArrow::peek(cursor)
            || token::PathSep::peek(cursor)
            || !self.opens(last) && token::Shl::peek(cursor)
    }

    // Returns `true` if a token is next, and a run does not end before it.
    pub(crate) fn begins(self, cursor: Cursor<'_>) -> bool
        ensures { result ≡ begins self (erased_ahead (place_of cursor.entry)) }
    {
        ahead_tells();
        cursor.leftover().is_some() && self.start().pass(cursor).is_some()
    }
}

impl Run for Passed {
    ghost passes = { goes_past };

    fn pass(self, cursor: Cursor<'_>) -> Option<Self> {
        let until = self.within();
        if self.last == Last::Half {
            Some(self.then(self.depth, Last::Operator))
        } else if until.starts_pair(self.last, cursor) {
            Some(self.then(self.depth, Last::Half))
        } else if until.opens(self.last) && token::Lt::peek(cursor) {
            Some(self.then(self.depth.checked_add(1)?, Last::Operator))
        } else if !until.ends(self.last, cursor) {
            Some(self.then(self.depth, last_after(cursor)))
        } else if self.depth != 0 && token::Gt::peek(cursor) {
            Some(self.then(self.depth - 1, Last::Operand))
        } else {
            None
        }
    }
}

impl Passed {
    fn then(self, depth: usize, last: Last) -> Passed
        ensures { result ≡ record { until = self.until; depth = depth; last = last } }
    {
        Passed {
            until: self.until,
            depth,
            last,
        }
    }

    // Returns what the next token is in: parameters, where a `<` is open.
    fn within(self) -> Until
        ensures { result ≡ within self }
    {
        if self.depth == 0 {
            self.until
        } else {
            Until::Params
        }
    }
}

// Returns `true` before a reserved word that ends no value, as `if`, `return` or `as`.
fn is_operator_word(cursor: Cursor<'_>) -> bool
    ensures { result ≡ is_operator_word (erased_ahead (place_of cursor.entry)) }
{
    IdentAny::peek(cursor)
        && !Ident::peek(cursor)
        && !token::SelfValue::peek(cursor)
        && !token::SelfType::peek(cursor)
        && !token::Super::peek(cursor)
        && !token::Crate::peek(cursor)
        && !token::Await::peek(cursor)
}

// Returns what the next token is for the one after it.
fn last_after(cursor: Cursor<'_>) -> Last
    ensures { result ≡ last_after (erased_ahead (place_of cursor.entry)) }
{
    if Punct::peek(cursor) && !token::Question::peek(cursor) || is_operator_word(cursor) {
        Last::Operator
    } else {
        Last::Operand
    }
}

/// Parses a run of tokens, in which each opening `<` has a matching `>`.
#[tactic(auto, unfolding(crate::specs::Runs::take_until))]
pub(crate) fn parse_until(input: ParseStream<'_, '_>, until: Until) -> Result<TokenStream>
    ensures takes { TakesAs erase (take_until until) input.old result input.new }
    ensures kept { PassesTokens (λ f. f) input.old result input.new }
{
    let (tokens, end) = input.parse_run_with_state(until.start())?;
    if end.depth == 0 {
        Ok(tokens)
    } else {
        Err(input.error("expected `>`"))
    }
}

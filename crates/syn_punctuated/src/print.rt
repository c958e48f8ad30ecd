//! Implementations of `ToTokens` and `Debug` for lists and pairs.
ghost use Rattle.std.specs.Prelude.{◌≡◌, OnOk, OnErr};
ghost use Rattle.tok_core.specs.Forest.{AppendsFront, concat};
ghost use Rattle.syn_punctuated.specs.Lists.{values_of, separators_of};
ghost use Rattle.syn_punctuated.specs.Printed.{by_turns, printed_pair};

use crate::pair::Pair;
use crate::punctuated::Punctuated;
use std::alloc::AllocError;
use std::fmt;
use tok_core::{ToTokens, TokenStream};

/// Appends the tokens of `value` to `tokens`, and then the tokens of `separator`.
fn write_pair<T: ToTokens, P: ToTokens>(
    value: &T,
    separator: &P,
    tokens: &mut TokenStream,
) -> Result<(), AllocError>
    ensures ok { OnOk result
        (tokens.new ≡ concat tokens.old (concat (T.printed value.now) (P.printed separator.now))) }
    ensures err { OnErr result
        (AppendsFront tokens.old (concat (T.printed value.now) (P.printed separator.now))
        tokens.new) }
{
    value.to_tokens(tokens)?;
    separator.to_tokens(tokens)
}

impl<T: ToTokens, P: ToTokens> ToTokens for Punctuated<T, P> {
    ghost printed = { λ list. by_turns T.printed P.printed (values_of list) (separators_of list) };

    fn to_tokens(&self, tokens: &mut TokenStream) -> Result<(), AllocError> {
        for pair in &self.inner {
            write_pair(&pair.0, &pair.1, tokens)?;
        }
        match &self.last {
            Some(value) => value.as_ref().to_tokens(tokens),
            None => Ok(()),
        }
    }
}

impl<T: ToTokens, P: ToTokens> ToTokens for Pair<T, P> {
    ghost printed = { printed_pair T.printed P.printed };

    fn to_tokens(&self, tokens: &mut TokenStream) -> Result<(), AllocError> {
        match self {
            Pair::Punctuated(value, separator) => write_pair(value, separator, tokens),
            Pair::End(value) => value.to_tokens(tokens),
        }
    }
}

impl<T: fmt::Debug, P: fmt::Debug> fmt::Debug for Punctuated<T, P> {
    /// Writes the values and separators in order, in brackets.
    fn fmt<W: fmt::Write>(&self, f: &mut fmt::Formatter<W>) -> fmt::Result {
        let mut list = f.debug_list();
        for pair in &self.inner {
            list.entry(&pair.0).entry(&pair.1);
        }
        if let Some(value) = &self.last {
            list.entry(value.as_ref());
        }
        list.finish()
    }
}

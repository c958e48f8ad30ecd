//! Functions that write the values of this crate as tokens.
ghost use Rattle.std.specs.Prelude.{◌≡◌, OnErr, OnOk};
ghost use Rattle.tok_core.specs.Forest.{AppendsFront, concat, no_trees};
ghost use Rattle.tok_core.specs.Laws.{followed_by};
ghost use Rattle.syn_derive.specs.Printing.{all_trees, group_trees, or_default_trees};

use std::alloc::AllocError;
use tok_core::laws::writes_follow_writes;
use tok_core::{DelimSpan, Delimiter, Group, ToTokens, TokenStream, TokenTree};
use tok_types::token::Punctuation;

/// Appends nothing to `tokens`. Callers use this function in place of a part that is missing.
pub fn write_nothing(tokens: &mut TokenStream) -> Result<(), AllocError>
    ensures ok { OnOk result (tokens.new ≡ concat tokens.old no_trees) }
    ensures err { OnErr result ⊥ }
{
    let _ = tokens;
    Ok(())
}

/// Appends the tokens of `values` to `tokens`, in order.
pub fn write_all<T: ToTokens>(values: &[T], tokens: &mut TokenStream) -> Result<(), AllocError>
    ensures ok { OnOk result
        (tokens.new ≡ concat tokens.old (all_trees T.printed values.now)) }
    ensures err { OnErr result
        (AppendsFront tokens.old (all_trees T.printed values.now) tokens.new) }
{
    for value in values {
        value.to_tokens(tokens)?;
    }
    Ok(())
}

/// Appends the tokens of `first` and `second` to `tokens`, in order.
pub fn write_both<A: ToTokens, B: ToTokens>(
    first: &A,
    second: &B,
    tokens: &mut TokenStream,
) -> Result<(), AllocError>
    ensures ok { OnOk result
        (tokens.new ≡ concat tokens.old (followed_by (A.printed first.now)
        (B.printed second.now))) }
    ensures err { OnErr result
        (AppendsFront tokens.old (followed_by (A.printed first.now) (B.printed second.now))
        tokens.new) }
{
    writes_follow_writes();
    first.to_tokens(tokens)?;
    second.to_tokens(tokens)
}

/// Appends `sign`, or a new punctuation at the call site if `sign` is `None`.
pub fn write_or_default<const K: usize>(
    sign: &Option<Punctuation<K, 1>>,
    tokens: &mut TokenStream,
) -> Result<(), AllocError>
    ensures ok { OnOk result
        (tokens.new ≡ concat tokens.old (or_default_trees sign.now)) }
    ensures err { OnErr result
        (AppendsFront tokens.old (or_default_trees sign.now) tokens.new) }
{
    match sign {
        Some(sign) => sign.to_tokens(tokens),
        None => Punctuation::<K, 1>::default().to_tokens(tokens),
    }
}

/// Appends a group that has this delimiter and span, and contains the tokens of `inside`.
pub fn write_group<T: ToTokens>(
    delimiter: Delimiter,
    span: DelimSpan,
    inside: &T,
    tokens: &mut TokenStream,
) -> Result<(), AllocError>
    ensures ok { OnOk result
        (tokens.new ≡ concat tokens.old (group_trees delimiter span (T.printed inside.now))) }
    ensures err { OnErr result
        (AppendsFront tokens.old (group_trees delimiter span (T.printed inside.now)) tokens.new) }
{
    let inside = inside.to_token_stream(tokens.allocator())?;
    tokens.append(TokenTree::Group(Group::new(delimiter, inside, span.join())))
}

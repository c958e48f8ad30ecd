//! A caller of `tok_core`, which builds the token stream `a (b «c») +=` by hand and prints the
//! stream.
ghost use Rattle.std.specs.Prelude.{◌≡◌, true, IfErr, IfOk, IsOk, string_bytes};
ghost use Rattle.std.specs.Str.{chars};
ghost use Rattle.tok_core.specs.Forest.{group, leaf};
ghost use Rattle.tok_leaves.specs.Leaves.{ident, punct};
ghost use Rattle.tok_lexical.specs.Characters.{is_punct_or_apostrophe};
ghost use Rattle.tok_lexical.specs.Words.{IsIdentifier};
ghost use Rattle.tok_core.specs.Seen.{tree_of};
ghost use Rattle.tok_leaves.specs.Spans.{call_site};
ghost use Rattle.tok_core.specs.Text.{text};
ghost use Rattle.example_callers.specs.Trees.{by_hand};

use std::alloc::{AllocError, Global};
use tok_core::{Delimiter, Group, Ident, MakeFault, Punct, Spacing, Span, TokenStream, TokenTree};

fn name(alloc: Global, text: &str) -> Result<TokenTree, MakeFault>
    ensures made { IfOk result (λ t. tree_of t ≡ leaf (ident text.now call_site)) }
    ensures taken { IsIdentifier (chars text.now)
        → IfErr result (λ fault. fault ≡ MakeFault.Memory) }
{
    let ident = Ident::new(alloc, text, Span::call_site())?;
    Ok(TokenTree::Ident(ident))
}

fn sign(ch: char, spacing: Spacing) -> Result<TokenTree, MakeFault>
    ensures made { IfOk result (λ t. tree_of t ≡ leaf (punct ch spacing call_site)) }
    ensures taken { is_punct_or_apostrophe ch ≡ true → IsOk result }
{
    let punct = Punct::new(ch, spacing).ok_or(MakeFault::Refused)?;
    Ok(TokenTree::Punct(punct))
}

fn group(delimiter: Delimiter, content: TokenStream) -> TokenTree
    ensures { tree_of result ≡ group delimiter content call_site }
{
    TokenTree::Group(Group::new(delimiter, content, Span::call_site()))
}

/// Builds the token stream `a (b «c») +=`.
///
/// Returns an error only if an allocation fails.
#[tactic(auto, using(crate::proofs::Names::a_identifier, crate::proofs::Names::b_identifier, crate::proofs::Names::c_identifier))]
pub fn by_hand(alloc: Global) -> Result<TokenStream, MakeFault>
    ensures made { IfOk result (λ stream. stream ≡ by_hand) }
    ensures fault { IfErr result (λ fault. fault ≡ MakeFault.Memory) }
{
    let mut inner = TokenStream::new(alloc);
    inner.append(name(alloc, "c")?)?;
    let mut outer = TokenStream::new(alloc);
    outer.append(name(alloc, "b")?)?;
    outer.append(group(Delimiter::None, inner))?;
    let mut all = TokenStream::new(alloc);
    all.append(name(alloc, "a")?)?;
    all.append(group(Delimiter::Parenthesis, outer))?;
    all.append(sign('+', Spacing::Joint)?)?;
    all.append(sign('=', Spacing::Alone)?)?;
    Ok(all)
}

/// Returns the text of a token stream.
pub fn printed(alloc: Global, stream: &TokenStream) -> Result<String, AllocError>
    ensures { IfOk result (λ printed. string_bytes printed ≡ text stream.now) }
{
    stream.to_string(alloc)
}

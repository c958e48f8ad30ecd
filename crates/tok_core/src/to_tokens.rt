//! Conversion of values into tokens.
ghost use Rattle.std.specs.Prelude.{◌≡◌, IfOk, OnOk, OnErr};
ghost use Rattle.tok_core.specs.Forest.{AppendsFront, Forest, concat, leaf, no_trees, tree};
ghost use Rattle.tok_core.specs.Laws.{optional_trees};
ghost use Rattle.tok_core.specs.Seen.{group_of, lifetime_forest, tree_of};
ghost use Rattle.tok_leaves.specs.Leaves.{ident_of, literal_of, punct_of};

use crate::group::Group;
use crate::stream::{TokenStream, TokenTree};
use std::alloc::{AllocError, Global};
use tok_leaves::known::punct;
use tok_leaves::{Ident, Lifetime, Literal, Punct, Spacing};

/// A type whose values can be converted into tokens.
///
/// # Examples
///
/// ```rust
/// let mut tokens = TokenStream::new(alloc);
/// Ident::new(alloc, "a", Span::call_site())?.to_tokens(&mut tokens)?;
/// Literal::string(alloc, "b")?.to_tokens(&mut tokens)?;
/// assert_eq!(rt; tokens.trees().len(), 2);
/// ```
pub trait ToTokens {
    // The trees that the value is written as.
    ghost printed: { Self → Forest };

    /// Appends the tokens of this value to `tokens`.
    ///
    /// If an allocation fails, the call returns an error. Tokens that it has already appended
    /// remain in `tokens`, but at least one token is missing. A single token or a group appends
    /// nothing in this case.
    fn to_tokens(&self, tokens: &mut TokenStream) -> Result<(), AllocError>
        ensures ok { OnOk result (tokens.new ≡ concat tokens.old (printed self.now)) }
        ensures err { OnErr result (AppendsFront tokens.old (printed self.now) tokens.new) };

    /// Returns a new stream that contains the tokens of this value.
    ///
    /// Returns an error if an allocation fails.
    fn to_token_stream(&self, alloc: Global) -> Result<TokenStream, AllocError>
        ensures { IfOk result (λ tokens. tokens ≡ printed self.now) }
    {
        let mut tokens = TokenStream::new(alloc);
        self.to_tokens(&mut tokens)?;
        Ok(tokens)
    }

    /// Converts this value into a new stream that contains its tokens.
    ///
    /// The call may move the tokens instead of copying them. Returns an error if an allocation
    /// fails.
    fn into_token_stream(self, alloc: Global) -> Result<TokenStream, AllocError>
    where
        Self: Sized + Drop,
        ensures { IfOk result (λ tokens. tokens ≡ printed self) }
    {
        self.to_token_stream(alloc)
    }
}

// Returns a stream of one tree.
fn alone(alloc: Global, only: TokenTree) -> Result<TokenStream, AllocError>
    ensures { IfOk result (λ tokens. tokens ≡ tree (tree_of only) no_trees) }
{
    let mut tokens = TokenStream::new(alloc);
    tokens.append(only)?;
    Ok(tokens)
}

/// Writes the tokens of the value behind the reference.
impl<T: ToTokens> ToTokens for &T {
    ghost printed = { λ value. T.printed value.now };

    fn to_tokens(&self, tokens: &mut TokenStream) -> Result<(), AllocError> {
        (*self).to_tokens(tokens)
    }
}

/// Writes the tokens of the value in `Some`, and no tokens for `None`.
impl<T: ToTokens> ToTokens for Option<T> {
    ghost printed = { optional_trees T.printed };

    fn to_tokens(&self, tokens: &mut TokenStream) -> Result<(), AllocError> {
        match self {
            Some(value) => value.to_tokens(tokens),
            None => Ok(()),
        }
    }
}

impl ToTokens for Ident {
    ghost printed = { λ i. tree (leaf (ident_of i)) no_trees };

    fn to_tokens(&self, tokens: &mut TokenStream) -> Result<(), AllocError> {
        tokens.append(TokenTree::Ident(self.clone()?))
    }

    fn into_token_stream(self, alloc: Global) -> Result<TokenStream, AllocError> {
        alone(alloc, TokenTree::Ident(self))
    }
}

impl ToTokens for Punct {
    ghost printed = { λ p. tree (leaf (punct_of p)) no_trees };

    fn to_tokens(&self, tokens: &mut TokenStream) -> Result<(), AllocError> {
        tokens.append(TokenTree::Punct(*self))
    }
}

impl ToTokens for Literal {
    ghost printed = { λ l. tree (leaf (literal_of l)) no_trees };

    fn to_tokens(&self, tokens: &mut TokenStream) -> Result<(), AllocError> {
        tokens.append(TokenTree::Literal(self.clone()?))
    }

    fn into_token_stream(self, alloc: Global) -> Result<TokenStream, AllocError> {
        alone(alloc, TokenTree::Literal(self))
    }
}

/// Writes a joint apostrophe and the identifier of the lifetime.
impl ToTokens for Lifetime {
    ghost printed = { lifetime_forest };

    fn to_tokens(&self, tokens: &mut TokenStream) -> Result<(), AllocError> {
        let ident = self.ident.clone()?;
        let mark = punct('\'', Spacing::Joint, self.apostrophe);
        tokens.append(TokenTree::Punct(mark))?;
        tokens.append(TokenTree::Ident(ident))?;
        Ok(())
    }
}

impl ToTokens for Group {
    ghost printed = { λ g. tree (group_of g) no_trees };

    fn to_tokens(&self, tokens: &mut TokenStream) -> Result<(), AllocError> {
        tokens.append(TokenTree::Group(self.clone()?))
    }

    fn into_token_stream(self, alloc: Global) -> Result<TokenStream, AllocError> {
        alone(alloc, TokenTree::Group(self))
    }
}

impl ToTokens for TokenTree {
    ghost printed = { λ t. tree (tree_of t) no_trees };

    fn to_tokens(&self, tokens: &mut TokenStream) -> Result<(), AllocError> {
        tokens.append(self.clone()?)
    }

    fn into_token_stream(self, alloc: Global) -> Result<TokenStream, AllocError> {
        alone(alloc, self)
    }
}

impl ToTokens for TokenStream {
    ghost printed = { λ s. s };

    fn to_tokens(&self, tokens: &mut TokenStream) -> Result<(), AllocError> {
        for next in self.trees() {
            tokens.append(next.clone()?)?;
        }
        Ok(())
    }

    // Nothing is allocated: a stream is written as itself.
    fn into_token_stream(self, _alloc: Global) -> Result<TokenStream, AllocError> {
        Ok(self)
    }
}

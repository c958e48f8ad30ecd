//! Types and parsers for outer attributes, such as `#[derive(Debug)]`.
ghost use Rattle.syn_parse.specs.Takes.{TakesAs};
ghost use Rattle.syn_parse.specs.Takings.{lower, told};
ghost use Rattle.std.specs.Prelude.{◌≡◌, OnErr, OnOk};
ghost use Rattle.tok_core.specs.Forest.{AppendsFront, concat};
ghost use Rattle.syn_derive.specs.Metas.{meta_path};
ghost use Rattle.syn_derive.specs.Attributes.{attribute_form, attribute_trees, attributes_form, attributes_trees, lowers_attribute, take_attribute, take_attributes};

use crate::meta::Meta;
use crate::path::Path;
use crate::print::{write_all, write_group};
use std::alloc::AllocError;
use syn_parse::{Parse, ParseStream, Result};
use tok_core::laws::writes_follow_writes;
use tok_core::{Delimiter, ToTokens, TokenStream};
use tok_types::token;

/// An outer attribute, such as `#[doc = "text"]`.
///
/// A doc comment is also an attribute, because the lexer reads every doc comment as an attribute.
#[derive(Drop)]
pub struct Attribute {
    pub pound_token: token::Pound,
    pub bracket_token: token::Bracket,
    pub meta: Meta,
}

impl Attribute {
    /// Returns the path of the attribute.
    pub fn path(&self) -> &Path
        ensures { result.now ≡ meta_path self.now.meta }
    {
        self.meta.path()
    }

    /// Parses zero or more outer attributes.
    pub fn parse_outer(input: ParseStream<'_, '_>) -> Result<Vec<Attribute>>
        ensures { TakesAs attributes_form take_attributes input.old result input.new }
    {
        input.parse_while::<token::Pound, Attribute>()
    }
}

impl Parse for Attribute {
    ghost takes = { told attribute_form take_attribute (lower lowers_attribute) };

    #[tactic(auto, unfolding(crate::specs::Attributes::take_attribute))]
    fn parse(input: ParseStream<'_, '_>) -> Result<Self> {
        let pound_token = input.parse()?;
        let (span, meta) = input.parse_within(Delimiter::Bracket)?;
        Ok(Attribute {
            pound_token,
            bracket_token: token::Bracket::new(span),
            meta,
        })
    }
}

impl ToTokens for Attribute {
    ghost printed = { attribute_trees };

    fn to_tokens(&self, tokens: &mut TokenStream) -> std::result::Result<(), AllocError> {
        writes_follow_writes();
        self.pound_token.to_tokens(tokens)?;
        write_group(
            Delimiter::Bracket,
            self.bracket_token.span,
            &self.meta,
            tokens,
        )
    }
}

/// Appends the tokens of `attrs` to `tokens`, in order.
pub(crate) fn write_attributes(
    attrs: &Vec<Attribute>,
    tokens: &mut TokenStream,
) -> std::result::Result<(), AllocError>
    ensures ok { OnOk result (tokens.new ≡ concat tokens.old (attributes_trees attrs.now)) }
    ensures err { OnErr result (AppendsFront tokens.old (attributes_trees attrs.now) tokens.new) }
{
    write_all(attrs, tokens)
}

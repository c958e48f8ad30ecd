//! Types for the visibilities of items and fields.
ghost use Rattle.std.specs.Prelude.{◌≡◌, OnErr, OnOk, Some};
ghost use Rattle.tok_core.specs.Forest.{AppendsFront, concat};
ghost use Rattle.tok_buffer.specs.Cursors.{place_of};
ghost use Rattle.tok_buffer.specs.View.{erased_ahead};
ghost use Rattle.syn_parse.specs.Takings.{lighter, told};
ghost use Rattle.syn_derive.specs.Visibilities.{is_restriction, is_word, is_word_alone, lightens_visibility, parens_trees, restricted_trees, take_visibility, visibility_form, visibility_trees};

use crate::path::{Path, is_end};
use crate::print::write_nothing;
use std::alloc::AllocError;
use syn_parse::{Parse, ParseStream, Result};
use tok_buffer::Cursor;
use tok_buffer::laws::ahead_tells;
use tok_core::laws::writes_follow_writes;
use tok_core::{Delimiter, Group, ToTokens, TokenStream, TokenTree};
use tok_types::token;
use tok_types::token::Token;

/// The visibility of an item or a field: `pub`, `pub(crate)`, `pub(self)`, `pub(super)`,
/// `pub(in path)` or none.
///
/// Parentheses after `pub` belong to the visibility if they contain only `crate`, `self` or
/// `super`, or begin with `in`. In the tuple field `pub (u8, u8)`, the parentheses therefore belong
/// to the type.
#[derive(Drop)]
pub enum Visibility {
    Public(token::Pub),
    Restricted(VisRestricted),
    Inherited,
}

/// A visibility with a restriction in parentheses, such as `pub(crate)`.
#[derive(Drop)]
pub struct VisRestricted {
    pub pub_token: token::Pub,
    pub paren_token: token::Paren,
    pub in_token: Option<token::In>,
    pub path: Path,
}

// What tells the restriction of a visibility from the types of a tuple.
struct Restriction;

impl Token for Restriction {
    ghost sees = { Some is_restriction };

    #[tactic(auto, unfolding(crate::specs::Visibilities::is_restriction))]
    fn peek(cursor: Cursor<'_>) -> bool {
        token::In::peek(cursor) || is_word_alone(cursor)
    }

    fn display() -> &'static str {
        "restriction"
    }
}

// Returns `true` if `crate`, `self` or `super` is next, and nothing after it.
#[tactic(auto, unfolding(crate::specs::Visibilities::is_word_alone))]
fn is_word_alone(inside: Cursor<'_>) -> bool
    ensures { result ≡ is_word_alone (erased_ahead (place_of inside.entry)) }
{
    ahead_tells();
    match inside.ident() {
        Some((_, after)) => is_word(inside) && is_end(after),
        None => false,
    }
}

// Returns `true` if `crate`, `self` or `super` is next.
fn is_word(inside: Cursor<'_>) -> bool
    ensures { result ≡ is_word (erased_ahead (place_of inside.entry)) }
{
    token::Crate::peek(inside) || token::SelfValue::peek(inside) || token::Super::peek(inside)
}

impl Parse for Visibility {
    ghost takes = { told visibility_form take_visibility (lighter lightens_visibility) };

    #[tactic(auto, unfolding(crate::specs::Visibilities::take_visibility))]
    fn parse(input: ParseStream<'_, '_>) -> Result<Self> {
        if !input.peek::<token::Pub>() {
            return Ok(Visibility::Inherited);
        }
        let pub_token = input.parse()?;
        if input.peek_inside::<Restriction>(Delimiter::Parenthesis) {
            let (span, (in_token, path)) = input.parse_within(Delimiter::Parenthesis)?;
            Ok(Visibility::Restricted(VisRestricted {
                pub_token,
                paren_token: token::Paren::new(span),
                in_token,
                path,
            }))
        } else {
            Ok(Visibility::Public(pub_token))
        }
    }
}

impl VisRestricted {
    // Appends the parentheses.
    fn write_parens(&self, tokens: &mut TokenStream) -> std::result::Result<(), AllocError>
        ensures ok { OnOk result
            (tokens.new ≡ concat tokens.old (parens_trees self.now)) }
        ensures err { OnErr result
            (AppendsFront tokens.old (parens_trees self.now) tokens.new) }
    {
        writes_follow_writes();
        let mut inside = TokenStream::new(tokens.allocator());
        self.in_token.to_tokens(&mut inside)?;
        self.path.to_tokens(&mut inside)?;
        let span = self.paren_token.span.join();
        tokens.append(TokenTree::Group(Group::new(Delimiter::Parenthesis, inside, span)))
    }
}

impl ToTokens for VisRestricted {
    ghost printed = { restricted_trees };

    fn to_tokens(&self, tokens: &mut TokenStream) -> std::result::Result<(), AllocError> {
        writes_follow_writes();
        self.pub_token.to_tokens(tokens)?;
        self.write_parens(tokens)
    }
}

/// Writes the visibility, or nothing if the visibility is inherited.
impl ToTokens for Visibility {
    ghost printed = { visibility_trees };

    fn to_tokens(&self, tokens: &mut TokenStream) -> std::result::Result<(), AllocError> {
        match self {
            Visibility::Public(pub_token) => pub_token.to_tokens(tokens),
            Visibility::Restricted(restricted) => restricted.to_tokens(tokens),
            Visibility::Inherited => write_nothing(tokens),
        }
    }
}

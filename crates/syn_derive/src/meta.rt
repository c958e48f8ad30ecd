//! Types for the contents of attributes.
ghost use Rattle.std.specs.Prelude.{◌≡◌, OnErr, OnOk};
ghost use Rattle.tok_core.specs.Erase.{erase};
ghost use Rattle.tok_core.specs.Forest.{AppendsFront, concat};
ghost use Rattle.tok_buffer.specs.View.{IsVisibleDelimiter};
ghost use Rattle.syn_parse.specs.Takes.{TakesAs, take_group};
ghost use Rattle.syn_parse.specs.TreeTakes.{take_rest};
ghost use Rattle.syn_parse.specs.Takings.{Keeps, lighter, taken_as, told};
ghost use Rattle.syn_parse.specs.TreesAhead.{ahead};
ghost use Rattle.syn_derive.specs.Metas.{delimited_by, delimited_trees, lightens_meta, lightens_meta_list, lightens_name_value, meta_form, meta_list_form, meta_list_trees, meta_path, meta_trees, name_value_form, name_value_trees, nested_meta, sees_delimiters, take_delimiters, take_list_after, take_meta, take_meta_after, take_meta_list, take_meta_path, take_name_value, take_nested_meta, take_value_after, value_trees};
ghost use Rattle.syn_derive.specs.Paths.{path_form};

use crate::path::Path;
use crate::print::write_group;
use crate::ty::Expr;
use std::alloc::AllocError;
use syn_parse::{IdentExt, Parse, ParseBuffer, ParseStream, Result};
use tok_core::laws::writes_follow_writes;
use tok_core::{DelimSpan, Delimiter, Ident, ToTokens, TokenStream};
use tok_types::token;

/// The contents of an attribute, such as `derive(Debug)`.
///
/// A `Meta` consists of a path, and optionally of tokens in delimiters or an expression after `=`.
/// The single word `unsafe` may also be the path, as in `unsafe(no_mangle)`.
#[derive(Drop)]
pub enum Meta {
    Path(Path),
    List(MetaList),
    NameValue(MetaNameValue),
}

/// A path with tokens in delimiters after it, such as `derive(Debug)`.
#[derive(Drop)]
pub struct MetaList {
    pub path: Path,
    pub delimiter: MacroDelimiter,
    pub tokens: TokenStream,
}

/// The delimiters of a `MetaList`.
#[derive(Clone, Copy)]
pub enum MacroDelimiter {
    Paren(token::Paren),
    Brace(token::Brace),
    Bracket(token::Bracket),
}

/// A path with `=` and an expression after it, such as `doc = "text"`.
#[derive(Drop)]
pub struct MetaNameValue {
    pub path: Path,
    pub eq_token: token::Eq,
    pub value: Expr,
}

impl Meta {
    /// Returns the path of the meta.
    pub fn path(&self) -> &Path
        ensures { result.now ≡ meta_path self.now }
    {
        match self {
            Meta::Path(path) => path,
            Meta::List(list) => &list.path,
            Meta::NameValue(pair) => &pair.path,
        }
    }
}

// All tokens in a group.
#[derive(Drop)]
struct Inside {
    tokens: TokenStream,
}

impl Parse for Inside {
    ghost takes = { taken_as (λ i. erase i.tokens) take_rest };

    fn parse(input: ParseStream<'_, '_>) -> Result<Self> {
        let tokens = input.rest()?;
        Ok(Inside { tokens })
    }
}

// Parses a group with this delimiter, and returns its span and all tokens in it.
fn parse_delimited(
    input: ParseStream<'_, '_>,
    delimiter: Delimiter,
) -> Result<(DelimSpan, TokenStream)>
    requires { IsVisibleDelimiter delimiter }
    ensures { TakesAs (λ r. (r.0, erase r.1)) (take_group delimiter take_rest) input.old result
        input.new }
{
    let (span, inside) = input.parse_within::<Inside>(delimiter)?;
    Ok((span, inside.tokens))
}

// Parses the path of an attribute.
#[tactic(auto, unfolding(crate::specs::Metas::take_meta_path))]
fn parse_meta_path(input: ParseStream<'_, '_>) -> Result<Path>
    ensures { TakesAs path_form take_meta_path input.old result input.new }
{
    if input.peek::<token::Unsafe>() {
        let ident = input.call(Ident::parse_any)?;
        Ok(Path::of_ident(input.allocator(), ident)?)
    } else {
        input.parse()
    }
}

// Returns `true` if a group with visible delimiters is next.
fn is_delimiter_next(input: &ParseBuffer<'_>) -> bool
    ensures { result ≡ sees_delimiters (ahead input.now) }
{
    input.peek::<token::Paren>() || input.peek::<token::Bracket>() || input.peek::<token::Brace>()
}

// Parses tokens in delimiters.
#[tactic(auto, unfolding(crate::specs::Metas::take_delimiters))]
fn parse_delimiter(input: ParseStream<'_, '_>) -> Result<(MacroDelimiter, TokenStream)>
    ensures { TakesAs (λ r. delimited_by r.0 (erase r.1)) take_delimiters input.old result
        input.new }
{
    if input.peek::<token::Paren>() {
        let (span, tokens) = parse_delimited(input, Delimiter::Parenthesis)?;
        Ok((MacroDelimiter::Paren(token::Paren::new(span)), tokens))
    } else if input.peek::<token::Bracket>() {
        let (span, tokens) = parse_delimited(input, Delimiter::Bracket)?;
        Ok((MacroDelimiter::Bracket(token::Bracket::new(span)), tokens))
    } else if input.peek::<token::Brace>() {
        let (span, tokens) = parse_delimited(input, Delimiter::Brace)?;
        Ok((MacroDelimiter::Brace(token::Brace::new(span)), tokens))
    } else {
        Err(input.error("expected delimiter"))
    }
}

// Parses tokens in delimiters after a path.
fn parse_list_after(path: Path, input: ParseStream<'_, '_>) -> Result<MetaList>
    ensures { TakesAs meta_list_form (take_list_after (path_form path)) input.old result
        input.new }
{
    let (delimiter, tokens) = parse_delimiter(input)?;
    Ok(MetaList {
        path,
        delimiter,
        tokens,
    })
}

// Parses `=` and an expression after a path.
#[tactic(auto, unfolding(crate::specs::Metas::take_assigned))]
fn parse_value_after(path: Path, input: ParseStream<'_, '_>) -> Result<MetaNameValue>
    ensures { TakesAs name_value_form (take_value_after (path_form path)) input.old result
        input.new }
{
    let eq_token = input.parse()?;
    let value = input.parse()?;
    Ok(MetaNameValue {
        path,
        eq_token,
        value,
    })
}

// Parses what comes after the path.
#[tactic(auto, unfolding(crate::specs::Metas::take_meta_after))]
fn parse_meta_after(path: Path, input: ParseStream<'_, '_>) -> Result<Meta>
    ensures { TakesAs meta_form (take_meta_after (path_form path)) input.old result input.new }
{
    if input.peek::<token::Eq>() {
        Ok(Meta::NameValue(parse_value_after(path, input)?))
    } else if is_delimiter_next(input) {
        Ok(Meta::List(parse_list_after(path, input)?))
    } else {
        Ok(Meta::Path(path))
    }
}

impl Meta {
    /// Parses a meta in the arguments of an attribute.
    ///
    /// Any word may be a segment of the meta's path, such as `type` in `type = "u8"`.
    #[tactic(auto, unfolding(crate::specs::Metas::take_nested_meta))]
    pub fn parse_nested(input: ParseStream<'_, '_>) -> Result<Meta>
        ensures { Keeps nested_meta input.old result input.new }
    {
        let path = Path::parse_nested(input)?;
        parse_meta_after(path, input)
    }
}

impl Parse for Meta {
    ghost takes = { told meta_form take_meta (lighter lightens_meta) };

    #[tactic(auto, unfolding(crate::specs::Metas::take_meta))]
    fn parse(input: ParseStream<'_, '_>) -> Result<Self> {
        parse_meta_after(parse_meta_path(input)?, input)
    }
}

impl Parse for MetaList {
    ghost takes = { told meta_list_form take_meta_list (lighter lightens_meta_list) };

    #[tactic(auto, unfolding(crate::specs::Metas::take_meta_list))]
    fn parse(input: ParseStream<'_, '_>) -> Result<Self> {
        let path = parse_meta_path(input)?;
        parse_list_after(path, input)
    }
}

impl Parse for MetaNameValue {
    ghost takes = { told name_value_form take_name_value (lighter lightens_name_value) };

    #[tactic(auto, unfolding(crate::specs::Metas::take_name_value))]
    fn parse(input: ParseStream<'_, '_>) -> Result<Self> {
        let path = parse_meta_path(input)?;
        parse_value_after(path, input)
    }
}

// Appends `=` and an expression.
pub(crate) fn write_value(
    eq_token: token::Eq,
    value: &Expr,
    tokens: &mut TokenStream,
) -> std::result::Result<(), AllocError>
    ensures ok { OnOk result
        (tokens.new ≡ concat tokens.old (value_trees eq_token value.now.tokens)) }
    ensures err { OnErr result
        (AppendsFront tokens.old (value_trees eq_token value.now.tokens) tokens.new) }
{
    writes_follow_writes();
    eq_token.to_tokens(tokens)?;
    value.to_tokens(tokens)
}

impl MacroDelimiter {
    // Appends a group of these tokens.
    fn write(
        self,
        inside: &TokenStream,
        tokens: &mut TokenStream,
    ) -> std::result::Result<(), AllocError>
        ensures ok { OnOk result
            (tokens.new ≡ concat tokens.old (delimited_trees self inside.now)) }
        ensures err { OnErr result
            (AppendsFront tokens.old (delimited_trees self inside.now) tokens.new) }
    {
        match self {
            MacroDelimiter::Paren(paren) => {
                write_group(Delimiter::Parenthesis, paren.span, inside, tokens)
            }
            MacroDelimiter::Brace(brace) => {
                write_group(Delimiter::Brace, brace.span, inside, tokens)
            }
            MacroDelimiter::Bracket(bracket) => {
                write_group(Delimiter::Bracket, bracket.span, inside, tokens)
            }
        }
    }
}

impl ToTokens for MetaList {
    ghost printed = { meta_list_trees };

    fn to_tokens(&self, tokens: &mut TokenStream) -> std::result::Result<(), AllocError> {
        writes_follow_writes();
        self.path.to_tokens(tokens)?;
        self.delimiter.write(&self.tokens, tokens)
    }
}

impl ToTokens for MetaNameValue {
    ghost printed = { name_value_trees };

    fn to_tokens(&self, tokens: &mut TokenStream) -> std::result::Result<(), AllocError> {
        writes_follow_writes();
        self.path.to_tokens(tokens)?;
        write_value(self.eq_token, &self.value, tokens)
    }
}

impl ToTokens for Meta {
    ghost printed = { meta_trees };

    fn to_tokens(&self, tokens: &mut TokenStream) -> std::result::Result<(), AllocError> {
        match self {
            Meta::Path(path) => path.to_tokens(tokens),
            Meta::List(list) => list.to_tokens(tokens),
            Meta::NameValue(pair) => pair.to_tokens(tokens),
        }
    }
}

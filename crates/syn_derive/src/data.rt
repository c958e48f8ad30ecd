//! Types for the fields and variants of an item.
ghost use Rattle.std.specs.Prelude.{◌≡◌, OnErr, OnOk};
ghost use Rattle.tok_core.specs.Forest.{AppendsFront, concat};
ghost use Rattle.syn_parse.specs.Takings.{Keeps, lighter, lower, taken_filled, told_filled};
ghost use Rattle.syn_derive.specs.Fields.{fields_form, lightens_fields, lightens_variant, lowers_named, lowers_unnamed, list_of, named_field, named_fields_form, named_list, take_fields, take_named, take_named_fields, take_unnamed, take_unnamed_fields, take_variant, unnamed_field, unnamed_fields_form, unnamed_list, variant_form};
ghost use Rattle.syn_derive.specs.Runs.{EndsWithTokens, FollowsTree};
ghost use Rattle.syn_derive.specs.Written.{discriminant_trees, field_head_trees, field_trees, fields_trees, name_trees, named_as_trees, named_trees, typed_trees, unnamed_trees, variant_head_trees, variant_rest_trees, variant_trees};

use crate::attribute::{Attribute, write_attributes};
use crate::meta::write_value;
use crate::print::{write_group, write_nothing, write_or_default};
use crate::ty::{Expr, Type};
use crate::visibility::Visibility;
use std::alloc::AllocError;
use syn_parse::laws::parses_go_on;
use syn_parse::{Parse, ParseStream, Result};
use syn_punctuated::Punctuated;
use tok_core::laws::writes_follow_writes;
use tok_core::{Delimiter, Ident, ToTokens, TokenStream};
use tok_types::token;

/// The fields of a struct or a variant: named fields, unnamed fields, or none.
#[derive(Drop)]
pub enum Fields {
    Named(FieldsNamed),
    Unnamed(FieldsUnnamed),
    Unit,
}

/// Named fields in braces, with commas between them, such as `{ x: u8, y: u8 }`.
#[derive(Drop)]
pub struct FieldsNamed {
    pub brace_token: token::Brace,
    pub named: Punctuated<Field, token::Comma>,
}

/// Unnamed fields in parentheses, with commas between them, such as `(u8, u8)`.
#[derive(Drop)]
pub struct FieldsUnnamed {
    pub paren_token: token::Paren,
    pub unnamed: Punctuated<Field, token::Comma>,
}

/// A field of a struct, a union or a variant.
#[derive(Drop)]
pub struct Field {
    pub attrs: Vec<Attribute>,
    pub vis: Visibility,
    pub ident: Option<Ident>,
    pub colon_token: Option<token::Colon>,
    pub ty: Type,
}

/// A variant of an enum.
#[derive(Drop)]
pub struct Variant {
    pub attrs: Vec<Attribute>,
    pub ident: Ident,
    pub fields: Fields,
    pub discriminant: Option<(token::Eq, Expr)>,
}

impl Field {
    /// Parses a named field, which consists of attributes, a visibility, a name, a colon and a
    /// type.
    #[tactic(auto, unfolding(crate::specs::Fields::take_named_field, syn_parse::specs::Reads::Does))]
    pub fn parse_named(input: ParseStream<'_, '_>) -> Result<Field>
        ensures takes { Keeps named_field input.old result input.new }
        ensures kept { FollowsTree (λ f. f.ty.tokens) input.old result input.new }
    {
        let attrs = Attribute::parse_outer(input)?;
        let vis = input.parse()?;
        let ident = input.parse()?;
        let colon_token = input.parse()?;
        let ty = input.parse()?;
        Ok(Field {
            attrs,
            vis,
            ident: Some(ident),
            colon_token: Some(colon_token),
            ty,
        })
    }

    /// Parses an unnamed field, which consists of attributes, a visibility and a type.
    #[tactic(auto, unfolding(crate::specs::Fields::take_unnamed_field, syn_parse::specs::Reads::Does))]
    pub fn parse_unnamed(input: ParseStream<'_, '_>) -> Result<Field>
        ensures takes { Keeps unnamed_field input.old result input.new }
        ensures kept { EndsWithTokens (λ f. f.ty.tokens) input.old result input.new }
    {
        let attrs = Attribute::parse_outer(input)?;
        let vis = input.parse()?;
        let ty = input.parse()?;
        Ok(Field {
            attrs,
            vis,
            ident: None,
            colon_token: None,
            ty,
        })
    }
}

// Parses fields with names, up to the end.
fn parse_named_list(input: ParseStream<'_, '_>) -> Result<Punctuated<Field, token::Comma>>
    ensures { Keeps named_list input.old result input.new }
{
    parses_go_on();
    Punctuated::parse_terminated_with(input, Field::parse_named)
}

// Parses fields without names, up to the end.
fn parse_unnamed_list(input: ParseStream<'_, '_>) -> Result<Punctuated<Field, token::Comma>>
    ensures { Keeps unnamed_list input.old result input.new }
{
    parses_go_on();
    Punctuated::parse_terminated_with(input, Field::parse_unnamed)
}

// What the braces of fields hold.
#[derive(Drop)]
struct NamedList {
    fields: Punctuated<Field, token::Comma>,
}

// What the parentheses of fields hold.
#[derive(Drop)]
struct UnnamedList {
    fields: Punctuated<Field, token::Comma>,
}

impl Parse for NamedList {
    ghost takes = { taken_filled (λ l. list_of l.fields) take_named };

    fn parse(input: ParseStream<'_, '_>) -> Result<Self> {
        let fields = parse_named_list(input)?;
        Ok(NamedList { fields })
    }
}

impl Parse for UnnamedList {
    ghost takes = { taken_filled (λ l. list_of l.fields) take_unnamed };

    fn parse(input: ParseStream<'_, '_>) -> Result<Self> {
        let fields = parse_unnamed_list(input)?;
        Ok(UnnamedList { fields })
    }
}

impl Parse for FieldsNamed {
    ghost takes = { told_filled named_fields_form take_named_fields (lower lowers_named) };

    #[tactic(auto, unfolding(crate::specs::Fields::take_named_fields))]
    fn parse(input: ParseStream<'_, '_>) -> Result<Self> {
        let (span, list) = input.parse_within::<NamedList>(Delimiter::Brace)?;
        Ok(FieldsNamed {
            brace_token: token::Brace::new(span),
            named: list.fields,
        })
    }
}

impl Parse for FieldsUnnamed {
    ghost takes = { told_filled unnamed_fields_form take_unnamed_fields (lower lowers_unnamed) };

    #[tactic(auto, unfolding(crate::specs::Fields::take_unnamed_fields))]
    fn parse(input: ParseStream<'_, '_>) -> Result<Self> {
        let (span, list) = input.parse_within::<UnnamedList>(Delimiter::Parenthesis)?;
        Ok(FieldsUnnamed {
            paren_token: token::Paren::new(span),
            unnamed: list.fields,
        })
    }
}

impl Parse for Fields {
    ghost takes = { told_filled fields_form take_fields (lighter lightens_fields) };

    #[tactic(auto, unfolding(crate::specs::Fields::take_fields))]
    fn parse(input: ParseStream<'_, '_>) -> Result<Self> {
        if input.peek::<token::Brace>() {
            let fields = input.parse()?;
            Ok(Fields::Named(fields))
        } else if input.peek::<token::Paren>() {
            let fields = input.parse()?;
            Ok(Fields::Unnamed(fields))
        } else {
            Ok(Fields::Unit)
        }
    }
}

impl Parse for Variant {
    ghost takes = { told_filled variant_form take_variant (lighter lightens_variant) };

    #[tactic(auto, unfolding(crate::specs::Fields::take_variant))]
    fn parse(input: ParseStream<'_, '_>) -> Result<Self> {
        let attrs = Attribute::parse_outer(input)?;
        let _: Visibility = input.parse()?;
        let ident = input.parse()?;
        let fields = input.parse()?;
        let discriminant = input.parse_after()?;
        Ok(Variant {
            attrs,
            ident,
            fields,
            discriminant,
        })
    }
}

// Appends a name and `:`, or those at the call site.
fn write_named(
    ident: &Ident,
    colon_token: &Option<token::Colon>,
    tokens: &mut TokenStream,
) -> std::result::Result<(), AllocError>
    ensures ok { OnOk result
        (tokens.new ≡ concat tokens.old (named_as_trees ident.now colon_token.now)) }
    ensures err { OnErr result
        (AppendsFront tokens.old (named_as_trees ident.now colon_token.now) tokens.new) }
{
    writes_follow_writes();
    ident.to_tokens(tokens)?;
    write_or_default(colon_token, tokens)
}

// Appends a name and `:`, if there is a name.
fn write_name(
    ident: &Option<Ident>,
    colon_token: &Option<token::Colon>,
    tokens: &mut TokenStream,
) -> std::result::Result<(), AllocError>
    ensures ok { OnOk result
        (tokens.new ≡ concat tokens.old (name_trees ident.now colon_token.now)) }
    ensures err { OnErr result
        (AppendsFront tokens.old (name_trees ident.now colon_token.now) tokens.new) }
{
    match ident {
        Some(ident) => write_named(ident, colon_token, tokens),
        None => write_nothing(tokens),
    }
}

impl Field {
    // Appends the attributes and the visibility.
    fn write_head(&self, tokens: &mut TokenStream) -> std::result::Result<(), AllocError>
        ensures ok { OnOk result (tokens.new ≡ concat tokens.old (field_head_trees self.now)) }
        ensures err { OnErr result
            (AppendsFront tokens.old (field_head_trees self.now) tokens.new) }
    {
        writes_follow_writes();
        write_attributes(&self.attrs, tokens)?;
        self.vis.to_tokens(tokens)
    }

    // Appends the name and the type.
    fn write_typed(&self, tokens: &mut TokenStream) -> std::result::Result<(), AllocError>
        ensures ok { OnOk result (tokens.new ≡ concat tokens.old (typed_trees self.now)) }
        ensures err { OnErr result (AppendsFront tokens.old (typed_trees self.now) tokens.new) }
    {
        writes_follow_writes();
        write_name(&self.ident, &self.colon_token, tokens)?;
        self.ty.to_tokens(tokens)
    }
}

impl ToTokens for Field {
    ghost printed = { field_trees };

    fn to_tokens(&self, tokens: &mut TokenStream) -> std::result::Result<(), AllocError> {
        writes_follow_writes();
        self.write_head(tokens)?;
        self.write_typed(tokens)
    }
}

impl ToTokens for FieldsNamed {
    ghost printed = { named_trees };

    fn to_tokens(&self, tokens: &mut TokenStream) -> std::result::Result<(), AllocError> {
        write_group(Delimiter::Brace, self.brace_token.span, &self.named, tokens)
    }
}

impl ToTokens for FieldsUnnamed {
    ghost printed = { unnamed_trees };

    fn to_tokens(&self, tokens: &mut TokenStream) -> std::result::Result<(), AllocError> {
        write_group(
            Delimiter::Parenthesis,
            self.paren_token.span,
            &self.unnamed,
            tokens,
        )
    }
}

impl ToTokens for Fields {
    ghost printed = { fields_trees };

    fn to_tokens(&self, tokens: &mut TokenStream) -> std::result::Result<(), AllocError> {
        match self {
            Fields::Named(fields) => fields.to_tokens(tokens),
            Fields::Unnamed(fields) => fields.to_tokens(tokens),
            Fields::Unit => write_nothing(tokens),
        }
    }
}

// Appends `=` and the expression, if there is one.
fn write_discriminant(
    discriminant: &Option<(token::Eq, Expr)>,
    tokens: &mut TokenStream,
) -> std::result::Result<(), AllocError>
    ensures ok { OnOk result
        (tokens.new ≡ concat tokens.old (discriminant_trees discriminant.now)) }
    ensures err { OnErr result
        (AppendsFront tokens.old (discriminant_trees discriminant.now) tokens.new) }
{
    match discriminant {
        Some(assigned) => write_value(assigned.0, &assigned.1, tokens),
        None => write_nothing(tokens),
    }
}

impl Variant {
    // Appends the attributes and the name.
    fn write_head(&self, tokens: &mut TokenStream) -> std::result::Result<(), AllocError>
        ensures ok { OnOk result (tokens.new ≡ concat tokens.old (variant_head_trees self.now)) }
        ensures err { OnErr result
            (AppendsFront tokens.old (variant_head_trees self.now) tokens.new) }
    {
        writes_follow_writes();
        write_attributes(&self.attrs, tokens)?;
        self.ident.to_tokens(tokens)
    }

    // Appends the fields, and `=` and the expression if there is one.
    fn write_rest(&self, tokens: &mut TokenStream) -> std::result::Result<(), AllocError>
        ensures ok { OnOk result (tokens.new ≡ concat tokens.old (variant_rest_trees self.now)) }
        ensures err { OnErr result
            (AppendsFront tokens.old (variant_rest_trees self.now) tokens.new) }
    {
        writes_follow_writes();
        self.fields.to_tokens(tokens)?;
        write_discriminant(&self.discriminant, tokens)
    }
}

impl ToTokens for Variant {
    ghost printed = { variant_trees };

    fn to_tokens(&self, tokens: &mut TokenStream) -> std::result::Result<(), AllocError> {
        writes_follow_writes();
        self.write_head(tokens)?;
        self.write_rest(tokens)
    }
}

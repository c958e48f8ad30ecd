//! Types for structs, enums and unions.
ghost use Rattle.std.specs.Prelude.{◌≡◌, OnErr, OnOk};
ghost use Rattle.tok_core.specs.Forest.{AppendsFront, concat};
ghost use Rattle.syn_parse.specs.Takings.{Keeps, taken_filled};
ghost use Rattle.syn_derive.specs.Inputs.{body_form, input_form, item_form, take_body, take_enum_item, take_input, take_item, take_other_body, take_struct_item, take_tuple_body, take_union_item};
ghost use Rattle.syn_derive.specs.Written.{body_trees, enum_trees, head_trees, input_body_trees, input_name_trees, input_trees, item_trees, struct_trees, tuple_trees, unit_trees, word_trees};

use crate::attribute::{Attribute, write_attributes};
use crate::data::{Fields, FieldsNamed, FieldsUnnamed, Variant};
use crate::generics::{Generics, WhereClause};
use crate::print::{write_both, write_group, write_or_default};
use crate::visibility::Visibility;
use std::alloc::AllocError;
use syn_choices::ParseBufferExt;
use syn_parse::laws::parses_go_on;
use syn_parse::{Parse, ParseStream, Result};
use syn_punctuated::Punctuated;
use tok_core::laws::writes_follow_writes;
use tok_core::{Delimiter, Ident, ToTokens, TokenStream};
use tok_types::token;

/// A struct, an enum or a union, as a derive macro receives it.
///
/// # Examples
///
/// ```rust
/// let input: DeriveInput = parse_str(alloc, "struct Point { pub x: u8, y: u8 }")?;
/// if let Data::Struct(data) = &input.data
///     && let Fields::Named(fields) = &data.fields
/// {
///     for field in fields.named.iter() {
///         if let Visibility::Public(_) = &field.vis {
///             count += 1;
///         }
///     }
/// }
/// ```
#[derive(Drop)]
pub struct DeriveInput {
    pub attrs: Vec<Attribute>,
    pub vis: Visibility,
    pub ident: Ident,
    pub generics: Generics,
    pub data: Data,
}

/// The fields of a struct or a union, or the variants of an enum.
#[derive(Drop)]
pub enum Data {
    Struct(DataStruct),
    Enum(DataEnum),
    Union(DataUnion),
}

/// The fields of a struct.
#[derive(Drop)]
pub struct DataStruct {
    pub struct_token: token::Struct,
    pub fields: Fields,
    pub semi_token: Option<token::Semi>,
}

/// The variants of an enum, with commas between them.
#[derive(Drop)]
pub struct DataEnum {
    pub enum_token: token::Enum,
    pub brace_token: token::Brace,
    pub variants: Punctuated<Variant, token::Comma>,
}

/// The fields of a union.
#[derive(Drop)]
pub struct DataUnion {
    pub union_token: token::Union,
    pub fields: FieldsNamed,
}

// All but the attributes and the visibility.
#[derive(Drop)]
struct Item {
    ident: Ident,
    generics: Generics,
    data: Data,
}

impl Parse for DeriveInput {
    ghost takes = { taken_filled input_form take_input };

    fn parse(input: ParseStream<'_, '_>) -> Result<Self> {
        let attrs = Attribute::parse_outer(input)?;
        let vis = input.parse()?;
        let item: Item = input.parse()?;
        let Item {
            ident,
            generics,
            data,
        } = item;
        Ok(DeriveInput {
            attrs,
            vis,
            ident,
            generics,
            data,
        })
    }
}

impl Parse for Item {
    ghost takes = { taken_filled item_form take_item };

    #[tactic(auto, unfolding(crate::specs::Inputs::take_item))]
    fn parse(input: ParseStream<'_, '_>) -> Result<Self> {
        let mut lookahead = input.lookahead1();
        if lookahead.peek::<token::Struct>()? {
            parse_struct(input)
        } else if lookahead.peek::<token::Enum>()? {
            parse_enum(input)
        } else if lookahead.peek::<token::Union>()? {
            parse_union(input)
        } else {
            Err(lookahead.error())
        }
    }
}

#[tactic(auto, unfolding(crate::specs::Inputs::take_struct_item))]
fn parse_struct(input: ParseStream<'_, '_>) -> Result<Item>
    ensures { Keeps (taken_filled item_form take_struct_item) input.old result input.new }
{
    let struct_token = input.parse()?;
    let ident = input.parse()?;
    let params: Generics = input.parse()?;
    let body: Body = input.parse()?;
    Ok(Item {
        ident,
        generics: params.with_clause(body.where_clause),
        data: Data::Struct(DataStruct {
            struct_token,
            fields: body.fields,
            semi_token: body.semi_token,
        }),
    })
}

#[tactic(auto, unfolding(crate::specs::Inputs::take_enum_item))]
fn parse_enum(input: ParseStream<'_, '_>) -> Result<Item>
    ensures { Keeps (taken_filled item_form take_enum_item) input.old result input.new }
{
    parses_go_on();
    let enum_token = input.parse()?;
    let ident = input.parse()?;
    let params: Generics = input.parse()?;
    let where_clause = input.parse_if::<token::Where, WhereClause>()?;
    let (span, variants) = input.parse_terminated_within(Delimiter::Brace)?;
    Ok(Item {
        ident,
        generics: params.with_clause(where_clause),
        data: Data::Enum(DataEnum {
            enum_token,
            brace_token: token::Brace::new(span),
            variants,
        }),
    })
}

#[tactic(auto, unfolding(crate::specs::Inputs::take_union_item))]
fn parse_union(input: ParseStream<'_, '_>) -> Result<Item>
    ensures { Keeps (taken_filled item_form take_union_item) input.old result input.new }
{
    let union_token = input.parse()?;
    let ident = input.parse()?;
    let params: Generics = input.parse()?;
    let where_clause = input.parse_if::<token::Where, WhereClause>()?;
    let fields = input.parse()?;
    Ok(Item {
        ident,
        generics: params.with_clause(where_clause),
        data: Data::Union(DataUnion {
            union_token,
            fields,
        }),
    })
}

// What comes after the parameters of a struct. A `where` clause is before fields in braces, and
// after those in parentheses.
#[derive(Drop)]
struct Body {
    where_clause: Option<WhereClause>,
    fields: Fields,
    semi_token: Option<token::Semi>,
}

impl Parse for Body {
    ghost takes = { taken_filled body_form take_body };

    #[tactic(auto, unfolding(crate::specs::Inputs::take_body))]
    fn parse(input: ParseStream<'_, '_>) -> Result<Self> {
        if input.peek::<token::Paren>() {
            parse_tuple_body(input)
        } else {
            parse_other_body(input)
        }
    }
}

#[tactic(auto, unfolding(crate::specs::Inputs::take_tuple_body))]
fn parse_tuple_body(input: ParseStream<'_, '_>) -> Result<Body>
    ensures { Keeps (taken_filled body_form take_tuple_body) input.old result input.new }
{
    let fields = input.parse()?;
    let where_clause = input.parse_if::<token::Where, WhereClause>()?;
    let semi_token = input.parse()?;
    Ok(Body {
        where_clause,
        fields: Fields::Unnamed(fields),
        semi_token: Some(semi_token),
    })
}

#[tactic(auto, unfolding(crate::specs::Inputs::take_other_body))]
fn parse_other_body(input: ParseStream<'_, '_>) -> Result<Body>
    ensures { Keeps (taken_filled body_form take_other_body) input.old result input.new }
{
    let where_clause = input.parse_if::<token::Where, WhereClause>()?;
    if input.peek::<token::Brace>() {
        let fields = input.parse()?;
        Ok(Body {
            where_clause,
            fields: Fields::Named(fields),
            semi_token: None,
        })
    } else {
        let semi_token = input.parse()?;
        Ok(Body {
            where_clause,
            fields: Fields::Unit,
            semi_token: Some(semi_token),
        })
    }
}

impl Data {
    // Appends `struct`, `enum` or `union`.
    fn write_word(&self, tokens: &mut TokenStream) -> std::result::Result<(), AllocError>
        ensures ok { OnOk result (tokens.new ≡ concat tokens.old (word_trees self.now)) }
        ensures err { OnErr result (AppendsFront tokens.old (word_trees self.now) tokens.new) }
    {
        match self {
            Data::Struct(data) => data.struct_token.to_tokens(tokens),
            Data::Enum(data) => data.enum_token.to_tokens(tokens),
            Data::Union(data) => data.union_token.to_tokens(tokens),
        }
    }

    // Appends what comes after the parameters, with this `where` clause.
    fn write_body(
        &self,
        clause: &Option<WhereClause>,
        tokens: &mut TokenStream,
    ) -> std::result::Result<(), AllocError>
        ensures ok { OnOk result
            (tokens.new ≡ concat tokens.old (body_trees clause.now self.now)) }
        ensures err { OnErr result
            (AppendsFront tokens.old (body_trees clause.now self.now) tokens.new) }
    {
        match self {
            Data::Struct(data) => write_struct(clause, &data.fields, &data.semi_token, tokens),
            Data::Enum(data) => data.write_body(clause, tokens),
            Data::Union(data) => write_both(clause, &data.fields, tokens),
        }
    }
}

impl DataEnum {
    // Appends a `where` clause and the variants.
    fn write_body(
        &self,
        clause: &Option<WhereClause>,
        tokens: &mut TokenStream,
    ) -> std::result::Result<(), AllocError>
        ensures ok { OnOk result
            (tokens.new ≡ concat tokens.old (enum_trees clause.now self.now)) }
        ensures err { OnErr result
            (AppendsFront tokens.old (enum_trees clause.now self.now) tokens.new) }
    {
        writes_follow_writes();
        clause.to_tokens(tokens)?;
        write_group(
            Delimiter::Brace,
            self.brace_token.span,
            &self.variants,
            tokens,
        )
    }
}

// Appends what comes after the parameters of a struct, with this `where` clause.
fn write_struct(
    clause: &Option<WhereClause>,
    fields: &Fields,
    semi_token: &Option<token::Semi>,
    tokens: &mut TokenStream,
) -> std::result::Result<(), AllocError>
    ensures ok { OnOk result
        (tokens.new ≡ concat tokens.old (struct_trees clause.now fields.now semi_token.now)) }
    ensures err { OnErr result
        (AppendsFront tokens.old (struct_trees clause.now fields.now semi_token.now) tokens.new) }
{
    match fields {
        Fields::Named(fields) => write_both(clause, fields, tokens),
        Fields::Unnamed(fields) => write_tuple(clause, fields, semi_token, tokens),
        Fields::Unit => write_unit(clause, semi_token, tokens),
    }
}

// Appends fields in parentheses, a `where` clause and `;`.
fn write_tuple(
    clause: &Option<WhereClause>,
    fields: &FieldsUnnamed,
    semi_token: &Option<token::Semi>,
    tokens: &mut TokenStream,
) -> std::result::Result<(), AllocError>
    ensures ok { OnOk result
        (tokens.new ≡ concat tokens.old (tuple_trees clause.now fields.now semi_token.now)) }
    ensures err { OnErr result
        (AppendsFront tokens.old (tuple_trees clause.now fields.now semi_token.now) tokens.new) }
{
    writes_follow_writes();
    fields.to_tokens(tokens)?;
    write_unit(clause, semi_token, tokens)
}

// Appends a `where` clause and `;`.
fn write_unit(
    clause: &Option<WhereClause>,
    semi_token: &Option<token::Semi>,
    tokens: &mut TokenStream,
) -> std::result::Result<(), AllocError>
    ensures ok { OnOk result
        (tokens.new ≡ concat tokens.old (unit_trees clause.now semi_token.now)) }
    ensures err { OnErr result
        (AppendsFront tokens.old (unit_trees clause.now semi_token.now) tokens.new) }
{
    writes_follow_writes();
    clause.to_tokens(tokens)?;
    write_or_default(semi_token, tokens)
}

impl DeriveInput {
    // Appends the attributes and the visibility.
    fn write_head(&self, tokens: &mut TokenStream) -> std::result::Result<(), AllocError>
        ensures ok { OnOk result (tokens.new ≡ concat tokens.old (head_trees self.now)) }
        ensures err { OnErr result (AppendsFront tokens.old (head_trees self.now) tokens.new) }
    {
        writes_follow_writes();
        write_attributes(&self.attrs, tokens)?;
        self.vis.to_tokens(tokens)
    }

    // Appends the word and the name.
    fn write_name(&self, tokens: &mut TokenStream) -> std::result::Result<(), AllocError>
        ensures ok { OnOk result (tokens.new ≡ concat tokens.old (input_name_trees self.now)) }
        ensures err { OnErr result
            (AppendsFront tokens.old (input_name_trees self.now) tokens.new) }
    {
        writes_follow_writes();
        self.data.write_word(tokens)?;
        self.ident.to_tokens(tokens)
    }

    // Appends the parameters, and what comes after them.
    fn write_body(&self, tokens: &mut TokenStream) -> std::result::Result<(), AllocError>
        ensures ok { OnOk result (tokens.new ≡ concat tokens.old (input_body_trees self.now)) }
        ensures err { OnErr result
            (AppendsFront tokens.old (input_body_trees self.now) tokens.new) }
    {
        writes_follow_writes();
        self.generics.to_tokens(tokens)?;
        self.data.write_body(&self.generics.where_clause, tokens)
    }

    // Appends all after the attributes and the visibility.
    fn write_item(&self, tokens: &mut TokenStream) -> std::result::Result<(), AllocError>
        ensures ok { OnOk result (tokens.new ≡ concat tokens.old (item_trees self.now)) }
        ensures err { OnErr result (AppendsFront tokens.old (item_trees self.now) tokens.new) }
    {
        writes_follow_writes();
        self.write_name(tokens)?;
        self.write_body(tokens)
    }
}

impl ToTokens for DeriveInput {
    ghost printed = { input_trees };

    fn to_tokens(&self, tokens: &mut TokenStream) -> std::result::Result<(), AllocError> {
        writes_follow_writes();
        self.write_head(tokens)?;
        self.write_item(tokens)
    }
}

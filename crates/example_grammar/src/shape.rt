//! The named or unnamed fields of a struct, and functions that parse them.
ghost use Rattle.syn_parse.specs.Takings.{Keeps, taken_filled};
ghost use Rattle.example_grammar.specs.Shapes.{fields_of, named_field, named_form, shape_form, take_named, take_named_fields, take_shape, take_unnamed, take_unnamed_fields, unnamed_field, unnamed_form};

use crate::named_type::NamedType;
use syn_parse::laws::parses_go_on;
use syn_parse::{Braces, Parens, Parse, ParseStream, Result, parse_braces, parse_parens};
use syn_punctuated::Punctuated;
use tok_core::Ident;
use tok_types::token;

/// A field, which has the form `name: type` or consists of a type alone.
#[derive(Drop)]
pub struct Field {
    pub name: Option<Ident>,
    pub kind: NamedType,
}

impl Field {
    /// Parses a field of the form `name: type`.
    pub fn parse_named(input: ParseStream<'_, '_>) -> Result<Self>
        ensures { Keeps named_field input.old result input.new }
    {
        let name = input.parse()?;
        let _: token::Colon = input.parse()?;
        let kind = input.parse()?;
        Ok(Field {
            name: Some(name),
            kind,
        })
    }

    /// Parses a field that is a type alone.
    pub fn parse_unnamed(input: ParseStream<'_, '_>) -> Result<Self>
        ensures { Keeps unnamed_field input.old result input.new }
    {
        let kind = input.parse()?;
        Ok(Field { name: None, kind })
    }
}

/// Named fields in braces: `{ name: type, .. }`.
#[derive(Drop)]
pub struct NamedFields {
    pub brace: token::Brace,
    pub list: Punctuated<Field, token::Comma>,
}

impl Parse for NamedFields {
    ghost takes = { taken_filled named_form take_named_fields };

    #[tactic(auto, unfolding(syn_parse::specs::Takes::take_group))]
    fn parse(input: ParseStream<'_, '_>) -> Result<Self> {
        let Braces { token, mut content } = parse_braces(input)?;
        let list = read_named(&mut content);
        input.close(content);
        Ok(NamedFields {
            brace: token,
            list: list?,
        })
    }
}

/// Unnamed fields in parentheses: `(type, ..)`.
#[derive(Drop)]
pub struct UnnamedFields {
    pub paren: token::Paren,
    pub list: Punctuated<Field, token::Comma>,
}

impl Parse for UnnamedFields {
    ghost takes = { taken_filled unnamed_form take_unnamed_fields };

    #[tactic(auto, unfolding(syn_parse::specs::Takes::take_group))]
    fn parse(input: ParseStream<'_, '_>) -> Result<Self> {
        let Parens { token, mut content } = parse_parens(input)?;
        let list = read_unnamed(&mut content);
        input.close(content);
        Ok(UnnamedFields {
            paren: token,
            list: list?,
        })
    }
}

// Reads fields with names up to the end.
fn read_named(input: ParseStream<'_, '_>) -> Result<Punctuated<Field, token::Comma>>
    ensures { Keeps (fields_of take_named) input.old result input.new }
{
    parses_go_on();
    Punctuated::parse_terminated_with(input, Field::parse_named)
}

// Reads fields without names up to the end.
fn read_unnamed(input: ParseStream<'_, '_>) -> Result<Punctuated<Field, token::Comma>>
    ensures { Keeps (fields_of take_unnamed) input.old result input.new }
{
    parses_go_on();
    Punctuated::parse_terminated_with(input, Field::parse_unnamed)
}

/// The part of a struct after the name: fields in braces, fields in parentheses, or nothing.
#[derive(Drop)]
pub enum Shape {
    Named(NamedFields),
    Unnamed(UnnamedFields),
    Unit,
}

impl Parse for Shape {
    ghost takes = { taken_filled shape_form take_shape };

    fn parse(input: ParseStream<'_, '_>) -> Result<Self> {
        if input.peek::<token::Brace>() {
            Ok(Shape::Named(input.parse()?))
        } else if input.peek::<token::Paren>() {
            Ok(Shape::Unnamed(input.parse()?))
        } else {
            Ok(Shape::Unit)
        }
    }
}

//! Lists whose contracts state from which visible token trees they are parsed: the fields of a
//! record, and a path.
ghost use Rattle.syn_parse.specs.Takings.{lower, taken_as, taken_filled, told};
ghost use Rattle.example_callers.specs.Records.{fields_form, lowers_member, path_form, record_form, take_fields, take_member, take_path, take_record};

use syn_parse::laws::parses_go_on;
use syn_parse::{Parse, ParseStream, Result};
use syn_punctuated::Punctuated;
use tok_core::{Delimiter, Ident};
use tok_types::token;

/// A field of the form `name: Kind`.
#[derive(Drop)]
pub struct Member {
    pub name: Ident,
    pub kind: Ident,
}

impl Parse for Member {
    ghost takes = { told (λ v. v) take_member (lower lowers_member) };

    fn parse(input: ParseStream<'_, '_>) -> Result<Self> {
        let name = input.parse()?;
        let _: token::Colon = input.parse()?;
        let kind = input.parse()?;
        Ok(Member { name, kind })
    }
}

/// A list of fields with commas between them, and an optional comma after the last field.
#[derive(Drop)]
pub struct Fields {
    pub list: Punctuated<Member, token::Comma>,
}

impl Parse for Fields {
    ghost takes = { taken_filled fields_form take_fields };

    fn parse(input: ParseStream<'_, '_>) -> Result<Self> {
        parses_go_on();
        let list = Punctuated::parse_terminated(input)?;
        Ok(Fields { list })
    }
}

/// A record of the form `struct Name { field: Kind, .. }`.
#[derive(Drop)]
pub struct Record {
    pub name: Ident,
    pub fields: Fields,
}

impl Parse for Record {
    ghost takes = { taken_filled record_form take_record };

    fn parse(input: ParseStream<'_, '_>) -> Result<Self> {
        let _: token::Struct = input.parse()?;
        let name = input.parse()?;
        let (_, fields) = input.parse_within(Delimiter::Brace)?;
        Ok(Record { name, fields })
    }
}

/// A path of one or more names, such as `a::b::c`.
#[derive(Drop)]
pub struct Path {
    pub names: Punctuated<Ident, token::PathSep>,
}

impl Parse for Path {
    ghost takes = { taken_as path_form take_path };

    fn parse(input: ParseStream<'_, '_>) -> Result<Self> {
        parses_go_on();
        let names = Punctuated::parse_separated_nonempty(input)?;
        Ok(Path { names })
    }
}

//! A table with rows for an item, its variants and fields, and their attributes.
ghost use Rattle.std.specs.Prelude.{◌≡◌, ◌++◌, IfOk, OnOk, map, option_map};
ghost use Rattle.entry_outcomes.specs.Answers.{answered};
ghost use Rattle.syn_derive.specs.Attributes.{attribute_form};
ghost use Rattle.syn_derive.specs.Fields.{field_form, fields_form, list_of, variant_form};
ghost use Rattle.syn_derive.specs.Generics.{where_form};
ghost use Rattle.syn_derive.specs.Inputs.{data_form, input_form};
ghost use Rattle.syn_derive.specs.Metas.{meta_form};
ghost use Rattle.syn_punctuated.specs.Lists.{values_of};
ghost use Rattle.example_fields.specs.Ranges as ranges;
ghost use Rattle.example_fields.specs.Tables as spec;

use crate::ranges::{Range, no_range, of_ident, of_name, of_path, of_tokens, of_visibility};
use entry_outcomes::Answer;
use std::alloc::{AllocError, Global};
use syn_derive::{Attribute, Data, DeriveInput, Expr, Field, Fields, Meta, Variant, WhereClause};
use syn_punctuated::Punctuated;
use tok_types::token;

const STRUCT: usize = 0;

const ENUM: usize = 1;

const UNION: usize = 2;

const CLAUSE: usize = 3;

const VARIANT: usize = 4;

const FIELD: usize = 5;

const ATTRIBUTE: usize = 6;

/// A row of the table, which describes a part of the item.
///
/// The first row describes the item. After the row of an item, a variant or a field come the rows
/// of its attributes, and then the rows of its parts.
#[repr(C)]
#[derive(Clone, Copy)]
pub struct Row {
    /// The kind of the row: 0 for a struct, 1 for an enum, 2 for a union, or 3 for a `where`
    /// clause. The kind is 4 for a variant, 5 for a field, or 6 for an attribute.
    pub kind: usize,
    /// The form of the part that this row describes. For a struct, a union or a variant, the form
    /// is 0 without fields, 1 with fields in parentheses, or 2 with fields in braces. For an
    /// attribute, the form is 0 for a path alone, 1 for tokens in delimiters, or 2 for a value
    /// after `=`. For any other row, the form is 0.
    pub form: usize,
    /// The number of attributes that the part has. Their rows follow this row.
    pub attributes: usize,
    /// The tokens of the name, or of the path of an attribute.
    pub name: Range,
    /// The tokens of the visibility.
    pub visibility: Range,
    /// The type of a field, the discriminant of a variant, the parameters of an item, the
    /// predicates of a `where` clause, or the tokens or the value of an attribute.
    pub value: Range,
}

// Returns the number of an attribute's form, and the range of what comes after its path.
fn input_of(meta: &Meta) -> (usize, Range)
    ensures number { result.0 ≡ spec.input_number (meta_form meta.now).1 }
    ensures range { result.1 ≡ ranges.of_input (meta_form meta.now).1 }
{
    match meta {
        Meta::Path(_) => (0, no_range()),
        Meta::List(list) => (1, of_tokens(&list.tokens)),
        Meta::NameValue(pair) => (2, of_tokens(&pair.value.tokens)),
    }
}

fn attribute_row(attribute: &Attribute) -> Row
    ensures { result ≡ spec.attribute_row (attribute_form attribute.now) }
{
    let (form, value) = input_of(&attribute.meta);
    Row {
        kind: ATTRIBUTE,
        form,
        attributes: 0,
        name: of_path(attribute.path()),
        visibility: no_range(),
        value,
    }
}

// Appends the rows of attributes.
fn push_attributes(rows: &mut Vec<Row>, attributes: &[Attribute]) -> Result<(), AllocError>
    ensures { OnOk result (rows.new.items
        ≡ rows.old.items ++ spec.attribute_rows (map attribute_form attributes.now)) }
{
    for attribute in attributes {
        rows.push(attribute_row(attribute))?;
    }
    Ok(())
}

// Appends the row of a field, and those of its attributes.
fn push_field(rows: &mut Vec<Row>, field: &Field) -> Result<(), AllocError>
    ensures { OnOk result
        (rows.new.items ≡ rows.old.items ++ spec.field_rows (field_form field.now)) }
{
    rows.push(Row {
        kind: FIELD,
        form: 0,
        attributes: field.attrs.len(),
        name: of_name(&field.ident),
        visibility: of_visibility(&field.vis),
        value: of_tokens(&field.ty.tokens),
    })?;
    push_attributes(rows, &field.attrs)
}

// Appends the rows of fields.
fn push_list(rows: &mut Vec<Row>, list: &Punctuated<Field, token::Comma>) -> Result<(), AllocError>
    ensures { OnOk result
        (rows.new.items ≡ rows.old.items ++ spec.list_rows (list_of list.now).0) }
{
    for field in list.iter() {
        push_field(rows, field)?;
    }
    Ok(())
}

fn number_of(fields: &Fields) -> usize
    ensures { result ≡ spec.fields_number (fields_form fields.now) }
{
    match fields {
        Fields::Unit => 0,
        Fields::Unnamed(_) => 1,
        Fields::Named(_) => 2,
    }
}

fn push_fields(rows: &mut Vec<Row>, fields: &Fields) -> Result<(), AllocError>
    ensures { OnOk result
        (rows.new.items ≡ rows.old.items ++ spec.fields_rows (fields_form fields.now)) }
{
    match fields {
        Fields::Named(fields) => push_list(rows, &fields.named),
        Fields::Unnamed(fields) => push_list(rows, &fields.unnamed),
        Fields::Unit => Ok(()),
    }
}

// Returns the range of a discriminant, if there is one.
fn of_discriminant(discriminant: &Option<(token::Eq, Expr)>) -> Range
    ensures { result ≡ spec.discriminant (spec.discriminant_form discriminant.now) }
{
    match discriminant {
        Some((_, value)) => of_tokens(&value.tokens),
        None => no_range(),
    }
}

// Appends the row of a variant, and those of its attributes and its fields.
fn push_variant(rows: &mut Vec<Row>, variant: &Variant) -> Result<(), AllocError>
    ensures { OnOk result
        (rows.new.items ≡ rows.old.items ++ spec.variant_rows (variant_form variant.now)) }
{
    rows.push(Row {
        kind: VARIANT,
        form: number_of(&variant.fields),
        attributes: variant.attrs.len(),
        name: of_ident(&variant.ident),
        visibility: no_range(),
        value: of_discriminant(&variant.discriminant),
    })?;
    push_attributes(rows, &variant.attrs)?;
    push_fields(rows, &variant.fields)
}

// Appends the rows of variants.
fn push_variants(
    rows: &mut Vec<Row>,
    list: &Punctuated<Variant, token::Comma>,
) -> Result<(), AllocError>
    ensures { OnOk result (rows.new.items
        ≡ rows.old.items ++ spec.variants_rows (map variant_form (values_of list.now))) }
{
    for variant in list.iter() {
        push_variant(rows, variant)?;
    }
    Ok(())
}

// Appends the row of a `where` clause, if there is one.
fn push_clause(rows: &mut Vec<Row>, clause: &Option<WhereClause>) -> Result<(), AllocError>
    ensures { OnOk result (rows.new.items
        ≡ rows.old.items ++ spec.clause_rows (option_map where_form clause.now)) }
{
    if let Some(clause) = clause {
        rows.push(Row {
            kind: CLAUSE,
            form: 0,
            attributes: 0,
            name: no_range(),
            visibility: no_range(),
            value: of_tokens(&clause.predicates),
        })?;
    }
    Ok(())
}

// Appends the rows of what an item consists of.
fn push_data(rows: &mut Vec<Row>, data: &Data) -> Result<(), AllocError>
    ensures { OnOk result
        (rows.new.items ≡ rows.old.items ++ spec.data_rows (data_form data.now)) }
{
    match data {
        Data::Struct(data) => push_fields(rows, &data.fields),
        Data::Enum(data) => push_variants(rows, &data.variants),
        Data::Union(data) => push_list(rows, &data.fields.named),
    }
}

// Returns the numbers of an item's kind, and of the form of its fields.
fn kind_of(data: &Data) -> (usize, usize)
    ensures kind { result.0 ≡ spec.data_kind (data_form data.now) }
    ensures number { result.1 ≡ spec.data_number (data_form data.now) }
{
    match data {
        Data::Struct(data) => (STRUCT, number_of(&data.fields)),
        Data::Enum(_) => (ENUM, 0),
        Data::Union(_) => (UNION, 2),
    }
}

fn item_row(input: &DeriveInput) -> Row
    ensures { result ≡ spec.item_row (input_form input.now) }
{
    let (kind, form) = kind_of(&input.data);
    Row {
        kind,
        form,
        attributes: input.attrs.len(),
        name: of_ident(&input.ident),
        visibility: of_visibility(&input.vis),
        value: of_tokens(&input.generics.params),
    }
}

// Appends the table of an item.
fn push_item(rows: &mut Vec<Row>, input: &DeriveInput) -> Result<(), AllocError>
    ensures { OnOk result (rows.new.items ≡ rows.old.items ++ spec.table (input_form input.now)) }
{
    rows.push(item_row(input))?;
    push_attributes(rows, &input.attrs)?;
    push_clause(rows, &input.generics.where_clause)?;
    push_data(rows, &input.data)
}

/// Returns an answer that contains the table of a struct, an enum or a union.
///
/// Returns an error if an allocation fails.
pub fn tabulate(alloc: Global, input: &DeriveInput) -> Result<Answer<Row>, AllocError>
    ensures { IfOk result (λ a. answered a ≡ spec.given_table (input_form input.now)) }
{
    let mut answer = Answer::new(alloc);
    push_item(&mut answer.values, input)?;
    Ok(answer)
}

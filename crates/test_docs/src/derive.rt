//! Examples of `syn_derive`.
use std::alloc::Global;
use std::num::Saturating;
use syn_derive::{Attribute, Data, DeriveInput, Fields, Visibility};
use syn_parse::{ParseStream, Parser, Result, parse_str};
use syn_punctuated::Punctuated;
use tok_core::Ident;
use tok_types::token;

fn argument(input: ParseStream<'_, '_>) -> Result<bool> {
    let alloc = input.allocator();
    let attribute: Attribute = input.parse()?;
    let name: Ident = attribute.parse_args(alloc)?;
    Ok(name.as_str() == "b")
}

fn arguments(input: ParseStream<'_, '_>) -> Result<usize> {
    let alloc = input.allocator();
    let attribute: Attribute = input.parse()?;
    let names: Punctuated<Ident, token::Comma> = attribute.parse_args_with(
        alloc,
        Punctuated::parse_terminated,
    )?;
    Ok(names.len())
}

fn nested(input: ParseStream<'_, '_>) -> Result<bool> {
    let alloc = input.allocator();
    let attribute: Attribute = input.parse()?;
    let metas = attribute.parse_nested_meta(alloc)?;
    let is_default = metas
        .first()
        .is_some_and(|meta| meta.path().is_ident("default"));
    Ok(is_default)
}

// Counts the public fields of a struct.
fn public_fields(alloc: Global) -> Result<usize> {
    let mut count = Saturating(0_usize);
    let input: DeriveInput = parse_str(alloc, "struct Point { pub x: u8, y: u8 }")?;
    if let Data::Struct(data) = &input.data
        && let Fields::Named(fields) = &data.fields
    {
        for field in fields.named.iter() {
            if let Visibility::Public(_) = &field.vis {
                count += 1;
            }
        }
    }
    Ok(count.0)
}

// Counts the public fields of any struct.
fn any_public_fields(alloc: Global, text: &str) -> Result<usize> {
    let mut count = Saturating(0_usize);
    let input: DeriveInput = parse_str(alloc, text)?;
    if let Data::Struct(data) = &input.data {
        for field in data.fields.iter() {
            if let Visibility::Public(_) = &field.vis {
                count += 1;
            }
        }
    }
    Ok(count.0)
}

#[test]
fn inputs(rt: HostRuntime) {
    let alloc = rt.alloc();
    assert_eq!(rt; public_fields(alloc).ok(), Some(1));
    assert_eq!(rt;
        any_public_fields(alloc, "struct A(pub u8, u8, pub u8);").ok(),
        Some(2)
    );
    assert_eq!(rt;
        any_public_fields(alloc, "struct A { x: u8, pub y: u8 }").ok(),
        Some(1)
    );
    assert_eq!(rt; any_public_fields(alloc, "struct A;").ok(), Some(0));
}

#[test]
fn attributes(rt: HostRuntime) {
    let alloc = rt.alloc();
    assert_eq!(rt; argument.parse_str(alloc, "#[a(b)]").ok(), Some(true));
    assert_eq!(rt; arguments.parse_str(alloc, "#[a(b, c)]").ok(), Some(2));
    assert_eq!(rt;
        nested.parse_str(alloc, "#[a(default, b = 1)]").ok(),
        Some(true)
    );
}

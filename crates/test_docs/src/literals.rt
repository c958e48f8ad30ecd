//! Examples of `syn_literals`.
use syn_literals::{LitBool, LitInt, LitStr, SignedInt, signed_int_value};
use syn_parse::{Fault, ParseStream, Parser, Result};

fn path(input: ParseStream<'_, '_>) -> Result<bool> {
    let path: LitStr = input.parse()?;
    let path = path.value(input.allocator())?;
    Ok(path.is_some_and(|path| path.as_str() == "a/b"))
}

fn size(input: ParseStream<'_, '_>) -> Result<u64> {
    let literal: LitInt = input.parse()?;
    match literal.value() {
        Ok(integer) => Ok(integer.value),
        Err(fault) => Err(Fault::at(input.allocator(), literal.span(), fault)),
    }
}

fn offset(input: ParseStream<'_, '_>) -> Result<i128> {
    let alloc = input.allocator();
    let number = input.parse::<SignedInt>()?;
    match signed_int_value(&number) {
        Ok(value) => Ok(value),
        Err(fault) => Err(Fault::at(alloc, number.1.span(), fault)),
    }
}

fn visibility(input: ParseStream<'_, '_>) -> Result<bool> {
    let is_public = input.parse::<LitBool>()?.value;
    Ok(is_public)
}

#[test]
fn literals(rt: HostRuntime) {
    let alloc = rt.alloc();
    assert_eq!(rt; path.parse_str(alloc, "\"a/b\"").ok(), Some(true));
    assert_eq!(rt; size.parse_str(alloc, "8_080").ok(), Some(8080));
    assert_eq!(rt; offset.parse_str(alloc, "-5i32").ok(), Some(-5));
    assert_eq!(rt; visibility.parse_str(alloc, "true").ok(), Some(true));
}

//! Examples of `tok_types`.
use std::alloc::{AllocError, AllocGlobal, Global};
use std::process::Abort;
use tok_buffer::TokenBuffer;
use tok_core::{LexFault, ToTokens, TokenStream};
use tok_types::accept_as_ident;
use tok_types::token::{self, Token};

#[test]
fn texts(rt: HostRuntime) {
    assert_eq!(rt; accept_as_ident("name"), true);
    assert_eq!(rt; accept_as_ident("union"), true);
    assert_eq!(rt; accept_as_ident("fn"), false);
}

fn peeks(rt: &(impl Abort + AllocGlobal), alloc: Global) -> Result<(), LexFault> {
    let buffer = TokenBuffer::from_text(alloc, 0, 0, "fn a::b")?;
    assert_eq!(rt; token::Fn::peek(buffer.begin()), true);
    assert_eq!(rt; token::PathSep::display(), "`::`");
    Ok(())
}

fn surrounds(rt: &(impl Abort + AllocGlobal), alloc: Global) -> Result<(), AllocError> {
    let mut tokens = TokenStream::new(alloc);
    token::Paren::default().surround(&mut tokens, |inside| {
        token::Comma::default().to_tokens(inside)
    })?;
    assert_eq!(rt; format!(in alloc; "{tokens}")?.as_str(), "(,)");
    Ok(())
}

#[test]
fn tokens(rt: HostRuntime) {
    assert!(rt; peeks(&rt, rt.alloc()).is_ok());
    assert!(rt; surrounds(&rt, rt.alloc()).is_ok());
}

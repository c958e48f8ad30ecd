//! The calls of `tok_types`.
use crate::trees::{pluses, writes};
use std::alloc::{AllocError, Global};
use test_outcomes::memory::{Outcome, ended, worst};
use tok_core::{Span, ToTokens, TokenStream};
use tok_types::token;

/// Makes each call.
pub fn calls(alloc: Global) -> Outcome {
    let span = Span::call_site();
    worst(&[
        writes(alloc, &token::Fn::new(span)),
        writes(alloc, &token::Underscore::from_span(span)),
        writes(alloc, &token::DotDotEq::from_span(span)),
        idents(alloc),
        groups(alloc),
    ])
}

fn write_name(inside: &mut TokenStream) -> Result<(), AllocError> {
    token::Crate::new(Span::call_site()).to_tokens(inside)
}

fn groups(alloc: Global) -> Outcome {
    let span = Span::call_site();
    let mut tokens = pluses(alloc)?;
    let outcomes = [
        ended(token::Paren::from_span(span).surround(&mut tokens, write_name)),
        ended(token::Brace::from_span(span).surround(&mut tokens, write_name)),
        ended(token::Bracket::from_span(span).surround(&mut tokens, write_name)),
        ended(token::Group::from_span(span).surround(&mut tokens, write_name)),
    ];
    worst(&outcomes)
}

fn idents(alloc: Global) -> Outcome {
    let span = Span::call_site();
    worst(&[
        ended(token::SelfValue::new(span).into_ident(alloc)),
        ended(token::SelfType::new(span).into_ident(alloc)),
        ended(token::Super::new(span).into_ident(alloc)),
        ended(token::Crate::new(span).into_ident(alloc)),
        ended(token::Extern::new(span).into_ident(alloc)),
        ended(token::Underscore::from_span(span).into_ident(alloc)),
    ])
}

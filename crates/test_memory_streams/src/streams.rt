//! The calls of `syn_parse`, and some that don't allocate.
mod choices;
pub mod free;
mod groups;
mod lists;
mod literals;
mod looks;
mod loops;
mod own;
mod visible;
mod whole;

use own::{AnyIdent, AnyLifetime, LongWord, Plus, Target, Word};
use std::alloc::Global;
use syn_parse::{Fault, IdentExt, Own, Parse, tokens_to_parse_buffer};
use test_outcomes::memory::{Outcome, Stop, ended, made, rejected, told, worst};
use tok_buffer::{Lifetime, TokenBuffer};
use tok_core::{Group, Ident, Literal, Punct, Span, ToTokens, TokenStream, TokenTree};
use tok_types::token;

/// Makes each call.
pub fn calls(alloc: Global) -> Outcome {
    worst(&[
        values(alloc),
        unraw(alloc),
        own_word(alloc),
        choices::calls(alloc),
        errors_of_trees(alloc),
        errors_of_tokens(alloc),
        groups::calls(alloc),
        lists::calls(alloc),
        literals::calls(alloc),
        loops::calls(alloc),
        looks::calls(alloc),
        visible::calls(alloc),
        whole::calls(alloc),
    ])
}

fn laid(alloc: Global, text: &str) -> Result<TokenBuffer, Stop> {
    made(TokenBuffer::from_text(alloc, 0, 0, text))
}

fn parsed<T: Parse + Drop>(alloc: Global, buffer: &TokenBuffer) -> syn_parse::Result<T> {
    let mut input = tokens_to_parse_buffer(alloc, buffer, Span::call_site());
    let parsed = input.parse::<T>();
    input.finish_parsed(parsed)
}

// Parses a text that has one.
fn takes<T: Parse + Drop>(alloc: Global, text: &str) -> Outcome {
    let buffer = laid(alloc, text)?;
    ended(parsed::<T>(alloc, &buffer))
}

// Parses a text that has none.
fn rejects<T: Parse + Drop>(alloc: Global, text: &str, call: &'static str) -> Outcome {
    let buffer = laid(alloc, text)?;
    rejected(parsed::<T>(alloc, &buffer), call)
}

fn values(alloc: Global) -> Outcome {
    worst(&[
        takes::<Ident>(alloc, "abcdefghijklmnop"),
        takes::<Lifetime>(alloc, "'abcdefghijklmnop"),
        takes::<Literal>(alloc, "\"abcdefghijklmnop\""),
        takes::<Group>(alloc, "(a)"),
        takes::<TokenTree>(alloc, "[1]"),
        takes::<TokenStream>(alloc, "a (1)"),
        takes::<Option<Ident>>(alloc, "a"),
        takes::<Box<token::Fn>>(alloc, "fn"),
        takes::<AnyIdent>(alloc, "fn"),
        takes::<AnyLifetime>(alloc, "'fn"),
    ])
}

fn unraw(alloc: Global) -> Outcome {
    let raw = made(Ident::new_raw(alloc, "abcdefghijklmnop", Span::call_site()))?;
    ended(IdentExt::unraw(&raw, alloc))
}

fn own_word(alloc: Global) -> Outcome {
    let mut tokens = TokenStream::new(alloc);
    ended(Own::<LongWord>::new(Span::call_site()).to_tokens(&mut tokens))
}

fn errors_of_trees(alloc: Global) -> Outcome {
    worst(&[
        rejects::<Ident>(alloc, "1", "Ident::parse"),
        rejects::<Ident>(alloc, "fn", "Ident::parse"),
        rejects::<Lifetime>(alloc, "1", "Lifetime::parse"),
        rejects::<Lifetime>(alloc, "'fn", "Lifetime::parse"),
        rejects::<Literal>(alloc, "a", "Literal::parse"),
        rejects::<Punct>(alloc, "a", "Punct::parse"),
        rejects::<Group>(alloc, "a", "Group::parse"),
        rejects::<TokenTree>(alloc, "", "TokenTree::parse"),
    ])
}

fn errors_of_tokens(alloc: Global) -> Outcome {
    worst(&[
        rejects::<AnyIdent>(alloc, "1", "Ident::parse_any"),
        rejects::<AnyLifetime>(alloc, "1", "Lifetime::parse_any"),
        rejects::<token::Fn>(alloc, "a", "Keyword::parse"),
        rejects::<token::Comma>(alloc, "a", "Punctuation::parse"),
        rejects::<token::Underscore>(alloc, "a", "Underscore::parse"),
        rejects::<Word>(alloc, "a", "parsing::keyword"),
        rejects::<Target>(alloc, "a", "ParseBuffer::parse_word"),
        rejects::<Plus>(alloc, "a", "parsing::punct"),
        rejects::<Own<LongWord>>(alloc, "a", "Own::parse"),
        told(Fault::at(alloc, Span::call_site(), "an error at this span")),
        told(combined(alloc)),
    ])
}

fn combined(alloc: Global) -> Fault {
    let mut fault = Fault::at(alloc, Span::call_site(), "an error at this span");
    fault.combine(Fault::at(alloc, Span::call_site(), "another one"));
    fault
}

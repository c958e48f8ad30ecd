//! Finds trees, lifetimes, delimiters and the end, and displays them.
use super::{all_hold, is_found, is_token};
use tok_buffer::Lifetime;
use tok_core::{Group, Ident, Literal, Punct, TokenTree};
use tok_types::token::{self, Token};
use tok_types::{End, IdentAny};

#[test]
fn underscore(rt: HostRuntime) {
    let alloc = rt.alloc();
    all_hold(
        &rt,
        &[
            is_token::<token::Underscore>(alloc, "_", "__"),
            is_found::<token::Underscore>(alloc, "«_»", "a"),
        ],
    );
}

#[test]
fn idents_and_lifetimes(rt: HostRuntime) {
    let alloc = rt.alloc();
    all_hold(
        &rt,
        &[
            is_found::<Ident>(alloc, "«a»", "fn"),
            is_found::<Ident>(alloc, "r#fn", "_"),
            is_found::<Ident>(alloc, "union", "true"),
            is_found::<IdentAny>(alloc, "«fn»", "+"),
            is_found::<IdentAny>(alloc, "_", "'a"),
            is_found::<Lifetime>(alloc, "'«a»", "' a"),
            is_found::<Lifetime>(alloc, "'fn", "a"),
        ],
    );
}

#[test]
fn trees(rt: HostRuntime) {
    let alloc = rt.alloc();
    all_hold(
        &rt,
        &[
            is_found::<Literal>(alloc, "«1»", "a"),
            is_found::<Punct>(alloc, "«+»", "'a"),
            is_found::<Group>(alloc, "«»", "a (b)"),
            is_found::<Group>(alloc, "(a)", ""),
            is_found::<TokenTree>(alloc, "«»", ""),
            is_found::<End>(alloc, "", "«»"),
        ],
    );
}

#[test]
fn delimiters(rt: HostRuntime) {
    let alloc = rt.alloc();
    all_hold(
        &rt,
        &[
            is_found::<token::Paren>(alloc, "«(a)»", "{a}"),
            is_found::<token::Brace>(alloc, "«{a}»", "[a]"),
            is_found::<token::Bracket>(alloc, "«[a]»", "(a)"),
            is_found::<token::Group>(alloc, "«(a)»", "(«a»)"),
        ],
    );
}

#[test]
fn displays(rt: HostRuntime) {
    all_hold(
        &rt,
        &[
            Ident::display() == "identifier",
            IdentAny::display() == "identifier",
            Lifetime::display() == "lifetime",
            Literal::display() == "literal",
            Punct::display() == "punctuation token",
            Group::display() == "group token",
            TokenTree::display() == "token",
            End::display() == "`)`",
        ],
    );
}

#[test]
fn displays_of_tokens(rt: HostRuntime) {
    all_hold(
        &rt,
        &[
            token::Paren::display() == "parentheses",
            token::Brace::display() == "curly braces",
            token::Bracket::display() == "square brackets",
            token::Group::display() == "invisible group",
            token::Underscore::display() == "`_`",
        ],
    );
}

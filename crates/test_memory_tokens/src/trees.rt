//! The calls of `tok_core`.
use std::alloc::{AllocError, Global};
use std::ffi::CStr;
use test_outcomes::memory::{Outcome, Stop, ended, made, worst};
use tok_core::{
    Edition, Group, Ident, IntegerType, Literal, Punct, Spacing, Span, Text, ToTokens, TokenStream,
    TokenTree, lex, lex_marked, lex_source, same_visible,
};

/// Makes each call.
pub fn calls(alloc: Global) -> Outcome {
    worst(&[
        ended(Ident::new(alloc, NAME, Span::call_site())),
        idents(alloc),
        literals(alloc),
        ended(Literal::new(alloc, "123456789_012i64", Span::call_site())),
        trees(alloc),
        extends(alloc),
        c_string(alloc),
        texts(alloc),
        appends(alloc),
        streams(alloc),
        same(alloc),
        reads(alloc),
    ])
}

// Longer than a `Text` stores in place, so that each allocates.
const NAME: &str = "abcdefghijklmnop";

// Longer than the texts that a `Text` stores in one allocation.
const LONG_NAME: &str = "abcdefghijklmnopqrstuvwxyzabcdefghijklmnopqrstuvwxyz";

/// One name in a text so long that it gets room for its trees at once, and more than it needs.
pub const SPARSE: &str = "a /* abcdefghijklmnopqrstuvwxyzabcdefghijklmnopqrstuvwxyzabcdefghijklm \
    abcdefghijklmnopqrstuvwxyzabcdefghijklmnopqrstuvwxyzabcdefghijklmnopqrstuvwxyz \
    abcdefghijklmnopqrstuvwxyzabcdefghijklmnopqrstuvwxyzabcdefghijklmnopqrstuvwxyz \
    abcdefghijklmnopqrstuvwxyzabcdefghijklmnopqrstuvwxyzabcdefghijklmnopqrstuv */";

fn idents(alloc: Global) -> Outcome {
    let ident = made(Ident::new_raw(alloc, NAME, Span::call_site()))?;
    let outcomes = [
        ended::<_, AllocError>(ident.clone()),
        ended(ident.to_text()),
        ended(ident.unraw(alloc)),
        writes(alloc, &ident),
        ended(ident.to_token_stream(alloc)),
        ended(ident.into_token_stream(alloc)),
    ];
    worst(&outcomes)
}

fn literals(alloc: Global) -> Outcome {
    let literal = made(Literal::string(alloc, "abcdefghijklm\n"))?;
    worst(&[
        ended::<_, AllocError>(literal.clone()),
        ended(literal.to_text()),
        writes(alloc, &literal),
        ended(Literal::doc_comment(alloc, "abcdefghij\u{301}")),
        ended(Literal::character(alloc, 'é')),
        ended(Literal::byte_character(alloc, 0xFF)),
        ended(Literal::byte_string(alloc, b"abcdefghijklm\n")),
        ended(Literal::integer_unsuffixed(alloc, u128::MAX)),
        ended(Literal::integer_suffixed(alloc, u128::MAX, IntegerType::U128)),
    ])
}

fn c_string(alloc: Global) -> Outcome {
    match CStr::from_bytes_with_nul(b"abcdefghijklm\n\0") {
        Ok(text) => ended(Literal::c_string(alloc, text)),
        Err(_) => Err(Stop::Wrong("CStr::from_bytes_with_nul")),
    }
}

fn texts(alloc: Global) -> Outcome {
    worst(&[text(alloc, NAME), text(alloc, LONG_NAME), roomy(alloc)])
}

fn text(alloc: Global, words: &str) -> Outcome {
    let text = made(Text::from_str(alloc, words))?;
    worst(&[
        ended::<_, AllocError>(text.clone()),
        ended(Text::from_front(alloc, words, words)),
        from_string(alloc, words),
    ])
}

fn from_string(alloc: Global, words: &str) -> Outcome {
    let text = made(String::from_str(alloc, words))?;
    ended(Text::from_string(alloc, text))
}

// A text with much unused room is copied, not shared.
fn roomy(alloc: Global) -> Outcome {
    let mut words = made(String::with_capacity(alloc, 1_000))?;
    made(words.push_str(LONG_NAME))?;
    let text = made(Text::from_string(alloc, words))?;
    ended::<_, AllocError>(text.clone())
}

/// Returns a plus.
pub fn plus() -> Result<Punct, Stop> {
    Punct::new('+', Spacing::Alone).ok_or(Stop::Wrong("Punct::new"))
}

/// Returns four pluses: a stream's first allocation has room for so many.
pub fn pluses(alloc: Global) -> Result<TokenStream, Stop> {
    let mut stream = TokenStream::new(alloc);
    for _ in 0..4 {
        made(stream.append(TokenTree::Punct(plus()?)))?;
    }
    Ok(stream)
}

// Appends a plus more, for which the stream grows.
fn appends(alloc: Global) -> Outcome {
    writes(alloc, &plus()?)
}

/// Writes a value after four pluses.
pub fn writes<T: ToTokens>(alloc: Global, value: &T) -> Outcome {
    let mut tokens = pluses(alloc)?;
    ended(value.to_tokens(&mut tokens))
}

fn trees(alloc: Global) -> Outcome {
    ended(TokenStream::from_trees(alloc, [plus()?.into()]))
}

// Extends four pluses by four more, for which the stream grows.
fn extends(alloc: Global) -> Outcome {
    let mut stream = pluses(alloc)?;
    let more = pluses(alloc)?;
    ended(stream.extend(more))
}

fn streams(alloc: Global) -> Outcome {
    let stream = made(lex(alloc, 0, "{abcdefghijklmnop} +"))?;
    worst(&[
        ended::<_, AllocError>(stream.clone()),
        writes(alloc, &stream),
        ended(stream.to_string(alloc)),
        first_tree(alloc, &stream),
    ])
}

fn first_tree(alloc: Global, stream: &TokenStream) -> Outcome {
    match stream.trees() {
        [tree, ..] => worst(&[
            ended::<_, AllocError>(tree.clone()),
            writes(alloc, tree),
            group_of(alloc, tree),
        ]),
        [] => Err(Stop::Wrong("lex")),
    }
}

fn group_of(alloc: Global, tree: &TokenTree) -> Outcome {
    match tree {
        TokenTree::Group(group) => of_group(alloc, group),
        _ => Err(Stop::Wrong("lex")),
    }
}

fn of_group(alloc: Global, group: &Group) -> Outcome {
    worst(&[ended::<_, AllocError>(group.clone()), writes(alloc, group)])
}

// More groups than the call keeps without an allocation.
fn same(alloc: Global) -> Outcome {
    let deep = made(lex_marked(alloc, 0, "«««««+»»»»»"))?;
    ended(same_visible(alloc, &deep, &deep))
}

fn reads(alloc: Global) -> Outcome {
    let source = "#!x\n/// abcdefghijklmnop\nb";
    worst(&[
        ended(lex(
            alloc,
            0,
            "abcdefghijklmnop += ('b [{1}] \"abcdefghijklmnop\")",
        )),
        ended(lex_marked(alloc, 0, "«a «()» +»")),
        ended(lex_source(alloc, Edition::default(), 0, source)),
        ended(lex(alloc, 0, SPARSE)),
        ended(TokenStream::with_capacity(alloc, 2)),
    ])
}

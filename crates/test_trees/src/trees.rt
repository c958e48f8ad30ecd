//! Joins spans, and prints, compares, writes and moves trees and streams.
use std::alloc::{AllocGlobal, Global};
use std::cmp::Ordering;
use std::hash::{DefaultHasher, Hash, Hasher};
use std::process::Abort;
use tok_core::{
    DelimSpan, Delimiter, Group, Ident, Literal, Punct, Spacing, Span, ToTokens, TokenStream,
    TokenStreamHelper, TokenTree, TokenTreeHelper, is_clear, is_filled, lex_marked, same_visible,
};

// Returns the span of a source, a start and an end, or the call site.
fn span(range: Option<(u32, usize, usize)>) -> Span {
    match range {
        Some((number, start, end)) => {
            if start <= end {
                Span::source(number, start, end)
            } else {
                Span::call_site()
            }
        }
        None => Span::call_site(),
    }
}

// Checks the ranges of two spans, and the span that covers both, if any.
fn all_joined(
    rt: &impl Abort,
    rows: &[(
        Option<(u32, usize, usize)>,
        Option<(u32, usize, usize)>,
        Option<(u32, usize, usize)>,
    )],
) {
    for (left, right, wanted) in rows {
        assert_eq!(rt; span(*left).as_range(), *left);
        assert_eq!(rt; span(*right).as_range(), *right);
        let joined = span(*left).join(span(*right));
        assert_eq!(rt; joined.is_some(), wanted.is_some());
        assert_eq!(rt; joined.unwrap_or(Span::call_site()), span(*wanted));
    }
}

#[test]
fn joins_spans(rt: HostRuntime) {
    all_joined(
        &rt,
        &[
            (Some((1, 0, 2)), Some((1, 5, 6)), Some((1, 0, 6))),
            (Some((1, 5, 6)), Some((1, 0, 2)), Some((1, 0, 6))),
            (Some((1, 0, 2)), Some((2, 5, 6)), None),
            (Some((1, 0, 2)), None, None),
            (None, Some((1, 0, 2)), None),
        ],
    );
}

// Checks the opening and the closing span of a group at each of these spans.
fn all_delimited(
    rt: &impl Abort,
    rows: &[(
        Option<(u32, usize, usize)>,
        Option<(u32, usize, usize)>,
        Option<(u32, usize, usize)>,
    )],
) {
    for (whole, open, close) in rows {
        let found = DelimSpan::new(span(*whole));
        assert_eq!(rt; found.join(), span(*whole));
        assert_eq!(rt; found.open(), span(*open));
        assert_eq!(rt; found.close(), span(*close));
    }
}

#[test]
fn tells_spans_of_delimiters(rt: HostRuntime) {
    all_delimited(
        &rt,
        &[
            (Some((0, 4, 10)), Some((0, 4, 5)), Some((0, 9, 10))),
            (Some((0, 4, 4)), Some((0, 4, 4)), Some((0, 4, 4))),
            (None, None, None),
        ],
    );
}

fn read(alloc: Global, text: &str) -> Option<TokenStream> {
    lex_marked(alloc, 0, text).ok()
}

fn push_name(alloc: Global, tokens: &mut TokenStream, text: &str, start: usize) -> Option<()> {
    let end = start.saturating_add(text.len());
    let ident = Ident::new(alloc, text, Span::source(0, start, end)).ok()?;
    tokens.append(TokenTree::Ident(ident)).ok()
}

fn push_punct(tokens: &mut TokenStream, ch: char, spacing: Spacing, start: usize) -> Option<()> {
    let span = Span::source(0, start, start.saturating_add(1));
    let punct = Punct::new_spanned(ch, spacing, span)?;
    tokens.append(TokenTree::Punct(punct)).ok()
}

fn push_group(
    tokens: &mut TokenStream,
    delimiter: Delimiter,
    stream: TokenStream,
    span: Span,
) -> Option<()> {
    let group = Group::new(delimiter, stream, span);
    tokens.append(TokenTree::Group(group)).ok()
}

// Makes `c` by hand.
fn inner(alloc: Global) -> Option<TokenStream> {
    let mut tokens = TokenStream::new(alloc);
    push_name(alloc, &mut tokens, "c", 5)?;
    Some(tokens)
}

// Makes `b «c»` by hand.
fn outer(alloc: Global) -> Option<TokenStream> {
    let mut tokens = TokenStream::new(alloc);
    push_name(alloc, &mut tokens, "b", 3)?;
    push_group(
        &mut tokens,
        Delimiter::None,
        inner(alloc)?,
        Span::source(0, 5, 6),
    )?;
    Some(tokens)
}

// Makes `a (b «c») +=` by hand.
fn by_hand(alloc: Global) -> Option<TokenStream> {
    let mut tokens = TokenStream::new(alloc);
    push_name(alloc, &mut tokens, "a", 0)?;
    let span = Span::source(0, 2, 7);
    push_group(&mut tokens, Delimiter::Parenthesis, outer(alloc)?, span)?;
    push_punct(&mut tokens, '+', Spacing::Joint, 8)?;
    push_punct(&mut tokens, '=', Spacing::Alone, 9)?;
    Some(tokens)
}

// A stream that is made by hand, or read from a text.
enum From<'a> {
    Hand,
    Text(&'a str),
}

fn made(alloc: Global, from: &From<'_>) -> Option<TokenStream> {
    match from {
        From::Hand => by_hand(alloc),
        From::Text(text) => read(alloc, text),
    }
}

fn is_text(alloc: Global, tokens: &TokenStream, wanted: &str) -> Option<bool> {
    let text = tokens.to_string(alloc).ok()?;
    Some(text.as_str() == wanted)
}

fn is_printed(alloc: Global, from: &From<'_>, wanted: &str) -> Option<bool> {
    let tokens = made(alloc, from)?;
    is_text(alloc, &tokens, wanted)
}

fn is_copied(alloc: Global, from: &From<'_>, wanted: &str) -> Option<bool> {
    let tokens = made(alloc, from)?;
    let copy = tokens.clone().ok()?;
    is_text(alloc, &copy, wanted)
}

// Returns the weight of a stream, the number of its trees, and whether it is empty.
fn sizes(alloc: Global, from: &From<'_>) -> Option<(usize, usize, bool)> {
    let tokens = made(alloc, from)?;
    let (weight, is_empty) = (tokens.weight(), tokens.is_empty());
    Some((weight, tokens.into_trees().len(), is_empty))
}

fn all_printed(rt: &(impl Abort + AllocGlobal), rows: &[(From<'_>, &str, (usize, usize, bool))]) {
    for (from, text, wanted) in rows {
        assert_eq!(rt; is_printed(rt.alloc(), from, text), Some(true), "at {text}");
        assert_eq!(rt; is_copied(rt.alloc(), from, text), Some(true), "at {text}");
        assert_eq!(rt; sizes(rt.alloc(), from), Some(*wanted), "at {text}");
    }
}

#[test]
fn prints_streams(rt: HostRuntime) {
    all_printed(
        &rt,
        &[
            (From::Hand, "a (b «c») +=", (9, 4, false)),
            (From::Text(" a(b«c»)+="), "a (b «c») +=", (9, 4, false)),
            (From::Text("(x)[]{}«»"), "(x) [] {} «»", (9, 4, false)),
            (From::Text(""), "", (0, 0, true)),
        ],
    );
}

fn is_visible_of(alloc: Global, left: &TokenStream, right: &str) -> Option<bool> {
    let right = read(alloc, right)?;
    same_visible(alloc, left, &right).ok()
}

// Returns `true` if two texts have the same visible trees.
fn is_same_visible(alloc: Global, left: &str, right: &str) -> Option<bool> {
    let left = read(alloc, left)?;
    is_visible_of(alloc, &left, right)
}

fn all_visible(rt: &(impl Abort + AllocGlobal), rows: &[(&str, &str, bool)]) {
    for (left, right, wanted) in rows {
        let found = is_same_visible(rt.alloc(), left, right);
        assert_eq!(rt; found, Some(*wanted), "at {left}");
    }
}

#[test]
fn compares_visible_trees(rt: HostRuntime) {
    all_visible(
        &rt,
        &[
            ("a «»", "a", true),
            ("«a» («b» «c»)", "a (b «c»)", true),
            ("a", " a", false),
            ("(a)", "[a]", false),
            ("a b", "a", false),
            ("+=", "+ =", false),
        ],
    );
}

// Returns the results of `is_filled` and `is_clear`.
fn filled_and_clear(alloc: Global, text: &str) -> Option<(bool, bool)> {
    let tokens = read(alloc, text)?;
    Some((is_filled(&tokens), is_clear(&tokens)))
}

fn all_filled_and_clear(rt: &(impl Abort + AllocGlobal), rows: &[(&str, bool, bool)]) {
    for (text, filled, clear) in rows {
        let found = filled_and_clear(rt.alloc(), text);
        assert_eq!(rt; found, Some((*filled, *clear)), "at {text}");
    }
}

#[test]
fn tells_filled_and_clear_streams(rt: HostRuntime) {
    all_filled_and_clear(
        &rt,
        &[
            ("", true, true),
            ("a «»", false, true),
            ("(«()» «»)", false, true),
            ("(«()» ««a»»)", true, true),
            ("«'»a", true, false),
            ("('«a»)", true, false),
            ("«' »a 'b", true, true),
        ],
    );
}

fn hash_of<T: Hash>(value: &T) -> u64 {
    let mut state = DefaultHasher::new();
    value.hash(&mut state);
    state.finish()
}

// Compares two streams without their spans, and their hashes.
fn alike_to(alloc: Global, left: &TokenStream, right: &str) -> Option<(bool, bool)> {
    let right = read(alloc, right)?;
    let (one, other) = (TokenStreamHelper(left), TokenStreamHelper(&right));
    Some((one == other, hash_of(&one) == hash_of(&other)))
}

fn alike(alloc: Global, left: &str, right: &str) -> Option<(bool, bool)> {
    let left = read(alloc, left)?;
    alike_to(alloc, &left, right)
}

// Compares the first trees of two streams without their spans, and their hashes.
fn first_alike_to(alloc: Global, left: &TokenStream, right: &str) -> Option<(bool, bool)> {
    let right = read(alloc, right)?;
    let one = TokenTreeHelper(left.trees().first()?);
    let other = TokenTreeHelper(right.trees().first()?);
    Some((one == other, hash_of(&one) == hash_of(&other)))
}

fn first_alike(alloc: Global, left: &str, right: &str) -> Option<(bool, bool)> {
    let left = read(alloc, left)?;
    first_alike_to(alloc, &left, right)
}

// Checks whether texts are equal without their spans, and whether their first trees are.
fn all_alike(rt: &(impl Abort + AllocGlobal), rows: &[(&str, &str, bool, bool)]) {
    for (left, right, wanted, first) in rows {
        let found = alike(rt.alloc(), left, right);
        assert_eq!(rt; found, Some((*wanted, *wanted)), "at {left}");
        let found = first_alike(rt.alloc(), left, right);
        assert_eq!(rt; found, Some((*first, *first)), "at {left}");
    }
}

#[test]
fn compares_without_spans(rt: HostRuntime) {
    all_alike(
        &rt,
        &[
            (
                "a + 'b (\"c\" «1»)",
                "  a  +  'b  ( \"c\"  « 1 » )",
                true,
                true,
            ),
            ("a «b»", "a b", false, true),
            ("+=", "+ =", false, false),
            ("()", "[]", false, false),
            ("a", "       a", true, true),
            ("a", "b", false, false),
        ],
    );
}

fn write(alloc: Global, tokens: &mut TokenStream) -> Option<()> {
    by_hand(alloc)?.to_tokens(tokens).ok()?;
    Literal::string(alloc, "q").ok()?.to_tokens(tokens).ok()?;
    Punct::new(',', Spacing::Alone)?.to_tokens(tokens).ok()
}

fn is_written(alloc: Global, wanted: &str) -> Option<bool> {
    let mut tokens = read(alloc, "x")?;
    write(alloc, &mut tokens)?;
    is_text(alloc, &tokens, wanted)
}

#[test]
fn writes_tokens(rt: HostRuntime) {
    let found = is_written(rt.alloc(), "x a (b «c») += \"q\" ,");
    assert_eq!(rt; found, Some(true));
}

fn tree_alone(alloc: Global) -> Option<TokenStream> {
    let tree = TokenTree::Ident(Ident::new(alloc, "a", Span::call_site()).ok()?);
    tree.to_token_stream(alloc).ok()
}

fn ident_alone(alloc: Global) -> Option<TokenStream> {
    let ident = Ident::new_raw(alloc, "fn", Span::call_site()).ok()?;
    ident.into_token_stream(alloc).ok()
}

fn group_alone(alloc: Global) -> Option<TokenStream> {
    let group = Group::new(Delimiter::Brace, TokenStream::new(alloc), Span::call_site());
    group.into_token_stream(alloc).ok()
}

fn is_alone(alloc: Global, tokens: Option<TokenStream>, wanted: &str) -> Option<bool> {
    is_text(alloc, &tokens?, wanted)
}

#[test]
fn writes_values_alone(rt: HostRuntime) {
    let alloc = rt.alloc();
    assert_eq!(rt; is_alone(alloc, tree_alone(alloc), "a"), Some(true));
    assert_eq!(rt; is_alone(alloc, ident_alone(alloc), "r#fn"), Some(true));
    assert_eq!(rt; is_alone(alloc, group_alone(alloc), "{}"), Some(true));
}

// Makes `(a + b)` of trees, at the call site.
fn made_of_trees(alloc: Global) -> Option<TokenStream> {
    let left = Ident::new(alloc, "a", Span::call_site()).ok()?;
    let plus = Punct::new('+', Spacing::Alone)?;
    let right = Ident::new(alloc, "b", Span::call_site()).ok()?;
    let trees = [left.into(), plus.into(), right.into()];
    let inside = TokenStream::from_trees(alloc, trees).ok()?;
    let group = Group::at_call_site(Delimiter::Parenthesis, inside);
    TokenStream::from_trees(alloc, [group.into()]).ok()
}

// Appends the trees of a text to this stream.
fn extended(alloc: Global, stream: Option<TokenStream>, text: &str) -> Option<TokenStream> {
    let mut stream = stream?;
    stream.extend(read(alloc, text)?).ok()?;
    Some(stream)
}

fn none(alloc: Global) -> Option<TokenStream> {
    TokenStream::from_trees(alloc, []).ok()
}

#[test]
fn makes_streams_of_trees(rt: HostRuntime) {
    let alloc = rt.alloc();
    assert_eq!(rt; is_alone(alloc, none(alloc), ""), Some(true));
    assert_eq!(rt;
        is_alone(alloc, made_of_trees(alloc), "(a + b)"),
        Some(true)
    );
    let more = extended(alloc, made_of_trees(alloc), "c «d» 1");
    assert_eq!(rt; is_alone(alloc, more, "(a + b) c «d» 1"), Some(true));
    let all = extended(alloc, none(alloc), "c");
    assert_eq!(rt; is_alone(alloc, all, "c"), Some(true));
    let same = extended(alloc, made_of_trees(alloc), "");
    assert_eq!(rt; is_alone(alloc, same, "(a + b)"), Some(true));
}

fn span_of_made(alloc: Global) -> Option<Span> {
    let stream = TokenStream::new(alloc);
    Some(Group::at_call_site(Delimiter::Brace, stream).span())
}

#[test]
fn makes_groups_at_the_call_site(rt: HostRuntime) {
    let wanted = Some(Span::call_site());
    assert_eq!(rt; span_of_made(rt.alloc()), wanted);
}

// Returns the last tree of a text, moved to this span.
fn moved(alloc: Global, text: &str, span: Span) -> Option<TokenTree> {
    let mut trees = read(alloc, text)?.into_trees();
    let mut tree = trees.pop()?;
    tree.set_span(span);
    Some(tree)
}

fn span_of_moved(alloc: Global, text: &str, span: Span) -> Option<Span> {
    let tree = moved(alloc, text, span)?;
    Some(tree.span())
}

// Returns the delimiter of a group that was moved, its opening and closing spans, and the whole.
fn delimiters_of_moved(
    alloc: Global,
    text: &str,
    span: Span,
) -> Option<(Delimiter, Span, Span, Span)> {
    match moved(alloc, text, span)? {
        TokenTree::Group(group) => Some((
            group.delimiter(),
            group.span_open(),
            group.span_close(),
            group.delim_span().join(),
        )),
        _ => None,
    }
}

fn is_content_of_moved(alloc: Global, text: &str, span: Span, wanted: &str) -> Option<bool> {
    match moved(alloc, text, span)? {
        TokenTree::Group(group) => is_text(alloc, group.stream(), wanted),
        _ => None,
    }
}

// Checks the span of the last tree of each text after it is moved.
fn all_moved(rt: &(impl Abort + AllocGlobal), rows: &[&str]) {
    let span = Span::source(3, 1, 2);
    for text in rows {
        assert_eq!(rt;
            span_of_moved(rt.alloc(), text, span),
            Some(span),
            "at {text}"
        );
    }
}

#[test]
fn moves_trees(rt: HostRuntime) {
    all_moved(
        &rt,
        &[
            "a",
            "a (b «c»)",
            "a (b «c») +",
            "a (b «c») +=",
            "\"a\"",
            "«a»",
        ],
    );
}

// Checks the delimiter and the contents of a group after it is moved.
fn all_groups_moved(rt: &(impl Abort + AllocGlobal), rows: &[(&str, Delimiter, &str)]) {
    let span = Span::source(3, 1, 2);
    for (text, delimiter, content) in rows {
        let alloc = rt.alloc();
        let wanted = Some((*delimiter, span, span, span));
        assert_eq!(rt; delimiters_of_moved(alloc, text, span), wanted, "at {text}");
        let found = is_content_of_moved(alloc, text, span, content);
        assert_eq!(rt; found, Some(true), "at {text}");
    }
}

#[test]
fn moves_groups(rt: HostRuntime) {
    all_groups_moved(
        &rt,
        &[
            ("a (b «c»)", Delimiter::Parenthesis, "b «c»"),
            ("{a}", Delimiter::Brace, "a"),
        ],
    );
}

// Returns whether two identifiers are equal, their order, and whether their hashes are equal.
fn compared_to(alloc: Global, left: &Ident, right: &str) -> Option<(bool, Ordering, bool)> {
    let right = Ident::new(alloc, right, Span::source(3, 1, 2)).ok()?;
    Some((
        *left == right,
        left.partial_cmp(&right)?,
        hash_of(left) == hash_of(&right),
    ))
}

fn compared(alloc: Global, left: &str, right: &str) -> Option<(bool, Ordering, bool)> {
    let left = Ident::new(alloc, left, Span::call_site()).ok()?;
    compared_to(alloc, &left, right)
}

fn all_compared(rt: &(impl Abort + AllocGlobal), rows: &[(&str, &str, Ordering)]) {
    for (left, right, order) in rows {
        let equal = order.is_eq();
        let found = compared(rt.alloc(), left, right);
        assert_eq!(rt; found, Some((equal, *order, equal)), "at {left}");
    }
}

#[test]
fn compares_idents(rt: HostRuntime) {
    all_compared(
        &rt,
        &[
            ("a", "a", Ordering::Equal),
            ("a", "b", Ordering::Less),
            ("b", "a", Ordering::Greater),
        ],
    );
}

//! Tests of lists and pairs as tokens. A value is an empty group, and a separator one in brackets.
ghost use Rattle.tok_core.specs.Forest.{no_trees, tree};
ghost use Rattle.tok_core.specs.Seen.{group_of};

use std::alloc::{AllocError, AllocGlobal, Global};
use std::process::Abort;
use syn_punctuated::{Pair, Punctuated};
use tok_core::{Delimiter, Group, Span, ToTokens, TokenStream};

// A group whose allocation fails if it is invisible.
#[derive(Drop)]
struct Mark(Group);

impl ToTokens for Mark {
    ghost printed = { λ mark. tree (group_of mark.0) no_trees };

    fn to_tokens(&self, tokens: &mut TokenStream) -> Result<(), AllocError> {
        if self.0.delimiter() == Delimiter::None {
            return Err(AllocError);
        }
        self.0.to_tokens(tokens)
    }
}

type Marks = Punctuated<Mark, Mark>;

fn empty(alloc: Global, delimiter: Delimiter) -> Mark {
    Mark(Group::new(delimiter, TokenStream::new(alloc), Span::call_site()))
}

fn add(alloc: Global, list: &mut Marks, delimiter: Delimiter) -> Option<()> {
    if !list.empty_or_trailing() {
        list.push_punct(empty(alloc, Delimiter::Bracket)).ok()?;
    }
    if list.empty_or_trailing() {
        return list.push_value(empty(alloc, delimiter)).ok();
    }
    None
}

fn marks(alloc: Global, delimiters: &[Delimiter]) -> Option<Marks> {
    let mut list = Punctuated::new(alloc);
    for delimiter in delimiters {
        add(alloc, &mut list, *delimiter)?;
    }
    Some(list)
}

fn pair(alloc: Global, delimiter: Delimiter, is_last: bool) -> Pair<Mark, Mark> {
    let value = empty(alloc, delimiter);
    if is_last {
        Pair::End(value)
    } else {
        Pair::Punctuated(value, empty(alloc, Delimiter::Bracket))
    }
}

fn is_text(alloc: Global, tokens: &TokenStream, wanted: &str) -> Option<bool> {
    let text = format!(in alloc; "{tokens}").ok()?;
    Some(text.as_str() == wanted && tokens.is_empty() == wanted.is_empty())
}

// Returns `true` if the list is written so as a stream of its own.
fn is_stream(alloc: Global, delimiters: &[Delimiter], wanted: &str) -> Option<bool> {
    let tokens = marks(alloc, delimiters)?.to_token_stream(alloc).ok()?;
    is_text(alloc, &tokens, wanted)
}

fn is_pair_stream(alloc: Global, delimiter: Delimiter, wanted: &str) -> Option<bool> {
    let tokens = pair(alloc, delimiter, false).to_token_stream(alloc).ok()?;
    is_text(alloc, &tokens, wanted)
}

fn all_streams(rt: &(impl Abort + AllocGlobal), rows: &[(&[Delimiter], &str)]) {
    for (delimiters, wanted) in rows {
        let found = is_stream(rt.alloc(), delimiters, wanted);
        assert_eq!(rt; found, Some(true), "not {wanted}");
    }
}

fn all_pair_streams(rt: &(impl Abort + AllocGlobal), rows: &[(Delimiter, &str)]) {
    for (delimiter, wanted) in rows {
        let found = is_pair_stream(rt.alloc(), *delimiter, wanted);
        assert_eq!(rt; found, Some(true), "not {wanted}");
    }
}

#[test]
fn writes_values_and_separators_in_turn(rt: HostRuntime) {
    let three = [Delimiter::Parenthesis, Delimiter::Brace, Delimiter::Brace];
    all_streams(&rt, &[(&three, "() [] {} [] {}"), (&[], "")]);
}

#[test]
fn writes_a_pair(rt: HostRuntime) {
    all_pair_streams(&rt, &[(Delimiter::Brace, "{} []")]);
}

// Returns whether each of two pairs is written, the second without a separator.
fn write_pairs(
    alloc: Global,
    tokens: &mut TokenStream,
    first: Delimiter,
    last: Delimiter,
) -> [bool; 2] {
    [
        pair(alloc, first, false).to_tokens(tokens).is_ok(),
        pair(alloc, last, true).to_tokens(tokens).is_ok(),
    ]
}

fn write_list(alloc: Global, tokens: &mut TokenStream, delimiters: &[Delimiter]) -> Option<bool> {
    Some(marks(alloc, delimiters)?.to_tokens(tokens).is_ok())
}

// Writes braces, a list, and then a pair in braces and one in parentheses. Returns whether the list
// was written and whether the pairs were, and whether the tokens are then these.
fn written(
    alloc: Global,
    delimiters: &[Delimiter],
    wanted: &str,
) -> Option<(bool, [bool; 2], bool)> {
    let mut tokens = empty(alloc, Delimiter::Brace).to_token_stream(alloc).ok()?;
    let list = write_list(alloc, &mut tokens, delimiters)?;
    let pairs = write_pairs(alloc, &mut tokens, Delimiter::Brace, Delimiter::Parenthesis);
    Some((list, pairs, is_text(alloc, &tokens, wanted)?))
}

fn all_written(rt: &(impl Abort + AllocGlobal), rows: &[(&[Delimiter], bool, &str)]) {
    for (delimiters, is_written, wanted) in rows {
        let found = written(rt.alloc(), delimiters, wanted);
        assert_eq!(rt; found, Some((*is_written, [true; 2], true)), "not {wanted}");
    }
}

// If a value fails to be written, what came before stays.
#[test]
fn writes_after_what_is_there(rt: HostRuntime) {
    let whole = [Delimiter::Parenthesis, Delimiter::Brace, Delimiter::Brace];
    let failing = [Delimiter::Parenthesis, Delimiter::Brace, Delimiter::None];
    all_written(
        &rt,
        &[
            (&whole, true, "{} () [] {} [] {} {} [] ()"),
            (&failing, false, "{} () [] {} [] {} [] ()"),
        ],
    );
}

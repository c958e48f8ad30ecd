//! Replays of a text, and of streams that are built by hand.
use std::alloc::{AllocGlobal, Global};
use std::process::Abort;
use syn_tokens::{
    Answer, Command, Delimiter, Group, Ident, Kind, Report, Span, TokenStream, TokenTree, Verdict,
    lex_marked, replay,
};

// What is replayed.
enum Source<'a> {
    Nothing,
    Text(&'a str),
    // Two groups `(a)`, both at the call site.
    Twins,
}

// Returns the identifier `a`.
fn leaf(alloc: Global) -> Option<TokenStream> {
    let ident = Ident::new(alloc, "a", Span::call_site()).ok()?;
    let mut stream = TokenStream::new(alloc);
    stream.append(TokenTree::Ident(ident)).ok()?;
    Some(stream)
}

// Returns a group around a stream.
fn around(alloc: Global, delimiter: Delimiter, content: TokenStream) -> Option<TokenStream> {
    let group = Group::new(delimiter, content, Span::call_site());
    let mut stream = TokenStream::new(alloc);
    stream.append(TokenTree::Group(group)).ok()?;
    Some(stream)
}

// Returns groups around `a`, visible and invisible in turn, the outermost visible.
fn nested(alloc: Global, levels: usize) -> Option<TokenStream> {
    let mut stream = leaf(alloc)?;
    for level in 0..levels {
        let delimiter = if level % 2 == 0 {
            Delimiter::None
        } else {
            Delimiter::Parenthesis
        };
        stream = around(alloc, delimiter, stream)?;
    }
    Some(stream)
}

fn twins(alloc: Global) -> Option<TokenStream> {
    let mut stream = TokenStream::new(alloc);
    for _ in 0..2u32 {
        let group = Group::new(Delimiter::Parenthesis, leaf(alloc)?, Span::call_site());
        stream.append(TokenTree::Group(group)).ok()?;
    }
    Some(stream)
}

fn stream_of(alloc: Global, source: &Source<'_>) -> Option<TokenStream> {
    match source {
        Source::Nothing => Some(TokenStream::new(alloc)),
        Source::Text(text) => lex_marked(alloc, 0, text).ok(),
        Source::Twins => twins(alloc),
    }
}

fn replayed(alloc: Global, source: &Source<'_>, commands: &[Command]) -> Option<String> {
    let stream = stream_of(alloc, source)?;
    let report = replay(alloc, stream, commands).ok()?;
    format!(in alloc; "{report}").ok()
}

fn is_reported(alloc: Global, source: &Source<'_>, commands: &[Command], wanted: &str) -> bool {
    match replayed(alloc, source, commands) {
        Some(text) => text.as_str() == wanted,
        None => false,
    }
}

// Checks the printed report of each row.
fn all_reports(rt: &(impl Abort + AllocGlobal), rows: &[(Source<'_>, &[Command], &str)]) {
    for (source, commands, wanted) in rows {
        assert!(rt;
            is_reported(rt.alloc(), source, commands, wanted),
            "not {wanted}"
        );
    }
}

#[test]
fn reads_a_text(rt: HostRuntime) {
    all_reports(
        &rt,
        &[(
            Source::Text("(a «b»)"),
            &[
                Command::Enter(0, Delimiter::Parenthesis),
                Command::Parse(1, Kind::Ident),
                Command::Parse(1, Kind::Ident),
            ],
            "entered 1 ( 0..5 @6\nread a 1..2 @2\nread b 3..4 @5\naccepted\n",
        )],
    );
}

#[test]
fn names_no_stream(rt: HostRuntime) {
    all_reports(
        &rt,
        &[(
            Source::Nothing,
            &[Command::Empty(3), Command::Empty(0), Command::Close(0)],
            "refused C1 @-\ntrue @0\nrefused C4 @0\naccepted\n",
        )],
    );
}

// Groups with equal spans are different scopes.
#[test]
fn tells_scopes_by_place(rt: HostRuntime) {
    all_reports(
        &rt,
        &[(
            Source::Twins,
            &[
                Command::Enter(0, Delimiter::Parenthesis),
                Command::Enter(0, Delimiter::Parenthesis),
                Command::Fork(1),
                Command::Advance(2, 3),
                Command::Advance(1, 3),
            ],
            "entered 1 ( call @3\nentered 2 ( call @6\nforked 3 @1\nrefused C5 @4\ndone @1\nrefused call unexpected token, expected `)`\n",
        )],
    );
}

// Returns the report on a thousand groups, of which 500 are parentheses that are entered. Then
// their contents are read, or not.
fn deep(alloc: Global, is_read: bool) -> Option<Report> {
    let mut commands = Vec::new(alloc);
    for number in 0..500usize {
        commands
            .push(Command::Enter(number, Delimiter::Parenthesis))
            .ok()?;
    }
    if is_read {
        commands.push(Command::Parse(500, Kind::Ident)).ok()?;
        commands.push(Command::Empty(500)).ok()?;
    }
    replay(alloc, nested(alloc, 1000)?, &commands).ok()
}

fn deep_line(alloc: Global, number: usize) -> Option<String> {
    let report = deep(alloc, true)?;
    let line = report.lines.get(number)?;
    format!(in alloc; "{line}").ok()
}

fn is_deep_line(alloc: Global, number: usize, wanted: &str) -> bool {
    match deep_line(alloc, number) {
        Some(text) => text.as_str() == wanted,
        None => false,
    }
}

fn all_deep_lines(rt: &(impl Abort + AllocGlobal), rows: &[(usize, &str)]) {
    for (number, wanted) in rows {
        assert!(rt; is_deep_line(rt.alloc(), *number, wanted), "line {number}");
    }
}

#[test]
fn reads_in_a_thousand_groups(rt: HostRuntime) {
    all_deep_lines(
        &rt,
        &[
            (0, "entered 1 ( call @2001"),
            (499, "entered 500 ( call @1004"),
            (500, "read a call @1002"),
            (501, "true @1002"),
        ],
    );
}

// Counts the first lines that enter a group, each the next one.
fn entered(report: &Report) -> usize {
    let mut count = 0usize;
    for line in &report.lines {
        match &line.answer {
            Answer::Entered(content, _, _) if *content == count.saturating_add(1) => {
                count = *content;
            }
            _ => return count,
        }
    }
    count
}

// Returns the number of lines, and of those that enter the next group, and whether all is read.
fn deep_counts(alloc: Global, is_read: bool) -> Option<(usize, usize, bool)> {
    let report = deep(alloc, is_read)?;
    let is_accepted = matches!(&report.verdict, Verdict::Accepted);
    Some((report.lines.len(), entered(&report), is_accepted))
}

fn all_deep_counts(rt: &(impl Abort + AllocGlobal), rows: &[(bool, (usize, usize, bool))]) {
    for (is_read, wanted) in rows {
        assert_eq!(rt;
            deep_counts(rt.alloc(), *is_read),
            Some(*wanted),
            "if {is_read}"
        );
    }
}

#[test]
fn enters_a_thousand_groups(rt: HostRuntime) {
    all_deep_counts(&rt, &[(true, (502, 500, true)), (false, (500, 500, false))]);
}

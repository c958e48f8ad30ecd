//! Reports that are written while commands run, beside those that are kept and then printed.
use std::alloc::{AllocError, AllocGlobal, Global};
use std::process::Abort;
use syn_tokens::buffer::TokenBuffer;
use syn_tokens::{
    BothTexts, Command, Delimiter, Kind, Look, Separator, agree, lex_marked, replay, replay_both,
    replay_both_texts, replay_onto,
};

// Commands of each kind, some of which don't fit their streams.
fn commands(alloc: Global) -> Result<Vec<Command>, AllocError> {
    let looks = vec![in alloc; Look::Kind(Kind::Literal), Look::End]?;
    let commands = vec![in alloc;
        Command::Peek(0, Look::Group),
        Command::Peek2(0, Look::Kind(Kind::IdentAny)),
        Command::Peek3(0, Look::Tree),
        Command::Parse(0, Kind::Ident),
        Command::Parse(0, Kind::LifetimeAny),
        Command::Optional(0, Kind::Literal),
        Command::Parse(0, Kind::Punctuation(20)),
        Command::Enter(0, Delimiter::Parenthesis),
        Command::Fork(1),
        Command::Separated(1, Kind::Ident, Separator::Comma),
        Command::Lookahead(1, looks),
        Command::StreamSpan(1),
        Command::CursorSpan(1),
        Command::PreviousSpan(1),
        Command::Advance(1, 2),
        Command::Discard(2),
        Command::Close(1),
        Command::EnterAny(0),
        Command::Rest(0),
        Command::Empty(0),
        Command::GroupTree(0),
        Command::Close(7),
    ]?;
    Ok(commands)
}

// Returns what is printed of a report that is kept, after `before`.
fn printed(alloc: Global, text: &str, before: &str) -> Option<String> {
    let commands = commands(alloc).ok()?;
    let report = replay(alloc, lex_marked(alloc, 0, text).ok()?, &commands).ok()?;
    format!(in alloc; "{before}{report}").ok()
}

// Returns the report that is written as its commands run, after `before`.
fn written(alloc: Global, text: &str, before: &str) -> Option<String> {
    let commands = commands(alloc).ok()?;
    let buffer = TokenBuffer::from_marked(alloc, 0, 0, text).ok()?;
    let mut report = String::from_str(alloc, before).ok()?;
    let verdict = replay_onto(alloc, &buffer, &commands, &mut report).ok()?;
    let end = format!(in alloc; "{verdict}\n").ok()?;
    if report.as_str().ends_with(end.as_str()) {
        Some(report)
    } else {
        None
    }
}

// Returns what is printed of two reports that are kept, and of their verdicts.
fn both_printed(alloc: Global, left: &str, right: &str) -> Option<String> {
    let commands = commands(alloc).ok()?;
    let left = lex_marked(alloc, 0, left).ok()?;
    let right = lex_marked(alloc, 0, right).ok()?;
    let (left, right) = replay_both(alloc, left, right, &commands).ok()?;
    let agree = agree(&left, &right);
    let verdicts = format!(in alloc; "{}\n{}\n{agree}", left.verdict, right.verdict).ok()?;
    format!(in alloc; "{left}{right}{verdicts}").ok()
}

// Returns the texts of two reports, written as their commands run, and their verdicts.
fn both_written(alloc: Global, left: &str, right: &str) -> Option<String> {
    let commands = commands(alloc).ok()?;
    let left = lex_marked(alloc, 0, left).ok()?;
    let right = lex_marked(alloc, 0, right).ok()?;
    let BothTexts {
        left,
        right,
        left_verdict,
        right_verdict,
        agree,
    } = replay_both_texts(alloc, left, right, &commands).ok()?;
    let verdicts = format!(in alloc; "{left_verdict}\n{right_verdict}\n{agree}").ok()?;
    format!(in alloc; "{left}{right}{verdicts}").ok()
}

fn is_same(printed: Option<String>, written: Option<String>) -> bool {
    match (printed, written) {
        (Some(printed), Some(written)) => printed.as_str() == written.as_str(),
        _ => false,
    }
}

// Checks that the reports on each text, and on both, are written as they are printed.
fn all_written(rt: &(impl Abort + AllocGlobal), rows: &[(&str, &str)]) {
    let alloc = rt.alloc();
    for (left, right) in rows {
        for before in &["", "before\n"] {
            let is_written = is_same(printed(alloc, left, before), written(alloc, left, before));
            assert!(rt; is_written, "at {left}");
        }
        let is_written = is_same(
            both_printed(alloc, left, right),
            both_written(alloc, left, right),
        );
        assert!(rt; is_written, "at {left} and {right}");
    }
}

#[test]
fn writes_what_is_printed(rt: HostRuntime) {
    all_written(
        &rt,
        &[
            ("", ""),
            ("a", "«a»"),
            ("a 'b 1 :: (c, d) {e f} g", "«a» 'b «1» :: («c», d) {e f} g"),
            ("a 'b :: (c, d 1) [e]", "a 'b :: (c, d 1)"),
            ("«» a 'fn (c) «»", "fn 'b"),
        ],
    );
}

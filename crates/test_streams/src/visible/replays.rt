//! Reports on the visible tokens of streams.
use crate::visible::texts::is_text;
use std::alloc::{AllocGlobal, Global};
use std::process::Abort;
use syn_replay::{Command, Kind, Report, agree};
use tok_core::{Delimiter, lex_marked};
use visible_replay::{visible_replay, visible_replay_both};

const COMMANDS: [Command; 4] = [
    Command::Parse(0, Kind::Ident),
    Command::Enter(0, Delimiter::Parenthesis),
    Command::Empty(1),
    Command::Empty(0),
];

// Returns the report on a text.
fn reported(alloc: Global, text: &str) -> Option<String> {
    let stream = lex_marked(alloc, 0, text).ok()?;
    let report = visible_replay(alloc, stream, &COMMANDS).ok()?;
    format!(in alloc; "{report}").ok()
}

// Returns whether the reports on two texts agree, and whether both are the reports on one each.
fn agreed(alloc: Global, left: &str, right: &str) -> Option<(bool, bool)> {
    let first = lex_marked(alloc, 0, left).ok()?;
    let second = lex_marked(alloc, 0, right).ok()?;
    let (first, second) = visible_replay_both(alloc, first, second, &COMMANDS).ok()?;
    let are_alike = agree(&first, &second);
    let are_right = is_report(alloc, &first, left)? && is_report(alloc, &second, right)?;
    Some((are_alike, are_right))
}

fn is_report(alloc: Global, report: &Report, text: &str) -> Option<bool> {
    let wanted = reported(alloc, text)?;
    let found = format!(in alloc; "{report}").ok()?;
    Some(found == wanted)
}

fn all_reported(rt: &(impl Abort + AllocGlobal), rows: &[(&str, &str)]) {
    for (text, wanted) in rows {
        assert!(rt; is_text(reported(rt.alloc(), text), wanted), "at {text}");
    }
}

fn all_agreed(rt: &(impl Abort + AllocGlobal), rows: &[(&str, &str, bool)]) {
    for (left, right, are_alike) in rows {
        let found = agreed(rt.alloc(), left, right);
        assert_eq!(rt; found, Some((*are_alike, true)), "at {left}, {right}");
    }
}

#[test]
fn reports(rt: HostRuntime) {
    all_reported(
        &rt,
        &[
            (
                "v(« »)",
                "read v 0..1 @1\nentered 1 ( 1..4 @3\ntrue @2\ntrue @3\naccepted\n",
            ),
            (
                "«»«v» «»(««» «»») « »",
                "read v 0..1 @3\nentered 1 ( 2..5 @5\ntrue @4\ntrue @5\naccepted\n",
            ),
        ],
    );
}

#[test]
fn two_streams(rt: HostRuntime) {
    all_agreed(
        &rt,
        &[
            ("v( )", "v(« »)", true),
            ("v() ", "v()« »", true),
            ("  v()", "« «» »v()", true),
            ("v()", "«v»«»()", true),
            ("", "«»", true),
            ("v()", "v( )", false),
            ("v()", "v() a", false),
        ],
    );
}

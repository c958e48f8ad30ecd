//! Commands that run on a fork, and the same commands on its stream.
use std::alloc::{AllocGlobal, Global};
use std::process::Abort;
use syn_tokens::{Command, Delimiter, Kind, Separator, is_self_contained, lex_marked, replay};

fn all_contained(rt: &impl Abort, rows: &[(usize, usize, &[Command], bool)]) {
    for (stream, made, commands, wanted) in rows {
        assert_eq!(rt;
            is_self_contained(*stream, *made, commands),
            *wanted,
            "of stream {stream}: {commands:?}"
        );
    }
}

#[test]
fn tells_self_contained_commands(rt: HostRuntime) {
    all_contained(
        &rt,
        &[
            (0, 1, &[], true),
            (
                0,
                1,
                &[
                    Command::Parse(0, Kind::Ident),
                    Command::Enter(0, Delimiter::Parenthesis),
                    Command::Enter(1, Delimiter::Bracket),
                    Command::Close(2),
                    Command::Close(1),
                    Command::Fork(0),
                    Command::Empty(3),
                ],
                true,
            ),
            // Names a stream that was there before.
            (0, 2, &[Command::Parse(1, Kind::Ident)], false),
            (0, 2, &[Command::Empty(0), Command::Close(1)], false),
            // Discards a fork.
            (0, 1, &[Command::Fork(0), Command::Discard(1)], false),
            // Advances.
            (0, 1, &[Command::Fork(0), Command::Advance(0, 1)], false),
            // Closes the stream itself.
            (
                1,
                2,
                &[Command::Parse(1, Kind::Ident), Command::Close(1)],
                false,
            ),
        ],
    );
}

// Returns the report of these commands.
fn reported(alloc: Global, text: &str, commands: &[Command]) -> Option<String> {
    let report = replay(alloc, lex_marked(alloc, 0, text).ok()?, commands).ok()?;
    format!(in alloc; "{report}").ok()
}

fn is_reported(alloc: Global, text: &str, commands: &[Command], wanted: &str) -> bool {
    match reported(alloc, text, commands) {
        Some(found) => found.as_str() == wanted,
        None => false,
    }
}

fn all_reports(rt: &(impl Abort + AllocGlobal), rows: &[(&str, &[Command], &str)]) {
    for (text, commands, wanted) in rows {
        assert!(rt;
            is_reported(rt.alloc(), text, commands, wanted),
            "not {wanted}"
        );
    }
}

// Each list stands twice: on stream 0, and on a fork of it, with the numbers of streams one higher.
#[test]
fn a_fork_follows_its_stream(rt: HostRuntime) {
    all_reports(
        &rt,
        &[
            (
                "a («b» c) d",
                &[
                    Command::Parse(0, Kind::Ident),
                    Command::Enter(0, Delimiter::Parenthesis),
                    Command::Parse(1, Kind::Ident),
                    Command::Close(1),
                    Command::Empty(0),
                ],
                "read a 0..1 @1\nentered 1 ( 2..7 @7\nread b 3..4 @5\ndone @5\nfalse @7\nrefused 5..6 unexpected token, expected `)`\n",
            ),
            (
                "a («b» c) d",
                &[
                    Command::Fork(0),
                    Command::Parse(1, Kind::Ident),
                    Command::Enter(1, Delimiter::Parenthesis),
                    Command::Parse(2, Kind::Ident),
                    Command::Close(2),
                    Command::Empty(1),
                    Command::Advance(0, 1),
                ],
                "forked 1 @0\nread a 0..1 @1\nentered 2 ( 2..7 @7\nread b 3..4 @5\ndone @5\nfalse @7\ndone @7\nrefused 5..6 unexpected token, expected `)`\n",
            ),
            (
                "a, b (c)",
                &[
                    Command::Separated(0, Kind::Ident, Separator::Comma),
                    Command::Enter(0, Delimiter::Brace),
                    Command::Enter(0, Delimiter::Parenthesis),
                ],
                "list [a 0..1] [, 1..2] [b 3..4] @3\nrefused 5..6 expected curly braces @3\nentered 1 ( 5..8 @6\nrefused 6..7 unexpected token, expected `)`\n",
            ),
            (
                "a, b (c)",
                &[
                    Command::Fork(0),
                    Command::Separated(1, Kind::Ident, Separator::Comma),
                    Command::Enter(1, Delimiter::Brace),
                    Command::Enter(1, Delimiter::Parenthesis),
                    Command::Advance(0, 1),
                ],
                "forked 1 @0\nlist [a 0..1] [, 1..2] [b 3..4] @3\nrefused 5..6 expected curly braces @3\nentered 2 ( 5..8 @6\ndone @6\nrefused 6..7 unexpected token, expected `)`\n",
            ),
        ],
    );
}

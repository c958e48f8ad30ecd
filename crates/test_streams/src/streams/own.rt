//! Keywords of one's own as tokens, and what faults show.
ghost use Rattle.std.specs.Prelude.{codes};

use std::alloc::Global;
use syn_parse::{Fault, Own, Word};
use tok_core::{Span, ToTokens};

struct ServerWord;

impl Word for ServerWord {
    ghost text = { codes "server" };

    fn display() -> &'static str {
        "`server`"
    }
}

type Server = Own<ServerWord>;

// No identifier: it is never found.
struct ArrowWord;

impl Word for ArrowWord {
    ghost text = { codes "=>" };

    fn display() -> &'static str {
        "`=>`"
    }
}

// The text that is written, and whether two values are equal.
fn written<W: Word>(alloc: Global) -> Option<(String, bool)> {
    let own = Own::<W>::new(Span::source(0, 1, 2));
    let tokens = own.to_token_stream(alloc).ok()?;
    let equal = own == Own::<W>::default();
    Some((format!(in alloc; "{tokens}").ok()?, equal))
}

#[test]
fn written_words(rt: HostRuntime) {
    let alloc = rt.alloc();
    let server = written::<ServerWord>(alloc);
    assert!(rt; server.is_some_and(|made| made.0.as_str() == "server" && made.1));
    let arrow = written::<ArrowWord>(alloc);
    assert!(rt; arrow.is_some_and(|made| made.0.as_str() == "" && made.1));
}

// What a fault shows, by `Display` and by `Debug`.
fn shown(alloc: Global) -> Option<(String, String)> {
    let fault = Fault::at(alloc, Span::call_site(), "no");
    let display = format!(in alloc; "{fault}").ok()?;
    let debug = format!(in alloc; "{fault:?} {:?}", Server::default()).ok()?;
    Some((display, debug))
}

#[test]
fn shown_faults(rt: HostRuntime) {
    let shown = shown(rt.alloc());
    assert!(rt;
        shown.is_some_and(|made| {
            made.0.as_str() == "no" && made.1.as_str() == "Refused(Error(\"no\")) Token![server]"
        })
    );
}

//! Which trees are left of a stream.
use std::alloc::{AllocGlobal, Global};
use std::process::Abort;
use tok_core::{is_filled, lex_marked, same_visible};
use tok_pruned::prune;

// Returns the weight of a text's stream, pruned, if it is filled and its visible trees are the same.
fn kept(alloc: Global, text: &str) -> Option<usize> {
    let whole = lex_marked(alloc, 0, text).ok()?;
    let copy = whole.clone().ok()?;
    let stream = prune(alloc, copy).ok()?;
    let is_right = same_visible(alloc, &whole, &stream).ok()? && is_filled(&stream);
    if is_right {
        Some(stream.weight())
    } else {
        None
    }
}

fn all_kept(rt: &(impl Abort + AllocGlobal), rows: &[(&str, usize)]) {
    for (text, weight) in rows {
        assert_eq!(rt; kept(rt.alloc(), text), Some(*weight), "at {text}");
    }
}

#[test]
fn prunes(rt: HostRuntime) {
    all_kept(
        &rt,
        &[
            ("", 0),
            ("a", 1),
            ("a + 'b' (c)", 6),
            ("«»", 0),
            ("« »", 0),
            ("« «» «» »", 0),
            ("a «»", 1),
            ("«» a", 1),
            ("a «» b", 2),
            ("v(« »)", 3),
            ("x, « »", 2),
            ("« «» a »", 3),
            ("«a»", 3),
            ("««a»»", 5),
            ("«()»", 4),
            ("«(«»)»", 4),
            ("( «» ) [«a»] {««»»}", 9),
            ("'«»a", 2),
        ],
    );
}

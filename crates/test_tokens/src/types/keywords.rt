//! Writes and finds each keyword of the table.
use super::{all_hold, has_no_text, is_quoted, is_token};
use std::alloc::AllocGlobal;
use std::process::Abort;
use tok_types::token;

// The table, by number.
const WORDS: &[&str] = &[
    "abstract", "as", "async", "auto", "await", "become", "box", "break", "const", "continue",
    "crate", "default", "do", "dyn", "else", "enum", "extern", "final", "fn", "for", "if", "impl",
    "in", "let", "loop", "macro", "match", "mod", "move", "mut", "override", "priv", "pub", "raw",
    "ref", "return", "safe", "Self", "self", "static", "struct", "super", "trait", "try", "type",
    "typeof", "union", "unsafe", "unsized", "use", "virtual", "where", "while", "yield",
];

fn all_texts(rt: &(impl Abort + AllocGlobal), rows: &[&str]) {
    for (number, text) in rows.iter().enumerate() {
        assert_eq!(rt; token::keyword_text(number), *text);
        assert_eq!(rt; token::keyword_number(text), Some(number));
        let found = is_quoted(rt.alloc(), text, token::keyword_display(number));
        assert_eq!(rt; found, Some(true), "at {text}");
    }
}

#[test]
fn texts_and_displays(rt: HostRuntime) {
    all_texts(&rt, WORDS);
}

#[test]
fn past_the_table(rt: HostRuntime) {
    let alloc = rt.alloc();
    all_hold(
        &rt,
        &[
            token::keyword_text(WORDS.len()).is_empty(),
            token::keyword_display(WORDS.len()) == "``",
            has_no_text::<token::Keyword<1000>>(alloc, "a"),
            token::keyword_number("").is_none(),
            token::keyword_number("fnx").is_none(),
            token::keyword_number("+").is_none(),
        ],
    );
}

#[test]
fn keywords_abstract_to_const(rt: HostRuntime) {
    let alloc = rt.alloc();
    all_hold(
        &rt,
        &[
            is_token::<token::Abstract>(alloc, "abstract", "abstractx"),
            is_token::<token::As>(alloc, "as", "asx"),
            is_token::<token::Async>(alloc, "async", "asyncx"),
            is_token::<token::Auto>(alloc, "auto", "autox"),
            is_token::<token::Await>(alloc, "await", "awaitx"),
            is_token::<token::Become>(alloc, "become", "becomex"),
            is_token::<token::Box>(alloc, "box", "boxx"),
            is_token::<token::Break>(alloc, "break", "breakx"),
            is_token::<token::Const>(alloc, "const", "constx"),
        ],
    );
}

#[test]
fn keywords_continue_to_final(rt: HostRuntime) {
    let alloc = rt.alloc();
    all_hold(
        &rt,
        &[
            is_token::<token::Continue>(alloc, "continue", "continuex"),
            is_token::<token::Crate>(alloc, "crate", "cratex"),
            is_token::<token::Default>(alloc, "default", "defaultx"),
            is_token::<token::Do>(alloc, "do", "dox"),
            is_token::<token::Dyn>(alloc, "dyn", "dynx"),
            is_token::<token::Else>(alloc, "else", "elsex"),
            is_token::<token::Enum>(alloc, "enum", "enumx"),
            is_token::<token::Extern>(alloc, "extern", "externx"),
            is_token::<token::Final>(alloc, "final", "finalx"),
        ],
    );
}

#[test]
fn keywords_fn_to_match(rt: HostRuntime) {
    let alloc = rt.alloc();
    all_hold(
        &rt,
        &[
            is_token::<token::Fn>(alloc, "fn", "fnx"),
            is_token::<token::For>(alloc, "for", "forx"),
            is_token::<token::If>(alloc, "if", "ifx"),
            is_token::<token::Impl>(alloc, "impl", "implx"),
            is_token::<token::In>(alloc, "in", "inx"),
            is_token::<token::Let>(alloc, "let", "letx"),
            is_token::<token::Loop>(alloc, "loop", "loopx"),
            is_token::<token::Macro>(alloc, "macro", "macrox"),
            is_token::<token::Match>(alloc, "match", "matchx"),
        ],
    );
}

#[test]
fn keywords_mod_to_return(rt: HostRuntime) {
    let alloc = rt.alloc();
    all_hold(
        &rt,
        &[
            is_token::<token::Mod>(alloc, "mod", "modx"),
            is_token::<token::Move>(alloc, "move", "movex"),
            is_token::<token::Mut>(alloc, "mut", "mutx"),
            is_token::<token::Override>(alloc, "override", "overridex"),
            is_token::<token::Priv>(alloc, "priv", "privx"),
            is_token::<token::Pub>(alloc, "pub", "pubx"),
            is_token::<token::Raw>(alloc, "raw", "rawx"),
            is_token::<token::Ref>(alloc, "ref", "refx"),
            is_token::<token::Return>(alloc, "return", "returnx"),
        ],
    );
}

#[test]
fn keywords_safe_to_type(rt: HostRuntime) {
    let alloc = rt.alloc();
    all_hold(
        &rt,
        &[
            is_token::<token::Safe>(alloc, "safe", "safex"),
            is_token::<token::SelfType>(alloc, "Self", "Selfx"),
            is_token::<token::SelfValue>(alloc, "self", "selfx"),
            is_token::<token::Static>(alloc, "static", "staticx"),
            is_token::<token::Struct>(alloc, "struct", "structx"),
            is_token::<token::Super>(alloc, "super", "superx"),
            is_token::<token::Trait>(alloc, "trait", "traitx"),
            is_token::<token::Try>(alloc, "try", "tryx"),
            is_token::<token::Type>(alloc, "type", "typex"),
        ],
    );
}

#[test]
fn keywords_typeof_to_yield(rt: HostRuntime) {
    let alloc = rt.alloc();
    all_hold(
        &rt,
        &[
            is_token::<token::Typeof>(alloc, "typeof", "typeofx"),
            is_token::<token::Union>(alloc, "union", "unionx"),
            is_token::<token::Unsafe>(alloc, "unsafe", "unsafex"),
            is_token::<token::Unsized>(alloc, "unsized", "unsizedx"),
            is_token::<token::Use>(alloc, "use", "usex"),
            is_token::<token::Virtual>(alloc, "virtual", "virtualx"),
            is_token::<token::Where>(alloc, "where", "wherex"),
            is_token::<token::While>(alloc, "while", "whilex"),
            is_token::<token::Yield>(alloc, "yield", "yieldx"),
        ],
    );
}

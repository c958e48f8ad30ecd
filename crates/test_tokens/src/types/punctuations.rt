//! Writes and finds each punctuation of the table.
use super::{all_hold, has_no_text, is_quoted, is_token};
use std::alloc::AllocGlobal;
use std::process::Abort;
use tok_types::token;

// The table, by number.
const MARKS: &[&str] = &[
    "&", "&&", "&=", "@", "^", "^=", ":", ",", "$", ".", "..", "...", "..=", "=", "==", "=>", ">=",
    ">", "<-", "<=", "<", "-", "-=", "!=", "!", "|", "|=", "||", "::", "%", "%=", "+", "+=", "#",
    "?", "->", ";", "<<", "<<=", ">>", ">>=", "/", "/=", "*", "*=", "~",
];

fn all_texts(rt: &(impl Abort + AllocGlobal), rows: &[&str]) {
    for (number, text) in rows.iter().enumerate() {
        assert_eq!(rt; token::punctuation_text(number), *text);
        assert_eq!(rt; token::punctuation_number(text), Some(number));
        let found = is_quoted(rt.alloc(), text, token::punctuation_display(number));
        assert_eq!(rt; found, Some(true), "at {text}");
    }
}

#[test]
fn texts_and_displays(rt: HostRuntime) {
    all_texts(&rt, MARKS);
}

#[test]
fn past_the_table(rt: HostRuntime) {
    let alloc = rt.alloc();
    all_hold(
        &rt,
        &[
            token::punctuation_text(MARKS.len()).is_empty(),
            token::punctuation_display(MARKS.len()) == "``",
            has_no_text::<token::Punctuation<1000, 0>>(alloc, "+"),
            has_no_text::<token::Punctuation<7, 2>>(alloc, ","),
            token::punctuation_number("").is_none(),
            token::punctuation_number("+-").is_none(),
            token::punctuation_number("a").is_none(),
        ],
    );
}

#[test]
fn and_to_comma(rt: HostRuntime) {
    let alloc = rt.alloc();
    all_hold(
        &rt,
        &[
            is_token::<token::And>(alloc, "&", "-"),
            is_token::<token::AndAnd>(alloc, "&&", "& &"),
            is_token::<token::AndEq>(alloc, "&=", "& ="),
            is_token::<token::At>(alloc, "@", "-"),
            is_token::<token::Caret>(alloc, "^", "-"),
            is_token::<token::CaretEq>(alloc, "^=", "^ ="),
            is_token::<token::Colon>(alloc, ":", "-"),
            is_token::<token::Comma>(alloc, ",", "-"),
        ],
    );
}

#[test]
fn dollar_to_fat_arrow(rt: HostRuntime) {
    let alloc = rt.alloc();
    all_hold(
        &rt,
        &[
            is_token::<token::Dollar>(alloc, "$", "-"),
            is_token::<token::Dot>(alloc, ".", "-"),
            is_token::<token::DotDot>(alloc, "..", ". ."),
            is_token::<token::DotDotDot>(alloc, "...", ". . ."),
            is_token::<token::DotDotEq>(alloc, "..=", ". . ="),
            is_token::<token::Eq>(alloc, "=", "-"),
            is_token::<token::EqEq>(alloc, "==", "= ="),
            is_token::<token::FatArrow>(alloc, "=>", "= >"),
        ],
    );
}

#[test]
fn ge_to_ne(rt: HostRuntime) {
    let alloc = rt.alloc();
    all_hold(
        &rt,
        &[
            is_token::<token::Ge>(alloc, ">=", "> ="),
            is_token::<token::Gt>(alloc, ">", "-"),
            is_token::<token::LArrow>(alloc, "<-", "< -"),
            is_token::<token::Le>(alloc, "<=", "< ="),
            is_token::<token::Lt>(alloc, "<", "-"),
            is_token::<token::Minus>(alloc, "-", "+"),
            is_token::<token::MinusEq>(alloc, "-=", "- ="),
            is_token::<token::Ne>(alloc, "!=", "! ="),
        ],
    );
}

#[test]
fn not_to_plus(rt: HostRuntime) {
    let alloc = rt.alloc();
    all_hold(
        &rt,
        &[
            is_token::<token::Not>(alloc, "!", "-"),
            is_token::<token::Or>(alloc, "|", "-"),
            is_token::<token::OrEq>(alloc, "|=", "| ="),
            is_token::<token::OrOr>(alloc, "||", "| |"),
            is_token::<token::PathSep>(alloc, "::", ": :"),
            is_token::<token::Percent>(alloc, "%", "-"),
            is_token::<token::PercentEq>(alloc, "%=", "% ="),
            is_token::<token::Plus>(alloc, "+", "-"),
        ],
    );
}

#[test]
fn plus_eq_to_shr(rt: HostRuntime) {
    let alloc = rt.alloc();
    all_hold(
        &rt,
        &[
            is_token::<token::PlusEq>(alloc, "+=", "+ ="),
            is_token::<token::Pound>(alloc, "#", "-"),
            is_token::<token::Question>(alloc, "?", "-"),
            is_token::<token::RArrow>(alloc, "->", "- >"),
            is_token::<token::Semi>(alloc, ";", "-"),
            is_token::<token::Shl>(alloc, "<<", "< <"),
            is_token::<token::ShlEq>(alloc, "<<=", "< < ="),
            is_token::<token::Shr>(alloc, ">>", "> >"),
        ],
    );
}

#[test]
fn shr_eq_to_tilde(rt: HostRuntime) {
    let alloc = rt.alloc();
    all_hold(
        &rt,
        &[
            is_token::<token::ShrEq>(alloc, ">>=", "> > ="),
            is_token::<token::Slash>(alloc, "/", "-"),
            is_token::<token::SlashEq>(alloc, "/=", "/ ="),
            is_token::<token::Star>(alloc, "*", "-"),
            is_token::<token::StarEq>(alloc, "*=", "* ="),
            is_token::<token::Tilde>(alloc, "~", "-"),
        ],
    );
}

//! Makes and copies texts of many lengths: a short one lies in place, others on the heap.
use std::alloc::{AllocError, AllocGlobal, Global};
use std::process::Abort;
use tok_core::{Ident, Literal, Span, Text};

// The text of a clone of a clone, after its sources are dropped.
fn cloned(text: Text) -> Result<Text, AllocError> {
    let first = text.clone()?;
    drop(text);
    let second = first.clone()?;
    drop(first);
    Ok(second)
}

// The clone of a text that a string becomes.
fn from_string(alloc: Global, text: &str) -> Result<Text, AllocError> {
    cloned(Text::from_string(alloc, String::from_str(alloc, text)?)?)
}

fn is_text(found: Result<Text, AllocError>, text: &str) -> bool {
    match found {
        Ok(found) => found.as_str() == text,
        Err(_) => false,
    }
}

// Returns `true` if copies of these many letters have them, however they are made.
fn is_copied(alloc: Global, text: &str) -> bool {
    let made = match Text::from_str(alloc, text) {
        Ok(made) => is_text(cloned(made), text),
        Err(_) => false,
    };
    made && is_text(from_string(alloc, text), text)
}

// Returns `true` if an identifier of this text hands it out whole.
fn is_handed_out(alloc: Global, text: &str) -> bool {
    match Ident::new(alloc, text, Span::call_site()) {
        Ok(ident) => is_text(ident.to_text(), text),
        Err(_) => false,
    }
}

// Returns `true` if the literal of this text hands out the text in quotes.
fn is_quoted(alloc: Global, text: &str, quoted: &str) -> bool {
    match Literal::string(alloc, text) {
        Ok(literal) => is_text(literal.to_text(), quoted),
        Err(_) => false,
    }
}

// Returns `true` if a copy of an identifier is made just for a short text, and equals it.
fn is_copied_if_short(alloc: Global, text: &str, is_short: bool) -> bool {
    match Ident::new(alloc, text, Span::source(0, 1, 2)) {
        Ok(ident) => match ident.copied_if_short() {
            Some(copy) => is_short && copy == ident && copy.span() == ident.span(),
            None => !is_short,
        },
        Err(_) => false,
    }
}

// Does the same for the literal of a text in quotes.
fn is_quoted_if_short(alloc: Global, text: &str, is_short: bool) -> bool {
    match Literal::string(alloc, text) {
        Ok(literal) => match literal.copied_if_short() {
            Some(copy) => {
                is_short && copy.as_str() == literal.as_str() && copy.span() == literal.span()
            }
            None => !is_short,
        },
        Err(_) => false,
    }
}

fn all_copied(rt: &(impl Abort + AllocGlobal), rows: &[&str]) {
    for text in rows {
        assert!(rt; is_copied(rt.alloc(), text), "at {text}");
    }
}

fn all_handed_out(rt: &(impl Abort + AllocGlobal), rows: &[&str]) {
    for text in rows {
        assert!(rt; is_handed_out(rt.alloc(), text), "at {text}");
    }
}

fn all_quoted(rt: &(impl Abort + AllocGlobal), rows: &[(&str, &str)]) {
    for (text, quoted) in rows {
        assert!(rt; is_quoted(rt.alloc(), text, quoted), "at {text}");
    }
}

// 0, 13 to 16, 46 to 49 and 100 bytes, and characters of two and four bytes at an end.
#[test]
fn copies_texts(rt: HostRuntime) {
    all_copied(
        &rt,
        &[
            "",
            "abcdefghijklm",
            "abcdefghijklmn",
            "abcdefghijklmno",
            "abcdefghijklmnop",
            "abcdefghijklmé",
            "abcdefghijklmnopqrstuvwxyz0123456789abcdefghij",
            "abcdefghijklmnopqrstuvwxyz0123456789abcdefghijk",
            "abcdefghijklmnopqrstuvwxyz0123456789abcdefghijkl",
            "abcdefghijklmnopqrstuvwxyz0123456789abcdefghijklm",
            "abcdefghijklmnopqrstuvwxyz0123456789abcdefg\u{10000}",
            "abcdefghijklmnopqrstuvwxyz0123456789abcdefgh\u{10000}",
            "abcdefghijklmnopqrstuvwxyz0123456789abcdefghijklmn\
             abcdefghijklmnopqrstuvwxyz0123456789abcdefghijklmn",
        ],
    );
}

#[test]
fn hands_out_texts_of_identifiers(rt: HostRuntime) {
    all_handed_out(
        &rt,
        &[
            "a",
            "abcdefghijklmn",
            "abcdefghijklmno",
            "abcdefghijklmnopqrstuvwxyz0123456789abcdefghijk",
            "abcdefghijklmnopqrstuvwxyz0123456789abcdefghijkl",
        ],
    );
}

#[test]
fn hands_out_texts_of_literals(rt: HostRuntime) {
    all_quoted(
        &rt,
        &[
            ("", "\"\""),
            ("abcdefghijkl", "\"abcdefghijkl\""),
            ("abcdefghijklm\n", "\"abcdefghijklm\\n\""),
            (
                "abcdefghijklmnopqrstuvwxyz0123456789abcdefghijkl",
                "\"abcdefghijklmnopqrstuvwxyz0123456789abcdefghijkl\"",
            ),
        ],
    );
}

fn all_copied_if_short(rt: &(impl Abort + AllocGlobal), rows: &[(&str, bool)]) {
    for (text, is_short) in rows {
        assert!(rt;
            is_copied_if_short(rt.alloc(), text, *is_short),
            "at {text}"
        );
    }
}

fn all_quoted_if_short(rt: &(impl Abort + AllocGlobal), rows: &[(&str, bool)]) {
    for (text, is_short) in rows {
        assert!(rt;
            is_quoted_if_short(rt.alloc(), text, *is_short),
            "at {text}"
        );
    }
}

// 1, 14, 15 and 48 bytes.
#[test]
fn copies_short_identifiers(rt: HostRuntime) {
    all_copied_if_short(
        &rt,
        &[
            ("a", true),
            ("a_of_14_letter", true),
            ("a_of_15_letters", false),
            ("a_name_that_has_48_letters_and_is_a_text_of_heap", false),
        ],
    );
}

// 2, 14, 15 and 49 bytes with the quotes.
#[test]
fn copies_short_literals(rt: HostRuntime) {
    all_quoted_if_short(
        &rt,
        &[
            ("", true),
            ("of 12 letter", true),
            ("of 13 letters", false),
            ("a string of forty-seven letters, and of no more", false),
        ],
    );
}

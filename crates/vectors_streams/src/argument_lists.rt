//! Texts as arguments. `tests/arguments` makes them and what is printed, by its own reading.
//!
//! Without its marks a text must have the same arguments, or be rejected with the same words.
mod show;

use arguments::{Arguments, arguments_both, parse_arguments};
use show::show;
use std::alloc::Global;
use syn_parse::Fault;
use tok_buffer::Error;
use tok_core::{TokenStream, lex_marked};

/// Returns the arguments of a text, or `refused`. It is `None` if the text is not in the grammar, or
/// if an allocation fails.
pub fn answer(alloc: Global, text: &str) -> Option<String> {
    if is_same_unmarked(alloc, text)? {
        read(alloc, text)
    } else {
        format!(in alloc; "marks change them").ok()
    }
}

fn read(alloc: Global, text: &str) -> Option<String> {
    match parse_arguments(alloc, tokens(alloc, text)?) {
        Ok(list) => show(alloc, &list).ok(),
        Err(Fault::Refused(_)) => format!(in alloc; "refused").ok(),
        Err(Fault::Memory(_)) => None,
    }
}

fn is_same_unmarked(alloc: Global, text: &str) -> Option<bool> {
    let mut plain = String::new(alloc);
    for c in text.chars() {
        if c != '«' && c != '»' {
            plain.push(c).ok()?;
        }
    }
    let marked = tokens(alloc, text)?;
    let unmarked = tokens(alloc, plain.as_str())?;
    let (left, right) = arguments_both(alloc, marked, unmarked).ok()?;
    let left = arguments_or_words(alloc, left)?;
    let right = arguments_or_words(alloc, right)?;
    Some(left == right)
}

fn arguments_or_words(alloc: Global, parsed: Result<Arguments, Error>) -> Option<String> {
    match parsed {
        Ok(list) => show(alloc, &list).ok(),
        Err(error) => format!(in alloc; "{error}").ok(),
    }
}

fn tokens(alloc: Global, text: &str) -> Option<TokenStream> {
    lex_marked(alloc, 0, text).ok()
}

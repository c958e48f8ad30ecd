//! Errors shown: many of one text, with their lines and carets.
use crate::digest::Digest;
use crate::pen::{NAME, NUMBER, Pen, STRING};
use anyhow::{Context, Result};
use std::alloc::{AllocError, Global};
use syn_parse::{Fault, ParseStream, Parser};
use tok_buffer::Error;
use tok_carets::Source;
use tok_core::{Edition, Ident, LexFault, Literal, TokenTree, lex_source};
use tok_types::token;

// Settings, of which every third kind is wrong.
static SETTINGS: [&[&str]; 12] = [
    &["let ", NAME, " = ", STRING, ";"],
    &["let ", NAME, " = ", NUMBER, ";"],
    &["let ", NAME, " = ", NAME, ";"],
    &["let ", NAME, " = 'c';"],
    &["static ", NAME, " = ", STRING, ";"],
    &["const ", NAME, " = ", NUMBER, ";"],
    &["let fn = ", STRING, ";"],
    &["let ", NAME, " ", NAME, ";"],
    &["let ", NAME, " = ;"],
    &["pub ", NAME, " = ", NAME, ";"],
    &["let ", NAME, " = ", NUMBER, "\t", NAME, ";"],
    &["while ", NAME, ";"],
];

// Texts that no lexer reads, behind some lines.
static REJECTED: [&str; 6] = [
    "let a = (b;\n]",
    "'ab",
    "0x",
    "r#self",
    "\"\\q\"",
    "let \u{1}",
];

/// Shows the errors of so many texts.
pub fn run(alloc: Global, seed: u64, rounds: usize, digest: &mut Digest) -> Result<()> {
    let mut pen = Pen::new(alloc, seed, false)?;
    for number in 0..rounds {
        let count = match number % 16 {
            15 => 6_000,
            7 => 3_000,
            _ => pen.random.below(700).saturating_add(300),
        };
        for i in 0..count {
            pen.row(&SETTINGS)?;
            let end = if i % 9 == 5 {
                " "
            } else if number % 16 == 3 {
                "\r\n"
            } else {
                "\n"
            };
            pen.put(end)?;
        }
        show_errors(alloc, pen.text.as_str(), digest)?;
        let rejected = pen.random.pick(&REJECTED, "'ab");
        pen.put(rejected)?;
        let text = pen.take();
        show_rejected(alloc, text.as_str(), digest)?;
    }
    Ok(())
}

// Shows each error of a text.
fn show_errors(alloc: Global, text: &str, digest: &mut Digest) -> Result<()> {
    let bytes = text.len();
    let parsed = (|input: ParseStream<'_, '_>| settings(input, bytes)).parse_str(alloc, text);
    let errors = parsed.ok().context("parsing settings")?;
    let source = Source {
        name: "settings",
        number: 0,
        text,
    };
    for error in &errors {
        let shown = source.show_error(alloc, error)?;
        digest.text(shown.as_str());
    }
    Ok(())
}

// Shows why a text is rejected as a whole.
fn show_rejected(alloc: Global, text: &str, digest: &mut Digest) -> Result<()> {
    let source = Source {
        name: "settings",
        number: 0,
        text,
    };
    match lex_source(alloc, Edition::default(), 0, text) {
        Ok(trees) => digest.number(trees.trees().len() as u64),
        Err(LexFault::Refused(error)) => {
            let shown = source.show_lex(alloc, error)?;
            digest.text(shown.as_str());
        }
        Err(LexFault::Memory) => return Err(AllocError.into()),
    }
    Ok(())
}

// Parses settings to the end, of which there are no more than bytes, and returns their errors.
fn settings(input: ParseStream<'_, '_>, bytes: usize) -> syn_parse::Result<Vec<Error>> {
    let mut errors = Vec::new(input.allocator());
    for _ in 0..bytes {
        if input.is_empty() {
            break;
        }
        match setting(input) {
            Ok(()) => {}
            Err(Fault::Refused(error)) => {
                errors.push(error)?;
                go_on(input, bytes)?;
            }
            Err(fault) => return Err(fault),
        }
    }
    Ok(errors)
}

// Parses a setting.
fn setting(input: ParseStream<'_, '_>) -> syn_parse::Result<()> {
    let mut lookahead = input.lookahead1();
    if lookahead.peek::<token::Let>()? {
        let _: token::Let = input.parse()?;
    } else if lookahead.peek::<token::Static>()? {
        let _: token::Static = input.parse()?;
    } else if lookahead.peek::<token::Const>()? {
        let _: token::Const = input.parse()?;
    } else {
        return Err(lookahead.error());
    }
    let _: Ident = input.parse()?;
    let _: token::Eq = input.parse()?;
    let mut lookahead = input.lookahead1();
    if lookahead.peek::<Literal>()? {
        let _: Literal = input.parse()?;
    } else if lookahead.peek::<Ident>()? {
        let _: Ident = input.parse()?;
    } else {
        return Err(lookahead.error());
    }
    let _: token::Semi = input.parse()?;
    Ok(())
}

// Goes past the next `;`, or to the end.
fn go_on(input: ParseStream<'_, '_>, bytes: usize) -> syn_parse::Result<()> {
    for _ in 0..bytes {
        if input.is_empty() {
            break;
        }
        if input.peek::<token::Semi>() {
            let _: token::Semi = input.parse()?;
            break;
        }
        let _: TokenTree = input.parse()?;
    }
    Ok(())
}

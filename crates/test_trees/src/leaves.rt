//! Makes identifiers, puncts and literals, and rejects the texts that are none.
use std::alloc::{AllocGlobal, Global};
use std::ffi::CStr;
use std::process::Abort;
use tok_core::{
    Edition, Ident, IdentFault, IntegerType, Literal, LiteralFault, MakeFault, Punct, Spacing,
    Span, TokenTree, lex_source,
};

// Returns `true` if `Ident::new` makes the wanted identifier of a text, or rejects the text if none
// is wanted.
fn is_ident(alloc: Global, text: &str, wanted: Option<&str>) -> bool {
    match Ident::new(alloc, text, Span::source(1, 2, 4)) {
        Ok(ident) => wanted == Some(ident.as_str()) && ident.span() == Span::source(1, 2, 4),
        Err(fault) => fault == MakeFault::Refused && wanted.is_none(),
    }
}

// Returns `true` if `Ident::new_raw` makes the wanted identifier of a text, or rejects the text if
// none is wanted.
fn is_raw_ident(alloc: Global, text: &str, wanted: Option<&str>) -> bool {
    match Ident::new_raw(alloc, text, Span::call_site()) {
        Ok(ident) => wanted == Some(ident.as_str()) && ident.span() == Span::call_site(),
        Err(fault) => fault == MakeFault::Refused && wanted.is_none(),
    }
}

fn all_idents(rt: &(impl Abort + AllocGlobal), rows: &[(&str, Option<&str>)]) {
    for (text, wanted) in rows {
        assert!(rt; is_ident(rt.alloc(), text, *wanted), "at {text}");
    }
}

fn all_raw_idents(rt: &(impl Abort + AllocGlobal), rows: &[(&str, Option<&str>)]) {
    for (text, wanted) in rows {
        assert!(rt; is_raw_ident(rt.alloc(), text, *wanted), "at {text}");
    }
}

#[test]
fn makes_idents(rt: HostRuntime) {
    all_idents(
        &rt,
        &[
            ("_", Some("_")),
            ("fn", Some("fn")),
            ("String", Some("String")),
            ("abstract", Some("abstract")),
            ("é1", Some("é1")),
            ("", None),
            ("1a", None),
            ("255", None),
            ("r#a", None),
            ("a b", None),
            ("a#", None),
            ("'static", None),
        ],
    );
}

#[test]
fn makes_raw_idents(rt: HostRuntime) {
    all_raw_idents(
        &rt,
        &[
            ("a", Some("r#a")),
            ("fn", Some("r#fn")),
            ("String", Some("r#String")),
            ("selfish", Some("r#selfish")),
            ("_", None),
            ("self", None),
            ("Self", None),
            ("super", None),
            ("crate", None),
            ("r#a", None),
            ("", None),
        ],
    );
}

// Checks why each text is no identifier, and why it has no raw form.
fn all_faults(rt: &impl Abort, rows: &[(&str, Option<IdentFault>, Option<IdentFault>)]) {
    for (text, plain, raw) in rows {
        assert_eq!(rt; IdentFault::of(text), *plain, "at {text}");
        assert_eq!(rt; IdentFault::of_raw(text), *raw, "at {text}");
    }
}

// Returns the fault of a character at this byte.
fn other(at: usize, character: char) -> Option<IdentFault> {
    Some(IdentFault::Character { at, character })
}

#[test]
fn tells_why_no_identifier(rt: HostRuntime) {
    let empty = Some(IdentFault::Empty);
    let number = Some(IdentFault::Number);
    let raw = Some(IdentFault::Raw);
    all_faults(
        &rt,
        &[
            ("a", None, None),
            ("fn", None, None),
            ("é1", None, None),
            ("_a", None, None),
            ("", empty, empty),
            ("1a", number, number),
            ("0", number, number),
            ("255", number, number),
            ("r#a", raw, raw),
            ("r#", raw, raw),
            ("r#255", raw, raw),
            ("r#a#", raw, raw),
            ("_", None, Some(IdentFault::NoRaw)),
            ("self", None, Some(IdentFault::NoRaw)),
            ("Self", None, Some(IdentFault::NoRaw)),
            ("super", None, Some(IdentFault::NoRaw)),
            ("crate", None, Some(IdentFault::NoRaw)),
            ("to-do", other(2, '-'), other(2, '-')),
            ("é ", other(2, ' '), other(2, ' ')),
            ("éé\u{20ac}", other(4, '\u{20ac}'), other(4, '\u{20ac}')),
            ("-a", other(0, '-'), other(0, '-')),
            ("a#", other(1, '#'), other(1, '#')),
            ("'", other(0, '\''), other(0, '\'')),
            ("'255", other(0, '\''), other(0, '\'')),
            ("'a#", other(0, '\''), other(0, '\'')),
            ("\u{301}a", other(0, '\u{301}'), other(0, '\u{301}')),
            ("\u{661}", other(0, '\u{661}'), other(0, '\u{661}')),
        ],
    );
}

fn are_words(alloc: Global, fault: IdentFault, wanted: &str) -> Option<bool> {
    Some(fault.to_string(alloc).ok()?.as_str() == wanted)
}

#[test]
fn writes_why_no_identifier(rt: HostRuntime) {
    let fault = IdentFault::Character {
        at: 1,
        character: 'é',
    };
    let words = "unexpected character `é` in an identifier";
    assert_eq!(rt; are_words(rt.alloc(), fault, words), Some(true));
    let words = "empty text";
    assert_eq!(rt; are_words(rt.alloc(), IdentFault::Empty, words), Some(true));
    let words = "begins with a digit";
    assert_eq!(rt;
        are_words(rt.alloc(), IdentFault::Number, words),
        Some(true)
    );
    let words = "begins with `r#`: pass the rest to `Ident::new_raw`";
    assert_eq!(rt; are_words(rt.alloc(), IdentFault::Raw, words), Some(true));
    let words = "has no raw form";
    assert_eq!(rt; are_words(rt.alloc(), IdentFault::NoRaw, words), Some(true));
}

// Returns `true` if the literal of a text has this text, and the span that it was given.
fn is_literal_of(alloc: Global, text: &str) -> Result<bool, LiteralFault> {
    let span = Span::source(1, 2, 4);
    let literal = Literal::new(alloc, text, span)?;
    Ok(literal.as_str() == text && literal.span() == span)
}

fn all_literals_of(rt: &(impl Abort + AllocGlobal), rows: &[(&str, Result<bool, LiteralFault>)]) {
    for (text, wanted) in rows {
        assert_eq!(rt; is_literal_of(rt.alloc(), text), *wanted, "at {text}");
    }
}

#[test]
fn makes_literals_of_texts(rt: HostRuntime) {
    let no = Err(LiteralFault::NotLiteral);
    let sign = Err(LiteralFault::Sign);
    all_literals_of(
        &rt,
        &[
            ("0", Ok(true)),
            ("1.0", Ok(true)),
            ("5i32", Ok(true)),
            ("0x_fFu8", Ok(true)),
            ("1.", Ok(true)),
            ("1.5e-3f64", Ok(true)),
            ("9e99e99", Ok(true)),
            ("\"a \\u{e9}\"", Ok(true)),
            ("\"a\"s", Ok(true)),
            ("r##\"a\"#b\"##", Ok(true)),
            ("b'\\xFF'", Ok(true)),
            ("b\"a\"", Ok(true)),
            ("br\"a\"", Ok(true)),
            ("c\"a\"", Ok(true)),
            ("cr#\"a\"#", Ok(true)),
            ("'\\''", Ok(true)),
            ("'é'", Ok(true)),
            ("\"\n\"", Ok(true)),
            (" 0", no),
            ("0 ", no),
            ("/* comment */0", no),
            ("0/* comment */", no),
            ("0// comment", no),
            ("1 2", no),
            ("1.a", no),
            ("1..", no),
            ("-1", sign),
            ("-1u12", sign),
            ("-1.0", sign),
            ("-1.0f12", sign),
            ("+1", sign),
            ("- 1", sign),
            ("- 1.0", sign),
            ("-\"\"", sign),
            ("", no),
            ("a", no),
            ("true", no),
            ("'a", no),
            ("'ab'", no),
            ("0b2", no),
            ("1e", no),
            ("\"a", no),
            ("\"\\q\"", no),
            ("b\"é\"", no),
            ("c\"\\0\"", no),
            ("r\"a\rb\"", no),
            ("(1)", no),
            ("\u{feff}1", no),
            ("#![a]1", no),
        ],
    );
}

// Returns the character, the spacing and the span of the punct that `Punct::new` makes.
fn punct(ch: char) -> Option<(char, Spacing, Span)> {
    let punct = Punct::new(ch, Spacing::Joint)?;
    Some((punct.as_char(), punct.spacing(), punct.span()))
}

// Returns the character, the spacing and the span of the punct that `Punct::new_spanned` makes.
fn punct_at(ch: char, span: Span) -> Option<(char, Spacing, Span)> {
    let punct = Punct::new_spanned(ch, Spacing::Alone, span)?;
    Some((punct.as_char(), punct.spacing(), punct.span()))
}

// Checks that each of these characters makes a punct, or that none does.
fn all_puncts(rt: &(impl Abort + AllocGlobal), text: &str, wanted: bool) {
    let span = Span::source(1, 2, 3);
    for ch in text.chars() {
        let plain = (ch, Spacing::Joint, Span::call_site());
        assert_eq!(rt; punct(ch), wanted.then_some(plain), "at {ch}");
        let spanned = (ch, Spacing::Alone, span);
        assert_eq!(rt; punct_at(ch, span), wanted.then_some(spanned), "at {ch}");
    }
}

#[test]
fn makes_puncts(rt: HostRuntime) {
    all_puncts(&rt, "&@^:,$.=><-!|%+#?;/*~'", true);
    all_puncts(&rt, "_\"\\`()a1 «é", false);
}

// A literal to make.
enum Made<'a> {
    String(&'a str),
    DocComment(&'a str),
    Character(char),
    ByteCharacter(u8),
    ByteString(&'a [u8]),
    // A text that a zero ends.
    CString(&'a [u8]),
    Integer(u128),
    IntegerOf(u128, IntegerType),
}

fn literal(alloc: Global, made: &Made<'_>) -> Option<Literal> {
    match made {
        Made::String(text) => Literal::string(alloc, text).ok(),
        Made::DocComment(text) => Literal::doc_comment(alloc, text).ok(),
        Made::Character(c) => Literal::character(alloc, *c).ok(),
        Made::ByteCharacter(byte) => Literal::byte_character(alloc, *byte).ok(),
        Made::ByteString(bytes) => Literal::byte_string(alloc, bytes).ok(),
        Made::CString(bytes) => {
            Literal::c_string(alloc, CStr::from_bytes_with_nul(bytes).ok()?).ok()
        }
        Made::Integer(number) => Literal::integer_unsuffixed(alloc, *number).ok(),
        Made::IntegerOf(number, suffix) => {
            Literal::integer_suffixed(alloc, *number, *suffix).ok()?
        }
    }
}

// Returns `true` if the text of a literal is read as this one literal.
fn is_read_again(alloc: Global, literal: &Literal) -> Option<bool> {
    let stream = lex_source(alloc, Edition::default(), 0, literal.as_str()).ok()?;
    match stream.trees() {
        [TokenTree::Literal(read)] => Some(read.as_str() == literal.as_str()),
        _ => Some(false),
    }
}

fn is_made(alloc: Global, made: &Made<'_>, wanted: &str) -> Option<bool> {
    let literal = literal(alloc, made)?;
    let is_wanted = literal.as_str() == wanted && literal.span() == Span::call_site();
    Some(is_wanted && is_read_again(alloc, &literal)?)
}

// Checks the text of each literal, and that this text is read as the literal again.
fn all_made(rt: &(impl Abort + AllocGlobal), rows: &[(Made<'_>, &str)]) {
    for (made, wanted) in rows {
        assert_eq!(rt;
            is_made(rt.alloc(), made, wanted),
            Some(true),
            "at {wanted}"
        );
    }
}

#[test]
fn makes_integers(rt: HostRuntime) {
    all_made(
        &rt,
        &[
            (Made::Integer(0), "0"),
            (Made::Integer(10), "10"),
            (
                Made::Integer(u128::MAX),
                "340282366920938463463374607431768211455",
            ),
            (Made::IntegerOf(127, IntegerType::I8), "127i8"),
            (Made::IntegerOf(32_767, IntegerType::I16), "32767i16"),
            (
                Made::IntegerOf(2_147_483_647, IntegerType::I32),
                "2147483647i32",
            ),
            (
                Made::IntegerOf(9_223_372_036_854_775_807, IntegerType::I64),
                "9223372036854775807i64",
            ),
            (
                Made::IntegerOf(
                    170_141_183_460_469_231_731_687_303_715_884_105_727,
                    IntegerType::I128,
                ),
                "170141183460469231731687303715884105727i128",
            ),
            (Made::IntegerOf(0, IntegerType::Isize), "0isize"),
            (Made::IntegerOf(255, IntegerType::U8), "255u8"),
            (Made::IntegerOf(65_535, IntegerType::U16), "65535u16"),
            (
                Made::IntegerOf(4_294_967_295, IntegerType::U32),
                "4294967295u32",
            ),
            (
                Made::IntegerOf(18_446_744_073_709_551_615, IntegerType::U64),
                "18446744073709551615u64",
            ),
            (
                Made::IntegerOf(u128::MAX, IntegerType::U128),
                "340282366920938463463374607431768211455u128",
            ),
            (
                Made::IntegerOf(18_446_744_073_709_551_615, IntegerType::Usize),
                "18446744073709551615usize",
            ),
        ],
    );
}

// Returns `true` if the type has this number, and not the next one, and is found by its name.
fn is_largest(alloc: Global, number: u128, suffix: IntegerType) -> Option<bool> {
    let largest = Literal::integer_suffixed(alloc, number, suffix).ok()?;
    let after = number.checked_add(1)?;
    let next = Literal::integer_suffixed(alloc, after, suffix).ok()?;
    let is_found = IntegerType::of(suffix.name()) == Some(suffix);
    Some(largest.is_some() && next.is_none() && is_found)
}

fn all_largest(rt: &(impl Abort + AllocGlobal), rows: &[(u128, IntegerType)]) {
    for (number, suffix) in rows {
        assert_eq!(rt;
            is_largest(rt.alloc(), *number, *suffix),
            Some(true),
            "at {number}"
        );
    }
}

#[test]
fn types_have_largest_integers(rt: HostRuntime) {
    all_largest(
        &rt,
        &[
            (127, IntegerType::I8),
            (32_767, IntegerType::I16),
            (2_147_483_647, IntegerType::I32),
            (9_223_372_036_854_775_807, IntegerType::I64),
            (
                170_141_183_460_469_231_731_687_303_715_884_105_727,
                IntegerType::I128,
            ),
            (9_223_372_036_854_775_807, IntegerType::Isize),
            (255, IntegerType::U8),
            (65_535, IntegerType::U16),
            (4_294_967_295, IntegerType::U32),
            (18_446_744_073_709_551_615, IntegerType::U64),
            (18_446_744_073_709_551_615, IntegerType::Usize),
        ],
    );
}

#[test]
fn makes_literals(rt: HostRuntime) {
    all_made(
        &rt,
        &[
            (Made::String("foo"), "\"foo\""),
            (Made::String("\""), "\"\\\"\""),
            (Made::String("didn't"), "\"didn't\""),
            (Made::String("a\"b"), "\"a\\\"b\""),
            (Made::String("\\\n\r\t\0'é"), "\"\\\\\\n\\r\\t\\0'é\""),
            (Made::DocComment(" it's \"é\"\\"), "\" it's \\\"é\\\"\\\\\""),
            (Made::DocComment("\n\r\t\0"), "\"\\n\\r\\t\\0\""),
            (
                Made::DocComment("\u{1}\u{8}\u{B}\u{C}\u{E}\u{1F}\u{7F}\u{A0}\u{AD}"),
                "\"\\u{1}\\u{8}\\u{b}\\u{c}\\u{e}\\u{1f}\\u{7f}\\u{a0}\\u{ad}\"",
            ),
            (
                Made::DocComment("\u{300}\u{36F}\u{1680}\u{1AB0}\u{1AFF}\u{1DC0}\u{1DFF}"),
                "\"\\u{300}\\u{36f}\\u{1680}\\u{1ab0}\\u{1aff}\\u{1dc0}\\u{1dff}\"",
            ),
            (
                Made::DocComment(
                    "\u{2000}\u{200F}\u{2028}\u{202F}\u{205F}\u{206F}\u{20D0}\u{20FF}",
                ),
                "\"\\u{2000}\\u{200f}\\u{2028}\\u{202f}\\u{205f}\\u{206f}\\u{20d0}\\u{20ff}\"",
            ),
            (
                Made::DocComment(
                    "\u{3000}\u{E000}\u{F8FF}\u{FE00}\u{FE0F}\u{FE20}\u{FE2F}\u{FEFF}",
                ),
                "\"\\u{3000}\\u{e000}\\u{f8ff}\\u{fe00}\\u{fe0f}\\u{fe20}\\u{fe2f}\\u{feff}\"",
            ),
            (
                Made::DocComment("\u{FFF0}\u{FFFB}\u{E0000}\u{10FFFF}"),
                "\"\\u{fff0}\\u{fffb}\\u{e0000}\\u{10ffff}\"",
            ),
            (
                Made::DocComment(" ~¡¬®ʯͰ\u{1E00}‐‑‧‰⁞⁰₠℀、〈豈︐︰︱\u{FF01}\u{FFFC}\u{FFFD}𐀀\u{2FA1D}"),
                "\" ~¡¬®ʯͰ\u{1E00}‐‑‧‰⁞⁰₠℀、〈豈︐︰︱\u{FF01}\u{FFFC}\u{FFFD}𐀀\u{2FA1D}\"",
            ),
            (Made::Character('x'), "'x'"),
            (Made::Character('é'), "'é'"),
            (Made::Character('"'), "'\"'"),
            (Made::Character('\''), "'\\''"),
            (Made::Character('\\'), "'\\\\'"),
            (Made::Character('\n'), "'\\n'"),
            (Made::Character('\r'), "'\\r'"),
            (Made::Character('\t'), "'\\t'"),
            (Made::Character('\0'), "'\\0'"),
            (Made::ByteCharacter(b'a'), "b'a'"),
            (Made::ByteCharacter(b'\''), "b'\\''"),
            (Made::ByteCharacter(b'"'), "b'\\\"'"),
            (Made::ByteCharacter(0), "b'\\x00'"),
            (Made::ByteCharacter(0xFF), "b'\\xff'"),
            (Made::ByteString(b""), "b\"\""),
            (Made::ByteString(b"a'b\"c\\"), "b\"a\\'b\\\"c\\\\\""),
            (
                Made::ByteString(b"\0\t\n\r\"\\2\x10"),
                "b\"\\x00\\t\\n\\r\\\"\\\\2\\x10\"",
            ),
            (
                Made::ByteString(b"\n\r\t\0\x7F\x80"),
                "b\"\\n\\r\\t\\x00\\x7f\\x80\"",
            ),
            (Made::CString(b"\0"), "c\"\""),
            (Made::CString(b"it's \xC3\xA9\0"), "c\"it\\'s \\xc3\\xa9\""),
        ],
    );
}

//! Classes of characters, by which the lexer selects the rules that may fit.
ghost use Rattle.std.specs.Prelude.{◌≡◌, ◌≤◌};
ghost use Rattle.std.specs.Str.{chars};
ghost use Rattle.tok_lexical.specs.Private.Starts.{start_of, is_mark};
ghost use Rattle.tok_lexical.specs.Starts.{begins_letter, begins_punct};

use crate::classes::is_whitespace;
use crate::delimiter::Delimiter;
use crate::text::next_ascii;
use crate::words::is_identifier_start;

/// A class of characters that can begin a text.
///
/// The class of the first character determines which rules of the grammar may fit the text.
#[derive(Clone, Copy, Debug)]
pub enum Start {
    Whitespace,
    Zero,
    Digit,
    /// The letters `b`, `c` and `r`, which can begin an identifier, a raw identifier or a literal.
    Prefix,
    Letter,
    Slash,
    Quote,
    Apostrophe,
    Opening(Delimiter),
    Closing(Delimiter),
    Punct,
    Rest,
}

// For each ASCII character one that begins the same pieces.
static ASCII: [u8; 128] = *b"\
    ?????????     ??????????????????\
    \x20+\"++++'()+++++/0111111111++++++\
    +aaaaaaaaaaaaaaaaaaaaaaaaaa[?]+a\
    ?abbaaaaaaaaaaaaaabaaaaaaaa{+}+?";

/// Returns `true` if `text` begins with an ASCII character that can only begin an identifier.
#[inline(always)]
pub fn begins_letter(text: &str) -> bool
    ensures { result ≡ begins_letter (chars text.now) }
{
    match next_ascii(text) {
        Some((first, _)) => ASCII[first as usize] == b'a',
        None => false,
    }
}

/// Returns `true` if `text` begins with a punctuation character other than an apostrophe or `/`.
#[inline(always)]
pub fn begins_punct(text: &str) -> bool
    ensures { result ≡ begins_punct (chars text.now) }
{
    match next_ascii(text) {
        Some((first, _)) => ASCII[first as usize] == b'+',
        None => false,
    }
}

fn is_mark(c: char) -> bool
    ensures { result ≡ is_mark c }
{
    matches!(c, '\u{FEFF}' | '\u{AB}' | '\u{BB}')
}

impl Start {
    /// Returns the class of `c`, which is the first character of a text.
    #[inline(always)]
    #[tactic(auto, using(crate::proofs::Starts::start_by))]
    pub fn of(c: char) -> Start
        ensures { result ≡ start_of c }
    {
        if c >= '\u{80}' {
            return Start::of_other(c);
        }
        match ASCII[c as usize] {
            b' ' => Start::Whitespace,
            b'0' => Start::Zero,
            b'1' => Start::Digit,
            b'b' => Start::Prefix,
            b'a' => Start::Letter,
            b'/' => Start::Slash,
            b'"' => Start::Quote,
            b'\'' => Start::Apostrophe,
            b'(' => Start::Opening(Delimiter::Parenthesis),
            b')' => Start::Closing(Delimiter::Parenthesis),
            b'[' => Start::Opening(Delimiter::Bracket),
            b']' => Start::Closing(Delimiter::Bracket),
            b'{' => Start::Opening(Delimiter::Brace),
            b'}' => Start::Closing(Delimiter::Brace),
            b'+' => Start::Punct,
            _ => Start::Rest,
        }
    }

    // Returns `true` if the second character may decide the rule.
    #[inline(always)]
    pub fn has_second(self) -> bool {
        matches!(self, Start::Zero | Start::Digit | Start::Prefix)
    }

    // Returns the start of a character beyond ASCII.
    fn of_other(c: char) -> Start
        requires { 128 ≤ c }
        ensures { result ≡ start_of c }
    {
        if is_mark(c) {
            Start::Rest
        } else if is_whitespace(c) {
            Start::Whitespace
        } else if is_identifier_start(c) {
            Start::Letter
        } else {
            Start::Rest
        }
    }
}

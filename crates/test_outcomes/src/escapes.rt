//! Texts as they stand in a line: `~n`, `~r`, `~t` and `~m` are a line feed, a carriage return, a
//! tab and a `~`, `~u{301}` is the character of this number, and `~255{(a }` is `(a ` 255 times.
use std::alloc::Global;

/// Returns the text that stands in a line, or `None` if it is none or an allocation fails.
pub fn unescaped(alloc: Global, line: &str) -> Option<String> {
    let mut text = String::new(alloc);
    let mut is_escape = false;
    for part in line.split('~') {
        if is_escape {
            push_escape(&mut text, part)?;
        } else {
            text.push_str(part).ok()?;
        }
        is_escape = true;
    }
    Some(text)
}

// Appends what stands after a `~`.
fn push_escape(text: &mut String, part: &str) -> Option<()> {
    if let Some(rest) = part.strip_prefix('n') {
        push(text, '\n', rest)
    } else if let Some(rest) = part.strip_prefix('r') {
        push(text, '\r', rest)
    } else if let Some(rest) = part.strip_prefix('t') {
        push(text, '\t', rest)
    } else if let Some(rest) = part.strip_prefix('m') {
        push(text, '~', rest)
    } else {
        let (kind, rest) = part.split_once('{')?;
        let (inside, rest) = rest.split_once('}')?;
        if kind == "u" {
            let number = u32::from_str_radix(inside, 16).ok()?;
            push(text, char::from_u32(number)?, rest)
        } else {
            push_times(text, inside, kind.parse().ok()?, rest)
        }
    }
}

fn push(text: &mut String, first: char, rest: &str) -> Option<()> {
    text.push(first).ok()?;
    text.push_str(rest).ok()
}

fn push_times(text: &mut String, piece: &str, times: usize, rest: &str) -> Option<()> {
    for _ in 0..times {
        text.push_str(piece).ok()?;
    }
    text.push_str(rest).ok()
}

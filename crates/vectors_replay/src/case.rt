//! Stored cases, in one file.
ghost use Rattle.std.specs.Prelude.{◌<◌, IfSome, length};

use std::str::from_utf8;

/// A run of the program: its input, the output that it must write, and its status.
#[derive(Clone, Copy)]
pub struct Case<'a> {
    pub name: &'a str,
    pub input: &'a [u8],
    pub output: &'a [u8],
    pub status: u8,
}

/// Splits off the first case.
///
/// A case is the line `case NAME INPUT OUTPUT STATUS`, with two lengths in bytes, and then the
/// bytes of the input and of the output.
pub fn first_case(bytes: &[u8]) -> Option<(Case<'_>, &[u8])>
    ensures shorter { IfSome result (λ p. length p.1.now < length bytes.now) }
{
    let end = bytes.iter().position(|b| *b == b'\n')?;
    let (line, rest) = bytes.split_at_checked(end)?;
    let rest = rest.get(1..)?;
    let mut words = from_utf8(line).ok()?.split(' ');
    if words.next()? != "case" {
        return None;
    }
    let name = words.next()?;
    let input_len = words.next()?.parse::<usize>().ok()?;
    let output_len = words.next()?.parse::<usize>().ok()?;
    let status = words.next()?.parse::<u8>().ok()?;
    let (input, rest) = rest.split_at_checked(input_len)?;
    let (output, rest) = rest.split_at_checked(output_len)?;
    let case = Case {
        name,
        input,
        output,
        status,
    };
    Some((case, rest))
}

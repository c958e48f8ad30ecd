//! Functions that read the program's input and split it into parts.
ghost use Rattle.std.specs.Prelude.{◌≡◌, ◌∷◌, ◌++◌, true, false, IfErr, IfOk, IfSome, Some, None, MatchOption};
ghost use Rattle.std.specs.List.{All};
ghost use Rattle.std.specs.Str.{IsUtf8};
ghost use Rattle.replay_program.specs.Failures.{reading};
ghost use Rattle.replay_program.specs.Input as spec;
ghost use Rattle.syn_replay.specs.ReportText.{as_line};

use crate::channel::Source;
use memchr::{memchr, memmem};
use std::alloc::Global;
use std::io::ErrorKind;

// The most bytes that one read returns.
const CHUNK: usize = 4096;

/// The reason why an input could not be read.
#[derive(Drop)]
pub enum ReadFault {
    /// A read failed, or the input had not ended after 4,294,967,295 reads.
    Failed,
    /// An allocation failed.
    Memory,
}

/// Reads `input` to its end, and returns its bytes.
///
/// The call repeats a read that was interrupted. It returns an error if a read fails, if the input
/// has not ended after 4,294,967,295 reads, or if an allocation fails.
pub fn read_input<S: Source>(alloc: Global, input: &mut S) -> Result<Vec<u8>, ReadFault>
    ensures bytes { IfSome (S.remaining input.old) (λ bytes. IfOk result (λ v. v.items ≡ bytes)) }
    ensures whole { IfOk result (λ v. (reading S.reads input.old input.new).whole v.items) }
    ensures part { IfErr result
        (λ fault. fault ≡ ReadFault.Memory → (reading S.reads input.old input.new).part) }
    ensures failed { IfErr result
        (λ fault. fault ≡ ReadFault.Failed → (reading S.reads input.old input.new).failed) }
{
    let mut bytes = Vec::new(alloc);
    let mut chunk = [0u8; CHUNK];
    for _i in 0..u32::MAX {
        match input.read_some(&mut chunk) {
            Ok(0) => return Ok(bytes),
            Ok(n) => {
                if bytes.extend_from_slice(&chunk[..n]).is_err() {
                    return Err(ReadFault::Memory);
                }
            }
            Err(error) if error.kind() == ErrorKind::Interrupted => {}
            Err(_) => return Err(ReadFault::Failed),
        }
    }
    Err(ReadFault::Failed)
}

/// Splits `input` into a text, an optional second text, and the remaining lines.
///
/// A line `---` ends each text. Returns `None` unless `input` contains one or two such lines.
pub fn parts(input: &str) -> Option<(&str, Option<&str>, Option<&str>)>
    ensures parts { MatchOption result
        (spec.parts_of input.now ≡ None)
        (λ p. spec.parts_of input.now ≡ Some (p.0.now, spec.text_in p.1, spec.lines_left p.2)) }
    ensures utf8 { IfSome result
        (λ p. IsUtf8 p.0.now × IfSome p.1 (λ other. IsUtf8 other.now)
        × IfSome p.2 (λ rest. IsUtf8 rest.now)) }
{
    let (text, rest) = cut(Some(input))?;
    let Some((other, lines)) = cut_again(rest) else {
        return Some((text, None, rest));
    };
    match cut_again(lines) {
        Some(_) => None,
        None => Some((text, Some(other), lines)),
    }
}

// Splits an input at the first line `---`.
fn cut(input: Option<&str>) -> Option<(&str, Option<&str>)>
    requires { IfSome input (λ input. IsUtf8 input.now) }
    ensures parts { spec.IsCutOff input.entry result }
    ensures utf8 { spec.AreUtf8 result }
{
    let text = input?;
    let mut left = input;
    while let Some(rest) = left {
        let (line, after) = first_line(rest);
        if line == "---" {
            return Some((&text[..text.len() - rest.len()], after));
        }
        left = after;
    }
    None
}

// Splits what is left of an input, as `cut` does. Mostly it is a list of commands, and has no `---`.
fn cut_again(input: Option<&str>) -> Option<(&str, Option<&str>)>
    requires { IfSome input (λ input. IsUtf8 input.now) }
    ensures parts { spec.IsCutOff input.entry result }
    ensures utf8 { spec.AreUtf8 result }
{
    let text = input?;
    if lacks_cuts(text) {
        return None;
    }
    cut(input)
}

// Returns `true` if the text has no `---`, as most lists of commands.
fn lacks_cuts(text: &str) -> bool
    ensures { result ≡ true → All (λ line. spec.is_cut line ≡ false) (spec.lines text.now) }
{
    match memmem::find(text.as_bytes(), b"---") {
        None => true,
        Some(_) => false,
    }
}

/// Returns the first line of `rest`, and the text after this line.
///
/// The line feed after the line is in neither part. If `rest` contains no line feed, the second
/// part is `None`.
pub fn first_line(rest: &str) -> (&str, Option<&str>)
    ensures lines { spec.lines rest.now ≡ result.0.now ∷ spec.lines_left result.1 }
    ensures concat { IfSome result.1 (λ after. rest.now ≡ as_line result.0.now ++ after.now) }
    ensures utf8 { IsUtf8 result.0.now × IfSome result.1 (λ after. IsUtf8 after.now) }
{
    match memchr(b'\n', rest.as_bytes()) {
        Some(end) => (&rest[..end], Some(&rest[end + 1..])),
        None => (rest, None),
    }
}

//! A function that reads the value of a literal.
ghost use Rattle.std.specs.Prelude.{◌≡◌, [], IfOk};
ghost use Rattle.tok_leaves.specs.Leaves.{leaf_text, literal_of};
ghost use Rattle.syn_tokens_c.specs.Values.{Gives, HasBytesAlone, HasNeither, IsBare, IsValue, IsValued};

use std::alloc::{AllocError, Global};
use std::str::from_utf8;
use tok_core::{Literal, Span, Text};
use tok_leaves::known::unchecked_literal;
use tok_values::LiteralExt;

const READ: u32 = 0;

const NOT_UTF8: u32 = 2;

const NO_MEMORY: u32 = 3;

const NO_ROOM: u32 = 4;

const NONE: u32 = 0;

const STRING: u32 = 1;

const BYTE_STRING: u32 = 2;

const CHARACTER: u32 = 3;

const BYTE: u32 = 4;

const INTEGER: u32 = 5;

const FLOAT: u32 = 6;

/// The value of a literal, as a plain struct.
#[repr(C)]
#[derive(Clone, Copy)]
pub struct LiteralValue {
    /// The status: 0 if the text was read, 2 if the text is not UTF-8, 3 if an allocation failed,
    /// or 4 if there is too little room.
    pub status: u32,
    /// The kind of the value: 1 for a string, 2 for a byte string, 3 for a character, or 4 for a
    /// byte. The kind is 5 for an integer below 2^64, or 6 for a float or a larger decimal integer.
    /// If the literal has none of these values, the kind is 0.
    pub kind: u32,
    /// The code point of a character, or the value of a byte or an integer. For a value of another
    /// kind, this number is 0.
    pub number: u64,
    /// The double that is nearest to the value of a float. For a value of another kind, this number
    /// is 0.
    pub float: f64,
    /// The number of bytes in the suffix of an integer. For a value of another kind, this number is
    /// 0.
    pub suffix: usize,
    /// The number of bytes in the value of a string or a byte string.
    pub bytes: usize,
}

// A value, in memory of its own.
#[derive(Drop)]
struct Found {
    kind: u32,
    number: u64,
    float: f64,
    suffix: usize,
    bytes: Vec<u8>,
}

impl Found {
    fn of_bytes(kind: u32, bytes: Vec<u8>) -> Found
        ensures kind { result.kind ≡ kind }
        ensures bytes { result.bytes.items ≡ bytes.items }
        ensures alone { HasBytesAlone result }
    {
        Found {
            kind,
            number: 0,
            float: 0.0,
            suffix: 0,
            bytes,
        }
    }

    fn of_number(alloc: Global, kind: u32, number: u64, suffix: usize) -> Found
        ensures kind { result.kind ≡ kind }
        ensures number { result.number ≡ number }
        ensures suffix { result.suffix ≡ suffix }
        ensures bytes { result.bytes.items ≡ [] }
    {
        Found {
            kind,
            number,
            float: 0.0,
            suffix,
            bytes: Vec::new(alloc),
        }
    }

    fn of_float(alloc: Global, kind: u32, float: f64) -> Found
        ensures kind { result.kind ≡ kind }
        ensures float { result.float ≡ float }
        ensures alone { HasNeither result }
    {
        Found {
            kind,
            number: 0,
            float,
            suffix: 0,
            bytes: Vec::new(alloc),
        }
    }

    // Writes the value, if there is room for it, and else nothing.
    fn write(&self, bytes: &mut [u8]) -> LiteralValue
        ensures { Gives self.now result bytes.old bytes.new }
    {
        let size = self.bytes.len();
        let mut value = bare(NO_ROOM);
        value.bytes = size;
        if size <= bytes.len() {
            bytes[..size].copy_from_slice(self.bytes.as_slice());
            value.status = READ;
            value.kind = self.kind;
            value.number = self.number;
            value.float = self.float;
            value.suffix = self.suffix;
        }
        value
    }
}

// Makes a value with nothing to write.
fn bare(status: u32) -> LiteralValue
    ensures { IsBare status result }
{
    LiteralValue {
        status,
        kind: NONE,
        number: 0,
        float: 0.0,
        suffix: 0,
        bytes: 0,
    }
}

// Finds the value of a literal. It has one of a kind at most.
fn find(alloc: Global, literal: &Literal) -> Result<Found, AllocError>
    ensures { IfOk result (λ found. IsValue (leaf_text (literal_of literal.now)) found) }
{
    if let Some(text) = literal.string_value(alloc)? {
        return Ok(Found::of_bytes(STRING, text.into_bytes()));
    }
    if let Some(bytes) = literal.bytes_value(alloc)? {
        return Ok(Found::of_bytes(BYTE_STRING, bytes));
    }
    if let Some(c) = literal.char_value() {
        return Ok(Found::of_number(alloc, CHARACTER, u64::from(u32::from(c)), 0));
    }
    if let Some(byte) = literal.byte_value() {
        return Ok(Found::of_number(alloc, BYTE, u64::from(byte), 0));
    }
    if let Ok(integer) = literal.integer_value() {
        return Ok(Found::of_number(alloc, INTEGER, integer.value, integer.suffix.len()));
    }
    match literal.float_value(alloc)? {
        Some(float) => Ok(Found::of_float(alloc, FLOAT, float)),
        None => Ok(Found::of_float(alloc, NONE, 0.0)),
    }
}

// Reads the text of a literal.
fn read(alloc: Global, text: &str) -> Result<Found, AllocError>
    ensures { IfOk result (λ found. IsValue text.now found) }
{
    let literal = unchecked_literal(Text::from_str(alloc, text)?, Span::call_site());
    find(alloc, &literal)
}

/// Reads the value of a literal from the text of its leaf, and writes the value to `value`.
///
/// The call writes the value of a string or a byte string to the start of `bytes`. If `bytes` is
/// too short, the call writes nothing to it. `value` then contains the required length, and the
/// caller can repeat the call with a longer slice.
#[unsafe(no_mangle)]
pub extern "C" fn syn_tokens_value(
    alloc: Global,
    text: &[u8],
    bytes: &mut [u8],
    value: &mut LiteralValue,
)
    ensures { IsValued text.now value.new bytes.old bytes.new }
{
    *value = match from_utf8(text) {
        Ok(text) => match read(alloc, text) {
            Ok(found) => found.write(bytes),
            Err(AllocError) => bare(NO_MEMORY),
        },
        Err(_) => bare(NOT_UTF8),
    };
}

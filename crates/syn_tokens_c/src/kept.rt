//! The memory that the library keeps for a caller.
ghost use Rattle.std.specs.Prelude.{◌≡◌, [], ◌∷◌, ◌++◌, IfOk, string_bytes};

use std::alloc::{AllocError, Global};
use tok_entries::Entry;

/// The entries of a text, and the bytes of their texts with a zero byte at the end.
#[derive(Drop)]
pub struct Kept {
    pub entries: Vec<Entry>,
    pub bytes: Vec<u8>,
}

// From how many unused entries and bytes on the room is given back: in both some 4 KiB.
//
// The caller may keep the memory for long. So the library gives room of long texts back sooner than
// `tok_core::room::fitted` does, and keeps what it has if that allocation fails.
const SPARE_ENTRIES: usize = 85;

const SPARE_BYTES: usize = 4096;

// Boxes entries and the bytes of a text.
pub fn keep(alloc: Global, mut entries: Vec<Entry>, text: String) -> Result<Box<Kept>, AllocError>
    ensures entries { IfOk result (λ kept. kept.value.entries.items ≡ entries.items) }
    ensures bytes { IfOk result (λ kept. kept.value.bytes.items ≡ string_bytes text ++ 0 ∷ []) }
{
    let mut bytes = text.into_bytes();
    bytes.push(0)?;
    if entries.capacity() - entries.len() >= SPARE_ENTRIES {
        entries.shrink_to_fit();
    }
    if bytes.capacity() - bytes.len() >= SPARE_BYTES {
        bytes.shrink_to_fit();
    }
    Ok(Box::new(alloc, Kept { entries, bytes })?)
}

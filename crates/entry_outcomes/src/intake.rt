//! A function that reads a caller's entries into a buffer.
ghost use Rattle.std.specs.Prelude.{◌≡◌, length, IfOk, IfErr};
ghost use Rattle.tok_core.specs.Forest.{Forest};
ghost use Rattle.tok_entries.specs.Denotes.{Denotes, DenotesNone};
ghost use Rattle.tok_entries.specs.Refusals.{IsAmong, OnDenied, OnRejected};
ghost use Rattle.tok_pruned.specs.Pruned.{pruned};
ghost use Rattle.entry_outcomes.specs.Parsed.{BlamesBytes};

use std::alloc::Global;
use std::str::from_utf8;
use tok_buffer::TokenBuffer;
use tok_entries::{Entry, EntryFault, Refusal};

/// Creates a buffer from `entries` and `texts`, in the same way as `TokenBuffer::from_entries`.
///
/// The bytes of `texts` do not have to be UTF-8. If they are not UTF-8, the call returns an error
/// with `Refusal::Text` and the entry number 0.
pub fn read_entries(
    alloc: Global,
    entries: &[Entry],
    texts: &[u8],
) -> Result<TokenBuffer, EntryFault>
    ensures denotes { IfOk result
        (λ b. (f : Forest) × Denotes entries.now texts.now f × (b.forest ≡ pruned f)) }
    ensures number { IfOk result (λ b. b.number ≡ 0) }
    ensures refuses { IfErr result
        (λ fault. OnDenied fault (DenotesNone entries.now texts.now)) }
    ensures blames { IfErr result
        (λ fault. OnRejected fault (BlamesBytes entries.now texts.now)) }
    ensures names { IfErr result (λ fault. IsAmong 0 (length entries.now) fault) }
{
    match from_utf8(texts) {
        Ok(texts) => TokenBuffer::from_entries(alloc, 0, entries, texts),
        Err(_) => Err(EntryFault::Refused(Refusal::Text, 0)),
    }
}

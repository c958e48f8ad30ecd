//! Makes the calls of `syn_parse`, `syn_punctuated`, `arguments` and `entry_outcomes` that allocate.
//!
//! The status is 0 if each allocation succeeds, 3 if one fails and so does a call, and 1 if
//! something is wrong; then the name of the call is printed. Before the calls it makes one
//! allocation for each byte of its input: so `tests/refuse_each` makes each allocation of the calls
//! fail in turn.
//!
//! Some inputs are names. For `buffer` it lays out an empty stream and does nothing else. For `laid
//! out` it lays out some tokens, and for `free` the same tokens, on which it then makes calls that
//! don't allocate. For `listed` it makes lists, and for `emptied` the same ones, which it then
//! empties. For `exact` it makes texts, and for `shared` it clones the same ones too; so for `roomy`
//! and `copied`. For `kept` and the name of a call it adds several things by that call: if an
//! allocation fails, the status is 10 and how many are there.
#![tactic(auto)]

mod argument_lists;
mod entries;
mod kept;
mod lists;
mod streams;
mod texts;

use kept::Kept;
use std::alloc::Global;
use std::io::Read;
use std::process::ExitCode;
use test_outcomes::memory::{Outcome, Stop, expect, made, spend, status, worst};
use tok_buffer::TokenBuffer;
use tok_core::TokenStream;

fn main(rt: HostRuntime) -> ExitCode {
    let mut bytes = [0u8; 1024];
    let Ok(count) = rt.stdin().read(&mut bytes) else {
        return ExitCode::FAILURE;
    };
    let alloc = rt.alloc();
    let outcome = if bytes.starts_with(b"buffer") {
        empty_buffer(alloc)
    } else if bytes.starts_with(b"laid out") {
        streams::free::laid_out(alloc)
    } else if bytes.starts_with(b"free") {
        streams::free::calls(alloc)
    } else if bytes.starts_with(b"listed") {
        lists::listed(alloc)
    } else if bytes.starts_with(b"emptied") {
        lists::emptied(alloc)
    } else if bytes.starts_with(b"exact") {
        texts::exact(alloc)
    } else if bytes.starts_with(b"shared") {
        texts::shared(alloc)
    } else if bytes.starts_with(b"roomy") {
        texts::roomy(alloc)
    } else if bytes.starts_with(b"copied") {
        texts::copied(alloc)
    } else if bytes.starts_with(b"kept ") {
        match kept_by(alloc, &bytes[5..], count) {
            Ok(kept) if kept.is_refused => return ExitCode::from(status_of(kept.count)),
            Ok(_) => Ok(()),
            Err(stop) => Err(stop),
        }
    } else {
        run(alloc, count)
    };
    let (status, call) = status(outcome);
    let _ = print!(rt; "{call}");
    status
}

// Lays out an empty stream. If the first allocation fails nothing is made, and there is no second
// one.
fn empty_buffer(alloc: Global) -> Outcome {
    let buffer = made(TokenBuffer::new2(alloc, 0, TokenStream::new(alloc)))?;
    expect(buffer.begin().eof(), "TokenBuffer::new2")
}

// Returns what the call with this name keeps, after this many other allocations.
fn kept_by(alloc: Global, call: &[u8], before: usize) -> Result<Kept, Stop> {
    made(spend(alloc, before))?;
    if call.starts_with(b"tokens") {
        kept::tokens(alloc)
    } else if call.starts_with(b"values") {
        kept::values(alloc)
    } else if call.starts_with(b"pairs") {
        kept::pairs(alloc)
    } else {
        kept::errors(alloc)
    }
}

fn status_of(count: usize) -> u8 {
    u8::try_from(count.saturating_add(10)).unwrap_or(u8::MAX)
}

fn run(alloc: Global, before: usize) -> Outcome {
    made(spend(alloc, before))?;
    worst(&[
        lists::calls(alloc),
        streams::calls(alloc),
        argument_lists::calls(alloc),
        entries::calls(alloc),
    ])
}

//! A function that reads a text into memory that the library keeps.
ghost use Rattle.std.specs.Prelude.{◌⊎◌};
ghost use Rattle.std.specs.Str.{chars};
ghost use Rattle.syn_tokens_c.specs.Opened.{Hands, HandsAnswer, HandsNothing, HandsOver, Opens, follows};
ghost use Rattle.syn_tokens_c.specs.Outcomes.{answered, lexed_answer};
ghost use Rattle.tok_entries.specs.Lexed.{Writes};

use crate::handle::Handle;
use crate::kept::keep;
use crate::read::{Answer, Reading};
use crate::rules::{Rules, rules_of};
use simdutf8::basic::from_utf8;
use std::alloc::{AllocError, Global};
use std::ptr::null;
use tok_core::LexFault;
use tok_entries::{Entry, LexedEntries};

const NOT_UTF8: u32 = 2;

const NO_MEMORY: u32 = 3;

const NO_EDITION: u32 = 5;

/// The outcome of opening a text, with pointers to the entries and the bytes that were read.
///
/// The pointers are valid until the handle is closed or opened again. If the handle holds no
/// memory, both pointers are null.
#[repr(C)]
#[derive(Clone, Copy)]
pub struct Opened {
    pub reading: Reading,
    pub entries: *const Entry,
    /// A pointer to the texts of the leaves, or to the text of the error, with a zero byte at the
    /// end.
    pub bytes: *const u8,
}

impl Answer {
    // Hands the answer out, or nothing if an allocation fails.
    fn hand(self, alloc: Global, handle: &mut Handle) -> Opened
        ensures { Hands (answered self) result handle.new ⊎ HandsNothing 3 result handle.new }
    {
        let Answer {
            status,
            rule,
            at,
            entries,
            bytes,
        } = self;
        let reading = Reading {
            status,
            rule,
            at,
            entries: entries.len(),
            bytes: bytes.len(),
        };
        match keep(alloc, entries, bytes) {
            Ok(kept) => {
                let opened = Opened {
                    reading,
                    entries: kept.entries.as_ptr(),
                    bytes: kept.bytes.as_ptr(),
                };
                handle.put(alloc, kept);
                opened
            }
            Err(AllocError) => hand_nothing(alloc, NO_MEMORY, handle),
        }
    }
}

// Hands nothing out.
fn hand_nothing(alloc: Global, status: u32, handle: &mut Handle) -> Opened
    ensures { HandsNothing status result handle.new }
{
    handle.clear(alloc);
    Opened {
        reading: Reading {
            status,
            rule: 0,
            at: 0,
            entries: 0,
            bytes: 0,
        },
        entries: null(),
        bytes: null(),
    }
}

// Hands an answer out, if no allocation failed.
fn hand_answer(alloc: Global, answer: Result<Answer, AllocError>, handle: &mut Handle) -> Opened
    ensures { HandsAnswer answer result handle.new }
{
    match answer {
        Ok(answer) => answer.hand(alloc, handle),
        Err(AllocError) => hand_nothing(alloc, NO_MEMORY, handle),
    }
}

// Hands out what came of a text.
fn hand(alloc: Global, lexed: Result<LexedEntries, LexFault>, handle: &mut Handle) -> Opened
    ensures { HandsOver lexed_answer lexed result handle.new }
{
    match lexed {
        Ok(lexed) => hand_answer(alloc, Ok(Answer::lexed(lexed)), handle),
        Err(LexFault::Refused(error)) => {
            hand_answer(alloc, Answer::rejected(alloc, error), handle)
        }
        Err(LexFault::Memory) => hand_nothing(alloc, NO_MEMORY, handle),
    }
}

// Reads a text by these rules.
fn lex_by(alloc: Global, rules: Rules, text: &str) -> Result<LexedEntries, LexFault>
    ensures { Writes (follows rules (chars text.now)) result }
{
    match rules {
        Rules::Plain => LexedEntries::from_text(alloc, text),
        Rules::Marked => LexedEntries::from_marked(alloc, text),
        Rules::Source(edition) => LexedEntries::from_source(alloc, edition, text),
    }
}

/// Reads `text` into memory that `handle` then holds, and writes pointers to the entries and the
/// bytes to `opened`.
///
/// `rules` is 0 for the rules of `lex`, or 1 for the rules of `lex_marked`. For the rules of
/// `lex_source`, `rules` is the year of an edition (2015, 2018, 2021 or 2024). The call frees the
/// memory that `handle` held before.
///
/// If `text` is not UTF-8, if there is no such edition, or if an allocation fails, `handle` holds
/// no memory after the call.
#[tactic(auto, using(crate::proofs::Lexing::opened))]
#[unsafe(no_mangle)]
pub extern "C" fn syn_tokens_open(
    alloc: Global,
    rules: u32,
    text: &[u8],
    handle: &mut Handle,
    opened: &mut Opened,
)
    ensures { Opens rules text.now opened.new handle.new }
{
    let Some(rules) = rules_of(rules) else {
        *opened = hand_nothing(alloc, NO_EDITION, handle);
        return;
    };
    *opened = match from_utf8(text) {
        Ok(text) => hand(alloc, lex_by(alloc, rules, text), handle),
        Err(_) => hand_nothing(alloc, NOT_UTF8, handle),
    };
}

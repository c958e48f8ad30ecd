//! Answers, which contain everything that an exported function writes.
ghost use Rattle.std.specs.Prelude.{◌≡◌, ◌++◌, IfOk, OnOk, length, string_bytes};
ghost use Rattle.entry_outcomes.specs.Answers as spec;
ghost use Rattle.entry_outcomes.specs.Answers.{IsWritten, Returns, Writes, answered, bare, given_of_fault};

use crate::outcome::{
    DONE, MALFORMED, Message, NO_MEMORY, NO_ROOM, Outcome, REJECTED, message_of, refusal_number,
};
use crate::parse::EntriesFault;
use std::alloc::{AllocError, Global};
use tok_buffer::Error;

/// Everything that an exported function writes: values and their texts, or the messages of an
/// error.
///
/// An answer owns its memory.
#[derive(Drop)]
pub struct Answer<T> {
    status: u32,
    refusal: u32,
    entry: usize,
    /// The values that the exported function writes.
    pub values: Vec<T>,
    messages: Vec<Message>,
    /// The texts of the values, or the texts of the messages.
    pub texts: String,
}

impl<T: Copy + Drop> Answer<T> {
    /// Creates an empty answer, to which the caller can add values and their texts.
    pub fn new(alloc: Global) -> Answer<T>
        ensures { answered result ≡ bare 0 }
    {
        Answer::bare(alloc, DONE)
    }

    /// Creates an answer that has a status and a text, but no values or messages.
    pub fn of_text(alloc: Global, status: u32, text: String) -> Answer<T>
        ensures { answered result ≡ spec.given_text status (string_bytes text) }
    {
        Answer {
            status,
            refusal: 0,
            entry: 0,
            values: Vec::new(alloc),
            messages: Vec::new(alloc),
            texts: text,
        }
    }

    // Creates an answer with nothing to write.
    fn bare(alloc: Global, status: u32) -> Answer<T>
        ensures { answered result ≡ bare status }
    {
        Answer::of_text(alloc, status, String::new(alloc))
    }

    /// Creates the answer that reports `fault` to a caller.
    ///
    /// If a parser rejected the tokens, the answer contains every message of the error, with its
    /// span and text.
    ///
    /// Returns an error if an allocation fails.
    pub fn of_fault(alloc: Global, fault: EntriesFault) -> Result<Answer<T>, AllocError>
        ensures { IfOk result (λ a. answered a ≡ given_of_fault fault) }
    {
        match fault {
            EntriesFault::Malformed(refusal, entry) => {
                let mut answer = Answer::bare(alloc, MALFORMED);
                answer.refusal = refusal_number(refusal);
                answer.entry = entry;
                Ok(answer)
            }
            EntriesFault::Rejected(error) => {
                let mut answer = Answer::bare(alloc, REJECTED);
                push_messages(&mut answer.messages, &mut answer.texts, error)?;
                Ok(answer)
            }
            EntriesFault::Memory => Ok(Answer::bare(alloc, NO_MEMORY)),
        }
    }

    // Writes all, if there is room for it, and else nothing.
    fn write(&self, values: &mut [T], messages: &mut [Message], bytes: &mut [u8]) -> Outcome
        ensures { Returns (answered self.now) result values.old values.new messages.old messages.new
            bytes.old bytes.new }
    {
        let count = self.values.len();
        let said = self.messages.len();
        let size = self.texts.len();
        let mut outcome = Outcome {
            status: NO_ROOM,
            refusal: 0,
            entry: 0,
            values: count,
            messages: said,
            bytes: size,
        };
        if count <= values.len() && said <= messages.len() && size <= bytes.len() {
            values[..count].copy_from_slice(self.values.as_slice());
            messages[..said].copy_from_slice(self.messages.as_slice());
            bytes[..size].copy_from_slice(self.texts.as_bytes());
            outcome.status = self.status;
            outcome.refusal = self.refusal;
            outcome.entry = self.entry;
        }
        outcome
    }
}

/// Writes `answer` to the start of `values`, `messages` and `bytes`.
///
/// If one of these slices is too short, the call writes nothing, and the returned outcome contains
/// the required lengths. If an allocation failed, the status of the outcome is 3.
pub fn write<T: Copy + Drop>(
    alloc: Global,
    answer: Result<Answer<T>, AllocError>,
    values: &mut [T],
    messages: &mut [Message],
    bytes: &mut [u8],
) -> Outcome
    ensures writes { Writes answer result values.old values.new messages.old messages.new
        bytes.old bytes.new }
    ensures written { IsWritten result values.old values.new messages.old messages.new bytes.old
        bytes.new }
{
    match answer {
        Ok(answer) => answer.write(values, messages, bytes),
        Err(AllocError) => Answer::bare(alloc, NO_MEMORY).write(values, messages, bytes),
    }
}

// Appends the messages of an error, and their texts.
fn push_messages(
    messages: &mut Vec<Message>,
    texts: &mut String,
    error: Error,
) -> Result<(), AllocError>
    ensures messages { OnOk result (messages.new.items
        ≡ messages.old.items ++ spec.messages (length (string_bytes texts.old)) error) }
    ensures texts { OnOk result
        (string_bytes texts.new ≡ string_bytes texts.old ++ spec.message_texts error) }
{
    for one in error {
        let begin = texts.len();
        texts.push_str(one.as_str())?;
        messages.push(message_of(one.span(), begin, texts.len()))?;
    }
    Ok(())
}

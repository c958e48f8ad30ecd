//! Functions that write sample structs, with which a caller can check the layout of its structs.
ghost use Rattle.std.specs.Prelude.{◌≡◌, length, replicate};
ghost use Rattle.syn_tokens_c.specs.Samples.{argument_sample, entry_sample, message_sample, opened_sample, outcome_sample, place_sample, reading_sample, step_sample, IsValueSample};

use crate::flat::FlatArgument;
use crate::open::Opened;
use crate::read::Reading;
use crate::value::LiteralValue;
use entry_outcomes::{Message, Outcome};
use std::ptr::null;
use tok_carets::LineColumn;
use tok_entries::Entry;
use tok_entries::cursor::Step;

fn reading_sample() -> Reading
    ensures { result ≡ reading_sample }
{
    Reading {
        status: 9,
        rule: 10,
        at: 11,
        entries: 12,
        bytes: 13,
    }
}

/// Writes sample structs in which every field has a different value.
///
/// A caller can compare these values to check that its structs have the same layout. The fields of
/// an entry have the values 1 to 8, in the order of their declaration. The fields of a reading have
/// the values 9 to 13.
#[unsafe(no_mangle)]
pub extern "C" fn syn_tokens_sample(entries: &mut [Entry], reading: &mut Reading)
    ensures entries { entries.new ≡ replicate (length entries.old) entry_sample }
    ensures reading { reading.new ≡ reading_sample }
{
    entries.fill(Entry {
        kind: 1,
        spacing: 2,
        delimiter: 3,
        start: 4,
        end: 5,
        text_start: 6,
        text_end: 7,
        distance: 8,
    });
    *reading = reading_sample();
}

/// Writes samples of the structs for calls that parse entries, in the same way as
/// `syn_tokens_sample`.
///
/// - The fields of an outcome have the values 14 to 19.
/// - The fields of a message have the values 20 to 23.
/// - The fields of an argument have the values 24 to 29.
/// - The fields of a value have the values 30 to 34, except for `float`, which is 0.
///
/// This is a separate call, so that an older caller of `syn_tokens_sample` still lends enough
/// memory.
#[unsafe(no_mangle)]
pub extern "C" fn syn_tokens_sample_answers(
    outcome: &mut Outcome,
    messages: &mut [Message],
    arguments: &mut [FlatArgument],
    value: &mut LiteralValue,
)
    ensures outcome { outcome.new ≡ outcome_sample }
    ensures messages { messages.new ≡ replicate (length messages.old) message_sample }
    ensures arguments { arguments.new ≡ replicate (length arguments.old) argument_sample }
    ensures value { IsValueSample value.new }
{
    *outcome = Outcome {
        status: 14,
        refusal: 15,
        entry: 16,
        values: 17,
        messages: 18,
        bytes: 19,
    };
    messages.fill(Message {
        start: 20,
        end: 21,
        text_start: 22,
        text_end: 23,
    });
    arguments.fill(FlatArgument {
        kind: 24,
        name_start: 25,
        name_end: 26,
        value_start: 27,
        value_end: 28,
        inside: 29,
    });
    *value = LiteralValue {
        status: 30,
        kind: 31,
        number: 32,
        float: 0.0,
        suffix: 33,
        bytes: 34,
    };
}

/// Writes samples of the structs for cursors and lines, in the same way as `syn_tokens_sample`.
///
/// The fields of a step have the values 35 to 37, and the fields of a place have the values 38 and
/// 39.
///
/// This is a separate call, so that an older caller of the other calls still lends enough memory.
#[unsafe(no_mangle)]
pub extern "C" fn syn_tokens_sample_places(step: &mut Step, places: &mut [LineColumn])
    ensures step { step.new ≡ step_sample }
    ensures places { places.new ≡ replicate (length places.old) place_sample }
{
    *step = Step {
        at: 35,
        last: 36,
        next: 37,
    };
    places.fill(LineColumn {
        line: 38,
        column: 39,
    });
}

/// Writes samples of the struct that `syn_tokens_open` fills in.
///
/// The fields of each reading have the values that `syn_tokens_sample` writes, and the pointers are
/// null. The distance between two adjacent structs shows the size of a struct.
#[unsafe(no_mangle)]
pub extern "C" fn syn_tokens_sample_opened(opened: &mut [Opened])
    ensures { opened.new ≡ replicate (length opened.old) opened_sample }
{
    opened.fill(Opened {
        reading: reading_sample(),
        entries: null(),
        bytes: null(),
    });
}

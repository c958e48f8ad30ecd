//! Replays over two token streams that write both reports as text, without storing the lines.
ghost use Rattle.std.specs.Prelude.{◌≡◌, ◌↔◌, true, IfOk, map, string_bytes};
ghost use Rattle.syn_replay.specs.Agree.{AnswersAgree, ReportsAgree};
ghost use Rattle.syn_replay.specs.Commands.{command_of};
ghost use Rattle.syn_replay.specs.Meanings.{line_of, verdict_of};
ghost use Rattle.syn_replay.specs.ReportText.{report_text};
ghost use Rattle.syn_replay.specs.Session.Promises.{IsPlainVerdict};
ghost use Rattle.syn_replay.specs.Session.Walk.{walk};

use crate::agreement::{answers_agree, verdicts_agree};
use crate::command::Command;
use crate::report::{Line, Verdict};
use crate::session::runner::{Receiver, run};
use crate::session::streams::Streams;
use crate::session::written::{push_line, push_verdict, report_room};
use crate::session::{line, opened, verdict};
use std::alloc::{AllocError, Global};
use std::fmt::{Formatter, Write};
use tok_buffer::TokenBuffer;
use tok_core::TokenStream;

/// The result of `replay_both_texts`: the texts of two reports, their verdicts, and whether the
/// reports agree.
#[derive(Drop)]
pub struct BothTexts {
    /// The text of the report on the first token stream.
    pub left: String,
    /// The text of the report on the second token stream.
    pub right: String,
    /// The verdict on the first token stream: accepted, or rejected with an error.
    pub left_verdict: Verdict,
    /// The verdict on the second token stream: accepted, or rejected with an error.
    pub right_verdict: Verdict,
    /// Whether the two reports agree, in the sense of the function `agree`.
    pub agree: bool,
}

// Returns `true` if lines agreed so far, and their next answers do.
fn still_agree(agree: bool, ours: &Line, theirs: &Line) -> bool
    ensures { (result ≡ true) ↔ ((agree ≡ true)
        × AnswersAgree (line_of ours.now).answer (line_of theirs.now).answer) }
{
    agree && answers_agree(&ours.answer, &theirs.answer)
}

// The other of two replays, the texts of both, and whether all lines agree.
#[derive(Drop)]
struct Pair<'a, W> {
    other: Streams<'a>,
    left: Formatter<W>,
    right: Formatter<W>,
    agree: bool,
}

// Runs the command on the other side, compares the lines, and writes both.
impl<'a, W: Write> Receiver for Pair<'a, W> {
    ghost use Rattle.syn_replay.specs.Session.Receivers.{Compares};

    ghost receives = { Compares W.write_str_gives };

    fn receive(&mut self, command: &Command, ours: Line) -> Result<(), AllocError> {
        let theirs = line(&mut self.other, command)?;
        self.agree = still_agree(self.agree, &ours, &theirs);
        push_line(&mut self.left, &ours)?;
        push_line(&mut self.right, &theirs)
    }
}

/// Runs the commands over each of two token streams, and returns both reports as texts.
///
/// The texts show the reports that `replay_both` returns. The function writes each line once its
/// command has run, instead of storing the lines.
///
/// Returns an error if an allocation fails.
///
/// # Examples
///
/// ```rust
/// let plain = lex(alloc, 0, "a b")?;
/// let marked = lex_marked(alloc, 0, "«a» b")?;
/// let commands = [Command::Parse(0, Kind::Ident)];
/// let both = replay_both_texts(alloc, plain, marked, &commands)?;
/// assert_eq!(rt; both.agree, true);
/// ```
pub fn replay_both_texts(
    alloc: Global,
    left: TokenStream,
    right: TokenStream,
    commands: &[Command],
) -> Result<BothTexts, AllocError>
    ensures left { IfOk result
        (λ b. string_bytes b.left ≡ report_text (walk left (map command_of commands.now))) }
    ensures right { IfOk result
        (λ b. string_bytes b.right ≡ report_text (walk right (map command_of commands.now))) }
    ensures left_verdict { IfOk result
        (λ b. verdict_of b.left_verdict ≡ (walk left (map command_of commands.now)).verdict) }
    ensures right_verdict { IfOk result
        (λ b. verdict_of b.right_verdict ≡ (walk right (map command_of commands.now)).verdict) }
    ensures agree { IfOk result (λ b. (b.agree ≡ true)
        ↔ ReportsAgree (walk left (map command_of commands.now))
        (walk right (map command_of commands.now))) }
    ensures errors { IfOk result
        (λ b. IsPlainVerdict b.left_verdict × IsPlainVerdict b.right_verdict) }
{
    let left = TokenBuffer::new2(alloc, 0, left)?;
    let right = TokenBuffer::new2(alloc, 0, right)?;
    both_onto(alloc, &left, &right, commands)
}

// Does what `replay_both_texts` does, over buffers.
fn both_onto(
    alloc: Global,
    left: &TokenBuffer,
    right: &TokenBuffer,
    commands: &[Command],
) -> Result<BothTexts, AllocError>
    requires numbers { (left.now.number ≡ 0) × (right.now.number ≡ 0) }
    ensures left { IfOk result (λ b. string_bytes b.left
        ≡ report_text (walk left.now.forest (map command_of commands.now))) }
    ensures right { IfOk result (λ b. string_bytes b.right
        ≡ report_text (walk right.now.forest (map command_of commands.now))) }
    ensures left_verdict { IfOk result (λ b. verdict_of b.left_verdict
        ≡ (walk left.now.forest (map command_of commands.now)).verdict) }
    ensures right_verdict { IfOk result (λ b. verdict_of b.right_verdict
        ≡ (walk right.now.forest (map command_of commands.now)).verdict) }
    ensures agree { IfOk result (λ b. (b.agree ≡ true)
        ↔ ReportsAgree (walk left.now.forest (map command_of commands.now))
        (walk right.now.forest (map command_of commands.now))) }
    ensures errors { IfOk result
        (λ b. IsPlainVerdict b.left_verdict × IsPlainVerdict b.right_verdict) }
{
    let mut ours = opened(alloc, left, commands.len())?;
    let mut pair = Pair {
        other: opened(alloc, right, commands.len())?,
        left: Formatter::new(report_room(alloc, commands.len())?),
        right: Formatter::new(report_room(alloc, commands.len())?),
        agree: true,
    };
    run(&mut ours, commands, &mut pair)?;
    let left_verdict = verdict(&ours)?;
    let right_verdict = verdict(&pair.other)?;
    push_verdict(&mut pair.left, &left_verdict)?;
    push_verdict(&mut pair.right, &right_verdict)?;
    let agree = pair.agree && verdicts_agree(&left_verdict, &right_verdict);
    Ok(BothTexts {
        left: pair.left.into_inner(),
        right: pair.right.into_inner(),
        left_verdict,
        right_verdict,
        agree,
    })
}

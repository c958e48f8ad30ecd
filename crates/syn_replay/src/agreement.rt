//! Comparison of two reports.
pub mod both;
mod same;
pub mod written;

ghost use Rattle.std.specs.Prelude.{◌≡◌, ◌↔◌, map, true};
ghost use Rattle.syn_replay.specs.Agree.{AnswersAgree, LinesAgree, ReportsAgree, VerdictsAgree};
ghost use Rattle.syn_replay.specs.Meanings.{answer_of, line_of, report_of, verdict_of};

use crate::report::{Answer, Line, Report, Verdict};
use same::{same_parts, same_pieces, same_streams};

// Returns `true` for errors with equal texts, or for other answers that are equal.
fn answers_agree(left: &Answer, right: &Answer) -> bool
    ensures { (result ≡ true) ↔ AnswersAgree (answer_of left.now) (answer_of right.now) }
{
    match (left, right) {
        (Answer::Truth(left), Answer::Truth(right)) => *left == *right,
        (Answer::Read(left), Answer::Read(right)) => same_pieces(left, right),
        (Answer::Absent, Answer::Absent) => true,
        (Answer::Entered(n, delimiter, span), Answer::Entered(m, other, place)) => {
            *n == *m && *delimiter == *other && span.join() == place.join()
        }
        (Answer::Forked(n), Answer::Forked(m)) => *n == *m,
        (Answer::List(left), Answer::List(right)) => same_parts(left, right),
        (Answer::Found(n), Answer::Found(m)) => *n == *m,
        (Answer::Done, Answer::Done) => true,
        (Answer::At(left), Answer::At(right)) => *left == *right,
        (Answer::Trees(left), Answer::Trees(right)) => same_streams(left, right),
        (Answer::Refused(left), Answer::Refused(right)) => left.as_str() == right.as_str(),
        (Answer::Misused(left), Answer::Misused(right)) => *left == *right,
        _ => false,
    }
}

fn lines_agree(left: &[Line], right: &[Line]) -> bool
    ensures { (result ≡ true) ↔ LinesAgree (map line_of left.now) (map line_of right.now) }
{
    if left.len() != right.len() {
        return false;
    }
    for i in 0..left.len() {
        if !answers_agree(&left[i].answer, &right[i].answer) {
            return false;
        }
    }
    true
}

fn verdicts_agree(left: &Verdict, right: &Verdict) -> bool
    ensures { (result ≡ true) ↔ VerdictsAgree (verdict_of left.now) (verdict_of right.now) }
{
    match (left, right) {
        (Verdict::Accepted, Verdict::Accepted) => true,
        (Verdict::Refused(left), Verdict::Refused(right)) => left.span() == right.span(),
        _ => false,
    }
}

/// Returns `true` if two reports agree.
///
/// Two reports agree if they have equally many lines, their answers agree in order, and their
/// verdicts agree. Two answers agree if they are equal, or if both are errors with equal texts. Two
/// verdicts agree if both accept, or if both reject at equal spans. Positions and the spans of
/// errors in answers are not compared.
pub fn agree(left: &Report, right: &Report) -> bool
    ensures { (result ≡ true) ↔ ReportsAgree (report_of left.now) (report_of right.now) }
{
    lines_agree(&left.lines, &right.lines) && verdicts_agree(&left.verdict, &right.verdict)
}

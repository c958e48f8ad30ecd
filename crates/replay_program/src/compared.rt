//! A comparison of the reports on two texts.
ghost use Rattle.std.specs.Prelude.{◌≡◌, Some, IfOk, map};
ghost use Rattle.replay_program.specs.Comparison as spec;
ghost use Rattle.replay_program.specs.Outcomes.{HasCompared, texts_of};
ghost use Rattle.syn_replay.specs.Commands.{command_of};
ghost use Rattle.syn_replay.specs.Meanings.{verdict_of};
ghost use Rattle.syn_replay.specs.Transparent as transparent;

use std::alloc::{AllocError, Global};
use std::fmt;
use std::fmt::{Formatter, Write};
use syn_replay::{BothTexts, Command, Verdict, is_transparent, replay_both_texts};
use tok_core::{TokenStream, is_clear, is_filled, same_visible};

/// Five facts about two texts and a list of commands.
#[derive(Clone, Copy)]
pub struct Facts {
    /// Whether the two texts have equal visible tokens, including their spans.
    pub visible: bool,
    /// Whether each invisible group in both texts contains a visible token.
    pub filled: bool,
    /// Whether neither text has a joint apostrophe directly before a delimiter of an invisible
    /// group.
    pub clear: bool,
    /// Whether every command is transparent, as `is_transparent` decides.
    pub transparent: bool,
    /// Whether the two reports agree, as the function `agree` of `syn_replay` decides.
    pub agree: bool,
}

/// The result of `compare`: the printed reports and the verdicts on two texts, and five facts about
/// the texts.
#[derive(Drop)]
pub struct Comparison {
    /// The printed report on the first text.
    pub left: String,
    /// The printed report on the second text.
    pub right: String,
    /// The verdict on the first text: accepted, or rejected with an error.
    pub left_verdict: Verdict,
    /// The verdict on the second text: accepted, or rejected with an error.
    pub right_verdict: Verdict,
    /// The five facts about the texts and the commands.
    pub facts: Facts,
}

fn all_transparent(commands: &[Command]) -> bool
    ensures { result ≡ transparent.all_transparent (map command_of commands.now) }
{
    for command in commands {
        if !is_transparent(command) {
            return false;
        }
    }
    true
}

/// Runs `commands` over `left` and over `right`, and compares the two reports.
///
/// Returns an error if an allocation fails.
pub fn compare(
    alloc: Global,
    left: TokenStream,
    right: TokenStream,
    commands: &[Command],
) -> Result<Comparison, AllocError>
    ensures { IfOk result
        (λ c. HasCompared left right (map command_of commands.now) c) }
{
    let visible = same_visible(alloc, &left, &right)?;
    let filled = is_filled(&left) && is_filled(&right);
    let clear = is_clear(&left) && is_clear(&right);
    let transparent = all_transparent(commands);
    let both = replay_both_texts(alloc, left, right, commands)?;
    let facts = Facts {
        visible,
        filled,
        clear,
        transparent,
        agree: both.agree,
    };
    let BothTexts {
        left,
        right,
        left_verdict,
        right_verdict,
        agree: _,
    } = both;
    Ok(Comparison {
        left,
        right,
        left_verdict,
        right_verdict,
        facts,
    })
}

impl Comparison {
    /// Returns the exit status of the program for two texts: 0 if both verdicts accept, and 1
    /// otherwise.
    pub fn status(&self) -> u8
        ensures { result ≡ spec.both_status (verdict_of self.now.left_verdict)
            (verdict_of self.now.right_verdict) }
    {
        match self.left_verdict {
            Verdict::Accepted => status(&self.right_verdict),
            Verdict::Refused(_) => 1,
        }
    }
}

/// Returns the exit status of the program for a single text: 0 if `verdict` accepts, and 1
/// otherwise.
pub fn status(verdict: &Verdict) -> u8
    ensures { result ≡ spec.verdict_status (verdict_of verdict.now) }
{
    match verdict {
        Verdict::Accepted => 0,
        Verdict::Refused(_) => 1,
    }
}

fn yes_or_no(fact: bool) -> &'static str
    ensures { result.now ≡ spec.yes_or_no fact }
{
    if fact { "yes" } else { "no" }
}

fn same_or_different(fact: bool) -> &'static str
    ensures { result.now ≡ spec.same_or_different fact }
{
    if fact { "same" } else { "different" }
}

impl fmt::Display for Facts {
    ghost use Rattle.replay_program.specs.Outcomes.{facts_of};

    ghost output = { λ f. Some (spec.facts_text (facts_of f)) };

    fn fmt<W: Write>(&self, f: &mut Formatter<W>) -> fmt::Result {
        writeln!(f, "visible {}", same_or_different(self.visible))?;
        writeln!(f, "filled {}", yes_or_no(self.filled))?;
        writeln!(f, "clear {}", yes_or_no(self.clear))?;
        writeln!(f, "transparent {}", yes_or_no(self.transparent))?;
        writeln!(f, "agree {}", yes_or_no(self.agree))
    }
}

impl fmt::Display for Comparison {
    ghost output = { λ c. Some (texts_of c) };

    fn fmt<W: Write>(&self, f: &mut Formatter<W>) -> fmt::Result {
        write!(f, "{}---\n{}---\n{}", self.left, self.right, self.facts)
    }
}

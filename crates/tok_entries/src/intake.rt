//! Reads arrays of entries into a builder.
ghost use Rattle.std.specs.Prelude.{◌≡◌, ◌+◌, ◌<◌, ◌^◌, ◌∷◌, length, true, false, IfOk, IfErr, OnOk};
ghost use Rattle.std.specs.Str.{IsUtf8};
ghost use Rattle.tok_core.specs.Building.{Levels, add_forest, nothing, opened};
ghost use Rattle.tok_core.specs.Filled.{has_trees};
ghost use Rattle.tok_core.specs.Forest.{Forest, Tree, group, no_trees, tree};
ghost use Rattle.tok_pruned.specs.Pruned.{pruned};
ghost use Rattle.tok_entries.specs.Blames.{Blames, BlamesFrom, TakesTree};
ghost use Rattle.tok_entries.specs.Denotes.{Denotes, DenotesFrom, DenotesNone};
ghost use Rattle.tok_entries.specs.Refusals.{IsAmong, OnDenied, OnRejected};

mod fault;
mod group;
mod leaf;
mod parts;

use crate::entry::{Entry, OPENING};
pub use fault::{EntryFault, Refusal};
use group::group_parts;
use leaf::read_leaf;
use std::alloc::{AllocError, Global};
use tok_core::{Build, Delimiter, MOST_LEVELS, Span};

/// A builder that can remove its innermost open group if the group is empty.
pub trait TakeBack: Build {
    /// Removes the innermost open group if the group contains no trees.
    ///
    /// Returns `true` if the call removed the group. Otherwise, the call returns `false` and
    /// changes nothing.
    ///
    /// # Requires
    ///
    /// A group must be open.
    fn take_back(&mut self) -> bool
        requires { 0 < length (Self.levels self.old).outer }
        ensures taken { result ≡ true → Self.levels self.old ≡ opened (Self.levels self.new) }
        ensures left { result ≡ false → (Self.levels self.new ≡ Self.levels self.old)
            × (has_trees (Self.levels self.old).inner ≡ true) };
}

/// Reads an array of entries into a builder, without the invisible groups that contain no visible
/// tree.
///
/// The call accepts `entries` and `texts` if and only if they represent a token stream. All spans
/// of this stream are in source 0.
///
/// Returns `Refused` with a reason and the index of the rejected entry. If bytes of `texts` inside
/// a group belong to no entry, the rejected entry is the closing delimiter of the group. If bytes
/// at the end belong to no entry, the index is the number of entries.
///
/// Returns `Memory` if an allocation fails. If there is an error, the call drops `builder`.
///
/// # Requires
///
/// `builder` must be empty.
pub fn read_entries<B: TakeBack + Drop>(
    mut builder: B,
    alloc: Global,
    entries: &[Entry],
    texts: &str,
) -> Result<B, EntryFault>
    requires empty { B.levels builder ≡ nothing }
    ensures reads { IfOk result (λ built. (f : Forest) × Denotes entries.now texts.now f
        × (B.levels built ≡ add_forest (pruned f) nothing)) }
    ensures refuses { IfErr result
        (λ fault. OnDenied fault (DenotesNone entries.now texts.now)) }
    ensures blames { IfErr result
        (λ fault. OnRejected fault (Blames entries.now texts.now)) }
    ensures names { IfErr result (λ fault. IsAmong 0 (length entries.now) fault) }
{
    read_level(&mut builder, alloc, MOST_LEVELS, 0, 0, entries, texts)?;
    Ok(builder)
}

// Reads entries, of which the first has this number and the texts begin at byte `at`, into the
// innermost level. No more than so many groups may be nested.
#[cycle(read)]
fn read_level<B: TakeBack>(
    builder: &mut B,
    alloc: Global,
    levels: usize,
    number: usize,
    at: usize,
    entries: &[Entry],
    texts: &str,
) -> Result<(), EntryFault>
    requires numbers { number + length entries.now < 2 ^ 64 }
    requires bytes { at + length texts.now < 2 ^ 64 }
    ensures reads { OnOk result
        ((f : Forest) × DenotesFrom at levels entries.now texts.now f
        × (B.levels builder.new ≡ add_forest (pruned f) (B.levels builder.old))) }
    ensures blames { IfErr result (λ fault. OnRejected fault
        (BlamesFrom number at levels entries.now texts.now)) }
    ensures names { IfErr result (λ fault. IsAmong number (length entries.now) fault) }
{
    let mut left = entries;
    let mut rest = texts;
    while let Some((first, after)) = left.split_first() {
        let here = number + (entries.len() - left.len());
        let begin = at + (texts.len() - rest.len());
        if first.kind == OPENING {
            let (later, behind) = read_group(
                builder, alloc, levels, here, begin, first, after, rest,
            )?;
            left = later;
            rest = behind;
        } else {
            let behind = read_leaf(builder, alloc, here, begin, first, rest)?;
            left = after;
            rest = behind;
        }
    }
    if rest.is_empty() {
        Ok(())
    } else {
        Err(EntryFault::Refused(Refusal::Shape, number + entries.len()))
    }
}

// Reads the group that an opening begins, and returns what is left of the entries and texts.
#[cycle(read)]
fn read_group<'a, 'b, B: TakeBack>(
    builder: &mut B,
    alloc: Global,
    levels: usize,
    here: usize,
    begin: usize,
    opening: &Entry,
    after: &'a [Entry],
    rest: &'b str,
) -> Result<(&'a [Entry], &'b str), EntryFault>
    requires opens { opening.now.kind ≡ 3 }
    requires numbers { here + 1 + length after.now < 2 ^ 64 }
    requires bytes { begin + length rest.now < 2 ^ 64 }
    ensures reads { IfOk result (λ r. (t : Tree)
        × TakesTree begin levels (opening.now ∷ after.now) rest.now t r.0.now r.1.now
        × (B.levels builder.new ≡ add_forest (pruned (tree t no_trees)) (B.levels builder.old))) }
    ensures utf8 { IfOk result (λ r. IsUtf8 r.1.now) }
    ensures blames { IfErr result (λ fault. OnRejected fault
        (BlamesFrom here begin levels (opening.now ∷ after.now) rest.now)) }
    ensures names { IfErr result (λ fault. IsAmong here (1 + length after.now) fault) }
{
    let Some(parts) = group_parts(begin, opening, after, rest) else {
        return Err(EntryFault::Refused(Refusal::Shape, here));
    };
    let Some(inner) = levels.checked_sub(1) else {
        return Err(EntryFault::Refused(Refusal::Depth, here));
    };
    builder.open()?;
    read_level(
        builder,
        alloc,
        inner,
        here + 1,
        begin,
        parts.inside,
        parts.words,
    )?;
    close_group(builder, parts.delimiter, parts.span)?;
    Ok((parts.later, parts.behind))
}

// Closes the innermost level, or takes its opening back if it is invisible and holds no tree.
fn close_group<B: TakeBack>(
    builder: &mut B,
    delimiter: Delimiter,
    span: Span,
) -> Result<(), AllocError>
    requires { 0 < length (B.levels builder.old).outer }
    ensures { OnOk result ((around : Levels) (f : Forest)
        → B.levels builder.old ≡ add_forest (pruned f) (opened around)
        → B.levels builder.new
        ≡ add_forest (pruned (tree (group delimiter f span) no_trees)) around) }
{
    if delimiter == Delimiter::None && builder.take_back() {
        return Ok(());
    }
    builder.close(delimiter, span)?;
    Ok(())
}

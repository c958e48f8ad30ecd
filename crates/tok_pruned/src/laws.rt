//! Laws about `prune`. Each law is the contract of a function that does nothing.
ghost use Rattle.std.specs.Prelude.{◌≡◌, true};
ghost use Rattle.tok_core.specs.Erase.{erase};
ghost use Rattle.tok_core.specs.Filled.{filled};
ghost use Rattle.tok_core.specs.Forest.{Forest, concat};
ghost use Rattle.tok_pruned.specs.Pruned.{pruned};

/// Pruning a stream keeps all its visible trees, which are the token trees other than invisible
/// groups. Each invisible group of the pruned stream contains a visible tree.
#[tactic(auto, using(crate::proofs::Pruning::erase_pruned, crate::proofs::Pruning::filled_pruned))]
pub fn pruning_fills()
    ensures { (f : Forest) → (erase (pruned f) ≡ erase f) × (filled (pruned f) ≡ true) }
{}

/// Pruning does not change a stream in which each invisible group contains a visible tree.
#[tactic(auto, using(crate::proofs::Pruning::pruned_filled))]
pub fn filled_forests_stay()
    ensures { (f : Forest) → filled f ≡ true → pruned f ≡ f }
{}

/// Pruning does not change a stream that has already been pruned.
#[tactic(auto, using(crate::proofs::Pruning::pruned_twice))]
pub fn pruning_again_changes_nothing()
    ensures { (f : Forest) → pruned (pruned f) ≡ pruned f }
{}

/// Concatenating two pruned streams gives the same stream as pruning the concatenation of the two
/// streams.
#[tactic(auto, using(crate::proofs::Streams::pruned_parts))]
pub fn pruning_goes_by_parts()
    ensures { (f g : Forest) → pruned (concat f g) ≡ concat (pruned f) (pruned g) }
{}

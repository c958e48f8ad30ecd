//! Laws about arguments. Each law is the contract of a function that does nothing.
ghost use Rattle.tok_core.specs.Forest.{Forest};
ghost use Rattle.arguments.specs.Grammar.{AreArguments};
ghost use Rattle.arguments.specs.Same.{SameArguments};
ghost use Rattle.arguments.specs.Values.{Arguments};

/// The grammar is unambiguous: it assigns at most one list of arguments, including its spans, to a
/// sequence of token trees.
pub fn arguments_once()
    ensures { (trees : Forest) (left right : Arguments) → AreArguments trees left
        → AreArguments trees right → SameArguments left right }
{}

//! A law about replays, which is the contract of a function that does nothing.
ghost use Rattle.visible_replay.specs.Decide.{VisibleTokensDecide};

/// If the same transparent commands run over two pruned streams with equal visible tokens,
/// including their spans, then the two reports agree.
///
/// The function `prune` prunes a stream: it removes the invisible groups that contain no visible
/// token. `is_transparent` decides which commands are transparent, and `agree` decides when two
/// reports agree.
pub fn visible_tokens_decide()
    ensures { VisibleTokensDecide }
{}

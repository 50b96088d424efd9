//! The law of the two ends.

ghost use Rattle.mr_ends.specs.Ends.{PullsAreUnderstood, PushesAreUnderstood, RepliesAreUnderstood, FaultsAreUnderstood};

/// What a client of `mr_peer` writes, a server of `mr_web` reads as just that command, and what the server writes, the client reads as just that
/// reply: of a line that is cut anywhere, a pull takes a prefix of the batch, or nothing, and a push hands over all of it, or nothing.
pub fn ends_law()
    ensures pulls { PullsAreUnderstood }
    ensures pushes { PushesAreUnderstood }
    ensures replies { RepliesAreUnderstood }
    ensures faults { FaultsAreUnderstood }
{}

//! What joins streams to runs of a hub. The function does nothing: its contract is the law.
ghost use Rattle.std.specs.{Prelude.{ℕ, List}, List.flat_map};
ghost use Rattle.wire_replies.specs.declared.reply.Reply.{Reply};
ghost use Rattle.machine.specs.declared.env.Env.{Env};
ghost use Rattle.hub.specs.{Runs.HubRun, State.HubState};
ghost use Rattle.conversations.specs.Pieces.{Piece};
ghost use Rattle.streams.specs.Stream.{PiecesRun, events_of};

/// Pieces of a stream are one run of the hub, in which the moment and the words of each piece are handed in before its
/// inputs come. So what holds of all runs holds of a session that is served over a stream.
pub fn pieces_are_runs()
    ensures { (old new : HubState) (n : ℕ) (pieces : List Piece) (told : List Reply)
        → PiecesRun old n pieces told new → (env : Env)
        → (after : Env) × HubRun old env (flat_map (events_of n) pieces) told new after }
{}

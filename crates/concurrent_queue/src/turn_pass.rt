// The pass of a caller of a queue behind a turn.
ghost use Rattle.std.specs.Prelude.{◌≡◌, ◌<◌, ◌+◌};
ghost use Rattle.passes.specs.Numbers.{held_count};

use std::marker::Model;
use turn_lock::Pass;

/// The right to call a queue behind a turn under a number, and what its owner has seen of the queue.
///
/// Contracts see of it what they see of every pass: the queue with its parameters, its own number, the
/// numbers that it holds, the count of calls made under each, the beginning of the queue's history
/// that it has seen, and the obstacles that its tries have met; and which window it has open. It may
/// move to another thread. One that is dropped keeps its numbers for good.
#[derive(Drop)]
pub struct TurnQueuePass {
    pub(crate) pass: Pass,
}

impl Model for TurnQueuePass {
    ghost use Rattle.concurrent_queue.specs.Passes.{TurnQueueView, turn_view};

    ghost Value = { TurnQueueView };

    ghost view = { λ p. turn_view p.pass };
}

impl TurnQueuePass {
    /// The number under which it calls, below 64.
    pub fn caller(&self) -> u32
        ensures caller { result ≡ self.now.pass.caller }
        ensures inside { result < 64 }
    {
        self.pass.caller()
    }

    /// How many numbers it holds beside its own, each of which it can give away.
    pub fn spare(&self) -> u32
        ensures { result + 1 ≡ held_count self.now.pass.held }
    {
        self.pass.spare()
    }
}

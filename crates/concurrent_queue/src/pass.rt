// The pass of a caller of a queue.
ghost use Rattle.std.specs.Prelude.{◌≡◌, ◌<◌, ◌+◌};
ghost use Rattle.passes.specs.Numbers.{held_count};

use std::marker::Model;

/// The right to call a shared queue under a number, and what its owner has seen of the queue.
///
/// Contracts see of it what they see of every pass: the queue with its parameters, its own number, the
/// numbers that it holds, the count of calls made under each, the beginning of the queue's history
/// that it has seen, and the obstacles that its tries have met; and which window it has open. It may
/// move to another thread. One that is dropped keeps its numbers for good.
#[derive(Drop)]
pub struct QueuePass {
    pub(crate) pass: seg_rule::QueuePass,
}

impl Model for QueuePass {
    ghost use Rattle.concurrent_queue.specs.Passes.{QueueView};
    ghost use Rattle.concurrent_queue.specs.Segments.{queue_view, IsBetween};

    ghost Value = { QueueView };

    ghost view = { λ p. queue_view p.pass };

    ghost invariant = { λ p. IsBetween p.pass };
}

impl QueuePass {
    /// The number under which it calls, below 64.
    pub fn caller(&self) -> u32
        ensures caller { result ≡ self.now.pass.caller }
        ensures inside { result < 64 }
    {
        self.pass.caller()
    }

    /// How many numbers it holds beside its own, each of which it can give away.
    pub fn spare(&self) -> u32
        ensures { result + 1 ≡ held_count self.now.pass.held }
    {
        self.pass.spare()
    }
}

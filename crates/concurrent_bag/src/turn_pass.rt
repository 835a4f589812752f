// The pass of a caller of a bag behind a turn.
ghost use Rattle.std.specs.Prelude.{◌≡◌, ◌<◌, ◌+◌};
ghost use Rattle.passes.specs.Numbers.{held_count};

use std::marker::Model;
use turn_lock::Pass;

/// The right to call a bag behind a turn under a number, and what its owner has seen of the bag.
///
/// Contracts see of it what they see of every pass: the bag, its own number, the numbers that it holds,
/// the count of calls made under each, the beginning of the bag's history that it has seen, and the
/// obstacles that its tries have met. It may move to another thread. One that is dropped keeps its
/// numbers for good.
#[derive(Drop)]
pub struct TurnPass {
    pub(crate) pass: Pass,
}

impl Model for TurnPass {
    ghost use Rattle.turn_lock.specs.Passes.{LockPass};

    ghost Value = { LockPass };

    ghost view = { λ p. p.pass };
}

impl TurnPass {
    /// The number under which it calls, below 64.
    pub fn caller(&self) -> u32
        ensures caller { result ≡ self.now.caller }
        ensures inside { result < 64 }
    {
        self.pass.caller()
    }

    /// How many numbers it holds beside its own, each of which it can give away.
    pub fn spare(&self) -> u32
        ensures { result + 1 ≡ held_count self.now.held }
    {
        self.pass.spare()
    }
}

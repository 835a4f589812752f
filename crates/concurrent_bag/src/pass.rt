// The pass of a caller of a bag.
ghost use Rattle.std.specs.Prelude.{◌≡◌, ◌<◌, ◌+◌, IsTrue, ◌↔◌};
ghost use Rattle.passes.specs.Numbers.{held_count, HasNumber};
ghost use Rattle.passes.specs.Views.{IsWhole};

use atomic_table::Badge;
use bag_rule::View;
use passes::Numbers;
use std::marker::Model;

/// The right to call a shared bag under a number, and what its owner has seen of the bag.
///
/// Contracts see of it what they see of every pass: the bag, its own number, the numbers that it holds,
/// the count of calls made under each, the beginning of the bag's history that it has seen, and the
/// obstacles that its tries have met (`BagView` of `specs/Seats.antt`). It may move to another thread.
/// One that is dropped keeps its numbers for good; the items in its lists stay for others to take.
#[derive(Drop)]
pub struct BagPass {
    /// Its seat at the table. A pass does not name the items' type, so it keeps the seat as a badge.
    pub(crate) badge: Badge<View>,
    pub(crate) numbers: Numbers,
}

impl Model for BagPass {
    ghost use Rattle.concurrent_bag.specs.Seats.{BagView, view_of, IsPass};

    ghost Value = { BagView };

    ghost view = { λ p. view_of p.badge };

    ghost invariant = { λ p. IsPass p.badge p.numbers };
}

impl BagPass {
    /// The number under which it calls, below 64.
    pub fn caller(&self) -> u32
        ensures caller { result ≡ self.now.caller }
        ensures inside { result < 64 }
    {
        self.numbers.caller()
    }

    /// How many numbers it holds beside its own, each of which it can give away.
    pub fn spare(&self) -> u32
        ensures { result + 1 ≡ held_count self.now.held }
    {
        self.numbers.spare()
    }

    /// Whether it holds the numbers of all callers, so that there is no other.
    pub fn is_whole(&self) -> bool
        ensures { IsTrue result ↔ IsWhole self.now }
    {
        self.numbers.is_whole()
    }
}

// The pass of a caller.
ghost use Rattle.std.specs.Prelude.{◌≡◌, ◌<◌, ◌+◌, IsTrue, ◌↔◌};
ghost use Rattle.passes.specs.Numbers.{held_count, HasNumber};
ghost use Rattle.passes.specs.Views.{IsWhole};

use crate::view::View;
use atomic_table::Badge;
use passes::Numbers;
use std::marker::Model;

/// The right to call a shared object under a number, and what its owner has seen of the object.
///
/// Contracts see of it the object, its own number `caller`, the numbers that it holds, the count of
/// calls made under each, the beginning of the object's history that it has seen, and the obstacles
/// that its tries have met (`LockPass` of `specs/Passes.antt`). A pass may move to another thread.
/// One that is dropped keeps its numbers for good, so that no pass of its object is whole again.
#[derive(Drop)]
pub struct Pass {
    /// Its seat at the table. A pass does not name the machine's type, so it keeps the seat as a
    /// badge.
    pub(crate) badge: Badge<View>,
    pub(crate) numbers: Numbers,
}

impl Model for Pass {
    ghost use Rattle.turn_lock.specs.Passes.{LockPass, pass_view, the_view, IsPass};

    ghost Value = { LockPass };

    ghost view = { λ p. pass_view p.badge.table_id (the_view p.badge.views) };

    ghost invariant = { λ p. IsPass p.badge.views p.numbers };
}

impl Pass {
    /// The number under which it calls, below 64.
    pub fn caller(&self) -> u32
        ensures caller { result ≡ self.now.caller }
        ensures inside { result < 64 }
        ensures own { HasNumber self.now.held self.now.caller }
    {
        self.numbers.caller()
    }

    /// How many numbers it holds beside its own, each of which it can give away.
    pub fn spare(&self) -> u32
        ensures { result + 1 ≡ held_count self.now.held }
    {
        self.numbers.spare()
    }

    /// Whether it holds a number beside its own, as a split asks.
    pub fn has_spare(&self) -> bool
        ensures { IsTrue result ↔ (1 < held_count self.now.held) }
    {
        self.numbers.has_spare()
    }

    /// Whether it holds the numbers of all callers, so that there is no other.
    pub fn is_whole(&self) -> bool
        ensures { IsTrue result ↔ IsWhole self.now }
    {
        self.numbers.is_whole()
    }
}

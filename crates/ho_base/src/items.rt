// What passes through the structures.
ghost use Rattle.std.specs.Prelude.{◌≡◌, ℕ, ◌∷◌, [], Some, slice_get};
ghost use Rattle.ho_base.specs.Marks.{Mark, number_priority};

/// What passes through a channel, a bag or a blocking collection.
pub trait Item: Send + Drop {
    /// What contracts see of an item: its number, and then what else it has.
    ghost mark: { Self → Mark };

    /// The priority of an item with this mark.
    ghost priority_of: { Mark → ℕ };

    /// The number by which scripts and histories show the item.
    fn number(&self) -> u64
        ensures { slice_get (mark self.now) 0 ≡ Some result };

    /// The priority in a prioritized channel. The item of least priority leaves first.
    fn priority(&self) -> u64
        ensures { result ≡ priority_of (mark self.now) };
}

/// How many numbers share a priority.
const NUMBERS_PER_PRIORITY: u64 = 1000;

impl Item for u64 {
    ghost mark = { λ n. n ∷ [] };

    ghost priority_of = { number_priority };

    fn number(&self) -> u64 {
        *self
    }

    fn priority(&self) -> u64 {
        *self / NUMBERS_PER_PRIORITY
    }
}

/// An item as one thread sees it. Every `Item` is one.
///
/// What runs under the methods of a trait is written over this twin, since such a method may not
/// call what asks that a type parameter is `Send`.
pub trait Marked: Drop {
    /// What contracts see of an item.
    ghost mark: { Self → Mark };

    /// The priority of an item with this mark.
    ghost priority_of: { Mark → ℕ };

    fn shown_number(&self) -> u64
        ensures { slice_get (mark self.now) 0 ≡ Some result };

    fn shown_priority(&self) -> u64
        ensures { result ≡ priority_of (mark self.now) };
}

impl<T: Item> Marked for T {
    ghost mark = { T.mark };

    ghost priority_of = { T.priority_of };

    fn shown_number(&self) -> u64 {
        self.number()
    }

    fn shown_priority(&self) -> u64 {
        self.priority()
    }
}

// Items that leave by their priority, and those of one priority in the order of their arrival.
ghost use Rattle.std.specs.Prelude.{◌≡◌, ℕ, ◌+◌, ◌^◌, ◌<◌, ◌≤◌, ◌++◌, ◌∷◌, [], Some, None, IfErr, OnOk, OnErr, IsOk, length, remove};
ghost use Rattle.ho_base.specs.Marks.{number_of};
ghost use Rattle.ho_model.specs.Channel as channel;

use channel_core::ItemStore;
use ho_base::Marked;
use std::alloc::Global;
use std::cmp::Reverse;
use std::collections::BinaryHeap;
use std::marker::Model;

/// An item with its rank. It is compared by its rank alone.
#[derive(Drop)]
#[derive_where(PartialEq, Eq, PartialOrd, Ord)]
pub struct Ranked<T> {
    pub priority: u64,
    /// How many items were put in before it.
    pub arrival: u64,
    #[derive_where(skip(EqHashOrd))]
    pub item: T,
}

/// Items in a heap whose top is the one that leaves first. Contracts see them in the order of
/// writing.
#[derive(Drop)]
pub struct PriorityStore<T: Marked> {
    heap: BinaryHeap<Reverse<Ranked<T>>, Global>,
    next: u64,
}

impl<T: Marked> Model for PriorityStore<T> {
    ghost use Rattle.priority_core.specs.Stored.{Stored, IsRanked, in_order};
    ghost use Rattle.std.specs.BinaryHeap.{heap_items, heap_capacity};

    ghost Value = { Stored };

    ghost view = { λ s. record { items = in_order T.mark (heap_items s.heap); arrivals = s.next; room = heap_capacity s.heap } };

    ghost invariant = { λ s. IsRanked T.mark T.priority_of s.next (heap_items s.heap) };
}

impl<T: Marked> PriorityStore<T> {
    pub fn new(alloc: Global) -> PriorityStore<T>
        ensures items { result.items ≡ [] }
        ensures arrivals { result.arrivals ≡ 0 }
    {
        PriorityStore {
            heap: BinaryHeap::new(alloc),
            next: 0,
        }
    }

    /// Puts an item last. It takes memory only where the heap has no room.
    fn put(&mut self, item: T) -> Result<(), T>
        requires { self.old.arrivals < 2 ^ 60 }
        ensures ok { OnOk result
            ((self.new.items ≡ self.old.items ++ T.mark item ∷ [])
            × (self.new.arrivals ≡ self.old.arrivals + 1)) }
        ensures err { OnErr result
            ((self.new.items ≡ self.old.items) × (self.new.arrivals ≡ self.old.arrivals)) }
        ensures back { IfErr result (λ back. back ≡ item) }
        ensures room { length self.old.items < self.old.room → IsOk result }
    {
        let ranked = Ranked {
            priority: item.shown_priority(),
            arrival: self.next,
            item,
        };
        match self.heap.push(Reverse(ranked)) {
            Ok(()) => {
                self.next += 1;
                Ok(())
            }
            Err(refused) => Err(refused.value.0.item),
        }
    }

    /// Takes the item that leaves first, whose room stays.
    fn take_first(&mut self) -> T
        requires { 0 < length self.old.items }
        ensures room { (self.new.room ≡ self.old.room)
            × (length self.new.items + 1 ≤ self.new.room) }
        ensures arrivals { self.new.arrivals ≡ self.old.arrivals }
        ensures item { T.mark result ≡ channel.item_at self.old.items
            (channel.read_place (Some T.priority_of) self.old.items) }
        ensures rest { self.new.items ≡ remove self.old.items
            (channel.read_place (Some T.priority_of) self.old.items) }
    {
        match self.heap.pop() {
            Some(Reverse(first)) => first.item,
            None => unreachable!(),
        }
    }

    fn count(&self) -> usize
        ensures { result ≡ length self.now.items }
    {
        self.heap.len()
    }

    fn first_number(&self) -> u64
        requires { 0 < length self.now.items }
        ensures { result ≡ number_of
            (channel.item_at self.now.items
            (channel.read_place (Some T.priority_of) self.now.items)) }
    {
        match self.heap.peek() {
            Some(first) => first.0.item.shown_number(),
            None => unreachable!(),
        }
    }
}

impl<T: Marked> ItemStore<T> for PriorityStore<T> {
    ghost items = { λ s. s.items };

    ghost capacity = { λ s. None };

    ghost priority = { Some T.priority_of };

    ghost arrivals = { λ s. s.arrivals };

    fn len(&self) -> usize {
        self.count()
    }

    fn is_full(&self) -> bool {
        false
    }

    fn push(&mut self, item: T) -> Result<(), T> {
        self.put(item)
    }

    fn take(&mut self) -> T {
        self.take_first()
    }

    fn take_and_put(&mut self, item: T) -> T {
        let first = self.take_first();
        match self.put(item) {
            Ok(()) => first,
            Err(_) => unreachable!(),
        }
    }

    fn show(&self) -> u64 {
        self.first_number()
    }

    // A heap is never full, so nothing is replaced.
    fn replace_oldest(&mut self, item: T) -> T
        ensures back { result ≡ item }
        ensures unchanged { self.new ≡ self.old }
    {
        item
    }

    // The same.
    fn replace_newest(&mut self, item: T) -> T
        ensures back { result ≡ item }
        ensures unchanged { self.new ≡ self.old }
    {
        item
    }
}

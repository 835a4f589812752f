// The items of a blocking collection, in one of the three stores.
ghost use Rattle.std.specs.Prelude.{◌≡◌, ◌≢◌, ℕ, ◌+◌, ◌^◌, ◌<◌, ◌≤◌, ◌++◌, true, false, OnOk, IfOk, IfErr};
ghost use Rattle.ho_model.specs.Bag.{empty_lists, with_last, item_count, all_numbers};
ghost use Rattle.ho_model.specs.Blocking as blocking;
ghost use Rattle.blocking_core.specs.Stores.{lists_in, store_of, bound_of};
ghost use Rattle.blocking_core.specs.Rows.{adds_may_want, IsSameKind, IsTake};

use crate::line::Line;
use ho_base::Marked;
use ho_model::Store;
use item_lists::CallerLists;
use std::alloc::{AllocError, Global};

/// The items, in a store with a bound or none.
#[derive(Drop)]
pub enum Stored<T: Marked> {
    Fifo(Line<T>),
    Lifo(Line<T>),
    Bag(CallerLists<T>, Option<u32>),
}

impl<T: Marked> Stored<T> {
    /// A store without items.
    pub fn new(alloc: Global, store: Store, bound: Option<u32>) -> Result<Stored<T>, AllocError>
        ensures lists { IfOk result (λ s. lists_in s ≡ empty_lists) }
        ensures store { IfOk result (λ s. store_of s ≡ store) }
        ensures bound { IfOk result (λ s. bound_of s ≡ bound) }
    {
        match store {
            Store::Fifo => Ok(Stored::Fifo(Line::new(alloc, bound)?)),
            Store::Lifo => Ok(Stored::Lifo(Line::new(alloc, bound)?)),
            Store::Bag => Ok(Stored::Bag(CallerLists::new(alloc)?, bound)),
        }
    }

    /// How many items there are.
    pub fn count(&self) -> u64
        ensures { result ≡ item_count (lists_in self.now) }
    {
        match self {
            Stored::Fifo(line) | Stored::Lifo(line) => line.len() as u64,
            Stored::Bag(lists, _) => lists.count(),
        }
    }

    /// Whether there are as many items as the bound.
    pub fn is_full(&self) -> bool
        ensures { result ≡ blocking.at_bound (bound_of self.now) (lists_in self.now) }
    {
        match self {
            Stored::Fifo(line) | Stored::Lifo(line) => line.is_full(),
            Stored::Bag(lists, Some(bound)) => *bound as u64 <= lists.count(),
            Stored::Bag(_, None) => false,
        }
    }

    /// Puts an item last, in a bag in the caller's own list.
    pub fn push(&mut self, caller: u32, item: T) -> Result<(), T>
        requires caller { caller < 64 }
        requires few { item_count (lists_in self.old) < 2 ^ 60 }
        requires room { blocking.at_bound (bound_of self.old) (lists_in self.old) ≡ false }
        ensures kind { IsSameKind self.old self.new }
        ensures ok { OnOk result (lists_in self.new
            ≡ with_last (lists_in self.old) (blocking.list_for (store_of self.old) caller) (T.mark item)) }
        ensures more { item_count (lists_in self.new) ≤ item_count (lists_in self.old) + 1 }
        ensures err { IfErr result (λ back. (back ≡ item) × (lists_in self.new ≡ lists_in self.old)
            × (adds_may_want (store_of self.old) (bound_of self.old) ≡ true)) }
    {
        match self {
            Stored::Fifo(line) => line.push(item),
            Stored::Lifo(line) => line.push(item),
            Stored::Bag(lists, _) => lists.push(caller, item),
        }
    }

    /// Takes the item that a take by the caller takes.
    pub fn take(&mut self, caller: u32) -> T
        requires caller { caller < 64 }
        requires some { 0 < item_count (lists_in self.old) }
        ensures kind { IsSameKind self.old self.new }
        ensures taken { IsTake (store_of self.old) (lists_in self.old) caller (T.mark result) (lists_in self.new) }
        ensures fewer { item_count (lists_in self.new) ≤ item_count (lists_in self.old) }
    {
        match self {
            Stored::Fifo(line) => line.take_first(),
            Stored::Lifo(line) => line.take_last(),
            Stored::Bag(lists, _) => match lists.take(caller) {
                Some(taken) => taken.item,
                None => unreachable!(),
            },
        }
    }

    /// The numbers of all items, from the oldest, in a bag the lists in order of callers.
    pub fn numbers(&self, alloc: Global) -> Result<Vec<u64>, AllocError>
        ensures { IfOk result (λ numbers. numbers.items ≡ all_numbers (lists_in self.now)) }
    {
        let mut numbers = Vec::with_capacity(alloc, self.count() as usize)?;
        match self {
            Stored::Fifo(line) | Stored::Lifo(line) => line.add_numbers(&mut numbers)?,
            Stored::Bag(lists, _) => lists.add_numbers(&mut numbers)?,
        }
        Ok(numbers)
    }
}

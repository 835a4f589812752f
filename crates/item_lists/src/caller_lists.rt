// A list of items for each caller.
ghost use Rattle.std.specs.Prelude.{◌≡◌, ◌+◌, ◌^◌, ◌<◌, ◌≤◌, ◌++◌, ◌↔◌, true, IsNone, IfSome, IfNone, IfOk, OnOk, IfErr, length, position};
ghost use Rattle.ho_model.specs.Queue.{has_item};
ghost use Rattle.ho_model.specs.Bag.{empty_lists, list_of, with_last, item_count, all_numbers};
ghost use Rattle.item_lists.specs.Lists.{first_with_item, source, taken_item, lists_without};

use crate::item_list::ItemList;
use ho_base::Marked;
use std::alloc::{AllocError, Global};
use std::marker::Model;

/// How many callers an object can have.
const CALLERS: u32 = 64;

/// A list for each of 64 callers, and how many items there are in all. Contracts see the lists.
#[derive(Drop)]
pub struct CallerLists<T: Marked> {
    lists: Vec<ItemList<T>, Global>,
    count: u64,
}

impl<T: Marked> Model for CallerLists<T> {
    ghost use Rattle.std.specs.Prelude.{◌≡◌, length};
    ghost use Rattle.ho_model.specs.Bag.{Lists, item_count};

    ghost Value = { Lists };

    ghost view = { λ c. c.lists.items };

    ghost invariant = { λ c. (length c.lists.items ≡ 64) × (c.count ≡ item_count c.lists.items) };
}

/// An item, and the caller in whose list it was.
#[derive(Debug, PartialEq, Eq, Drop)]
pub struct Taken<T> {
    pub from: u32,
    pub item: T,
}

impl<T: Marked> CallerLists<T> {
    /// A list without items for each caller.
    pub fn new(alloc: Global) -> Result<CallerLists<T>, AllocError>
        ensures { IfOk result (λ c. c ≡ empty_lists) }
    {
        let mut lists = Vec::with_capacity(alloc, CALLERS as usize)?;
        for _ in 0..CALLERS {
            lists.push(ItemList::new(alloc))?;
        }
        Ok(CallerLists { lists, count: 0 })
    }

    /// How many items there are.
    pub fn count(&self) -> u64
        ensures { result ≡ item_count self.now }
    {
        self.count
    }

    /// How many items a caller's list has.
    pub fn len_of(&self, caller: u32) -> usize
        requires { caller < 64 }
        ensures { result ≡ length (list_of self.now caller) }
    {
        self.lists[caller as usize].len()
    }

    /// Puts an item last in a caller's list, or hands it back for want of memory.
    pub fn push(&mut self, caller: u32, item: T) -> Result<(), T>
        requires caller { caller < 64 }
        requires few { item_count self.old < 2 ^ 60 }
        ensures ok { OnOk result ((self.new ≡ with_last self.old caller (T.mark item))
            × (item_count self.new ≡ item_count self.old + 1)) }
        ensures err { IfErr result (λ back. (back ≡ item) × (self.new ≡ self.old)) }
    {
        self.lists[caller as usize].push(item)?;
        self.count += 1;
        Ok(())
    }

    /// Takes the last item of a caller's own list or, where that has none, the first item of the
    /// least-numbered list that has one.
    pub fn take(&mut self, caller: u32) -> Option<Taken<T>>
        requires { caller < 64 }
        ensures none { IsNone result ↔ (item_count self.old ≡ 0) }
        ensures unchanged { IfNone result (self.new ≡ self.old) }
        ensures from { IfSome result (λ taken. (taken.from ≡ source self.old caller)
            × (has_item (list_of self.old taken.from) ≡ true)) }
        ensures item { IfSome result (λ taken. T.mark taken.item ≡ taken_item self.old caller) }
        ensures rest { IfSome result (λ taken. self.new ≡ lists_without self.old caller) }
        ensures fewer { item_count self.new ≤ item_count self.old }
    {
        if self.count == 0 {
            return None;
        }
        self.count -= 1;
        if self.lists[caller as usize].has_item() {
            let item = self.lists[caller as usize].take_last();
            return Some(Taken { from: caller, item });
        }
        let from = place_of_first(self.lists.as_slice());
        let item = self.lists[from].take_first();
        Some(Taken {
            from: from as u32,
            item,
        })
    }

    /// Adds the numbers of all items to these, the lists in order of callers.
    pub fn add_numbers(&self, numbers: &mut Vec<u64>) -> Result<(), AllocError>
        ensures ok { OnOk result (numbers.new.items ≡ numbers.old.items ++ all_numbers self.now) }
    {
        for list in self.lists.iter() {
            list.add_numbers(numbers)?;
        }
        Ok(())
    }
}

/// The first list that has an item.
fn place_of_first<T: Marked>(lists: &[ItemList<T>]) -> usize
    requires { 0 < item_count lists.now }
    ensures place { result ≡ first_with_item lists.now }
    ensures inside { result < length lists.now }
    ensures some { has_item (list_of lists.now result) ≡ true }
{
    match place_with_item(lists) {
        Some(place) => place,
        None => unreachable!(),
    }
}

/// The first list that has an item, if there is one.
fn place_with_item<T: Marked>(lists: &[ItemList<T>]) -> Option<usize>
    ensures { result ≡ position has_item lists.now }
{
    lists.iter().position(|list| list.has_item())
}

// A list of items that grows.
ghost use Rattle.std.specs.Prelude.{◌≡◌, ◌-◌, ◌++◌, ◌∷◌, [], true, OnOk, IfErr, length, map, take, drop};
ghost use Rattle.ho_base.specs.Marks.{number_of};
ghost use Rattle.ho_model.specs.Queue.{has_item, first_item};
ghost use Rattle.ho_model.specs.Bag.{last_item};

use ho_base::Marked;
use std::alloc::{AllocError, Global};
use std::collections::VecDeque;
use std::marker::Model;

/// Items in order, the oldest first. Contracts see their marks.
#[derive(Drop)]
pub struct ItemList<T: Marked> {
    items: VecDeque<T, Global>,
}

impl<T: Marked> Model for ItemList<T> {
    ghost use Rattle.std.specs.Prelude.{List, map};
    ghost use Rattle.std.specs.VecDeque.{deque_items};
    ghost use Rattle.ho_base.specs.Marks.{Mark};

    ghost Value = { List Mark };

    ghost view = { λ l. map T.mark (deque_items l.items) };
}

impl<T: Marked> ItemList<T> {
    /// An empty list. Takes no memory.
    pub fn new(alloc: Global) -> ItemList<T>
        ensures { result ≡ [] }
    {
        ItemList {
            items: VecDeque::new(alloc),
        }
    }

    pub fn len(&self) -> usize
        ensures { result ≡ length self.now }
    {
        self.items.len()
    }

    pub fn has_item(&self) -> bool
        ensures { result ≡ has_item self.now }
    {
        self.items.len() > 0
    }

    /// Puts an item last, or hands it back for want of memory.
    pub fn push(&mut self, item: T) -> Result<(), T>
        ensures ok { OnOk result (self.new ≡ self.old ++ T.mark item ∷ []) }
        ensures err { IfErr result (λ back. (back ≡ item) × (self.new ≡ self.old)) }
    {
        match self.items.push_back(item) {
            Ok(()) => Ok(()),
            Err(refused) => Err(refused.value),
        }
    }

    pub fn take_first(&mut self) -> T
        requires { has_item self.old ≡ true }
        ensures item { T.mark result ≡ first_item self.old }
        ensures rest { self.new ≡ drop 1 self.old }
    {
        self.items.pop_front().unwrap()
    }

    #[tactic(auto, using(crate::proofs::Ends::map_front))]
    pub fn take_last(&mut self) -> T
        requires { has_item self.old ≡ true }
        ensures item { T.mark result ≡ last_item self.old }
        ensures rest { self.new ≡ take (length self.old - 1) self.old }
    {
        self.items.pop_back().unwrap()
    }

    /// Adds the numbers of the items to these.
    pub fn add_numbers(&self, numbers: &mut Vec<u64>) -> Result<(), AllocError>
        ensures ok { OnOk result (numbers.new.items ≡ numbers.old.items ++ map number_of self.now) }
    {
        for i in 0..self.items.len() {
            numbers.push(self.items[i].shown_number())?;
        }
        Ok(())
    }
}

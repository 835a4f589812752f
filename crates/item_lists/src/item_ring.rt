// A list of items with a capacity.
ghost use Rattle.std.specs.Prelude.{◌≡◌, ◌-◌, ◌<◌, ◌≤◌, ◌^◌, ◌++◌, ◌∷◌, [], true, Some, OnOk, IfOk, IfErr, length, map, take, drop, nat_le, option_map, option_copied, slice_get};
ghost use Rattle.ho_base.specs.Marks.{number_of};
ghost use Rattle.ho_model.specs.Queue.{has_item, first_item};
ghost use Rattle.ho_model.specs.Bag.{last_item};

use circular_buffer::HeapCircularBuffer;
use ho_base::Marked;
use std::alloc::{AllocError, Global};
use std::marker::Model;

/// Items in order, the oldest first, with room for so many. All its memory is taken when it is made.
/// Contracts see the marks and the capacity.
#[derive(Drop)]
pub struct ItemRing<T: Marked> {
    items: HeapCircularBuffer<T, Global>,
}

impl<T: Marked> Model for ItemRing<T> {
    ghost use Rattle.std.specs.Prelude.{map};
    ghost use Rattle.item_lists.specs.Rings.{Ring};

    ghost Value = { Ring };

    ghost view = { λ r. record { items = map T.mark r.items.items; capacity = r.items.capacity } };
}

impl<T: Marked> ItemRing<T> {
    pub fn with_capacity(alloc: Global, capacity: u32) -> Result<ItemRing<T>, AllocError>
        ensures { IfOk result (λ r. (r.items ≡ []) × (r.capacity ≡ capacity)) }
    {
        let items = HeapCircularBuffer::with_capacity(alloc, capacity as usize)?;
        Ok(ItemRing { items })
    }

    pub fn len(&self) -> usize
        ensures { result ≡ length self.now.items }
    {
        self.items.len()
    }

    pub fn is_full(&self) -> bool
        ensures { result ≡ nat_le self.now.capacity (length self.now.items) }
    {
        self.items.capacity() <= self.items.len()
    }

    pub fn has_item(&self) -> bool
        ensures { result ≡ has_item self.now.items }
    {
        self.items.len() > 0
    }

    /// Puts an item last, or hands it back where the ring is full.
    pub fn push(&mut self, item: T) -> Result<(), T>
        ensures capacity { self.new.capacity ≡ self.old.capacity }
        ensures ok { OnOk result ((length self.old.items < self.old.capacity)
            × (self.new.items ≡ self.old.items ++ T.mark item ∷ [])) }
        ensures full { IfErr result (λ back. (back ≡ item) × (self.old.capacity ≤ length self.old.items)
            × (self.new.items ≡ self.old.items)) }
    {
        self.items.try_push_back(item)
    }

    /// The first item, if there is one.
    pub fn first(&self) -> Option<&T>
        ensures { option_map T.mark (option_copied result) ≡ slice_get self.now.items 0 }
    {
        self.items.front()
    }

    pub fn take_first(&mut self) -> T
        requires { has_item self.old.items ≡ true }
        ensures capacity { self.new.capacity ≡ self.old.capacity }
        ensures item { T.mark result ≡ first_item self.old.items }
        ensures rest { self.new.items ≡ drop 1 self.old.items }
    {
        self.items.pop_front().unwrap()
    }

    #[tactic(auto, using(crate::proofs::Ends::map_front))]
    pub fn take_last(&mut self) -> T
        requires { has_item self.old.items ≡ true }
        ensures capacity { self.new.capacity ≡ self.old.capacity }
        ensures item { T.mark result ≡ last_item self.old.items }
        ensures rest { self.new.items ≡ take (length self.old.items - 1) self.old.items }
    {
        self.items.pop_back().unwrap()
    }

    /// Adds the numbers of the items to these.
    pub fn add_numbers(&self, numbers: &mut Vec<u64>) -> Result<(), AllocError>
        ensures ok { OnOk result (numbers.new.items ≡ numbers.old.items ++ map number_of self.now.items) }
    {
        for i in 0..self.items.len() {
            numbers.push(self.items.get(i).unwrap().shown_number())?;
        }
        Ok(())
    }
}

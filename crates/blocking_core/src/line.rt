// Items in one list, with a bound or none.
ghost use Rattle.std.specs.Prelude.{◌≡◌, ◌+◌, ◌-◌, ◌++◌, ◌∷◌, [], true, false, None, OnOk, IfOk, IfErr, length, map, take, drop};
ghost use Rattle.ho_base.specs.Marks.{number_of};
ghost use Rattle.ho_model.specs.Queue.{has_item, first_item};
ghost use Rattle.ho_model.specs.Bag.{last_item};
ghost use Rattle.blocking_core.specs.Stores.{line_items, line_bound, is_line_full};

use ho_base::Marked;
use item_lists::{ItemList, ItemRing};
use std::alloc::{AllocError, Global};

/// One list of items.
#[derive(Drop)]
pub enum Line<T: Marked> {
    /// With a bound, whose memory is taken when it is made.
    Ring(ItemRing<T>),
    /// Without a bound.
    List(ItemList<T>),
}

impl<T: Marked> Line<T> {
    pub fn new(alloc: Global, bound: Option<u32>) -> Result<Line<T>, AllocError>
        ensures items { IfOk result (λ line. line_items line ≡ []) }
        ensures bound { IfOk result (λ line. line_bound line ≡ bound) }
    {
        match bound {
            Some(bound) => Ok(Line::Ring(ItemRing::with_capacity(alloc, bound)?)),
            None => Ok(Line::List(ItemList::new(alloc))),
        }
    }

    pub fn len(&self) -> usize
        ensures { result ≡ length (line_items self.now) }
    {
        match self {
            Line::Ring(ring) => ring.len(),
            Line::List(list) => list.len(),
        }
    }

    pub fn is_full(&self) -> bool
        ensures { result ≡ is_line_full self.now }
    {
        match self {
            Line::Ring(ring) => ring.is_full(),
            Line::List(_) => false,
        }
    }

    /// Puts an item last. With a bound it takes no memory.
    pub fn push(&mut self, item: T) -> Result<(), T>
        requires { is_line_full self.old ≡ false }
        ensures bound { line_bound self.new ≡ line_bound self.old }
        ensures ok { OnOk result (line_items self.new ≡ line_items self.old ++ T.mark item ∷ []) }
        ensures err { IfErr result (λ back. (back ≡ item) × (line_items self.new ≡ line_items self.old)
            × (line_bound self.old ≡ None)) }
    {
        match self {
            Line::Ring(ring) => ring.push(item),
            Line::List(list) => list.push(item),
        }
    }

    pub fn take_first(&mut self) -> T
        requires { has_item (line_items self.old) ≡ true }
        ensures bound { line_bound self.new ≡ line_bound self.old }
        ensures item { T.mark result ≡ first_item (line_items self.old) }
        ensures rest { line_items self.new ≡ drop 1 (line_items self.old) }
    {
        match self {
            Line::Ring(ring) => ring.take_first(),
            Line::List(list) => list.take_first(),
        }
    }

    pub fn take_last(&mut self) -> T
        requires { has_item (line_items self.old) ≡ true }
        ensures bound { line_bound self.new ≡ line_bound self.old }
        ensures item { T.mark result ≡ last_item (line_items self.old) }
        ensures rest { line_items self.new ≡ take (length (line_items self.old) - 1) (line_items self.old) }
    {
        match self {
            Line::Ring(ring) => ring.take_last(),
            Line::List(list) => list.take_last(),
        }
    }

    /// Adds the numbers of the items to these.
    pub fn add_numbers(&self, numbers: &mut Vec<u64>) -> Result<(), AllocError>
        ensures { OnOk result (numbers.new.items ≡ numbers.old.items ++ map number_of (line_items self.now)) }
    {
        match self {
            Line::Ring(ring) => ring.add_numbers(numbers),
            Line::List(list) => list.add_numbers(numbers),
        }
    }
}

// A list of items for each caller, as numbers.
ghost use Rattle.std.specs.Prelude.{◌≡◌, ◌<◌, true, Some, IfOk, OnOk, length, position, unwrap_or};
ghost use Rattle.ho_model.specs.Entries.{same_mark};
ghost use Rattle.ho_model.specs.Queue.{has_item, first_item};
ghost use Rattle.ho_model.specs.Bag.{empty_lists, list_of, last_item, with_last, without_first, without_last, item_count, all_numbers};
ghost use Rattle.ho_model.specs.Written.{mark_of};

use super::line::Line;
use ho_base::NoMemory;
use std::alloc::Global;
use std::marker::Model;

/// How many callers an object can have.
const CALLERS: usize = 64;

/// Items in order for each of 64 callers. Contracts see their marks.
#[derive(Drop)]
pub(crate) struct CallerLines {
    lines: Vec<Line>,
}

impl Model for CallerLines {
    ghost use Rattle.std.specs.Prelude.{◌≡◌, length};
    ghost use Rattle.ho_model.specs.Bag.{Lists};

    ghost Value = { Lists };

    ghost view = { λ c. c.lines.items };

    ghost invariant = { λ c. length c.lines.items ≡ 64 };
}

impl CallerLines {
    /// A line without items for each caller.
    pub(crate) fn new(alloc: Global) -> Result<CallerLines, NoMemory>
        ensures { IfOk result (λ c. c ≡ empty_lists) }
    {
        let mut lines = Vec::with_capacity(alloc, CALLERS)?;
        for _ in 0..CALLERS {
            lines.push(Line::new(alloc))?;
        }
        Ok(CallerLines { lines })
    }

    /// How many items there are. More than a `u64` counts are in no memory.
    pub(crate) fn count(&self) -> Result<u64, NoMemory>
        ensures { IfOk result (λ count. count ≡ item_count self.now) }
    {
        let mut count = 0u64;
        for line in self.lines.iter() {
            let Some(more) = count.checked_add(line.len() as u64) else {
                return Err(NoMemory);
            };
            count = more;
        }
        Ok(count)
    }

    /// How many items a caller's list has.
    pub(crate) fn len_of(&self, caller: u32) -> usize
        requires { caller < 64 }
        ensures { result ≡ length (list_of self.now caller) }
    {
        self.lines[caller as usize].len()
    }

    /// Whether the list at a place has an item. Beyond the last place there is none.
    pub(crate) fn has_item_at(&self, place: usize) -> bool
        ensures { result ≡ has_item (list_of self.now place) }
    {
        match self.lines.get(place) {
            Some(line) => line.has_item(),
            None => false,
        }
    }

    /// Whether the last item at a place is this one.
    #[tactic(auto, using(crate::proofs::Listed::has_list))]
    pub(crate) fn ends_with(&self, place: usize, item: u64) -> bool
        requires { has_item (list_of self.now place) ≡ true }
        ensures { result ≡ same_mark (mark_of item) (last_item (list_of self.now place)) }
    {
        self.lines[place].ends_with(item)
    }

    /// Whether the first item at a place is this one.
    #[tactic(auto, using(crate::proofs::Listed::has_list))]
    pub(crate) fn begins_with(&self, place: usize, item: u64) -> bool
        requires { has_item (list_of self.now place) ≡ true }
        ensures { result ≡ same_mark (mark_of item) (first_item (list_of self.now place)) }
    {
        self.lines[place].begins_with(item)
    }

    /// Puts an item last in a caller's list.
    pub(crate) fn push(&mut self, caller: u32, item: u64) -> Result<(), NoMemory>
        requires { caller < 64 }
        ensures { OnOk result (self.new ≡ with_last self.old caller (mark_of item)) }
    {
        self.lines[caller as usize].push(item)
    }

    #[tactic(auto, using(crate::proofs::Listed::has_list))]
    pub(crate) fn take_first(&mut self, place: usize) -> u64
        requires { has_item (list_of self.old place) ≡ true }
        ensures item { mark_of result ≡ first_item (list_of self.old place) }
        ensures rest { self.new ≡ without_first self.old place }
    {
        self.lines[place].take_first()
    }

    #[tactic(auto, using(crate::proofs::Listed::has_list))]
    pub(crate) fn take_last(&mut self, place: usize) -> u64
        requires { has_item (list_of self.old place) ≡ true }
        ensures item { mark_of result ≡ last_item (list_of self.old place) }
        ensures rest { self.new ≡ without_last self.old place }
    {
        self.lines[place].take_last()
    }

    /// The place of the first list that has an item, if one has.
    pub(crate) fn place_with_item(&self) -> Option<usize>
        ensures { result ≡ position has_item self.now }
    {
        self.lines.iter().position(|line| line.has_item())
    }

    /// The numbers of all items, the lists in order of callers.
    pub(crate) fn numbers(&self, alloc: Global) -> Result<Vec<u64>, NoMemory>
        ensures { IfOk result (λ numbers. numbers.items ≡ all_numbers self.now) }
    {
        let mut numbers = Vec::new(alloc);
        for line in self.lines.iter() {
            line.add_numbers(&mut numbers)?;
        }
        Ok(numbers)
    }
}

// Items in order, as numbers.
ghost use Rattle.std.specs.Prelude.{◌≡◌, ◌-◌, ◌/◌, ◌<◌, ◌++◌, ◌∷◌, [], true, Some, None, if◌then◌else◌, nat_le, IfOk, OnOk, length, map, take, drop, remove, slice_index, slice_index_or};
ghost use Rattle.ho_base.specs.Marks.{number_of, number_priority};
ghost use Rattle.ho_model.specs.Entries.{same_mark};
ghost use Rattle.ho_model.specs.Queue.{has_item, first_item};
ghost use Rattle.ho_model.specs.Bag.{last_item};
ghost use Rattle.ho_model.specs.Channel.{item_at, read_place};
ghost use Rattle.ho_model.specs.Written.{mark_of};

use ho_base::NoMemory;
use std::alloc::Global;
use std::marker::Model;

/// Items in order, the oldest first. Contracts see their marks.
#[derive(Drop)]
pub(crate) struct Line {
    numbers: Vec<u64>,
}

impl Model for Line {
    ghost use Rattle.std.specs.Prelude.{List, map};
    ghost use Rattle.ho_base.specs.Marks.{Mark};
    ghost use Rattle.ho_model.specs.Written.{mark_of};

    ghost Value = { List Mark };

    ghost view = { λ l. map mark_of l.numbers.items };
}

impl Line {
    /// A line without items. Takes no memory.
    pub(crate) fn new(alloc: Global) -> Line
        ensures { result ≡ [] }
    {
        Line {
            numbers: Vec::new(alloc),
        }
    }

    pub(crate) fn len(&self) -> usize
        ensures { result ≡ length self.now }
    {
        self.numbers.len()
    }

    pub(crate) fn has_item(&self) -> bool
        ensures { result ≡ has_item self.now }
    {
        self.numbers.len() > 0
    }

    /// Puts an item last.
    pub(crate) fn push(&mut self, item: u64) -> Result<(), NoMemory>
        ensures { OnOk result (self.new ≡ self.old ++ mark_of item ∷ []) }
    {
        self.numbers.push(item)?;
        Ok(())
    }

    /// The item at a place.
    #[tactic(auto, using(crate::proofs::Marked::mark_at))]
    pub(crate) fn at(&self, place: usize) -> u64
        requires { place < length self.now }
        ensures { mark_of result ≡ item_at self.now place }
    {
        self.numbers[place]
    }

    /// Takes the item at a place.
    #[tactic(auto, using(crate::proofs::Marked::marks_without, crate::proofs::Marked::mark_at))]
    pub(crate) fn remove(&mut self, place: usize) -> u64
        requires { place < length self.old }
        ensures item { mark_of result ≡ item_at self.old place }
        ensures rest { self.new ≡ remove self.old place }
    {
        self.numbers.remove(place)
    }

    /// Whether the first item is this one.
    #[tactic(auto, using(crate::proofs::Marked::mark_at))]
    pub(crate) fn begins_with(&self, item: u64) -> bool
        requires { has_item self.now ≡ true }
        ensures { result ≡ same_mark (mark_of item) (first_item self.now) }
    {
        self.numbers[0] == item
    }

    /// Whether the last item is this one.
    #[tactic(auto, using(crate::proofs::Marked::mark_at))]
    pub(crate) fn ends_with(&self, item: u64) -> bool
        requires { has_item self.now ≡ true }
        ensures { result ≡ same_mark (mark_of item) (last_item self.now) }
    {
        self.numbers[self.numbers.len() - 1] == item
    }

    #[tactic(auto, using(crate::proofs::Marked::mark_at))]
    pub(crate) fn first(&self) -> u64
        requires { has_item self.now ≡ true }
        ensures { mark_of result ≡ first_item self.now }
    {
        self.numbers[0]
    }

    #[tactic(auto, using(crate::proofs::Marked::marks_after_first, crate::proofs::Marked::mark_at))]
    pub(crate) fn take_first(&mut self) -> u64
        requires { has_item self.old ≡ true }
        ensures item { mark_of result ≡ first_item self.old }
        ensures rest { self.new ≡ drop 1 self.old }
    {
        self.numbers.remove(0)
    }

    #[tactic(auto, using(crate::proofs::Marked::marks_before_last, crate::proofs::Marked::mark_at))]
    pub(crate) fn take_last(&mut self) -> u64
        requires { has_item self.old ≡ true }
        ensures item { mark_of result ≡ last_item self.old }
        ensures rest { self.new ≡ take (length self.old - 1) self.old }
    {
        self.numbers.pop().unwrap()
    }

    /// Adds the numbers of the items to these.
    #[tactic(auto, using(crate::proofs::Marked::numbers_of_marks))]
    pub(crate) fn add_numbers(&self, numbers: &mut Vec<u64>) -> Result<(), NoMemory>
        ensures { OnOk result (numbers.new.items ≡ numbers.old.items ++ map number_of self.now) }
    {
        numbers.extend_from_slice(self.numbers.as_slice())?;
        Ok(())
    }

    /// The place of the item that a read takes: the first, or with a priority the first among those
    /// of least priority.
    pub(crate) fn read_place(&self, by_priority: bool) -> usize
        requires { has_item self.now ≡ true }
        ensures place { result ≡ read_place (if by_priority then Some number_priority else None) self.now }
        ensures inside { result < length self.now }
    {
        if !by_priority {
            return 0;
        }
        self.least_place()
    }

    /// The place of the first item of least priority.
    fn least_place(&self) -> usize
        requires { has_item self.now ≡ true }
        ensures place { result ≡ read_place (Some number_priority) self.now }
        ensures inside { result < length self.now }
    {
        let mut next = self.numbers.len() - 1;
        let mut least = next;
        'scan: while next > 0 {
            next -= 1;
            let chosen = lesser(self.numbers.as_slice(), next, least);
            least = chosen;
        }
        least
    }
}

/// The place whose number has the lesser priority, the first where both have the same.
fn lesser(numbers: &[u64], first: usize, second: usize) -> usize
    requires first { first < length numbers.now }
    requires second { second < length numbers.now }
    ensures { result ≡ (if nat_le (slice_index numbers.now first / 1000)
        (slice_index numbers.now second / 1000) then first else second) }
{
    if numbers[first] / 1000 <= numbers[second] / 1000 {
        first
    } else {
        second
    }
}

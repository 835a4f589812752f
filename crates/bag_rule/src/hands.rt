// What is done with the list that a seat took last.
ghost use Rattle.std.specs.Prelude.{◌≡◌, ◌-◌, ◌++◌, ◌<◌, ◌∷◌, [], length, take, drop, map, true, OnOk, IfErr, IfSome, IfNone};
ghost use Rattle.ho_base.specs.Marks.{number_of};
ghost use Rattle.ho_model.specs.Queue.{has_item, first_item};
ghost use Rattle.ho_model.specs.Bag.{last_item};
ghost use Rattle.bag_rule.specs.Seats.{IsSame, HasFirst, front_of, with_front};

use crate::steps::Seat;
use crate::table::BagTable;
use ho_base::Item;
use std::alloc::AllocError;

impl<T: Item> BagTable<T> {
    /// How many items it has.
    pub fn len(&self, seat: &mut Seat<T>, list: usize) -> usize
        requires table { seat.old.table_id ≡ self.now }
        requires hand { HasFirst seat.old.me list }
        ensures same { IsSame seat.old seat.new × (seat.new.me ≡ seat.old.me) }
        ensures len { result ≡ length (front_of seat.old.me.1) }
    {
        seat.slot_mut(&self.table.shared, list).len()
    }

    /// Puts an item last, or hands it back for want of memory.
    pub fn push(&self, seat: &mut Seat<T>, list: usize, item: T) -> Result<(), T>
        requires table { seat.old.table_id ≡ self.now }
        requires hand { HasFirst seat.old.me list }
        ensures same { IsSame seat.old seat.new }
        ensures ok { OnOk result (seat.new.me ≡
            with_front seat.old.me list (front_of seat.old.me.1 ++ T.mark item ∷ [])) }
        ensures err { IfErr result (λ back. (back ≡ item) × (seat.new.me ≡ seat.old.me)) }
    {
        seat.slot_mut(&self.table.shared, list).push(item)
    }

    /// The last item, if there is one. Takes no memory.
    pub fn take_last(&self, seat: &mut Seat<T>, list: usize) -> Option<T>
        requires table { seat.old.table_id ≡ self.now }
        requires hand { HasFirst seat.old.me list }
        ensures same { IsSame seat.old seat.new }
        ensures none { IfNone result
            ((front_of seat.old.me.1 ≡ []) × (seat.new.me ≡ seat.old.me)) }
        ensures some { IfSome result (λ item. let items = front_of seat.old.me.1 in
            (0 < length items) × (last_item items ≡ T.mark item)
            × (seat.new.me ≡ with_front seat.old.me list (take (length items - 1) items))) }
    {
        let items = seat.slot_mut(&self.table.shared, list);
        if items.has_item() {
            Some(items.take_last())
        } else {
            None
        }
    }

    /// The first item, if there is one. Takes no memory.
    pub fn take_first(&self, seat: &mut Seat<T>, list: usize) -> Option<T>
        requires table { seat.old.table_id ≡ self.now }
        requires hand { HasFirst seat.old.me list }
        ensures same { IsSame seat.old seat.new }
        ensures none { IfNone result
            ((front_of seat.old.me.1 ≡ []) × (seat.new.me ≡ seat.old.me)) }
        ensures some { IfSome result (λ item. let items = front_of seat.old.me.1 in
            (0 < length items) × (first_item items ≡ T.mark item)
            × (seat.new.me ≡ with_front seat.old.me list (drop 1 items))) }
    {
        let items = seat.slot_mut(&self.table.shared, list);
        if items.has_item() {
            Some(items.take_first())
        } else {
            None
        }
    }

    /// Adds the numbers of its items to these.
    pub fn add_numbers(
        &self,
        seat: &mut Seat<T>,
        list: usize,
        numbers: &mut Vec<u64>,
    ) -> Result<(), AllocError>
        requires table { seat.old.table_id ≡ self.now }
        requires hand { HasFirst seat.old.me list }
        ensures same { IsSame seat.old seat.new × (seat.new.me ≡ seat.old.me) }
        ensures ok { OnOk result (numbers.new.items ≡
            numbers.old.items ++ map number_of (front_of seat.old.me.1)) }
    {
        seat.slot_mut(&self.table.shared, list).add_numbers(numbers)
    }
}

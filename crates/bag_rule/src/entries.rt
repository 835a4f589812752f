// The entries of a bag, each one event.
ghost use Rattle.std.specs.Prelude.{◌≡◌, ◌≢◌, ℕ, ◌+◌, ◌-◌, ◌<◌, ◌≤◌, ◌++◌, List, [], ◌∷◌, length, take, drop, true};
ghost use Rattle.ho_base.specs.Marks.{Mark};
ghost use Rattle.ho_model.specs.Entries.{entry};
ghost use Rattle.ho_model.specs.Queue.{has_item, first_item};
ghost use Rattle.ho_model.specs.Bag.{Lists, all_numbers, last_item};
ghost use Rattle.ho_model.specs.declared.marks.EntryMark.{EntryMark};
ghost use Rattle.ho_model.specs.declared.marks.CallMark.TheVariants.{Add, Take, Snap};
ghost use Rattle.ho_model.specs.declared.marks.ReplyMark.TheVariants.{Done, Full, ItemFrom, Numbers};
ghost use Rattle.bag_rule.specs.declared.view.Hand.TheVariants.{Kept};
ghost use Rattle.bag_rule.specs.Views.{hand_at, kept_at, entered, changed, count_entry, Agrees};
ghost use Rattle.bag_rule.specs.Plays.{Makes};
ghost use Rattle.bag_rule.specs.Seats.{IsFor, IsSame, MayEnter};

use crate::layout::EVENT;
use crate::steps::{Seat, event_change, event_count, event_quiet};
use crate::table::BagTable;
use ho_base::Item;
use ho_model::Items;
use std::marker::Brand;
use std::snapshot::Snapshot;

impl<T: Item> BagTable<T> {
    /// Add event: the entry of an add to the own list, which is kept. Returns its place.
    pub fn add_event(&self, seat: &mut Seat<T>, caller: u32, said: &Snapshot<T>) -> u64
        requires table { IsFor self.now seat.old }
        requires may { MayEnter seat.old.me.0 }
        requires caller { seat.old.me.0.caller ≡ caller }
        requires list { (items : List Mark) × (hand_at seat.old.me.0 caller ≡ Kept items)
            × (length items < 16383) }
        ensures same { IsSame seat.old seat.new }
        ensures made { let e = entry caller (Add (T.mark said.now.value)) Done in
            (others : List EntryMark) × (seat.new.me ≡ (
              changed seat.old.me.0 others e caller
                  (kept_at seat.old.me.0 caller ++ T.mark said.now.value ∷ []),
              seat.old.me.1,
            ))
            × Makes T.priority_of seat.old.me.0 others e result }
    {
        let own = caller as usize;
        event_change::<T, Brand>(&self.table.shared, seat, own, said, EVENT + 1) / EVENT
    }

    /// Quiet event: the entry of an add that finds its list full. Returns its place.
    pub fn full_event(&self, seat: &mut Seat<T>, caller: u32, said: &Snapshot<T>) -> u64
        requires table { IsFor self.now seat.old }
        requires may { MayEnter seat.old.me.0 }
        requires caller { seat.old.me.0.caller ≡ caller }
        requires list { (items : List Mark) × (hand_at seat.old.me.0 caller ≡ Kept items)
            × (length items ≡ 16383) }
        ensures same { IsSame seat.old seat.new }
        ensures made { let e = entry caller (Add (T.mark said.now.value)) Full in
            (others : List EntryMark) × (seat.new.me ≡ (entered seat.old.me.0 others e, seat.old.me.1))
            × Makes T.priority_of seat.old.me.0 others e result }
    {
        // for the proof: its clauses name the caller
        let _ = caller;
        event_quiet::<T, Brand, Snapshot<T>>(&self.table.shared, seat, said) / EVENT
    }

    /// Take event: the entry of a take of the last item of the own list, which is kept. Returns its
    /// place.
    pub fn take_event(&self, seat: &mut Seat<T>, caller: u32, said: &Snapshot<T>) -> u64
        requires table { IsFor self.now seat.old }
        requires may { MayEnter seat.old.me.0 }
        requires caller { seat.old.me.0.caller ≡ caller }
        requires list { (items : List Mark) × (hand_at seat.old.me.0 caller ≡ Kept items)
            × (0 < length items) × (last_item items ≡ T.mark said.now.value) × (length items ≤ 16383) }
        ensures same { IsSame seat.old seat.new }
        ensures made { let e = entry caller Take (ItemFrom (T.mark said.now.value) caller) in
            let items = kept_at seat.old.me.0 caller in
            (others : List EntryMark) × (seat.new.me ≡ (
              changed seat.old.me.0 others e caller
                  (take (length items - 1) items),
              seat.old.me.1,
            ))
            × Makes T.priority_of seat.old.me.0 others e result }
    {
        let own = caller as usize;
        event_change::<T, Brand>(&self.table.shared, seat, own, said, EVENT - 1) / EVENT
    }

    /// Take event: the entry of a take of the first item of another list, while the own list is kept
    /// too and has no item. Returns its place.
    pub fn steal_event(
        &self,
        seat: &mut Seat<T>,
        list: usize,
        caller: u32,
        said: &Snapshot<T>,
    ) -> u64
        requires table { IsFor self.now seat.old }
        requires may { MayEnter seat.old.me.0 }
        requires own { (seat.old.me.0.caller ≡ caller) × (hand_at seat.old.me.0 caller ≡ Kept []) }
        requires list { (items : List Mark) × (hand_at seat.old.me.0 list ≡ Kept items)
            × (0 < length items) × (first_item items ≡ T.mark said.now.value) × (length items ≤ 16383) }
        ensures same { IsSame seat.old seat.new }
        ensures made { let e = entry caller Take (ItemFrom (T.mark said.now.value) list) in
            (others : List EntryMark) × (seat.new.me ≡ (
              changed seat.old.me.0 others e list
                  (drop 1 (kept_at seat.old.me.0 list)),
              seat.old.me.1,
            ))
            × Makes T.priority_of seat.old.me.0 others e result }
    {
        // for the proof: its clauses name the caller
        let _ = caller;
        event_change::<T, Brand>(&self.table.shared, seat, list, said, EVENT - 1) / EVENT
    }

    /// Quiet event: the entry of a snapshot with these numbers, where all lists are kept. Returns its
    /// place.
    pub fn snap_event(&self, seat: &mut Seat<T>, numbers: &Items) -> u64
        requires table { IsFor self.now seat.old }
        requires may { MayEnter seat.old.me.0 }
        requires all { (lists : Lists) → Agrees seat.old.me.0 lists → all_numbers lists ≡ numbers.now }
        ensures same { IsSame seat.old seat.new }
        ensures made { let e = entry seat.old.me.0.caller Snap (Numbers numbers.now) in
            (others : List EntryMark) × (seat.new.me ≡ (entered seat.old.me.0 others e, seat.old.me.1))
            × Makes T.priority_of seat.old.me.0 others e result }
    {
        event_quiet::<T, Brand, Items>(&self.table.shared, seat, numbers) / EVENT
    }

    /// Quiet event: the entry of a count. Returns the count and its place.
    pub fn count_event(&self, seat: &mut Seat<T>) -> (u64, u64)
        requires table { IsFor self.now seat.old }
        requires may { MayEnter seat.old.me.0 }
        ensures same { IsSame seat.old seat.new }
        ensures made { let e = count_entry seat.old.me.0 result.0 in
            (others : List EntryMark) × (seat.new.me ≡ (entered seat.old.me.0 others e, seat.old.me.1))
            × Makes T.priority_of seat.old.me.0 others e result.1 }
    {
        let found = event_count(&self.table.shared, seat);
        (found % EVENT, found / EVENT)
    }
}

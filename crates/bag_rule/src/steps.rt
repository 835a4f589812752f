// The kinds of step, each one call on the table by a seat.
ghost use Rattle.std.specs.Prelude.{◌≡◌, ◌≢◌, ℕ, ◌+◌, ◌*◌, ◌<◌, ◌≤◌, ◌^◌, ◌++◌, List, [], ◌∷◌, length, None, Some};
ghost use Rattle.atomic_table.specs.Table.{rest};
ghost use Rattle.ho_base.specs.Marks.{Mark};
ghost use Rattle.ho_model.specs.declared.marks.EntryMark.{EntryMark};
ghost use Rattle.passes.specs.Numbers.{HasNumber, IsSpare};
ghost use Rattle.passes.specs.Holders.{Meet};
ghost use Rattle.bag_rule.specs.declared.view.Joint.{Joint};
ghost use Rattle.bag_rule.specs.declared.view.Hand.TheVariants.{Away, Kept};
ghost use Rattle.bag_rule.specs.Views.{hand_at, none_kept, left_list, entered, changed, Does, Leaves, empty_entry, without, alone, joined, told};
ghost use Rattle.bag_rule.specs.Plays.{SeesLaw, Enters, GotList, MissedList, Begins, LooksAgain, CountsItems, LostEvent};
ghost use Rattle.bag_rule.specs.Seats.{IsFor, IsSame, MayEnter, InHand};

use crate::layout::{EVENT, EVENTS, list_word};
use crate::plays::{
    BagRule, Begin, Change, Count, FindEmpty, Give, LeaveList, Leaving, Look, Naming, Numbered,
    Quiet, TakeIn, TakeList, Tell,
};
use crate::view::View;
use ho_base::Item;
use item_lists::ItemList;
use std::snapshot::Snapshot;

pub(crate) type Board<T> = atomic_table::Shared<ItemList<T>, View, u64, BagRule<T>>;

/// A seat at a bag's table, with the lists that it has taken.
pub type Seat<T> = atomic_table::Seat<ItemList<T>, View>;

/// Takes a list, if nobody holds it. Returns the list word that it found.
pub(crate) fn list_take<T: Item, N: Naming>(
    board: &Board<T>,
    seat: &mut Seat<T>,
    list: usize,
    caller: u32,
) -> u64
    requires table { IsFor board.now.table_id seat.old }
    requires list { (N.list ≡ list) × (list < seat.old.me.0.callers)
        × (hand_at seat.old.me.0 list ≡ Away) }
    requires caller { (seat.old.me.0.caller ≡ caller)
        × HasNumber seat.old.me.0.held seat.old.me.0.caller × (caller < 64) }
    ensures same { IsSame seat.old seat.new }
    ensures got { result ≡ 0 →
        GotList T.priority_of seat.old.me.0 seat.old.me.1 list seat.new.me }
    ensures held { result ≢ 0 →
        MissedList T.priority_of seat.old.me.0 seat.old.me.1 list result seat.new.me }
{
    let holder = caller as u64 + 1;
    board.compare_exchange::<TakeList<T, N>>(seat, list_word(list), 0, holder)
}

/// Gives back the list that was taken last.
pub(crate) fn list_leave<T: Item, N: Naming>(board: &Board<T>, seat: &mut Seat<T>, list: usize)
    requires table { IsFor board.now.table_id seat.old }
    requires list { (N.list ≡ list) × (list < seat.old.me.0.callers) }
    requires hand { InHand seat.old.me list }
    ensures same { IsSame seat.old seat.new }
    ensures left { seat.new.me ≡ (left_list seat.old.me.0 list, rest seat.old.me.1) }
{
    board.store::<LeaveList<N>>(seat, list_word(list), 0);
}

/// The load of the event word with which a take begins to look round.
pub(crate) fn begin<T: Item>(board: &Board<T>, seat: &mut Seat<T>) -> u64
    requires table { IsFor board.now.table_id seat.old }
    ensures same { IsSame seat.old seat.new }
    ensures read { Begins seat.old.me.0 seat.old.me.1 result seat.new.me }
{
    board.load::<Begin>(seat, EVENTS)
}

/// A later load of the event word.
pub(crate) fn look_again<T: Item>(board: &Board<T>, seat: &mut Seat<T>) -> u64
    requires table { IsFor board.now.table_id seat.old }
    ensures same { IsSame seat.old seat.new }
    ensures read { LooksAgain seat.old.me.0 seat.old.me.1 result seat.new.me }
{
    board.load::<Look>(seat, EVENTS)
}

/// Makes an entry by which a list that is kept has other items. Returns the event word that it found.
pub(crate) fn event_change<T: Item, N: Naming>(
    board: &Board<T>,
    seat: &mut Seat<T>,
    list: usize,
    said: &Snapshot<T>,
    add: u64,
) -> u64
    requires table { IsFor board.now.table_id seat.old }
    requires may { MayEnter seat.old.me.0 }
    requires entry { N.entry.caller ≡ seat.old.me.0.caller }
    requires list { (items : List Mark) × (hand_at seat.old.me.0 N.list ≡ Kept items)
        × (length N.items + 1048576 ≡ length items + add) }
    requires does { Does seat.old.me.0 N.entry N.list N.items × (length N.items ≤ 16383) }
    ensures same { IsSame seat.old seat.new }
    ensures entered { (others : List EntryMark)
        × (seat.new.me ≡ (changed seat.old.me.0 others N.entry N.list N.items, seat.old.me.1))
        × Enters T.priority_of seat.old.me.0 others N.entry result }
{
    // for the proof: its clauses name the list and the item
    let _ = list;
    let _ = said;
    board.fetch_add::<Change<T, N>>(seat, EVENTS, add)
}

/// Makes an entry that changes no list. Returns the event word that it found.
pub(crate) fn event_quiet<T: Item, N: Naming, S>(
    board: &Board<T>,
    seat: &mut Seat<T>,
    said: &S,
) -> u64
    requires table { IsFor board.now.table_id seat.old }
    requires may { MayEnter seat.old.me.0 }
    requires entry { (N.entry.caller ≡ seat.old.me.0.caller) × Leaves seat.old.me.0 N.entry }
    ensures same { IsSame seat.old seat.new }
    ensures entered { (others : List EntryMark)
        × (seat.new.me ≡ (entered seat.old.me.0 others N.entry, seat.old.me.1))
        × Enters T.priority_of seat.old.me.0 others N.entry result }
{
    // for the proof: its clauses name what the entry shows
    let _ = said;
    board.fetch_add::<Quiet<T, N>>(seat, EVENTS, EVENT)
}

/// Makes the entry of a count, which shows the items that the event word shows.
pub(crate) fn event_count<T: Item>(board: &Board<T>, seat: &mut Seat<T>) -> u64
    requires table { IsFor board.now.table_id seat.old }
    requires may { MayEnter seat.old.me.0 }
    ensures same { IsSame seat.old seat.new }
    ensures entered { CountsItems T.priority_of seat.old.me.0 seat.old.me.1 result seat.new.me }
{
    board.fetch_add::<Count<T>>(seat, EVENTS, EVENT)
}

/// Tries the entry of a take that finds no item, from the event word that was read last.
pub(crate) fn empty_exchange<T: Item>(board: &Board<T>, seat: &mut Seat<T>, word: u64) -> u64
    requires table { IsFor board.now.table_id seat.old }
    requires may { MayEnter seat.old.me.0 }
    requires word { (word ≡ 1048576 * seat.old.me.0.events + seat.old.me.0.items)
        × (seat.old.me.0.items ≡ 0) × (seat.old.me.0.events ≤ 2 ^ 43) }
    ensures same { IsSame seat.old seat.new }
    ensures won { result ≡ word → (others : List EntryMark)
        × (seat.new.me ≡ (entered seat.old.me.0 others (empty_entry seat.old.me.0), seat.old.me.1))
        × Enters T.priority_of seat.old.me.0 others (empty_entry seat.old.me.0) result }
    ensures lost { result ≢ word →
        LostEvent seat.old.me.0 seat.old.me.1 result seat.new.me }
{
    board.compare_exchange::<FindEmpty<T>>(seat, EVENTS, word, word + EVENT)
}

/// Gives one number away, to a new seat.
pub(crate) fn give<T: Item, N: Numbered>(
    board: &Board<T>,
    seat: &mut Seat<T>,
    number: usize,
) -> Seat<T>
    requires table { IsFor board.now.table_id seat.old }
    requires number { N.number ≡ number }
    requires idle { (seat.old.me.0.joint ≡ None) × (seat.old.me.0.keeps ≡ none_kept) }
    requires spare { IsSpare seat.old.me.0.held seat.old.me.0.caller number }
    ensures left { IsSame seat.old seat.new
        × (seat.new.me ≡ (without seat.old.me.0 number, seat.old.me.1)) }
    ensures right { (result.table_id ≡ seat.old.table_id)
        × (result.me ≡ (alone seat.old.me.0 number, [])) }
{
    // for the proof: its clauses name the number
    let _ = number;
    board.split_seat::<Give<N>>(seat)
}

/// Takes in another seat.
pub(crate) fn take_in<T: Item, L: Leaving>(board: &Board<T>, seat: &mut Seat<T>, other: Seat<T>)
    requires table { IsFor board.now.table_id seat.old × IsFor board.now.table_id other }
    requires last { L.last ≡ other.me.0 }
    requires idle { (seat.old.me.0.keeps ≡ none_kept) × (other.me.0.joint ≡ None)
        × (other.me.0.keeps ≡ none_kept) × (other.me.1 ≡ []) }
    ensures same { IsSame seat.old seat.new
        × (seat.new.me ≡ (told (joined seat.old.me.0 other.me.0), seat.old.me.1)) }
    ensures told { Meet seat.old.me.0.held other.me.0.held seat.old.me.0.seen other.me.0.seen
        (joined seat.old.me.0 other.me.0).seen
        × SeesLaw T.priority_of (joined seat.old.me.0 other.me.0) }
{
    board.join_seat::<TakeIn<L>>(seat, other);
    tell(board, seat);
}

/// A load by which the seat is told that what it has seen is legal, and what a join left.
pub(crate) fn tell<T: Item>(board: &Board<T>, seat: &mut Seat<T>)
    requires table { IsFor board.now.table_id seat.old }
    ensures same { IsSame seat.old seat.new }
    ensures idle { seat.new.me ≡ (told seat.old.me.0, seat.old.me.1) }
    ensures joined { (j : Joint) → seat.old.me.0.joint ≡ Some j →
        Meet j.first_held j.second_held j.first j.second seat.old.me.0.seen }
    ensures lawful { SeesLaw T.priority_of seat.old.me.0 }
{
    board.load::<Tell<T>>(seat, EVENTS);
}

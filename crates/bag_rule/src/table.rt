// The table of a bag.
ghost use Rattle.std.specs.Prelude.{◌≡◌, ◌≢◌, ℕ, ◌+◌, ◌*◌, ◌%◌, ◌<◌, ◌≤◌, ◌^◌, ◌++◌, List, [], ◌∷◌, length, replicate, None, Some, IsTrue, IfOk, IfSome, IfNone};
ghost use Rattle.atomic_table.specs.Table.{rest};
ghost use Rattle.ho_model.specs.declared.marks.EntryMark.{EntryMark};
ghost use Rattle.passes.specs.Numbers.{HasNumber, IsSpare};
ghost use Rattle.passes.specs.Holders.{Meet};
ghost use Rattle.bag_rule.specs.declared.view.Hand.TheVariants.{Away};
ghost use Rattle.bag_rule.specs.Views.{first_view, hand_at, none_kept, left_list, entered, empty_entry, without, alone, joined, told};
ghost use Rattle.bag_rule.specs.Plays.{SeesLaw, Makes, GotList, MissedList, Begins, LooksAgain, LostEvent};
ghost use Rattle.bag_rule.specs.Seats.{HasWords, IsFor, IsSame, MayEnter, InHand};

use crate::layout::{EVENT, LINE};
use crate::plays::BagRule;
use crate::steps;
use crate::steps::Seat;
use crate::view::View;
use atomic_table::Table;
use ho_base::{Item, NoMemory};
use item_lists::ItemList;
use std::alloc::{AllocError, Global};
use std::marker::{Brand, Model};

/// The table of a bag: the words and the lists that its callers share. To a contract it is its
/// identity.
#[derive(Drop)]
pub struct BagTable<T: Item> {
    pub(crate) table: Table<ItemList<T>, View, u64, BagRule<T>, Global>,
    callers: u32,
}

impl<T: Item> Model for BagTable<T> {
    ghost use Rattle.std.specs.Prelude.{◌≡◌};
    ghost use Rattle.atomic_table.specs.Seated.{TableId, table_id_coded};

    ghost Value = { TableId };

    ghost coded = { table_id_coded };

    ghost view = { λ b. b.table.shared.table_id };

    ghost invariant = { λ b. b.callers ≡ b.table.shared.table_id.slots };
}

/// So many lists without items.
fn bare_lists<T: Item>(alloc: Global, count: usize) -> Result<Vec<ItemList<T>, Global>, AllocError>
    requires { count ≤ 64 }
    ensures { IfOk result (λ lists. lists.items ≡ replicate count []) }
{
    let mut lists = Vec::with_capacity(alloc, count)?;
    for _ in 0..count {
        lists.push(ItemList::new(alloc))?;
    }
    Ok(lists)
}

impl<T: Item> BagTable<T> {
    /// The table of an empty bag for 1 to 64 callers, and the seat of its first pass.
    pub fn new(alloc: Global, callers: u32) -> Result<(BagTable<T>, Seat<T>), NoMemory>
        requires { callers ≤ 64 }
        ensures { IfOk result (λ made. IsFor made.0 made.1 × (made.1.me ≡ (first_view callers, []))) }
    {
        let count = LINE * callers as usize + LINE;
        let words = Vec::from_elem(alloc, 0u64, count)?;
        let lists = bare_lists(alloc, callers as usize)?;
        match Table::new(alloc, words.as_slice(), lists, &(callers as u64)) {
            Ok((table, seat)) => Ok((BagTable { table, callers }, seat)),
            Err(_) => Err(NoMemory),
        }
    }

    /// How many callers the bag has, each with a list.
    pub fn callers(&self) -> u32
        ensures { result ≡ self.now.slots }
    {
        self.callers
    }

    /// Takes a list, if nobody holds it. Answers whether it did.
    pub fn take_list(&self, seat: &mut Seat<T>, list: usize, caller: u32) -> bool
        requires table { IsFor self.now seat.old }
        requires list { (list < seat.old.me.0.callers) × (hand_at seat.old.me.0 list ≡ Away) }
        requires caller { (seat.old.me.0.caller ≡ caller)
            × HasNumber seat.old.me.0.held seat.old.me.0.caller × (caller < 64) }
        ensures same { IsSame seat.old seat.new }
        ensures got { IsTrue result →
            GotList T.priority_of seat.old.me.0 seat.old.me.1 list seat.new.me }
        ensures held { ¬ IsTrue result → (word : ℕ)
            × MissedList T.priority_of seat.old.me.0 seat.old.me.1 list word seat.new.me }
    {
        steps::list_take::<T, Brand>(&self.table.shared, seat, list, caller) == 0
    }

    /// Gives back the list that was taken last.
    pub fn leave_list(&self, seat: &mut Seat<T>, list: usize)
        requires table { IsFor self.now seat.old }
        requires list { list < seat.old.me.0.callers }
        requires hand { InHand seat.old.me list }
        ensures same { IsSame seat.old seat.new }
        ensures left { seat.new.me ≡ (left_list seat.old.me.0 list, rest seat.old.me.1) }
    {
        steps::list_leave::<T, Brand>(&self.table.shared, seat, list)
    }

    /// The load of the event word with which a take begins to look round.
    pub fn begin(&self, seat: &mut Seat<T>) -> u64
        requires table { IsFor self.now seat.old }
        ensures same { IsSame seat.old seat.new }
        ensures read { Begins seat.old.me.0 seat.old.me.1 result seat.new.me }
    {
        steps::begin(&self.table.shared, seat)
    }

    /// A later load of the event word.
    pub fn look_again(&self, seat: &mut Seat<T>) -> u64
        requires table { IsFor self.now seat.old }
        ensures same { IsSame seat.old seat.new }
        ensures read { LooksAgain seat.old.me.0 seat.old.me.1 result seat.new.me }
    {
        steps::look_again(&self.table.shared, seat)
    }

    /// Tries the entry of a take that finds no item, from the event word that was read last. The place
    /// of the entry, or nothing where there were more events.
    pub fn empty_exchange(&self, seat: &mut Seat<T>, word: u64) -> Option<u64>
        requires table { IsFor self.now seat.old }
        requires may { MayEnter seat.old.me.0 }
        requires word { (word ≡ 1048576 * seat.old.me.0.events + seat.old.me.0.items)
            × (seat.old.me.0.items ≡ 0) × (seat.old.me.0.events ≤ 2 ^ 43) }
        ensures same { IsSame seat.old seat.new }
        ensures won { IfSome result (λ place. (others : List EntryMark)
            × (seat.new.me ≡ (entered seat.old.me.0 others (empty_entry seat.old.me.0), seat.old.me.1))
            × Makes T.priority_of seat.old.me.0 others (empty_entry seat.old.me.0) place) }
        ensures lost { IfNone result ((word : ℕ)
            × LostEvent seat.old.me.0 seat.old.me.1 word seat.new.me) }
    {
        let found = steps::empty_exchange(&self.table.shared, seat, word);
        if found == word {
            Some(found / EVENT)
        } else {
            None
        }
    }

    /// Gives one number away, to a new seat.
    pub fn give(&self, seat: &mut Seat<T>, number: usize) -> Seat<T>
        requires table { IsFor self.now seat.old }
        requires idle { (seat.old.me.0.joint ≡ None) × (seat.old.me.0.keeps ≡ none_kept) }
        requires spare { IsSpare seat.old.me.0.held seat.old.me.0.caller number }
        ensures left { IsSame seat.old seat.new
            × (seat.new.me ≡ (without seat.old.me.0 number, seat.old.me.1)) }
        ensures right { (result.table_id ≡ seat.old.table_id)
            × (result.me ≡ (alone seat.old.me.0 number, [])) }
    {
        steps::give::<T, Brand>(&self.table.shared, seat, number)
    }

    /// Takes in another seat, and is told what that left.
    pub fn take_in(&self, seat: &mut Seat<T>, other: Seat<T>)
        requires table { IsFor self.now seat.old × IsFor self.now other }
        requires idle { (seat.old.me.0.keeps ≡ none_kept) × (other.me.0.joint ≡ None)
            × (other.me.0.keeps ≡ none_kept) × (other.me.1 ≡ []) }
        ensures same { IsSame seat.old seat.new
            × (seat.new.me ≡ (told (joined seat.old.me.0 other.me.0), seat.old.me.1)) }
        ensures told { Meet seat.old.me.0.held other.me.0.held seat.old.me.0.seen other.me.0.seen
            (joined seat.old.me.0 other.me.0).seen
            × SeesLaw T.priority_of (joined seat.old.me.0 other.me.0) }
    {
        steps::take_in::<T, Brand>(&self.table.shared, seat, other)
    }

    /// A load by which the seat is told that what it has seen is legal.
    pub fn tell(&self, seat: &mut Seat<T>)
        requires table { IsFor self.now seat.old }
        ensures same { IsSame seat.old seat.new }
        ensures idle { seat.new.me ≡ (told seat.old.me.0, seat.old.me.1) }
        ensures lawful { SeesLaw T.priority_of seat.old.me.0 }
    {
        steps::tell(&self.table.shared, seat)
    }
}

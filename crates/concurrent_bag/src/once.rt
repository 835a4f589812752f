// One try of each call, on the fields of a pass.
ghost use Rattle.std.specs.Prelude.{◌≡◌, ◌<◌, ◌≤◌, ◌^◌, ◌↔◌, [], ◌∷◌, IsTrue, slice_index};
ghost use Rattle.passes.specs.Numbers.{held_count};
ghost use Rattle.passes.specs.Calls.{Splits, Joins};
ghost use Rattle.bag_rule.specs.declared.view.View.{View};
ghost use Rattle.concurrent_bag.specs.Seats.{view_of, IsPass};
ghost use Rattle.concurrent_bag.specs.Tries.{AddsOnce, TakesOnce};

use crate::answers::{BagAdd, BagAddOnce, BagAgain, BagTake, BagTakeOnce};
use atomic_table::Badge;
use bag_rule::{BagTable, MOST_CALLS, Seat, View};
use bag_tries::{AddTry, TakeTry, try_add, try_take};
use ho_base::{Item, Receipt};
use passes::Numbers;
use std::mem;

/// The seat of a badge, for a call.
pub(crate) fn seat_of<T: Item>(badge: &mut Badge<View>) -> Seat<T>
    requires { (v : View) × (badge.old.views ≡ v ∷ []) }
    ensures table { result.table_id ≡ badge.old.table_id }
    ensures view { badge.old.views ≡ result.me.0 ∷ [] }
    ensures none { result.me.1 ≡ [] }
{
    mem::replace(badge, Badge::blank()).into_seat()
}

/// Whether the caller has made as many calls as it may.
pub(crate) fn is_spent(numbers: &Numbers) -> bool
    ensures { IsTrue result ↔ (2 ^ 37 ≤ slice_index numbers.now.made numbers.now.caller) }
{
    numbers.is_spent(MOST_CALLS)
}

/// Tries an add once.
pub(crate) fn add<T: Item>(
    table: &BagTable<T>,
    badge: &mut Badge<View>,
    numbers: &mut Numbers,
    item: T,
) -> BagAddOnce<T>
    requires pass { IsPass badge.old numbers.old }
    requires table { badge.old.table_id ≡ table.now }
    ensures pass { IsPass badge.new numbers.new }
    ensures told { AddsOnce T.priority_of T.mark (view_of badge.old) (view_of badge.new) item result }
{
    let caller = numbers.caller();
    let is_spent = is_spent(numbers);
    let mut seat = seat_of(badge);
    if is_spent {
        // for the proof: a load tells that what the pass has seen is legal
        table.tell(&mut seat);
        *badge = seat.into_badge();
        return BagAddOnce::Spent(item);
    }
    let tried = try_add(table, &mut seat, caller, item);
    *badge = seat.into_badge();
    match tried {
        AddTry::Done(number) => {
            numbers.count_call();
            BagAddOnce::Answer(BagAdd::Done, Receipt::Place { number })
        }
        AddTry::Full(number, back) => {
            numbers.count_call();
            BagAddOnce::Answer(BagAdd::Full(back), Receipt::Place { number })
        }
        AddTry::Held(back) => BagAddOnce::Again(BagAgain::Held, back),
        AddTry::NoMemory(back) => BagAddOnce::NoMemory(back),
    }
}

/// Tries a take once.
pub(crate) fn take<T: Item>(
    table: &BagTable<T>,
    badge: &mut Badge<View>,
    numbers: &mut Numbers,
) -> BagTakeOnce<T>
    requires pass { IsPass badge.old numbers.old }
    requires table { badge.old.table_id ≡ table.now }
    ensures pass { IsPass badge.new numbers.new }
    ensures told { TakesOnce T.priority_of T.mark (view_of badge.old) (view_of badge.new) result }
{
    let caller = numbers.caller();
    let is_spent = is_spent(numbers);
    let mut seat = seat_of(badge);
    if is_spent {
        // for the proof: a load tells that what the pass has seen is legal
        table.tell(&mut seat);
        *badge = seat.into_badge();
        return BagTakeOnce::Spent;
    }
    let tried = try_take(table, &mut seat, caller);
    *badge = seat.into_badge();
    match tried {
        TakeTry::Item { from, item, place } => {
            numbers.count_call();
            BagTakeOnce::Answer(
                BagTake::Item { from, item },
                Receipt::Place { number: place },
            )
        }
        TakeTry::Empty(number) => {
            numbers.count_call();
            BagTakeOnce::Answer(BagTake::Empty, Receipt::Place { number })
        }
        TakeTry::Held => BagTakeOnce::Again(BagAgain::Held),
        TakeTry::Lost => BagTakeOnce::Again(BagAgain::Lost),
    }
}

/// Splits off a pass with the least number that can be given away.
pub(crate) fn split<T: Item>(
    table: &BagTable<T>,
    badge: &mut Badge<View>,
    numbers: &mut Numbers,
) -> (Badge<View>, Numbers)
    requires pass { IsPass badge.old numbers.old }
    requires table { badge.old.table_id ≡ table.now }
    requires spare { 1 < held_count numbers.old.held }
    ensures pass { IsPass badge.new numbers.new × IsPass result.0 result.1 }
    ensures split { Splits (view_of badge.old) (view_of badge.new) (view_of result.0) }
{
    let other_numbers = numbers.split_off();
    let number = other_numbers.caller() as usize;
    let mut seat = seat_of(badge);
    let other = table.give(&mut seat, number);
    *badge = seat.into_badge();
    (other.into_badge(), other_numbers)
}

/// Takes in another pass.
pub(crate) fn join<T: Item>(
    table: &BagTable<T>,
    badge: &mut Badge<View>,
    numbers: &mut Numbers,
    other: Badge<View>,
    other_numbers: Numbers,
)
    requires pass { IsPass badge.old numbers.old × IsPass other other_numbers }
    requires table { (badge.old.table_id ≡ table.now) × (other.table_id ≡ table.now) }
    ensures pass { IsPass badge.new numbers.new }
    ensures joined { Joins T.priority_of (view_of badge.old) (view_of other) (view_of badge.new) }
{
    let mut seat = seat_of(badge);
    table.take_in(&mut seat, other.into_seat());
    *badge = seat.into_badge();
    numbers.take_in(other_numbers);
}

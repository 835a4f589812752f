// The calls that go on until they have an answer, on the fields of a pass.
ghost use Rattle.std.specs.Prelude.{◌≡◌, ◌≤◌, ◌^◌, slice_index, OnErr};
ghost use Rattle.ho_model.specs.Entries.{entry};
ghost use Rattle.ho_model.specs.declared.marks.CallMark.TheVariants as callmark;
ghost use Rattle.ho_model.specs.declared.marks.ReplyMark.TheVariants.{Counted};
ghost use Rattle.concurrent_bag.specs.Passes.{Answers};
ghost use Rattle.concurrent_bag.specs.Answers.{Adds, Snaps, take_mark};
ghost use Rattle.concurrent_bag.specs.Seats.{view_of, IsPass};
ghost use Rattle.concurrent_bag.specs.Tries.{HasNoCallLeft};

use crate::answers::{BagAdd, BagTake};
use crate::once::{is_spent, seat_of};
use atomic_table::Badge;
use bag_rule::{BagTable, Seat, View};
use bag_tries::{AddTry, TakeTry};
use ho_base::{Item, NoMemory, Receipt, Unpaid};
use ho_model::Items;
use passes::Numbers;
use pauses::Pause;
use std::alloc::Global;
use std::sync::Wait;

/// Waits for good, if the caller has made as many calls as it may.
fn await_a_call<R: Wait>(rt: &R, numbers: &Numbers)
    ensures { ¬ (2 ^ 37 ≤ slice_index numbers.now.made numbers.now.caller) }
{
    if is_spent(numbers) {
        let mut pause = Pause::new();
        for _ in rt.forever() {
            pause.take(rt);
        }
        unreachable!()
    }
}

/// Adds an item, once the own list is free.
pub(crate) fn add<T: Item, R: Wait>(
    rt: &R,
    table: &BagTable<T>,
    badge: &mut Badge<View>,
    numbers: &mut Numbers,
    item: T,
) -> Result<(BagAdd<T>, Receipt), Unpaid<T>>
    requires pass { IsPass badge.old numbers.old }
    requires table { badge.old.table_id ≡ table.now }
    ensures pass { IsPass badge.new numbers.new }
    ensures left { ¬ HasNoCallLeft (view_of badge.old) }
    ensures told { Adds T.priority_of T.mark (view_of badge.old) (view_of badge.new) item result }
    ensures uncounted { OnErr result ((view_of badge.new).made ≡ (view_of badge.old).made) }
{
    await_a_call(rt, numbers);
    let caller = numbers.caller();
    let mut seat = seat_of(badge);
    let added = bag_tries::add(rt, table, &mut seat, caller, item);
    *badge = seat.into_badge();
    match added {
        AddTry::Done(number) => {
            numbers.count_call();
            Ok((BagAdd::Done, Receipt::Place { number }))
        }
        AddTry::Full(number, back) => {
            numbers.count_call();
            Ok((BagAdd::Full(back), Receipt::Place { number }))
        }
        AddTry::NoMemory(back) => Err(Unpaid { back }),
        AddTry::Held(_) => unreachable!(),
    }
}

/// Takes an item, once it finds one or the bag empty.
pub(crate) fn take<T: Item, R: Wait>(
    rt: &R,
    table: &BagTable<T>,
    badge: &mut Badge<View>,
    numbers: &mut Numbers,
) -> (BagTake<T>, Receipt)
    requires pass { IsPass badge.old numbers.old }
    requires table { badge.old.table_id ≡ table.now }
    ensures pass { IsPass badge.new numbers.new }
    ensures left { ¬ HasNoCallLeft (view_of badge.old) }
    ensures told { let p = view_of badge.old in Answers T.priority_of p
        (entry p.caller callmark.Take (take_mark T.mark result.0)) result.1 (view_of badge.new) }
{
    await_a_call(rt, numbers);
    let caller = numbers.caller();
    let mut seat = seat_of(badge);
    let taken = bag_tries::take(rt, table, &mut seat, caller);
    *badge = seat.into_badge();
    numbers.count_call();
    match taken {
        TakeTry::Item { from, item, place } => {
            (
                BagTake::Item { from, item },
                Receipt::Place { number: place },
            )
        }
        TakeTry::Empty(number) => (BagTake::Empty, Receipt::Place { number }),
        TakeTry::Held => unreachable!(),
        TakeTry::Lost => unreachable!(),
    }
}

/// Counts the items.
pub(crate) fn count<T: Item, R: Wait>(
    rt: &R,
    table: &BagTable<T>,
    badge: &mut Badge<View>,
    numbers: &mut Numbers,
) -> (u64, Receipt)
    requires pass { IsPass badge.old numbers.old }
    requires table { badge.old.table_id ≡ table.now }
    ensures pass { IsPass badge.new numbers.new }
    ensures left { ¬ HasNoCallLeft (view_of badge.old) }
    ensures told { let p = view_of badge.old in Answers T.priority_of p
        (entry p.caller callmark.Count (Counted result.0)) result.1 (view_of badge.new) }
{
    await_a_call(rt, numbers);
    let caller = numbers.caller();
    let mut seat: Seat<T> = seat_of(badge);
    let (count, number) = bag_tries::count(table, &mut seat, caller);
    *badge = seat.into_badge();
    numbers.count_call();
    (count, Receipt::Place { number })
}

/// The numbers of all items, once it has all lists.
pub(crate) fn snapshot<T: Item, R: Wait>(
    rt: &R,
    alloc: Global,
    table: &BagTable<T>,
    badge: &mut Badge<View>,
    numbers: &mut Numbers,
) -> Result<(Items, Receipt), NoMemory>
    requires pass { IsPass badge.old numbers.old }
    requires table { badge.old.table_id ≡ table.now }
    ensures pass { IsPass badge.new numbers.new }
    ensures left { ¬ HasNoCallLeft (view_of badge.old) }
    ensures told { Snaps T.priority_of (view_of badge.old) (view_of badge.new) result }
    ensures uncounted { OnErr result ((view_of badge.new).made ≡ (view_of badge.old).made) }
{
    await_a_call(rt, numbers);
    let caller = numbers.caller();
    let mut seat = seat_of(badge);
    let snapped = bag_tries::snap(rt, alloc, table, &mut seat, caller);
    *badge = seat.into_badge();
    match snapped {
        Ok((items, number)) => {
            numbers.count_call();
            Ok((items, Receipt::Place { number }))
        }
        Err(want) => Err(want),
    }
}

// Counts and snapshots.
ghost use Rattle.std.specs.Prelude.{◌≡◌, ◌<◌, ◌≤◌, ◌++◌, ℕ, List, [], OnOk, IfOk, IfErr, OnErr};
ghost use Rattle.passes.specs.Numbers.{HasNumber};
ghost use Rattle.ho_model.specs.Entries.{entry};
ghost use Rattle.ho_model.specs.declared.marks.CallMark.TheVariants.{Count, Snap};
ghost use Rattle.ho_model.specs.declared.marks.ReplyMark.TheVariants.{Counted, Numbers};
ghost use Rattle.bag_rule.specs.declared.view.Obstacle.{Obstacle};
ghost use Rattle.bag_rule.specs.declared.view.Hand.TheVariants.{Away};
ghost use Rattle.bag_rule.specs.Views.{hand_at};
ghost use Rattle.bag_rule.specs.Seats.{IsFor, IsSame, MayEnter};
ghost use Rattle.bag_tries.specs.Seats.{IsIdle, MadeEntry, MadeNone};
ghost use Rattle.bag_tries.specs.Snaps.{KeepsFirst, numbers_of, GotAtLast, Gathers, Released};

use bag_rule::{BagTable, Seat};
use ho_base::{Item, NoMemory};
use ho_model::Items;
use pauses::Pause;
use std::alloc::Global;
use std::sync::Wait;

/// Counts the items: the count, and the place of the entry.
pub fn count<T: Item>(table: &BagTable<T>, seat: &mut Seat<T>, caller: u32) -> (u64, u64)
    requires table { IsFor table.now seat.old }
    requires may { MayEnter seat.old.me.0 }
    requires caller { seat.old.me.0.caller ≡ caller }
    requires idle { IsIdle seat.old.me }
    ensures same { IsSame seat.old seat.new }
    ensures told { MadeEntry T.priority_of seat.old.me.0 (entry caller Count (Counted result.0)) result.1
        seat.new.me }
{
    // for the proof: its clauses name the caller
    let _ = caller;
    table.count_event(seat)
}

/// Takes a list, once it is free.
fn take_at_last<T: Item, R: Wait>(
    rt: &R,
    table: &BagTable<T>,
    seat: &mut Seat<T>,
    list: usize,
    caller: u32,
)
    requires table { IsFor table.now seat.old }
    requires list { (list < seat.old.me.0.callers) × (hand_at seat.old.me.0 list ≡ Away) }
    requires caller { (seat.old.me.0.caller ≡ caller)
        × HasNumber seat.old.me.0.held seat.old.me.0.caller × (caller < 64) }
    ensures same { IsSame seat.old seat.new }
    ensures got { GotAtLast T.priority_of seat.old.me.0 seat.old.me.1 list seat.new.me }
{
    let mut pause = Pause::new();
    for _ in rt.forever() {
        if table.take_list(seat, list, caller) {
            return;
        }
        pause.take(rt);
    }
    unreachable!()
}

/// Takes all lists in order of callers, and copies the numbers of their items. For want of memory it
/// stops, and says how many lists it has then.
fn gather<T: Item, R: Wait>(
    rt: &R,
    table: &BagTable<T>,
    seat: &mut Seat<T>,
    caller: u32,
    numbers: &mut Vec<u64>,
) -> Result<(), u32>
    requires table { IsFor table.now seat.old }
    requires may { MayEnter seat.old.me.0 }
    requires caller { (seat.old.me.0.caller ≡ caller) × (caller < seat.old.me.0.callers) }
    requires idle { IsIdle seat.old.me }
    requires numbers { numbers.old.items ≡ [] }
    ensures same { IsSame seat.old seat.new }
    ensures all { OnOk result (Gathers T.priority_of seat.old.me.0 seat.new.me seat.old.me.0.callers
        × (numbers.new.items ≡ numbers_of seat.new.me.1)) }
    ensures some { IfErr result (λ count. Gathers T.priority_of seat.old.me.0 seat.new.me count
        × (0 < count) × (count ≤ seat.old.me.0.callers)) }
{
    for list in 0..table.callers() {
        take_at_last(rt, table, seat, list as usize, caller);
        if table.add_numbers(seat, list as usize, numbers).is_err() {
            return Err(list + 1);
        }
    }
    Ok(())
}

/// Gives back the lists that it has, the last one first.
fn release<T: Item>(table: &BagTable<T>, seat: &mut Seat<T>, count: u32)
    requires table { IsFor table.now seat.old }
    requires lists { KeepsFirst seat.old.me count × (count ≤ seat.old.me.0.callers) }
    ensures same { IsSame seat.old seat.new }
    ensures released { Released seat.old.me seat.new.me }
{
    for step in 0..count {
        table.leave_list(seat, (count - 1 - step) as usize);
    }
}

/// The numbers of all items, the lists in order of callers, and the place of the entry. It waits until
/// it has all lists.
pub fn snap<T: Item, R: Wait>(
    rt: &R,
    alloc: Global,
    table: &BagTable<T>,
    seat: &mut Seat<T>,
    caller: u32,
) -> Result<(Items, u64), NoMemory>
    requires table { IsFor table.now seat.old }
    requires may { MayEnter seat.old.me.0 }
    requires caller { (seat.old.me.0.caller ≡ caller) × (caller < seat.old.me.0.callers) }
    requires idle { IsIdle seat.old.me }
    ensures same { IsSame seat.old seat.new }
    ensures ok { IfOk result (λ r. MadeEntry T.priority_of seat.old.me.0
        (entry caller Snap (Numbers r.0)) r.1 seat.new.me) }
    ensures err { OnErr result ((read : List Obstacle)
        × MadeNone T.priority_of seat.old.me.0 read seat.new.me) }
{
    let mut numbers = Vec::new(alloc);
    if let Err(count) = gather(rt, table, seat, caller, &mut numbers) {
        release(table, seat, count);
        return Err(NoMemory);
    }
    let items = Items::from_vec(numbers);
    let place = table.snap_event(seat, &items);
    release(table, seat, table.callers());
    Ok((items, place))
}

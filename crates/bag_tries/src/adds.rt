// One try of an add.
ghost use Rattle.std.specs.Prelude.{◌≡◌, ◌<◌, ◌≤◌, [], length};
ghost use Rattle.passes.specs.Numbers.{HasNumber};
ghost use Rattle.bag_rule.specs.Seats.{IsFor, IsSame, MayEnter, InHand, front_of};
ghost use Rattle.bag_tries.specs.Seats.{IsIdle};
ghost use Rattle.bag_tries.specs.Adds.{KeptAdds, TryAdds};

use bag_rule::{BagTable, MOST_ITEMS, Seat};
use ho_base::Item;
use std::snapshot::Snapshot;

/// What one try of an add came to. An entry has its place, and an item that is not kept comes back.
#[derive(Drop)]
pub enum AddTry<T> {
    Done(u64),
    /// The own list has as many items as a list may have.
    Full(u64, T),
    /// Another caller held the own list.
    Held(T),
    NoMemory(T),
}

/// Adds an item to the own list, which is in hand, and gives the list back.
///
/// The item is pushed before the entry is made, so that no memory is wanted after an entry.
fn add_kept<T: Item>(table: &BagTable<T>, seat: &mut Seat<T>, caller: u32, item: T) -> AddTry<T>
    requires table { IsFor table.now seat.old }
    requires may { MayEnter seat.old.me.0 }
    requires caller { (seat.old.me.0.caller ≡ caller) × (caller < seat.old.me.0.callers) }
    requires hand { InHand seat.old.me caller × (length (front_of seat.old.me.1) ≤ 16383) }
    ensures same { IsSame seat.old seat.new }
    ensures told { KeptAdds T.priority_of T.mark caller seat.old.me item seat.new.me result }
{
    let own = caller as usize;
    let said = Snapshot::of(&item);
    if table.len(seat, own) == MOST_ITEMS {
        let place = table.full_event(seat, caller, &said);
        table.leave_list(seat, own);
        return AddTry::Full(place, item);
    }
    match table.push(seat, own, item) {
        Ok(()) => {
            let place = table.add_event(seat, caller, &said);
            table.leave_list(seat, own);
            AddTry::Done(place)
        }
        Err(back) => {
            table.leave_list(seat, own);
            AddTry::NoMemory(back)
        }
    }
}

/// Tries an add once.
pub fn try_add<T: Item>(table: &BagTable<T>, seat: &mut Seat<T>, caller: u32, item: T) -> AddTry<T>
    requires table { IsFor table.now seat.old }
    requires may { MayEnter seat.old.me.0 }
    requires caller { (seat.old.me.0.caller ≡ caller) × (caller < seat.old.me.0.callers) }
    requires idle { IsIdle seat.old.me }
    ensures same { IsSame seat.old seat.new }
    ensures told { TryAdds T.priority_of T.mark caller seat.old.me.0 item seat.new.me result }
{
    if !table.take_list(seat, caller as usize, caller) {
        return AddTry::Held(item);
    }
    add_kept(table, seat, caller, item)
}

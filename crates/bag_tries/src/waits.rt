// Calls that try until they have made their entry.
ghost use Rattle.std.specs.Prelude.{◌≡◌, ◌<◌};
ghost use Rattle.bag_rule.specs.Seats.{IsFor, IsSame, MayEnter};
ghost use Rattle.bag_tries.specs.Seats.{IsIdle};
ghost use Rattle.bag_tries.specs.Adds.{EndsAdds};
ghost use Rattle.bag_tries.specs.Takes.{EndsTakes};

use crate::adds::{AddTry, try_add};
use crate::takes::{TakeTry, try_take};
use bag_rule::{BagTable, Seat};
use ho_base::Item;
use pauses::Pause;
use std::sync::Wait;

/// Adds an item, once the own list is free.
pub fn add<T: Item, R: Wait>(
    rt: &R,
    table: &BagTable<T>,
    seat: &mut Seat<T>,
    caller: u32,
    item: T,
) -> AddTry<T>
    requires table { IsFor table.now seat.old }
    requires may { MayEnter seat.old.me.0 }
    requires caller { (seat.old.me.0.caller ≡ caller) × (caller < seat.old.me.0.callers) }
    requires idle { IsIdle seat.old.me }
    ensures same { IsSame seat.old seat.new }
    ensures told { EndsAdds T.priority_of T.mark caller seat.old.me.0 item seat.new.me result }
{
    let mut given = item;
    let mut pause = Pause::new();
    for _ in rt.forever() {
        match try_add(table, seat, caller, given) {
            AddTry::Done(place) => return AddTry::Done(place),
            AddTry::Full(place, back) => return AddTry::Full(place, back),
            AddTry::NoMemory(back) => return AddTry::NoMemory(back),
            AddTry::Held(back) => given = back,
        }
        pause.take(rt);
    }
    unreachable!()
}

/// Takes an item, once it finds one or the bag empty.
pub fn take<T: Item, R: Wait>(
    rt: &R,
    table: &BagTable<T>,
    seat: &mut Seat<T>,
    caller: u32,
) -> TakeTry<T>
    requires table { IsFor table.now seat.old }
    requires may { MayEnter seat.old.me.0 }
    requires caller { (seat.old.me.0.caller ≡ caller) × (caller < seat.old.me.0.callers) }
    requires idle { IsIdle seat.old.me }
    ensures same { IsSame seat.old seat.new }
    ensures told { EndsTakes T.priority_of T.mark caller seat.old.me.0 seat.new.me result }
{
    let mut pause = Pause::new();
    for _ in rt.forever() {
        match try_take(table, seat, caller) {
            TakeTry::Item { from, item, place } => return TakeTry::Item { from, item, place },
            TakeTry::Empty(place) => return TakeTry::Empty(place),
            TakeTry::Held => {}
            TakeTry::Lost => {}
        }
        pause.take(rt);
    }
    unreachable!()
}

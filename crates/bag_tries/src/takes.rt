// One try of a take.
ghost use Rattle.std.specs.Prelude.{◌≡◌, ◌≢◌, ◌+◌, ◌*◌, ◌<◌, ◌≤◌, ◌^◌, [], false, IfSome, IfNone, length};
ghost use Rattle.passes.specs.Numbers.{HasNumber};
ghost use Rattle.bag_rule.specs.Views.{AreBare};
ghost use Rattle.bag_rule.specs.Plays.{SeesLaw};
ghost use Rattle.bag_rule.specs.Seats.{IsFor, IsSame, MayEnter, InHand, front_of};
ghost use Rattle.bag_tries.specs.Seats.{IsIdle, HasOwnBare};
ghost use Rattle.bag_tries.specs.Takes.{KeptTakes, FindsEmpty, Settles, GoesRound, TryTakes};

use crate::searches::{Round, look_round};
use bag_rule::{BagTable, EVENT, Seat};
use ho_base::Item;
use std::snapshot::Snapshot;

/// What one try of a take came to. An entry has its place.
#[derive(Drop)]
pub enum TakeTry<T> {
    /// An item, and the caller in whose list it was.
    Item { from: u32, item: T, place: u64 },
    /// There is no item.
    Empty(u64),
    /// Another caller held a list.
    Held,
    /// Another caller made an entry meanwhile.
    Lost,
}

/// Takes the last item of the own list, which was taken last, and gives the list back; or leaves it
/// in hand where it has no item.
fn take_kept<T: Item>(table: &BagTable<T>, seat: &mut Seat<T>, caller: u32) -> Option<(T, u64)>
    requires table { IsFor table.now seat.old }
    requires may { MayEnter seat.old.me.0 }
    requires caller { (seat.old.me.0.caller ≡ caller) × (caller < seat.old.me.0.callers) }
    requires hand { InHand seat.old.me caller × (length (front_of seat.old.me.1) ≤ 16383) }
    ensures same { IsSame seat.old seat.new }
    ensures some { IfSome result (λ r. KeptTakes T.priority_of T.mark caller seat.old.me seat.new.me r) }
    ensures none { IfNone result ((front_of seat.old.me.1 ≡ []) × (seat.new.me ≡ seat.old.me)) }
{
    let own = caller as usize;
    let item = table.take_last(seat, own)?;
    let said = Snapshot::of(&item);
    let place = table.take_event(seat, caller, &said);
    table.leave_list(seat, own);
    Some((item, place))
}

/// Answers that there is no item, if there was no event since the event word was read, which showed
/// none.
fn find_empty<T: Item>(
    table: &BagTable<T>,
    seat: &mut Seat<T>,
    caller: u32,
    word: u64,
) -> TakeTry<T>
    requires table { IsFor table.now seat.old }
    requires may { MayEnter seat.old.me.0 × SeesLaw T.priority_of seat.old.me.0 }
    requires caller { (seat.old.me.0.caller ≡ caller) × (caller < seat.old.me.0.callers) }
    requires own { HasOwnBare seat.old.me caller }
    requires word { (word ≡ 1048576 * seat.old.me.0.events + seat.old.me.0.items)
        × (seat.old.me.0.items ≡ 0) × (seat.old.me.0.events ≤ 2 ^ 43) }
    ensures same { IsSame seat.old seat.new }
    ensures told { FindsEmpty T.priority_of T.mark caller seat.old.me.0 seat.new.me result }
{
    match table.empty_exchange(seat, word) {
        Some(place) => {
            table.leave_list(seat, caller as usize);
            TakeTry::Empty(place)
        }
        None => {
            table.leave_list(seat, caller as usize);
            TakeTry::Lost
        }
    }
}

/// Ends a try after a round that gave no item.
fn settle<T: Item>(
    table: &BagTable<T>,
    seat: &mut Seat<T>,
    caller: u32,
    skipped: bool,
) -> TakeTry<T>
    requires table { IsFor table.now seat.old }
    requires may { MayEnter seat.old.me.0 × SeesLaw T.priority_of seat.old.me.0 }
    requires caller { (seat.old.me.0.caller ≡ caller) × (caller < seat.old.me.0.callers) }
    requires own { HasOwnBare seat.old.me caller }
    requires bare { skipped ≡ false → AreBare seat.old.me.0 }
    ensures same { IsSame seat.old seat.new }
    ensures told { Settles T.priority_of T.mark caller seat.old.me.0 skipped seat.new.me result }
{
    let word = table.look_again(seat);
    if word % EVENT == 0 {
        return find_empty(table, seat, caller, word);
    }
    table.leave_list(seat, caller as usize);
    if skipped {
        TakeTry::Held
    } else {
        TakeTry::Lost
    }
}

/// Takes an item from another list, while the own one is kept and has none.
fn take_elsewhere<T: Item>(table: &BagTable<T>, seat: &mut Seat<T>, caller: u32) -> TakeTry<T>
    requires table { IsFor table.now seat.old }
    requires may { MayEnter seat.old.me.0 × SeesLaw T.priority_of seat.old.me.0 }
    requires caller { (seat.old.me.0.caller ≡ caller) × (caller < seat.old.me.0.callers) }
    requires own { HasOwnBare seat.old.me caller }
    ensures same { IsSame seat.old seat.new }
    ensures told { GoesRound T.priority_of T.mark caller seat.old.me.0 seat.new.me result }
{
    let word = table.begin(seat);
    if word % EVENT == 0 {
        return find_empty(table, seat, caller, word);
    }
    match look_round(table, seat, caller) {
        Round::Stolen { from, item, place } => {
            table.leave_list(seat, caller as usize);
            TakeTry::Item { from, item, place }
        }
        Round::Bare => settle(table, seat, caller, false),
        Round::Skipped => settle(table, seat, caller, true),
    }
}

/// Tries a take once.
pub fn try_take<T: Item>(table: &BagTable<T>, seat: &mut Seat<T>, caller: u32) -> TakeTry<T>
    requires table { IsFor table.now seat.old }
    requires may { MayEnter seat.old.me.0 }
    requires caller { (seat.old.me.0.caller ≡ caller) × (caller < seat.old.me.0.callers) }
    requires idle { IsIdle seat.old.me }
    ensures same { IsSame seat.old seat.new }
    ensures told { TryTakes T.priority_of T.mark caller seat.old.me.0 seat.new.me result }
{
    if !table.take_list(seat, caller as usize, caller) {
        return TakeTry::Held;
    }
    match take_kept(table, seat, caller) {
        Some((item, place)) => TakeTry::Item {
            from: caller,
            item,
            place,
        },
        None => take_elsewhere(table, seat, caller),
    }
}

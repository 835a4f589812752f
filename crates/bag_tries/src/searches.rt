// How a take whose own list has no item looks for one in the others.
ghost use Rattle.std.specs.Prelude.{◌≡◌, ◌≢◌, ◌+◌, ◌<◌, ◌≤◌, [], true, IfSome, IfNone, length};
ghost use Rattle.passes.specs.Numbers.{HasNumber};
ghost use Rattle.bag_rule.specs.declared.view.Hand.TheVariants.{Away, Kept};
ghost use Rattle.bag_rule.specs.Views.{hand_at};
ghost use Rattle.bag_rule.specs.Seats.{IsFor, IsSame, MayEnter, InHand, front_of};
ghost use Rattle.bag_tries.specs.Seats.{HasOwnBare};
ghost use Rattle.bag_tries.specs.Takes.{other_list, KeptSteals, Searches, Rounds};

use bag_rule::{BagTable, Seat};
use ho_base::Item;
use std::snapshot::Snapshot;

/// What a look into one other list came to.
#[derive(Drop)]
pub(crate) enum Search<T> {
    /// Its first item, and the place of the entry.
    Stolen(T, u64),
    /// It has no item.
    Bare,
    /// Another caller holds it.
    Held,
}

/// What a look into all other lists came to.
#[derive(Drop)]
pub(crate) enum Round<T> {
    /// The first item of a list, and the place of the entry.
    Stolen { from: u32, item: T, place: u64 },
    /// None had an item.
    Bare,
    /// None that nobody else held had an item, and another caller held at least one.
    Skipped,
}

/// Takes the first item of another list, which was taken last, and gives the list back; or leaves it
/// in hand where it has no item.
fn steal_kept<T: Item>(
    table: &BagTable<T>,
    seat: &mut Seat<T>,
    list: usize,
    caller: u32,
) -> Option<(T, u64)>
    requires table { IsFor table.now seat.old }
    requires may { MayEnter seat.old.me.0 }
    requires own { (seat.old.me.0.caller ≡ caller) × (hand_at seat.old.me.0 caller ≡ Kept []) }
    requires list { (list < seat.old.me.0.callers) × InHand seat.old.me list
        × (length (front_of seat.old.me.1) ≤ 16383) }
    ensures same { IsSame seat.old seat.new }
    ensures some { IfSome result (λ r. KeptSteals T.priority_of T.mark caller seat.old.me list seat.new.me r) }
    ensures none { IfNone result ((front_of seat.old.me.1 ≡ []) × (seat.new.me ≡ seat.old.me)) }
{
    let item = table.take_first(seat, list)?;
    let said = Snapshot::of(&item);
    let place = table.steal_event(seat, list, caller, &said);
    table.leave_list(seat, list);
    Some((item, place))
}

/// Looks into another list.
fn look_into<T: Item>(
    table: &BagTable<T>,
    seat: &mut Seat<T>,
    list: usize,
    caller: u32,
) -> Search<T>
    requires table { IsFor table.now seat.old }
    requires may { MayEnter seat.old.me.0 }
    requires caller { (seat.old.me.0.caller ≡ caller) × (caller < seat.old.me.0.callers) }
    requires list { (list < seat.old.me.0.callers) × (list ≢ caller) }
    requires own { HasOwnBare seat.old.me caller }
    ensures same { IsSame seat.old seat.new }
    ensures told { Searches T.priority_of T.mark caller seat.old.me list seat.new.me result }
{
    if !table.take_list(seat, list, caller) {
        return Search::Held;
    }
    match steal_kept(table, seat, list, caller) {
        Some((item, place)) => Search::Stolen(item, place),
        None => {
            table.leave_list(seat, list);
            Search::Bare
        }
    }
}

/// The list so many steps behind the own one, in a ring.
fn other_list(own: u32, step: u32, callers: u32) -> u32
    requires { (own < callers) × (step < callers) × (callers ≤ 64) }
    ensures is { result ≡ other_list own step callers }
    ensures inside { result < callers }
{
    if own + step < callers {
        own + step
    } else {
        own + step - callers
    }
}

/// Looks into all other lists, from the one behind the own one, until one has an item.
pub(crate) fn look_round<T: Item>(table: &BagTable<T>, seat: &mut Seat<T>, caller: u32) -> Round<T>
    requires table { IsFor table.now seat.old }
    requires may { MayEnter seat.old.me.0 }
    requires caller { (seat.old.me.0.caller ≡ caller) × (caller < seat.old.me.0.callers) }
    requires own { HasOwnBare seat.old.me caller × (length seat.old.me.0.bare ≡ 64) }
    ensures same { IsSame seat.old seat.new }
    ensures told { Rounds T.priority_of T.mark caller seat.old.me seat.old.me.0.callers seat.new.me result }
{
    let callers = table.callers();
    let mut skipped = false;
    for step in 1..callers {
        let from = other_list(caller, step, callers);
        match look_into(table, seat, from as usize, caller) {
            Search::Stolen(item, place) => return Round::Stolen { from, item, place },
            Search::Bare => {}
            Search::Held => skipped = true,
        }
    }
    if skipped { Round::Skipped } else { Round::Bare }
}

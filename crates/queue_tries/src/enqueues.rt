// One try of an enqueue.
ghost use Rattle.std.specs.Prelude.{◌≡◌, ◌+◌, ◌*◌, ◌<◌, ◌≤◌, ◌^◌, ℕ, Some, None, true, IfSome};
ghost use Rattle.seg_layout.specs.Lengths.{IsSegmentLength};
ghost use Rattle.seg_rule.specs.declared.view.Hand.TheVariants.{Nothing, Reserved};
ghost use Rattle.seg_rule.specs.declared.view.Stage.TheVariants.{Away, Plain, Closed};
ghost use Rattle.seg_rule.specs.Steps.{blank, MayCount, MayTurn};
ghost use Rattle.seg_rule.specs.Tells.{place_count};
ghost use Rattle.seg_rule.specs.Passes.{IsOf, MayReserveAt};
ghost use Rattle.queue_tries.specs.Tries.{IsIdle, Enqueues};
ghost use Rattle.queue_tries.specs.Tails.{at_current, at_room, full_tail};
ghost use Rattle.queue_tries.specs.Scans.{HasClosedFull, Searches};
ghost use Rattle.queue_tries.specs.Growth.{ended_tail};
ghost use Rattle.queue_tries.specs.Enqueues.{PutsFree, PutsTurned, EndsFree, EndsTurned, TriesTurn, ClosesTail};

use crate::answers::{EnqueueReply, QueueAgain, QueueOnce};
use crate::firsts::move_first;
use crate::growth::open_place;
use crate::scans::find_place;
use crate::tails::{begin_current, see_current, see_room, see_slot, see_tail};
use ho_base::Receipt;
use seg_rule::{Entering, QueuePass, QueueTable, QueueWord};

/// What an exchange of an open tail came to, without the turn.
pub(crate) enum Put {
    /// The item stands in its slot, in this segment.
    Done(u64),
    /// Another caller's entry has moved the tail.
    Lost,
    /// The tail was closed.
    Closed,
}

/// What the steps without the turn came to.
pub(crate) enum Unturned {
    /// The entry was made.
    Ended(EnqueueReply, Receipt),
    /// Another caller's entry has moved the tail.
    Lost,
    /// The segment is full, or its tail closed, so that the turn is wanted.
    Full,
}

/// Puts the item into the slot that was reserved, and publishes it. The segment that took it, whose word
/// is that of the place as long as the item is not published.
fn fill(table: &QueueTable, pass: &mut QueuePass, place: u32, tail: u64) -> u64
    requires of { IsOf table.now pass.old }
    requires place { place < table.now.form.places }
    requires hand { (slot item : ℕ) × (pass.old.view.hand ≡ Reserved tail place slot item) }
    requires notes { pass.old.view.notes ≡ blank }
    ensures same { pass.new.table ≡ pass.old.table }
    ensures filled { pass.new.view ≡ record pass.old.view { hand = Nothing } }
    ensures segment { result * table.now.form.first_len ≤ tail }
{
    // for the proof: its clauses name the tail
    let _ = tail;
    table.item_store(pass);
    let segment = table.load(pass, QueueWord::Segment(place), Entering::Nothing);
    table.publish(pass);
    segment
}

/// Takes the position of the open tail, and puts the item into its slot.
fn put_free(table: &QueueTable, pass: &mut QueuePass, place: u32, tail: u64, value: u64) -> Put
    requires of { IsOf table.now pass.old }
    requires place { place < table.now.form.places }
    requires away { pass.old.view.stage ≡ Away }
    requires may { MayReserveAt table.now.form.room pass.old.view place tail }
    requires current { pass.old.view.notes.scan.current ≡ Some place }
    ensures same { pass.new.table ≡ pass.old.table }
    ensures told { PutsFree pass.old.view tail value result pass.new.view }
{
    match table.tail_reserve(pass, place, tail, value) {
        Ok(()) => Put::Done(fill(table, pass, place, tail)),
        Err(found) => {
            if found % 2 == 0 {
                Put::Lost
            } else {
                Put::Closed
            }
        }
    }
}

/// The same under the turn, which is given back right after the exchange.
fn put_turned(
    table: &QueueTable,
    pass: &mut QueuePass,
    place: u32,
    tail: u64,
    value: u64,
) -> Option<u64>
    requires of { IsOf table.now pass.old }
    requires place { place < table.now.form.places }
    requires plain { pass.old.view.stage ≡ Plain }
    requires may { MayReserveAt table.now.form.room pass.old.view place tail }
    ensures same { pass.new.table ≡ pass.old.table }
    ensures told { PutsTurned pass.old.view tail value result pass.new.view }
{
    match table.tail_reserve(pass, place, tail, value) {
        Ok(()) => {
            table.turn_leave(pass);
            Some(fill(table, pass, place, tail))
        }
        Err(_) => {
            table.turn_leave(pass);
            None
        }
    }
}

/// Puts the item into the slot of the open tail, if it is free.
fn put_at(
    table: &QueueTable,
    pass: &mut QueuePass,
    place: u32,
    tail: u64,
    head: u64,
    value: u64,
) -> Unturned
    requires of { IsOf table.now pass.old }
    requires place { place < table.now.form.places }
    requires away { pass.old.view.stage ≡ Away }
    requires free { (pass.old.view.hand ≡ Nothing) × (pass.old.view.window ≡ None) }
    requires may { MayCount pass.old.view }
    requires notes { pass.old.view.notes ≡ at_room place tail head }
    requires room { (tail < head + table.now.form.room) × (2 * tail < 2 ^ 60) }
    ensures same { pass.new.table ≡ pass.old.table }
    ensures told { EndsFree pass.old.view value result pass.new.view }
{
    let None = see_slot(table, pass, place, tail, head) else {
        return Unturned::Full;
    };
    match put_free(table, pass, place, tail, value) {
        Put::Done(segment) => {
            let position = tail;
            Unturned::Ended(EnqueueReply::Done, Receipt::Enqueued { position, segment })
        }
        Put::Lost => Unturned::Lost,
        Put::Closed => Unturned::Full,
    }
}

/// The steps without the turn, once the current place was read.
fn enqueue_free(table: &QueueTable, pass: &mut QueuePass, place: u32, value: u64) -> Unturned
    requires of { IsOf table.now pass.old }
    requires place { place < table.now.form.places }
    requires away { pass.old.view.stage ≡ Away }
    requires free { (pass.old.view.hand ≡ Nothing) × (pass.old.view.window ≡ None) }
    requires may { MayCount pass.old.view }
    requires notes { pass.old.view.notes ≡ at_current place }
    ensures same { pass.new.table ≡ pass.old.table }
    ensures told { EndsFree pass.old.view value result pass.new.view }
{
    let Some(tail) = see_tail(table, pass, place) else {
        return Unturned::Full;
    };
    match see_room(table, pass, place, tail, value) {
        Ok(head) => put_at(table, pass, place, tail, head, value),
        Err(head) => Unturned::Ended(EnqueueReply::Full, Receipt::Looked { head, tail }),
    }
}

/// Closes the tail of the full segment, after a look at how many were opened before it. Where another
/// caller's entry has moved the tail the turn is given back.
fn close_tail(
    table: &QueueTable,
    pass: &mut QueuePass,
    place: u32,
    tail: u64,
    length: u32,
) -> Option<u64>
    requires of { IsOf table.now pass.old }
    requires place { place < table.now.form.places }
    requires plain { pass.old.view.stage ≡ Plain }
    requires hand { pass.old.view.hand ≡ Nothing }
    requires notes { pass.old.view.notes.tail ≡ Some (full_tail place tail length) }
    ensures same { pass.new.table ≡ pass.old.table }
    ensures told { ClosesTail pass.old.view place tail length result pass.new.view }
{
    // for the proof: its clauses name the length
    let _ = length;
    let number = table.load(pass, QueueWord::Segment(place), Entering::Nothing);
    match table.tail_close(pass, place, tail) {
        Ok(()) => Some(number),
        Err(_) => {
            table.turn_leave(pass);
            None
        }
    }
}

/// Finds a place that is free, once first was moved past the head.
fn find_next(table: &QueueTable, pass: &mut QueuePass, head: u64) -> Option<u32>
    requires of { IsOf table.now pass.old }
    requires free { (pass.old.view.hand ≡ Nothing) × (pass.old.view.window ≡ None) }
    requires stage { HasClosedFull pass.old.view.stage }
    requires head { pass.old.view.notes.head ≡ Some head }
    ensures same { pass.new.table ≡ pass.old.table }
    ensures inside { IfSome result (λ place. place < table.now.form.places) }
    ensures searched { Searches pass.old.view (place_count pass.old.view) result pass.new.view }
{
    move_first(table, pass, head);
    find_place(table, pass, head)
}

/// Puts the item into the slot of the open tail, which is free, and answers.
fn answer_put(
    table: &QueueTable,
    pass: &mut QueuePass,
    place: u32,
    tail: u64,
    value: u64,
) -> QueueOnce<EnqueueReply>
    requires of { IsOf table.now pass.old }
    requires place { place < table.now.form.places }
    requires plain { pass.old.view.stage ≡ Plain }
    requires may { MayReserveAt table.now.form.room pass.old.view place tail }
    ensures same { pass.new.table ≡ pass.old.table }
    ensures told { EndsTurned pass.old.view value result pass.new.view }
{
    match put_turned(table, pass, place, tail, value) {
        Some(segment) => {
            let receipt = Receipt::Enqueued {
                position: tail,
                segment,
            };
            QueueOnce::Answer(EnqueueReply::Done, receipt)
        }
        None => QueueOnce::Again(QueueAgain::Lost),
    }
}

/// Opens a place behind the full segment, whose tail is closed, and puts the item there.
fn put_next(
    table: &QueueTable,
    pass: &mut QueuePass,
    place: u32,
    tail: u64,
    head: u64,
    length: u32,
    number: u64,
    value: u64,
) -> QueueOnce<EnqueueReply>
    requires of { IsOf table.now pass.old }
    requires place { place < table.now.form.places }
    requires stage { pass.old.view.stage ≡ Closed place tail true }
    requires free { (pass.old.view.hand ≡ Nothing) × (pass.old.view.window ≡ None) }
    requires may { MayCount pass.old.view }
    requires head { pass.old.view.notes.head ≡ Some head }
    requires tail { pass.old.view.notes.tail ≡ Some (ended_tail place tail length number) }
    requires room { (tail < head + table.now.form.room) × (2 * tail < 2 ^ 60) }
    requires length { IsSegmentLength table.now.form.first_len length }
    ensures same { pass.new.table ≡ pass.old.table }
    ensures told { EndsTurned pass.old.view value result pass.new.view }
{
    let Some(next) = find_next(table, pass, head) else {
        table.tail_reopen(pass);
        table.turn_leave(pass);
        return QueueOnce::Again(QueueAgain::NoPlace);
    };
    open_place(table, pass, place, tail, length, number, next);
    answer_put(table, pass, next, tail, value)
}

/// Closes the tail of the full segment, and puts the item into the next one.
fn enqueue_next(
    table: &QueueTable,
    pass: &mut QueuePass,
    place: u32,
    tail: u64,
    head: u64,
    length: u32,
    value: u64,
) -> QueueOnce<EnqueueReply>
    requires of { IsOf table.now pass.old }
    requires place { place < table.now.form.places }
    requires plain { pass.old.view.stage ≡ Plain }
    requires free { (pass.old.view.hand ≡ Nothing) × (pass.old.view.window ≡ None) }
    requires may { MayCount pass.old.view }
    requires head { pass.old.view.notes.head ≡ Some head }
    requires tail { pass.old.view.notes.tail ≡ Some (full_tail place tail length) }
    requires room { (tail < head + table.now.form.room) × (2 * tail < 2 ^ 60) }
    requires length { IsSegmentLength table.now.form.first_len length }
    ensures same { pass.new.table ≡ pass.old.table }
    ensures told { EndsTurned pass.old.view value result pass.new.view }
{
    let Some(number) = close_tail(table, pass, place, tail, length) else {
        return QueueOnce::Again(QueueAgain::Lost);
    };
    put_next(table, pass, place, tail, head, length, number, value)
}

/// Puts the item into the slot of the open tail, if it is free, and else into the next segment.
fn enqueue_at(
    table: &QueueTable,
    pass: &mut QueuePass,
    place: u32,
    tail: u64,
    head: u64,
    value: u64,
) -> QueueOnce<EnqueueReply>
    requires of { IsOf table.now pass.old }
    requires place { place < table.now.form.places }
    requires plain { pass.old.view.stage ≡ Plain }
    requires free { (pass.old.view.hand ≡ Nothing) × (pass.old.view.window ≡ None) }
    requires may { MayCount pass.old.view }
    requires notes { pass.old.view.notes ≡ at_room place tail head }
    requires room { (tail < head + table.now.form.room) × (2 * tail < 2 ^ 60) }
    ensures same { pass.new.table ≡ pass.old.table }
    ensures told { EndsTurned pass.old.view value result pass.new.view }
{
    match see_slot(table, pass, place, tail, head) {
        None => answer_put(table, pass, place, tail, value),
        Some(length) => enqueue_next(table, pass, place, tail, head, length, value),
    }
}

/// The steps under the turn, which was just taken.
fn enqueue_turned(table: &QueueTable, pass: &mut QueuePass, value: u64) -> QueueOnce<EnqueueReply>
    requires of { IsOf table.now pass.old }
    requires plain { pass.old.view.stage ≡ Plain }
    requires free { (pass.old.view.hand ≡ Nothing) × (pass.old.view.window ≡ None) }
    requires may { MayCount pass.old.view }
    requires notes { pass.old.view.notes ≡ blank }
    ensures same { pass.new.table ≡ pass.old.table }
    ensures told { EndsTurned pass.old.view value result pass.new.view }
{
    let place = see_current(table, pass);
    let Some(tail) = see_tail(table, pass, place) else {
        unreachable!()
    };
    match see_room(table, pass, place, tail, value) {
        Ok(head) => enqueue_at(table, pass, place, tail, head, value),
        Err(head) => {
            table.turn_leave(pass);
            QueueOnce::Answer(EnqueueReply::Full, Receipt::Looked { head, tail })
        }
    }
}

/// Tries the turn, and goes on under it.
fn enqueue_with_turn(
    table: &QueueTable,
    pass: &mut QueuePass,
    value: u64,
) -> QueueOnce<EnqueueReply>
    requires of { IsOf table.now pass.old }
    requires may { MayTurn pass.old.view }
    requires free { (pass.old.view.hand ≡ Nothing) × (pass.old.view.window ≡ None) }
    ensures same { pass.new.table ≡ pass.old.table }
    ensures told { TriesTurn pass.old.view value result pass.new.view }
{
    let Ok(()) = table.turn_take(pass) else {
        return QueueOnce::Again(QueueAgain::Turn);
    };
    enqueue_turned(table, pass, value)
}

/// Tries once to put an item last, as `ConcurrentQueue<T>.Enqueue` does until it gets through.
///
/// The answer is `Full` where there are as many items as there is room for, and else `Done`; the receipt
/// of `Done` is the position of the item and its segment, that of `Full` the head and the tail. It is
/// tried again after `Lost` (another entry moved the tail), `Turn` (the segment is full, and another caller
/// had the turn) and `NoPlace` (each place is in use); nothing was put then. The turn is given back in
/// any case. Constant time, but where the segment is full: then it looks into all places for a free one,
/// and writes its slots.
pub fn enqueue_once(table: &QueueTable, pass: &mut QueuePass, value: u64) -> QueueOnce<EnqueueReply>
    requires { IsIdle table.now pass.old }
    ensures idle { IsIdle table.now pass.new }
    ensures told { Enqueues pass.old pass.new value result }
{
    if pass.is_spent() {
        return QueueOnce::Spent;
    }
    let _caller = pass.caller();
    let place = begin_current(table, pass);
    match enqueue_free(table, pass, place, value) {
        Unturned::Ended(reply, receipt) => QueueOnce::Answer(reply, receipt),
        Unturned::Lost => QueueOnce::Again(QueueAgain::Lost),
        Unturned::Full => enqueue_with_turn(table, pass, value),
    }
}

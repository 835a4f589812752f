// How a dequeue and a peek look for the first item.
ghost use Rattle.std.specs.Prelude.{◌≡◌, ◌<◌, ◌^◌, None, Some, IfSome};
ghost use Rattle.ho_base.specs.Marks.{number_priority};
ghost use Rattle.passes.specs.Seen.{IsLawful};
ghost use Rattle.passes.specs.Numbers.{HasNumber};
ghost use Rattle.seg_rule.specs.declared.view.Hand.TheVariants.{Nothing};
ghost use Rattle.seg_rule.specs.declared.view.Stage.TheVariants.{Away, Plain};
ghost use Rattle.seg_rule.specs.Steps.{blank, MayCount};
ghost use Rattle.seg_rule.specs.Passes.{IsOf};
ghost use Rattle.seg_rule.specs.Loads.{item_note};
ghost use Rattle.queue_tries.specs.Tries.{IsIdle, HasNoCallLeft};
ghost use Rattle.queue_tries.specs.Fronts.{begun_first, headed, shown, Measures, SeesFirst, SeesInside, SeesTail, LooksFreely, LooksInside, FindsInside, FindsFront, IsReady, HasGone, IsLost, IsSlot, IsFreePlace, IsTurnedSlot, IsPlace};
ghost use Rattle.ho_base.specs.declared.receipts.Receipt.TheVariants.{Looked};
ghost use Rattle.queue_tries.specs.declared.answers.DequeueReply.TheVariants.{Empty};
ghost use Rattle.queue_tries.specs.declared.answers.QueueOnce.TheVariants.{Answer};

use crate::answers::{DequeueReply, QueueAgain, QueueOnce};
use crate::firsts::{move_first, place_of};
use crate::loads::load;
use ho_base::Receipt;
use seg_layout::{free_number, published_number, slot_of};
use seg_rule::{Entering, QueuePass, QueueTable, QueueWord};

/// What the slot of the head holds, in the place in which the position lies.
#[derive(Clone, Copy)]
enum Inside {
    /// The item of the position, in this slot.
    Published(u32),
    /// The slot is free for the position, which another caller has enqueued.
    InFlight,
    /// Another position is served: this one was taken.
    Gone,
}

/// What a look without the turn came to.
#[derive(Clone, Copy)]
enum Freely {
    /// The first item.
    Found { place: u32, head: u64, item: u64 },
    /// There is none, at this head. The call has made its entry.
    Empty(u64),
    /// The slot of the head is not published in the place read as first.
    Bare,
}

/// What a look under the turn came to.
#[derive(Clone, Copy)]
enum Turned {
    /// The first item stands in this slot.
    Published { place: u32, head: u64, slot: u32 },
    /// There is none, at this head. The call has made its entry.
    Empty(u64),
    /// The position of the head is in flight.
    InFlight,
    /// The head has moved on.
    Gone,
}

/// What the search of the first item came to.
#[derive(Clone, Copy)]
pub(crate) enum Search {
    /// The first item, with the place in which it lies and its position.
    Found { place: u32, head: u64, item: u64 },
    /// The call ends so.
    Ended(QueueOnce<DequeueReply>),
}

/// Begins a call by a load of the first place.
fn begin_first(table: &QueueTable, pass: &mut QueuePass) -> u32
    requires idle { IsIdle table.now pass.old }
    ensures same { pass.new.table ≡ pass.old.table }
    ensures inside { result < table.now.form.places }
    ensures lawful { IsLawful number_priority pass.old.view.object pass.old.view.callers pass.old.view.seen }
    ensures begun { pass.new.view ≡ begun_first pass.old.view result }
{
    let word = table.load(pass, QueueWord::First, Entering::Nothing);
    place_of(table, word)
}

/// Reads the head, which was not read before.
fn see_head(table: &QueueTable, pass: &mut QueuePass) -> u64
    requires of { IsOf table.now pass.old }
    requires none { pass.old.view.notes.head ≡ None }
    ensures same { pass.new.table ≡ pass.old.table }
    ensures small { result < 2 ^ 60 }
    ensures read { pass.new.view ≡ headed pass.old.view result }
{
    table.load(pass, QueueWord::Head, Entering::Nothing)
}

/// The slot of a position by the length of a place.
fn measure(table: &QueueTable, pass: &mut QueuePass, place: u32, position: u64) -> u32
    requires of { IsOf table.now pass.old }
    requires place { place < table.now.form.places }
    requires free { (pass.old.view.hand ≡ Nothing) × (pass.old.view.window ≡ None) }
    ensures same { pass.new.table ≡ pass.old.table }
    ensures inside { result < table.now.form.slots }
    ensures measured { Measures pass.old.view place position result pass.new.view }
{
    let _form = table.form();
    let length = load(table, pass, QueueWord::Length(place));
    slot_of(position, length as u32)
}

/// Looks without the turn at the slot of the head in the place read as first. The slot, if it is
/// published.
fn see_first(table: &QueueTable, pass: &mut QueuePass, place: u32, head: u64) -> Option<u32>
    requires of { IsOf table.now pass.old }
    requires place { place < table.now.form.places }
    requires ready { IsReady pass.old.view }
    requires away { pass.old.view.stage ≡ Away }
    requires head { (pass.old.view.notes.head ≡ Some head) × (head < 2 ^ 60) }
    requires first { pass.old.view.notes.scan.first ≡ Some place }
    ensures same { pass.new.table ≡ pass.old.table }
    ensures inside { IfSome result (λ slot. slot < table.now.form.slots) }
    ensures stage { pass.new.view.stage ≡ pass.old.view.stage }
    ensures seen { SeesFirst pass.old.view place head result pass.new.view }
{
    let slot = measure(table, pass, place, head);
    let word = QueueWord::Number(place, slot);
    if table.load(pass, word, Entering::Nothing) == published_number(head) {
        Some(slot)
    } else {
        None
    }
}

/// Looks under the turn at the slot of the head in the place in which it lies.
fn see_inside(table: &QueueTable, pass: &mut QueuePass, place: u32, head: u64) -> Inside
    requires of { IsOf table.now pass.old }
    requires place { place < table.now.form.places }
    requires ready { IsReady pass.old.view }
    requires plain { pass.old.view.stage ≡ Plain }
    requires head { (pass.old.view.notes.head ≡ Some head) × (head < 2 ^ 60) }
    requires first { pass.old.view.notes.scan.first ≡ Some place }
    requires inside { pass.old.view.notes.scan.inside ≡ Some head }
    ensures same { pass.new.table ≡ pass.old.table }
    ensures slot { IsSlot table.now.form.slots result }
    ensures stage { pass.new.view.stage ≡ pass.old.view.stage }
    ensures seen { SeesInside pass.old.view place head result pass.new.view }
{
    let slot = measure(table, pass, place, head);
    let word = QueueWord::Number(place, slot);
    let number = table.load(pass, word, Entering::Nothing);
    if number == published_number(head) {
        Inside::Published(slot)
    } else if number == free_number(head) {
        Inside::InFlight
    } else {
        Inside::Gone
    }
}

/// Whether the tail of the first place is open at the head: then the call has made its entry.
fn see_tail(table: &QueueTable, pass: &mut QueuePass, place: u32, head: u64, peek: bool) -> bool
    requires of { IsOf table.now pass.old }
    requires place { place < table.now.form.places }
    requires ready { IsReady pass.old.view }
    requires head { (pass.old.view.notes.head ≡ Some head) × (head < 2 ^ 60) }
    ensures same { pass.new.table ≡ pass.old.table }
    ensures stage { pass.new.view.stage ≡ pass.old.view.stage }
    ensures seen { SeesTail pass.old.view place head peek result pass.new.view }
{
    let entering = Entering::Empty { head, peek };
    table.load(pass, QueueWord::Tail(place), entering) == 2 * head
}

/// Reads the item of a slot.
fn see_item(table: &QueueTable, pass: &mut QueuePass, place: u32, slot: u32) -> u64
    requires of { IsOf table.now pass.old }
    requires place { (place < table.now.form.places) × (slot < table.now.form.slots) }
    ensures same { pass.new.table ≡ pass.old.table }
    ensures read { pass.new.view ≡ shown pass.old.view place slot result }
{
    table.load(pass, QueueWord::Item(place, slot), Entering::Nothing)
}

/// Reads the head once more, which stands above the one noted by now.
fn see_moved(table: &QueueTable, pass: &mut QueuePass)
    requires of { IsOf table.now pass.old }
    requires ready { IsReady pass.old.view }
    requires gone { HasGone pass.old.view }
    ensures same { pass.new.table ≡ pass.old.table }
    ensures stage { pass.new.view.stage ≡ pass.old.view.stage }
    ensures moved { IsLost pass.old.view pass.new.view }
{
    table.load(pass, QueueWord::Head, Entering::Nothing);
}

/// Looks for the first item without the turn, as a call begins.
fn look_freely(table: &QueueTable, pass: &mut QueuePass, peek: bool) -> Freely
    requires idle { IsIdle table.now pass.old }
    requires own { HasNumber pass.old.view.held pass.old.view.caller }
    requires below { ¬ HasNoCallLeft pass.old }
    ensures same { pass.new.table ≡ pass.old.table }
    ensures idle { IsIdle table.now pass.new }
    ensures inside { IsFreePlace table.now.form.places result }
    ensures looked { LooksFreely pass.old.view peek result pass.new.view }
{
    let place = begin_first(table, pass);
    let head = see_head(table, pass);
    if let Some(slot) = see_first(table, pass, place, head) {
        let item = see_item(table, pass, place, slot);
        return Freely::Found { place, head, item };
    }
    if see_tail(table, pass, place, head, peek) {
        return Freely::Empty(head);
    }
    Freely::Bare
}

/// Looks for the first item under the turn, and gives the turn back.
fn look_inside(table: &QueueTable, pass: &mut QueuePass, peek: bool) -> Turned
    requires of { IsOf table.now pass.old }
    requires ready { IsReady pass.old.view }
    requires plain { pass.old.view.stage ≡ Plain }
    requires notes { pass.old.view.notes ≡ blank }
    ensures same { pass.new.table ≡ pass.old.table }
    ensures idle { IsIdle table.now pass.new }
    ensures inside { IsTurnedSlot table.now.form result }
    ensures looked { LooksInside pass.old.view peek result pass.new.view }
{
    let head = see_head(table, pass);
    let place = move_first(table, pass, head);
    if see_tail(table, pass, place, head, peek) {
        table.turn_leave(pass);
        return Turned::Empty(head);
    }
    let inside = see_inside(table, pass, place, head);
    table.turn_leave(pass);
    match inside {
        Inside::Published(slot) => Turned::Published { place, head, slot },
        Inside::InFlight => Turned::InFlight,
        Inside::Gone => Turned::Gone,
    }
}

/// The answer that there is no item, with as many taken as enqueued.
fn no_item(head: u64) -> QueueOnce<DequeueReply>
    ensures { result ≡ Answer Empty (Looked head head) }
{
    QueueOnce::Answer(DequeueReply::Empty, Receipt::Looked { head, tail: head })
}

/// Searches the first item under the turn.
fn find_inside(table: &QueueTable, pass: &mut QueuePass, peek: bool) -> Search
    requires of { IsOf table.now pass.old }
    requires ready { IsReady pass.old.view }
    requires plain { pass.old.view.stage ≡ Plain }
    requires notes { pass.old.view.notes ≡ blank }
    ensures same { pass.new.table ≡ pass.old.table }
    ensures idle { IsIdle table.now pass.new }
    ensures inside { IsPlace table.now.form.places result }
    ensures found { FindsInside pass.old.view peek result pass.new.view }
{
    match look_inside(table, pass, peek) {
        Turned::Published { place, head, slot } => {
            let item = see_item(table, pass, place, slot);
            Search::Found { place, head, item }
        }
        Turned::Empty(head) => Search::Ended(no_item(head)),
        Turned::InFlight => Search::Ended(QueueOnce::Again(QueueAgain::InFlight)),
        Turned::Gone => {
            see_moved(table, pass);
            Search::Ended(QueueOnce::Again(QueueAgain::Lost))
        }
    }
}

/// Searches the first item for a dequeue or a peek: without the turn, and under it where the slot of the
/// head is not published in the place read as first.
pub(crate) fn find_front(table: &QueueTable, pass: &mut QueuePass, peek: bool) -> Search
    requires idle { IsIdle table.now pass.old }
    requires own { HasNumber pass.old.view.held pass.old.view.caller }
    requires below { ¬ HasNoCallLeft pass.old }
    ensures same { pass.new.table ≡ pass.old.table }
    ensures idle { IsIdle table.now pass.new }
    ensures inside { IsPlace table.now.form.places result }
    ensures found { FindsFront pass.old pass.new peek result }
{
    match look_freely(table, pass, peek) {
        Freely::Found { place, head, item } => Search::Found { place, head, item },
        Freely::Empty(head) => Search::Ended(no_item(head)),
        Freely::Bare => match table.turn_take(pass) {
            Ok(()) => find_inside(table, pass, peek),
            Err(_) => Search::Ended(QueueOnce::Again(QueueAgain::Turn)),
        },
    }
}

// One try of a dequeue.
ghost use Rattle.std.specs.Prelude.{◌≡◌, ◌<◌, ◌^◌, ℕ, None};
ghost use Rattle.ho_model.specs.declared.marks.CallMark.TheVariants.{Deq};
ghost use Rattle.seg_rule.specs.declared.view.Hand.TheVariants.{Taking};
ghost use Rattle.seg_rule.specs.declared.view.Leave.TheVariants.{Unread};
ghost use Rattle.seg_rule.specs.declared.view.Stage.TheVariants.{Away};
ghost use Rattle.seg_rule.specs.Steps.{blank, MayCount};
ghost use Rattle.seg_rule.specs.Passes.{IsOf};
ghost use Rattle.queue_tries.specs.Tries.{IsIdle, Dequeues};
ghost use Rattle.queue_tries.specs.Fronts.{HasFront, EndsAs};
ghost use Rattle.queue_tries.specs.Dequeues.{LeavesSlot, GivesBack};

use crate::answers::{DequeueReply, QueueAgain, QueueOnce};
use crate::fronts::{Search, find_front};
use ho_base::Receipt;
use seg_rule::{Entering, QueuePass, QueueTable, QueueWord};

/// Releases the slot of the item that was taken, unless a snapshot observes its place. The length is
/// that after the take, since the place may have been used again before it.
fn leave_slot(table: &QueueTable, pass: &mut QueuePass, place: u32)
    requires of { IsOf table.now pass.old }
    requires place { place < table.now.form.places }
    requires hand { (position slot : ℕ) × (pass.old.view.hand ≡ Taking position place slot Unread) }
    requires away { pass.old.view.stage ≡ Away }
    requires window { pass.old.view.window ≡ None }
    ensures same { pass.new.table ≡ pass.old.table }
    ensures left { LeavesSlot pass.old.view place pass.new.view }
{
    if table.load(pass, QueueWord::Observers(place), Entering::Nothing) == 0 {
        table.load(pass, QueueWord::Length(place), Entering::Nothing);
        table.release(pass);
    }
}

/// Ends the take of an item of a place.
fn give_back(table: &QueueTable, pass: &mut QueuePass, place: u32)
    requires of { IsOf table.now pass.old }
    requires place { place < table.now.form.places }
    requires hand { (position slot : ℕ) × (pass.old.view.hand ≡ Taking position place slot Unread) }
    requires away { pass.old.view.stage ≡ Away }
    requires window { pass.old.view.window ≡ None }
    ensures same { pass.new.table ≡ pass.old.table }
    ensures back { GivesBack pass.old.view pass.new.view }
{
    leave_slot(table, pass, place);
    table.done_add(pass);
}

/// Takes the first item, which was read, if the head is still the same.
fn take_front(
    table: &QueueTable,
    pass: &mut QueuePass,
    place: u32,
    head: u64,
    item: u64,
) -> QueueOnce<DequeueReply>
    requires idle { IsIdle table.now pass.old }
    requires place { place < table.now.form.places }
    requires may { MayCount pass.old.view }
    requires front { HasFront pass.old.view place head item }
    ensures same { pass.new.table ≡ pass.old.table }
    ensures idle { IsIdle table.now pass.new }
    ensures told { EndsAs Deq pass.old.view pass.new.view result }
{
    match table.head_take(pass, head, item) {
        Ok(()) => {
            give_back(table, pass, place);
            let receipt = Receipt::Dequeued { position: head };
            QueueOnce::Answer(DequeueReply::Item(item), receipt)
        }
        Err(_) => QueueOnce::Again(QueueAgain::Lost),
    }
}

/// Takes the first item, or answers that there is none.
///
/// The receipt of an item is `Dequeued` with its position, and of none `Looked`, with as many taken as
/// enqueued. Takes no memory, and constant time but for the segments that first is moved past. It gave
/// no answer where another caller moved the head meanwhile, where one has the turn while the first item is
/// not published in the place that was read as first, or where one is still enqueuing that item.
///
/// .NET's `TryDequeue`, whose slow path spins until such an item is in its slot.
pub fn dequeue_once(table: &QueueTable, pass: &mut QueuePass) -> QueueOnce<DequeueReply>
    requires idle { IsIdle table.now pass.old }
    ensures idle { IsIdle table.now pass.new }
    ensures told { Dequeues pass.old pass.new result }
{
    if pass.is_spent() {
        return QueueOnce::Spent;
    }
    let _caller = pass.caller();
    match find_front(table, pass, false) {
        Search::Found { place, head, item } => take_front(table, pass, place, head, item),
        Search::Ended(once) => once,
    }
}

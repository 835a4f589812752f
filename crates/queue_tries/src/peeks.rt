// One try of a peek.
ghost use Rattle.std.specs.Prelude.{◌≡◌, ℕ};
ghost use Rattle.ho_model.specs.declared.marks.CallMark.TheVariants.{Peek};
ghost use Rattle.seg_rule.specs.Steps.{MayCount};
ghost use Rattle.queue_tries.specs.Tries.{IsIdle, Peeks};
ghost use Rattle.queue_tries.specs.Fronts.{HasFront, EndsAs};

use crate::answers::{DequeueReply, QueueAgain, QueueOnce};
use crate::fronts::{Search, find_front};
use ho_base::Receipt;
use seg_rule::{Entering, QueuePass, QueueTable, QueueWord};

/// Shows the first item, which was read, if the head is still the same.
fn show_front(
    table: &QueueTable,
    pass: &mut QueuePass,
    head: u64,
    item: u64,
) -> QueueOnce<DequeueReply>
    requires idle { IsIdle table.now pass.old }
    requires may { MayCount pass.old.view }
    requires front { (place : ℕ) × HasFront pass.old.view place head item }
    ensures same { pass.new.table ≡ pass.old.table }
    ensures idle { IsIdle table.now pass.new }
    ensures told { EndsAs Peek pass.old.view pass.new.view result }
{
    let entering = Entering::Peek { head, item };
    if table.load(pass, QueueWord::Head, entering) != head {
        return QueueOnce::Again(QueueAgain::Lost);
    }
    let receipt = Receipt::Peeked { position: head };
    QueueOnce::Answer(DequeueReply::Item(item), receipt)
}

/// Shows the first item without taking it, or answers that there is none.
///
/// The receipt of an item is `Peeked` with its position, and of none `Looked`, with as many taken as
/// enqueued. Cost, and causes where it gave no answer, are those of
/// [`dequeue_once`](crate::dequeue_once).
///
/// .NET's `TryPeek`.
pub fn peek_once(table: &QueueTable, pass: &mut QueuePass) -> QueueOnce<DequeueReply>
    requires idle { IsIdle table.now pass.old }
    ensures idle { IsIdle table.now pass.new }
    ensures told { Peeks pass.old pass.new result }
{
    if pass.is_spent() {
        return QueueOnce::Spent;
    }
    let _caller = pass.caller();
    match find_front(table, pass, true) {
        Search::Found { head, item, .. } => show_front(table, pass, head, item),
        Search::Ended(once) => once,
    }
}

// The calls, on the pass of the segments' table.
ghost use Rattle.std.specs.Prelude.{◌≡◌, ◌<◌, ◌≤◌, [], ◌∷◌, None, IfOk};
ghost use Rattle.ho_model.specs.Entries.{entry};
ghost use Rattle.ho_model.specs.declared.marks.CallMark.TheVariants as callmark;
ghost use Rattle.ho_model.specs.declared.marks.ReplyMark.TheVariants.{Counted};
ghost use Rattle.passes.specs.Numbers.{held_count};
ghost use Rattle.queue_tries.specs.Tries.{IsIdle, enqueue_mark, dequeue_mark};
ghost use Rattle.concurrent_queue.specs.Passes.{Answers, SplitsQueue, JoinsQueue};
ghost use Rattle.concurrent_queue.specs.Queues.{IsFirstLength, IsTooLarge, first_of};
ghost use Rattle.concurrent_queue.specs.Segments.{queue_view, id_of, IsBetween, IsReady, IsReadyInside};
ghost use Rattle.concurrent_queue.specs.Windows.{HasOpened, WindowsOnce, Gives};
ghost use Rattle.seg_rule.specs.Passes as segments;
ghost use Rattle.concurrent_queue.specs.Tries.{EnqueuesOnce, DequeuesOnce, PeeksOnce, CountsOnce};

use ho_base::{NoMemory, Receipt};
use queue_tries::{DequeueReply, EnqueueReply, Next, QueueOnce, Window};
use seg_rule::{QueuePass, QueueTable};
use std::alloc::Global;
use std::sync::Wait;

/// For the proof: the words of the table tell that it is for as many callers as the pass says.
fn recall(table: &QueueTable, pass: &QueuePass)
    requires { IsReady table.now pass.now }
    ensures { IsIdle table.now pass.now }
{
    let _form = table.form();
}

/// For the proof: and the other way round.
fn settle(table: &QueueTable, pass: &QueuePass)
    requires { IsIdle table.now pass.now }
    ensures { IsBetween pass.now }
{
    let _form = table.form();
}

/// The table of a queue without items, and its first pass.
pub(crate) fn new(
    alloc: Global,
    room: u32,
    first_len: u32,
    callers: u32,
) -> Result<(QueueTable, QueuePass), NoMemory>
    requires room { (0 < room) × (room ≤ 65536) }
    requires first_len { IsFirstLength first_len }
    requires callers { (0 < callers) × (callers ≤ 64) }
    requires small { ¬ IsTooLarge room first_len callers }
    ensures pass { IfOk result (λ made. IsBetween made.1) }
    ensures made { IfOk result (λ made. (made.0.form.room ≡ room) × (made.0.form.first_len ≡ first_len)
        × (queue_view made.1 ≡ first_of (id_of made.0) callers)) }
{
    let (table, pass) = QueueTable::new(alloc, room, first_len, callers)?;
    settle(&table, &pass);
    Ok((table, pass))
}

/// Puts an item last, if there is room.
pub(crate) fn enqueue<R: Wait>(
    rt: &R,
    table: &QueueTable,
    pass: &mut QueuePass,
    value: u64,
) -> (EnqueueReply, Receipt)
    requires { IsReady table.now pass.old }
    ensures pass { IsBetween pass.new }
    ensures told { Answers table.now.form.first_len (queue_view pass.old)
        (entry pass.old.view.caller (callmark.Enq (value ∷ [])) (enqueue_mark result.0)) result.1 (queue_view pass.new) }
{
    recall(table, pass);
    let answer = queue_tries::enqueue(rt, table, pass, value);
    settle(table, pass);
    answer
}

/// One try of that.
pub(crate) fn enqueue_once(
    table: &QueueTable,
    pass: &mut QueuePass,
    value: u64,
) -> QueueOnce<EnqueueReply>
    requires { IsReady table.now pass.old }
    ensures pass { IsBetween pass.new }
    ensures told { EnqueuesOnce (queue_view pass.old) (queue_view pass.new) table.now.form.first_len value result }
{
    recall(table, pass);
    let tried = queue_tries::enqueue_once(table, pass, value);
    settle(table, pass);
    tried
}

/// Takes the first item, if there is one.
pub(crate) fn dequeue<R: Wait>(
    rt: &R,
    table: &QueueTable,
    pass: &mut QueuePass,
) -> (DequeueReply, Receipt)
    requires { IsReady table.now pass.old }
    ensures pass { IsBetween pass.new }
    ensures told { Answers table.now.form.first_len (queue_view pass.old)
        (entry pass.old.view.caller callmark.Deq (dequeue_mark result.0)) result.1 (queue_view pass.new) }
{
    recall(table, pass);
    let answer = queue_tries::dequeue(rt, table, pass);
    settle(table, pass);
    answer
}

/// One try of that.
pub(crate) fn dequeue_once(table: &QueueTable, pass: &mut QueuePass) -> QueueOnce<DequeueReply>
    requires { IsReady table.now pass.old }
    ensures pass { IsBetween pass.new }
    ensures told { DequeuesOnce (queue_view pass.old) (queue_view pass.new) table.now.form.first_len result }
{
    recall(table, pass);
    let tried = queue_tries::dequeue_once(table, pass);
    settle(table, pass);
    tried
}

/// Shows the first item, if there is one.
pub(crate) fn peek<R: Wait>(
    rt: &R,
    table: &QueueTable,
    pass: &mut QueuePass,
) -> (DequeueReply, Receipt)
    requires { IsReady table.now pass.old }
    ensures pass { IsBetween pass.new }
    ensures told { Answers table.now.form.first_len (queue_view pass.old)
        (entry pass.old.view.caller callmark.Peek (dequeue_mark result.0)) result.1 (queue_view pass.new) }
{
    recall(table, pass);
    let answer = queue_tries::peek(rt, table, pass);
    settle(table, pass);
    answer
}

/// One try of that.
pub(crate) fn peek_once(table: &QueueTable, pass: &mut QueuePass) -> QueueOnce<DequeueReply>
    requires { IsReady table.now pass.old }
    ensures pass { IsBetween pass.new }
    ensures told { PeeksOnce (queue_view pass.old) (queue_view pass.new) table.now.form.first_len result }
{
    recall(table, pass);
    let tried = queue_tries::peek_once(table, pass);
    settle(table, pass);
    tried
}

/// Counts the items.
pub(crate) fn count<R: Wait>(rt: &R, table: &QueueTable, pass: &mut QueuePass) -> (u64, Receipt)
    requires { IsReady table.now pass.old }
    ensures pass { IsBetween pass.new }
    ensures told { Answers table.now.form.first_len (queue_view pass.old)
        (entry pass.old.view.caller callmark.Count (Counted result.0)) result.1 (queue_view pass.new) }
{
    recall(table, pass);
    let answer = queue_tries::count(rt, table, pass);
    settle(table, pass);
    answer
}

/// One try of that.
pub(crate) fn count_once(table: &QueueTable, pass: &mut QueuePass) -> QueueOnce<u64>
    requires { IsReady table.now pass.old }
    ensures pass { IsBetween pass.new }
    ensures told { CountsOnce (queue_view pass.old) (queue_view pass.new) table.now.form.first_len result }
{
    recall(table, pass);
    let tried = queue_tries::count_once(table, pass);
    settle(table, pass);
    tried
}

/// Splits off a pass with the least number that can be given away.
pub(crate) fn split(table: &QueueTable, pass: &mut QueuePass) -> QueuePass
    requires of { IsReady table.now pass.old }
    requires spare { 1 < held_count pass.old.view.held }
    ensures pass { IsBetween pass.new × IsBetween result }
    ensures split { SplitsQueue (queue_view pass.old) (queue_view pass.new) (queue_view result) }
{
    recall(table, pass);
    table.split(pass)
}

/// Takes in another pass.
pub(crate) fn join(table: &QueueTable, pass: &mut QueuePass, other: QueuePass)
    requires of { IsReady table.now pass.old × IsReady table.now other }
    ensures pass { IsBetween pass.new }
    ensures joined { JoinsQueue (queue_view pass.old) (queue_view other) (queue_view pass.new) }
{
    recall(table, pass);
    recall(table, &other);
    table.join(pass, other)
}

/// For the proof: the same of a pass that may have a window open.
fn recall_inside(table: &QueueTable, pass: &QueuePass)
    requires { IsReadyInside table.now pass.now }
    ensures { segments.IsOf table.now pass.now }
{
    let _form = table.form();
}

/// Takes a snapshot, and opens a window on it.
pub(crate) fn window_once(table: &QueueTable, pass: &mut QueuePass) -> QueueOnce<Window>
    requires { IsReady table.now pass.old }
    ensures pass { IsBetween pass.new }
    ensures told { WindowsOnce (queue_view pass.old) (queue_view pass.new) table.now.form.first_len result }
{
    let _form = table.form();
    recall(table, pass);
    queue_tries::window_once(table, pass)
}

/// The next item of a window.
pub(crate) fn window_next(table: &QueueTable, pass: &mut QueuePass, window: &mut Window) -> Next
    requires of { IsReadyInside table.now pass.old }
    requires opened { HasOpened (queue_view pass.old) window.old }
    ensures pass { IsBetween pass.new }
    ensures opened { HasOpened (queue_view pass.new) window.new }
    ensures gives { Gives (queue_view pass.old) window.old (queue_view pass.new) window.new result }
{
    let _form = table.form();
    recall_inside(table, pass);
    queue_tries::window_next(table, pass, window)
}

/// Ends a window.
pub(crate) fn window_end(table: &QueueTable, pass: &mut QueuePass, window: Window)
    requires of { IsReadyInside table.now pass.old }
    requires opened { HasOpened (queue_view pass.old) window }
    ensures pass { IsBetween pass.new }
    ensures ended { queue_view pass.new ≡ record (queue_view pass.old) { window = None } }
{
    recall_inside(table, pass);
    queue_tries::window_end(table, pass, window);
    settle(table, pass);
}

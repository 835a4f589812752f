// A try of a count.
ghost use Rattle.std.specs.Prelude.{◌≡◌, ◌<◌, [], Some};
ghost use Rattle.seg_rule.specs.declared.view.Stage.TheVariants.{Plain, Closed};
ghost use Rattle.seg_rule.specs.Steps.{MayClose};
ghost use Rattle.seg_rule.specs.Entering.{MayEnterCount};
ghost use Rattle.seg_rule.specs.Passes.{IsOf};
ghost use Rattle.queue_tries.specs.Tries.{IsIdle, CountsOnce};
ghost use Rattle.queue_tries.specs.Walks.{WalksFree};
ghost use Rattle.queue_tries.specs.Counts.{IsPaid, ReadsCurrent, ReadsOpen, Closes, Looks, CountsPaid};

use crate::answers::{QueueAgain, QueueOnce};
use ho_base::Receipt;
use seg_rule::{Entering, QueuePass, QueueTable, QueueWord};

/// Begins a call by a load of the current place.
pub(crate) fn begin(table: &QueueTable, pass: &mut QueuePass)
    requires idle { IsIdle table.now pass.old }
    ensures same { pass.new.table ≡ pass.old.table }
    ensures walks { WalksFree pass.old.view pass.new.view [] }
{
    table.load(pass, QueueWord::Current, Entering::Nothing);
}

/// Reads the current place under the turn.
pub(crate) fn current_place(table: &QueueTable, pass: &mut QueuePass) -> u32
    requires of { IsOf table.now pass.old }
    requires paid { IsPaid pass.old.view }
    requires plain { pass.old.view.stage ≡ Plain }
    ensures same { pass.new.table ≡ pass.old.table }
    ensures inside { result < table.now.form.places }
    ensures read { ReadsCurrent pass.old.view result pass.new.view }
{
    let _form = table.form();
    table.load(pass, QueueWord::Current, Entering::Nothing) as u32
}

/// Reads the tail of the current place under the turn, which is open.
pub(crate) fn current_tail(table: &QueueTable, pass: &mut QueuePass, place: u32) -> u64
    requires of { IsOf table.now pass.old }
    requires paid { IsPaid pass.old.view }
    requires plain { pass.old.view.stage ≡ Plain }
    requires inside { place < table.now.form.places }
    requires current { pass.old.view.notes.scan.current ≡ Some place }
    ensures same { pass.new.table ≡ pass.old.table }
    ensures read { ReadsOpen pass.old.view place result pass.new.view }
{
    table.load(pass, QueueWord::Tail(place), Entering::Nothing) / 2
}

/// Closes the tail that was read, unless it has moved on.
pub(crate) fn close(table: &QueueTable, pass: &mut QueuePass, place: u32, at: u64) -> bool
    requires of { IsOf table.now pass.old }
    requires inside { place < table.now.form.places }
    requires may { MayClose pass.old.view place at }
    ensures same { pass.new.table ≡ pass.old.table }
    ensures told { Closes pass.old.view place at pass.new.view result }
{
    match table.tail_close(pass, place, at) {
        Ok(()) => true,
        Err(_) => false,
    }
}

/// Reads the head while the tail is closed, which makes the entry, and opens the tail again.
fn look(table: &QueueTable, pass: &mut QueuePass, at: u64) -> u64
    requires of { IsOf table.now pass.old }
    requires paid { IsPaid pass.old.view }
    requires may { MayEnterCount pass.old.view at }
    ensures same { pass.new.table ≡ pass.old.table }
    ensures idle { IsIdle table.now pass.new }
    ensures looks { Looks pass.old.view at result pass.new.view }
{
    let head = table.load(pass, QueueWord::Head, Entering::Count { tail: at });
    table.tail_reopen(pass);
    table.turn_leave(pass);
    head
}

/// Counts under the turn, and gives it back.
fn count_paid(table: &QueueTable, pass: &mut QueuePass) -> QueueOnce<u64>
    requires of { IsOf table.now pass.old }
    requires paid { IsPaid pass.old.view }
    requires plain { pass.old.view.stage ≡ Plain }
    ensures same { pass.new.table ≡ pass.old.table }
    ensures idle { IsIdle table.now pass.new }
    ensures told { CountsPaid pass.old.view pass.new.view result }
{
    let place = current_place(table, pass);
    let tail = current_tail(table, pass, place);
    if !close(table, pass, place, tail) {
        table.turn_leave(pass);
        return QueueOnce::Again(QueueAgain::Lost);
    }
    let head = look(table, pass, tail);
    QueueOnce::Answer(tail - head, Receipt::Looked { head, tail })
}

/// Counts the items, with the tail closed for that moment, so that the count is that of an instant.
///
/// The receipt is `Looked`: the items taken so far, and those enqueued. Takes no memory and constant time.
/// It gave no answer where another caller has the turn, or enqueued between the two looks at the tail.
pub fn count_once(table: &QueueTable, pass: &mut QueuePass) -> QueueOnce<u64>
    requires idle { IsIdle table.now pass.old }
    ensures idle { IsIdle table.now pass.new }
    ensures told { CountsOnce pass.old pass.new result }
{
    if pass.is_spent() {
        return QueueOnce::Spent;
    }
    let _caller = pass.caller();
    begin(table, pass);
    match table.turn_take(pass) {
        Ok(()) => count_paid(table, pass),
        Err(_) => QueueOnce::Again(QueueAgain::Turn),
    }
}

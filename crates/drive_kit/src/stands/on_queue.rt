// The calls of a script on a queue behind a turn.
ghost use Rattle.std.specs.Prelude.{◌≡◌, ◌<◌, IfOk, OnErr};
ghost use Rattle.ho_base.specs.Marks.{number_priority};
ghost use Rattle.passes.specs.Numbers.{held_count};
ghost use Rattle.passes.specs.Calls.{AddsNoEntry, IsSamePass, Joins, Splits};
ghost use Rattle.ho_model.specs.Written.{call_of, giving};
ghost use Rattle.concurrent_queue.specs.Calls.{call_mark, reply_mark};
ghost use Rattle.drive_kit.specs.Calls.{IsCallOf, kind_of};
ghost use Rattle.drive_kit.specs.Parts.{IsPlaceOf};
ghost use Rattle.drive_kit.specs.Playing.{Adds, IsOf, pass_of};
ghost use Rattle.drive_kit.specs.declared.calls.Kind.TheVariants as kind;
ghost use Rattle.drive_kit.specs.declared.stands.Stand.TheVariants as stand;

use crate::stands::DrivenPass;
use concurrent_queue::{QueueCall, QueueMachine, QueueReply};
use ho_base::{NoMemory, Receipt};
use ho_model::{Call, Reply};
use std::sync::Wait;
use turn_lock::{Pass, Shared};

// The queue's own call.
fn own_call(call: Call) -> QueueCall
    requires { IsCallOf kind.Queue call }
    ensures { call_mark result ≡ call_of call }
{
    match call {
        Call::Enq(item) => QueueCall::Enqueue(item),
        Call::Deq => QueueCall::Dequeue,
        Call::Peek => QueueCall::Peek,
        Call::Count => QueueCall::Count,
        Call::Snap => QueueCall::Snap,
        _ => unreachable!(),
    }
}

// The reply as histories write it.
fn written(said: QueueReply) -> Reply
    ensures { giving result ≡ reply_mark said }
{
    match said {
        QueueReply::Done => Reply::Done,
        QueueReply::Full => Reply::Full,
        QueueReply::Item(item) => Reply::Item(item),
        QueueReply::Empty => Reply::Empty,
        QueueReply::Count(count) => Reply::Count(count),
        QueueReply::Numbers(numbers) => Reply::Numbers(numbers),
    }
}

// Makes a call of a script on a queue.
pub(super) fn play<R: Wait>(
    rt: &R,
    queue: &Shared<QueueMachine>,
    pass: &mut Pass,
    call: Call,
) -> Result<(Reply, Receipt), NoMemory>
    requires table { pass.old.table ≡ queue.now }
    requires kind { kind_of pass.old.object ≡ kind.Queue }
    requires call { IsCallOf kind.Queue call }
    ensures same { IsSamePass pass.old pass.new }
    ensures adds { IfOk result (λ said. Adds IsPlaceOf pass.old call said.0 said.1 pass.new) }
    ensures adds_none { OnErr result (AddsNoEntry number_priority pass.old pass.new) }
{
    match queue.call(rt, pass, own_call(call)) {
        Ok((said, receipt)) => Ok((written(said), receipt)),
        Err(_) => Err(NoMemory),
    }
}

// Splits off a pass with the least number that can be given away. Takes no memory.
pub(super) fn split(queue: &Shared<QueueMachine>, pass: &mut Pass) -> Pass
    requires table { pass.old.table ≡ queue.now }
    requires spare { 1 < held_count pass.old.held }
    ensures inside { result.caller < 64 }
    ensures splits { Splits pass.old pass.new result }
{
    let other = queue.split(pass);
    // for the proof: it tells that the number is below 64
    let _ = other.caller();
    other
}

// Takes in another pass of the queue, with its numbers. Takes no memory.
pub(super) fn take_in(queue: &Shared<QueueMachine>, pass: &mut DrivenPass, other: DrivenPass)
    requires { IsOf (stand.Queue queue.now) pass.old × IsOf (stand.Queue queue.now) other }
    ensures of { IsOf (stand.Queue queue.now) pass.new }
    ensures joins { Joins number_priority (pass_of pass.old) (pass_of other) (pass_of pass.new) }
{
    let DrivenPass::Turn(other) = other else {
        unreachable!()
    };
    match pass {
        DrivenPass::Turn(pass) => queue.join(pass, other),
        _ => unreachable!(),
    }
}

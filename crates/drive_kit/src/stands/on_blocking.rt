// The calls of a script on a blocking collection.
ghost use Rattle.std.specs.Prelude.{◌≡◌, ◌<◌, IfOk, OnErr};
ghost use Rattle.ho_base.specs.Marks.{number_priority};
ghost use Rattle.passes.specs.Numbers.{held_count};
ghost use Rattle.passes.specs.Calls.{AddsNoEntry, IsSamePass, Joins, Splits};
ghost use Rattle.ho_model.specs.Written.{call_of, giving, mark_of};
ghost use Rattle.blocking_core.specs.Calls.{call_mark, reply_mark};
ghost use Rattle.drive_kit.specs.Calls.{IsCallOf, kind_of};
ghost use Rattle.drive_kit.specs.Parts.{IsPlaceOf};
ghost use Rattle.drive_kit.specs.Playing.{Adds, IsOf, pass_of};
ghost use Rattle.drive_kit.specs.declared.calls.Kind.TheVariants as kind;
ghost use Rattle.drive_kit.specs.declared.stands.Stand.TheVariants as stand;

use crate::stands::DrivenPass;
use blocking_collection::BlockingCollection;
use blocking_core::{BlockingCall, BlockingReply};
use ho_base::{NoMemory, Receipt};
use ho_model::{Call, Reply};
use std::sync::Wait;
use turn_lock::Pass;

// The collection's own call.
fn own_call(call: Call) -> BlockingCall<u64>
    requires { IsCallOf kind.Blocking call }
    ensures { call_mark mark_of result ≡ call_of call }
{
    match call {
        Call::Add(item) => BlockingCall::Add(item),
        Call::Take => BlockingCall::Take,
        Call::CompleteAdding => BlockingCall::CompleteAdding,
        Call::AddingCompleted => BlockingCall::AddingCompleted,
        Call::Completed => BlockingCall::Completed,
        Call::Count => BlockingCall::Count,
        Call::Snap => BlockingCall::Snap,
        _ => unreachable!(),
    }
}

// The reply as histories write it.
fn written(said: BlockingReply<u64>) -> Reply
    ensures { giving result ≡ reply_mark mark_of said }
{
    match said {
        BlockingReply::Done => Reply::Done,
        BlockingReply::Full(_) => Reply::Full,
        BlockingReply::Closed(_) => Reply::Closed,
        BlockingReply::Item(item) => Reply::Item(item),
        BlockingReply::Empty => Reply::Empty,
        BlockingReply::Ended => Reply::Ended,
        BlockingReply::Flag(flag) => Reply::Flag(flag),
        BlockingReply::Count(count) => Reply::Count(count),
        BlockingReply::Numbers(numbers) => Reply::Numbers(numbers),
    }
}

// Makes a call of a script on a blocking collection.
pub(super) fn play<R: Wait>(
    rt: &R,
    collection: &BlockingCollection<u64>,
    pass: &mut Pass,
    call: Call,
) -> Result<(Reply, Receipt), NoMemory>
    requires table { pass.old.table ≡ collection.now }
    requires kind { kind_of pass.old.object ≡ kind.Blocking }
    requires call { IsCallOf kind.Blocking call }
    ensures same { IsSamePass pass.old pass.new }
    ensures adds { IfOk result (λ said. Adds IsPlaceOf pass.old call said.0 said.1 pass.new) }
    ensures adds_none { OnErr result (AddsNoEntry number_priority pass.old pass.new) }
{
    match collection.call(rt, pass, own_call(call)) {
        Ok((said, receipt)) => Ok((written(said), receipt)),
        Err(_) => Err(NoMemory),
    }
}

// Splits off a pass with the least number that can be given away. Takes no memory.
pub(super) fn split(collection: &BlockingCollection<u64>, pass: &mut Pass) -> Pass
    requires table { pass.old.table ≡ collection.now }
    requires spare { 1 < held_count pass.old.held }
    ensures inside { result.caller < 64 }
    ensures splits { Splits pass.old pass.new result }
{
    let other = collection.split(pass);
    // for the proof: it tells that the number is below 64
    let _ = other.caller();
    other
}

// Takes in another pass of the collection, with its numbers. Takes no memory.
pub(super) fn take_in(
    collection: &BlockingCollection<u64>,
    pass: &mut DrivenPass,
    other: DrivenPass,
)
    requires { IsOf (stand.Blocking collection.now) pass.old × IsOf (stand.Blocking collection.now) other }
    ensures of { IsOf (stand.Blocking collection.now) pass.new }
    ensures joins { Joins number_priority (pass_of pass.old) (pass_of other) (pass_of pass.new) }
{
    let DrivenPass::Turn(other) = other else {
        unreachable!()
    };
    match pass {
        DrivenPass::Turn(pass) => collection.join(pass, other),
        _ => unreachable!(),
    }
}

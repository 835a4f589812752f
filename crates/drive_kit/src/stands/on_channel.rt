// The calls of a script on a channel.
ghost use Rattle.std.specs.Prelude.{◌≡◌, ◌<◌, ◌≤◌, false, IfOk, OnErr};
ghost use Rattle.ho_base.specs.Marks.{number_priority};
ghost use Rattle.passes.specs.Numbers.{held_count};
ghost use Rattle.passes.specs.Calls.{AddsNoEntry, IsSamePass, Joins, Splits};
ghost use Rattle.ho_model.specs.Written.{call_of, giving, mark_of, showing};
ghost use Rattle.channel_core.specs.Marks.{call_mark, fault_number, reply_mark};
ghost use Rattle.drive_kit.specs.Calls.{IsCallOf, kind_of};
ghost use Rattle.drive_kit.specs.Parts.{IsPlaceOf};
ghost use Rattle.drive_kit.specs.Playing.{Adds, IsOf, pass_of, is_item, is_shown};
ghost use Rattle.drive_kit.specs.declared.calls.Kind.TheVariants as kind;
ghost use Rattle.drive_kit.specs.declared.stands.Stand.TheVariants as stand;

use crate::stands::DrivenPass;
use channel_core::{ChannelCall, ChannelReply};
use channels::Channel;
use ho_base::{Fault, NoMemory, Receipt};
use ho_model::{Call, Reply};
use std::sync::Wait;
use turn_lock::Pass;

// The fault of this number, 0 for none.
fn fault_from(number: u32) -> Option<Fault>
    requires { number ≤ 65535 }
    ensures { fault_number result ≡ number }
{
    Fault::new(number as u16)
}

// The number of a fault, 0 for none.
fn number_of(fault: Option<Fault>) -> u32
    ensures { result ≡ fault_number fault }
{
    match fault {
        Some(fault) => u32::from(fault.code()),
        None => 0,
    }
}

// The channel's own call.
fn own_call(call: Call) -> ChannelCall<u64>
    requires { IsCallOf kind.Channel call }
    ensures { call_mark mark_of result ≡ call_of call }
{
    match call {
        Call::Write(item) => ChannelCall::Write(item),
        Call::Read => ChannelCall::Read,
        Call::Peek => ChannelCall::Peek,
        Call::Count => ChannelCall::Count,
        Call::BeginWrite(item) => ChannelCall::BeginWrite(item),
        Call::BeginRead => ChannelCall::BeginRead,
        Call::BeginLookWrite => ChannelCall::BeginLookWrite,
        Call::BeginLookRead => ChannelCall::BeginLookRead,
        Call::Poll(wait) => ChannelCall::Poll(wait),
        Call::Cancel(wait) => ChannelCall::Cancel(wait),
        Call::CompleteWith(fault) => ChannelCall::Complete(fault_from(fault)),
        Call::Completed => ChannelCall::Completed,
        _ => unreachable!(),
    }
}

// The reply as histories write it: they have one word for an item that is given and for one that is shown.
fn written(said: ChannelReply<u64>) -> Reply
    ensures gives { is_shown (reply_mark mark_of said) ≡ false → giving result ≡ reply_mark mark_of said }
    ensures shows { is_item (reply_mark mark_of said) ≡ false → showing result ≡ reply_mark mark_of said }
{
    match said {
        ChannelReply::Done => Reply::Done,
        ChannelReply::Dropped(item) => Reply::Dropped(item),
        ChannelReply::Full(_) => Reply::Full,
        ChannelReply::Refused(fault, item) => Reply::Refused(number_of(fault), item),
        ChannelReply::Item(item) => Reply::Item(item),
        ChannelReply::Shown(number) => Reply::Item(number),
        ChannelReply::Empty => Reply::Empty,
        ChannelReply::Count(count) => Reply::Count(count),
        ChannelReply::Closed(fault) => Reply::ClosedWith(number_of(fault)),
        ChannelReply::Waiting(wait) => Reply::Waiting(wait),
        ChannelReply::Ready(flag) => Reply::Ready(flag),
        ChannelReply::Faulted(fault) => Reply::Faulted(u32::from(fault.code())),
        ChannelReply::Cancelled => Reply::Cancelled,
        ChannelReply::CancelledWrite(item) => Reply::CancelledWrite(item),
        ChannelReply::Unknown => Reply::Unknown,
        ChannelReply::Flag(flag) => Reply::Flag(flag),
    }
}

// Makes a call of a script on a channel.
pub(super) fn play<R: Wait>(
    rt: &R,
    channel: &Channel<u64>,
    pass: &mut Pass,
    call: Call,
) -> Result<(Reply, Receipt), NoMemory>
    requires table { pass.old.table ≡ channel.now }
    requires kind { kind_of pass.old.object ≡ kind.Channel }
    requires call { IsCallOf kind.Channel call }
    ensures same { IsSamePass pass.old pass.new }
    ensures adds { IfOk result (λ said. Adds IsPlaceOf pass.old call said.0 said.1 pass.new) }
    ensures adds_none { OnErr result (AddsNoEntry number_priority pass.old pass.new) }
{
    match channel.call(rt, pass, own_call(call)) {
        Ok((said, receipt)) => Ok((written(said), receipt)),
        Err(_) => Err(NoMemory),
    }
}

// Splits off a pass with the least number that can be given away. Takes no memory.
pub(super) fn split(channel: &Channel<u64>, pass: &mut Pass) -> Pass
    requires table { pass.old.table ≡ channel.now }
    requires spare { 1 < held_count pass.old.held }
    ensures inside { result.caller < 64 }
    ensures splits { Splits pass.old pass.new result }
{
    let other = channel.split(pass);
    // for the proof: it tells that the number is below 64
    let _ = other.caller();
    other
}

// Takes in another pass of the channel, with its numbers. Takes no memory.
pub(super) fn take_in(channel: &Channel<u64>, pass: &mut DrivenPass, other: DrivenPass)
    requires { IsOf (stand.Channel channel.now) pass.old × IsOf (stand.Channel channel.now) other }
    ensures of { IsOf (stand.Channel channel.now) pass.new }
    ensures joins { Joins number_priority (pass_of pass.old) (pass_of other) (pass_of pass.new) }
{
    let DrivenPass::Turn(other) = other else {
        unreachable!()
    };
    match pass {
        DrivenPass::Turn(pass) => channel.join(pass, other),
        _ => unreachable!(),
    }
}

// The shared objects that scripts are played on, and their passes, all played alike.
ghost use Rattle.std.specs.Prelude.{◌≡◌, ◌<◌, ◌↔◌, IfOk, IsTrue, OnErr};
ghost use Rattle.ho_base.specs.Marks.{number_priority};
ghost use Rattle.passes.specs.Numbers.{held_count};
ghost use Rattle.passes.specs.Calls.{AddsNoEntry, IsSamePass, Joins, Splits};
ghost use Rattle.drive_kit.specs.Calls.{IsCallOf, kind_of};
ghost use Rattle.drive_kit.specs.Playing.{Adds, IsOf, IsReceiptOn, pass_of};

mod makers;
mod on_bag;
mod on_blocking;
mod on_channel;
mod on_queue;

use blocking_collection::BlockingCollection;
use channels::Channel;
use concurrent_bag::{BagPass, ConcurrentBag};
use concurrent_queue::{QueueMachine, QueuePass};
use ho_base::{NoMemory, Receipt};
use ho_model::{Call, Reply};
pub(crate) use makers::make;
use std::alloc::Global;
use std::sync::Wait;
use turn_lock::{Pass, Shared};

/// The object that a script is played on.
#[derive(Drop)]
pub(crate) enum Stand {
    Channel(Channel<u64>),
    Blocking(BlockingCollection<u64>),
    Queue(Shared<QueueMachine>),
    Bag(ConcurrentBag<u64>),
}

/// The whole pass of the object on which a script was played. Contracts see of it what they see of the
/// pass inside.
#[derive(Drop)]
pub enum DrivenPass {
    /// That of a channel, a blocking collection or a queue behind a turn.
    Turn(Pass),
    /// That of a queue whose calls overlap: it has seen each caller's part of the history, and callers
    /// may stand in another order there.
    Queue(QueuePass),
    /// That of a bag.
    Bag(BagPass),
}

// The number under which the pass calls.
pub(crate) fn caller_of(pass: &DrivenPass) -> u32
    ensures caller { result ≡ (pass_of pass.now).caller }
{
    match pass {
        DrivenPass::Turn(pass) => pass.caller(),
        DrivenPass::Queue(pass) => pass.caller(),
        DrivenPass::Bag(pass) => pass.caller(),
    }
}

// Whether the pass holds a number that can be given away.
pub(crate) fn has_spare(pass: &DrivenPass) -> bool
    ensures { IsTrue result ↔ (1 < held_count (pass_of pass.now).held) }
{
    match pass {
        DrivenPass::Turn(pass) => pass.spare() > 0,
        DrivenPass::Queue(pass) => pass.spare() > 0,
        DrivenPass::Bag(pass) => pass.spare() > 0,
    }
}

// Makes a call of a script, and waits for nothing but the turn. For want of memory there is no entry.
pub(crate) fn play<R: Wait>(
    rt: &R,
    alloc: Global,
    stand: &Stand,
    pass: &mut DrivenPass,
    call: Call,
) -> Result<(Reply, Receipt), NoMemory>
    requires of { IsOf stand.now pass.old }
    requires call { IsCallOf (kind_of (pass_of pass.old).object) call }
    ensures of { IsOf stand.now pass.new }
    ensures same { IsSamePass (pass_of pass.old) (pass_of pass.new) }
    ensures adds { IfOk result (λ said. Adds (IsReceiptOn stand.now) (pass_of pass.old) call said.0 said.1 (pass_of pass.new)) }
    ensures adds_none { OnErr result (AddsNoEntry number_priority (pass_of pass.old) (pass_of pass.new)) }
{
    match stand {
        Stand::Channel(channel) => match pass {
            DrivenPass::Turn(pass) => on_channel::play(rt, channel, pass, call),
            _ => unreachable!(),
        },
        Stand::Blocking(collection) => match pass {
            DrivenPass::Turn(pass) => on_blocking::play(rt, collection, pass, call),
            _ => unreachable!(),
        },
        Stand::Queue(queue) => match pass {
            DrivenPass::Turn(pass) => on_queue::play(rt, queue, pass, call),
            _ => unreachable!(),
        },
        Stand::Bag(bag) => match pass {
            DrivenPass::Bag(pass) => on_bag::play(rt, alloc, bag, pass, call),
            _ => unreachable!(),
        },
    }
}

// Splits off a pass with the least number that can be given away. Takes no memory.
pub(crate) fn split(stand: &Stand, pass: &mut DrivenPass) -> DrivenPass
    requires of { IsOf stand.now pass.old }
    requires spare { 1 < held_count (pass_of pass.old).held }
    ensures kept { IsOf stand.now pass.new }
    ensures given { IsOf stand.now result }
    ensures inside { (pass_of result).caller < 64 }
    ensures splits { Splits (pass_of pass.old) (pass_of pass.new) (pass_of result) }
{
    match stand {
        Stand::Channel(channel) => match pass {
            DrivenPass::Turn(pass) => DrivenPass::Turn(on_channel::split(channel, pass)),
            _ => unreachable!(),
        },
        Stand::Blocking(collection) => match pass {
            DrivenPass::Turn(pass) => DrivenPass::Turn(on_blocking::split(collection, pass)),
            _ => unreachable!(),
        },
        Stand::Queue(queue) => match pass {
            DrivenPass::Turn(pass) => DrivenPass::Turn(on_queue::split(queue, pass)),
            _ => unreachable!(),
        },
        Stand::Bag(bag) => match pass {
            DrivenPass::Bag(pass) => DrivenPass::Bag(on_bag::split(bag, pass)),
            _ => unreachable!(),
        },
    }
}

// Takes in another pass of the object, with its numbers. Takes no memory.
pub(crate) fn take_in(stand: &Stand, pass: &mut DrivenPass, other: DrivenPass)
    requires { IsOf stand.now pass.old × IsOf stand.now other }
    ensures of { IsOf stand.now pass.new }
    ensures joins { Joins number_priority (pass_of pass.old) (pass_of other) (pass_of pass.new) }
{
    match stand {
        Stand::Channel(channel) => on_channel::take_in(channel, pass, other),
        Stand::Blocking(collection) => on_blocking::take_in(collection, pass, other),
        Stand::Queue(queue) => on_queue::take_in(queue, pass, other),
        Stand::Bag(bag) => on_bag::take_in(bag, pass, other),
    }
}

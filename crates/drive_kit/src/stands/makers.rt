// Makes the object of a script, with the script's parameters.
ghost use Rattle.std.specs.Prelude.{◌≡◌, ◌<◌, ◌≤◌, IfOk};
ghost use Rattle.ho_model.specs.declared.objects.Object.TheVariants as objects;
ghost use Rattle.drive_kit.specs.Objects.{IsBetween, IsBound, IsBuildable};
ghost use Rattle.drive_kit.specs.Playing.{IsFirst, IsOf, pass_of};

use crate::stands::{DrivenPass, Stand};
use blocking_collection::BlockingCollection;
use channels::{Channel, MakeRefused};
use concurrent_bag::ConcurrentBag;
use concurrent_queue::QueueMachine;
use ho_base::NoMemory;
use ho_model::{Mode, Object, Store};
use std::alloc::Global;
use turn_lock::Shared;

fn queue(
    alloc: Global,
    room: u32,
    first_len: u32,
    callers: u32,
) -> Result<(Stand, DrivenPass), NoMemory>
    requires { (0 < callers) × (callers ≤ 64) }
    ensures { IfOk result (λ made. IsOf made.0 made.1 × IsFirst (objects.Queue room first_len) callers (pass_of made.1)) }
{
    let machine = QueueMachine::with_first_length(alloc, room, first_len)?;
    let (queue, pass) = Shared::new(alloc, machine, callers)?;
    Ok((Stand::Queue(queue), DrivenPass::Turn(pass)))
}

fn bag(alloc: Global, callers: u32) -> Result<(Stand, DrivenPass), NoMemory>
    requires { (0 < callers) × (callers ≤ 64) }
    ensures { IfOk result (λ made. IsOf made.0 made.1 × IsFirst objects.Bag callers (pass_of made.1)) }
{
    let (bag, pass) = ConcurrentBag::new(alloc, callers)?;
    Ok((Stand::Bag(bag), DrivenPass::Bag(pass)))
}

fn unbounded(alloc: Global, callers: u32) -> Result<(Stand, DrivenPass), NoMemory>
    requires { (0 < callers) × (callers ≤ 64) }
    ensures { IfOk result (λ made. IsOf made.0 made.1 × IsFirst objects.Unbounded callers (pass_of made.1)) }
{
    let (channel, pass) = Channel::unbounded(alloc, callers)?;
    Ok((Stand::Channel(channel), DrivenPass::Turn(pass)))
}

fn bounded(
    alloc: Global,
    capacity: u32,
    mode: Mode,
    callers: u32,
) -> Result<(Stand, DrivenPass), NoMemory>
    requires capacity { IsBetween 1 65536 capacity }
    requires callers { (0 < callers) × (callers ≤ 64) }
    ensures { IfOk result (λ made. IsOf made.0 made.1 × IsFirst (objects.Bounded capacity mode) callers (pass_of made.1)) }
{
    match Channel::bounded(alloc, capacity, mode, callers) {
        Ok((channel, pass)) => Ok((Stand::Channel(channel), DrivenPass::Turn(pass))),
        Err(MakeRefused::NoMemory) => Err(NoMemory),
        Err(MakeRefused::BadCapacity) => unreachable!(),
    }
}

fn prioritized(alloc: Global, callers: u32) -> Result<(Stand, DrivenPass), NoMemory>
    requires { (0 < callers) × (callers ≤ 64) }
    ensures { IfOk result (λ made. IsOf made.0 made.1 × IsFirst objects.Prioritized callers (pass_of made.1)) }
{
    let (channel, pass) = Channel::prioritized(alloc, callers)?;
    Ok((Stand::Channel(channel), DrivenPass::Turn(pass)))
}

fn blocking(
    alloc: Global,
    store: Store,
    bound: Option<u32>,
    callers: u32,
) -> Result<(Stand, DrivenPass), NoMemory>
    requires bound { IsBound bound }
    requires callers { (0 < callers) × (callers ≤ 64) }
    ensures { IfOk result (λ made. IsOf made.0 made.1 × IsFirst (objects.Blocking store bound) callers (pass_of made.1)) }
{
    let (collection, pass) = BlockingCollection::new(alloc, store, bound, callers)?;
    Ok((Stand::Blocking(collection), DrivenPass::Turn(pass)))
}

// The object, and its first pass, which holds all numbers and has seen nothing.
pub(crate) fn make(
    alloc: Global,
    object: &Object,
    callers: u32,
) -> Result<(Stand, DrivenPass), NoMemory>
    requires object { IsBuildable object.now }
    requires callers { (0 < callers) × (callers ≤ 64) }
    ensures { IfOk result (λ made. IsOf made.0 made.1 × IsFirst object.now callers (pass_of made.1)) }
{
    match *object {
        Object::Queue { room, first_len } => queue(alloc, room, first_len, callers),
        Object::Bag => bag(alloc, callers),
        Object::Unbounded => unbounded(alloc, callers),
        Object::Bounded { capacity, mode } => bounded(alloc, capacity, mode, callers),
        Object::Prioritized => prioritized(alloc, callers),
        Object::Blocking { store, bound } => blocking(alloc, store, bound, callers),
    }
}

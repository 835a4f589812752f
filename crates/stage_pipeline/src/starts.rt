// The joints of a run, and what its threads are started with.
ghost use Rattle.std.specs.Prelude.{◌≡◌, ◌+◌, ◌-◌, ◌<◌, ◌≤◌, IfOk};
ghost use Rattle.ho_model.specs.declared.objects.Object.TheVariants.{Bounded};
ghost use Rattle.passes.specs.Numbers.{held_count};
ghost use Rattle.passes.specs.Views.{first_pass};
ghost use Rattle.record_lang.specs.Pipelines.{IsBuildable, IsCapacity};
ghost use Rattle.stage_pipeline.specs.Runs.{channel_of};
ghost use Rattle.stage_pipeline.specs.Starts.{AreSides, AreStarts, IsNewOf};

use crate::kits::Kit;
use crate::shared::SharedJoint;
use channels::{Channel, MakeRefused, Mode};
use ho_base::NoMemory;
use record_lang::{Joint, Pipeline, Record};
use std::alloc::Global;
use turn_lock::Pass;

/// The joints of a run, and what its threads are started with.
#[derive(Drop)]
pub(crate) struct Starts {
    pub(crate) joints: Vec<SharedJoint>,
    /// The crews' kits, in order of their stages.
    pub(crate) kits: Vec<Kit>,
    /// The feeder's pass of the first joint.
    pub(crate) feeds: Pass,
}

// The passes of a joint's two sides.
#[derive(Drop)]
struct Sides {
    write: Pass,
    read: Pass,
}

// A channel with a capacity that a joint may have.
fn bounded(
    alloc: Global,
    capacity: u32,
    mode: Mode,
    callers: u32,
) -> Result<(Channel<Record>, Pass), NoMemory>
    requires callers { (0 < callers) × (callers ≤ 64) }
    requires capacity { IsCapacity capacity }
    ensures { IfOk result (λ made. made.1 ≡ first_pass made.0 (Bounded capacity mode) callers) }
{
    match Channel::bounded(alloc, capacity, mode, callers) {
        Ok(made) => Ok(made),
        Err(MakeRefused::NoMemory) => Err(NoMemory),
        Err(MakeRefused::BadCapacity) => unreachable!(),
    }
}

// The channel that a joint is, and its first pass.
fn channel_of(alloc: Global, line: Joint, callers: u32) -> Result<(Channel<Record>, Pass), NoMemory>
    requires callers { (0 < callers) × (callers ≤ 64) }
    requires buildable { IsBuildable line }
    ensures { IfOk result (λ made. made.1 ≡ first_pass made.0 (channel_of line) callers) }
{
    match line {
        Joint::Wait(capacity) => bounded(alloc, capacity, Mode::Wait, callers),
        Joint::DropNewest(capacity) => bounded(alloc, capacity, Mode::DropNewest, callers),
        Joint::DropOldest(capacity) => bounded(alloc, capacity, Mode::DropOldest, callers),
        Joint::DropWrite(capacity) => bounded(alloc, capacity, Mode::DropWrite, callers),
        Joint::Unbounded => Channel::unbounded(alloc, callers),
    }
}

// Splits so many numbers off a new pass, and joins them to a pass of their own.
fn split_many(channel: &Channel<Record>, pass: &mut Pass, count: u32) -> Pass
    requires some { 1 ≤ count }
    requires spare { count < held_count pass.old.held }
    requires few { pass.old.callers ≤ 64 }
    requires new { IsNewOf channel.now pass.old.object pass.old.callers (held_count pass.old.held) pass.old }
    ensures kept { IsNewOf channel.now pass.old.object pass.old.callers (held_count pass.old.held - count) pass.new }
    ensures given { IsNewOf channel.now pass.old.object pass.old.callers count result }
{
    let mut others = channel.split(pass);
    for _ in 1..count {
        let other = channel.split(pass);
        channel.join(&mut others, other);
    }
    others
}

// How much room a write may have to wait for. Where none waits, there is any.
fn room_of(line: Joint) -> u64 {
    match line {
        Joint::Wait(capacity) => u64::from(capacity),
        Joint::DropNewest(_) | Joint::DropOldest(_) | Joint::DropWrite(_) | Joint::Unbounded => {
            u64::MAX
        }
    }
}

// A joint, and the passes of its two sides, with so many numbers each.
fn make_joint(
    alloc: Global,
    line: Joint,
    writers: u32,
    readers: u32,
) -> Result<(SharedJoint, Sides), NoMemory>
    requires writers { (1 ≤ writers) × (writers ≤ 32) }
    requires readers { (1 ≤ readers) × (readers ≤ 32) }
    requires buildable { IsBuildable line }
    ensures { IfOk result (λ made. AreSides made.0 line writers readers made.1.write made.1.read) }
{
    let (channel, mut write) = channel_of(alloc, line, writers + readers)?;
    let read = split_many(&channel, &mut write, readers);
    let joint = SharedJoint::new(channel, room_of(line));
    Ok((joint, Sides { write, read }))
}

/// Makes the joints of a pipeline, for so many workers at each stage, and splits their passes between the
/// feeder and the crews.
pub(crate) fn start_joints(
    alloc: Global,
    pipeline: &Pipeline,
    workers: u32,
) -> Result<Starts, NoMemory>
    requires { (1 ≤ workers) × (workers ≤ 16) }
    ensures { IfOk result (AreStarts pipeline.now workers) }
{
    let stages = pipeline.stages();
    let (first, sides) = make_joint(alloc, pipeline.joint(1), 1, workers + 1)?;
    let Sides { write, mut read } = sides;
    let mut starts = Starts {
        joints: Vec::with_capacity(alloc, stages as usize)?,
        kits: Vec::with_capacity(alloc, stages as usize)?,
        feeds: write,
    };
    starts.joints.push(first)?;
    'stages: for stage in 1..stages {
        let (next, sides) = make_joint(alloc, pipeline.joint(stage + 1), workers + 1, workers + 1)?;
        starts.joints.push(next)?;
        starts.kits.push(Kit {
            stage,
            workers,
            read,
            write: Some(sides.write),
        })?;
        read = sides.read;
    }
    starts.kits.push(Kit {
        stage: stages,
        workers,
        read,
        write: None,
    })?;
    Ok(starts)
}

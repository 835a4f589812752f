// The workers of a crew, side by side, and the passes that they share.
ghost use Rattle.std.specs.Prelude.{◌≡◌, ℕ, ◌+◌, ◌-◌, ◌++◌, ◌≤◌, [], true, length, Some, slice_get};
ghost use Rattle.std.specs.Thread.{IsSync};
ghost use Rattle.turn_lock.specs.Passes.{LockPass};
ghost use Rattle.stage_pipeline.specs.Crews.{IsNewAtTo};
ghost use Rattle.stage_pipeline.specs.Seats.{AreOfTo, IsOfTo, IsSeat, JoinsTo, SeatEnds, SplitsSeat, SplitsTo, TakesIn, IsToldFault};

use crate::gauge::{Gauge, Inlet, Outlet};
use crate::shared::SharedJoint;
use crate::sides::joint_of;
use crate::workers::{Job, WorkerEnd, work};
use channels::{Reader, Writer};
use ho_base::Fault;
use ho_io::Gate;
use record_lang::{Outcome, Pipeline, Record};
use std::alloc::Global;
use std::sync::Wait;
use std::thread::{Threads, join};
use turn_lock::Pass;

/// What the workers of a stage are started with, one or several.
#[derive(Drop)]
pub(crate) struct Seat {
    pub(crate) stage: u32,
    /// The number of the first of them at the gate.
    pub(crate) number: u32,
    pub(crate) read: Pass,
    pub(crate) write: Option<Pass>,
}

/// What they leave.
#[derive(Drop)]
pub(crate) struct SeatEnd {
    pub(crate) read: Pass,
    pub(crate) write: Option<Pass>,
    /// The outcomes that ended at their stage.
    pub(crate) over: Vec<Outcome>,
    /// The numbers of the records that their writes dropped.
    pub(crate) lost: Vec<u64>,
    /// The fault that one of them read at the end of its joint.
    pub(crate) fault: Option<Fault>,
    /// They worked off all that they read. Else one found no memory.
    pub(crate) whole: bool,
}

// A writer by a pass that is there.
fn writer_of<'c>(
    joints: &'c [SharedJoint],
    index: u32,
    pass: Option<Pass>,
) -> Option<Writer<'c, Record>>
    requires { IsOfTo joints.now index pass }
    ensures { result ≡ pass }
{
    let Some(pass) = pass else {
        return None;
    };
    Some(Writer::new(joint_of(joints, index, &pass).channel(), pass))
}

fn into_pass(writer: Option<Writer<'_, Record>>) -> Option<Pass>
    ensures { result ≡ writer.entry }
{
    let Some(writer) = writer else {
        return None;
    };
    Some(writer.into_pass())
}

// How full the joint at an index is, or else another one.
fn gauge_at<'c>(joints: &'c [SharedJoint], index: u32, other: &'c Gauge) -> &'c Gauge {
    match joints.get(index as usize) {
        Some(joint) => joint.gauge(),
        None => other,
    }
}

// The work of one worker, the first of its crew or a further one.
fn work_at<G: Gate, R: Wait>(
    rt: &R,
    alloc: Global,
    pipeline: &Pipeline,
    joints: &[SharedJoint],
    gate: &G,
    is_first: bool,
    seat: Seat,
) -> SeatEnd
    requires { IsSeat (length pipeline.now.stages) joints.now 1 seat }
    ensures ends { SeatEnds pipeline.now 1 seat result }
    ensures told { IsToldFault result }
{
    let Seat {
        stage,
        number,
        read,
        write,
    } = seat;
    let joint = joint_of(joints, stage - 1, &read);
    let job = Job {
        stage,
        number,
        from: Inlet::new(joint.gauge(), is_first),
        to: Outlet::new(gauge_at(joints, stage, joint.gauge())),
        reader: Reader::new(joint.channel(), read),
        writer: writer_of(joints, stage, write),
    };
    let WorkerEnd {
        reader,
        writer,
        over,
        lost,
        fault,
        whole,
    } = work(rt, alloc, pipeline, gate, job);
    SeatEnd {
        read: reader.into_pass(),
        write: into_pass(writer),
        over,
        lost,
        fault,
        whole,
    }
}

// Splits off a pass with one number, if there is a pass.
fn split_to(joints: &[SharedJoint], index: u32, pass: &mut Option<Pass>) -> Option<Pass>
    requires { (numbers : ℕ) × IsNewAtTo joints.now index (numbers + 2) pass.old }
    ensures { SplitsTo pass.old pass.new result }
{
    let Some(pass) = pass.as_mut() else {
        return None;
    };
    Some(joint_of(joints, index, pass).channel().split(pass))
}

// Splits off the seat of one worker, which has this number at the gate.
fn split(joints: &[SharedJoint], seat: &mut Seat, number: u32) -> Seat
    requires { (numbers : ℕ) × (stages : ℕ) × IsSeat stages joints.now (numbers + 2) seat.old }
    ensures { SplitsSeat number seat.old seat.new result }
{
    Seat {
        stage: seat.stage,
        number,
        read: joint_of(joints, seat.stage - 1, &seat.read)
            .channel()
            .split(&mut seat.read),
        write: split_to(joints, seat.stage, &mut seat.write),
    }
}

// Joins a pass to another, if both are there.
fn join_to(joints: &[SharedJoint], index: u32, pass: &mut Option<Pass>, other: Option<Pass>)
    requires { AreOfTo joints.now index pass.old other }
    ensures { JoinsTo pass.old other pass.new }
{
    let Some(pass) = pass.as_mut() else {
        return;
    };
    let Some(other) = other else {
        return;
    };
    joint_of(joints, index, pass).channel().join(pass, other);
}

// Moves all of a list to the end of another, where there is memory. To an empty one it goes as it is.
fn append<T: Drop>(all: &mut Vec<T>, more: Vec<T>) -> bool
    ensures { result ≡ true → all.new.items ≡ all.old.items ++ more.items }
{
    if all.is_empty() {
        *all = more;
        return true;
    }
    let mut more = more;
    all.append(&mut more).is_ok()
}

fn are_all(a: bool, b: bool, c: bool, d: bool) -> bool
    ensures { result ≡ true → (a ≡ true) × (b ≡ true) × (c ≡ true) × (d ≡ true) }
{
    a && b && c && d
}

// Takes in what another worker of the stage left.
fn take_in(joints: &[SharedJoint], stage: u32, end: SeatEnd, other: SeatEnd) -> SeatEnd
    requires from { 1 ≤ stage }
    requires read { (slice_get joints.now (stage - 1) ≡ Some end.read.table) × (slice_get joints.now (stage - 1) ≡ Some other.read.table) }
    requires write { AreOfTo joints.now stage end.write other.write }
    ensures { TakesIn end other result }
{
    let SeatEnd {
        mut read,
        mut write,
        mut over,
        mut lost,
        fault: _,
        whole,
    } = end;
    joint_of(joints, stage - 1, &read)
        .channel()
        .join(&mut read, other.read);
    join_to(joints, stage, &mut write, other.write);
    let outcomes = append(&mut over, other.over);
    let numbers = append(&mut lost, other.lost);
    SeatEnd {
        read,
        write,
        over,
        lost,
        fault: other.fault,
        whole: are_all(whole, other.whole, outcomes, numbers),
    }
}

// What passes leave by which no call was made.
fn unused(alloc: Global, seat: Seat) -> SeatEnd
    ensures read { result.read ≡ seat.read }
    ensures write { result.write ≡ seat.write }
    ensures over { result.over.items ≡ [] }
    ensures lost { result.lost.items ≡ [] }
{
    let Seat {
        stage: _,
        number: _,
        read,
        write,
    } = seat;
    SeatEnd {
        read,
        write,
        over: Vec::new(alloc),
        lost: Vec::new(alloc),
        fault: None,
        whole: true,
    }
}

// The work of the last worker, in this thread: its pass is split off, and joined to what is left.
fn work_last<G: Gate, R: Wait>(
    rt: &R,
    alloc: Global,
    pipeline: &Pipeline,
    joints: &[SharedJoint],
    gate: &G,
    mut seat: Seat,
) -> SeatEnd
    requires { IsSeat (length pipeline.now.stages) joints.now 2 seat }
    ensures ends { SeatEnds pipeline.now 1 seat result }
    ensures told { IsToldFault result }
{
    let stage = seat.stage;
    let number = seat.number;
    let other = split(joints, &mut seat, number);
    let end = work_at(rt, alloc, pipeline, joints, gate, true, other);
    take_in(joints, stage, unused(alloc, seat), end)
}

/// The work of so many workers, the first of them in this thread and each other one in a thread of its
/// own, which are all joined: their passes to what is left of the seat's.
#[cycle(workers)]
pub(crate) fn work_all<G: Gate, R: Wait + Threads + Sync>(
    rt: &R,
    alloc: Global,
    pipeline: &Pipeline,
    joints: &[SharedJoint],
    gate: &G,
    workers: u32,
    mut seat: Seat,
) -> SeatEnd
    requires some { 1 ≤ workers }
    requires seat { IsSeat (length pipeline.now.stages) joints.now (workers + 1) seat }
    ensures ends { SeatEnds pipeline.now workers seat result }
    ensures told { IsToldFault result }
{
    if workers == 1 {
        return work_last(rt, alloc, pipeline, joints, gate, seat);
    }
    let left = workers - 1;
    let stage = seat.stage;
    let number = seat.number.saturating_add(left);
    let other = split(joints, &mut seat, number);
    let (end, rest) = join(
        rt,
        move || -> SeatEnd
            requires { IsSync R.row × IsSync G.row × IsSeat (length pipeline.now.stages) joints.now 1 other }
            ensures { SeatEnds pipeline.entry.now 1 other result × IsToldFault result }
        { work_at(rt, alloc, pipeline, joints, gate, false, other) },
        move || -> SeatEnd
            requires { IsSync R.row × IsSync G.row × (1 ≤ left) × IsSeat (length pipeline.now.stages) joints.now (left + 1) seat }
            ensures { SeatEnds pipeline.entry.now left seat result }
        { work_all(rt, alloc, pipeline, joints, gate, left, seat) },
    );
    take_in(joints, stage, rest, end)
}

// A run: its joints, its threads, and its text.
ghost use Rattle.std.specs.Prelude.{◌≡◌, ◌<◌, ◌≤◌, ◌^◌, List, IfOk};
ghost use Rattle.record_lang.specs.Pipelines.{HasJoints};
ghost use Rattle.record_lang.specs.Records.{AreNumbered, Row};
ghost use Rattle.stage_pipeline.specs.Made.{IsMade};
ghost use Rattle.stage_pipeline.specs.Meetings.{HandsOn};
ghost use Rattle.stage_pipeline.specs.Runs.{IsRan};
ghost use Rattle.stage_pipeline.specs.Tellings.{AreFed, HasRun};

use crate::flow::{Start, flow_all};
use crate::kits::Feed;
use crate::made::{made_pipeline, made_records};
use crate::meeting::gather;
use crate::meetings::meetings_tell_runs;
use crate::reports::ran_of;
use crate::starts::{Starts, start_joints};
use crate::summaries::summary_of;
use ho_base::{NoMemory, Text};
use ho_io::Gate;
use record_lang::{Dropped, FedRows, Outcome, Pipeline, Records, rows_to_feed};
use std::alloc::Global;
use std::marker::Model;
use std::sync::Wait;
use std::thread::Threads;
use turn_lock::Pass;

/// A run of a pipeline: the text that it tells, and the whole pass of each joint. Contracts see of it the
/// two (`RanView` of `specs/Runs.antt`).
#[derive(Drop)]
pub struct Ran {
    pub text: Text,
    joints: Vec<Pass>,
}

impl Model for Ran {
    ghost use Rattle.stage_pipeline.specs.Runs.{RanView};

    ghost Value = { RanView };

    ghost view = { λ r. record { text = r.text; joints = r.joints.items } };
}

impl Ran {
    pub(crate) fn new(text: Text, joints: Vec<Pass>) -> Ran
        ensures text { result.text ≡ text }
        ensures joints { result.joints ≡ joints.items }
    {
        Ran { text, joints }
    }

    /// The whole pass of each joint, in order.
    pub fn joints(&self) -> &[Pass]
        ensures { result.now ≡ self.now.joints }
    {
        &self.joints
    }
}

/// What a run hands on: the whole pass of each joint, in order, and all outcomes and all dropped records,
/// in any order.
#[derive(Drop)]
pub(crate) struct Done {
    pub(crate) joints: Vec<Pass>,
    pub(crate) outcomes: Vec<Outcome>,
    pub(crate) dropped: Vec<Dropped>,
}

// What holds of each pipeline. The function does nothing.
fn tell_built(pipeline: &Pipeline)
    ensures { HasJoints pipeline.now.stages pipeline.now.joints }
{
    pipeline.stages();
}

// What holds of all records. The function does nothing.
fn tell_numbered(records: &Records)
    ensures { AreNumbered records.now }
{
    records.as_slice();
}

// Runs the feeder and all crews over joints of their own, and joins all of them.
fn run_all<G: Gate, R: Wait + Threads + Sync>(
    rt: &R,
    alloc: Global,
    pipeline: &Pipeline,
    fed: FedRows,
    workers: u32,
    gate: &G,
) -> Result<Done, NoMemory>
    requires workers { (1 ≤ workers) × (workers ≤ 16) }
    ensures { IfOk result (λ done. (rows : List Row) → AreFed pipeline.now rows fed → HandsOn pipeline.now rows workers done) }
{
    tell_built(pipeline);
    let Starts {
        joints,
        kits,
        feeds,
    } = start_joints(alloc, pipeline, workers)?;
    let ends = Vec::with_capacity(alloc, kits.len())?;
    let feed = Feed { fed, write: feeds };
    let start = Start {
        kits,
        feed,
        ends,
        all_started: true,
    };
    let flow = flow_all(rt, alloc, pipeline, &joints, gate, start);
    gather(alloc, &joints, flow)
}

// The same; what it hands on is the whole pass of each joint, and the outcomes and dropped records that
// these tell.
fn run_joints<G: Gate, R: Wait + Threads + Sync>(
    rt: &R,
    alloc: Global,
    pipeline: &Pipeline,
    fed: FedRows,
    workers: u32,
    gate: &G,
) -> Result<Done, NoMemory>
    requires workers { (1 ≤ workers) × (workers ≤ 16) }
    ensures { IfOk result (λ done. (rows : List Row) → AreNumbered rows → AreFed pipeline.now rows fed → HasRun pipeline.now rows workers done) }
{
    meetings_tell_runs();
    tell_built(pipeline);
    run_all(rt, alloc, pipeline, fed, workers, gate)
}

/// Runs a pipeline over records on many threads: a feeder, and for each stage a crew of so many workers,
/// 1 to 16, with a channel between each two, which is the joint that the pipeline names.
///
/// Without a joint that may drop the text is the one-thread text, whatever the threads did; with one it is
/// that of the report which the joints tell. Worker i of stage j, where i counts from 0 and j from 1, calls
/// the gate before each of its calls on a joint, with the number (j - 1) times the workers plus i and its
/// own turns from 0.
///
/// Without memory a worker takes no further record to its stage, and drains its joint; each crew completes
/// the next joint all the same, all threads are joined, and the answer is `NoMemory`. A crew for which the
/// system starts no thread comes last, after all that feed its joint: so then nothing is fed, and the answer
/// is `NoMemory` too. A worker without a thread comes after the others of its crew, and the run goes on
/// without it. Time is that of the stages' work and of sorting outcomes by number; memory is linear in the
/// records and in what the stages make of them.
pub fn run_pipeline<G: Gate, R: Wait + Threads + Sync>(
    rt: &R,
    alloc: Global,
    pipeline: &Pipeline,
    records: Records,
    workers: u32,
    gate: &G,
) -> Result<Ran, NoMemory>
    requires workers { (1 ≤ workers) × (workers ≤ 16) }
    ensures { IfOk result (IsRan pipeline.now records workers) }
{
    tell_numbered(&records);
    let fed = rows_to_feed(pipeline, records);
    let code = fed.code;
    let done = run_joints(rt, alloc, pipeline, fed, workers, gate)?;
    ran_of(alloc, pipeline, code, done)
}

/// Makes so many records, at most 200,000, from a seed below 2^31, and runs over them, with so many workers
/// for each stage, 1 to 16, the pipeline that they are for. The text is the counts row, the sum of the first
/// fields of all results, and the ending.
pub fn made_text<G: Gate, R: Wait + Threads + Sync>(
    rt: &R,
    alloc: Global,
    count: u32,
    seed: u32,
    workers: u32,
    gate: &G,
) -> Result<Ran, NoMemory>
    requires few { count ≤ 200000 }
    requires range { seed < 2 ^ 31 }
    requires workers { (1 ≤ workers) × (workers ≤ 16) }
    ensures { IfOk result (IsMade count seed workers) }
{
    let records = made_records(alloc, count, seed)?;
    let pipeline = made_pipeline(alloc)?;
    tell_numbered(&records);
    let fed = rows_to_feed(&pipeline, records);
    let done = run_joints(rt, alloc, &pipeline, fed, workers, gate)?;
    summary_of(alloc, done)
}

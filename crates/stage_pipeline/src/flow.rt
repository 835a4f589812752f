// All crews side by side, and the feeder beside them.
ghost use Rattle.std.specs.Prelude.{◌≡◌, ◌+◌, ◌≤◌, All, length, vec_capacity, vec_len};
ghost use Rattle.stage_pipeline.specs.Crews.{AddsCrewEnds, CrewEnds, FeederEnds, IsKit, IsNewAt};
ghost use Rattle.stage_pipeline.specs.Flows.{HasFlowed, MayFlow};

use crate::crew::crew;
use crate::feeder::feed_all;
use crate::kits::{CrewEnd, Feed, FeederEnd, Kit};
use crate::shared::SharedJoint;
use ho_io::Gate;
use record_lang::Pipeline;
use std::alloc::Global;
use std::snapshot::Snapshot;
use std::sync::Wait;
use std::thread::{Promise, Scope, Threads, scope, scope_env};

/// What is to be run: the crews' kits, the feed, and the ends that are there already.
#[derive(Drop)]
pub(crate) struct Start {
    pub(crate) kits: Vec<Kit>,
    pub(crate) feed: Feed,
    pub(crate) ends: Vec<CrewEnd>,
    /// Each crew that was started so far got a thread.
    pub(crate) all_started: bool,
}

/// What came of it.
#[derive(Drop)]
pub(crate) struct Flow {
    pub(crate) ends: Vec<CrewEnd>,
    pub(crate) fed: FeederEnd,
}

/// What a crew's thread promises: the end of a crew with this kit.
#[derive(Drop)]
struct CrewOf<'p> {
    pipeline: &'p Pipeline,
    kit: Snapshot<Kit>,
}

impl<'p> Promise<CrewEnd> for CrewOf<'p> {
    ghost use Rattle.stage_pipeline.specs.Crews.{CrewEnds};

    ghost kept_by = { λ p end. CrewEnds p.pipeline.now p.kit.value end };
}

// Runs the crews of all kits and the feeder side by side, and joins them all. A crew that gets no thread
// comes last, in this one, so what feeds it must not wait for it: then nothing is fed.
fn flow_in<'s, E, G: Gate, R: Wait + Threads + Sync>(
    scope: &Scope<'s, E>,
    rt: &'s R,
    alloc: Global,
    pipeline: &'s Pipeline,
    joints: &'s [SharedJoint],
    gate: &'s G,
    mut start: Start,
) -> Flow
    requires room { vec_len start.ends + vec_len start.kits ≤ vec_capacity start.ends }
    requires kits { All (IsKit (length pipeline.now.stages) joints.now) start.kits.items }
    requires feed { IsNewAt joints.now 0 1 start.feed.write }
    ensures ends { AddsCrewEnds pipeline.now start.kits.items start.ends.items result.ends.items }
    ensures room { vec_capacity result.ends ≡ vec_capacity start.ends }
    ensures fed { FeederEnds start.feed result.fed }
{
    let Some(kit) = start.kits.pop() else {
        let Start {
            kits: _,
            feed,
            ends,
            all_started,
        } = start;
        let fed = feed_all(rt, alloc, joints, feed, all_started);
        return Flow { ends, fed };
    };
    let promise = CrewOf {
        pipeline,
        kit: Snapshot::of(&kit),
    };
    let started = scope.spawn_with(
        promise,
        move || -> CrewEnd
            requires { IsKit (length pipeline.now.stages) joints.now kit }
            ensures { CrewEnds pipeline.entry.now kit result }
        { crew(rt, alloc, pipeline, joints, gate, kit) },
    );
    match started {
        Ok(thread) => {
            let mut flow = flow_in(scope, rt, alloc, pipeline, joints, gate, start);
            flow.ends.push_reserved(thread.join(rt));
            flow
        }
        Err(refused) => {
            start.all_started = false;
            let mut flow = flow_in(scope, rt, alloc, pipeline, joints, gate, start);
            flow.ends.push_reserved((refused.value)());
            flow
        }
    }
}

/// Runs the crews of all kits and the feeder side by side, and joins them all. Without a thread for each
/// crew nothing is fed.
pub(crate) fn flow_all<G: Gate, R: Wait + Threads + Sync>(
    rt: &R,
    alloc: Global,
    pipeline: &Pipeline,
    joints: &[SharedJoint],
    gate: &G,
    start: Start,
) -> Flow
    requires room { vec_len start.ends + vec_len start.kits ≤ vec_capacity start.ends }
    requires kits { All (IsKit (length pipeline.now.stages) joints.now) start.kits.items }
    requires feed { IsNewAt joints.now 0 1 start.feed.write }
    ensures ends { AddsCrewEnds pipeline.now start.kits.items start.ends.items result.ends.items }
    ensures room { vec_capacity result.ends ≡ vec_capacity start.ends }
    ensures fed { FeederEnds start.feed result.fed }
{
    scope(
        scope_env(),
        rt,
        move |scope| -> Flow
            requires { MayFlow (length pipeline.now.stages) joints.now start }
            ensures { HasFlowed pipeline.entry.now start result }
        { flow_in(scope, rt, alloc, pipeline, joints, gate, start) },
    )
}

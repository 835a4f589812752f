// A crew: it starts the workers of its stage, takes back what they leave, and completes the next joint.
ghost use Rattle.std.specs.Prelude.{length};
ghost use Rattle.channel_core.specs.Marks.{fault_number};
ghost use Rattle.stage_pipeline.specs.Crews.{CompletesTo, CrewEnds, IsKit};
ghost use Rattle.stage_pipeline.specs.Seats.{IsOfTo};

use crate::kits::{CrewEnd, Kit};
use crate::seats::{Seat, SeatEnd, work_all};
use crate::shared::SharedJoint;
use crate::sides::{complete, joint_of};
use ho_base::Fault;
use ho_io::Gate;
use record_lang::Pipeline;
use std::alloc::Global;
use std::sync::Wait;
use std::thread::Threads;
use turn_lock::Pass;

// Completes the joint of a pass that is there.
fn complete_next<R: Wait>(
    rt: &R,
    joints: &[SharedJoint],
    index: u32,
    pass: Option<Pass>,
    fault: Option<Fault>,
) -> Option<Pass>
    requires { IsOfTo joints.now index pass }
    ensures { CompletesTo (fault_number fault) pass result }
{
    let Some(pass) = pass else {
        return None;
    };
    Some(complete(rt, joint_of(joints, index, &pass), pass, fault))
}

/// Works off what the kit's joint gives, by as many workers as the kit says, the first of them in this
/// thread and each other one in a thread of its own, and then completes the next joint with the fault that
/// they were told. Starting them takes no memory of the allocator.
///
/// Worker i of stage j calls the gate with the number (j - 1) times the workers plus i. A worker without
/// memory drains its joint, so that the crew completes the next one all the same.
pub(crate) fn crew<G: Gate, R: Wait + Threads + Sync>(
    rt: &R,
    alloc: Global,
    pipeline: &Pipeline,
    joints: &[SharedJoint],
    gate: &G,
    kit: Kit,
) -> CrewEnd
    requires { IsKit (length pipeline.now.stages) joints.now kit }
    ensures { CrewEnds pipeline.now kit result }
{
    let Kit {
        stage,
        workers,
        read,
        write,
    } = kit;
    let seat = Seat {
        stage,
        number: (stage - 1).saturating_mul(workers),
        read,
        write,
    };
    let SeatEnd {
        read,
        write,
        over,
        lost,
        fault,
        whole,
    } = work_all(rt, alloc, pipeline, joints, gate, workers, seat);
    CrewEnd {
        read,
        write: complete_next(rt, joints, stage, write, fault),
        over,
        lost,
        whole,
    }
}

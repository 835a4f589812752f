// After a run: both passes of each joint are joined, and what the crews and the feeder left is gathered.
ghost use Rattle.std.specs.Prelude.{◌≡◌, ◌++◌, ◌∷◌, ◌≤◌, ◌-◌, List, Some, IfOk, OnOk, drop, length};
ghost use Rattle.stage_pipeline.specs.Gathered.{AreEndsOf, Gathers, GathersOne, dropped_by};
ghost use Rattle.stage_pipeline.specs.declared.kits.CrewEnd.{CrewEnd};

use crate::flow::Flow;
use crate::kits::CrewEnd;
use crate::runs::Done;
use crate::shared::SharedJoint;
use ho_base::NoMemory;
use record_lang::{Dropped, Outcome};
use std::alloc::Global;
use turn_lock::Pass;

/// The writers' side of a joint, as it came back.
#[derive(Drop)]
pub(crate) struct Side {
    /// Their pass. Behind the last stage there is none.
    pub(crate) write: Option<Pass>,
    /// The numbers of the records that their writes dropped.
    pub(crate) lost: Vec<u64>,
}

// Adds the records of these numbers, dropped by a joint.
fn add_dropped(dropped: &mut Vec<Dropped>, joint: u32, numbers: &[u64]) -> Result<(), NoMemory>
    ensures { OnOk result (dropped.new.items ≡ dropped.old.items ++ dropped_by joint numbers.now) }
{
    for number in numbers {
        dropped.push(Dropped {
            number: *number,
            joint,
        })?;
    }
    Ok(())
}

// Adds these outcomes. The first list is taken as it is.
fn add_outcomes(outcomes: &mut Vec<Outcome>, more: Vec<Outcome>) -> Result<(), NoMemory>
    ensures { OnOk result (outcomes.new.items ≡ outcomes.old.items ++ more.items) }
{
    if outcomes.is_empty() {
        *outcomes = more;
        return Ok(());
    }
    let mut more = more;
    outcomes.append(&mut more)?;
    Ok(())
}

// Joins the passes of one joint, counted from 1, and takes in what its readers left. Behind it stands the
// writers' side of the next.
fn gather_joint(
    joints: &[SharedJoint],
    joint: u32,
    side: Side,
    end: CrewEnd,
    done: &mut Done,
) -> Result<Side, NoMemory>
    requires from { 1 ≤ joint }
    requires ends { (ends : List CrewEnd) × AreEndsOf (drop (joint - 1) joints.now) side.write (end ∷ ends) }
    ensures { IfOk result (GathersOne joint side end done.old done.new) }
{
    let Side { write, lost } = side;
    let Some(mut joined) = write else {
        unreachable!()
    };
    let CrewEnd {
        read,
        write,
        over,
        lost: next,
        whole,
    } = end;
    if !whole {
        return Err(NoMemory);
    }
    joints[joint as usize - 1].channel().join(&mut joined, read);
    done.joints.push(joined)?;
    add_outcomes(&mut done.outcomes, over)?;
    add_dropped(&mut done.dropped, joint, &lost)?;
    Ok(Side { write, lost: next })
}

/// Joins the writers' pass and the readers' pass of each joint, and gathers all outcomes and all dropped
/// records. If some thread found no memory, the answer is `NoMemory`.
pub(crate) fn gather(alloc: Global, joints: &[SharedJoint], flow: Flow) -> Result<Done, NoMemory>
    requires few { length joints.now ≤ 8 }
    requires ends { AreEndsOf joints.now (Some flow.fed.write) flow.ends.items }
    ensures { IfOk result (Gathers flow) }
{
    let Flow { ends, fed } = flow;
    if !fed.whole {
        return Err(NoMemory);
    }
    let mut side = Side {
        write: Some(fed.write),
        lost: fed.lost,
    };
    let mut done = Done {
        joints: Vec::with_capacity(alloc, joints.len())?,
        outcomes: Vec::new(alloc),
        dropped: Vec::new(alloc),
    };
    let mut joint = 0;
    'ends: for end in ends {
        joint += 1;
        side = gather_joint(joints, joint, side, end, &mut done)?;
    }
    Ok(done)
}

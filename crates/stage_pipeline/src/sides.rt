// The channels of the joints, as those use them who hold a pass of one.
ghost use Rattle.std.specs.Prelude.{◌≡◌, Some, slice_get};
ghost use Rattle.channel_core.specs.Marks.{fault_number};
ghost use Rattle.stage_pipeline.specs.Crews.{Completes};

use crate::shared::SharedJoint;
use channels::Writer;
use ho_base::Fault;
use std::sync::Wait;
use turn_lock::Pass;

/// The joint at an index, counted from 0, of which this is a pass.
pub(crate) fn joint_of<'c>(joints: &'c [SharedJoint], index: u32, pass: &Pass) -> &'c SharedJoint
    requires { slice_get joints.now index ≡ Some pass.now.table }
    ensures { result.now ≡ pass.entry.now.table }
{
    &joints[index as usize]
}

/// Completes a joint by this pass, as the last call by it, and gives the pass back.
pub(crate) fn complete<R: Wait>(
    rt: &R,
    joint: &SharedJoint,
    pass: Pass,
    fault: Option<Fault>,
) -> Pass
    requires { pass.table ≡ joint.now }
    ensures { Completes (fault_number fault) pass result }
{
    let mut writer = Writer::new(joint.channel(), pass);
    writer.try_complete(rt, fault);
    joint.gauge().end();
    writer.into_pass()
}

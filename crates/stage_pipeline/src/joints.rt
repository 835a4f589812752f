// The laws of one joint.
ghost use Rattle.stage_pipeline.specs.Joints.{FaultGoesOn, FewAreDropped, JointsAddUp, JointsDropNothing};

/// A joint whose writers completed it, and nobody else, once they had all written, whose writers take
/// nothing and whose readers write nothing, where both finished as many waits as they began, and a read
/// was told of the end: what was written weighs as what was taken and what was dropped, and each read that
/// was told of the end was told the fault of the completion. Nothing is dropped without a drop mode, and
/// else at least as many items are taken as the joint has room for, or all.
///
/// The function does nothing; its contract is a law, over the own entries of the two passes that are
/// joined.
pub fn a_joint_adds_up()
    ensures weights { JointsAddUp }
    ensures fault { FaultGoesOn }
    ensures dropless { JointsDropNothing }
    ensures few { FewAreDropped }
{}

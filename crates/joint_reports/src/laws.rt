// What has passed all joints of a pipeline.
ghost use Rattle.joint_reports.specs.Laws.{DroppedAreFed, OutcomesAreKept, RecordsReachJoints};

/// What was written to a joint is the records that reach it, each once; what it dropped is those of its
/// numbers, and what was taken is the others.
pub fn records_reach_joints()
    ensures { RecordsReachJoints }
{}

/// The outcomes that ended at the stages are the one-thread outcomes of the records that no joint
/// dropped, each once.
pub fn outcomes_are_kept()
    ensures { OutcomesAreKept }
{}

/// The numbers that a joint dropped are numbers of fed records, each once.
pub fn dropped_are_fed()
    ensures { DroppedAreFed }
{}

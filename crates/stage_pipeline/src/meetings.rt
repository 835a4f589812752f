// What all joints and stages together tell of a run.
ghost use Rattle.stage_pipeline.specs.Tellings.{MeetingsTellRuns};

/// Where each joint's passes met, each stage worked off what its joint gave, and the first joint was fed:
/// each joint's pass is that of the records that reach it, and the outcomes and dropped records are those
/// that the joints tell. The function does nothing; its contract is a law.
pub(crate) fn meetings_tell_runs()
    ensures { MeetingsTellRuns }
{}

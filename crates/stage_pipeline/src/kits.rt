// What the threads of a run are started with, and what they leave.
use record_lang::{FedRows, Outcome};
use turn_lock::Pass;

/// What a crew is started with.
#[derive(Drop)]
pub(crate) struct Kit {
    /// Its stage, counted from 1.
    pub(crate) stage: u32,
    pub(crate) workers: u32,
    /// Its pass of the joint that feeds its stage, with a number for each worker and one more.
    pub(crate) read: Pass,
    /// Its pass of the next joint, likewise. The last stage has none.
    pub(crate) write: Option<Pass>,
}

/// What a crew leaves.
#[derive(Drop)]
pub(crate) struct CrewEnd {
    pub(crate) read: Pass,
    pub(crate) write: Option<Pass>,
    /// The outcomes that ended at its stage.
    pub(crate) over: Vec<Outcome>,
    /// The numbers of the records that its writes dropped.
    pub(crate) lost: Vec<u64>,
    /// It worked off all that its joint gave. Else it found no memory.
    pub(crate) whole: bool,
}

/// What the feeder is started with: the records that it feeds, and a pass of the first joint.
#[derive(Drop)]
pub(crate) struct Feed {
    pub(crate) fed: FedRows,
    pub(crate) write: Pass,
}

/// What the feeder leaves.
#[derive(Drop)]
pub(crate) struct FeederEnd {
    pub(crate) write: Pass,
    /// The numbers of the records that its writes dropped.
    pub(crate) lost: Vec<u64>,
    /// It fed all that is to be fed. Else it found no memory.
    pub(crate) whole: bool,
}

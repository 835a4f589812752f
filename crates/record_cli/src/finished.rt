// How a command ended, and what it shows.
use crate::status::Status;
use drive_kit::DrivenPass;
use stage_pipeline::Ran;

/// What a command shows beside the text that it wrote.
#[derive(Drop)]
pub enum Shown {
    Nothing,
    /// The whole pass of the object on which a script was played.
    Driven(DrivenPass),
    /// The text of a run, and the whole pass of each of its joints.
    Ran(Ran),
}

/// How a command ended.
#[derive(Drop)]
pub struct Finished {
    pub status: Status,
    /// What was played or run, exactly where its whole text was written.
    pub shown: Shown,
}

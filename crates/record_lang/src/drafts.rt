// What the lines of a text say so far.
ghost use Rattle.std.specs.Prelude.{◌≡◌, Ok};
ghost use Rattle.record_lang.specs.Lines.{IsBuildableLine, Tells};
ghost use Rattle.record_lang.specs.Parsing.{nothing_yet, whole, with_guard, with_joint, with_line, with_stage};
ghost use Rattle.record_lang.specs.Pipelines.{IsBuildable};

use crate::causes::Cause;
use crate::lines::{Line, LineFault};
use crate::pipelines::{Guard, Joint, Pipeline, Stage};
use std::alloc::Global;
use std::marker::Model;

/// The most stages of a pipeline.
const MAX_STAGES: usize = 8;

/// The joint of a stage that has no joint line before it.
const DEFAULT_JOINT: Joint = Joint::Wait(16);

/// A pipeline of which some lines are read.
#[derive(Drop)]
pub(crate) struct Draft {
    stages: Vec<Stage>,
    joints: Vec<Joint>,
    guard: Option<Guard>,
    loose: Option<Joint>,
}

impl Model for Draft {
    ghost use Rattle.record_lang.specs.SoFar.{SoFar, IsFed};

    ghost Value = { SoFar };

    ghost view = { λ d. record { stages = d.stages.items; joints = d.joints.items; guard = d.guard; loose = d.loose } };

    ghost invariant = { λ d. IsFed d.stages.items d.joints.items d.loose };
}

impl Draft {
    // Before the first line.
    pub(crate) fn new(alloc: Global) -> Draft
        ensures { result ≡ nothing_yet }
    {
        Draft {
            stages: Vec::new(alloc),
            joints: Vec::new(alloc),
            guard: None,
            loose: None,
        }
    }

    // One more stage, fed by the loose joint or the one that stands for none.
    fn with_stage(self, stage: Stage) -> Result<Draft, LineFault>
        ensures { Tells (with_stage self stage) result }
    {
        let Draft {
            mut stages,
            mut joints,
            guard,
            loose,
        } = self;
        if stages.len() == MAX_STAGES {
            return Err(LineFault::Refused(Cause::TooMany));
        }
        stages.push(stage)?;
        joints.push(loose.unwrap_or(DEFAULT_JOINT))?;
        // the joint feeds this stage alone
        let loose = None;
        Ok(Draft {
            stages,
            joints,
            guard,
            loose,
        })
    }

    // A joint, for the stage that comes.
    fn with_joint(self, joint: Joint) -> Result<Draft, Cause>
        requires { IsBuildable joint }
        ensures { result ≡ with_joint self joint }
    {
        if self.loose.is_some() {
            return Err(Cause::TooMany);
        }
        Ok(Draft {
            loose: Some(joint),
            ..self
        })
    }

    fn with_guard(self, guard: Guard) -> Result<Draft, Cause>
        ensures { result ≡ with_guard self guard }
    {
        if self.guard.is_some() {
            return Err(Cause::TooMany);
        }
        Ok(Draft {
            guard: Some(guard),
            ..self
        })
    }

    // What the lines say, with one more.
    pub(crate) fn with_line(self, line: Line) -> Result<Draft, LineFault>
        requires { IsBuildableLine line }
        ensures { Tells (with_line self line) result }
    {
        match line {
            Line::Nothing => Ok(self),
            Line::Stage(stage) => self.with_stage(stage),
            Line::Joint(joint) => Ok(self.with_joint(joint)?),
            Line::Guard(guard) => Ok(self.with_guard(guard)?),
        }
    }

    // After the last line.
    pub(crate) fn into_pipeline(self) -> Result<Pipeline, Cause>
        ensures { result ≡ whole self }
    {
        let Draft {
            stages,
            joints,
            guard,
            loose,
        } = self;
        if stages.is_empty() {
            return Err(Cause::NoStage);
        }
        if loose.is_some() {
            return Err(Cause::LooseJoint);
        }
        Ok(Pipeline::of_parts(stages, joints, guard))
    }
}

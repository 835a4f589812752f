// What a pipeline's text means.
ghost use Rattle.std.specs.Prelude.{◌≡◌, ◌≤◌, ◌-◌, length, slice_get, Some, None, option_map};
ghost use Rattle.record_lang.specs.Guards.{is_stopped, is_text, meets};
ghost use Rattle.record_lang.specs.Pipelines.{HasJoints, IsBuildable};

use crate::{Field, Record, Records, Stages};
use ho_base::Fault;
use std::marker::Model;

/// How `keep` compares the number in a field with its own.
#[derive(Clone, Copy, Debug, PartialEq, Eq)]
pub(crate) enum Relation {
    Less,
    AtMost,
    Equal,
    AtLeast,
    Greater,
}

/// What stands between a stage and what feeds it: a channel of this capacity, from 1 to 65,536, and
/// with this full mode, or without bound. They are .NET's `BoundedChannelFullMode`.
#[derive(Clone, Copy, Debug, PartialEq, Eq)]
pub enum Joint {
    Wait(u32),
    DropNewest(u32),
    DropOldest(u32),
    DropWrite(u32),
    Unbounded,
}

/// What is done with each record. Fields are counted from 0.
#[derive(Drop)]
pub(crate) enum Stage {
    /// Keeps the records whose field stands in this relation to the number.
    Keep {
        field: u32,
        relation: Relation,
        number: i64,
    },
    /// Keeps the records whose field equals the text.
    Match {
        field: u32,
        text: Field,
    },
    /// Adds a number to a field.
    Add {
        field: u32,
        number: i64,
    },
    /// Multiplies a field by a number.
    Mul {
        field: u32,
        number: i64,
    },
    /// Appends the sum of two fields.
    Sum {
        left: u32,
        right: u32,
    },
    /// Appends the bytes of two fields, one after the other.
    Cat {
        left: u32,
        right: u32,
    },
    /// Appends a copy of a field.
    Copy {
        field: u32,
    },
    /// Removes a field.
    Cut {
        field: u32,
    },
}

/// Where feeding stops: before the first record whose field equals the text.
#[derive(Drop)]
pub(crate) struct Guard {
    pub(crate) field: u32,
    pub(crate) text: Field,
    pub(crate) code: Fault,
}

/// The meaning of a pipeline's text: one to eight stages, the joint that feeds each, and perhaps a
/// guard.
#[derive(Drop)]
pub struct Pipeline {
    stages: Vec<Stage>,
    joints: Vec<Joint>,
    guard: Option<Guard>,
}

impl Model for Pipeline {
    ghost use Rattle.record_lang.specs.Pipelines.{HasJoints, Meaning};

    ghost Value = { Meaning };

    ghost view = { λ p. record { stages = p.stages.items; joints = p.joints.items; guard = p.guard } };

    ghost invariant = { λ p. HasJoints p.stages.items p.joints.items };
}

impl Pipeline {
    /// A pipeline of these stages, one to eight, each fed by the joint of the same place, and without
    /// a guard. Takes no memory.
    pub fn new(stages: Stages, joints: Vec<Joint>) -> Pipeline
        requires { HasJoints stages joints.items }
        ensures stages { result.stages ≡ stages }
        ensures joints { result.joints ≡ joints.items }
        ensures guard { result.guard ≡ None }
    {
        Pipeline::of_parts(stages.into_vec(), joints, None)
    }

    /// The same pipeline, whose feeding stops before the first record whose field is there and equals
    /// the text. Another guard that it had is gone. Takes no memory.
    pub fn with_guard(self, field: u32, text: Field, code: Fault) -> Pipeline
        ensures stages { result.stages ≡ self.stages }
        ensures joints { result.joints ≡ self.joints }
        ensures guard { result.guard ≡ Some (record { field = field; text = text; code = code }) }
    {
        let guard = Some(Guard { field, text, code });
        Pipeline::of_parts(self.stages, self.joints, guard)
    }

    // A pipeline of these parts.
    pub(crate) fn of_parts(stages: Vec<Stage>, joints: Vec<Joint>, guard: Option<Guard>) -> Pipeline
        requires { HasJoints stages.items joints.items }
        ensures stages { result.stages ≡ stages.items }
        ensures joints { result.joints ≡ joints.items }
        ensures guard { result.guard ≡ guard }
    {
        Pipeline {
            stages,
            joints,
            guard,
        }
    }

    /// How many stages there are, from 1 to 8. Each has a joint that can be built.
    pub fn stages(&self) -> u32
        ensures count { result ≡ length self.now.stages }
        ensures some { 1 ≤ result }
        ensures few { result ≤ 8 }
        ensures joints { HasJoints self.now.stages self.now.joints }
    {
        self.stages.len() as u32
    }

    /// The joint that feeds a stage. Stages are counted from 1.
    pub fn joint(&self, stage: u32) -> Joint
        requires from { 1 ≤ stage }
        requires to { stage ≤ length self.now.stages }
        ensures joint { slice_get self.now.joints (stage - 1) ≡ Some result }
        ensures buildable { IsBuildable result }
    {
        self.joints[stage as usize - 1]
    }

    /// The joints, in order of the stages that they feed.
    pub fn joints(&self) -> &[Joint]
        ensures { result.now ≡ self.now.joints }
    {
        &self.joints
    }

    /// The code with which a run ends that meets the guard. None exactly where there is no guard.
    pub fn guard_code(&self) -> Option<Fault>
        ensures { result ≡ option_map (λ guard. guard.code) self.now.guard }
    {
        self.guard.as_ref().map(|guard| guard.code)
    }

    // The stages, in order.
    pub(crate) fn stage_list(&self) -> &[Stage]
        ensures stages { result.now ≡ self.now.stages }
        ensures few { length result.now ≤ 8 }
    {
        &self.stages
    }

    // The guard, if there is one.
    pub(crate) fn guard(&self) -> Option<&Guard>
        ensures { option_map (λ guard. guard.now) result ≡ self.now.guard }
    {
        self.guard.as_ref()
    }

    /// Whether there is a guard, and the record meets it. A record without the guard's field does
    /// not meet it.
    pub fn meets_guard(&self, row: &Record) -> bool
        ensures { result ≡ meets self.now.guard row.now }
    {
        match &self.guard {
            None => false,
            Some(guard) => guard.is_met(row),
        }
    }

    /// Whether some record meets the guard, so that a run ends with the guard's code.
    pub fn stops(&self, records: &Records) -> bool
        ensures { result ≡ is_stopped self.now.guard records.now }
    {
        records.as_slice().iter().any(|row| self.meets_guard(row))
    }
}

impl Guard {
    // Whether the record has the field, and it equals the text.
    fn is_met(&self, row: &Record) -> bool
        ensures { result ≡ is_text self.now.text (slice_get row.now.fields self.now.field) }
    {
        match row.field(self.field) {
            None => false,
            Some(field) => field.bytes() == self.text.bytes(),
        }
    }
}

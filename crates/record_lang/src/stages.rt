// The stages of a pipeline that is made by code.
ghost use Rattle.std.specs.Prelude.{◌≡◌, [], ◌∷◌, ◌++◌, OnErr, OnOk};
ghost use Rattle.record_lang.specs.declared.pipelines.Relation.TheVariants as rel;
ghost use Rattle.record_lang.specs.declared.pipelines.Stage.TheVariants as stage;

use crate::pipelines::{Relation, Stage};
use ho_base::NoMemory;
use std::alloc::Global;
use std::marker::Model;

/// The stages of a pipeline that is made by code and not read from a text, in order. They are added
/// one by one; without memory for one more they stay as they were.
#[derive(Drop)]
pub struct Stages {
    stages: Vec<Stage>,
}

impl Model for Stages {
    ghost use Rattle.std.specs.Prelude.{List};
    ghost use Rattle.record_lang.specs.declared.pipelines.Stage.{Stage};

    ghost Value = { List Stage };

    ghost view = { λ s. s.stages.items };
}

impl Stages {
    /// No stages yet. Takes no memory.
    pub fn new(alloc: Global) -> Stages
        ensures { result ≡ [] }
    {
        Stages {
            stages: Vec::new(alloc),
        }
    }

    /// Keeps the records whose field holds a number that is at least this one.
    pub fn keep_at_least(&mut self, field: u32, number: i64) -> Result<(), NoMemory>
        ensures pushed { OnOk result (self.new ≡ self.old ++ stage.Keep field rel.AtLeast number ∷ []) }
        ensures unpaid { OnErr result (self.new ≡ self.old) }
    {
        self.push(Stage::Keep {
            field,
            relation: Relation::AtLeast,
            number,
        })
    }

    /// Adds a number to a field.
    pub fn add(&mut self, field: u32, number: i64) -> Result<(), NoMemory>
        ensures pushed { OnOk result (self.new ≡ self.old ++ stage.Add field number ∷ []) }
        ensures unpaid { OnErr result (self.new ≡ self.old) }
    {
        self.push(Stage::Add { field, number })
    }

    /// Multiplies a field by a number.
    pub fn mul(&mut self, field: u32, number: i64) -> Result<(), NoMemory>
        ensures pushed { OnOk result (self.new ≡ self.old ++ stage.Mul field number ∷ []) }
        ensures unpaid { OnErr result (self.new ≡ self.old) }
    {
        self.push(Stage::Mul { field, number })
    }

    fn push(&mut self, stage: Stage) -> Result<(), NoMemory>
        ensures pushed { OnOk result (self.new ≡ self.old ++ stage ∷ []) }
        ensures unpaid { OnErr result (self.new ≡ self.old) }
    {
        match self.stages.push(stage) {
            Ok(()) => Ok(()),
            Err(_) => Err(NoMemory),
        }
    }

    pub(crate) fn into_vec(self) -> Vec<Stage>
        ensures { result.items ≡ self }
    {
        self.stages
    }
}

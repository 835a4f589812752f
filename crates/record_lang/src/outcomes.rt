// What a stage does with a record.
ghost use Rattle.std.specs.Prelude.{◌≡◌, ◌≤◌, ◌<◌, ◌-◌, ◌++◌, ◌∷◌, [], List, ℕ, Some, Ok, length, slice_get, slice_set, IfOk, IfErr, IfSome, OnOk, option_map};
ghost use Rattle.record_lang.specs.Outcomes.{appended, record_cause_number, compared, decimal_of, field_found, joined_found, kept, matched, number_found, number_of_outcome, plus, record_outcome, relation_holds, removed, refused, replaced, stage_outcome, sum_found, times, with_fields};

use crate::numbers::{number_in, product};
use crate::pipelines::{Relation, Stage};
use crate::rows::is_too_long;
use crate::{Field, Pipeline, Record};
use ho_base::{NoMemory, Unpaid};
use itoa::Buffer;
use std::alloc::Global;

/// What comes of a record. Records are counted from 0, stages from 1.
#[derive(Drop)]
pub enum Outcome {
    /// The record goes on, as it is now.
    Result(Record),
    /// A stage refuses the record, for the first of these causes that holds: 1 a field that the
    /// stage names is not there, 2 a field is not a number, 3 the value has more than 64 bits with
    /// its sign, 4 the new record has more than 4,096 bytes in all its fields.
    Refused { number: u64, stage: u32, cause: u8 },
    /// A stage does not keep the record.
    Filtered { number: u64 },
}

impl Outcome {
    /// The number of the record that this became of.
    pub fn number(&self) -> u64
        ensures { result ≡ number_of_outcome self.now }
    {
        match self {
            Outcome::Result(row) => row.row_number(),
            Outcome::Refused { number, .. } => *number,
            Outcome::Filtered { number } => *number,
        }
    }
}

// Why a stage refuses a record.
#[derive(Clone, Copy)]
pub(crate) enum RecordCause {
    NoField,
    NotNumber,
    Overflow,
    TooLong,
}

impl RecordCause {
    fn number(self) -> u8
        ensures { result ≡ record_cause_number self }
    {
        match self {
            RecordCause::NoField => 1,
            RecordCause::NotNumber => 2,
            RecordCause::Overflow => 3,
            RecordCause::TooLong => 4,
        }
    }
}

fn holds(relation: Relation, left: i64, right: i64) -> bool
    ensures { result ≡ relation_holds relation left right }
{
    match relation {
        Relation::Less => left < right,
        Relation::AtMost => left <= right,
        Relation::Equal => left == right,
        Relation::AtLeast => left >= right,
        Relation::Greater => left > right,
    }
}

// The number in a field.
fn number_at(row: &Record, at: u32) -> Result<i64, RecordCause>
    ensures found { result ≡ number_found (slice_get row.now.fields at) }
    ensures there { OnOk result (at < length row.now.fields) }
{
    match row.field(at) {
        None => Err(RecordCause::NoField),
        Some(field) => number_in(field.bytes()).ok_or(RecordCause::NotNumber),
    }
}

// The sum of the numbers in two fields.
fn sum_at(row: &Record, left: u32, right: u32) -> Result<i64, RecordCause>
    ensures { result ≡ sum_found (slice_get row.now.fields left) (slice_get row.now.fields right) }
{
    let Some(left) = row.field(left) else {
        return Err(RecordCause::NoField);
    };
    let Some(right) = row.field(right) else {
        return Err(RecordCause::NoField);
    };
    let Some(left) = number_in(left.bytes()) else {
        return Err(RecordCause::NotNumber);
    };
    let Some(right) = number_in(right.bytes()) else {
        return Err(RecordCause::NotNumber);
    };
    left.checked_add(right).ok_or(RecordCause::Overflow)
}

// Refuses a record.
fn refuse(why: RecordCause, stage: u32, row: Record) -> Outcome
    ensures { result ≡ refused why stage row }
{
    Outcome::Refused {
        number: row.row_number(),
        stage,
        cause: why.number(),
    }
}

// Lets a record go on unchanged, or not.
fn keep(keeps: Result<bool, RecordCause>, stage: u32, row: Record) -> Outcome
    ensures { result ≡ kept keeps stage row }
{
    match keeps {
        Err(why) => refuse(why, stage, row),
        Ok(true) => Outcome::Result(row),
        Ok(false) => Outcome::Filtered {
            number: row.row_number(),
        },
    }
}

// Lets a changed record go on, if it is not too long.
fn check_length(stage: u32, row: Record) -> Outcome
    ensures { result ≡ with_fields row.fields stage row }
{
    if is_too_long(row.fields()) {
        refuse(RecordCause::TooLong, stage, row)
    } else {
        Outcome::Result(row)
    }
}

// A field of a number.
fn decimal_field(alloc: Global, number: i64) -> Result<Field, NoMemory>
    ensures { IfOk result (λ f. Ok f ≡ decimal_of (Ok number)) }
{
    let mut buffer = Buffer::new();
    Field::new(alloc, buffer.format(number).as_bytes())
}

// Puts a number in the place of a field.
fn replace(
    at: u32,
    number: Result<i64, RecordCause>,
    stage: u32,
    row: Record,
) -> Result<Outcome, Unpaid<Record>>
    requires { OnOk number (at < length row.fields) }
    ensures done { IfOk result (λ o. o ≡ replaced at number stage row) }
    ensures back { IfErr result (λ e. e.back ≡ row) }
{
    let mut row = row;
    match number {
        Err(why) => Ok(refuse(why, stage, row)),
        Ok(number) => {
            let Ok(field) = decimal_field(row.allocator(), number) else {
                return Err(Unpaid { back: row });
            };
            row.replace(at, field);
            Ok(check_length(stage, row))
        }
    }
}

// Appends a field.
fn append(field: Field, stage: u32, row: Record) -> Result<Outcome, Unpaid<Record>>
    ensures done { IfOk result (λ o. o ≡ appended (Ok field) stage row) }
    ensures back { IfErr result (λ e. e.back ≡ row) }
{
    let mut row = row;
    match row.push(field) {
        Err(_) => Err(Unpaid { back: row }),
        Ok(()) => Ok(check_length(stage, row)),
    }
}

// Appends the sum of two fields.
fn append_sum(left: u32, right: u32, stage: u32, row: Record) -> Result<Outcome, Unpaid<Record>>
    ensures done { IfOk result (λ o. o ≡ appended (decimal_of (sum_found (slice_get row.fields left) (slice_get row.fields right))) stage row) }
    ensures back { IfErr result (λ e. e.back ≡ row) }
{
    match sum_at(&row, left, right) {
        Err(why) => Ok(refuse(why, stage, row)),
        Ok(sum) => match decimal_field(row.allocator(), sum) {
            Err(_) => Err(Unpaid { back: row }),
            Ok(field) => append(field, stage, row),
        },
    }
}

// Appends the bytes of two fields, one after the other.
fn append_joined(left: u32, right: u32, stage: u32, row: Record) -> Result<Outcome, Unpaid<Record>>
    ensures done { IfOk result (λ o. o ≡ appended (joined_found (slice_get row.fields left) (slice_get row.fields right)) stage row) }
    ensures back { IfErr result (λ e. e.back ≡ row) }
{
    let Some(first) = row.field(left) else {
        return Ok(refuse(RecordCause::NoField, stage, row));
    };
    let Some(second) = row.field(right) else {
        return Ok(refuse(RecordCause::NoField, stage, row));
    };
    match Field::joined(row.allocator(), first.bytes(), second.bytes()) {
        Err(_) => Err(Unpaid { back: row }),
        Ok(field) => append(field, stage, row),
    }
}

// Appends a copy of a field.
fn append_copy(at: u32, stage: u32, row: Record) -> Result<Outcome, Unpaid<Record>>
    ensures done { IfOk result (λ o. o ≡ appended (field_found (slice_get row.fields at)) stage row) }
    ensures back { IfErr result (λ e. e.back ≡ row) }
{
    let Some(field) = row.field(at) else {
        return Ok(refuse(RecordCause::NoField, stage, row));
    };
    match Field::new(row.allocator(), field.bytes()) {
        Err(_) => Err(Unpaid { back: row }),
        Ok(copy) => append(copy, stage, row),
    }
}

// Removes a field.
fn cut(at: u32, stage: u32, row: Record) -> Outcome
    ensures { result ≡ removed at (slice_get row.fields at) stage row }
{
    let mut row = row;
    if at as usize >= row.fields().len() {
        return refuse(RecordCause::NoField, stage, row);
    }
    row.remove(at);
    check_length(stage, row)
}

// Whether `keep` keeps a record.
fn compare(row: &Record, at: u32, relation: Relation, number: i64) -> Result<bool, RecordCause>
    ensures { result ≡ compared relation number (number_found (slice_get row.now.fields at)) }
{
    let found = number_at(row, at)?;
    Ok(holds(relation, found, number))
}

// Whether `match` keeps a record.
fn equals(row: &Record, at: u32, text: &Field) -> Result<bool, RecordCause>
    ensures { result ≡ matched text.now (slice_get row.now.fields at) }
{
    match row.field(at) {
        None => Err(RecordCause::NoField),
        Some(field) => Ok(field.bytes() == text.bytes()),
    }
}

// The number in a field with another added.
fn add_at(row: &Record, at: u32, number: i64) -> Result<i64, RecordCause>
    ensures sum { result ≡ plus number (number_found (slice_get row.now.fields at)) }
    ensures there { OnOk result (at < length row.now.fields) }
{
    let found = number_at(row, at)?;
    found.checked_add(number).ok_or(RecordCause::Overflow)
}

// The number in a field times another.
fn mul_at(row: &Record, at: u32, number: i64) -> Result<i64, RecordCause>
    ensures product { result ≡ times number (number_found (slice_get row.now.fields at)) }
    ensures there { OnOk result (at < length row.now.fields) }
{
    let found = number_at(row, at)?;
    product(found, number).ok_or(RecordCause::Overflow)
}

// Does one stage.
fn step(what: &Stage, stage: u32, row: Record) -> Result<Outcome, Unpaid<Record>>
    ensures done { IfOk result (λ o. o ≡ stage_outcome what.now stage row) }
    ensures back { IfErr result (λ e. e.back ≡ row) }
{
    match what {
        Stage::Keep {
            field,
            relation,
            number,
        } => Ok(keep(compare(&row, *field, *relation, *number), stage, row)),
        Stage::Match { field, text } => Ok(keep(equals(&row, *field, text), stage, row)),
        Stage::Add { field, number } => {
            let sum = add_at(&row, *field, *number);
            replace(*field, sum, stage, row)
        }
        Stage::Mul { field, number } => {
            let product = mul_at(&row, *field, *number);
            replace(*field, product, stage, row)
        }
        Stage::Sum { left, right } => append_sum(*left, *right, stage, row),
        Stage::Cat { left, right } => append_joined(*left, *right, stage, row),
        Stage::Copy { field } => append_copy(*field, stage, row),
        Stage::Cut { field } => Ok(cut(*field, stage, row)),
    }
}

/// Does one stage of a pipeline, counted from 1. Without memory for the new record it hands the
/// very record back. The record is moved, not copied.
pub fn apply_stage(pipeline: &Pipeline, stage: u32, row: Record) -> Result<Outcome, Unpaid<Record>>
    requires from { 1 ≤ stage }
    requires to { stage ≤ length pipeline.now.stages }
    ensures done { IfOk result (λ o. IfSome (slice_get pipeline.now.stages (stage - 1)) (λ what. o ≡ stage_outcome what stage row)) }
    ensures back { IfErr result (λ e. e.back ≡ row) }
{
    step(&pipeline.stage_list()[stage as usize - 1], stage, row)
}

// What becomes of a record.
pub(crate) fn outcome_of(stages: &[Stage], given: Record) -> Result<Outcome, NoMemory>
    requires { length stages.now ≤ 8 }
    ensures { IfOk result (λ o. o ≡ record_outcome stages.now given) }
{
    let mut row = given;
    for (i, stage) in stages.iter().enumerate() {
        let outcome = step(stage, i as u32 + 1, row)?;
        match outcome {
            Outcome::Result(next) => row = next,
            other => return Ok(other),
        }
    }
    Ok(Outcome::Result(row))
}

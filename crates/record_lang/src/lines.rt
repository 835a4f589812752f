// What a line of a pipeline's text says.
ghost use Rattle.std.specs.Prelude.{◌≡◌, map, IfOk};
ghost use Rattle.std.specs.List.{list_all};
ghost use Rattle.record_lang.specs.Lines.{guard_of, is_printable, joint_of, joint_with, keep_of, line_of, line_of_words, match_of, one_place, place_and_operand, stage_of, stage_with, two_places, IsBuildableLine, Tells};
ghost use Rattle.record_lang.specs.Pipelines.{IsBuildable, IsCapacity};
ghost use Rattle.record_lang.specs.declared.lines.LineFault.TheVariants as fault;

use crate::Field;
use crate::causes::{Cause, both};
use crate::pipelines::{Guard, Joint, Stage};
use crate::words::{
    FullMode, Operation, capacity_in, code_in, mode_in, operand_in, operation_in, place_in,
    relation_in, words_in,
};
use ho_base::NoMemory;
use std::alloc::{AllocError, AllocFailed, Global};

/// What a line says.
#[derive(Drop)]
pub(crate) enum Line {
    Nothing,
    Stage(Stage),
    Joint(Joint),
    Guard(Guard),
}

/// Why a line is not read.
#[derive(Clone, Copy, Debug, PartialEq, Eq)]
pub(crate) enum LineFault {
    Refused(Cause),
    NoMemory,
}

impl From<Cause> for LineFault {
    ghost from_gives = { λ cause told. told ≡ fault.Refused cause };

    fn from(cause: Cause) -> Self {
        LineFault::Refused(cause)
    }
}

impl From<NoMemory> for LineFault {
    ghost from_gives = { λ _ told. told ≡ fault.NoMemory };

    fn from(_: NoMemory) -> Self {
        LineFault::NoMemory
    }
}

impl From<AllocError> for LineFault {
    ghost from_gives = { λ _ told. told ≡ fault.NoMemory };

    fn from(_: AllocError) -> Self {
        LineFault::NoMemory
    }
}

impl<T: Drop> From<AllocFailed<T>> for LineFault {
    ghost from_gives = { λ _ told. told ≡ fault.NoMemory };

    fn from(_: AllocFailed<T>) -> Self {
        LineFault::NoMemory
    }
}

// `F`
fn one_place_in(words: &[&[u8]]) -> Result<u32, Cause>
    ensures { result ≡ one_place (map (λ w. w.now) words.now) }
{
    let [field] = words else {
        return Err(Cause::BadShape);
    };
    place_in(field)
}

// `F G`
fn two_places_in(words: &[&[u8]]) -> Result<(u32, u32), Cause>
    ensures { result ≡ two_places (map (λ w. w.now) words.now) }
{
    let [left, right] = words else {
        return Err(Cause::BadShape);
    };
    both(place_in(left), place_in(right))
}

// `F N`
fn place_and_operand_in(words: &[&[u8]]) -> Result<(u32, i64), Cause>
    ensures { result ≡ place_and_operand (map (λ w. w.now) words.now) }
{
    let [field, number] = words else {
        return Err(Cause::BadShape);
    };
    both(place_in(field), operand_in(number))
}

// `F REL N`
fn keep_in(words: &[&[u8]]) -> Result<Stage, Cause>
    ensures { result ≡ keep_of (map (λ w. w.now) words.now) }
{
    let [field, relation, number] = words else {
        return Err(Cause::BadShape);
    };
    let comparison = both(relation_in(relation), operand_in(number));
    let (field, comparison) = both(place_in(field), comparison)?;
    let (relation, number) = comparison;
    Ok(Stage::Keep {
        field,
        relation,
        number,
    })
}

// `F TEXT`
fn match_in(alloc: Global, words: &[&[u8]]) -> Result<Stage, LineFault>
    ensures { Tells (match_of (map (λ w. w.now) words.now)) result }
{
    let [field, text] = words else {
        return Err(LineFault::Refused(Cause::BadShape));
    };
    let field = place_in(field)?;
    let text = Field::new(alloc, text)?;
    Ok(Stage::Match { field, text })
}

// An operation with its arguments.
#[tactic(auto, unfolding(crate::specs::Lines::stage_with))]
fn stage_with_in(
    alloc: Global,
    operation: Operation,
    arguments: &[&[u8]],
) -> Result<Stage, LineFault>
    ensures { Tells (stage_with operation (map (λ w. w.now) arguments.now)) result }
{
    match operation {
        Operation::Keep => Ok(keep_in(arguments)?),
        Operation::Match => match_in(alloc, arguments),
        Operation::Add => {
            let (field, number) = place_and_operand_in(arguments)?;
            Ok(Stage::Add { field, number })
        }
        Operation::Mul => {
            let (field, number) = place_and_operand_in(arguments)?;
            Ok(Stage::Mul { field, number })
        }
        Operation::Sum => {
            let (left, right) = two_places_in(arguments)?;
            Ok(Stage::Sum { left, right })
        }
        Operation::Cat => {
            let (left, right) = two_places_in(arguments)?;
            Ok(Stage::Cat { left, right })
        }
        Operation::Copy => {
            let field = one_place_in(arguments)?;
            Ok(Stage::Copy { field })
        }
        Operation::Cut => {
            let field = one_place_in(arguments)?;
            Ok(Stage::Cut { field })
        }
    }
}

// What stands after `stage`.
fn stage_in(alloc: Global, words: &[&[u8]]) -> Result<Stage, LineFault>
    ensures { Tells (stage_of (map (λ w. w.now) words.now)) result }
{
    match words {
        [] => Err(LineFault::Refused(Cause::BadShape)),
        [name, arguments @ ..] => {
            let operation = operation_in(name)?;
            stage_with_in(alloc, operation, arguments)
        }
    }
}

// A joint with this full mode and capacity.
fn joint_with_in(mode: FullMode, capacity: u32) -> Joint
    requires { IsCapacity capacity }
    ensures joint { result ≡ joint_with mode capacity }
    ensures buildable { IsBuildable result }
{
    match mode {
        FullMode::Wait => Joint::Wait(capacity),
        FullMode::DropNewest => Joint::DropNewest(capacity),
        FullMode::DropOldest => Joint::DropOldest(capacity),
        FullMode::DropWrite => Joint::DropWrite(capacity),
    }
}

// What stands after `joint`.
#[tactic(auto, unfolding(crate::specs::Lines::joint_of))]
fn joint_in(words: &[&[u8]]) -> Result<Joint, Cause>
    ensures joint { result ≡ joint_of (map (λ w. w.now) words.now) }
    ensures buildable { IfOk result IsBuildable }
{
    match words {
        [name] => {
            if *name == b"unbounded".as_slice() {
                Ok(Joint::Unbounded)
            } else {
                Err(Cause::BadShape)
            }
        }
        [name, capacity] => {
            let (mode, capacity) = both(mode_in(name), capacity_in(capacity))?;
            Ok(joint_with_in(mode, capacity))
        }
        _ => Err(Cause::BadShape),
    }
}

// What stands after `guard`: `F TEXT CODE`.
fn guard_in(alloc: Global, words: &[&[u8]]) -> Result<Guard, LineFault>
    ensures { Tells (guard_of (map (λ w. w.now) words.now)) result }
{
    let [field, text, code] = words else {
        return Err(LineFault::Refused(Cause::BadShape));
    };
    let (field, code) = both(place_in(field), code_in(code))?;
    let text = Field::new(alloc, text)?;
    Ok(Guard { field, text, code })
}

// What the words of a line say together.
#[tactic(auto, unfolding(crate::specs::Lines::line_of_words))]
fn line_of_words_in(alloc: Global, words: &[&[u8]]) -> Result<Line, LineFault>
    ensures line { Tells (line_of_words (map (λ w. w.now) words.now)) result }
    ensures buildable { IfOk result IsBuildableLine }
{
    match words {
        [] => Ok(Line::Nothing),
        [first, rest @ ..] => match *first {
            b"stage" => Ok(Line::Stage(stage_in(alloc, rest)?)),
            b"joint" => Ok(Line::Joint(joint_in(rest)?)),
            b"guard" => Ok(Line::Guard(guard_in(alloc, rest)?)),
            _ => Err(LineFault::Refused(Cause::UnknownLine)),
        },
    }
}

fn all_printable(line: &[u8]) -> bool
    ensures { result ≡ list_all is_printable line.now }
{
    line.iter().all(|b| b' ' <= *b && *b <= b'~')
}

// What a line says.
#[tactic(auto, unfolding(crate::specs::Lines::line_of))]
pub(crate) fn line_in(alloc: Global, line: &[u8]) -> Result<Line, LineFault>
    ensures line { Tells (line_of line.now) result }
    ensures buildable { IfOk result IsBuildableLine }
{
    match line {
        [] => Ok(Line::Nothing),
        [b'#', ..] => Ok(Line::Nothing),
        _ => {
            if !all_printable(line) {
                return Err(LineFault::Refused(Cause::BadByte));
            }
            let words = words_in(alloc, line)?;
            line_of_words_in(alloc, &words)
        }
    }
}

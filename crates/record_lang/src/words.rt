// The words of a line, and what each may stand for.
ghost use Rattle.std.specs.Prelude.{◌≡◌, map, IfOk};
ghost use Rattle.std.specs.Str.{all_ascii_digits};
ghost use Rattle.record_lang.specs.Pipelines.{IsCapacity};
ghost use Rattle.record_lang.specs.Words.{capacity_of, code_of, is_digits, mode_of, number_within, operand_of, operation_of, place_of, relation_of, words_of};

use crate::causes::Cause;
use crate::numbers::number_in;
use crate::pipelines::Relation;
use ho_base::{Fault, magnitude};
use std::alloc::{AllocError, Global};

// The most digits of a number in a line. Any number of 64 bits has so many at most.
const MAX_DIGITS: usize = 20;

// The last place of a field that a line can name. Records have fewer fields.
const LAST_PLACE: u64 = 99;

// The largest capacity of a bounded channel.
const MAX_CAPACITY: u64 = 65_536;

// The largest number of a fault.
const MAX_CODE: u64 = 65_535;

/// What a stage does, by the word that names it.
#[derive(Clone, Copy, Debug, PartialEq, Eq)]
pub(crate) enum Operation {
    Keep,
    Match,
    Add,
    Mul,
    Sum,
    Cat,
    Copy,
    Cut,
}

/// What a full joint does with one more record. It is .NET's `BoundedChannelFullMode`.
#[derive(Clone, Copy, Debug, PartialEq, Eq)]
pub(crate) enum FullMode {
    Wait,
    DropNewest,
    DropOldest,
    DropWrite,
}

// The words of a line.
pub(crate) fn words_in<'a>(alloc: Global, line: &'a [u8]) -> Result<Vec<&'a [u8]>, AllocError>
    ensures { IfOk result (λ v. map (λ w. w.now) v.items ≡ words_of line.now) }
{
    line.split(|b| *b == b' ')
        .filter(|word| !word.is_empty())
        .collect(alloc)
}

fn all_digits(word: &[u8]) -> bool
    ensures { result ≡ all_ascii_digits word.now }
{
    word.iter().all(|b| b.is_ascii_digit())
}

// Whether a word is 1 to 20 digits.
fn has_digits(word: &[u8]) -> bool
    ensures { result ≡ is_digits word.now }
{
    if word.is_empty() || word.len() > MAX_DIGITS {
        return false;
    }
    all_digits(word)
}

// The number of a word of digits.
fn ranged_number(word: &[u8], least: u64, most: u64) -> Result<u64, Cause>
    ensures { result ≡ number_within least most word.now }
{
    if !has_digits(word) {
        return Err(Cause::BadShape);
    }
    match magnitude(word) {
        Some(n) if least <= n && n <= most => Ok(n),
        _ => Err(Cause::BadNumber),
    }
}

// A field's place in its record.
#[tactic(auto, unfolding(crate::specs::Words::place_of))]
pub(crate) fn place_in(word: &[u8]) -> Result<u32, Cause>
    ensures { result ≡ place_of word.now }
{
    let place = ranged_number(word, 0, LAST_PLACE)?;
    Ok(place as u32)
}

// The capacity of a joint.
#[tactic(auto, unfolding(crate::specs::Words::capacity_of))]
pub(crate) fn capacity_in(word: &[u8]) -> Result<u32, Cause>
    ensures capacity { result ≡ capacity_of word.now }
    ensures buildable { IfOk result IsCapacity }
{
    let capacity = ranged_number(word, 1, MAX_CAPACITY)?;
    Ok(capacity as u32)
}

// The code of a guard.
#[tactic(auto, unfolding(crate::specs::Words::code_of))]
pub(crate) fn code_in(word: &[u8]) -> Result<Fault, Cause>
    ensures { result ≡ code_of word.now }
{
    let code = ranged_number(word, 0, MAX_CODE)?;
    Fault::new(code as u16).ok_or(Cause::BadNumber)
}

// The number with which a stage works.
#[tactic(auto, unfolding(crate::specs::Words::operand_of))]
pub(crate) fn operand_in(word: &[u8]) -> Result<i64, Cause>
    ensures { result ≡ operand_of word.now }
{
    let digits = match word {
        [b'-', digits @ ..] => digits,
        _ => word,
    };
    if !has_digits(digits) {
        return Err(Cause::BadShape);
    }
    number_in(word).ok_or(Cause::BadNumber)
}

#[tactic(auto, unfolding(crate::specs::Words::relation_of))]
pub(crate) fn relation_in(word: &[u8]) -> Result<Relation, Cause>
    ensures { result ≡ relation_of word.now }
{
    match word {
        b"lt" => Ok(Relation::Less),
        b"le" => Ok(Relation::AtMost),
        b"eq" => Ok(Relation::Equal),
        b"ge" => Ok(Relation::AtLeast),
        b"gt" => Ok(Relation::Greater),
        _ => Err(Cause::BadShape),
    }
}

#[tactic(auto, unfolding(crate::specs::Words::operation_of))]
pub(crate) fn operation_in(word: &[u8]) -> Result<Operation, Cause>
    ensures { result ≡ operation_of word.now }
{
    match word {
        b"keep" => Ok(Operation::Keep),
        b"match" => Ok(Operation::Match),
        b"add" => Ok(Operation::Add),
        b"mul" => Ok(Operation::Mul),
        b"sum" => Ok(Operation::Sum),
        b"cat" => Ok(Operation::Cat),
        b"copy" => Ok(Operation::Copy),
        b"cut" => Ok(Operation::Cut),
        _ => Err(Cause::BadShape),
    }
}

#[tactic(auto, unfolding(crate::specs::Words::mode_of))]
pub(crate) fn mode_in(word: &[u8]) -> Result<FullMode, Cause>
    ensures { result ≡ mode_of word.now }
{
    match word {
        b"wait" => Ok(FullMode::Wait),
        b"dropnewest" => Ok(FullMode::DropNewest),
        b"dropoldest" => Ok(FullMode::DropOldest),
        b"dropwrite" => Ok(FullMode::DropWrite),
        _ => Err(Cause::BadShape),
    }
}

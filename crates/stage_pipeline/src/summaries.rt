// The texts of runs on made records.
ghost use Rattle.std.specs.Prelude.{◌≡◌, option_map, sum_by, IfOk, ℕ};
ghost use Rattle.stage_pipeline.specs.Made.{IsMade, first_number, made_meaning, made_rows, made_summary, number_in};
ghost use Rattle.stage_pipeline.specs.Tellings.{HasRun};

use crate::runs::{Done, Ran};
use ho_base::{NoMemory, Text, magnitude};
use itoa::Buffer;
use record_lang::{Field, Outcome, counts_text};
use std::alloc::Global;

// The number that a field stands for, if there is one, or 0.
fn number_in(field: Option<&Field>) -> u64
    ensures { result ≡ number_in (option_map (λ f. f.now) field.entry) }
{
    match field {
        None => 0,
        Some(field) => magnitude(field.bytes()).unwrap_or(0),
    }
}

// The number in the first field of a result.
fn first_number(outcome: &Outcome) -> u64
    ensures { result ≡ first_number outcome.now }
{
    match outcome {
        Outcome::Result(record) => number_in(record.fields().first()),
        Outcome::Refused { .. } | Outcome::Filtered { .. } => 0,
    }
}

// The sum of them.
fn sum_of(outcomes: &[Outcome]) -> u128
    ensures { result ≡ sum_by first_number outcomes.now }
{
    let mut sum: u128 = 0;
    for outcome in outcomes {
        sum += u128::from(first_number(outcome));
    }
    sum
}

// The counts of outcomes, the sum of their first numbers, and the ending.
fn summary_text(alloc: Global, outcomes: &[Outcome]) -> Result<Text, NoMemory>
    ensures { IfOk result (λ t. t ≡ made_summary outcomes.now) }
{
    let mut buffer = Buffer::new();
    let sum = buffer.format(sum_of(outcomes));
    counts_text(alloc, outcomes, &[b"sum", sum.as_bytes()])
}

// What is told of a run on made records: the counts of its outcomes, and the sum over the results.
pub(crate) fn summary_of(alloc: Global, done: Done) -> Result<Ran, NoMemory>
    ensures { IfOk result (λ ran. (count seed workers : ℕ) → HasRun made_meaning (made_rows count seed) workers done
        → IsMade count seed workers ran) }
{
    let Done {
        joints,
        outcomes,
        dropped: _,
    } = done;
    let text = summary_text(alloc, &outcomes)?;
    Ok(Ran::new(text, joints))
}

#[cfg(test)]
mod tests;

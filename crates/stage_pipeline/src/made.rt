// Large inputs that are made from a number.
ghost use Rattle.std.specs.Prelude.{◌≡◌, ◌<◌, ◌≤◌, ◌^◌, decimal, IfOk};
ghost use Rattle.stage_pipeline.specs.Made.{made_meaning, made_row, made_rows, next_state};

use ho_base::NoMemory;
use itoa::Buffer;
use record_lang::{Field, Joint, Pipeline, Record, Records, Stages};
use std::alloc::Global;

// The joint of a stage that has no joint line.
const DEFAULT_JOINT: Joint = Joint::Wait(16);

// The state behind another.
fn next_state(state: u64) -> u64
    requires { state < 2 ^ 31 }
    ensures next { result ≡ next_state state }
    ensures range { result < 2 ^ 31 }
{
    (state * 1_103_515_245 + 12_345) % 2_147_483_648
}

// A field of a number.
fn decimal_field(alloc: Global, number: u64) -> Result<Field, NoMemory>
    ensures { IfOk result (λ field. field ≡ decimal number) }
{
    let mut buffer = Buffer::new();
    Field::new(alloc, buffer.format(number).as_bytes())
}

// The record of this number that is made in a state.
fn made_record(alloc: Global, number: u64, state: u64) -> Result<Record, NoMemory>
    ensures { IfOk result (λ made. made ≡ made_row number state) }
{
    let mut made = Record::new(alloc, number);
    made.push(decimal_field(alloc, state / 65_536 % 1_000)?)?;
    made.push(decimal_field(alloc, number)?)?;
    Ok(made)
}

/// Makes so many records, at most 200,000, from a seed below 2^31: record k has two fields, a number
/// below 1,000 that the generator gives, and k.
///
/// The generator's state begins as the seed. At each record it is multiplied by 1,103,515,245, 12,345 is
/// added, and the remainder by 2^31 is taken; its number is the state divided by 65,536, of which the
/// remainder by 1,000 is taken. Time and memory are linear in the count.
pub fn made_records(alloc: Global, count: u32, seed: u32) -> Result<Records, NoMemory>
    requires few { count ≤ 200000 }
    requires range { seed < 2 ^ 31 }
    ensures { IfOk result (λ records. records ≡ made_rows count seed) }
{
    let mut records = Records::new(alloc);
    let mut state = u64::from(seed);
    'records: for number in 0..u64::from(count) {
        state = next_state(state);
        records.push(made_record(alloc, number, state)?)?;
    }
    Ok(records)
}

// The pipeline that made records are for: it keeps those whose number is at least 500, adds 5 to it and
// multiplies it by 3. Each of its three joints waits, and has room for 16.
pub(crate) fn made_pipeline(alloc: Global) -> Result<Pipeline, NoMemory>
    ensures { IfOk result (λ pipeline. pipeline ≡ made_meaning) }
{
    let mut stages = Stages::new(alloc);
    stages.keep_at_least(0, 500)?;
    stages.add(0, 5)?;
    stages.mul(0, 3)?;
    let joints = Vec::from_array(alloc, [DEFAULT_JOINT, DEFAULT_JOINT, DEFAULT_JOINT])?;
    Ok(Pipeline::new(stages, joints))
}

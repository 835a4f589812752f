// The text of a run on one thread.
ghost use Rattle.std.specs.Prelude.{◌≡◌, ◌++◌, map, IfOk, None};
ghost use Rattle.std.specs.List.{position};
ghost use Rattle.text_rows.specs.Written.{HasWord, text_of_row};
ghost use Rattle.record_lang.specs.Guards.{fed_rows, meets, stop_code};
ghost use Rattle.record_lang.specs.Texts.{counts_line, counts_of, ending_line, run_text};

use crate::outcomes::outcome_of;
use crate::report_rows::{put_counts, put_ending, put_if_refused, put_if_result};
use crate::tallies::Tally;
use crate::{Outcome, Pipeline, Record, Records};
use csv::ByteRecord;
use ho_base::{Fault, NoMemory, Text};
use std::alloc::Global;
use text_rows::{finish_lines, new_lines, put_fields};

/// The records that are fed into a pipeline, and the guard's code if feeding stops.
#[derive(Drop)]
pub struct FedRows {
    /// The records before the first that meets the guard, or all.
    pub rows: Vec<Record>,
    pub code: Option<Fault>,
}

// The place of the first record that meets the guard.
fn stop_at(pipeline: &Pipeline, rows: &[Record]) -> Option<usize>
    ensures { result ≡ position (meets pipeline.now.guard) rows.now }
{
    rows.iter().position(|row| pipeline.meets_guard(row))
}

/// Takes the records that are fed: those before the first that meets the guard, or all. The others are
/// let go. Time is linear in the records that are looked at, and no memory is taken.
pub fn rows_to_feed(pipeline: &Pipeline, records: Records) -> FedRows
    ensures rows { result.rows.items ≡ fed_rows pipeline.now.guard records }
    ensures code { result.code ≡ stop_code pipeline.now.guard records }
{
    let mut rows = records.into_vec();
    match stop_at(pipeline, &rows) {
        None => FedRows { rows, code: None },
        Some(at) => {
            rows.truncate(at);
            FedRows {
                rows,
                code: pipeline.guard_code(),
            }
        }
    }
}

/// The text of a run on one thread: the rows of the results, then those of the refusals, each in
/// order of the records' numbers, then the counts and the ending. It is that of a [`Report`](crate::Report)
/// of the outcomes, whose rows are written as the outcomes come, so that none is kept. Time and memory are
/// linear in the records and the text.
pub fn one_thread_text(
    alloc: Global,
    pipeline: &Pipeline,
    records: Records,
) -> Result<Text, NoMemory>
    ensures { IfOk result (λ t. t ≡ run_text pipeline.now records) }
{
    let stages = pipeline.stage_list();
    let mut results = new_lines(alloc);
    let mut refusals = new_lines(alloc);
    let mut row = ByteRecord::new(alloc);
    let mut tally = Tally::none();
    let FedRows { rows, code } = rows_to_feed(pipeline, records);
    'records: for record in rows {
        let outcome = outcome_of(stages, record)?;
        put_if_result(&mut results, &mut row, &outcome)?;
        put_if_refused(&mut refusals, &mut row, &outcome)?;
        tally.count(&outcome);
    }
    put_counts(&mut refusals, &mut row, tally)?;
    put_ending(&mut refusals, &mut row, code)?;
    let mut text = finish_lines(results)?;
    let rest = finish_lines(refusals)?;
    text.extend_from_slice(&rest)?;
    Ok(Text::from_vec(text))
}

/// The row of the counts of these outcomes, a row of these fields, of which the first is not empty, and the
/// ending of a run that fed all records. Time and memory are linear in the outcomes and the text.
pub fn counts_text(alloc: Global, outcomes: &[Outcome], fields: &[&[u8]]) -> Result<Text, NoMemory>
    requires { HasWord (map (λ f. f.now) fields.now) }
    ensures { IfOk result (λ t. t ≡ counts_line (counts_of outcomes.now) ++ (text_of_row (map (λ f. f.now) fields.now) ++ ending_line None)) }
{
    let mut lines = new_lines(alloc);
    let mut row = ByteRecord::new(alloc);
    put_counts(&mut lines, &mut row, Tally::of(outcomes))?;
    put_fields(&mut lines, fields)?;
    put_ending(&mut lines, &mut row, None)?;
    Ok(Text::from_vec(finish_lines(lines)?))
}

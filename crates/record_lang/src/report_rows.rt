// Writes the rows of a report's text.
ghost use Rattle.std.specs.Prelude.{◌≡◌, [], ◌∷◌, ◌++◌, ◌+◌, ◌<◌, ◌^◌, List, ℕ, Some, None, codes, decimal, length, OnOk};
ghost use Rattle.std.specs.List.{flat_map};
ghost use Rattle.csv.specs.Records.{fields_of, partial_of};
ghost use Rattle.text_rows.specs.Written.{text_of_row};
ghost use Rattle.text_rows.specs.Writers.{IsReady, lines_written};
ghost use Rattle.record_lang.specs.Tallies.{counts_in};
ghost use Rattle.record_lang.specs.Texts.{counts_fields, counts_line, drop_counts_line, dropped_line, ending_line, refused_line, result_line};

use crate::reports::Dropped;
use crate::tallies::Tally;
use crate::{Outcome, Record};
use csv::{ByteRecord, Writer};
use ho_base::{Fault, NoMemory};
use text_rows::{push_bytes, push_number, put_row, start_row};

// Writes the row of a result.
fn put_result(
    lines: &mut Writer<Vec<u8>>,
    row: &mut ByteRecord,
    shown: &Record,
) -> Result<(), NoMemory>
    requires { IsReady lines.old }
    ensures ready { OnOk result (IsReady lines.new) }
    ensures lines { OnOk result ((text : List ℕ) → lines_written lines.old ≡ Some text
        → lines_written lines.new ≡ Some (text ++ text_of_row (codes "result" ∷ decimal shown.now.number ∷ shown.now.fields))) }
{
    start_row(row, b"result")?;
    push_number(row, shown.row_number())?;
    for field in shown.fields() {
        push_bytes(row, field.bytes())?;
    }
    put_row(lines, row)
}

// Writes the row of a refusal.
fn put_refused(
    lines: &mut Writer<Vec<u8>>,
    row: &mut ByteRecord,
    number: u64,
    stage: u32,
    cause: u8,
) -> Result<(), NoMemory>
    requires { IsReady lines.old }
    ensures ready { OnOk result (IsReady lines.new) }
    ensures lines { OnOk result ((text : List ℕ) → lines_written lines.old ≡ Some text
        → lines_written lines.new ≡ Some (text ++ text_of_row (codes "refused" ∷ decimal number ∷ decimal stage ∷ decimal cause ∷ []))) }
{
    start_row(row, b"refused")?;
    push_number(row, number)?;
    push_number(row, u64::from(stage))?;
    push_number(row, u64::from(cause))?;
    put_row(lines, row)
}

// Writes the row of an outcome that is a result.
pub(crate) fn put_if_result(
    lines: &mut Writer<Vec<u8>>,
    row: &mut ByteRecord,
    outcome: &Outcome,
) -> Result<(), NoMemory>
    requires { IsReady lines.old }
    ensures ready { OnOk result (IsReady lines.new) }
    ensures lines { OnOk result ((text : List ℕ) → lines_written lines.old ≡ Some text → lines_written lines.new ≡ Some (text ++ result_line outcome.now)) }
{
    match outcome {
        Outcome::Result(record) => put_result(lines, row, record),
        Outcome::Refused { .. } => Ok(()),
        Outcome::Filtered { .. } => Ok(()),
    }
}

// Writes the row of an outcome that is a refusal.
pub(crate) fn put_if_refused(
    lines: &mut Writer<Vec<u8>>,
    row: &mut ByteRecord,
    outcome: &Outcome,
) -> Result<(), NoMemory>
    requires { IsReady lines.old }
    ensures ready { OnOk result (IsReady lines.new) }
    ensures lines { OnOk result ((text : List ℕ) → lines_written lines.old ≡ Some text → lines_written lines.new ≡ Some (text ++ refused_line outcome.now)) }
{
    match outcome {
        Outcome::Result(_) => Ok(()),
        Outcome::Refused {
            number,
            stage,
            cause,
        } => put_refused(lines, row, *number, *stage, *cause),
        Outcome::Filtered { .. } => Ok(()),
    }
}

// Writes the row of a dropped record.
fn put_dropped(
    lines: &mut Writer<Vec<u8>>,
    row: &mut ByteRecord,
    dropped: &Dropped,
) -> Result<(), NoMemory>
    requires { IsReady lines.old }
    ensures ready { OnOk result (IsReady lines.new) }
    ensures lines { OnOk result ((text : List ℕ) → lines_written lines.old ≡ Some text → lines_written lines.new ≡ Some (text ++ dropped_line dropped.now)) }
{
    start_row(row, b"dropped")?;
    push_number(row, dropped.number)?;
    push_number(row, u64::from(dropped.joint))?;
    put_row(lines, row)
}

// Writes the rows of the results.
pub(crate) fn put_results(
    lines: &mut Writer<Vec<u8>>,
    row: &mut ByteRecord,
    outcomes: &[Outcome],
) -> Result<(), NoMemory>
    requires { IsReady lines.old }
    ensures ready { OnOk result (IsReady lines.new) }
    ensures lines { OnOk result ((text : List ℕ) → lines_written lines.old ≡ Some text → lines_written lines.new ≡ Some (text ++ flat_map result_line outcomes.now)) }
{
    for outcome in outcomes {
        put_if_result(lines, row, outcome)?;
    }
    Ok(())
}

// Writes the rows of the refusals.
pub(crate) fn put_refusals(
    lines: &mut Writer<Vec<u8>>,
    row: &mut ByteRecord,
    outcomes: &[Outcome],
) -> Result<(), NoMemory>
    requires { IsReady lines.old }
    ensures ready { OnOk result (IsReady lines.new) }
    ensures lines { OnOk result ((text : List ℕ) → lines_written lines.old ≡ Some text → lines_written lines.new ≡ Some (text ++ flat_map refused_line outcomes.now)) }
{
    for outcome in outcomes {
        put_if_refused(lines, row, outcome)?;
    }
    Ok(())
}

// Writes the rows of the dropped records.
fn put_drops(
    lines: &mut Writer<Vec<u8>>,
    row: &mut ByteRecord,
    dropped: &[Dropped],
) -> Result<(), NoMemory>
    requires { IsReady lines.old }
    ensures ready { OnOk result (IsReady lines.new) }
    ensures lines { OnOk result ((text : List ℕ) → lines_written lines.old ≡ Some text → lines_written lines.new ≡ Some (text ++ flat_map dropped_line dropped.now)) }
{
    for one in dropped {
        put_dropped(lines, row, one)?;
    }
    Ok(())
}

// Begins the row of the counts.
fn start_counts(row: &mut ByteRecord, fed: u64, tally: Tally) -> Result<(), NoMemory>
    ensures fields { OnOk result (fields_of row.new ≡ counts_fields (record (counts_in tally) { fed = fed })) }
    ensures partial { OnOk result (partial_of row.new ≡ []) }
{
    start_row(row, b"counts")?;
    push_number(row, fed)?;
    push_number(row, tally.results)?;
    push_number(row, tally.refused)?;
    push_number(row, tally.filtered)
}

// Writes the row of the counts.
pub(crate) fn put_counts(
    lines: &mut Writer<Vec<u8>>,
    row: &mut ByteRecord,
    tally: Tally,
) -> Result<(), NoMemory>
    requires { IsReady lines.old }
    ensures ready { OnOk result (IsReady lines.new) }
    ensures lines { OnOk result ((text : List ℕ) → lines_written lines.old ≡ Some text → lines_written lines.new ≡ Some (text ++ counts_line (counts_in tally))) }
{
    start_counts(row, tally.fed, tally)?;
    put_row(lines, row)
}

// Writes the row of the counts where joints may drop. Dropped records were fed, too.
fn put_drop_counts(
    lines: &mut Writer<Vec<u8>>,
    row: &mut ByteRecord,
    tally: Tally,
    dropped: u64,
) -> Result<(), NoMemory>
    requires ready { IsReady lines.old }
    requires room { tally.fed + dropped < 2 ^ 64 }
    ensures ready { OnOk result (IsReady lines.new) }
    ensures lines { OnOk result ((text : List ℕ) → lines_written lines.old ≡ Some text → lines_written lines.new ≡ Some (text ++ drop_counts_line (counts_in tally) dropped)) }
{
    start_counts(row, tally.fed + dropped, tally)?;
    push_number(row, dropped)?;
    put_row(lines, row)
}

// Writes the rows of the dropped records, and that of the counts.
pub(crate) fn put_drops_and_counts(
    lines: &mut Writer<Vec<u8>>,
    row: &mut ByteRecord,
    dropped: &[Dropped],
    tally: Tally,
) -> Result<(), NoMemory>
    requires ready { IsReady lines.old }
    requires room { tally.fed + length dropped.now < 2 ^ 64 }
    ensures ready { OnOk result (IsReady lines.new) }
    ensures lines { OnOk result ((text : List ℕ) → lines_written lines.old ≡ Some text
        → lines_written lines.new ≡ Some (text ++ (flat_map dropped_line dropped.now ++ drop_counts_line (counts_in tally) (length dropped.now)))) }
{
    put_drops(lines, row, dropped)?;
    put_drop_counts(lines, row, tally, dropped.len() as u64)
}

// Writes the last row of a run that fed all records.
fn put_done(lines: &mut Writer<Vec<u8>>, row: &mut ByteRecord) -> Result<(), NoMemory>
    requires { IsReady lines.old }
    ensures ready { OnOk result (IsReady lines.new) }
    ensures lines { OnOk result ((text : List ℕ) → lines_written lines.old ≡ Some text → lines_written lines.new ≡ Some (text ++ ending_line None)) }
{
    start_row(row, b"ending")?;
    push_bytes(row, b"done")?;
    put_row(lines, row)
}

// Writes the last row of a run that the guard stopped.
fn put_stopped(
    lines: &mut Writer<Vec<u8>>,
    row: &mut ByteRecord,
    code: Fault,
) -> Result<(), NoMemory>
    requires { IsReady lines.old }
    ensures ready { OnOk result (IsReady lines.new) }
    ensures lines { OnOk result ((text : List ℕ) → lines_written lines.old ≡ Some text → lines_written lines.new ≡ Some (text ++ ending_line (Some code))) }
{
    start_row(row, b"ending")?;
    push_bytes(row, b"guard")?;
    push_number(row, u64::from(code.code()))?;
    put_row(lines, row)
}

// Writes the last row.
pub(crate) fn put_ending(
    lines: &mut Writer<Vec<u8>>,
    row: &mut ByteRecord,
    code: Option<Fault>,
) -> Result<(), NoMemory>
    requires { IsReady lines.old }
    ensures ready { OnOk result (IsReady lines.new) }
    ensures lines { OnOk result ((text : List ℕ) → lines_written lines.old ≡ Some text → lines_written lines.new ≡ Some (text ++ ending_line code)) }
{
    match code {
        None => put_done(lines, row),
        Some(code) => put_stopped(lines, row, code),
    }
}

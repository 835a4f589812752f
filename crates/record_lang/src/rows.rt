// Reads the rows of a record file.
ghost use Rattle.std.specs.Prelude.{◌≡◌, ◌<◌, ◌∷◌, ◌++◌, [], length, nat_lt, IfOk};
ghost use Rattle.std.specs.List.{sum_by};
ghost use Rattle.csv.specs.Records.{fields_of};
ghost use Rattle.text_rows.specs.Rows.{rows_of};
ghost use Rattle.record_lang.specs.Kept.{TakesRow};
ghost use Rattle.record_lang.specs.Rows.{TellsRows, fields_in, row_cause, row_cause_number, width_of};

use crate::{Field, Record, Records};
use csv::ByteRecord;
use ho_base::{NoMemory, Unpaid};
use std::alloc::Global;
use text_rows::{field_of, new_reader, next_row};

/// The most rows of a record file.
const MAX_ROWS: usize = 200_000;

/// The most fields of a row.
const MAX_FIELDS: usize = 64;

/// The most bytes of all fields of a record together.
const MAX_BYTES: usize = 4096;

/// Why a record file is refused. Rows are counted from 0.
#[derive(Clone, Copy, Debug, PartialEq, Eq)]
pub enum InputFault {
    /// The first refused row, with the first of these causes that it has: 1 another number of
    /// fields than row 0, 2 more than 64 fields, 3 more than 4,096 bytes in all fields.
    Refused { row: u64, cause: u8 },
    /// There are more than 200,000 rows, and none of the first 200,000 is refused.
    TooManyRows,
    NoMemory,
}

impl From<NoMemory> for InputFault {
    ghost use Rattle.record_lang.specs.declared.rows.InputFault.{InputFault};

    ghost from_gives = { λ _ fault. fault ≡ InputFault.NoMemory };

    fn from(_: NoMemory) -> Self {
        InputFault::NoMemory
    }
}

impl<C: Drop> From<Unpaid<C>> for InputFault {
    ghost use Rattle.record_lang.specs.declared.rows.InputFault.{InputFault};

    ghost from_gives = { λ _ fault. fault ≡ InputFault.NoMemory };

    fn from(_: Unpaid<C>) -> Self {
        InputFault::NoMemory
    }
}

// Why a row is refused.
#[derive(Clone, Copy)]
pub(crate) enum RowCause {
    FieldCount,
    TooManyFields,
    TooLong,
}

impl RowCause {
    fn number(self) -> u8
        ensures { result ≡ row_cause_number self }
    {
        match self {
            RowCause::FieldCount => 1,
            RowCause::TooManyFields => 2,
            RowCause::TooLong => 3,
        }
    }
}

// Whether the fields have more bytes than a record may.
pub(crate) fn is_too_long(fields: &[Field]) -> bool
    ensures { result ≡ nat_lt 4096 (sum_by length fields.now) }
{
    let mut total = 0;
    for field in fields {
        let more = field.bytes().len();
        if more > MAX_BYTES - total {
            return true;
        }
        total += more;
    }
    false
}

// Why a row is refused, where row 0 has this many fields.
fn cause_of(fields: &[Field], width: usize) -> Option<RowCause>
    ensures { result ≡ row_cause width fields.now }
{
    if fields.len() != width {
        return Some(RowCause::FieldCount);
    }
    if fields.len() > MAX_FIELDS {
        return Some(RowCause::TooManyFields);
    }
    if is_too_long(fields) {
        return Some(RowCause::TooLong);
    }
    None
}

// A record of a row's fields.
fn record_of(alloc: Global, number: u64, row: &ByteRecord) -> Result<Record, NoMemory>
    ensures { IfOk result (λ r. (r.number ≡ number) × (r.fields ≡ fields_of row.now)) }
{
    let mut made = Record::with_room(alloc, number, row.len())?;
    for i in 0..row.len() {
        let field = Field::new(alloc, field_of(row, i))?;
        made.push(field)?;
    }
    Ok(made)
}

// How many fields each row has to have: as many as row 0, which may be this one.
fn width_with(records: &Records, row: &ByteRecord) -> usize
    ensures { result ≡ width_of (fields_in records.now ++ fields_of row.now ∷ []) }
{
    match records.as_slice() {
        [] => row.len(),
        [first, ..] => first.fields().len(),
    }
}

// Judges the next row, and keeps it.
fn take_row(alloc: Global, records: &mut Records, row: &ByteRecord) -> Result<(), InputFault>
    requires { length records.old < 200000 }
    ensures { TakesRow records.old (fields_of row.now) records.new result }
{
    let number = records.as_slice().len() as u64;
    let width = width_with(records, row);
    let record = record_of(alloc, number, row)?;
    if let Some(cause) = cause_of(record.fields(), width) {
        return Err(InputFault::Refused {
            row: number,
            cause: cause.number(),
        });
    }
    records.push(record)?;
    Ok(())
}

/// The rows of a record file, or its first refused row.
///
/// The rows are those that `csv` reads by its defaults, without a header: a byte order mark at the
/// head is passed over, and so are empty lines. Row 200,000, if there is one, is too many before
/// its causes are looked at. Time and memory are linear in the bytes.
pub fn read_records(alloc: Global, bytes: &[u8]) -> Result<Records, InputFault>
    ensures { TellsRows (rows_of bytes.now) result }
{
    let mut reader = new_reader(alloc, bytes);
    let mut row = ByteRecord::new(alloc);
    let mut records = Records::new(alloc);
    'rows: while next_row(&mut reader, &mut row)? {
        if records.as_slice().len() == MAX_ROWS {
            return Err(InputFault::TooManyRows);
        }
        take_row(alloc, &mut records, &row)?;
    }
    Ok(records)
}

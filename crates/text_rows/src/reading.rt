// Reads the rows of a text.
ghost use Rattle.std.specs.Prelude.{◌≡◌, ◌<◌, [], ℕ, List, length, slice_index_or, IfOk};
ghost use Rattle.csv.specs.Records.{fields_of};
ghost use Rattle.text_rows.specs.Readers.{GivesRow, HasRead};
ghost use Rattle.text_rows.specs.RoundTrip.{TextsTellRows};

use csv::{ByteRecord, Reader, ReaderBuilder};
use ho_base::NoMemory;
use std::alloc::Global;

/// A reader that stands before the first row of a text. The rows are those that `csv` reads by its
/// defaults, without a header and of any length: a byte order mark at the head is passed over, and
/// so are empty lines.
pub fn new_reader(alloc: Global, bytes: &[u8]) -> Reader<&[u8]>
    ensures { HasRead bytes.now [] result }
{
    ReaderBuilder::new()
        .has_headers(false)
        .flexible(true)
        .from_reader(alloc, bytes)
}

/// Reads the next row, if there is one, in time linear in its bytes. With rows of any length
/// allowed, and over a slice, only memory can be wanting.
pub fn next_row(reader: &mut Reader<&[u8]>, row: &mut ByteRecord) -> Result<bool, NoMemory>
    ensures { IfOk result (λ found. (bytes : List ℕ) → (rows : List (List (List ℕ))) → HasRead bytes rows reader.old → GivesRow bytes rows found (fields_of row.new) reader.new) }
{
    let Ok(found) = reader.read_byte_record(row) else {
        return Err(NoMemory);
    };
    Ok(found)
}

/// A field of a row. Fields are counted from 0.
pub fn field_of(row: &ByteRecord, i: usize) -> &[u8]
    requires { i < length (fields_of row.now) }
    ensures { result.now ≡ slice_index_or (fields_of row.now) i [] }
{
    row.get(i).unwrap()
}

/// A law of rows: a text of rows, each of which begins with a field that is not empty, is read back
/// as these rows, if it does not begin with a byte order mark. Does nothing.
pub fn texts_tell_rows()
    ensures { TextsTellRows }
{}

// Writes the rows of a text. Each begins with a word.
ghost use Rattle.std.specs.Prelude.{map, ◌≡◌, ◌<◌, [], ◌∷◌, ◌++◌, List, ℕ, Some, decimal, length, OnOk, IfOk};
ghost use Rattle.csv.specs.Records.{fields_of, partial_of};
ghost use Rattle.text_rows.specs.Written.{HasWord, text_of_row};
ghost use Rattle.text_rows.specs.Writers.{IsReady, lines_written};

use csv::{ByteRecord, Writer, WriterBuilder};
use ho_base::{NoMemory, Text};
use itoa::Buffer;
use std::alloc::Global;

/// A writer of rows into memory. It has written nothing yet.
pub fn new_lines(alloc: Global) -> Writer<Vec<u8>>
    ensures ready { IsReady result }
    ensures lines { lines_written result ≡ Some [] }
{
    WriterBuilder::new()
        .flexible(true)
        .from_writer(Vec::new(alloc))
}

/// Ends the writing, and gives the text.
pub fn finish_lines(lines: Writer<Vec<u8>>) -> Result<Vec<u8>, NoMemory>
    ensures { IfOk result (λ v. (text : List ℕ) → lines_written lines ≡ Some text → v.items ≡ text) }
{
    match lines.into_inner() {
        Ok(bytes) => Ok(bytes),
        Err(_) => Err(NoMemory),
    }
}

/// Begins a row with a word. What the row held is gone.
pub fn start_row(row: &mut ByteRecord, word: &[u8]) -> Result<(), NoMemory>
    ensures fields { OnOk result (fields_of row.new ≡ word.now ∷ []) }
    ensures partial { OnOk result (partial_of row.new ≡ []) }
{
    row.clear();
    row.push_field(word)?;
    Ok(())
}

/// Adds a field to a row.
pub fn push_bytes(row: &mut ByteRecord, bytes: &[u8]) -> Result<(), NoMemory>
    requires { partial_of row.old ≡ [] }
    ensures fields { OnOk result (fields_of row.new ≡ fields_of row.old ++ bytes.now ∷ []) }
    ensures partial { OnOk result (partial_of row.new ≡ []) }
{
    row.push_field(bytes)?;
    Ok(())
}

/// Adds a number to a row, in decimal.
pub fn push_number(row: &mut ByteRecord, number: u64) -> Result<(), NoMemory>
    requires { partial_of row.old ≡ [] }
    ensures fields { OnOk result (fields_of row.new ≡ fields_of row.old ++ decimal number ∷ []) }
    ensures partial { OnOk result (partial_of row.new ≡ []) }
{
    let mut buffer = Buffer::new();
    push_bytes(row, buffer.format(number).as_bytes())
}

/// Writes a row behind those that are written, in time linear in its bytes.
pub fn put_row(lines: &mut Writer<Vec<u8>>, row: &ByteRecord) -> Result<(), NoMemory>
    requires ready { IsReady lines.old }
    requires word { HasWord (fields_of row.now) }
    ensures ready { OnOk result (IsReady lines.new) }
    ensures lines { OnOk result ((text : List ℕ) → lines_written lines.old ≡ Some text → lines_written lines.new ≡ Some (text ++ text_of_row (fields_of row.now))) }
{
    let Ok(()) = lines.write_byte_record(row) else {
        return Err(NoMemory);
    };
    Ok(())
}

/// Writes a row of these fields behind those that are written.
pub fn put_fields(lines: &mut Writer<Vec<u8>>, fields: &[&[u8]]) -> Result<(), NoMemory>
    requires ready { IsReady lines.old }
    requires word { HasWord (map (λ f. f.now) fields.now) }
    ensures ready { OnOk result (IsReady lines.new) }
    ensures lines { OnOk result ((text : List ℕ) → lines_written lines.old ≡ Some text → lines_written lines.new ≡ Some (text ++ text_of_row (map (λ f. f.now) fields.now))) }
{
    let Ok(()) = lines.write_fields(fields) else {
        return Err(NoMemory);
    };
    Ok(())
}

/// The text of one row of output: the fields joined by commas, and LF. A field is put in quotes
/// exactly where it holds a comma, a quote, CR or LF, and a quote in it is doubled. It is the row
/// that `csv` writes by its defaults. The first field is not empty. It takes a writer of its own:
/// for many rows make one, and give it to `put_fields`.
pub fn row_line(alloc: Global, fields: &[&[u8]]) -> Result<Text, NoMemory>
    requires { HasWord (map (λ f. f.now) fields.now) }
    ensures { IfOk result (λ t. t ≡ text_of_row (map (λ f. f.now) fields.now)) }
{
    let mut lines = new_lines(alloc);
    put_fields(&mut lines, fields)?;
    Ok(Text::from_vec(finish_lines(lines)?))
}

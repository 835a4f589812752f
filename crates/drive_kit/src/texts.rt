// Writes the text of a history.
ghost use Rattle.std.specs.Prelude.{◌≡◌, ◌++◌, [], List, ℕ, Some, IfOk, OnOk};
ghost use Rattle.csv.specs.Records.{fields_of, partial_of};
ghost use Rattle.text_rows.specs.Writers.{IsReady, lines_written};
ghost use Rattle.text_rows.specs.Written.{text_of_row};
ghost use Rattle.drive_kit.specs.Histories.{row_of_entry, text_of};

use crate::calls::push_call;
use crate::replies::push_reply;
use csv::{ByteRecord, Writer};
use ho_base::{NoMemory, Text};
use ho_model::{Entry, History};
use std::alloc::Global;
use text_rows::{finish_lines, new_lines, push_number, put_row};

// Puts the entry of this number into a row. What the row held is gone.
fn fill_row(row: &mut ByteRecord, number: u64, entry: &Entry) -> Result<(), NoMemory>
    ensures { OnOk result (fields_of row.new ≡ row_of_entry number entry.now) }
{
    row.clear();
    push_number(row, number)?;
    push_number(row, u64::from(entry.caller))?;
    push_call(row, entry.call)?;
    push_reply(row, &entry.reply)
}

// Writes the row of an entry behind those that are written.
fn put_entry(
    lines: &mut Writer<Vec<u8>>,
    row: &mut ByteRecord,
    number: u64,
    entry: &Entry,
) -> Result<(), NoMemory>
    requires { IsReady lines.old }
    ensures ready { OnOk result (IsReady lines.new) }
    ensures lines { OnOk result ((text : List ℕ) → lines_written lines.old ≡ Some text → lines_written lines.new ≡ Some (text ++ text_of_row (row_of_entry number entry.now))) }
{
    fill_row(row, number, entry)?;
    put_row(lines, row)
}

/// The text of a history: a row for each entry, of its number, its caller, its call, the argument or
/// nothing, and the fields of its reply. `docs/FORMATS.md` tells the words. Time and memory are
/// linear in the text.
pub fn history_text(alloc: Global, history: &History) -> Result<Text, NoMemory>
    ensures { IfOk result (λ text. text ≡ text_of history.now) }
{
    let mut lines = new_lines(alloc);
    let mut row = ByteRecord::new(alloc);
    let entries = history.entries();
    for number in 0..entries.len() {
        put_entry(&mut lines, &mut row, number as u64, &entries[number])?;
    }
    Ok(Text::from_vec(finish_lines(lines)?))
}

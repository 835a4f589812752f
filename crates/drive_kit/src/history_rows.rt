// Reads the text of a history.
ghost use Rattle.std.specs.Prelude.{◌≡◌, [], map};
ghost use Rattle.csv.specs.Records.{fields_of};
ghost use Rattle.drive_kit.specs.Causes.{Takes, Tells, TellsText, and_then};
ghost use Rattle.drive_kit.specs.Calls.{called, kind_of, name_for};
ghost use Rattle.drive_kit.specs.Histories.{entry_of_row, history_in, holds, with_entry};
ghost use Rattle.drive_kit.specs.Numbers.{number_in};

use crate::calls::{Kind, call_in, name_in};
use crate::causes::{Cause, RowFault, ScriptFault};
use crate::fields::fields_in;
use crate::numbers::caller_from;
use crate::replies::reply_to_in;
use csv::ByteRecord;
use ho_base::word_number;
use ho_model::{Call, Entry, History, Object};
use std::alloc::Global;
use text_rows::{new_reader, next_row};

/// The most rows.
const MAX_ROWS: usize = 20_000;

// Whether a field holds this number.
fn is_number(field: &[u8], number: u64) -> bool
    ensures { result ≡ holds number (number_in field.now) }
{
    match word_number(field) {
        Some(n) => n == number,
        None => false,
    }
}

// The call of these two fields.
fn called_in(kind: Kind, word: &[u8], argument: &[u8]) -> Result<Call, Cause>
    ensures { result ≡ and_then (name_for kind word.now) (λ name. called name argument.now) }
{
    let name = name_in(kind, word)?;
    call_in(name, argument)
}

// What the row of this number says.
#[tactic(auto, unfolding(crate::specs::Histories::entry_of_row))]
fn entry_in(alloc: Global, kind: Kind, number: u64, fields: &[&[u8]]) -> Result<Entry, RowFault>
    ensures { Tells (entry_of_row kind number (map (λ f. f.now) fields.now)) result }
{
    let [at, caller, word, argument, said, more @ ..] = fields else {
        return Err(RowFault::Refused(Cause::BadShape));
    };
    if !is_number(at, number) {
        return Err(RowFault::Refused(Cause::BadShape));
    }
    let Some(caller) = caller_from(caller) else {
        return Err(RowFault::Refused(Cause::BadCaller));
    };
    let call = called_in(kind, word, argument)?;
    let reply = reply_to_in(alloc, kind, call, said, more)?;
    Ok(Entry {
        caller,
        call,
        reply,
    })
}

// Judges the next row, and keeps its entry.
#[tactic(auto, unfolding(crate::specs::Histories::with_entry))]
fn take_entry(
    alloc: Global,
    object: &Object,
    entries: &mut Vec<Entry>,
    row: &ByteRecord,
) -> Result<(), ScriptFault>
    ensures { Takes (with_entry (kind_of object.now) entries.old.items (fields_of row.now)) entries.new.items result }
{
    if entries.len() == MAX_ROWS {
        return Err(ScriptFault::TooManyRows);
    }
    let number = entries.len() as u64;
    let fields = fields_in(alloc, row)?;
    let entry = match entry_in(alloc, Kind::of(object), number, &fields) {
        Ok(entry) => entry,
        Err(fault) => return Err(fault.at(number)),
    };
    entries.push(entry)?;
    Ok(())
}

/// Reads the text of a history of an object: its entries, or its first refused row with its first
/// cause.
///
/// The rows are those that `csv` reads by its defaults, without a header: a byte order mark at the
/// head is passed over, and so are empty lines. Row 20,000, if there is one, is too many before its
/// causes are looked at. Time and memory are linear in the bytes.
pub fn parse_history(alloc: Global, object: &Object, bytes: &[u8]) -> Result<History, ScriptFault>
    ensures { TellsText (history_in object.now bytes.now) result }
{
    let mut reader = new_reader(alloc, bytes);
    let mut row = ByteRecord::new(alloc);
    let mut entries = Vec::new(alloc);
    'rows: while next_row(&mut reader, &mut row)? {
        take_entry(alloc, object, &mut entries, &row)?;
    }
    Ok(History::from_vec(entries))
}

// Reads the text of a script.
ghost use Rattle.std.specs.Prelude.{◌≡◌, ◌∷◌, [], List, ℕ};
ghost use Rattle.csv.specs.Records.{fields_of};
ghost use Rattle.drive_kit.specs.Causes.{TellsText, at_row, read_from};
ghost use Rattle.drive_kit.specs.Scripts.{begun, script_of, with_row};

use crate::causes::{Cause, RowFault, ScriptFault};
use crate::fields::fields_in;
use crate::objects::object_in;
use crate::scripts::Script;
use csv::ByteRecord;
use std::alloc::Global;
use text_rows::{new_reader, next_row};

// The script of the object that row 0 names, without calls.
fn begun_script(alloc: Global, row: &ByteRecord) -> Result<Script, ScriptFault>
    ensures { TellsText (at_row 0 (begun (fields_of row.now))) result }
{
    let fields = fields_in(alloc, row)?;
    let Some(object) = object_in(&fields) else {
        return Err(RowFault::Refused(Cause::BadObject).at(0));
    };
    Ok(Script::new(alloc, object))
}

// The script with one row more.
fn longer_script(alloc: Global, script: Script, row: &ByteRecord) -> Result<Script, ScriptFault>
    ensures { TellsText (with_row script (fields_of row.now)) result }
{
    let fields = fields_in(alloc, row)?;
    script.with_row(&fields)
}

/// Reads the text of a script: its meaning, or its first refused row with its first cause.
///
/// The rows are those that `csv` reads by its defaults, without a header: a byte order mark at the
/// head is passed over, and so are empty lines. Row 0 is the object, and row 20,001, if there is one,
/// is too many before its causes are looked at. Time and memory are linear in the bytes.
pub fn parse_script(alloc: Global, bytes: &[u8]) -> Result<Script, ScriptFault>
    ensures { TellsText (script_of bytes.now) result }
{
    let mut reader = new_reader(alloc, bytes);
    let mut row = ByteRecord::new(alloc);
    if !next_row(&mut reader, &mut row)? {
        return Err(RowFault::Refused(Cause::NoObject).at(0));
    }
    let mut script = begun_script(alloc, &row)?;
    'rows: while next_row(&mut reader, &mut row)? {
        script = longer_script(alloc, script, &row)?;
    }
    Ok(script)
}

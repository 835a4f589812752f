// Records: a number, and fields of bytes.
ghost use Rattle.std.specs.Prelude.{◌≡◌, [], ◌∷◌, ◌++◌, ◌<◌, length, slice_set, OnOk, OnErr, IfOk, IfErr, option_map, slice_get};
ghost use Rattle.std.specs.List.{remove};
ghost use Rattle.record_lang.specs.Records.{AreNumbered};

use crate::Field;
use ho_base::{Item, NoMemory, Unpaid};
use std::alloc::Global;
use std::marker::Model;

/// A row of a record file, with its number in the file. It keeps the allocator that it was made
/// with, and takes the memory for new fields from it.
#[derive(Drop)]
pub struct Record {
    number: u64,
    fields: Vec<Field>,
}

impl Model for Record {
    ghost use Rattle.record_lang.specs.Records.{Row};

    ghost Value = { Row };

    ghost view = { λ r. record { number = r.number; fields = r.fields.items } };
}

impl Record {
    /// A record of this number without fields. Takes no memory.
    pub fn new(alloc: Global, number: u64) -> Record
        ensures number { result.number ≡ number }
        ensures fields { result.fields ≡ [] }
    {
        Record {
            number,
            fields: Vec::new(alloc),
        }
    }

    // The same, with memory for this many fields.
    pub(crate) fn with_room(alloc: Global, number: u64, fields: usize) -> Result<Record, NoMemory>
        ensures { IfOk result (λ r. r ≡ record { number = number; fields = [] }) }
    {
        let fields = Vec::with_capacity(alloc, fields)?;
        Ok(Record { number, fields })
    }

    /// Appends a field. Without memory for it the record stays as it was.
    pub fn push(&mut self, field: Field) -> Result<(), Unpaid<Field>>
        ensures number { self.new.number ≡ self.old.number }
        ensures pushed { OnOk result (self.new.fields ≡ self.old.fields ++ field ∷ []) }
        ensures unpaid { OnErr result (self.new.fields ≡ self.old.fields) }
        ensures back { IfErr result (λ e. e.back ≡ field) }
    {
        match self.fields.push(field) {
            Ok(()) => Ok(()),
            Err(failed) => Err(Unpaid { back: failed.value }),
        }
    }

    pub fn fields(&self) -> &[Field]
        ensures { result.now ≡ self.now.fields }
    {
        &self.fields
    }

    // The field at a place, if it is below the count of fields.
    pub(crate) fn field(&self, at: u32) -> Option<&Field>
        ensures { option_map (λ f. f.now) result ≡ slice_get self.now.fields at }
    {
        self.fields.get(at as usize)
    }

    // Its number in the file.
    pub(crate) fn row_number(&self) -> u64
        ensures { result ≡ self.now.number }
    {
        self.number
    }

    pub(crate) fn allocator(&self) -> Global {
        *self.fields.allocator()
    }

    // Puts another field in the place of one.
    pub(crate) fn replace(&mut self, at: u32, field: Field)
        requires { at < length self.old.fields }
        ensures number { self.new.number ≡ self.old.number }
        ensures fields { self.new.fields ≡ slice_set self.old.fields at field }
    {
        self.fields[at as usize] = field;
    }

    // Removes a field, and moves those after it up.
    pub(crate) fn remove(&mut self, at: u32)
        requires { at < length self.old.fields }
        ensures number { self.new.number ≡ self.old.number }
        ensures fields { self.new.fields ≡ remove self.old.fields at }
    {
        self.fields.remove(at as usize);
    }
}

/// A record's mark is its number, then the count of its fields, then for each field its length and
/// its bytes. Its priority is its number.
impl Item for Record {
    ghost use Rattle.ho_base.specs.Marks.{number_of};
    ghost use Rattle.record_lang.specs.Marks.{mark_of};

    ghost mark = { mark_of };

    ghost priority_of = { number_of };

    fn number(&self) -> u64 {
        self.number
    }

    fn priority(&self) -> u64 {
        self.number
    }
}

/// The rows of a record file, in order: row k has the number k.
#[derive(Drop)]
pub struct Records {
    rows: Vec<Record>,
}

impl Model for Records {
    ghost use Rattle.std.specs.Prelude.{List};
    ghost use Rattle.record_lang.specs.Records.{Row, AreNumbered};

    ghost Value = { List Row };

    ghost view = { λ r. r.rows.items };

    ghost invariant = { λ r. AreNumbered r.rows.items };
}

impl Records {
    /// No rows yet. Takes no memory.
    pub fn new(alloc: Global) -> Records
        ensures { result ≡ [] }
    {
        Records {
            rows: Vec::new(alloc),
        }
    }

    /// Appends a row, whose number is the count of rows before it. Without memory for it the rows
    /// stay as they were.
    pub fn push(&mut self, row: Record) -> Result<(), Unpaid<Record>>
        requires { row.number ≡ length self.old }
        ensures pushed { OnOk result (self.new ≡ self.old ++ row ∷ []) }
        ensures unpaid { OnErr result (self.new ≡ self.old) }
        ensures back { IfErr result (λ e. e.back ≡ row) }
    {
        match self.rows.push(row) {
            Ok(()) => Ok(()),
            Err(failed) => Err(Unpaid { back: failed.value }),
        }
    }

    pub fn as_slice(&self) -> &[Record]
        ensures rows { result.now ≡ self.now }
        ensures numbered { AreNumbered result.now }
    {
        &self.rows
    }

    /// The rows themselves. Takes no memory.
    pub fn into_vec(self) -> Vec<Record>
        ensures rows { result.items ≡ self }
        ensures numbered { AreNumbered result.items }
    {
        self.rows
    }
}

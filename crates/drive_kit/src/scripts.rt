// Scripts: an object, and the calls to be made on it.
ghost use Rattle.std.specs.Prelude.{◌≡◌, ◌≤◌, All, ◌+◌, [], map, IfOk};
ghost use Rattle.drive_kit.specs.Causes.{TellsText, and_then};
ghost use Rattle.drive_kit.specs.Calls.{IsCallOf, kind_of};
ghost use Rattle.drive_kit.specs.Objects.{IsBuildable};
ghost use Rattle.drive_kit.specs.Plans.{IsRowOf, callers_of, snaps_with};
ghost use Rattle.drive_kit.specs.Scripts.{called_by, limited, row_of, with_row};

use crate::calls::{Kind, call_in, name_in};
use crate::causes::{Cause, RowFault, ScriptFault};
use crate::numbers::caller_from;
use ho_model::{Call, Object};
use std::alloc::Global;
use std::marker::Model;

/// The most rows after the object's.
const MAX_ROWS: usize = 20_000;

/// The most snapshots.
const MAX_SNAPS: u32 = 100;

/// One row of a script: who makes which call.
#[derive(Clone, Copy, Debug, PartialEq, Eq)]
pub(crate) struct ScriptRow {
    pub(crate) caller: u32,
    pub(crate) call: Call,
}

/// A script: an object, and the calls that its callers make on it, each caller in the order of its
/// rows. Contracts see the object and the rows. The object has each of the calls, and each caller is
/// below 16.
#[derive(Drop)]
pub struct Script {
    object: Object,
    rows: Vec<ScriptRow>,
    snaps: u32,
}

impl Model for Script {
    ghost use Rattle.drive_kit.specs.Plans.{IsPlan, Plan};

    ghost Value = { Plan };

    ghost view = { λ s. record { object = s.object; rows = s.rows.items } };

    ghost invariant = { λ s. IsPlan s.object s.rows.items s.snaps };
}

// How many snapshots there are, with this call.
fn snaps_with(snaps: u32, call: Call) -> u32
    requires { snaps ≤ 100 }
    ensures { result ≡ snaps_with snaps call }
{
    if matches!(call, Call::Snap) {
        snaps + 1
    } else {
        snaps
    }
}

// The call that stands behind the caller.
fn called_in(kind: Kind, fields: &[&[u8]]) -> Result<Call, Cause>
    ensures call { result ≡ called_by kind (map (λ f. f.now) fields.now) }
    ensures of_kind { IfOk result (IsCallOf kind) }
{
    let [word, rest @ ..] = fields else {
        return Err(Cause::UnknownCall);
    };
    let name = name_in(kind, word)?;
    match rest {
        [] => call_in(name, &[]),
        [argument] => call_in(name, argument),
        _ => Err(Cause::BadArgument),
    }
}

// What a row after the object's says.
fn row_in(kind: Kind, fields: &[&[u8]]) -> Result<ScriptRow, Cause>
    ensures row { result ≡ row_of kind (map (λ f. f.now) fields.now) }
    ensures of_kind { IfOk result (IsRowOf kind) }
{
    let [caller, rest @ ..] = fields else {
        return Err(Cause::BadCaller);
    };
    let Some(caller) = caller_from(caller) else {
        return Err(Cause::BadCaller);
    };
    let call = called_in(kind, rest)?;
    Ok(ScriptRow { caller, call })
}

// The row, if there may be one more snapshot or it is none.
fn limited_row(row: ScriptRow, snaps: u32) -> Result<ScriptRow, Cause>
    requires { snaps ≤ 100 }
    ensures row { result ≡ limited snaps row }
    ensures same { IfOk result (λ r. r ≡ row) }
    ensures few { IfOk result (λ r. snaps_with snaps r.call ≤ 100) }
{
    if matches!(row.call, Call::Snap) && snaps == MAX_SNAPS {
        return Err(Cause::TooManySnaps);
    }
    Ok(row)
}

// What a row behind so many snapshots says.
fn next_row_in(kind: Kind, fields: &[&[u8]], snaps: u32) -> Result<ScriptRow, Cause>
    requires { snaps ≤ 100 }
    ensures row { result ≡ and_then (row_of kind (map (λ f. f.now) fields.now)) (limited snaps) }
    ensures of_kind { IfOk result (IsRowOf kind) }
    ensures few { IfOk result (λ r. snaps_with snaps r.call ≤ 100) }
{
    let row = row_in(kind, fields)?;
    limited_row(row, snaps)
}

impl Script {
    // The script of this object without calls. Takes no memory.
    pub(crate) fn new(alloc: Global, object: Object) -> Script
        requires { IsBuildable object }
        ensures { result ≡ record { object = object; rows = [] } }
    {
        Script {
            object,
            rows: Vec::new(alloc),
            snaps: 0,
        }
    }

    // The script with one row more.
    #[tactic(auto, unfolding(crate::specs::Scripts::with_row))]
    pub(crate) fn with_row(self, fields: &[&[u8]]) -> Result<Script, ScriptFault>
        ensures { TellsText (with_row self (map (λ f. f.now) fields.now)) result }
    {
        let Script {
            object,
            mut rows,
            snaps,
        } = self;
        if rows.len() == MAX_ROWS {
            return Err(ScriptFault::TooManyRows);
        }
        let place = rows.len() as u64 + 1;
        let row = match next_row_in(Kind::of(&object), fields, snaps) {
            Ok(row) => row,
            Err(cause) => return Err(RowFault::Refused(cause).at(place)),
        };
        rows.push(row)?;
        Ok(Script {
            object,
            rows,
            snaps: snaps_with(snaps, row.call),
        })
    }

    /// The object that the calls are to be made on.
    pub fn object(&self) -> &Object
        ensures object { result.now ≡ self.now.object }
        ensures buildable { IsBuildable result.now }
    {
        &self.object
    }

    /// How many callers there are: the greatest caller plus 1, or 1 without rows.
    pub fn callers(&self) -> u32
        ensures { result ≡ callers_of self.now.rows }
    {
        let mut callers = 1;
        for row in &self.rows {
            if callers <= row.caller {
                callers = row.caller + 1;
            }
        }
        callers
    }

    // The rows, in order.
    pub(crate) fn rows(&self) -> &[ScriptRow]
        ensures rows { result.now ≡ self.now.rows }
        ensures of_object { All (IsRowOf (kind_of self.now.object)) result.now }
    {
        &self.rows
    }
}

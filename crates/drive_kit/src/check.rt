// Judges a history of a script.
ghost use Rattle.std.specs.Prelude.{◌≡◌, ◌<◌, ℕ, IfOk, MatchOption};
ghost use Rattle.drive_kit.specs.Checks.{IsChecked, IsFirstDifference, IsFirstLack, IsLegalFor, IsWhole, calls_in_part};
ghost use Rattle.drive_kit.specs.Plans.{calls_by};

use crate::Script;
use crate::scripts::ScriptRow;
use ho_base::NoMemory;
use ho_model::{Call, Entry, History, Verdict, replay};
use std::alloc::Global;

/// How many callers an object can have. It refuses the entries of others.
const MAX_CALLERS: u32 = 64;

/// What a history is, beside a script. Entries and calls are counted from 0.
#[derive(Clone, Copy, Debug, PartialEq, Eq)]
pub enum Checked {
    /// It is a legal history of the script's object, and each caller made the calls of its rows, each
    /// once, in order, and no others.
    Legal { entries: u64 },
    /// The object refuses this entry, and none before it.
    Illegal { at: u64 },
    /// It is legal, and this caller's calls are not those of its rows; those of each caller below are.
    /// The first call at which they differ is that of this index, which one of the two may lack.
    Lacking { caller: u32, index: u64 },
}

// The calls that a caller is to make, in order.
fn planned_calls(alloc: Global, caller: u32, rows: &[ScriptRow]) -> Result<Vec<Call>, NoMemory>
    ensures { IfOk result (λ v. v.items ≡ calls_by caller rows.now) }
{
    let mut calls = Vec::new(alloc);
    for row in rows {
        if row.caller == caller {
            calls.push(row.call)?;
        }
    }
    Ok(calls)
}

// The calls that a caller made, in order.
fn made_calls(alloc: Global, caller: u32, entries: &[Entry]) -> Result<Vec<Call>, NoMemory>
    ensures { IfOk result (λ v. v.items ≡ calls_in_part caller entries.now) }
{
    let mut calls = Vec::new(alloc);
    for entry in entries {
        if entry.caller == caller {
            calls.push(entry.call)?;
        }
    }
    Ok(calls)
}

// The first place at which two lists of calls differ.
fn first_difference(made: &[Call], planned: &[Call]) -> Option<usize>
    ensures { MatchOption result (made.now ≡ planned.now) (λ index. IsFirstDifference index made.now planned.now) }
{
    let shorter = made.len().min(planned.len());
    for i in 0..shorter {
        if made[i] != planned[i] {
            return Some(i);
        }
    }
    if made.len() == planned.len() {
        None
    } else {
        Some(shorter)
    }
}

// Where a caller's calls first differ from those of its rows.
fn lack_of(
    alloc: Global,
    rows: &[ScriptRow],
    entries: &[Entry],
    caller: u32,
) -> Result<Option<u64>, NoMemory>
    ensures { IfOk result (λ lack. MatchOption lack (calls_in_part caller entries.now ≡ calls_by caller rows.now) (λ index. IsFirstDifference index (calls_in_part caller entries.now) (calls_by caller rows.now))) }
{
    let made = made_calls(alloc, caller, entries)?;
    let planned = planned_calls(alloc, caller, rows)?;
    match first_difference(&made, &planned) {
        Some(index) => Ok(Some(index as u64)),
        None => Ok(None),
    }
}

// The least caller whose calls are not those of its rows, and where they first differ.
fn first_lack(
    alloc: Global,
    script: &Script,
    entries: &[Entry],
) -> Result<Option<(u32, u64)>, NoMemory>
    requires { IsLegalFor script.now entries.now }
    ensures { IfOk result (λ lack. MatchOption lack (IsWhole script.now entries.now) (λ at. IsFirstLack at.0 at.1 script.now entries.now)) }
{
    let rows = script.rows();
    for caller in 0..MAX_CALLERS {
        if let Some(index) = lack_of(alloc, rows, entries, caller)? {
            return Ok(Some((caller, index)));
        }
    }
    Ok(None)
}

// Judges a legal history: whether it is whole.
fn whole_or_lacking(alloc: Global, script: &Script, entries: &[Entry]) -> Result<Checked, NoMemory>
    requires { IsLegalFor script.now entries.now }
    ensures { IfOk result (IsChecked script.now entries.now) }
{
    match first_lack(alloc, script, entries)? {
        Some((caller, index)) => Ok(Checked::Lacking { caller, index }),
        None => Ok(Checked::Legal {
            entries: entries.len() as u64,
        }),
    }
}

/// Judges a history beside a script: whether it is a legal history of the script's object, and whole.
///
/// An entry that the object refuses is told before a call that lacks or is one too many, and of these
/// the least caller's first. Takes the time and the memory of `replay`; then, for each of 64 callers,
/// time linear in the rows and the entries, and memory for its calls. Want of memory is answered at
/// any entry or call, and leaves nothing behind.
pub fn check_history(alloc: Global, script: &Script, history: &History) -> Result<Checked, NoMemory>
    ensures { IfOk result (IsChecked script.now history.now) }
{
    let entries = history.entries();
    match replay(alloc, script.object(), entries)? {
        Verdict::IllegalAt { entry } => Ok(Checked::Illegal { at: entry }),
        Verdict::Legal => whole_or_lacking(alloc, script, entries),
    }
}

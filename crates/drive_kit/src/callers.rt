// The callers of a script, side by side, each played by a worker of its own.
ghost use Rattle.std.specs.Prelude.{◌≡◌, ◌↔◌, IfOk, IsTrue, OnErr};
ghost use Rattle.std.specs.Thread.{IsSync};
ghost use Rattle.ho_base.specs.Marks.{number_priority};
ghost use Rattle.passes.specs.Numbers.{HasNumber};
ghost use Rattle.passes.specs.Calls.{AddsNoEntry, IsSamePass, Joins};
ghost use Rattle.drive_kit.specs.Calls.{IsCallOf, kind_of};
ghost use Rattle.drive_kit.specs.Playing.{AddsMade, HoldsOne, IsAlone, IsAppended, IsOf, IsPlayed, MayPlay, PlaysRow, PlaysRows, pass_of};

use crate::scripts::ScriptRow;
use crate::stands::{DrivenPass, Stand, caller_of, has_spare, play, split, take_in};
use ho_base::NoMemory;
use ho_io::Gate;
use ho_model::Call;
use std::alloc::Global;
use std::sync::Wait;
use std::thread::{Threads, join};
use weave::{Made, Part};

/// What workers leave: the pass with their numbers, and their parts, unless one found no memory.
#[derive(Drop)]
pub(crate) struct Played {
    pub(crate) pass: DrivenPass,
    pub(crate) made: Result<Vec<Part>, NoMemory>,
}

// Makes one call, and keeps its reply and its receipt.
fn play_call<R: Wait>(
    rt: &R,
    alloc: Global,
    stand: &Stand,
    pass: &mut DrivenPass,
    call: Call,
) -> Result<Made, NoMemory>
    requires of { IsOf stand.now pass.old }
    requires call { IsCallOf (kind_of (pass_of pass.old).object) call }
    ensures of { IsOf stand.now pass.new }
    ensures same { IsSamePass (pass_of pass.old) (pass_of pass.new) }
    ensures adds { IfOk result (λ made. AddsMade stand.now (pass_of pass.old) call made (pass_of pass.new)) }
    ensures adds_none { OnErr result (AddsNoEntry number_priority (pass_of pass.old) (pass_of pass.new)) }
{
    let (reply, receipt) = play(rt, alloc, stand, pass, call)?;
    Ok(Made {
        call,
        reply,
        receipt,
    })
}

// Whether a row is that of the pass's caller.
fn is_own(pass: &DrivenPass, row: ScriptRow) -> bool
    ensures { IsTrue result ↔ (row.caller ≡ (pass_of pass.now).caller) }
{
    row.caller == caller_of(pass)
}

// Plays a row, if it is that of the pass's caller. The gate comes before the call, with the count of those
// before.
fn play_row<G: Gate, R: Wait>(
    rt: &R,
    alloc: Global,
    stand: &Stand,
    pass: &mut DrivenPass,
    gate: &G,
    turn: &mut u64,
    row: ScriptRow,
    own: &mut Part,
) -> Result<(), NoMemory>
    requires of { IsOf stand.now pass.old }
    requires call { IsCallOf (kind_of (pass_of pass.old).object) row.call }
    requires own { HasNumber (pass_of pass.old).held (pass_of pass.old).caller }
    requires one { HoldsOne (pass_of pass.old) }
    ensures of { IsOf stand.now pass.new }
    ensures same { IsSamePass (pass_of pass.old) (pass_of pass.new) }
    ensures played { PlaysRow stand.now row (pass_of pass.old) own.old (pass_of pass.new) own.new result }
{
    if !is_own(pass, row) {
        return Ok(());
    }
    gate.at(rt, row.caller, *turn);
    *turn = turn.saturating_add(1);
    let made = play_call(rt, alloc, stand, pass, row.call)?;
    own.push(made)?;
    Ok(())
}

// Plays the rows of the pass's caller, in order, until one finds no memory.
fn play_rows<G: Gate, R: Wait>(
    rt: &R,
    alloc: Global,
    stand: &Stand,
    pass: &mut DrivenPass,
    gate: &G,
    rows: &[ScriptRow],
) -> Result<Part, NoMemory>
    requires ready { MayPlay stand.now rows.now pass.old }
    requires one { HoldsOne (pass_of pass.old) }
    ensures of { IsOf stand.now pass.new }
    ensures same { IsSamePass (pass_of pass.old) (pass_of pass.new) }
    ensures played { PlaysRows stand.now rows.now (pass_of pass.new) result }
{
    let mut own = Part::new(alloc, caller_of(pass));
    let mut turn = 0;
    for row in rows {
        play_row(rt, alloc, stand, pass, gate, &mut turn, *row, &mut own)?;
    }
    Ok(own)
}

// The list of one part.
fn alone(alloc: Global, own: Result<Part, NoMemory>) -> Result<Vec<Part>, NoMemory>
    ensures { IsAlone own result }
{
    let own = own?;
    let mut parts = Vec::new(alloc);
    parts.push(own)?;
    Ok(parts)
}

// The work of one caller.
fn play_own<G: Gate, R: Wait>(
    rt: &R,
    alloc: Global,
    stand: &Stand,
    mut pass: DrivenPass,
    gate: &G,
    rows: &[ScriptRow],
) -> Played
    requires ready { MayPlay stand.now rows.now pass }
    requires one { HoldsOne (pass_of pass) }
    ensures { IsPlayed stand.now rows.now (pass_of pass) result }
{
    let own = play_rows(rt, alloc, stand, &mut pass, gate, rows);
    Played {
        pass,
        made: alone(alloc, own),
    }
}

// The parts of both.
fn append(
    made: Result<Vec<Part>, NoMemory>,
    more: Result<Vec<Part>, NoMemory>,
) -> Result<Vec<Part>, NoMemory>
    ensures { IsAppended made more result }
{
    let mut all = made?;
    let mut more = more?;
    all.append(&mut more)?;
    Ok(all)
}

// Takes in what other workers leave.
fn gather(stand: &Stand, rest: Played, other: Played) -> Played
    requires { IsOf stand.now rest.pass × IsOf stand.now other.pass }
    ensures of { IsOf stand.now result.pass }
    ensures joins { Joins number_priority (pass_of rest.pass) (pass_of other.pass) (pass_of result.pass) }
    ensures made { IsAppended rest.made other.made result.made }
{
    let Played { mut pass, made } = rest;
    let Played {
        pass: other,
        made: more,
    } = other;
    take_in(stand, &mut pass, other);
    Played {
        pass,
        made: append(made, more),
    }
}

// Plays the rows of each number of the pass, all side by side, and joins all workers, also where one
// finds no memory.
#[cycle(callers)]
pub(crate) fn play_all<G: Gate, R: Wait + Threads + Sync>(
    rt: &R,
    alloc: Global,
    stand: &Stand,
    mut pass: DrivenPass,
    gate: &G,
    rows: &[ScriptRow],
) -> Played
    requires { MayPlay stand.now rows.now pass }
    ensures { IsPlayed stand.now rows.now (pass_of pass) result }
{
    if !has_spare(&pass) {
        return play_own(rt, alloc, stand, pass, gate, rows);
    }
    let other = split(stand, &mut pass);
    let (first, rest) = join(
        rt,
        move || -> Played
            requires { IsSync R.row × IsSync G.row × MayPlay stand.now rows.now other × HoldsOne (pass_of other) }
            ensures { IsPlayed stand.entry.now rows.entry.now (pass_of other) result }
        { play_own(rt, alloc, stand, other, gate, rows) },
        move || -> Played
            requires { IsSync R.row × IsSync G.row × MayPlay stand.now rows.now pass }
            ensures { IsPlayed stand.entry.now rows.entry.now (pass_of pass) result }
        { play_all(rt, alloc, stand, pass, gate, rows) },
    );
    gather(stand, rest, first)
}

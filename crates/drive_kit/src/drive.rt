// Plays a script on a shared object.
ghost use Rattle.std.specs.Prelude.{◌≡◌, ◌<◌, ◌≤◌, IfOk};
ghost use Rattle.drive_kit.specs.Driving.{IsDriven};
ghost use Rattle.drive_kit.specs.Plans.{callers_of};

use crate::Script;
use crate::callers::{Played, play_all};
use crate::stands::{DrivenPass, make};
use ho_base::NoMemory;
use ho_io::Gate;
use ho_model::History;
use std::alloc::Global;
use std::sync::Wait;
use std::thread::Threads;
use weave::weave_placed;

// How many callers there are.
fn caller_count(script: &Script) -> u32
    ensures count { result ≡ callers_of script.now.rows }
    ensures within { (0 < result) × (result ≤ 64) }
{
    let _ = script.rows();
    script.callers()
}

/// Plays a script: makes its object, with the script's parameters, and for each of its callers a pass
/// and a worker, which makes the caller's calls in the order of their rows.
///
/// The history is legal for the object, and each caller's part of it has just the calls of that
/// caller's rows, each once, in order. The pass is the whole pass of the object that was played on, a
/// [`DrivenPass::Bag`] for a bag and a [`DrivenPass::Turn`] for every other object, and shows the
/// history. The gate is called before each call on the object, with the caller and the count of its
/// calls before. For want of memory all workers are joined first, and nothing is left behind; calls may
/// have been made by then.
///
/// Each worker looks at each row. Beside that it takes the time of the calls, and memory for a few
/// entries a row.
pub fn drive_script<G: Gate, R: Wait + Threads + Sync>(
    rt: &R,
    alloc: Global,
    script: &Script,
    gate: &G,
) -> Result<(History, DrivenPass), NoMemory>
    ensures { IfOk result (λ driven. IsDriven script.now driven.0 driven.1) }
{
    let (stand, pass) = make(alloc, script.object(), caller_count(script))?;
    let Played { pass, made } = play_all(rt, alloc, &stand, pass, gate, script.rows());
    let parts = made?;
    let history = weave_placed(alloc, &parts)?;
    Ok((history, pass))
}

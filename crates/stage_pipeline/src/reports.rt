// The texts of runs.
ghost use Rattle.std.specs.Prelude.{◌≡◌, if◌then◌else◌, [], IfOk, OnOk, List, ℕ};
ghost use Rattle.std.specs.List.Sorted.{IsNonDecreasingBy, IsPermutation, IsSortedBy};
ghost use Rattle.joint_reports.specs.Reports.{has_drop_joint, may_drop};
ghost use Rattle.record_lang.specs.Guards.{stop_code};
ghost use Rattle.record_lang.specs.Outcomes.{number_of_outcome};
ghost use Rattle.record_lang.specs.Records.{AreNumbered, Row};
ghost use Rattle.stage_pipeline.specs.Orders.{is_told_before};
ghost use Rattle.stage_pipeline.specs.Runs.{IsRan};
ghost use Rattle.stage_pipeline.specs.Tellings.{HasRun};

use crate::runs::{Done, Ran};
use ho_base::{Fault, NoMemory};
use record_lang::{Dropped, Joint, Outcome, Pipeline, Report};
use std::alloc::Global;

// Whether a joint may drop.
fn may_drop(joint: Joint) -> bool
    ensures { result ≡ may_drop joint }
{
    match joint {
        Joint::Wait(_) | Joint::Unbounded => false,
        Joint::DropNewest(_) | Joint::DropOldest(_) | Joint::DropWrite(_) => true,
    }
}

// Whether a joint of the pipeline may drop.
fn has_drop_joint(pipeline: &Pipeline) -> bool
    ensures { result ≡ has_drop_joint pipeline.now.joints }
{
    pipeline.joints().iter().any(|joint| may_drop(*joint))
}

// The workers' lists rise in long stretches, as records mostly come in order. Those this sort keeps, and merges
// them: in place, each outcome would be moved many times.
fn sort_outcomes(outcomes: &mut Vec<Outcome>) -> Result<(), NoMemory>
    ensures moved { IsPermutation outcomes.old.items outcomes.new.items }
    ensures sorted { OnOk result (IsNonDecreasingBy number_of_outcome outcomes.new.items) }
{
    outcomes.sort_by_key(|outcome| outcome.number())?;
    Ok(())
}

fn sort_dropped(dropped: &mut Vec<Dropped>)
    ensures moved { IsPermutation dropped.old.items dropped.new.items }
    ensures sorted { IsSortedBy is_told_before dropped.new.items }
{
    dropped.sort_unstable_by_key(|one| (one.joint, one.number));
}

// The report of a run. What was dropped is told only where a joint may drop.
fn report_of(
    alloc: Global,
    has_drops: bool,
    outcomes: Vec<Outcome>,
    dropped: Vec<Dropped>,
) -> Report
    ensures { result ≡ record { outcomes = outcomes.items; has_drops = has_drops; dropped = if has_drops then dropped.items else [] } }
{
    if has_drops {
        Report::of_drops(outcomes, dropped)
    } else {
        Report::of(alloc, outcomes)
    }
}

// What a run tells that ended with this code: its outcomes in order of number, and its dropped records in
// order of joint and then of number.
pub(crate) fn ran_of(
    alloc: Global,
    pipeline: &Pipeline,
    code: Option<Fault>,
    done: Done,
) -> Result<Ran, NoMemory>
    ensures { IfOk result (λ ran. (rows : List Row) (workers : ℕ) → AreNumbered rows → HasRun pipeline.now rows workers done
        → code ≡ stop_code pipeline.now.guard rows → IsRan pipeline.now rows workers ran) }
{
    let Done {
        joints,
        mut outcomes,
        mut dropped,
    } = done;
    sort_outcomes(&mut outcomes)?;
    sort_dropped(&mut dropped);
    let report = report_of(alloc, has_drop_joint(pipeline), outcomes, dropped);
    let text = report.text(alloc, code)?;
    Ok(Ran::new(text, joints))
}

#[cfg(test)]
mod tests;

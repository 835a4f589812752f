// The definitions, computed on worked flows.
ghost use Rattle.std.specs.Prelude.{◌≡◌, List, [], ◌∷◌, codes, true, false};
ghost use Rattle.record_lang.specs.declared.outcomes.Outcome.TheVariants as to;
ghost use Rattle.joint_reports.specs.Reports.{dropped_of, kept_outcomes, left_of, reached, told_of};
ghost use Rattle.joint_reports.specs.Rows.{one, two, lost};
ghost use Rattle.joint_reports.specs.Rows as rows;

/// Worked flows of two stages: which records reach each joint, which it drops and leaves, which
/// outcomes are kept, and what is told of the run.
///
/// The function does nothing. Its clauses are computed by the check, so that a definition that is
/// changed by mistake is refused here.
pub fn the_worked_rows_are_told()
    ensures adding_first { reached rows.adding.stages rows.adding_drops 0 rows.adding_rows ≡ rows.adding_rows }
    ensures adding_second { reached rows.adding.stages rows.adding_drops 1 rows.adding_rows ≡ one 0 (codes "17") ∷ one 1 (codes "7") ∷ one 3 (codes "35") ∷ [] }
    ensures adding_dropped { dropped_of (3 ∷ []) (reached rows.adding.stages rows.adding_drops 1 rows.adding_rows) ≡ one 3 (codes "35") ∷ [] }
    ensures adding_left { left_of (3 ∷ []) (reached rows.adding.stages rows.adding_drops 1 rows.adding_rows) ≡ one 0 (codes "17") ∷ one 1 (codes "7") ∷ [] }
    ensures adding_told { told_of rows.adding rows.adding_drops rows.adding_rows ≡ record {
      outcomes = to.Result (one 0 (codes "17")) ∷ to.Filtered 1 ∷ to.Refused 2 1 2 ∷ [];
      has_drops = true;
      dropped = lost 3 2 ∷ [];
    } }

    ensures waiting_told { told_of rows.waiting rows.waiting_drops rows.adding_rows ≡ record {
      outcomes = to.Result (one 0 (codes "17")) ∷ to.Filtered 1 ∷ to.Refused 2 1 2 ∷ to.Result (one 3 (codes "35")) ∷ [];
      has_drops = false;
      dropped = [];
    } }

    ensures keeping_first { reached rows.keeping.stages rows.keeping_drops 0 rows.keeping_fed ≡ one 0 (codes "11") ∷ one 1 (codes "12") ∷ one 2 (codes "3") ∷ one 3 (codes "13") ∷ one 4 (codes "14") ∷ [] }
    ensures keeping_second { reached rows.keeping.stages rows.keeping_drops 1 rows.keeping_fed ≡ one 0 (codes "11") ∷ one 1 (codes "12") ∷ one 4 (codes "14") ∷ [] }
    ensures keeping_dropped { dropped_of (4 ∷ 0 ∷ []) (reached rows.keeping.stages rows.keeping_drops 1 rows.keeping_fed) ≡ one 0 (codes "11") ∷ one 4 (codes "14") ∷ [] }
    ensures keeping_left { left_of (4 ∷ 0 ∷ []) (reached rows.keeping.stages rows.keeping_drops 1 rows.keeping_fed) ≡ one 1 (codes "12") ∷ [] }
    ensures keeping_outcomes { kept_outcomes rows.keeping.stages rows.keeping_drops rows.keeping_fed ≡ to.Result (two 1 (codes "12")) ∷ to.Filtered 2 ∷ [] }
    ensures keeping_told { told_of rows.keeping rows.keeping_drops rows.keeping_rows ≡ record {
      outcomes = to.Result (two 1 (codes "12")) ∷ to.Filtered 2 ∷ [];
      has_drops = true;
      dropped = lost 3 1 ∷ lost 0 2 ∷ lost 4 2 ∷ [];
    } }
{}

// The definitions, computed on worked histories.
ghost use Rattle.std.specs.Prelude.{◌≡◌, List, [], ◌∷◌, Some, None, true, false};
ghost use Rattle.ho_model.specs.declared.objects.Mode.TheVariants as mode;
ghost use Rattle.ho_model.specs.declared.objects.Object.TheVariants as object;
ghost use Rattle.ho_model.specs.Rows.{is_legal, two};
ghost use Rattle.channel_flow.specs.Rows.{is_drained, moved, ended, fault_in};
ghost use Rattle.channel_flow.specs.Rows as rows;

/// Worked histories: which are legal, which are drained, how many items each writes, takes, drops,
/// refuses and gives back, and what is told of the end, with which fault. Two show that neither condition of a drained history can
/// be left out.
///
/// The function does nothing. Its clauses are computed by the check, so that a definition that is
/// changed by mistake is refused here.
pub fn the_worked_rows_are_counted()
    ensures drops { is_legal (two mode.DropOldest) rows.drop_row ≡ true }
    ensures drops_drained { is_drained rows.drop_row ≡ true }
    ensures drops_moved { moved rows.drop_row ≡ 3 ∷ 2 ∷ 1 ∷ 0 ∷ 0 ∷ [] }

    ensures waits { is_legal (object.Bounded 1 mode.Wait) rows.wait_row ≡ true }
    ensures waits_drained { is_drained rows.wait_row ≡ true }
    ensures waits_moved { moved rows.wait_row ≡ 2 ∷ 2 ∷ 0 ∷ 0 ∷ 0 ∷ [] }

    ensures refused_ended { ended rows.refused_row ≡ 1 ∷ 3 ∷ 1 ∷ [] }
    ensures refused { is_legal (object.Bounded 1 mode.Wait) rows.refused_row ≡ true }
    ensures refused_drained { is_drained rows.refused_row ≡ true }
    ensures refused_moved { moved rows.refused_row ≡ 3 ∷ 1 ∷ 0 ∷ 2 ∷ 0 ∷ [] }

    ensures given_back { is_legal (object.Bounded 1 mode.Wait) rows.given_back_row ≡ true }
    ensures given_back_drained { is_drained rows.given_back_row ≡ true }
    ensures given_back_moved { moved rows.given_back_row ≡ 3 ∷ 1 ∷ 0 ∷ 0 ∷ 2 ∷ [] }

    ensures unfetched { is_legal object.Unbounded rows.unfetched_row ≡ true }
    ensures unfetched_open { is_drained rows.unfetched_row ≡ false }
    ensures unfetched_moved { moved rows.unfetched_row ≡ 1 ∷ 0 ∷ 0 ∷ 0 ∷ 0 ∷ [] }

    ensures faulted { is_legal object.Unbounded rows.faulted_row ≡ true }
    ensures faulted_ended { ended rows.faulted_row ≡ 2 ∷ 3 ∷ 1 ∷ [] }
    ensures faulted_fault { fault_in rows.faulted_row ≡ Some 9 }

    ensures unread_fault { fault_in rows.unread_row ≡ Some 0 }
    ensures given_back_ended { ended rows.given_back_row ≡ 1 ∷ 1 ∷ 0 ∷ [] }
    ensures unread { is_legal object.Unbounded rows.unread_row ≡ true }
    ensures unread_open { is_drained rows.unread_row ≡ false }
    ensures unread_moved { moved rows.unread_row ≡ 1 ∷ 0 ∷ 0 ∷ 0 ∷ 0 ∷ [] }
{}

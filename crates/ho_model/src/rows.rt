// The definitions, computed on worked histories.
ghost use Rattle.std.specs.Prelude.{◌≡◌, true, false, Some, None};
ghost use Rattle.ho_model.specs.declared.objects.Mode.TheVariants as mode;
ghost use Rattle.ho_model.specs.declared.objects.Object.TheVariants as object;
ghost use Rattle.ho_model.specs.declared.objects.Store.TheVariants as store;
ghost use Rattle.ho_model.specs.Rows.{accepts, accepts_after, is_legal, two, count_by};
ghost use Rattle.ho_model.specs.Rows as rows;

/// Each kind of object accepts its worked histories, and refuses at least one in which a reply is not its
/// own. A channel refuses an entry of caller 64.
///
/// The function does nothing. Its clauses are computed by the check, so that a definition that is
/// changed by mistake is refused here.
pub fn the_objects_accept_the_worked_rows()
    // channels: a full one in each mode
    ensures wait { is_legal (two mode.Wait) rows.full_wait_row ≡ true }
    ensures drop_newest { is_legal (two mode.DropNewest) (rows.full_drop_row 2 1 3) ≡ true }
    ensures drop_oldest { is_legal (two mode.DropOldest) (rows.full_drop_row 1 2 3) ≡ true }
    ensures drop_write { is_legal (two mode.DropWrite) (rows.full_drop_row 3 1 2) ≡ true }
    ensures not_oldest { is_legal (two mode.DropOldest) (rows.full_drop_row 3 1 2) ≡ false }
    ensures begin_newest { is_legal (two mode.DropNewest) (rows.begin_drop_row 2 1 3) ≡ true }
    ensures begin_oldest { is_legal (two mode.DropOldest) (rows.begin_drop_row 1 2 3) ≡ true }
    ensures begin_write { is_legal (two mode.DropWrite) (rows.begin_drop_row 3 1 2) ≡ true }

    // completion, and cancelled waits
    ensures complete { is_legal (object.Bounded 1 mode.Wait) rows.complete_row ≡ true }
    ensures fault { is_legal object.Unbounded rows.fault_row ≡ true }
    ensures not_early { is_legal object.Unbounded rows.early_completed_row ≡ false }
    ensures cancel { is_legal object.Unbounded rows.cancel_row ≡ true }
    ensures late_cancel { is_legal object.Unbounded rows.late_cancel_row ≡ true }
    ensures no_lost_item { is_legal object.Unbounded rows.lost_item_row ≡ false }
    ensures cancelled_write { is_legal (object.Bounded 1 mode.Wait) rows.cancelled_write_row ≡ true }

    // the order in which items leave, and in which waits are served
    ensures priority { is_legal object.Prioritized rows.priority_row ≡ true }
    ensures not_priority { is_legal object.Unbounded rows.priority_row ≡ false }
    ensures not_greater { is_legal object.Prioritized rows.greater_first_row ≡ false }
    ensures look { is_legal (object.Bounded 1 mode.Wait) rows.look_row ≡ true }
    ensures readers { accepts object.Unbounded rows.two_readers_row ≡ true }
    ensures not_newest { accepts object.Unbounded rows.newest_reader_row ≡ false }
    ensures let_in { is_legal (object.Bounded 1 mode.Wait) rows.let_in_row ≡ true }
    ensures writers { is_legal (object.Bounded 1 mode.Wait) rows.two_writers_row ≡ true }
    ensures not_newest_writer { is_legal (object.Bounded 1 mode.Wait) rows.newest_writer_row ≡ false }

    // the other objects
    ensures queue { is_legal (object.Queue 2 2) rows.queue_row ≡ true }
    ensures not_last { is_legal (object.Queue 2 2) rows.last_first_row ≡ false }
    ensures blocking { is_legal (object.Blocking store.Fifo (Some 1)) rows.blocking_row ≡ true }
    ensures adding { is_legal (object.Blocking store.Fifo None) rows.adding_row ≡ true }
    ensures lifo { is_legal (object.Blocking store.Lifo None) rows.lifo_row ≡ true }
    ensures not_lifo { is_legal (object.Blocking store.Fifo None) rows.lifo_row ≡ false }
    ensures lists { accepts (object.Blocking store.Bag (Some 3)) rows.store_row ≡ true }
    ensures not_greater_list { accepts (object.Blocking store.Bag None) rows.greater_list_row ≡ false }
    ensures bag { accepts object.Bag rows.bag_row ≡ true }
    ensures no_needless_steal { accepts object.Bag rows.needless_steal_row ≡ false }
    ensures full_bag { accepts_after rows.full_list object.Bag rows.full_bag_row ≡ true }
    ensures not_too_many { accepts_after rows.full_list object.Bag rows.one_too_many_row ≡ false }

    // callers
    ensures last_caller { accepts object.Unbounded (count_by 63) ≡ true }
    ensures no_caller { accepts object.Unbounded (count_by 64) ≡ false }
{}

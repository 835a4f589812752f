// What the table says of the end of a collection.
ghost use Rattle.blocking_core.specs.Laws.{CompletedIsExact};

/// `Completed` is told exactly where adding has ended and no item stands.
///
/// The function does nothing. Its clause is a law of the blocking object: in a legal history the
/// reply to `Completed` is yes exactly where at that entry the flag is set and there is no item.
pub fn completed_is_told_exactly_where_no_item_can_come()
    ensures { CompletedIsExact }
{}

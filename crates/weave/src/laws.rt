// The laws of the order in which a queue's calls stand. The functions have no code; their contracts are
// proved of the definitions.
ghost use Rattle.weave.specs.Places.{PlacesMakeHistories};
ghost use Rattle.weave.specs.Laws.{CallsPullForward, FirstLengthsAllowAlike, LaterDoNotGoBefore, OrdersAreHistories, SegmentsMayBeAny};

/// No call of a queue's legal history goes before one that stands earlier, by the receipts of both.
pub fn a_history_keeps_the_order()
    ensures { LaterDoNotGoBefore }
{}

/// A call of a queue's legal history may be moved to the front of calls of which none goes before it.
pub fn a_call_may_stand_earlier()
    ensures { CallsPullForward }
{}

/// Every order of a queue's calls that keeps the relation is legal, and has the receipts of a queue's
/// calls: given one legal history of them with these receipts, an order in which each caller's calls stand
/// as they did, and in which none goes before an earlier one.
pub fn every_order_that_keeps_the_relation_is_legal()
    ensures { OrdersAreHistories }
{}

/// What is legal for a queue does not depend on the length of its first segment, and a receipt of a call
/// on a queue with some such length is one whose segment may be any. So the condition of
/// [`weave_queue`](crate::weave_queue) is met by a history of any queue with this room.
pub fn a_first_length_changes_no_history()
    ensures legal { FirstLengthsAllowAlike }
    ensures receipts { SegmentsMayBeAny }
{}

/// Parts of different callers, whose receipts are the places below a number, each once, rising within each
/// part, have a history at these places.
pub fn places_below_a_number_make_a_history()
    ensures { PlacesMakeHistories }
{}

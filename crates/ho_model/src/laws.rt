// The laws of the objects. The functions have no code; their contracts are proved of the definitions.
ghost use Rattle.ho_model.specs.QueueLaws.{QueuesLeaveItems, QueuesCount, QueuesBalance, QueuesReply, EntriesReply, LegalByReplies, EnqueueNext, FullNext, TakeNext, PeekNext, EmptyNext, PeekEmptyNext, CountNext, SnapNext, EnqueuesFindItems, TakesFindItems, PeeksFindItems, CountsFindHeads, FullsFindHeads, EmptiesFindHeads, SnapsFindHeads};
ghost use Rattle.ho_model.specs.WrittenLaws.{CallsAreTold, RepliesAreTold, EntriesAreTold, HistoriesAreTold};

/// After any legal history a queue has the items that were enqueued, in their order, without as many
/// as were taken.
pub fn a_queue_has_what_was_not_taken()
    ensures items { QueuesLeaveItems }
    ensures counts { QueuesCount }
    ensures balance { QueuesBalance }
{}

/// The next reply of a queue is determined by the items enqueued and by the counts of enqueues and
/// takes: an enqueue is done below the room, and a take gives the item whose place among the items
/// enqueued is the count of those taken.
///
/// [`a_queue_goes_on_by_its_counts`] says the same a reply at a time.
pub fn a_queue_replies_by_its_counts()
    ensures next { QueuesReply }
    ensures entries { EntriesReply }
    ensures legal { LegalByReplies }
{}

/// How a legal history of a queue goes on, one clause for each call and reply: what has to hold of the
/// items enqueued and of the counts, for the history with that entry to be legal, and to leave the
/// items then enqueued and not taken.
pub fn a_queue_goes_on_by_its_counts()
    ensures enqueue_next { EnqueueNext }
    ensures full_next { FullNext }
    ensures take_next { TakeNext }
    ensures empty_next { EmptyNext }
    ensures peek_next { PeekNext }
    ensures peek_empty_next { PeekEmptyNext }
    ensures count_next { CountNext }
    ensures snap_next { SnapNext }
{}

/// A receipt's position names one item. `IsQueueReceipt` of `specs/QueueReceipts.antt` says which
/// receipt a call on a queue has, by its reply and by the counts of the entries before it: an enqueue
/// that was done has the count of enqueues; a take and a peek that gave an item have the count of
/// takes; each other call has both counts.
///
/// So the item at the position of an enqueue, among all items that a longer history enqueues, is its
/// own; and the item at the position of a take or of a peek is the one that it gave. The head and the
/// tail of a count differ by the count, those of an enqueue that found the queue full by its room, those
/// of a snapshot by the items that it shows, and those of a take or a peek that found nothing not at all.
pub fn a_receipt_finds_its_item()
    ensures enqueues { EnqueuesFindItems }
    ensures takes { TakesFindItems }
    ensures peeks { PeeksFindItems }
    ensures counts { CountsFindHeads }
    ensures fulls { FullsFindHeads }
    ensures empties { EmptiesFindHeads }
    ensures snaps { SnapsFindHeads }
{}

/// What scripts and histories write is told by its mark, by which contracts see it: two calls with one
/// mark are equal, and on one object so are two replies to one call, two entries and two histories.
/// This holds for replies of every kind, also for those that the object never gives.
///
/// A mark depends on the object in one place: the reply `Item` to a `Peek` is the item itself on a
/// queue, and on a channel the item's number, which is shown.
pub fn what_is_written_is_told_by_its_mark()
    ensures calls { CallsAreTold }
    ensures replies { RepliesAreTold }
    ensures entries { EntriesAreTold }
    ensures histories { HistoriesAreTold }
{}

// What contracts see of calls, replies and entries.
//
// No value of the first three types is made. They are Rust types, and not definitions of specs/,
// since what a caller of a shared object has seen is kept in a Rust type. To a contract a
// `LinkedList<u64>` is a list of numbers: an item's mark, or the items of a snapshot.
use std::collections::LinkedList;

/// What one call on an object was, each item as its mark and each fault as its number, 0 for none.
pub enum CallMark {
    Enq(LinkedList<u64>),
    Deq,
    Peek,
    Count,
    Snap,
    Add(LinkedList<u64>),
    Take,
    Write(LinkedList<u64>),
    Read,
    BeginWrite(LinkedList<u64>),
    BeginRead,
    BeginLookWrite,
    BeginLookRead,
    Poll(u64),
    Cancel(u64),
    CompleteWith(u64),
    Completed,
    CompleteAdding,
    AddingCompleted,
}

/// What a call answered, each item as its mark and each fault as its number, 0 for none.
pub enum ReplyMark {
    Done,
    Dropped(LinkedList<u64>),
    Full,
    Refused(u64, LinkedList<u64>),
    Item(LinkedList<u64>),
    /// A bag's item, and the caller whose list it was in.
    ItemFrom(LinkedList<u64>, u64),
    /// The number of the item that a channel's read would take.
    Shown(u64),
    Empty,
    Ended,
    Closed,
    ClosedWith(u64),
    Counted(u64),
    Numbers(LinkedList<u64>),
    Waiting(u64),
    Ready(bool),
    Faulted(u64),
    Cancelled,
    CancelledWrite(LinkedList<u64>),
    Unknown,
    Flag(bool),
}

/// One call with its caller and its reply.
pub struct EntryMark {
    pub caller: u32,
    pub call: CallMark,
    pub reply: ReplyMark,
}

/// How many items were put into a queue, and how many were taken out of it.
#[derive(Clone, Copy, Debug, PartialEq, Eq)]
pub struct Tally {
    pub enqueued: u64,
    pub taken: u64,
}

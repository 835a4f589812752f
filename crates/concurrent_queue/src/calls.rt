// The calls of a queue, and its replies.

use ho_model::Items;

/// A call on a queue of numbers. The names in parentheses are .NET's.
#[derive(Clone, Copy, Debug, PartialEq, Eq)]
pub enum QueueCall {
    /// Puts an item last, if there is room (`Enqueue`).
    Enqueue(u64),
    /// Takes the first item, if there is one (`TryDequeue`).
    Dequeue,
    /// Shows the first item, if there is one (`TryPeek`).
    Peek,
    /// Counts the items (`Count`).
    Count,
    /// All items, from the first (`ToArray`).
    Snap,
}

/// What a queue answers.
#[derive(Debug, Drop)]
pub enum QueueReply {
    Done,
    /// There are as many items as there is room for.
    Full,
    Item(u64),
    /// There is no item.
    Empty,
    Count(u64),
    Numbers(Items),
}

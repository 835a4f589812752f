// The calls of a blocking collection, and its replies.

use ho_model::Items;

/// A call on a blocking collection. The names in parentheses are .NET's.
#[derive(Debug, PartialEq, Eq, Drop)]
pub enum BlockingCall<T> {
    /// Adds an item, if that needs no wait (`TryAdd`).
    Add(T),
    /// Takes an item, if there is one (`TryTake`).
    Take,
    /// Ends adding (`CompleteAdding`). It may be called again.
    CompleteAdding,
    /// Whether adding has ended (`IsAddingCompleted`).
    AddingCompleted,
    /// Whether adding has ended and no item is left (`IsCompleted`).
    Completed,
    /// Counts the items (`Count`).
    Count,
    /// The numbers of all items (`ToArray`): from the oldest, or the lists of a bag in the order of
    /// their callers.
    Snap,
}

/// What a blocking collection answers. An item that is not kept is handed back.
#[derive(Debug, Drop)]
pub enum BlockingReply<T> {
    Done,
    /// There are as many items as the bound.
    Full(T),
    /// Adding has ended.
    Closed(T),
    Item(T),
    /// There is no item.
    Empty,
    /// There is no item, and adding has ended.
    Ended,
    /// The call's yes or no.
    Flag(bool),
    Count(u64),
    Numbers(Items),
}

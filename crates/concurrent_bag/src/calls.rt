// The calls of a bag, and its replies.

use ho_model::Items;

/// A call on a bag. The names in parentheses are .NET's.
#[derive(Debug, PartialEq, Eq, Drop)]
pub enum BagCall<T> {
    /// Adds an item to the caller's list (`Add`).
    Add(T),
    /// Takes the last item of the caller's list or, where that has none, the first item of another
    /// (`TryTake`).
    Take,
    /// Counts the items (`Count`).
    Count,
    /// The numbers of all items, the lists in the order of their callers (`ToArray`).
    Snap,
}

/// What a bag answers. An item that is not kept is handed back.
#[derive(Debug, Drop)]
pub enum BagReply<T> {
    Done,
    /// The caller's list has as many items as a list may have.
    Full(T),
    /// An item, and the caller in whose list it was.
    Item { from: u32, item: T },
    /// There is no item.
    Empty,
    Count(u64),
    Numbers(Items),
}

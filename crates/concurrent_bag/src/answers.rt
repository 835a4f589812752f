// What the calls of a shared bag come to.
use ho_base::Receipt;

/// What an add comes to.
#[derive(Debug, PartialEq, Eq, Drop)]
pub enum BagAdd<T> {
    /// The item stands last in the caller's list.
    Done,
    /// The caller's list has as many items as a list may have. The item comes back.
    Full(T),
}

/// What a take comes to.
#[derive(Debug, PartialEq, Eq, Drop)]
pub enum BagTake<T> {
    /// An item, and the caller in whose list it was.
    Item { from: u32, item: T },
    /// There is no item.
    Empty,
}

/// Why one try of a call has no answer: another caller was at it.
#[derive(Clone, Copy, Debug, PartialEq, Eq)]
pub enum BagAgain {
    /// Another caller held a list.
    Held,
    /// Another caller made an entry while a take looked round.
    Lost,
}

/// What one try of an add comes to. An item that is not kept comes back.
#[derive(Debug, PartialEq, Eq, Drop)]
pub enum BagAddOnce<T> {
    Answer(BagAdd<T>, Receipt),
    Again(BagAgain, T),
    /// The caller has made as many calls as it may.
    Spent(T),
    NoMemory(T),
}

/// What one try of a take comes to.
#[derive(Debug, PartialEq, Eq, Drop)]
pub enum BagTakeOnce<T> {
    Answer(BagTake<T>, Receipt),
    Again(BagAgain),
    /// The caller has made as many calls as it may.
    Spent,
}

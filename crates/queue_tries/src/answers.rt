// What tries of calls on a queue come to.
use ho_base::Receipt;

/// What an enqueue comes to.
#[derive(Clone, Copy, Debug, PartialEq, Eq)]
pub enum EnqueueReply {
    /// The item stands last.
    Done,
    /// There are as many items as there is room for.
    Full,
}

/// What a dequeue or a peek comes to.
#[derive(Clone, Copy, Debug, PartialEq, Eq)]
pub enum DequeueReply {
    /// The first item.
    Item(u64),
    /// There is no item.
    Empty,
}

/// Why a try gave no answer.
#[derive(Clone, Copy, Debug, PartialEq, Eq)]
pub enum QueueAgain {
    /// Another caller's entry moved the head or the tail meanwhile.
    Lost,
    /// Another caller had the turn.
    Turn,
    /// The first item was enqueued by another caller, which has not put it into its slot yet.
    InFlight,
    /// No place is free for another segment.
    NoPlace,
}

/// What one try comes to.
#[derive(Clone, Copy, Debug, PartialEq, Eq)]
pub enum QueueOnce<R> {
    /// The try made its entry, and this is its receipt.
    Answer(R, Receipt),
    /// It made none.
    Again(QueueAgain),
    /// The caller has made as many calls as it may: 2^48. The try made no step.
    Spent,
}

/// What a look at the next item of a window comes to.
#[derive(Clone, Copy, Debug, PartialEq, Eq)]
pub enum Next {
    Item(u64),
    /// No item is left.
    End,
    /// The next item was enqueued by another caller, which has not put it into its slot yet.
    InFlight,
}

/// A snapshot whose items its pass reads one by one.
///
/// Contracts see of it the list of its items and how many of them were given (`specs/Windows.antt`). It holds
/// the places in which they lie, so it can't be dropped: it is ended.
pub struct Window {
    /// The first place that it holds, and the last.
    pub(crate) first: u32,
    pub(crate) last: u32,
    /// Its positions are those from `head` up to `tail`, and `at` is the next one.
    pub(crate) head: u64,
    pub(crate) tail: u64,
    pub(crate) at: u64,
}

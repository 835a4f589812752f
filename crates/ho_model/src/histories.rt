// Calls and replies as scripts and histories write them, with items that are numbers.
ghost use Rattle.std.specs.Prelude.{◌≡◌};

use std::marker::Model;

/// A call as a script writes it. Channels have `Write` to `Completed`, `Peek` and `Count`; queues
/// `Enq`, `Deq`, `Peek`, `Count` and `Snap`; bags `Add`, `Take`, `Count` and `Snap`; blocking
/// collections those of a bag, `Completed`, `CompleteAdding` and `AddingCompleted`.
#[derive(Clone, Copy, Debug, PartialEq, Eq)]
pub enum Call {
    Enq(u64),
    Deq,
    Peek,
    Count,
    Snap,
    Add(u64),
    Take,
    Write(u64),
    Read,
    BeginWrite(u64),
    BeginRead,
    BeginLookWrite,
    BeginLookRead,
    /// Asks for the answer of the caller's own wait of this number.
    Poll(u64),
    /// Gives up the caller's own wait of this number.
    Cancel(u64),
    /// Completes a channel with the fault of this number, 0 for none.
    CompleteWith(u32),
    Completed,
    CompleteAdding,
    AddingCompleted,
}

/// A reply as a history writes it. A fault is its number, 0 for none.
#[derive(Debug, Drop)]
pub enum Reply {
    Done,
    /// The write was done, and this item was dropped.
    Dropped(u64),
    Full,
    /// The channel is complete with this fault, and the item was not written.
    Refused(u32, u64),
    Item(u64),
    /// A bag's item, and the caller whose list it was in.
    ItemFrom(u64, u32),
    Empty,
    /// A blocking collection has no item, and none can come.
    Ended,
    /// A blocking collection takes no more items.
    Closed,
    /// A channel has no item, and none can come.
    ClosedWith(u32),
    Count(u64),
    Numbers(Items),
    /// The wait of this number stands.
    Waiting(u64),
    Ready(bool),
    Faulted(u32),
    Cancelled,
    /// The write of this item was given up.
    CancelledWrite(u64),
    /// The caller has no wait of this number.
    Unknown,
    Flag(bool),
}

/// The items of a snapshot, which contracts see as a list of numbers.
#[derive(Debug, Drop)]
pub struct Items {
    numbers: Vec<u64>,
}

impl Model for Items {
    ghost use Rattle.std.specs.Prelude.{List, ℕ};

    ghost Value = { List ℕ };

    ghost view = { λ i. i.numbers.items };
}

impl Items {
    /// The items with these numbers. Takes no memory.
    pub fn from_vec(numbers: Vec<u64>) -> Items
        ensures { result ≡ numbers.items }
    {
        Items { numbers }
    }

    pub fn as_slice(&self) -> &[u64]
        ensures { result.now ≡ self.now }
    {
        &self.numbers
    }
}

/// One call of a history, with its caller and its reply.
#[derive(Debug, Drop)]
pub struct Entry {
    pub caller: u32,
    pub call: Call,
    pub reply: Reply,
}

/// A history, which contracts see as a list of entries.
#[derive(Debug, Drop)]
pub struct History {
    entries: Vec<Entry>,
}

impl Model for History {
    ghost use Rattle.std.specs.Prelude.{List};
    ghost use Rattle.ho_model.specs.declared.histories.Entry.{Entry};

    ghost Value = { List Entry };

    ghost view = { λ h. h.entries.items };
}

impl History {
    /// The history of these entries. Takes no memory.
    pub fn from_vec(entries: Vec<Entry>) -> History
        ensures { result ≡ entries.items }
    {
        History { entries }
    }

    pub fn entries(&self) -> &[Entry]
        ensures { result.now ≡ self.now }
    {
        &self.entries
    }
}

/// Whether an object accepts a history.
#[derive(Clone, Copy, Debug, PartialEq, Eq)]
pub enum Verdict {
    Legal,
    /// The first entry that the object refuses, counted from 0.
    IllegalAt { entry: u64 },
}

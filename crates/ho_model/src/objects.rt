// Which objects there are.

/// What a write to a full channel does, as .NET's `BoundedChannelFullMode`.
#[derive(Clone, Copy, Debug, PartialEq, Eq)]
pub enum Mode {
    /// The write is refused, or waits for room.
    Wait,
    /// The item that was written last makes room.
    DropNewest,
    /// The item that was written first makes room.
    DropOldest,
    /// The item that is being written is dropped.
    DropWrite,
}

/// Where a blocking collection keeps its items. Each stands for a collection of .NET that can lie
/// under a `BlockingCollection<T>`.
#[derive(Clone, Copy, Debug, PartialEq, Eq)]
pub enum Store {
    /// First in, first out, as a `ConcurrentQueue<T>`.
    Fifo,
    /// Last in, first out, as a `ConcurrentStack<T>`.
    Lifo,
    /// A list for each caller, as a `ConcurrentBag<T>`.
    Bag,
}

/// An object with its parameters.
#[derive(Clone, Copy, Debug, PartialEq, Eq)]
pub enum Object {
    /// A first-in first-out queue with room for so many items, after `ConcurrentQueue<T>`. The
    /// length of its first segment changes no answer.
    Queue { room: u32, first_len: u32 },
    /// An unordered collection with a list for each caller, after `ConcurrentBag<T>`.
    Bag,
    /// A channel without a capacity, after `Channel.CreateUnbounded<T>`.
    Unbounded,
    /// A channel with a capacity, after `Channel.CreateBounded<T>`.
    Bounded { capacity: u32, mode: Mode },
    /// A channel whose items leave by priority, after `Channel.CreateUnboundedPrioritized<T>`.
    Prioritized,
    /// A collection that can be completed for adding, after `BlockingCollection<T>`, with a bound
    /// on its items or none.
    Blocking { store: Store, bound: Option<u32> },
}

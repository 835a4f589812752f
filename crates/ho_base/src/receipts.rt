// Where a call stands among the calls on its object.

/// What a call on a shared object knows of its place, beside its reply. All counts are of entries
/// of the object's history before the call's own.
#[derive(Clone, Copy, Debug, PartialEq, Eq)]
pub enum Receipt {
    /// How many entries stand before it.
    Place { number: u64 },
    /// How many items were enqueued before it, and the segment that took this one.
    Enqueued { position: u64, segment: u64 },
    /// How many items were taken before it.
    Dequeued { position: u64 },
    /// How many items were taken before it.
    Peeked { position: u64 },
    /// How many items were taken and how many enqueued before it.
    Looked { head: u64, tail: u64 },
}

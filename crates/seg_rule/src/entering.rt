// The entries that loads make.

/// The entry that a load is to make, where the value that it reads decides it.
#[derive(Clone, Copy, Debug)]
pub enum Entering {
    Nothing,
    /// The load of the head, for an enqueue of this value: it is full where the head is the room
    /// below this tail, which was read before.
    Full { value: u64, tail: u64 },
    /// The load of a tail, for a peek or a dequeue: there is no item where the tail is open at this
    /// head, which was read before.
    Empty { head: u64, peek: bool },
    /// The load of the head, for a peek: this item is the first where the head is as it was read
    /// before the item.
    Peek { head: u64, item: u64 },
    /// The load of the head, for a count, by a pass that has the tail closed at this position.
    Count { tail: u64 },
}

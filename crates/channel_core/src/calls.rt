// The calls of a channel, and its replies.

use ho_base::Fault;

/// A call on a channel. The names in parentheses are .NET's.
#[derive(Debug, PartialEq, Eq, Drop)]
pub enum ChannelCall<T> {
    /// Writes an item, if that needs no wait (`ChannelWriter<T>.TryWrite`).
    Write(T),
    /// Reads an item, if there is one (`ChannelReader<T>.TryRead`).
    Read,
    /// Shows the number of the item that a read would take (`TryPeek`).
    Peek,
    /// Counts the items in the buffer (`ChannelReader<T>.Count`).
    Count,
    /// Writes an item, or stands as a wait for room (`WriteAsync`).
    BeginWrite(T),
    /// Reads an item, or stands as a wait for one (`ReadAsync`).
    BeginRead,
    /// Looks for room, or stands as a wait for it (`WaitToWriteAsync`).
    BeginLookWrite,
    /// Looks for an item, or stands as a wait for one (`WaitToReadAsync`).
    BeginLookRead,
    /// Fetches the answer of the caller's own wait of this number.
    Poll(u64),
    /// Gives up the caller's own wait of this number.
    Cancel(u64),
    /// Completes the channel, with a fault or without (`TryComplete`).
    Complete(Option<Fault>),
    /// Whether the channel is complete and has no item left (`Completion`).
    Completed,
}

/// What a channel answers. An item that is not kept is handed back.
#[derive(Debug, PartialEq, Eq, Drop)]
pub enum ChannelReply<T> {
    /// The item is in the buffer, or was handed to a read that waited.
    Done,
    /// The item was dealt with as the mode says, and this one was dropped.
    Dropped(T),
    /// There is no room for the item.
    Full(T),
    /// The channel was completed with this fault, and takes no item.
    Refused(Option<Fault>, T),
    Item(T),
    /// The number of the item that a read would take.
    Shown(u64),
    Empty,
    Count(u64),
    /// The channel was completed with this fault, and has no item left.
    Closed(Option<Fault>),
    /// The caller's wait of this number stands. It is the count of begins that the caller made
    /// before.
    Waiting(u64),
    /// What was looked for is there, or cannot come any more.
    Ready(bool),
    /// What was looked for cannot come any more, by this fault.
    Faulted(Fault),
    /// A wait for an item, or a look, was given up.
    Cancelled,
    /// A write was given up before its item entered.
    CancelledWrite(T),
    /// The caller has no wait of this number.
    Unknown,
    /// The call's yes or no.
    Flag(bool),
}

// Which parameters a queue may not have.
ghost use Rattle.std.specs.Prelude.{◌≡◌, ◌<◌, ◌≤◌, ◌↔◌, IsTrue};
ghost use Rattle.concurrent_queue.specs.Queues.{IsBadRoom, IsFirstLength, IsTooLarge};

use seg_layout::{longest, places};

/// Why no queue was made.
#[derive(Clone, Copy, Debug, PartialEq, Eq)]
pub enum QueueRefused {
    /// The room is 0, or above 65,536.
    BadRoom,
    /// The length of a first segment is not a power of two from 2 to 1,024.
    BadLength,
    /// The segments for so much room and so many callers have more than 33,554,432 slots. A queue behind
    /// a turn has none, and is never refused so.
    TooLarge,
    /// There was not the memory for its room.
    NoMemory,
}

/// The most items that a queue has room for.
const MOST_ROOM: u32 = 65_536;

/// The longest first segment.
const LONGEST_FIRST: u32 = 1_024;

/// The most slots of all places.
const MOST_SLOTS: u64 = 33_554_432;

/// Whether a queue can't have so much room.
pub(crate) fn is_bad_room(room: u32) -> bool
    ensures { IsTrue result ↔ IsBadRoom room }
{
    room == 0 || room > MOST_ROOM
}

/// Whether a first segment can have this length.
pub(crate) fn is_first_length(length: u32) -> bool
    ensures { IsTrue result ↔ IsFirstLength length }
{
    2 <= length && length <= LONGEST_FIRST && length.is_power_of_two()
}

/// Whether the places of a queue with these parameters have too many slots.
pub(crate) fn is_too_large(room: u32, first_len: u32, callers: u32) -> bool
    requires room { (0 < room) × (room ≤ 65536) }
    requires first_len { IsFirstLength first_len }
    requires callers { (0 < callers) × (callers ≤ 64) }
    ensures { IsTrue result ↔ IsTooLarge room first_len callers }
{
    places(room, first_len, callers) * u64::from(longest(first_len)) > MOST_SLOTS
}

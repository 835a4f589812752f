// How long segments are, and how many places they need.
ghost use Rattle.std.specs.Prelude.{◌≡◌, ◌<◌, ◌≤◌};
ghost use Rattle.seg_layout.specs.Lengths.{IsFirstLength, IsSegmentLength, longest_of, places_of, next_len_of};

/// How many times a segment may double.
const LONGEST_IN_FIRSTS: u32 = 32;

/// The longest segment of any queue.
const LONGEST: u32 = 1_024;

/// The longest segment of a queue whose first one has `first_len` slots, a power of two from 2 to
/// 1,024: 32 times as long, and at most 1,024.
///
/// .NET's queue begins at 32 and doubles up to 1,048,576; both limits here are this project's.
pub fn longest(first_len: u32) -> u32
    requires { IsFirstLength first_len }
    ensures value { result ≡ longest_of first_len }
    ensures length { IsSegmentLength first_len result }
{
    (LONGEST_IN_FIRSTS * first_len).min(LONGEST)
}

/// How many places a queue has with room for 1 to 65,536 items and for 1 to 64 callers: those of as
/// many full segments of the first length as hold the room, and one more, for each caller, and one
/// for the queue.
pub fn places(room: u32, first_len: u32, callers: u32) -> u64
    requires room { (1 ≤ room) × (room ≤ 65536) }
    requires first_len { IsFirstLength first_len }
    requires callers { (1 ≤ callers) × (callers ≤ 64) }
    ensures { result ≡ places_of room first_len callers }
{
    let each = u64::from(room) / u64::from(first_len) + 1;
    u64::from(callers) * each + 1
}

/// How long the segment is that follows one of length `len`: twice as long, up to the longest, or
/// the first length again where a snapshot holds the one before it, so that a queue which is
/// observed again and again does not grow.
pub fn next_len(len: u32, observed: bool, first_len: u32) -> u32
    requires first_len { IsFirstLength first_len }
    requires len { IsSegmentLength first_len len }
    ensures value { result ≡ next_len_of first_len len observed }
    ensures length { IsSegmentLength first_len result }
{
    if observed {
        first_len
    } else {
        (2 * len).min(longest(first_len))
    }
}

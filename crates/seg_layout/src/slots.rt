// Positions, slots, and the numbers that slots show.
ghost use Rattle.std.specs.Prelude.{◌≡◌, ◌+◌, ◌^◌, ◌<◌, ◌≤◌};
ghost use Rattle.seg_layout.specs.Numbers.{slot_at, free_at, published_at, IsOpeningNumber};

/// The slot of a position in a segment of length `len`, at least 1.
pub fn slot_of(position: u64, len: u32) -> u32
    requires { 1 ≤ len }
    ensures value { result ≡ slot_at position len }
    ensures inside { result < len }
{
    (position % u64::from(len)) as u32
}

/// The number of a slot that is free for this position, below 2^62.
pub fn free_number(position: u64) -> u64
    requires { position < 2 ^ 62 }
    ensures { result ≡ free_at position }
{
    2 * position
}

/// The number of a slot in which the item of this position, below 2^62, is published.
pub fn published_number(position: u64) -> u64
    requires { position < 2 ^ 62 }
    ensures { result ≡ published_at position }
{
    2 * position + 1
}

/// The number of a slot that was released after the item of this position, below 2^62, was taken:
/// that of a slot free for the position one length later, which lies in it next.
pub fn released_number(position: u64, len: u32) -> u64
    requires { position < 2 ^ 62 }
    ensures { result ≡ free_at (position + len) }
{
    2 * (position + u64::from(len))
}

/// The number that a slot shows as its segment is opened with the first position `start`, below
/// 2^62: that of a slot free for the first position that lies in it.
pub fn opening_number(start: u64, len: u32, slot: u32) -> u64
    requires start { start < 2 ^ 62 }
    requires slot { slot < len }
    ensures { IsOpeningNumber start len slot result }
{
    let in_this_turn = start - start % len as u64 + slot as u64;
    if in_this_turn < start {
        2 * (in_this_turn + len as u64)
    } else {
        2 * in_this_turn
    }
}

// What a seat of the queue's table knows. No value of these types is ever made: contracts alone
// speak of them, as what the view of a pass holds.
use ho_model::{EntryMark, Object};
use std::collections::LinkedList;

/// What a take knows of its leave to release its slot.
pub enum Leave {
    /// The observers of its place were not read yet.
    Unread,
    /// Nobody observed the place after the take.
    Granted,
    /// The same, and it read this length of the place after the take.
    Measured(u64),
    /// Somebody did, so the slot is left to the snapshots.
    Refused,
    /// It has released its slot.
    Released,
}

/// The position that a seat has in hand, with its place and its slot, and of an enqueue the item.
pub enum Hand {
    Nothing,
    /// It enqueued the item by the position, and the slot is its own.
    Reserved(u64, u64, u64, u64),
    /// The item is in the slot.
    Stored(u64, u64, u64, u64),
    /// It took the position's item.
    Taking(u64, u64, u64, Leave),
}

/// How far a seat has come with the turn.
pub enum Stage {
    Away,
    /// It has the turn, and the tail of the current place is open.
    Plain,
    /// It closed the tail of this place at this position. The flag says that the segment is full.
    Closed(u64, u64, bool),
    /// The same, the segment is full, and this other place is free.
    Found(u64, u64, u64),
    /// It prepares, beside this current place, this other place for a segment with this start and
    /// length, and wrote so many words of it.
    Preparing(u64, u64, u64, u64, u64),
    /// Beside this current place it opened this place at this position, and has not made it current.
    Opened(u64, u64, u64),
    /// The same, and the segment before is linked to it.
    Linked(u64, u64),
    /// It closed the tail of this place at this position, and observes the segments from the first
    /// of these two numbers up to and with the second, which lies in the third place named.
    Observing(u64, u64, u64, u64, u64),
}

/// An open tail that was read in a place, then the length of that place and how many segments were
/// opened before it, and then whether the slot of the position was free, or the segment was full.
pub struct OpenTail {
    pub place: u64,
    pub position: u64,
    pub length: Option<u64>,
    pub number: Option<u64>,
    pub fits: bool,
    pub full: bool,
}

/// A position that was found published, in this place and slot, and then the item.
pub struct Front {
    pub position: u64,
    pub place: u64,
    pub slot: u64,
    pub item: Option<u64>,
}

/// A place that was looked at as the next one: its closed tail, its start, and whether as many
/// takes were done in it as it had positions.
pub struct Candidate {
    pub place: u64,
    pub end: u64,
    pub start: Option<u64>,
    pub spent: bool,
}

/// What a seat has read of the chain. To the holder of the turn it tells how the chain stands.
pub struct Scan {
    pub first: Option<u64>,
    pub current: Option<u64>,
    /// A place and its length.
    pub length: Option<(u64, u64)>,
    /// A place and how many snapshots observe it.
    pub observers: Option<(u64, u64)>,
    /// A place and the next one.
    pub next: Option<(u64, u64)>,
    /// The first segment ends above this head, or is the current one.
    pub past: Option<u64>,
    /// The first segment ends above this head.
    pub inside: Option<u64>,
    /// The end of the last segment that first was moved past under this turn.
    pub moved: Option<u64>,
    pub candidate: Option<Candidate>,
}

/// What a seat has read in this call.
pub struct Notes {
    pub head: Option<u64>,
    /// A head above which the head stands by now.
    pub gone: Option<u64>,
    pub tail: Option<OpenTail>,
    pub front: Option<Front>,
    pub scan: Scan,
}

/// A snapshot of the positions from `head` up to `tail`, in the segments numbered from `begin` up to
/// `end`, of which the first and the last lie in these places; and what was read of the first place.
/// Until the snapshot is taken, `head` and `tail` have no meaning and are 0.
pub struct Window {
    pub begin: u64,
    pub end: u64,
    pub head: u64,
    pub tail: u64,
    pub first: u64,
    pub last: u64,
    /// The place after the first one.
    pub after: Option<u64>,
    /// The position at which the tail of the first place stands: its end, if it is not the last.
    pub ends: Option<u64>,
    /// The length of the first place.
    pub length: Option<u64>,
    /// The slot of the first place whose number was read last, and that number.
    pub shown: Option<(u64, u64)>,
}

/// Why a try gave no answer: what steps of one call have read.
#[derive(Clone, Copy, Debug, PartialEq, Eq)]
pub enum Obstacle {
    /// Two positions of the head, the second above the first.
    HeadMoved(u64, u64),
    /// Two positions of an open tail, the second above the first.
    TailMoved(u64, u64),
    /// The number of the caller that has the turn.
    Turned(u64),
    /// The place read as current, whose tail is closed.
    ClosedCurrent(u64),
    /// The place read as current, the position of its open tail, and the number of a slot that is
    /// not free for it.
    NotFree(u64, u64, u64),
    /// The place read as first, the position of the head, and the number of a slot that is not
    /// published for it.
    NotPublished(u64, u64, u64),
    /// The place in which a position lies, that position, and the number of its slot, which is not
    /// published.
    Unpublished(u64, u64, u64),
    /// The place read as current under the turn with its tail closed.
    IsCurrent(u64),
    /// A place whose segment ends at this position, above this head.
    InChain(u64, u64, u64),
    /// A place and how many takes were done in it, which is not the count of its positions.
    Unfinished(u64, u64),
    /// A place that snapshots hold.
    Observed(u64),
}

/// A seat that took in another one: what the two had seen, and which numbers they held.
pub struct Joint {
    pub first: LinkedList<EntryMark>,
    pub second: LinkedList<EntryMark>,
    pub first_held: LinkedList<bool>,
    pub second_held: LinkedList<bool>,
}

/// What a seat knows.
pub struct View {
    pub object: Object,
    /// The callers of the object are those below this number.
    pub callers: u64,
    pub caller: u64,
    /// At each number below 64, whether it is held.
    pub held: LinkedList<bool>,
    /// At each number that is held, how many calls were counted.
    pub made: LinkedList<u64>,
    pub seen: LinkedList<EntryMark>,
    pub met: LinkedList<Obstacle>,
    /// It took in another seat, and was not told yet what that left.
    pub joint: Option<Joint>,
    /// This call was counted at its turn, and has made no entry yet.
    pub paid: bool,
    pub notes: Notes,
    pub hand: Hand,
    pub stage: Stage,
    pub window: Option<Window>,
}

// What a seat of the turn lock's table knows. Of `View` and `Turn` no value is ever made.
use ho_model::{EntryMark, Object};
use std::collections::LinkedList;

/// How far a seat has come with a turn.
pub(crate) enum Turn {
    Idle,
    /// It read this number as served.
    Looked(u64),
    /// It has this ticket.
    Drawn(u64),
    /// It has the turn of this number, and the machine with it.
    Holds(u64),
    /// The same, and it has made its entry.
    Entered(u64),
    /// It took in another seat: what the two had seen, and which numbers they held.
    Joined(LinkedList<EntryMark>, LinkedList<EntryMark>, LinkedList<bool>, LinkedList<bool>),
}

/// Why a try answered that the lock is busy: a serving number and a ticket number above it, so that the
/// tickets from the first on were out. By the rule neither number was ever above its word.
/// The serving number is at least the number of entries that the pass had seen before.
#[derive(Clone, Copy, Debug, PartialEq, Eq)]
pub struct Obstacle {
    pub serving: u64,
    pub ticket: u64,
}

/// What a seat knows.
pub(crate) struct View {
    pub(crate) object: Object,
    /// The callers of the object are those below this number.
    pub callers: u64,
    pub caller: u64,
    /// At each number below 64, whether it is held.
    pub held: LinkedList<bool>,
    /// At each number that is held, how many calls were counted.
    pub made: LinkedList<u64>,
    pub seen: LinkedList<EntryMark>,
    pub met: LinkedList<Obstacle>,
    pub turn: Turn,
}

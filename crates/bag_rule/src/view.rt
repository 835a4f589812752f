// What a seat of the bag's table knows. Only of `Obstacle` values could be made.
use ho_model::EntryMark;
use std::collections::LinkedList;

/// What a seat has of one list.
pub enum Hand {
    Away,
    /// It keeps the list, in which these items are, each as its mark.
    Kept(LinkedList<LinkedList<u64>>),
}

/// What a step of a try has read. Each list take, each load and each exchange that was lost leaves one,
/// so that a try that has no answer tells the whole way by which it came to that.
#[derive(Clone, Copy, Debug, PartialEq, Eq)]
pub enum Obstacle {
    /// A list, and the caller that holds it.
    Held(u64, u64),
    /// A list that was taken and had no item.
    Bare(u64),
    /// A list that was taken and had items.
    Stocked(u64),
    /// How many events and how many items the event word showed to a load.
    Event(u64, u64),
    /// An exchange that was lost: how many events it was to find, with no items, and how many events
    /// and items the event word showed.
    Missed(u64, u64, u64),
}

/// A seat that took in another one: what the two had seen, and which numbers they held.
pub struct Joint {
    pub first: LinkedList<EntryMark>,
    pub second: LinkedList<EntryMark>,
    pub first_held: LinkedList<bool>,
    pub second_held: LinkedList<bool>,
}

/// What a seat knows.
pub struct View {
    /// The callers of the bag are those below this number.
    pub callers: u64,
    pub caller: u64,
    /// At each number below 64, whether it is held.
    pub held: LinkedList<bool>,
    /// At each number that is held, how many calls were counted.
    pub made: LinkedList<u64>,
    pub seen: LinkedList<EntryMark>,
    pub met: LinkedList<Obstacle>,
    /// For each of 64 lists what the seat has of it.
    pub keeps: LinkedList<Hand>,
    /// How many events the first load of a take showed, and which lists were found without an item
    /// since.
    pub since: u64,
    pub bare: LinkedList<bool>,
    /// How many events and items the last load showed.
    pub events: u64,
    pub items: u64,
    /// It took in another seat, and was not told yet what that left.
    pub joint: Option<Joint>,
}

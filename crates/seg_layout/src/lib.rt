//! The layout of a queue that is stored in segments: which slot a position lies in, which number a
//! slot shows, how long a segment is, and how many places for segments a queue needs.
//!
//! *Positions* number the enqueues of a queue's whole life, from 0. A *segment* is a run of
//! positions that follow each other; it stands in a *place* with so many *slots*, and position p
//! lies in slot p mod the segment's length. A slot shows one number, from which all callers read
//! its state:
//!
//! ```text
//!   number of a slot    free        published     free for the next turn
//!   for position p      2p    -->   2p + 1   -->  2(p + length)
//! ```
//!
//! An enqueue may write where the slot shows the free number of its position, a dequeue may read
//! where it shows the published one, and what releases the slot writes the free number of the
//! position that comes to lie there next. The scheme is that of Dmitry Vyukov's bounded queue,
//! which .NET's `ConcurrentQueueSegment<T>` follows too; the parity of the number is this
//! project's.
//!
//! All of it is arithmetic: no memory, no state, constant time. It stands on std alone. It promises
//! upward that each number is the one that its definition in `specs/` says, and the laws of the
//! layout as contracts of functions without code: no number serves two positions, positions less
//! than a length apart lie in slots of their own, and a length stays a length.
#![tactic(auto)]

mod laws;
mod lengths;
mod slots;

pub use laws::{
    a_number_tells_its_position, near_positions_have_slots_of_their_own,
    released_slots_serve_the_next_turn, segment_lengths_are_bounded,
};
pub use lengths::{longest, next_len, places};
pub use slots::{free_number, opening_number, published_number, released_number, slot_of};

#[cfg(test)]
mod tests;

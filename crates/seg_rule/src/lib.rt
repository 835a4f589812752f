//! The rule of a queue that is stored in segments and shared without a lock: what holds of its table
//! between any two steps, whatever callers do, and each kind of step that they may make.
//!
//! [`QueueTable`] is the table: the words of the queue and of its places ([`QueueWord`]), whose
//! layout is that of `seg_layout`. [`QueuePass`] is the right to step on it under a number. A pass
//! knows what it has seen of the queue's history, the position that it has in hand, how far it is
//! with the turn, and what it has read in this call. Contracts speak of it as a `QueueView`
//! (`specs/Passes.antt`), and each function of the table says what it leaves of that. The table,
//! the rule's parts and their reasons are told in `docs/QUEUE.md`.
//!
//! The rule (`specs/Rule.antt`) is written as parts: one for the head, one for the turn, one for the
//! chain of segments, one for each place and each slot, and one for each pass. What one pass may
//! rely on, while another steps, is `specs/Rely.antt`; that this keeps all that a pass knows is
//! proved once, for all kinds of step (`proofs/Stays.antt`). Each kind then shows the parts whose
//! words it changes, in a file of its family.
//!
//! It promises upward that each of these steps is one call on one word and keeps the rule: *tail
//! reserve*, *item store*, *publish*, *head take*, *release*, *done add*, *split* and *join*; *turn
//! take*, *turn leave*, *tail close*, *place words*, *tail open*, *current store* and *first store*;
//! *observe add*, *head look*, *tail reopen* and *observe end*; and the load of any word. An entry of
//! the queue is made at a tail reserve, a head take, a head look or a load, where the step wins or its
//! value decides it, and is legal for the queue object. An exchange that is lost files what it found as
//! an obstacle.
//!
//! A snapshot is taken under the turn, with the tail closed: *observe add* of each place from the first
//! to the current one, then *head look*, whose entry has the whole queue as its reply. The pass has its
//! positions in a *window* from then on. They stay in their slots until *observe end* lets their place
//! go, since a take that reads observers does not release. Their items are read place by place: each
//! load of the window's first place tells what it says of them (`TellsWindow` of `specs/Tells.antt`).
//! At most 64 windows are over a place: each is of a pass that holds its own number.
//!
//! What no clause says yet: that notes do not outlive a call which begins with another word than the
//! first or the current place, or with the turn; what a load of the turn, of a start or of a count of
//! takes read, where the pass notes nothing of it; and that the next length was chosen by whether the
//! place is observed. `paid` stays true from a turn to the entry or to the next call.
//!
//! It stands on `atomic_table`, where each step is sequentially consistent, on `seg_layout` for the
//! layout, on `passes` for the numbers of passes and on `ho_model`, which says what a queue is.
//! Steps take no memory and constant time. Want of memory is the one free answer, of
//! [`QueueTable::new`] alone, which takes time and memory by the slots of all places.
#![tactic(auto)]

mod entering;
mod form;
mod pass;
mod plays;
mod snapshot;
mod start;
mod steps;
mod table;
mod view;
mod word;

pub use entering::Entering;
pub use form::Form;
pub use pass::QueuePass;
pub use table::QueueTable;
pub use view::{
    Candidate, Front, Hand, Joint, Leave, Notes, Obstacle, OpenTail, Scan, Stage, View, Window,
};
pub use word::{QueueWord, index};

#[cfg(test)]
mod tests;

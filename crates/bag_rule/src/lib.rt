//! The rule of a bag's words, and the steps that keep it.
//!
//! Up to 64 callers share a table ([`BagTable`]): an event word, and for each caller a list word and a
//! slot with its list. A seat that has exchanged the word of a list holds the list, and alone may
//! change it. Each entry of the bag's history is one step on the event word, which counts events and
//! items. `docs/BAG.md` tells the rule with the reason of each part; here it is `specs/Rule.antt`.
//!
//! Each kind of step is one call on one word (`src/steps.rt`): *list take* and *list leave*; *add
//! event*, *take event*, *quiet event* and *empty exchange*, which make the entries; loads; *split* and
//! *join*. Each is proved to keep the rule, whatever other seats do between, and tells what it found
//! (`specs/Plays.antt`). What a call has to show for its entry is only that the bag takes it wherever it
//! has the lists that the seat keeps.
//!
//! It stands on `atomic_table`, where each step is sequentially consistent, on `item_lists` for the
//! lists, on `passes` for the numbers of passes and on `ho_model`, which says what a bag is. It promises
//! upward that each step leaves of its seat what its clause says, and that each entry is legal and at
//! the place that it returns. A step takes constant time and no memory. Want of memory is the one free
//! answer, of [`BagTable::new`], of a push and of a copy of numbers.
#![tactic(auto)]

mod entries;
mod hands;
mod layout;
mod plays;
mod steps;
mod table;
mod view;

pub use layout::{EVENT, MOST_CALLS, MOST_ITEMS};
pub use plays::BagRule;
pub use steps::Seat;
pub use table::BagTable;
pub use view::{Hand, Joint, Obstacle, View};

#[cfg(test)]
mod tests;

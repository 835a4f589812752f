//! What goes into a channel and what comes out, over all legal histories of a channel.
//!
//! Each function does nothing; its contract is a law that the check proves, of every legal history of
//! a channel with room for an item, in any mode and with or without priorities. Items are weighed:
//! `weight h written_in e` is what the item weighs, by any h, that the entry e writes, and `sum_by` of
//! that is the weight of all that was written. Weights add up over the own entries of passes that are
//! joined, so the laws serve whoever has seen a history whole.
//!
//! - `specs/Items.antt`: the items in entries, and their weight.
//! - `specs/Ends.antt`: entries that begin and finish waits, and that tell of the end.
//! - `specs/Laws.antt`: the laws.
//! - `specs/Rows.antt`: worked histories.
//!
//! It stands on `ho_model` for what a legal history is, and on `channel_laws` for the states that
//! histories reach and for the table of rows by which all of its own laws are shown. It promises upward
//! that once a channel is drained no item was lost or doubled, that nothing is refused before the
//! completion, which channels drop, and that all reads are told one fault.
//!
//! The crate has no must-fail edits: its functions have no code, so that no edit of it can be refused.
//! What guards the definitions are the worked histories, two of which show that neither half of
//! 'drained' can be left out.
#![tactic(auto)]

mod rows;

ghost use Rattle.channel_flow.specs.Laws.{WhatGoesInComesOut, NoneIsToldBeforeTheEnd, NoneIsRefusedBeforeTheEnd, NoneIsDroppedWithoutMode, OnlyFullChannelsDrop, OneFaultIsTold};

pub use rows::the_worked_rows_are_counted;

/// Once as many waits were finished as begun, and some read was told of the end: what was written was
/// taken, dropped, refused or given back, each item once.
pub fn what_goes_in_comes_out()
    ensures { WhatGoesInComesOut }
{}

/// Where no call completes the channel no read, write or look is told of a completion, and nothing is
/// refused.
pub fn none_is_refused_before_the_end()
    ensures told { NoneIsToldBeforeTheEnd }
    ensures refused { NoneIsRefusedBeforeTheEnd }
{}

/// Without a drop mode nothing is dropped. With one, where every wait was finished and some read was
/// told of the end, nothing was dropped, or as many items were taken as the channel has room for.
pub fn only_full_channels_drop()
    ensures mode { NoneIsDroppedWithoutMode }
    ensures full { OnlyFullChannelsDrop }
{}

/// Every read that is told of the end is told the fault of the first completion.
pub fn one_fault_is_told()
    ensures { OneFaultIsTold }
{}

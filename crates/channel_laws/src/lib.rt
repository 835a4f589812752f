//! The laws of channels, over the definitions of `ho_model`.
//!
//! Each function does nothing; its contract is a law that the check proves, of every state that a
//! legal history of a channel reaches, in any mode and with or without priorities. Where a law says
//! that a wait stands only where it must, the channel has room for one item at least; the others hold
//! for a capacity of 0 too. A machine whose `step` is its object, as those of `channel_core` and
//! `priority_core`, inherits the laws, and so does whatever shares such a machine.
//!
//! - `specs/Twin.antt`: a channel beside its twin, which lacks one wait.
//! - `specs/Reached.antt`: the states that histories reach.
//! - `specs/Kinds.antt`: the answers that a begin's wait can get.
//! - `specs/Laws.antt`: the laws.
//!
//! `proofs/Table.antt` tells the table of calls as one list of rows: what holds of each row holds of every
//! call. The same walk tells when a channel with other waits answers alike, which `proofs/Following.antt`
//! asks of the twin. By the rows a call changes the waits in one of five ways, which `proofs/Effects.antt`
//! tells over the waits and the counts of begins alone, so that what is kept by the five is kept by every
//! call.
//!
//! The crate has no must-fail edits: its functions have no code, so that no edit of it can be refused.
//! What guards the laws is that they are proved of the definitions as they stand.
#![tactic(auto)]

ghost use Rattle.channel_laws.specs.Laws.{CancelLeavesTwin, CancelledWasOpen, WaitingIsOpen, OthersFollow, DoneWithoutTheWait, CancelledAtOnce, WaitsStandWhereTheyMust, CompletedAnswersExactly, CompletedExactly, CompletedHasNoWaits, BeginsAreOfChannels, PollsAnswerInKind, CancelsAnswerInKind, ReadsTakeFirstLeast};

/// A cancelled wait has taken and left nothing: a cancel of an unanswered wait leaves exactly the
/// channel without it, and until then every call either answered it, or answered and changed the
/// channel as if the wait had not been there. So over whole histories: all that was done between the
/// begin and the cancel, but for polls of the wait itself, is done with the same replies by the channel
/// without the wait, and leaves the channel that the cancel left. The cancel could as well have come at
/// once.
pub fn a_cancelled_wait_leaves_no_trace()
    ensures cancel { CancelLeavesTwin }
    ensures others { OthersFollow }
    ensures without { DoneWithoutTheWait }
    ensures at_once { CancelledAtOnce }
{}

/// A cancel that says that it gave a wait up found it unanswered, and so does a poll that says that a
/// wait stands, which changes nothing.
pub fn a_wait_that_was_given_up_was_unanswered()
    ensures cancelled { CancelledWasOpen }
    ensures waiting { WaitingIsOpen }
{}

/// In a channel that has room for an item an unanswered read or look for an item stands only with an
/// empty buffer, an unanswered write or look for room only with a full one in mode `Wait`, and none
/// once the channel is complete. Each wait has a name of its own: its caller, and a number below its
/// caller's count of begins.
pub fn waits_stand_only_where_they_must()
    ensures { WaitsStandWhereTheyMust }
{}

/// A channel says that it is completed exactly where its completion is set and its buffer is empty, and
/// stays as it is. Where it has room for an item no wait is unanswered then.
pub fn completed_is_the_end()
    ensures answers { CompletedAnswersExactly }
    ensures exactly { CompletedExactly }
    ensures no_waits { CompletedHasNoWaits }
{}

/// Only a channel accepts a begin: a legal history that ends in one is a channel's.
pub fn only_channels_have_waits()
    ensures { BeginsAreOfChannels }
{}

/// A wait is answered in the kind of the begin that left it, and by nothing else: a read with an item
/// or with the end, a write with done or refused with its own item, a look with ready or faulted.
/// Until such an answer was fetched, or the wait was cancelled, a poll says that it stands, or answers
/// so; a cancel says that it is given up, or answers so. So the wait is never unknown before.
pub fn a_wait_is_answered_in_kind()
    ensures polls { PollsAnswerInKind }
    ensures cancels { CancelsAnswerInKind }
{}

/// With a priority a read takes, of the items of least priority, the one that was written first.
pub fn a_read_takes_the_first_of_least_priority()
    ensures { ReadsTakeFirstLeast }
{}

// A snapshot's kinds of step, each one call on the table by a seat.
ghost use Rattle.std.specs.Prelude.{◌≡◌, ◌<◌, ◌≤◌};
ghost use Rattle.seg_rule.specs.Snapshots.{MayObserve, Observes, MayLookAll, Snaps, tail_at, MayEnd, without_first};
ghost use Rattle.seg_rule.specs.Seats.{IsFor, IsSame};

use crate::plays::Naming;
use crate::steps::{Board, Seat};
use crate::view::View;
use crate::word::{QueueWord, index};
use atomic_table::Play;
use std::marker::PhantomData;

/// A place is observed.
pub(crate) struct Observe<A> {
    marker: PhantomData<A>,
}

impl<A: Naming> Play<u64, View> for Observe<A> {
    ghost use Rattle.seg_rule.specs.Snapshots.{observes};

    ghost then = { observes A.place };
}

/// The load of the head by which a snapshot is taken.
pub(crate) struct SeeAll;

impl Play<u64, View> for SeeAll {
    ghost use Rattle.seg_rule.specs.Snapshots.{snaps};

    ghost then = { snaps };
}

/// The first place of a snapshot is let go.
pub(crate) struct LetGo;

impl Play<u64, View> for LetGo {
    ghost use Rattle.seg_rule.specs.Snapshots.{ends};

    ghost then = { ends };
}

/// Observes the first place, or the one after that which was observed last.
pub(crate) fn observe_add<A: Naming>(board: &Board, slots: u32, seat: &mut Seat, place: u32)
    requires table { IsFor board.now.table_id board.now.key seat.old × (board.now.key.slots ≡ slots) }
    requires word { place < board.now.key.places }
    requires naming { A.place ≡ place }
    requires may { MayObserve seat.old.me.0 place }
    ensures same { IsSame seat.old seat.new × (seat.new.me.1 ≡ seat.old.me.1) }
    ensures observed { Observes seat.old.me.0 place seat.new.me.0 }
{
    let word = index(slots, &QueueWord::Observers(place));
    board.fetch_add::<Observe<A>>(seat, word, 1);
}

/// Loads the head, by which the snapshot of all observed places is taken.
pub(crate) fn head_look(board: &Board, slots: u32, seat: &mut Seat) -> u64
    requires table { IsFor board.now.table_id board.now.key seat.old × (board.now.key.slots ≡ slots) }
    requires may { MayLookAll seat.old.me.0 }
    ensures same { IsSame seat.old seat.new × (seat.new.me.1 ≡ seat.old.me.1) }
    ensures taken { Snaps seat.old.me.0 result seat.new.me.0 × (result ≤ tail_at seat.old.me.0.stage) }
{
    let word = index(slots, &QueueWord::Head);
    board.load::<SeeAll>(seat, word)
}

/// Lets the first place of the snapshot go.
pub(crate) fn observe_end(board: &Board, slots: u32, seat: &mut Seat, place: u32)
    requires table { IsFor board.now.table_id board.now.key seat.old × (board.now.key.slots ≡ slots) }
    requires word { place < board.now.key.places }
    requires may { MayEnd seat.old.me.0 place }
    ensures same { IsSame seat.old seat.new }
    ensures ended { seat.new.me ≡ (without_first seat.old.me.0, seat.old.me.1) }
{
    let word = index(slots, &QueueWord::Observers(place));
    board.fetch_sub::<LetGo>(seat, word, 1);
}

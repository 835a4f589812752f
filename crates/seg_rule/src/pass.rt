// The pass of a caller.
ghost use Rattle.std.specs.Prelude.{◌≡◌, ◌⊎◌, ◌<◌, ◌≤◌, ◌+◌, ◌^◌, true, IsTrue, ◌↔◌, slice_index};
ghost use Rattle.seg_rule.specs.Steps.{count_made};
ghost use Rattle.seg_rule.specs.Looks.{here_after, first_here};
ghost use Rattle.passes.specs.Numbers.{held_count, HasNumber, HasAll};

use crate::steps::Seat;
use crate::word::QueueWord;
use passes::Numbers;
use std::marker::Model;

/// How many calls that count a caller makes at most. With 64 callers no word of the table comes near
/// its last value.
pub(crate) const MOST_CALLS: u64 = 1 << 48;

/// The position that a pass acts on, and the tail that it has closed, as its view tells them.
#[derive(Clone, Copy)]
pub(crate) struct Here {
    pub position: u64,
    pub place: u32,
    pub slot: u32,
    /// The slot that is free for the open tail noted.
    pub tail_slot: u32,
    pub value: u64,
    /// The last length that was read.
    pub length: u64,
    pub closed_place: u32,
    pub closed_at: u64,
    /// The slot of that position in the segment that is prepared.
    pub first_slot: u32,
    /// This call was counted at its turn, and has made no entry yet.
    pub paid: bool,
    /// It has the turn.
    pub turn: bool,
}

impl Here {
    /// That of the first pass.
    pub(crate) fn first() -> Here
        ensures { result ≡ first_here }
    {
        Here {
            position: 0,
            place: 0,
            slot: 0,
            tail_slot: 0,
            value: 0,
            length: 0,
            closed_place: 0,
            closed_at: 0,
            first_slot: 0,
            paid: false,
            turn: false,
        }
    }

    /// After a load of this word that read this value.
    #[inline(always)]
    pub(crate) fn read(self, word: &QueueWord, value: u64) -> Here
        ensures { result ≡ here_after word.now value self }
    {
        let mut here = self;
        match *word {
            QueueWord::Current => here.paid = here.turn && here.paid,
            QueueWord::First => here.paid = here.turn && here.paid,
            QueueWord::Length(_) => here.length = value,
            QueueWord::Number(place, slot) => {
                here.place = place;
                here.slot = slot;
                here.tail_slot = slot;
            }
            _ => {}
        }
        here
    }
}

/// The right to call a queue under a number, and what its owner has seen of the queue.
///
/// Contracts see of it what every pass has (`pass_of` of `specs/Passes.antt`), and how far it is in
/// a call: the position in hand, how far it has come with the turn, its window, and what it has read
/// in this call. Between calls it is at rest (`IsAtRest` of `specs/Steps.antt`). A pass may move to
/// another thread. One that is dropped keeps its numbers for good, so that no pass of its queue is
/// whole again.
#[derive(Drop)]
pub struct QueuePass {
    pub(crate) seat: Seat,
    pub(crate) numbers: Numbers,
    pub(crate) here: Here,
}

impl Model for QueuePass {
    ghost use Rattle.seg_rule.specs.Passes.{QueueView, IsPass};

    ghost Value = { QueueView };

    ghost view = { λ p. record { table = p.seat.table_id; view = p.seat.me.0 } };

    ghost invariant = { λ p. IsPass p.seat.me p.numbers p.here };
}

impl QueuePass {
    /// The number under which it calls, below 64.
    pub fn caller(&self) -> u32
        ensures caller { result ≡ self.now.view.caller }
        ensures inside { result < 64 }
        ensures own { HasNumber self.now.view.held self.now.view.caller }
    {
        self.numbers.caller()
    }

    /// How many numbers it holds beside its own, each of which it can give away.
    pub fn spare(&self) -> u32
        ensures { result + 1 ≡ held_count self.now.view.held }
    {
        self.numbers.spare()
    }

    /// Whether its caller has made as many calls as it may: 2^48 that made an entry or took a turn.
    /// It makes no step.
    pub fn is_spent(&self) -> bool
        ensures { IsTrue result ↔ (2 ^ 48 ≤ slice_index self.now.view.made self.now.view.caller) }
    {
        self.numbers.is_spent(MOST_CALLS)
    }
}

/// Counts a call at its entry, if it was not counted at its turn.
pub(crate) fn count_entry(numbers: &mut Numbers, paid: bool)
    requires below { (paid ≡ true) ⊎ (slice_index numbers.old.made numbers.old.caller < 2 ^ 48) }
    ensures { numbers.new ≡ record numbers.old {
      made = count_made paid numbers.old.made numbers.old.caller;
    } }
{
    if !paid {
        numbers.count_call();
    }
}

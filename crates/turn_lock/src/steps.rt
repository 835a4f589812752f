// The kinds of step, each one call on the table by a seat.
ghost use Rattle.std.specs.Prelude.{◌≡◌, ◌≢◌, ℕ, ◌<◌, ◌≤◌, ◌^◌, [], ◌∷◌, ◌++◌, length, slice_index, List, Bool};
ghost use Rattle.ho_model.specs.declared.marks.EntryMark.{EntryMark};
ghost use Rattle.ho_model.specs.Entries.{entry};
ghost use Rattle.ho_model.specs.Histories.{IsLegal, StandsFor};
ghost use Rattle.passes.specs.Numbers.{HasNumber, IsSpare};
ghost use Rattle.passes.specs.Holders.{Meet};
ghost use Rattle.passes.specs.Seen.{IsLawful};
ghost use Rattle.turn_lock.specs.declared.view.Turn.TheVariants.{Idle, Looked, Drawn, Holds, Joined};
ghost use Rattle.turn_lock.specs.Views.{HasTicket, HasTurn, IsWhole, in_turn, counted, entered, met, drawn, without, alone, joined};
ghost use Rattle.turn_lock.specs.Plays.{Got};
ghost use Rattle.turn_lock.specs.Seats.{IsFor, IsSame, HasWords};

use crate::layout::{COUNT, SERVING, TICKET};
use crate::plays::{
    Draw, Enter, Give, Grab, Leave, Leaving, Look, Naming, Numbered, Reach, TakeIn, Tell, Try,
    Turns,
};
use crate::view::View;
use ho_model::Stepper;
use std::snapshot::Snapshot;
use std::sync::Wait;
use std::time::Duration;

pub(crate) type Board<M> = atomic_table::Shared<M, View, (Snapshot<M>, u64), Turns<M>>;

pub(crate) type Seat<M> = atomic_table::Seat<M, View>;

/// How many microseconds a caller sleeps that waits for a turn which does not move on.
const MOMENT: u64 = 50;

/// Whether the turn seems free. It says nothing for sure, and spares others a write to their words.
pub(crate) fn seems_free<M: Stepper>(board: &Board<M>) -> bool
    requires { HasWords board.now.table_id }
{
    board.peek(TICKET) == board.peek(SERVING)
}

/// The number that seems to be served. It says nothing for sure.
pub(crate) fn glance<M: Stepper>(board: &Board<M>) -> u64
    requires { HasWords board.now.table_id }
{
    board.peek(SERVING)
}

/// Sleeps for a moment, if this number is still served. Nobody wakes it.
pub(crate) fn doze<M: Stepper, R: Wait>(rt: &R, board: &Board<M>, serving: u64)
    requires { HasWords board.now.table_id }
{
    let moment = Duration::from_micros(MOMENT);
    board.park_timeout(rt, SERVING, (serving & 0xffff_ffff) as u32, moment);
}

/// Loads the number that is served.
pub(crate) fn look<M: Stepper>(board: &Board<M>, seat: &mut Seat<M>) -> u64
    requires table { IsFor board.now.table_id seat.old }
    requires idle { seat.old.me.0.turn ≡ Idle }
    ensures same { IsSame seat.old seat.new }
    ensures seen { (seat.new.me ≡ (in_turn seat.old.me.0 (Looked result), seat.old.me.1))
        × (result < 2 ^ 60) }
{
    board.load::<Look>(seat, SERVING)
}

/// Takes the ticket that is served, if it is still the next one. Returns the next ticket that it
/// found. A miss is an obstacle met.
pub(crate) fn try_ticket<M: Stepper>(board: &Board<M>, seat: &mut Seat<M>, serving: u64) -> u64
    requires table { IsFor board.now.table_id seat.old }
    requires looked { (seat.old.me.0.turn ≡ Looked serving) × (serving < 2 ^ 60) }
    requires active { HasNumber seat.old.me.0.held seat.old.me.0.caller }
    requires spare { slice_index seat.old.me.0.made seat.old.me.0.caller < 2 ^ 48 }
    ensures same { IsSame seat.old seat.new }
    ensures won { result ≡ serving →
        Got M.priority (StandsFor M.priority M.object M.callers M.state M.steps M.tally)
        (counted seat.old.me.0) seat.old.me.1 serving seat.new.me }
    ensures lost { result ≢ serving → (seat.new.me ≡
        (met seat.old.me.0 serving result, seat.old.me.1)) × (serving < result)
        × (length seat.old.me.0.seen ≤ serving)
        × (¬ IsWhole seat.old.me.0)
        × IsLawful M.priority seat.old.me.0.object seat.old.me.0.callers seat.old.me.0.seen }
{
    board.compare_exchange::<Try>(seat, TICKET, serving, serving + 1)
}

/// The same, but a miss leaves the seat as it was before it looked.
pub(crate) fn grab_ticket<M: Stepper>(board: &Board<M>, seat: &mut Seat<M>, serving: u64) -> u64
    requires table { IsFor board.now.table_id seat.old }
    requires looked { (seat.old.me.0.turn ≡ Looked serving) × (serving < 2 ^ 60) }
    requires active { HasNumber seat.old.me.0.held seat.old.me.0.caller }
    requires spare { slice_index seat.old.me.0.made seat.old.me.0.caller < 2 ^ 48 }
    ensures same { IsSame seat.old seat.new }
    ensures won { result ≡ serving →
        Got M.priority (StandsFor M.priority M.object M.callers M.state M.steps M.tally)
        (counted seat.old.me.0) seat.old.me.1 serving seat.new.me }
    ensures lost { result ≢ serving → seat.new.me ≡ (in_turn seat.old.me.0 Idle, seat.old.me.1) }
{
    board.compare_exchange::<Grab>(seat, TICKET, serving, serving + 1)
}

/// Draws the next ticket.
pub(crate) fn draw<M: Stepper>(board: &Board<M>, seat: &mut Seat<M>) -> u64
    requires table { IsFor board.now.table_id seat.old }
    requires idle { seat.old.me.0.turn ≡ Idle }
    requires active { HasNumber seat.old.me.0.held seat.old.me.0.caller }
    requires spare { slice_index seat.old.me.0.made seat.old.me.0.caller < 2 ^ 48 }
    ensures same { IsSame seat.old seat.new }
    ensures drawn { seat.new.me ≡ (drawn seat.old.me.0 result, seat.old.me.1) }
{
    board.fetch_add::<Draw>(seat, TICKET, 1)
}

/// Loads the number that is served, for a seat with the ticket `turn`.
pub(crate) fn reach<M: Stepper>(board: &Board<M>, seat: &mut Seat<M>, turn: u64) -> u64
    requires table { IsFor board.now.table_id seat.old }
    requires turn { seat.old.me.0.turn ≡ Drawn turn }
    ensures same { IsSame seat.old seat.new }
    ensures now { result ≡ turn →
        Got M.priority (StandsFor M.priority M.object M.callers M.state M.steps M.tally)
        seat.old.me.0 seat.old.me.1 turn seat.new.me }
    ensures not { result ≢ turn → seat.new.me ≡ seat.old.me }
{
    // for the proof: its clauses name the ticket
    let _ = turn;
    board.load::<Reach>(seat, SERVING)
}

/// Makes the entry, and returns how many entries stand before it. This is the linearization point
/// of a call: with this addition its entry stands in the history.
pub(crate) fn enter<M: Stepper, E: Naming>(
    board: &Board<M>,
    seat: &mut Seat<M>,
    turn: u64,
    call: &Snapshot<M::Called>,
    reply: &M::Replied,
) -> u64
    requires table { IsFor board.now.table_id seat.old }
    requires turn { seat.old.me.0.turn ≡ Holds turn }
    requires entry { E.entry ≡
        entry seat.old.me.0.caller (M.call_mark call.now.value) (M.reply_mark reply.now) }
    requires legal { IsLegal M.priority seat.old.me.0.object (seat.old.me.0.seen ++ E.entry ∷ []) }
    ensures same { IsSame seat.old seat.new }
    ensures entry { seat.new.me ≡ (
      entered seat.old.me.0 turn (entry seat.old.me.0.caller (M.call_mark call.now.value)
          (M.reply_mark reply.now)),
      seat.old.me.1,
    ) }
    ensures number { result ≡ length seat.old.me.0.seen }
{
    // for the proof: its clauses name the entry
    let _ = call;
    let _ = reply;
    board.fetch_add::<Enter<E>>(seat, COUNT, 1)
}

/// Gives the turn back, with the machine.
pub(crate) fn leave<M: Stepper>(board: &Board<M>, seat: &mut Seat<M>, turn: u64)
    requires table { IsFor board.now.table_id seat.old }
    requires turn { HasTurn seat.old.me.0.turn turn }
    requires machine { (x : M) × (seat.old.me.1 ≡ (0, x) ∷ [])
        × StandsFor M.priority M.object M.callers M.state M.steps M.tally seat.old.me.0.object
        seat.old.me.0.callers x seat.old.me.0.seen }
    ensures same { IsSame seat.old seat.new }
    ensures left { seat.new.me ≡ (in_turn seat.old.me.0 Idle, []) }
{
    board.fetch_add::<Leave>(seat, SERVING, 1);
}

/// Gives one number away, to a new seat.
pub(crate) fn give<M: Stepper, N: Numbered>(
    board: &Board<M>,
    seat: &mut Seat<M>,
    number: usize,
) -> Seat<M>
    requires table { IsFor board.now.table_id seat.old }
    requires number { N.number ≡ number }
    requires idle { seat.old.me.0.turn ≡ Idle }
    requires spare { IsSpare seat.old.me.0.held seat.old.me.0.caller number }
    ensures left { IsSame seat.old seat.new
        × (seat.new.me ≡ (without seat.old.me.0 number, seat.old.me.1)) }
    ensures right { (result.table_id ≡ seat.old.table_id)
        × (result.me ≡ (alone seat.old.me.0 number, [])) }
{
    // for the proof: its clauses name the number
    let _ = number;
    board.split_seat::<Give<N>>(seat)
}

/// Takes in another seat.
pub(crate) fn take_in<M: Stepper, L: Leaving>(board: &Board<M>, seat: &mut Seat<M>, other: Seat<M>)
    requires table { IsFor board.now.table_id seat.old × IsFor board.now.table_id other }
    requires last { L.last ≡ other.me.0 }
    requires idle { (seat.old.me.0.turn ≡ Idle) × (other.me.0.turn ≡ Idle) × (other.me.1 ≡ []) }
    ensures same { IsSame seat.old seat.new
        × (seat.new.me ≡ (in_turn (joined seat.old.me.0 other.me.0) Idle, seat.old.me.1)) }
    ensures told { Meet seat.old.me.0.held other.me.0.held seat.old.me.0.seen other.me.0.seen
        (joined seat.old.me.0 other.me.0).seen
        × IsLawful M.priority seat.old.me.0.object seat.old.me.0.callers
        (joined seat.old.me.0 other.me.0).seen }
{
    board.join_seat::<TakeIn<L>>(seat, other);
    tell(board, seat);
}

/// Loads a word, by which the seat is told that what it has seen is legal, and what a join left.
pub(crate) fn tell<M: Stepper>(board: &Board<M>, seat: &mut Seat<M>)
    requires table { IsFor board.now.table_id seat.old }
    requires free { (t : ℕ) → HasTicket seat.old.me.0.turn t → ⊥ }
    ensures same { IsSame seat.old seat.new }
    ensures idle { seat.new.me ≡ (in_turn seat.old.me.0 Idle, seat.old.me.1) }
    ensures joined { (p q : List EntryMark) (h h' : List Bool) → seat.old.me.0.turn ≡ Joined p q h h'
        → Meet h h' p q seat.old.me.0.seen }
    ensures lawful { IsLawful M.priority seat.old.me.0.object seat.old.me.0.callers
        seat.old.me.0.seen }
{
    board.load::<Tell>(seat, SERVING);
}

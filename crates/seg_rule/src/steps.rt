// The kinds of step, each one call on the table by a seat.
ghost use Rattle.std.specs.Prelude.{◌≡◌, ◌≢◌, ℕ, suc, ◌+◌, ◌*◌, ◌<◌, ◌^◌, Bool, Some, None, ◌≤◌, ◌%◌, ◌∷◌, [], List, IfSome};
ghost use Rattle.seg_rule.specs.declared.word.QueueWord.TheVariants.{Head, Tail};
ghost use Rattle.seg_rule.specs.declared.view.OpenTail.{OpenTail};
ghost use Rattle.seg_rule.specs.declared.view.Hand.TheVariants.{Nothing, Reserved, Stored, Taking};
ghost use Rattle.seg_rule.specs.declared.view.Stage.TheVariants.{Away, Plain, Closed, Found, Preparing, Opened, Linked, Observing};
ghost use Rattle.seg_rule.specs.Steps.{in_hand, on_stage, stored_hand, opened, begun_stage, more_stage, linked_stage, on_leave, released, MayReserve, Reserves, MissesTail, MayTake, Takes, MissesHead, MayTurn, turned, MissesTurn, MayBegin, MayNumber, MayShow, MayClose, closed_at, IsAtRest, without, alone, joined};
ghost use Rattle.passes.specs.Numbers.{IsSpare};
ghost use Rattle.passes.specs.Holders.{Meet};
ghost use Rattle.passes.specs.Seen.{IsLawful};
ghost use Rattle.ho_base.specs.Marks.{number_priority};
ghost use Rattle.seg_rule.specs.Entering.{EntersFull, EntersEmpty, EntersPeek, EntersCount, MayEnterFull, MayEnterEmpty, MayEnterPeek, MayEnterCount};
ghost use Rattle.seg_rule.specs.Loads.{MayMove, first_moved};
ghost use Rattle.seg_rule.specs.Plays.{Reads, Decided, TellsJoin};
ghost use Rattle.seg_rule.specs.declared.view.Leave.{Leave};
ghost use Rattle.seg_rule.specs.declared.view.Leave.TheVariants.{Measured};
ghost use Rattle.seg_rule.specs.Rule.{LeaveHas};
ghost use Rattle.seg_rule.specs.Words.{IsWord};
ghost use Rattle.seg_rule.specs.Seats.{IsFor, IsSame};

use crate::form::Form;
use crate::plays::{
    Aim, Begin, Close, Finish, Give, GiveBack, Grab, Leaving, Link, Look, More, Move, MoveFirst,
    Naming, Numbered, Open, Publish, QueueRule, Release, Reopen, Reserve, SeeCount, SeeEmpty,
    SeeFront, SeeFull, Store, Take, TakeIn, Tell,
};
use crate::view::View;
use crate::word::{QueueWord, index};
use std::marker::Brand;

pub(crate) type Board = atomic_table::Shared<u64, View, Form, QueueRule>;

pub(crate) type Seat = atomic_table::Seat<u64, View>;

/// Stores the item of the position in hand.
pub(crate) fn item_store(
    board: &Board,
    slots: u32,
    seat: &mut Seat,
    place: u32,
    slot: u32,
    item: u64,
)
    requires table { IsFor board.now.table_id board.now.key seat.old × (board.now.key.slots ≡ slots) }
    requires word { (place < board.now.key.places) × (slot < slots) }
    requires hand { (p : ℕ) × (seat.old.me.0.hand ≡ Reserved p place slot item) }
    ensures same { IsSame seat.old seat.new }
    ensures stored { seat.new.me ≡
        (in_hand seat.old.me.0 (stored_hand seat.old.me.0.hand), seat.old.me.1) }
{
    let word = index(slots, &QueueWord::Item(place, slot));
    board.store::<Store>(seat, word, item);
}

/// Publishes the position in hand.
pub(crate) fn publish(
    board: &Board,
    slots: u32,
    seat: &mut Seat,
    place: u32,
    slot: u32,
    position: u64,
)
    requires table { IsFor board.now.table_id board.now.key seat.old × (board.now.key.slots ≡ slots) }
    requires word { (place < board.now.key.places) × (slot < slots) × (position < 2 ^ 62) }
    requires hand { (x : ℕ) × (seat.old.me.0.hand ≡ Stored position place slot x) }
    ensures same { IsSame seat.old seat.new }
    ensures published { seat.new.me ≡ (in_hand seat.old.me.0 Nothing, seat.old.me.1) }
{
    let word = index(slots, &QueueWord::Number(place, slot));
    board.store::<Publish>(seat, word, 2 * position + 1);
}

/// Takes the turn, if nobody has it. Returns the turn word that it found.
pub(crate) fn turn_take(board: &Board, slots: u32, seat: &mut Seat, caller: u32) -> u64
    requires table { IsFor board.now.table_id board.now.key seat.old × (board.now.key.slots ≡ slots) }
    requires caller { seat.old.me.0.caller ≡ caller }
    requires may { MayTurn seat.old.me.0 }
    ensures same { IsSame seat.old seat.new × (seat.new.me.1 ≡ seat.old.me.1) }
    ensures won { result ≡ 0 → seat.new.me.0 ≡ turned seat.old.me.0 }
    ensures lost { result ≢ 0 → MissesTurn seat.old.me.0 result seat.new.me.0 }
{
    let word = index(slots, &QueueWord::Turn);
    board.compare_exchange::<Grab>(seat, word, 0, caller as u64 + 1)
}

/// Closes the open tail that was noted, under the turn. Returns the tail word that it found.
pub(crate) fn tail_close<A: Naming>(
    board: &Board,
    slots: u32,
    seat: &mut Seat,
    place: u32,
    position: u64,
) -> u64
    requires table { IsFor board.now.table_id board.now.key seat.old × (board.now.key.slots ≡ slots) }
    requires word { (place < board.now.key.places) × (position < 2 ^ 62) }
    requires naming { (A.place ≡ place) × (A.position ≡ position) }
    requires may { MayClose seat.old.me.0 place position }
    ensures same { IsSame seat.old seat.new × (seat.new.me.1 ≡ seat.old.me.1) }
    ensures closed { result ≡ 2 * position →
        seat.new.me.0 ≡ closed_at seat.old.me.0 place position }
    ensures lost { result ≢ 2 * position →
        MissesTail seat.old.me.0 place position result seat.new.me.0 }
{
    let word = index(slots, &QueueWord::Tail(place));
    board.compare_exchange::<Close<A>>(seat, word, 2 * position, 2 * position + 1)
}

/// Takes the next position of an open tail, and enqueues the item by that, in this slot.
pub(crate) fn tail_reserve<A: Naming>(
    board: &Board,
    slots: u32,
    seat: &mut Seat,
    place: u32,
    position: u64,
    slot: u32,
    item: u64,
) -> u64
    requires table { IsFor board.now.table_id board.now.key seat.old × (board.now.key.slots ≡ slots) }
    requires word { (place < board.now.key.places) × (position < 2 ^ 62) }
    requires naming { (A.place ≡ place) × (A.position ≡ position) × (A.length ≡ slot) × (A.item ≡ item) }
    requires may { (n : ℕ) × MayReserve board.now.key.room seat.old.me.0 place position n
        × (slot ≡ position % n) }
    ensures same { IsSame seat.old seat.new × (seat.new.me.1 ≡ seat.old.me.1) }
    ensures won { result ≡ 2 * position →
        Reserves seat.old.me.0 place position slot item seat.new.me.0 }
    ensures lost { result ≢ 2 * position →
        MissesTail seat.old.me.0 place position result seat.new.me.0 }
{
    let _ = slot;
    let _ = item;
    let word = index(slots, &QueueWord::Tail(place));
    board.compare_exchange::<Reserve<A>>(seat, word, 2 * position, 2 * (position + 1))
}

/// Takes the item at the head, which was found published in this place and slot.
pub(crate) fn head_take<A: Naming>(
    board: &Board,
    slots: u32,
    seat: &mut Seat,
    place: u32,
    slot: u32,
    position: u64,
    item: u64,
) -> u64
    requires table { IsFor board.now.table_id board.now.key seat.old × (board.now.key.slots ≡ slots) }
    requires word { position < 2 ^ 62 }
    requires naming { (A.place ≡ place) × (A.position ≡ position) × (A.length ≡ slot) × (A.item ≡ item) }
    requires may { MayTake seat.old.me.0 position place slot item }
    ensures same { IsSame seat.old seat.new × (seat.new.me.1 ≡ seat.old.me.1) }
    ensures won { result ≡ position →
        Takes seat.old.me.0 position place slot item seat.new.me.0 }
    ensures lost { result ≢ position → MissesHead seat.old.me.0 position result seat.new.me.0 }
{
    let _ = place;
    let _ = slot;
    let _ = item;
    let word = index(slots, &QueueWord::Head);
    board.compare_exchange::<Take<A>>(seat, word, position, position + 1)
}

/// Opens the place that was prepared.
pub(crate) fn tail_open(board: &Board, slots: u32, seat: &mut Seat, place: u32, position: u64)
    requires table { IsFor board.now.table_id board.now.key seat.old × (board.now.key.slots ≡ slots) }
    requires word { (place < board.now.key.places) × (position < 2 ^ 62) }
    requires stage { (d n : ℕ) × (seat.old.me.0.stage ≡ Preparing d place position n (4 + n)) }
    ensures same { IsSame seat.old seat.new }
    ensures opened { seat.new.me ≡ (opened seat.old.me.0, seat.old.me.1) }
{
    let word = index(slots, &QueueWord::Tail(place));
    board.store::<Open>(seat, word, 2 * position);
}

#[inline(always)]
fn load_of<J: Aim>(board: &Board, slots: u32, seat: &mut Seat, word: &QueueWord) -> u64
    requires aim { J.word ≡ word.now }
    requires table { IsFor board.now.table_id board.now.key seat.old × (board.now.key.slots ≡ slots) }
    requires word { IsWord board.now.key.places slots word.now }
    ensures same { IsSame seat.old seat.new × (seat.new.me.1 ≡ seat.old.me.1) }
    ensures read { Reads word.now result seat.old.me.0 seat.new.me.0 }
{
    let at = index(slots, word);
    board.load::<Look<J>>(seat, at)
}

/// Loads a word, and notes what it tells.
#[inline(always)]
pub(crate) fn load(board: &Board, slots: u32, seat: &mut Seat, word: QueueWord) -> u64
    requires table { IsFor board.now.table_id board.now.key seat.old × (board.now.key.slots ≡ slots) }
    requires word { IsWord board.now.key.places slots word }
    ensures same { IsSame seat.old seat.new × (seat.new.me.1 ≡ seat.old.me.1) }
    ensures read { Reads word result seat.old.me.0 seat.new.me.0 }
{
    load_of::<Brand>(board, slots, seat, &word)
}

/// Loads the head, by which an enqueue of the item is full where the head is the room below the
/// noted tail.
pub(crate) fn see_full<A: Naming>(
    board: &Board,
    slots: u32,
    seat: &mut Seat,
    room: u32,
    item: u64,
    tail: u64,
) -> u64
    requires table { IsFor board.now.table_id board.now.key seat.old × (board.now.key.slots ≡ slots) × (board.now.key.room ≡ room) }
    requires naming { (A.item ≡ item) × (A.position ≡ tail) × (A.length ≡ room) }
    requires may { MayEnterFull seat.old.me.0 tail }
    ensures same { IsSame seat.old seat.new × (seat.new.me.1 ≡ seat.old.me.1) }
    ensures read { Decided (result + room ≡ tail) (EntersFull seat.old.me.0 item tail seat.new.me.0)
        (Reads Head result seat.old.me.0 seat.new.me.0) }
{
    let _ = room;
    let _ = item;
    let _ = tail;
    let word = index(slots, &QueueWord::Head);
    board.load::<SeeFull<A>>(seat, word)
}

/// Loads the tail of a place, by which there is no item where it is open at the noted head.
pub(crate) fn see_empty<A: Naming>(
    board: &Board,
    slots: u32,
    seat: &mut Seat,
    place: u32,
    head: u64,
    peek: bool,
) -> u64
    requires table { IsFor board.now.table_id board.now.key seat.old × (board.now.key.slots ≡ slots) }
    requires word { place < board.now.key.places }
    requires naming { (A.place ≡ place) × (A.position ≡ head) × (A.full ≡ peek) }
    requires may { MayEnterEmpty seat.old.me.0 head }
    ensures same { IsSame seat.old seat.new × (seat.new.me.1 ≡ seat.old.me.1) }
    ensures read { Decided (result ≡ 2 * head) (EntersEmpty seat.old.me.0 head peek seat.new.me.0)
        (Reads (Tail place) result seat.old.me.0 seat.new.me.0) }
{
    let _ = head;
    let _ = peek;
    let word = index(slots, &QueueWord::Tail(place));
    board.load::<SeeEmpty<A>>(seat, word)
}

/// Loads the head, by which a peek has the noted item where the head is as before.
pub(crate) fn see_front<A: Naming>(
    board: &Board,
    slots: u32,
    seat: &mut Seat,
    head: u64,
    item: u64,
) -> u64
    requires table { IsFor board.now.table_id board.now.key seat.old × (board.now.key.slots ≡ slots) }
    requires naming { (A.position ≡ head) × (A.item ≡ item) }
    requires may { MayEnterPeek seat.old.me.0 head item }
    ensures same { IsSame seat.old seat.new × (seat.new.me.1 ≡ seat.old.me.1) }
    ensures read { Decided (result ≡ head) (EntersPeek seat.old.me.0 head item seat.new.me.0)
        (Reads Head result seat.old.me.0 seat.new.me.0) }
{
    let _ = head;
    let _ = item;
    let word = index(slots, &QueueWord::Head);
    board.load::<SeeFront<A>>(seat, word)
}

/// Loads the head, by which the items are counted while the seat has the tail closed.
pub(crate) fn see_count<A: Naming>(board: &Board, slots: u32, seat: &mut Seat, tail: u64) -> u64
    requires table { IsFor board.now.table_id board.now.key seat.old × (board.now.key.slots ≡ slots) }
    requires naming { A.position ≡ tail }
    requires may { MayEnterCount seat.old.me.0 tail }
    ensures same { IsSame seat.old seat.new × (seat.new.me.1 ≡ seat.old.me.1) }
    ensures counted { EntersCount seat.old.me.0 tail result seat.new.me.0 × (result ≤ tail) }
{
    let _ = tail;
    let word = index(slots, &QueueWord::Head);
    board.load::<SeeCount<A>>(seat, word)
}

/// Begins the preparation of the free place that was found, with the length of its segment.
pub(crate) fn length_store<A: Naming>(
    board: &Board,
    slots: u32,
    seat: &mut Seat,
    place: u32,
    length: u64,
)
    requires table { IsFor board.now.table_id board.now.key seat.old × (board.now.key.slots ≡ slots) }
    requires word { (place < board.now.key.places) × (2 ≤ length) × (length ≤ slots) }
    requires naming { A.length ≡ length }
    requires stage { MayBegin board.now.key.first_len seat.old.me.0 place length }
    ensures same { IsSame seat.old seat.new }
    ensures begun { seat.new.me ≡ (on_stage seat.old.me.0 (begun_stage length seat.old.me.0.stage), seat.old.me.1) }
{
    let word = index(slots, &QueueWord::Length(place));
    board.store::<Begin<A>>(seat, word, length);
}

/// Stores the start of the place in preparation.
pub(crate) fn start_store(board: &Board, slots: u32, seat: &mut Seat, place: u32, position: u64)
    requires table { IsFor board.now.table_id board.now.key seat.old × (board.now.key.slots ≡ slots) }
    requires word { place < board.now.key.places }
    requires stage { (d n : ℕ) × (seat.old.me.0.stage ≡ Preparing d place position n 1) }
    ensures same { IsSame seat.old seat.new }
    ensures more { seat.new.me ≡ (on_stage seat.old.me.0 (more_stage seat.old.me.0.stage), seat.old.me.1) }
{
    let word = index(slots, &QueueWord::Start(place));
    board.store::<More>(seat, word, position);
}

/// Stores that no take in the place in preparation is done.
pub(crate) fn done_store(board: &Board, slots: u32, seat: &mut Seat, place: u32)
    requires table { IsFor board.now.table_id board.now.key seat.old × (board.now.key.slots ≡ slots) }
    requires word { place < board.now.key.places }
    requires stage { (d t n : ℕ) × (seat.old.me.0.stage ≡ Preparing d place t n 2) }
    ensures same { IsSame seat.old seat.new }
    ensures more { seat.new.me ≡ (on_stage seat.old.me.0 (more_stage seat.old.me.0.stage), seat.old.me.1) }
{
    let word = index(slots, &QueueWord::Done(place));
    board.store::<More>(seat, word, 0);
}

/// Stores how many segments were opened before the one that is prepared, one more than the segment
/// word of the current place says.
pub(crate) fn segment_store(board: &Board, slots: u32, seat: &mut Seat, place: u32, number: u64)
    requires table { IsFor board.now.table_id board.now.key seat.old × (board.now.key.slots ≡ slots) }
    requires word { place < board.now.key.places }
    requires stage { MayNumber seat.old.me.0 place number }
    ensures same { IsSame seat.old seat.new }
    ensures more { seat.new.me ≡ (on_stage seat.old.me.0 (more_stage seat.old.me.0.stage), seat.old.me.1) }
{
    let word = index(slots, &QueueWord::Segment(place));
    board.store::<More>(seat, word, number);
}

/// Stores the number of the next slot of the place in preparation.
pub(crate) fn number_store(
    board: &Board,
    slots: u32,
    seat: &mut Seat,
    place: u32,
    slot: u32,
    number: u64,
)
    requires table { IsFor board.now.table_id board.now.key seat.old × (board.now.key.slots ≡ slots) }
    requires word { (place < board.now.key.places) × (slot < slots) }
    requires stage { MayShow seat.old.me.0 place slot number }
    ensures same { IsSame seat.old seat.new }
    ensures more { seat.new.me ≡ (on_stage seat.old.me.0 (more_stage seat.old.me.0.stage), seat.old.me.1) }
{
    let word = index(slots, &QueueWord::Number(place, slot));
    board.store::<More>(seat, word, number);
}

/// Links the current place to the one that was opened.
pub(crate) fn next_store(board: &Board, slots: u32, seat: &mut Seat, current: u32, place: u64)
    requires table { IsFor board.now.table_id board.now.key seat.old × (board.now.key.slots ≡ slots) }
    requires word { current < board.now.key.places }
    requires stage { (t : ℕ) × (seat.old.me.0.stage ≡ Opened current place t) }
    ensures same { IsSame seat.old seat.new }
    ensures linked { seat.new.me ≡ (on_stage seat.old.me.0 (linked_stage seat.old.me.0.stage), seat.old.me.1) }
{
    let word = index(slots, &QueueWord::Next(current));
    board.store::<Link>(seat, word, place);
}

/// Makes the place that was linked the current one.
pub(crate) fn current_store(board: &Board, slots: u32, seat: &mut Seat, place: u32)
    requires table { IsFor board.now.table_id board.now.key seat.old × (board.now.key.slots ≡ slots) }
    requires stage { (t : ℕ) × (seat.old.me.0.stage ≡ Linked place t) }
    ensures same { IsSame seat.old seat.new }
    ensures moved { seat.new.me ≡ (on_stage seat.old.me.0 Plain, seat.old.me.1) }
{
    let word = index(slots, &QueueWord::Current);
    board.store::<Move>(seat, word, place as u64);
}

/// Gives the turn back.
pub(crate) fn turn_leave(board: &Board, slots: u32, seat: &mut Seat)
    requires table { IsFor board.now.table_id board.now.key seat.old × (board.now.key.slots ≡ slots) }
    requires stage { seat.old.me.0.stage ≡ Plain }
    ensures same { IsSame seat.old seat.new }
    ensures left { seat.new.me ≡ (on_stage seat.old.me.0 Away, seat.old.me.1) }
{
    let word = index(slots, &QueueWord::Turn);
    board.store::<GiveBack>(seat, word, 0);
}

/// Releases the slot of the take in hand.
pub(crate) fn release(
    board: &Board,
    slots: u32,
    seat: &mut Seat,
    place: u32,
    slot: u32,
    position: u64,
    length: u64,
)
    requires table { IsFor board.now.table_id board.now.key seat.old × (board.now.key.slots ≡ slots) }
    requires word { (place < board.now.key.places) × (slot < slots) × (position < 2 ^ 62) × (length < 2 ^ 62) }
    requires hand { seat.old.me.0.hand ≡ Taking position place slot (Measured length) }
    ensures same { IsSame seat.old seat.new }
    ensures released { seat.new.me ≡ (in_hand seat.old.me.0 (on_leave released seat.old.me.0.hand), seat.old.me.1) }
{
    let word = index(slots, &QueueWord::Number(place, slot));
    board.store::<Release>(seat, word, 2 * (position + length));
}

/// Counts the take in hand as done.
pub(crate) fn done_add(board: &Board, slots: u32, seat: &mut Seat, place: u32)
    requires table { IsFor board.now.table_id board.now.key seat.old × (board.now.key.slots ≡ slots) }
    requires word { place < board.now.key.places }
    requires hand { (p i : ℕ) × (l : Leave) × (seat.old.me.0.hand ≡ Taking p place i l) × (¬ LeaveHas l) }
    ensures same { IsSame seat.old seat.new }
    ensures done { seat.new.me ≡ (in_hand seat.old.me.0 Nothing, seat.old.me.1) }
{
    let word = index(slots, &QueueWord::Done(place));
    board.fetch_add::<Finish>(seat, word, 1);
}

/// Moves the first place on to the next one, past a closed segment that ends at the noted head or
/// below.
pub(crate) fn first_store(board: &Board, slots: u32, seat: &mut Seat, place: u32)
    requires table { IsFor board.now.table_id board.now.key seat.old × (board.now.key.slots ≡ slots) }
    requires may { MayMove seat.old.me.0 place }
    ensures same { IsSame seat.old seat.new }
    ensures moved { seat.new.me ≡ (first_moved seat.old.me.0 place, seat.old.me.1) }
{
    let word = index(slots, &QueueWord::First);
    board.store::<MoveFirst>(seat, word, place as u64);
}

/// Opens the tail again that the seat has closed.
pub(crate) fn tail_reopen(board: &Board, slots: u32, seat: &mut Seat, place: u32, position: u64)
    requires table { IsFor board.now.table_id board.now.key seat.old × (board.now.key.slots ≡ slots) }
    requires word { (place < board.now.key.places) × (position < 2 ^ 62) }
    requires stage { (full : Bool) × (seat.old.me.0.stage ≡ Closed place position full) }
    ensures same { IsSame seat.old seat.new }
    ensures reopened { seat.new.me ≡ (on_stage seat.old.me.0 Plain, seat.old.me.1) }
{
    let word = index(slots, &QueueWord::Tail(place));
    board.store::<Reopen>(seat, word, 2 * position);
}

/// Gives one number away, to a new seat.
pub(crate) fn give<N: Numbered>(board: &Board, seat: &mut Seat, number: usize) -> Seat
    requires table { IsFor board.now.table_id board.now.key seat.old }
    requires number { N.number ≡ number }
    requires rest { IsAtRest seat.old.me.0 }
    requires spare { IsSpare seat.old.me.0.held seat.old.me.0.caller number }
    ensures left { IsSame seat.old seat.new
        × (seat.new.me ≡ (without seat.old.me.0 number, seat.old.me.1)) }
    ensures right { (result.table_id ≡ seat.old.table_id)
        × (result.me ≡ (alone seat.old.me.0 number, [])) }
{
    // for the proof: its clauses name the number
    let _ = number;
    board.split_seat::<Give<N>>(seat)
}

/// Takes in another seat.
fn merge<L: Leaving>(board: &Board, seat: &mut Seat, other: Seat)
    requires table { IsFor board.now.table_id board.now.key seat.old × IsFor board.now.table_id board.now.key other }
    requires last { L.last ≡ other.me.0 }
    requires rest { IsAtRest seat.old.me.0 × IsAtRest other.me.0 × (other.me.1 ≡ []) }
    ensures same { IsSame seat.old seat.new
        × (seat.new.me ≡ (joined seat.old.me.0 other.me.0, seat.old.me.1)) }
{
    board.join_seat::<TakeIn<L>>(seat, other);
}

/// Loads a word, by which the seat is told what a join left.
fn tell(board: &Board, slots: u32, seat: &mut Seat)
    requires table { IsFor board.now.table_id board.now.key seat.old × (board.now.key.slots ≡ slots) }
    ensures same { IsSame seat.old seat.new }
    ensures told { seat.new.me ≡ (record seat.old.me.0 { joint = None }, seat.old.me.1) }
    ensures joint { IfSome seat.old.me.0.joint (λ x. Meet x.first_held x.second_held x.first x.second seat.old.me.0.seen) }
    ensures lawful { IsLawful number_priority seat.old.me.0.object seat.old.me.0.callers seat.old.me.0.seen }
{
    let word = index(slots, &QueueWord::Head);
    board.load::<Tell>(seat, word);
}

/// Takes in another seat, and is told what that leaves.
pub(crate) fn take_in<L: Leaving>(board: &Board, slots: u32, seat: &mut Seat, other: Seat)
    requires table { IsFor board.now.table_id board.now.key seat.old × IsFor board.now.table_id board.now.key other × (board.now.key.slots ≡ slots) }
    requires last { L.last ≡ other.me.0 }
    requires rest { IsAtRest seat.old.me.0 × IsAtRest other.me.0 × (other.me.1 ≡ []) }
    ensures same { IsSame seat.old seat.new
        × (seat.new.me ≡ (record (joined seat.old.me.0 other.me.0) { joint = None }, seat.old.me.1)) }
    ensures told { TellsJoin seat.old.me.0 other.me.0 }
{
    merge::<L>(board, seat, other);
    tell(board, slots, seat);
}

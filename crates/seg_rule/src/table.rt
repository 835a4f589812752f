// The table of a queue, and its steps by a pass.
ghost use Rattle.std.specs.Prelude.{◌≡◌, ◌≢◌, ◌<◌, ◌≤◌, ◌+◌, ◌*◌, ◌%◌, ℕ, ◌^◌, IfOk, IfErr};
ghost use Rattle.seg_rule.specs.declared.view.Hand.TheVariants.{Nothing};
ghost use Rattle.seg_rule.specs.declared.view.Stage.TheVariants.{Away, Plain, Preparing, Opened, Linked};
ghost use Rattle.passes.specs.Numbers.{held_count};
ghost use Rattle.seg_rule.specs.Steps.{in_hand, stored_hand, on_leave, released, on_stage, opened, begun_stage, more_stage, linked_stage, MayBegin, MayNumber, MayShow, IsAtRest, MissesTail, MissesHead, MayTurn, turned, MissesTurn, MayClose, closed_at, first_view};
ghost use Rattle.seg_rule.specs.Rule.{IsShape};
ghost use Rattle.seg_layout.specs.Lengths.{IsFirstLength, longest_of, places_of};
ghost use Rattle.seg_rule.specs.Loads.{MayMove, first_moved};
ghost use Rattle.seg_rule.specs.declared.word.QueueWord.TheVariants.{Head, Tail};
ghost use Rattle.seg_rule.specs.Words.{IsWord, words_of};
ghost use Rattle.seg_rule.specs.Entering.{MayEnterFull, EntersFull, MayEnterEmpty, EntersEmpty, MayEnterPeek, EntersPeek, MayEnterCount, EntersCount};
ghost use Rattle.seg_rule.specs.Plays.{Reads, Decided};
ghost use Rattle.seg_rule.specs.Looks.{MayLook, MayLoad, Loads};
ghost use Rattle.seg_rule.specs.Stores.{MayStore, stage_by};
ghost use Rattle.seg_rule.specs.Snapshots.{MayObserve, Observes, MayLookAll, Snaps, tail_at, MayEnd, without_first};
ghost use Rattle.seg_rule.specs.Passes.{form_of, SplitsPass, JoinsPass, MayReserveAt, ReservesAt, MayTakeAt, TakesAt, IsOf, IsReserved, IsStored, IsMeasured, IsTaken, IsClosed};

use crate::entering::Entering;
use crate::form::Form;
use crate::pass::{Here, QueuePass, count_entry};
use crate::plays::QueueRule;
use crate::start::first_words;
use crate::view::View;
use crate::word::QueueWord;
use crate::{snapshot, steps};
use atomic_table::Table;
use ho_base::NoMemory;
use passes::Numbers;
use seg_layout::{longest, places};
use std::alloc::Global;
use std::marker::{Brand, Model};

/// The table of a queue. To a contract it is its identity and its form.
#[derive(Drop)]
pub struct QueueTable {
    table: Table<u64, View, Form, QueueRule, Global>,
    form: Form,
}

impl Model for QueueTable {
    ghost use Rattle.seg_rule.specs.Passes.{QueueShape, IsTable};

    ghost Value = { QueueShape };

    ghost view = { λ q. record { table = q.table.shared.table_id; form = q.form } };

    ghost invariant = { λ q. IsTable q.table.shared.table_id q.table.shared.key q.form };
}

impl QueueTable {
    /// The table of an empty queue with room for 1 to 65,536 items, for 1 to 64 callers, whose first
    /// segment has `first_len` slots, and the first pass, which holds all numbers. Its slots are at most
    /// 33,554,432. It takes all its memory here, and for a moment twice as much.
    pub fn new(
        alloc: Global,
        room: u32,
        first_len: u32,
        callers: u32,
    ) -> Result<(QueueTable, QueuePass), NoMemory>
        requires room { (1 ≤ room) × (room ≤ 65536) }
        requires first_len { IsFirstLength first_len }
        requires callers { (1 ≤ callers) × (callers ≤ 64) }
        requires small { places_of room first_len callers * longest_of first_len ≤ 33554432 }
        ensures { IfOk result (λ made. (made.0.form ≡ form_of room first_len callers)
            × (made.1 ≡ record { table = made.0.table; view = first_view made.0.form })) }
    {
        let form = Form {
            room,
            first_len,
            callers,
            places: places(room, first_len, callers) as u32,
            slots: longest(first_len),
        };
        let Ok(words) = first_words(alloc, &form) else {
            return Err(NoMemory);
        };
        match Table::of_words(alloc, words.as_slice(), &form) {
            Ok((table, seat)) => {
                let pass = QueuePass {
                    seat,
                    numbers: Numbers::first(callers),
                    here: Here::first(),
                };
                Ok((QueueTable { table, form }, pass))
            }
            Err(_) => Err(NoMemory),
        }
    }

    /// The parameters of the queue.
    pub fn form(&self) -> Form
        ensures value { result ≡ self.now.form }
        ensures shape { IsShape self.now.form }
        ensures words { self.now.table.words ≡ words_of self.now.form.places self.now.form.slots }
    {
        self.form
    }

    /// Stores the item of the position that was reserved into its slot.
    pub fn item_store(&self, pass: &mut QueuePass)
        requires of { IsOf self.now pass.old }
        requires hand { IsReserved pass.old.view.hand }
        ensures { pass.new ≡ record pass.old {
          view = in_hand pass.old.view (stored_hand pass.old.view.hand);
        } }
    {
        let here = pass.here;
        steps::item_store(
            &self.table.shared,
            self.form.slots,
            &mut pass.seat,
            here.place,
            here.slot,
            here.value,
        );
    }

    /// Publishes the item that was stored: from now on it can be taken.
    pub fn publish(&self, pass: &mut QueuePass)
        requires of { IsOf self.now pass.old }
        requires hand { IsStored pass.old.view.hand }
        ensures { pass.new ≡ record pass.old { view = in_hand pass.old.view Nothing } }
    {
        let here = pass.here;
        steps::publish(
            &self.table.shared,
            self.form.slots,
            &mut pass.seat,
            here.place,
            here.slot,
            here.position,
        );
    }

    /// Releases the slot of the item that was taken, for the position that lies in it next.
    pub fn release(&self, pass: &mut QueuePass)
        requires of { IsOf self.now pass.old }
        requires hand { IsMeasured pass.old.view.hand }
        ensures { pass.new ≡ record pass.old {
          view = in_hand pass.old.view (on_leave released pass.old.view.hand);
        } }
    {
        let here = pass.here;
        steps::release(
            &self.table.shared,
            self.form.slots,
            &mut pass.seat,
            here.place,
            here.slot,
            here.position,
            here.length,
        );
    }

    /// Counts the take as done in its place, which ends it.
    pub fn done_add(&self, pass: &mut QueuePass)
        requires of { IsOf self.now pass.old }
        requires hand { IsTaken pass.old.view.hand }
        ensures { pass.new ≡ record pass.old { view = in_hand pass.old.view Nothing } }
    {
        let place = pass.here.place;
        steps::done_add(&self.table.shared, self.form.slots, &mut pass.seat, place);
    }

    /// Gives the turn back. What was read of the head and of tails in this call stays known.
    pub fn turn_leave(&self, pass: &mut QueuePass)
        requires of { IsOf self.now pass.old }
        requires stage { pass.old.view.stage ≡ Plain }
        ensures { pass.new ≡ record pass.old { view = on_stage pass.old.view Away } }
    {
        steps::turn_leave(&self.table.shared, self.form.slots, &mut pass.seat);
        pass.here.turn = false;
    }

    /// Opens the tail again that this pass has closed.
    pub fn tail_reopen(&self, pass: &mut QueuePass)
        requires of { IsOf self.now pass.old }
        requires stage { IsClosed pass.old.view.stage }
        ensures { pass.new ≡ record pass.old { view = on_stage pass.old.view Plain } }
    {
        let here = pass.here;
        steps::tail_reopen(
            &self.table.shared,
            self.form.slots,
            &mut pass.seat,
            here.closed_place,
            here.closed_at,
        );
    }

    /// Opens the place that was prepared, with its tail at the end of the segment before, whose slot is
    /// free for it.
    pub fn tail_open(&self, pass: &mut QueuePass, place: u32, at: u64)
        requires of { IsOf self.now pass.old }
        requires place { place < self.now.form.places }
        requires stage { (d n : ℕ) × (pass.old.view.stage ≡ Preparing d place at n (4 + n)) }
        ensures { pass.new ≡ record pass.old { view = opened pass.old.view } }
    {
        steps::tail_open(
            &self.table.shared,
            self.form.slots,
            &mut pass.seat,
            place,
            at,
        );
        pass.here.tail_slot = pass.here.first_slot;
    }

    /// Makes the place current that was opened and linked.
    pub fn current_store(&self, pass: &mut QueuePass, place: u32)
        requires of { IsOf self.now pass.old }
        requires stage { (t : ℕ) × (pass.old.view.stage ≡ Linked place t) }
        ensures { pass.new ≡ record pass.old { view = on_stage pass.old.view Plain } }
    {
        steps::current_store(&self.table.shared, self.form.slots, &mut pass.seat, place);
    }

    /// Moves the first place on to the next one, past a closed segment whose end is at or below the
    /// head that was read under this turn.
    pub fn first_store(&self, pass: &mut QueuePass, place: u32)
        requires of { IsOf self.now pass.old }
        requires may { MayMove pass.old.view place }
        ensures { pass.new ≡ record pass.old { view = first_moved pass.old.view place } }
    {
        steps::first_store(&self.table.shared, self.form.slots, &mut pass.seat, place);
    }

    /// Takes the position `at` of the open tail of a place, whose slot was read as free for it, and
    /// by that enqueues the value: with this exchange its entry stands in the history. The error is the
    /// word that was found.
    pub fn tail_reserve(
        &self,
        pass: &mut QueuePass,
        place: u32,
        at: u64,
        value: u64,
    ) -> Result<(), u64>
        requires of { IsOf self.now pass.old }
        requires place { place < self.now.form.places }
        requires may { MayReserveAt self.now.form.room pass.old.view place at }
        ensures same { pass.new.table ≡ pass.old.table }
        ensures won { IfOk result (λ _. ReservesAt pass.old.view place at value pass.new.view) }
        ensures lost { IfErr result (λ found. (found ≢ 2 * at)
            × MissesTail pass.old.view place at found pass.new.view) }
    {
        let slot = pass.here.tail_slot;
        let found = steps::tail_reserve::<Brand>(
            &self.table.shared,
            self.form.slots,
            &mut pass.seat,
            place,
            at,
            slot,
            value,
        );
        if found != 2 * at {
            return Err(found);
        }
        pass.here.position = at;
        pass.here.place = place;
        pass.here.slot = slot;
        pass.here.value = value;
        count_entry(&mut pass.numbers, pass.here.paid);
        pass.here.paid = false;
        Ok(())
    }

    /// Takes the item of the position `at` from the head, which was read as published: with this
    /// exchange the entry of the dequeue stands in the history. The error is the head that was found.
    pub fn head_take(&self, pass: &mut QueuePass, at: u64, item: u64) -> Result<(), u64>
        requires of { IsOf self.now pass.old }
        requires may { MayTakeAt pass.old.view at item }
        ensures same { pass.new.table ≡ pass.old.table }
        ensures won { IfOk result (λ _. TakesAt pass.old.view at item pass.new.view) }
        ensures lost { IfErr result (λ found. (found ≢ at)
            × MissesHead pass.old.view at found pass.new.view) }
    {
        let here = pass.here;
        let found = steps::head_take::<Brand>(
            &self.table.shared,
            self.form.slots,
            &mut pass.seat,
            here.place,
            here.slot,
            at,
            item,
        );
        if found != at {
            return Err(found);
        }
        pass.here.position = at;
        count_entry(&mut pass.numbers, pass.here.paid);
        pass.here.paid = false;
        Ok(())
    }

    /// Takes the turn, if nobody has it. The error is the turn word that was found: the number of the
    /// caller that has the turn, plus 1.
    pub fn turn_take(&self, pass: &mut QueuePass) -> Result<(), u64>
        requires of { IsOf self.now pass.old }
        requires may { MayTurn pass.old.view }
        ensures same { pass.new.table ≡ pass.old.table }
        ensures won { IfOk result (λ _. pass.new.view ≡ turned pass.old.view) }
        ensures lost { IfErr result (λ found. (found ≢ 0)
            × MissesTurn pass.old.view found pass.new.view) }
    {
        let caller = pass.numbers.caller();
        let found = steps::turn_take(&self.table.shared, self.form.slots, &mut pass.seat, caller);
        if found != 0 {
            return Err(found);
        }
        pass.numbers.count_call();
        pass.here.paid = true;
        pass.here.turn = true;
        Ok(())
    }

    /// Closes the open tail of a place at the position `at`, as it was read: nobody enqueues until
    /// it is open again, or another place is. The error is the word that was found.
    pub fn tail_close(&self, pass: &mut QueuePass, place: u32, at: u64) -> Result<(), u64>
        requires of { IsOf self.now pass.old }
        requires place { place < self.now.form.places }
        requires may { MayClose pass.old.view place at }
        ensures same { pass.new.table ≡ pass.old.table }
        ensures won { IfOk result (λ _. pass.new.view ≡ closed_at pass.old.view place at) }
        ensures lost { IfErr result (λ found. (found ≢ 2 * at)
            × MissesTail pass.old.view place at found pass.new.view) }
    {
        let found = steps::tail_close::<Brand>(
            &self.table.shared,
            self.form.slots,
            &mut pass.seat,
            place,
            at,
        );
        if found != 2 * at {
            return Err(found);
        }
        pass.here.closed_place = place;
        pass.here.closed_at = at;
        Ok(())
    }

    /// A load that makes no entry.
    #[inline(always)]
    fn look(&self, pass: &mut QueuePass, word: QueueWord) -> u64
        requires of { IsOf self.now pass.old }
        requires word { IsWord self.now.form.places self.now.form.slots word }
        requires may { MayLook word pass.old.view }
        ensures same { pass.new.table ≡ pass.old.table }
        ensures read { Reads word result pass.old.view pass.new.view }
    {
        let value = steps::load(&self.table.shared, self.form.slots, &mut pass.seat, word);
        pass.here = pass.here.read(&word, value);
        value
    }

    /// Loads the head for an enqueue.
    #[inline(always)]
    fn look_full(&self, pass: &mut QueuePass, value: u64, tail: u64) -> u64
        requires of { IsOf self.now pass.old }
        requires may { MayEnterFull pass.old.view tail }
        ensures same { pass.new.table ≡ pass.old.table }
        ensures read { Decided (result + self.now.form.room ≡ tail)
            (EntersFull pass.old.view value tail pass.new.view)
            (Reads Head result pass.old.view pass.new.view) }
    {
        let room = self.form.room;
        let head = steps::see_full::<Brand>(
            &self.table.shared,
            self.form.slots,
            &mut pass.seat,
            room,
            value,
            tail,
        );
        if tail >= room as u64 && head == tail - room as u64 {
            count_entry(&mut pass.numbers, pass.here.paid);
            pass.here.paid = false;
        }
        head
    }

    /// Loads a tail for a peek or a dequeue.
    #[inline(always)]
    fn look_empty(&self, pass: &mut QueuePass, place: u32, head: u64, peek: bool) -> u64
        requires of { IsOf self.now pass.old }
        requires place { place < self.now.form.places }
        requires may { MayEnterEmpty pass.old.view head }
        ensures same { pass.new.table ≡ pass.old.table }
        ensures read { Decided (result ≡ 2 * head)
            (EntersEmpty pass.old.view head peek pass.new.view)
            (Reads (Tail place) result pass.old.view pass.new.view) }
    {
        let tail = steps::see_empty::<Brand>(
            &self.table.shared,
            self.form.slots,
            &mut pass.seat,
            place,
            head,
            peek,
        );
        if tail == 2 * head {
            count_entry(&mut pass.numbers, pass.here.paid);
            pass.here.paid = false;
        }
        tail
    }

    /// Loads the head for a peek.
    #[inline(always)]
    fn look_front(&self, pass: &mut QueuePass, head: u64, item: u64) -> u64
        requires of { IsOf self.now pass.old }
        requires may { MayEnterPeek pass.old.view head item }
        ensures same { pass.new.table ≡ pass.old.table }
        ensures read { Decided (result ≡ head) (EntersPeek pass.old.view head item pass.new.view)
            (Reads Head result pass.old.view pass.new.view) }
    {
        let found = steps::see_front::<Brand>(
            &self.table.shared,
            self.form.slots,
            &mut pass.seat,
            head,
            item,
        );
        if found == head {
            count_entry(&mut pass.numbers, pass.here.paid);
            pass.here.paid = false;
        }
        found
    }

    /// Loads the head for a count.
    #[inline(always)]
    fn look_count(&self, pass: &mut QueuePass, tail: u64) -> u64
        requires of { IsOf self.now pass.old }
        requires may { MayEnterCount pass.old.view tail }
        ensures same { pass.new.table ≡ pass.old.table }
        ensures read { EntersCount pass.old.view tail result pass.new.view × (result ≤ tail) }
    {
        let head = steps::see_count::<Brand>(
            &self.table.shared,
            self.form.slots,
            &mut pass.seat,
            tail,
        );
        count_entry(&mut pass.numbers, pass.here.paid);
        pass.here.paid = false;
        head
    }

    /// Loads a word.
    ///
    /// The pass notes what it read, and with `Entering` makes an entry exactly where the value that it
    /// reads decides it. Its entry is then the whole of the load: it notes nothing. A load of the current
    /// place or of the first one by a pass at rest begins a call, and forgets what was read before. What
    /// the pass has seen is legal; a second head or open tail above the one that was read before is an
    /// obstacle, and tells that there is another caller.
    ///
    /// A pass with a window reads its items in the first place of it: by the length, and by the closed
    /// tail where segments follow, it knows which of its positions lie there. The number of such a slot
    /// is the published one, and the item beside it is then the one that was seen; or the free one, which
    /// is an obstacle, and tells that another caller has the position in flight.
    #[inline(always)]
    pub fn load(&self, pass: &mut QueuePass, word: QueueWord, entering: Entering) -> u64
        requires of { IsOf self.now pass.old }
        requires word { IsWord self.now.form.places self.now.form.slots word }
        requires may { MayLoad word entering pass.old.view }
        ensures same { pass.new.table ≡ pass.old.table }
        ensures read { Loads self.now.form.room word entering result pass.old.view pass.new.view }
    {
        match entering {
            Entering::Nothing => self.look(pass, word),
            Entering::Full { value, tail } => self.look_full(pass, value, tail),
            Entering::Empty { head, peek } => {
                let QueueWord::Tail(place) = word else {
                    unreachable!()
                };
                self.look_empty(pass, place, head, peek)
            }
            Entering::Peek { head, item } => self.look_front(pass, head, item),
            Entering::Count { tail } => self.look_count(pass, tail),
        }
    }

    fn put_length(&self, pass: &mut QueuePass, place: u32, length: u64)
        requires of { IsOf self.now pass.old }
        requires place { place < self.now.form.places }
        requires length { (2 ≤ length) × (length ≤ self.now.form.slots) }
        requires may { MayBegin self.now.form.first_len pass.old.view place length }
        ensures { pass.new ≡ record pass.old {
          view = on_stage pass.old.view (begun_stage length pass.old.view.stage);
        } }
    {
        steps::length_store::<Brand>(
            &self.table.shared,
            self.form.slots,
            &mut pass.seat,
            place,
            length,
        );
        pass.here.first_slot = (pass.here.closed_at % length) as u32;
    }

    fn put_start(&self, pass: &mut QueuePass, place: u32, start: u64)
        requires of { IsOf self.now pass.old }
        requires place { place < self.now.form.places }
        requires stage { (d n : ℕ) × (pass.old.view.stage ≡ Preparing d place start n 1) }
        ensures { pass.new ≡ record pass.old {
          view = on_stage pass.old.view (more_stage pass.old.view.stage);
        } }
    {
        steps::start_store(
            &self.table.shared,
            self.form.slots,
            &mut pass.seat,
            place,
            start,
        );
    }

    fn put_done(&self, pass: &mut QueuePass, place: u32)
        requires of { IsOf self.now pass.old }
        requires place { place < self.now.form.places }
        requires stage { (d t n : ℕ) × (pass.old.view.stage ≡ Preparing d place t n 2) }
        ensures { pass.new ≡ record pass.old {
          view = on_stage pass.old.view (more_stage pass.old.view.stage);
        } }
    {
        steps::done_store(&self.table.shared, self.form.slots, &mut pass.seat, place);
    }

    fn put_segment(&self, pass: &mut QueuePass, place: u32, number: u64)
        requires of { IsOf self.now pass.old }
        requires place { place < self.now.form.places }
        requires may { MayNumber pass.old.view place number }
        ensures { pass.new ≡ record pass.old {
          view = on_stage pass.old.view (more_stage pass.old.view.stage);
        } }
    {
        steps::segment_store(
            &self.table.shared,
            self.form.slots,
            &mut pass.seat,
            place,
            number,
        );
    }

    fn put_number(&self, pass: &mut QueuePass, place: u32, slot: u32, number: u64)
        requires of { IsOf self.now pass.old }
        requires place { (place < self.now.form.places) × (slot < self.now.form.slots) }
        requires may { MayShow pass.old.view place slot number }
        ensures { pass.new ≡ record pass.old {
          view = on_stage pass.old.view (more_stage pass.old.view.stage);
        } }
    {
        steps::number_store(
            &self.table.shared,
            self.form.slots,
            &mut pass.seat,
            place,
            slot,
            number,
        );
    }

    fn put_next(&self, pass: &mut QueuePass, place: u32, next: u64)
        requires of { IsOf self.now pass.old }
        requires place { place < self.now.form.places }
        requires stage { (t : ℕ) × (pass.old.view.stage ≡ Opened place next t) }
        ensures { pass.new ≡ record pass.old {
          view = on_stage pass.old.view (linked_stage pass.old.view.stage);
        } }
    {
        steps::next_store(
            &self.table.shared,
            self.form.slots,
            &mut pass.seat,
            place,
            next,
        );
    }

    /// Stores a word of a place in preparation, in this order: its length, its start, the takes done
    /// in it, its segment word and the number of each slot, from 0; or, once it is open, the next
    /// word of the current place.
    ///
    /// The length begins the preparation: the place was found free under this turn.
    pub fn place_words(&self, pass: &mut QueuePass, word: QueueWord, value: u64)
        requires of { IsOf self.now pass.old }
        requires word { IsWord self.now.form.places self.now.form.slots word }
        requires may { MayStore self.now.form word value pass.old.view }
        ensures { pass.new ≡ record pass.old {
          view = on_stage pass.old.view (stage_by word value pass.old.view.stage);
        } }
    {
        match word {
            QueueWord::Length(place) => self.put_length(pass, place, value),
            QueueWord::Start(place) => self.put_start(pass, place, value),
            QueueWord::Done(place) => self.put_done(pass, place),
            QueueWord::Segment(place) => self.put_segment(pass, place, value),
            QueueWord::Number(place, slot) => self.put_number(pass, place, slot, value),
            QueueWord::Next(place) => self.put_next(pass, place, value),
            _ => unreachable!(),
        }
    }

    /// Observes a place of the chain, by a pass that has the tail closed: what is taken in it from now on
    /// stays in its slots until the place is let go. The places are observed in their order, from the
    /// first to the current one.
    pub fn observe_add(&self, pass: &mut QueuePass, place: u32)
        requires of { IsOf self.now pass.old }
        requires place { place < self.now.form.places }
        requires may { MayObserve pass.old.view place }
        ensures same { pass.new.table ≡ pass.old.table }
        ensures observed { Observes pass.old.view place pass.new.view }
    {
        snapshot::observe_add::<Brand>(&self.table.shared, self.form.slots, &mut pass.seat, place);
    }

    /// Loads the head, once the current place is observed too. With this load the entry of the snapshot
    /// stands in the history: its reply is the whole queue, the items of the positions from the head
    /// that is returned up to the closed tail. The pass has them in its window.
    pub fn head_look(&self, pass: &mut QueuePass) -> u64
        requires of { IsOf self.now pass.old }
        requires may { MayLookAll pass.old.view }
        ensures same { pass.new.table ≡ pass.old.table }
        ensures taken { Snaps pass.old.view result pass.new.view
            × (result ≤ tail_at pass.old.view.stage) }
    {
        let head = snapshot::head_look(&self.table.shared, self.form.slots, &mut pass.seat);
        count_entry(&mut pass.numbers, pass.here.paid);
        pass.here.paid = false;
        head
    }

    /// Lets the first place of the window go, of which the next word was read, if it is not the last.
    /// The window is then over the places after it, and has the positions from the closed tail of the
    /// first on, if that was read; else it has none any more.
    pub fn observe_end(&self, pass: &mut QueuePass, place: u32)
        requires of { IsOf self.now pass.old }
        requires place { place < self.now.form.places }
        requires may { MayEnd pass.old.view place }
        ensures { pass.new ≡ record pass.old { view = without_first pass.old.view } }
    {
        snapshot::observe_end(&self.table.shared, self.form.slots, &mut pass.seat, place);
    }

    /// Splits off a pass with the least number that can be given away, which has seen as much.
    ///
    /// Both passes are at rest. The new pass holds that number alone. Takes no memory.
    pub fn split(&self, pass: &mut QueuePass) -> QueuePass
        requires of { IsOf self.now pass.old }
        requires rest { IsAtRest pass.old.view }
        requires spare { 1 < held_count pass.old.view.held }
        ensures { SplitsPass pass.old pass.new result }
    {
        let numbers = pass.numbers.split_off();
        let number = numbers.caller() as usize;
        let seat = steps::give::<Brand>(&self.table.shared, &mut pass.seat, number);
        let mut here = pass.here;
        here.paid = false;
        QueuePass {
            seat,
            numbers,
            here,
        }
    }

    /// Takes in another pass of the same queue, with its numbers and their counts.
    ///
    /// Both passes are at rest. What is seen afterwards is the longer of the two lists. Each of them
    /// begins it, and goes on with entries of callers other than that pass's own. Takes no memory.
    pub fn join(&self, pass: &mut QueuePass, other: QueuePass)
        requires of { IsOf self.now pass.old × IsOf self.now other }
        requires rest { IsAtRest pass.old.view × IsAtRest other.view }
        ensures { JoinsPass pass.old other pass.new }
    {
        let QueuePass {
            seat,
            numbers,
            here: _,
        } = other;
        steps::take_in::<Brand>(&self.table.shared, self.form.slots, &mut pass.seat, seat);
        pass.numbers.take_in(numbers);
    }
}

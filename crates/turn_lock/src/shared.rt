// A machine that callers share.
use crate::attempt::Attempt;
use crate::layout::{MACHINE, WORDS};
use crate::pass::Pass;
use crate::plays::Turns;
use crate::serving::{take_turn, try_turn};
use crate::steps::{doze, give, glance, take_in, tell};
use crate::view::View;
use atomic_table::{Badge, Refused, Table};
use ho_base::{Receipt, Unpaid};
use ho_model::Stepper;
use passes::Numbers;
use pauses::{Hears, News, Nobody};
use std::alloc::Global;
use std::marker::{Brand, Model};
use std::mem;
use std::snapshot::Snapshot;
use std::sync::Wait;

/// How many calls that count a caller makes at most. With 64 callers no word of the table comes
/// near its last value.
const MOST_CALLS: u64 = 1 << 48;

/// A machine round which up to 64 callers take turns.
///
/// Each call is one entry of one history, which is legal for the machine's object. To a contract a
/// `Shared` is its table, and a pass is of it where the pass's `table` is equal.
#[derive(Drop)]
pub struct Shared<M: Stepper> {
    pub(crate) table: Table<M, View, (Snapshot<M>, u64), Turns<M>, Global>,
}

impl<M: Stepper> Model for Shared<M> {
    ghost use Rattle.atomic_table.specs.Seated.{TableId, table_id_coded};
    ghost use Rattle.turn_lock.specs.Seats.{HasWords};

    ghost Value = { TableId };

    ghost coded = { table_id_coded };

    ghost view = { λ s. s.table.shared.table_id };

    ghost invariant = { λ s. HasWords s.table.shared.table_id };
}

impl<M: Stepper> Shared<M> {
    ghost use Rattle.std.specs.Prelude.{◌≡◌, ◌<◌, ◌≤◌, [], IfOk, IfErr};
    ghost use Rattle.ho_model.specs.Histories.{StandsFor};
    ghost use Rattle.passes.specs.Numbers.{held_count};
    ghost use Rattle.passes.specs.Views.{IsWhole, first_pass};
    ghost use Rattle.passes.specs.Calls.{IsSamePass, Splits, Joins};
    ghost use Rattle.turn_lock.specs.Calls.{Called, Attempted, MetTicketsOut};

    /// Shares a machine that stands for the empty history among callers 0 up to `callers`.
    ///
    /// The pass is that of caller 0, holds all numbers and has seen nothing. For want of memory the
    /// machine comes back.
    pub fn new(alloc: Global, machine: M, callers: u32) -> Result<(Shared<M>, Pass), Unpaid<M>>
        requires callers { (0 < callers) × (callers ≤ 64) }
        requires machine { StandsFor M.priority M.object M.callers M.state M.steps M.tally
            (M.object machine) callers machine [] }
        ensures ok { IfOk result (λ made. made.1 ≡ first_pass made.0 (M.object machine) callers) }
        ensures err { IfErr result (λ unpaid. unpaid.back ≡ machine) }
    {
        let about = (Snapshot::of(&machine), callers as u64);
        let Ok(mut slots) = Vec::with_capacity(alloc, 1) else {
            return Err(Unpaid { back: machine });
        };
        slots.push_reserved(machine);
        match Table::new(alloc, &[0; WORDS], slots, &about) {
            Ok((table, seat)) => {
                let pass = Pass {
                    badge: seat.into_badge(),
                    numbers: Numbers::first(callers),
                };
                Ok((Shared { table }, pass))
            }
            Err(Refused { mut slots }) => {
                let back = slots.pop().unwrap();
                slots.destroy_empty();
                Err(Unpaid { back })
            }
        }
    }

    /// Waits for the turn, and makes the call.
    ///
    /// For want of memory there is no entry, and the call comes back. A caller that has made as
    /// many calls as it may does not return.
    pub fn call<R: Wait>(
        &self,
        rt: &R,
        pass: &mut Pass,
        call: M::Called,
    ) -> Result<(M::Replied, Receipt), Unpaid<M::Called>>
        requires { pass.old.table ≡ self.now }
        ensures pass { IsSamePass pass.old pass.new }
        ensures called { Called M.priority M.call_mark M.reply_mark M.fits M.may_want pass.old
            pass.new call result }
    {
        self.call_and_tell(rt, pass, call, &Nobody, News::Nothing)
    }

    /// Makes the call as [`Shared::call`] does, and tells its news once it is over, with its entry or
    /// without.
    ///
    /// Who shares a machine whose callers wait for each other's entries wakes them so. To tell the news
    /// after `call` would do as well, for a copy of the answer more.
    // never inlined, so that it writes its answer where the caller of an object's call wants it
    #[inline(never)]
    pub fn call_and_tell<R: Wait, H: Hears>(
        &self,
        rt: &R,
        pass: &mut Pass,
        call: M::Called,
        bells: &H,
        news: News,
    ) -> Result<(M::Replied, Receipt), Unpaid<M::Called>>
        requires { pass.old.table ≡ self.now }
        ensures pass { IsSamePass pass.old pass.new }
        ensures called { Called M.priority M.call_mark M.reply_mark M.fits M.may_want pass.old
            pass.new call result }
    {
        let board = &self.table.shared;
        let caller = pass.numbers.caller();
        if pass.numbers.is_spent(MOST_CALLS) {
            for _ in rt.forever() {
                doze(rt, board, glance(board));
            }
            unreachable!()
        }
        let mut seat = mem::replace(&mut pass.badge, Badge::blank()).into_seat();
        let served = take_turn(rt, board, &mut seat, caller, call);
        pass.badge = seat.into_badge();
        pass.numbers.count_call();
        bells.tell(news);
        // for the proof: each arm has its own clause
        match served {
            Ok(answer) => Ok(answer),
            Err(unpaid) => Err(unpaid),
        }
    }

    /// Tries once to get the turn, and makes the call where it came.
    ///
    /// It loads the number that is served, tries one exchange of the next ticket and waits for nobody.
    /// How many exchanges it tries is no part of its contract. Only an answer makes an entry; all else
    /// hands the call back.
    pub fn try_call(&self, pass: &mut Pass, call: M::Called) -> Attempt<M::Called, M::Replied>
        requires { pass.old.table ≡ self.now }
        ensures pass { IsSamePass pass.old pass.new }
        ensures attempted { Attempted M.priority M.call_mark M.reply_mark M.fits M.may_want pass.old
            pass.new call result }
    {
        let board = &self.table.shared;
        let caller = pass.numbers.caller();
        let is_spent = pass.numbers.is_spent(MOST_CALLS);
        let mut seat = mem::replace(&mut pass.badge, Badge::blank()).into_seat();
        if is_spent {
            // for the proof: a load tells that what the pass has seen is legal
            tell(board, &mut seat);
            pass.badge = seat.into_badge();
            return Attempt::Spent(call);
        }
        let answer = try_turn(board, &mut seat, caller, call);
        pass.badge = seat.into_badge();
        match answer {
            Attempt::Answer(reply, receipt) => {
                pass.numbers.count_call();
                Attempt::Answer(reply, receipt)
            }
            Attempt::Busy(back) => Attempt::Busy(back),
            Attempt::Spent(back) => Attempt::Spent(back),
            Attempt::NoMemory(back) => {
                pass.numbers.count_call();
                Attempt::NoMemory(back)
            }
        }
    }

    /// Splits off a pass with the least number that can be given away, which has seen as much.
    ///
    /// The new pass holds that number alone. Takes no memory.
    pub fn split(&self, pass: &mut Pass) -> Pass
        requires table { pass.old.table ≡ self.now }
        requires spare { 1 < held_count pass.old.held }
        ensures { Splits pass.old pass.new result }
    {
        let numbers = pass.numbers.split_off();
        let number = numbers.caller() as usize;
        let mut seat = mem::replace(&mut pass.badge, Badge::blank()).into_seat();
        let other = give::<M, Brand>(&self.table.shared, &mut seat, number);
        pass.badge = seat.into_badge();
        Pass {
            badge: other.into_badge(),
            numbers,
        }
    }

    /// Takes in another pass of the same object, with its numbers and their counts.
    ///
    /// What is seen afterwards is the longer of the two lists. Each of them begins it, and goes on
    /// with entries of callers other than that pass's own. Takes no memory.
    pub fn join(&self, pass: &mut Pass, other: Pass)
        requires table { (pass.old.table ≡ self.now) × (other.table ≡ self.now) }
        ensures { Joins M.priority pass.old other pass.new }
    {
        let Pass { badge, numbers } = other;
        let mut seat = mem::replace(&mut pass.badge, Badge::blank()).into_seat();
        take_in::<M, Brand>(&self.table.shared, &mut seat, badge.into_seat());
        pass.badge = seat.into_badge();
        pass.numbers.take_in(numbers);
    }

    /// The machine back, which stands for all that the whole pass has seen: the whole history. No
    /// obstacle that the pass has met told of more tickets than calls were counted.
    pub fn close(self, pass: Pass) -> M
        requires table { pass.table ≡ self }
        requires whole { IsWhole pass }
        ensures stands { StandsFor M.priority M.object M.callers M.state M.steps M.tally pass.object
            pass.callers result pass.seen }
        ensures obstacles { MetTicketsOut pass }
    {
        let Shared { table } = self;
        let Pass { badge, numbers: _ } = pass;
        let mut closed = table.close_with(badge.into_seat());
        let machine = closed.take(MACHINE);
        closed.free();
        machine
    }
}

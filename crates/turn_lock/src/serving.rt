// A whole turn, on a seat of the table.
ghost use Rattle.std.specs.Prelude.{◌≡◌, ℕ, ◌<◌, ◌^◌, ◌++◌, [], ◌∷◌, length, slice_index, true, IfOk, IfErr, OnErr};
ghost use Rattle.ho_base.specs.declared.receipts.Receipt.TheVariants.{Place};
ghost use Rattle.ho_model.specs.Entries.{entry};
ghost use Rattle.ho_model.specs.Histories.{StandsFor};
ghost use Rattle.ho_model.specs.Tallies.{tally_of};
ghost use Rattle.passes.specs.Numbers.{HasNumber};
ghost use Rattle.passes.specs.Seen.{IsLawful};
ghost use Rattle.turn_lock.specs.declared.view.Turn.TheVariants.{Idle, Holds};
ghost use Rattle.turn_lock.specs.Views.{in_turn, entered};
ghost use Rattle.turn_lock.specs.Seats.{IsFor, IsSame};
ghost use Rattle.turn_lock.specs.Turns.{Made, GaveUp, Missed};
ghost use Rattle.turn_lock.specs.Attempts.{IfAnswer, IfBusy, IfSpent, IfNoMemory};

use crate::attempt::Attempt;
use crate::gaining::gain;
use crate::layout::MACHINE;
use crate::steps::{Board, Seat, enter, leave, look, try_ticket};
use ho_base::{Receipt, Unpaid};
use ho_model::Stepper;
use std::marker::Brand;
use std::snapshot::Snapshot;
use std::sync::Wait;

/// Lets the machine take a call under the turn, makes the entry and gives the turn back.
pub(crate) fn serve<M: Stepper>(
    board: &Board<M>,
    seat: &mut Seat<M>,
    turn: u64,
    caller: u32,
    call: M::Called,
) -> Result<(M::Replied, Receipt), Unpaid<M::Called>>
    requires table { IsFor board.now.table_id seat.old }
    requires turn { seat.old.me.0.turn ≡ Holds turn }
    requires caller { (seat.old.me.0.caller ≡ caller) × (caller < seat.old.me.0.callers) }
    requires machine { (x : M) × (seat.old.me.1 ≡ (0, x) ∷ [])
        × StandsFor M.priority M.object M.callers M.state M.steps M.tally seat.old.me.0.object
        seat.old.me.0.callers x seat.old.me.0.seen }
    requires short { length seat.old.me.0.seen < 2 ^ 60 }
    requires lawful { IsLawful M.priority seat.old.me.0.object seat.old.me.0.callers
        seat.old.me.0.seen }
    ensures same { IsSame seat.old seat.new }
    ensures ok { IfOk result (λ r. (seat.new.me ≡ (
      in_turn (entered seat.old.me.0 turn (entry caller (M.call_mark call)
          (M.reply_mark r.0))) Idle,
      [],
    ))
        × IsLawful M.priority seat.old.me.0.object seat.old.me.0.callers
        (seat.old.me.0.seen ++ entry caller (M.call_mark call) (M.reply_mark r.0) ∷ [])
        × M.fits (tally_of seat.old.me.0.seen) call r.0
        × (r.1 ≡ Place (length seat.old.me.0.seen))) }
    ensures err { IfErr result (λ unpaid. (seat.new.me ≡ (in_turn seat.old.me.0 Idle, []))
        × (unpaid.back ≡ call) × (M.may_want seat.old.me.0.object (M.call_mark call) ≡ true)) }
{
    // for the proof: the entry names the call, which the machine takes
    let said = Snapshot::of(&call);
    match seat.slot_mut(board, MACHINE).take_step(caller, call) {
        Ok(reply) => {
            // the linearization point: here the call's entry joins the history
            let number = enter::<M, Brand>(board, seat, turn, &said, &reply);
            leave(board, seat, turn);
            Ok((reply, Receipt::Place { number }))
        }
        Err(unpaid) => {
            leave(board, seat, turn);
            Err(unpaid)
        }
    }
}

/// Tries once to get the turn, and makes the call where it came.
pub(crate) fn try_turn<M: Stepper>(
    board: &Board<M>,
    seat: &mut Seat<M>,
    caller: u32,
    call: M::Called,
) -> Attempt<M::Called, M::Replied>
    requires table { IsFor board.now.table_id seat.old }
    requires idle { (seat.old.me.0.turn ≡ Idle) × (seat.old.me.1 ≡ []) }
    requires caller { seat.old.me.0.caller ≡ caller }
    requires active { HasNumber seat.old.me.0.held seat.old.me.0.caller }
    requires spare { slice_index seat.old.me.0.made seat.old.me.0.caller < 2 ^ 48 }
    ensures same { IsSame seat.old seat.new }
    ensures home { seat.new.me.1 ≡ [] }
    ensures answer { IfAnswer result (λ reply receipt.
        Made M.priority (λ tally. M.fits tally call reply) seat.old.me.0 (entry caller (M.call_mark call) (M.reply_mark reply)) receipt seat.new.me.0) }
    ensures busy { IfBusy result (λ back. (back ≡ call)
        × Missed M.priority seat.old.me.0 seat.new.me.0) }
    ensures spent { IfSpent result (λ back. ⊥) }
    ensures unpaid { IfNoMemory result (λ back. (back ≡ call)
        × GaveUp M.priority seat.old.me.0 seat.new.me.0
        × (M.may_want seat.old.me.0.object (M.call_mark call) ≡ true)) }
{
    let serving = look(board, seat);
    let found = try_ticket(board, seat, serving);
    if found != serving {
        return Attempt::Busy(call);
    }
    match serve(board, seat, serving, caller, call) {
        Ok((reply, receipt)) => Attempt::Answer(reply, receipt),
        Err(Unpaid { back }) => Attempt::NoMemory(back),
    }
}

/// Gets the turn, and makes the call.
pub(crate) fn take_turn<M: Stepper, R: Wait>(
    rt: &R,
    board: &Board<M>,
    seat: &mut Seat<M>,
    caller: u32,
    call: M::Called,
) -> Result<(M::Replied, Receipt), Unpaid<M::Called>>
    requires table { IsFor board.now.table_id seat.old }
    requires idle { (seat.old.me.0.turn ≡ Idle) × (seat.old.me.1 ≡ []) }
    requires caller { seat.old.me.0.caller ≡ caller }
    requires active { HasNumber seat.old.me.0.held seat.old.me.0.caller }
    requires spare { slice_index seat.old.me.0.made seat.old.me.0.caller < 2 ^ 48 }
    ensures same { IsSame seat.old seat.new }
    ensures home { seat.new.me.1 ≡ [] }
    ensures ok { IfOk result (λ r.
        Made M.priority (λ tally. M.fits tally call r.0) seat.old.me.0 (entry caller (M.call_mark call) (M.reply_mark r.0)) r.1 seat.new.me.0) }
    ensures err { IfErr result (λ unpaid. (unpaid.back ≡ call)
        × GaveUp M.priority seat.old.me.0 seat.new.me.0
        × (M.may_want seat.old.me.0.object (M.call_mark call) ≡ true)) }
{
    let turn = gain(rt, board, seat);
    match serve(board, seat, turn, caller, call) {
        Ok(served) => Ok(served),
        Err(Unpaid { back }) => Err(Unpaid { back }),
    }
}

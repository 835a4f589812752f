// How a call gets the turn.
ghost use Rattle.std.specs.Prelude.{◌≡◌, ◌<◌, ◌^◌, slice_index};
ghost use Rattle.ho_model.specs.Histories.{StandsFor};
ghost use Rattle.passes.specs.Numbers.{HasNumber};
ghost use Rattle.turn_lock.specs.declared.view.Turn.TheVariants.{Idle, Drawn};
ghost use Rattle.turn_lock.specs.Views.{counted};
ghost use Rattle.turn_lock.specs.Plays.{Got};
ghost use Rattle.turn_lock.specs.Seats.{HasWords, IsFor, IsSame};

use crate::steps::{Board, Seat, doze, draw, glance, grab_ticket, look, reach, seems_free};
use ho_model::Stepper;
use pauses::Pause;
use std::sync::Wait;

/// How many exchanges a call loses after its first before it draws a ticket.
///
/// With more callers than cores the next ticket is often that of a caller that does not run, and
/// all others wait for it. Who tries waits for nobody: after a lost exchange it pauses until the
/// turn seems free, and only then tries again.
const TRIES: u32 = 64;

/// Gets the turn: at once, or in competition with others.
pub(crate) fn gain<M: Stepper, R: Wait>(rt: &R, board: &Board<M>, seat: &mut Seat<M>) -> u64
    requires table { IsFor board.now.table_id seat.old }
    requires idle { seat.old.me.0.turn ≡ Idle }
    requires active { HasNumber seat.old.me.0.held seat.old.me.0.caller }
    requires spare { slice_index seat.old.me.0.made seat.old.me.0.caller < 2 ^ 48 }
    ensures same { IsSame seat.old seat.new }
    ensures now { Got M.priority (StandsFor M.priority M.object M.callers M.state M.steps M.tally)
        (counted seat.old.me.0) seat.old.me.1 result seat.new.me }
{
    let serving = look(board, seat);
    if grab_ticket(board, seat, serving) == serving {
        return serving;
    }
    compete(rt, board, seat)
}

/// Gets the turn by tries with pauses before them, and at last by a ticket of its own.
#[cold]
#[inline(never)]
fn compete<M: Stepper, R: Wait>(rt: &R, board: &Board<M>, seat: &mut Seat<M>) -> u64
    requires table { IsFor board.now.table_id seat.old }
    requires idle { seat.old.me.0.turn ≡ Idle }
    requires active { HasNumber seat.old.me.0.held seat.old.me.0.caller }
    requires spare { slice_index seat.old.me.0.made seat.old.me.0.caller < 2 ^ 48 }
    ensures same { IsSame seat.old seat.new }
    ensures now { Got M.priority (StandsFor M.priority M.object M.callers M.state M.steps M.tally)
        (counted seat.old.me.0) seat.old.me.1 result seat.new.me }
{
    let mut pause = Pause::new();
    for _ in 0..TRIES {
        await_free(rt, board, &mut pause);
        let serving = look(board, seat);
        if grab_ticket(board, seat, serving) == serving {
            return serving;
        }
    }
    queue_up(rt, board, seat)
}

/// Gets the turn by the next ticket, for which it waits.
pub(crate) fn queue_up<M: Stepper, R: Wait>(rt: &R, board: &Board<M>, seat: &mut Seat<M>) -> u64
    requires table { IsFor board.now.table_id seat.old }
    requires idle { seat.old.me.0.turn ≡ Idle }
    requires active { HasNumber seat.old.me.0.held seat.old.me.0.caller }
    requires spare { slice_index seat.old.me.0.made seat.old.me.0.caller < 2 ^ 48 }
    ensures same { IsSame seat.old seat.new }
    ensures now { Got M.priority (StandsFor M.priority M.object M.callers M.state M.steps M.tally)
        (counted seat.old.me.0) seat.old.me.1 result seat.new.me }
{
    let turn = draw(board, seat);
    wait_for(rt, board, seat, turn);
    turn
}

/// Pauses until the turn seems free, at least once.
///
/// It sleeps after a longest pause in which the turn did not move on: who has it has then lost its
/// core.
fn await_free<M: Stepper, R: Wait>(rt: &R, board: &Board<M>, pause: &mut Pause)
    requires { HasWords board.now.table_id }
{
    for _ in rt.forever() {
        let serving = glance(board);
        let was_longest = pause.spin();
        if seems_free(board) {
            return;
        }
        if was_longest {
            doze(rt, board, serving);
        }
    }
    unreachable!()
}

/// Waits until the ticket is served. It sleeps after a longest pause, if the number that it read is
/// still the one that is served.
fn wait_for<M: Stepper, R: Wait>(rt: &R, board: &Board<M>, seat: &mut Seat<M>, turn: u64)
    requires table { IsFor board.now.table_id seat.old }
    requires turn { seat.old.me.0.turn ≡ Drawn turn }
    ensures same { IsSame seat.old seat.new }
    ensures now { Got M.priority
        (StandsFor M.priority M.object M.callers M.state M.steps M.tally) seat.old.me.0
        seat.old.me.1 turn seat.new.me }
{
    let mut pause = Pause::new();
    for _ in rt.forever() {
        let serving = reach(board, seat, turn);
        if serving == turn {
            return;
        }
        if pause.spin() {
            doze(rt, board, serving);
        }
    }
    unreachable!()
}

// How the waits of an object are polled and given up.
ghost use Rattle.std.specs.Prelude.{ℕ, IfSome, IfNone};
ghost use Rattle.ho_base.specs.Marks.{Mark};
ghost use Rattle.ho_model.specs.declared.marks.CallMark.{CallMark};
ghost use Rattle.ho_model.specs.declared.marks.CallMark.TheVariants.{Poll, Cancel};
ghost use Rattle.ho_model.specs.declared.marks.ReplyMark.{ReplyMark};
ghost use Rattle.ho_model.specs.declared.marks.ReplyMark.TheVariants.{Waiting};
ghost use Rattle.passes.specs.Calls.{IsSamePass};
ghost use Rattle.turn_lock.specs.Passes.{LockPass};
ghost use Rattle.turn_lock.specs.Calls.{Makes};
ghost use Rattle.wait_loop.specs.Standing.{StaysOpen, IsAnswer, IsEnd};

use pauses::Nap;
use std::sync::Wait;

/// How the waits of an object are polled and given up by a side of it `S`, with replies `Y`.
pub trait Waits<S, Y> {
    /// What contracts see of a side's pass.
    ghost pass: { S → LockPass };

    /// What contracts see of a reply, and the priority of an item with this mark.
    ghost mark: { Y → ReplyMark };

    ghost priority: { Mark → ℕ };

    /// A wait of this number stands, which the pass's caller began so.
    ghost awaits: { LockPass → CallMark → ℕ → Type 0 };

    /// The reply answers the wait that this begin left, or says that it was given up.
    ghost answers: { CallMark → ReplyMark → Type 0 };

    ghost gives_up: { CallMark → ReplyMark → Type 0 };

    /// Polls the wait by one entry, and says its answer, if it has one.
    fn poll<R: Wait>(&self, rt: &R, side: &mut S, number: u64) -> Option<Y>
        ensures same { IsSamePass (pass side.old) (pass side.new) }
        ensures stands { IfNone result (Makes priority (pass side.old) (Poll number) (Waiting number) (pass side.new)) }
        ensures stays_open { IfNone result (StaysOpen awaits (pass side.old) (pass side.new) number) }
        ensures answered { IfSome result (λ reply. Makes priority (pass side.old) (Poll number) (mark reply) (pass side.new)) }
        ensures answer { IfSome result (λ reply. IsAnswer awaits answers (pass side.old) number (mark reply)) };

    /// Gives the wait up by one entry, and says its answer, or that it had none.
    fn cancel<R: Wait>(&self, rt: &R, side: &mut S, number: u64) -> Y
        ensures same { IsSamePass (pass side.old) (pass side.new) }
        ensures cancelled { Makes priority (pass side.old) (Cancel number) (mark result) (pass side.new) }
        ensures end { IsEnd awaits answers gives_up (pass side.old) number (mark result) };

    /// The pauses between the polls of a wait, before the first.
    fn nap(&self) -> Nap;

    /// Takes the next pause.
    fn pause<R: Wait>(&self, rt: &R, side: &S, nap: &mut Nap);

    /// Ends the pauses.
    fn wake(&self, side: &S, nap: &mut Nap);
}

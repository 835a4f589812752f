// What ties code to an object.
ghost use Rattle.std.specs.Prelude.{◌≡◌, ℕ, ◌+◌, ◌^◌, ◌<◌, ◌≤◌, Bool, true, Some, IfOk, IfErr, OnOk, OnErr};
ghost use Rattle.ho_base.specs.Marks.{Mark};
ghost use Rattle.ho_model.specs.Entries.{CallMark, ReplyMark, entry};
ghost use Rattle.ho_model.specs.Objects.{State, object_step};
ghost use Rattle.ho_model.specs.Tallies.{Tally, tally_next};
ghost use Rattle.ho_model.specs.declared.objects.Object.{Object};

use ho_base::Unpaid;

/// Code that keeps an object's state and makes its calls, one at a time.
///
/// What a machine of a type stands for is said by `StandsFor` of `specs/Histories.antt`: its state
/// is the one after a history of the object, of which each entry was one step.
pub trait Machine: Send + Drop {
    type Call: Drop;

    type Reply: Drop;

    /// Which object it keeps.
    ghost object: { Self → Object };

    /// The callers that it serves are those below this number.
    ghost callers: { Self → ℕ };

    /// The object's state.
    ghost state: { Self → State };

    /// How many entries it has made.
    ghost steps: { Self → ℕ };

    /// How many items were enqueued and taken, where it is a queue that tells so.
    ghost tally: { Self → Tally };

    /// The priority of an item with this mark.
    ghost priority: { Mark → ℕ };

    ghost call_mark: { Self.Call → CallMark };

    ghost reply_mark: { Self.Reply → ReplyMark };

    /// Which replies fit a call that was made at such counts: they are of a kind that the call can
    /// have, an item handed back is the call's own, and counts that are told are these.
    ghost fits: { Tally → Self.Call → Self.Reply → Type 0 };

    /// Whether a call of the object may want memory.
    ghost may_want: { Object → CallMark → Bool };

    /// Makes one call, which is one entry of the object. For want of memory it changes nothing and
    /// hands the call back.
    fn step(&mut self, caller: u32, call: Self::Call) -> Result<Self::Reply, Unpaid<Self::Call>>
        requires caller { caller < callers self.old }
        requires short { steps self.old < 2 ^ 60 }

        ensures object { object self.new ≡ object self.old }
        ensures callers { callers self.new ≡ callers self.old }

        ensures entry { IfOk result (λ reply.
            object_step priority (object self.old) (state self.old)
            (entry caller (call_mark call) (reply_mark reply)) ≡ Some (state self.new)) }
        ensures fits { IfOk result (λ reply. fits (tally self.old) call reply) }
        ensures tally { IfOk result (λ reply.
            tally self.new ≡ tally_next (tally self.old) (call_mark call) (reply_mark reply)) }
        ensures steps { OnOk result (steps self.new ≡ steps self.old + 1) }

        ensures back { IfErr result (λ unpaid. unpaid.back ≡ call) }
        ensures wanted { OnErr result (may_want (object self.old) (call_mark call) ≡ true) }
        ensures unchanged { OnErr result ((state self.new ≡ state self.old) × (steps self.new ≡ steps self.old)
            × (tally self.new ≡ tally self.old)) }

        // for callers that give the result away
        ensures at_most { steps self.new ≤ steps self.old + 1 };
}

/// A machine as one thread sees it. Every `Machine` is one.
///
/// What runs under the methods of a trait is written over this twin, since such a method may not
/// call what asks that a type parameter is `Send`.
pub trait Stepper: Drop {
    type Called: Drop;

    type Replied: Drop;

    /// Which object it keeps.
    ghost object: { Self → Object };

    /// The callers that it serves are those below this number.
    ghost callers: { Self → ℕ };

    /// The object's state.
    ghost state: { Self → State };

    /// How many entries it has made.
    ghost steps: { Self → ℕ };

    /// How many items were enqueued and taken, where it is a queue that tells so.
    ghost tally: { Self → Tally };

    /// The priority of an item with this mark.
    ghost priority: { Mark → ℕ };

    ghost call_mark: { Self.Called → CallMark };

    ghost reply_mark: { Self.Replied → ReplyMark };

    /// Which replies fit a call that was made at such counts.
    ghost fits: { Tally → Self.Called → Self.Replied → Type 0 };

    /// Whether a call of the object may want memory.
    ghost may_want: { Object → CallMark → Bool };

    /// Makes one call, as `Machine::step` does.
    fn take_step(
        &mut self,
        caller: u32,
        call: Self::Called,
    ) -> Result<Self::Replied, Unpaid<Self::Called>>
        requires caller { caller < callers self.old }
        requires short { steps self.old < 2 ^ 60 }

        ensures object { object self.new ≡ object self.old }
        ensures callers { callers self.new ≡ callers self.old }

        ensures entry { IfOk result (λ reply.
            object_step priority (object self.old) (state self.old)
            (entry caller (call_mark call) (reply_mark reply)) ≡ Some (state self.new)) }
        ensures fits { IfOk result (λ reply. fits (tally self.old) call reply) }
        ensures tally { IfOk result (λ reply.
            tally self.new ≡ tally_next (tally self.old) (call_mark call) (reply_mark reply)) }
        ensures steps { OnOk result (steps self.new ≡ steps self.old + 1) }

        ensures back { IfErr result (λ unpaid. unpaid.back ≡ call) }
        ensures wanted { OnErr result (may_want (object self.old) (call_mark call) ≡ true) }
        ensures unchanged { OnErr result ((state self.new ≡ state self.old) × (steps self.new ≡ steps self.old)
            × (tally self.new ≡ tally self.old)) }

        // for callers that give the result away
        ensures at_most { steps self.new ≤ steps self.old + 1 };
}

impl<M: Machine> Stepper for M {
    type Called = M::Call;

    type Replied = M::Reply;

    ghost object = { M.object };

    ghost callers = { M.callers };

    ghost state = { M.state };

    ghost steps = { M.steps };

    ghost tally = { M.tally };

    ghost priority = { M.priority };

    ghost call_mark = { M.call_mark };

    ghost reply_mark = { M.reply_mark };

    ghost fits = { M.fits };

    ghost may_want = { M.may_want };

    fn take_step(&mut self, caller: u32, call: M::Call) -> Result<M::Reply, Unpaid<M::Call>> {
        self.step(caller, call)
    }
}

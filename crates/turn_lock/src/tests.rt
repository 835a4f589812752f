// A small machine, shared by callers of one thread and of several. What each answer leaves is
// proved; these tests show that the calls succeed, and that nothing is proved of a call that never
// comes.
ghost use Rattle.std.specs.Prelude.{◌≡◌, All, IfOk};

use super::*;
use ho_base::{Receipt, Unpaid};
use ho_model::Machine;
use std::alloc::Global;
use std::hint;
use std::sync::atomic::{AtomicU64, Ordering};
use std::test::Fail;

mod threads;

/// How often a thread looks at what another is to do at most, should the other never come.
const MOST_LOOKS: u32 = 100_000_000;

/// What a call passes while the turn is held.
#[derive(Drop)]
struct Gate {
    reached: AtomicU64,
    open: AtomicU64,
}

impl Gate {
    fn open() -> Gate {
        Gate {
            reached: AtomicU64::new(0),
            open: AtomicU64::new(1),
        }
    }

    fn shut() -> Gate {
        Gate {
            reached: AtomicU64::new(0),
            open: AtomicU64::new(0),
        }
    }

    fn pass(&self) {
        self.reached.store(1, Ordering::SeqCst);
        await_one(&self.open);
    }
}

/// Returns once the word is 1.
fn await_one(word: &AtomicU64) {
    for _ in 0..MOST_LOOKS {
        if word.load(Ordering::SeqCst) == 1 {
            return;
        }
        hint::spin_loop();
    }
}

/// A queue that nothing is ever put into, which can be asked for its count.
#[derive(Drop)]
struct EmptyQueue<'g> {
    counts: u64,
    gate: &'g Gate,
}

impl<'g> Machine for EmptyQueue<'g> {
    ghost use Rattle.std.specs.Prelude.{[], ⊤, false};
    ghost use Rattle.ho_model.specs.declared.objects.Object.TheVariants.{Queue};
    ghost use Rattle.ho_model.specs.declared.marks.CallMark.TheVariants.{Count};
    ghost use Rattle.ho_model.specs.declared.marks.ReplyMark.TheVariants.{Counted};
    ghost use Rattle.ho_model.specs.Objects.{QueueState};
    ghost use Rattle.ho_model.specs.Tallies.{no_tally};

    type Call = ();

    type Reply = u64;

    ghost object = { λ q. Queue 1 2 };

    ghost callers = { λ q. 64 };

    ghost state = { λ q. QueueState [] };

    ghost steps = { λ q. q.counts };

    ghost tally = { λ q. no_tally };

    ghost priority = { λ mark. 0 };

    ghost call_mark = { λ call. Count };

    ghost reply_mark = { λ reply. Counted reply };

    ghost fits = { λ tally call reply. ⊤ };

    ghost may_want = { λ o call. false };

    fn step(&mut self, caller: u32, call: ()) -> Result<u64, Unpaid<()>> {
        let _ = caller;
        let _ = call;
        self.gate.pass();
        self.counts += 1;
        Ok(0)
    }
}

fn is_at(receipt: Receipt, place: u64) -> bool {
    matches!(receipt, Receipt::Place { number } if number == place)
}

#[test]
fn a_whole_pass_gets_every_turn(rt: HostRuntime) -> Result<(), Fail> {
    let gate = Gate::open();
    let machine = EmptyQueue {
        counts: 0,
        gate: &gate,
    };
    let Ok((shared, mut pass)) = Shared::new(rt.alloc(), machine, 1) else {
        return Err(Fail::new("no memory"));
    };
    assert!(rt;
        matches!(shared.try_call(&mut pass, ()), Attempt::Answer(0, receipt) if is_at(receipt, 0))
    );
    assert!(rt; matches!(shared.call(&rt, &mut pass, ()), Ok((0, receipt)) if is_at(receipt, 1)));
    assert_eq!(rt; pass.caller(), 0);
    assert_eq!(rt; pass.spare(), 0);
    assert!(rt; pass.is_whole());
    let machine = shared.close(pass);
    assert_eq!(rt; machine.counts, 2);
    Ok(())
}

/// Splits off all passes that there can be.
fn split_all<'g>(
    alloc: Global,
    shared: &Shared<EmptyQueue<'g>>,
    pass: &mut Pass,
) -> Result<Vec<Pass>, Fail>
    requires { pass.old.table ≡ shared.now }
    ensures table { pass.new.table ≡ shared.now }
    ensures others { IfOk result (λ others. All (λ other. other.table ≡ shared.now) others.items) }
{
    let mut others = Vec::new(alloc);
    for _ in 0..64 {
        if !pass.has_spare() {
            return Ok(others);
        }
        others.push(shared.split(pass))?;
    }
    Ok(others)
}

/// Makes a call by each pass and joins it to the first. Whether the calls came at these places.
fn call_and_join<'g>(shared: &Shared<EmptyQueue<'g>>, pass: &mut Pass, others: Vec<Pass>) -> bool
    requires pass { pass.old.table ≡ shared.now }
    requires others { All (λ other. other.table ≡ shared.now) others.items }
    ensures { pass.new.table ≡ shared.now }
{
    let mut place = 0;
    let mut in_order = true;
    for mut other in others {
        let answer = shared.try_call(&mut other, ());
        in_order = in_order && matches!(answer, Attempt::Answer(0, at) if is_at(at, place));
        place = place.wrapping_add(1);
        shared.join(pass, other);
    }
    in_order
}

#[test]
fn all_numbers_go_out_and_come_home(rt: HostRuntime) -> Result<(), Fail> {
    let gate = Gate::open();
    let machine = EmptyQueue {
        counts: 0,
        gate: &gate,
    };
    let Ok((shared, mut pass)) = Shared::new(rt.alloc(), machine, 64) else {
        return Err(Fail::new("no memory"));
    };
    assert_eq!(rt; pass.spare(), 63);
    let others = split_all(rt.alloc(), &shared, &mut pass)?;
    assert_eq!(rt; others.len(), 63);
    assert!(rt; !pass.has_spare());
    assert!(rt; !pass.is_whole());
    assert!(rt; call_and_join(&shared, &mut pass, others));
    assert_eq!(rt; pass.spare(), 63);
    assert!(rt; matches!(shared.try_call(&mut pass, ()), Attempt::Answer(0, at) if is_at(at, 63)));
    assert!(rt; pass.is_whole());
    let machine = shared.close(pass);
    assert_eq!(rt; machine.counts, 64);
    Ok(())
}

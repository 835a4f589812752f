// The numbers of a pass.
ghost use Rattle.std.specs.Prelude.{◌≡◌, ◌<◌, ◌≤◌, ◌+◌, ◌-◌, ◌^◌, ℕ, IsTrue, ◌↔◌, slice_index};
ghost use Rattle.passes.specs.Numbers.{HasNumber, HasAll, IsSpare, AreApart, NumbersView, first_numbers, held_count, only, give, held_both, made_both, raised};

use crate::arrays::{count_held, first_numbers, holds_all, least_spare, merge, only_number};
use std::marker::Model;

/// The numbers that a pass holds, each with the count of calls made under it, and among them the
/// one under which it calls. The pass of each shared object has one of these.
///
/// Its own number always is among those held. No call here takes memory, and each takes a time that
/// 64 bounds.
#[derive(Drop)]
pub struct Numbers {
    caller: u32,
    callers: u32,
    held: [bool; 64],
    made: [u64; 64],
}

impl Model for Numbers {
    ghost use Rattle.std.specs.Prelude.{◌<◌, ◌≤◌};
    ghost use Rattle.passes.specs.Numbers.{HasNumber, NumbersView};

    ghost Value = { NumbersView };

    ghost view = { λ n. record {
      caller = n.caller;
      callers = n.callers;
      held = n.held;
      made = n.made;
    } };

    ghost invariant = { λ n. HasNumber n.held n.caller × (n.caller < 64) × (n.callers ≤ 64) };
}

impl Numbers {
    /// Those of an object's first pass: caller 0 holds each number below `callers`.
    pub fn first(callers: u32) -> Numbers
        requires { (0 < callers) × (callers ≤ 64) }
        ensures { result ≡ first_numbers callers }
    {
        Numbers {
            caller: 0,
            callers,
            held: first_numbers(callers as usize),
            made: [0; 64],
        }
    }

    /// The number under which the pass calls, below 64.
    pub fn caller(&self) -> u32
        ensures caller { result ≡ self.now.caller }
        ensures inside { result < 64 }
        ensures own { HasNumber self.now.held self.now.caller }
    {
        self.caller
    }

    /// How many numbers are held beside the own one, each of which can be given away.
    pub fn spare(&self) -> u32
        ensures { result + 1 ≡ held_count self.now.held }
    {
        count_held(&self.held) - 1
    }

    /// Whether a number is held beside the own one, as a split asks.
    pub fn has_spare(&self) -> bool
        ensures { IsTrue result ↔ (1 < held_count self.now.held) }
    {
        count_held(&self.held) > 1
    }

    /// Whether the numbers of all callers are held, so that there is no other.
    pub fn is_whole(&self) -> bool
        ensures { IsTrue result ↔ HasAll self.now.callers self.now.held }
    {
        holds_all(&self.held, self.callers as usize)
    }

    /// Whether as many calls were counted under the own number as a limit allows.
    pub fn is_spent(&self, limit: u64) -> bool
        ensures { IsTrue result ↔ (limit ≤ slice_index self.now.made self.now.caller) }
    {
        self.made[self.caller as usize] >= limit
    }

    /// Counts one call more under the own number.
    pub fn count_call(&mut self)
        requires { slice_index self.old.made self.old.caller < 2 ^ 64 - 1 }
        ensures { self.new ≡ record self.old { made = raised self.old.made self.old.caller } }
    {
        self.made[self.caller as usize] += 1;
    }

    /// Gives the least spare number away, with its count.
    pub fn split_off(&mut self) -> Numbers
        requires { 1 < held_count self.old.held }
        ensures kept { self.new ≡ record self.old { held = give self.old.held result.caller } }
        ensures given { result ≡
            record self.old { caller = result.caller; held = only result.caller } }
        ensures spare { IsSpare self.old.held self.old.caller result.caller }
        ensures least { (c : ℕ) → c < result.caller → ¬ IsSpare self.old.held self.old.caller c }
    {
        let number = least_spare(&self.held, self.caller);
        self.held[number] = false;
        Numbers {
            caller: number as u32,
            callers: self.callers,
            held: only_number(number),
            made: self.made,
        }
    }

    /// Takes in the numbers of another pass, each with its count.
    pub fn take_in(&mut self, other: Numbers)
        ensures { self.new ≡ record self.old {
          held = held_both self.old.held other.held;
          made = made_both other.held self.old.made other.made;
        } }
    {
        merge(&mut self.held, &mut self.made, &other.held, &other.made);
    }
}

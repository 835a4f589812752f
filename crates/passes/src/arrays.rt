// Numbers as 64 flags, and the calls counted under each as 64 counts.
ghost use Rattle.std.specs.Prelude.{◌≡◌, ◌<◌, ◌≤◌, ℕ, IsTrue, ◌↔◌};
ghost use Rattle.passes.specs.Numbers.{HasAll, IsSpare, held_count, only, first_held, held_both, made_both};

/// Whether each number below `callers` is held, so that there is no other caller.
pub(crate) fn holds_all(held: &[bool; 64], callers: usize) -> bool
    requires { callers ≤ 64 }
    ensures { IsTrue result ↔ HasAll callers held.now }
{
    for number in 0..callers {
        if !held[number] {
            return false;
        }
    }
    true
}

/// How many numbers are held.
pub(crate) fn count_held(held: &[bool; 64]) -> u32
    ensures { result ≡ held_count held.now }
{
    let mut count = 0;
    for number in 0..64 {
        if held[number] {
            count += 1;
        }
    }
    count
}

/// The least number that is held beside the caller's own.
pub(crate) fn least_spare(held: &[bool; 64], caller: u32) -> usize
    requires { 1 < held_count held.now }
    ensures inside { result < 64 }
    ensures spare { IsSpare held.now caller result }
    ensures least { (c : ℕ) → c < result → ¬ IsSpare held.now caller c }
{
    for number in 0..64 {
        if held[number] && number != caller as usize {
            return number;
        }
    }
    unreachable!()
}

/// One number alone.
pub(crate) fn only_number(number: usize) -> [bool; 64]
    requires { number < 64 }
    ensures { result ≡ only number }
{
    let mut held = [false; 64];
    held[number] = true;
    held
}

/// Each number below `callers`.
pub(crate) fn first_numbers(callers: usize) -> [bool; 64]
    requires { callers ≤ 64 }
    ensures { result ≡ first_held callers }
{
    let mut held = [false; 64];
    for number in 0..callers {
        held[number] = true;
    }
    held
}

/// Takes in the numbers of another pass, each with its count.
pub(crate) fn merge(
    held: &mut [bool; 64],
    made: &mut [u64; 64],
    other_held: &[bool; 64],
    other_made: &[u64; 64],
)
    ensures held { held.new ≡ held_both held.old other_held.now }
    ensures made { made.new ≡ made_both other_held.now made.old other_made.now }
{
    for number in 0..64 {
        if other_held[number] {
            held[number] = true;
            made[number] = other_made[number];
        }
    }
}

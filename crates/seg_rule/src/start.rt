// How a table begins: one segment of the first length at place 0, and closed places.
ghost use Rattle.std.specs.Prelude.{◌≡◌, ℕ, ◌+◌, ◌*◌, ◌<◌, ◌≤◌, IfOk};
ghost use Rattle.seg_rule.specs.Rule.{IsShape};
ghost use Rattle.seg_rule.specs.Blank.{IsFilled};

use crate::form::Form;
use crate::word::{QueueWord, index};
use std::alloc::{AllocError, Global};

/// Closes the tail of each place but the first, at position 0.
fn close_tails(words: &mut [u64], form: &Form)
    requires shape { IsShape form.now × (form.now.places ≤ 33554431) × (form.now.slots ≤ 65536) }
    requires filled { IsFilled form.now 1 0 0 words.old }
    ensures { IsFilled form.now form.now.places 0 0 words.new }
{
    for place in 1..form.places {
        let at = index(form.slots, &QueueWord::Tail(place));
        words[at] = 1;
    }
}

/// Gives each place the first length.
fn set_lengths(words: &mut [u64], form: &Form)
    requires shape { IsShape form.now × (form.now.places ≤ 33554431) × (form.now.slots ≤ 65536) }
    requires filled { IsFilled form.now form.now.places 0 0 words.old }
    ensures { IsFilled form.now form.now.places form.now.places 0 words.new }
{
    let length = u64::from(form.first_len);
    for place in 0..form.places {
        let at = index(form.slots, &QueueWord::Length(place));
        words[at] = length;
    }
}

/// Frees each slot of the first segment for its first position.
fn free_slots(words: &mut [u64], form: &Form)
    requires shape { IsShape form.now × (form.now.places ≤ 33554431) × (form.now.slots ≤ 65536) }
    requires filled { IsFilled form.now form.now.places form.now.places 0 words.old }
    ensures { IsFilled form.now form.now.places form.now.places form.now.first_len words.new }
{
    for slot in 0..form.first_len {
        let at = index(form.slots, &QueueWord::Number(0, slot));
        words[at] = 2 * slot as u64;
    }
}

/// The words of a new table.
pub(crate) fn first_words(alloc: Global, form: &Form) -> Result<Vec<u64>, AllocError>
    requires { IsShape form.now × (form.now.places ≤ 33554431) × (form.now.slots ≤ 65536) }
    ensures { IfOk result (λ words. IsFilled form.now form.now.places form.now.places
        form.now.first_len words.items) }
{
    let width = 48 + 2 * form.slots as usize;
    let count = (form.places as usize + 1) * width;
    let mut words = Vec::from_elem(alloc, 0u64, count)?;
    let row = words.as_mut_slice();
    close_tails(row, form);
    set_lengths(row, form);
    free_slots(row, form);
    Ok(words)
}

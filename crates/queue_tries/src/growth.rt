// The opening of a place behind a full segment, under the turn and with its tail closed.
ghost use Rattle.std.specs.Prelude.{◌≡◌, ◌+◌, ◌*◌, ◌<◌, ◌≤◌, ◌^◌, ℕ, Some};
ghost use Rattle.seg_layout.specs.Lengths.{IsSegmentLength, next_len_of};
ghost use Rattle.seg_rule.specs.declared.view.Hand.TheVariants.{Nothing};
ghost use Rattle.seg_rule.specs.declared.view.Stage.TheVariants.{Found, Preparing};
ghost use Rattle.seg_rule.specs.Steps.{blank_scan, is_observed};
ghost use Rattle.seg_rule.specs.Passes.{IsOf};
ghost use Rattle.queue_tries.specs.Growth.{ended_tail, observed_by, prepared, moved_on};

use seg_layout::{next_len, opening_number};
use seg_rule::{Entering, QueuePass, QueueTable, QueueWord};

/// Whether a snapshot holds the current place.
fn see_observers(
    table: &QueueTable,
    pass: &mut QueuePass,
    current: u32,
    tail: u64,
    place: u32,
) -> bool
    requires of { IsOf table.now pass.old }
    requires current { current < table.now.form.places }
    requires hand { pass.old.view.hand ≡ Nothing }
    requires stage { pass.old.view.stage ≡ Found current tail place }
    ensures same { pass.new.table ≡ pass.old.table }
    ensures seen { (count : ℕ) × (pass.new.view ≡ observed_by pass.old.view current count)
        × (result ≡ is_observed count) }
{
    // for the proof: its clauses name them
    let _ = (tail, place);
    table.load(pass, QueueWord::Observers(current), Entering::Nothing) != 0
}

/// Begins to prepare the free place, with the length of its segment.
fn write_length(
    table: &QueueTable,
    pass: &mut QueuePass,
    current: u32,
    tail: u64,
    length: u32,
    place: u32,
    next: u32,
)
    requires of { IsOf table.now pass.old }
    requires place { place < table.now.form.places }
    requires stage { pass.old.view.stage ≡ Found current tail place }
    requires tail { (number : ℕ) × (pass.old.view.notes.tail ≡ Some (ended_tail current tail length number)) }
    requires length { IsSegmentLength table.now.form.first_len next }
    requires next { (count : ℕ) × (pass.old.view.notes.scan.observers ≡ Some (current, count))
        × (next ≡ next_len_of table.now.form.first_len length (is_observed count)) }
    ensures same { pass.new.table ≡ pass.old.table }
    ensures begun { pass.new.view ≡ prepared pass.old.view current place tail next 1 }
{
    // for the proof: its clauses name them
    let _ = (current, tail, length);
    let _form = table.form();
    table.place_words(pass, QueueWord::Length(place), u64::from(next));
}

/// Begins to prepare the free place, for a segment of the length that is next.
fn begin_place(
    table: &QueueTable,
    pass: &mut QueuePass,
    current: u32,
    tail: u64,
    length: u32,
    place: u32,
) -> u32
    requires of { IsOf table.now pass.old }
    requires places { (current < table.now.form.places) × (place < table.now.form.places) }
    requires hand { pass.old.view.hand ≡ Nothing }
    requires stage { pass.old.view.stage ≡ Found current tail place }
    requires length { IsSegmentLength table.now.form.first_len length }
    requires tail { (number : ℕ) × (pass.old.view.notes.tail ≡ Some (ended_tail current tail length number)) }
    ensures same { pass.new.table ≡ pass.old.table }
    ensures inside { (1 ≤ result) × (result ≤ table.now.form.slots) }
    ensures next { (count : ℕ)
        × (result ≡ next_len_of table.now.form.first_len length (is_observed count)) }
    ensures begun { pass.new.view ≡ prepared pass.old.view current place tail result 1 }
{
    let observed = see_observers(table, pass, current, tail, place);
    let first_len = table.form().first_len;
    let next = next_len(length, observed, first_len);
    write_length(table, pass, current, tail, length, place, next);
    next
}

/// Writes where the segment starts, that no take in it is done, and how many were opened before it.
fn write_words(
    table: &QueueTable,
    pass: &mut QueuePass,
    current: u32,
    tail: u64,
    number: u64,
    place: u32,
    length: u32,
)
    requires of { IsOf table.now pass.old }
    requires place { place < table.now.form.places }
    requires stage { pass.old.view.stage ≡ Preparing current place tail length 1 }
    requires tail { (old : ℕ) × (pass.old.view.notes.tail ≡ Some (ended_tail current tail old number)) }
    ensures same { pass.new.table ≡ pass.old.table }
    ensures written { pass.new.view ≡ prepared pass.old.view current place tail length 4 }
{
    // for the proof: its clauses name them
    let _ = (current, length);
    table.place_words(pass, QueueWord::Start(place), tail);
    table.place_words(pass, QueueWord::Done(place), 0);
    table.place_words(pass, QueueWord::Segment(place), number.wrapping_add(1));
}

/// Writes the number of a slot, which is free for the first position that lies there.
fn write_number(
    table: &QueueTable,
    pass: &mut QueuePass,
    current: u32,
    tail: u64,
    place: u32,
    length: u32,
    slot: u32,
)
    requires of { IsOf table.now pass.old }
    requires place { place < table.now.form.places }
    requires slot { (slot < length) × (length ≤ table.now.form.slots) }
    requires small { tail < 2 ^ 60 }
    requires stage { pass.old.view.stage ≡ Preparing current place tail length (4 + slot) }
    ensures same { pass.new.table ≡ pass.old.table }
    ensures written { pass.new.view ≡ prepared pass.old.view current place tail length (4 + (slot + 1)) }
{
    // for the proof: its clauses name the current place
    let _ = current;
    let number = opening_number(tail, length, slot);
    table.place_words(pass, QueueWord::Number(place, slot), number);
}

/// Writes the number of each slot.
fn write_numbers(
    table: &QueueTable,
    pass: &mut QueuePass,
    current: u32,
    tail: u64,
    place: u32,
    length: u32,
)
    requires of { IsOf table.now pass.old }
    requires place { place < table.now.form.places }
    requires length { length ≤ table.now.form.slots }
    requires small { tail < 2 ^ 60 }
    requires stage { pass.old.view.stage ≡ Preparing current place tail length 4 }
    requires blank { pass.old.view.notes.scan ≡ blank_scan }
    ensures same { pass.new.table ≡ pass.old.table }
    ensures written { pass.new.view ≡ prepared pass.old.view current place tail length (4 + length) }
{
    for slot in 0..length {
        write_number(table, pass, current, tail, place, length, slot);
    }
}

/// Opens the place that was prepared, links the current one to it, and makes it current.
fn link_place(
    table: &QueueTable,
    pass: &mut QueuePass,
    current: u32,
    tail: u64,
    place: u32,
    length: u32,
)
    requires of { IsOf table.now pass.old }
    requires places { (current < table.now.form.places) × (place < table.now.form.places) }
    requires stage { pass.old.view.stage ≡ Preparing current place tail length (4 + length) }
    ensures same { pass.new.table ≡ pass.old.table }
    ensures moved { pass.new.view ≡ moved_on pass.old.view place tail length }
{
    // for the proof: its clauses name the length
    let _ = length;
    table.tail_open(pass, place, tail);
    table.place_words(pass, QueueWord::Next(current), u64::from(place));
    table.current_store(pass, place);
}

/// Opens a free place behind the current one, whose tail is closed as its segment is full: twice as
/// long as that segment, up to the longest, or as long as the first if that segment is observed.
pub(crate) fn open_place(
    table: &QueueTable,
    pass: &mut QueuePass,
    current: u32,
    tail: u64,
    length: u32,
    number: u64,
    place: u32,
)
    requires of { IsOf table.now pass.old }
    requires places { (current < table.now.form.places) × (place < table.now.form.places) }
    requires hand { pass.old.view.hand ≡ Nothing }
    requires small { tail < 2 ^ 60 }
    requires stage { pass.old.view.stage ≡ Found current tail place }
    requires length { IsSegmentLength table.now.form.first_len length }
    requires tail { pass.old.view.notes.tail ≡ Some (ended_tail current tail length number) }
    ensures same { pass.new.table ≡ pass.old.table }
    ensures opened { (count : ℕ) × (pass.new.view ≡ moved_on pass.old.view place tail
        (next_len_of table.now.form.first_len length (is_observed count))) }
{
    let next = begin_place(table, pass, current, tail, length, place);
    write_words(table, pass, current, tail, number, place, next);
    write_numbers(table, pass, current, tail, place, next);
    link_place(table, pass, current, tail, place, next);
}

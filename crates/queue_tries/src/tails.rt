// The tail of the current place, and the slot that it waits for.
ghost use Rattle.std.specs.Prelude.{◌≡◌, ◌≢◌, ◌+◌, ◌*◌, ◌<◌, ◌≤◌, ◌^◌, ℕ, Some, None, false};
ghost use Rattle.ho_base.specs.Marks.{number_priority};
ghost use Rattle.passes.specs.Seen.{IsLawful};
ghost use Rattle.seg_rule.specs.declared.view.Hand.TheVariants.{Nothing};
ghost use Rattle.seg_rule.specs.declared.view.Stage.TheVariants.{Plain};
ghost use Rattle.seg_rule.specs.declared.word.QueueWord.TheVariants.{Current};
ghost use Rattle.seg_rule.specs.Steps.{blank, MayCount};
ghost use Rattle.seg_rule.specs.Loads.{has_closed};
ghost use Rattle.seg_rule.specs.Plays.{Reads};
ghost use Rattle.seg_rule.specs.Passes.{IsOf};
ghost use Rattle.queue_tries.specs.Tries.{IsIdle};
ghost use Rattle.queue_tries.specs.Tails.{at_current, at_tail, at_room, begun_at, SeesTail, SeesRoom, SeesSlot};

use crate::loads::load;
use seg_layout::slot_of;
use seg_rule::{Entering, QueuePass, QueueTable, QueueWord};

fn load_current(table: &QueueTable, pass: &mut QueuePass) -> u32
    requires of { IsOf table.now pass.old }
    requires free { (pass.old.view.hand ≡ Nothing) × (pass.old.view.window ≡ None) }
    ensures same { pass.new.table ≡ pass.old.table }
    ensures inside { result < table.now.form.places }
    ensures read { Reads Current result pass.old.view pass.new.view }
{
    let _form = table.form();
    let place = table.load(pass, QueueWord::Current, Entering::Nothing);
    place as u32
}

/// Begins a try by a load of the current place.
pub(crate) fn begin_current(table: &QueueTable, pass: &mut QueuePass) -> u32
    requires idle { IsIdle table.now pass.old }
    ensures same { pass.new.table ≡ pass.old.table }
    ensures inside { result < table.now.form.places }
    ensures lawful { IsLawful number_priority pass.old.view.object pass.old.view.callers pass.old.view.seen }
    ensures begun { pass.new.view ≡ begun_at result pass.old.view }
{
    load_current(table, pass)
}

/// Loads the current place once more, under the turn.
pub(crate) fn see_current(table: &QueueTable, pass: &mut QueuePass) -> u32
    requires of { IsOf table.now pass.old }
    requires free { (pass.old.view.hand ≡ Nothing) × (pass.old.view.window ≡ None) }
    requires stage { pass.old.view.stage ≡ Plain }
    requires notes { pass.old.view.notes ≡ blank }
    ensures same { pass.new.table ≡ pass.old.table }
    ensures inside { result < table.now.form.places }
    ensures seen { pass.new.view ≡ record pass.old.view { notes = at_current result } }
{
    load_current(table, pass)
}

/// The position of the tail of the current place, if it is open. Under the turn it is.
pub(crate) fn see_tail(table: &QueueTable, pass: &mut QueuePass, place: u32) -> Option<u64>
    requires of { IsOf table.now pass.old }
    requires place { place < table.now.form.places }
    requires stage { has_closed pass.old.view.stage ≡ false }
    requires window { pass.old.view.window ≡ None }
    requires notes { pass.old.view.notes ≡ at_current place }
    ensures same { pass.new.table ≡ pass.old.table }
    ensures seen { SeesTail pass.old.view place result pass.new.view }
{
    let tail = load(table, pass, QueueWord::Tail(place));
    if tail % 2 == 0 { Some(tail / 2) } else { None }
}

/// The head, below which the tail is by less than the room. The error is a head by the whole room
/// below it: by that load the enqueue is full.
pub(crate) fn see_room(
    table: &QueueTable,
    pass: &mut QueuePass,
    place: u32,
    tail: u64,
    value: u64,
) -> Result<u64, u64>
    requires of { IsOf table.now pass.old }
    requires may { MayCount pass.old.view }
    requires notes { pass.old.view.notes ≡ at_tail place tail }
    ensures same { pass.new.table ≡ pass.old.table }
    ensures seen { SeesRoom pass.old.view place tail value result pass.new.view }
{
    // for the proof: its clauses name the place
    let _ = place;
    let room = table.form().room as u64;
    let entering = Entering::Full { value, tail };
    let head = table.load(pass, QueueWord::Head, entering);
    if tail >= room && head == tail - room {
        Err(head)
    } else {
        Ok(head)
    }
}

/// The length of the segment, if the slot of the tail is not free for it.
pub(crate) fn see_slot(
    table: &QueueTable,
    pass: &mut QueuePass,
    place: u32,
    tail: u64,
    head: u64,
) -> Option<u32>
    requires of { IsOf table.now pass.old }
    requires place { place < table.now.form.places }
    requires stage { has_closed pass.old.view.stage ≡ false }
    requires free { (pass.old.view.hand ≡ Nothing) × (pass.old.view.window ≡ None) }
    requires notes { pass.old.view.notes ≡ at_room place tail head }
    requires small { 2 * tail < 2 ^ 60 }
    ensures same { pass.new.table ≡ pass.old.table }
    ensures seen { SeesSlot pass.old.view place tail result pass.new.view }
{
    // for the proof: its clauses name the head
    let _ = head;
    let _form = table.form();
    let length = load(table, pass, QueueWord::Length(place)) as u32;
    let slot = slot_of(tail, length);
    let number = load(table, pass, QueueWord::Number(place, slot));
    if number == 2 * tail {
        None
    } else {
        Some(length)
    }
}

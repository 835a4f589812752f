// The search for a free place, under the turn and with the tail closed.
ghost use Rattle.std.specs.Prelude.{◌≡◌, ◌≢◌, ◌+◌, ◌*◌, ◌<◌, ◌≤◌, ℕ, Some, None, IfSome, IfNone, true, false};
ghost use Rattle.seg_rule.specs.declared.view.Hand.TheVariants.{Nothing};
ghost use Rattle.seg_rule.specs.Tells.{place_count};
ghost use Rattle.seg_rule.specs.Passes.{IsOf};
ghost use Rattle.queue_tries.specs.Scans.{HasClosedFull, IsPastHead, PassesPlace, LooksAtPlace, FindsPlace, TriesPlace, HasScanned, Searches, candidate};

use crate::firsts::place_of;
use crate::loads::load;
use seg_rule::{Entering, QueuePass, QueueTable, QueueWord};

/// The end of the segment of a place other than the current one, if it is at the head or below.
fn look_at_end(
    table: &QueueTable,
    pass: &mut QueuePass,
    place: u32,
    current: u32,
    head: u64,
) -> Option<u64>
    requires of { IsOf table.now pass.old }
    requires place { (place < table.now.form.places) × (place ≢ current) }
    requires stage { HasClosedFull pass.old.view.stage }
    requires window { pass.old.view.window ≡ None }
    requires scan { IsPastHead pass.old.view current head }
    ensures same { pass.new.table ≡ pass.old.table }
    ensures some { IfSome result (λ end. (end ≤ head)
        × LooksAtPlace pass.old.view current head place end None false pass.new.view) }
    ensures none { IfNone result (PassesPlace pass.old.view current head place pass.new.view) }
{
    // for the proof: its clauses name the current place
    let _ = current;
    let end = load(table, pass, QueueWord::Tail(place)) / 2;
    if end <= head { Some(end) } else { None }
}

/// Whether as many takes are done in the place as its segment had positions.
fn look_at_takes(
    table: &QueueTable,
    pass: &mut QueuePass,
    place: u32,
    current: u32,
    head: u64,
    end: u64,
) -> bool
    requires of { IsOf table.now pass.old }
    requires place { (place < table.now.form.places) × (place ≢ current) × (end ≤ head) }
    requires stage { HasClosedFull pass.old.view.stage }
    requires scan { IsPastHead pass.old.view current head }
    requires candidate { pass.old.view.notes.scan.candidate ≡ Some (candidate place end None false) }
    ensures same { pass.new.table ≡ pass.old.table }
    ensures spent { result ≡ true
        → (start : ℕ) × LooksAtPlace pass.old.view current head place end (Some start) true pass.new.view }
    ensures unfinished { result ≡ false → PassesPlace pass.old.view current head place pass.new.view }
{
    // for the proof: its clauses name them
    let _ = (current, head);
    let start = table.load(pass, QueueWord::Start(place), Entering::Nothing);
    let done = table.load(pass, QueueWord::Done(place), Entering::Nothing);
    start <= end && end - start == done
}

/// Whether nobody observes the place. It is free then.
fn look_at_observers(
    table: &QueueTable,
    pass: &mut QueuePass,
    place: u32,
    current: u32,
    head: u64,
) -> bool
    requires of { IsOf table.now pass.old }
    requires place { (place < table.now.form.places) × (place ≢ current) }
    requires hand { pass.old.view.hand ≡ Nothing }
    requires stage { HasClosedFull pass.old.view.stage }
    requires scan { IsPastHead pass.old.view current head }
    requires candidate { (end start : ℕ) × (pass.old.view.notes.scan.candidate ≡ Some (candidate place end (Some start) true)) }
    ensures same { pass.new.table ≡ pass.old.table }
    ensures tried { TriesPlace pass.old.view current head place result pass.new.view }
{
    // for the proof: its clauses name them
    let _ = (current, head);
    let observers = table.load(pass, QueueWord::Observers(place), Entering::Nothing);
    observers == 0
}

/// Whether a place is free. The current one is not.
fn try_place(table: &QueueTable, pass: &mut QueuePass, place: u32, current: u32, head: u64) -> bool
    requires of { IsOf table.now pass.old }
    requires place { place < table.now.form.places }
    requires free { (pass.old.view.hand ≡ Nothing) × (pass.old.view.window ≡ None) }
    requires stage { HasClosedFull pass.old.view.stage }
    requires scan { IsPastHead pass.old.view current head }
    ensures same { pass.new.table ≡ pass.old.table }
    ensures tried { TriesPlace pass.old.view current head place result pass.new.view }
{
    if place == current {
        return false;
    }
    let Some(end) = look_at_end(table, pass, place, current, head) else {
        return false;
    };
    if !look_at_takes(table, pass, place, current, head, end) {
        return false;
    }
    look_at_observers(table, pass, place, current, head)
}

/// Loads the current place, which is in use.
fn pass_current(table: &QueueTable, pass: &mut QueuePass, head: u64) -> u32
    requires of { IsOf table.now pass.old }
    requires free { (pass.old.view.hand ≡ Nothing) × (pass.old.view.window ≡ None) }
    requires stage { HasClosedFull pass.old.view.stage }
    requires scan { (pass.old.view.notes.head ≡ Some head) × (pass.old.view.notes.scan.past ≡ Some head) }
    ensures same { pass.new.table ≡ pass.old.table }
    ensures scanned { HasScanned pass.old.view result head 0 pass.new.view }
{
    // for the proof: its clauses name the head
    let _ = head;
    let current = table.load(pass, QueueWord::Current, Entering::Nothing);
    place_of(table, current)
}

/// A free place: the least, which no clause asks for. There is none where each is the current one, in the
/// chain, has a take that is not done, or is observed.
pub(crate) fn find_place(table: &QueueTable, pass: &mut QueuePass, head: u64) -> Option<u32>
    requires of { IsOf table.now pass.old }
    requires free { (pass.old.view.hand ≡ Nothing) × (pass.old.view.window ≡ None) }
    requires stage { HasClosedFull pass.old.view.stage }
    requires scan { (pass.old.view.notes.head ≡ Some head) × (pass.old.view.notes.scan.past ≡ Some head) }
    ensures same { pass.new.table ≡ pass.old.table }
    ensures inside { IfSome result (λ place. place < table.now.form.places) }
    ensures searched { Searches pass.old.view (place_count pass.old.view) result pass.new.view }
{
    let current = pass_current(table, pass, head);
    for place in 0..table.form().places {
        if try_place(table, pass, place, current, head) {
            return Some(place);
        }
    }
    None
}

// How the holder of the turn moves first on.
ghost use Rattle.std.specs.Prelude.{◌≡◌, ◌≢◌, ◌<◌, [], None, Some, IfSome};
ghost use Rattle.seg_layout.specs.Lengths.{places_of};
ghost use Rattle.seg_rule.specs.declared.view.Hand.TheVariants.{Nothing};
ghost use Rattle.seg_rule.specs.Steps.{MayMoveFirst};
ghost use Rattle.seg_rule.specs.Loads.{first_scan, current_scan, has_closed, met_if, moved_scan};
ghost use Rattle.seg_rule.specs.declared.view.Obstacle.TheVariants.{IsCurrent};
ghost use Rattle.seg_rule.specs.Passes.{IsOf};
ghost use Rattle.queue_tries.specs.Walks.{scanned};
ghost use Rattle.queue_tries.specs.Firsts.{MovesFirst, LooksAtEnd, HasEnded, StepsFirst};

use seg_rule::{Entering, QueuePass, QueueTable, QueueWord};

/// The place that a word names.
pub(crate) fn place_of(table: &QueueTable, word: u64) -> u32
    requires inside { word < places_of table.now.form.room table.now.form.first_len table.now.form.callers }
    ensures same { result ≡ word }
    ensures inside { result < table.now.form.places }
{
    let places = u64::from(table.form().places);
    prove!(word < places);
    word as u32
}

/// Reads under the turn which place is first.
fn look_first(table: &QueueTable, pass: &mut QueuePass) -> u32
    requires of { IsOf table.now pass.old }
    requires free { (pass.old.view.hand ≡ Nothing) × (pass.old.view.window ≡ None) }
    requires stage { MayMoveFirst pass.old.view.stage }
    ensures of { IsOf table.now pass.new }
    ensures same { pass.new.table ≡ pass.old.table }
    ensures inside { result < table.now.form.places }
    ensures read { pass.new.view ≡ scanned pass.old.view []
        (first_scan result pass.old.view.notes.head pass.old.view.notes.scan) }
{
    let word = table.load(pass, QueueWord::First, Entering::Nothing);
    place_of(table, word)
}

/// Reads under the turn which place is current.
fn look_current(table: &QueueTable, pass: &mut QueuePass) -> u32
    requires of { IsOf table.now pass.old }
    requires free { (pass.old.view.hand ≡ Nothing) × (pass.old.view.window ≡ None) }
    requires stage { MayMoveFirst pass.old.view.stage }
    ensures of { IsOf table.now pass.new }
    ensures same { pass.new.table ≡ pass.old.table }
    ensures inside { result < table.now.form.places }
    ensures read { pass.new.view ≡ scanned pass.old.view
        (met_if (has_closed pass.old.view.stage) (IsCurrent result))
        (current_scan result pass.old.view.notes.head pass.old.view.notes.scan) }
{
    let word = table.load(pass, QueueWord::Current, Entering::Nothing);
    place_of(table, word)
}

/// Reads under the turn where the first segment ends, which is not the current one.
fn look_end(table: &QueueTable, pass: &mut QueuePass, first: u32, current: u32) -> u64
    requires of { IsOf table.now pass.old }
    requires free { (pass.old.view.hand ≡ Nothing) × (pass.old.view.window ≡ None) }
    requires stage { MayMoveFirst pass.old.view.stage }
    requires place { first < table.now.form.places }
    requires first { pass.old.view.notes.scan.first ≡ Some first }
    requires current { pass.old.view.notes.scan.current ≡ Some current }
    requires other { first ≢ current }
    ensures of { IsOf table.now pass.new }
    ensures same { pass.new.table ≡ pass.old.table }
    ensures read { LooksAtEnd pass.old.view first result pass.new.view }
{
    table.load(pass, QueueWord::Tail(first), Entering::Nothing) / 2
}

/// Makes the next place first, where the first segment ends at the head or below.
fn go_on(table: &QueueTable, pass: &mut QueuePass, first: u32, current: u32) -> u32
    requires of { IsOf table.now pass.old }
    requires free { (pass.old.view.hand ≡ Nothing) × (pass.old.view.window ≡ None) }
    requires stage { MayMoveFirst pass.old.view.stage }
    requires place { first < table.now.form.places }
    requires first { pass.old.view.notes.scan.first ≡ Some first }
    requires current { pass.old.view.notes.scan.current ≡ Some current }
    requires other { first ≢ current }
    requires ended { HasEnded pass.old.view first }
    ensures of { IsOf table.now pass.new }
    ensures same { pass.new.table ≡ pass.old.table }
    ensures inside { result < table.now.form.places }
    ensures moved { pass.new.view ≡ scanned pass.old.view []
        (moved_scan result pass.old.view.notes.head pass.old.view.notes.scan) }
{
    let word = table.load(pass, QueueWord::Next(first), Entering::Nothing);
    let next = place_of(table, word);
    table.first_store(pass, next);
    next
}

/// Moves first on by one place, if the first segment ends at or below the head. It is not the current
/// one.
fn step_first(
    table: &QueueTable,
    pass: &mut QueuePass,
    head: u64,
    first: u32,
    current: u32,
) -> Option<u32>
    requires of { IsOf table.now pass.old }
    requires free { (pass.old.view.hand ≡ Nothing) × (pass.old.view.window ≡ None) }
    requires stage { MayMoveFirst pass.old.view.stage }
    requires place { first < table.now.form.places }
    requires head { pass.old.view.notes.head ≡ Some head }
    requires first { pass.old.view.notes.scan.first ≡ Some first }
    requires current { pass.old.view.notes.scan.current ≡ Some current }
    requires other { first ≢ current }
    ensures of { IsOf table.now pass.new }
    ensures same { pass.new.table ≡ pass.old.table }
    ensures inside { IfSome result (λ next. next < table.now.form.places) }
    ensures steps { StepsFirst pass.old.view head first current result pass.new.view }
{
    let end = look_end(table, pass, first, current);
    if end > head {
        return None;
    }
    Some(go_on(table, pass, first, current))
}

/// Moves first past each closed segment whose end is at or below the head, never past the current
/// place. The place that is first then.
pub(crate) fn move_first(table: &QueueTable, pass: &mut QueuePass, head: u64) -> u32
    requires of { IsOf table.now pass.old }
    requires free { (pass.old.view.hand ≡ Nothing) × (pass.old.view.window ≡ None) }
    requires stage { MayMoveFirst pass.old.view.stage }
    requires head { pass.old.view.notes.head ≡ Some head }
    ensures same { pass.new.table ≡ pass.old.table }
    ensures inside { result < table.now.form.places }
    ensures moved { MovesFirst pass.old.view head result pass.new.view }
{
    let mut first = look_first(table, pass);
    let current = look_current(table, pass);
    'moves: while first != current {
        let Some(next) = step_first(table, pass, head, first, current) else {
            break;
        };
        first = next;
    }
    first
}

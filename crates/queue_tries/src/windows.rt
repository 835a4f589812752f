// The items of a window, read one by one, and its end.
ghost use Rattle.std.specs.Prelude.{◌≡◌, ◌≢◌, ◌<◌, false, Some};
ghost use Rattle.seg_rule.specs.declared.view.Hand.TheVariants.{Nothing};
ghost use Rattle.seg_rule.specs.declared.view.Stage.TheVariants.{Away};
ghost use Rattle.seg_rule.specs.Words.{IsWord};
ghost use Rattle.seg_rule.specs.Loads.{begins_call};
ghost use Rattle.seg_rule.specs.Looks.{MayLook};
ghost use Rattle.seg_rule.specs.Passes.{IsOf, pass_of};
ghost use Rattle.queue_tries.specs.Tries.{IsIdle};
ghost use Rattle.queue_tries.specs.Windows.{HasOpened, Gives};
ghost use Rattle.queue_tries.specs.Reading.{LooksInto, segments_left, HoldsFrom, LeavesFirst, IsAtPlace, LiesAt, IsShown, Stays, PassesOn, SeesNumber, ReadsAt};

use crate::answers::{Next, Window};
use crate::firsts::place_of;
use seg_layout::slot_of;
use seg_rule::{Entering, QueuePass, QueueTable, QueueWord};

/// A load of the first place of a window.
fn look(table: &QueueTable, pass: &mut QueuePass, word: QueueWord) -> u64
    requires of { IsOf table.now pass.old }
    requires word { IsWord table.now.form.places table.now.form.slots word }
    requires may { MayLook word pass.old.view × (begins_call word ≡ false) }
    requires free { (pass.old.view.hand ≡ Nothing) × (pass.old.view.stage ≡ Away) }
    ensures same { pass.new.table ≡ pass.old.table }
    ensures read { LooksInto word result pass.old.view pass.new.view }
{
    table.load(pass, word, Entering::Nothing)
}

/// Lets the first place go, which is not the last. The place after it.
fn leave_first(table: &QueueTable, pass: &mut QueuePass, first: u32, last: u32) -> u32
    requires of { IsOf table.now pass.old }
    requires holds { HoldsFrom first last pass.old.view }
    requires other { first ≢ last }
    requires inside { first < table.now.form.places }
    ensures same { pass.new.table ≡ pass.old.table }
    ensures inside { result < table.now.form.places }
    ensures left { LeavesFirst first last pass.old.view result pass.new.view }
{
    // for the proof: its clauses name it
    let _ = last;
    let word = look(table, pass, QueueWord::Next(first));
    let next = place_of(table, word);
    table.observe_end(pass, first);
    next
}

/// Lets the first place go, if the next position is at its end or above and it is not the last one.
fn pass_on(table: &QueueTable, pass: &mut QueuePass, window: &mut Window) -> bool
    requires of { IsOf table.now pass.old }
    requires opened { HasOpened pass.old window.old }
    ensures same { pass.new.table ≡ pass.old.table }
    ensures stays { Stays pass.old.view pass.new.view }
    ensures passes { PassesOn pass.old window.old pass.new window.new result }
{
    if window.first == window.last {
        return false;
    }
    let _form = table.form();
    let end = look(table, pass, QueueWord::Tail(window.first)) / 2;
    if window.at < end {
        return false;
    }
    window.first = leave_first(table, pass, window.first, window.last);
    true
}

/// Lets places go up to that in which the next position lies.
fn reach_place(table: &QueueTable, pass: &mut QueuePass, window: &mut Window)
    requires of { IsOf table.now pass.old }
    requires opened { HasOpened pass.old window.old }
    ensures same { pass.new.table ≡ pass.old.table }
    ensures stays { Stays pass.old.view pass.new.view }
    ensures kept { window.new ≡ record window.old { first = window.new.first } }
    ensures at { IsAtPlace pass.new window.new }
{
    'places: while pass_on(table, pass, window) {}
}

/// The slot of the next position, in the first place.
fn next_slot(table: &QueueTable, pass: &mut QueuePass, window: &Window) -> u32
    requires of { IsOf table.now pass.old }
    requires at { IsAtPlace pass.old window.now }
    requires left { window.now.at < window.now.tail }
    ensures same { pass.new.table ≡ pass.old.table }
    ensures inside { result < table.now.form.slots }
    ensures stays { Stays pass.old.view pass.new.view }
    ensures lies { LiesAt pass.new window.now result }
{
    let _form = table.form();
    let length = look(table, pass, QueueWord::Length(window.first));
    slot_of(window.at, length as u32)
}

/// Whether the slot of the next position is published.
fn is_published(table: &QueueTable, pass: &mut QueuePass, window: &Window, slot: u32) -> bool
    requires of { IsOf table.now pass.old }
    requires lies { LiesAt pass.old window.now slot }
    requires inside { slot < table.now.form.slots }
    requires left { window.now.at < window.now.tail }
    ensures same { pass.new.table ≡ pass.old.table }
    ensures seen { SeesNumber pass.old window.now slot pass.new result }
{
    let _form = table.form();
    let number = look(table, pass, QueueWord::Number(window.first, slot));
    number % 2 == 1
}

/// The item of the next position, whose slot is published.
fn item_of(table: &QueueTable, pass: &mut QueuePass, window: &Window, slot: u32) -> u64
    requires of { IsOf table.now pass.old }
    requires shown { IsShown pass.old window.now slot }
    requires inside { slot < table.now.form.slots }
    requires left { window.now.at < window.now.tail }
    ensures same { pass.new.table ≡ pass.old.table }
    ensures read { ReadsAt pass.old window.now pass.new (Some result) }
{
    let _form = table.form();
    look(table, pass, QueueWord::Item(window.first, slot))
}

/// The item of the next position, which lies in the first place, if it is published.
fn read_at(table: &QueueTable, pass: &mut QueuePass, window: &Window) -> Option<u64>
    requires of { IsOf table.now pass.old }
    requires at { IsAtPlace pass.old window.now }
    requires left { window.now.at < window.now.tail }
    ensures same { pass.new.table ≡ pass.old.table }
    ensures read { ReadsAt pass.old window.now pass.new result }
{
    let slot = next_slot(table, pass, window);
    if !is_published(table, pass, window, slot) {
        return None;
    }
    Some(item_of(table, pass, window, slot))
}

/// The next item of a window, if one is left and it is published. It makes no entry.
///
/// Takes no memory, and constant time but for the places that are let go as their items are given.
pub fn window_next(table: &QueueTable, pass: &mut QueuePass, window: &mut Window) -> Next
    requires of { IsOf table.now pass.old }
    requires opened { HasOpened pass.old window.old }
    ensures of { IsOf table.now pass.new }
    ensures opened { HasOpened pass.new window.new }
    ensures gives { Gives pass.old window.old pass.new window.new result }
{
    if window.at == window.tail {
        return Next::End;
    }
    reach_place(table, pass, window);
    let Some(item) = read_at(table, pass, window) else {
        return Next::InFlight;
    };
    window.at += 1;
    Next::Item(item)
}

/// Ends a window: the places that it holds are let go. It makes no entry.
///
/// Takes no memory, and time by the number of places.
pub fn window_end(table: &QueueTable, pass: &mut QueuePass, window: Window)
    requires of { IsOf table.now pass.old }
    requires opened { HasOpened pass.old window }
    ensures idle { IsIdle table.now pass.new }
    ensures ended { pass_of pass.new ≡ pass_of pass.old }
{
    let _form = table.form();
    let Window {
        first,
        last,
        head: _,
        tail: _,
        at: _,
    } = window;
    let mut place = first;
    'places: while place != last {
        place = leave_first(table, pass, place, last);
    }
    table.observe_end(pass, last);
}

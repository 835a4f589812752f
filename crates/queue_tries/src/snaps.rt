// A try of a snapshot.
ghost use Rattle.std.specs.Prelude.{◌≡◌, ◌≢◌, ◌<◌, None, Some};
ghost use Rattle.seg_rule.specs.declared.view.Hand.TheVariants.{Nothing};
ghost use Rattle.seg_rule.specs.declared.view.Stage.TheVariants.{Plain};
ghost use Rattle.seg_rule.specs.Steps.{MayMoveFirst};
ghost use Rattle.seg_rule.specs.Passes.{IsOf};
ghost use Rattle.queue_tries.specs.Tries.{IsIdle};
ghost use Rattle.queue_tries.specs.Counts.{IsPaid};
ghost use Rattle.queue_tries.specs.Windows.{WindowsOnce};
ghost use Rattle.queue_tries.specs.Snaps.{IsCounted, IsClosedAt, SeesHead, ReadsFirst, IsObserving, Observes, places_left, LooksAll, SnapsClosed, WindowsPaid};

use crate::answers::{QueueAgain, QueueOnce, Window};
use crate::counts::{begin, close, current_place, current_tail};
use crate::firsts::{move_first, place_of};
use crate::loads::load;
use ho_base::Receipt;
use seg_rule::{Entering, QueuePass, QueueTable, QueueWord};

/// Reads the head while the tail is closed.
fn closed_head(table: &QueueTable, pass: &mut QueuePass, current: u32, tail: u64) -> u64
    requires of { IsOf table.now pass.old }
    requires free { (pass.old.view.hand ≡ Nothing) × (pass.old.view.window ≡ None) }
    requires closed { IsClosedAt current tail pass.old.view }
    ensures same { pass.new.table ≡ pass.old.table }
    ensures stage { MayMoveFirst pass.new.view.stage }
    ensures read { SeesHead pass.old.view current tail result pass.new.view }
{
    // for the proof: its clauses name them
    let _ = (current, tail);
    load(table, pass, QueueWord::Head)
}

/// Moves first past each segment that ends at the head or below, while the tail is closed. The place that
/// is first then.
fn first_place(table: &QueueTable, pass: &mut QueuePass, current: u32, tail: u64) -> u32
    requires of { IsOf table.now pass.old }
    requires free { (pass.old.view.hand ≡ Nothing) × (pass.old.view.window ≡ None) }
    requires closed { IsClosedAt current tail pass.old.view }
    ensures same { pass.new.table ≡ pass.old.table }
    ensures inside { result < table.now.form.places }
    ensures read { ReadsFirst pass.old.view current tail result pass.new.view }
{
    let head = closed_head(table, pass, current, tail);
    move_first(table, pass, head)
}

/// Observes the first place.
fn observe_first(table: &QueueTable, pass: &mut QueuePass, current: u32, tail: u64, first: u32)
    requires of { IsOf table.now pass.old }
    requires window { pass.old.view.window ≡ None }
    requires closed { IsClosedAt current tail pass.old.view }
    requires first { pass.old.view.notes.scan.first ≡ Some first }
    requires inside { first < table.now.form.places }
    ensures same { pass.new.table ≡ pass.old.table }
    ensures observed { Observes pass.old.view current tail first first pass.new.view }
{
    // for the proof: its clauses name them
    let _ = (current, tail);
    table.observe_add(pass, first);
}

/// Observes the place after one that is observed and is not the current one.
fn observe_next(
    table: &QueueTable,
    pass: &mut QueuePass,
    current: u32,
    tail: u64,
    first: u32,
    place: u32,
) -> u32
    requires of { IsOf table.now pass.old }
    requires at { IsObserving current tail first place pass.old.view }
    requires other { place ≢ current }
    requires inside { place < table.now.form.places }
    ensures same { pass.new.table ≡ pass.old.table }
    ensures inside { result < table.now.form.places }
    ensures observed { Observes pass.old.view current tail first result pass.new.view }
    ensures fewer { places_left pass.new.view.stage < places_left pass.old.view.stage }
{
    // for the proof: its clauses name them
    let _ = (current, tail, first);
    let word = table.load(pass, QueueWord::Next(place), Entering::Nothing);
    let next = place_of(table, word);
    table.observe_add(pass, next);
    next
}

/// Observes each place from the first to the current one.
fn observe_all(table: &QueueTable, pass: &mut QueuePass, current: u32, tail: u64, first: u32)
    requires of { IsOf table.now pass.old }
    requires window { pass.old.view.window ≡ None }
    requires closed { IsClosedAt current tail pass.old.view }
    requires first { pass.old.view.notes.scan.first ≡ Some first }
    requires inside { first < table.now.form.places }
    ensures same { pass.new.table ≡ pass.old.table }
    ensures observed { Observes pass.old.view current tail first current pass.new.view }
{
    observe_first(table, pass, current, tail, first);
    let mut place = first;
    'places: while place != current {
        place = observe_next(table, pass, current, tail, first, place);
    }
}

/// Reads the head while all places are observed, which makes the entry; opens the tail again, and gives
/// the turn back.
fn look_all(table: &QueueTable, pass: &mut QueuePass, current: u32, tail: u64, first: u32) -> u64
    requires of { IsOf table.now pass.old }
    requires counted { IsCounted pass.old.view }
    requires at { IsObserving current tail first current pass.old.view }
    ensures same { pass.new.table ≡ pass.old.table }
    ensures of { IsOf table.now pass.new }
    ensures looks { LooksAll pass.old.view current tail first result pass.new.view }
{
    // for the proof: its clauses name them
    let _ = (current, tail, first);
    let head = table.head_look(pass);
    table.tail_reopen(pass);
    table.turn_leave(pass);
    head
}

/// Takes a snapshot under the turn, with this place current and its tail closed, and gives the turn back.
fn snap_closed(table: &QueueTable, pass: &mut QueuePass, current: u32, tail: u64) -> Window
    requires of { IsOf table.now pass.old }
    requires paid { IsPaid pass.old.view }
    requires closed { IsClosedAt current tail pass.old.view }
    requires inside { current < table.now.form.places }
    ensures same { pass.new.table ≡ pass.old.table }
    ensures of { IsOf table.now pass.new }
    ensures told { SnapsClosed pass.old.view tail result pass.new.view }
{
    let _form = table.form();
    let first = first_place(table, pass, current, tail);
    observe_all(table, pass, current, tail, first);
    let head = look_all(table, pass, current, tail, first);
    Window {
        first,
        last: current,
        head,
        tail,
        at: head,
    }
}

/// Takes a snapshot under the turn, and gives it back.
fn window_paid(table: &QueueTable, pass: &mut QueuePass) -> QueueOnce<Window>
    requires of { IsOf table.now pass.old }
    requires paid { IsPaid pass.old.view }
    requires plain { pass.old.view.stage ≡ Plain }
    ensures same { pass.new.table ≡ pass.old.table }
    ensures of { IsOf table.now pass.new }
    ensures told { WindowsPaid pass.old.view pass.new.view result }
{
    let current = current_place(table, pass);
    let tail = current_tail(table, pass, current);
    if !close(table, pass, current, tail) {
        table.turn_leave(pass);
        return QueueOnce::Again(QueueAgain::Lost);
    }
    let window = snap_closed(table, pass, current, tail);
    let receipt = Receipt::Looked {
        head: window.head,
        tail,
    };
    QueueOnce::Answer(window, receipt)
}

/// Takes a snapshot of all items, with the tail closed for that moment, and opens a window on it.
///
/// The receipt is `Looked`: the items taken so far, and those enqueued. The places in which the items lie are
/// held until the window is ended. Takes no memory, and time by the number of segments. It gave no answer where
/// another caller has the turn, or enqueued between the two looks at the tail.
pub fn window_once(table: &QueueTable, pass: &mut QueuePass) -> QueueOnce<Window>
    requires idle { IsIdle table.now pass.old }
    ensures of { IsOf table.now pass.new }
    ensures told { WindowsOnce pass.old pass.new result }
{
    if pass.is_spent() {
        return QueueOnce::Spent;
    }
    let _caller = pass.caller();
    begin(table, pass);
    match table.turn_take(pass) {
        Ok(()) => window_paid(table, pass),
        Err(_) => QueueOnce::Again(QueueAgain::Turn),
    }
}

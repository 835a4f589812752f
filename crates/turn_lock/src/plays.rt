// The rule of the table, and what each kind of step tells.
use crate::view::View;
use atomic_table::{Join, Play, Split, TableRule};
use ho_model::{EntryMark, Stepper};
use std::marker::{Brand, PhantomData};
use std::snapshot::Snapshot;

/// The rule. The key of a table is its machine at the start, and the number of callers.
pub(crate) struct Turns<M> {
    marker: PhantomData<M>,
}

impl<M: Stepper> TableRule<M, View, (Snapshot<M>, u64)> for Turns<M> {
    ghost use Rattle.ho_model.specs.Histories.{StandsFor};
    ghost use Rattle.turn_lock.specs.Rule.{Kept};
    ghost use Rattle.turn_lock.specs.Views.{first_view};

    ghost holds = { λ key. Kept M.priority
        (StandsFor M.priority M.object M.callers M.state M.steps M.tally)
        (M.object key.0.value) key.1 };

    ghost first = { λ key. first_view (M.object key.0.value) key.1 };
}

/// The load with which a try begins.
pub(crate) struct Look;

impl<M> Play<M, View> for Look {
    ghost use Rattle.turn_lock.specs.Plays.{looked};

    ghost then = { looked };
}

/// A try for the ticket that is served.
pub(crate) struct Try;

impl<M: Stepper> Play<M, View> for Try {
    ghost use Rattle.ho_model.specs.Histories.{StandsFor};
    ghost use Rattle.turn_lock.specs.Plays.{tried};

    ghost then = { tried M.priority
        (StandsFor M.priority M.object M.callers M.state M.steps M.tally) };
}

/// The same try in a call that goes on trying.
pub(crate) struct Grab;

impl<M: Stepper> Play<M, View> for Grab {
    ghost use Rattle.ho_model.specs.Histories.{StandsFor};
    ghost use Rattle.turn_lock.specs.Plays.{grabbed};

    ghost then = { grabbed M.priority
        (StandsFor M.priority M.object M.callers M.state M.steps M.tally) };
}

/// The next ticket is drawn.
pub(crate) struct Draw;

impl<M> Play<M, View> for Draw {
    ghost use Rattle.turn_lock.specs.Plays.{drew};

    ghost then = { drew };
}

/// A seat with a ticket looks whether its turn has come.
pub(crate) struct Reach;

impl<M: Stepper> Play<M, View> for Reach {
    ghost use Rattle.ho_model.specs.Histories.{StandsFor};
    ghost use Rattle.turn_lock.specs.Plays.{reached};

    ghost then = { reached M.priority
        (StandsFor M.priority M.object M.callers M.state M.steps M.tally) };
}

/// Names the entry that a step makes. Each call picks it.
pub(crate) trait Naming {
    ghost use Rattle.ho_model.specs.declared.marks.EntryMark.{EntryMark};

    ghost entry: { EntryMark };
}

impl Naming for Brand {
    ghost use Rattle.turn_lock.specs.Views.{no_entry};

    ghost entry = { no_entry };
}

/// The entry.
pub(crate) struct Enter<E> {
    marker: PhantomData<E>,
}

impl<M, E: Naming> Play<M, View> for Enter<E> {
    ghost use Rattle.turn_lock.specs.Plays.{adds};

    ghost then = { adds E.entry };
}

/// The turn is given back, with the machine.
pub(crate) struct Leave;

impl<M> Play<M, View> for Leave {
    ghost use Rattle.turn_lock.specs.Plays.{left};

    ghost then = { left };
}

/// Names the number that a split gives away.
pub(crate) trait Numbered {
    ghost use Rattle.std.specs.Prelude.{ℕ};

    ghost number: { ℕ };
}

impl Numbered for Brand {
    ghost number = { 0 };
}

pub(crate) struct Give<N> {
    marker: PhantomData<N>,
}

impl<N: Numbered> Split<View> for Give<N> {
    ghost use Rattle.turn_lock.specs.Views.{without, alone};

    ghost left = { λ v. without v N.number };

    ghost right = { λ v. alone v N.number };
}

/// Names the view of the seat that a join takes in.
pub(crate) trait Leaving {
    ghost use Rattle.turn_lock.specs.declared.view.View.{View};

    ghost last: { View };
}

impl Leaving for Brand {
    ghost use Rattle.turn_lock.specs.Views.{no_view};

    ghost last = { no_view };
}

pub(crate) struct TakeIn<L> {
    marker: PhantomData<L>,
}

impl<L: Leaving> Join<View> for TakeIn<L> {
    ghost use Rattle.turn_lock.specs.Views.{joined, gone};

    ghost both = { joined };

    ghost spent = { gone L.last };
}

/// The load after a join.
pub(crate) struct Tell;

impl<M: Stepper> Play<M, View> for Tell {
    ghost use Rattle.turn_lock.specs.Plays.{told};

    ghost then = { told M.priority };
}

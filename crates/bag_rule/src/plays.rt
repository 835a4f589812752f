// The rule of the table, and what each kind of step tells.
use crate::view::View;
use atomic_table::{Join, Play, Split, TableRule};
use ho_base::Item;
use item_lists::ItemList;
use std::marker::{Brand, PhantomData};

/// The rule. The key of a table is the number of callers.
pub struct BagRule<T> {
    marker: PhantomData<T>,
}

impl<T: Item> TableRule<ItemList<T>, View, u64> for BagRule<T> {
    ghost use Rattle.bag_rule.specs.Rule.{Stands};
    ghost use Rattle.bag_rule.specs.Views.{first_view};

    ghost holds = { λ callers. Stands T.priority_of callers };

    ghost first = { first_view };
}

/// Names the list, its new items and the entry of a step. Each call picks them.
pub(crate) trait Naming {
    ghost use Rattle.std.specs.Prelude.{ℕ, List};
    ghost use Rattle.ho_base.specs.Marks.{Mark};
    ghost use Rattle.ho_model.specs.declared.marks.EntryMark.{EntryMark};

    ghost list: { ℕ };

    ghost items: { List Mark };

    ghost entry: { EntryMark };
}

impl Naming for Brand {
    ghost use Rattle.std.specs.Prelude.{[]};
    ghost use Rattle.bag_rule.specs.Views.{no_entry};

    ghost list = { 0 };

    ghost items = { [] };

    ghost entry = { no_entry };
}

/// List take.
pub(crate) struct TakeList<T, N> {
    marker: PhantomData<(T, N)>,
}

impl<T: Item, N: Naming> Play<ItemList<T>, View> for TakeList<T, N> {
    ghost use Rattle.bag_rule.specs.Plays.{took};

    ghost then = { took T.priority_of N.list };
}

/// List leave.
pub(crate) struct LeaveList<N> {
    marker: PhantomData<N>,
}

impl<T: Item, N: Naming> Play<ItemList<T>, View> for LeaveList<N> {
    ghost use Rattle.bag_rule.specs.Plays.{left};

    ghost then = { left N.list };
}

/// The load of the event word with which a take begins to look round.
pub(crate) struct Begin;

impl<T: Item> Play<ItemList<T>, View> for Begin {
    ghost use Rattle.bag_rule.specs.Plays.{begins};

    ghost then = { begins };
}

/// A later load of the event word.
pub(crate) struct Look;

impl<T: Item> Play<ItemList<T>, View> for Look {
    ghost use Rattle.bag_rule.specs.Plays.{looks};

    ghost then = { looks };
}

/// Add event and take event.
pub(crate) struct Change<T, N> {
    marker: PhantomData<(T, N)>,
}

impl<T: Item, N: Naming> Play<ItemList<T>, View> for Change<T, N> {
    ghost use Rattle.bag_rule.specs.Plays.{changes};

    ghost then = { changes T.priority_of N.entry N.list N.items };
}

/// Quiet event.
pub(crate) struct Quiet<T, N> {
    marker: PhantomData<(T, N)>,
}

impl<T: Item, N: Naming> Play<ItemList<T>, View> for Quiet<T, N> {
    ghost use Rattle.bag_rule.specs.Plays.{enters};

    ghost then = { enters T.priority_of N.entry };
}

/// Quiet event of a count.
pub(crate) struct Count<T> {
    marker: PhantomData<T>,
}

impl<T: Item> Play<ItemList<T>, View> for Count<T> {
    ghost use Rattle.bag_rule.specs.Plays.{counts};

    ghost then = { counts T.priority_of };
}

/// Empty exchange.
pub(crate) struct FindEmpty<T> {
    marker: PhantomData<T>,
}

impl<T: Item> Play<ItemList<T>, View> for FindEmpty<T> {
    ghost use Rattle.bag_rule.specs.Plays.{empties};

    ghost then = { empties T.priority_of };
}

/// Names the number that a split gives away.
pub(crate) trait Numbered {
    ghost use Rattle.std.specs.Prelude.{ℕ};

    ghost number: { ℕ };
}

impl Numbered for Brand {
    ghost number = { 0 };
}

pub(crate) struct Give<N> {
    marker: PhantomData<N>,
}

impl<N: Numbered> Split<View> for Give<N> {
    ghost use Rattle.bag_rule.specs.Views.{without, alone};

    ghost left = { λ v. without v N.number };

    ghost right = { λ v. alone v N.number };
}

/// Names the view of the seat that a join takes in.
pub(crate) trait Leaving {
    ghost use Rattle.bag_rule.specs.declared.view.View.{View};

    ghost last: { View };
}

impl Leaving for Brand {
    ghost use Rattle.bag_rule.specs.Views.{no_view};

    ghost last = { no_view };
}

pub(crate) struct TakeIn<L> {
    marker: PhantomData<L>,
}

impl<L: Leaving> Join<View> for TakeIn<L> {
    ghost use Rattle.bag_rule.specs.Views.{joined, gone};

    ghost both = { joined };

    ghost spent = { gone L.last };
}

/// The load after a join.
pub(crate) struct Tell<T> {
    marker: PhantomData<T>,
}

impl<T: Item> Play<ItemList<T>, View> for Tell<T> {
    ghost use Rattle.bag_rule.specs.Plays.{tells};

    ghost then = { tells T.priority_of };
}

// The rule of the table, and what each kind of step tells. The types are names alone: none has a
// value.
use crate::form::Form;
use crate::view::View;
use atomic_table::{Join, Play, Split, TableRule};
use std::marker::{Brand, PhantomData};

pub(crate) struct QueueRule;

impl TableRule<u64, View, Form> for QueueRule {
    ghost use Rattle.seg_rule.specs.Rule.{Rule};
    ghost use Rattle.seg_rule.specs.Steps.{first_view};

    ghost holds = { Rule };

    ghost first = { first_view };
}

pub(crate) struct Store;

impl Play<u64, View> for Store {
    ghost use Rattle.seg_rule.specs.Steps.{stores};

    ghost then = { stores };
}

pub(crate) struct Publish;

impl Play<u64, View> for Publish {
    ghost use Rattle.seg_rule.specs.Steps.{publishes};

    ghost then = { publishes };
}

pub(crate) struct Grab;

impl Play<u64, View> for Grab {
    ghost use Rattle.seg_rule.specs.Steps.{takes_turn};

    ghost then = { takes_turn };
}

pub(crate) struct Open;

impl Play<u64, View> for Open {
    ghost use Rattle.seg_rule.specs.Steps.{opens};

    ghost then = { opens };
}

/// Names what an exchange is of: a place, a position, a length or a slot, and an item. Each call
/// picks it.
pub(crate) trait Naming {
    ghost use Rattle.std.specs.Prelude.{ℕ, Bool};

    ghost place: { ℕ };

    ghost position: { ℕ };

    ghost length: { ℕ };

    ghost item: { ℕ };

    ghost full: { Bool };
}

impl Naming for Brand {
    ghost use Rattle.std.specs.Prelude.{false};

    ghost place = { 0 };

    ghost position = { 0 };

    ghost length = { 0 };

    ghost item = { 0 };

    ghost full = { false };
}

pub(crate) struct Reserve<A> {
    marker: PhantomData<A>,
}

impl<A: Naming> Play<u64, View> for Reserve<A> {
    ghost use Rattle.seg_rule.specs.Steps.{reserves};

    ghost then = { reserves A.place A.position A.length A.item };
}

pub(crate) struct Take<A> {
    marker: PhantomData<A>,
}

impl<A: Naming> Play<u64, View> for Take<A> {
    ghost use Rattle.seg_rule.specs.Steps.{takes};

    ghost then = { takes A.position A.place A.length A.item };
}

pub(crate) struct Close<A> {
    marker: PhantomData<A>,
}

impl<A: Naming> Play<u64, View> for Close<A> {
    ghost use Rattle.seg_rule.specs.Steps.{closes};

    ghost then = { closes A.place A.position };
}

/// Names the word that a load reads.
pub(crate) trait Aim {
    ghost use Rattle.seg_rule.specs.declared.word.QueueWord.{QueueWord};

    ghost word: { QueueWord };
}

impl Aim for Brand {
    ghost use Rattle.seg_rule.specs.declared.word.QueueWord.TheVariants.{Head};

    ghost word = { Head };
}

/// A load that makes no entry.
pub(crate) struct Look<J> {
    marker: PhantomData<J>,
}

impl<J: Aim> Play<u64, View> for Look<J> {
    ghost use Rattle.seg_rule.specs.Plays.{looks};

    ghost then = { looks J.word };
}

/// The load of the head by which an enqueue is full, where the head is so low.
pub(crate) struct SeeFull<A> {
    marker: PhantomData<A>,
}

impl<A: Naming> Play<u64, View> for SeeFull<A> {
    ghost use Rattle.seg_rule.specs.Plays.{sees_full};

    ghost then = { sees_full A.length A.item A.position };
}

/// The load of a tail by which there is no item, where the tail is open at the head.
pub(crate) struct SeeEmpty<A> {
    marker: PhantomData<A>,
}

impl<A: Naming> Play<u64, View> for SeeEmpty<A> {
    ghost use Rattle.seg_rule.specs.Plays.{sees_empty};

    ghost then = { sees_empty A.place A.position A.full };
}

/// The load of the head by which a peek has its item, where the head is as before.
pub(crate) struct SeeFront<A> {
    marker: PhantomData<A>,
}

impl<A: Naming> Play<u64, View> for SeeFront<A> {
    ghost use Rattle.seg_rule.specs.Plays.{sees_front};

    ghost then = { sees_front A.position A.item };
}

/// The load of the head by which items are counted.
pub(crate) struct SeeCount<A> {
    marker: PhantomData<A>,
}

impl<A: Naming> Play<u64, View> for SeeCount<A> {
    ghost use Rattle.seg_rule.specs.Plays.{sees_count};

    ghost then = { sees_count A.position };
}

pub(crate) struct More;

impl Play<u64, View> for More {
    ghost use Rattle.seg_rule.specs.Steps.{at_stage, more_stage};

    ghost then = { at_stage more_stage };
}

pub(crate) struct Link;

impl Play<u64, View> for Link {
    ghost use Rattle.seg_rule.specs.Steps.{at_stage, linked_stage};

    ghost then = { at_stage linked_stage };
}

pub(crate) struct Move;

impl Play<u64, View> for Move {
    ghost use Rattle.seg_rule.specs.Steps.{at_stage, current_stage};

    ghost then = { at_stage current_stage };
}

pub(crate) struct GiveBack;

impl Play<u64, View> for GiveBack {
    ghost use Rattle.seg_rule.specs.Steps.{at_stage, left_stage};

    ghost then = { at_stage left_stage };
}

pub(crate) struct Begin<A> {
    marker: PhantomData<A>,
}

impl<A: Naming> Play<u64, View> for Begin<A> {
    ghost use Rattle.seg_rule.specs.Steps.{at_stage, begun_stage};

    ghost then = { at_stage (begun_stage A.length) };
}

pub(crate) struct Release;

impl Play<u64, View> for Release {
    ghost use Rattle.seg_rule.specs.Steps.{releases};

    ghost then = { releases };
}

pub(crate) struct Finish;

impl Play<u64, View> for Finish {
    ghost use Rattle.seg_rule.specs.Steps.{publishes};

    ghost then = { publishes };
}

/// The first place moves on.
pub(crate) struct MoveFirst;

impl Play<u64, View> for MoveFirst {
    ghost use Rattle.seg_rule.specs.Plays.{moves_first};

    ghost then = { moves_first };
}

/// The tail is open again.
pub(crate) struct Reopen;

impl Play<u64, View> for Reopen {
    ghost use Rattle.seg_rule.specs.Steps.{at_stage, reopened_stage};

    ghost then = { at_stage reopened_stage };
}

/// Names the number that a split gives away.
pub(crate) trait Numbered {
    ghost use Rattle.std.specs.Prelude.{ℕ};

    ghost number: { ℕ };
}

impl Numbered for Brand {
    ghost number = { 0 };
}

pub(crate) struct Give<N> {
    marker: PhantomData<N>,
}

impl<N: Numbered> Split<View> for Give<N> {
    ghost use Rattle.seg_rule.specs.Steps.{without, alone};

    ghost left = { λ v. without v N.number };

    ghost right = { λ v. alone v N.number };
}

/// Names the view of the seat that a join takes in.
pub(crate) trait Leaving {
    ghost use Rattle.seg_rule.specs.declared.view.View.{View};

    ghost last: { View };
}

impl Leaving for Brand {
    ghost use Rattle.seg_rule.specs.Steps.{no_view};

    ghost last = { no_view };
}

pub(crate) struct TakeIn<L> {
    marker: PhantomData<L>,
}

impl<L: Leaving> Join<View> for TakeIn<L> {
    ghost use Rattle.seg_rule.specs.Steps.{joined, gone};

    ghost both = { joined };

    ghost spent = { gone L.last };
}

/// The load after a join, which tells what the rule keeps of the two seats.
pub(crate) struct Tell;

impl Play<u64, View> for Tell {
    ghost use Rattle.seg_rule.specs.Plays.{tells};

    ghost then = { tells };
}

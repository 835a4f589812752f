// The row that names a script's object.
ghost use Rattle.std.specs.Prelude.{◌≡◌, true, map, IfSome};
ghost use Rattle.std.specs.Int.{is_power_of_two};
ghost use Rattle.drive_kit.specs.Objects.{IsBetween, IsBound, IsBuildable, bound_of, bounded_of, blocking_of, first_length_of, mode_of, object_of, object_with, plain_object, queue_of, store_of};

use crate::numbers::number_from;
use ho_model::{Mode, Object, Store};

/// The most items of a script's queue.
const MAX_ROOM: u64 = 4096;

/// The greatest length of a queue's first segment.
const MAX_FIRST_LENGTH: u64 = 1024;

/// The greatest capacity of a channel, and bound of a blocking collection.
const MAX_CAPACITY: u64 = 65_536;

// The full mode that a word names.
#[tactic(auto, unfolding(crate::specs::Objects::mode_of))]
fn mode_in(word: &[u8]) -> Option<Mode>
    ensures { result ≡ mode_of word.now }
{
    if word == b"wait".as_slice() {
        Some(Mode::Wait)
    } else if word == b"dropnewest".as_slice() {
        Some(Mode::DropNewest)
    } else if word == b"dropoldest".as_slice() {
        Some(Mode::DropOldest)
    } else if word == b"dropwrite".as_slice() {
        Some(Mode::DropWrite)
    } else {
        None
    }
}

// The store that a word names.
#[tactic(auto, unfolding(crate::specs::Objects::store_of))]
fn store_in(word: &[u8]) -> Option<Store>
    ensures { result ≡ store_of word.now }
{
    if word == b"fifo".as_slice() {
        Some(Store::Fifo)
    } else if word == b"lifo".as_slice() {
        Some(Store::Lifo)
    } else if word == b"bag".as_slice() {
        Some(Store::Bag)
    } else {
        None
    }
}

// The length of a queue's first segment.
#[tactic(auto, unfolding(crate::specs::Objects::first_length_of))]
fn first_length_in(field: &[u8]) -> Option<u32>
    ensures length { result ≡ first_length_of field.now }
    ensures within { IfSome result (λ n. IsBetween 2 1024 n × (is_power_of_two n ≡ true)) }
{
    let length = number_from(field, 2, MAX_FIRST_LENGTH)?;
    if length.is_power_of_two() {
        Some(length as u32)
    } else {
        None
    }
}

// The bound of a blocking collection, or none where it is 0.
#[tactic(auto, unfolding(crate::specs::Objects::bound_of))]
fn bound_in(field: &[u8]) -> Option<Option<u32>>
    ensures bound { result ≡ bound_of field.now }
    ensures within { IfSome result IsBound }
{
    let bound = number_from(field, 0, MAX_CAPACITY)?;
    if bound == 0 {
        Some(None)
    } else {
        Some(Some(bound as u32))
    }
}

// What stands after `queue`: `ROOM,FIRST`.
#[tactic(auto, unfolding(crate::specs::Objects::queue_of))]
fn queue_in(room: &[u8], first_len: &[u8]) -> Option<Object>
    ensures object { result ≡ queue_of room.now first_len.now }
    ensures buildable { IfSome result IsBuildable }
{
    let room = number_from(room, 1, MAX_ROOM)? as u32;
    let first_len = first_length_in(first_len)?;
    Some(Object::Queue { room, first_len })
}

// What stands after `bounded`: `CAP,MODE`.
#[tactic(auto, unfolding(crate::specs::Objects::bounded_of))]
fn bounded_in(capacity: &[u8], mode: &[u8]) -> Option<Object>
    ensures object { result ≡ bounded_of capacity.now mode.now }
    ensures buildable { IfSome result IsBuildable }
{
    let capacity = number_from(capacity, 1, MAX_CAPACITY)? as u32;
    let mode = mode_in(mode)?;
    Some(Object::Bounded { capacity, mode })
}

// What stands after `blocking`: `STORE,BOUND`.
#[tactic(auto, unfolding(crate::specs::Objects::blocking_of))]
fn blocking_in(store: &[u8], bound: &[u8]) -> Option<Object>
    ensures object { result ≡ blocking_of store.now bound.now }
    ensures buildable { IfSome result IsBuildable }
{
    let store = store_in(store)?;
    let bound = bound_in(bound)?;
    Some(Object::Blocking { store, bound })
}

// An object without numbers.
#[tactic(auto, unfolding(crate::specs::Objects::plain_object))]
fn plain_object_in(name: &[u8]) -> Option<Object>
    ensures object { result ≡ plain_object name.now }
    ensures buildable { IfSome result IsBuildable }
{
    if name == b"bag".as_slice() {
        Some(Object::Bag)
    } else if name == b"unbounded".as_slice() {
        Some(Object::Unbounded)
    } else if name == b"prioritized".as_slice() {
        Some(Object::Prioritized)
    } else {
        None
    }
}

// An object with two fields after its name.
#[tactic(auto, unfolding(crate::specs::Objects::object_with))]
fn object_with_in(name: &[u8], first: &[u8], second: &[u8]) -> Option<Object>
    ensures object { result ≡ object_with name.now first.now second.now }
    ensures buildable { IfSome result IsBuildable }
{
    if name == b"queue".as_slice() {
        queue_in(first, second)
    } else if name == b"bounded".as_slice() {
        bounded_in(first, second)
    } else if name == b"blocking".as_slice() {
        blocking_in(first, second)
    } else {
        None
    }
}

// The object that a script's row 0 names.
pub(crate) fn object_in(fields: &[&[u8]]) -> Option<Object>
    ensures object { result ≡ object_of (map (λ f. f.now) fields.now) }
    ensures buildable { IfSome result IsBuildable }
{
    match fields {
        [name] => plain_object_in(name),
        [name, first, second] => object_with_in(name, first, second),
        _ => None,
    }
}

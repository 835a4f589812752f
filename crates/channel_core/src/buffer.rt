// Items that leave in the order of writing.
ghost use Rattle.std.specs.Prelude.{◌≡◌, ℕ, ◌+◌, ◌-◌, ◌^◌, ◌<◌, ◌≤◌, ◌++◌, ◌∷◌, [], List, true, false, Option, Some, None, IfErr, OnOk, OnErr, length, drop, take, remove};
ghost use Rattle.ho_base.specs.Marks.{Mark, number_of};
ghost use Rattle.ho_model.specs.Channel as channel;
ghost use Rattle.channel_core.specs.Store.{HasRoom};
ghost use Rattle.channel_core.specs.Buffers.{buffer_items, buffer_capacity};

use crate::store::ItemStore;
use circular_buffer::HeapCircularBuffer;
use ho_base::Marked;
use std::alloc::Global;
use std::collections::VecDeque;

/// A ring of fixed capacity, or a queue that grows.
#[derive(Drop)]
pub enum Buffer<T> {
    Ring(HeapCircularBuffer<T, Global>),
    Open(VecDeque<T, Global>),
}

impl<T: Marked> ItemStore<T> for Buffer<T> {
    ghost items = { buffer_items T.mark };

    ghost capacity = { buffer_capacity };

    ghost priority = { None };

    ghost arrivals = { λ s. 0 };

    fn len(&self) -> usize {
        match self {
            Buffer::Ring(ring) => ring.len(),
            Buffer::Open(queue) => queue.len(),
        }
    }

    fn is_full(&self) -> bool {
        match self {
            Buffer::Ring(ring) => ring.capacity() <= ring.len(),
            Buffer::Open(_) => false,
        }
    }

    fn push(&mut self, item: T) -> Result<(), T> {
        match self {
            Buffer::Ring(ring) => ring.try_push_back(item),
            Buffer::Open(queue) => match queue.push_back(item) {
                Ok(()) => Ok(()),
                Err(refused) => Err(refused.value),
            },
        }
    }

    fn take(&mut self) -> T {
        match self {
            Buffer::Ring(ring) => ring.pop_front().unwrap(),
            Buffer::Open(queue) => queue.pop_front().unwrap(),
        }
    }

    fn take_and_put(&mut self, item: T) -> T {
        match self {
            Buffer::Ring(ring) => {
                let _room = ring.capacity();
                let first = ring.pop_front().unwrap();
                put(ring, item);
                first
            }
            Buffer::Open(queue) => {
                let first = queue.pop_front().unwrap();
                queue.push_back_reserved(item);
                first
            }
        }
    }

    fn show(&self) -> u64 {
        match self {
            Buffer::Ring(ring) => ring.front().unwrap().shown_number(),
            Buffer::Open(queue) => queue.front().unwrap().shown_number(),
        }
    }

    fn replace_oldest(&mut self, item: T) -> T {
        match self {
            Buffer::Ring(ring) => {
                let _room = ring.capacity();
                let first = ring.pop_front().unwrap();
                put(ring, item);
                first
            }
            Buffer::Open(_) => unreachable!(),
        }
    }

    #[tactic(auto, using(crate::proofs::Places::map_front))]
    fn replace_newest(&mut self, item: T) -> T {
        match self {
            Buffer::Ring(ring) => {
                let _room = ring.capacity();
                let last = ring.pop_back().unwrap();
                put(ring, item);
                last
            }
            Buffer::Open(_) => unreachable!(),
        }
    }
}

/// Puts an item last in a ring that has room.
fn put<T: Drop>(ring: &mut HeapCircularBuffer<T, Global>, item: T)
    requires { length ring.old.items < ring.old.capacity }
    ensures items { ring.new.items ≡ ring.old.items ++ item ∷ [] }
    ensures capacity { ring.new.capacity ≡ ring.old.capacity }
{
    match ring.try_push_back(item) {
        Ok(()) => {}
        Err(_) => unreachable!(),
    }
}

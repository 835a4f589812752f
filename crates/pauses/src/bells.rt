// Who sleeps until an object changes, and how they are woken.
use std::array;
use std::sync::atomic::{AtomicU64, Ordering};

/// The most callers of an object.
const CALLERS: usize = 64;

/// How often a ring tries to take a caller off a list, while others change it.
const MOST_TRIES: u32 = 1_000;

/// What a caller waits for.
#[derive(Clone, Copy)]
pub enum Want {
    /// An item of its own.
    Item,
    /// Room of its own.
    Room,
    /// To be told that there is an item, as all others are that wait for that.
    SeeItem,
    /// To be told that there is room.
    SeeRoom,
}

/// What an entry may bring to those who wait.
#[derive(Clone, Copy)]
pub enum News {
    Item,
    Room,
    /// No wait has to go on.
    End,
    Nothing,
}

/// Whom the news of calls are told.
pub trait Hears {
    fn tell(&self, news: News);
}

/// Nobody, beside an object whose callers never wait for each other's entries.
pub struct Nobody;

impl Hears for Nobody {
    fn tell(&self, _news: News) {}
}

/// The bells of an object with up to 64 callers, one for each: only that caller sleeps beside it.
///
/// A caller that is about to sleep puts itself on the list of those who want the same, looks once more
/// whether it has to wait, and sleeps until its bell has rung. Who made an entry that can end a wait
/// rings: it takes the caller that has waited longest off the list, and rings its bell. So an item or room
/// wakes one sleeper of those who want it for themselves, and all who wait to see it; where nobody sleeps
/// it costs one load. A caller that tries again and again, and has no wait in the object, waits anew each
/// time that it was rung for nothing. Who could not take a caller off in 1,000 tries, since others change
/// the list, leaves it to its time.
///
/// An object that answers waits in the order in which they began hands what an entry brings to the
/// oldest. Where that one sleeps, it is the one that has waited longest among the sleepers that have no
/// ring yet; for older ones there was an answer each, and there is a ring each.
#[derive(Drop)]
pub struct Bells {
    /// How many callers stand on the lists, or more. Each is counted before it is put on.
    listed: AtomicU64,
    /// A bit for each caller that sleeps, or is about to, until there is an item.
    for_item: AtomicU64,
    /// The same, until there is room.
    for_room: AtomicU64,
    /// The same, until it is told that there is an item.
    to_see_item: AtomicU64,
    /// The same, until it is told that there is room.
    to_see_room: AtomicU64,
    /// No meaning: all callers read the lists, and those that wait write what follows.
    gap: [u64; 11],
    /// How many callers came last in line.
    last: AtomicU64,
    /// At each caller, the place of the entry that told it to wait.
    since: [AtomicU64; CALLERS],
    /// At each caller, how often its bell has rung.
    rings: [AtomicU64; CALLERS],
}

impl Bells {
    pub fn new() -> Bells {
        Bells {
            listed: AtomicU64::new(0),
            for_item: AtomicU64::new(0),
            for_room: AtomicU64::new(0),
            to_see_item: AtomicU64::new(0),
            to_see_room: AtomicU64::new(0),
            gap: [0; 11],
            last: AtomicU64::new(0),
            since: array::from_fn(|_| AtomicU64::new(0)),
            rings: array::from_fn(|_| AtomicU64::new(0)),
        }
    }

    fn list(&self, want: Want) -> &AtomicU64 {
        match want {
            Want::Item => &self.for_item,
            Want::Room => &self.for_room,
            Want::SeeItem => &self.to_see_item,
            Want::SeeRoom => &self.to_see_room,
        }
    }

    /// The bell of a caller.
    pub(crate) fn bell(&self, caller: u32) -> &AtomicU64 {
        &self.rings[caller as usize % CALLERS]
    }

    /// Notes the place of the entry that told this caller to wait.
    pub fn note(&self, caller: u32, place: u64) {
        let since = &self.since[caller as usize % CALLERS];
        since.store(place, Ordering::SeqCst);
    }

    /// Notes that a caller is the last in line.
    pub(crate) fn note_last(&self, caller: u32) {
        self.note(caller, self.last.fetch_add(1, Ordering::SeqCst));
    }

    /// How many callers stand on the lists, or more.
    pub(crate) fn listed(&self) -> u64 {
        self.listed.load(Ordering::SeqCst)
    }

    /// Puts a caller on a list.
    pub(crate) fn put_on(&self, want: Want, caller: u32) {
        self.listed.fetch_add(1, Ordering::SeqCst);
        self.list(want).fetch_or(bit_of(caller), Ordering::SeqCst);
    }

    /// Takes a caller off a list, and says whether it stood there.
    pub(crate) fn take_off(&self, want: Want, caller: u32) -> bool {
        let bit = bit_of(caller);
        let stood = self.list(want).fetch_and(!bit, Ordering::SeqCst) & bit != 0;
        if stood {
            self.listed.fetch_sub(1, Ordering::SeqCst);
        }
        stood
    }

    /// Wakes all that sleep.
    pub fn wake_all(&self) {
        self.ring_each(Want::Item);
        self.ring_each(Want::Room);
        self.ring_each(Want::SeeItem);
        self.ring_each(Want::SeeRoom);
    }

    /// Tells callers of which some stand on the lists.
    #[cold]
    #[inline(never)]
    fn tell_listed(&self, news: News) {
        match news {
            News::Item => {
                self.ring(Want::Item);
                self.ring_each(Want::SeeItem);
            }
            News::Room => {
                self.ring(Want::Room);
                self.ring_each(Want::SeeRoom);
            }
            News::End => self.wake_all(),
            News::Nothing => {}
        }
    }

    /// Wakes the caller that has waited longest for this, if any sleeps.
    pub(crate) fn ring(&self, want: Want) {
        if self.list(want).load(Ordering::SeqCst) != 0 {
            self.wake_oldest(want);
        }
    }

    /// Wakes all that wait for this.
    fn ring_each(&self, want: Want) {
        if self.list(want).load(Ordering::SeqCst) != 0 {
            self.wake_each(want);
        }
    }

    fn wake_each(&self, want: Want) {
        let list = self.list(want).swap(0, Ordering::SeqCst);
        for caller in 0..64u32 {
            if list >> caller & 1 == 1 {
                self.wake_listed(caller);
            }
        }
    }

    fn wake_oldest(&self, want: Want) {
        let asleep = self.list(want);
        for _ in 0..MOST_TRIES {
            let list = asleep.load(Ordering::SeqCst);
            let Some((caller, place)) = self.oldest(list) else {
                return;
            };
            let rest = list & !bit_of(caller);
            let took = asleep.compare_exchange(list, rest, Ordering::SeqCst, Ordering::SeqCst);
            if took.is_ok() {
                self.wake_listed(caller);
                if self.since(caller) == place {
                    return;
                }
            }
        }
    }

    /// Wakes a caller that was taken off its list.
    fn wake_listed(&self, caller: u32) {
        self.listed.fetch_sub(1, Ordering::SeqCst);
        let bell = self.bell(caller);
        bell.fetch_add(1, Ordering::SeqCst);
        bell.wake_one();
    }

    /// The place of the entry that told a caller to wait.
    fn since(&self, caller: u32) -> u64 {
        let since = &self.since[caller as usize % CALLERS];
        since.load(Ordering::SeqCst)
    }

    /// Who of a list has waited longest, and since which place.
    fn oldest(&self, list: u64) -> Option<(u32, u64)> {
        let mut oldest = None;
        for caller in 0..64u32 {
            if list >> caller & 1 == 1 {
                oldest = Some(older(oldest, caller, self.since(caller)));
            }
        }
        oldest
    }
}

impl Hears for Bells {
    /// An item or room wakes the caller that has waited longest for one of its own, and all that wait to
    /// see one; an end wakes all.
    fn tell(&self, news: News) {
        if self.listed() != 0 {
            self.tell_listed(news);
        }
    }
}

/// The bit of a caller in a list.
fn bit_of(caller: u32) -> u64 {
    1 << (caller % 64)
}

/// The caller of a smaller place.
fn older(oldest: Option<(u32, u64)>, caller: u32, place: u64) -> (u32, u64) {
    match oldest {
        Some((first, least)) if least <= place => (first, least),
        _ => (caller, place),
    }
}

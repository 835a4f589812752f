// How full a joint is, as its callers tell each other beside it.
use std::hint;
use std::sync::Wait;
use std::sync::atomic::{AtomicU64, Ordering};
use std::time::Duration;

/// Beside a joint with less room nobody looks: there a caller seldom finds more than one record, or room
/// for more, and each sleep here would come on top of that in the joint.
const LEAST_ROOM: u64 = 8;

/// How often who waits looks before it sleeps, and how many spins stand between two looks.
const LOOKS: u32 = 48;

const SPINS: u32 = 32;

/// How often it sleeps at most, and for how many microseconds at most each time.
const SLEEPS: u32 = 4;

const LONGEST: u64 = 4_000;

/// How many microseconds a further worker of a crew naps first. Each next nap lasts twice as long.
const FIRST_NAP: u64 = 1_000;

/// With how many records in the joint it helps, if the joint has room for twice as many.
const BACKLOG: u64 = 32;

/// Of how many records in a microsecond it keeps away: the stage is fast enough, and more readers would
/// only stand in each other's way. Counted are the records of a nap in two microseconds.
const FAST: u64 = 2;

/// How many records a caller passes at most before it looks again.
const STRETCH: u64 = 1_024;

/// After how many looks that found the same count no more records are waited for.
const QUIET: u32 = 4;

/// For how many records a joint's first reader waits at most, while they come.
const MUCH: u64 = 896;

fn spin() {
    for _ in 0..SPINS {
        hint::spin_loop();
    }
}

/// Beside this those sleep who wait for the same. A ring wakes them all.
#[derive(Drop)]
struct Bell {
    /// 1 where somebody sleeps, or is about to.
    asleep: AtomicU64,
    rings: AtomicU64,
    /// No meaning: other callers write what follows.
    gap: [u64; 6],
}

impl Bell {
    fn new() -> Bell {
        Bell {
            asleep: AtomicU64::new(0),
            rings: AtomicU64::new(0),
            gap: [0; 6],
        }
    }

    // Before a sleep, and before the last look: how often it has rung.
    fn lie_down(&self) -> u64 {
        let heard = self.rings.load(Ordering::SeqCst);
        self.asleep.store(1, Ordering::SeqCst);
        heard
    }

    fn sleep<R: Wait>(&self, rt: &R, heard: u64) {
        let most = Duration::from_micros(LONGEST);
        self.rings
            .park_timeout(rt, (heard & 0xffff_ffff) as u32, most);
    }

    fn is_wanted(&self) -> bool {
        self.asleep.load(Ordering::SeqCst) != 0
    }

    fn ring(&self) {
        self.asleep.store(0, Ordering::SeqCst);
        self.rings.fetch_add(1, Ordering::SeqCst);
        self.rings.wake_all();
    }
}

/// What a caller of a joint waits for.
#[derive(Clone, Copy)]
enum Want {
    /// A record, or the end.
    Record,
    /// No more than so many records.
    AtMost(u64),
}

/// How many records were written to a joint and taken from it, as its callers count them beside it.
///
/// A wait that stands in the joint itself is handed the next record or the next room, so its caller sleeps
/// and is woken for each. Who looks here first for a short time mostly comes when there are several. Of a
/// crew the first worker reads all, as long as it is fast enough; the further ones nap, and help where
/// records stay in the joint. Nothing rests on the counts: who has looked for long enough makes its call
/// in any case.
#[derive(Drop)]
pub(crate) struct Gauge {
    room: u64,
    ended: AtomicU64,
    gap: [u64; 6],
    written: AtomicU64,
    after_written: [u64; 7],
    taken: AtomicU64,
    after_taken: [u64; 7],
    reader: Bell,
    writers: Bell,
}

impl Gauge {
    /// Of an empty joint with so much room.
    pub(crate) fn new(room: u64) -> Gauge {
        Gauge {
            room,
            ended: AtomicU64::new(0),
            gap: [0; 6],
            written: AtomicU64::new(0),
            after_written: [0; 7],
            taken: AtomicU64::new(0),
            after_taken: [0; 7],
            reader: Bell::new(),
            writers: Bell::new(),
        }
    }

    fn level(&self) -> u64 {
        let taken = self.taken.load(Ordering::SeqCst);
        self.written.load(Ordering::SeqCst).saturating_sub(taken)
    }

    fn has_ended(&self) -> bool {
        self.ended.load(Ordering::SeqCst) != 0
    }

    fn is_small(&self) -> bool {
        self.room < LEAST_ROOM
    }

    fn has(&self, want: Want) -> bool {
        match want {
            Want::Record => self.level() > 0 || self.has_ended(),
            Want::AtMost(count) => self.level() <= count,
        }
    }

    // Records stay in the joint, more than its first reader can be about to take.
    fn has_backlog(&self) -> bool {
        self.level() >= (self.room / 2).min(BACKLOG).max(1)
    }

    fn look(&self, want: Want) -> bool {
        for _ in 0..LOOKS {
            if self.has(want) {
                return true;
            }
            spin();
        }
        false
    }

    fn sleep<R: Wait>(&self, rt: &R, want: Want, bell: &Bell) {
        for _ in 0..SLEEPS {
            let heard = bell.lie_down();
            if self.has(want) {
                return;
            }
            bell.sleep(rt, heard);
        }
    }

    // How many records are worth a stretch of reads.
    fn much(&self) -> u64 {
        (self.room - self.room / 8).min(MUCH)
    }

    // Until there are many records, or some have come and none for a while. A reader and a writer that call by
    // turns take the joint from each other at each call; one that lets the other go on first takes it once for
    // many.
    fn look_for_stretch(&self) -> bool {
        let mut before = 0;
        let mut quiet: u32 = 0;
        for _ in 0..LOOKS {
            let level = self.level();
            quiet = if level == before {
                quiet.saturating_add(1)
            } else {
                0
            };
            before = level;
            if self.has_ended() || level >= self.much() || (level > 0 && quiet >= QUIET) {
                return true;
            }
            spin();
        }
        before > 0
    }

    // Until there is a record, or some time is over.
    fn await_record<R: Wait>(&self, rt: &R) {
        if !self.look_for_stretch() {
            self.sleep(rt, Want::Record, &self.reader);
        }
    }

    fn nap<R: Wait>(&self, rt: &R) {
        let mut micros = FIRST_NAP;
        for _ in 0..SLEEPS {
            let before = self.taken.load(Ordering::SeqCst);
            self.ended
                .park_timeout(rt, 0, Duration::from_micros(micros));
            let taken = self.taken.load(Ordering::SeqCst).saturating_sub(before);
            if self.has_ended() || (self.has_backlog() && taken < micros / FAST) {
                return;
            }
            micros = micros.saturating_mul(2);
        }
    }

    // Until there is room, or some time is over. Who finds none waits for much.
    fn await_room<R: Wait>(&self, rt: &R) {
        if self.level() < self.room {
            return;
        }
        let want = Want::AtMost(self.room / 8);
        if !self.look(want) {
            self.sleep(rt, want, &self.writers);
        }
    }

    // After a write that brought a record more.
    fn wrote(&self) {
        self.written.fetch_add(1, Ordering::SeqCst);
        if self.reader.is_wanted() {
            self.reader.ring();
        }
    }

    // After a read that took one.
    fn took(&self) {
        self.taken.fetch_add(1, Ordering::SeqCst);
        if self.writers.is_wanted() && self.level() <= self.room / 8 {
            self.writers.ring();
        }
    }

    /// After the completion.
    pub(crate) fn end(&self) {
        self.ended.store(1, Ordering::SeqCst);
        self.ended.wake_all();
        self.reader.ring();
    }
}

/// A joint's gauge, as a worker reads it that reads the joint. It looks once for as many records as it finds:
/// each look takes the count away from the writers.
#[derive(Drop)]
pub(crate) struct Inlet<'g> {
    gauge: &'g Gauge,
    /// It is the first worker of its crew.
    is_first: bool,
    /// How many records it reads yet before it looks again.
    left: u64,
}

impl<'g> Inlet<'g> {
    pub(crate) fn new(gauge: &'g Gauge, is_first: bool) -> Inlet<'g> {
        Inlet {
            gauge,
            is_first,
            left: 0,
        }
    }

    /// Before a read: for the first worker until there is a record, for a further one until records stay in
    /// the joint, or until some time is over.
    pub(crate) fn await_record<R: Wait>(&mut self, rt: &R) {
        if self.gauge.is_small() {
            return;
        }
        if self.is_first {
            self.await_one(rt);
        } else {
            self.await_backlog(rt);
        }
    }

    fn await_one<R: Wait>(&mut self, rt: &R) {
        if self.left == 0 {
            self.gauge.await_record(rt);
            self.left = self.gauge.level().clamp(1, STRETCH);
        }
        self.left = self.left.saturating_sub(1);
    }

    fn await_backlog<R: Wait>(&mut self, rt: &R) {
        if self.gauge.has_ended() {
            return;
        }
        if self.left > 0 && self.gauge.has_backlog() {
            self.left -= 1;
            return;
        }
        self.gauge.nap(rt);
        self.left = STRETCH;
    }

    /// After a read that took a record.
    pub(crate) fn took(&self) {
        self.gauge.took();
    }
}

/// A joint's gauge, as a writer of the joint reads it. It looks once for as many records as there is room for.
#[derive(Drop)]
pub(crate) struct Outlet<'g> {
    gauge: &'g Gauge,
    /// How many records it writes yet before it looks again.
    left: u64,
}

impl<'g> Outlet<'g> {
    pub(crate) fn new(gauge: &'g Gauge) -> Outlet<'g> {
        Outlet { gauge, left: 0 }
    }

    /// Before a write: until there is room, or some time is over.
    pub(crate) fn await_room<R: Wait>(&mut self, rt: &R) {
        if self.gauge.is_small() {
            return;
        }
        if self.left == 0 {
            self.gauge.await_room(rt);
            let room = self.gauge.room.saturating_sub(self.gauge.level());
            self.left = room.clamp(1, STRETCH);
        }
        self.left = self.left.saturating_sub(1);
    }

    /// After a write that brought a record more.
    pub(crate) fn wrote(&self) {
        self.gauge.wrote();
    }
}

// The pauses of one wait.
use crate::bells::{Bells, Want};
use crate::pause::Pause;
use std::sync::Wait;
use std::sync::atomic::Ordering;
use std::time::Duration;

/// How many short sleeps a wait has before it goes to its bell. While callers wait for less than that,
/// nobody has to wake them.
const SHORT_SLEEPS: u32 = 8;

/// How many microseconds the first sleep beside a bell lasts at most.
const FIRST_SLEEP: u64 = 1_000;

/// How many microseconds any does. A caller that was asked to stop looks for it after that time at the
/// latest, once it has its core and, where it tries again, a turn.
const LONGEST: u64 = 8_000;

/// The pauses of one wait: spins, a few short sleeps, and then sleeps beside the caller's bell.
#[derive(Drop)]
pub struct Nap {
    want: Want,
    /// The object has a wait of the caller, whose place was noted.
    stands: bool,
    pause: Pause,
    /// How often the bell had rung when the caller put itself on the list. None while it is not there.
    heard: Option<u64>,
    /// How many microseconds the next sleep beside the bell lasts at most.
    most: u64,
}

impl Nap {
    /// The pauses of a wait that stands in the object. The place of its begin was noted.
    pub fn of_wait(want: Want) -> Nap {
        Nap::new(want, true, Pause::new())
    }

    /// The pauses of a call that tries again and again. The object knows nothing of it.
    pub fn of_tries(want: Want) -> Nap {
        Nap::new(want, false, Pause::new())
    }

    fn new(want: Want, stands: bool, pause: Pause) -> Nap {
        Nap {
            want,
            stands,
            pause,
            heard: None,
            most: FIRST_SLEEP,
        }
    }

    /// Takes the next pause. The caller looks again after it whether it has to wait.
    pub fn take<R: Wait>(&mut self, rt: &R, bells: &Bells, caller: u32) {
        if self.pause.sleeps() < SHORT_SLEEPS {
            self.pause.take(rt);
            return;
        }
        let bell = bells.bell(caller);
        let Some(heard) = self.heard else {
            self.heard = Some(bell.load(Ordering::SeqCst));
            if !self.stands {
                bells.note_last(caller);
            }
            bells.put_on(self.want, caller);
            return;
        };
        let most = Duration::from_micros(self.most);
        bell.park_timeout(rt, (heard & 0xffff_ffff) as u32, most);
        if self.most < LONGEST {
            self.most *= 2;
        }
        if bell.load(Ordering::SeqCst) != heard {
            bells.take_off(self.want, caller);
            self.heard = None;
        }
    }

    /// Ends the wait. A ring that came too late to wake this caller is passed on.
    pub fn end(&mut self, bells: &Bells, caller: u32) {
        if self.heard.is_some() && !bells.take_off(self.want, caller) {
            bells.ring(self.want);
        }
        self.heard = None;
    }
}

/// The pauses of a call of one caller that tries again and again. It ends them when it goes, which is
/// after the call.
pub struct Tries<'b> {
    bells: &'b Bells,
    caller: u32,
    want: Want,
    /// None until the first pause.
    nap: Option<Nap>,
}

impl<'b> Tries<'b> {
    pub fn new(bells: &'b Bells, caller: u32, want: Want) -> Tries<'b> {
        Tries {
            bells,
            caller,
            want,
            nap: None,
        }
    }

    /// Takes the next pause.
    pub fn pause<R: Wait>(&mut self, rt: &R) {
        let mut nap = match self.nap.take() {
            Some(nap) => nap,
            None => Nap::of_tries(self.want),
        };
        nap.take(rt, self.bells, self.caller);
        self.nap = Some(nap);
    }
}

impl Drop for Tries<'_> {
    fn drop(self) {
        let Self {
            bells,
            caller,
            want: _,
            nap,
        } = self;
        if let Some(mut nap) = nap {
            nap.end(bells, caller);
        }
    }
}

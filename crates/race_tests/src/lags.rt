// How long after an event callers that sleep had their answers.
use std::alloc::Global;
use std::test::Fail;

/// How many nanoseconds after the event half of the callers have their answers at the latest. Without a
/// ring it would be some 4 milliseconds.
pub const LIMIT: u64 = 2_000_000;

/// How many series of rounds there are at most, of which the least counts: other programs may have the
/// cores during some.
pub const MOST_SERIES: u32 = 4;

/// How many milliseconds pass before the event of a round. By then each sleep lasts 8 milliseconds, and
/// over four rounds the event comes early and late in them.
pub fn nap_of(round: u32) -> u64 {
    10 + 2 * (u64::from(round) % 4)
}

/// The lags of several rounds.
#[derive(Drop)]
pub struct Lags {
    nanoseconds: Vec<u64>,
}

impl Lags {
    pub fn new(alloc: Global) -> Lags {
        Lags {
            nanoseconds: Vec::new(alloc),
        }
    }

    /// Notes a round: the first time is that of the event, the others are those of the callers.
    pub fn note(&mut self, times: &[Option<u64>]) -> Result<(), Fail> {
        let mut event = None;
        for time in times {
            let Some(time) = *time else {
                return Err(Fail::new("a thread met what it must not"));
            };
            match event {
                None => event = Some(time),
                Some(event) => self.nanoseconds.push(time.saturating_sub(event))?,
            }
        }
        Ok(())
    }

    /// The lag that half of them do not pass.
    pub fn median(mut self) -> Result<u64, Fail> {
        self.nanoseconds.sort_unstable();
        let half = self.nanoseconds.len() / 2;
        match self.nanoseconds.get(half) {
            Some(lag) => Ok(*lag),
            None => Err(Fail::new("nothing was measured")),
        }
    }
}

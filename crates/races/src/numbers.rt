// The numbers that threads hand over.
ghost use Rattle.std.specs.Prelude.{◌≡◌, ◌<◌, ◌≤◌, ◌+◌};
ghost use Rattle.races.specs.Shares.{share_start, sum_below};

/// The share of a worker in the numbers below `count`: from the first up to, and without, the second.
/// It begins where the share of the worker before ends.
#[tactic(auto, using(crate::proofs::Sums::last_share_ends_at_count))]
pub fn share(count: u64, workers: u64, worker: u64) -> (u64, u64)
    requires worker { (worker < workers) × (workers ≤ 64) }
    requires count { count ≤ 1000000000 }
    ensures begins { result.0 ≡ share_start count workers worker }
    ensures ends { result.1 ≡ share_start count workers (worker + 1) }
    ensures first { worker ≡ 0 → result.0 ≡ 0 }
    ensures last { worker + 1 ≡ workers → result.1 ≡ count }
{
    (count * worker / workers, count * (worker + 1) / workers)
}

/// How many numbers, and their sum.
#[derive(Clone, Copy, Default, Debug, PartialEq, Eq)]
pub struct Tally {
    pub count: u64,
    pub sum: u64,
}

impl Tally {
    /// The tally of the numbers below `count`.
    #[tactic(auto, using(crate::proofs::Sums::half_product_is_sum))]
    pub fn below(count: u64) -> Tally
        requires { count ≤ 1000000000 }
        ensures count { result.count ≡ count }
        ensures sum { result.sum ≡ sum_below count }
    {
        let sum = count * count.saturating_sub(1) / 2;
        Tally { count, sum }
    }

    /// The tally of all, if each is there.
    pub fn of_all(tallies: &[Option<Tally>]) -> Option<Tally> {
        let mut all = Tally::default();
        for tally in tallies {
            all = all.and((*tally)?);
        }
        Some(all)
    }

    /// The tally of both. What passes 2^64 wraps.
    pub fn and(self, other: Tally) -> Tally {
        Tally {
            count: self.count.wrapping_add(other.count),
            sum: self.sum.wrapping_add(other.sum),
        }
    }

    /// The tally with one number more.
    pub fn with(self, number: u64) -> Tally {
        self.and(Tally {
            count: 1,
            sum: number,
        })
    }
}

/// Whether these are the numbers below `count`, each once. It takes as long as to sort them.
pub fn are_numbers_below(mut numbers: Vec<u64>, count: u64) -> bool {
    numbers.sort_unstable();
    numbers.len() as u64 == count
        && numbers
            .as_slice()
            .iter()
            .enumerate()
            .all(|(place, &number)| number == place as u64)
}

// The counts of a run.
ghost use Rattle.std.specs.Prelude.{◌≡◌, ◌≤◌, ◌<◌, ◌^◌, ◌-◌, length};
ghost use Rattle.record_lang.specs.Tallies.{TalliesOne, counts_in};
ghost use Rattle.record_lang.specs.Texts.{counts_of};

use crate::Outcome;

// How many records have an outcome, and what became of them.
#[derive(Clone, Copy)]
pub(crate) struct Tally {
    pub(crate) fed: u64,
    pub(crate) results: u64,
    pub(crate) refused: u64,
    pub(crate) filtered: u64,
}

impl Tally {
    // Of no records.
    pub(crate) fn none() -> Tally
        ensures { result ≡ record { fed = 0; results = 0; refused = 0; filtered = 0 } }
    {
        Tally {
            fed: 0,
            results: 0,
            refused: 0,
            filtered: 0,
        }
    }

    // Counts one more outcome.
    pub(crate) fn count(&mut self, outcome: &Outcome)
        requires room { self.old.fed < 2 ^ 64 - 1 }
        requires counted { (self.old.results ≤ self.old.fed) × (self.old.refused ≤ self.old.fed) × (self.old.filtered ≤ self.old.fed) }
        ensures { TalliesOne self.old self.new outcome.now }
    {
        self.fed += 1;
        match outcome {
            Outcome::Result(_) => self.results += 1,
            Outcome::Refused { .. } => self.refused += 1,
            Outcome::Filtered { .. } => self.filtered += 1,
        }
    }

    // The counts of these outcomes.
    pub(crate) fn of(outcomes: &[Outcome]) -> Tally
        ensures counts { counts_in result ≡ counts_of outcomes.now }
        ensures fed { result.fed ≡ length outcomes.now }
    {
        let mut tally = Tally::none();
        for outcome in outcomes {
            tally.count(outcome);
        }
        tally
    }
}

// What is told of a run.
ghost use Rattle.std.specs.Prelude.{◌≡◌, [], ◌∷◌, ◌++◌, ◌+◌, false, true, List, ℕ, Some, IsTrue, IfOk, IfErr, OnErr, OnOk};
ghost use Rattle.text_rows.specs.Writers.{IsReady, lines_written};
ghost use Rattle.record_lang.specs.Texts.{counts_rows, report_text};

use crate::Outcome;
use crate::report_rows::{put_counts, put_drops_and_counts, put_ending, put_refusals, put_results};
use crate::tallies::Tally;
use csv::{ByteRecord, Writer};
use ho_base::{Fault, NoMemory, Text, Unpaid};
use std::alloc::Global;
use std::marker::Model;
use text_rows::{finish_lines, new_lines};

/// A record that a full joint dropped. Records are counted from 0, joints from 1.
#[derive(Clone, Copy, Debug, PartialEq, Eq)]
pub struct Dropped {
    pub number: u64,
    pub joint: u32,
}

/// What is told of a run: the outcomes of the records that were fed and not dropped, and, if its
/// pipeline has a joint that may drop, the dropped records.
///
/// Its rows stand in the order in which they were given, so outcomes are given in order of number,
/// and dropped records in order of joint and then of number.
#[derive(Drop)]
pub struct Report {
    outcomes: Vec<Outcome>,
    has_drops: bool,
    dropped: Vec<Dropped>,
}

impl Model for Report {
    ghost use Rattle.record_lang.specs.Texts.{Told};

    ghost Value = { Told };

    ghost view = { λ r. record { outcomes = r.outcomes.items; has_drops = r.has_drops; dropped = r.dropped.items } };
}

impl Report {
    /// Of a run without joints that may drop. It tells nothing yet, and takes no memory.
    pub fn new(alloc: Global) -> Report
        ensures { result ≡ record { outcomes = []; has_drops = false; dropped = [] } }
    {
        Report::of(alloc, Vec::new(alloc))
    }

    /// Of a run with a joint that may drop. It tells nothing yet, and takes no memory.
    pub fn with_drops(alloc: Global) -> Report
        ensures { result ≡ record { outcomes = []; has_drops = true; dropped = [] } }
    {
        Report::of_drops(Vec::new(alloc), Vec::new(alloc))
    }

    /// Of a run without joints that may drop, with these outcomes. The list is taken as it is, and no memory
    /// is.
    pub fn of(alloc: Global, outcomes: Vec<Outcome>) -> Report
        ensures { result ≡ record { outcomes = outcomes.items; has_drops = false; dropped = [] } }
    {
        Report {
            outcomes,
            has_drops: false,
            dropped: Vec::new(alloc),
        }
    }

    /// Of a run with a joint that may drop, with these outcomes and dropped records. Both lists are taken
    /// as they are, and no memory is.
    pub fn of_drops(outcomes: Vec<Outcome>, dropped: Vec<Dropped>) -> Report
        ensures { result ≡ record { outcomes = outcomes.items; has_drops = true; dropped = dropped.items } }
    {
        Report {
            outcomes,
            has_drops: true,
            dropped,
        }
    }

    /// One more outcome. Without memory for it the report stays as it was.
    pub fn push(&mut self, outcome: Outcome) -> Result<(), Unpaid<Outcome>>
        ensures pushed { OnOk result (self.new ≡ record self.old { outcomes = self.old.outcomes ++ outcome ∷ [] }) }
        ensures unpaid { OnErr result (self.new ≡ self.old) }
        ensures back { IfErr result (λ e. e.back ≡ outcome) }
    {
        match self.outcomes.push(outcome) {
            Ok(()) => Ok(()),
            Err(failed) => Err(Unpaid { back: failed.value }),
        }
    }

    /// One more dropped record. Without memory for it the report stays as it was.
    pub fn push_dropped(&mut self, dropped: Dropped) -> Result<(), NoMemory>
        requires { IsTrue self.old.has_drops }
        ensures pushed { OnOk result (self.new ≡ record self.old { dropped = self.old.dropped ++ dropped ∷ [] }) }
        ensures unpaid { OnErr result (self.new ≡ self.old) }
    {
        match self.dropped.push(dropped) {
            Ok(()) => Ok(()),
            Err(_) => Err(NoMemory),
        }
    }

    // The dropped records, if any may be, and the counts.
    fn put_counts_rows(
        &self,
        lines: &mut Writer<Vec<u8>>,
        row: &mut ByteRecord,
    ) -> Result<(), NoMemory>
        requires { IsReady lines.old }
        ensures ready { OnOk result (IsReady lines.new) }
        ensures lines { OnOk result ((text : List ℕ) → lines_written lines.old ≡ Some text → lines_written lines.new ≡ Some (text ++ counts_rows self.now)) }
    {
        let tally = Tally::of(&self.outcomes);
        if self.has_drops {
            put_drops_and_counts(lines, row, &self.dropped, tally)
        } else {
            put_counts(lines, row, tally)
        }
    }

    /// The text of the report, with the code of the guard that ended the run, if one did: the rows of
    /// the results, then those of the refusals, those of the dropped records, the counts and the
    /// ending. Time and memory are linear in the outcomes and the text.
    pub fn text(&self, alloc: Global, code: Option<Fault>) -> Result<Text, NoMemory>
        ensures { IfOk result (λ t. t ≡ report_text self.now code) }
    {
        let mut lines = new_lines(alloc);
        let mut row = ByteRecord::new(alloc);
        put_results(&mut lines, &mut row, &self.outcomes)?;
        put_refusals(&mut lines, &mut row, &self.outcomes)?;
        self.put_counts_rows(&mut lines, &mut row)?;
        put_ending(&mut lines, &mut row, code)?;
        Ok(Text::from_vec(finish_lines(lines)?))
    }
}

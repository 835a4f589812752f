// What threads note of their calls on a bag, and whether that is a history of a bag, by place.
ghost use Rattle.std.specs.Prelude.{◌≡◌, ◌<◌, ◌≤◌};

use concurrent_bag::{Items, Receipt};
use races::Tally;
use std::alloc::{AllocError, Global};
use std::test::Fail;

/// What a call was answered.
#[derive(Drop)]
pub enum Answer {
    Added(u64),
    Took { from: u32, item: u64 },
    Empty,
    Counted(u64),
    Showed(Items),
}

/// One entry, with its place and its caller.
#[derive(Drop)]
struct Note {
    place: u64,
    caller: u32,
    answer: Answer,
}

/// The entries of a thread, and how many of its tries met others.
#[derive(Drop)]
pub struct Notes {
    notes: Vec<Note>,
    pub held: u64,
    pub lost: u64,
}

impl Notes {
    pub fn new(alloc: Global) -> Notes {
        Notes {
            notes: Vec::new(alloc),
            held: 0,
            lost: 0,
        }
    }

    /// Notes an answer. None for want of memory, or where its receipt is no place, or one that is not
    /// above that of the answer before.
    pub fn push(&mut self, receipt: Receipt, caller: u32, answer: Answer) -> Option<()> {
        let Receipt::Place { number: place } = receipt else {
            return None;
        };
        let rises = match self.notes.last() {
            Some(last) => last.place < place,
            None => true,
        };
        if !rises {
            return None;
        }
        self.notes
            .push(Note {
                place,
                caller,
                answer,
            })
            .ok()
    }

    pub fn count_held(&mut self) {
        self.held = self.held.wrapping_add(1);
    }

    pub fn count_lost(&mut self) {
        self.lost = self.lost.wrapping_add(1);
    }

    /// The notes of all threads. None where one of them has none, or for want of memory.
    pub fn of_all(alloc: Global, outcomes: Vec<Option<Notes>>) -> Option<Notes> {
        let mut all = Notes::new(alloc);
        for outcome in outcomes {
            all.take_in(outcome?)?;
        }
        Some(all)
    }

    fn take_in(&mut self, other: Notes) -> Option<()> {
        let Notes { notes, held, lost } = other;
        self.held = self.held.wrapping_add(held);
        self.lost = self.lost.wrapping_add(lost);
        for note in notes {
            self.notes.push(note).ok()?;
        }
        Some(())
    }

    /// The items that were taken.
    pub fn taken(&self) -> Tally {
        let mut tally = Tally::default();
        for note in self.notes.as_slice() {
            if let Answer::Took { item, .. } = &note.answer {
                tally = tally.with(*item);
            }
        }
        tally
    }
}

/// The lists of a bag, by caller.
#[derive(Drop)]
struct Lists {
    lists: Vec<Vec<u64>>,
}

impl Lists {
    fn new(alloc: Global) -> Result<Lists, AllocError> {
        let mut lists = Vec::new(alloc);
        for _ in 0..64 {
            lists.push(Vec::new(alloc))?;
        }
        Ok(Lists { lists })
    }

    fn count(&self) -> u64 {
        let mut count = 0u64;
        for list in self.lists.as_slice() {
            count = count.wrapping_add(list.len() as u64);
        }
        count
    }

    /// Whether these are all numbers, the lists in order.
    fn are(&self, numbers: &[u64]) -> bool {
        let mut rest = Some(numbers);
        for list in self.lists.as_slice() {
            rest = match rest {
                Some(rest) => rest.strip_prefix(list.as_slice()),
                None => None,
            };
        }
        matches!(rest, Some([]))
    }

    fn is_bare(&self, caller: u32) -> bool {
        match self.lists.as_slice().get(caller as usize) {
            Some(list) => list.is_empty(),
            None => false,
        }
    }

    fn take_last(&mut self, caller: u32) -> Option<u64> {
        self.lists.as_mut_slice().get_mut(caller as usize)?.pop()
    }

    fn take_first(&mut self, caller: u32) -> Option<u64> {
        let list = self.lists.as_mut_slice().get_mut(caller as usize)?;
        if list.is_empty() {
            None
        } else {
            Some(list.remove(0))
        }
    }

    fn add(&mut self, caller: u32, number: u64) -> bool {
        match self.lists.as_mut_slice().get_mut(caller as usize) {
            Some(list) => list.push(number).is_ok(),
            None => false,
        }
    }

    /// Whether a bag gives this answer, which then has changed the lists.
    fn gives(&mut self, note: &Note) -> bool {
        let caller = note.caller;
        match &note.answer {
            Answer::Added(number) => self.add(caller, *number),
            Answer::Took { from, item } if *from == caller => self.take_last(caller) == Some(*item),
            Answer::Took { from, item } => {
                self.is_bare(caller) && self.take_first(*from) == Some(*item)
            }
            Answer::Empty => self.count() == 0,
            Answer::Counted(count) => self.count() == *count,
            Answer::Showed(items) => self.are(items.as_slice()),
        }
    }
}

fn sort(notes: &mut Vec<Note>) {
    notes.sort_unstable_by_key(|note| note.place);
}

/// Whether the notes have each place once, from 0, and by place are a history of a bag.
pub fn are_history(alloc: Global, notes: Notes) -> Result<bool, Fail> {
    let Notes { mut notes, .. } = notes;
    sort(&mut notes);
    let mut lists = Lists::new(alloc)?;
    let mut next = 0u64;
    for note in notes.as_slice() {
        if note.place != next || !lists.gives(note) {
            return Ok(false);
        }
        next = next.wrapping_add(1);
    }
    Ok(true)
}

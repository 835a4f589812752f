// Threads that make tries and calls on one bag. Each notes what it was answered: in order of place the
// notes of all are to be a history of a bag.
ghost use Rattle.std.specs.Prelude.{◌≡◌, ◌<◌, ◌≤◌};

use crate::bag_notes::{Answer, Notes, are_history};
use crate::splits::split_bag;
use concurrent_bag::{
    BagAdd, BagAddOnce, BagAgain, BagPass, BagTake, BagTakeOnce, ConcurrentBag, Receipt,
};
use races::{Countdown, Race, Tally, share};
use std::alloc::Global;
use std::sync::Wait;
use std::test::Fail;
use std::thread;
use std::thread::Threads;
use std::time::Clock;

/// How many tries or calls a thread makes at most that waits for an answer which may not come.
const MOST_TRIES: u64 = 20_000;

/// How often two threads race until one of them meets the other.
const MOST_RACES: u64 = 200;

/// The bag, and how many numbers have not been taken, or how many threads have not met another.
#[derive(Drop)]
struct Trying {
    bag: ConcurrentBag<u64>,
    left: Countdown,
    alloc: Global,
}

#[derive(Drop)]
enum Task {
    /// Adds each number from the first up to, and without, the second.
    Add(u64, u64),
    /// The same by tries.
    AddOnce(u64, u64),
    /// Takes until no number is left.
    Take,
    /// The same by tries.
    TakeOnce,
    /// So often an add, a take, a try of each, a count and a snapshot.
    Each(u64),
    /// Counts until the other thread has met it.
    Count,
    /// Tries to take until it meets an entry of the other thread.
    MeetEntry,
    /// Adds numbers, and makes snapshots until the other thread has met it.
    Show(u64),
    /// Tries to add and to take until it meets a list that the other thread holds.
    MeetList,
}

/// What a thread was answered. None where it met what it must not.
type Outcome = Option<Notes>;

fn add<R: Wait>(
    rt: &R,
    bag: &ConcurrentBag<u64>,
    pass: &mut BagPass,
    notes: &mut Notes,
    number: u64,
) -> Option<()>
    requires { pass.old.table ≡ bag.now }
    ensures { pass.new.table ≡ bag.now }
{
    match bag.add(rt, pass, number) {
        Ok((BagAdd::Done, receipt)) => notes.push(receipt, pass.caller(), Answer::Added(number)),
        _ => None,
    }
}

/// Whether the number was added, and not the list held by another caller.
fn try_add(
    bag: &ConcurrentBag<u64>,
    pass: &mut BagPass,
    notes: &mut Notes,
    number: u64,
) -> Option<bool>
    requires { pass.old.table ≡ bag.now }
    ensures { pass.new.table ≡ bag.now }
{
    match bag.add_once(pass, number) {
        BagAddOnce::Answer(BagAdd::Done, receipt) => {
            notes.push(receipt, pass.caller(), Answer::Added(number))?;
            Some(true)
        }
        BagAddOnce::Again(BagAgain::Held, back) if back == number => {
            notes.count_held();
            Some(false)
        }
        _ => None,
    }
}

/// Tries until the number is added.
fn add_by_tries<R: Wait>(
    rt: &R,
    bag: &ConcurrentBag<u64>,
    pass: &mut BagPass,
    notes: &mut Notes,
    number: u64,
) -> Option<()>
    requires { pass.old.table ≡ bag.now }
    ensures { pass.new.table ≡ bag.now }
{
    for _ in 0..MOST_TRIES {
        if try_add(bag, pass, notes, number)? {
            return Some(());
        }
    }
    add(rt, bag, pass, notes, number)
}

/// Notes what a take was answered. Whether that was an item.
fn note_take(
    notes: &mut Notes,
    receipt: Receipt,
    caller: u32,
    reply: BagTake<u64>,
) -> Option<bool> {
    let (answer, is_item) = match reply {
        BagTake::Item { from, item } => (Answer::Took { from, item }, true),
        BagTake::Empty => (Answer::Empty, false),
    };
    notes.push(receipt, caller, answer)?;
    Some(is_item)
}

/// Whether an item was taken, and the bag not empty.
fn take<R: Wait>(
    rt: &R,
    bag: &ConcurrentBag<u64>,
    pass: &mut BagPass,
    notes: &mut Notes,
) -> Option<bool>
    requires { pass.old.table ≡ bag.now }
    ensures { pass.new.table ≡ bag.now }
{
    let (reply, receipt) = bag.take(rt, pass);
    note_take(notes, receipt, pass.caller(), reply)
}

/// Whether an item was taken.
fn try_take(bag: &ConcurrentBag<u64>, pass: &mut BagPass, notes: &mut Notes) -> Option<bool>
    requires { pass.old.table ≡ bag.now }
    ensures { pass.new.table ≡ bag.now }
{
    match bag.take_once(pass) {
        BagTakeOnce::Answer(reply, receipt) => note_take(notes, receipt, pass.caller(), reply),
        BagTakeOnce::Again(BagAgain::Held) => {
            notes.count_held();
            Some(false)
        }
        BagTakeOnce::Again(BagAgain::Lost) => {
            notes.count_lost();
            Some(false)
        }
        BagTakeOnce::Spent => None,
    }
}

fn count<R: Wait>(
    rt: &R,
    bag: &ConcurrentBag<u64>,
    pass: &mut BagPass,
    notes: &mut Notes,
) -> Option<()>
    requires { pass.old.table ≡ bag.now }
    ensures { pass.new.table ≡ bag.now }
{
    let (count, receipt) = bag.count(rt, pass);
    notes.push(receipt, pass.caller(), Answer::Counted(count))
}

fn show<R: Wait>(
    rt: &R,
    alloc: Global,
    bag: &ConcurrentBag<u64>,
    pass: &mut BagPass,
    notes: &mut Notes,
) -> Option<()>
    requires { pass.old.table ≡ bag.now }
    ensures { pass.new.table ≡ bag.now }
{
    match bag.snapshot(rt, alloc, pass) {
        Ok((items, receipt)) => notes.push(receipt, pass.caller(), Answer::Showed(items)),
        Err(_) => None,
    }
}

impl Trying {
    fn add_all<R: Wait>(&self, rt: &R, mut pass: BagPass, from: u64, to: u64, once: bool) -> Outcome
        requires { pass.table ≡ self.now.bag }
    {
        let mut notes = Notes::new(self.alloc);
        for number in from..to {
            if once {
                add_by_tries(rt, &self.bag, &mut pass, &mut notes, number)?;
            } else {
                add(rt, &self.bag, &mut pass, &mut notes, number)?;
            }
        }
        Some(notes)
    }

    fn take_all<R: Wait>(&self, rt: &R, mut pass: BagPass, once: bool) -> Outcome
        requires { pass.table ≡ self.now.bag }
    {
        let mut notes = Notes::new(self.alloc);
        for _ in rt.forever() {
            if self.left.is_over() {
                return Some(notes);
            }
            let is_item = if once {
                try_take(&self.bag, &mut pass, &mut notes)?
            } else {
                take(rt, &self.bag, &mut pass, &mut notes)?
            };
            if is_item {
                self.left.count_off();
            } else {
                thread::yield_now();
            }
        }
        unreachable!()
    }

    fn each<R: Wait>(&self, rt: &R, mut pass: BagPass, times: u64) -> Outcome
        requires { pass.table ≡ self.now.bag }
    {
        let mut notes = Notes::new(self.alloc);
        for number in 0..times {
            add(rt, &self.bag, &mut pass, &mut notes, number)?;
            try_add(&self.bag, &mut pass, &mut notes, number)?;
            count(rt, &self.bag, &mut pass, &mut notes)?;
            take(rt, &self.bag, &mut pass, &mut notes)?;
            show(rt, self.alloc, &self.bag, &mut pass, &mut notes)?;
            try_take(&self.bag, &mut pass, &mut notes)?;
        }
        Some(notes)
    }

    fn count_on<R: Wait>(&self, rt: &R, mut pass: BagPass) -> Outcome
        requires { pass.table ≡ self.now.bag }
    {
        let mut notes = Notes::new(self.alloc);
        for _ in 0..MOST_TRIES {
            if self.left.is_over() {
                return Some(notes);
            }
            count(rt, &self.bag, &mut pass, &mut notes)?;
        }
        Some(notes)
    }

    fn meet_entry(&self, mut pass: BagPass) -> Outcome
        requires { pass.table ≡ self.now.bag }
    {
        let mut notes = Notes::new(self.alloc);
        for _ in 0..MOST_TRIES {
            try_take(&self.bag, &mut pass, &mut notes)?;
            if notes.lost > 0 {
                self.left.count_off();
                return Some(notes);
            }
        }
        Some(notes)
    }

    fn show_on<R: Wait>(&self, rt: &R, mut pass: BagPass, numbers: u64) -> Outcome
        requires { pass.table ≡ self.now.bag }
    {
        let mut notes = Notes::new(self.alloc);
        for number in 0..numbers {
            add(rt, &self.bag, &mut pass, &mut notes, number)?;
            if self.left.is_over() {
                return Some(notes);
            }
            show(rt, self.alloc, &self.bag, &mut pass, &mut notes)?;
        }
        Some(notes)
    }

    fn meet_list(&self, mut pass: BagPass) -> Outcome
        requires { pass.table ≡ self.now.bag }
    {
        let mut notes = Notes::new(self.alloc);
        for number in 0..MOST_TRIES {
            try_add(&self.bag, &mut pass, &mut notes, number)?;
            try_take(&self.bag, &mut pass, &mut notes)?;
            if notes.held > 0 {
                self.left.count_off();
                return Some(notes);
            }
        }
        Some(notes)
    }
}

impl Race for Trying {
    type Pass = BagPass;

    type Task = Task;

    type Outcome = Outcome;

    ghost is_of = { λ race pass. pass.table ≡ race.bag };

    fn split(&self, pass: &mut BagPass) -> Option<BagPass> {
        split_bag(&self.bag, pass)
    }

    fn run<R: Wait + Clock>(&self, rt: &R, pass: BagPass, task: Task) -> Outcome {
        match task {
            Task::Add(from, to) => self.add_all(rt, pass, from, to, false),
            Task::AddOnce(from, to) => self.add_all(rt, pass, from, to, true),
            Task::Take => self.take_all(rt, pass, false),
            Task::TakeOnce => self.take_all(rt, pass, true),
            Task::Each(times) => self.each(rt, pass, times),
            Task::Count => self.count_on(rt, pass),
            Task::MeetEntry => self.meet_entry(pass),
            Task::Show(numbers) => self.show_on(rt, pass, numbers),
            Task::MeetList => self.meet_list(pass),
        }
    }
}

/// Runs the tasks on a new bag, each in a thread, and puts their notes together. None where a thread met
/// what it must not.
fn run<R: Wait + Threads + Sync + Clock>(
    rt: &R,
    alloc: Global,
    tasks: Vec<Task>,
    left: u64,
) -> Result<Outcome, Fail> {
    let (bag, pass) = ConcurrentBag::new(alloc, 64)?;
    let race = Trying {
        bag,
        left: Countdown::new(left),
        alloc,
    };
    let outcomes = races::run(rt, alloc, &race, pass, tasks)?;
    Ok(Notes::of_all(alloc, outcomes))
}

/// Whether so many threads of each kind, every other one by tries, hand over the numbers below `count`,
/// each once.
fn hands_over<R: Wait + Threads + Sync + Clock>(
    rt: &R,
    alloc: Global,
    each: u64,
    count: u64,
) -> Result<bool, Fail>
    requires { (0 < each) × (each ≤ 31) × (count ≤ 10000) }
{
    let mut tasks = Vec::new(alloc);
    for i in 0..each {
        let (from, to) = share(count, each, i);
        let (add, take) = if i % 2 == 0 {
            (Task::AddOnce(from, to), Task::TakeOnce)
        } else {
            (Task::Add(from, to), Task::Take)
        };
        tasks.push(add)?;
        tasks.push(take)?;
    }
    let Some(notes) = run(rt, alloc, tasks, count)? else {
        return Ok(false);
    };
    Ok(notes.taken() == Tally::below(count) && are_history(alloc, notes)?)
}

/// Whether a thread met the other one, as the notes tell, in one of some races, and each race was a
/// history.
fn meets<R: Wait + Threads + Sync + Clock>(
    rt: &R,
    alloc: Global,
    list: bool,
) -> Result<bool, Fail> {
    for _ in 0..MOST_RACES {
        let mut tasks = Vec::new(alloc);
        if list {
            tasks.push(Task::Show(200))?;
            tasks.push(Task::MeetList)?;
        } else {
            tasks.push(Task::Count)?;
            tasks.push(Task::MeetEntry)?;
        }
        let Some(notes) = run(rt, alloc, tasks, 1)? else {
            return Ok(false);
        };
        let met = if list { notes.held } else { notes.lost };
        if !are_history(alloc, notes)? {
            return Ok(false);
        }
        if met > 0 {
            return Ok(true);
        }
    }
    Ok(false)
}

#[test]
fn each_number_is_handed_over_once_by_tries_and_calls(rt: HostRuntime) -> Result<(), Fail> {
    assert!(rt; hands_over(&rt, rt.alloc(), 1, 2_000)?);
    assert!(rt; hands_over(&rt, rt.alloc(), 2, 4_000)?);
    assert!(rt; hands_over(&rt, rt.alloc(), 8, 8_000)?);
    Ok(())
}

#[test]
fn a_try_meets_a_list_that_another_holds(rt: HostRuntime) -> Result<(), Fail> {
    assert!(rt; meets(&rt, rt.alloc(), true)?);
    Ok(())
}

#[test]
fn a_try_of_a_take_meets_an_entry_of_another(rt: HostRuntime) -> Result<(), Fail> {
    assert!(rt; meets(&rt, rt.alloc(), false)?);
    Ok(())
}

#[test]
fn counts_and_snapshots_stand_among_adds_and_takes(rt: HostRuntime) -> Result<(), Fail> {
    let mut tasks = Vec::new(rt.alloc());
    for _ in 0..16 {
        tasks.push(Task::Each(100))?;
    }
    match run(&rt, rt.alloc(), tasks, 0)? {
        Some(notes) => assert!(rt; are_history(rt.alloc(), notes)?),
        None => return Err(Fail::new("a thread met what it must not")),
    }
    Ok(())
}

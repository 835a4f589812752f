// A shelf and a sink in memory, of whose calls some fail as they were told to.
ghost use Rattle.std.specs.Prelude.{◌≡◌, ◌<◌, ◌≤◌, ◌↔◌, [], ◌∷◌, ◌++◌, length, Contains, IsSome, IsTrue, None, OnOk, OnErr, Some};
ghost use Rattle.std.specs.Bool.{OnFalse, OnTrue};
ghost use Rattle.ho_io.specs.Counts.{counted};
ghost use Rattle.ho_io.specs.Memory.{FailsNext, SetsFile, file_named, name_at};
ghost use Rattle.ho_io.specs.Pieces.{CountFits, CountsPiece, GivesLargest, GivesPiece, TakesLargest, TakesPiece, failed_fetches, failed_puts, failing_after, given_after, idle_after};

use crate::{Fetched, FreeShelf, FreeSink, Put, Shelf, Sink};
use ho_base::{NoMemory, Word};
use std::alloc::Global;
use std::marker::Model;

// Which calls are to fail, counted from 0, and how many were made and failed.
#[derive(Drop)]
pub(crate) struct Failures {
    listed: Vec<u64>,
    calls: u64,
    faults: u64,
}

impl Model for Failures {
    ghost use Rattle.ho_io.specs.Memory.{Failed};

    ghost Value = { Failed };

    ghost view = { λ f. record { listed = f.listed.items; calls = f.calls; faults = f.faults } };
}

impl Failures {
    fn new(alloc: Global) -> Failures
        ensures listed { result.listed ≡ [] }
        ensures calls { result.calls ≡ 0 }
        ensures faults { result.faults ≡ 0 }
    {
        Failures {
            listed: Vec::new(alloc),
            calls: 0,
            faults: 0,
        }
    }

    fn fail_at(&mut self, call: u64) -> Result<(), NoMemory>
        ensures calls { self.new.calls ≡ self.old.calls }
        ensures faults { self.new.faults ≡ self.old.faults }
        ensures listed { OnOk result (self.new.listed ≡ self.old.listed ++ call ∷ []) }
        ensures refused { OnErr result (self.new.listed ≡ self.old.listed) }
    {
        self.listed.push(call)?;
        Ok(())
    }

    // Counts a call, and tells whether it fails: it does where it was named and may fail. Only then it
    // counts as a fault too.
    fn call(&mut self, may_fail: bool) -> bool
        ensures listed { self.new.listed ≡ self.old.listed }
        ensures calls { self.new.calls ≡ counted self.old.calls 1 }
        ensures told { IsTrue result ↔ (IsTrue may_fail × FailsNext self.old) }
        ensures later { self.old.faults ≤ self.new.faults }
        ensures failed { OnTrue result (self.new.faults ≡ counted self.old.faults 1) }
        ensures kept { OnFalse result (self.new.faults ≡ self.old.faults) }
    {
        let fails = may_fail && self.listed.contains(&self.calls);
        self.calls = self.calls.saturating_add(1);
        if fails {
            self.faults = self.faults.saturating_add(1);
        }
        fails
    }
}

/// Files in memory, of whose fetches some fail: exactly those whose numbers were given, counted from 0.
/// A file that is not there is missing all the same, and that is no fault.
#[derive(Drop)]
pub struct MemShelf {
    shelf: FreeShelf,
    failures: Failures,
    // The place of the file whose fetch failed last, if one failed since a file was put on the shelf.
    failing: Option<usize>,
}

impl Model for MemShelf {
    ghost use Rattle.ho_io.specs.Memory.{FailingShelf, name_at};

    ghost Value = { FailingShelf };

    ghost view = { λ s. record { shelved = s.shelf; failed = s.failures; failing = name_at s.shelf.files s.failing } };
}

impl MemShelf {
    /// A shelf with no files, of whose fetches none fails.
    pub fn new(alloc: Global) -> MemShelf
        ensures files { result.shelved.files ≡ [] }
        ensures given { result.shelved.given ≡ 0 }
        ensures idle { result.shelved.idle ≡ 0 }
        ensures listed { result.failed.listed ≡ [] }
        ensures calls { result.failed.calls ≡ 0 }
        ensures faults { result.failed.faults ≡ 0 }
        ensures failing { result.failing ≡ None }
    {
        MemShelf {
            shelf: FreeShelf::new(alloc),
            failures: Failures::new(alloc),
            failing: None,
        }
    }

    /// Puts a file on the shelf. It takes the place of one with the same name. Which file's fetch failed
    /// last is forgotten then. Where there is no memory, nothing changes.
    pub fn add(&mut self, name: Word, bytes: &[u8]) -> Result<(), NoMemory>
        ensures added { OnOk result (SetsFile self.old.shelved.files self.new.shelved.files name bytes.now) }
        ensures refused { OnErr result (self.new.shelved.files ≡ self.old.shelved.files) }
        ensures given { self.new.shelved.given ≡ self.old.shelved.given }
        ensures idle { self.new.shelved.idle ≡ self.old.shelved.idle }
        ensures failed { self.new.failed ≡ self.old.failed }
        ensures failing { OnOk result (self.new.failing ≡ None) }
        ensures kept { OnErr result (self.new.failing ≡ self.old.failing) }
    {
        self.shelf.add(name, bytes)?;
        self.failing = None;
        Ok(())
    }

    /// Has the fetch of that number fail.
    pub fn fail_at(&mut self, call: u64) -> Result<(), NoMemory>
        ensures shelved { self.new.shelved ≡ self.old.shelved }
        ensures failing { self.new.failing ≡ self.old.failing }
        ensures calls { self.new.failed.calls ≡ self.old.failed.calls }
        ensures faults { self.new.failed.faults ≡ self.old.failed.faults }
        ensures listed { OnOk result (self.new.failed.listed ≡ self.old.failed.listed ++ call ∷ []) }
        ensures refused { OnErr result (self.new.failed.listed ≡ self.old.failed.listed) }
    {
        self.failures.fail_at(call)
    }
}

impl Shelf for MemShelf {
    ghost files = { λ s. Some (file_named s.shelved.files) };

    ghost given = { λ s. s.shelved.given };

    ghost idle = { λ s. s.shelved.idle };

    ghost faults = { λ s. s.failed.faults };

    ghost failing = { λ s. s.failing };

    /// Fails exactly where this call is one of those that are to fail and the file is there. Else it
    /// gives as much as the buffer and the rest of the file allow.
    fn fetch(&mut self, name: &Word, at: u64, buf: &mut [u8]) -> Fetched
        requires { 0 < length buf.old }
        ensures fails { result ≡ Fetched.Failed ↔ (IsSome (file_named self.old.shelved.files name.now) × FailsNext self.old.failed) }
        ensures calls { self.new.failed.calls ≡ counted self.old.failed.calls 1 }
        ensures listed { self.new.failed.listed ≡ self.old.failed.listed }
        ensures files { self.new.shelved.files ≡ self.old.shelved.files }
        ensures count { CountFits buf.new result }
        ensures size { GivesLargest (file_named self.old.shelved.files name.now) at buf.new result }
        ensures piece { GivesPiece (file_named self.old.shelved.files name.now) at buf.new result }
        ensures given { self.new.shelved.given ≡ given_after self.old.shelved.given result }
        ensures idle { self.new.shelved.idle ≡ idle_after self.old.shelved.idle result }
        ensures later { self.old.failed.faults ≤ self.new.failed.faults }
        ensures faults { self.new.failed.faults ≡ failed_fetches self.old.failed.faults result }
        ensures failing { self.new.failing ≡ failing_after (Some (file_named self.old.shelved.files)) self.old.failing name.now result }
    {
        let place = self.shelf.place_of(name);
        if self.failures.call(place.is_some()) {
            self.failing = place;
            self.shelf.count_idle();
            return Fetched::Failed;
        }
        self.shelf.fetch(name, at, buf)
    }
}

/// A sink in memory, of whose puts some fail: exactly those whose numbers were given, counted from 0.
/// `reserve` is not counted among them.
#[derive(Drop)]
pub struct MemSink {
    sink: FreeSink,
    failures: Failures,
}

impl Model for MemSink {
    ghost use Rattle.ho_io.specs.Memory.{FailingSink};

    ghost Value = { FailingSink };

    ghost view = { λ s. record { sunk = s.sink; failed = s.failures } };
}

impl MemSink {
    /// An empty sink that takes at most so many bytes at once, of whose puts none fails.
    pub fn new(alloc: Global, largest: usize) -> MemSink
        requires { 0 < largest }
        ensures taken { result.sunk.taken ≡ [] }
        ensures spare { result.sunk.spare ≡ 0 }
        ensures largest { result.sunk.largest ≡ largest }
        ensures reserves { result.sunk.reserves ≡ 0 }
        ensures asked { result.sunk.asked ≡ 0 }
        ensures listed { result.failed.listed ≡ [] }
        ensures calls { result.failed.calls ≡ 0 }
        ensures faults { result.failed.faults ≡ 0 }
    {
        MemSink {
            sink: FreeSink::new(alloc, largest),
            failures: Failures::new(alloc),
        }
    }

    /// Has the put of that number fail.
    pub fn fail_at(&mut self, call: u64) -> Result<(), NoMemory>
        ensures sunk { self.new.sunk ≡ self.old.sunk }
        ensures calls { self.new.failed.calls ≡ self.old.failed.calls }
        ensures faults { self.new.failed.faults ≡ self.old.failed.faults }
        ensures listed { OnOk result (self.new.failed.listed ≡ self.old.failed.listed ++ call ∷ []) }
        ensures refused { OnErr result (self.new.failed.listed ≡ self.old.failed.listed) }
    {
        self.failures.fail_at(call)
    }

    /// The bytes taken so far.
    pub fn taken(&self) -> &[u8]
        ensures { result.now ≡ self.now.sunk.taken }
    {
        self.sink.taken()
    }
}

impl Sink for MemSink {
    ghost taken = { λ s. Some s.sunk.taken };

    ghost spare = { λ s. s.sunk.spare };

    ghost puts = { λ s. s.failed.calls };

    ghost reserves = { λ s. s.sunk.reserves };

    ghost asked = { λ s. s.sunk.asked };

    ghost faults = { λ s. s.failed.faults };

    fn reserve(&mut self, more: usize) -> Result<(), NoMemory>
        ensures room { OnOk result (more ≤ self.new.sunk.spare) }
        ensures refused { OnErr result (self.new.sunk.spare ≡ self.old.sunk.spare) }
        ensures taken { self.new.sunk.taken ≡ self.old.sunk.taken }
        ensures largest { self.new.sunk.largest ≡ self.old.sunk.largest }
        ensures reserves { self.new.sunk.reserves ≡ counted self.old.sunk.reserves 1 }
        ensures asked { self.new.sunk.asked ≡ more }
        ensures failed { self.new.failed ≡ self.old.failed }
    {
        self.sink.reserve(more)
    }

    /// Fails exactly where this call is one of those that are to fail. Else it takes the whole piece, or
    /// the largest piece from its front.
    fn put(&mut self, piece: &[u8]) -> Put
        requires some { 0 < length piece.now }
        requires room { length piece.now ≤ self.old.sunk.spare }
        ensures fails { result ≡ Put.Failed ↔ FailsNext self.old.failed }
        ensures took { TakesLargest piece.now self.old.sunk.largest result }
        ensures taken { TakesPiece (Some self.old.sunk.taken) (Some self.new.sunk.taken) piece.now result }
        ensures spare { CountsPiece self.old.sunk.spare self.new.sunk.spare piece.now result }
        ensures largest { self.new.sunk.largest ≡ self.old.sunk.largest }
        ensures reserves { self.new.sunk.reserves ≡ self.old.sunk.reserves }
        ensures asked { self.new.sunk.asked ≡ self.old.sunk.asked }
        ensures calls { self.new.failed.calls ≡ counted self.old.failed.calls 1 }
        ensures listed { self.new.failed.listed ≡ self.old.failed.listed }
        ensures later { self.old.failed.faults ≤ self.new.failed.faults }
        ensures faults { self.new.failed.faults ≡ failed_puts self.old.failed.faults result }
    {
        if self.failures.call(true) {
            return Put::Failed;
        }
        self.sink.put(piece)
    }
}

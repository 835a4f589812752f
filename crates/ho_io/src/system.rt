// Real files and the standard output: the trusted edge, which tells nothing of its bytes.
ghost use Rattle.std.specs.Prelude.{◌≡◌, ◌≤◌, None, length, IfOk, IsOk, OnErr, OnOk};
ghost use Rattle.ho_io.specs.Counts.{counted};

use crate::shelf::idle_after;
use crate::{Fetched, Put, Shelf, Sink};
use ho_base::{NoMemory, Word};
use std::io::{ErrorKind, Read, Seek, SeekFrom};
use std::rt::Files;
use std::{fs, io};

/// The files of the system. It tells nothing of their bytes, so no proof speaks of them. A name that
/// is no text is a failure. A fetch opens the file, seeks and reads once.
#[derive(Drop)]
pub struct DiskShelf<'r, R: Files> {
    rt: &'r R,
    given: u64,
    idle: u64,
    faults: u64,
}

impl<'r, R: Files> DiskShelf<'r, R> {
    /// A shelf that has given no bytes, and of which no fetch has failed.
    pub fn new(rt: &'r R) -> DiskShelf<'r, R>
        ensures given { result.given ≡ 0 }
        ensures idle { result.idle ≡ 0 }
        ensures faults { result.faults ≡ 0 }
    {
        DiskShelf {
            rt,
            given: 0,
            idle: 0,
            faults: 0,
        }
    }
}

// Some bytes of a file, from a place on.
fn read_piece<R: Files>(rt: &R, name: &[u8], at: u64, buf: &mut [u8]) -> io::Result<usize>
    ensures { IfOk result (λ n. n ≤ length buf.new) }
{
    let Ok(path) = str::from_utf8(name) else {
        return Err(ErrorKind::InvalidInput.into());
    };
    let mut file = fs::open(rt, path)?;
    file.seek(SeekFrom::Start(at))?;
    file.read(buf)
}

impl<R: Files> Shelf for DiskShelf<'_, R> {
    ghost files = { λ s. None };

    ghost given = { λ s. s.given };

    ghost idle = { λ s. s.idle };

    ghost faults = { λ s. s.faults };

    ghost failing = { λ s. None };

    fn fetch(&mut self, name: &Word, at: u64, buf: &mut [u8]) -> Fetched {
        match read_piece(self.rt, name.bytes(), at, buf) {
            Ok(count) => {
                self.given = self.given.saturating_add(count as u64);
                self.idle = idle_after(self.idle, count);
                Fetched::Bytes(count)
            }
            Err(error) => {
                self.idle = self.idle.saturating_add(1);
                if error.kind() == ErrorKind::NotFound {
                    return Fetched::Missing;
                }
                self.faults = self.faults.saturating_add(1);
                Fetched::Failed
            }
        }
    }
}

/// The standard output. It tells nothing of what it took. A put is one write of the system, with no
/// buffer; one that takes no byte is a failure. `reserve` only keeps the number, and takes no memory.
#[derive(Drop)]
pub struct TerminalSink<'r, R: Print> {
    rt: &'r R,
    spare: usize,
    puts: u64,
    reserves: u64,
    asked: usize,
    faults: u64,
}

impl<'r, R: Print> TerminalSink<'r, R> {
    /// A sink with no room yet, that has had no put.
    pub fn new(rt: &'r R) -> TerminalSink<'r, R>
        ensures spare { result.spare ≡ 0 }
        ensures puts { result.puts ≡ 0 }
        ensures reserves { result.reserves ≡ 0 }
        ensures asked { result.asked ≡ 0 }
        ensures faults { result.faults ≡ 0 }
    {
        TerminalSink {
            rt,
            spare: 0,
            puts: 0,
            reserves: 0,
            asked: 0,
            faults: 0,
        }
    }
}

impl<R: Print> Sink for TerminalSink<'_, R> {
    ghost taken = { λ s. None };

    ghost spare = { λ s. s.spare };

    ghost puts = { λ s. s.puts };

    ghost reserves = { λ s. s.reserves };

    ghost asked = { λ s. s.asked };

    ghost faults = { λ s. s.faults };

    fn reserve(&mut self, more: usize) -> Result<(), NoMemory>
        ensures always { IsOk result }
        ensures room { OnOk result (more ≤ self.new.spare) }
        ensures kept { OnOk result (self.new.spare ≡ more) }
        ensures refused { OnErr result (self.new.spare ≡ self.old.spare) }
        ensures reserves { self.new.reserves ≡ counted self.old.reserves 1 }
        ensures asked { self.new.asked ≡ more }
        ensures puts { self.new.puts ≡ self.old.puts }
        ensures faults { self.new.faults ≡ self.old.faults }
    {
        self.reserves = self.reserves.saturating_add(1);
        self.asked = more;
        self.spare = more;
        Ok(())
    }

    fn put(&mut self, piece: &[u8]) -> Put {
        self.puts = self.puts.saturating_add(1);
        match self.rt.write_some(piece) {
            Ok(count) if count > 0 => {
                self.spare -= count;
                Put::Took(count)
            }
            _ => {
                self.faults = self.faults.saturating_add(1);
                Put::Failed
            }
        }
    }
}

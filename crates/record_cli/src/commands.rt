// The forms that the program's words may have.
ghost use Rattle.std.specs.Prelude.{◌≡◌, ◌≤◌, IfSome};
ghost use Rattle.record_cli.specs.Commands.{IsCrewSize, IsInRange, command_of, is_name, number_within, of_made, of_one_name, of_run, of_two_names, of_work, task_of, waits_for};

use ho_base::{Word, word_number};

/// The most workers of a stage.
const MAX_WORKERS: u32 = 16;

/// The most records that are made.
const MAX_COUNT: u32 = 200_000;

/// The largest seed, since the generator's numbers stand below 2^31.
const MAX_SEED: u32 = 2_147_483_647;

/// What the words ask for, with the names of the files and the numbers in them.
#[derive(Clone, Copy)]
pub enum Command<'w> {
    /// `plain PIPE FILE`
    Plain {
        pipe: &'w Word,
        file: &'w Word,
    },
    /// `run PIPE FILE WORKERS`, with 1 to 16 workers for each stage
    Run {
        pipe: &'w Word,
        file: &'w Word,
        workers: u32,
    },
    /// `drive SCRIPT`
    Drive {
        script: &'w Word,
    },
    /// `check SCRIPT HISTORY`
    Check {
        script: &'w Word,
        history: &'w Word,
    },
    /// `made COUNT SEED WORKERS`, with at most 200,000 records, a seed below 2^31, and 1 to 16 workers
    Made {
        count: u32,
        seed: u32,
        workers: u32,
    },
}

// Whether a word may name a file.
fn names_file(word: &Word) -> bool
    ensures { result ≡ is_name word.now }
{
    !word.bytes().is_empty()
}

// The number of a word, where it is one from least to most.
fn number_within(word: &Word, least: u32, most: u32) -> Option<u32>
    ensures number { result ≡ number_within least most word.now }
    ensures range { IfSome result (λ n. (least ≤ n) × (n ≤ most)) }
{
    let number = word_number(word.bytes())?;
    if u64::from(least) <= number && number <= u64::from(most) {
        Some(number as u32)
    } else {
        None
    }
}

// The command of a word and one name.
fn of_one_name<'w>(word: &Word, script: &'w Word) -> Option<Command<'w>>
    ensures task { task_of result ≡ of_one_name word.now script.now }
    ensures range { IsInRange result }
{
    if word.bytes() == b"drive".as_slice() && names_file(script) {
        Some(Command::Drive { script })
    } else {
        None
    }
}

// The command of a word and two names.
fn of_two_names<'w>(word: &Word, first: &'w Word, second: &'w Word) -> Option<Command<'w>>
    ensures task { task_of result ≡ of_two_names word.now first.now second.now }
    ensures range { IsInRange result }
{
    if !names_file(first) || !names_file(second) {
        None
    } else if word.bytes() == b"plain".as_slice() {
        Some(Command::Plain {
            pipe: first,
            file: second,
        })
    } else if word.bytes() == b"check".as_slice() {
        Some(Command::Check {
            script: first,
            history: second,
        })
    } else {
        None
    }
}

// The command `run` with these names.
fn of_run<'w>(pipe: &'w Word, file: &'w Word, workers: u32) -> Option<Command<'w>>
    requires { IsCrewSize workers }
    ensures task { task_of result ≡ of_run pipe.now file.now workers }
    ensures range { IsInRange result }
{
    if names_file(pipe) && names_file(file) {
        Some(Command::Run {
            pipe,
            file,
            workers,
        })
    } else {
        None
    }
}

// The command `made` with these numbers.
fn of_made<'w>(count: &Word, seed: &Word, workers: u32) -> Option<Command<'w>>
    requires { IsCrewSize workers }
    ensures task { task_of result ≡ of_made (number_within 0 200000 count.now) (number_within 0 2147483647 seed.now) workers }
    ensures range { IsInRange result }
{
    let count = number_within(count, 0, MAX_COUNT)?;
    let seed = number_within(seed, 0, MAX_SEED)?;
    Some(Command::Made {
        count,
        seed,
        workers,
    })
}

// The command of a word, two that it works on, and a number of workers.
fn of_work<'w>(
    word: &Word,
    first: &'w Word,
    second: &'w Word,
    workers: &Word,
) -> Option<Command<'w>>
    ensures task { task_of result ≡ of_work word.now first.now second.now (number_within 1 16 workers.now) }
    ensures range { IsInRange result }
{
    let workers = number_within(workers, 1, MAX_WORKERS)?;
    if word.bytes() == b"run".as_slice() {
        of_run(first, second, workers)
    } else if word.bytes() == b"made".as_slice() {
        of_made(first, second, workers)
    } else {
        None
    }
}

/// The command whose form the words have, if they have one, with its numbers in their ranges.
#[tactic(auto, unfolding(crate::specs::Commands::command_of))]
pub fn command_of(words: &[Word]) -> Option<Command<'_>>
    ensures task { task_of result ≡ command_of words.now }
    ensures range { IsInRange result }
{
    match words {
        [word, script] => of_one_name(word, script),
        [word, first, second] => of_two_names(word, first, second),
        [word, first, second, workers] => of_work(word, first, second, workers),
        _ => None,
    }
}

/// Whether the words name a command that may wait for other threads: `run`, `drive` or `made`.
pub fn waits(words: &[Word]) -> bool
    ensures { result ≡ waits_for (command_of words.now) }
{
    matches!(
        command_of(words),
        Some(Command::Run { .. } | Command::Drive { .. } | Command::Made { .. })
    )
}

// The rows that tell refusals and verdicts.
ghost use Rattle.std.specs.Prelude.{◌≡◌, ◌∷◌, [], map, decimal, false, IsTrue};
ghost use Rattle.drive_kit.specs.declared.check.Checked.TheVariants as checked;
ghost use Rattle.text_rows.specs.Written.{HasWord};
ghost use Rattle.record_cli.specs.Answers.{Computes, IsThis, StopsWith, has_read_fault, is_read_fault, missing, one_row, refused_place, refused_row, too_large, usage};
ghost use Rattle.record_cli.specs.Check.{verdict};
ghost use Rattle.record_cli.specs.Statuses.{is_refusal, is_written};

use crate::answer::{Answer, Row};
use crate::status::Status;
use crate::stopped::Stopped;
use crate::told::Told;
use drive_kit::Checked;
use ho_base::Word;
use itoa::Buffer;
use std::alloc::Global;
use text_rows::row_line;

// A refusal of one row.
fn refusal(alloc: Global, status: Status, fields: &[&[u8]]) -> Stopped
    requires status { IsTrue (is_refusal status) }
    requires word { HasWord (map (λ f. f.now) fields.now) }
    ensures row { StopsWith (IsThis (one_row status (map (λ f. f.now) fields.now))) result }
    ensures unread { is_read_fault result ≡ false }
{
    match row_line(alloc, fields) {
        Ok(text) => Stopped::Refused(Row { status, text }),
        Err(_) => Stopped::NoMemory,
    }
}

pub(crate) fn missing(alloc: Global, name: &Word) -> Stopped
    ensures row { StopsWith (IsThis (missing name.now)) result }
    ensures unread { is_read_fault result ≡ false }
{
    refusal(alloc, Status::Missing, &[b"missing", name.bytes()])
}

pub(crate) fn too_large(alloc: Global, name: &Word) -> Stopped
    ensures row { StopsWith (IsThis (too_large name.now)) result }
    ensures unread { is_read_fault result ≡ false }
{
    refusal(alloc, Status::TooLarge, &[b"large", name.bytes()])
}

pub(crate) fn refused_place(alloc: Global, name: &Word, place: u64, cause: u8) -> Stopped
    ensures row { StopsWith (IsThis (refused_place name.now place cause)) result }
    ensures unread { is_read_fault result ≡ false }
{
    let mut place_digits = Buffer::new();
    let mut cause_digits = Buffer::new();
    let place = place_digits.format(place).as_bytes();
    let cause = cause_digits.format(cause).as_bytes();
    refusal(
        alloc,
        Status::SpecRefused,
        &[b"spec", name.bytes(), place, cause],
    )
}

pub(crate) fn refused_row(alloc: Global, row: u64, cause: u8) -> Stopped
    ensures row { StopsWith (IsThis (refused_row row cause)) result }
    ensures unread { is_read_fault result ≡ false }
{
    let mut row_digits = Buffer::new();
    let mut cause_digits = Buffer::new();
    let row = row_digits.format(row).as_bytes();
    let cause = cause_digits.format(cause).as_bytes();
    refusal(alloc, Status::InputRefused, &[b"input", row, cause])
}

// An answer of one row.
fn one_row(alloc: Global, status: Status, fields: &[&[u8]]) -> Result<Answer, Stopped>
    requires status { IsTrue (is_written status) }
    requires word { HasWord (map (λ f. f.now) fields.now) }
    ensures row { Computes (IsThis (one_row status (map (λ f. f.now) fields.now))) result }
    ensures unread { has_read_fault result ≡ false }
{
    let text = row_line(alloc, fields)?;
    Ok(Answer {
        status,
        told: Told::Text(text),
    })
}

pub(crate) fn usage(alloc: Global) -> Result<Answer, Stopped>
    ensures row { Computes (IsThis usage) result }
    ensures unread { has_read_fault result ≡ false }
{
    one_row(alloc, Status::Usage, &[b"usage"])
}

// A row of one word and one number.
fn counted_row(alloc: Global, status: Status, word: &[u8], count: u64) -> Result<Answer, Stopped>
    requires status { IsTrue (is_written status) }
    requires word { HasWord (word.now ∷ []) }
    ensures row { Computes (IsThis (one_row status (word.now ∷ decimal count ∷ []))) result }
    ensures unread { has_read_fault result ≡ false }
{
    let mut digits = Buffer::new();
    let count = digits.format(count).as_bytes();
    one_row(alloc, status, &[word, count])
}

// The row of a caller whose calls are not those of its rows.
fn lacking(alloc: Global, caller: u32, index: u64) -> Result<Answer, Stopped>
    ensures row { Computes (IsThis (verdict (checked.Lacking caller index))) result }
    ensures unread { has_read_fault result ≡ false }
{
    let mut caller_digits = Buffer::new();
    let mut index_digits = Buffer::new();
    let caller = caller_digits.format(caller).as_bytes();
    let index = index_digits.format(index).as_bytes();
    one_row(alloc, Status::Ended, &[b"lacking", caller, index])
}

/// The row of a history's verdict.
pub(crate) fn verdict_row(alloc: Global, checked: Checked) -> Result<Answer, Stopped>
    ensures row { Computes (IsThis (verdict checked)) result }
    ensures unread { has_read_fault result ≡ false }
{
    match checked {
        Checked::Legal { entries } => counted_row(alloc, Status::Done, b"legal", entries),
        Checked::Illegal { at } => counted_row(alloc, Status::Ended, b"illegal", at),
        Checked::Lacking { caller, index } => lacking(alloc, caller, index),
    }
}

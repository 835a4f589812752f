// Reads the text of a pipeline.
ghost use Rattle.std.specs.Prelude.{◌≡◌, ◌==◌, [], MatchOption};
ghost use Rattle.std.specs.List.{position};
ghost use Rattle.std.specs.Str.Lines.{lines, strip_carriage_return};
ghost use Rattle.record_lang.specs.Lines.{Tells};
ghost use Rattle.record_lang.specs.Parsing.{fault_at, reading_of, with_text, whole, at_place, IsFirstLine, TellsPipeline};

use crate::Pipeline;
use crate::drafts::Draft;
use crate::lines::{LineFault, line_in};
use std::alloc::Global;

/// Why a pipeline's text is not read.
#[derive(Clone, Copy, Debug, PartialEq, Eq)]
pub enum SpecFault {
    /// The first refused line, counted from 0, or the count of lines where the text is refused at its
    /// end; and the cause: 1 a byte outside 0x20 to 0x7E; 2 a first word that begins no line; 3 a line
    /// or word that is not of its form; 4 digits whose value is out of range; 5 a ninth stage, a
    /// second guard or a second joint before a stage; 6 no stage; 7 a joint after the last stage.
    Refused { place: u64, cause: u8 },
    /// There was no memory for the text's stages, joints or words. Of the text it tells nothing.
    NoMemory,
}

// The fault of a text whose line at this place has this one.
fn fault_of_line(place: u64, fault: LineFault) -> SpecFault
    ensures { result ≡ fault_at place fault }
{
    match fault {
        LineFault::Refused(cause) => SpecFault::Refused {
            place,
            cause: cause.number(),
        },
        LineFault::NoMemory => SpecFault::NoMemory,
    }
}

// Where the first line ends.
fn end_of_line(text: &[u8]) -> Option<usize>
    ensures { result ≡ position (λ b. b == 10) text.now }
{
    text.iter().position(|b| *b == b'\n')
}

// A line before an LF without the CR at its end.
fn without_return(line: &[u8]) -> &[u8]
    ensures { result.now ≡ strip_carriage_return line.now }
{
    match line {
        [shorter @ .., b'\r'] => shorter,
        _ => line,
    }
}

// The first line, without its end, and what stands after it.
fn first_line(text: &[u8]) -> Option<(&[u8], &[u8])>
    ensures { MatchOption result (lines text.now ≡ [])
        (λ parts. IsFirstLine parts.0.now parts.1.now text.now) }
{
    match end_of_line(text) {
        Some(end) => Some((without_return(&text[..end]), &text[end + 1..])),
        None => {
            if text.is_empty() {
                return None;
            }
            Some((text, &[]))
        }
    }
}

// What the lines say, with one more that stands there.
fn extended(alloc: Global, draft: Draft, line: &[u8]) -> Result<Draft, LineFault>
    ensures { Tells (with_text draft line.now) result }
{
    let line = line_in(alloc, line)?;
    draft.with_line(line)
}

// After the last line.
fn finished(draft: Draft, place: u64) -> Result<Pipeline, SpecFault>
    ensures { TellsPipeline (at_place place (whole draft)) result }
{
    match draft.into_pipeline() {
        Ok(pipeline) => Ok(pipeline),
        Err(cause) => Err(fault_of_line(place, LineFault::Refused(cause))),
    }
}

/// Reads the text of a pipeline: its meaning, or its first refused line with the first cause.
///
/// Each byte is looked at a few times. Of the text the pipeline keeps copies of the words that a
/// stage or the guard compares with, and no more.
pub fn parse_pipeline(alloc: Global, bytes: &[u8]) -> Result<Pipeline, SpecFault>
    ensures { TellsPipeline (reading_of bytes.now) result }
{
    let mut draft = Draft::new(alloc);
    let mut rest = bytes;
    let mut place = 0;
    'lines: while let Some((line, after)) = first_line(rest) {
        draft = match extended(alloc, draft, line) {
            Ok(longer) => longer,
            Err(fault) => return Err(fault_of_line(place, fault)),
        };
        rest = after;
        place += 1;
    }
    finished(draft, place)
}

#[cfg(test)]
mod tests;

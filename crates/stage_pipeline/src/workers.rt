// A worker: it reads its joint, does its stage, and writes on what goes on.
ghost use Rattle.std.specs.Prelude.{◌≡◌, ◌+◌, ◌<◌, ◌≤◌, ◌-◌, ◌++◌, ◌∷◌, [], ℕ, true, false, None, Some, length, slice_get};
ghost use Rattle.channel_core.specs.Marks.{fault_number};
ghost use Rattle.channel_flow.specs.Ends.{is_closed, is_closed_with};
ghost use Rattle.ho_base.specs.Marks.{Mark};
ghost use Rattle.record_lang.specs.Marks.{mark_of};
ghost use Rattle.record_lang.specs.declared.outcomes.Outcome.{Outcome};
ghost use Rattle.record_lang.specs.declared.pipelines.Stage.{Stage};
ghost use Rattle.joint_reports.specs.Through.{says};
ghost use Rattle.stage_pipeline.specs.Works.{IfEnded, IfMore, IsNewTo, KeepsPlace, KeepsPlaceTo, PassesOn, Sends, WorksOff, counts};

use crate::gauge::{Inlet, Outlet};
use channel_wait::{ReadEnd, WriteEnd, read_without_token, write_without_token};
use channels::{ReadReply, Reader, Writer};
use ho_base::{Fault, Item};
use ho_io::Gate;
use pauses::Pause;
use record_lang::{Outcome, Pipeline, Record, apply_stage};
use std::alloc::Global;
use std::sync::Wait;

/// What a worker is started with. The last stage has nothing to write to.
#[derive(Drop)]
pub(crate) struct Job<'c> {
    pub(crate) stage: u32,
    /// Its number at the gate.
    pub(crate) number: u32,
    /// How full its joint is, and the next one.
    pub(crate) from: Inlet<'c>,
    pub(crate) to: Outlet<'c>,
    pub(crate) reader: Reader<'c, Record>,
    pub(crate) writer: Option<Writer<'c, Record>>,
}

/// What a worker hands back.
#[derive(Drop)]
pub(crate) struct WorkerEnd<'c> {
    pub(crate) reader: Reader<'c, Record>,
    pub(crate) writer: Option<Writer<'c, Record>>,
    /// The outcomes that ended at its stage.
    pub(crate) over: Vec<Outcome>,
    /// The numbers of the records that its writes dropped.
    pub(crate) lost: Vec<u64>,
    /// The fault that it read at the end of its joint.
    pub(crate) fault: Option<Fault>,
    /// It worked off all that it read. Else it found no memory.
    pub(crate) whole: bool,
}

/// How a turn of a worker ended.
#[derive(Drop)]
pub(crate) enum Turn {
    More,
    /// The joint was completed with this fault, and has no item left.
    Ended(Option<Fault>),
    /// There was no memory.
    GaveUp,
}

/// The turns of a worker at the gate.
#[derive(Drop)]
struct Turns<'g, G: Gate> {
    gate: &'g G,
    worker: u32,
    turn: u64,
    from: Inlet<'g>,
    to: Outlet<'g>,
}

impl<'g, G: Gate> Turns<'g, G> {
    // Passes the gate.
    fn next<R: Wait>(&mut self, rt: &R) {
        self.gate.at(rt, self.worker, self.turn);
        self.turn = self.turn.saturating_add(1);
    }
}

// Writes a record, and keeps the number of one that was dropped.
#[tactic(auto, using(crate::proofs::Turns::keeps))]
pub(crate) fn send<R: Wait>(
    rt: &R,
    writer: &mut Writer<'_, Record>,
    to: &mut Outlet<'_>,
    row: Record,
    lost: &mut Vec<u64>,
) -> Turn
    ensures same { KeepsPlace writer.old writer.new }
    ensures sent { IfMore result (Sends (mark_of row) writer.old writer.new lost.old.items lost.new.items) }
    ensures open { IfEnded result (λ fault. ⊥) }
{
    to.await_room(rt);
    match write_without_token(rt, writer, row) {
        Ok(WriteEnd::Done) => {
            to.wrote();
            Turn::More
        }
        Ok(WriteEnd::Dropped(other)) => match lost.push(other.number()) {
            Ok(()) => Turn::More,
            Err(_) => Turn::GaveUp,
        },
        Ok(WriteEnd::Refused(_, _)) => Turn::More,
        Ok(WriteEnd::Cancelled(_)) => unreachable!(),
        Err(_) => Turn::GaveUp,
    }
}

// Keeps an outcome that ends here.
fn keep(outcome: Outcome, over: &mut Vec<Outcome>) -> Turn
    ensures kept { IfMore result (over.new.items ≡ over.old.items ++ outcome ∷ []) }
    ensures open { IfEnded result (λ fault. ⊥) }
{
    match over.push(outcome) {
        Ok(()) => Turn::More,
        Err(_) => Turn::GaveUp,
    }
}

// Writes a record on, or keeps its outcome.
#[tactic(auto, using(crate::proofs::Turns::keeps_same_to))]
fn pass_on<G: Gate, R: Wait>(
    rt: &R,
    outcome: Outcome,
    turns: &mut Turns<'_, G>,
    writer: &mut Option<Writer<'_, Record>>,
    over: &mut Vec<Outcome>,
    lost: &mut Vec<u64>,
) -> Turn
    ensures same { KeepsPlaceTo writer.old writer.new }
    ensures passed { IfMore result (PassesOn outcome writer.old writer.new over.old.items over.new.items lost.old.items lost.new.items) }
    ensures open { IfEnded result (λ fault. ⊥) }
{
    let Some(to) = writer.as_mut() else {
        return keep(outcome, over);
    };
    match outcome {
        Outcome::Result(row) => {
            turns.next(rt);
            send(rt, to, &mut turns.to, row, lost)
        }
        Outcome::Refused {
            number,
            stage,
            cause,
        } => keep(
            Outcome::Refused {
                number,
                stage,
                cause,
            },
            over,
        ),
        Outcome::Filtered { number } => keep(Outcome::Filtered { number }, over),
    }
}

// What a worker works with.
#[derive(Drop)]
struct Desk<'c> {
    reader: Reader<'c, Record>,
    writer: Option<Writer<'c, Record>>,
    over: Vec<Outcome>,
    lost: Vec<u64>,
}

// Reads one record, does the stage, and passes on what comes of it.
fn take_one<G: Gate, R: Wait>(
    rt: &R,
    pipeline: &Pipeline,
    stage: u32,
    turns: &mut Turns<'_, G>,
    desk: &mut Desk<'_>,
) -> Turn
    requires { (1 ≤ stage) × (stage ≤ length pipeline.now.stages) }
    ensures same { KeepsPlace desk.old.reader desk.new.reader × KeepsPlaceTo desk.old.writer desk.new.writer }
    ensures more { IfMore result ((what : Stage) → slice_get pipeline.now.stages (stage - 1) ≡ Some what
        → WorksOff (says what stage) desk.old.reader desk.old.writer desk.old.over.items desk.old.lost.items
        → WorksOff (says what stage) desk.new.reader desk.new.writer desk.new.over.items desk.new.lost.items) }
    ensures untold { IfMore result (counts is_closed desk.new.reader ≡ counts is_closed desk.old.reader) }
    ensures ended { IfEnded result (λ fault. (does : Mark → Outcome)
        → WorksOff does desk.old.reader desk.old.writer desk.old.over.items desk.old.lost.items
        → WorksOff does desk.new.reader desk.new.writer desk.new.over.items desk.new.lost.items) }
    ensures told { IfEnded result (λ fault. (counts is_closed desk.new.reader ≡ counts is_closed desk.old.reader + 1)
        × (0 < counts (is_closed_with (fault_number fault)) desk.new.reader)) }
{
    turns.next(rt);
    turns.from.await_record(rt);
    let row = match read_without_token(rt, &mut desk.reader) {
        Ok(ReadEnd::Item(row)) => row,
        Ok(ReadEnd::Closed(fault)) => return Turn::Ended(fault),
        Ok(ReadEnd::Cancelled) => unreachable!(),
        Err(_) => return Turn::GaveUp,
    };
    turns.from.took();
    match apply_stage(pipeline, stage, row) {
        Ok(outcome) => pass_on(
            rt,
            outcome,
            turns,
            &mut desk.writer,
            &mut desk.over,
            &mut desk.lost,
        ),
        Err(_) => Turn::GaveUp,
    }
}

// Takes what is left, so that nobody waits for room.
#[tactic(auto, using(crate::proofs::Turns::keeps, crate::proofs::Turns::keeps_same, crate::proofs::Turns::keeps_on))]
fn drain<G: Gate, R: Wait>(rt: &R, turns: &mut Turns<'_, G>, reader: &mut Reader<'_, Record>)
    ensures { KeepsPlace reader.old reader.new }
{
    let mut pause = Pause::new();
    for _ in rt.forever() {
        turns.next(rt);
        match reader.try_read(rt) {
            ReadReply::Closed(_) => return,
            ReadReply::Item(_) => {
                turns.from.took();
                pause.reset();
            }
            ReadReply::Empty => pause.take(rt),
        }
    }
    unreachable!()
}

// What a worker hands back that found no memory: first it takes what is left in its joint.
#[tactic(auto, using(crate::proofs::Turns::keeps_same))]
fn give_up<'c, G: Gate, R: Wait>(
    rt: &R,
    turns: &mut Turns<'_, G>,
    mut desk: Desk<'c>,
) -> WorkerEnd<'c>
    ensures same { KeepsPlace desk.entry.reader result.reader × (result.writer ≡ desk.entry.writer) }
    ensures whole { result.whole ≡ false }
{
    drain(rt, turns, &mut desk.reader);
    end_of(desk, None, false)
}

// What a worker hands back, from its desk.
fn end_of<'c>(desk: Desk<'c>, fault: Option<Fault>, whole: bool) -> WorkerEnd<'c>
    ensures reader { result.reader ≡ desk.entry.reader }
    ensures writer { result.writer ≡ desk.entry.writer }
    ensures over { result.over.items ≡ desk.entry.over.items }
    ensures lost { result.lost.items ≡ desk.entry.lost.items }
    ensures fault { result.fault ≡ fault }
    ensures whole { result.whole ≡ whole }
{
    let Desk {
        reader,
        writer,
        over,
        lost,
    } = desk;
    WorkerEnd {
        reader,
        writer,
        over,
        lost,
        fault,
        whole,
    }
}

/// Works off what its joint gives, up to its end. It passes the gate before each call on a joint.
///
/// Without memory it takes no further record to its stage: it reads its joint up to the end, lets go
/// what it reads, and is not whole.
pub(crate) fn work<'c, G: Gate, R: Wait>(
    rt: &R,
    alloc: Global,
    pipeline: &Pipeline,
    gate: &'c G,
    job: Job<'c>,
) -> WorkerEnd<'c>
    requires stage { (1 ≤ job.stage) × (job.stage ≤ length pipeline.now.stages) }
    requires new { (job.reader.seen ≡ []) × IsNewTo job.writer }
    ensures same { KeepsPlace job.entry.reader result.reader × KeepsPlaceTo job.entry.writer result.writer }
    ensures worked { result.whole ≡ true → (what : Stage) → slice_get pipeline.entry.now.stages (job.entry.stage - 1) ≡ Some what
        → WorksOff (says what job.entry.stage) result.reader result.writer result.over.items result.lost.items }
    ensures told { result.whole ≡ true → (counts is_closed result.reader ≡ 1) × (0 < counts (is_closed_with (fault_number result.fault)) result.reader) }
{
    let Job {
        stage,
        number,
        from,
        to,
        reader,
        writer,
    } = job;
    let mut turns = Turns {
        gate,
        worker: number,
        turn: 0,
        from,
        to,
    };
    let mut desk = Desk {
        reader,
        writer,
        over: Vec::new(alloc),
        lost: Vec::new(alloc),
    };
    for _ in rt.forever() {
        match take_one(rt, pipeline, stage, &mut turns, &mut desk) {
            Turn::More => {}
            Turn::Ended(fault) => return end_of(desk, fault, true),
            Turn::GaveUp => return give_up(rt, &mut turns, desk),
        }
    }
    unreachable!()
}

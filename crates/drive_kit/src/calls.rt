// The words of calls: one table for each kind of object, read and written by.
ghost use Rattle.std.specs.Prelude.{◌≡◌, ◌++◌, ◌∷◌, [], IfOk, IfSome, OnOk};
ghost use Rattle.csv.specs.Records.{fields_of, partial_of};
ghost use Rattle.drive_kit.specs.Calls.{IsAmong, IsInRange, argument_of, bare, call_with, called, calls_of, kind_of, name_for, name_of, named, word_of};

use crate::causes::Cause;
use crate::numbers::fault_from;
use csv::ByteRecord;
use ho_base::{NoMemory, word_number};
use ho_model::{Call, Object};
use text_rows::{push_bytes, push_number};

/// What decides which calls an object has, and which replies.
#[derive(Clone, Copy, Debug, PartialEq, Eq)]
pub(crate) enum Kind {
    Queue,
    Bag,
    Channel,
    Blocking,
}

/// The name of a call, without its argument.
#[derive(Clone, Copy, Debug, PartialEq, Eq)]
pub(crate) enum CallName {
    Enq,
    Deq,
    Peek,
    Count,
    Snap,
    Add,
    Take,
    Write,
    Read,
    BeginWrite,
    BeginRead,
    BeginLookWrite,
    BeginLookRead,
    Poll,
    Cancel,
    CompleteWith,
    Completed,
    CompleteAdding,
    AddingCompleted,
}

const QUEUE_CALLS: &[CallName] = &[
    CallName::Enq,
    CallName::Deq,
    CallName::Peek,
    CallName::Count,
    CallName::Snap,
];

const BAG_CALLS: &[CallName] = &[
    CallName::Add,
    CallName::Take,
    CallName::Count,
    CallName::Snap,
];

const CHANNEL_CALLS: &[CallName] = &[
    CallName::Write,
    CallName::BeginWrite,
    CallName::Read,
    CallName::BeginRead,
    CallName::BeginLookRead,
    CallName::BeginLookWrite,
    CallName::Poll,
    CallName::Cancel,
    CallName::CompleteWith,
    CallName::Completed,
    CallName::Peek,
    CallName::Count,
];

const BLOCKING_CALLS: &[CallName] = &[
    CallName::Add,
    CallName::Take,
    CallName::CompleteAdding,
    CallName::AddingCompleted,
    CallName::Completed,
    CallName::Count,
    CallName::Snap,
];

impl Kind {
    pub(crate) fn of(object: &Object) -> Kind
        ensures { result ≡ kind_of object.now }
    {
        match object {
            Object::Queue { .. } => Kind::Queue,
            Object::Bag => Kind::Bag,
            Object::Unbounded | Object::Bounded { .. } | Object::Prioritized => Kind::Channel,
            Object::Blocking { .. } => Kind::Blocking,
        }
    }

    // The calls that it has.
    fn calls(self) -> &'static [CallName]
        ensures { result.now ≡ calls_of self }
    {
        match self {
            Kind::Queue => QUEUE_CALLS,
            Kind::Bag => BAG_CALLS,
            Kind::Channel => CHANNEL_CALLS,
            Kind::Blocking => BLOCKING_CALLS,
        }
    }
}

impl CallName {
    fn of(call: Call) -> CallName
        ensures { result ≡ name_of call }
    {
        match call {
            Call::Enq(_) => CallName::Enq,
            Call::Deq => CallName::Deq,
            Call::Peek => CallName::Peek,
            Call::Count => CallName::Count,
            Call::Snap => CallName::Snap,
            Call::Add(_) => CallName::Add,
            Call::Take => CallName::Take,
            Call::Write(_) => CallName::Write,
            Call::Read => CallName::Read,
            Call::BeginWrite(_) => CallName::BeginWrite,
            Call::BeginRead => CallName::BeginRead,
            Call::BeginLookWrite => CallName::BeginLookWrite,
            Call::BeginLookRead => CallName::BeginLookRead,
            Call::Poll(_) => CallName::Poll,
            Call::Cancel(_) => CallName::Cancel,
            Call::CompleteWith(_) => CallName::CompleteWith,
            Call::Completed => CallName::Completed,
            Call::CompleteAdding => CallName::CompleteAdding,
            Call::AddingCompleted => CallName::AddingCompleted,
        }
    }

    // The word that stands for it.
    fn word(self) -> &'static [u8]
        ensures { result.now ≡ word_of self }
    {
        match self {
            CallName::Enq => b"enq",
            CallName::Deq => b"deq",
            CallName::Peek => b"peek",
            CallName::Count => b"count",
            CallName::Snap => b"snap",
            CallName::Add => b"add",
            CallName::Take => b"take",
            CallName::Write => b"write",
            CallName::Read => b"read",
            CallName::BeginWrite => b"begin-write",
            CallName::BeginRead => b"begin-read",
            CallName::BeginLookWrite => b"begin-look-write",
            CallName::BeginLookRead => b"begin-look-read",
            CallName::Poll => b"poll",
            CallName::Cancel => b"cancel",
            CallName::CompleteWith | CallName::CompleteAdding => b"complete",
            CallName::Completed => b"completed",
            CallName::AddingCompleted => b"adding-completed",
        }
    }
}

// The first of these calls that has this word.
fn first_named(calls: &[CallName], word: &[u8]) -> Option<CallName>
    ensures { result ≡ named calls.now word.now }
{
    for name in calls {
        if word == name.word() {
            return Some(*name);
        }
    }
    None
}

// A call that takes no argument.
fn bare(call: Call, argument: &[u8]) -> Option<Call>
    ensures { result ≡ bare call argument.now }
{
    if argument.is_empty() {
        Some(call)
    } else {
        None
    }
}

// The call of this name with this argument, which is empty where there is none.
#[tactic(auto, unfolding(crate::specs::Calls::call_with))]
fn with_argument(name: CallName, argument: &[u8]) -> Option<Call>
    ensures call { result ≡ call_with name argument.now }
    ensures name { IfSome result (λ call. name_of call ≡ name) }
    ensures in_range { IfSome result IsInRange }
{
    match name {
        CallName::Enq => Some(Call::Enq(word_number(argument)?)),
        CallName::Deq => bare(Call::Deq, argument),
        CallName::Peek => bare(Call::Peek, argument),
        CallName::Count => bare(Call::Count, argument),
        CallName::Snap => bare(Call::Snap, argument),
        CallName::Add => Some(Call::Add(word_number(argument)?)),
        CallName::Take => bare(Call::Take, argument),
        CallName::Write => Some(Call::Write(word_number(argument)?)),
        CallName::Read => bare(Call::Read, argument),
        CallName::BeginWrite => Some(Call::BeginWrite(word_number(argument)?)),
        CallName::BeginRead => bare(Call::BeginRead, argument),
        CallName::BeginLookWrite => bare(Call::BeginLookWrite, argument),
        CallName::BeginLookRead => bare(Call::BeginLookRead, argument),
        CallName::Poll => Some(Call::Poll(word_number(argument)?)),
        CallName::Cancel => Some(Call::Cancel(word_number(argument)?)),
        CallName::CompleteWith => Some(Call::CompleteWith(fault_from(argument)?)),
        CallName::Completed => bare(Call::Completed, argument),
        CallName::CompleteAdding => bare(Call::CompleteAdding, argument),
        CallName::AddingCompleted => bare(Call::AddingCompleted, argument),
    }
}

// The name that a word stands for among the calls of such an object.
pub(crate) fn name_in(kind: Kind, word: &[u8]) -> Result<CallName, Cause>
    ensures name { result ≡ name_for kind word.now }
    ensures among { IfOk result (IsAmong kind) }
{
    first_named(kind.calls(), word).ok_or(Cause::UnknownCall)
}

// The call of this name with this argument, which is empty where there is none.
pub(crate) fn call_in(name: CallName, argument: &[u8]) -> Result<Call, Cause>
    ensures call { result ≡ called name argument.now }
    ensures name { IfOk result (λ call. name_of call ≡ name) }
    ensures in_range { IfOk result IsInRange }
{
    with_argument(name, argument).ok_or(Cause::BadArgument)
}

// Writes the argument of a call, an empty field where it has none.
#[tactic(auto, unfolding(crate::specs::Calls::argument_of))]
fn push_argument(row: &mut ByteRecord, call: Call) -> Result<(), NoMemory>
    requires { partial_of row.old ≡ [] }
    ensures fields { OnOk result (fields_of row.new ≡ fields_of row.old ++ argument_of call ∷ []) }
    ensures partial { OnOk result (partial_of row.new ≡ []) }
{
    match call {
        Call::Enq(value) => push_number(row, value),
        Call::Add(value) => push_number(row, value),
        Call::Write(value) => push_number(row, value),
        Call::BeginWrite(value) => push_number(row, value),
        Call::Poll(wait) => push_number(row, wait),
        Call::Cancel(wait) => push_number(row, wait),
        Call::CompleteWith(fault) => push_number(row, u64::from(fault)),
        _ => push_bytes(row, b""),
    }
}

// Writes the word of a call and its argument.
pub(crate) fn push_call(row: &mut ByteRecord, call: Call) -> Result<(), NoMemory>
    requires { partial_of row.old ≡ [] }
    ensures fields { OnOk result (fields_of row.new ≡ fields_of row.old ++ word_of (name_of call) ∷ argument_of call ∷ []) }
    ensures partial { OnOk result (partial_of row.new ≡ []) }
{
    push_bytes(row, CallName::of(call).word())?;
    push_argument(row, call)
}

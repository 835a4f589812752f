// The words of replies.
ghost use Rattle.std.specs.Prelude.{◌≡◌, ◌++◌, ◌∷◌, [], codes, decimal, map, OnOk};
ghost use Rattle.std.specs.Option.{ok_or, option_map};
ghost use Rattle.ho_model.specs.declared.histories.Reply.TheVariants.{Numbers};
ghost use Rattle.csv.specs.Records.{fields_of, partial_of};
ghost use Rattle.drive_kit.specs.Causes.{Tells};
ghost use Rattle.drive_kit.specs.Replies.{dropped_of, flag_field, flag_of, numbers_of, pair_reply, reply_fields, reply_of, reply_to, short_reply, triple_reply, word_reply};
ghost use Rattle.drive_kit.specs.declared.causes.Cause.TheVariants.{BadReply};

use crate::answers::has_reply;
use crate::calls::Kind;
use crate::causes::{Cause, RowFault};
use crate::numbers::{caller_from, fault_from};
use csv::ByteRecord;
use ho_base::{NoMemory, word_number};
use ho_model::{Call, Items, Reply};
use std::alloc::Global;
use text_rows::{push_bytes, push_number};

// A reply of one word.
#[tactic(auto, unfolding(crate::specs::Replies::word_reply))]
fn word_reply_in(said: &[u8]) -> Option<Reply>
    ensures { result ≡ word_reply said.now }
{
    if said == b"done".as_slice() {
        Some(Reply::Done)
    } else if said == b"full".as_slice() {
        Some(Reply::Full)
    } else if said == b"empty".as_slice() {
        Some(Reply::Empty)
    } else if said == b"ended".as_slice() {
        Some(Reply::Ended)
    } else if said == b"closed".as_slice() {
        Some(Reply::Closed)
    } else if said == b"cancelled".as_slice() {
        Some(Reply::Cancelled)
    } else if said == b"unknown".as_slice() {
        Some(Reply::Unknown)
    } else if said == b"yes".as_slice() {
        Some(Reply::Flag(true))
    } else if said == b"no".as_slice() {
        Some(Reply::Flag(false))
    } else {
        None
    }
}

// Whether what was looked for is there.
#[tactic(auto, unfolding(crate::specs::Replies::flag_of))]
fn flag_in(field: &[u8]) -> Option<bool>
    ensures { result ≡ flag_of field.now }
{
    if field == b"1".as_slice() {
        Some(true)
    } else if field == b"0".as_slice() {
        Some(false)
    } else {
        None
    }
}

// A reply of a word and one field.
#[tactic(auto, unfolding(crate::specs::Replies::pair_reply))]
fn pair_reply_in(said: &[u8], field: &[u8]) -> Option<Reply>
    ensures { result ≡ pair_reply said.now field.now }
{
    if said == b"item".as_slice() {
        Some(Reply::Item(word_number(field)?))
    } else if said == b"count".as_slice() {
        Some(Reply::Count(word_number(field)?))
    } else if said == b"waiting".as_slice() {
        Some(Reply::Waiting(word_number(field)?))
    } else if said == b"cancelled".as_slice() {
        Some(Reply::CancelledWrite(word_number(field)?))
    } else if said == b"closed".as_slice() {
        Some(Reply::ClosedWith(fault_from(field)?))
    } else if said == b"faulted".as_slice() {
        Some(Reply::Faulted(fault_from(field)?))
    } else if said == b"ready".as_slice() {
        Some(Reply::Ready(flag_in(field)?))
    } else {
        None
    }
}

// A write that was done, with the item that it dropped.
fn dropped_in(field: &[u8], item: &[u8]) -> Option<Reply>
    ensures { result ≡ dropped_of field.now item.now }
{
    if field == b"dropped".as_slice() {
        Some(Reply::Dropped(word_number(item)?))
    } else {
        None
    }
}

// A reply of a word and two fields.
#[tactic(auto, unfolding(crate::specs::Replies::triple_reply))]
fn triple_reply_in(said: &[u8], first: &[u8], second: &[u8]) -> Option<Reply>
    ensures { result ≡ triple_reply said.now first.now second.now }
{
    if said == b"done".as_slice() {
        dropped_in(first, second)
    } else if said == b"item".as_slice() {
        let item = word_number(first)?;
        let from = caller_from(second)?;
        Some(Reply::ItemFrom(item, from))
    } else if said == b"refused".as_slice() {
        let fault = fault_from(first)?;
        let item = word_number(second)?;
        Some(Reply::Refused(fault, item))
    } else {
        None
    }
}

// A reply that is no list of items.
fn short_reply_in(said: &[u8], more: &[&[u8]]) -> Option<Reply>
    ensures { result ≡ short_reply said.now (map (λ f. f.now) more.now) }
{
    match more {
        [] => word_reply_in(said),
        [field] => pair_reply_in(said, field),
        [first, second] => triple_reply_in(said, first, second),
        _ => None,
    }
}

// The items of a snapshot.
fn items_in(alloc: Global, fields: &[&[u8]]) -> Result<Reply, RowFault>
    ensures { Tells (ok_or (option_map Numbers (numbers_of (map (λ f. f.now) fields.now))) BadReply) result }
{
    let mut numbers = Vec::with_capacity(alloc, fields.len())?;
    for field in fields {
        let Some(number) = word_number(field) else {
            return Err(RowFault::Refused(Cause::BadReply));
        };
        numbers.push(number)?;
    }
    Ok(Reply::Numbers(Items::from_vec(numbers)))
}

// The reply of these fields.
#[tactic(auto, unfolding(crate::specs::Replies::reply_of))]
fn reply_in(alloc: Global, said: &[u8], more: &[&[u8]]) -> Result<Reply, RowFault>
    ensures { Tells (ok_or (reply_of said.now (map (λ f. f.now) more.now)) BadReply) result }
{
    if said == b"items".as_slice() {
        return items_in(alloc, more);
    }
    match short_reply_in(said, more) {
        Some(reply) => Ok(reply),
        None => Err(RowFault::Refused(Cause::BadReply)),
    }
}

// The reply of these fields to a call.
pub(crate) fn reply_to_in(
    alloc: Global,
    kind: Kind,
    call: Call,
    said: &[u8],
    more: &[&[u8]],
) -> Result<Reply, RowFault>
    ensures { Tells (reply_to kind call said.now (map (λ f. f.now) more.now)) result }
{
    let reply = reply_in(alloc, said, more)?;
    if !has_reply(kind, call, &reply) {
        return Err(RowFault::Refused(Cause::BadReply));
    }
    Ok(reply)
}

// Writes a word and a number.
fn push_pair(row: &mut ByteRecord, word: &[u8], number: u64) -> Result<(), NoMemory>
    requires { partial_of row.old ≡ [] }
    ensures fields { OnOk result (fields_of row.new ≡ fields_of row.old ++ word.now ∷ decimal number ∷ []) }
    ensures partial { OnOk result (partial_of row.new ≡ []) }
{
    push_bytes(row, word)?;
    push_number(row, number)
}

// Writes the items of a snapshot.
fn push_items(row: &mut ByteRecord, items: &Items) -> Result<(), NoMemory>
    requires { partial_of row.old ≡ [] }
    ensures fields { OnOk result (fields_of row.new ≡ fields_of row.old ++ codes "items" ∷ map decimal items.now) }
    ensures partial { OnOk result (partial_of row.new ≡ []) }
{
    push_bytes(row, b"items")?;
    for number in items.as_slice() {
        push_number(row, *number)?;
    }
    Ok(())
}

// Writes a reply of a word and two numbers.
fn push_triple(row: &mut ByteRecord, word: &[u8], first: u64, second: u64) -> Result<(), NoMemory>
    requires { partial_of row.old ≡ [] }
    ensures fields { OnOk result (fields_of row.new ≡ fields_of row.old ++ word.now ∷ decimal first ∷ decimal second ∷ []) }
    ensures partial { OnOk result (partial_of row.new ≡ []) }
{
    push_pair(row, word, first)?;
    push_number(row, second)
}

// Writes a write that was done, with the item that it dropped.
fn push_dropped(row: &mut ByteRecord, item: u64) -> Result<(), NoMemory>
    requires { partial_of row.old ≡ [] }
    ensures fields { OnOk result (fields_of row.new ≡ fields_of row.old ++ codes "done" ∷ codes "dropped" ∷ decimal item ∷ []) }
    ensures partial { OnOk result (partial_of row.new ≡ []) }
{
    push_bytes(row, b"done")?;
    push_pair(row, b"dropped", item)
}

// Writes whether what was looked for is there.
fn push_ready(row: &mut ByteRecord, flag: bool) -> Result<(), NoMemory>
    requires { partial_of row.old ≡ [] }
    ensures fields { OnOk result (fields_of row.new ≡ fields_of row.old ++ codes "ready" ∷ flag_field flag ∷ []) }
    ensures partial { OnOk result (partial_of row.new ≡ []) }
{
    push_bytes(row, b"ready")?;
    match flag {
        true => push_bytes(row, b"1"),
        false => push_bytes(row, b"0"),
    }
}

// Writes a reply.
#[tactic(auto, unfolding(crate::specs::Replies::reply_fields))]
pub(crate) fn push_reply(row: &mut ByteRecord, reply: &Reply) -> Result<(), NoMemory>
    requires { partial_of row.old ≡ [] }
    ensures fields { OnOk result (fields_of row.new ≡ fields_of row.old ++ reply_fields reply.now) }
    ensures partial { OnOk result (partial_of row.new ≡ []) }
{
    match reply {
        Reply::Done => push_bytes(row, b"done"),
        Reply::Dropped(item) => push_dropped(row, *item),
        Reply::Full => push_bytes(row, b"full"),
        Reply::Refused(fault, item) => push_triple(row, b"refused", u64::from(*fault), *item),
        Reply::Item(item) => push_pair(row, b"item", *item),
        Reply::ItemFrom(item, from) => push_triple(row, b"item", *item, u64::from(*from)),
        Reply::Empty => push_bytes(row, b"empty"),
        Reply::Ended => push_bytes(row, b"ended"),
        Reply::Closed => push_bytes(row, b"closed"),
        Reply::ClosedWith(fault) => push_pair(row, b"closed", u64::from(*fault)),
        Reply::Count(count) => push_pair(row, b"count", *count),
        Reply::Numbers(items) => push_items(row, items),
        Reply::Waiting(wait) => push_pair(row, b"waiting", *wait),
        Reply::Ready(flag) => push_ready(row, *flag),
        Reply::Faulted(fault) => push_pair(row, b"faulted", u64::from(*fault)),
        Reply::Cancelled => push_bytes(row, b"cancelled"),
        Reply::CancelledWrite(item) => push_pair(row, b"cancelled", *item),
        Reply::Unknown => push_bytes(row, b"unknown"),
        Reply::Flag(true) => push_bytes(row, b"yes"),
        Reply::Flag(false) => push_bytes(row, b"no"),
    }
}

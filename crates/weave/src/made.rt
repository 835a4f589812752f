// What a caller made.
ghost use Rattle.std.specs.Prelude.{◌≡◌, IfOk};
ghost use Rattle.weave.specs.Parts.{entry_told};

use ho_base::{NoMemory, Receipt};
use ho_model::{Call, Entry, Items, Reply};
use std::alloc::Global;

/// One call of a caller, with its reply and its receipt.
#[derive(Debug, Drop)]
pub struct Made {
    pub call: Call,
    pub reply: Reply,
    pub receipt: Receipt,
}

// A reply like this one. Only a snapshot's items take memory.
fn same_reply(alloc: Global, reply: &Reply) -> Result<Reply, NoMemory>
    ensures { IfOk result (λ same. same ≡ reply.now) }
{
    match reply {
        Reply::Numbers(items) => {
            let numbers = Vec::from_slice(alloc, items.as_slice())?;
            Ok(Reply::Numbers(Items::from_vec(numbers)))
        }
        Reply::Done => Ok(Reply::Done),
        Reply::Dropped(item) => Ok(Reply::Dropped(*item)),
        Reply::Full => Ok(Reply::Full),
        Reply::Refused(fault, item) => Ok(Reply::Refused(*fault, *item)),
        Reply::Item(item) => Ok(Reply::Item(*item)),
        Reply::ItemFrom(item, from) => Ok(Reply::ItemFrom(*item, *from)),
        Reply::Empty => Ok(Reply::Empty),
        Reply::Ended => Ok(Reply::Ended),
        Reply::Closed => Ok(Reply::Closed),
        Reply::ClosedWith(fault) => Ok(Reply::ClosedWith(*fault)),
        Reply::Count(count) => Ok(Reply::Count(*count)),
        Reply::Waiting(wait) => Ok(Reply::Waiting(*wait)),
        Reply::Ready(flag) => Ok(Reply::Ready(*flag)),
        Reply::Faulted(fault) => Ok(Reply::Faulted(*fault)),
        Reply::Cancelled => Ok(Reply::Cancelled),
        Reply::CancelledWrite(item) => Ok(Reply::CancelledWrite(*item)),
        Reply::Unknown => Ok(Reply::Unknown),
        Reply::Flag(flag) => Ok(Reply::Flag(*flag)),
    }
}

// The entry of a caller's call.
pub(crate) fn entry_of(alloc: Global, caller: u32, made: &Made) -> Result<Entry, NoMemory>
    ensures { IfOk result (λ e. e ≡ entry_told (record { caller = caller; made = made.now })) }
{
    let reply = same_reply(alloc, &made.reply)?;
    Ok(Entry {
        caller,
        call: made.call,
        reply,
    })
}

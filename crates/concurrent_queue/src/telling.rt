// The machine under the shared queue.
ghost use Rattle.std.specs.Prelude.{◌≡◌, IfOk, []};
ghost use Rattle.ho_model.specs.Histories.{StandsFor};
ghost use Rattle.ho_base.specs.Marks.{number_priority};

use crate::calls::{QueueCall, QueueReply};
use crate::machine::QueueMachine;
use ho_base::{NoMemory, Unpaid};
use ho_model::{Machine, Tally};
use std::alloc::Global;

/// A queue that tells, with each reply, how many items were enqueued and taken before.
#[derive(Drop)]
pub struct TellingQueue {
    queue: QueueMachine,
}

impl TellingQueue {
    ghost use Rattle.concurrent_queue.specs.Telling.{IsEmptyQueue};

    /// A queue without items, with room for so many.
    pub fn new(alloc: Global, room: u32, first_len: u32) -> Result<TellingQueue, NoMemory>
        ensures { IfOk result (λ q. IsEmptyQueue room first_len q) }
    {
        let queue = QueueMachine::with_first_length(alloc, room, first_len)?;
        Ok(TellingQueue { queue })
    }
}

impl Machine for TellingQueue {
    ghost use Rattle.ho_model.specs.declared.objects.Object.TheVariants as object;
    ghost use Rattle.concurrent_queue.specs.Calls.{call_mark};
    ghost use Rattle.concurrent_queue.specs.Kept.{state_of, may_want};
    ghost use Rattle.concurrent_queue.specs.Telling.{told_mark, tells};

    type Call = QueueCall;

    type Reply = (QueueReply, Tally);

    ghost object = { λ q. object.Queue q.queue.room q.queue.first_len };

    ghost callers = { λ q. 64 };

    ghost state = { λ q. state_of q.queue };

    ghost steps = { λ q. q.queue.steps };

    ghost tally = { λ q. q.queue.tally };

    ghost priority = { number_priority };

    ghost call_mark = { call_mark };

    ghost reply_mark = { told_mark };

    ghost fits = { tells };

    ghost may_want = { may_want };

    fn step(
        &mut self,
        caller: u32,
        call: QueueCall,
    ) -> Result<(QueueReply, Tally), Unpaid<QueueCall>> {
        let before = self.queue.tally();
        match self.queue.step(caller, call) {
            Ok(reply) => Ok((reply, before)),
            Err(unpaid) => Err(unpaid),
        }
    }
}

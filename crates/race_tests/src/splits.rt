// Passes that are split off, where a number is left.
ghost use Rattle.std.specs.Prelude.{◌≡◌, IfSome};
ghost use Rattle.concurrent_queue.specs.Queues.{IsOf};

use blocking_collection::BlockingCollection;
use channels::{Channel, Pass};
use concurrent_bag::{BagPass, ConcurrentBag};
use concurrent_queue::{ConcurrentQueue, QueuePass};

pub fn split_channel(channel: &Channel<u64>, pass: &mut Pass) -> Option<Pass>
    requires { pass.old.table ≡ channel.now }
    ensures kept { pass.new.table ≡ channel.now }
    ensures split { IfSome result (λ other. other.table ≡ channel.now) }
{
    if pass.has_spare() {
        Some(channel.split(pass))
    } else {
        None
    }
}

pub fn split_collection(collection: &BlockingCollection<u64>, pass: &mut Pass) -> Option<Pass>
    requires { pass.old.table ≡ collection.now }
    ensures kept { pass.new.table ≡ collection.now }
    ensures split { IfSome result (λ other. other.table ≡ collection.now) }
{
    if pass.has_spare() {
        Some(collection.split(pass))
    } else {
        None
    }
}

pub fn split_bag(bag: &ConcurrentBag<u64>, pass: &mut BagPass) -> Option<BagPass>
    requires { pass.old.table ≡ bag.now }
    ensures kept { pass.new.table ≡ bag.now }
    ensures split { IfSome result (λ other. other.table ≡ bag.now) }
{
    if pass.spare() == 0 {
        None
    } else {
        Some(bag.split(pass))
    }
}

pub fn split_queue(queue: &ConcurrentQueue, pass: &mut QueuePass) -> Option<QueuePass>
    requires { IsOf queue.now pass.old }
    ensures kept { IsOf queue.now pass.new }
    ensures split { IfSome result (λ other. IsOf queue.now other) }
{
    if pass.spare() == 0 {
        None
    } else {
        Some(queue.split(pass))
    }
}

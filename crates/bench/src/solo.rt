// One caller that writes and reads.
ghost use Rattle.std.specs.Prelude.{◌≡◌};

use crate::Trouble;
use channels::{Channel, ChannelCall, ChannelReply, Mode, Pass};
use races::nanoseconds_since;
use std::alloc::Global;
use std::sync::Wait;
use std::time::{Clock, Instant};

/// Writes a number and reads it.
fn write_and_read<R: Wait>(rt: &R, channel: &Channel<u64>, pass: &mut Pass, number: u64) -> bool
    requires { pass.old.table ≡ channel.now }
    ensures { pass.new.table ≡ channel.now }
{
    let written = channel.call(rt, pass, ChannelCall::Write(number));
    let read = channel.call(rt, pass, ChannelCall::Read);
    matches!(written, Ok((ChannelReply::Done, _)))
        && matches!(read, Ok((ChannelReply::Item(got), _)) if got == number)
}

/// Whether each number below `count` came back.
fn come_back<R: Wait>(rt: &R, channel: &Channel<u64>, pass: &mut Pass, count: u64) -> bool
    requires { pass.old.table ≡ channel.now }
{
    for number in 0..count {
        if !write_and_read(rt, channel, pass, number) {
            return false;
        }
    }
    true
}

/// How long one caller takes to write and read so many numbers, one after another.
pub fn nanoseconds<R: Wait + Clock>(rt: &R, alloc: Global, count: u64) -> Result<u64, Trouble> {
    let Ok((channel, mut pass)) = Channel::bounded(alloc, 1024, Mode::Wait, 1) else {
        return Err(Trouble::NoMemory);
    };
    let Ok(start) = Instant::now(rt) else {
        return Err(Trouble::NoClock);
    };
    if !come_back(rt, &channel, &mut pass, count) {
        return Err(Trouble::WrongNumbers);
    }
    nanoseconds_since(rt, start).ok_or(Trouble::NoClock)
}

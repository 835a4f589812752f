// What a writer and a reader are made of: a channel, and the pass by which a caller calls it.
ghost use Rattle.std.specs.Prelude.{◌≡◌};
ghost use Rattle.passes.specs.Calls.{IsSamePass};
ghost use Rattle.channels.specs.Calls.{Calls, Tries};

use crate::channel::Channel;
use crate::news::news_of;
use crate::sides::Side;
use crate::tries::{ChannelTry, channel_try};
use channel_core::{ChannelCall, ChannelReply};
use ho_base::{Item, Receipt, Unpaid};
use pauses::{Hears, Nap};
use std::marker::Model;
use std::sync::Wait;
use turn_lock::Pass;

/// A caller's access to a channel: the channel, and the pass that the caller has of it. Contracts
/// see of it its pass. A writer and a reader are one each, and lend it to what serves both. Every
/// call of theirs goes through it.
#[derive(Drop)]
pub struct Access<'c, T: Item> {
    channel: &'c Channel<T>,
    pass: Pass,
}

impl<'c, T: Item> Model for Access<'c, T> {
    ghost use Rattle.std.specs.Prelude.{◌≡◌};
    ghost use Rattle.turn_lock.specs.Passes.{LockPass};

    ghost Value = { LockPass };

    ghost view = { λ a. a.pass };

    ghost invariant = { λ a. a.pass.table ≡ a.channel.now };
}

impl<'c, T: Item> Access<'c, T> {
    pub(crate) fn new(channel: &'c Channel<T>, pass: Pass) -> Access<'c, T>
        requires { pass.table ≡ channel.now }
        ensures { result ≡ pass }
    {
        Access { channel, pass }
    }

    pub(crate) fn into_pass(self) -> Pass
        ensures { result ≡ self.entry }
    {
        let Access { channel: _, pass } = self;
        pass
    }
}

impl<'c, T: Item> Side<T> for Access<'c, T> {
    ghost pass = { λ a. a };

    fn side_call<R: Wait>(
        &mut self,
        rt: &R,
        call: ChannelCall<T>,
    ) -> Result<(ChannelReply<T>, Receipt), Unpaid<ChannelCall<T>>>
        ensures same { IsSamePass self.old self.new }
        ensures called { Calls T.mark T.priority_of self.old self.new call result }
    {
        let channel = self.channel;
        let news = news_of(&call);
        channel
            .shared
            .call_and_tell(rt, &mut self.pass, call, &channel.bells, news)
    }

    fn try_side_call(&mut self, call: ChannelCall<T>) -> ChannelTry<T>
        ensures same { IsSamePass self.old self.new }
        ensures tried { Tries T.mark T.priority_of self.old self.new call result }
    {
        let channel = self.channel;
        let news = news_of(&call);
        let answer = channel_try(channel.shared.try_call(&mut self.pass, call));
        channel.bells.tell(news);
        answer
    }

    fn note(&self, receipt: Receipt) {
        if let Receipt::Place { number } = receipt {
            let channel = self.channel;
            channel.bells.note(self.pass.caller(), number);
        }
    }

    fn nap<R: Wait>(&self, rt: &R, nap: &mut Nap) {
        let channel = self.channel;
        nap.take(rt, &channel.bells, self.pass.caller());
    }

    fn wake(&self, nap: &mut Nap) {
        let channel = self.channel;
        nap.end(&channel.bells, self.pass.caller());
    }
}

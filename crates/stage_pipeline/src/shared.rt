// A joint of a run, as its callers share it.
ghost use Rattle.std.specs.Prelude.{◌≡◌};

use crate::gauge::Gauge;
use channels::Channel;
use record_lang::Record;
use std::marker::Model;

/// A joint's channel, and beside it how full it is. To a contract it is the channel.
#[derive(Drop)]
pub(crate) struct SharedJoint {
    channel: Channel<Record>,
    gauge: Gauge,
}

impl Model for SharedJoint {
    ghost use Rattle.atomic_table.specs.Seated.{TableId, table_id_coded};

    ghost Value = { TableId };

    ghost coded = { table_id_coded };

    ghost view = { λ j. j.channel };
}

impl SharedJoint {
    /// Over a new channel with so much room.
    pub(crate) fn new(channel: Channel<Record>, room: u64) -> SharedJoint
        ensures { result ≡ channel }
    {
        SharedJoint {
            channel,
            gauge: Gauge::new(room),
        }
    }

    pub(crate) fn channel(&self) -> &Channel<Record>
        ensures { result.now ≡ self.now }
    {
        &self.channel
    }

    pub(crate) fn gauge(&self) -> &Gauge {
        &self.gauge
    }
}

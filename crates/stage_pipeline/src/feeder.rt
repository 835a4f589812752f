// The feeder: it writes the records that are fed into the first joint, and completes it.
ghost use Rattle.std.specs.Prelude.{◌≡◌, [], true};
ghost use Rattle.stage_pipeline.specs.Crews.{FeederEnds, Feeds, IsNewAt};
ghost use Rattle.stage_pipeline.specs.Works.{KeepsPlace};

use crate::gauge::Outlet;
use crate::kits::{Feed, FeederEnd};
use crate::shared::SharedJoint;
use crate::sides::{complete, joint_of};
use crate::workers::{Turn, send};
use channels::Writer;
use record_lang::{FedRows, Record};
use std::alloc::Global;
use std::sync::Wait;

// Writes the records in order, each once there is room, until one finds no memory; or none of them.
fn write_all<R: Wait>(
    rt: &R,
    rows: Vec<Record>,
    writer: &mut Writer<'_, Record>,
    to: &mut Outlet<'_>,
    lost: &mut Vec<u64>,
    may: bool,
) -> bool
    requires { (writer.old.seen ≡ []) × (lost.old.items ≡ []) }
    ensures same { KeepsPlace writer.old writer.new }
    ensures fed { result ≡ true → Feeds rows.items writer.new lost.new.items }
{
    if !may {
        return false;
    }
    for row in rows {
        match send(rt, writer, to, row, lost) {
            Turn::More => {}
            Turn::Ended(_) => return false,
            Turn::GaveUp => return false,
        }
    }
    true
}

/// Feeds these records, and completes the first joint, with their code as fault. Without memory it
/// completes the joint and stops; and where it may not feed, as no crew would take the records, at once.
pub(crate) fn feed_all<R: Wait>(
    rt: &R,
    alloc: Global,
    joints: &[SharedJoint],
    feed: Feed,
    may: bool,
) -> FeederEnd
    requires { IsNewAt joints.now 0 1 feed.write }
    ensures { FeederEnds feed result }
{
    let Feed { fed, write } = feed;
    let FedRows { rows, code } = fed;
    let joint = joint_of(joints, 0, &write);
    let mut writer = Writer::new(joint.channel(), write);
    let mut to = Outlet::new(joint.gauge());
    let mut lost = Vec::new(alloc);
    let whole = write_all(rt, rows, &mut writer, &mut to, &mut lost, may);
    FeederEnd {
        write: complete(rt, joint, writer.into_pass(), code),
        lost,
        whole,
    }
}

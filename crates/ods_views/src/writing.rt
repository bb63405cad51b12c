//! The writer of a desk: how it begins, takes a change and publishes it.
ghost use Rattle.std.specs.Prelude.{◌≡◌, ◌<◌, ◌≤◌, ◌∷◌, [], drop, length, IfOk, MatchResult};
ghost use Rattle.ods_views.specs.Viewers.{IsOneOn, IsTied, LeadsTo, seen_by};

use crate::naming::Naming;
use crate::rule::{Adding, Adds, Lists, View};
use crate::version::{Change, Version};
use left_right::writer::Writer;
use ods_volume::{Prepared, Volume};
use std::alloc::{AllocError, Global};
use std::snapshot::Snapshot;
use std::sync::Wait;

/// The highest number of sessions at a desk.
pub const MOST_SESSIONS: usize = 8;

/// The writer of a desk with this name.
pub type DeskWriter<J> = Writer<Version, Change, View, Lists<J>>;

/// Returns the writer over two copies of the volume's blocks. It shows the volume, and no change is pending. It fails only when out of memory.
pub fn open_writer<J: Naming>(
    alloc: Global,
    volume: &Volume,
    places: usize,
) -> Result<DeskWriter<J>, AllocError>
    requires places { (0 < places) × (places ≤ MOST_SESSIONS) }
    requires named { (volume.now.mounted ≡ J.mounted) × (volume.now.entries ≡ J.opening) }
    ensures { IfOk result (λ w. IsTied w.desk.place w.desk.shown.value (drop w.behind w.log.items) volume.now) }
{
    let count = volume.entries().len() as u64;
    let first = volume.image().copy()?;
    let second = volume.image().copy()?;
    let one = volume.layout().copy()?;
    let two = volume.layout().copy()?;
    Writer::new(
        alloc,
        Version {
            image: first,
            layout: one,
            count,
        },
        Version {
            image: second,
            layout: two,
            count,
        },
        places,
    )
}

/// Adds this pending change to the writer. When out of memory, it returns the writer unchanged.
pub fn add_change<J: Naming>(
    writer: DeskWriter<J>,
    change: Change,
) -> Result<DeskWriter<J>, DeskWriter<J>>
    requires { drop writer.behind writer.log.items ≡ [] }
    ensures { MatchResult result (λ w. (w.desk ≡ writer.desk) × (drop w.behind w.log.items ≡ change ∷ []))
        (λ w. (w.desk ≡ writer.desk) × (drop w.behind w.log.items ≡ [])) }
{
    let mut writer = writer;
    match writer.append(change) {
        Ok(()) => Ok(writer),
        Err(_) => Err(writer),
    }
}

/// Publishes the pending change, which produces the blocks of this volume. `plan` has the last entry of the volume. Afterwards the writer shows the
/// volume, and no change is pending.
pub fn publish_change<J: Naming, N: Adding, R: Wait>(
    rt: &R,
    writer: DeskWriter<J>,
    plan: Snapshot<Prepared>,
    volume: &Volume,
) -> DeskWriter<J>
    requires named { plan.value.entry ≡ N.entry }
    requires volume { IsOneOn J.mounted (seen_by writer.desk.place) plan.value.entry volume.now }
    requires before { length (seen_by writer.desk.place) ≡ writer.desk.shown.value.count }
    requires pending { LeadsTo writer.desk.shown.value (drop writer.behind writer.log.items) volume.now }
    ensures { IsTied result.desk.place result.desk.shown.value (drop result.behind result.log.items) volume.now }
{
    let _ = plan;
    let _ = volume.image();
    let (writer, done) = writer.publish_as::<Adds<N>, R>(rt);
    let _ = done;
    writer
}

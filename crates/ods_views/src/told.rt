//! The list of a desk after each request, as the desk tells it to its callers.
ghost use Rattle.std.specs.Prelude.{◌≡◌, length};
ghost use Rattle.ods_request.specs.Lists.{Begins};
ghost use Rattle.ods_views.specs.Viewers.{IsOpened, LeadsOn};

use crate::naming::Naming;
use ods_volume::Volume;
use std::marker::{Model, PhantomData};
use std::snapshot::Snapshot;

/// The list of a desk of this name after a request, accepted or refused. Contracts see the list; the value has only its length.
#[derive(Drop)]
pub struct Told<J: Naming> {
    entries: u32,
    after: Snapshot<Volume>,
    of: PhantomData<J>,
}

impl<J: Naming> Model for Told<J> {
    ghost use Rattle.std.specs.Prelude.{◌≡◌, List, length};
    ghost use Rattle.ods_request.specs.{declared.answers.Entry.Entry, Lists.Begins};
    ghost use Rattle.ods_views.specs.Viewers.{LeadsOn};

    ghost Value = { List Entry };

    ghost view = { λ t. t.after.value.entries };

    ghost invariant = { λ t. (t.entries ≡ length t.after.value.entries) × LeadsOn J.mounted t.after.value.entries × Begins J.opening t.after.value.entries };
}

impl<J: Naming> Told<J> {
    /// Returns the list of this volume, which belongs to the desk of this name. A desk calls it for its callers.
    pub fn of(volume: &Volume) -> Told<J>
        requires { IsOpened J.mounted J.opening volume.now }
        ensures { result ≡ volume.now.entries }
    {
        let _ = volume.image();
        Told {
            entries: entry_count(volume),
            after: Snapshot::of(volume),
            of: PhantomData,
        }
    }

    /// Returns the number of entries of the list. The list has a replay from the mounted image, and begins with the opening list of the desk.
    pub fn entries(&self) -> u32
        ensures count { result ≡ length self.now }
        ensures leads { LeadsOn J.mounted self.now }
        ensures begun { Begins J.opening self.now }
    {
        self.entries
    }
}

/// Returns the number of requests that the volume accepted. It is at most the limit of the volume.
pub fn entry_count(volume: &Volume) -> u32
    ensures { result ≡ length volume.now.entries }
{
    volume.is_lawful();
    let _ = volume.limit();
    volume.entries().len() as u32
}

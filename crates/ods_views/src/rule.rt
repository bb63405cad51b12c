//! The rule over the published version and over what each reader knows: all lists are prefixes of one list.
use crate::naming::Naming;
use crate::version::Version;
use crossbeam_utils::rule::{Outcome, Protocol};
use ods_request::Entry;
use std::collections::LinkedList;
use std::marker::{Brand, PhantomData};

/// The entries that a reader, or the writer, has seen. No value of it is made.
pub struct View {
    pub seen: LinkedList<Entry>,
}

/// The rule for the desk of this name. No value of it is made. One list of entries reaches the published version from the mounted image. It begins
/// with the entries of the desk's name and with all entries that any viewer has seen.
pub struct Lists<J> {
    of: PhantomData<J>,
}

impl<J: Naming> Protocol<Version, View> for Lists<J> {
    ghost use Rattle.ods_views.specs.Versions.{Keeps, newcomer};

    ghost holds = { Keeps J.mounted J.opening };

    ghost first = { newcomer J.opening };
}

/// The entry that a step adds.
pub trait Adding {
    ghost use Rattle.ods_request.specs.declared.answers.Entry.{Entry};

    ghost entry: { Entry };
}

impl Adding for Brand {
    ghost use Rattle.ods_views.specs.Versions.{no_entry};

    ghost entry = { no_entry };
}

/// The number of entries that a look requires.
pub trait Asking {
    ghost use Rattle.std.specs.Prelude.{ℕ};

    ghost least: { ℕ };
}

impl Asking for Brand {
    ghost least = { 0 };
}

/// A step of a viewer: its list becomes the published list.
pub struct Looks<J, N> {
    of: PhantomData<(J, N)>,
}

impl<J: Naming, N: Asking> Outcome<Version, View> for Looks<J, N> {
    ghost use Rattle.ods_views.specs.Versions.{LookedFrom};

    ghost then = { LookedFrom N.least J.mounted };
}

/// A step of the desk: the published list gains one entry.
pub struct Adds<N> {
    of: PhantomData<N>,
}

impl<N: Adding> Outcome<Version, View> for Adds<N> {
    ghost use Rattle.ods_views.specs.Versions.{Added};

    ghost then = { Added N.entry };
}

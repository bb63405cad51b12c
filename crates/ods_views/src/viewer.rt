//! Viewers, which answer queries from the published version and take no lock.
ghost use Rattle.std.specs.Prelude.{◌≡◌, max, length, vec_len, All, IfOk, MatchResult, Ok, Err};
ghost use Rattle.left_right.specs.Sides.{view};
ghost use Rattle.ods_request.specs.Lists.{Begins};
ghost use Rattle.ods_views.specs.{Versions.LookedFrom, Viewers.Asked, Viewers.newly, Viewers.seen_by, Refusals.view_row};

use crate::naming::Naming;
use crate::rule::{Asking, Lists, Looks, View};
use crate::told::Told;
use crate::version::Version;
use crate::writing::DeskWriter;
use left_right::reader::{Reader, Reading};
use ods_base::{Block, Coded, Row, Uic};
use ods_look::look_into;
use ods_request::{Answer, Query, Refusal};
use ods_space::Disk;
use std::alloc::{AllocError, Global};
use std::marker::{Brand, Model};
use thiserror::Error;

/// A reader of the versions of a desk with this name.
pub type DeskReader<J> = Reader<Version, View, Lists<J>>;

/// The reason why a viewer does not answer a query.
#[derive(Clone, Copy, PartialEq, Eq, Debug, Error)]
pub enum ViewFault {
    /// The first fault of the query, by the list that the viewer then has.
    #[error("{0}")]
    Refused(Refusal),
    /// There is no version left to read, or the published version has fewer entries than the viewer has learned of.
    #[error("Closed")]
    Closed,
}

impl Coded for ViewFault {
    fn row(&self) -> Row {
        match self {
            ViewFault::Refused(refusal) => refusal.row(),
            ViewFault::Closed => Row(61, "Closed"),
        }
    }

    ghost row_of = { view_row };
}

/// A viewer of the volume of a desk with this name. It takes no lock. Contracts see the entries that it has seen, and the number of entries that it
/// has learned of. A viewer without a reader has no version to read, and replies Closed.
#[derive(Drop)]
pub struct Viewer<J: Naming> {
    reader: Option<DeskReader<J>>,
    least: u64,
}

impl<J: Naming> Model for Viewer<J> {
    ghost use Rattle.std.specs.Option.{option_map_or};
    ghost use Rattle.ods_views.specs.Viewers.{Viewed, seen_by};

    ghost Value = { Viewed };

    ghost view = { λ v. record { seen = option_map_or (λ r. seen_by r.place) v.reader J.opening; least = v.least } };
}

impl<J: Naming> Viewer<J> {
    /// The viewer with a new reader of this writer's desk.
    fn beside(writer: &DeskWriter<J>) -> Result<Viewer<J>, AllocError>
        ensures { IfOk result (λ v. v ≡ newly J.opening) }
    {
        Ok(Viewer {
            reader: Some(writer.factory().reader()?),
            least: 0,
        })
    }

    /// Returns a viewer without a reader, for a run in which no session looks.
    pub fn without_place() -> Viewer<J>
        ensures { result ≡ newly J.opening }
    {
        let least = 0;
        Viewer {
            reader: None,
            least,
        }
    }

    /// Notes that the desk's list has at least the entries of `told`. From then on the viewer answers only from a version with at least as many
    /// entries. A viewer that learns of more entries than its desk ever has replies Closed from then on.
    pub fn learn(&mut self, told: Told<J>)
        ensures { self.new ≡ record self.old { least = max self.old.least (length told) } }
    {
        self.least = self.least.max(u64::from(told.entries()));
    }

    /// Answers a query from the version that is published now. It waits for no other thread and takes no memory. It moves the answer once, when it
    /// returns. After an answer or a refusal, the list of the viewer begins with the entries that it had seen before. The list has at least as many
    /// entries as the viewer has learned of. After Closed the viewer is unchanged.
    pub fn ask(&mut self, who: Uic, query: Query) -> Result<Answer, ViewFault>
        ensures later { Begins self.old.seen self.new.seen }
        ensures least { self.new.least ≡ self.old.least }
        ensures answer { Asked J.mounted self.old self.new who query result }
    {
        let mut result = Ok(Answer::Bytes(Block::zeros()));
        let Ok(answer) = &mut result else {
            unreachable!()
        };
        if let Err(fault) = self.ask_into(who, query, answer) {
            return Err(fault);
        }
        result
    }

    /// Does the same as [`Viewer::ask`], and writes the answer into `answer`. After an error `answer` is unchanged. The function is not inlined: out
    /// of line it has no answer of its own, and inlined LLVM would reserve room for two more in its caller.
    #[inline(never)]
    pub fn ask_into(&mut self, who: Uic, query: Query, answer: &mut Answer) -> Result<(), ViewFault>
        ensures later { Begins self.old.seen self.new.seen }
        ensures least { self.new.least ≡ self.old.least }
        ensures answer { MatchResult result (λ _. Asked J.mounted self.old self.new who query (Ok answer.new))
            (λ f. Asked J.mounted self.old self.new who query (Err f) × (answer.new ≡ answer.old)) }
    {
        let least = self.least;
        let Some(reader) = self.reader.take() else {
            return Err(ViewFault::Closed);
        };
        match enter::<J, Brand>(reader, least) {
            Ok(reading) => {
                let version = reading.get();
                if version.count < least {
                    self.reader = Some(reading.leave());
                    return Err(ViewFault::Closed);
                }
                let disk = Disk {
                    image: &version.image,
                    layout: &version.layout,
                };
                let found = look_into(&disk, who, query, answer);
                self.reader = Some(reading.leave());
                match found {
                    Ok(()) => Ok(()),
                    Err(refusal) => Err(ViewFault::Refused(refusal)),
                }
            }
            Err(reader) => {
                self.reader = Some(reader);
                Err(ViewFault::Closed)
            }
        }
    }
}

/// Returns `places` viewers of this writer's desk, each with a reader of its own. Each has seen the opening list, and has learned of no entries yet.
/// It fails only when out of memory.
pub fn make_viewers<J: Naming>(
    alloc: Global,
    writer: &DeskWriter<J>,
    places: usize,
) -> Result<Vec<Viewer<J>>, AllocError>
    ensures { IfOk result (λ v. (vec_len v ≡ places) × All (λ x. x ≡ newly J.opening) v.items) }
{
    let mut viewers = Vec::with_capacity(alloc, places)?;
    for _ in 0..places {
        let viewer = Viewer::beside(writer)?;
        if viewers.push(viewer).is_err() {
            return Err(AllocError);
        }
    }
    Ok(viewers)
}

/// Takes the version that is published. Its list is learnt only where it has so many entries.
fn enter<J: Naming, N: Asking>(
    reader: DeskReader<J>,
    least: u64,
) -> Result<Reading<Version, View, Lists<J>>, DeskReader<J>>
    requires { least ≡ N.least }
    ensures { MatchResult result (λ r. LookedFrom least J.mounted (view reader.place) r.part.value r.part.value (view r.place)) (λ r. view r.place ≡ view reader.place) }
{
    let _ = least;
    reader.enter_as::<Looks<J, N>>()
}

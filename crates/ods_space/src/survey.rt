//! Counting the blocks that a chain maps, without allocation.
ghost use Rattle.std.specs.Prelude.{◌≡◌, ◌+◌, ◌^◌, ◌<◌, ◌≤◌, ◌++◌, ℕ, List, length, slice_get};
ghost use Rattle.ods_header.specs.Header.{IsRun, run_blocks};
ghost use Rattle.ods_space.specs.Walk.{IsSurveyOf, IsPast};

use crate::collect::most;
use crate::walk::Notes;
use ods_base::Block;
use ods_header::{Home, Run, pointer_at, pointer_count};
use std::convert::Infallible;

/// How many blocks were met, the one that is looked for, and one that the image lacks.
#[derive(Clone, Copy)]
pub(crate) struct Survey {
    pub count: u32,
    pub found: Option<u32>,
    pub past: Option<u32>,
}

/// A survey of a chain. It looks for the block of the file with the index `wanted`, counted from 0, and for one past an image of
/// `len` blocks. `index` has the blocks of INDEXF.SYS.
#[derive(Drop)]
pub(crate) struct Surveyor<'a> {
    pub index: &'a [u32],
    pub len: u32,
    pub wanted: u32,
    pub survey: Survey,
}

impl<'a> Surveyor<'a> {
    ghost use Rattle.std.specs.Prelude.{◌≡◌, []};
    ghost use Rattle.ods_space.specs.Walk.{IsSurveyOf};

    /// Starts without any blocks.
    pub fn new(index: &'a [u32], len: u32, wanted: u32) -> Surveyor<'a>
        ensures { (result.index.now ≡ index.now) × (result.len ≡ len) × (result.wanted ≡ wanted) × IsSurveyOf len wanted result.survey [] }
    {
        let survey = Survey {
            count: 0,
            found: None,
            past: None,
        };
        Surveyor {
            index,
            len,
            wanted,
            survey,
        }
    }
}

impl Notes for Surveyor<'_> {
    ghost use Rattle.std.specs.Prelude.{◌≡◌, ◌+◌, ◌≤◌, ◌++◌, ℕ, List, length, Some, OnOk};
    ghost use Rattle.ods_space.specs.Walk.{IsSurveyOf};

    type Full = Infallible;

    ghost placed_by = { λ s. Some s.index.now };

    ghost has = { λ s t blocks. (t.index.now ≡ s.index.now) × (t.len ≡ s.len) × (t.wanted ≡ s.wanted) × IsSurveyOf t.len t.wanted t.survey blocks };

    fn known_index(&self) -> &[u32] {
        self.index
    }

    fn most(&self, home: &Home) -> u16 {
        most(home, Some(self.index), &[])
    }

    fn note(&mut self, block: &Block) -> Result<(), Infallible> {
        let mut survey = self.survey;
        for k in 0..pointer_count(block) {
            survey = with_run(survey, &pointer_at(block, k), self.wanted, self.len);
        }
        self.survey = survey;
        Ok(())
    }
}

/// The survey of the blocks of one run more.
fn with_run(survey: Survey, run: &Run, wanted: u32, len: u32) -> Survey
    requires run { IsRun run.now }
    requires fits { survey.count + 256 < 2 ^ 32 }
    ensures noted { (blocks : List ℕ) → IsSurveyOf len wanted survey blocks → IsSurveyOf len wanted result (blocks ++ run_blocks run.now) }
    ensures count { result.count ≤ survey.count + 256 }
{
    Survey {
        count: survey.count + run.count as u32,
        found: found_with(survey.found, survey.count, run, wanted),
        past: past_with(survey.past, run, len),
    }
}

/// The block with the index `wanted`: the one found before, or a block of this run, before which there are `count`.
fn found_with(found: Option<u32>, count: u32, run: &Run, wanted: u32) -> Option<u32>
    requires run { IsRun run.now }
    requires fits { count + 256 < 2 ^ 32 }
    ensures { (blocks : List ℕ) → count ≡ length blocks → found ≡ slice_get blocks wanted → result ≡ slice_get (blocks ++ run_blocks run.now) wanted }
{
    if wanted < count {
        return found;
    }
    if wanted < count + run.count as u32 {
        Some(run.lbn + (wanted - count))
    } else {
        found
    }
}

/// A block that an image of `len` blocks lacks: the one found before, or the last of this run.
fn past_with(past: Option<u32>, run: &Run, len: u32) -> Option<u32>
    requires { IsRun run.now }
    ensures { (blocks : List ℕ) → IsPast len blocks past → IsPast len (blocks ++ run_blocks run.now) result }
{
    let end = run.lbn + run.count as u32;
    match past {
        Some(lbn) => Some(lbn),
        None => { if len < end { Some(end - 1) } else { None } }
    }
}

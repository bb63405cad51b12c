//! Collecting the blocks of a chain.
ghost use Rattle.std.specs.Prelude.{◌≡◌, ◌++◌, ◌≤◌, [], length, IfOk, IfErr, IfSome, IfNone, OnOk};
ghost use Rattle.std.specs.Option.{option_map};
ghost use Rattle.ods_header.specs.Header.{IsLaidOut, IsRun, run_blocks, blocks_of};
ghost use Rattle.ods_space.specs.{Chain.chain_blocks, Chain.known as known_of, Chain.most as most_of, Chain.IsSegment, Reach.Reaches, Walk.Leads, Walk.IsDeadEnd};

use crate::ChainFault;
use crate::walk::{Notes, segment_block, walk};
use ods_base::{Block, Image};
use ods_header::{Home, Run, pointer_at, pointer_count};
use std::alloc::{AllocError, Global};

/// The blocks of a run, put behind these.
fn push_run(named: &mut Vec<u32>, run: &Run) -> Result<(), AllocError>
    requires { IsRun run.now }
    ensures { OnOk result (named.new.items ≡ named.old.items ++ run_blocks run.now) }
{
    for i in 0..run.count as u32 {
        named.push(run.lbn + i)?;
    }
    Ok(())
}

/// Appends the blocks that the pointers of a header map. After an `Err` some of them may be appended.
pub fn push_header(named: &mut Vec<u32>, block: &Block) -> Result<(), AllocError>
    requires { IsLaidOut block.now }
    ensures { OnOk result (named.new.items ≡ named.old.items ++ blocks_of block.now) }
{
    for k in 0..pointer_count(block) {
        push_run(named, &pointer_at(block, k))?;
    }
    Ok(())
}

/// The blocks of INDEXF.SYS by which headers are placed: all of them, or those named so far.
fn known_index<'a>(index: Option<&'a [u32]>, front: &'a [u32]) -> &'a [u32]
    ensures { result.now ≡ known_of (option_map (λ x. x.now) index.entry) front.now }
{
    match index {
        Some(index) => index,
        None => front,
    }
}

/// The greatest number that the chain may name.
pub(crate) fn most(home: &Home, index: Option<&[u32]>, front: &[u32]) -> u16
    ensures { result ≡ most_of home.now (option_map (λ x. x.now) index.entry) front.now }
{
    let size = home.index_bitmap_size as usize;
    let headers = match index {
        Some(index) => index.len().saturating_sub(size + 2),
        None => front.len().saturating_sub(size + 2).max(16),
    };
    (home.max_files as usize).min(4096 * size).min(headers) as u16
}

/// The blocks of a chain, noted one after another. Without an index they are those of INDEXF.SYS, whose headers are placed by the
/// blocks that the headers before them name.
#[derive(Drop)]
struct Named<'a> {
    index: Option<&'a [u32]>,
    blocks: Vec<u32>,
}

impl Notes for Named<'_> {
    ghost use Rattle.std.specs.Prelude.{◌≡◌, ◌+◌, ◌≤◌, ◌++◌, ℕ, List, length, OnOk};
    ghost use Rattle.std.specs.Option.{option_map};

    type Full = AllocError;

    ghost placed_by = { λ s. option_map (λ x. x.now) s.index };

    ghost has = { λ s t blocks. (t.index ≡ s.index) × (t.blocks.items ≡ blocks) };

    fn known_index(&self) -> &[u32] {
        known_index(self.index, &self.blocks)
    }

    fn most(&self, home: &Home) -> u16 {
        most(home, self.index, &self.blocks)
    }

    fn note(&mut self, block: &Block) -> Result<(), AllocError> {
        push_header(&mut self.blocks, block)
    }
}

/// All blocks of the chain from header `number` on, in order.
pub(crate) fn collect(
    alloc: Global,
    image: &Image,
    home: &Home,
    index: Option<&[u32]>,
    number: u16,
) -> Result<Vec<u32>, ChainFault>
    ensures ok { IfOk result (λ blocks. Leads image.now home.now (option_map (λ x. x.now) index.entry) number blocks.items) }
    ensures err { IfErr result (IsDeadEnd image.now home.now (option_map (λ x. x.now) index.entry) number) }
{
    let mut named = Named {
        index,
        blocks: Vec::new(alloc),
    };
    match walk(image, home, number, &mut named) {
        Ok(true) => Ok(named.blocks),
        Ok(false) => Err(ChainFault::BadChain),
        Err(_) => Err(ChainFault::NoMemory),
    }
}

/// The blocks that the headers of a chain map, as far as the chain can be traversed.
#[derive(Drop)]
pub struct Reached {
    /// The LBNs in order. Some can be past the end of the image.
    pub blocks: Vec<u32>,
    /// Whether no header is missing.
    pub is_whole: bool,
}

/// What the headers from `number` on name, up to the last that is there. There is nothing where the first is not.
pub(crate) fn collect_reached(
    alloc: Global,
    image: &Image,
    home: &Home,
    index: Option<&[u32]>,
    number: u16,
) -> Result<Option<Reached>, AllocError>
    ensures some { IfOk result (λ found. IfSome found (λ r. Reaches image.now home.now (option_map (λ x. x.now) index.entry) number r.blocks.items r.is_whole)) }
    ensures few { IfOk result (λ found. IfSome found (λ r. length r.blocks.items ≤ chain_blocks)) }
    ensures none { IfOk result (λ found. IfNone found (¬ IsSegment image.now home.now (known_of (option_map (λ x. x.now) index.entry) []) (most_of home.now (option_map (λ x. x.now) index.entry) []) number 0)) }
{
    let greatest = most(home, index, &[]);
    if segment_block(image, home, known_index(index, &[]), greatest, number, 0).is_none() {
        return Ok(None);
    }
    let mut named = Named {
        index,
        blocks: Vec::new(alloc),
    };
    let is_whole = walk(image, home, number, &mut named)?;
    Ok(Some(Reached {
        blocks: named.blocks,
        is_whole,
    }))
}

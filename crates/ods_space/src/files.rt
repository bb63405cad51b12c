//! Files: their first headers, their chains and their blocks.
ghost use Rattle.std.specs.Prelude.{◌≡◌, ◌≢◌, ◌^◌, ◌≤◌, ℕ, List, length, OnOk, IfOk, IfErr, IfSome, IfNone, SomeIff, None, slice_get};
ghost use Rattle.std.specs.Option.{option_map};
ghost use Rattle.std.specs.List.{Contains};
ghost use Rattle.ods_header.specs.Header.{header_of};
ghost use Rattle.ods_space.specs.{Chain.IsChain, Chain.chain_blocks, Chain.index_for as index_of, Files.IsFile, Files.HasBlocks, Files.Holds, Files.FindsFiles, Files.AreInside, Faults.IsChainFault, Walk.IsSurveyOf};
ghost use Rattle.ods_space.specs.Disks.{header_on, on};

use crate::bits::in_use;
use crate::collect::collect;
use crate::headers::{header_block, last_number};
use crate::survey::{Survey, Surveyor};
use crate::walk::{segment_block, walk};
use crate::{ChainFault, Disk, Layout};
use ods_base::{Block, Image};
use ods_header::{Header, read_header};
use std::alloc::Global;

/// Returns the first header of a file, or `None` if the number is not a file.
pub fn file_header(disk: &Disk<'_>, number: u16) -> Option<Header>
    requires { on FindsFiles disk.now }
    ensures { SomeIff result (on IsFile disk.now number) (header_of (header_on disk.now number)) }
{
    if number == 0 || last_number(disk.layout) < number || !in_use(disk, number) {
        return None;
    }
    let block = header_block(disk, number)?;
    match read_header(block, number) {
        Ok(header) => {
            if header.segment == 0 {
                Some(header)
            } else {
                None
            }
        }
        Err(_) => None,
    }
}

/// Returns the block of the first header of a file, or `None` if the number is not a file. The block is read in place, without a copy of its fields.
pub fn primary_header<'a>(disk: &Disk<'a>, number: u16) -> Option<&'a Block>
    ensures some { IfSome result (λ block. on IsFile disk.now number × (block.now ≡ header_on disk.now number)) }
    ensures none { IfNone result (¬ on IsFile disk.now number) }
{
    segment_block(
        disk.image,
        &disk.layout.home(),
        disk.layout.index(),
        last_number(disk.layout),
        number,
        0,
    )
}

/// Returns all blocks of a file, in order. A number that is not a file has no chain, which is a fault.
pub fn chain(alloc: Global, disk: &Disk<'_>, number: u16) -> Result<Vec<u32>, ChainFault>
    requires { on FindsFiles disk.now }
    ensures ok { IfOk result (λ blocks. on HasBlocks disk.now number blocks.items) }
    ensures err { IfErr result (on IsChainFault disk.now number) }
{
    let index = index_for(disk.layout, number);
    let blocks = match collect(alloc, disk.image, &disk.layout.home(), index, number) {
        Ok(blocks) => blocks,
        Err(fault) => return Err(fault),
    };
    match outside(disk.image, &blocks) {
        Some(lbn) => Err(ChainFault::OutsideVolume(lbn)),
        None => Ok(blocks),
    }
}

/// INDEXF.SYS finds its own headers, any other file's are found by its blocks.
pub(crate) fn index_for(layout: &Layout, number: u16) -> Option<&[u32]>
    ensures { option_map (λ x. x.now) result ≡ index_of layout.now number }
{
    if number == 1 {
        None
    } else {
        Some(layout.index())
    }
}

/// A block that the image lacks.
pub(crate) fn outside(image: &Image, blocks: &[u32]) -> Option<u32>
    ensures some { IfSome result (λ lbn. Contains blocks.now lbn × (length image.now ≤ lbn)) }
    ensures none { IfNone result (AreInside image.now blocks.now) }
    ensures few { length image.now ≤ 2 ^ 20 }
{
    let len = image.len();
    for lbn in blocks {
        if len <= *lbn {
            return Some(*lbn);
        }
    }
    None
}

/// Checks that the chain of a file is whole, and that the image has all its blocks. A number that is not a file has no chain, which is a fault. The
/// check allocates no memory.
pub fn check_chain(disk: &Disk<'_>, number: u16) -> Result<(), ChainFault>
    requires { on FindsFiles disk.now }
    ensures ok { OnOk result ((blocks : List ℕ) × on HasBlocks disk.now number blocks) }
    ensures err { IfErr result (on IsChainFault disk.now number) }
    ensures memory { IfErr result (λ e. e ≢ ChainFault.NoMemory) }
{
    let Some(survey) = survey(disk, number, 0) else {
        return Err(ChainFault::BadChain);
    };
    match survey.past {
        Some(lbn) => Err(ChainFault::OutsideVolume(lbn)),
        None => Ok(()),
    }
}

/// Returns the LBN of one block of a file, counted from 1. Returns `None` if the file has no whole chain, or no such block.
pub fn locate(disk: &Disk<'_>, number: u16, vbn: u32) -> Option<u32>
    requires { on FindsFiles disk.now }
    ensures found { IfSome result (on Holds disk.now number vbn) }
    ensures none { IfNone result ((lbn : ℕ) → ¬ on Holds disk.now number vbn lbn) }
{
    if vbn == 0 {
        return None;
    }
    survey_whole(disk, number, vbn - 1)?.found
}

/// Returns the number of blocks of a file, or `None` if the file has no whole chain.
pub fn block_count(disk: &Disk<'_>, number: u16) -> Option<u32>
    requires { on FindsFiles disk.now }
    ensures count { IfSome result (λ count. (blocks : List ℕ) × on HasBlocks disk.now number blocks × (count ≡ length blocks)) }
    ensures none { IfNone result ((blocks : List ℕ) → ¬ on HasBlocks disk.now number blocks) }
{
    Some(survey_whole(disk, number, 0)?.count)
}

/// What a file with a whole chain has: how many blocks, and the one with the index `wanted`, counted from 0.
fn survey_whole(disk: &Disk<'_>, number: u16, wanted: u32) -> Option<Survey>
    requires { on FindsFiles disk.now }
    ensures some { IfSome result (λ s. (blocks : List ℕ) × on HasBlocks disk.now number blocks × IsSurveyOf (length disk.now.image.now) wanted s blocks) }
    ensures none { IfNone result ((blocks : List ℕ) → ¬ on HasBlocks disk.now number blocks) }
{
    let survey = survey(disk, number, wanted)?;
    match survey.past {
        Some(_) => None,
        None => Some(survey),
    }
}

/// What the chain of a file has: how many blocks, the one with the index `wanted`, counted from 0, and one that the image lacks.
fn survey(disk: &Disk<'_>, number: u16, wanted: u32) -> Option<Survey>
    requires { on FindsFiles disk.now }
    ensures some { IfSome result (λ s. (others : List ℕ) × (blocks : List ℕ)
        × on IsChain disk.now number others blocks × IsSurveyOf (length disk.now.image.now) wanted s blocks) }
    ensures none { IfNone result ((others blocks : List ℕ) → ¬ on IsChain disk.now number others blocks) }
{
    // An image has few blocks, and so has a chain.
    let len = disk.image.len();
    let index = disk.layout.index();
    // The layout has the blocks of INDEXF.SYS.
    if number == 1 {
        return Some(survey_index(index, wanted));
    }
    let mut surveyor = Surveyor::new(index, len, wanted);
    let Ok(whole) = walk(disk.image, &disk.layout.home(), number, &mut surveyor);
    if whole { Some(surveyor.survey) } else { None }
}

/// What INDEXF.SYS has: its blocks are at hand, and none is past the image.
fn survey_index(index: &[u32], wanted: u32) -> Survey
    requires { length index.now ≤ chain_blocks }
    ensures count { result.count ≡ length index.now }
    ensures found { result.found ≡ slice_get index.now wanted }
    ensures past { result.past ≡ None }
{
    Survey {
        count: index.len() as u32,
        found: index.get(wanted as usize).copied(),
        past: None,
    }
}

//! All candidates of an image, and the files that they describe.
use crate::Scanned;
use crate::candidates::is_candidate;
use crate::keys::{index, place_in_chain, push_first_lbns, push_lbns};
use crate::nearest::nearest;
use ods_base::Image;
use ods_header::{next_number, next_sequence, next_volume, segment};
use ods_space::push_header;
use std::alloc::{AllocError, Global};
use std::marker::Model;

/// The candidates of an image: its valid headers, at any LBN. One pass over the blocks finds them, and each takes eight bytes. A contract sees the
/// blocks of the image.
#[derive(Drop)]
pub struct Scan<'a> {
    image: &'a Image,
    keys: Vec<u64>,
}

impl<'a> Model for Scan<'a> {
    ghost use Rattle.std.specs.Prelude.{List, ℕ};
    ghost use Rattle.ods_remains.specs.Keys.{IsIndexOf};

    ghost Value = { List (List ℕ) };

    ghost view = { λ s. s.image.now };

    ghost invariant = { λ s. IsIndexOf s.image.now s.keys.items };
}

impl<'a> Scan<'a> {
    ghost use Rattle.std.specs.Prelude.{◌≡◌, ◌∷◌, [], ◌++◌, ◌==◌, not, IfOk, OnOk, MatchOption};
    ghost use Rattle.ods_base.specs.Image.{block_at};
    ghost use Rattle.ods_header.specs.Header.{next_number_of, blocks_of};
    ghost use Rattle.ods_remains.specs.{Candidates.HasCandidate, Candidates.HasFirst, Candidates.IsNextOf, Scanned.AreHeaders, Scanned.IsScanned};

    /// Finds the candidates of an image. An error means out of memory.
    pub fn of(alloc: Global, image: &'a Image) -> Result<Scan<'a>, AllocError>
        ensures { IfOk result (λ scan. scan ≡ image.now) }
    {
        let keys = index(alloc, image)?;
        Ok(Scan { image, keys })
    }

    /// Returns the LBNs of all candidates, sorted by number, sequence number, segment and LBN.
    pub fn candidates(&self, alloc: Global) -> Result<Vec<u32>, AllocError>
        ensures { IfOk result (λ lbns. AreHeaders self.now (HasCandidate self.now) lbns.items) }
    {
        // An image has few blocks.
        let _ = self.image.len();
        let mut lbns = Vec::new(alloc);
        push_lbns(&mut lbns, &self.keys)?;
        Ok(lbns)
    }

    /// Returns the LBNs of all first headers, sorted by number, sequence number and LBN.
    pub fn files(&self, alloc: Global) -> Result<Vec<u32>, AllocError>
        ensures { IfOk result (λ lbns. AreHeaders self.now (HasFirst self.now) lbns.items) }
    {
        // An image has few blocks.
        let _ = self.image.len();
        let mut firsts = Vec::new(alloc);
        push_first_lbns(&mut firsts, &self.keys)?;
        Ok(firsts)
    }

    /// Returns the LBN of the header that the candidate at this LBN names as its next one. Returns `None` if there is no such header, or no
    /// candidate is at this LBN.
    pub fn next(&self, lbn: u32) -> Option<u32>
        ensures { IsNextOf self.now lbn result }
    {
        if self.image.len() <= lbn {
            return None;
        }
        let block = self.image.block(lbn);
        if !is_candidate(block) {
            return None;
        }
        if next_volume(block) != 0 {
            return None;
        }
        if segment(block) == 255 {
            return None;
        }
        let place = place_in_chain(next_number(block), next_sequence(block), segment(block) + 1);
        nearest(&self.keys, place, lbn)
    }

    /// Returns the file of the first header at this LBN. Returns `None` if no first header is at this LBN.
    pub fn file(&self, alloc: Global, lbn: u32) -> Result<Option<Scanned>, AllocError>
        ensures { IfOk result (λ file. MatchOption file (¬ HasFirst self.now lbn) (IsScanned self.now lbn)) }
    {
        if self.image.len() <= lbn {
            return Ok(None);
        }
        let block = self.image.block(lbn);
        if !is_candidate(block) || segment(block) != 0 {
            return Ok(None);
        }
        Ok(Some(self.follow(alloc, lbn)?))
    }

    /// The file of the first header at this LBN, where one stands.
    fn follow(&self, alloc: Global, first: u32) -> Result<Scanned, AllocError>
        requires { HasFirst self.now first }
        ensures { IfOk result (IsScanned self.now first) }
    {
        // The blocks of an image have bytes, so a chain has at most 256 headers.
        let _ = self.image.len();
        let mut file = Scanned {
            headers: Vec::new(alloc),
            blocks: Vec::new(alloc),
            is_cut: false,
        };
        self.note(&mut file, first)?;
        let mut at = first;
        while let Some(next) = self.next(at) {
            self.note(&mut file, next)?;
            at = next;
        }
        Ok(file)
    }

    /// Puts the candidate at this LBN behind the headers of a file, and the blocks that it names behind the file's.
    fn note(&self, file: &mut Scanned, lbn: u32) -> Result<(), AllocError>
        requires { HasCandidate self.now lbn }
        ensures headers { OnOk result (file.new.headers.items ≡ file.old.headers.items ++ lbn ∷ []) }
        ensures blocks { OnOk result (file.new.blocks.items ≡ file.old.blocks.items ++ blocks_of (block_at self.now lbn)) }
        ensures cut { OnOk result (file.new.is_cut ≡ not (next_number_of (block_at self.now lbn) == 0)) }
    {
        let block = self.image.block(lbn);
        file.headers.push(lbn)?;
        push_header(&mut file.blocks, block)?;
        file.is_cut = next_number(block) != 0;
        Ok(())
    }
}

//! The blocks of INDEXF.SYS and BITMAP.SYS, by which everything else is located.
ghost use Rattle.std.specs.Prelude.{◌≡◌, Some, IfOk, IfErr};
ghost use Rattle.ods_header.specs.Home.{IsHomeOf};
ghost use Rattle.ods_space.specs.{Chain.IsIndex, Files.AreInside, Faults.IsLayoutFault, Faults.IsOfIndex, Faults.IsWholeIndex, Walk.Leads, Walk.layout_fault_of};

use crate::collect::{collect, most};
use crate::files::outside;
use crate::walk::segment_block;
use crate::{ChainFault, LayoutFault};
use ods_base::Image;
use ods_header::Home;
use std::alloc::Global;

/// The blocks of INDEXF.SYS.
pub(crate) fn read_index(alloc: Global, image: &Image, home: &Home) -> Result<Vec<u32>, LayoutFault>
    requires { IsHomeOf image.now home.now }
    ensures ok { IfOk result (λ index. IsWholeIndex image.now home.now index.items) }
    ensures err { IfErr result (IsLayoutFault image.now home.now) }
    ensures first { IfErr result IsOfIndex }
{
    let Some(_) = segment_block(image, home, &[], most(home, None, &[]), 1, 0) else {
        return Err(LayoutFault::NoFile(1));
    };
    let index = match collect(alloc, image, home, None, 1) {
        Ok(index) => index,
        Err(fault) => return Err(layout_fault(1, fault)),
    };
    if most(home, Some(&index), &[]) == 0 {
        return Err(LayoutFault::NoFile(1));
    }
    match outside(image, &index) {
        Some(lbn) => Err(LayoutFault::Chain(1, ChainFault::OutsideVolume(lbn))),
        None => Ok(index),
    }
}

/// The blocks of BITMAP.SYS, where these are the blocks of INDEXF.SYS.
pub(crate) fn read_bitmap(
    alloc: Global,
    image: &Image,
    home: &Home,
    index: &[u32],
) -> Result<Vec<u32>, LayoutFault>
    requires { IsIndex image.now home.now index.now }
    ensures ok { IfOk result (λ bitmap. Leads image.now home.now (Some index.now) 2 bitmap.items × AreInside image.now bitmap.items) }
    ensures err { IfErr result (IsLayoutFault image.now home.now) }
{
    let Some(_) = segment_block(image, home, index, most(home, Some(index), &[]), 2, 0) else {
        return Err(LayoutFault::NoFile(2));
    };
    let bitmap = match collect(alloc, image, home, Some(index), 2) {
        Ok(bitmap) => bitmap,
        Err(fault) => return Err(layout_fault(2, fault)),
    };
    match outside(image, &bitmap) {
        Some(lbn) => Err(LayoutFault::Chain(2, ChainFault::OutsideVolume(lbn))),
        None => Ok(bitmap),
    }
}

/// The fault of a file whose chain has this one.
fn layout_fault(number: u16, fault: ChainFault) -> LayoutFault
    ensures { result ≡ layout_fault_of number fault }
{
    match fault {
        ChainFault::BadChain | ChainFault::OutsideVolume(_) => LayoutFault::Chain(number, fault),
        ChainFault::NoMemory => LayoutFault::NoMemory,
    }
}

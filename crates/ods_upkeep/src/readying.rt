//! Headers for files, requested before the first of them is made.
ghost use Rattle.std.specs.Prelude.{◌≡◌};
ghost use Rattle.ods_upkeep.specs.Ready.{MayHaveGrown, reserve as reserve_of};

use crate::Placing;
use ods_filing::Filing;
use ods_space::last_number;

/// Requests the headers of `files` files at once, so that they share a few pointers of INDEXF.SYS. If INDEXF.SYS has to grow for them, it gets a
/// reserve: each growth takes a pointer for good, also one for a single file. If the request is refused, nothing changes, and each file requests
/// its own header. So does a single file in one piece, since the headers could take blocks of its run.
pub fn make_ready(filing: &mut Filing, files: usize, placing: Placing)
    ensures { MayHaveGrown files filing.old filing.new }
{
    if files == 1 && placing == Placing::InOnePiece {
        return;
    }
    grow_for(filing, files);
}

/// Requests the headers of so many files, and a reserve, if they lack.
fn grow_for(filing: &mut Filing, files: usize)
    ensures { MayHaveGrown files filing.old filing.new }
{
    let files = files.min(65_535) as u32;
    if files <= filing.number_count() {
        return;
    }
    let more = files.max(reserve(filing));
    if filing.make_ready(more).is_err() {
        let _ = filing.make_ready(files);
    }
}

/// The headers for later files: an eighth of those that INDEXF.SYS has, or a 64th of the free blocks, whichever is less.
fn reserve(filing: &Filing) -> u32
    ensures { result ≡ reserve_of filing.now }
{
    let headers = u32::from(last_number(filing.disk().layout)) / 8;
    headers.min(filing.free_count() / 64)
}

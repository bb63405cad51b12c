//! Another label of a sound volume.
ghost use Rattle.std.specs.Prelude.{◌≡◌, length, IfOk, OnOk, OnErr};
ghost use Rattle.ods_header.specs.Home.{IsHomeAt};
ghost use Rattle.ods_mount.specs.Sound.{IsSoundBy};
ghost use Rattle.ods_space.specs.{Disks.on, Draft.applied};
ghost use Rattle.ods_init.specs.Label.{zero_padded as padded_with_zeros};
ghost use Rattle.ods_amend.specs.Label.{IsRelabelled, IsLabelled, Relabels};

use crate::header::renew_sum;
use ods_base::Block;
use ods_header::find_home;
use ods_init::Label;
use ods_mount::Mounted;
use ods_space::{Disk, Draft};
use std::alloc::{AllocError, Global};

/// Where the home block of a sound volume stands.
fn home_place(disk: &Disk<'_>) -> u32
    requires { on IsSoundBy disk.now }
    ensures { IsHomeAt disk.now.image.now result }
{
    match find_home(disk.image) {
        Ok((lbn, _)) => lbn,
        Err(_) => unreachable!(),
    }
}

/// The characters of a label, with zero bytes in place of the spaces behind them.
fn zero_padded(label: &[u8; 12]) -> [u8; 12]
    ensures value { result ≡ padded_with_zeros label.now }
    ensures size { length result ≡ 12 }
{
    label.map(|c| if c == b' ' { 0 } else { c })
}

/// The home block with this label, and with both sums made anew. Every other byte stays.
fn with_label(home: &Block, label: &Label) -> Block
    ensures { IsRelabelled home.now label.now result }
{
    let _ = home.bytes();
    let text = label.text();
    let name = zero_padded(text);
    let mut changed = *home;
    changed.set_bytes(14, &name);
    renew_sum(&mut changed, 29);
    changed.set_bytes(472, text);
    renew_sum(&mut changed, 255);
    changed
}

/// Drafts a new label of a volume: the home block, with both checksums renewed. The volume is unchanged. It fails only when out of memory.
pub fn draft_label(alloc: Global, disk: &Disk<'_>, label: &Label) -> Result<Draft, AllocError>
    requires { on IsSoundBy disk.now }
    ensures { IfOk result (λ draft. on IsLabelled disk.now label.now (applied disk.now.image.now draft)) }
{
    let lbn = home_place(disk);
    let home = with_label(disk.image.block(lbn), label);
    let mut draft = Draft::new(alloc);
    match draft.set(lbn, home) {
        Ok(()) => Ok(draft),
        Err(lack) => Err(lack),
    }
}

/// Sets the label of a volume: H.VNAM of the home block, padded with zero bytes, and its copy at byte 472, padded with spaces. Both checksums are
/// renewed. Every other byte of the volume is unchanged. It fails only when out of memory, and then changes nothing.
pub fn set_label(volume: &mut Mounted, alloc: Global, label: &Label) -> Result<(), AllocError>
    ensures ok { OnOk result (Relabels volume.old label.now volume.new) }
    ensures err { OnErr result (volume.new ≡ volume.old) }
{
    match draft_label(alloc, &volume.disk(), label) {
        Ok(draft) => {
            volume.apply(draft, &[]);
            Ok(())
        }
        Err(lack) => Err(lack),
    }
}

//! What a file keeps of the file that it replaces.
ghost use Rattle.std.specs.Prelude.{◌≡◌, IfErr, OnOk};
ghost use Rattle.ods_filing.specs.Contiguous.{contiguous_char};
ghost use Rattle.ods_upkeep.specs.Replaced.{KeepsAccess, KeepsNoAccess, flags_kept as kept_flags, owner_kept as kept_owner, placing_kept as kept_placing};

use crate::asked::Placing;
use crate::failure::Why;
use ods_amend::may_give;
use ods_base::{FileId, Uic};
use ods_filing::Filing;
use ods_header::CONTIGUOUS;
use ods_request::Stat;

/// Returns where the blocks of a file are allocated: as `said`, otherwise in one piece if the file that it replaces is contiguous.
pub(crate) fn placing_kept(said: Option<Placing>, held: &Option<Stat>) -> Placing
    ensures { result ≡ kept_placing said held.now }
{
    if let Some(placing) = said {
        return placing;
    }
    match held {
        Some(stat) if stat.user_char >= CONTIGUOUS => Placing::InOnePiece,
        _ => Placing::Anywhere,
    }
}

/// Gives a file of `blocks` blocks the characteristics of the file that it replaces, if there is one, and then its protection and its owner. `said` is
/// the owner that the command specifies. Otherwise the file receives the owner that the user may give it, and stays with its maker if he may not.
pub(crate) fn keep_access(
    filing: &mut Filing,
    file: FileId,
    said: Option<Uic>,
    placing: Placing,
    blocks: usize,
    held: &Option<Stat>,
) -> Result<(), Why>
    ensures given { OnOk result (KeepsAccess said placing blocks held.now file filing.old filing.new) }
    ensures refused { IfErr result (KeepsNoAccess placing blocks held.now file filing.old filing.new) }
{
    let Some(stat) = held else {
        return Ok(());
    };
    let owner = owner_kept(said, filing.user(), stat);
    if let Err(refusal) = filing.set_characteristics(file, flags_kept(placing, blocks, stat)) {
        return Err(Why::Request(refusal));
    }
    match filing.set_access(file, owner, Some(stat.protection)) {
        Ok(()) => Ok(()),
        Err(refusal) => Err(Why::Request(refusal)),
    }
}

/// The characteristics of a file of so many blocks that replaces another.
fn flags_kept(placing: Placing, blocks: usize, stat: &Stat) -> u8
    ensures { result ≡ kept_flags placing blocks stat.now }
{
    let flags = stat.user_char % CONTIGUOUS;
    match placing {
        Placing::Anywhere => flags,
        Placing::InOnePiece => flags + contiguous_mark(blocks),
    }
}

/// UC.CON for a file of so many blocks in one piece.
fn contiguous_mark(blocks: usize) -> u8
    ensures { result ≡ contiguous_char blocks }
{
    if blocks == 0 { 0 } else { CONTIGUOUS }
}

/// The owner that a file receives from the file that it replaces.
fn owner_kept(said: Option<Uic>, user: Uic, stat: &Stat) -> Option<Uic>
    ensures { result ≡ kept_owner said user stat.now }
{
    if said.is_none() && may_give(&user, &stat.owner) {
        Some(stat.owner)
    } else {
        None
    }
}

//! The saving of images under their name, through a hidden file.
ghost use Rattle.std.specs.Prelude.{[], ◌≡◌, ◌≢◌, ◌++◌, ℕ, List, Some, None, Option, IfErr, OnOk, OnErr};
ghost use Rattle.ods_base.specs.Image.{image_bytes};
ghost use Rattle.fs_saving.specs.Folder.{Stays, OthersStay, RestStays, OthersLast, LastsOrIs, EndsStay};
ghost use Rattle.fs_saving.specs.Saving.{IsCleared, IsEarly, IsLeft, MayCome};

use crate::{Folder, Unsaved};
use ods_base::Image;

/// Saves an image, with `behind` after it, under this name. It writes the bytes into a hidden file, syncs it and reads it back, and only then renames
/// it. So the name has its former content or the new bytes at each moment, even if the program is killed. After a failure the hidden file is removed.
pub fn save<F: Folder>(
    folder: &mut F,
    hidden: &str,
    name: &str,
    image: &Image,
    behind: &[u8],
) -> Result<(), Unsaved<F::Fault>>
    ensures ok { OnOk result (F.has folder.new name.now (Some (image_bytes image.now ++ behind.now))) }
    ensures err { name.now ≢ hidden.now → IfErr result (λ unsaved. IsLeft unsaved (Stays (F.has folder.old) (F.has folder.new) name.now)
        (F.has folder.new name.now (Some (image_bytes image.now ++ behind.now)))) }
    ensures why { IfErr result (MayCome (F.may_end folder.old)) }
    ensures cause { OnErr result (F.has_failed folder.new) }
    ensures gone { IfErr result (IsCleared (F.has folder.new hidden.now None) (F.has_left folder.new)) }
    ensures others { RestStays (F.has folder.old) (F.has folder.new) name.now hidden.now }
    ensures moments { F.knows → name.now ≢ hidden.now → LastsOrIs (F.had folder.old) (F.had folder.new) name.now
        (Some (image_bytes image.now ++ behind.now)) }
{
    let mut file = match folder.make(hidden) {
        Ok(file) => file,
        Err(fault) => return Err(Unsaved::Make(fault)),
    };
    let done = give(folder, &mut file, name, image, behind);
    if done.is_err() {
        let _ = folder.remove(file);
    }
    done
}

/// Gives a new file, which was given nothing yet, the bytes, and then the name.
fn give<F: Folder>(
    folder: &mut F,
    file: &mut F::File,
    name: &str,
    image: &Image,
    behind: &[u8],
) -> Result<(), Unsaved<F::Fault>>
    requires { F.given file.old [] }
    ensures named { F.hidden file.new ≡ F.hidden file.old }
    ensures ok { OnOk result (F.has folder.new name.now (Some (image_bytes image.now ++ behind.now))) }
    ensures err { name.now ≢ F.hidden file.old → IfErr result (λ unsaved. IsLeft unsaved (Stays (F.has folder.old) (F.has folder.new) name.now)
        (F.has folder.new name.now (Some (image_bytes image.now ++ behind.now)))) }
    ensures why { IfErr result (MayCome (F.may_end folder.old)) }
    ensures cause { OnErr result (F.has_failed folder.new) }
    ensures others { RestStays (F.has folder.old) (F.has folder.new) name.now (F.hidden file.old) }
    ensures moments { F.knows → name.now ≢ F.hidden file.old → LastsOrIs (F.had folder.old) (F.had folder.new) name.now
        (Some (image_bytes image.now ++ behind.now)) }
{
    if let Err(unsaved) = fill(folder, file, image, behind) {
        return Err(unsaved);
    }
    match folder.rename(file, name) {
        Ok(()) => Ok(()),
        Err(fault) => Err(Unsaved::Rename(fault)),
    }
}

/// Gives a new file, which was given nothing yet, the bytes, which are on the disk then and read back.
fn fill<F: Folder>(
    folder: &mut F,
    file: &mut F::File,
    image: &Image,
    behind: &[u8],
) -> Result<(), Unsaved<F::Fault>>
    requires { F.given file.old [] }
    ensures named { F.hidden file.new ≡ F.hidden file.old }
    ensures ok { OnOk result (F.has folder.new (F.hidden file.old) (Some (image_bytes image.now ++ behind.now))) }
    ensures alone { OnOk result (F.knows → (held : Option (List ℕ)) → F.has folder.new (F.hidden file.old) held
        → held ≡ Some (image_bytes image.now ++ behind.now)) }
    ensures synced { OnOk result (F.is_synced file.new) }
    ensures why { IfErr result (MayCome (F.may_end folder.old)) }
    ensures cause { OnErr result (F.has_failed folder.new) }
    ensures early { IfErr result IsEarly }
    ensures others { OthersStay (F.has folder.old) (F.has folder.new) (F.hidden file.old) }
    ensures moments { OthersLast (F.had folder.old) (F.had folder.new) (F.hidden file.old) }
    ensures ends { EndsStay (F.may_end folder.old) (F.may_end folder.new) }
{
    if let Err(fault) = folder.write(file, image, behind) {
        return Err(Unsaved::Write(fault));
    }
    if let Err(fault) = folder.sync(file) {
        return Err(Unsaved::Write(fault));
    }
    if folder.holds(file, image, behind) {
        Ok(())
    } else {
        Err(Unsaved::Differs)
    }
}

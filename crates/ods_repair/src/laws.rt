//! Laws over the definitions only. The clause of a function without a body states each law.
ghost use Rattle.ods_repair.specs.{Tables.TablesSayAll, Wholly.MendedIsSound, Wholly.MendedLinesAreSound};

/// Proves that `used`, `share` and `double` together make an image sound, if all its faults are of these kinds.
pub fn mended_is_sound()
    ensures { MendedIsSound }
{}

/// Proves the same if each line that `check_all` returns for an image is of one of these kinds.
pub fn mended_lines_are_sound()
    ensures { MendedLinesAreSound }
{}

/// Proves that the results of a mount and a check of an image depend only on its tables. These are the locations of home blocks, INDEXF.SYS,
/// BITMAP.SYS and directories.
pub fn tables_say_all()
    ensures { TablesSayAll }
{}

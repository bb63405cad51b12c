//! A law about definitions. It is a function with an empty body.
ghost use Rattle.ods_mount.specs.Laws.{SoundHasNoFault};

/// No fault holds for an image that is sound by its structure.
pub fn sound_has_no_fault()
    ensures { SoundHasNoFault }
{}

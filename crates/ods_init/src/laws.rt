//! The law that a new volume is sound, over the definitions only.
ghost use Rattle.ods_init.specs.New.{NewIsSound};

/// A new volume is sound.
pub fn new_volume_is_sound()
    ensures { NewIsSound }
{}

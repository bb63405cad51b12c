//! Laws over the definitions only.
ghost use Rattle.fs_words.specs.Devices.{FloppiesFit};

/// Proves that a floppy of a device has as many blocks as its order.
pub fn floppies_fit()
    ensures { FloppiesFit }
{}

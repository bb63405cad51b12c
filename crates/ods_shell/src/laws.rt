//! Laws over the definitions only. The clause of a function without a body states each law.
ghost use Rattle.ods_shell.specs.{Contents.SoundChainsAreGot, Facts.FactsOfSound};

/// Proves that on a sound image each file with facts has a whole chain, and all its blocks count.
pub fn facts_of_sound()
    ensures { FactsOfSound }
{}

/// Proves that on a sound image no file is refused because of its chain.
pub fn sound_chains_are_got()
    ensures { SoundChainsAreGot }
{}

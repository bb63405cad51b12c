//! Laws of paths.
ghost use Rattle.ods_paths.specs.Bad.{SaysOneThing, BadSaysNothing};

/// Proves that a text has at most one meaning as a path.
pub fn says_one_thing()
    ensures { SaysOneThing }
{}

/// Proves that a bad text has no meaning as a path.
pub fn bad_says_nothing()
    ensures { BadSaysNothing }
{}

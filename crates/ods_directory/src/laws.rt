//! Laws about definitions. Each law is a function with an empty body.
ghost use Rattle.ods_directory.specs.Names.{GoodLinesAreNames};

/// In a directory without damage, the good lines are all of its names.
pub fn good_lines_are_names()
    ensures { GoodLinesAreNames }
{}

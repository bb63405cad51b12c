//! Laws over the definitions only: each is the contract of a function without a body.
ghost use Rattle.ods_walk.specs.{Complete.WalksAreComplete, Listing.ListsTheNames};

/// A walk from the master directory has exactly the entries of the directories that names reach from there.
pub fn walks_are_complete()
    ensures { WalksAreComplete }
{}

/// On a sound image a listing has exactly the names of the directory.
pub fn lists_the_names()
    ensures { ListsTheNames }
{}

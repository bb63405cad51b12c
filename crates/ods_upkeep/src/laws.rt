//! Laws of the commands, over the definitions: each is the contract of a function with no body.
ghost use Rattle.ods_upkeep.specs.CopiesThere.{CopiedIsThere, CopiedTreeIsThere, CopiesAreThere, CopyIsThere};
ghost use Rattle.ods_upkeep.specs.Laws.{AppendPutsBehind, GetGivesWhatWasPut, MvThereAndBack, RmUndoesPut};
ghost use Rattle.ods_upkeep.specs.PutBack.{KeptComesBack, LeafComesBack, TreeComesBack};

/// Appended bytes come after the old bytes of the file, and its attributes state that it ends there; nothing else changes.
pub fn append_puts_behind()
    ensures { AppendPutsBehind }
{}

/// A file that is put, and then removed by the version under which it was entered, leaves what the blocks showed before.
pub fn rm_undoes_put()
    ensures { RmUndoesPut }
{}

/// A name that is moved, and then back under its old version, leaves what the blocks showed before.
pub fn mv_there_and_back()
    ensures { MvThereAndBack }
{}

/// A file that was put, with attributes that end where its bytes end, gives these bytes back, and `get -b` gives no others.
pub fn get_gives_what_was_put()
    ensures { GetGivesWhatWasPut }
{}

/// A file copied from another volume has all bytes of its blocks, its attributes, its protection, its name and its version. Nothing that was here is
/// lost.
pub fn copy_is_there()
    ensures { CopyIsThere }
{}

/// Each of the files that are copied in order is there at the end: a later copy does not change an earlier one.
pub fn copies_are_there()
    ensures { CopiesAreThere }
{}

/// After `cp --from`, each file that its paths find on the other volume is here, and `cmp` finds the same bytes in both.
pub fn copied_is_there()
    ensures { CopiedIsThere }
{}

/// After `cp --from -r`, each file of the directories of the other volume, and below them, is here under the same names.
pub fn copied_tree_is_there()
    ensures { CopiedTreeIsThere }
{}

/// A put file of a host tree is there under the names of its path, and `get` gives its bytes back.
pub fn leaf_comes_back()
    ensures { LeafComesBack }
{}

/// Folders and files of a tree that are put in order are all there at the end. `get` gives the bytes of each file back.
pub fn tree_comes_back()
    ensures { TreeComesBack }
{}

/// A file in the form that `put` keeps of the version before gives exactly the bytes of the host file.
pub fn kept_comes_back()
    ensures { KeptComesBack }
{}

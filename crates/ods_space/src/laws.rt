//! Laws about definitions. Each law is a function with an empty body.
ghost use Rattle.ods_space.specs.{Growth.PlacesStay, Reach.ReachedIsOne, Reach.WholeIsChain};

/// The blocks that the first headers of INDEXF.SYS map are the first blocks that one more header maps. So the LBN of a located header never changes.
pub fn places_stay()
    ensures { PlacesStay }
{}

/// A chain that is traversed whole is the chain of its file, and the converse holds.
pub fn whole_is_chain()
    ensures { WholeIsChain }
{}

/// A chain that is not whole maps exactly one list of blocks, as far as it can be traversed.
pub fn reached_is_one()
    ensures { ReachedIsOne }
{}

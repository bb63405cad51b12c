//! Laws about definitions. Each law is a function with an empty body.
ghost use Rattle.ods_alloc.specs.Chains.{ChainGrows};

/// A longer chain results if the last header of a chain receives more pointers and links to new headers. It continues with these headers, and maps
/// the blocks of the new pointers after its own.
pub fn chain_grows()
    ensures { ChainGrows }
{}

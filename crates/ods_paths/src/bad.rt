//! The reasons why a text is not a valid path.
use thiserror::Error;

/// The part of a text because of which it is not a valid path.
#[derive(Clone, Copy, Debug, Drop, Error, PartialEq, Eq)]
pub enum BadPath {
    /// The text is empty.
    #[error("the path is empty")]
    Empty,
    /// The text after `#` or `@` is not a valid file ID.
    #[error("not a valid file ID: #6,1 is file 6 with sequence number 1")]
    Id,
    /// The text begins with `[` and has no `]`, or there is nothing between the brackets.
    #[error("the directory is empty or has no ']': write [1,2], or [0,0] for the master directory")]
    Bracket,
    /// A part for directories is not a valid directory.
    #[error("not a valid directory: [1,2] has octal digits, 0 to 7, up to 377; [NAME] has at most 9 of A to Z, 0 to 9, $")]
    Directory,
    /// The name is not a valid pattern for at most 9 characters.
    #[error("not a valid name: a name has at most 9 and a type at most 3 of A to Z, 0 to 9, $")]
    Name,
    /// The type is not a valid pattern for at most 3 characters.
    #[error("not a valid type: a type has at most 3 of A to Z, 0 to 9, $")]
    Type,
    /// A version follows a name that has no dot and no wildcard.
    #[error("a version after a name without a dot: write NAME.;1 for no type, NAME.*;1 for any type")]
    NoDot,
    /// The text after `;` or `:` does not choose a version.
    #[error("not a valid version: ;3 is version 3, ;0 the highest, ;-1 the lowest, ';*' (in quotes) all versions")]
    Version,
}

//! The version of the program. `dist/make` writes the commit of the sources into it.

/// What `--version` prints after the name of the program.
pub(crate) const VERSION: &str = "2.0.0 (5ccbbc1a)";

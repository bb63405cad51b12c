//! The name of a desk. By it contracts know the mounted image, the opening list and the limit of a desk.
use std::marker::Brand;

/// The name of a desk: the mounted image, the entries when the desk was opened, and the highest number of entries. Only contracts see it. A program
/// picks the name when it opens a desk. No value of this type is made.
pub trait Naming {
    ghost use Rattle.std.specs.Prelude.{List, ℕ};
    ghost use Rattle.ods_request.specs.declared.answers.Entry.{Entry};

    ghost mounted: { List (List ℕ) };

    ghost opening: { List Entry };

    ghost limit: { ℕ };
}

impl Naming for Brand {
    ghost use Rattle.std.specs.Prelude.{[]};

    ghost mounted = { [] };

    ghost opening = { [] };

    ghost limit = { 0 };
}

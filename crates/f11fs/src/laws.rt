//! Laws of the program.
ghost use Rattle.f11fs.specs.Laws.{ShownIsRead};

/// The protection that `ls -l` prints is the protection that `chmod` accepts for it.
pub fn shown_is_read()
    ensures { ShownIsRead }
{}

//! Laws of put files and of lists of requests, over the definitions only: each is the contract of a function without a body.
ghost use Rattle.ods_filing.specs.Led.{ListsAreSteps};
ghost use Rattle.ods_filing.specs.Laws.{BytesComeBack, TextComesBack, FormComesBack, ChosenComesBack};

/// A file that was put as bytes gives these bytes back: the bytes of its blocks up to the end of file in its attributes.
pub fn bytes_come_back()
    ensures { BytesComeBack }
{}

/// A file that was put as the records of a plain text gives the text back.
pub fn text_comes_back()
    ensures { TextComesBack }
{}

/// A file that was put as bytes in the form of another file gives these bytes back. It has the attributes of the other file except the end of file.
pub fn form_comes_back()
    ensures { FormComesBack }
{}

/// Records that are extracted as lines without an option, and put again as a text, are unchanged.
pub fn chosen_comes_back()
    ensures { ChosenComesBack }
{}

/// Consecutive requests that turn one volume into another are steps of each catalogue that the blocks show. The last step leaves a catalogue that the
/// new blocks show.
pub fn lists_are_steps()
    ensures { ListsAreSteps }
{}

//! Laws over the definitions only: each is the contract of a function without a body.
ghost use Rattle.ods_records.specs.Laws.{OneReading, OneFault, RecordsOrFault, WrittenIsRead, PlainTextComesBack, LinesComeBack, EndIsSet};

/// Bytes spell at most one list of records.
pub fn one_reading()
    ensures { OneReading }
{}

/// Bytes have at most one fault, and if they have one they spell no records.
pub fn one_fault()
    ensures { OneFault }
{}

/// Bytes spell records, or have a fault.
pub fn records_or_fault()
    ensures { RecordsOrFault }
{}

/// The written bytes of records are read as these records.
pub fn written_is_read()
    ensures { WrittenIsRead }
{}

/// The written records of a plain text are read as that text.
pub fn plain_text_comes_back()
    ensures { PlainTextComesBack }
{}

/// Records that are extracted as lines without an option are read again unchanged from the written records of their text.
pub fn lines_come_back()
    ensures { LinesComeBack }
{}

/// Attributes that are set for a file of `n` bytes give `n` as its end of file.
pub fn end_is_set()
    ensures { EndIsSet }
{}

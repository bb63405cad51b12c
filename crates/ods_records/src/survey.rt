//! The common properties of all records of a file. The survey takes no memory.
ghost use Rattle.std.specs.Prelude.{◌≡◌, ◌&&◌, ◌||◌, ◌==◌, not, ℕ, List, Ok, length, max, IfOk, IfErr};
ghost use Rattle.std.specs.List.{list_all};
ghost use Rattle.ods_records.specs.{Attributes.is_controlled as controlled, Records.Spells, Faults.IsFirstFault, Survey.survey_of, Survey.is_line as line_is, Survey.is_printable as printable_is, Survey.ends_with_cr as cr_ends};

use crate::attributes::is_controlled;
use crate::reading::step;
use crate::texts::is_text;
use crate::{RecordFault, RecordKind};

/// The common properties of all records of a file.
#[derive(Clone, Copy, Debug, PartialEq, Eq)]
pub struct Survey {
    /// The size of the longest record in bytes, without its header, or 0 without records.
    pub longest: usize,
    /// Whether each record is one line in a text: it has no LF, and no CR at its end.
    pub lines: bool,
    /// Whether each byte is valid in a text.
    pub printable: bool,
}

impl Survey {
    /// With one record more.
    fn with(self, one: &[u8]) -> Survey
        ensures longest { result.longest ≡ max self.longest (length one.now) }
        ensures lines { result.lines ≡ (self.lines && line_is one.now) }
        ensures printable { result.printable ≡ (self.printable && printable_is one.now) }
    {
        Survey {
            longest: self.longest.max(one.len()),
            lines: self.lines && is_line(one),
            printable: self.printable && is_text(one),
        }
    }

    /// Returns whether the records of a file with these attributes are extracted as lines without an option. Each is a line again, and they have
    /// carriage control or can be printed.
    pub fn come_as_lines(&self, attributes: &[u8; 32]) -> bool
        ensures { result ≡ (self.now.lines && (controlled attributes.now || self.now.printable)) }
    {
        self.lines && (is_controlled(attributes) || self.printable)
    }
}

/// Whether a record is a line of its own again in a text: it has no LF, and no CR at its end.
fn is_line(one: &[u8]) -> bool
    ensures { result ≡ line_is one.now }
{
    has_no_lf(one) && !ends_with_cr(one)
}

/// Whether no byte is an LF.
fn has_no_lf(one: &[u8]) -> bool
    ensures { result ≡ list_all (λ b. not (b == 10)) one.now }
{
    one.iter().all(|b| *b != b'\n')
}

/// Whether the last byte is a CR.
fn ends_with_cr(one: &[u8]) -> bool
    ensures { result ≡ cr_ends one.now }
{
    !one.is_empty() && one[one.len() - 1] == b'\r'
}

/// Returns the common properties of the records of a file, or the first fault.
pub fn survey_records(kind: RecordKind, bytes: &[u8]) -> Result<Survey, RecordFault>
    ensures ok { IfOk result (λ survey. (records : List (List ℕ)) × Spells kind bytes.now records × (survey ≡ survey_of records)) }
    // What the bytes spell is surveyed.
    ensures only { (records : List (List ℕ)) → Spells kind bytes.now records → result ≡ Ok (survey_of records) }
    ensures err { IfErr result (IsFirstFault kind bytes.now) }
{
    let mut survey = Survey {
        longest: 0,
        lines: true,
        printable: true,
    };
    let mut at = 0;
    while at < bytes.len() {
        let (record, next) = match step(kind, bytes, at) {
            Ok(found) => found,
            Err(fault) => return Err(fault),
        };
        if let Some(record) = record {
            survey = survey.with(record);
        }
        at = next;
    }
    Ok(survey)
}

//! Text files of RSX-11: a text as records, the attributes of such a file, and the text back. The crate has no volume.
#![tactic(auto)]

mod attributes;
mod faults;
mod forms;
mod kind;
mod laws;
mod lines;
mod long;
mod near;
mod reading;
mod sized;
mod survey;
mod texts;
mod writing;

pub use attributes::{
    binary_attributes, end_of_file, ending_at, is_controlled, kind_of, record_size,
    text_attributes, text_form,
};
pub use faults::{RecordFault, TextFault};
pub use forms::{FormWords, parse_form, print_form};
pub use kind::{RecordKind, TextForm, Wanted};
pub use laws::{
    end_is_set, lines_come_back, one_fault, one_reading, plain_text_comes_back, records_or_fault,
    written_is_read,
};
pub use long::{LongRecord, first_long};
pub use near::{NearText, why_no_text};
pub use reading::records_to_text;
pub use sized::{fixed_to_text, stream_to_text};
pub use survey::{Survey, survey_records};
pub use texts::{is_plain_text, is_text};
pub use writing::{Records, text_to_records};

//! Requests, their answers and refusals, the check of access rights, and the effect of a request on a catalogue.
#![tactic(auto)]

mod answers;
mod compact_answer;
mod compact_request;
mod idents;
mod laws;
mod refusals;
mod requests;
mod rights;
mod stamps;

pub use answers::{Answer, Entry, Kind, Listing, Stat};
pub use compact_answer::{AnswerForm, CompactAnswer};
pub use compact_request::{CompactRequest, RequestForm};
pub use idents::new_ident;
pub use laws::{
    answer_is_determined, answer_is_step, answers_agree, created_is_new, default_stays,
    entered_is_found, looking_changes_nothing, other_files_stay, past_is_kept, refused_has_no_step,
    removed_is_gone, replay_goes_on,
};
pub use ods_base::{Listed, Pick};
pub use refusals::Refusal;
pub use requests::{Query, Request};
pub use rights::{Right, permits};
pub use stamps::Stamp;

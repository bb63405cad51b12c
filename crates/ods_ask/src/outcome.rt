//! The outcome of a script: its replies, and its calls.
use ods_base::Uic;
use ods_request::{CompactAnswer, CompactRequest, Refusal};

/// The reply to a command.
#[derive(Drop, PartialEq, Eq, Debug)]
pub enum Reply {
    /// The user changed.
    User,
    /// The request was accepted, with this answer.
    Got(CompactAnswer),
    /// The request was refused.
    No(Refusal),
    /// There is no version left to read.
    Closed,
    /// The line is not a valid command, or `$` stands for no file in it.
    Bad,
}

/// An accepted request of a session: the command's number, the user in force, the request as it was made, and its answer.
#[derive(Drop, PartialEq, Eq, Debug)]
pub struct Call {
    /// The number of the command in its script.
    pub nth: u32,
    /// The user in force.
    pub who: Uic,
    /// The request, with the values of `$` and the stamp inserted.
    pub request: CompactRequest,
    /// The answer of the desk.
    pub answer: CompactAnswer,
}

/// The outcome of a script: its accepted requests in order, and a reply for each command.
#[derive(Drop, PartialEq, Eq, Debug)]
pub struct Outcome {
    pub calls: Vec<Call>,
    pub replies: Vec<Reply>,
}

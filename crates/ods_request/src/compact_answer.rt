//! Compact answers, as replies and calls store them. A block and the facts about a file are in a box.
ghost use Rattle.std.specs.Prelude.{◌≡◌, ◌↔◌, ◌⊎◌, IsTrue, IfOk, OnErr, true};
ghost use Rattle.ods_request.specs.{CompactAnswer.is_long, AnswerForms.answer_in, Lines.HasLines};

use crate::answers::{Answer, Listing, Stat};
use ods_base::{Block, FileId};
use std::alloc::{AllocError, Global};
use std::marker::Model;

/// A compact answer: 32 bytes, and a box only for a block or for the facts about a file. A contract sees the answer.
#[derive(Drop, Debug)]
pub struct CompactAnswer {
    form: AnswerForm,
}

/// The form of a compact answer. A block and the facts about a file are in a box.
#[derive(Drop, PartialEq, Eq, Debug)]
pub enum AnswerForm {
    /// Create: the ID of the new file.
    Created(FileId),
    /// Extend: the new number of blocks of the file.
    Extended(u32),
    /// Truncate: the new number of blocks of the file.
    Truncated(u32),
    /// Delete, Write and SetUser: no further data.
    Done,
    /// Enter: the version under which the file was entered.
    Entered(u16),
    /// LookUp: the file and the version.
    Found(FileId, u16),
    /// Remove: the file and the version of the removed name.
    Removed(FileId, u16),
    /// Read: the block, in a box.
    Bytes(Box<Block>),
    /// List: the lines of the directory.
    Names(Listing),
    /// Stat: the facts about the file, in a box.
    Info(Box<Stat>),
}

impl Model for CompactAnswer {
    ghost use Rattle.ods_request.specs.declared.answers.Answer.{Answer};

    ghost Value = { Answer };

    ghost use Rattle.ods_request.specs.AnswerForms.{answer_in};

    ghost view = { λ c. answer_in c.form };
}

impl CompactAnswer {
    /// Makes a compact answer of an answer. Only a block and the facts about a file need memory; the lines of a directory are moved. After an error
    /// the answer is lost.
    pub fn of(alloc: Global, answer: Answer) -> Result<CompactAnswer, AllocError>
        ensures ok { IfOk result (λ c. c ≡ answer) }
        ensures err { OnErr result (is_long answer ≡ true) }
    {
        let form = match answer {
            Answer::Created(id) => AnswerForm::Created(id),
            Answer::Extended(count) => AnswerForm::Extended(count),
            Answer::Truncated(count) => AnswerForm::Truncated(count),
            Answer::Done => AnswerForm::Done,
            Answer::Entered(version) => AnswerForm::Entered(version),
            Answer::Found(file, version) => AnswerForm::Found(file, version),
            Answer::Removed(file, version) => AnswerForm::Removed(file, version),
            Answer::Bytes(ref block) => AnswerForm::Bytes(block_in_a_box(alloc, block)?),
            Answer::Names(lines) => AnswerForm::Names(lines),
            Answer::Info(stat) => AnswerForm::Info(Box::new(alloc, stat)?),
        };
        Ok(CompactAnswer { form })
    }

    /// Makes a compact copy of an answer. Only a block, the facts about a file and the lines of a directory need memory.
    pub fn copy_of(alloc: Global, answer: &Answer) -> Result<CompactAnswer, AllocError>
        ensures ok { IfOk result (λ copy. copy ≡ answer.now) }
        ensures err { OnErr result ((is_long answer.now ≡ true) ⊎ HasLines answer.now) }
    {
        let form = match answer {
            Answer::Created(id) => AnswerForm::Created(*id),
            Answer::Extended(count) => AnswerForm::Extended(*count),
            Answer::Truncated(count) => AnswerForm::Truncated(*count),
            Answer::Done => AnswerForm::Done,
            Answer::Entered(version) => AnswerForm::Entered(*version),
            Answer::Found(file, version) => AnswerForm::Found(*file, *version),
            Answer::Removed(file, version) => AnswerForm::Removed(*file, *version),
            Answer::Bytes(block) => AnswerForm::Bytes(block_in_a_box(alloc, block)?),
            Answer::Names(lines) => AnswerForm::Names(lines.copy()?),
            Answer::Info(stat) => AnswerForm::Info(Box::new(alloc, *stat)?),
        };
        Ok(CompactAnswer { form })
    }

    /// Returns an equal compact answer. Only a block, the facts about a file and the lines of a directory need memory.
    pub fn copy(&self, alloc: Global) -> Result<CompactAnswer, AllocError>
        ensures ok { IfOk result (λ copy. copy ≡ self.now) }
        ensures err { OnErr result ((is_long self.now ≡ true) ⊎ HasLines self.now) }
    {
        let form = match &self.form {
            AnswerForm::Created(id) => AnswerForm::Created(*id),
            AnswerForm::Extended(count) => AnswerForm::Extended(*count),
            AnswerForm::Truncated(count) => AnswerForm::Truncated(*count),
            AnswerForm::Done => AnswerForm::Done,
            AnswerForm::Entered(version) => AnswerForm::Entered(*version),
            AnswerForm::Found(file, version) => AnswerForm::Found(*file, *version),
            AnswerForm::Removed(file, version) => AnswerForm::Removed(*file, *version),
            AnswerForm::Bytes(block) => AnswerForm::Bytes(block_in_a_box(alloc, block)?),
            AnswerForm::Names(lines) => AnswerForm::Names(lines.copy()?),
            AnswerForm::Info(stat) => AnswerForm::Info(Box::new(alloc, **stat)?),
        };
        Ok(CompactAnswer { form })
    }

    /// Returns the form of the answer, by reference.
    pub fn form(&self) -> &AnswerForm
        ensures { answer_in result.now ≡ self.now }
    {
        &self.form
    }

    /// Returns whether the compact answer equals this answer.
    pub fn is(&self, answer: &Answer) -> bool
        ensures { IsTrue result ↔ (self.now ≡ answer.now) }
    {
        match (&self.form, answer) {
            (AnswerForm::Created(one), Answer::Created(other)) => one == other,
            (AnswerForm::Extended(one), Answer::Extended(other)) => one == other,
            (AnswerForm::Truncated(one), Answer::Truncated(other)) => one == other,
            (AnswerForm::Done, Answer::Done) => true,
            (AnswerForm::Entered(one), Answer::Entered(other)) => one == other,
            (AnswerForm::Found(file, version), Answer::Found(id, number)) => {
                file == id && version == number
            }
            (AnswerForm::Removed(file, version), Answer::Removed(id, number)) => {
                file == id && version == number
            }
            (AnswerForm::Bytes(one), Answer::Bytes(other)) => **one == *other,
            (AnswerForm::Names(one), Answer::Names(other)) => one == other,
            (AnswerForm::Info(one), Answer::Info(other)) => **one == *other,
            _ => false,
        }
    }
}

/// A block in a box. It stands by itself, so that what has no block does not pay for one.
fn block_in_a_box(alloc: Global, block: &Block) -> Result<Box<Block>, AllocError>
    ensures { IfOk result (λ kept. kept.value ≡ block.now) }
{
    let kept = Box::new(alloc, *block)?;
    Ok(kept)
}

impl PartialEq for CompactAnswer {
    ghost use Rattle.ods_request.specs.{Equal.same_answer, Deciding.answers_partial_equivalence};

    ghost eq = { same_answer };

    ghost laws = { answers_partial_equivalence };

    fn eq(&self, other: &CompactAnswer) -> bool {
        self.form == other.form
    }
}

impl Eq for CompactAnswer {
    ghost use Rattle.ods_request.specs.Deciding.{answers_equivalence};

    ghost laws = { answers_equivalence };
}

//! The list of accepted requests: a row for each entry, and two pools for large answers, the blocks of Reads and the Stats. The list takes all its
//! memory when it is made. Only large answers touch the pages of a pool.
ghost use Rattle.std.specs.Prelude.{◌≡◌, ◌<◌, ◌↔◌, ◌++◌, ◌∷◌, [], length, vec_capacity, slice_index_or, IsTrue, IfOk, OnErr};
ghost use Rattle.ods_request.specs.{declared.answers.Entry.Entry, Lines.HasLines};
ghost use Rattle.ods_request.specs.declared.answers.Answer.TheVariants as Answer;
ghost use Rattle.ods_state.specs.Outcome.{entry_of};
ghost use Rattle.ods_volume.specs.Entries.{IsPut};

use ods_base::{Block, FileId, Uic};
use ods_request::{Answer, AnswerForm, CompactAnswer, CompactRequest, Entry, Listing, Stat};
use std::alloc::{AllocError, Global};
use std::marker::Model;
use std::mem;

/// Accepted requests with their answers, the oldest first. A contract sees the entries, and the number of entries for which there is memory.
#[derive(Drop)]
pub struct Entries {
    rows: Vec<EntryRow>,
    block_pool: Vec<Block>,
    stat_pool: Vec<Stat>,
}

/// An entry without what is large of its answer.
#[derive(Drop)]
struct EntryRow {
    session: u16,
    who: Uic,
    nth: u32,
    request: CompactRequest,
    answer: RowAnswer,
}

/// An answer, of which a block and what is shown of a file stand in a pool, at this place.
#[derive(Drop)]
enum RowAnswer {
    Created(FileId),
    Extended(u32),
    Truncated(u32),
    Done,
    Entered(u16),
    Found(FileId, u16),
    Removed(FileId, u16),
    Bytes(usize),
    Names(Listing),
    Info(usize),
}

impl Model for Entries {
    ghost use Rattle.ods_volume.specs.Entries.{EntryList};

    ghost Value = { EntryList };

    ghost use Rattle.std.specs.Prelude.{map};
    ghost use Rattle.std.specs.Vec.{vec_capacity};
    ghost use Rattle.ods_volume.specs.Entries.{entry_in, IsPooled};

    ghost view = { λ e. record { items = map (entry_in e.block_pool.items e.stat_pool.items) e.rows.items; room = vec_capacity e.rows } };

    ghost invariant = { λ e. IsPooled e.rows.items e.block_pool.items e.stat_pool.items (vec_capacity e.rows) (vec_capacity e.block_pool) (vec_capacity e.stat_pool) };
}

/// Puts what is large of an answer into its pool, and gives the rest. Lines are taken out of their place, and all else is copied.
fn put_answer(
    block_pool: &mut Vec<Block>,
    stat_pool: &mut Vec<Stat>,
    answer: &mut Answer,
) -> RowAnswer
    requires block { length block_pool.old.items < vec_capacity block_pool.old }
    requires stat { length stat_pool.old.items < vec_capacity stat_pool.old }
    ensures put { IsPut block_pool.old.items block_pool.new.items stat_pool.old.items stat_pool.new.items answer.old result }
    ensures blocks_fit { vec_capacity block_pool.new ≡ vec_capacity block_pool.old }
    ensures stats_fit { vec_capacity stat_pool.new ≡ vec_capacity stat_pool.old }
{
    match answer {
        Answer::Created(file) => RowAnswer::Created(*file),
        Answer::Extended(count) => RowAnswer::Extended(*count),
        Answer::Truncated(count) => RowAnswer::Truncated(*count),
        Answer::Done => RowAnswer::Done,
        Answer::Entered(version) => RowAnswer::Entered(*version),
        Answer::Found(file, version) => RowAnswer::Found(*file, *version),
        Answer::Removed(file, version) => RowAnswer::Removed(*file, *version),
        Answer::Bytes(block) => {
            let at = block_pool.len();
            block_pool.push_reserved(*block);
            RowAnswer::Bytes(at)
        }
        Answer::Names(lines) => {
            let none = Listing::new(Vec::new(*block_pool.allocator()));
            RowAnswer::Names(mem::replace(lines, none))
        }
        Answer::Info(stat) => {
            let at = stat_pool.len();
            stat_pool.push_reserved(*stat);
            RowAnswer::Info(at)
        }
    }
}

/// Whether an answer is this block.
fn is_block(answer: &Answer, block: &Block) -> bool
    ensures { IsTrue result ↔ (answer.now ≡ Answer.Bytes block.now) }
{
    match answer {
        Answer::Bytes(other) => other == block,
        _ => false,
    }
}

/// Whether an answer is what is shown of a file.
fn is_stat(answer: &Answer, stat: &Stat) -> bool
    ensures { IsTrue result ↔ (answer.now ≡ Answer.Info stat.now) }
{
    match answer {
        Answer::Info(other) => other == stat,
        _ => false,
    }
}

/// Whether an answer is these lines.
fn is_listing(answer: &Answer, lines: &Listing) -> bool
    ensures { IsTrue result ↔ (answer.now ≡ Answer.Names lines.now) }
{
    match answer {
        Answer::Names(others) => others == lines,
        _ => false,
    }
}

/// Whether an answer in little room is this block.
fn has_block(answer: &CompactAnswer, block: &Block) -> bool
    ensures { IsTrue result ↔ (answer.now ≡ Answer.Bytes block.now) }
{
    match answer.form() {
        AnswerForm::Bytes(other) => **other == *block,
        _ => false,
    }
}

/// Whether an answer in little room is what is shown of a file.
fn has_stat(answer: &CompactAnswer, stat: &Stat) -> bool
    ensures { IsTrue result ↔ (answer.now ≡ Answer.Info stat.now) }
{
    match answer.form() {
        AnswerForm::Info(other) => **other == *stat,
        _ => false,
    }
}

/// Whether an answer in little room is these lines.
fn has_lines(answer: &CompactAnswer, lines: &Listing) -> bool
    ensures { IsTrue result ↔ (answer.now ≡ Answer.Names lines.now) }
{
    match answer.form() {
        AnswerForm::Names(others) => others == lines,
        _ => false,
    }
}

impl Entries {
    /// Returns an empty list with memory for `room` entries with any answers, except the lines of directories. It fails only when out of memory.
    pub fn with_capacity(alloc: Global, room: usize) -> Result<Entries, AllocError>
        ensures { IfOk result (λ e. e ≡ record { items = []; room = room }) }
    {
        let rows = Vec::with_capacity(alloc, room)?;
        let block_pool = Vec::with_capacity(alloc, room)?;
        let stat_pool = Vec::with_capacity(alloc, room)?;
        Ok(Entries {
            rows,
            block_pool,
            stat_pool,
        })
    }

    /// Returns whether the list is empty.
    pub fn is_empty(&self) -> bool
        ensures { IsTrue result ↔ (length self.now.items ≡ 0) }
    {
        self.rows.is_empty()
    }

    /// Returns the number of entries.
    pub fn len(&self) -> usize
        ensures { result ≡ length self.now.items }
    {
        self.rows.len()
    }

    /// Appends an entry. It takes no memory. The list must have room for one more entry.
    pub fn push_reserved(&mut self, entry: Entry)
        requires { length self.old.items < self.old.room }
        ensures { self.new ≡ record { items = self.old.items ++ entry ∷ []; room = self.old.room } }
    {
        let Entry {
            session,
            nth,
            who,
            request,
            answer,
        } = entry;
        let mut answer = answer;
        self.push_answered(session, nth, who, request, &mut answer);
    }

    /// Appends an entry whose answer is in `answer`. It takes no memory. The lines of a directory are moved out of `answer`.
    pub(crate) fn push_answered(
        &mut self,
        session: u16,
        nth: u32,
        who: Uic,
        request: CompactRequest,
        answer: &mut Answer,
    )
        requires { length self.old.items < self.old.room }
        ensures { self.new ≡ record { items = self.old.items ++ entry_of session nth who request answer.old ∷ []; room = self.old.room } }
    {
        let answer = put_answer(&mut self.block_pool, &mut self.stat_pool, answer);
        self.rows.push_reserved(EntryRow {
            session,
            who,
            nth,
            request,
            answer,
        });
    }

    /// Returns the user of the request of the entry at index `at`.
    pub fn who(&self, at: usize) -> Uic
        requires { at < length self.now.items }
        ensures { (e : Entry) → result ≡ (slice_index_or self.now.items at e).who }
    {
        self.rows[at].who
    }

    /// Returns the number that the caller gave the request of the entry at index `at`.
    pub fn nth(&self, at: usize) -> u32
        requires { at < length self.now.items }
        ensures { (e : Entry) → result ≡ (slice_index_or self.now.items at e).nth }
    {
        self.rows[at].nth
    }

    /// Returns the request of the entry at index `at`.
    pub fn request(&self, at: usize) -> &CompactRequest
        requires { at < length self.now.items }
        ensures { (e : Entry) → result.now ≡ (slice_index_or self.now.items at e).request }
    {
        &self.rows[at].request
    }

    /// Returns whether the answer of the entry at index `at` is `answer`.
    pub fn is_answered(&self, at: usize, answer: &Answer) -> bool
        requires { at < length self.now.items }
        ensures { (e : Entry) → IsTrue result ↔ (answer.now ≡ (slice_index_or self.now.items at e).answer) }
    {
        match &self.rows[at].answer {
            RowAnswer::Bytes(place) => is_block(answer, &self.block_pool[*place]),
            RowAnswer::Info(place) => is_stat(answer, &self.stat_pool[*place]),
            RowAnswer::Names(lines) => is_listing(answer, lines),
            _ => answer.is_same(&self.answer(at)),
        }
    }

    /// Returns whether the answer of the entry at index `at` is this compact answer.
    pub fn has_answer(&self, at: usize, answer: &CompactAnswer) -> bool
        requires { at < length self.now.items }
        ensures { (e : Entry) → IsTrue result ↔ (answer.now ≡ (slice_index_or self.now.items at e).answer) }
    {
        match &self.rows[at].answer {
            RowAnswer::Bytes(place) => has_block(answer, &self.block_pool[*place]),
            RowAnswer::Info(place) => has_stat(answer, &self.stat_pool[*place]),
            RowAnswer::Names(lines) => has_lines(answer, lines),
            _ => answer.is(&self.answer(at)),
        }
    }

    /// Returns the answer of the entry at index `at`, which must have no lines of a directory. It takes no memory.
    pub fn answer(&self, at: usize) -> Answer
        requires place { at < length self.now.items }
        requires unlined { (e : Entry) → ¬ HasLines (slice_index_or self.now.items at e).answer }
        ensures { (e : Entry) → result ≡ (slice_index_or self.now.items at e).answer }
    {
        match &self.rows[at].answer {
            RowAnswer::Created(file) => Answer::Created(*file),
            RowAnswer::Extended(count) => Answer::Extended(*count),
            RowAnswer::Truncated(count) => Answer::Truncated(*count),
            RowAnswer::Done => Answer::Done,
            RowAnswer::Entered(version) => Answer::Entered(*version),
            RowAnswer::Found(file, version) => Answer::Found(*file, *version),
            RowAnswer::Removed(file, version) => Answer::Removed(*file, *version),
            RowAnswer::Bytes(place) => Answer::Bytes(self.block_pool[*place]),
            RowAnswer::Info(place) => Answer::Info(self.stat_pool[*place]),
            // It has no lines.
            RowAnswer::Names(_) => unreachable!(),
        }
    }

    /// Returns a copy of the answer of the entry at index `at`. Only the lines of a directory take memory, so only they can fail.
    pub fn copy_answer(&self, at: usize) -> Result<Answer, AllocError>
        requires { at < length self.now.items }
        ensures ok { (e : Entry) → IfOk result (λ a. a ≡ (slice_index_or self.now.items at e).answer) }
        ensures err { (e : Entry) → OnErr result (HasLines (slice_index_or self.now.items at e).answer) }
    {
        match &self.rows[at].answer {
            RowAnswer::Names(lines) => match lines.copy() {
                Ok(copy) => Ok(Answer::Names(copy)),
                Err(error) => Err(error),
            },
            _ => Ok(self.answer(at)),
        }
    }

    /// Returns a copy of the entry at index `at`. The block of a Write is shared. It fails only when out of memory.
    pub fn copy(&self, at: usize) -> Result<Entry, AllocError>
        requires { at < length self.now.items }
        ensures { (e : Entry) → IfOk result (λ copy. copy ≡ slice_index_or self.now.items at e) }
    {
        let request = self.request(at).share()?;
        let answer = self.copy_answer(at)?;
        Ok(Entry {
            session: self.session(at),
            nth: self.nth(at),
            who: self.who(at),
            request,
            answer,
        })
    }

    /// Returns the allocator of the list.
    pub(crate) fn allocator(&self) -> Global {
        *self.rows.allocator()
    }

    /// Returns the session of the entry at index `at`.
    pub fn session(&self, at: usize) -> u16
        requires { at < length self.now.items }
        ensures { (e : Entry) → result ≡ (slice_index_or self.now.items at e).session }
    {
        self.rows[at].session
    }
}

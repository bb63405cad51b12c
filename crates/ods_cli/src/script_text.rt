//! The reader and parser of scripts.
ghost use Rattle.std.specs.Prelude.{◌≡◌, ◌<◌, ◌≤◌, ◌^◌, ℕ, List, All, length, vec_len, take, Ok, map, IfOk, IfErr, MatchResult};
ghost use Rattle.std.specs.Io.KnownBytes.{Consumes, IsAtEnd, Keeps};
ghost use Rattle.ods_share.specs.Scripts.{CanBeRun};
ghost use Rattle.ods_script.specs.Numbered.{AreCommandsOf};
ghost use Rattle.ods_cli.specs.ScriptText.{IsScriptOf, IsTextOf, IsScriptFault, AreScriptsOf, EachParsed};

use ods_base::PIECE;
use ods_script::parse_script;
use ods_share::Script;
use std::alloc::{AllocError, Global};
use std::io::Read;
use std::thread::{Threads, map_vec};

/// How many bytes a script has at most.
const MOST_BYTES: usize = 1_048_576;

/// The reason why a script is not read.
#[derive(Clone, Copy, Debug, PartialEq, Eq)]
pub enum ScriptFault {
    /// A read failed.
    Read,
    /// The script has more than 1,048,576 bytes.
    TooLarge,
    /// The allocator refused memory.
    NoMemory,
}

impl From<AllocError> for ScriptFault {
    ghost use Rattle.std.specs.Prelude.{◌≡◌};
    ghost use Rattle.ods_cli.specs.declared.script_text.ScriptFault.TheVariants.{NoMemory};

    ghost from_gives = { λ _ e. e ≡ NoMemory };

    fn from(_error: AllocError) -> ScriptFault {
        ScriptFault::NoMemory
    }
}

/// Reads a script from a reader to its end, and parses all its bytes into commands. A failed read is not tried again.
pub fn read_script<R: Read>(alloc: Global, reader: &mut R) -> Result<Script, ScriptFault>
    ensures can { IfOk result (λ s. CanBeRun s.commands.items) }
    ensures read { (bytes : List ℕ) × Consumes (R.remaining reader.old) (R.remaining reader.new) bytes
        × MatchResult result (λ s. IsScriptOf bytes (R.remaining reader.new) s.commands.items) (IsScriptFault bytes) }
{
    let mut piece = [0u8; PIECE];
    let text = read_text(alloc, reader, &mut piece)?;
    Ok(parse_script(alloc, text.as_slice())?)
}

/// Reads the text of a script from a reader to its end, for [`parse_scripts`]. A failed read is not tried again.
pub fn read_script_text<R: Read>(alloc: Global, reader: &mut R) -> Result<Vec<u8>, ScriptFault>
    ensures { (bytes : List ℕ) × Consumes (R.remaining reader.old) (R.remaining reader.new) bytes
        × MatchResult result (λ text. IsTextOf bytes (R.remaining reader.new) text.items) (IsScriptFault bytes) }
{
    let mut piece = [0u8; PIECE];
    read_text(alloc, reader, &mut piece)
}

/// Parses these texts into scripts, each in a thread of its own if one can be started. It fails only when out of memory.
pub fn parse_scripts<R: Threads + Sync>(
    rt: &R,
    alloc: Global,
    texts: Vec<Vec<u8>>,
) -> Result<Vec<Script>, AllocError>
    requires { All (λ t. length t.items ≤ 2 ^ 20) texts.items }
    ensures count { IfOk result (λ scripts. vec_len scripts ≡ vec_len texts) }
    ensures scripts { IfOk result (λ scripts. AreScriptsOf texts.items scripts.items) }
    ensures can { IfOk result (λ scripts. All (λ s. CanBeRun s.commands.items) scripts.items) }
{
    let done = parse_each(rt, alloc, texts)?;
    let scripts = all_parsed(alloc, done)?;
    Ok(scripts)
}

/// Parses each text, in a thread of its own where one can be made.
fn parse_each<R: Threads + Sync>(
    rt: &R,
    alloc: Global,
    texts: Vec<Vec<u8>>,
) -> Result<Vec<Result<Script, AllocError>>, AllocError>
    requires { All (λ t. length t.items ≤ 2 ^ 20) texts.items }
    ensures count { IfOk result (λ v. vec_len v ≡ vec_len texts) }
    ensures each { IfOk result (λ v. EachParsed texts.items v.items) }
{
    let parse = move |text: Vec<u8>| -> Result<Script, AllocError>
        requires { length text.items ≤ 2 ^ 20 }
        ensures { IfOk result (λ s. AreCommandsOf text.items s.commands.items × CanBeRun s.commands.items) }
    { parse_script(alloc, text.as_slice()) };
    map_vec(rt, texts, &parse)
}

/// The scripts, if each was parsed.
fn all_parsed(
    alloc: Global,
    done: Vec<Result<Script, AllocError>>,
) -> Result<Vec<Script>, AllocError>
    ensures { IfOk result (λ v. done.items ≡ map Ok v.items) }
{
    let mut scripts = Vec::with_capacity(alloc, done.len())?;
    for one in done {
        if scripts.push(one?).is_err() {
            return Err(AllocError);
        }
    }
    Ok(scripts)
}

/// The bytes that a reader gives, to its end. The piece is room to read into.
fn read_text<R: Read>(
    alloc: Global,
    reader: &mut R,
    piece: &mut [u8],
) -> Result<Vec<u8>, ScriptFault>
    requires { 0 < length piece.old }
    ensures { (bytes : List ℕ) × Consumes (R.remaining reader.old) (R.remaining reader.new) bytes
        × MatchResult result (λ text. IsTextOf bytes (R.remaining reader.new) text.items) (IsScriptFault bytes) }
{
    let mut text = Vec::new(alloc);
    'pieces: loop {
        let count = read_piece(reader, piece)?;
        if count == 0 {
            return Ok(text);
        }
        text.extend_from_slice(&piece[..count])?;
        if text.len() > MOST_BYTES {
            return Err(ScriptFault::TooLarge);
        }
    }
}

/// One read into the piece. Any failure is the device's.
fn read_piece<R: Read>(reader: &mut R, piece: &mut [u8]) -> Result<usize, ScriptFault>
    requires { 0 < length piece.old }
    ensures ok { IfOk result (λ count. (count ≤ length piece.new) × Consumes (R.remaining reader.old) (R.remaining reader.new) (take count piece.new)
        × (count ≡ 0 → IsAtEnd (R.remaining reader.new))) }
    ensures err { IfErr result (λ e. (e ≡ ScriptFault.Read) × Keeps (R.remaining reader.old) (R.remaining reader.new)) }
{
    match reader.read(piece) {
        Ok(count) => Ok(count),
        Err(_) => Err(ScriptFault::Read),
    }
}

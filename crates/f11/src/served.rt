//! Scripts from files or from standard input, run on an image.
ghost use Rattle.std.specs.Prelude.{◌+◌, ◌≤◌, ◌^◌, All, IfOk, length, vec_len};
ghost use Rattle.ods_share.specs.Scripts.{CanBeRun};
ghost use Rattle.ods_cli.specs.Runs.{IsLimit};

use crate::out_file::OutFile;
use ods_cli::{
    Options, ScriptFault, ServeFault, Words, parse_scripts, read_script, read_script_text, sample,
    serve,
};
use ods_share::{Gate, Script};
use ods_views::MOST_SESSIONS;
use std::alloc::AllocError;
use std::io::Read;
use std::rt::Files;
use std::sync::Wait;
use std::thread::Threads;
use std::{fs, io};

/// The reason why scripts do not run to their end.
#[derive(Clone, Copy)]
pub enum ServedFault<'a> {
    /// The script at this path has too many bytes. Without a path it is the script on standard input.
    TooLarge(Option<&'a str>),
    Fault(ServeFault),
}

impl<'a> From<AllocError> for ServedFault<'a> {
    fn from(_error: AllocError) -> ServedFault<'a> {
        ServedFault::Fault(ServeFault::NoMemory)
    }
}

/// Why the script at this path, or on standard input, is not read.
fn script_fault<'a>(path: Option<&'a str>, fault: ScriptFault) -> ServedFault<'a> {
    match fault {
        ScriptFault::Read => ServedFault::Fault(ServeFault::Read),
        ScriptFault::TooLarge => ServedFault::TooLarge(path),
        ScriptFault::NoMemory => ServedFault::Fault(ServeFault::NoMemory),
    }
}

/// A gate that keeps nobody.
#[derive(Drop)]
struct Open;

impl Gate for Open {
    fn before(&self, _session: u16, _nth: u32) {}

    fn held(&self, _session: u16, _nth: u32) {}

    fn after(&self, _session: u16, _nth: u32) {}
}

/// Runs one script from standard input.
pub fn serve_bare<'a, R: Files + Input + AllocGlobal + Print + Threads + Wait + Sync>(
    rt: &R,
    words: &Words<'a>,
) -> Result<(), ServedFault<'a>>
    requires { IsLimit words.now.limit }
{
    let mut scripts = Vec::new(rt.alloc());
    match read_script(rt.alloc(), &mut rt.reader()) {
        Ok(script) => add_script(&mut scripts, script)?,
        Err(fault) => return Err(script_fault(None, fault)),
    }
    serve_scripts(rt, words, scripts.as_slice())
}

/// Runs the scripts of the words.
pub fn serve_words<'a, R: Files + AllocGlobal + Print + Threads + Wait + Sync>(
    rt: &R,
    words: &Words<'a>,
) -> Result<(), ServedFault<'a>>
    requires limit { IsLimit words.now.limit }
    requires few { vec_len words.now.scripts ≤ MOST_SESSIONS }
{
    let scripts = script_files(rt, words.scripts.as_slice())?;
    serve_scripts(rt, words, scripts.as_slice())
}

/// The scripts at these paths. Their texts are read one behind another, up to the first that cannot be, and parsed side by side: a want of
/// memory for a script is told before the fault of a later one.
fn script_files<'a, R: Files + AllocGlobal + Threads + Sync>(
    rt: &R,
    paths: &[&'a str],
) -> Result<Vec<Script>, ServedFault<'a>>
    ensures count { IfOk result (λ scripts. vec_len scripts ≤ length paths.now) }
    ensures can { IfOk result (λ scripts. All (λ s. CanBeRun s.commands.items) scripts.items) }
{
    let (texts, fault) = script_texts(rt, paths)?;
    let scripts = parse_scripts(rt, rt.alloc(), texts)?;
    match fault {
        Some(fault) => Err(fault),
        None => Ok(scripts),
    }
}

/// The texts of the scripts at these paths, up to the first that cannot be read, and why it cannot.
fn script_texts<'a, R: Files + AllocGlobal>(
    rt: &R,
    paths: &[&'a str],
) -> Result<(Vec<Vec<u8>>, Option<ServedFault<'a>>), AllocError>
    ensures count { IfOk result (λ p. vec_len p.0 ≤ length paths.now) }
    ensures few { IfOk result (λ p. All (λ t. length t.items ≤ 2 ^ 20) p.0.items) }
{
    let mut texts = Vec::new(rt.alloc());
    for path in paths {
        match script_text(rt, *path) {
            Ok(text) => add_text(&mut texts, text)?,
            Err(fault) => return Ok((texts, Some(fault))),
        }
    }
    Ok((texts, None))
}

/// The text of the script at this path.
fn script_text<'a, R: Files + AllocGlobal>(
    rt: &R,
    path: &'a str,
) -> Result<Vec<u8>, ServedFault<'a>>
    ensures { IfOk result (λ t. length t.items ≤ 2 ^ 20) }
{
    match fs::open(rt, path) {
        Ok(mut file) => match read_script_text(rt.alloc(), &mut file) {
            Ok(text) => Ok(text),
            Err(fault) => Err(script_fault(Some(path), fault)),
        },
        Err(_) => Err(ServedFault::Fault(ServeFault::Read)),
    }
}

/// Puts a text behind the others.
fn add_text(texts: &mut Vec<Vec<u8>>, text: Vec<u8>) -> Result<(), AllocError>
    requires few { length text.items ≤ 2 ^ 20 }
    requires all { All (λ t. length t.items ≤ 2 ^ 20) texts.old.items }
    ensures count { vec_len texts.new ≤ vec_len texts.old + 1 }
    ensures all { All (λ t. length t.items ≤ 2 ^ 20) texts.new.items }
{
    if texts.push(text).is_err() {
        return Err(AllocError);
    }
    Ok(())
}

/// Puts a script behind the others.
fn add_script(scripts: &mut Vec<Script>, script: Script) -> Result<(), AllocError>
    requires can { CanBeRun script.commands.items }
    requires runs { All (λ s. CanBeRun s.commands.items) scripts.old.items }
    ensures count { vec_len scripts.new ≤ vec_len scripts.old + 1 }
    ensures runs { All (λ s. CanBeRun s.commands.items) scripts.new.items }
{
    if scripts.push(script).is_err() {
        return Err(AllocError);
    }
    Ok(())
}

/// Serves the scripts on the image that the words name, or on the sample volume of 40 blocks.
fn serve_scripts<'a, R: Files + AllocGlobal + Print + Threads + Wait + Sync>(
    rt: &R,
    words: &Words<'a>,
    scripts: &[Script],
) -> Result<(), ServedFault<'a>>
    requires limit { IsLimit words.now.limit }
    requires few { length scripts.now ≤ MOST_SESSIONS }
    requires can { All (λ s. CanBeRun s.commands.items) scripts.now }
{
    match words.image {
        Some(path) => match fs::open(rt, path) {
            Ok(mut file) => serve_image(rt, words, &mut file, scripts),
            Err(_) => Err(ServedFault::Fault(ServeFault::Read)),
        },
        None => {
            let bytes = sample(rt.alloc(), 40)?;
            serve_image(rt, words, &mut bytes.as_slice(), scripts)
        }
    }
}

/// Serves the scripts on the image that a reader gives.
fn serve_image<'a, I: Read, R: Files + AllocGlobal + Print + Threads + Wait + Sync>(
    rt: &R,
    words: &Words<'a>,
    image: &mut I,
    scripts: &[Script],
) -> Result<(), ServedFault<'a>>
    requires limit { IsLimit words.now.limit }
    requires few { length scripts.now ≤ MOST_SESSIONS }
    requires can { All (λ s. CanBeRun s.commands.items) scripts.now }
{
    let mut out = match words.out {
        Some(path) => Some(OutFile::new(rt, path)),
        None => None,
    };
    let options = Options {
        limit: words.limit,
        stamp: words.stamp,
    };
    let served = serve(
        rt,
        rt.alloc(),
        image,
        scripts,
        &mut io::writer(rt),
        &mut out,
        options,
        &Open,
    );
    match served {
        Ok(_) => Ok(()),
        Err(fault) => Err(ServedFault::Fault(fault)),
    }
}

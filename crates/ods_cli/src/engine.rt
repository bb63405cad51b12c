//! The engine: it reads and mounts an image, runs scripts on it in sessions, and writes the replies and the image.
ghost use Rattle.std.specs.Prelude.{◌≡◌, ◌≤◌, ℕ, List, All, length, is_some, IfOk, OnOk, IfErr};
ghost use Rattle.std.specs.String.{string_bytes};
ghost use Rattle.std.specs.Io.KnownBytes.{Consumes};
ghost use Rattle.ods_base.specs.{Image.image_bytes, declared.faults.WriteFault.WriteFault};
ghost use Rattle.ods_share.specs.Scripts.{CanBeRun};
ghost use Rattle.ods_cli.specs.{Printed.said_text, Serve.EndsServe, Serve.EndsWriting, Serve.IsRefusedWith, Serve.GotAll, Serve.GotPart, Serve.wrote, declared.fault.ServeFault.TheVariants.WriteOut};

use crate::ServeFault;
use crate::reply::NoImage;
use crate::sessions::{Said, serve_all, serve_none};
use crate::sound::sound_image;
use crate::writing::write_said;
use ods_base::{Image, write_bytes};
use ods_request::Stamp;
use ods_share::{Gate, Report, Script};
use ods_views::MOST_SESSIONS;
use std::alloc::Global;
use std::io::{Read, Write};
use std::sync::Wait;
use std::thread::Threads;

/// The options of a run.
#[derive(Clone, Copy)]
pub struct Options {
    /// The highest number of accepted requests, from 1 to 65,536.
    pub limit: u32,
    /// The stamp of new files.
    pub stamp: Stamp,
}

/// Runs at most 8 scripts on the image of a reader, each as a session in a thread of its own. Returns the number of accepted requests, in total and
/// for each session. It writes the replies and the totals first. Last it writes the changed image, if there is a writer for it. If the bytes are not
/// a sound image, it writes only the line of that refusal. Without a script only the image that was read is kept.
pub fn serve<I: Read, W: Write, O: Write, G: Gate + Sync, R: Threads + Wait + Sync>(
    rt: &R,
    alloc: Global,
    reader: &mut I,
    scripts: &[Script],
    replies: &mut W,
    out: &mut Option<O>,
    options: Options,
    gate: &G,
) -> Result<Report, ServeFault>
    requires low { 1 ≤ options.limit }
    requires high { options.limit ≤ 65536 }
    requires few { length scripts.now ≤ MOST_SESSIONS }
    requires can { All (λ s. CanBeRun s.commands.items) scripts.now }
    ensures ends { (bytes : List ℕ) × Consumes (I.remaining reader.old) (I.remaining reader.new) bytes
        × EndsServe options.stamp scripts.now options.limit bytes (I.remaining reader.new) (record { old = W.contents replies.old; new = W.contents replies.new })
        (wrote O.contents out.old out.new) result }
    ensures limit { IfOk result (λ r. r.entries ≤ options.limit) }
    ensures kept { is_some out.new ≡ is_some out.old }
{
    match sound_image(alloc, reader)? {
        Ok(mounted) => {
            if scripts.is_empty() {
                let said = serve_none(alloc, &mounted, scripts)?;
                return deliver(said, mounted.image(), replies, out);
            }
            let served = serve_all(rt, alloc, mounted, scripts, options, gate)?;
            deliver(served.said, served.volume.image(), replies, out)
        }
        Err(no_image) => Err(refuse(replies, &no_image)),
    }
}

/// Writes the line of a refusal, and says how the run ends then.
fn refuse<W: Write>(replies: &mut W, no_image: &NoImage) -> ServeFault
    ensures { IsRefusedWith no_image.now.number (string_bytes no_image.now.line) (record { old = W.contents replies.old; new = W.contents replies.new }) result }
{
    match write_bytes(replies, no_image.line.as_bytes()) {
        Ok(()) => ServeFault::Refused(no_image.number),
        Err(_) => ServeFault::Write,
    }
}

/// Writes the replies and the totals, and then the image, if there is a writer for it. It wants no memory, so a run that has too little
/// ends before its first byte.
fn deliver<W: Write, O: Write>(
    said: Said,
    image: &Image,
    replies: &mut W,
    out: &mut Option<O>,
) -> Result<Report, ServeFault>
    requires { length said.printed.items ≤ MOST_SESSIONS }
    ensures ends { EndsWriting said.report (said_text said) image.now
        (record { old = W.contents replies.old; new = W.contents replies.new }) (wrote O.contents out.old out.new) result }
    ensures report { IfOk result (λ r. r ≡ said.report) }
    ensures kept { is_some out.new ≡ is_some out.old }
{
    write_said(replies, &said)?;
    write_image(image, out)?;
    Ok(said.report)
}

/// Writes an image, if there is a writer for it.
fn write_image<O: Write>(image: &Image, out: &mut Option<O>) -> Result<(), ServeFault>
    ensures ok { OnOk result (GotAll (wrote O.contents out.old out.new) (image_bytes image.now)) }
    ensures err { IfErr result (λ f. (part : WriteFault) × (f ≡ WriteOut part) × GotPart (wrote O.contents out.old out.new) (image_bytes image.now) part.written) }
    ensures kept { is_some out.new ≡ is_some out.old }
{
    match out {
        Some(writer) => match image.write_to(writer) {
            Ok(()) => Ok(()),
            Err(fault) => Err(ServeFault::WriteOut(fault)),
        },
        None => Ok(()),
    }
}

//! `append`: a file of the host, put past the end of a file of the volume.
ghost use Rattle.std.specs.Prelude.{◌≡◌, IfErr, OnOk, slice_get};
ghost use Rattle.ods_filing.specs.Led.{IsLed};
ghost use Rattle.ods_upkeep.specs.Appended.{IsGrown};
ghost use Rattle.ods_upkeep.specs.Kinds.{Appends as Asks};
ghost use Rattle.f11fs.specs.{Changed.AppendsTo, Changed.AppendsToFirst, Changed.IsRefusal, Given.AreTaken};

use crate::early::Early;
use crate::host::Host;
use crate::putting::host_bytes;
use crate::refusing::{stop_failed, stop_unfound};
use fs_host::Shown;
use fs_reads::Stop;
use fs_words::Words;
use ods_filing::Filing;
use ods_shell::{Facts, Status};
use ods_upkeep::{append_bytes, open_end, room_behind};

/// Runs `append`: the first word is the path on the volume, and the second the host file, or `-`.
#[tactic(auto, using(crate::proofs::Appended::to_first))]
pub(crate) fn append<'a, R: Host>(
    rt: &R,
    filing: &mut Filing,
    words: &Words<'a>,
    early: &mut Early,
) -> Result<(), Stop<'a>>
    requires { AreTaken (R.gives rt.now) early.old }
    ensures taken { AreTaken (R.gives rt.now) early.new }
    ensures done { OnOk result (AppendsToFirst (R.gives rt.now) words.now.paths.items filing.old filing.new) }
    ensures refused { IfErr result IsRefusal }
    ensures led { IsLed Asks filing.old filing.new }
{
    let Some(path) = word_at(words.paths.as_slice(), 0) else {
        return Err(Stop::Lines(String::new(rt.alloc()), Status::Words));
    };
    let Some(host) = word_at(words.paths.as_slice(), 1) else {
        return Err(Stop::Lines(String::new(rt.alloc()), Status::Words));
    };
    append_to(rt, filing, path, host, words.quiet, early)
}

/// Puts a host file behind the end of the file that a path names.
#[tactic(auto, using(crate::proofs::Refusals::unread_refusal))]
fn append_to<'a, R: Host>(
    rt: &R,
    filing: &mut Filing,
    path: &'a str,
    host: &'a str,
    quiet: bool,
    early: &mut Early,
) -> Result<(), Stop<'a>>
    requires { AreTaken (R.gives rt.now) early.old }
    ensures taken { AreTaken (R.gives rt.now) early.new }
    ensures done { OnOk result (AppendsTo (R.gives rt.now) path.now host.entry.now filing.old filing.new) }
    ensures refused { IfErr result IsRefusal }
    ensures led { IsLed Asks filing.old filing.new }
{
    let facts = match open_end(rt.alloc(), filing.mounted(), path) {
        Ok(facts) => facts,
        Err(failure) => return Err(stop_unfound(rt.alloc(), filing, &failure)),
    };
    let bytes = host_bytes(rt, host, room_behind(filing, &facts), early)?;
    append_read(rt, filing, path, host, &facts, bytes.as_slice(), quiet)
}

/// The word at this place.
fn word_at<'a>(words: &[&'a str], at: usize) -> Option<&'a str>
    ensures { result ≡ slice_get words.now at }
{
    words.get(at).copied()
}

/// Puts what was read of a host file behind the end of a file; what is to be remarked is said.
fn append_read<'a, R: AllocGlobal + Eprint>(
    rt: &R,
    filing: &mut Filing,
    path: &str,
    host: &str,
    facts: &Facts,
    bytes: &[u8],
    quiet: bool,
) -> Result<(), Stop<'a>>
    ensures done { OnOk result (IsGrown facts.now bytes.now filing.old filing.new) }
    ensures refused { IfErr result IsRefusal }
    ensures led { IsLed Asks filing.old filing.new }
{
    match append_bytes(rt.alloc(), filing, path, facts, bytes) {
        Ok(completed) => {
            if completed && !quiet {
                let host = Shown(host);
                let _ = eprintln!(rt;
                    "f11fs: {host}: the last line has no LF, and became a record"
                );
            }
            Ok(())
        }
        Err(failure) => Err(stop_failed(rt.alloc(), &failure)),
    }
}

//! The times of new files: the time of the run, or the local time at which a host file or an archive member was changed.
ghost use Rattle.std.specs.Prelude.{◌≡◌, ℕ, false, true, is_some, not, IfNone, IfSome};
ghost use Rattle.fs_host.specs.Times.{IsStampAt};
ghost use Rattle.f11fs.specs.Dated.{IsHostTime, IsTimeOf, takes_times};

use fs_host::HostZone;
use fs_words::PutWords;
use ods_request::Stamp;
use std::fs;
use std::fs::File;
use std::os::unix::fs::MetadataExt;
use std::rt::Files;

/// Returns whether new files get the times of their host files: this is requested, and no time is specified.
pub fn takes_times(how: &PutWords<'_>, said: Option<Stamp>) -> bool
    ensures { result ≡ takes_times how.now (is_some said) }
{
    match said {
        Some(_) => false,
        None => how.dated,
    }
}

/// Returns the local time at this second since 1970, if a zone is given and has such a time; otherwise the time of the run.
pub fn time_at(zone: &Option<HostZone>, second: u64, run: Stamp) -> Stamp
    ensures { IsTimeOf (not (is_some zone.now)) run second result }
{
    match zone {
        None => run,
        Some(zone) => time_in(zone, second, run),
    }
}

/// The local time at this second in a zone; else this one.
fn time_in(zone: &HostZone, second: u64, run: Stamp) -> Stamp
    ensures { IsTimeOf false run second result }
{
    let Ok(small) = u32::try_from(second) else {
        return run;
    };
    small_time_in(zone, small, run)
}

/// The local time at this second in a zone; else this one.
fn small_time_in(zone: &HostZone, second: u32, run: Stamp) -> Stamp
    ensures { IsTimeOf false run second result }
{
    match zone.stamp_at(second) {
        Some(stamp) => stamp,
        None => run,
    }
}

/// Returns the time of a file that is put from this path of the host. If a zone is given and it is a plain file, it is the local time of its last
/// change, or `None` if no stamp has that time. Otherwise it is the time of the run. No contract of std states when a file was changed.
pub fn host_time<R: Files<File = File>>(
    rt: &R,
    zone: &Option<HostZone>,
    path: &str,
    run: Stamp,
) -> Option<Stamp>
    ensures time { IfSome result (IsHostTime (not (is_some zone.now)) run) }
    ensures none { IfNone result (is_some zone.now ≡ true) }
{
    match zone {
        None => Some(run),
        Some(zone) => host_time_in(rt, zone, path, run),
    }
}

/// The local time in a zone at which a plain file of the host was changed; this one if it is not a plain file.
#[tactic(auto, using(crate::proofs::HostTimes::time_of_host))]
fn host_time_in<R: Files<File = File>>(
    rt: &R,
    zone: &HostZone,
    path: &str,
    run: Stamp,
) -> Option<Stamp>
    ensures { IfSome result (IsHostTime false run) }
{
    if path == "-" {
        return Some(run);
    }
    match fs::metadata(rt, path) {
        Ok(found) if found.is_file() => second_in(zone, found.mtime()),
        _ => Some(run),
    }
}

/// The local time in a zone at a second since 1970.
#[tactic(auto, using(crate::proofs::HostTimes::at_some_second))]
fn second_in(zone: &HostZone, second: i64) -> Option<Stamp>
    ensures { IfSome result (λ stamp. (n : ℕ) × IsStampAt n stamp) }
{
    let Ok(second) = u32::try_from(second) else {
        return None;
    };
    zone.stamp_at(second)
}

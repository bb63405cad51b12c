//! The sessions of a run on a sound image: their changes, and the printed results.
ghost use Rattle.std.specs.Prelude.{◌≡◌, ◌≤◌, ℕ, List, [], All, length, vec_len, IfOk, IfErr};
ghost use Rattle.std.specs.String.{string_bytes};
ghost use Rattle.ods_space.specs.Free.{free_blocks, free_numbers};
ghost use Rattle.ods_share.specs.{Keeping.EachEnded, Scripts.CanBeRun, Scripts.all_saw, Settles.AreLengths, Settles.IsSettled};
ghost use Rattle.ods_cli.specs.Printing.{ArePrinted};
ghost use Rattle.ods_cli.specs.Serve.{IsServedTo, IsServingFault, IsReportFault, totals_text};
ghost use Rattle.ods_cli.specs.Printed.{calls_kept, printed_of, said_text};

use crate::ServeFault;
use crate::engine::Options;
use crate::printed::Printed;
use ods_alloc::{free_count, number_count};
use ods_mount::Mounted;
use ods_share::{
    Call, Ended, Gate, Report, RunFault, Script, SettleFault, run_keeping, settle_mounted,
};
use ods_views::MOST_SESSIONS;
use ods_volume::Volume;
use std::alloc::{AllocError, Global};
use std::sync::Wait;
use std::thread::Threads;

/// The printed results of a run.
#[derive(Drop)]
pub(crate) struct Said {
    pub(crate) report: Report,
    /// The replies of each session, as they are printed.
    pub(crate) printed: Vec<Printed>,
    /// The lines with the number of entries, of free blocks and of free file numbers.
    pub(crate) totals: String,
}

/// The result of the scripts.
#[derive(Drop)]
pub(crate) struct Served {
    /// The volume after the last of its requests.
    pub(crate) volume: Volume,
    pub(crate) said: Said,
}

/// Returns the results of a run without a script. Nothing changes, so it needs no desk, and only the mounted image.
pub(crate) fn serve_none(
    alloc: Global,
    mounted: &Mounted,
    scripts: &[Script],
) -> Result<Said, AllocError>
    requires { length scripts.now ≡ 0 }
    ensures none { IfOk result (λ s. s.report.entries ≡ 0) }
    ensures served { (stamp : List ℕ) (limit : ℕ) → IfOk result (λ s. IsServedTo stamp scripts.now limit mounted.now.image mounted.now.image s.report (said_text s)) }
    ensures few { IfOk result (λ s. length s.printed.items ≤ MOST_SESSIONS) }
{
    let disk = mounted.disk();
    let blocks = free_count(&disk);
    let numbers = number_count(&disk);
    let totals = print_totals(alloc, 0, blocks, numbers)?;
    let report = Report {
        entries: 0,
        of_session: Vec::new(alloc),
    };
    let printed = Vec::new(alloc);
    Ok(Said {
        report,
        printed,
        totals,
    })
}

/// Runs the scripts on a sound image, and settles the volume's list with their calls.
pub(crate) fn serve_all<G: Gate + Sync, R: Threads + Wait + Sync>(
    rt: &R,
    alloc: Global,
    mounted: Mounted,
    scripts: &[Script],
    options: Options,
    gate: &G,
) -> Result<Served, ServeFault>
    requires low { 1 ≤ options.limit }
    requires high { options.limit ≤ 65536 }
    requires some { 1 ≤ length scripts.now }
    requires few { length scripts.now ≤ MOST_SESSIONS }
    requires can { All (λ s. CanBeRun s.commands.items) scripts.now }
    ensures ok { IfOk result (λ s. IsServedTo options.stamp scripts.now options.limit mounted.image s.volume.image s.said.report (said_text s.said)) }
    ensures few { IfOk result (λ s. length s.said.printed.items ≤ MOST_SESSIONS) }
    ensures limit { IfOk result (λ s. s.said.report.entries ≤ options.limit) }
    ensures err { IfErr result (IsServingFault options.stamp scripts.now mounted.image options.limit) }
{
    let Ok(volume) = Volume::new(alloc, mounted, options.limit) else {
        return Err(ServeFault::NoMemory);
    };
    match run_keeping::<Printed, G, R>(rt, alloc, volume, scripts, options.stamp, gate) {
        Ok((volume, ended)) => settle(alloc, volume, scripts, ended),
        Err(RunFault::NoMemory) => Err(ServeFault::NoMemory),
        Err(RunFault::NoThread) => Err(ServeFault::NoThread),
    }
}

/// What is said of the run, where the volume's list is that of the sessions.
fn settle(
    alloc: Global,
    volume: Volume,
    scripts: &[Script],
    ended: Vec<Ended<Printed>>,
) -> Result<Served, ServeFault>
    requires some { 1 ≤ length scripts.now }
    requires few { length scripts.now ≤ MOST_SESSIONS }
    requires count { vec_len ended ≡ length scripts.now }
    ensures ok { (stamp : List ℕ) → EachEnded ArePrinted volume.mounted stamp (all_saw []) (length volume.entries ≡ volume.limit) scripts.now ended.items →
        IfOk result (λ s. IsServedTo stamp scripts.now volume.limit volume.mounted s.volume.image s.said.report (said_text s.said)) }
    ensures few { IfOk result (λ s. length s.said.printed.items ≤ MOST_SESSIONS) }
    ensures limit { IfOk result (λ s. s.said.report.entries ≤ volume.limit) }
    ensures err { (stamp : List ℕ) → EachEnded ArePrinted volume.mounted stamp (all_saw []) (length volume.entries ≡ volume.limit) scripts.now ended.items →
        IfErr result (IsServingFault stamp scripts.now volume.mounted volume.limit) }
{
    volume.is_lawful();
    let (calls, printed) = part_sessions(alloc, ended)?;
    let report = report_of(alloc, &volume, calls)?;
    let totals = print_totals(
        alloc,
        volume.entries().len(),
        volume.free_count(),
        volume.number_count(),
    )?;
    let said = Said {
        report,
        printed,
        totals,
    };
    Ok(Served { volume, said })
}

/// The report, where the volume's list is these calls. The calls are let go then: nothing that is written stands on them.
fn report_of(alloc: Global, volume: &Volume, calls: Vec<Vec<Call>>) -> Result<Report, ServeFault>
    ensures ok { IfOk result (λ r. IsSettled volume.now.mounted volume.now calls.items × AreLengths volume.now.entries calls.items r) }
    ensures err { IfErr result (IsReportFault volume.now calls.items) }
{
    match settle_mounted(alloc, volume, calls.as_slice()) {
        Ok(report) => Ok(report),
        Err(SettleFault::Unmatched) => Err(ServeFault::Unmatched),
        Err(SettleFault::NoMemory) => Err(ServeFault::NoMemory),
    }
}

/// The calls of each session, and what each printed.
fn part_sessions(
    alloc: Global,
    ended: Vec<Ended<Printed>>,
) -> Result<(Vec<Vec<Call>>, Vec<Printed>), AllocError>
    ensures calls { IfOk result (λ p. p.0.items ≡ calls_kept ended.items) }
    ensures printed { IfOk result (λ p. p.1.items ≡ printed_of ended.items) }
{
    let mut calls = Vec::with_capacity(alloc, ended.len())?;
    let mut printed = Vec::with_capacity(alloc, ended.len())?;
    for one in ended {
        if calls.push(one.calls).is_err() {
            return Err(AllocError);
        }
        if printed.push(one.kept).is_err() {
            return Err(AllocError);
        }
    }
    Ok((calls, printed))
}

/// The totals: how many entries the list has, and how many blocks and file numbers are free.
fn print_totals(
    alloc: Global,
    entries: usize,
    blocks: u32,
    numbers: u32,
) -> Result<String, AllocError>
    ensures { IfOk result (λ text. string_bytes text ≡ totals_text entries blocks numbers) }
{
    let mut text = String::new(alloc);
    write!(text, "list {entries}\nfree {blocks}\nnumbers {numbers}\n")?;
    Ok(text)
}

//! The lines of `df`: the usage of a volume.
ghost use Rattle.std.specs.Prelude.{◌≡◌, ◌↔◌, ℕ, ◌+◌, ◌<◌, ◌≤◌, length, max, if◌then◌else◌, ◌++◌, IfOk, OnOk};
ghost use Rattle.std.specs.List.{filter, range_with_len};
ghost use Rattle.ods_space.specs.Layout.{is_in_use};
ghost use Rattle.ods_shell.specs.Space.{EndsRun, HasFreeRun, IsSpaceOf};
ghost use Rattle.ods_space.specs.Disks.{on};
ghost use Rattle.ods_shell.specs.Lines.{free_part, numbers_line, run_label, space_text, used_part};
ghost use Rattle.std.specs.String.{string_bytes};

use ods_alloc::{free_count, number_count};
use ods_mount::Mounted;
use ods_space::{Disk, in_use, is_free};
use std::alloc::{AllocError, Global};

/// The usage of a volume.
#[derive(Clone, Copy, Debug, PartialEq, Eq)]
pub struct Space {
    /// The number of blocks of the image.
    pub blocks: u32,
    /// The number of blocks that the storage bitmap marks free.
    pub free: u32,
    /// The length of the longest run of free blocks.
    pub longest: u32,
    /// The number of file numbers whose index bit is set.
    pub numbers: u32,
    /// The number of file numbers that a new header may receive without growth of INDEXF.SYS.
    pub ready: u32,
    /// H.FMAX, the greatest file number.
    pub most: u16,
}

/// Returns the usage of the volume.
pub fn space_of(volume: &Mounted) -> Space
    ensures { IsSpaceOf volume.now.image volume.now.layout result }
{
    let disk = volume.disk();
    Space {
        blocks: disk.image.len(),
        free: free_count(&disk),
        longest: longest_free(&disk),
        numbers: numbers_in_use(&disk),
        ready: number_count(&disk),
        most: disk.layout.home().max_files,
    }
}

/// The most free blocks that follow one another.
fn longest_free(disk: &Disk<'_>) -> u32
    ensures { (n : ℕ) → (n ≤ result) ↔ on HasFreeRun disk.now n }
{
    let mut longest: u32 = 0;
    let mut run: u32 = 0;
    for lbn in 0..disk.image.len() {
        run = run_to(disk, lbn, run);
        longest = larger(longest, run);
    }
    longest
}

fn larger(a: u32, b: u32) -> u32
    ensures { result ≡ max a b }
{
    if a < b { b } else { a }
}

/// How many free blocks follow one another up to this LBN, of which so many stand before it.
fn run_to(disk: &Disk<'_>, lbn: u32, before: u32) -> u32
    requires few { before ≤ lbn }
    requires inside { lbn < length disk.now.image.now }
    ensures { on EndsRun disk.now lbn before → on EndsRun disk.now (lbn + 1) result }
{
    let _ = disk.image.len();
    if is_free(disk, lbn) { before + 1 } else { 0 }
}

/// How many file numbers have their index bit set.
fn numbers_in_use(disk: &Disk<'_>) -> u32
    ensures { result ≡ length (filter (is_in_use disk.now.image.now disk.now.layout.now.home) (range_with_len 1 disk.now.layout.now.home.max_files)) }
{
    let mut count: u32 = 0;
    for before in 0..disk.layout.home().max_files {
        count += one_if(in_use(disk, before + 1));
    }
    count
}

/// 1 where it holds, and else 0.
fn one_if(holds: bool) -> u32
    ensures value { result ≡ (if holds then 1 else 0) }
    ensures small { result ≤ 1 }
{
    if holds { 1 } else { 0 }
}

/// Returns the lines of `df`.
pub fn space_lines(alloc: Global, space: &Space) -> Result<String, AllocError>
    ensures { IfOk result (λ text. string_bytes text ≡ space_text space.now) }
{
    let mut text = String::new(alloc);
    let used = space.blocks.saturating_sub(space.free);
    push_used(&mut text, space.blocks, used)?;
    push_free(&mut text, space.free, space.longest)?;
    push_numbers(&mut text, space.numbers, space.most, space.ready)?;
    Ok(text)
}

/// How many blocks there are, and how many are used.
#[tactic(auto, unfolding(crate::specs::Lines::used_part))]
fn push_used(text: &mut String, blocks: u32, used: u32) -> Result<(), AllocError>
    ensures { OnOk result (string_bytes text.new ≡ string_bytes text.old ++ used_part blocks used) }
{
    write!(text, "{blocks} blocks, {used} used, ")
}

/// How many blocks are free, and how long the longest free run is.
#[tactic(auto, unfolding(crate::specs::Lines::free_part))]
fn push_free(text: &mut String, free: u32, longest: u32) -> Result<(), AllocError>
    ensures { OnOk result (string_bytes text.new ≡ string_bytes text.old ++ free_part free longest) }
{
    let label = before_run();
    writeln!(text, "{free}{label}{longest}")
}

/// What stands before the longest free run.
#[tactic(auto, unfolding(crate::specs::Lines::run_label))]
fn before_run() -> &'static str
    ensures { result.now ≡ run_label }
{
    " free, largest free run "
}

/// The line of the file numbers: in use, all, and ready.
#[tactic(auto, unfolding(crate::specs::Lines::numbers_line))]
fn push_numbers(text: &mut String, numbers: u32, most: u16, ready: u32) -> Result<(), AllocError>
    ensures { OnOk result (string_bytes text.new ≡ string_bytes text.old ++ numbers_line numbers most ready) }
{
    writeln!(
        text,
        "{numbers} of {most} file numbers in use, {ready} ready"
    )
}

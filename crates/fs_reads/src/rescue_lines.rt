//! The lines that `rescue` prints, or the objects with `--json`.
ghost use Rattle.std.specs.Prelude.{◌≡◌, IfOk};
ghost use Rattle.ods_shell.specs.declared.status.Status.{Status as Code};

use crate::stop::{Stop, send};
use fs_host::Shown;
use ods_base::FileId;
use ods_shell::{Status, pair_object, text_object};

/// Prints a line of bytes that are no whole block.
pub(crate) fn say_rest<'a, R: AllocGlobal + Print>(
    rt: &R,
    path: &str,
    rest: u64,
    json: bool,
) -> Result<Status, Stop<'a>>
    ensures { IfOk result (λ s. s ≡ Code.Done) }
{
    let path = Shown(path);
    let line = format!(in rt.alloc();
        "{path}: {rest} bytes after the last whole block are left out\n"
    )?;
    let what = format!(in rt.alloc(); "{rest} bytes after the last whole block")?;
    say_left(
        rt,
        what.as_str(),
        "they are not a whole block",
        line.as_str(),
        json,
    )
}

/// Prints a line, or an object, for the fault that a mount reports.
pub(crate) fn say_fault<'a, R: AllocGlobal + Print>(
    rt: &R,
    path: &str,
    fault: &str,
    json: bool,
) -> Result<Status, Stop<'a>>
    ensures { IfOk result (λ s. s ≡ Code.Done) }
{
    let line = if json {
        text_object(rt.alloc(), "fault", fault)?
    } else {
        let path = Shown(path);
        format!(in rt.alloc(); "{path}: {fault}\n")?
    };
    send(rt, line.as_str())
}

/// Prints a line, or an object, for something that is left out.
pub(crate) fn say_left<'a, R: AllocGlobal + Print>(
    rt: &R,
    what: &str,
    why: &str,
    line: &str,
    json: bool,
) -> Result<Status, Stop<'a>>
    ensures { IfOk result (λ s. s ≡ Code.Done) }
{
    if json {
        let object = pair_object(rt.alloc(), "left", what, "why", why)?;
        return send(rt, object.as_str());
    }
    send(rt, line)
}

/// Prints a line, or an object, for a file that is copied although a part of it is missing.
pub(crate) fn say_part<'a, R: AllocGlobal + Print>(
    rt: &R,
    what: &str,
    why: &str,
    json: bool,
) -> Result<Status, Stop<'a>>
    ensures { IfOk result (λ s. s ≡ Code.Done) }
{
    let line = if json {
        pair_object(rt.alloc(), "in_part", what, "why", why)?
    } else {
        format!(in rt.alloc(); "in part: {what}: {why}\n")?
    };
    send(rt, line.as_str())
}

/// Prints a line, or an object, for a file that would be written.
pub(crate) fn tell<'a, R: AllocGlobal + Print>(
    rt: &R,
    file: FileId,
    path: &str,
    json: bool,
) -> Result<Status, Stop<'a>>
    ensures { IfOk result (λ s. s ≡ Code.Done) }
{
    let from = format!(in rt.alloc(); "#{},{}", file.number, file.sequence)?;
    let line = if json {
        pair_object(rt.alloc(), "rescue", from.as_str(), "to", path)?
    } else {
        let path = Shown(path);
        format!(in rt.alloc(); "rescue {} to {path}\n", from.as_str())?
    };
    send(rt, line.as_str())
}

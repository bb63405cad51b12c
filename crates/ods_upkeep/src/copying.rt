//! `cp`: creates files with the blocks, the attributes and the protection of others.
ghost use Rattle.std.specs.Prelude.{◌≡◌, Bool, false, IfErr, IfOk, None, OnOk, Some};
ghost use Rattle.ods_base.specs.Name.{RadName, Spells};
ghost use Rattle.ods_base.specs.declared.name.Pick.{Pick};
ghost use Rattle.ods_files.specs.Body.{Body, HasBody, bytes_in};
ghost use Rattle.ods_header.specs.Text.{ident_text};
ghost use Rattle.ods_shell.specs.HostNames.{before_version};
ghost use Rattle.ods_upkeep.specs.{Copied.IsCopied, Copied.IsCopiedTo, Copied.IsCopyMade, Copied.IsCopyable, Copied.IsUncopyable, Copied.IsUnread, Copied.NamesCopy, Copied.may_read, Copied.why_unread as why_for, CopiedFrom.IsLedFrom, Kinds.Copies, Legs.IsLedGiving};
ghost use Rattle.ods_upkeep.specs.declared.asked.Placing.TheVariants.{Anywhere};
ghost use Rattle.ods_space.specs.Files.{FindsFiles};
ghost use Rattle.ods_space.specs.Disks.{on};
ghost use Rattle.ods_upkeep.specs.{Copied.AreCopied, Uncopied.IsCopyUnmade, Uncopied.IsFirstUncopyable, Uncopied.IsNotCopied, Uncopied.IsNotCopiedTo, Uncopied.MayAllBeCopied, Uncopied.StopsCopying};

use crate::asked::Placing;
use crate::asking::put_new;
use crate::attributes::true_for;
use crate::failure::{Failure, Why, of_path};
use crate::looking::next_version;
use crate::readying::make_ready;
use crate::sources::sources;
use crate::target::Target;
use crate::targets::target_of;
use ods_base::{DIRECTORY_TYPE, FileId, Name, Uic, parse_name};
use ods_files::{FileBody, FileFault, Form};
use ods_filing::{Filing, NewFile};
use ods_header::print_ident;
use ods_mount::Mounted;
use ods_request::{Refusal, Right, Stamp, permits};
use ods_shell::{Alone, Facts, Found, Kind, PathFault, Unsaid};
use ods_space::{ChainFault, Disk};
use std::alloc::Global;

/// Copies files to an existing directory, where they keep their names, or one file to a name: all their blocks, their attributes and their
/// protection. A name without a version gets its next version. `placing` determines where the blocks of the copies are allocated.
pub fn copy_files(
    alloc: Global,
    filing: &mut Filing,
    stamp: Stamp,
    placing: Placing,
    paths: &[&str],
    to: &str,
) -> Result<(), Failure>
    // Where they may stand anywhere, it is what LookUp, Create, Extend, Write, SetUser and Enter leave, with protections set in between, behind a
    // growth of INDEXF.SYS.
    ensures led { placing ≡ Anywhere → OnOk result (IsLedFrom false filing.old filing.new) }
    // Done, each file that is meant is copied to the target. Nothing else was done, but that INDEXF.SYS may have grown for them.
    ensures done { OnOk result (IsCopiedTo placing stamp paths.now to.now filing.old filing.new) }
    // Refused, it is so for a reason that holds, and of the path that the failure says.
    ensures refused { IfErr result (IsNotCopiedTo placing stamp paths.now to.now filing.old filing.new) }
{
    let all = sources(
        alloc,
        filing.mounted(),
        paths,
        Unsaid::highest(Alone::Files),
    )?;
    let target = target_of(alloc, filing.mounted(), all.len(), to)?;
    check_all(alloc, &all, &target, Some(filing.user()))?;
    make_ready(filing, all.len(), placing);
    copy_all(alloc, filing, placing, &all, &target, stamp)
}

/// Checks that each of these files can be copied to this target, as far as it can be determined before. The failure names the first file that cannot.
/// Without a reader no rights are asked.
pub(crate) fn check_all(
    alloc: Global,
    all: &[Found],
    target: &Target,
    reader: Option<Uic>,
) -> Result<(), Failure>
    ensures ok { OnOk result (MayAllBeCopied reader target.now all.now) }
    ensures err { IfErr result (IsFirstUncopyable reader target.now all.now) }
{
    for found in all {
        if let Err(why) = check(found, target, reader) {
            return Err(of_path(alloc, &found.path, why));
        }
    }
    Ok(())
}

/// Copies these files, one after another.
fn copy_all(
    alloc: Global,
    filing: &mut Filing,
    placing: Placing,
    all: &[Found],
    target: &Target,
    stamp: Stamp,
) -> Result<(), Failure>
    ensures led { placing ≡ Anywhere → OnOk result (IsLedGiving false Copies filing.old filing.new) }
    ensures done { OnOk result (AreCopied placing target.now stamp all.now filing.old filing.new) }
    ensures refused { IfErr result (StopsCopying placing target.now stamp all.now filing.old filing.new) }
{
    for found in all {
        if let Err(why) = copy(alloc, filing, placing, found, target, stamp) {
            return Err(of_path(alloc, &found.path, why));
        }
    }
    Ok(())
}

/// Returns the facts of a file, and the name of its copy, if this user may copy it to this target. Without a user no rights are asked.
pub(crate) fn check(
    found: &Found,
    target: &Target,
    reader: Option<Uic>,
) -> Result<(Facts, Name), Why>
    ensures ok { IfOk result (λ r. IsCopyable reader target.now found.now r.0 r.1) }
    ensures err { IfErr result (IsUncopyable reader target.now found.now) }
{
    let Some(facts) = found.facts() else {
        return Err(Why::Path(PathFault::NoSuchFile));
    };
    if facts.file.number <= 2 {
        return Err(Why::Request(Refusal::Reserved));
    }
    if facts.kind == Kind::Directory {
        return Err(Why::IsDirectory);
    }
    if !may_read(reader, &facts) {
        return Err(Why::Request(Refusal::Denied));
    }
    let name = new_name(found, target, &facts)?;
    if name.ext() == DIRECTORY_TYPE {
        return Err(Why::DirectoryType);
    }
    Ok((facts, name))
}

/// Whether this user may read a file. Without a user no rights are asked.
fn may_read(reader: Option<Uic>, facts: &Facts) -> bool
    ensures { result ≡ may_read reader facts.now }
{
    match reader {
        Some(user) => permits(&user, &facts.owner, facts.protection, Right::Read),
        None => true,
    }
}

/// The name of the copy: the one that is said, that of the entry, or that of the header.
fn new_name(found: &Found, target: &Target, facts: &Facts) -> Result<Name, Why>
    ensures ok { IfOk result (NamesCopy target.now found.now facts.now) }
    ensures err { IfErr result (λ why. (why ≡ Why.BadName) × ((name : RadName) → ¬ NamesCopy target.now found.now facts.now name)) }
{
    if let Some(name) = target.name {
        return Ok(name);
    }
    if let Some(place) = found.place() {
        return Ok(place.entry.name);
    }
    name_in(&facts.ident)
}

/// The name in the ident area of a header.
fn name_in(ident: &[u8; 46]) -> Result<Name, Why>
    ensures ok { IfOk result (λ name. Spells (before_version (ident_text ident.now)) name Pick.Highest) }
    ensures err { IfErr result (λ why. (why ≡ Why.BadName) × ((name : RadName) → ¬ Spells (before_version (ident_text ident.now)) name Pick.Highest)) }
{
    let text = print_ident(ident);
    match parse_name(without_version(text.as_str()).as_bytes()) {
        Ok((name, _)) => Ok(name),
        Err(_) => Err(Why::BadName),
    }
}

/// What stands before the `;` of a name.
#[tactic(auto, using(crate::proofs::Idents::all_before))]
fn without_version(text: &str) -> &str
    ensures { result.now ≡ before_version text.now }
{
    match text.split_once(';') {
        Some((full, _)) => full,
        None => text,
    }
}

/// Copies a file.
fn copy(
    alloc: Global,
    filing: &mut Filing,
    placing: Placing,
    found: &Found,
    target: &Target,
    stamp: Stamp,
) -> Result<(), Why>
    ensures led { placing ≡ Anywhere → OnOk result (IsLedGiving false Copies filing.old filing.new) }
    ensures done { OnOk result (IsCopied placing target.now stamp found.now filing.old filing.new) }
    ensures refused { IfErr result (IsNotCopied placing target.now stamp found.now filing.old filing.new) }
{
    let user = filing.user();
    let (facts, name) = check(found, target, Some(user))?;
    let bytes = all_bytes(alloc, filing, facts.file)?;
    make_copy(
        alloc, filing, placing, target, name, stamp, None, &facts, &bytes,
    )
}

/// Makes a copy of a file with these facts and bytes, and enters it in the directory of the target under this name. The copy receives the protection
/// of the facts, and this owner, if there is one.
pub(crate) fn make_copy(
    alloc: Global,
    filing: &mut Filing,
    placing: Placing,
    target: &Target,
    name: Name,
    stamp: Stamp,
    owner: Option<Uic>,
    facts: &Facts,
    bytes: &[u8],
) -> Result<(), Why>
    ensures led { (owners : Bool) → (owners ≡ false → owner ≡ None) → placing ≡ Anywhere → OnOk result (IsLedGiving owners Copies filing.old filing.new) }
    ensures done { OnOk result (IsCopyMade placing target.now name stamp owner facts.now bytes.now filing.old filing.new) }
    ensures refused { IfErr result (IsCopyUnmade placing target.now name stamp facts.now bytes.now filing.old filing.new) }
{
    let user = filing.user();
    let attributes = true_for(facts.attributes, facts.blocks)?;
    let version = next_version(filing, target.directory, name, target.version);
    let file = NewFile {
        name,
        version,
        stamp,
        attributes,
        bytes,
    };
    let copy = put_new(
        alloc,
        filing,
        placing,
        user,
        target.directory,
        target.version,
        &file,
    )?;
    match filing.set_access(copy, owner, Some(facts.protection)) {
        Ok(()) => Ok(()),
        Err(refusal) => Err(Why::Request(refusal)),
    }
}

/// The bytes of all blocks of a file.
fn all_bytes(alloc: Global, filing: &Filing, file: FileId) -> Result<Vec<u8>, Why>
    ensures ok { IfOk result (λ bytes. (body : Body) × HasBody filing.now.image filing.now.layout file.number body × (bytes_in Form.Raw body ≡ Some bytes.items)) }
    ensures err { IfErr result (IsUnread filing.now.image filing.now.layout file.number) }
{
    let disk = filing.disk();
    bytes_on(alloc, &disk, file)
}

/// Returns the bytes of a file on a volume that a mount may refuse.
pub(crate) fn bytes_on(alloc: Global, disk: &Disk<'_>, file: FileId) -> Result<Vec<u8>, Why>
    requires { on FindsFiles disk.now }
    ensures ok { IfOk result (λ bytes. (body : Body) × on HasBody disk.now file.number body × (bytes_in Form.Raw body ≡ Some bytes.items)) }
    ensures err { IfErr result (on IsUnread disk.now file.number) }
{
    let body = match FileBody::open(alloc, disk, file.number) {
        Ok(body) => body,
        Err(fault) => return Err(why_unread(fault)),
    };
    match body.read(alloc, Form::Raw) {
        Ok(Some(bytes)) => Ok(bytes),
        Ok(None) => Err(Why::Path(PathFault::NoSuchFile)),
        Err(_) => Err(Why::Request(Refusal::NoMemory)),
    }
}

/// Returns why the bytes of a file are not read.
pub(crate) fn why_unread(fault: FileFault) -> Why
    ensures { result ≡ why_for fault }
{
    match fault {
        FileFault::Chain(ChainFault::NoMemory) => Why::Request(Refusal::NoMemory),
        FileFault::Chain(ChainFault::BadChain) => Why::Path(PathFault::NoSuchFile),
        FileFault::Chain(ChainFault::OutsideVolume(_)) => Why::Path(PathFault::NoSuchFile),
        FileFault::NoSuchFile => Why::Path(PathFault::NoSuchFile),
    }
}

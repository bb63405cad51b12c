//! The commands, and the command that a wrong name is near to.
ghost use Rattle.std.specs.Prelude.{◌≡◌, ◌++◌, ◌∷◌, [], IfOk, List, find};
ghost use Rattle.std.specs.Str.{bytes_eq};
ghost use Rattle.fs_words.specs.declared.verbs.Verb.{Verb};
ghost use Rattle.fs_words.specs.{Hints.IsClosest, Hints.IsNear, Hints.changes_to, Hints.habit_named, Hints.most_changes, Names.verb_named, Names.verb_text, Options.verb_changes, Values.value_of};

use std::alloc::{AllocError, Global};

/// A command, by its name. `File` stands for a file of commands.
#[derive(Clone, Copy, Debug, PartialEq, Eq)]
pub enum Verb {
    /// `ls`: lists names in directories.
    Ls,
    /// `find`: lists the paths of all files.
    Find,
    /// `stat`: shows the facts of files.
    Stat,
    /// `cat`: writes files to standard output.
    Cat,
    /// `get`: writes files to the host.
    Get,
    /// `tar`: writes an archive to standard output.
    Tar,
    /// `df`: shows how much of the volume is used.
    Df,
    /// `info`: shows the label, owner, size and layout of the volume.
    Info,
    /// `du`: shows how many blocks the files of directories have.
    Du,
    /// `check`: shows what is wrong with an image.
    Check,
    /// `rescue`: copies files out of an image that may be refused.
    Rescue,
    /// `cmp`: shows which files of two images differ.
    Cmp,
    /// `put`: puts files of the host into the volume.
    Put,
    /// `cp`: copies files within the volume.
    Cp,
    /// `mv`: moves or renames entries.
    Mv,
    /// `rm`: removes entries, and deletes files without a name.
    Rm,
    /// `purge`: removes all but the highest versions of names.
    Purge,
    /// `mkdir`: makes directories.
    Mkdir,
    /// `rmdir`: removes empty directories.
    Rmdir,
    /// `truncate`: cuts a file.
    Truncate,
    /// `append`: appends a file of the host to a file of the volume.
    Append,
    /// `chmod`: gives files another protection.
    Chmod,
    /// `chown`: gives files another owner.
    Chown,
    /// `label`: gives the volume another label.
    Label,
    /// `untar`: puts the files of an archive into the volume.
    Untar,
    /// `repair`: repairs faults and findings of an image.
    Repair,
    /// `init`: makes an image of a new volume.
    Init,
    /// `convert`: writes the volume into another image.
    Convert,
    /// `-f`: runs the commands in a file.
    File,
}

/// The commands, in the order of the help.
pub(crate) const VERBS: [Verb; 28] = [
    Verb::Ls,
    Verb::Find,
    Verb::Stat,
    Verb::Cat,
    Verb::Get,
    Verb::Tar,
    Verb::Df,
    Verb::Info,
    Verb::Du,
    Verb::Check,
    Verb::Rescue,
    Verb::Cmp,
    Verb::Put,
    Verb::Untar,
    Verb::Cp,
    Verb::Mv,
    Verb::Rm,
    Verb::Purge,
    Verb::Mkdir,
    Verb::Rmdir,
    Verb::Truncate,
    Verb::Append,
    Verb::Chmod,
    Verb::Chown,
    Verb::Label,
    Verb::Repair,
    Verb::Init,
    Verb::Convert,
];

impl Verb {
    /// Returns its name. The name of a file of commands is the option that specifies one.
    pub(crate) fn name<'a>(self) -> &'a str
        ensures { result.now ≡ verb_text self }
    {
        match self {
            Verb::Ls => "ls",
            Verb::Find => "find",
            Verb::Stat => "stat",
            Verb::Cat => "cat",
            Verb::Get => "get",
            Verb::Tar => "tar",
            Verb::Df => "df",
            Verb::Info => "info",
            Verb::Du => "du",
            Verb::Check => "check",
            Verb::Rescue => "rescue",
            Verb::Cmp => "cmp",
            Verb::Put => "put",
            Verb::Cp => "cp",
            Verb::Mv => "mv",
            Verb::Rm => "rm",
            Verb::Purge => "purge",
            Verb::Mkdir => "mkdir",
            Verb::Rmdir => "rmdir",
            Verb::Truncate => "truncate",
            Verb::Append => "append",
            Verb::Chmod => "chmod",
            Verb::Chown => "chown",
            Verb::Label => "label",
            Verb::Untar => "untar",
            Verb::Repair => "repair",
            Verb::Init => "init",
            Verb::Convert => "convert",
            Verb::File => "-f",
        }
    }

    /// Returns the command of this name. No name selects a file of commands.
    pub(crate) fn of_name(word: &str) -> Option<Verb>
        ensures { result ≡ verb_named word.now }
    {
        first_named(&VERBS, word)
    }

    /// Returns whether it changes a volume.
    pub fn changes(self) -> bool
        ensures { result ≡ verb_changes self }
    {
        matches!(
            self,
            Verb::Put
                | Verb::Cp
                | Verb::Mv
                | Verb::Rm
                | Verb::Purge
                | Verb::Mkdir
                | Verb::Rmdir
                | Verb::Truncate
                | Verb::Append
                | Verb::Chmod
                | Verb::Chown
                | Verb::Label
                | Verb::Untar
                | Verb::Repair
        )
    }
}

/// Whether the command has this name.
fn has_name(verb: Verb, word: &str) -> bool
    ensures { result ≡ bytes_eq (verb_text verb) word.now }
{
    verb.name() == word
}

/// The first of these commands that has this name.
fn first_named(verbs: &[Verb], word: &str) -> Option<Verb>
    ensures { result ≡ find (λ v. bytes_eq (verb_text v) word.now) verbs.now }
{
    let mut verbs = verbs;
    while let Some((verb, later)) = verbs.split_first() {
        if has_name(*verb, word) {
            return Some(*verb);
        }
        verbs = later;
    }
    None
}

/// Returns the command that this word is near to. It is the one that another program calls so, or the one that needs the fewest letter changes. At
/// most one change counts for a word of up to four letters, otherwise two.
pub(crate) fn nearest(alloc: Global, word: &str) -> Result<Option<&'static str>, AllocError>
    ensures { IfOk result (λ near. IsNear word.now (value_of near)) }
{
    if let Some(name) = habit_of(word) {
        return Ok(Some(name));
    }
    // A longer word is near to none, and takes no time.
    if word.len() > 16 {
        return Ok(None);
    }
    match closest(alloc, word, &VERBS)? {
        Some(verb) => Ok(Some(verb.name())),
        None => Ok(None),
    }
}

/// The name of the command that another program calls by this word.
fn habit_of(word: &str) -> Option<&'static str>
    ensures { value_of result ≡ habit_named word.now }
{
    match word {
        "dir" | "list" => Some("ls"),
        "type" | "show" => Some("cat"),
        "extract" => Some("get"),
        "copy" => Some("cp"),
        "move" | "rename" => Some("mv"),
        "del" | "delete" => Some("rm"),
        "diff" => Some("cmp"),
        "fsck" => Some("check"),
        _ => None,
    }
}

/// The first of these commands whose name takes the fewest changes of a letter, where they are few.
fn closest(alloc: Global, word: &str, verbs: &[Verb]) -> Result<Option<Verb>, AllocError>
    ensures { IfOk result (IsClosest word.now verbs.now) }
{
    let mut found = None;
    for verb in verbs {
        found = closer(alloc, word, found, *verb)?;
    }
    Ok(found)
}

/// The closest command, where one more is looked at.
fn closer(
    alloc: Global,
    word: &str,
    found: Option<Verb>,
    verb: Verb,
) -> Result<Option<Verb>, AllocError>
    ensures { IfOk result (λ next. (front : List Verb) → IsClosest word.now front found → IsClosest word.now (front ++ verb ∷ []) next) }
{
    let changes = changes_to(alloc, word, verb)?;
    let Some(other) = found else {
        if most_changes(word) < changes {
            return Ok(None);
        }
        return Ok(Some(verb));
    };
    let fewest = changes_to(alloc, word, other)?;
    if changes < fewest {
        return Ok(Some(verb));
    }
    Ok(Some(other))
}

/// How many changes of a letter make a word the name of a command.
fn changes_to(alloc: Global, word: &str, verb: Verb) -> Result<usize, AllocError>
    ensures { IfOk result (λ changes. changes ≡ changes_to word.now verb) }
{
    let changes = strsim::osa_distance(alloc, word, verb.name())?;
    Ok(changes)
}

/// How many changes of a letter a word near to a name has at most.
fn most_changes(word: &str) -> usize
    ensures { result ≡ most_changes word.now }
{
    if word.len() <= 4 { 1 } else { 2 }
}

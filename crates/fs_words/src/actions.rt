//! The commands that words request.
use crate::layering::Layering;
use ods_base::Uic;
use ods_order::Order;
use ods_records::Wanted;

/// A command.
#[derive(Clone, Copy, Debug, PartialEq, Eq, Drop)]
pub enum Action<'a> {
    /// Lists names: with columns of facts with `long`, with IDs with `ids`, and of directories with all below them with `below`.
    Ls {
        long: bool,
        ids: bool,
        below: bool,
    },
    /// Finds files: with `lost` only files that no directory names. With `deleted`, deleted files whose headers still exist, with columns for what is
    /// left of each with `long`.
    Find {
        lost: bool,
        deleted: bool,
        long: bool,
    },
    /// Shows the facts of files.
    Stat,
    /// Writes files to standard output.
    Cat(Wanted),
    /// Writes files to the host: to this target, or without one into the working folder or to the last word. With `below`, the files in a directory
    /// and below it. With `deleted`, deleted files by their IDs; with `partial` also what is left of files that are not whole. With `dated`, each
    /// host file gets the creation date of its file.
    Get {
        wanted: Wanted,
        target: Option<&'a str>,
        below: bool,
        deleted: bool,
        partial: bool,
        dated: bool,
    },
    /// Writes an archive of files to standard output; with `text` records become lines.
    Tar {
        text: bool,
    },
    /// Shows how much of the volume is used.
    Df,
    /// Shows the label, owner, size and layout of the volume.
    Info,
    /// Shows how many blocks directories have, or the largest files if a number is given.
    Du {
        top: Option<u32>,
    },
    /// Checks the image, and with `all` prints every fault.
    Check {
        all: bool,
    },
    /// Copies files out of an image that may be refused; with `text` records become lines. With `scan`, by the headers that a scan of all blocks
    /// finds. With `partial`, also the available part of a file that is not whole.
    Rescue {
        text: bool,
        scan: bool,
        partial: bool,
    },
    /// Shows how two images differ; with `all` also IDs, dates, owners and protection.
    Cmp {
        all: bool,
    },
    /// Changes the volume.
    Change(Change<'a>),
    /// Repairs the image. Lost files are entered in the directory at the path `into`, if one is given.
    Repair {
        kinds: Repairs,
        into: Option<&'a str>,
    },
    /// Makes an image of this many blocks, with room for this many files in addition to the five reserved ones, if a number is given. `order` is the
    /// order of the sectors of the floppies of a device, if one is given.
    Init {
        blocks: u32,
        files: Option<u32>,
        label: Option<&'a str>,
        order: Option<Order>,
    },
    /// Writes the volume into another image, in this order of sectors, if one is given: with `alone` only its blocks.
    Convert {
        order: Option<Layering>,
        alone: bool,
    },
    /// Runs the commands in this file of the host, or in standard input if it is `-`. With `keep_going`, continues past commands that are refused.
    Commands {
        file: &'a str,
        keep_going: bool,
    },
}

/// A command that changes a volume. Its paths are in the words.
#[derive(Clone, Copy, Debug, PartialEq, Eq, Drop)]
pub enum Change<'a> {
    /// Puts files of the host.
    Put(PutWords<'a>),
    /// Puts the members of an archive: the host file that the first word names, or standard input; below the directory that the second word names.
    Untar,
    /// Copies files, in one piece with `contiguous`.
    Cp {
        contiguous: bool,
    },
    /// Copies files of another volume.
    CpFrom(FromWords<'a>),
    /// Moves names, or gives files other names.
    Mv,
    /// Removes names with their files: only the entry with `entry_alone`, and the highest version with `newest`.
    Rm {
        entry_alone: bool,
        newest: bool,
    },
    /// Removes all but the `keep` highest versions of each name, and their files.
    Purge {
        keep: u32,
    },
    /// Makes directories with room for this many names, if a number is given, and with this owner, if one is given.
    Mkdir {
        names: Option<u32>,
        owner: Option<Uic>,
    },
    /// Removes empty directories.
    Rmdir,
    /// Cuts a file after this many bytes.
    Truncate {
        bytes: u64,
    },
    /// Appends the bytes of a host file, which the second word names, to a file.
    Append,
    /// Gives files this protection word.
    Chmod {
        protection: u16,
    },
    /// Gives files this owner.
    Chown {
        owner: Uic,
    },
    /// Gives the volume this label.
    Label {
        text: &'a str,
    },
}

/// How files of another volume are copied.
#[derive(Clone, Copy, Debug, PartialEq, Eq, Drop)]
pub struct FromWords<'a> {
    /// The image of the other volume.
    pub from: &'a str,
    /// Copies everything in a directory and below it.
    pub below: bool,
    /// Gives each copy the owner of its file, and each directory that is made the owner of its original.
    pub owners: bool,
    /// Gives the next version to a copy whose version is taken.
    pub next: bool,
    /// Whether the copies are in one piece, if it is specified.
    pub contiguous: Option<bool>,
}

/// Which repairs are made.
#[derive(Clone, Copy, Debug, PartialEq, Eq, Drop)]
pub struct Repairs {
    /// Blocks that belong to files but are free in the storage bitmap are marked as used.
    pub used: bool,
    /// Runs of files that share blocks with other files, or repeat blocks of the same file, get blocks of their own.
    pub share: bool,
    /// The second of two entries with one name and version gets the next version.
    pub double: bool,
    /// Entries that name no file are removed.
    pub names: bool,
    /// Files that no directory names are entered in a directory.
    pub lost: bool,
    /// Blocks that are marked as used but belong to no file are freed.
    pub free: bool,
}

/// How files are put.
#[derive(Clone, Copy, Debug, PartialEq, Eq, Drop)]
pub struct PutWords<'a> {
    /// Writes lines as records.
    pub text: bool,
    /// Writes bytes unchanged.
    pub binary: bool,
    /// Writes bytes unchanged, with this form: the first four bytes of the attributes.
    pub form: Option<[u8; 4]>,
    /// The path of the file whose attributes the new files get.
    pub like: Option<&'a str>,
    /// Whether the new files are in one piece, if it is specified.
    pub contiguous: Option<bool>,
    /// Replaces an existing file with the same name.
    pub replace: bool,
    /// The owner of the new files, if one is given.
    pub owner: Option<Uic>,
    /// Puts everything in a folder of the host and below it.
    pub below: bool,
    /// Leaves out entries that have no valid name on the volume.
    pub skip: bool,
    /// Gives each new file the time at which its host file was changed.
    pub dated: bool,
}

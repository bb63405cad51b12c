//! The reason for each refusal, and a remedy: a row for each name under which `f11fs` prints one.
ghost use Rattle.std.specs.Prelude.{◌≡◌, option_map, map};
ghost use Rattle.std.specs.List.{find};
ghost use Rattle.std.specs.Str.{bytes_eq};
ghost use Rattle.ods_shell.specs.Remedies.{row_of, row_words, advice_words, words_of};

/// The reason for a refusal, and a remedy, as a line prints them after its name.
#[derive(Clone, Copy, Debug, PartialEq, Eq)]
pub struct Advice {
    pub why: &'static str,
    pub what: &'static str,
}

/// A row of the table: the name of a refusal, and the advice.
#[derive(Clone, Copy)]
struct Row {
    name: &'static str,
    advice: Advice,
}

/// The table. docs/REFUSALS.md has the same rows, which docs/check_refusals sees to.
const ROWS: [Row; 32] = [
    Row {
        name: "NoSuchFile",
        advice: Advice {
            why: "no file has this ID, and the ID of a deleted file is not used again",
            what: "'find' shows the IDs of all files",
        },
    },
    Row {
        name: "Reserved",
        advice: Advice {
            why: "files 1 to 5 belong to the volume, and are not changed",
            what: "'stat' shows them, and 'get --raw' extracts their blocks",
        },
    },
    Row {
        name: "NotADirectory",
        advice: Advice {
            why: "it is not a directory",
            what: "'ls' shows which files are directories: their type is DIR",
        },
    },
    Row {
        name: "IsDirectory",
        advice: Advice {
            why: "it is a directory, and the command needs a file",
            what: "'ls' shows the files in it",
        },
    },
    Row {
        name: "BadCount",
        advice: Advice {
            why: "more than 65535 blocks, none at all, or more than the file has",
            what: "'stat' shows the number of its blocks",
        },
    },
    Row {
        name: "Denied",
        advice: Advice {
            why: "the protection of the file denies this access to the user",
            what: "act as its owner, or as a system user with -u [1,1]",
        },
    },
    Row {
        name: "NoSuchBlock",
        advice: Advice {
            why: "the file has no such block",
            what: "'stat' shows the number of its blocks",
        },
    },
    Row {
        name: "NoSuchName",
        advice: Advice {
            why: "the directory has no such name, type and version",
            what: "'ls' shows its entries",
        },
    },
    Row {
        name: "NameTaken",
        advice: Advice {
            why: "the directory already has this name, type and version",
            what: "without a version, the file receives the next version",
        },
    },
    Row {
        name: "VersionsFull",
        advice: Advice {
            why: "version 32767 of this name exists, and it is the last possible version",
            what: "specify a free version, or remove that one with 'rm'",
        },
    },
    Row {
        name: "NotEmpty",
        advice: Advice {
            why: "the directory is not empty",
            what: "'ls' shows its entries, and 'rm' removes them",
        },
    },
    Row {
        name: "ListFull",
        advice: Advice {
            why: "the run has more changes than one list holds",
            what: "make them in several runs",
        },
    },
    Row {
        name: "VolumeFull",
        advice: Advice {
            why: "the volume has too few free blocks",
            what: "'df' shows the number of free blocks, and 'rm' frees some",
        },
    },
    Row {
        name: "HeadersFull",
        advice: Advice {
            why: "no file number is free, or INDEXF.SYS cannot grow for another header",
            what: "'rm' frees numbers, and 'df' shows how many headers are ready",
        },
    },
    Row {
        name: "ChainFull",
        advice: Advice {
            why: "the file would need more than 256 headers, since the free blocks are scattered",
            what: "'df' shows the longest free run, and 'rm' can make a longer one",
        },
    },
    Row {
        name: "NoMemory",
        advice: Advice {
            why: "out of memory",
            what: "give the program more memory",
        },
    },
    Row {
        name: "NotWholeBlocks",
        advice: Advice {
            why: "the length is not a multiple of 512 bytes",
            what: "pad the last block of a copy with zeros",
        },
    },
    Row {
        name: "TooBig",
        advice: Advice {
            why: "it has more than 1048576 blocks",
            what: "larger volumes cannot be read",
        },
    },
    Row {
        name: "ReadFailed",
        advice: Advice {
            why: "the host cannot read it",
            what: "check that it exists and that you may read it",
        },
    },
    Row {
        name: "NoHome",
        advice: Advice {
            why: "no valid home block was found",
            what: "check that the image is complete, and that it is a Files-11 ODS-1 volume",
        },
    },
    Row {
        name: "BadIndex",
        advice: Advice {
            why: "INDEXF.SYS is missing, too short, or not at the LBN in the home block",
            what: "'check --all' shows what is wrong with it",
        },
    },
    Row {
        name: "BadStorageMap",
        advice: Advice {
            why: "BITMAP.SYS is missing or too short",
            what: "'check --all' shows what is wrong with it",
        },
    },
    Row {
        name: "BadMaster",
        advice: Advice {
            why: "the master directory, file 4, is missing",
            what: "'rescue' extracts the files",
        },
    },
    Row {
        name: "UnsupportedMap",
        advice: Advice {
            why: "a header has block pointers in a format other than 1",
            what: "'rescue' extracts the other files",
        },
    },
    Row {
        name: "BadChain",
        advice: Advice {
            why: "the headers of a file do not form a valid chain",
            what: "'rescue' extracts the other files",
        },
    },
    Row {
        name: "OutsideVolume",
        advice: Advice {
            why: "a file has blocks past the end of the image",
            what: "'rescue' extracts the other files",
        },
    },
    Row {
        name: "DoublyUsed",
        advice: Advice {
            why: "a block belongs to two files, or to one file twice",
            what: "'repair share' gives each file its own blocks, and 'check --all' lists all such blocks",
        },
    },
    Row {
        name: "MarkedFree",
        advice: Advice {
            why: "a block of a file is marked as free in BITMAP.SYS",
            what: "'repair used' marks all such blocks as used, and 'check --all' lists them",
        },
    },
    Row {
        name: "BadDirectory",
        advice: Advice {
            why: "a directory has an entry that is not valid",
            what: "'check --all' lists all such directories, and 'rescue' extracts the files",
        },
    },
    Row {
        name: "DuplicateName",
        advice: Advice {
            why: "two entries of a directory have the same name, type and version",
            what: "'repair double' changes the version of one of them, and 'check --all' lists all of them",
        },
    },
    Row {
        name: "EndPastBlocks",
        advice: Advice {
            why: "the end of the file is past its last block",
            what: "'get --raw' extracts all its blocks",
        },
    },
    Row {
        name: "BadName",
        advice: Advice {
            why: "a name has at most 9 characters, and a type at most 3, of A to Z, 0 to 9 and $",
            what: "'put FILE PATH' stores it under another name",
        },
    },
];

/// Returns the reason for the refusal with this name, and a remedy. Returns `None` if the table has no row for the name.
pub fn remedy(name: &str) -> Option<Advice>
    ensures { option_map advice_words result ≡ option_map row_words (row_of name.now) }
{
    let rows: [Row; 32] = ROWS;
    advice_in(&rows, name)
}

/// The advice of the row of this name in a table, in the words of the definitions.
fn advice_in(rows: &[Row], name: &str) -> Option<Advice>
    ensures { option_map advice_words result ≡ option_map row_words (find (λ r. bytes_eq r.0 name.now) (map words_of rows.now)) }
{
    first_of(rows, name)
}

/// The advice of the first row of this name.
fn first_of(rows: &[Row], name: &str) -> Option<Advice>
    ensures { result ≡ option_map (λ r. r.advice) (find (λ r. bytes_eq r.name.now name.now) rows.now) }
{
    rows.iter()
        .find(|row| row.name == name)
        .map(|row| row.advice)
}

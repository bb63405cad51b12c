//! The words of the command line: `f11 [IMAGE] [--limit N] [--stamp S] [--out FILE] [--header N] [SCRIPT..]`.
ghost use Rattle.std.specs.Prelude.{◌≡◌, ◌==◌, ◌≤◌, IfOk, IfSome, length, vec_len};
ghost use Rattle.ods_cli.specs.Runs.{IsHeaderNumber, IsLimit};

use clap::{Arg, ArgMatches, Command, Error, value_parser};
use ods_request::Stamp;
use ods_views::MOST_SESSIONS;
use ods_words::{WordsFault, tell_error};
use std::alloc::{AllocError, Global};
use std::convert::AsStr;

/// How many requests are accepted where no limit is given.
const LIMIT: u32 = 4096;

/// The stamp of new files where none is given.
const STAMP: &str = "01JAN80000000";

/// The parsed words of the command line.
#[derive(Debug, PartialEq, Eq, Drop)]
pub struct Words<'a> {
    /// The path of an image. With none, it is the sample volume of 40 blocks.
    pub image: Option<&'a str>,
    /// The number, from 1 to 16, of the requested header. With none, scripts run on the image.
    pub header: Option<u16>,
    /// The highest number of accepted requests, from 1 to 65,536.
    pub limit: u32,
    /// The stamp of new files.
    pub stamp: Stamp,
    /// The path of the file to which the image is written, if one is given.
    pub out: Option<&'a str>,
    /// The paths of at most 8 scripts.
    pub scripts: Vec<&'a str>,
    /// Whether there is no word at all.
    pub is_bare: bool,
}

/// Parses the words after the program's name. `--version` prints `version` after the name. The error is the line for wrong words, or out of memory.
pub fn parse_words<'a, S: AsStr>(
    alloc: Global,
    words: &'a [S],
    version: &'a str,
) -> Result<Words<'a>, WordsFault>
    ensures header { IfOk result (λ words. IfSome words.header IsHeaderNumber) }
    ensures limit { IfOk result (λ words. IsLimit words.limit) }
    ensures scripts { IfOk result (λ words. vec_len words.scripts ≤ MOST_SESSIONS) }
    ensures bare { IfOk result (λ found. found.is_bare ≡ (length words.now == 0)) }
{
    match matches(alloc, words, version) {
        Ok(matches) => found_words(alloc, &matches, words.is_empty()),
        Err(error) => Err(tell_error(alloc, &error)?),
    }
}

/// What the words ask for, by what clap found in them.
fn found_words<'a>(
    alloc: Global,
    matches: &ArgMatches<'a>,
    is_bare: bool,
) -> Result<Words<'a>, WordsFault>
    ensures header { IfOk result (λ words. IfSome words.header IsHeaderNumber) }
    ensures limit { IfOk result (λ words. IsLimit words.limit) }
    ensures scripts { IfOk result (λ words. vec_len words.scripts ≤ MOST_SESSIONS) }
    ensures bare { IfOk result (λ words. words.is_bare ≡ is_bare) }
{
    let scripts = script_paths(alloc, matches)?;
    let given = matches.get_str("stamp").unwrap_or(STAMP);
    let Some(stamp) = Stamp::parse(given.as_bytes()) else {
        let line = format!(in alloc;
            "error: invalid value '{given}' for '--stamp <S>': it is not of the form DDMMMYYHHMMSS"
        )?;
        return Err(WordsFault::Wrong(line));
    };
    Ok(Words {
        image: matches.get_str("image"),
        header: header_number(matches),
        limit: limit(matches),
        stamp,
        out: matches.get_str("out"),
        scripts,
        is_bare,
    })
}

/// The number of the header that is asked for. Clap has refused any that is not from 1 to 16.
fn header_number(matches: &ArgMatches<'_>) -> Option<u16>
    ensures { IfSome result IsHeaderNumber }
{
    match matches.get_one::<u16>("header") {
        Some(number) if 1 <= number && number <= 16 => Some(number),
        _ => None,
    }
}

/// How many requests are accepted at most. Clap has refused any number that is not from 1 to 65,536.
fn limit(matches: &ArgMatches<'_>) -> u32
    ensures { IsLimit result }
{
    match matches.get_one::<u32>("limit") {
        Some(number) if 1 <= number && number <= 65_536 => number,
        _ => LIMIT,
    }
}

/// The paths of the scripts.
fn script_paths<'a>(alloc: Global, matches: &ArgMatches<'a>) -> Result<Vec<&'a str>, AllocError>
    ensures { IfOk result (λ paths. vec_len paths ≤ MOST_SESSIONS) }
{
    match matches.get_strs("script") {
        Some(given) => first_paths(alloc, given),
        None => Ok(Vec::new(alloc)),
    }
}

/// At most 8 paths. Clap has refused more.
fn first_paths<'a>(alloc: Global, given: &[&'a str]) -> Result<Vec<&'a str>, AllocError>
    ensures { IfOk result (λ paths. vec_len paths ≤ MOST_SESSIONS) }
{
    let mut paths = Vec::new(alloc);
    for path in given {
        if paths.len() < MOST_SESSIONS {
            paths.push(*path)?;
        }
    }
    Ok(paths)
}

/// What clap finds in the words.
fn matches<'a, S: AsStr>(
    alloc: Global,
    words: &'a [S],
    version: &'a str,
) -> Result<ArgMatches<'a>, Error> {
    Command::new(alloc, "f11")
        .version(version)
        .about("Serves volumes of RSX-11, Files-11 structure level 1")
        .override_usage("f11 [IMAGE] [--limit N] [--stamp S] [--out FILE] [--header N] [SCRIPT..]")
        .after_help(AFTER_HELP)
        .no_binary_name(true)
        .arg(image(alloc))?
        .arg(scripts(alloc))?
        .arg(limit_word(alloc))?
        .arg(stamp_word(alloc))?
        .arg(out_word(alloc))?
        .arg(header_word(alloc)?)?
        .try_get_matches_from(words)
}

fn image<'a>(alloc: Global) -> Arg<'a> {
    Arg::new(alloc, "image")
        .value_name("IMAGE")
        .help("The image to read. Default: a sample volume of 40 blocks")
}

fn scripts<'a>(alloc: Global) -> Arg<'a> {
    Arg::new(alloc, "script")
        .value_name("SCRIPT")
        .num_args(0..=MOST_SESSIONS)
        .help("Scripts, at most 8, each of at most 1,048,576 bytes, served in parallel")
}

fn limit_word<'a>(alloc: Global) -> Arg<'a> {
    Arg::new(alloc, "limit")
        .long("limit")
        .value_name("N")
        .value_parser(value_parser!(u32).range(1..=65_536))
        .help("Accept at most N requests, 1 to 65536. Default: 4096")
}

fn stamp_word<'a>(alloc: Global) -> Arg<'a> {
    Arg::new(alloc, "stamp").long("stamp").value_name("S").help(
        "The date and time of new files, DDMMMYYHHMMSS. Default: 01JAN80000000",
    )
}

fn out_word<'a>(alloc: Global) -> Arg<'a> {
    Arg::new(alloc, "out")
        .long("out")
        .value_name("FILE")
        .help("Write the image to FILE at the end. FILE may be IMAGE")
}

fn header_word<'a>(alloc: Global) -> Result<Arg<'a>, AllocError> {
    Arg::new(alloc, "header")
        .long("header")
        .value_name("N")
        .value_parser(value_parser!(u16).range(1..=16))
        .help("Print the line of header N, 1 to 16, and mount nothing")
        .conflicts_with("out")?
        .conflicts_with("script")
}

/// What the help says behind the words.
const AFTER_HELP: &str =
    "Without any argument, f11 reads one script from standard input and serves it on the sample volume.

Each line of a script is a command. Its reply is OK, NO with a refusal, or BAD with the number of the line:
  USER [g,m]              act as this user; the first is [1,1]
  CREATE name n           make a file of n blocks
  EXTEND id n             add n blocks
  TRUNCATE id n           keep the first n blocks
  DELETE id               delete a file
  ENTER id name id        enter a name in a directory
  LOOK id name            look up a name
  REMOVE id name          remove a name
  READ id vbn             read a block
  WRITE id vbn block      write a block, in hex
  LIST id                 list a directory
  STAT id                 describe a file
  SETUSER id attributes   set a file's attributes, in hex
  VIEW LOOK, READ, STAT   look without waiting for other sessions
An id is number,sequence or $, the file that was last made, found or removed: CREATE A.TXT;1 3, then WRITE $ 1 48690d0a.

The status is 0 if all scripts were served;
1 if f11 refuses the image or the header;
2 if an argument is not valid, or a script is too large;
3 if reading, writing, memory or a thread fails;
4 if the list of the volume differs from the lists of the sessions.";

//! The texts of the help of all commands.

/// The purpose of the program.
pub(crate) const ABOUT: &str =
    "List, check, copy and change the files of RSX-11 disk images (Files-11 structure level 1, ODS-1)";

/// The text that the help prints after the words.
pub(crate) const AFTER_HELP: &str =
    "A path names files on the volume, such as [1,2]NOTES.TXT;3 or 1,2/NOTES.TXT.
In a shell, put quotes around '[1,2]' and ';*'. The form 1,2/NOTES.TXT needs none. A path has these parts:
  [1,2]   the directory of group 1, member 2, both in octal; also 1,2
  [NAME]  a directory in the master directory; also NAME
  [A.B]   directory B in directory A; also A/B
  [0,0]   the master directory. Default: this one
  [...]   all directories
  NAME.   a file with no type. A name without a dot is a directory
  *, ?    any characters; exactly one character. A pattern without a dot matches all types
  DK0:    a device before a path, which f11fs ignores
  ;3      version 3. Default: the highest version. For ls and find: all versions
  ;-1     the lowest version
  ;*      all versions
  #6,1    the file with the ID 6,1, its file number and its sequence number

Detach an image from an emulator before you change it. An emulator takes no lock, and goes on writing to the old file.
f11fs refuses to change an image that another process has open, as far as /proc shows it. --force changes it anyway.
A changed image keeps its owner, group and mode. Access control lists (ACLs) and other attributes of its file are lost.

f11fs makes a change whole or not at all. It locks the image, writes a new one next to it, and reads that back.
Then the new image takes the name of the old one. f11fs follows a symbolic link to the image.
A new file gets the local time of the host. TZ sets the time zone. Default: /etc/localtime, otherwise UTC.
The date of a file has only the last two digits of the year.

A FILE of commands has one command a line, and at most 1 MiB. Spaces separate words, as in a shell.
Quotes, '..' or \"..\", keep a word together. A # after a space begins a comment.
f11fs saves the image once, after the last command. It prints the output of all commands then.

The status is 0 if the command succeeds;
1 if f11fs refuses the image;
2 if a word of the command line, or a path, is not valid;
3 if reading, writing, locking or memory fails, or a file exists that must not exist;
5 if f11fs refuses a file or a change;
6 if a path finds nothing;
7 if check or rescue finds a problem, or cmp finds a difference.

f11fs COMMAND --help describes a command. For more, read the manual: man f11fs";

//! The facts that a Stat returns about a file.
ghost use Rattle.std.specs.Prelude.{◌≡◌, ℕ, List, MatchResult};
ghost use Rattle.ods_base.specs.declared.file_id.Uic.{Uic};
ghost use Rattle.ods_space.specs.{Files.IsFile, Files.HasBlocks};
ghost use Rattle.ods_mount.specs.{Faults.contents_of, Sound.IsSoundBy};
ghost use Rattle.ods_request.specs.{declared.requests.Request.TheVariants.Stat as StatRequest, declared.answers.Answer.TheVariants.Info, Steps.kind_of};
ghost use Rattle.ods_state.specs.{Contents.body_of, Change.IsAnsweredBy, Served.IsRefusalOf};
ghost use Rattle.ods_space.specs.Disks.{header_on, on};

use crate::opening::{OpenDirectory, named_header};
use ods_base::{Block, FileId};
use ods_directory::name_count;
use ods_header::{attributes, ident, is_directory, owner, protection, system_char, user_char};
use ods_request::{Kind, Refusal, Stat};
use ods_space::{Disk, count_whole};

/// Returns the facts about a file to any user. The only fault is that the file does not exist. It allocates no memory.
pub fn stat(disk: &Disk<'_>, file: FileId) -> Result<Stat, Refusal>
    requires { on IsSoundBy disk.now }
    ensures { MatchResult result (λ stat. (who : Uic) → on IsAnsweredBy disk.now who (StatRequest file) (Info stat))
        (λ f. (who : Uic) → on IsRefusalOf disk.now who (StatRequest file) f) }
{
    let Some(block) = named_header(disk, file) else {
        return Err(Refusal::NoSuchFile);
    };
    Ok(Stat {
        file,
        ident: ident(block),
        owner: owner(block),
        protection: protection(block),
        user_char: user_char(block),
        system_char: system_char(block),
        kind: kind(disk, file.number, block),
    })
}

/// What is shown of the body of a file with this first header.
fn kind(disk: &Disk<'_>, number: u16, block: &Block) -> Kind
    requires sound { on IsSoundBy disk.now }
    requires file { on IsFile disk.now number }
    requires header { block.now ≡ header_on disk.now number }
    ensures { (held : List ℕ) → on HasBlocks disk.now number held → result ≡ kind_of (body_of number block.now (contents_of disk.now.image.now held)) }
{
    if number <= 2 {
        return Kind::System;
    }
    if is_directory(number, block) {
        let directory = OpenDirectory::of(disk, number, block);
        return Kind::Directory {
            names: name_count(&directory.blocks, directory.mark) as u32,
        };
    }
    Kind::Plain {
        blocks: count_whole(disk, number, block),
        attributes: attributes(block),
    }
}
